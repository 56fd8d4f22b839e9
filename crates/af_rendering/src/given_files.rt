//! Whether the files serve the tracks of a script.
ghost use Rattle.std.specs.Prelude.{◌≤◌, [], ◌∷◌, ◌≡◌, IsTrue};
ghost use Rattle.af_rendering.specs.Rendered.{HaveFiles, IsFileFor};
ghost use Rattle.af_party.specs.Works.{frames_to_come};

use af_base::Frame;
use af_io::Pcm;
use af_script::{Op, TrackSpec};

// The most frames of a file.
const MOST_FRAMES: usize = 4_194_304;

// The frames that an op writes.
fn written_by(op: Op) -> u32
    ensures { result ≡ frames_to_come (op ∷ []) }
{
    match op {
        Op::Write { count } => count,
        _ => 0,
    }
}

// Whether the ops write no more than so many frames in all.
fn write_within(ops: &[Op], most: usize) -> bool
    ensures yes { IsTrue result → frames_to_come ops.now ≤ most }
    ensures no { frames_to_come ops.now ≤ most → IsTrue result }
{
    let mut left = most;
    for i in 0..ops.len() {
        let count = written_by(ops[i]) as usize;
        if left < count {
            return false;
        }
        left -= count;
    }
    true
}

// Whether a file serves a track of these ops.
fn is_file_for(ops: &[Op], file: &[Frame]) -> bool
    ensures yes { IsTrue result → IsFileFor ops.now file.now }
    ensures no { IsFileFor ops.now file.now → IsTrue result }
{
    if file.len() > MOST_FRAMES {
        return false;
    }
    write_within(ops, file.len())
}

/// Whether each track has a file, which has the frames that the track's writes ask for, and no more than 4,194,304 frames.
pub fn have_files(tracks: &[TrackSpec], files: &[Pcm]) -> bool
    ensures yes { IsTrue result → HaveFiles (record { tracks = tracks.now; files = files.now }) }
    ensures no { HaveFiles (record { tracks = tracks.now; files = files.now }) → IsTrue result }
{
    if files.len() != tracks.len() {
        return false;
    }
    for i in 0..tracks.len() {
        let ops = tracks[i].ops.as_slice();
        let file = files[i].frames();
        if !is_file_for(ops, file) {
            return false;
        }
    }
    true
}
