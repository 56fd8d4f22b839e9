//! The words of a note, each in a frame.
ghost use Rattle.std.specs.Prelude.{◌≡◌, map};
ghost use Rattle.af_base.specs.Sample.{packed_word};
ghost use Rattle.af_nblog.specs.Notes.{low_half, high_half, joined, words_of};

use crate::entries::Note;
use af_base::Frame;

// The low half of a number.
fn low_half(number: u64) -> u32
    ensures { result ≡ low_half number }
{
    (number & 0xffff_ffff) as u32
}

// The high half of a number.
fn high_half(number: u64) -> u32
    ensures { result ≡ high_half number }
{
    (number >> 32) as u32
}

// The number of these halves.
fn joined(low: u32, high: u32) -> u64
    ensures { result ≡ joined low high }
{
    u64::from(low) + (u64::from(high) << 32)
}

/// The frames whose words are those of a note.
pub(crate) fn frames_of(note: Note) -> [Frame; 8]
    ensures { map packed_word result ≡ words_of note }
{
    [
        Frame::unpack(low_half(note.place)),
        Frame::unpack(high_half(note.place)),
        Frame::unpack(low_half(note.state)),
        Frame::unpack(high_half(note.state)),
        Frame::unpack(note.kind),
        Frame::unpack(note.fulls),
        Frame::unpack(note.partials),
        Frame::unpack(note.empties),
    ]
}

/// The note whose words are those of these frames.
pub(crate) fn note_in(frames: &[Frame; 8]) -> Note
    ensures { words_of result ≡ map packed_word frames.now }
{
    Note {
        place: joined(frames[0].pack(), frames[1].pack()),
        state: joined(frames[2].pack(), frames[3].pack()),
        kind: frames[4].pack(),
        fulls: frames[5].pack(),
        partials: frames[6].pack(),
        empties: frames[7].pack(),
    }
}
