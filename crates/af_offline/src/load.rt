//! What is loaded before a session is played: the script, and the files of its tracks.
ghost use Rattle.std.specs.Prelude.{◌≡◌, ◌*◌, ◌≤◌, ◌∷◌, [], All, Err, length, IfOk, ◌^◌};
ghost use Rattle.af_io.specs.Files.{SameFiles};
ghost use Rattle.af_io.specs.Pcm.{frame_width};
ghost use Rattle.af_script.specs.Bounds.{most_tracks};
ghost use Rattle.af_script.specs.Form.{IsTrack};
ghost use Rattle.af_script.specs.Reading.{script_of};
ghost use Rattle.af_party.specs.Works.{frames_to_come};
ghost use Rattle.af_offline.specs.Asked.{enough_of, frames_in, file_within, loaded_of, script_or, session_in, track_file_in, tracks_in};
ghost use Rattle.af_offline.specs.Loading.{file_view, loaded_view, AreFilesFor, AreServed, Serves};
ghost use Rattle.af_offline.specs.Status.{HasFault, IsNoUsage, Meets};

use crate::status::{FileFault, Refusal, Role, Stop, Why};
use af_io::{Load, Pcm, PcmFault, Store, StoreError, frames_of};
use af_script::{Op, ReadError, Script, TrackSpec};
use std::alloc::Global;

/// The most bytes of a script, of a track's file, and of all tracks' files.
const MOST_SCRIPT: u64 = 1 << 20;

pub const MOST_FILE: u64 = 1 << 23;

const MOST_FILES: u64 = 1 << 24;

/// The refusal of a file.
pub fn file_fault(role: Role, why: Why) -> Stop
    ensures { result ≡ Stop.Refused (Refusal.File (record { role = role; why = why })) }
{
    Stop::Refused(Refusal::File(FileFault { role, why }))
}

/// Loads a file of at most `limit` bytes in place of what `bytes` has.
fn load_into<S: Store>(
    store: &mut S,
    name: &str,
    role: Role,
    limit: u64,
    bytes: &mut Vec<u8>,
) -> Result<(), Stop>
    ensures loaded { S.told store.old → Meets (λ _. bytes.new.items) result (file_within role limit (S.files store.old name.now)) }
    ensures within { IfOk result (λ _. length bytes.new.items ≤ limit) }
    ensures same { S.told store.old → SameFiles (S.files store.old) (S.files store.new) }
    ensures tells { S.told store.old → S.told store.new }
    ensures cause { HasFault (S.faults store.old) (S.faults store.new) result }
    ensures words { IsNoUsage result }
{
    bytes.clear();
    match store.load(name, limit, bytes) {
        Ok(Load::Whole) => Ok(()),
        Ok(Load::Missing) => Err(file_fault(role, Why::Missing)),
        Ok(Load::Long) => Err(file_fault(role, Why::Long)),
        Err(StoreError::Failed) => Err(Stop::Store),
        Err(StoreError::Memory) => Err(Stop::Memory),
    }
}

/// Loads a file of at most `limit` bytes.
pub fn load_file<S: Store>(
    alloc: Global,
    store: &mut S,
    name: &str,
    role: Role,
    limit: u64,
) -> Result<Vec<u8>, Stop>
    ensures loaded { S.told store.old → Meets (λ bytes. bytes.items) result (file_within role limit (S.files store.old name.now)) }
    ensures within { IfOk result (λ bytes. length bytes.items ≤ limit) }
    ensures same { S.told store.old → SameFiles (S.files store.old) (S.files store.new) }
    ensures tells { S.told store.old → S.told store.new }
    ensures cause { HasFault (S.faults store.old) (S.faults store.new) result }
    ensures words { IsNoUsage result }
{
    let mut bytes = Vec::new(alloc);
    load_into(store, name, role, limit, &mut bytes)?;
    Ok(bytes)
}

/// The script that bytes are.
fn script_in(alloc: Global, bytes: &[u8]) -> Result<Script, Stop>
    ensures script { Meets (λ script. script) result (script_or (script_of bytes.now)) }
    ensures faultless { result ≡ Err Stop.Store → ⊥ }
    ensures words { IsNoUsage result }
{
    match af_script::read(alloc, bytes) {
        Ok(script) => Ok(script),
        Err(ReadError::Fault(fault)) => Err(Stop::Refused(Refusal::Script(fault))),
        Err(ReadError::Memory) => Err(Stop::Memory),
    }
}

/// The frames of the file of a track with a number.
pub fn frames_in(alloc: Global, number: u32, mono: bool, bytes: &[u8]) -> Result<Pcm, Stop>
    ensures frames { Meets (λ pcm. pcm) result (frames_in number mono bytes.now) }
    ensures few { IfOk result (λ pcm. length pcm * frame_width mono ≤ length bytes.now) }
    ensures faultless { result ≡ Err Stop.Store → ⊥ }
    ensures words { IsNoUsage result }
{
    match frames_of(alloc, bytes, mono) {
        Ok(pcm) => Ok(pcm),
        Err(PcmFault::Ragged { length }) => {
            Err(file_fault(Role::Track(number), Why::Ragged { length }))
        }
        Err(PcmFault::Memory) => Err(Stop::Memory),
    }
}

/// The frames that an op writes.
fn written_by(op: Op) -> u64
    ensures value { result ≡ frames_to_come (op ∷ []) }
    ensures bound { result ≤ 4294967295 }
{
    match op {
        Op::Write { count } => u64::from(count),
        _ => 0,
    }
}

/// The frames that ops write.
fn frames_asked(ops: &[Op]) -> u64
    requires { length ops.now ≤ 4097 }
    ensures { result ≡ frames_to_come ops.now }
{
    let mut asked = 0;
    for i in 0..ops.len() {
        asked += written_by(ops[i]);
    }
    asked
}

/// The frames of a track's file, if they are at least as many as its client writes.
fn enough_of(number: u32, ops: &[Op], pcm: Pcm) -> Result<Pcm, Stop>
    requires { length ops.now ≤ 4097 }
    ensures enough { Meets (λ pcm. pcm) result (enough_of number (frames_to_come ops.now) pcm) }
    ensures serves { IfOk result (λ same. (same ≡ pcm) × (frames_to_come ops.now ≤ length same)) }
    ensures faultless { result ≡ Err Stop.Store → ⊥ }
    ensures words { IsNoUsage result }
{
    let frames = pcm.frames().len() as u64;
    let asked = frames_asked(ops);
    if frames < asked {
        let why = Why::Short { frames, asked };
        return Err(file_fault(Role::Track(number), why));
    }
    Ok(pcm)
}

/// The frames of a track's file, and how many bytes the files have up to this one.
#[derive(Drop)]
struct TrackFile {
    pcm: Pcm,
    total: u64,
}

/// Loads the file of a track with a number, behind files of `total` bytes. Its bytes take the place of those of the file before, so that they need no room of their own.
fn load_track<S: Store>(
    alloc: Global,
    store: &mut S,
    number: u32,
    total: u64,
    track: &TrackSpec,
    bytes: &mut Vec<u8>,
) -> Result<TrackFile, Stop>
    requires track { IsTrack track.now }
    requires total { total ≤ 2 ^ 24 }
    ensures file { S.told store.old → Meets file_view result (track_file_in (S.files store.old) number total track.now) }
    ensures serves { IfOk result (λ file. Serves track.now.ops file.pcm) }
    ensures total { IfOk result (λ file. file.total ≤ 2 ^ 24) }
    ensures same { S.told store.old → SameFiles (S.files store.old) (S.files store.new) }
    ensures tells { S.told store.old → S.told store.new }
    ensures cause { HasFault (S.faults store.old) (S.faults store.new) result }
    ensures words { IsNoUsage result }
{
    let name = track.file.as_str();
    load_into(store, name, Role::Track(number), MOST_FILE, bytes)?;
    let total = total + bytes.len() as u64;
    if total > MOST_FILES {
        let why = Why::Total { bytes: total };
        return Err(file_fault(Role::Track(number), why));
    }
    let pcm = frames_in(alloc, number, track.mono, bytes)?;
    let pcm = enough_of(number, track.ops.as_slice(), pcm)?;
    Ok(TrackFile { pcm, total })
}

/// Loads the files of the tracks in order.
fn load_tracks<S: Store>(
    alloc: Global,
    store: &mut S,
    tracks: &[TrackSpec],
) -> Result<Vec<Pcm>, Stop>
    requires tracks { All IsTrack tracks.now }
    requires few { length tracks.now ≤ most_tracks }
    ensures files { S.told store.old → Meets (λ files. files.items) result (tracks_in (S.files store.old) 0 0 tracks.now) }
    ensures serve { IfOk result (λ files. AreServed tracks.now files.items) }
    ensures same { S.told store.old → SameFiles (S.files store.old) (S.files store.new) }
    ensures tells { S.told store.old → S.told store.new }
    ensures cause { HasFault (S.faults store.old) (S.faults store.new) result }
    ensures words { IsNoUsage result }
{
    let mut files = Vec::new(alloc);
    let mut bytes = Vec::new(alloc);
    let mut total = 0u64;
    for (number, track) in tracks.iter().enumerate() {
        let file = load_track(alloc, store, number as u32, total, track, &mut bytes)?;
        total = file.total;
        files.push(file.pcm)?;
    }
    Ok(files)
}

/// A script, and the frames of its tracks' files.
#[derive(Drop)]
pub struct Loaded {
    pub script: Script,
    pub files: Vec<Pcm>,
}

/// Loads the files of a script's tracks.
pub fn load_files<S: Store>(alloc: Global, store: &mut S, script: Script) -> Result<Loaded, Stop>
    ensures loaded { S.told store.old → Meets loaded_view result (session_in (S.files store.old) script) }
    ensures serve { IfOk result AreFilesFor }
    ensures same { S.told store.old → SameFiles (S.files store.old) (S.files store.new) }
    ensures tells { S.told store.old → S.told store.new }
    ensures cause { HasFault (S.faults store.old) (S.faults store.new) result }
    ensures words { IsNoUsage result }
{
    let files = load_tracks(alloc, store, script.tracks())?;
    Ok(Loaded { script, files })
}

/// Loads a script and the files of its tracks.
pub fn load_script<S: Store>(alloc: Global, store: &mut S, name: &str) -> Result<Loaded, Stop>
    ensures loaded { S.told store.old → Meets loaded_view result (loaded_of (S.files store.old) name.now) }
    ensures serve { IfOk result AreFilesFor }
    ensures same { S.told store.old → SameFiles (S.files store.old) (S.files store.new) }
    ensures tells { S.told store.old → S.told store.new }
    ensures cause { HasFault (S.faults store.old) (S.faults store.new) result }
    ensures words { IsNoUsage result }
{
    let bytes = load_file(alloc, store, name, Role::Script, MOST_SCRIPT)?;
    let script = script_in(alloc, &bytes)?;
    load_files(alloc, store, script)
}
