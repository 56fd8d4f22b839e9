//! What a turn of the normal mixer did to the blocks, as it is noted in them.
ghost use Rattle.std.specs.Prelude.{◌≡◌, ◌↔◌, ℕ, ◌+◌, ◌<◌, ◌&&◌, IfOk, IsTrue, OnOk, length, map};
ghost use Rattle.std.specs.List.{AllByRecursion};
ghost use Rattle.af_base.specs.Turn.{take_seen, track_seen};
ghost use Rattle.af_life.specs.Kept.{is_home};
ghost use Rattle.af_model.specs.JournalForm.{TracksRise};
ghost use Rattle.af_judge.specs.Blocks.{listed_in};
ghost use Rattle.af_judge.specs.NormalLooks.{AllAnswer};
ghost use Rattle.af_judge.specs.NormalTold.{AreTaken, IsRightTake, IsTaken, TakeRight, all_known, is_shut_now, looks_told, shut_told, take_told, track_told};

use crate::block_judge::BlockJudge;
use crate::track_judge::TrackJudge;
use af_base::{CommandLook, Memory, NormalTake, TrackTurn};
use af_life::{Heard, Holder, TrackKept, is_found_shut};
use std::alloc::Global;

/// What each stream proxy knows that is home.
pub fn all_known(alloc: Global, tracks: &[TrackJudge]) -> Result<Vec<Heard>, Memory>
    ensures { IfOk result (λ own. own.items ≡ all_known tracks.now) }
{
    let mut own = Vec::new(alloc);
    for track in tracks {
        own.push(track.stream.known())?;
    }
    Ok(own)
}

// Notes the looks at a command block. Answers whether each answers as its words say.
fn all_looked(commands: &mut BlockJudge, looks: &[CommandLook]) -> Result<bool, Memory>
    ensures told { OnOk result (commands.new ≡ looks_told looks.now commands.old) }
    ensures right { IfOk result (λ right. IsTrue right ↔ AllAnswer commands.old.lawful (listed_in commands.old) looks.now) }
{
    let mut right = true;
    for look in looks {
        right &= commands.commanded(*look)?;
    }
    Ok(right)
}

// Notes the take of a track for the buffer. Answers whether its look answers as its words say, and all frames that it shows are taken, with 0 as their place.
fn take_of_track(asked: u32, track: &mut TrackJudge, take: &NormalTake) -> Result<bool, Memory>
    ensures told { OnOk result (track.new ≡ take_told asked (take_seen take.now) track.old) }
    ensures right { IfOk result (λ right. IsTrue right ↔ TakeRight asked track.old (take_seen take.now)) }
{
    let frames = take.frames.as_slice();
    let whole = frames.len() as u64 == u64::from(take.slot.seen.count());
    let fits = track.stream.played(asked, &take.slot, frames)?;
    Ok(fits & whole & (take.slot.first == 0))
}

// Notes a take for the buffer. Answers whether it is one of a track, for which it is right.
fn taken(asked: u32, tracks: &mut [TrackJudge], take: &NormalTake) -> Result<bool, Memory>
    ensures many { length tracks.new ≡ length tracks.old }
    ensures told { OnOk result (IsTaken asked (take_seen take.now) tracks.old tracks.new) }
    ensures right { IfOk result (λ right. IsTrue right ↔ IsRightTake asked tracks.old (take_seen take.now)) }
{
    let i = take.track as usize;
    if i >= tracks.len() {
        return Ok(false);
    }
    take_of_track(asked, &mut tracks[i], take)
}

/// Tells all takes for the buffer. Answers whether each is right.
pub fn all_taken(
    asked: u32,
    tracks: &mut [TrackJudge],
    takes: &[NormalTake],
) -> Result<bool, Memory>
    requires rise { TracksRise 0 (map take_seen takes.now) }
    ensures many { length tracks.new ≡ length tracks.old }
    ensures told { OnOk result (AreTaken asked (map take_seen takes.now) tracks.old tracks.new) }
    ensures right { IfOk result (λ right. IsTrue right ↔ AllByRecursion (IsRightTake asked tracks.old) (map take_seen takes.now)) }
{
    let mut right = true;
    for take in takes {
        right &= taken(asked, tracks, take)?;
    }
    Ok(right)
}

// Notes INVALID, if a track is found shut.
fn tell_shut(
    track: &mut TrackJudge,
    found: TrackKept,
    heard: Heard,
    seen: &TrackTurn,
) -> Result<(), Memory>
    ensures { OnOk result (let shut = is_shut_now found heard (track_seen seen.now) in track.new ≡ record track.old { stream = shut_told (shut && is_home found.holder) track.old.stream; commands = shut_told shut track.old.commands }) }
{
    if found.life.ended || !is_found_shut(heard, seen.looks.as_slice()) {
        return Ok(());
    }
    track.commands.set_invalid()?;
    if found.holder == Holder::Home {
        track.stream.set_invalid()?;
    }
    Ok(())
}

/// Notes what a turn did for a track. Answers whether each look answers as its words say.
pub fn tell(
    track: &mut TrackJudge,
    found: TrackKept,
    heard: Heard,
    seen: &TrackTurn,
) -> Result<bool, Memory>
    ensures told { OnOk result (track.new ≡ track_told found heard (track_seen seen.now) track.old) }
    ensures right { IfOk result (λ right. IsTrue right ↔ AllAnswer track.old.commands.lawful (listed_in track.old.commands) seen.now.looks.items) }
{
    if seen.disabled {
        track.stream.disable()?;
    }
    let right = all_looked(&mut track.commands, seen.looks.as_slice())?;
    tell_shut(track, found, heard, seen)?;
    if let Some(word) = seen.status {
        track.commands.store_status(word)?;
    }
    Ok(right)
}
