//! A turn of the normal mixer is read.
ghost use Rattle.std.specs.Prelude.{◌≡◌, ◌∷◌, ◌++◌, [], ◌<◌, ◌≤◌, List, Option, length, map, flat_map, take, All, IfOk, MatchOption};
ghost use Rattle.std.specs.Option.{option_map};
ghost use Rattle.af_base.specs.Turn.{TrackSeen, Turn, take_seen, track_seen, turn_of};
ghost use Rattle.af_model.specs.Cycles.{IsSeen};
ghost use Rattle.af_model.specs.JournalForm.{IsCommandLook, IsOpenTurn, IsTake, IsTurn, TracksRise};
ghost use Rattle.af_journal.specs.Judged.{first_looks, first_of_turn};
ghost use Rattle.af_journal.specs.Lines.{numbers};
ghost use Rattle.af_journal.specs.Taken.{Leaves, open_lines};
ghost use Rattle.af_journal.specs.Texts.{command_words, disabled_lines, each_from, look_lines, status_lines, take_lines, track_lines, turns_lines, words_after};

use crate::left::{Left, Stop, line_with, next_line, read_frames, read_words};
use crate::line::Line;
use af_base::{
    CommandLook, CommandLooks, Memory, NormalTake, NormalTakes, Push, Seen, SlotEntry, TrackTurn,
    TrackTurns, TurnEntry,
};
use std::alloc::Global;

// What a look took that showed this: the two words of a command, or none.
fn read_command(
    alloc: Global,
    left: &mut Left<'_>,
    flush: u32,
    rear: u32,
    seen: Seen,
) -> Result<CommandLook, Stop>
    requires seen { IsSeen seen }
    ensures lines { IfOk result (λ look. Leaves left.old.rest.now (words_after (command_words look)) left.new.rest.now) }
    ensures look { IfOk result (λ look. (look.flush ≡ flush) × (look.rear ≡ rear) × (look.seen ≡ seen)) }
    ensures form { IfOk result IsCommandLook }
{
    let mut look = CommandLook {
        flush,
        rear,
        seen,
        code: 0,
        argument: 0,
    };
    if seen.count() != 2 {
        return Ok(look);
    }
    let words = read_words(alloc, left, 2)?;
    look.code = words[0];
    look.argument = words[1];
    Ok(look)
}

// These looks in a list of their own room.
fn looks_of(alloc: Global, looks: &[CommandLook]) -> Result<CommandLooks, Memory>
    ensures { IfOk result (λ list. list.items ≡ looks.now) }
{
    let mut list = CommandLooks::with_room(alloc, looks.len())?;
    for look in looks {
        list.push(*look);
    }
    Ok(list)
}

// One look more is kept, up to so many.
fn keep(looks: &mut Vec<CommandLook>, look: CommandLook, most: usize) -> Result<(), Stop>
    requires { length looks.old.items ≤ most }
    ensures { IfOk result (λ _. looks.new.items ≡ take most (looks.old.items ++ look ∷ [])) }
{
    if looks.len() < most {
        looks.push(look)?;
    }
    Ok(())
}

// The looks of a turn at a track's command block, of which so many are kept.
fn read_looks(
    alloc: Global,
    left: &mut Left<'_>,
    track: u32,
    most: usize,
) -> Result<CommandLooks, Stop>
    ensures { IfOk result (λ kept. (looks : List CommandLook) × (kept.items ≡ take most looks) × All IsCommandLook looks × Leaves left.old.rest.now (flat_map (look_lines track) looks) left.new.rest.now) }
{
    let mut looks = Vec::new(alloc);
    'looks: while let Some(
        (
            Line::Look {
                track: own,
                flush,
                rear,
                seen,
            },
            after,
        ),
    ) = line_with(left.rest, b'q')
    {
        if own != track {
            break;
        }
        left.rest = after;
        let look = read_command(alloc, left, flush, rear, seen)?;
        keep(&mut looks, look, most)?;
    }
    Ok(looks_of(alloc, looks.as_slice())?)
}

// Whether DISABLED was set for a track.
fn read_disabled(left: &mut Left<'_>, track: u32) -> bool
    ensures { Leaves left.old.rest.now (disabled_lines track result) left.new.rest.now }
{
    match line_with(left.rest, b'b') {
        Some((Line::Disabled { track: own }, after)) if own == track => {
            left.rest = after;
            true
        }
        _ => false,
    }
}

// The status that was stored for a track, if one was.
fn read_status(left: &mut Left<'_>, track: u32) -> Option<u32>
    ensures { Leaves left.old.rest.now (status_lines track result) left.new.rest.now }
{
    match line_with(left.rest, b'a') {
        Some((Line::Status { track: own, word }, after)) if own == track => {
            left.rest = after;
            Some(word)
        }
        _ => None,
    }
}

// What a turn saw and did of one track, of whose looks so many are kept.
fn read_track(
    alloc: Global,
    left: &mut Left<'_>,
    track: u32,
    most: usize,
) -> Result<TrackTurn, Stop>
    ensures { IfOk result (λ kept. (turn : TrackSeen) × (track_seen kept ≡ first_looks most turn) × All IsCommandLook turn.looks × Leaves left.old.rest.now (track_lines track turn) left.new.rest.now) }
{
    let looks = read_looks(alloc, left, track, most)?;
    let disabled = read_disabled(left, track);
    let status = read_status(left, track);
    Ok(TrackTurn {
        looks,
        status,
        disabled,
    })
}

// What a turn saw and did of all tracks.
fn read_tracks(
    alloc: Global,
    left: &mut Left<'_>,
    tracks: u32,
    most: usize,
) -> Result<TrackTurns, Stop>
    ensures { IfOk result (λ kept. (turns : List TrackSeen) × (map track_seen kept.items ≡ map (first_looks most) turns) × (length turns ≡ tracks) × All (λ (t : TrackSeen). All IsCommandLook t.looks) turns × Leaves left.old.rest.now (each_from track_lines 0 turns) left.new.rest.now) }
{
    let mut turns = TrackTurns::with_room(alloc, tracks as usize)?;
    for track in 0..tracks {
        let turn = read_track(alloc, left, track, most)?;
        turns.push(turn);
    }
    Ok(turns)
}

// What the push answered.
fn read_push(left: &mut Left<'_>) -> Result<Push, Stop>
    ensures { IfOk result (λ push. Leaves left.old.rest.now (numbers (Line.Pushed push) ∷ []) left.new.rest.now) }
{
    match next_line(left.rest) {
        Some((Line::Pushed { push }, after)) => {
            left.rest = after;
            Ok(push)
        }
        _ => Err(Stop::Order),
    }
}

// The tracks that a turn mixed, in rising order.
fn read_takes(alloc: Global, left: &mut Left<'_>, tracks: u32) -> Result<NormalTakes, Stop>
    ensures lines { IfOk result (λ takes. Leaves left.old.rest.now (flat_map take_lines (map take_seen takes.items)) left.new.rest.now) }
    ensures form { IfOk result (λ takes. All (IsTake tracks) (map take_seen takes.items)) }
    ensures rise { IfOk result (λ takes. TracksRise 0 (map take_seen takes.items)) }
{
    let mut takes = NormalTakes::with_room(alloc, tracks as usize)?;
    let mut low = 0u32;
    'takes: while let Some(
        (
            Line::Take {
                track,
                gains,
                flush,
                rear,
                seen,
            },
            after,
        ),
    ) = line_with(left.rest, b'm')
    {
        if track < low || track >= tracks {
            return Err(Stop::Order);
        }
        left.rest = after;
        let frames = read_frames(alloc, left, seen.count())?;
        let slot = SlotEntry {
            gains,
            flush,
            rear,
            seen,
            first: 0,
        };
        takes.push(NormalTake {
            track,
            slot,
            frames,
        });
        low = track + 1;
    }
    Ok(takes)
}

// A turn that went on, after its first line; so many looks at each track are kept.
fn read_open_turn(
    alloc: Global,
    left: &mut Left<'_>,
    tracks: u32,
    most: usize,
    room: u32,
    ack: bool,
    cycle: u64,
) -> Result<TurnEntry, Stop>
    ensures { IfOk result (λ kept. (turn : Turn) × (turn_of kept ≡ first_of_turn most turn) × (turn.room ≡ room) × (turn.ack ≡ ack) × (turn.cycle ≡ cycle) × IsOpenTurn tracks turn × Leaves left.old.rest.now (open_lines turn) left.new.rest.now) }
{
    let turns = read_tracks(alloc, left, tracks, most)?;
    let push = read_push(left)?;
    let mixes = read_takes(alloc, left, tracks)?;
    Ok(TurnEntry {
        ended: false,
        room,
        ack,
        cycle,
        tracks: turns,
        push,
        mixes,
    })
}

/// The turn of a round, of so many tracks; None if there was none. So many looks at each track are kept.
pub(crate) fn read_turn(
    alloc: Global,
    left: &mut Left<'_>,
    tracks: u32,
    most: usize,
) -> Result<Option<TurnEntry>, Stop>
    ensures { IfOk result (λ kept. (turn : Option Turn) × (option_map turn_of kept ≡ option_map (first_of_turn most) turn) × MatchOption turn (Unit {0}) (IsTurn tracks) × Leaves left.old.rest.now (turns_lines turn) left.new.rest.now) }
{
    match next_line(left.rest) {
        Some((Line::Turn { room, ack, cycle }, after)) => {
            left.rest = after;
            let turn = read_open_turn(alloc, left, tracks, most, room, ack, cycle)?;
            Ok(Some(turn))
        }
        Some((Line::Ended, after)) => {
            left.rest = after;
            let turn = TurnEntry::with_room(alloc, 0, 0)?;
            Ok(Some(turn))
        }
        _ => Ok(None),
    }
}
