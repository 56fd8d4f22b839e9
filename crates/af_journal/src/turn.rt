//! The lines of a turn of the normal mixer.
ghost use Rattle.std.specs.Prelude.{◌∷◌, [], map, flat_map, length, IfOk, ◌<◌, ◌^◌};
ghost use Rattle.af_base.specs.Sample.{packed_word};
ghost use Rattle.af_base.specs.Turn.{take_seen, track_seen, turn_of};
ghost use Rattle.af_journal.specs.Lines.{numbers};
ghost use Rattle.af_journal.specs.Texts.{GoesOn, command_words, each_from, look_lines, take_lines, track_lines, turn_lines, words_after};

use crate::line::Line;
use crate::packed::{add_frames, add_two};
use crate::text::{Text, add};
use af_base::{CommandLook, Memory, NormalTake, TrackTurn, TurnEntry};

// Adds a line of a command's two words, if a look took one.
fn add_command(text: &mut Text, look: &CommandLook) -> Result<(), Memory>
    ensures { IfOk result (λ _. GoesOn text.old.bytes.items (words_after (command_words look.now)) text.new.bytes.items) }
{
    if look.seen.count() != 2 {
        return Ok(());
    }
    add_two(text, look.code, look.argument)
}

// Adds a look at a track's command block.
fn add_look(text: &mut Text, track: u32, look: &CommandLook) -> Result<(), Memory>
    ensures { IfOk result (λ _. GoesOn text.old.bytes.items (look_lines track look.now) text.new.bytes.items) }
{
    add(
        text,
        Line::Look {
            track,
            flush: look.flush,
            rear: look.rear,
            seen: look.seen,
        },
    )?;
    add_command(text, look)
}

// Adds the looks of a turn at a track's command block.
fn add_looks(text: &mut Text, track: u32, looks: &[CommandLook]) -> Result<(), Memory>
    ensures { IfOk result (λ _. GoesOn text.old.bytes.items (flat_map (look_lines track) looks.now) text.new.bytes.items) }
{
    for look in looks {
        add_look(text, track, look)?;
    }
    Ok(())
}

// Adds what a turn saw and did of one track.
fn add_track(text: &mut Text, track: u32, turn: &TrackTurn) -> Result<(), Memory>
    ensures { IfOk result (λ _. GoesOn text.old.bytes.items (track_lines track (track_seen turn.now)) text.new.bytes.items) }
{
    add_looks(text, track, turn.looks.as_slice())?;
    if turn.disabled {
        add(text, Line::Disabled { track })?;
    }
    if let Some(word) = turn.status {
        add(text, Line::Status { track, word })?;
    }
    Ok(())
}

// Adds the tracks of a turn.
fn add_tracks(text: &mut Text, tracks: &[TrackTurn]) -> Result<(), Memory>
    requires few { length tracks.now < 2 ^ 32 }
    ensures { IfOk result (λ _. GoesOn text.old.bytes.items (each_from track_lines 0 (map track_seen tracks.now)) text.new.bytes.items) }
{
    for i in 0..tracks.len() {
        add_track(text, i as u32, &tracks[i])?;
    }
    Ok(())
}

// Adds a track that was mixed.
fn add_take(text: &mut Text, take: &NormalTake) -> Result<(), Memory>
    ensures { IfOk result (λ _. GoesOn text.old.bytes.items (take_lines (take_seen take.now)) text.new.bytes.items) }
{
    add(
        text,
        Line::Take {
            track: take.track,
            gains: take.slot.gains,
            flush: take.slot.flush,
            rear: take.slot.rear,
            seen: take.slot.seen,
        },
    )?;
    add_frames(text, take.frames.as_slice())
}

// Adds the tracks that a turn mixed.
fn add_takes(text: &mut Text, takes: &[NormalTake]) -> Result<(), Memory>
    ensures { IfOk result (λ _. GoesOn text.old.bytes.items (flat_map take_lines (map take_seen takes.now)) text.new.bytes.items) }
{
    for take in takes {
        add_take(text, take)?;
    }
    Ok(())
}

/// Adds a turn.
pub(crate) fn add_turn(text: &mut Text, turn: &TurnEntry) -> Result<(), Memory>
    requires few { length turn.now.tracks.items < 2 ^ 32 }
    ensures { IfOk result (λ _. GoesOn text.old.bytes.items (turn_lines (turn_of turn.now)) text.new.bytes.items) }
{
    if turn.ended {
        return add(text, Line::Ended);
    }
    add(
        text,
        Line::Turn {
            room: turn.room,
            ack: turn.ack,
            cycle: turn.cycle,
        },
    )?;
    add_tracks(text, turn.tracks.as_slice())?;
    add(text, Line::Pushed { push: turn.push })?;
    add_takes(text, turn.mixes.as_slice())
}
