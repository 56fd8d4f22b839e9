//! A journal is written.
ghost use Rattle.std.specs.Prelude.{◌≡◌, ◌+◌, ◌<◌, ◌++◌, take, drop, length, IfOk, OnErr, All};
ghost use Rattle.af_model.specs.Journals.{entries_of, round_at};
ghost use Rattle.af_model.specs.JournalForm.{IsJournal};
ghost use Rattle.af_journal.specs.Texts.{GoesOn, call_lines, client_lines, each_from, fast_lines, round_lines, text_of, text_of_lines, turns_lines};

use crate::fast::add_entries;
use crate::line::Line;
use crate::text::{Text, add};
use crate::turn::add_turn;
use af_base::{ClientCall, Memory};
use af_model::Journal;
use std::alloc::Global;

// Adds some calls of a client.
fn add_calls(text: &mut Text, calls: &[ClientCall]) -> Result<(), Memory>
    ensures { IfOk result (λ _. GoesOn text.old.bytes.items (call_lines calls.now) text.new.bytes.items) }
{
    for call in calls {
        add(text, Line::Call { call: *call })?;
    }
    Ok(())
}

// Adds a client that made calls.
fn add_client(text: &mut Text, track: u32, calls: &[ClientCall]) -> Result<(), Memory>
    ensures { IfOk result (λ _. GoesOn text.old.bytes.items (client_lines track calls.now) text.new.bytes.items) }
{
    if calls.is_empty() {
        return Ok(());
    }
    add(text, Line::Client { track })?;
    add_calls(text, calls)?;
    Ok(())
}

// Adds the clients of a round.
fn add_clients(text: &mut Text, journal: &Journal, round: usize) -> Result<(), Memory>
    requires round { round < length journal.now.rounds }
    requires whole { length (round_at journal.now round).calls ≡ journal.now.tracks }
    ensures { IfOk result (λ _. GoesOn text.old.bytes.items (each_from client_lines 0 (round_at journal.now round).calls) text.new.bytes.items) }
{
    for track in 0..journal.tracks() {
        add_client(text, track, journal.client(round, track))?;
    }
    Ok(())
}

// Adds the turn of a round, if there was one.
fn add_turn_of(text: &mut Text, journal: &Journal, round: usize) -> Result<(), Memory>
    requires round { round < length journal.now.rounds }
    requires form { IsJournal journal.now }
    ensures { IfOk result (λ _. GoesOn text.old.bytes.items (turns_lines (round_at journal.now round).turn) text.new.bytes.items) }
{
    let _tracks = journal.tracks();
    let Some(turn) = journal.turn(round) else {
        return Ok(());
    };
    add_turn(text, turn)?;
    Ok(())
}

// Adds the entries of a round, if there are some.
fn add_fast(text: &mut Text, journal: &Journal, round: usize) -> Result<(), Memory>
    requires round { round < length journal.now.rounds }
    ensures { IfOk result (λ _. GoesOn text.old.bytes.items (fast_lines (round_at journal.now round).entries) text.new.bytes.items) }
{
    let log = journal.log();
    let (first, count) = journal.cycles(round);
    add_entries(text, log, first, count)?;
    Ok(())
}

// Adds a round.
fn add_round(text: &mut Text, journal: &Journal, round: usize) -> Result<(), Memory>
    requires round { round < length journal.now.rounds }
    ensures { IfOk result (λ _. GoesOn text.old.bytes.items (round_lines (round_at journal.now round)) text.new.bytes.items) }
{
    let _log = journal.log();
    add(text, Line::Round)?;
    add_clients(text, journal, round)?;
    add_turn_of(text, journal, round)?;
    add_fast(text, journal, round)?;
    Ok(())
}

// The text of a journal.
fn text_of(alloc: Global, journal: &Journal) -> Result<Vec<u8>, Memory>
    ensures { IfOk result (λ text. text.items ≡ text_of journal.now) }
{
    let mut text = Text {
        bytes: Vec::new(alloc),
    };
    for round in 0..journal.rounds() {
        add_round(&mut text, journal, round)?;
    }
    Ok(text.bytes)
}

/// Writes a journal: its text is appended to `out`. Memory is its only refusal; `out` is then as before.
///
/// A line is a mark and decimal numbers with one space between them, and ends in LF (docs/FORMATS.md, 'The journal').
pub fn write(alloc: Global, journal: &Journal, out: &mut Vec<u8>) -> Result<(), Memory>
    ensures written { IfOk result (λ _. out.new.items ≡ out.old.items ++ text_of journal.now) }
    ensures kept { OnErr result (out.new.items ≡ out.old.items) }
{
    let text = text_of(alloc, journal)?;
    // An empty `out` takes the text as it is, so that it isn't copied.
    if out.is_empty() {
        *out = text;
        return Ok(());
    }
    out.extend_from_slice(&text)?;
    Ok(())
}
