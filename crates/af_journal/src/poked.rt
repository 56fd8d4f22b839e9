//! Which blocks the rest of a text pokes.
ghost use Rattle.std.specs.Prelude.{◌≡◌, ◌==◌, ◌||◌, ℕ, ◌<◌, List, false, true, if◌then◌else◌, IfOk, length, map, slice_index_or, None, Some, All};
ghost use Rattle.std.specs.List.{AllByRecursion, list_any};
ghost use Rattle.af_runs.specs.LegalRuns.{is_poke_on};
ghost use Rattle.af_journal.specs.LineReading.{line_at};
ghost use Rattle.af_journal.specs.Lines.{Written};
ghost use Rattle.af_journal.specs.declared.line.Line.{Line};
ghost use Rattle.af_journal.specs.Pokes.{MarksAll, Notes, PokeJust, caller_after, is_poke_line, pokes};
ghost use Rattle.af_journal.specs.Ranges.{IsWritten};
ghost use Rattle.af_journal.specs.Texts.{text_of_lines};
ghost use Rattle.af_model.specs.Numbers.{FitsCall};

use crate::line::Line;
use crate::line_reading::line_of;
use crate::reading::cut_line;
use af_base::{ClientCall, Memory};
use std::alloc::Global;

// Whether a line is a call that pokes the command block, or else the stream block.
fn is_poke_line(commands: bool, line: Line) -> bool
    ensures { result ≡ is_poke_line commands line }
{
    match line {
        Line::Call {
            call: ClientCall::Poke { command, .. },
        } => command == commands,
        _ => false,
    }
}

// Whose calls follow a line, if those of `own` came before it.
fn caller_after(own: u32, line: Line) -> u32
    ensures { result ≡ caller_after own line }
{
    match line {
        Line::Client { track } => track,
        _ => own,
    }
}

// Sets the mark of a track, if it has one.
fn set_mark(marks: &mut [bool], track: u32)
    ensures many { length marks.new ≡ length marks.old }
    ensures each { (other : ℕ) → other < length marks.old → slice_index_or marks.new other false ≡ (slice_index_or marks.old other false || (track == other)) }
{
    let at = track as usize;
    if at < marks.len() {
        marks[at] = true;
    }
}

// Notes a line of the client `own`.
fn note(marks: &mut [bool], commands: bool, own: u32, line: Line)
    ensures { Notes commands own line marks.old marks.new }
{
    if is_poke_line(commands, line) {
        set_mark(marks, own);
    }
}

// Notes a line of the client `own`, as its bytes spell it. Answers whose calls follow.
fn note_part(streams: &mut [bool], commands: &mut [bool], own: u32, part: &[u8]) -> u32
    ensures other { line_at part.now ≡ None → (result ≡ own) × (streams.new ≡ streams.old) × (commands.new ≡ commands.old) }
    ensures noted { (l : Line) → line_at part.now ≡ Some l → (result ≡ caller_after own l) × Notes false own l streams.old streams.new × Notes true own l commands.old commands.new }
{
    let Some(line) = line_of(part) else {
        return own;
    };
    note(streams, false, own, line);
    note(commands, true, own, line);
    caller_after(own, line)
}

// Marks the blocks that the lines of a text poke.
fn mark_all(bytes: &[u8], streams: &mut [bool], commands: &mut [bool])
    ensures { (ws : List Written) → AllByRecursion IsWritten ws → bytes.now ≡ text_of_lines ws → MarksAll false 0 ws streams.old streams.new × MarksAll true 0 ws commands.old commands.new }
{
    let mut own = 0;
    let mut rest = bytes;
    'lines: while let Some((part, after)) = cut_line(rest) {
        own = note_part(streams, commands, own, part);
        rest = after;
    }
}

// The calls that poke these blocks of a client.
fn calls_of(alloc: Global, stream: bool, command: bool) -> Result<Vec<ClientCall>, Memory>
    ensures numbers { IfOk result (λ calls. All FitsCall calls.items) }
    ensures stream { IfOk result (λ calls. list_any (is_poke_on false) calls.items ≡ stream) }
    ensures command { IfOk result (λ calls. list_any (is_poke_on true) calls.items ≡ command) }
{
    let mut calls = Vec::new(alloc);
    if stream {
        calls.push(ClientCall::Poke {
            command: false,
            word: 0,
            value: 0,
        })?;
    }
    if command {
        calls.push(ClientCall::Poke {
            command: true,
            word: 0,
            value: 0,
        })?;
    }
    Ok(calls)
}

// The calls of clients that poke the blocks that are marked.
fn all_calls(
    alloc: Global,
    streams: &[bool],
    commands: &[bool],
) -> Result<Vec<Vec<ClientCall>>, Memory>
    requires { length commands.now ≡ length streams.now }
    ensures { IfOk result (λ clients. PokeJust (length streams.now) (λ block track. slice_index_or (if block then commands.now else streams.now) track false) (map (λ c. c.items) clients.items)) }
{
    let mut clients = Vec::with_capacity(alloc, streams.len())?;
    for track in 0..streams.len() {
        let calls = calls_of(alloc, streams[track], commands[track])?;
        clients.push(calls)?;
    }
    Ok(clients)
}

/// The calls of so many clients that poke the blocks that the lines of a text poke, each once.
pub(crate) fn pokes_in(
    alloc: Global,
    bytes: &[u8],
    tracks: u32,
) -> Result<Vec<Vec<ClientCall>>, Memory>
    ensures { IfOk result (λ clients. (ws : List Written) → AllByRecursion IsWritten ws → bytes.now ≡ text_of_lines ws → PokeJust tracks (λ block track. pokes block track 0 ws) (map (λ c. c.items) clients.items)) }
{
    let mut streams = Vec::from_elem(alloc, false, tracks as usize)?;
    let mut commands = Vec::from_elem(alloc, false, tracks as usize)?;
    mark_all(bytes, streams.as_mut_slice(), commands.as_mut_slice());
    all_calls(alloc, streams.as_slice(), commands.as_slice())
}
