//! The text of a journal as it grows.
ghost use Rattle.std.specs.Prelude.{◌≡◌, ◌++◌, ◌∷◌, [], true, IfOk};
ghost use Rattle.af_journal.specs.Lines.{call_line, line_text, numbers, with_lf};
ghost use Rattle.af_journal.specs.Texts.{GoesOn};

use crate::line::Line;
use crate::row::Row;
use af_base::{ClientCall, Memory};
use std::fmt;
use std::fmt::Write;

/// The bytes of the lines so far. Lines of numbers are printed into it; those of frames go to the bytes in whole rows.
#[derive(Drop)]
pub(crate) struct Text {
    pub(crate) bytes: Vec<u8>,
}

impl Write for Text {
    ghost write_str_gives = { λ text more after. after.bytes.items ≡ text.bytes.items ++ more };

    fn write_str(&mut self, s: &str) -> fmt::Result {
        match self.bytes.extend_from_slice(s.as_bytes()) {
            Ok(()) => Ok(()),
            Err(_) => Err(fmt::Error),
        }
    }
}

// Adds a line as it is printed.
fn add_printed(text: &mut Text, line: Line) -> Result<(), Memory>
    ensures { IfOk result (λ _. GoesOn text.old.bytes.items (numbers line ∷ []) text.new.bytes.items) }
{
    match writeln!(text, "{line}") {
        Ok(()) => Ok(()),
        Err(_) => Err(Memory),
    }
}

// Adds the bytes of a row.
fn add_row(text: &mut Text, row: &Row) -> Result<(), Memory>
    ensures { IfOk result (λ _. text.new.bytes.items ≡ text.old.bytes.items ++ row.now) }
{
    text.bytes.extend_from_slice(row.bytes())?;
    Ok(())
}

// The line of a call, if it is one of which a text has many.
fn put_call(row: &mut Row, call: ClientCall) -> bool
    requires { row.old ≡ 10 ∷ [] }
    ensures { result ≡ true → row.new ≡ with_lf (call_line call) }
{
    match call {
        ClientCall::Put { front, count } => {
            row.put_marked(b'p', &[front, count]);
            true
        }
        ClientCall::Full { front } => {
            row.put_marked(b'u', &[front]);
            true
        }
        ClientCall::Cleared { flags } => {
            row.put_marked(b'k', &[flags]);
            true
        }
        _ => false,
    }
}

// The line of a look, if it is one.
fn put_look(row: &mut Row, line: Line) -> bool
    requires { row.old ≡ 10 ∷ [] }
    ensures { result ≡ true → row.new ≡ with_lf (line_text line) }
{
    match line {
        Line::Slot {
            slot,
            scale,
            mono,
            gains,
            flush,
            rear,
            seen,
        } => {
            let words = [slot, u32::from(scale), u32::from(mono), gains, flush, rear];
            row.put_looked(b'z', &words, seen);
            true
        }
        Line::Look {
            track,
            flush,
            rear,
            seen,
        } => {
            row.put_looked(b'q', &[track, flush, rear], seen);
            true
        }
        Line::Take {
            track,
            gains,
            flush,
            rear,
            seen,
        } => {
            row.put_looked(b'm', &[track, gains, flush, rear], seen);
            true
        }
        _ => false,
    }
}

// The line of a client, an entry, a call or a look, if it is one of which a text has many.
fn put_line(row: &mut Row, line: Line) -> bool
    requires { row.old ≡ 10 ∷ [] }
    ensures { result ≡ true → row.new ≡ with_lf (line_text line) }
{
    match line {
        Line::Client { track } => {
            row.put_marked(b'C', &[track]);
            true
        }
        Line::Entry { state, kind } => {
            row.put_entry(state, kind);
            true
        }
        Line::Call { call } => put_call(row, call),
        _ => put_look(row, line),
    }
}

/// Adds a line of numbers. Those of which a text has many are made in one row.
pub(crate) fn add(text: &mut Text, line: Line) -> Result<(), Memory>
    ensures { IfOk result (λ _. GoesOn text.old.bytes.items (numbers line ∷ []) text.new.bytes.items) }
{
    let mut row = Row::new();
    if put_line(&mut row, line) {
        add_row(text, &row)
    } else {
        add_printed(text, line)
    }
}
