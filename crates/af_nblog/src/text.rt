//! The text of a log of notes.
ghost use Rattle.std.specs.Prelude.{◌≡◌, ◌++◌, Some, IfOk, OnErr, string_bytes};
ghost use Rattle.af_nblog.specs.LogText.{log_text, note_line, note_lines};

use crate::entries::Note;
use af_base::Memory;
use std::alloc::Global;
use std::fmt;
use std::fmt::Write;

impl fmt::Display for Note {
    ghost output = { λ note. Some (note_line note) };

    fn fmt<W: fmt::Write>(&self, f: &mut fmt::Formatter<W>) -> fmt::Result {
        let Note {
            place,
            state,
            kind,
            fulls,
            partials,
            empties,
        } = *self;
        write!(f, "{place} {state} {kind} {fulls} {partials} {empties}")
    }
}

// The lines of some notes.
fn lines_of(alloc: Global, notes: &[Note]) -> Result<String, Memory>
    ensures { IfOk result (λ text. string_bytes text ≡ note_lines notes.now) }
{
    let mut text = String::new(alloc);
    for note in notes {
        writeln!(text, "{note}")?;
    }
    Ok(text)
}

// The text of these notes, and of how many were refused.
fn text_of(alloc: Global, notes: &[Note], refused: u64) -> Result<String, Memory>
    ensures { IfOk result (λ text. string_bytes text ≡ log_text notes.now refused) }
{
    let mut text = lines_of(alloc, notes)?;
    writeln!(text, "refused {refused}")?;
    Ok(text)
}

/// Writes a log: the text of the notes accepted, and of how many were refused, is appended to `out`. Memory is its only refusal; `out` is then as before.
///
/// Each note has a line of its place, its state, its kind and its three counts, in decimal with one space between them; the last line is `refused` and a number. Each ends in LF (docs/FORMATS.md, 'The log').
pub fn write(alloc: Global, notes: &[Note], refused: u64, out: &mut Vec<u8>) -> Result<(), Memory>
    ensures written { IfOk result (λ _. out.new.items ≡ out.old.items ++ log_text notes.now refused) }
    ensures kept { OnErr result (out.new.items ≡ out.old.items) }
{
    let text = text_of(alloc, notes, refused)?;
    out.extend_from_slice(text.as_str().as_bytes())?;
    Ok(())
}
