//! The log of notes: the fast mixer notes each entry of its log without waiting, and a reader drains the notes. A note that finds no room is refused and counted.
#![tactic(auto)]

mod ends;
mod entries;
mod reading;
mod text;
mod words;
mod writing;

pub use ends::{NoteReader, NoteWriter, meet_notes, ring};
pub use entries::{Note, note_of};
pub use text::write;
pub use writing::Noted;
