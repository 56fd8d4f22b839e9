//! The text of a journal.
#![tactic(auto)]

mod building;
mod digits;
mod fast;
mod fast_reading;
mod hexadecimal;
mod laws;
mod left;
mod line;
mod line_reading;
mod packed;
mod poked;
mod reach;
mod reading;
mod row;
mod stage;
mod text;
mod turn;
mod turn_reading;
mod writing;

pub use building::{Front, JournalFault, read, read_front, read_judged};
pub use laws::what_is_written_is_read_back;
pub use line::Line;
pub use reading::first_bad_line;
pub use writing::write;
