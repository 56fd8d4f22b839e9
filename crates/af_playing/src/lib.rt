//! Plays: the rounds of all parties from first to last, the file of what they mixed, and what a play answers.
#![tactic(auto)]

mod answering;
mod noted;
mod piece;
mod play_of_all;
mod playing_of_all;

pub use answering::PlayFault;
pub use piece::Piece;
pub use play_of_all::{play, play_logged};
pub use playing_of_all::have_ended;
