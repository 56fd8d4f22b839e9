//! Renders: the turns of a script from first to last, one after the other. Also what a session is played on, and the loop of rounds of renders and plays, with the file of what they mixed.
#![tactic(auto)]

mod given_files;
mod playing;
mod rendering;
mod rounds;
mod staging;

pub use given_files::have_files;
pub use rendering::{Ends, Outcome, Played, hand_over, render};
pub use rounds::{Playing, Target, play_rounds};
pub use staging::Stage;
