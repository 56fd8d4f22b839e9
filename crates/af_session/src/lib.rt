//! Sessions: the clients, the normal mixer and the fast mixer of a run, how they are made, their rounds in the order of a script, and how they meet.
#![tactic(auto)]

mod fast_turns;
mod making;
mod meetings;
mod noting;
mod parties;
mod rig;
mod room;
mod rounds;
mod tracks;

pub use fast_turns::{is_mixed, mix_in};
pub use making::make;
pub use noting::{copied_turn, know_frames};
pub use parties::Parties;
pub use rig::Rig;
pub use room::Room;
