//! Static buffers with loops: a buffer that never changes, which a player plays while the client sets loops in it.
//!
//! The client sets start, end and count as one value of a newest-value cell, and the player distrusts them.
#![tactic(auto)]

mod ends;
mod head;
mod in_hand;
mod laws;
mod playing;
mod setting;

pub use ends::{Player, Setter, Shared, Unrolled, make, meet_static};
pub use head::Head;
pub use in_hand::InHand;
pub use laws::two_calls_alike_are_one;
pub use setting::Setting;
