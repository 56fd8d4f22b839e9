//! A client of a session as one of its parties: what it wants, its proxies, and its turn.
#![tactic(auto)]

mod asking;
mod client_turn;
mod party;

pub use party::Party;
