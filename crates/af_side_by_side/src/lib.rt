//! Rounds of all parties at once: the turns of the clients and of both mixers side by side, and the log in which the fast mixer's party notes its entries.
#![tactic(auto)]

mod alone;
mod logging;
mod rounds_of_all;
mod side_by_side;

pub use logging::Logging;
pub use rounds_of_all::round_of_all;
