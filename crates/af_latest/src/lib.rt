//! A cell for one writer and one reader, which shows the newest value and makes nobody wait.
//!
//! It has three slots. The writer holds one, the reader holds one, and one word names the third: it is the slot's number, with 4 added if its value is fresh.
#![tactic(auto)]

mod laws;
mod plays;
mod rule;
mod seats;
mod view;

pub use laws::{loads_never_fall, store_and_load};
pub use rule::Latest;
pub use seats::{Reader, Writer, latest, meet_latest};
