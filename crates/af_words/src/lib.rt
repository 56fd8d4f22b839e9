//! The words after the program's name, and what they ask for.
#![tactic(auto)]

mod request;
mod words;

pub use request::{Request, Sizes, Turns};
pub use words::request_of;
