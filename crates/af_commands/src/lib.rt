//! The commands of the player: `run` renders a script into raw PCM, plays one by all parties at once, judges a journal and its sound, records a file, loops one, or generates a session of a number and renders it.
#![tactic(auto)]

mod generating;
mod laws;
mod offline;
mod playing;
mod render;
mod running;
mod tracing;

pub use laws::a_play_is_never_refused;
pub use running::run;
