//! The codes of the commands that a client sends. Any other code changes nothing.

/// The track is there from now on. Its argument is 0.
pub const OPEN: u32 = 1;
/// The track plays. Its argument is the client's flush count.
pub const START: u32 = 2;
/// The track pauses. Its argument is 0.
pub const PAUSE: u32 = 3;
/// The track stops once so many frames are consumed: its argument is the client's released count.
pub const STOP: u32 = 4;
/// What was released is to be discarded. Its argument is 0.
pub const FLUSH: u32 = 5;
/// The track ends. Its argument is 0.
pub const REMOVE: u32 = 6;
