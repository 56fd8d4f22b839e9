//! What the parties of a round are given.
use af_io::Pcm;
use af_link::Links;
use af_script::TrackSpec;

/// What the parties of a round are given: the links to what they share, the tracks of the script, and the frames of each track's file.
#[derive(Clone, Copy, Drop)]
pub struct Rig<'a, 'b, 'c> {
    /// The links that each mixer is handed at each call.
    pub links: Links<'a>,
    /// The tracks, of which each client does the ops of one.
    pub tracks: &'b [TrackSpec],
    /// The frames of each track's file.
    pub files: &'c [Pcm],
}
