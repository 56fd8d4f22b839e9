//! What the parties of a run share.
use crate::names::StreamNames;
use crate::reports::ReportCell;
use af_cblk::Block;
use af_server::Server;
use af_stateq::Queue;

/// The shared objects of a run, which each mixer is handed at each call. The number of a track is its place in `streams` and in `commands`.
#[derive(Clone, Copy, Drop)]
pub struct Links<'a> {
    /// The states that the normal mixer pushes and the fast mixer polls, with the stream proxies that travel by them.
    pub queue: &'a Queue<Server, StreamNames>,
    /// The block of each track's frames.
    pub streams: &'a [Block],
    /// The block of each track's commands.
    pub commands: &'a [Block],
    /// The frames that the normal mixer mixed for the fast mixer.
    pub pipe: &'a Block,
    /// The fast mixer's newest report.
    pub report: &'a ReportCell,
}
