//! What the parties of a run share.
ghost use Rattle.af_engine.specs.Shares.{AreLinksOf};

use af_cblk::Block;
use af_link::{Links, ReportCell, StreamNames};
use af_server::Server;
use af_stateq::Queue;
use std::marker::Model;

/// The objects that the parties of a run share. Contracts see which they are.
#[derive(Drop)]
pub struct Shared {
    pub(crate) queue: Queue<Server, StreamNames>,
    pub(crate) streams: Vec<Block>,
    pub(crate) commands: Vec<Block>,
    pub(crate) pipe: Block,
    pub(crate) report: ReportCell,
}

impl Model for Shared {
    ghost use Rattle.af_engine.specs.Shares.{SharedState};

    ghost Value = { SharedState };

    ghost view = { λ s. record { queue = s.queue; streams = s.streams.items; commands = s.commands.items; pipe = s.pipe; report = s.report } };
}

impl Shared {
    /// The links that each mixer is handed at each call.
    pub fn links(&self) -> Links<'_>
        ensures { AreLinksOf self.now result }
    {
        Links {
            queue: &self.queue,
            streams: &self.streams,
            commands: &self.commands,
            pipe: &self.pipe,
            report: &self.report,
        }
    }
}
