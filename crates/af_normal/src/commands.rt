//! Looking at a track's commands.
ghost use Rattle.std.specs.Prelude.{◌≡◌, ◌+◌, ◌-◌, ◌<◌, ◌≤◌, ◌^◌, [], true, length};
ghost use Rattle.af_server.specs.Order.{IsServerOf};
ghost use Rattle.af_life.specs.Obeys.{after_looks, are_due};
ghost use Rattle.af_life.specs.Serves.{most_looks};
ghost use Rattle.af_normal.specs.Commands.{LooksOnce, LooksMade};

use af_base::{CommandLook, CommandLooks, Frame, Steps};
use af_cblk::Block;
use af_life::TrackKept;
use af_server::Server;
use std::sync::ledger::Ledger;

/// How many looks a turn makes at a command block at most.
pub(crate) const MOST_LOOKS: usize = 64;

/// One look at a command block. A command's two words are taken.
pub(crate) fn look_once<L: Ledger>(
    server: &mut Server,
    block: &Block,
    steps: &mut Steps<L>,
) -> CommandLook
    requires ready { IsServerOf block.now server.old }
    ensures ready { IsServerOf block.now server.new }
    ensures looks { LooksOnce server.old result server.new }
{
    let look = server.look(block, 2, steps);
    let mut seen = CommandLook {
        flush: look.flush,
        rear: look.rear,
        seen: look.seen,
        code: 0,
        argument: 0,
    };
    if look.seen.count() != 2 {
        return seen;
    }
    let mut words = [Frame { left: 0, right: 0 }; 2];
    server.take(block, &mut words, steps);
    seen.code = words[0].pack();
    seen.argument = words[1].pack();
    seen
}

/// The looks of a turn at a command block, up to one that ends them.
pub(crate) fn look_at_commands<L: Ledger>(
    server: &mut Server,
    block: &Block,
    given: Option<u32>,
    flush_seen: u32,
    track: TrackKept,
    looks: &mut CommandLooks,
    steps: &mut Steps<L>,
) -> TrackKept
    requires ready { IsServerOf block.now server.old }
    requires room { (looks.old.items ≡ []) × (most_looks ≤ looks.old.room) }
    requires few { track.settled < 2 ^ 62 - 64 }
    ensures ready { IsServerOf block.now server.new }
    ensures looks { LooksMade server.old looks.new.items server.new }
    ensures due { are_due most_looks given flush_seen looks.new.items track ≡ true }
    ensures track { result ≡ after_looks given flush_seen looks.new.items track }
    ensures few { result.settled ≤ track.settled + most_looks }
    ensures room { looks.new.room ≡ looks.old.room }
{
    let mut track = track;
    for made in 0..MOST_LOOKS {
        let look = look_once(server, block, steps);
        looks.push(look);
        track = track.after_look(given, flush_seen, look);
        if !track.goes_on(look) {
            return track;
        }
    }
    track
}
