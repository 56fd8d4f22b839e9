//! One track's part of a turn, with its two proxies and its hand.
ghost use Rattle.std.specs.Prelude.{◌≡◌, true, ◌+◌, ◌-◌, ◌<◌, ◌≤◌, ◌^◌, ◌∷◌, ◌++◌, [], length, Some, if◌then◌else◌};
ghost use Rattle.af_base.specs.Turn.{track_seen};
ghost use Rattle.af_base.specs.declared.event.ServerEvent.TheVariants as server_event;
ghost use Rattle.af_cblk.specs.Rule.{StartsWith};
ghost use Rattle.af_cblk.specs.Sides.{hand_made};
ghost use Rattle.af_server.specs.Order.{IsInOrder, IsServerOf, ServerState};
ghost use Rattle.af_server.specs.Slot.{listed};
ghost use Rattle.af_life.specs.Heard.{known_by};
ghost use Rattle.af_life.specs.Kept.{nothing_seen};
ghost use Rattle.af_life.specs.Obeys.{commanded};
ghost use Rattle.af_life.specs.Serves.{HasDueLooks, IsServed, after_part, is_found_shut, most_looks};
ghost use Rattle.af_life.specs.TurnEvents.{status_events};
ghost use Rattle.af_normal.specs.Commands.{LooksMade};
ghost use Rattle.af_normal.specs.Serving.{Adds, StreamAdds, HandAdds, Attends, Recalls, disabled_events, shut_events};

use crate::commands::look_at_commands;
use crate::mixer::TrackHand;
use af_base::{CommandLooks, INVALID, Steps, TrackTurn};
use af_cblk::Block;
use af_life::{Heard, Known, TrackKept, is_found_shut, stored_over};
use af_link::recall;
use af_server::Server;
use std::sync::ledger::Ledger;

/// What is known of a proxy that is elsewhere.
pub(crate) const NOTHING_HEARD: Heard = Heard {
    known: Known {
        consumed: 0,
        fulls: 0,
        partials: 0,
        empties: 0,
        shut: false,
    },
    flush_seen: 0,
};

/// What a stream proxy knows, without looks.
pub(crate) fn known(server: &Server) -> Heard
    requires order { IsInOrder server.now }
    ensures { result ≡ known_by (listed server.now) }
{
    Heard {
        known: Known {
            consumed: server.consumed(),
            fulls: 0,
            partials: 0,
            empties: 0,
            shut: server.shut().is_some(),
        },
        flush_seen: server.flush_seen(),
    }
}

// The looks at the commands, if no START waits.
fn obey<L: Ledger>(
    command: &mut Server,
    block: &Block,
    given: Option<u32>,
    flush_seen: u32,
    ready: TrackKept,
    looks: &mut CommandLooks,
    steps: &mut Steps<L>,
) -> TrackKept
    requires server { IsServerOf block.now command.old }
    requires room { (looks.old.items ≡ []) × (most_looks ≤ looks.old.room) }
    requires few { ready.settled < 2 ^ 62 - 64 }
    ensures server { IsServerOf block.now command.new }
    ensures looks { LooksMade command.old looks.new.items command.new }
    ensures due { HasDueLooks given flush_seen looks.new.items ready }
    ensures track { result ≡ commanded given flush_seen looks.new.items ready }
    ensures few { result.settled ≤ ready.settled + most_looks }
    ensures room { looks.new.room ≡ looks.old.room }
{
    if ready.awaits.is_some() {
        return ready;
    }
    look_at_commands(command, block, given, flush_seen, ready, looks, steps)
}

// DISABLED, if the report says so.
fn disable<L: Ledger>(hand: &mut TrackHand, block: &Block, disabled: bool, steps: &mut Steps<L>)
    requires made { hand_made hand.old ≡ block.now }
    ensures made { hand_made hand.new ≡ block.now }
    ensures list { HandAdds hand.old (disabled_events disabled) hand.new }
{
    if disabled {
        block.set_disabled(&mut hand.flag, steps);
    }
}

// INVALID in a block, if the track was found shut.
fn mark<L: Ledger>(server: &mut Server, block: &Block, shut: bool, steps: &mut Steps<L>)
    requires server { IsServerOf block.now server.old }
    ensures server { IsServerOf block.now server.new }
    ensures list { Adds server.old (shut_events shut) [] server.new }
    ensures whole { server.new.pass.has_hand ≡ server.old.pass.has_hand }
{
    if shut {
        server.set_flags(block, INVALID, steps);
    }
}

// INVALID in a stream block, if the track was found shut. The hand recalls before what it knows of the proxy's list.
fn mark_home<L: Ledger>(
    server: &mut Server,
    hand: &mut TrackHand,
    block: &Block,
    shut: bool,
    steps: &mut Steps<L>,
)
    requires server { IsServerOf block.now server.old }
    requires hand { hand_made hand.old ≡ block.now }
    ensures server { IsServerOf block.now server.new }
    ensures hand { hand.new ≡ hand.old }
    ensures list { Adds server.old (shut_events shut) [] server.new }
    ensures recalls { shut ≡ true → StartsWith server.old.pass.part.events hand.old.known }
{
    if shut {
        recall(server, &mut hand.flag, block, steps);
    }
    mark(server, block, shut, steps);
}

// INVALID in a stream block, if the track was found shut and the stream proxy is home.
fn mark_stream<L: Ledger>(
    stream: &mut Option<Server>,
    hand: &mut TrackHand,
    block: &Block,
    shut: bool,
    steps: &mut Steps<L>,
)
    requires server { (s : ServerState) → stream.old ≡ Some s → IsServerOf block.now s }
    requires hand { hand_made hand.old ≡ block.now }
    ensures server { (s : ServerState) → stream.new ≡ Some s → IsServerOf block.now s }
    ensures hand { hand.new ≡ hand.old }
    ensures list { StreamAdds stream.old (shut_events shut) stream.new }
    ensures recalls { Recalls stream.old (shut_events shut) hand.old }
{
    if let Some(server) = stream {
        mark_home(server, hand, block, shut, steps);
    }
}

// The status, if it is a new one.
fn store_status<L: Ledger>(
    command: &mut Server,
    block: &Block,
    status: Option<u32>,
    steps: &mut Steps<L>,
)
    requires server { IsServerOf block.now command.old }
    ensures server { IsServerOf block.now command.new }
    ensures list { Adds command.old (status_events status) [] command.new }
    ensures whole { command.new.pass.has_hand ≡ command.old.pass.has_hand }
{
    if let Some(word) = status {
        command.set_status(block, word, steps);
    }
}

/// A track's part of the turn: its commands are obeyed, its life goes by what was heard of the stream, and DISABLED, INVALID and the status are stored if they are due. `ready` is the track once what was heard was noted. `seen` is filled with what the entry is to hold.
pub(crate) fn attend<L: Ledger>(
    command: &mut Server,
    stream: &mut Option<Server>,
    hand: &mut TrackHand,
    command_block: &Block,
    stream_block: &Block,
    given: Option<u32>,
    heard: Heard,
    ready: TrackKept,
    seen: &mut TrackTurn,
    steps: &mut Steps<L>,
) -> TrackKept
    requires command { IsServerOf command_block.now command.old }
    requires stream { (s : ServerState) → stream.old ≡ Some s → IsServerOf stream_block.now s }
    requires hand { hand_made hand.old ≡ stream_block.now }
    requires seen { (track_seen seen.old ≡ nothing_seen) × (most_looks ≤ seen.old.looks.room) }
    requires few { ready.settled < 2 ^ 62 - 128 }
    ensures command { IsServerOf command_block.now command.new }
    ensures stream { (s : ServerState) → stream.new ≡ Some s → IsServerOf stream_block.now s }
    ensures hand { hand_made hand.new ≡ stream_block.now }
    ensures attends { Attends given heard ready command.old stream.old hand.old (track_seen seen.new) command.new stream.new hand.new }
    ensures track { result ≡ after_part given heard seen.new.looks.items ready }
    ensures room { seen.new.looks.room ≡ seen.old.looks.room }
{
    let told = obey(
        command,
        command_block,
        given,
        heard.flush_seen,
        ready,
        &mut seen.looks,
        steps,
    );
    let shut = is_found_shut(heard, seen.looks.as_slice());
    let (life, disabled) = told.life.on_report(heard.known);
    disable(hand, stream_block, disabled, steps);
    mark(command, command_block, shut, steps);
    mark_stream(stream, hand, stream_block, shut, steps);
    let mut kept = TrackKept { life, ..told };
    let word = kept.status_word(shut);
    let status = stored_over(ready.status, word);
    store_status(command, command_block, status, steps);
    kept.status = word;
    seen.disabled = disabled;
    seen.status = status;
    kept
}
