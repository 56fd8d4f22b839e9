//! Meetings of the ends that a mixer lends, and of a proxy that it holds.
ghost use Rattle.std.specs.Prelude.{◌≡◌, ◌<◌, [], ◌∷◌, IfOk};
ghost use Rattle.af_cblk.specs.Sides.{hand_made};
ghost use Rattle.af_link.specs.Names.{IsStreamOf};
ghost use Rattle.af_link.specs.PipeEnds.{in_made};
ghost use Rattle.af_fast.specs.Mixer.{IsLinked, IsSound};
ghost use Rattle.af_client.specs.Order.{IsClientOf};
ghost use Rattle.af_server.specs.Order.{IsServerOf};
ghost use Rattle.af_fast_tests.specs.Ready.{IsReady};

use crate::tests::{Ends, attach, begin, push_command, turn};
use af_base::{Command, Memory, Steps};
use af_cblk::{Block, FlagHand};
use af_client::Client;
use af_fast::FastMixer;
use af_link::{Links, PipeIn, ReportReader, meet_pipe, meet_report};
use af_server::Server;
use std::alloc::Global;
use std::marker::Brand;
use std::mem::drop;
use std::sync::ledger::{Blank, Ledger};
use std::test::*;

// The ends meet by the two references that the mixer lends.
fn meet_lent<L: Ledger>(
    mixer: &mut FastMixer,
    links: &Links<'_>,
    reader: &mut ReportReader,
    from: &mut PipeIn,
    steps: &mut Steps<L>,
)
    requires linked { IsLinked links.now mixer.old }
    requires reader { reader.old.cell ≡ links.now.report.now }
    requires from { in_made from.old ≡ links.now.pipe.now }
{
    let (writer, pipe) = mixer.ends();
    meet_report(links.report, writer, reader, steps);
    meet_pipe(links.pipe, from, pipe, steps);
}

// The proxy of the only track is in slot 1, and meets its client there. Slot 2 has none.
fn meets_held<L: Ledger>(
    mixer: &mut FastMixer,
    links: &Links<'_>,
    block: &Block,
    client: &mut Client,
    hand: &mut FlagHand,
    steps: &mut Steps<L>,
) -> bool
    requires order { IsSound mixer.old × IsLinked links.now mixer.old }
    requires one { links.now.streams.now ≡ block.now ∷ [] }
    requires block { IsClientOf block.now client.old × (hand_made hand.old ≡ block.now) }
    ensures linked { IsLinked links.now mixer.new }
{
    if mixer.meet_held(links, 2, client, hand, steps) {
        return false;
    }
    mixer.meet_held(links, 1, client, hand, steps)
}

// One cycle mixes the proxy of the only track, which then meets its client, and the ends that the mixer lends meet. Answers whether the proxy was held, and one state polled.
fn meets_over<L: Ledger>(
    ends: &mut Ends,
    links: &Links<'_>,
    block: &Block,
    server: Server,
    client: &mut Client,
    hand: &mut FlagHand,
    steps: &mut Steps<L>,
) -> bool
    requires ready { IsReady links.now 4 ends.old.mutator ends.old.mixer ends.old.reader }
    requires new { ends.old.mutator.past.number ≡ 0 }
    requires pipe { in_made ends.old.pipe ≡ links.now.pipe.now }
    requires one { links.now.streams.now ≡ block.now ∷ [] }
    requires block { IsClientOf block.now client.old × (hand_made hand.old ≡ block.now) }
    requires stream { IsStreamOf links.now.streams.now 0 server }
{
    attach(&mut ends.mutator, links, 1, false, 0x1000, 0, server);
    push_command(&mut ends.mutator, links, Command::MixWrite, steps);
    turn(ends, links, steps);
    let held = meets_held(&mut ends.mixer, links, block, client, hand, steps);
    meet_lent(
        &mut ends.mixer,
        links,
        &mut ends.reader,
        &mut ends.pipe,
        steps,
    );
    let polled = ends.mixer.observer().number() == 1;
    held && polled
}

// One cycle and the meetings after it, of new ends over this block alone.
fn meets_on<L: Ledger>(
    alloc: Global,
    streams: &[Block],
    block: &Block,
    server: Server,
    client: &mut Client,
    hand: &mut FlagHand,
    steps: &mut Steps<L>,
) -> Result<bool, Memory>
    requires one { streams.now ≡ block.now ∷ [] }
    requires block { IsClientOf block.now client.old × (hand_made hand.old ≡ block.now) }
    requires stream { IsStreamOf streams.now 0 server }
{
    let (shared, mut ends) = begin(alloc, streams, 2, 4)?;
    let links = shared.links(streams);
    let met = meets_over(&mut ends, &links, block, server, client, hand, steps);
    drop(ends);
    Ok(met)
}

// A block with its proxies, and the hand that was split off the server.
#[derive(Drop)]
struct Split {
    block: Block,
    client: Client,
    server: Server,
    hand: FlagHand,
}

// A block of eight frames.
fn split_one<L: Ledger>(alloc: Global, steps: &mut Steps<L>) -> Result<Split, Memory>
    ensures client { IfOk result (λ s. IsClientOf s.block s.client) }
    ensures server { IfOk result (λ s. IsServerOf s.block s.server) }
    ensures hand { IfOk result (λ s. hand_made s.hand ≡ s.block) }
{
    let made = Block::make(alloc, 8, 0)?;
    let client = Client::with(made.1, &made.0);
    let mut server = Server::with(made.2, &made.0);
    let hand = server.hand(&made.0, steps);
    Ok(Split {
        block: made.0,
        client,
        server,
        hand,
    })
}

// A proxy whose hand was split off is mixed and meets its client, and then the ends that the mixer lends meet.
fn meets<L: Ledger>(alloc: Global, blank: Blank) -> Result<bool, Memory>
    requires name { blank.name ≡ L.name }
    requires parts { (blank.parts ≡ L.parts) × (0 < blank.parts) }
{
    let mut steps = Steps::<L>::start(blank);
    let mut split = split_one(alloc, &mut steps)?;
    let streams = [split.block];
    meets_on(
        alloc,
        &streams,
        &streams[0],
        split.server,
        &mut split.client,
        &mut split.hand,
        &mut steps,
    )
}

#[test]
fn a_held_proxy_and_lent_ends_meet(rt: HostRuntime) {
    let found = meets::<Brand>(rt.alloc(), Blank::new(1));
    assert!(rt; found == Ok(true));
}
