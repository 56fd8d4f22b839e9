//! The meetings of a mixer's ends and proxies between turns, and what a track's hand sets.
ghost use Rattle.std.specs.Prelude.{◌≡◌, ◌<◌, length};
ghost use Rattle.af_client.specs.Order.{IsClientOf};
ghost use Rattle.af_cblk.specs.Sides.{hand_made};
ghost use Rattle.af_normal.specs.Order.{IsInOrder};
ghost use Rattle.af_normal_tests.specs.Testing.{AreClients, AreOthers, IsWorld};

use crate::rows::{PUSH_1, PUSH_2, PUSH_3, Row};
use crate::table_tests::{FAST, Plan, plays};
use crate::tests::{Others, World};
use af_base::{Push, Steps};
use af_cblk::Block;
use af_client::Client;
use af_life::{OPEN, PAUSE, REMOVE, START, STOP};
use af_link::{Links, meet_flag};
use af_normal::{NormalMixer, TrackHand};
use std::sync::ledger::Ledger;
use std::test::*;

// The clients of a track meet its proxies; whether the stream proxy is home.
fn clients_meet<L: Ledger>(
    mixer: &mut NormalMixer,
    links: &Links<'_>,
    streams: &mut [Client],
    commands: &mut [Client],
    track: usize,
    steps: &mut Steps<L>,
) -> bool
    requires order { IsInOrder links.now mixer.old }
    requires track { track < length mixer.old.tracks }
    requires streams { AreClients links.now.streams.now streams.old }
    requires commands { AreClients links.now.commands.now commands.old }
    ensures order { IsInOrder links.now mixer.new }
    ensures streams { AreClients links.now.streams.now streams.new }
    ensures commands { AreClients links.now.commands.now commands.new }
{
    mixer.meet_client(
        links,
        track as u32,
        &mut streams[track],
        &mut commands[track],
        steps,
    )
}

// A hand sets DISABLED, and meets the client.
fn tells<L: Ledger>(hand: &mut TrackHand, block: &Block, client: &mut Client, steps: &mut Steps<L>)
    requires hand { hand_made hand.old ≡ block.now }
    requires client { IsClientOf block.now client.old }
    ensures hand { hand_made hand.new ≡ block.now }
    ensures client { IsClientOf block.now client.new }
{
    let flag = hand.flag();
    block.set_disabled(flag, steps);
    meet_flag(client, flag, block, steps);
}

/// The hand of a track sets DISABLED, and meets the client; answers whether there is a hand.
pub(crate) fn disables<L: Ledger>(
    mixer: &mut NormalMixer,
    links: &Links<'_>,
    clients: &mut [Client],
    track: usize,
    steps: &mut Steps<L>,
) -> bool
    requires order { IsInOrder links.now mixer.old }
    requires clients { AreClients links.now.streams.now clients.old }
    ensures order { IsInOrder links.now mixer.new }
    ensures clients { AreClients links.now.streams.now clients.new }
{
    let blocks = links.streams;
    if track >= 32 {
        return false;
    }
    let Some(hand) = mixer.hand(track as u32) else {
        return false;
    };
    tells(hand, &blocks[track], &mut clients[track], steps);
    true
}

// How many tracks the entry of the last turn has: none before the first turn and after the end.
fn tracks_told(mixer: &NormalMixer) -> usize
    ensures { result ≡ length mixer.now.entry.tracks.items }
{
    mixer.last().tracks.as_slice().len()
}

impl World {
    /// The clients of a track meet its proxies; answers whether the stream proxy is home. Before the first turn and after the end nothing is done.
    pub(crate) fn meets<L: Ledger>(
        &mut self,
        links: &Links<'_>,
        track: usize,
        steps: &mut Steps<L>,
    ) -> Option<bool>
        requires { IsWorld links.now self.old.mixer self.old.others.observer self.old.others.ends.0 self.old.others.ends.1 self.old.others.report self.old.others.streams.items self.old.others.commands.items }
        ensures { IsWorld links.now self.new.mixer self.new.others.observer self.new.others.ends.0 self.new.others.ends.1 self.new.others.report self.new.others.streams.items self.new.others.commands.items }
    {
        if track >= tracks_told(&self.mixer) {
            return None;
        }
        let World { mixer, others } = self;
        let Others {
            streams,
            commands,
            ..
        } = others;
        let so = clients_meet(mixer, links, streams, commands, track, steps);
        Some(so)
    }

    /// The ends of the two mixers meet.
    pub(crate) fn ends_meet<L: Ledger>(&mut self, links: &Links<'_>, steps: &mut Steps<L>)
        requires { IsWorld links.now self.old.mixer self.old.others.observer self.old.others.ends.0 self.old.others.ends.1 self.old.others.report self.old.others.streams.items self.old.others.commands.items }
        ensures { IsWorld links.now self.new.mixer self.new.others.observer self.new.others.ends.0 self.new.others.ends.1 self.new.others.report self.new.others.streams.items self.new.others.commands.items }
    {
        let World { mixer, others } = self;
        mixer.meet_queue(links, &mut others.observer, steps);
        mixer.meet_ends(links, &mut others.ends, steps);
    }
}

// The stream proxy of a fast track is home, is lent, is returning, and is home again.
const MEETINGS: &[Row] = &[
    Row::Disables(0, false),
    Row::Sends(0, OPEN, 0),
    Row::Turns(0, Push::Clean, Some(257)),
    Row::Meets(true),
    Row::Sends(0, START, 0),
    Row::Turns(0, PUSH_1, Some(514)),
    Row::Meets(false),
    Row::Polls(1),
    Row::Meets(false),
    Row::Writes(0, 4),
    Row::Disables(0, true),
    Row::Clears(8),
    Row::Disables(0, true),
    Row::Clears(8),
    Row::Clears(0),
    Row::Disables(1, false),
    Row::Sends(0, PAUSE, 0),
    Row::Turns(0, Push::Clean, Some(772)),
    Row::Meets(false),
    Row::Turns(0, PUSH_2, None),
    Row::Meets(false),
    Row::Polls(2),
    Row::Meets(false),
    Row::Turns(0, Push::Clean, None),
    Row::Meets(true),
    Row::Disables(0, true),
    Row::Clears(8),
    Row::Sends(0, REMOVE, 0),
    Row::Turns(0, PUSH_3, Some(1028)),
    Row::Meets(true),
];

#[test]
fn clients_meet_the_proxies_that_are_home(rt: HostRuntime) {
    assert!(rt; plays(rt.alloc(), &[FAST], 2, 1, Plan::Rows(&[MEETINGS])));
}

// All ends meet before the first turn, between turns, and once the mixer has ended.
const ALL_MEET: &[Row] = &[
    Row::EndsMeet,
    Row::Sends(0, OPEN, 0),
    Row::Sends(0, START, 0),
    Row::Turns(0, PUSH_1, Some(514)),
    Row::Polls(1),
    Row::Reports(1, 0, 0, [0, 1]),
    Row::EndsMeet,
    Row::Sends(0, STOP, 0),
    Row::Turns(0, Push::Clean, Some(791)),
    Row::Saw(true, 8),
    Row::Turns(0, PUSH_2, Some(792)),
    Row::Polls(2),
    Row::Reports(1, 0, 0, [0, 2]),
    Row::EndsMeet,
    Row::HasSlot(1, false, 0, 1),
    Row::Sends(0, REMOVE, 0),
    Row::Turns(0, PUSH_3, Some(1048)),
    Row::Polls(3),
    Row::Ends,
    Row::EndsMeet,
    Row::Ends,
];

#[test]
fn all_ends_meet_between_turns(rt: HostRuntime) {
    assert!(rt; plays(rt.alloc(), &[FAST], 2, 1, Plan::Rows(&[ALL_MEET])));
}
