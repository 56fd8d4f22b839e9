//! Small lists drawn at random: each answer is that of a search over all orders, one by one.
ghost use Rattle.std.specs.Prelude.{◌<◌};
ghost use Rattle.af_merges.specs.Merges.{IsStart};

use crate::merge_plain::{Lists, some_order};
use crate::merge_tests::{Cut, decide};
use af_base::{ClientEvent, HandEvent, Memory, ServerEvent};
use af_model::TrackPoint;
use std::alloc::Global;
use std::test::*;

/// Numbers that look random, always the same.
#[derive(Drop)]
struct Draw {
    state: u64,
}

impl Draw {
    fn below(&mut self, limit: u32) -> u32
        requires { 0 < limit }
        ensures { result < limit }
    {
        self.state = self
            .state
            .wrapping_mul(6_364_136_223_846_793_005)
            .wrapping_add(1_442_695_040_888_963_407);
        (self.state >> 33) as u32 % limit
    }

    /// A position's word, near the base of every point that is drawn.
    fn word(&mut self) -> u32 {
        0xffff_ffffu32.wrapping_add(self.below(4))
    }

    fn flags(&mut self) -> u32 {
        self.below(4) * 4
    }

    fn client(&mut self) -> ClientEvent {
        match self.below(10) {
            0 | 1 => ClientEvent::Release {
                count: self.below(3),
            },
            2 => ClientEvent::Flush,
            3 => ClientEvent::SetGain {
                word: self.below(2),
            },
            4 => ClientEvent::ClearFlags { old: self.flags() },
            5 => ClientEvent::SawFlags {
                flags: self.flags(),
            },
            6 => ClientEvent::SawFront { front: self.word() },
            7 => ClientEvent::SawStatus {
                word: self.below(2),
            },
            8 => ClientEvent::Poke { word: 0, value: 0 },
            _ => ClientEvent::Learn {
                count: u64::from(self.below(4)),
            },
        }
    }

    fn server(&mut self, wrap: u32) -> ServerEvent {
        match self.below(12) {
            0 => ServerEvent::SawGain {
                word: self.below(2),
            },
            1 => ServerEvent::SawFlush {
                flush: self.below(2 + wrap % 5 * 2),
            },
            2 | 3 => ServerEvent::SawRear { rear: self.word() },
            4 => ServerEvent::SawFront { front: self.word() },
            5 => ServerEvent::Drop { to: self.word() },
            6 | 7 => ServerEvent::Take {
                count: self.below(3),
            },
            8 => ServerEvent::Tally { missing: 1 },
            9 => ServerEvent::SetFlags { bits: self.flags() },
            10 => ServerEvent::SetStatus {
                word: self.below(2),
            },
            _ => ServerEvent::Learn {
                count: u64::from(self.below(4)),
            },
        }
    }

    fn hand(&mut self) -> HandEvent {
        match self.below(3) {
            0 => HandEvent::SetFlags { bits: 8 },
            _ => HandEvent::Met {
                client: u64::from(self.below(4)),
            },
        }
    }

    fn point(&mut self) -> TrackPoint
        ensures { IsStart result }
    {
        let base = 0xffff_ffffu64;
        TrackPoint {
            released: base + u64::from(self.below(3)),
            consumed: base,
            flushes: self.below(2),
            flush_seen: 0,
            rear_seen: base + u64::from(self.below(2)),
            gains: 0,
            flags: self.flags(),
            status: 0,
            underruns: 0,
            flush_at: base + u64::from(self.below(2)),
            drop_to: base + u64::from(self.below(2)),
            wrap: self.below(2) * 4,
        }
    }
}

fn before<'a>(lists: Lists<'a>, cut: Cut) -> Lists<'a> {
    let (client, _) = lists.0.split_at(cut.0.min(lists.0.len()));
    let (server, _) = lists.1.split_at(cut.1.min(lists.1.len()));
    let (hand, _) = lists.2.split_at(cut.2.min(lists.2.len()));
    (client, server, hand)
}

fn cut(draw: &mut Draw) -> Cut {
    (
        draw.below(4) as usize,
        draw.below(4) as usize,
        draw.below(4) as usize,
    )
}

/// Whether three lists, whole and in three pieces, are decided as by a search over all orders; and whether they have one.
fn is_decided(
    alloc: Global,
    draw: &mut Draw,
    lists: Lists<'_>,
    from: &TrackPoint,
) -> Result<(bool, bool), Memory>
    requires { IsStart from.now }
{
    let middle = cut(draw);
    let first = cut(draw);
    let whole = some_order(lists, from);
    let begun = some_order(before(before(lists, middle), first), from);
    let gone_on = some_order(before(lists, middle), from);
    let got = decide(alloc, lists, first, middle, from)?;
    Ok((got == (whole, (begun, gone_on, whole)), whole))
}

/// Whether three lists that are drawn, of up to three events, are decided so, and whether they have an order.
fn is_drawn_decided(alloc: Global, draw: &mut Draw) -> Result<(bool, bool), Memory> {
    let from = draw.point();
    let mut client = [ClientEvent::Flush; 3];
    let clients = draw.below(4) as usize;
    for i in 0..clients {
        client[i] = draw.client();
    }
    let mut server = [ServerEvent::Tally { missing: 1 }; 3];
    let servers = draw.below(4) as usize;
    for i in 0..servers {
        server[i] = draw.server(from.wrap);
    }
    let mut hand = [HandEvent::SetFlags { bits: 8 }; 3];
    let hands = draw.below(4) as usize;
    for i in 0..hands {
        hand[i] = draw.hand();
    }
    let lists = (&client[..clients], &server[..servers], &hand[..hands]);
    is_decided(alloc, draw, lists, &from)
}

/// 6,000 triples, of blocks with either kind of flush, whole and in three pieces.
#[test]
fn answers_as_all_orders_do(rt: HostRuntime) {
    let mut draw = Draw { state: 11 };
    let mut legal = 0u32;
    for number in 0..6000u32 {
        let found = is_drawn_decided(rt.alloc(), &mut draw);
        assert!(rt;
            found == Ok((true, false)) || found == Ok((true, true)),
            "triple {number}"
        );
        legal = legal.wrapping_add(u32::from(found == Ok((true, true))));
    }
    assert!(rt;
        legal > 600 && legal < 5400,
        "{legal} of 6000 have a legal order"
    );
}
