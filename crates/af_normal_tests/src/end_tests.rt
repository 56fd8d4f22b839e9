//! A mixer that has ended loads nothing any more, and its entry says that alone.
ghost use Rattle.std.specs.Prelude.{◌≡◌, ◌<◌, true};
ghost use Rattle.af_base.specs.Turn.{ended_turn, turn_of};
ghost use Rattle.af_normal.specs.Order.{IsInOrder};
ghost use Rattle.af_normal.specs.declared.turn.Turn.TheVariants.{Ended};

use crate::rows::{PUSH_1, Row};
use crate::table_tests::{FAST, Plan, plays};
use af_base::{Push, Steps, TurnEntry};
use af_life::{OPEN, REMOVE};
use af_link::Links;
use af_normal::{NormalMixer, Turn};
use std::sync::ledger::Ledger;
use std::test::*;

// A turn after the end: the mixer answers so again, and no list grows. The acknowledgement isn't loaded, and neither is the report or the room.
fn turn_after_the_end<L: Ledger>(
    mixer: &mut NormalMixer,
    links: &Links<'_>,
    steps: &mut Steps<L>,
) -> Turn
    requires order { IsInOrder links.now mixer.old }
    requires few { mixer.old.turns < 131072 }
    requires ended { mixer.old.ended ≡ true }
    ensures order { IsInOrder links.now mixer.new }
    ensures ended { (result ≡ Ended) × (mixer.new.ended ≡ true) }
    ensures entry { turn_of mixer.new.entry ≡ ended_turn }
    ensures mutator { mixer.new.mutator.past.events ≡ mixer.old.mutator.past.events }
    ensures reader { mixer.new.reader.events ≡ mixer.old.reader.events }
    ensures pipe { mixer.new.pipe.pass.part.events ≡ mixer.old.pipe.pass.part.events }
{
    mixer.turn(links, steps)
}

// Whether an entry says the end alone.
fn tells_the_end(entry: &TurnEntry) -> bool {
    let none = entry.tracks.as_slice().is_empty() && entry.mixes.as_slice().is_empty();
    let nothing = entry.room == 0 && entry.cycle == 0 && entry.push == Push::Clean;
    entry.ended && entry.ack && none && nothing
}

/// Whether the mixer ends by the next turn, and says so in that and in the one after it.
pub(crate) fn stays_ended<L: Ledger>(
    mixer: &mut NormalMixer,
    links: &Links<'_>,
    steps: &mut Steps<L>,
) -> bool
    requires { IsInOrder links.now mixer.old }
    ensures { IsInOrder links.now mixer.new }
{
    if mixer.turns() >= 1000 || tells_the_end(mixer.last()) {
        return false;
    }
    let Turn::Ended = mixer.turn(links, steps) else {
        return false;
    };
    let first = tells_the_end(mixer.last());
    turn_after_the_end(mixer, links, steps);
    first && tells_the_end(mixer.last())
}

const ENDS: &[Row] = &[
    Row::Sends(0, OPEN, 0),
    Row::Sends(1, OPEN, 0),
    Row::Turns(1, Push::Clean, Some(257)),
    Row::Sends(0, REMOVE, 0),
    Row::Sends(1, REMOVE, 0),
    Row::Turns(1, PUSH_1, Some(513)),
    Row::Polls(1),
    Row::StaysEnded,
];

#[test]
fn an_ended_turn_loads_nothing_and_tells_the_end(rt: HostRuntime) {
    assert!(rt; plays(rt.alloc(), &[FAST; 2], 2, 1, Plan::Rows(&[ENDS])));
}
