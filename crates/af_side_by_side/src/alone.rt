//! A turn of the fast mixer while the other parties make theirs.
ghost use Rattle.std.specs.Prelude.{◌≡◌, ◌-◌, ◌<◌, ◌≤◌, ℕ, List, false, length};
ghost use Rattle.af_base.specs.Log.{entry_at};
ghost use Rattle.af_model.specs.JournalForm.{is_spent};
ghost use Rattle.af_side_by_side.specs.Alone.{CyclesOn, CyclesOnce, most_cycles};
ghost use Rattle.af_side_by_side.specs.Logging.{HasLogged, IsScribe};
ghost use Rattle.af_session.specs.Rooms.{CanCycle, HasAdded, HasNotedOn, HasRoom, KeepsRoom, KeepsSizes};
ghost use Rattle.af_side_by_side.specs.TurnsInRoom.{FastLogged};
ghost use Rattle.af_runs.specs.Pcm.{written};
ghost use Rattle.af_tally.specs.Summaries.{Shown};
ghost use Rattle.af_tally.specs.Tallies.{IsTally, Keeps};

use crate::logging::Scribe;
use af_base::{Cycle, Steps};
use af_cblk::Block;
use af_fast::FastMixer;
use af_link::Links;
use af_session::{Room, is_mixed, mix_in};
use std::marker::Brand;
use std::sync::ledger::{Blank, Ledger};

/// The most cycles of a turn.
const MOST_CYCLES: u32 = 16;

// One cycle, whose bytes are appended, and whose steps are counted by themselves.
fn cycle_once<L: Ledger>(
    blank: Blank,
    fast: &mut FastMixer,
    links: &Links<'_>,
    room: &mut Room,
) -> Cycle
    requires ledger { (blank.name ≡ L.name) × (blank.parts ≡ L.parts) × (0 < blank.parts) }
    requires can { CanCycle links.now fast.old }
    requires room { HasRoom 1 fast.old room.old }
    ensures can { CanCycle links.now fast.new }
    ensures cycle { CyclesOnce links.now fast.old result (written result room.new.buffer.items) fast.new }
    ensures bytes { HasAdded room.old (written result room.new.buffer.items) room.new }
    ensures noted { HasNotedOn fast.old fast.new room.old.tally room.new.tally }
    ensures kept { KeepsRoom room.old room.new }
{
    let mut steps = Steps::<L>::start(blank);
    fast.adopt(links, &mut steps);
    mix_in(fast, links, room, &mut steps)
}

// Notes the entry that the mixer added last, if a log is kept. The steps of the note are counted by themselves, and noted in the tally.
fn note_in<L: Ledger>(
    blank: Blank,
    fast: &FastMixer,
    frames: u32,
    room: &mut Room,
    log: &Option<Block>,
    scribe: &mut Scribe,
)
    requires ledger { (blank.name ≡ L.name) × (blank.parts ≡ L.parts) × (0 < blank.parts) }
    requires some { 0 < length fast.now.log.entries }
    requires few { length fast.now.log.entries ≤ 100000 }
    requires kept { is_spent (entry_at fast.now.log.entries (length fast.now.log.entries - 1)).cycle ≡ false }
    requires frames { frames ≡ fast.now.frames }
    requires scribe { IsScribe log.now (length fast.now.log.entries - 1) scribe.old }
    ensures scribe { IsScribe log.now (length fast.now.log.entries) scribe.new }
    ensures logged { HasLogged (length fast.now.log.entries - 1) fast.now scribe.old scribe.new }
    ensures tally { (run : Shown) → IsTally run room.old.tally → IsTally run room.new.tally }
    ensures keeps { Keeps 0 0 room.old.tally room.new.tally }
    ensures room { room.new ≡ record room.old { tally = room.new.tally } }
{
    let mut steps = Steps::<L>::start(blank);
    scribe.note_last(log, fast, frames, &mut steps);
    room.tally.note_noted(&steps);
}

// One cycle, whose bytes are appended. Its entry is noted in the log, if one is kept.
fn cycle_logged(
    fast: &mut FastMixer,
    links: &Links<'_>,
    room: &mut Room,
    log: &Option<Block>,
    scribe: &mut Scribe,
) -> Cycle
    requires can { CanCycle links.now fast.old }
    requires room { HasRoom 1 fast.old room.old }
    requires log { IsScribe log.now (length fast.old.log.entries) scribe.old }
    ensures can { CanCycle links.now fast.new }
    ensures cycle { CyclesOnce links.now fast.old result (written result room.new.buffer.items) fast.new }
    ensures bytes { HasAdded room.old (written result room.new.buffer.items) room.new }
    ensures noted { HasNotedOn fast.old fast.new room.old.tally room.new.tally }
    ensures kept { KeepsRoom room.old room.new }
    ensures scribe { IsScribe log.now (length fast.new.log.entries) scribe.new }
    ensures logged { HasLogged (length fast.old.log.entries) fast.new scribe.old scribe.new }
{
    let entries = fast.log().len();
    let frames = room.buffer.len() as u32;
    let cycle = cycle_once::<Brand>(Blank::new(1), fast, links, room);
    if fast.log().len() > entries {
        note_in::<Brand>(Blank::new(1), fast, frames, room, log, scribe);
    }
    cycle
}

// Up to sixteen cycles. The first that mixes nothing is the last.
fn cycles_on(
    fast: &mut FastMixer,
    links: &Links<'_>,
    room: &mut Room,
    log: &Option<Block>,
    scribe: &mut Scribe,
)
    requires can { CanCycle links.now fast.old }
    requires room { HasRoom 16 fast.old room.old }
    requires log { IsScribe log.now (length fast.old.log.entries) scribe.old }
    ensures can { CanCycle links.now fast.new }
    ensures sizes { KeepsSizes fast.old fast.new }
    ensures turned { (added : List ℕ) × HasAdded room.old added room.new × CyclesOn links.now most_cycles fast.old added fast.new }
    ensures noted { HasNotedOn fast.old fast.new room.old.tally room.new.tally }
    ensures kept { KeepsRoom room.old room.new }
    ensures scribe { IsScribe log.now (length fast.new.log.entries) scribe.new }
    ensures logged { HasLogged (length fast.old.log.entries) fast.new scribe.old scribe.new }
{
    for i in 0..MOST_CYCLES {
        let cycle = cycle_logged(fast, links, room, log, scribe);
        if !is_mixed(cycle) {
            return;
        }
    }
}

/// The fast mixer's turn while the other parties make theirs: up to sixteen cycles, none if it has ended. The bytes of each mix are appended to those in the room, and the tally notes each entry and what it wrote. If a log is kept each entry is noted in it too. It takes no memory.
pub fn turn_alone(
    fast: &mut FastMixer,
    links: &Links<'_>,
    room: &mut Room,
    log: &Option<Block>,
    scribe: &mut Scribe,
)
    requires can { CanCycle links.now fast.old }
    requires room { HasRoom 16 fast.old room.old }
    requires log { IsScribe log.now (length fast.old.log.entries) scribe.old }
    ensures played { FastLogged links.now fast.old fast.new room.old room.new scribe.old scribe.new }
    ensures scribe { IsScribe log.now (length fast.new.log.entries) scribe.new }
{
    if !fast.has_exited() {
        cycles_on(fast, links, room, log, scribe);
    }
}
