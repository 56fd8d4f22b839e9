//! 31 tracks of both kinds over 300 turns, each compared with the plain mixer.
ghost use Rattle.std.specs.Prelude.{◌≡◌, ◌<◌, ◌≤◌, length, IfOk};
ghost use Rattle.af_life.specs.Small.{IsSmall};
ghost use Rattle.af_normal_tests.specs.Testing.{AreOthers, IsWorld};

use crate::rows::Row;
use crate::table_tests::{FAST, Kind, Plan, plays};
use crate::tests::{Others, World};
use af_base::{FastState, Memory, NormalTake, Push, SLOTS, Seen, Steps, TurnEntry};
use af_life::{
    FLUSH, Heard, Known, LifeState, OPEN, PAUSE, PlainMixer, REMOVE, START, STOP, Setting,
    TrackKept, new_track, stored_over, turn_weight,
};
use af_link::{Links, no_slot};
use af_model::{carries_item, first_state};
use std::alloc::Global;
use std::mem::drop;
use std::sync::ledger::Ledger;
use std::test::*;

const TURNS: u32 = 300;

const TRACKS: usize = 31;

// Of three tracks two are fast.
fn kind(track: usize) -> Kind {
    Kind {
        fast: track % 3 != 0,
        mono: track % 2 == 1,
        ..FAST
    }
}

const NOTHING: Heard = Heard {
    known: Known {
        consumed: 0,
        fulls: 0,
        partials: 0,
        empties: 0,
        shut: false,
    },
    flush_seen: 0,
};

// The source of what the parties do.
#[derive(Drop)]
struct Source {
    seed: u32,
}

impl Source {
    // The next number below a bound.
    fn draw(&mut self, bound: u32) -> u32 {
        self.seed = self
            .seed
            .wrapping_mul(1_664_525)
            .wrapping_add(1_013_904_223);
        (self.seed >> 16) % bound.max(1)
    }

    // Whether what comes once in so many times comes now.
    fn once_in(&mut self, times: u32) -> bool {
        self.draw(times) == 0
    }

    // A command, of which few are a REMOVE and few are none that there is.
    fn code(&mut self) -> u32 {
        match self.draw(64) {
            0..8 => OPEN,
            8..32 => START,
            32..40 => PAUSE,
            40..46 => STOP,
            46..56 => FLUSH,
            56..60 => REMOVE,
            other => other,
        }
    }

    // What a client does before a turn.
    fn client(&mut self, track: usize, turn: u32) -> Row {
        match self.draw(8) {
            0..3 => Row::Sends(track, self.code(), self.draw(4)),
            3..7 => Row::Writes(track, self.draw(8) as usize),
            _ if turn == 60 => Row::Pokes(track, track % 2 == 0, 100_000),
            _ => Row::Flushes(track),
        }
    }

    // What is reported next of a slot.
    fn report(&mut self, others: &Others) -> Row {
        let slot = self.draw(32) as usize;
        let mut report = no_slot();
        if let Some(last) = others.report.slots.get(slot) {
            report = *last;
        }
        let Some(state) = others.observer.current() else {
            return Row::ReportsAll(slot, report);
        };
        let has = slot < SLOTS && carries_item(state, slot);
        if has && report.generation != state.slots[slot].generation {
            report = no_slot();
            report.generation = state.slots[slot].generation;
        }
        report.consumed = report.consumed.wrapping_add(u64::from(self.draw(3)));
        report.flush_seen = report.flush_seen.wrapping_add(self.draw(5) / 4);
        report.fulls = report.fulls.wrapping_add(self.draw(9) / 8);
        report.partials = report.partials.wrapping_add(self.draw(9) / 8);
        report.empties = report.empties.wrapping_add(self.draw(2));
        report.shut = report.shut || self.once_in(256);
        Row::ReportsAll(slot, report)
    }

    // What the fast mixer does before a turn. What it polls and hears may be anything.
    fn fast(&mut self, others: &Others) -> Row {
        match self.draw(24) {
            0 => Row::Polls(0),
            1..3 => Row::Hears([0; 4]),
            _ => self.report(others),
        }
    }
}

// The plain mixer, what each stream proxy that is home knows, and the last state pushed.
#[derive(Drop)]
struct Beside {
    plain: PlainMixer,
    own: [Heard; TRACKS],
    last: FastState,
}

// What a proxy knows after a look of a mix.
fn heard_more(own: Heard, take: &NormalTake) -> Heard {
    let mut own = own;
    let more = match take.slot.seen {
        Seen::Frames { count } => count,
        Seen::Flushed { dropped } => {
            own.flush_seen = take.slot.flush;
            dropped
        }
        Seen::Shut { .. } => {
            own.known.shut = true;
            0
        }
        _ => 0,
    };
    own.known.consumed = own.known.consumed.wrapping_add(u64::from(more));
    own
}

// What each proxy that is home knows after a mix.
fn all_heard(own: &mut [Heard; TRACKS], takes: &[NormalTake]) {
    for take in takes {
        let i = take.track as usize;
        if i < TRACKS {
            own[i] = heard_more(own[i], take);
        }
    }
}

// Whether the entry of a turn says what the turn left of a track.
fn is_told(entry: &TurnEntry, track: usize, before: TrackKept, after: TrackKept) -> bool {
    let Some(seen) = entry.tracks.as_slice().get(track) else {
        return entry.ended && before == after;
    };
    let (was, is) = (before.life, after.life);
    let disabled = was.member && is.state == LifeState::Active && !is.member && !is.ended;
    seen.status == stored_over(before.status, after.status) && seen.disabled == disabled
}

// Whether the entry of a turn says what the turn left of each track.
fn are_told(entry: &TurnEntry, before: &[TrackKept; TRACKS], after: &[TrackKept]) -> bool {
    for (i, (old, new)) in before.iter().zip(after.iter()).enumerate() {
        if !is_told(entry, i, *old, *new) {
            return false;
        }
    }
    true
}

// Whether the takes are those of the tracks that are mixed here, in order.
fn are_mixed(takes: &[NormalTake], tracks: &[TrackKept]) -> bool {
    let mut next = 0usize;
    for (i, track) in tracks.iter().enumerate() {
        if track.is_mixed_here() {
            match takes.get(next) {
                Some(take) if take.track as usize == i => next = next.wrapping_add(1),
                _ => return false,
            }
        }
    }
    next == takes.len()
}

// The tracks of the plain mixer.
fn copy_of(tracks: &[TrackKept]) -> [TrackKept; TRACKS] {
    let mut copy = [new_track(); TRACKS];
    for (old, track) in copy.iter_mut().zip(tracks.iter()) {
        *old = *track;
    }
    copy
}

impl Beside {
    // Whether the plain mixer is where the entry says.
    fn agrees(&self, entry: &TurnEntry, before: &[TrackKept; TRACKS]) -> bool {
        let after = self.plain.tracks();
        let pushed = match entry.push {
            Push::Pushed { number } => number == self.plain.pushed(),
            Push::Clean => entry.ended || !self.plain.is_dirty(),
            Push::Busy { .. } => self.plain.is_dirty(),
        };
        let takes = entry.mixes.as_slice();
        let mixed = if entry.room >= 4 {
            are_mixed(takes, after)
        } else {
            takes.is_empty()
        };
        pushed && mixed && are_told(entry, before, after) && entry.ended == self.plain.has_ended()
    }

    // A turn of the plain mixer by the entry of the other; whether they agree.
    fn turn(&mut self, world: &World) -> bool
        requires { IsSmall self.old.plain.turns self.old.plain.setup self.old.plain.kept }
        ensures { IsSmall self.new.plain.turns self.new.plain.setup self.new.plain.kept }
    {
        let entry = world.mixer.last();
        let few = entry.mixes.as_slice().len() <= 32 && turn_weight(entry) <= 1;
        if !few || self.plain.turns() >= 1000 || self.plain.tracks().len() != TRACKS {
            return false;
        }
        let before = copy_of(self.plain.tracks());
        self.plain.turn(&world.others.report, &self.own, entry);
        all_heard(&mut self.own, entry.mixes.as_slice());
        if let Push::Pushed { .. } = entry.push {
            self.last = *self.plain.draft();
        }
        self.agrees(entry, &before)
    }

    // Whether the fast mixer has the last state pushed, if it polled that.
    fn was_polled(&self, others: &Others) -> bool {
        match others.observer.current() {
            Some(state) if others.observer.number() == self.plain.pushed() => *state == self.last,
            _ => true,
        }
    }
}

// What all parties but the mixer do before a turn.
fn moves<L: Ledger>(
    world: &mut World,
    source: &mut Source,
    links: &Links<'_>,
    turn: u32,
    steps: &mut Steps<L>,
)
    requires { IsWorld links.now world.old.mixer world.old.others.observer world.old.others.ends.0 world.old.others.ends.1 world.old.others.report world.old.others.streams.items world.old.others.commands.items }
    ensures { IsWorld links.now world.new.mixer world.new.others.observer world.new.others.ends.0 world.new.others.ends.1 world.new.others.report world.new.others.streams.items world.new.others.commands.items }
{
    for track in 0..TRACKS {
        let row = source.client(track, turn);
        world.does(links, &row, steps);
        let row = source.fast(&world.others);
        world.does(links, &row, steps);
    }
}

// Some turns; whether each was that of the plain mixer.
fn run<L: Ledger>(
    world: &mut World,
    beside: &mut Beside,
    links: &Links<'_>,
    steps: &mut Steps<L>,
) -> bool
    requires world { IsWorld links.now world.old.mixer world.old.others.observer world.old.others.ends.0 world.old.others.ends.1 world.old.others.report world.old.others.streams.items world.old.others.commands.items }
    requires plain { IsSmall beside.old.plain.turns beside.old.plain.setup beside.old.plain.kept }
{
    let mut source = Source { seed: 1 };
    for turn in 0..TURNS {
        moves(world, &mut source, links, turn, steps);
        let polled = beside.was_polled(&world.others);
        world.does(links, &Row::Ends, steps);
        if !polled || !beside.turn(world) {
            return false;
        }
    }
    let again = attached_again(beside.plain.draft());
    beside.plain.pushed() > 20 && again > 5
}

// How many slots were attached more than once.
fn attached_again(draft: &FastState) -> u32 {
    let mut again = 0u32;
    for slot in &draft.slots {
        if slot.generation >= 2 {
            again = again.wrapping_add(1);
        }
    }
    again
}

fn new_plain(alloc: Global, kinds: &[Kind; TRACKS]) -> Result<PlainMixer, Memory>
    ensures { IfOk result (λ m. IsSmall m.turns m.setup m.kept) }
{
    let fast = Setting {
        fast: true,
        mono: false,
        scale: 0x1000,
    };
    let mut settings = vec![in alloc; fast; TRACKS]?;
    for (setting, kind) in settings.iter_mut().zip(kinds.iter()) {
        setting.fast = kind.fast;
        setting.mono = kind.mono;
    }
    PlainMixer::new(alloc, 2, 2, settings)
}

fn all_kinds() -> [Kind; TRACKS] {
    let mut kinds = [FAST; TRACKS];
    for (track, one) in kinds.iter_mut().enumerate() {
        *one = kind(track);
    }
    kinds
}

// The plain mixer before its first turn.
fn new_beside(alloc: Global, kinds: &[Kind; TRACKS]) -> Result<Beside, Memory>
    ensures { IfOk result (λ b. IsSmall b.plain.turns b.plain.setup b.plain.kept) }
{
    let plain = new_plain(alloc, kinds)?;
    Ok(Beside {
        plain,
        own: [NOTHING; TRACKS],
        last: first_state(2),
    })
}

/// Whether each turn of a mixer of these kinds is that of the plain mixer.
pub(crate) fn runs_beside<L: Ledger>(
    alloc: Global,
    world: &mut World,
    links: &Links<'_>,
    steps: &mut Steps<L>,
) -> Result<bool, Memory>
    requires { IsWorld links.now world.old.mixer world.old.others.observer world.old.others.ends.0 world.old.others.ends.1 world.old.others.report world.old.others.streams.items world.old.others.commands.items }
{
    let kinds = all_kinds();
    let mut beside = new_beside(alloc, &kinds)?;
    let so = run(world, &mut beside, links, steps);
    drop(beside);
    Ok(so)
}

#[test]
fn a_long_run_is_that_of_the_plain_mixer(rt: HostRuntime) {
    assert!(rt; plays(rt.alloc(), &all_kinds(), 2, 2, Plan::Beside));
}
