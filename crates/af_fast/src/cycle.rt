//! One cycle: a poll, and then the mix.
ghost use Rattle.std.specs.Prelude.{◌≡◌, ◌+◌, ◌*◌, ◌≤◌, true, false, if◌then◌else◌, List, length};
ghost use Rattle.af_base.specs.declared.log.Cycle.TheVariants as cycle;
ghost use Rattle.af_base.specs.declared.log.CycleEntry.{CycleEntry};
ghost use Rattle.af_base.specs.Log.{slots};
ghost use Rattle.af_model.specs.Cycles.{is_mixed};
ghost use Rattle.af_fast.specs.Mixer.{IsInOrderAfter, IsLinked, IsSound, MixerState, StaysInOrder, is_over};
ghost use Rattle.af_fast.specs.Mixing.{AddsCycleAfter, Adopts, MixesOnceAfter, Writes};
ghost use Rattle.af_model.specs.Tracks.{tracks_of};

use crate::current::cycle_of;
use crate::mixer::FastMixer;
use af_base::{Cycle, Frame, Steps};
use af_link::Links;
use std::sync::ledger::Ledger;

// Whether a cycle mixes.
fn is_mixed(cycle: Cycle) -> bool
    ensures { result ≡ is_mixed cycle }
{
    matches!(cycle, Cycle::Mixed)
}

impl FastMixer {
    // Whether Exit was answered or the log is full.
    fn is_over(&self) -> bool
        ensures { result ≡ is_over self.now }
    {
        self.exited || self.log.len() == self.cycles
    }

    // What a mixer that is over answers.
    fn over_answer(&self) -> Cycle
        ensures { result ≡ (if self.now.exited then cycle.Exit else cycle.Spent self.now.cycles) }
    {
        if self.exited {
            return Cycle::Exit;
        }
        Cycle::Spent {
            cycles: self.cycles,
        }
    }

    /// Polls once, and adopts a new state with its items. It does nothing if Exit was answered or the log is full. At most two steps.
    ///
    /// The calls of `adopt` and of `mix` come in turns, and the first is `adopt`.
    pub fn adopt<L: Ledger>(&mut self, links: &Links<'_>, steps: &mut Steps<L>)
        requires linked { IsLinked links.now self.old }
        requires order { IsSound self.old }
        requires turn { self.old.adopted ≡ false }
        ensures linked { IsLinked links.now self.new }
        ensures order { StaysInOrder self.old self.new }
        ensures adopts { Adopts self.old self.new }
        ensures steps { steps.new ≤ steps.old + 2 }
    {
        let over = self.is_over();
        self.adopted = true;
        if over {
            return;
        }
        self.observer.poll(links.queue, steps);
    }

    // Adds the entry of the state adopted, by what the cycle is.
    fn add_cycle<L: Ledger>(
        &mut self,
        links: &Links<'_>,
        out: &mut [Frame],
        steps: &mut Steps<L>,
    ) -> Cycle
        requires linked { IsLinked links.now self.old }
        requires order { IsSound self.old }
        requires goes { is_over self.old ≡ false }
        requires out { length out.old ≡ self.old.frames }
        ensures linked { IsLinked links.now self.new }
        ensures order { StaysInOrder self.old self.new }
        ensures turn { self.new.adopted ≡ false }
        ensures sizes { (self.new.frames ≡ self.old.frames) × (self.new.cycles ≡ self.old.cycles) }
        ensures adds { (earlier : List CycleEntry) → IsInOrderAfter earlier self.old → (entry : CycleEntry) × (result ≡ entry.cycle) × AddsCycleAfter earlier self.old self.new entry × Writes self.new entry out.old out.new }
        ensures length { length out.new ≡ length out.old }
        ensures steps { let tracks = tracks_of self.old.observer.past.state in steps.new ≤ steps.old + (tracks + 1) * self.old.frames + 7 * tracks + 4 }
        ensures state { self.new.observer.past ≡ self.old.observer.past }
    {
        let kind = cycle_of(self.cold, &self.observer);
        if is_mixed(kind) {
            self.add_mix(links, out, steps);
            return kind;
        }
        self.add_still(links, kind, steps);
        kind
    }

    /// The rest of the cycle, with the state adopted. It answers Exit if it was answered before, else Spent if the log is full, and both leave all as it was. Else one entry is added to the log, and the report after it is stored.
    ///
    /// The entry is Idle if nothing was pushed. By the state's command it is Exit, or Cold if its cold generation wasn't performed yet, or Mixed for MixWrite, and else Idle. Only Mixed writes `out`, which has the frames of a cycle. With m tracks in the state it takes at most `(m + 1) * frames + 7 * m + 4` steps.
    pub fn mix<L: Ledger>(
        &mut self,
        links: &Links<'_>,
        out: &mut [Frame],
        steps: &mut Steps<L>,
    ) -> Cycle
        requires linked { IsLinked links.now self.old }
        requires order { IsSound self.old }
        requires turn { self.old.adopted ≡ true }
        requires out { length out.old ≡ self.old.frames }
        ensures linked { IsLinked links.now self.new }
        ensures order { StaysInOrder self.old self.new }
        ensures turn { self.new.adopted ≡ false }
        ensures sizes { (self.new.frames ≡ self.old.frames) × (self.new.cycles ≡ self.old.cycles) }
        ensures mixes { (earlier : List CycleEntry) → IsInOrderAfter earlier self.old → MixesOnceAfter earlier self.old out.old result self.new out.new }
        ensures length { length out.new ≡ length out.old }
        ensures steps { let tracks = tracks_of self.old.observer.past.state in steps.new ≤ steps.old + (tracks + 1) * self.old.frames + 7 * tracks + 4 }
        ensures state { self.new.observer.past ≡ self.old.observer.past }
    {
        if self.is_over() {
            self.adopted = false;
            return self.over_answer();
        }
        self.add_cycle(links, out, steps)
    }

    /// One cycle: `adopt`, and then `mix`.
    ///
    /// With m tracks in the state that is then adopted it takes at most `(m + 1) * frames + 7 * m + 6` steps: two for the poll, `frames + 3` for the pipe, `frames + 7` for each track, and one for the report. So it takes at most `8 * frames + 65` for seven tracks, and `32 * frames + 257` for any.
    pub fn cycle<L: Ledger>(
        &mut self,
        links: &Links<'_>,
        out: &mut [Frame],
        steps: &mut Steps<L>,
    ) -> Cycle
        requires linked { IsLinked links.now self.old }
        requires order { IsSound self.old }
        requires turn { self.old.adopted ≡ false }
        requires out { length out.old ≡ self.old.frames }
        ensures linked { IsLinked links.now self.new }
        ensures order { StaysInOrder self.old self.new }
        ensures turn { self.new.adopted ≡ false }
        ensures sizes { (self.new.frames ≡ self.old.frames) × (self.new.cycles ≡ self.old.cycles) × (length out.new ≡ length out.old) }
        ensures cycle { (middle : MixerState) × Adopts self.old middle × ((earlier : List CycleEntry) → IsInOrderAfter earlier self.old → MixesOnceAfter earlier middle out.old result self.new out.new) }
        ensures steps { let tracks = tracks_of self.new.observer.past.state in steps.new ≤ steps.old + (tracks + 1) * self.old.frames + 7 * tracks + 6 }
        ensures seven { tracks_of self.new.observer.past.state ≤ 7 → steps.new ≤ steps.old + 8 * self.old.frames + 65 }
        ensures most { steps.new ≤ steps.old + slots * (self.old.frames + 8) + 1 }
    {
        self.adopt(links, steps);
        self.mix(links, out, steps)
    }
}
