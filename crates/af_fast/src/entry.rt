//! How the entry of a cycle is made and noted.
ghost use Rattle.std.specs.Prelude.{◌≡◌, ℕ, ◌+◌, ◌*◌, ◌<◌, ◌≤◌, ◌^◌, ◌++◌, ◌∷◌, [], true, false, if◌then◌else◌, List, length};
ghost use Rattle.af_base.specs.Log.{slots, takes_of};
ghost use Rattle.af_base.specs.Mix.{mix};
ghost use Rattle.af_base.specs.declared.log.Cycle.TheVariants as cycle;
ghost use Rattle.af_base.specs.declared.log.CycleEntry.{CycleEntry};
ghost use Rattle.af_model.specs.Cycles.{is_cold, is_exit, is_mixed, cold_of, cycle_of, still_entry};
ghost use Rattle.af_base.specs.declared.state.FastState.{FastState};
ghost use Rattle.af_stateq.specs.Observes.{InOrder};
ghost use Rattle.af_link.specs.PipeEnds.{out_made};
ghost use Rattle.af_link.specs.Reports.{last_cycle};
ghost use Rattle.af_fast.specs.Fits.{stream_fits, NamesBlocks};
ghost use Rattle.af_fast.specs.Mixer.{AreFew, IsInOrderAfter, IsLinked, IsSound, StaysInOrder, is_over, most_entries};
ghost use Rattle.af_fast.specs.Mixing.{AddsCycleAfter, StoresReport, Writes, notes};
ghost use Rattle.af_fast.specs.Slots.{PlaysSlots, SameEntries};
ghost use Rattle.af_model.specs.Tracks.{tracks_of};

use crate::current::{cold_after, keep_current};
use crate::heard::mix_heard;
use crate::mixer::FastMixer;
use crate::report::report_all;
use crate::slots::{play_slots, still_entry};
use af_base::{Cycle, CycleEntry, Frame, Steps};
use af_link::Links;
use std::sync::ledger::Ledger;

impl FastMixer {
    // Whether the last entry used the state adopted. It is known only of an entry that the log hasn't forgotten.
    fn has_kept(&self) -> bool
        requires { IsSound self.now }
        ensures { result ≡ true → self.now.last ≡ self.now.observer.current }
    {
        let len = self.log.len();
        if len == 0 {
            return false;
        }
        match self.log.entry(len - 1) {
            None => false,
            Some(entry) => entry.state == self.observer.number(),
        }
    }

    /// The slots of a mix are played into its entry, and what they took is mixed.
    pub(crate) fn mix_slots<L: Ledger>(
        &mut self,
        links: &Links<'_>,
        entry: &mut CycleEntry,
        out: &mut [Frame],
        steps: &mut Steps<L>,
    )
        requires some { 0 < self.old.observer.past.number }
        requires order { InOrder stream_fits self.old.observer }
        requires names { NamesBlocks self.old.observer.past.key links.now.streams.now }
        requires made { out_made self.old.pipe ≡ links.now.pipe.now }
        requires frames { (1 ≤ self.old.frames) × (self.old.frames ≤ 2 ^ 21) }
        requires room { length self.old.log.frames + slots * self.old.frames ≤ self.old.log.frame_room }
        requires out { length out.old ≡ self.old.frames }
        requires entry { entry.old ≡ still_entry self.old.observer.past.number cycle.Mixed }
        ensures order { InOrder stream_fits self.new.observer }
        ensures made { out_made self.new.pipe ≡ links.now.pipe.now }
        ensures same { self.new ≡ (record self.old { observer = self.new.observer; pipe = self.new.pipe; log = self.new.log }) }
        ensures log { SameEntries self.old.log self.new.log }
        ensures plays { PlaysSlots self.old.frames self.old.observer.past.number self.old.observer.past.state self.old.observer self.new.observer self.old.pipe self.new.pipe self.old.log.frames self.new.log.frames entry.new }
        ensures mixes { out.new ≡ mix (takes_of self.new.log.frames entry.new) (length out.old) }
        ensures steps { steps.new ≤ steps.old + (self.old.frames + 3) + tracks_of self.old.observer.past.state * (self.old.frames + 7) }
    {
        let FastMixer {
            observer,
            ends,
            log,
            sums,
            buffer,
            ..
        } = self;
        let (_, pipe) = ends;
        let used = play_slots(observer, pipe, log, links, entry, buffer, steps);
        mix_heard(log.frames(), entry, used, sums, out);
    }

    /// An entry under the state adopted is added, and the report after it is stored. `kept` says that the entry before used that state.
    pub(crate) fn note<L: Ledger>(
        &mut self,
        links: &Links<'_>,
        kept: bool,
        entry: &CycleEntry,
        steps: &mut Steps<L>,
    )
        requires kept { kept ≡ true → self.old.last ≡ self.old.observer.current }
        requires order { InOrder stream_fits self.old.observer }
        requires cell { self.old.writer.cell ≡ links.now.report.now }
        requires room { length self.old.log.entries < self.old.log.room }
        requires later { last_cycle self.old.writer.events ≡ self.old.count }
        requires few { (self.old.count < most_entries) × AreFew most_entries self.old.reports }
        ensures notes { self.new ≡ notes self.old.observer.current entry.now self.new.writer self.new.reports self.old }
        ensures reports { StoresReport self.old.observer.current entry.now self.old self.new }
        ensures cell { self.new.writer.cell ≡ self.old.writer.cell }
        ensures steps { steps.new ≡ steps.old + 1 }
    {
        self.log.push(*entry);
        report_all(
            &mut self.observer,
            &mut self.report.slots,
            kept,
            &self.last,
            entry,
            self.frames,
        );
        keep_current(&mut self.last, kept, &self.observer);
        self.exited = entry.cycle == Cycle::Exit;
        self.cold = cold_after(self.cold, entry.cycle, &self.observer);
        self.report.cycle += 1;
        self.ends.0.store(links.report, &self.report, steps);
    }

    /// Adds an entry that mixes nothing.
    pub(crate) fn add_still<L: Ledger>(
        &mut self,
        links: &Links<'_>,
        kind: Cycle,
        steps: &mut Steps<L>,
    )
        requires linked { IsLinked links.now self.old }
        requires order { IsSound self.old }
        requires goes { is_over self.old ≡ false }
        requires kind { kind ≡ cycle_of self.old.cold self.old.observer.current }
        requires still { is_mixed kind ≡ false }
        ensures linked { IsLinked links.now self.new }
        ensures order { StaysInOrder self.old self.new }
        ensures turn { self.new.adopted ≡ false }
        ensures sizes { (self.new.frames ≡ self.old.frames) × (self.new.cycles ≡ self.old.cycles) }
        ensures adds { (earlier : List CycleEntry) → IsInOrderAfter earlier self.old → (entry : CycleEntry) × (kind ≡ entry.cycle) × AddsCycleAfter earlier self.old self.new entry }
        ensures steps { steps.new ≡ steps.old + 1 }
        ensures state { self.new.observer.past ≡ self.old.observer.past }
    {
        let kept = self.has_kept();
        self.adopted = false;
        let entry = still_entry(self.observer.number(), kind);
        self.note(links, kept, &entry, steps);
    }

    /// Adds the entry of a mix, and writes the mix.
    pub(crate) fn add_mix<L: Ledger>(
        &mut self,
        links: &Links<'_>,
        out: &mut [Frame],
        steps: &mut Steps<L>,
    )
        requires linked { IsLinked links.now self.old }
        requires order { IsSound self.old }
        requires goes { is_over self.old ≡ false }
        requires mixed { cycle.Mixed ≡ cycle_of self.old.cold self.old.observer.current }
        requires out { length out.old ≡ self.old.frames }
        ensures linked { IsLinked links.now self.new }
        ensures order { StaysInOrder self.old self.new }
        ensures turn { self.new.adopted ≡ false }
        ensures sizes { (self.new.frames ≡ self.old.frames) × (self.new.cycles ≡ self.old.cycles) }
        ensures adds { (earlier : List CycleEntry) → IsInOrderAfter earlier self.old → (entry : CycleEntry) × (cycle.Mixed ≡ entry.cycle) × AddsCycleAfter earlier self.old self.new entry × Writes self.new entry out.old out.new }
        ensures length { length out.new ≡ length out.old }
        ensures steps { let tracks = tracks_of self.old.observer.past.state in steps.new ≤ steps.old + (tracks + 1) * self.old.frames + 7 * tracks + 4 }
        ensures state { self.new.observer.past ≡ self.old.observer.past }
    {
        let kept = self.has_kept();
        self.adopted = false;
        let mut entry = still_entry(self.observer.number(), Cycle::Mixed);
        self.mix_slots(links, &mut entry, out, steps);
        self.note(links, kept, &entry, steps);
    }
}
