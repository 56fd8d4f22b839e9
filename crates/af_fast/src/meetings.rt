//! The meetings of the mixer's ends, and of the proxies that it holds.
ghost use Rattle.std.specs.Prelude.{◌≡◌, ◌+◌, ◌<◌, true, false, length, Some, MatchOption};
ghost use Rattle.af_base.specs.Log.{slots};
ghost use Rattle.af_model.specs.StateQueue.{slot_of, carries, has};
ghost use Rattle.af_server.specs.Order.{ServerState};
ghost use Rattle.af_stateq.specs.Mutates.{at};
ghost use Rattle.af_fast.specs.Mixer.{IsLinked, IsSound, StaysInOrder};
ghost use Rattle.af_fast.specs.Meets.{AreOthers, AreOfBlockOf, HaveHistories, MeetsHeld, mixer_met, others_met};

use crate::held::meet_item;
use crate::mixer::FastMixer;
use af_base::Steps;
use af_cblk::FlagHand;
use af_client::Client;
use af_link::{Links, PipeIn, ReportReader, StreamNames, meet_pipe, meet_report};
use af_model::carries_item;
use af_server::Server;
use af_stateq::{Mutator, meet};
use std::sync::ledger::Ledger;

impl FastMixer {
    /// The observer, the writer of reports and the end that takes frames meet the other ends of the queue, of the report and of the pipe. Each end learns what its other has done so far: all of it stands before its own next event. It appends Learn to each of the six lists, in fifteen steps, and changes nothing else.
    ///
    /// Whatever the order in which their steps came, the two lists of each object have a history, with these Learns.
    pub fn meet<L: Ledger>(
        &mut self,
        links: &Links<'_>,
        mutator: &mut Mutator<Server, StreamNames>,
        reader: &mut ReportReader,
        from: &mut PipeIn,
        steps: &mut Steps<L>,
    )
        requires order { IsSound self.old × IsLinked links.now self.old }
        requires others { AreOthers links.now (record { mutator = mutator.old; reader = reader.old; pipe = from.old }) }
        ensures order { StaysInOrder self.old self.new × IsLinked links.now self.new }
        ensures mixer { self.new ≡ mixer_met self.old (record { mutator = mutator.old; reader = reader.old; pipe = from.old }) }
        ensures others { let met = others_met self.old (record { mutator = mutator.old; reader = reader.old; pipe = from.old }) in (mutator.new ≡ met.mutator) × (reader.new ≡ met.reader) × (from.new ≡ met.pipe) }
        ensures histories { HaveHistories self.new (record { mutator = mutator.new; reader = reader.new; pipe = from.new }) }
        ensures steps { steps.new ≡ steps.old + 15 }
    {
        let FastMixer { observer, ends, .. } = self;
        let (writer, pipe) = ends;
        meet(links.queue, mutator, observer, steps);
        meet_report(links.report, writer, reader, steps);
        meet_pipe(links.pipe, from, pipe, steps);
    }

    // The track of a slot, if the current state carries one for it.
    fn track_of(&self, slot: u32) -> Option<u32>
        requires slot { slot < slots }
        requires order { IsSound self.now }
        ensures { MatchOption result (carries self.now.observer.past.state slot ≡ false) (λ track. (carries self.now.observer.past.state slot ≡ true) × (track ≡ (slot_of self.now.observer.past.state slot).track)) }
    {
        let state = self.observer.current().copied()?;
        if !carries_item(&state, slot as usize) {
            return None;
        }
        Some(state.slots[slot as usize].track)
    }

    /// The proxy that the observer holds for a slot, its client and its hand meet, as by `af_link::meet_all`, in nine steps. If the observer holds none there it answers false, and nothing is done.
    pub fn meet_held<L: Ledger>(
        &mut self,
        links: &Links<'_>,
        slot: u32,
        client: &mut Client,
        hand: &mut FlagHand,
        steps: &mut Steps<L>,
    ) -> bool
        requires slot { slot < slots }
        requires order { IsSound self.old × IsLinked links.now self.old }
        requires block { (s : ServerState) → at self.old.observer.items slot ≡ Some s → AreOfBlockOf s client.old hand.old }
        ensures order { StaysInOrder self.old self.new × IsLinked links.now self.new }
        ensures same { self.new ≡ (record self.old { observer = self.new.observer }) }
        ensures held { result ≡ has self.old.observer.items slot }
        ensures met { (s : ServerState) → at self.old.observer.items slot ≡ Some s → MeetsHeld slot s self.old.observer client.old hand.old self.new.observer client.new hand.new × (steps.new ≡ steps.old + 9) }
        ensures none { result ≡ false → (self.new ≡ self.old) × (client.new ≡ client.old) × (hand.new ≡ hand.old) × (steps.new ≡ steps.old) }
    {
        let Some(track) = self.track_of(slot) else {
            return false;
        };
        meet_item(
            &mut self.observer,
            links.streams,
            slot as usize,
            track,
            client,
            hand,
            steps,
        );
        true
    }
}
