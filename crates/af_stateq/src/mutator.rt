//! The end that pushes states.
ghost use Rattle.std.specs.Prelude.{◌≡◌, ◌≢◌, ℕ, ◌+◌, ◌^◌, ◌<◌, ◌≤◌, ◌==◌, ◌&&◌, ◌||◌, not, true, false, is_some, IfSome, Some, None, slice_set, length};
ghost use Rattle.af_base.specs.Command.{code_of};
ghost use Rattle.af_base.specs.declared.state.Push.TheVariants.{Pushed};
ghost use Rattle.af_model.specs.StateQueue.{slots, slot_of, carries, has};
ghost use Rattle.af_model.specs.Draft.{attached, detached, draft_commanded};
ghost use Rattle.af_stateq.specs.Shelved.{word, nothing};
ghost use Rattle.af_stateq.specs.Mutates.{Mutates, InDraft, IsJoined, at, is_out};
ghost use Rattle.af_stateq.specs.Answers.{SeesIt, SeesOlder, shows, WasPushed, WasAcked, SameDraft};

use crate::ends::{MutatorEnd, word_of};
use crate::rule::{Fits, Queue};
use af_base::{Command, FastState, FastTrack, Push, SLOTS, Steps};
use std::marker::Model;
use std::mem;
use std::sync::ledger::Ledger;

/// The end that edits a draft and pushes it. Contracts see the list of its events, the draft, and the items that it has.
#[derive(Drop)]
pub struct Mutator<P: Drop, N: Fits<P>> {
    pub(crate) end: MutatorEnd<P, N>,
    pub(crate) draft: FastState,
    pub(crate) dirty: bool,
    pub(crate) editing: bool,
    pub(crate) edited: bool,
    pub(crate) pending: Vec<Option<P>>,
    pub(crate) returned: Vec<Option<P>>,
    pub(crate) out: [bool; SLOTS],
    pub(crate) spare: Vec<Option<P>>,
}

impl<P: Drop, N: Fits<P>> Model for Mutator<P, N> {
    ghost use Rattle.std.specs.Prelude.{◌≡◌};
    ghost use Rattle.af_stateq.specs.Shelved.{nothing};
    ghost use Rattle.af_stateq.specs.Mutates.{Mutates, InDraft};

    ghost Value = { Mutates P N.Key };

    ghost view = { λ m. record { past = m.end; draft = m.draft; dirty = m.dirty; editing = m.editing; edited = m.edited; pending = m.pending.items; returned = m.returned.items; out = m.out } };

    ghost invariant = { λ m. (m.spare.items ≡ nothing) × InDraft N.fits record { past = m.end; draft = m.draft; dirty = m.dirty; editing = m.editing; edited = m.edited; pending = m.pending.items; returned = m.returned.items; out = m.out } };
}

impl<P: Drop, N: Fits<P>> Mutator<P, N> {
    /// Begins a mutation.
    pub fn begin(&mut self)
        requires idle { self.old.editing ≡ false }
        ensures { self.new ≡ record self.old { editing = true; edited = false } }
    {
        self.editing = true;
        self.edited = false;
    }

    /// Ends a mutation. If it made an edit, or says so, the draft is to be pushed.
    pub fn end(&mut self, did_modify: bool)
        requires editing { self.old.editing ≡ true }
        requires honest { self.old.edited ≡ true → did_modify ≡ true }
        ensures { self.new ≡ record self.old { editing = false; edited = false; dirty = self.old.dirty || did_modify } }
    {
        self.editing = false;
        self.edited = false;
        self.dirty = self.dirty || did_modify;
    }

    /// Sets the command of the draft. A change to ColdIdle raises its count of cold idles.
    pub fn set_command(&mut self, command: Command)
        requires editing { self.old.editing ≡ true }
        requires room { self.old.draft.cold_gen < 2 ^ 62 }
        ensures { self.new ≡ record self.old { draft = draft_commanded command self.old.draft; edited = self.old.edited || not (code_of command == code_of self.old.draft.command) } }
    {
        let (before, after) = (self.draft.command.code(), command.code());
        let cold = Command::ColdIdle.code();
        if after == cold && before != cold {
            self.draft.cold_gen += 1;
        }
        self.draft.command = command;
        self.edited = self.edited || after != before;
    }

    /// Puts a track with its item into a free slot of the draft. The slot's generation rises, and so does that of the tracks.
    pub fn attach(&mut self, slot: u32, mono: bool, scale: u16, track: u32, item: P)
        requires editing { self.old.editing ≡ true }
        requires slot { (1 ≤ slot) × (slot < slots) }
        requires free { is_out self.old.out slot ≡ false }
        requires scale { scale ≤ 4096 }
        requires fits { (key : N.Key) → self.old.past.key ≡ Some key → N.fits key track item }
        requires room { ((slot_of self.old.draft slot).generation < 2 ^ 62) × (self.old.draft.tracks_gen < 2 ^ 62) }
        ensures { self.new ≡ record self.old { draft = attached slot mono scale track self.old.draft; edited = true; pending = slice_set self.old.pending slot (Some item); out = slice_set self.old.out slot true } }
    {
        let i = slot as usize;
        let generation = self.draft.slots[i].generation + 1;
        self.draft.slots[i] = FastTrack {
            generation,
            track,
            mono,
            scale,
        };
        self.draft.mask |= 1 << slot;
        self.draft.tracks_gen += 1;
        self.pending[i] = Some(item);
        self.out[i] = true;
        self.edited = true;
    }

    /// Takes a slot out of the draft. The generation of the tracks rises. An item that no push carried is in hand at once.
    pub fn detach(&mut self, slot: u32)
        requires editing { self.old.editing ≡ true }
        requires slot { (1 ≤ slot) × (slot < slots) }
        requires attached { carries self.old.draft slot ≡ true }
        requires room { self.old.draft.tracks_gen < 2 ^ 62 }
        ensures { self.new ≡ record self.old { draft = detached slot self.old.draft; edited = true; pending = slice_set self.old.pending slot None; returned = slice_set self.old.returned slot (at self.old.pending slot) } }
    {
        let i = slot as usize;
        self.draft.mask &= !(1 << slot);
        self.draft.tracks_gen += 1;
        self.returned[i] = self.pending[i].take();
        self.edited = true;
    }

    /// The detached item of a slot, if it is in hand. From then on the slot is free.
    pub fn take_back(&mut self, slot: u32) -> Option<P>
        requires slot { (1 ≤ slot) × (slot < slots) }
        ensures item { result ≡ at self.old.returned slot }
        ensures state { self.new ≡ record self.old { returned = slice_set self.old.returned slot None; out = slice_set self.old.out slot (is_out self.old.out slot && not (is_some result)) } }
        ensures fits { IfSome result (λ p. (key : N.Key) → self.old.past.key ≡ Some key → N.fits key (slot_of self.old.draft slot).track p) }
    {
        let i = slot as usize;
        let item = self.returned[i].take();
        self.out[i] = self.out[i] & item.is_none();
        item
    }

    /// The draft. What always holds of the mutator stands here.
    pub fn draft(&self) -> &FastState
        ensures draft { result.now ≡ self.now.draft }
        ensures holds { InDraft N.fits self.now }
    {
        &self.draft
    }

    /// Whether the item of a slot was never attached or was taken back.
    pub fn is_free(&self, slot: u32) -> bool
        ensures { result ≡ not (is_out self.now.out slot) }
    {
        let i = slot as usize;
        i >= SLOTS || !self.out[i]
    }

    // One look at the acknowledgement. Items that come are in hand.
    fn see_ack<L: Ledger>(&mut self, queue: &Queue<P, N>, steps: &mut Steps<L>) -> u64
        requires together { self.old.past.queue ≡ queue.now }
        ensures seen { result ≡ word self.old.past.number → SeesIt self.old self.new × (self.new.past.clear ≡ true) }
        ensures older { result ≢ word self.old.past.number → (a : ℕ) × (result ≡ word a) × SeesOlder self.old self.new a }
        ensures holds { InDraft N.fits self.new }
        ensures steps { steps.new ≡ steps.old + 1 }
    {
        let Mutator {
            end,
            returned,
            spare,
            ..
        } = self;
        let expected = word_of(end.number);
        let seen = end.see_ack(queue, spare, steps);
        if seen != expected {
            return seen;
        }
        join(returned, spare);
        seen
    }

    // Shows the draft as the next state, with the pending items.
    fn show<L: Ledger>(&mut self, queue: &Queue<P, N>, steps: &mut Steps<L>) -> Push
        requires together { self.old.past.queue ≡ queue.now }
        requires room { self.old.past.number < 2 ^ 62 }
        requires clear { self.old.past.clear ≡ true }
        ensures answer { result ≡ Pushed (self.old.past.number + 1) }
        ensures state { self.new ≡ shows self.old }
        ensures holds { InDraft N.fits self.new }
        ensures steps { steps.new ≡ steps.old + 1 }
    {
        let Mutator {
            end,
            draft,
            dirty,
            pending,
            ..
        } = self;
        end.push(queue, draft, pending, steps);
        *dirty = false;
        Push::Pushed { number: end.number }
    }

    /// Pushes the draft if it is dirty and the last push was acknowledged. If a push stands it looks once for the acknowledgement, which is one step; a push is one more. After Busy the draft stays dirty.
    pub fn push<L: Ledger>(&mut self, queue: &Queue<P, N>, steps: &mut Steps<L>) -> Push
        requires idle { self.old.editing ≡ false }
        requires together { self.old.past.queue ≡ queue.now }
        requires room { self.old.past.number < 2 ^ 62 }
        ensures answer { WasPushed self.old result self.new steps.old steps.new }
        ensures same { SameDraft self.old self.new × (self.new.past.number ≤ self.old.past.number + 1) }
        ensures holds { InDraft N.fits self.new }
    {
        if !self.dirty {
            return Push::Clean;
        }
        if self.end.number == 0 {
            return self.show(queue, steps);
        }
        let expected = word_of(self.end.number);
        let seen = self.see_ack(queue, steps);
        if seen != expected {
            return Push::Busy {
                seen: seen as u32,
                expected: expected as u32,
            };
        }
        self.show(queue, steps)
    }

    /// Whether no push stands or the last one is acknowledged, by one look. On true the detached items are in hand.
    pub fn acked<L: Ledger>(&mut self, queue: &Queue<P, N>, steps: &mut Steps<L>) -> bool
        requires together { self.old.past.queue ≡ queue.now }
        ensures answer { WasAcked self.old result self.new }
        ensures same { SameDraft self.old self.new × (self.new.past.number ≡ self.old.past.number) }
        ensures holds { InDraft N.fits self.new }
        ensures steps { steps.new ≡ steps.old + 1 }
    {
        let expected = word_of(self.end.number);
        self.see_ack(queue, steps) == expected
    }
}

// Items that came are in hand, and leave the shelves that they came on.
fn join<P: Drop>(returned: &mut Vec<Option<P>>, came: &mut Vec<Option<P>>)
    requires lengths { (length returned.old.items ≡ slots) × (length came.old.items ≡ slots) }
    requires apart { (i : ℕ) → i < slots → has came.old.items i ≡ true → has returned.old.items i ≡ false }
    ensures lengths { length returned.new.items ≡ slots }
    ensures joined { IsJoined came.old.items returned.old.items returned.new.items }
    ensures empty { came.new.items ≡ nothing }
{
    for i in 0..SLOTS {
        if came[i].is_some() {
            mem::swap(&mut came[i], &mut returned[i]);
        }
    }
}
