//! A slow state queue in one hand, over plain values: what the shared queue is compared with.
ghost use Rattle.std.specs.Prelude.{◌≡◌, ◌+◌, ◌^◌, ◌<◌, ◌≤◌, ◌==◌, ◌||◌, not, true, false, IfOk, OnOk, OnErr, MatchOption, map, Some, None, slice_set, length};
ghost use Rattle.af_base.specs.Command.{code_of};
ghost use Rattle.af_model.specs.StateQueue.{slots, slot_of, carries, word};
ghost use Rattle.af_model.specs.Draft.{initial, attached, detached, draft_commanded};
ghost use Rattle.af_model.specs.PlainQueue.{QueueState, new_queue, place_at, is_placed, held_of, returned_of, let_go, left, moved, moved_from, readiness, is_allowed, is_acked, after_look, push_answer, shown, after_push, poll_answer, after_poll, allowed_step, step, answers_of, state_after};
ghost use Rattle.af_model.specs.declared.plain_calls.Place.TheVariants.{Nowhere, Pending};

use crate::plain_calls::{Move, Place, Poll, QueueAnswer, QueueCall, Readiness};
use crate::plain_places::{detach_from, empty, move_all, placed, take_from};
use af_base::{Command, FastState, FastTrack, Memory, Push, SLOTS};
use std::alloc::Global;
use std::marker::Model;
use std::mem;

/// A state queue with both ends, in which each item stands at its place.
#[derive(Drop)]
pub struct PlainQueue<P: Drop> {
    draft: FastState,
    dirty: bool,
    editing: bool,
    edited: bool,
    pushed: u64,
    last: FastState,
    number: u64,
    current: Option<FastState>,
    previous: Option<FastState>,
    places: Vec<Place<P>>,
}

impl<P: Drop> Model for PlainQueue<P> {
    ghost use Rattle.std.specs.Prelude.{◌≡◌, length};
    ghost use Rattle.af_model.specs.StateQueue.{slots};
    ghost use Rattle.af_model.specs.PlainQueue.{QueueState};

    ghost Value = { QueueState P };

    ghost view = { λ q. record { draft = q.draft; dirty = q.dirty; editing = q.editing; edited = q.edited; pushed = q.pushed; last = q.last; number = q.number; current = q.current; previous = q.previous; places = q.places.items } };

    ghost invariant = { λ q. length q.places.items ≡ slots };
}

/// The state before any edit: the submix alone is active, with the command ColdIdle.
pub fn first_state(frames: u32) -> FastState
    ensures { result ≡ initial frames }
{
    let mut slots = [FastTrack {
        generation: 0,
        track: 0,
        mono: false,
        scale: 0,
    }; SLOTS];
    slots[0].scale = 0x1000;
    FastState {
        slots,
        mask: 1,
        tracks_gen: 0,
        frames,
        command: Command::ColdIdle,
        cold_gen: 0,
    }
}

/// The word of a state.
fn word_of(number: u64) -> u32
    ensures { result ≡ word number }
{
    if number == 0 {
        0
    } else {
        ((number - 1) % 4) as u32 + 1
    }
}

impl<P: Drop> PlainQueue<P> {
    /// A queue for states of `frames` frames, in which nothing is pushed and no slot has an item.
    pub fn new(alloc: Global, frames: u32) -> Result<PlainQueue<P>, Memory>
        ensures { IfOk result (λ q. q ≡ new_queue frames) }
    {
        let Ok(mut places) = Vec::with_capacity(alloc, SLOTS) else {
            return Err(Memory);
        };
        for _slot in 0..SLOTS {
            places.push_reserved(Place::Nowhere);
        }
        let first = first_state(frames);
        Ok(PlainQueue {
            draft: first,
            dirty: false,
            editing: false,
            edited: false,
            pushed: 0,
            last: first,
            number: 0,
            current: None,
            previous: None,
            places,
        })
    }

    /// What decides whether a call may be made.
    pub fn readiness(&self) -> Readiness
        ensures { result ≡ readiness self.now }
    {
        Readiness {
            draft: self.draft,
            editing: self.editing,
            edited: self.edited,
            out: placed(&self.places),
            pushed: self.pushed,
            number: self.number,
        }
    }

    fn is_acked(&self) -> bool
        ensures { result ≡ is_acked self.now }
    {
        self.number == self.pushed
    }

    fn set_command(&mut self, command: Command)
        requires room { self.old.draft.cold_gen < 2 ^ 62 }
        ensures { self.new ≡ record self.old { draft = draft_commanded command self.old.draft; edited = self.old.edited || not (code_of command == code_of self.old.draft.command) } }
    {
        let (before, after) = (self.draft.command.code(), command.code());
        let cold = Command::ColdIdle.code();
        if after == cold && before != cold {
            self.draft.cold_gen += 1;
        }
        self.draft.command = command;
        self.edited = self.edited || after != before;
    }

    fn attach(&mut self, slot: u32, mono: bool, scale: u16, track: u32, item: P)
        requires slot { slot < slots }
        requires room { ((slot_of self.old.draft slot).generation < 2 ^ 62) × (self.old.draft.tracks_gen < 2 ^ 62) }
        ensures { self.new ≡ record self.old { draft = attached slot mono scale track self.old.draft; edited = true; places = slice_set self.old.places slot (Pending item) } }
    {
        let i = slot as usize;
        let generation = self.draft.slots[i].generation + 1;
        self.draft.slots[i] = FastTrack {
            generation,
            track,
            mono,
            scale,
        };
        self.draft.mask |= 1 << slot;
        self.draft.tracks_gen += 1;
        self.places[i] = Place::Pending { item };
        self.edited = true;
    }

    fn detach(&mut self, slot: u32)
        requires slot { slot < slots }
        requires room { self.old.draft.tracks_gen < 2 ^ 62 }
        ensures { self.new ≡ record self.old { draft = detached slot self.old.draft; edited = true; places = slice_set self.old.places slot (let_go (place_at self.old.places slot)) } }
    {
        self.draft.mask &= !(1 << slot);
        self.draft.tracks_gen += 1;
        detach_from(&mut self.places, slot as usize);
        self.edited = true;
    }

    fn push(&mut self) -> Push
        requires room { self.old.pushed < 2 ^ 62 }
        ensures answer { result ≡ push_answer self.old }
        ensures state { self.new ≡ after_push self.old }
    {
        if !self.dirty {
            return Push::Clean;
        }
        if !self.is_acked() {
            return Push::Busy {
                seen: word_of(self.number),
                expected: word_of(self.pushed),
            };
        }
        move_all(&mut self.places, &Move::SeeAck);
        move_all(&mut self.places, &Move::Send);
        self.dirty = false;
        self.pushed += 1;
        self.last = self.draft;
        Push::Pushed {
            number: self.pushed,
        }
    }

    fn acked(&mut self) -> bool
        ensures answer { result ≡ is_acked self.old }
        ensures state { self.new ≡ after_look self.old }
    {
        if !self.is_acked() {
            return false;
        }
        move_all(&mut self.places, &Move::SeeAck);
        true
    }

    fn take_back(&mut self, slot: u32) -> Option<P>
        requires slot { slot < slots }
        ensures answer { result ≡ returned_of (place_at self.old.places slot) }
        ensures state { self.new ≡ record self.old { places = slice_set self.old.places slot (left (place_at self.old.places slot)) } }
    {
        take_from(&mut self.places, slot as usize)
    }

    fn poll(&mut self) -> Poll
        ensures answer { result ≡ poll_answer self.old }
        ensures state { self.new ≡ after_poll self.old }
    {
        if self.is_acked() {
            return if self.pushed == 0 {
                Poll::Nothing
            } else {
                Poll::Same
            };
        }
        let state = self.last;
        move_all(&mut self.places, &Move::Take { state });
        self.number = self.pushed;
        self.previous = self.current;
        self.current = Some(state);
        Poll::New {
            number: self.number,
        }
    }

    fn make(&mut self, call: QueueCall<P>) -> QueueAnswer<P>
        requires { is_allowed (readiness self.old) call ≡ true }
        ensures answer { result ≡ (allowed_step self.old call).0 }
        ensures state { self.new ≡ (allowed_step self.old call).1 }
    {
        match call {
            QueueCall::Begin => {
                self.editing = true;
                self.edited = false;
            }
            QueueCall::SetCommand { command } => self.set_command(command),
            QueueCall::Attach {
                slot,
                mono,
                scale,
                track,
                item,
            } => self.attach(slot, mono, scale, track, item),
            QueueCall::Detach { slot } => self.detach(slot),
            QueueCall::End { did_modify } => {
                self.editing = false;
                self.edited = false;
                self.dirty = self.dirty || did_modify;
            }
            QueueCall::Push => return QueueAnswer::Pushed { push: self.push() },
            QueueCall::Acked => return QueueAnswer::Acked {
                acked: self.acked(),
            },
            QueueCall::TakeBack { slot } => return QueueAnswer::TakenBack {
                item: self.take_back(slot),
            },
            QueueCall::Poll => return QueueAnswer::Polled { poll: self.poll() },
        }
        QueueAnswer::Done
    }

    /// Makes a call, if it is allowed.
    pub fn answer(&mut self, call: QueueCall<P>) -> QueueAnswer<P>
        ensures answer { result ≡ (step self.old call).0 }
        ensures state { self.new ≡ (step self.old call).1 }
    {
        if call.is_allowed(&self.readiness()) {
            self.make(call)
        } else {
            QueueAnswer::NotAllowed { call }
        }
    }
}

impl<P: Drop> PlainQueue<P> {
    /// Makes each call that is allowed, in order. If memory runs out none is made.
    pub fn answer_each(
        &mut self,
        alloc: Global,
        calls: Vec<QueueCall<P>>,
    ) -> Result<Vec<QueueAnswer<P>>, Memory>
        ensures answers { IfOk result (λ v. v.items ≡ answers_of self.old calls.items) }
        ensures state { OnOk result (self.new ≡ state_after self.old calls.items) }
        ensures err { OnErr result (self.new ≡ self.old) }
    {
        let Ok(mut answers) = Vec::with_capacity(alloc, calls.len()) else {
            return Err(Memory);
        };
        for call in calls {
            answers.push_reserved(self.answer(call));
        }
        Ok(answers)
    }

    /// The draft.
    pub fn draft(&self) -> &FastState
        ensures { result.now ≡ self.now.draft }
    {
        &self.draft
    }

    /// Whether the item of a slot was never attached or was taken back.
    pub fn is_free(&self, slot: u32) -> bool
        requires slot { slot < slots }
        ensures { result ≡ not (is_placed (place_at self.now.places slot)) }
    {
        !self.places[slot as usize].is_placed()
    }

    /// The state that the last poll that answered New took.
    pub fn current(&self) -> Option<FastState>
        ensures { result ≡ self.now.current }
    {
        self.current
    }

    /// The state before the current one.
    pub fn previous(&self) -> Option<FastState>
        ensures { result ≡ self.now.previous }
    {
        self.previous
    }

    /// The number of the current state, 0 before the first.
    pub fn number(&self) -> u64
        ensures { result ≡ self.now.number }
    {
        self.number
    }

    /// The item of a slot, if the observer holds it.
    pub fn item(&self, slot: u32) -> Option<&P>
        requires slot { slot < slots }
        ensures { MatchOption result (held_of (place_at self.now.places slot) ≡ None) (λ p. held_of (place_at self.now.places slot) ≡ Some p.now) }
    {
        match &self.places[slot as usize] {
            Place::Held { item } => Some(item),
            _ => None,
        }
    }
}
