//! The calls of a state queue in one hand, what they answer, and where the items are.
ghost use Rattle.std.specs.Prelude.{◌≡◌, ◌<◌};
ghost use Rattle.af_model.specs.StateQueue.{slots, carries};
ghost use Rattle.af_model.specs.PlainQueue.{is_shelf, may_attach, may_detach, is_allowed};

use af_base::{Command, FastState, Push, SLOTS};

/// What a poll found.
#[derive(Clone, Copy, Debug, PartialEq, Eq)]
pub enum Poll {
    /// No state had been pushed.
    Nothing,
    /// The last state pushed is the current one.
    Same,
    /// The next state is current, and this is its number, from 1.
    New { number: u64 },
}

/// A call of the mutator or of the observer.
#[derive(Debug, PartialEq, Eq, Drop)]
pub enum QueueCall<P> {
    /// Begins a mutation.
    Begin,
    SetCommand {
        command: Command,
    },
    /// Puts a track with its item into a free slot.
    Attach {
        slot: u32,
        mono: bool,
        scale: u16,
        track: u32,
        item: P,
    },
    Detach {
        slot: u32,
    },
    /// Ends a mutation.
    End {
        did_modify: bool,
    },
    Push,
    Acked,
    TakeBack {
        slot: u32,
    },
    Poll,
}

/// What a call answers.
#[derive(Debug, PartialEq, Eq, Drop)]
pub enum QueueAnswer<P> {
    /// The call could not be made. Nothing changed, and the call comes back.
    NotAllowed { call: QueueCall<P> },
    /// An edit, or the begin or the end of a mutation.
    Done,
    Pushed { push: Push },
    Acked { acked: bool },
    TakenBack { item: Option<P> },
    Polled { poll: Poll },
}

/// Where the item of a slot is.
#[derive(Drop)]
pub enum Place<P> {
    /// There is no item: it was never attached, or was taken back.
    Nowhere,
    /// With the mutator, attached and not pushed yet.
    Pending { item: P },
    /// On its way to the observer.
    Going { item: P },
    /// With the observer.
    Held { item: P },
    /// On its way back to the mutator.
    Coming { item: P },
    /// In the mutator's hand.
    Returned { item: P },
}

/// What moves items: a push, a look that sees the last acknowledgement, or a poll that takes a state.
#[derive(Clone, Copy)]
pub enum Move {
    Send,
    SeeAck,
    Take { state: FastState },
}

/// What decides whether a call may be made: the draft, whether a mutation is in progress and made an edit, which slots have an item that was attached and not taken back, and the numbers of the last state pushed and of the last one polled.
#[derive(Clone, Copy)]
pub struct Readiness {
    pub draft: FastState,
    pub editing: bool,
    pub edited: bool,
    pub out: [bool; SLOTS],
    pub pushed: u64,
    pub number: u64,
}

/// The counts of a state, and the numbers of states, stay below this.
const COUNT_END: u64 = 1 << 62;

/// Whether a slot is active and carries an item.
pub fn carries_item(state: &FastState, slot: usize) -> bool
    requires { slot < slots }
    ensures { result ≡ carries state.now slot }
{
    slot != 0 && (state.mask >> slot) & 1 == 1
}

/// Whether an item may stand in a slot of this number.
fn is_shelf(slot: u32) -> bool
    ensures { result ≡ is_shelf slot }
{
    1 <= slot && slot < SLOTS as u32
}

impl Readiness {
    /// Whether an item may be attached to the slot.
    fn may_attach(&self, slot: u32, scale: u16) -> bool
        ensures { result ≡ may_attach self.now slot scale }
    {
        if !self.editing || !is_shelf(slot) {
            return false;
        }
        let i = slot as usize;
        !self.out[i]
            && scale <= 0x1000
            && self.draft.slots[i].generation < COUNT_END
            && self.draft.tracks_gen < COUNT_END
    }

    /// Whether the slot may be detached.
    fn may_detach(&self, slot: u32) -> bool
        ensures { result ≡ may_detach self.now slot }
    {
        self.editing
            && is_shelf(slot)
            && carries_item(&self.draft, slot as usize)
            && self.draft.tracks_gen < COUNT_END
    }
}

impl<P> QueueCall<P> {
    /// Whether the call may be made there.
    pub fn is_allowed(&self, at: &Readiness) -> bool
        ensures { result ≡ is_allowed at.now self.now }
    {
        match self {
            QueueCall::Begin => !at.editing,
            QueueCall::SetCommand { .. } => at.editing && at.draft.cold_gen < COUNT_END,
            QueueCall::Attach { slot, scale, .. } => at.may_attach(*slot, *scale),
            QueueCall::Detach { slot } => at.may_detach(*slot),
            QueueCall::End { did_modify } => at.editing && (*did_modify || !at.edited),
            QueueCall::Push => !at.editing && at.pushed < COUNT_END,
            QueueCall::Acked => true,
            QueueCall::TakeBack { slot } => is_shelf(*slot),
            QueueCall::Poll => at.number < COUNT_END,
        }
    }
}
