//! The end of the fast mixer.
ghost use Rattle.std.specs.Prelude.{◌≡◌, ◌<◌, true, false, length};
ghost use Rattle.af_fast.specs.Mixer.{IsLinked, IsSound};
ghost use Rattle.af_mixer_ends.specs.Mixers.{Cycles, CyclesOn, IsFull, IsSpent, MakesRoom};

use af_base::{Cycle, Frame, Steps};
use af_ends::EndError;
use af_engine::Shared;
use af_fast::FastMixer;
use af_link::Links;
use std::alloc::Global;
use std::marker::{Brand, Model};
use std::sync::Arc;
use std::sync::ledger::{Blank, Ledger};

/// The end of the fast mixer, which the period's callback uses: AOSP's `FastMixer`, with a share of the mixer's objects.
///
/// Contracts see what is shared, and the mixer. No call takes memory or waits, and it may be sent to another thread.
#[derive(Drop)]
pub struct FastEnd {
    pub(crate) shared: Arc<Shared, Global>,
    pub(crate) mixer: FastMixer,
    // The frames of a cycle, and for how many entries the log has room.
    pub(crate) frames: usize,
    pub(crate) cycles: usize,
}

impl Model for FastEnd {
    ghost use Rattle.std.specs.Arc.{arc_value};
    ghost use Rattle.af_mixer_ends.specs.Mixers.{FastEndState, IsFastEnd};

    ghost Value = { FastEndState };

    ghost view = { λ e. record { shared = arc_value e.shared; mixer = e.mixer } };

    ghost invariant = { λ e. IsFastEnd (arc_value e.shared) e.frames e.cycles e.mixer };
}

// Whether the log, which has room for so many entries, is full and Exit was not answered.
fn is_full(mixer: &FastMixer, cycles: usize) -> bool
    requires { mixer.now.cycles ≡ cycles }
    ensures full { result ≡ true → IsFull mixer.now }
    ensures other { result ≡ false → IsFull mixer.now → ⊥ }
{
    if mixer.has_exited() {
        return false;
    }
    mixer.log().len() == cycles
}

// Forgets the log if it is full. False if a whole log more could go beyond the entries of a life.
fn make_room(mixer: &mut FastMixer, cycles: usize) -> bool
    requires order { IsSound mixer.old }
    requires size { mixer.old.cycles ≡ cycles }
    ensures order { IsSound mixer.new }
    ensures room { MakesRoom mixer.old result mixer.new }
    ensures same { mixer.new ≡ (record mixer.old { log = mixer.new.log }) }
{
    if !is_full(mixer, cycles) {
        return true;
    }
    mixer.forget()
}

// A cycle, for which there is room in the log.
fn cycle_in<L: Ledger>(
    blank: Blank,
    links: &Links<'_>,
    mixer: &mut FastMixer,
    out: &mut [Frame],
) -> Cycle
    requires ledger { (blank.name ≡ L.name) × (blank.parts ≡ L.parts) × (0 < blank.parts) }
    requires linked { IsLinked links.now mixer.old }
    requires order { IsSound mixer.old }
    requires turn { mixer.old.adopted ≡ false }
    requires out { length out.old ≡ mixer.old.frames }
    ensures linked { IsLinked links.now mixer.new }
    ensures order { IsSound mixer.new }
    ensures turn { mixer.new.adopted ≡ false }
    ensures sizes { (mixer.new.frames ≡ mixer.old.frames) × (mixer.new.cycles ≡ mixer.old.cycles) }
    ensures cycles { Cycles mixer.old out.old result mixer.new out.new }
{
    let mut steps = Steps::<L>::start(blank);
    mixer.cycle(links, out, &mut steps)
}

impl FastEnd {
    /// One cycle, once a period: Mixed if it wrote the period's frames to `out`, which it clears else not; Idle, Cold or Exit by the state that the normal mixer pushed last.
    ///
    /// It forgets its log by itself whenever that is full, so it runs on, and never answers Spent. Argument exactly if `out` hasn't the frames of a cycle. Limit exactly if a whole log more could go beyond the 2^32 - 1 cycles of a life. Both change nothing.
    pub fn cycle(&mut self, out: &mut [Frame]) -> Result<Cycle, EndError>
        ensures shared { self.new.shared ≡ self.old.shared }
        ensures cycles { CyclesOn self.old.mixer out.old result self.new.mixer out.new }
        ensures goes_on { IsSpent result → ⊥ }
    {
        if out.len() != self.frames {
            return Err(EndError::Argument);
        }
        if !make_room(&mut self.mixer, self.cycles) {
            return Err(EndError::Limit);
        }
        let links = self.shared.links();
        Ok(cycle_in::<Brand>(Blank::new(1), &links, &mut self.mixer, out))
    }

    /// The frames of a cycle.
    pub fn frames(&self) -> usize
        ensures { result ≡ self.now.mixer.frames }
    {
        self.frames
    }
}
