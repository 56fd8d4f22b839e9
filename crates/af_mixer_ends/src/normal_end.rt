//! The end of the normal mixer.
ghost use Rattle.std.specs.Prelude.{◌≡◌, ◌<◌};
ghost use Rattle.af_normal.specs.Order.{IsInOrder};
ghost use Rattle.af_mixer_ends.specs.Mixers.{Turns};

use af_base::Steps;
use af_engine::Shared;
use af_link::Links;
use af_normal::{NormalMixer, Turn};
use std::alloc::Global;
use std::marker::{Brand, Model};
use std::sync::Arc;
use std::sync::ledger::{Blank, Ledger};

/// The end of the normal mixer, which one thread uses: AOSP's `MixerThread`, with a share of the mixer's objects.
///
/// Contracts see what is shared, and the mixer. No call takes memory or waits, and it may be sent to another thread.
#[derive(Drop)]
pub struct NormalEnd {
    pub(crate) shared: Arc<Shared, Global>,
    pub(crate) mixer: NormalMixer,
}

impl Model for NormalEnd {
    ghost use Rattle.std.specs.Arc.{arc_value};
    ghost use Rattle.af_mixer_ends.specs.Mixers.{NormalEndState, IsNormalEnd};

    ghost Value = { NormalEndState };

    ghost view = { λ e. record { shared = arc_value e.shared; mixer = e.mixer } };

    ghost invariant = { λ e. IsNormalEnd (arc_value e.shared) e.mixer };
}

// One turn.
fn turn_in<L: Ledger>(blank: Blank, links: &Links<'_>, mixer: &mut NormalMixer) -> Turn
    requires ledger { (blank.name ≡ L.name) × (blank.parts ≡ L.parts) × (0 < blank.parts) }
    requires order { IsInOrder links.now mixer.old }
    ensures order { IsInOrder links.now mixer.new }
    ensures turns { Turns mixer.old result mixer.new }
{
    let mut steps = Steps::<L>::start(blank);
    mixer.turn(links, &mut steps)
}

impl NormalEnd {
    /// One turn, for every normal buffer: it sees what the clients asked for, mixes if the pipe has room, and tells the fast mixer what to play. It answers whether it mixed and what the push came to, or Ended once Exit was seen acknowledged.
    ///
    /// Spent exactly if 2^55 turns were made before: nothing is done then.
    pub fn turn(&mut self) -> Turn
        ensures shared { self.new.shared ≡ self.old.shared }
        ensures turns { Turns self.old.mixer result self.new.mixer }
    {
        let links = self.shared.links();
        turn_in::<Brand>(Blank::new(1), &links, &mut self.mixer)
    }

    /// How many turns were made.
    pub fn turns(&self) -> u64
        ensures { result ≡ self.now.mixer.turns }
    {
        self.mixer.turns()
    }

    /// Whether a turn answered that the mixer has ended.
    pub fn has_ended(&self) -> bool
        ensures { result ≡ self.now.mixer.ended }
    {
        self.mixer.has_ended()
    }
}
