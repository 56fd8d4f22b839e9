//! The buffer that a turn mixes.
ghost use Rattle.std.specs.Prelude.{◌≡◌, ◌<◌, ◌^◌};
ghost use Rattle.af_model.specs.Reports.{is_full, is_partial, is_empty};
ghost use Rattle.af_life.specs.Plays.{look_counted, is_mixed_here};
ghost use Rattle.af_life.specs.Small.{AreUpTo};

use crate::kept::{Counts, TrackKept};
use af_base::Seen;

// Whether a look showed all that was asked for, some of it, or none.
fn is_full(asked: u32, seen: Seen) -> bool
    ensures { result ≡ is_full asked seen }
{
    match seen {
        Seen::Frames { count } => count == asked,
        _ => false,
    }
}

fn is_partial(asked: u32, seen: Seen) -> bool
    ensures { result ≡ is_partial asked seen }
{
    match seen {
        Seen::Frames { count } => count != asked,
        _ => false,
    }
}

fn is_empty(seen: Seen) -> bool
    ensures { result ≡ is_empty seen }
{
    matches!(seen, Seen::Empty)
}

impl Counts {
    /// One look more, by what was asked for and what it showed.
    pub fn counted(self, asked: u32, seen: Seen) -> Counts
        requires room { AreUpTo (2 ^ 31) self }
        ensures { result ≡ look_counted asked seen self }
    {
        Counts {
            fulls: self.fulls + u32::from(is_full(asked, seen)),
            partials: self.partials + u32::from(is_partial(asked, seen)),
            empties: self.empties + u32::from(is_empty(seen)),
        }
    }
}

impl TrackKept {
    /// Whether the normal mixer mixes the track itself: it has no slot, and is to be heard.
    pub fn is_mixed_here(self) -> bool
        ensures { result ≡ is_mixed_here self }
    {
        self.slot.is_none() && self.plays()
    }
}
