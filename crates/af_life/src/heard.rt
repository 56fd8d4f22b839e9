//! What a turn knows of a track's stream, and the START that this settles.
ghost use Rattle.std.specs.Prelude.{◌≡◌, ◌+◌, ◌<◌, ◌≤◌, ◌^◌};
ghost use Rattle.af_life.specs.Heard.{heard_with, heard_by, noted, settled_at, counts_in, grown, is_reported};

use crate::Known;
use crate::kept::{Counts, Heard, Holder, TrackKept};
use af_base::SlotReport;

// What is heard of a stream by these numbers, with the looks since the last turn.
fn heard_with(consumed: u64, flush_seen: u32, shut: bool, looks: Counts) -> Heard
    ensures { result ≡ heard_with consumed flush_seen shut looks }
{
    Heard {
        known: Known {
            consumed,
            fulls: looks.fulls,
            partials: looks.partials,
            empties: looks.empties,
            shut,
        },
        flush_seen,
    }
}

fn counts_in(reported: SlotReport) -> Counts
    ensures { result ≡ counts_in reported }
{
    Counts {
        fulls: reported.fulls,
        partials: reported.partials,
        empties: reported.empties,
    }
}

impl Counts {
    // How far these counts have grown; never below 0.
    fn grown(self, before: Counts) -> Counts
        ensures { result ≡ grown self before }
    {
        Counts {
            fulls: self.fulls.saturating_sub(before.fulls),
            partials: self.partials.saturating_sub(before.partials),
            empties: self.empties.saturating_sub(before.empties),
        }
    }
}

impl TrackKept {
    fn is_reported(self, reported: SlotReport) -> bool
        ensures { result ≡ is_reported reported self }
    {
        reported.generation == self.generation
    }

    /// What a turn hears of the track's stream. Of a proxy that is home `own` is what it knows, with this mixer's own looks since the last turn.
    /// Of one elsewhere it is the report of its slot, with the looks since the report before; if that is of an earlier attachment it is what the proxy knew when it was attached.
    #[tactic(auto, unfolding(crate::specs::Heard::heard_by))]
    pub fn heard(self, own: Heard, reported: SlotReport) -> Heard
        ensures { result ≡ heard_by own reported self }
    {
        match self.holder {
            Holder::Home => heard_with(
                own.known.consumed,
                own.flush_seen,
                own.known.shut,
                self.own,
            ),
            _ if self.is_reported(reported) => {
                let looks = counts_in(reported).grown(self.reported);
                heard_with(reported.consumed, reported.flush_seen, reported.shut, looks)
            }
            _ => self.at_attach,
        }
    }

    /// The track once its looks were heard of: none of them counts again.
    #[tactic(auto, unfolding(crate::specs::Heard::noted))]
    pub fn noted(self, reported: SlotReport) -> TrackKept
        ensures noted { result ≡ noted reported self }
        ensures settled { result.settled ≡ self.settled }
    {
        match self.holder {
            Holder::Home => TrackKept {
                own: NO_COUNTS,
                ..self
            },
            _ if self.is_reported(reported) => TrackKept {
                reported: counts_in(reported),
                ..self
            },
            _ => self,
        }
    }

    /// A START that waits for a flush count is settled once that is reached.
    #[tactic(auto, unfolding(crate::specs::Heard::settled_at))]
    pub fn settled_at(self, flush_seen: u32) -> TrackKept
        requires room { self.settled < 2 ^ 62 }
        ensures settles { result ≡ settled_at flush_seen self }
        ensures few { result.settled ≤ self.settled + 1 }
    {
        match self.awaits {
            Some(count) if count <= flush_seen => TrackKept {
                awaits: None,
                settled: self.settled + 1,
                ..self
            },
            _ => self,
        }
    }
}

/// No looks.
pub const NO_COUNTS: Counts = Counts {
    fulls: 0,
    partials: 0,
    empties: 0,
};
