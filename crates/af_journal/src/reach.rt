//! How far a text is read.
ghost use Rattle.std.specs.Prelude.{◌≡◌, ◌<◌, ◌==◌, ◌||◌, None, false, true, length, map, nat_lt};
ghost use Rattle.std.specs.List.{list_any};
ghost use Rattle.std.specs.Option.{option_map};
ghost use Rattle.af_base.specs.Turn.{track_seen, turn_of};
ghost use Rattle.af_journal.specs.Beginnings.{EndsBy, is_full, is_last};
ghost use Rattle.af_journal.specs.Judged.{has_more, most_entries, most_judged, most_looks};

use af_base::{TrackTurn, TurnEntry};

// So many rounds without entries are read, if a text is read no further than it matters: the first one without entries is a fault, unless the mixer has ended, and then the second one comes behind the end of all parties.
const MOST_STILL: usize = 2;
// So many entries of a round, and looks at a track, are judged.
const MOST_JUDGED: usize = 32_768;
// A legal round has no more entries.
const MOST_ENTRIES: usize = 16;
// The turn of a legal round has no more looks at a track.
const MOST_LOOKS: usize = 64;

/// How far a text is read.
#[derive(Clone, Copy)]
pub(crate) struct Reach {
    /// So many entries of a round, and looks at a track, are kept.
    pub kept: usize,
    /// Rounds are read up to the first one that has more entries than so many,
    pub entries: usize,
    /// or more looks at a track than so many,
    pub looks: usize,
    /// and as many as matter if the script allows so many cycles.
    pub cycles: Option<usize>,
}

/// A round that was read.
#[derive(Clone, Copy)]
pub(crate) struct RoundRead {
    /// The round has more entries, or more looks at a track, than one that others follow.
    pub beyond: bool,
    /// The round has as many entries as are kept: what is left may begin with further ones.
    pub full: bool,
}

/// Why no more rounds are read.
#[derive(Clone, Copy)]
pub(crate) enum End {
    /// None is left.
    Last,
    /// The rounds that follow matter no more.
    Enough,
    /// The last one has more entries, or more looks at a track, than one that others follow; what is left may begin with further entries if it is full.
    Beyond { full: bool },
}

/// A text is read to its end.
pub(crate) fn reach_of_all() -> Reach
    ensures few { (result.entries < result.kept) × (result.looks < result.kept) }
{
    Reach {
        kept: usize::MAX,
        entries: usize::MAX - 1,
        looks: usize::MAX - 1,
        cycles: None,
    }
}

/// A text is read as far as it is judged, or only as it matters if the script allows so many cycles.
pub(crate) fn reach_of_judged(cycles: Option<usize>) -> Reach
    ensures { result ≡ record { kept = most_judged; entries = most_entries; looks = most_looks; cycles = cycles } }
{
    Reach {
        kept: MOST_JUDGED,
        entries: MOST_ENTRIES,
        looks: MOST_LOOKS,
        cycles,
    }
}

// Whether a turn has more looks at some track than so many.
fn some_have_more(looks: usize, tracks: &[TrackTurn]) -> bool
    ensures { result ≡ list_any (λ t. nat_lt looks (length t.looks.items)) tracks.now }
{
    tracks
        .iter()
        .any(|track| track.looks.as_slice().len() > looks)
}

/// Whether a turn, if there is one, has more looks at some track than so many.
pub(crate) fn has_more(looks: usize, turn: &Option<TurnEntry>) -> bool
    ensures { result ≡ has_more looks (option_map turn_of turn.now) }
{
    match turn {
        Some(entry) => some_have_more(looks, entry.tracks.as_slice()),
        None => false,
    }
}

// Whether the rounds behind one matter no more, if the script allows so many cycles: it begins with a full log or leaves more entries, or so many rounds had none. Each is a fault of that round or of one before it.
fn is_enough(cycles: Option<usize>, before: usize, now: usize, still: usize) -> bool
    ensures { result ≡ true → cycles ≡ None → false ≡ true }
{
    match cycles {
        None => false,
        Some(most) => before >= most || now > most || still >= MOST_STILL,
    }
}

/// Why rounds are read no more behind one that leaves so many entries, if they aren't.
pub(crate) fn end_after(
    read: RoundRead,
    cycles: Option<usize>,
    before: usize,
    now: usize,
    still: usize,
) -> End
    ensures { EndsBy cycles read result }
{
    if read.beyond {
        End::Beyond { full: read.full }
    } else if is_enough(cycles, before, now, still) {
        End::Enough
    } else {
        End::Last
    }
}

impl End {
    /// Whether rounds are read on.
    pub fn is_last(self) -> bool
        ensures { result ≡ is_last self }
    {
        matches!(self, End::Last)
    }

    /// Whether what is left may begin with entries.
    pub fn is_full(self) -> bool
        ensures { result ≡ is_full self }
    {
        matches!(self, End::Beyond { full: true })
    }
}
