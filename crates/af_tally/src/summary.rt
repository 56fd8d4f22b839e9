//! The summary of a run, as it is printed.
ghost use Rattle.std.specs.Prelude.{Some};
ghost use Rattle.af_tally.specs.Summaries.{summary_text};

use std::fmt;

/// What a run came to: how many cycles were mixed, how many frames of lawful tracks were mixed, dropped and are queued, and the greatest magnitude of a written sample.
#[derive(Clone, Copy, Debug, PartialEq, Eq)]
pub struct Summary {
    pub cycles: u64,
    pub mixed: u64,
    pub dropped: u64,
    pub queued: u64,
    pub peak: u32,
}

impl fmt::Display for Summary {
    ghost output = { λ s. Some (summary_text s) };

    fn fmt<W: fmt::Write>(&self, f: &mut fmt::Formatter<W>) -> fmt::Result {
        write!(
            f,
            "cycles {} mixed {} dropped {} queued {} peak {}",
            self.cycles, self.mixed, self.dropped, self.queued, self.peak
        )
    }
}
