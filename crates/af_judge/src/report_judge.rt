//! Whether the report that a turn loaded is one that it may have found.
ghost use Rattle.std.specs.Prelude.{◌≡◌, ◌↔◌, IsTrue, Some, None};
ghost use Rattle.af_judge.specs.ReportKept.{IsLoadOf};

use std::marker::Model;

/// The report's cell: how many reports were stored at the last meeting of its ends, and the number that was loaded since then.
#[derive(Drop)]
pub struct ReportJudge {
    met: u64,
    loaded: Option<u64>,
}

impl Model for ReportJudge {
    ghost use Rattle.af_judge.specs.ReportKept.{ReportKept};

    ghost Value = { ReportKept };

    ghost view = { λ r. record { met = r.met; loaded = r.loaded } };
}

impl ReportJudge {
    /// Nothing was stored.
    pub fn new() -> ReportJudge
        ensures { result ≡ record { met = 0; loaded = None } }
    {
        ReportJudge {
            met: 0,
            loaded: None,
        }
    }

    /// The report of this number was loaded.
    pub fn loaded(&mut self, number: u64)
        ensures { self.new ≡ record self.old { loaded = Some number } }
    {
        self.loaded = Some(number);
    }

    /// The ends meet, when so many reports are stored. Answers whether the load, if there was one, lies among those stored since the last meeting, and goes on from there.
    pub fn meet(&mut self, stored: u64) -> bool
        ensures right { IsTrue result ↔ IsLoadOf stored self.old }
        ensures met { self.new ≡ record { met = stored; loaded = None } }
    {
        let right = match self.loaded {
            Some(number) => self.met <= number && number <= stored,
            None => true,
        };
        self.met = stored;
        self.loaded = None;
        right
    }
}
