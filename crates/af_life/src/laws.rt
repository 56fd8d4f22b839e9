//! What holds of every list of legal turns.
ghost use Rattle.std.specs.Prelude.{◌≡◌, ℕ, List};
ghost use Rattle.af_life.specs.Kept.{Setup, NormalKept as Before};
ghost use Rattle.af_life.specs.Drained.{Turned, DrainedIsReached};

/// A track that a legal turn reports drained was stopped at a count that its server has reached, and no START has changed it since.
///
/// The turns are legal, one after the other, from a state in which the track begins its life. `consumed` is any number that no turn has heard more than.
pub fn a_drained_track_was_reached()
    ensures { (c : Setup) (m : Before) (turn : Turned) (turns : List Turned) (i consumed : ℕ) → DrainedIsReached c m turn turns i consumed }
{}
