//! That plays with enough cycles end.
ghost use Rattle.af_play_law.specs.InTime.{PlaysEndInTime};

/// A play of an accepted script whose tracks play through, and whose cycles are enough, can't come to the end of its log with a party still going, whatever the threads do.
pub fn a_play_with_enough_cycles_ends()
    ensures { PlaysEndInTime }
{}
