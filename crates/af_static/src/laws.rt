//! What holds of calls that follow each other.
ghost use Rattle.std.specs.Prelude.{ℕ, List};
ghost use Rattle.af_base.specs.declared.frame.Frame.{Frame};
ghost use Rattle.af_static.specs.Calls.{AreOneCall, Call, Standing};

/// Two calls that find the same setting, at the same gains, play and take what one call of all their places would. So it makes no difference into how many calls the places under one setting are cut.
pub fn two_calls_alike_are_one()
    ensures { (frames : List Frame) (first : Standing) (call : Call) (more : ℕ) (behind : List Call) → AreOneCall frames first call more behind }
{}
