//! What holds of the files that the commands write.
ghost use Rattle.std.specs.Prelude.{ℕ, List};
ghost use Rattle.af_base.specs.declared.frame.Frame.{Frame};
ghost use Rattle.af_script.specs.Data.{ScriptData};
ghost use Rattle.af_commands.specs.PlaysJudged.{PlayIsFoundLegal};

/// What a play wrote is never refused: OUT and JOURNAL of a `play` or a `trace` that was Done are legal to `verify` with the same script and files, and nothing else can be found of them.
pub fn a_play_is_never_refused()
    ensures { (script : ScriptData) (files : List (List Frame)) (bytes text line : List ℕ) → PlayIsFoundLegal script files bytes text line }
{}
