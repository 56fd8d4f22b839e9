//! What holds of every order that is told in phases and of every turn run.
ghost use Rattle.std.specs.Prelude.{ℕ, List};
ghost use Rattle.af_model.specs.Journals.{RoundSeen};
ghost use Rattle.af_runs.specs.Blocks.{BlockTold, Marks};
ghost use Rattle.af_runs.specs.Sessions.{Session};
ghost use Rattle.af_runs.specs.Told.{PipeTold, QueueTold, ReportTold};
ghost use Rattle.af_script.specs.declared.op.TurnSpec.{TurnSpec};
ghost use Rattle.af_turn_law.specs.Laws.{BlockIsAsTold, ListTurnsAreTurns, PipeIsAsTold, QueueIsAsTold, ReportIsAsTold};

/// If the ends of a queue, a report or a pipe go in phases, a legal order of their lists is the order told.
pub fn ends_told_in_phases_are_as_told()
    ensures queue { (frames : ℕ) (told : QueueTold) → QueueIsAsTold frames told }
    ensures report { (told : ReportTold) → ReportIsAsTold told }
    ensures pipe { (size : ℕ) (p : PipeTold) → PipeIsAsTold size p }
{}

/// If the parties of a block go in phases, a history of their lists is that of the order told.
pub fn a_block_told_in_phases_is_as_told()
    ensures { (b : BlockTold) → BlockIsAsTold b }
{}

/// Turns after each of which all lists have histories are those of a turn run, in which each event sees what all events before it left: so long as no turn finds a track shut whose stream block is tame so far, unless its proxy took part in the last meetings or its client saw no INVALID so far.
pub fn turns_whose_lists_have_histories_are_a_turn_run()
    ensures { (s : Session) (marks : Marks) (turns : List TurnSpec) (rounds : List RoundSeen) → ListTurnsAreTurns s marks turns rounds }
{}
