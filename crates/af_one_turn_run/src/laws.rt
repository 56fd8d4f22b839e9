//! What holds of every two turn runs of a script.
ghost use Rattle.std.specs.Prelude.{List};
ghost use Rattle.af_base.specs.declared.frame.Frame.{Frame};
ghost use Rattle.af_model.specs.Journals.{JournalData};
ghost use Rattle.af_one_turn_run.specs.Laws.{TurnRunsAreOne};
ghost use Rattle.af_script.specs.Data.{ScriptData};

/// Two turn runs of one script without pokes and of its files, in each of which each stream proxy takes part in the last meeting, are the same journal.
pub fn a_script_without_pokes_has_one_turn_run()
    ensures { (script : ScriptData) (files : List (List Frame)) (j : JournalData) (k : JournalData) → TurnRunsAreOne script files j k }
{}
