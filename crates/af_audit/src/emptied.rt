//! Nothing is left in the pipe by the end of every legal run.
ghost use Rattle.std.specs.Prelude.{List};
ghost use Rattle.af_base.specs.declared.frame.Frame.{Frame};
ghost use Rattle.af_model.specs.Journals.{JournalData};
ghost use Rattle.af_runs.specs.LegalRuns.{IsLegalRun};
ghost use Rattle.af_script.specs.Data.{ScriptData};
ghost use Rattle.af_script.specs.Form.{IsScript};
ghost use Rattle.af_audit.specs.Emptied.{PipeIsEmptied};

/// By the end of a legal run the fast mixer took from the pipe all frames that the normal mixer put into it.
pub fn all_that_was_put_is_mixed()
    ensures { (script : ScriptData) (files : List (List Frame)) (j : JournalData) → IsScript script → IsLegalRun script files j → PipeIsEmptied script files j }
{}
