//! Which frames may be discarded after a START that a client saw settled, in every legal run.
ghost use Rattle.std.specs.Prelude.{List};
ghost use Rattle.af_base.specs.declared.frame.Frame.{Frame};
ghost use Rattle.af_model.specs.Journals.{JournalData};
ghost use Rattle.af_runs.specs.LegalRuns.{IsLegalRun};
ghost use Rattle.af_script.specs.Data.{ScriptData};
ghost use Rattle.af_script.specs.Form.{IsScript};
ghost use Rattle.af_audit.specs.Settled.{SettledMeansKept};

/// If the client of a track without a poke saw a START settled and its stream proxy took part in the meeting after that round, a frame that it released in a later round is discarded only by a look that saw a flush count above that of the START.
pub fn a_start_seen_settled_bounds_what_is_discarded()
    ensures { (script : ScriptData) (files : List (List Frame)) (j : JournalData) → IsScript script → IsLegalRun script files j → SettledMeansKept script files j }
{}
