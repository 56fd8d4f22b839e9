//! That the laws up to each meeting, in a legal run, are no weaker than those on its whole journal.
ghost use Rattle.std.specs.Prelude.{List};
ghost use Rattle.af_base.specs.declared.frame.Frame.{Frame};
ghost use Rattle.af_journal_laws.specs.Laws.{HoldsToTheEnd};
ghost use Rattle.af_model.specs.Journals.{JournalData};
ghost use Rattle.af_runs.specs.LegalRuns.{IsLegalRun};
ghost use Rattle.af_script.specs.Data.{ScriptData};

/// In a legal run each stream proxy takes part in the last meeting. So if each block without a poke is spared up to each meeting, it is in the whole journal, and if each frame has one fate by each meeting, it has by the end. The laws on tracks that are reported drained, and on what a settled START bounds, hold of the whole journal in the same way.
pub fn a_legal_run_ends_with_a_meeting()
    ensures { (script : ScriptData) (files : List (List Frame)) (j : JournalData) → IsLegalRun script files j → HoldsToTheEnd script files j }
{}
