//! What has become of each frame by a meeting of its stream block.
ghost use Rattle.std.specs.Prelude.{List, Bool};
ghost use Rattle.af_base.specs.declared.frame.Frame.{Frame};
ghost use Rattle.af_model.specs.Journals.{JournalData};
ghost use Rattle.af_runs.specs.LegalRuns.{HasLegalRounds};
ghost use Rattle.af_runs.specs.TurnRuns.{IsTurnRun};
ghost use Rattle.af_script.specs.Data.{ScriptData};
ghost use Rattle.af_script.specs.Form.{IsScript};
ghost use Rattle.af_journal_laws.specs.Fates.{EachMetFrameHasOneFate, EachMetFrameHasOneFateAlone};

/// In a journal of legal rounds, ended or cut off, each frame that a client released on a stream block without a poke has one fate by each meeting of its stream proxy: mixed in place, discarded by a noticed flush, or still queued.
pub fn met_frames_have_one_fate()
    ensures { (cut : Bool) (script : ScriptData) (files : List (List Frame)) (j : JournalData) → IsScript script → HasLegalRounds cut script files j → EachMetFrameHasOneFate script files j }
{}

/// In a turn run each frame that a client released on a stream block without a poke has one fate by each meeting of its stream proxy: mixed in place, discarded by a noticed flush, or still queued.
pub fn met_frames_of_turn_runs_have_one_fate()
    ensures { (script : ScriptData) (files : List (List Frame)) (j : JournalData) → IsScript script → IsTurnRun script files j → EachMetFrameHasOneFateAlone script files j }
{}
