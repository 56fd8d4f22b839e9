//! That blocks without a poke are spared, up to each meeting.
ghost use Rattle.std.specs.Prelude.{List, Bool};
ghost use Rattle.af_base.specs.declared.frame.Frame.{Frame};
ghost use Rattle.af_model.specs.Journals.{JournalData};
ghost use Rattle.af_runs.specs.LegalRuns.{HasLegalRounds};
ghost use Rattle.af_script.specs.Data.{ScriptData};
ghost use Rattle.af_script.specs.Form.{IsScript};
ghost use Rattle.af_runs.specs.TurnRuns.{IsTurnRun};
ghost use Rattle.af_journal_laws.specs.Alone.{EachMetBlockIsSparedAlone};
ghost use Rattle.af_journal_laws.specs.Spared.{EachMetBlockIsSpared};

/// In a journal of legal rounds each block that no poke was made on is spared, in the rounds up to each meeting in which both its proxies take part.
pub fn met_blocks_are_spared()
    ensures { (cut : Bool) (script : ScriptData) (files : List (List Frame)) (j : JournalData) → IsScript script → HasLegalRounds cut script files j → EachMetBlockIsSpared script files j }
{}

/// In a turn run each block that no poke was made on is spared, in the rounds up to each meeting in which both its proxies take part.
pub fn met_blocks_of_turn_runs_are_spared()
    ensures { (script : ScriptData) (files : List (List Frame)) (j : JournalData) → IsScript script → IsTurnRun script files j → EachMetBlockIsSparedAlone script files j }
{}
