//! All laws of this crate at once.
ghost use Rattle.std.specs.Prelude.{Bool, List};
ghost use Rattle.af_base.specs.declared.frame.Frame.{Frame};
ghost use Rattle.af_journal_laws.specs.Laws.{HoldsAtMeetings, HoldsAtMeetingsAlone};
ghost use Rattle.af_model.specs.Journals.{JournalData};
ghost use Rattle.af_runs.specs.LegalRuns.{HasLegalRounds};
ghost use Rattle.af_runs.specs.TurnRuns.{IsTurnRun};
ghost use Rattle.af_script.specs.Data.{ScriptData};
ghost use Rattle.af_script.specs.Form.{IsScript};

use crate::drained::{drained_tracks_have_stopped, drained_tracks_of_turn_runs_have_stopped};

/// What follows of a journal of legal rounds, ended or cut off: the laws up to each meeting, and on drained tracks and settled STARTs.
pub fn what_follows_of_rounds()
    ensures { (cut : Bool) (script : ScriptData) (files : List (List Frame)) (j : JournalData) → IsScript script → HasLegalRounds cut script files j → HoldsAtMeetings script files j }
{
    drained_tracks_have_stopped();
}

/// What follows of a turn run: the laws up to each meeting, and on drained tracks and settled STARTs.
pub fn what_follows_of_turn_runs()
    ensures { (script : ScriptData) (files : List (List Frame)) (j : JournalData) → IsScript script → IsTurnRun script files j → HoldsAtMeetingsAlone script files j }
{
    drained_tracks_of_turn_runs_have_stopped();
}
