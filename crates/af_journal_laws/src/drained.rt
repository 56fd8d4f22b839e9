//! What a track that is reported drained has reached, as far as a journal goes.
ghost use Rattle.std.specs.Prelude.{Bool, List};
ghost use Rattle.af_base.specs.declared.frame.Frame.{Frame};
ghost use Rattle.af_journal_laws.specs.Drained.{EachDrainedTrackHasStopped, EachDrainedTrackHasStoppedAlone};
ghost use Rattle.af_model.specs.Journals.{JournalData};
ghost use Rattle.af_runs.specs.LegalRuns.{HasLegalRounds};
ghost use Rattle.af_runs.specs.TurnRuns.{IsTurnRun};
ghost use Rattle.af_script.specs.Data.{ScriptData};
ghost use Rattle.af_script.specs.Form.{IsScript};

use af_life::a_drained_track_was_reached;

/// In a journal of legal rounds, ended or cut off, the server of each track that is reported drained has consumed, by the end of that round, the count of the STOP that stopped it last, and no START has changed it since. On a track without a poke so far that STOP is the command of the same number that its client sent, when it had released so many frames.
pub fn drained_tracks_have_stopped()
    ensures { (cut : Bool) (script : ScriptData) (files : List (List Frame)) (j : JournalData) → IsScript script → HasLegalRounds cut script files j → EachDrainedTrackHasStopped script files j }
{
    a_drained_track_was_reached();
}

/// In a turn run the server of each track that is reported drained has consumed, by the end of that round, the count of the STOP that stopped it last, and no START has changed it since. On a track without a poke so far that STOP is the command of the same number that its client sent, when it had released so many frames.
pub fn drained_tracks_of_turn_runs_have_stopped()
    ensures { (script : ScriptData) (files : List (List Frame)) (j : JournalData) → IsScript script → IsTurnRun script files j → EachDrainedTrackHasStoppedAlone script files j }
{
    a_drained_track_was_reached();
}
