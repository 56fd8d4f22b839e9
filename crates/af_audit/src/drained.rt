//! What a track that is reported drained has reached, in every legal run.
ghost use Rattle.std.specs.Prelude.{List};
ghost use Rattle.af_base.specs.declared.frame.Frame.{Frame};
ghost use Rattle.af_model.specs.Journals.{JournalData};
ghost use Rattle.af_runs.specs.LegalRuns.{IsLegalRun};
ghost use Rattle.af_script.specs.Data.{ScriptData};
ghost use Rattle.af_script.specs.Form.{IsScript};
ghost use Rattle.af_audit.specs.Drained.{EachDrainedTrackReachedItsStop};

use af_life::a_drained_track_was_reached;

/// In a legal run the server of each track that is reported drained has consumed, by the end of that round, the count of the STOP that stopped it last, and no START has changed its life since. On a track without a poke that STOP is the command of the same number that its client sent, when it had released so many frames.
pub fn drained_tracks_have_reached_their_stop()
    ensures { (script : ScriptData) (files : List (List Frame)) (j : JournalData) → IsScript script → IsLegalRun script files j → EachDrainedTrackReachedItsStop script files j }
{
    a_drained_track_was_reached();
}
