//! That no call shows the client of a lawful track that the track was shut, up to each meeting of its stream proxy.
ghost use Rattle.std.specs.Prelude.{Bool, List};
ghost use Rattle.af_base.specs.declared.frame.Frame.{Frame};
ghost use Rattle.af_journal_laws.specs.Alive.{NoMetCallIsDead, NoMetCallIsDeadAlone};
ghost use Rattle.af_model.specs.Journals.{JournalData};
ghost use Rattle.af_runs.specs.LegalRuns.{HasLegalRounds};
ghost use Rattle.af_runs.specs.TurnRuns.{IsTurnRun};
ghost use Rattle.af_script.specs.Data.{ScriptData};
ghost use Rattle.af_script.specs.Form.{IsScript};

/// In a journal of legal rounds, ended or cut off, no write or send of a track without a poke was answered Dead, and no status of it had the state 15, in the rounds up to a meeting in which its stream proxy takes part.
pub fn no_met_call_is_dead()
    ensures { (cut : Bool) (script : ScriptData) (files : List (List Frame)) (j : JournalData) → IsScript script → HasLegalRounds cut script files j → NoMetCallIsDead script files j }
{}

/// In a turn run no write or send of a track without a poke was answered Dead, and no status of it had the state 15, in the rounds up to a meeting in which its stream proxy takes part.
pub fn no_met_call_of_turn_runs_is_dead()
    ensures { (script : ScriptData) (files : List (List Frame)) (j : JournalData) → IsScript script → IsTurnRun script files j → NoMetCallIsDeadAlone script files j }
{}
