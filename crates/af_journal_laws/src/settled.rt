//! What a START that was seen settled bounds, as far as a journal goes.
ghost use Rattle.std.specs.Prelude.{Bool, List};
ghost use Rattle.af_base.specs.declared.frame.Frame.{Frame};
ghost use Rattle.af_journal_laws.specs.Settled.{EachSettledStartKeeps, EachSettledStartKeepsAlone};
ghost use Rattle.af_model.specs.Journals.{JournalData};
ghost use Rattle.af_runs.specs.LegalRuns.{HasLegalRounds};
ghost use Rattle.af_runs.specs.TurnRuns.{IsTurnRun};
ghost use Rattle.af_script.specs.Data.{ScriptData};
ghost use Rattle.af_script.specs.Form.{IsScript};

/// In a journal of legal rounds, ended or cut off: if the client of a track without a poke so far saw a START settled and its stream proxy took part in the meeting after that round, a frame that it released in a later round is discarded only by a look that saw a flush count above that of the START.
pub fn settled_starts_keep()
    ensures { (cut : Bool) (script : ScriptData) (files : List (List Frame)) (j : JournalData) → IsScript script → HasLegalRounds cut script files j → EachSettledStartKeeps script files j }
{}

/// In a turn run: if the client of a track without a poke so far saw a START settled and its stream proxy took part in the meeting after that round, a frame that it released in a later round is discarded only by a look that saw a flush count above that of the START.
pub fn settled_starts_of_turn_runs_keep()
    ensures { (script : ScriptData) (files : List (List Frame)) (j : JournalData) → IsScript script → IsTurnRun script files j → EachSettledStartKeepsAlone script files j }
{}
