//! What the journal of a play tells of the parties that are handed back with it.
ghost use Rattle.std.specs.Prelude.{Bool, List};
ghost use Rattle.af_base.specs.declared.frame.Frame.{Frame};
ghost use Rattle.af_model.specs.Journals.{JournalData};
ghost use Rattle.af_parties_law.specs.Telling.{CutPlaysAreToldAlone, DonePlaysAreToldAlone, PlaysRecordTheirRuns};
ghost use Rattle.af_rendering.specs.declared.rendering.Played.{Played};
ghost use Rattle.af_script.specs.Data.{ScriptData};
ghost use Rattle.af_session.specs.Ends.{EndsState};

/// The journal that a play hands back records its run, whatever the threads did, and whether all parties have ended or not. Each client's calls stand in it once, in their order, and so does each state pushed. Each client has released as many frames as its calls put there, and no cycle uses a state older than one before it. The lists that the ends keep are those of the run that it records: of the clients' proxies, of the queue's mutator, of the report's reader, of the pipe's end, and of the proxies that the normal mixer holds, if no poke was made.
pub fn what_a_play_hands_back_records_its_run()
    ensures { (ended : Bool) (script : ScriptData) (files : List (List Frame)) (journal : JournalData) (ends : EndsState) → PlaysRecordTheirRuns ended script files journal ends }
{}

/// What a play shows, and its summary, are those of its journal alone, if the play is done (`done`) and if it was cut off (`limit`): the ends that are handed back with it add nothing.
pub fn a_play_is_told_alone()
    ensures done { (script : ScriptData) (files : List (List Frame)) (played : Played) → DonePlaysAreToldAlone script files played }
    ensures limit { (script : ScriptData) (files : List (List Frame)) (journal : JournalData) (ends : EndsState) → CutPlaysAreToldAlone script files journal ends }
{}
