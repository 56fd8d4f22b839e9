//! What holds of every history and of every run.
ghost use Rattle.std.specs.Prelude.{ℕ, Bool, List, Option};
ghost use Rattle.af_base.specs.declared.event.ClientEvent.{ClientEvent};
ghost use Rattle.af_base.specs.declared.event.HandEvent.{HandEvent};
ghost use Rattle.af_base.specs.declared.event.ServerEvent.{ServerEvent};
ghost use Rattle.af_base.specs.declared.report.Report.{Report};
ghost use Rattle.af_base.specs.declared.state.FastState.{FastState};
ghost use Rattle.af_model.specs.declared.newest.ReaderEvent.{ReaderEvent};
ghost use Rattle.af_model.specs.declared.newest.WriterEvent.{WriterEvent};
ghost use Rattle.af_model.specs.declared.shape.Shape.{Shape};
ghost use Rattle.af_model.specs.declared.states.MutatorEvent.{MutatorEvent};
ghost use Rattle.af_model.specs.declared.states.ObserverEvent.{ObserverEvent};
ghost use Rattle.af_runs.specs.Told.{Item};
ghost use Rattle.af_base.specs.declared.frame.Frame.{Frame};
ghost use Rattle.af_model.specs.Journals.{JournalData, RoundSeen};
ghost use Rattle.af_runs.specs.Blocks.{Marks};
ghost use Rattle.af_script.specs.Data.{ScriptData};
ghost use Rattle.af_script.specs.Form.{IsScript};
ghost use Rattle.af_runs.specs.LegalRuns.{IsCutRun};
ghost use Rattle.af_enough.specs.Enough.{HasEnoughCycles};
ghost use Rattle.af_enough_law.specs.Ending.{CutRunsAreLong, NoClientPokes, RoundsEndInTime};
ghost use Rattle.af_enough_law.specs.Seen.{AckIsSeen, NextIsSeen, LoadIsSeen, RoomIsSeen, RearIsSeen, FrontIsSeen, StatusIsSeen, BlockRearIsSeen};

/// Each end of a queue sees all that it had learnt of the other one at a meeting, and maybe more.
pub fn what_was_learnt_of_a_queue_is_seen()
    ensures ack { (first : FastState) (before behind : List (MutatorEvent Item)) (others : List (ObserverEvent Item)) (a : ℕ) (items : List (Option Item)) → AckIsSeen first before behind others a items }
    ensures next { (first : FastState) (before behind : List (ObserverEvent Item)) (others : List (MutatorEvent Item)) (k : ℕ) (x : Option FastState) (items : List (Option Item)) → NextIsSeen first before behind others k x items }
{}

/// A load of the report sees all reports whose store it had learnt of at a meeting, and maybe more.
pub fn what_was_learnt_of_a_report_is_seen()
    ensures { (before behind : List (ReaderEvent Report)) (others : List (WriterEvent Report)) (n : ℕ) (x : Report) → LoadIsSeen before behind others n x }
{}

/// Each end of a pipe sees all that it had learnt of the other one at a meeting, and maybe more.
pub fn what_was_learnt_of_a_pipe_is_seen()
    ensures room { (size : ℕ) (before behind : List ClientEvent) (others : List ServerEvent) (front : ℕ) → RoomIsSeen size before behind others front }
    ensures rear { (size : ℕ) (before behind : List ServerEvent) (others : List ClientEvent) (rear : ℕ) → RearIsSeen size before behind others rear }
{}

/// The client and the server of a block see all that they had learnt of each other at a meeting, and maybe more.
pub fn what_was_learnt_of_a_block_is_seen()
    ensures front { (k : Shape) (before behind : List ClientEvent) (others : List ServerEvent) (front : ℕ) (released taken : List ℕ) (hand : List HandEvent) → FrontIsSeen k before behind others front released taken hand }
    ensures status { (k : Shape) (before behind : List ClientEvent) (others : List ServerEvent) (word : ℕ) (released taken : List ℕ) (hand : List HandEvent) → StatusIsSeen k before behind others word released taken hand }
    ensures rear { (k : Shape) (before behind : List ServerEvent) (others : List ClientEvent) (rear : ℕ) (released taken : List ℕ) (hand : List HandEvent) → BlockRearIsSeen k before behind others rear released taken hand }
{}

/// A run that is cut off in spite of enough cycles still goes after as many rounds as are enough, in each of which the fast mixer made its whole turn.
pub fn a_cut_run_with_enough_cycles_is_long()
    ensures { (script : ScriptData) (files : List (List Frame)) (j : JournalData) → CutRunsAreLong script files j }
{}

/// No client of a script whose tracks play through ever pokes a block, whatever it is answered.
pub fn no_client_that_plays_through_pokes()
    ensures { (cut : Bool) (script : ScriptData) (files : List (List Frame)) (marks : Marks) (rounds : List RoundSeen) (track : ℕ) → NoClientPokes cut script files marks rounds track }
{}

/// No journal of an accepted script whose tracks play through, and whose cycles are enough, is that of a run that was cut off.
pub fn enough_cycles_are_enough()
    ensures { (script : ScriptData) (files : List (List Frame)) (j : JournalData) → IsScript script → HasEnoughCycles script → IsCutRun script files j → ⊥ }
{}

/// In rounds of an accepted script whose tracks play through, and whose cycles are enough, all parties have ended once the log is full. The rounds are legal by marks that call each command block lawful; nothing is asked of the fronts of the streams.
pub fn enough_cycles_end_all()
    ensures { (script : ScriptData) (files : List (List Frame)) (marks : Marks) (rounds : List RoundSeen) → RoundsEndInTime script files marks rounds }
{}
