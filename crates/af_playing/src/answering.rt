//! What a play answers, once its parties were played to their end, or to the end of the log.
ghost use Rattle.std.specs.Prelude.{◌≡◌, ◌⊎◌, true, false, length, IfErr, IfOk, OnOk};
ghost use Rattle.af_runs.specs.LegalRuns.{IsCutRun, IsLegalRun};
ghost use Rattle.af_model.specs.Journals.{journal_of};
ghost use Rattle.af_playing.specs.declared.answering.PlayFault.TheVariants.{CycleLimit, Memory as MemoryFault};
ghost use Rattle.af_session.specs.Ends.{ends_from};
ghost use Rattle.af_playing.specs.PlayedRuns.{AtLimit, all_ended};
ghost use Rattle.af_playing.specs.PlayKept.{Answers};
ghost use Rattle.af_rendering.specs.Rendered.{HaveFiles};
ghost use Rattle.af_session.specs.Shown.{summary_told};
ghost use Rattle.af_playing.specs.PlayedStages.{HasPlayed};

use crate::playing_of_all::have_ended;
use af_audit::judge;
use af_base::Memory;
use af_io::{Pcm, StoreError};
use af_model::{Journal, Rounds};
use af_play_law::a_play_is_told_by_its_journal;
use af_rendering::{Ends, Played, Stage, hand_over};
use af_script::Script;
use std::alloc::Global;
use std::mem::drop;

/// Why a play was not played to its end.
#[derive(Drop)]
pub enum PlayFault {
    /// The store failed, and its count of faults rose.
    Store,
    /// The log has all of its entries, and some party has not ended. The journal is that of the rounds that were made, and the ends are those of the parties.
    CycleLimit { journal: Journal, ends: Ends },
    /// Out of memory: an allocation was refused.
    Memory,
}

impl From<StoreError> for PlayFault {
    ghost use Rattle.std.specs.Prelude.{◌≡◌};
    ghost use Rattle.af_playing.specs.PlayedRuns.{fault_of};

    ghost from_gives = { λ error fault. fault ≡ fault_of error };

    fn from(error: StoreError) -> Self {
        match error {
            StoreError::Failed => PlayFault::Store,
            StoreError::Memory => PlayFault::Memory,
        }
    }
}

impl From<Memory> for PlayFault {
    ghost use Rattle.std.specs.Prelude.{◌≡◌};
    ghost use Rattle.af_playing.specs.declared.answering.PlayFault.TheVariants.{Memory};

    ghost from_gives = { λ _ fault. fault ≡ Memory };

    fn from(_: Memory) -> Self {
        PlayFault::Memory
    }
}

// What is handed back if all parties have ended. Its journal is legal by the law on plays, whatever the threads did.
fn whole(stage: Stage, rounds: Rounds, script: &Script, files: &[Pcm]) -> Played
    requires played { HasPlayed script.now files.now rounds stage }
    requires ended { all_ended stage.parties ≡ true }
    ensures journal { result.journal ≡ journal_of rounds stage.parties.fast.log }
    ensures ends { result.ends ≡ ends_from stage.parties }
    ensures summary { result.summary ≡ summary_told script.now.frames result.journal result.ends }
    ensures legal { IsLegalRun script.now files.now result.journal }
{
    a_play_is_told_by_its_journal();
    stage.finish(rounds)
}

// Judges by itself the journal of a play that was cut off, as anyone may. Memory says that an allocation was refused, that the journal isn't that of a cut run, or that it is longer than the judge counts. No play has come to the last two.
fn judged(alloc: Global, script: &Script, files: &[Pcm], journal: &Journal) -> Result<(), Memory>
    requires tracks { journal.now.tracks ≡ length script.now.tracks }
    requires files { length files.now ≡ length script.now.tracks }
    ensures { OnOk result (IsCutRun script.now files.now journal.now) }
{
    if judge(alloc, script, files, journal, true)? {
        return Ok(());
    }
    Err(Memory)
}

// What is handed back if the log is full before all parties have ended, once the journal was judged.
fn cut_off(
    stage: Stage,
    rounds: Rounds,
    alloc: Global,
    script: &Script,
    files: &[Pcm],
) -> Result<Played, PlayFault>
    requires played { HasPlayed script.now files.now rounds stage }
    requires files { HaveFiles (record { tracks = script.now.tracks; files = files.now }) }
    ensures never { IfOk result (λ _. ⊥) }
    ensures cut { IfErr result (λ f. (f ≡ CycleLimit (journal_of rounds stage.parties.fast.log) (ends_from stage.parties)) ⊎ (f ≡ MemoryFault)) }
    ensures cut_run { IfErr result (AtLimit (λ journal _. IsCutRun script.now files.now journal)) }
{
    let (journal, ends) = hand_over(stage.parties, rounds);
    match judged(alloc, script, files, &journal) {
        Ok(()) => Err(PlayFault::CycleLimit { journal, ends }),
        Err(_) => {
            drop(journal);
            drop(ends);
            Err(PlayFault::Memory)
        }
    }
}

/// What a play answers for a stage that was played to its end, or to the end of the log, in these rounds. If all parties have ended the answer is Ok, and no memory is taken. A play that was cut off is judged before it is handed back, with CycleLimit, and only for such a play the answer may be Memory.
pub fn answer(
    stage: Stage,
    rounds: Rounds,
    alloc: Global,
    script: &Script,
    files: &[Pcm],
) -> Result<Played, PlayFault>
    requires played { HasPlayed script.now files.now rounds stage }
    requires files { HaveFiles (record { tracks = script.now.tracks; files = files.now }) }
    ensures { Answers script.now files.now rounds stage result }
{
    if have_ended(&stage.parties) {
        return Ok(whole(stage, rounds, script, files));
    }
    cut_off(stage, rounds, alloc, script, files)
}
