//! The verdict on a journal and its PCM, and on a journal alone.
ghost use Rattle.std.specs.Prelude.{◌≡◌, ◌↔◌, ◌+◌, ◌<◌, ◌≤◌, IfOk, IfSome, IsTrue, false, length, true};
ghost use Rattle.af_audit.specs.Verdicts.{IsRun, IsVerdict};
ghost use Rattle.af_audit.specs.declared.verdict.Verdict.TheVariants as verdict;
ghost use Rattle.af_audit.specs.RunJudged.{IsReady};
ghost use Rattle.af_audit.specs.RunKept.{FindsFault, FindsUnclear, KeepsRun};
ghost use Rattle.af_runs.specs.LegalRuns.{IsCutRun, IsLegalRun, marks_of, session_of};
ghost use Rattle.af_runs.specs.Pcm.{journal_pcm};
ghost use Rattle.af_runs.specs.Runs.{new_run};
ghost use Rattle.af_runs.specs.Sessions.{Session};
ghost use Rattle.af_script.specs.Form.{IsScript};

use crate::differ::first_differ;
use crate::run_judge::{RunJudge, new_tracks};
use crate::sound::sound_of;
use crate::verdict::{Refusal, Verdict};
use af_base::Memory;
use af_io::Pcm;
use af_judge::TrackJudge;
use af_model::Journal;
use af_script::{Script, TrackSpec};
use std::alloc::Global;

// The first round that isn't clear, with its least party, of a run that is cut off or not.
fn first_unclear(
    run: &mut RunJudge,
    tracks: &mut [TrackJudge],
    specs: &[TrackSpec],
    files: &[Pcm],
    journal: &Journal,
    cut: bool,
) -> Result<Option<(u64, u32)>, Memory>
    requires ready { IsReady run.old (length tracks.old) }
    requires specs { length specs.now ≡ length tracks.old }
    requires files { length files.now ≡ length tracks.old }
    requires tracks { journal.now.tracks ≡ length tracks.old }
    ensures ready { IfOk result (λ _. IsReady run.new (length tracks.old)) }
    ensures count { IfOk result (λ _. length tracks.new ≡ length tracks.old) }
    ensures place { IfOk result (λ found. IfSome found (λ at. (at.0 < length journal.now.rounds) × (at.1 ≤ length tracks.old + 1))) }
    ensures found { (s : Session) → IsScript s.script → s.script.tracks ≡ specs.now → s.files ≡ files.now → KeepsRun s (marks_of journal.now.rounds) run.old tracks.old (new_run s) → IfOk result (λ found. FindsUnclear cut s (marks_of journal.now.rounds) (new_run s) journal.now.rounds run.new tracks.new found) }
{
    for round in 0..journal.rounds() {
        match run.round(tracks, specs, files, journal, round, cut)? {
            Some(party) => return Ok(Some((round as u64, party))),
            None => {}
        }
    }
    Ok(None)
}

// Whether all rounds are legal, of a run that is cut off or not, and the run may end after them.
fn is_run(
    run: &mut RunJudge,
    tracks: &mut [TrackJudge],
    specs: &[TrackSpec],
    files: &[Pcm],
    journal: &Journal,
    cut: bool,
) -> Result<bool, Memory>
    requires ready { IsReady run.old (length tracks.old) }
    requires specs { length specs.now ≡ length tracks.old }
    requires files { length files.now ≡ length tracks.old }
    requires tracks { journal.now.tracks ≡ length tracks.old }
    ensures { (s : Session) → IsScript s.script → s.script.tracks ≡ specs.now → s.files ≡ files.now → KeepsRun s (marks_of journal.now.rounds) run.old tracks.old (new_run s) → IfOk result (λ yes. IsTrue yes ↔ IsRun cut s (marks_of journal.now.rounds) (new_run s) journal.now.rounds) }
{
    match first_unclear(run, tracks, specs, files, journal, cut)? {
        Some(_) => Ok(false),
        None => Ok(run.may_end(tracks, cut)),
    }
}

// The first round that isn't clear, with its least party; after the last round the least party that hasn't ended.
fn judge_rounds(
    run: &mut RunJudge,
    tracks: &mut [TrackJudge],
    specs: &[TrackSpec],
    files: &[Pcm],
    journal: &Journal,
) -> Result<Option<(u64, u32)>, Memory>
    requires ready { IsReady run.old (length tracks.old) }
    requires specs { length specs.now ≡ length tracks.old }
    requires files { length files.now ≡ length tracks.old }
    requires tracks { journal.now.tracks ≡ length tracks.old }
    ensures place { IfOk result (λ found. IfSome found (λ at. (at.0 ≤ length journal.now.rounds) × (at.1 ≤ length tracks.old + 1))) }
    ensures fault { (s : Session) → IsScript s.script → s.script.tracks ≡ specs.now → s.files ≡ files.now → KeepsRun s (marks_of journal.now.rounds) run.old tracks.old (new_run s) → IfOk result (λ found. FindsFault s (marks_of journal.now.rounds) (new_run s) journal.now.rounds found) }
{
    if let Some(at) = first_unclear(run, tracks, specs, files, journal, false)? {
        return Ok(Some(at));
    }
    let rounds = journal.rounds();
    match run.going_party(tracks) {
        None => Ok(None),
        Some(party) => Ok(Some((rounds as u64, party))),
    }
}

// The first fault of a journal: its round and its party.
fn first_fault(
    alloc: Global,
    script: &Script,
    files: &[Pcm],
    journal: &Journal,
) -> Result<Option<(u64, u32)>, Memory>
    requires tracks { journal.now.tracks ≡ length script.now.tracks }
    requires files { length files.now ≡ length script.now.tracks }
    ensures place { IfOk result (λ found. IfSome found (λ at. (at.0 ≤ length journal.now.rounds) × (at.1 ≤ length script.now.tracks + 1))) }
    ensures fault { IfOk result (λ found. let s = session_of script.now files.now in FindsFault s (marks_of journal.now.rounds) (new_run s) journal.now.rounds found) }
{
    let mut run = RunJudge::new(alloc, script)?;
    let mut tracks = new_tracks(alloc, script, journal)?;
    judge_rounds(&mut run, &mut tracks, script.tracks(), files, journal)
}

// The first fault, and without one the first byte that isn't that of the mix.
fn find(
    alloc: Global,
    script: &Script,
    files: &[Pcm],
    journal: &Journal,
    pcm: &[u8],
) -> Result<Verdict, Memory>
    requires tracks { journal.now.tracks ≡ length script.now.tracks }
    requires files { length files.now ≡ length script.now.tracks }
    ensures { IfOk result (IsVerdict script.now files.now journal.now pcm.now) }
{
    if let Some((round, party)) = first_fault(alloc, script, files, journal)? {
        return Ok(Verdict::Refused(Refusal::Round { round, party }));
    }
    let sound = sound_of(alloc, journal, script.frames() as usize)?;
    Ok(match first_differ(&sound, pcm) {
        None => Verdict::Legal,
        Some(at) => Verdict::Refused(Refusal::Pcm { at: at as u64 }),
    })
}

/// Whether a journal is that of a legal run of the script and its files, or, if `cut` says so, that of a run cut off with its log full.
///
/// The journal has as many tracks as the script, and the files are those that `play` may be given. Memory is its only error.
pub fn judge(
    alloc: Global,
    script: &Script,
    files: &[Pcm],
    journal: &Journal,
    cut: bool,
) -> Result<bool, Memory>
    requires tracks { journal.now.tracks ≡ length script.now.tracks }
    requires files { length files.now ≡ length script.now.tracks }
    ensures legal { cut ≡ false → IfOk result (λ yes. IsTrue yes ↔ IsLegalRun script.now files.now journal.now) }
    ensures cut { cut ≡ true → IfOk result (λ yes. IsTrue yes ↔ IsCutRun script.now files.now journal.now) }
{
    let mut run = RunJudge::new(alloc, script)?;
    let mut tracks = new_tracks(alloc, script, journal)?;
    let specs = script.tracks();
    let is = is_run(&mut run, &mut tracks, specs, files, journal, cut)?;
    let _log = journal.log();
    Ok(is)
}

/// The verdict on a journal and its PCM: legal, or the first round and in it the least party at fault, or the first byte that isn't that of the mix. It is legal exactly if the journal is that of a legal run of the script and its files, and the bytes are its PCM.
///
/// The journal has as many tracks as the script, and the files are those that `play` may be given. It never answers Text. Memory is its only error.
pub fn verify(
    alloc: Global,
    script: &Script,
    files: &[Pcm],
    journal: &Journal,
    pcm: &[u8],
) -> Result<Verdict, Memory>
    requires tracks { journal.now.tracks ≡ length script.now.tracks }
    requires files { length files.now ≡ length script.now.tracks }
    ensures verdict { IfOk result (IsVerdict script.now files.now journal.now pcm.now) }
    ensures legal { IfOk result (λ found. (found ≡ verdict.Legal) ↔ (IsLegalRun script.now files.now journal.now × (pcm.now ≡ journal_pcm script.now.frames journal.now))) }
{
    let found = find(alloc, script, files, journal, pcm)?;
    let _tracks = script.tracks();
    let _log = journal.log();
    Ok(found)
}
