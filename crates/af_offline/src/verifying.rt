//! What `verify` does: a sound and its journal are judged by their script.
ghost use Rattle.std.specs.Prelude.{◌≡◌, IfOk, true, length};
ghost use Rattle.af_io.specs.Files.{SameFiles};
ghost use Rattle.af_offline.specs.Asked.{case_of};
ghost use Rattle.af_offline.specs.Loading.{AreFilesFor};
ghost use Rattle.af_offline.specs.Status.{HasFault, IsNoUsage, Meets};
ghost use Rattle.af_offline.specs.Verified.{BeginsTo, Finds, FindsFront, FoundTo, JudgesTo, ReadsTo, Tells, case_view, unread};

use crate::load::{Loaded, MOST_FILE, load_file, load_script};
use crate::status::{Ending, Role, Stop};
use af_audit::{Refusal, Verdict};
use af_io::Store;
use af_journal::{Front, JournalFault};
use af_script::Script;
use std::alloc::Global;

/// The most bytes of a journal.
const MOST_JOURNAL: u64 = 1 << 30;

/// How the command ends if a text wasn't read.
fn unread(fault: JournalFault) -> Stop
    ensures { result ≡ unread fault }
{
    match fault {
        JournalFault::Line { number } => {
            Stop::Over(Ending::Judged(Refusal::Text { line: number }))
        }
        JournalFault::Memory => Stop::Memory,
    }
}

/// What of a text's journal is judged, up to a round that is at fault.
fn read_judged(alloc: Global, text: &[u8], script: &Script) -> Result<Front, Stop>
    ensures { ReadsTo result script.now text.now }
{
    match af_journal::read_judged(alloc, text, script) {
        Ok(front) => Ok(front),
        Err(fault) => Err(unread(fault)),
    }
}

/// What a text begins with.
fn read_front(alloc: Global, text: &[u8], script: &Script) -> Result<Front, Stop>
    ensures { BeginsTo result script.now text.now }
{
    match af_journal::read_front(alloc, text, script) {
        Ok(front) => Ok(front),
        Err(fault) => Err(unread(fault)),
    }
}

/// What is judged: a script with its tracks' files, a sound, and the text of its journal.
#[derive(Drop)]
pub struct Case {
    pub loaded: Loaded,
    pub pcm: Vec<u8>,
    pub text: Vec<u8>,
}

/// Loads what is judged.
pub fn load_case<S: Store>(
    alloc: Global,
    store: &mut S,
    script: &str,
    sound: &str,
    journal: &str,
) -> Result<Case, Stop>
    ensures loaded { S.told store.old → Meets case_view result (case_of (S.files store.old) script.now sound.now journal.now) }
    ensures serve { IfOk result (λ c. AreFilesFor c.loaded) }
    ensures same { S.told store.old → SameFiles (S.files store.old) (S.files store.new) }
    ensures cause { HasFault (S.faults store.old) (S.faults store.new) result }
    ensures words { IsNoUsage result }
{
    let loaded = load_script(alloc, store, script)?;
    let pcm = load_file(alloc, store, sound, Role::Pcm, MOST_FILE)?;
    let text = load_file(alloc, store, journal, Role::Journal, MOST_JOURNAL)?;
    Ok(Case { loaded, pcm, text })
}

/// The line of what is found.
fn verdict_line(alloc: Global, found: Verdict) -> Result<String, Stop>
    ensures { FoundTo result found }
{
    match found {
        Verdict::Legal => Ok(format!(in alloc; "legal\n")?),
        Verdict::Refused(refusal) => Err(Stop::Over(Ending::Judged(refusal))),
    }
}

/// Whether what is found of a text's front is found of the whole: the front is the whole, or the fault is in one of its first rounds.
fn tells(found: Verdict, front: &Front) -> bool
    ensures { result ≡ true → Tells found front.now.whole (length front.now.journal.rounds) }
{
    if front.whole {
        return true;
    }
    match found {
        Verdict::Refused(Refusal::Round { round, .. }) => {
            (round as usize) < front.journal.rounds().saturating_sub(1)
        }
        _ => false,
    }
}

/// What is found of a sound and the text of its journal by what the text begins with, if that is enough.
#[tactic(auto, using(crate::proofs::Loads::served_count))]
fn judge_front(alloc: Global, case: &Case) -> Result<Option<Verdict>, Stop>
    requires { AreFilesFor case.now.loaded }
    ensures { FindsFront result (case_view case.now) }
{
    let script = &case.loaded.script;
    let front = read_front(alloc, &case.text, script)?;
    let found = af_audit::verify(alloc, script, &case.loaded.files, &front.journal, &case.pcm)?;
    if tells(found, &front) {
        Ok(Some(found))
    } else {
        Ok(None)
    }
}

/// What is found of a sound and the text of its journal, by all of it up to a round that is at fault.
#[tactic(auto, using(crate::proofs::Loads::served_count))]
fn judge_whole(alloc: Global, case: &Case) -> Result<Verdict, Stop>
    requires { AreFilesFor case.now.loaded }
    ensures { Finds result (case_view case.now) }
{
    let script = &case.loaded.script;
    let front = read_judged(alloc, &case.text, script)?;
    let found = af_audit::verify(alloc, script, &case.loaded.files, &front.journal, &case.pcm)?;
    Ok(found)
}

/// Judges a sound and the text of its journal, and answers the line of legal ones. What a text too long for its script begins with is enough.
pub fn judge(alloc: Global, case: &Case) -> Result<String, Stop>
    requires { AreFilesFor case.now.loaded }
    ensures { JudgesTo result (case_view case.now) }
{
    let found = match judge_front(alloc, case)? {
        Some(found) => found,
        None => judge_whole(alloc, case)?,
    };
    verdict_line(alloc, found)
}
