//! What the words ask for, done over the store and the sink that are handed in.
ghost use Rattle.std.specs.Prelude.{◌≡◌, ◌⊎◌, IfOk, IfErr, map, string_bytes};
ghost use Rattle.af_io.specs.Causes.{Rose, HasCause};
ghost use Rattle.af_io.specs.Files.{Appends};
ghost use Rattle.af_offline.specs.Asked.{asked_of, job_of};
ghost use Rattle.af_words.specs.Asking.{request_view, IsSound};
ghost use Rattle.af_commands.specs.Counted.{CountsOn, CountsSteps};
ghost use Rattle.af_commands.specs.Ends.{IsDoneLine, IsOver, Makes, Works, Prints, PrintsLine, Renders, Printed, WholeUnless, PrintsOwnLine, PrintsSomeLine, EndsAsAsked};
ghost use Rattle.af_offline.specs.Line.{ending_text, refusal_text};
ghost use Rattle.af_words.specs.Requests.{request_of};
ghost use Rattle.af_offline.specs.Status.{CountsFaults, HasEitherFault, HasFault, StopsOutside, JudgesWords, RefusesWords, SuitsRequest};

use crate::generating::generate;
use crate::offline::{loop_file, record_file, verify_files};
use crate::playing::{PlayOutput, play_script};
use crate::render::render_script;
use crate::tracing::{TraceOutput, trace_script};
use af_io::{Gate, Sink, Store, StoreError};
use af_offline::{Ending, Refusal, Status, Stop};
use af_tally::Costs;
use af_words::{Request, request_of};
use std::alloc::Global;
use std::thread::Threads;

/// Makes the output of a command, and answers its line.
fn make<R: Threads + Sync, S: Store, G: Gate>(
    rt: &R,
    alloc: Global,
    store: &mut S,
    request: Request<'_>,
    gate: &G,
    steps: &mut Costs,
) -> Result<String, Stop>
    requires { IsSound request }
    ensures made { S.told store.old → Makes result (job_of (S.files store.old) (request_view request.entry)) (S.files store.old) (S.files store.new) }
    ensures line { IfOk result (λ line. IsDoneLine (request_view request.entry) (string_bytes line)) }
    ensures cause { HasFault (S.faults store.old) (S.faults store.new) result }
    ensures words { SuitsRequest result (request_view request.entry) }
    ensures steps { S.told store.old → CountsOn result (job_of (S.files store.old) (request_view request.entry)) (S.files store.new) steps.new.items }
{
    match request {
        Request::Render { script, target } => { render_script(alloc, store, script, target, steps) }
        Request::Record {
            input,
            target,
            sizes,
        } => record_file(alloc, store, input, target, sizes),
        Request::Loop {
            input,
            target,
            turns,
        } => loop_file(alloc, store, input, target, turns),
        Request::Generate {
            number,
            script,
            target,
        } => generate(alloc, store, number, script, target, steps),
        Request::Play {
            script,
            target,
            journal,
        } => {
            let output = PlayOutput { target, journal };
            play_script(rt, alloc, store, script, &output, gate, steps)
        }
        Request::Verify {
            script,
            sound,
            journal,
        } => verify_files(alloc, store, script, sound, journal),
        Request::Trace {
            script,
            target,
            journal,
            log,
            room,
        } => {
            let output = TraceOutput {
                target,
                journal,
                log,
                room,
            };
            trace_script(rt, alloc, store, script, &output, gate, steps)
        }
    }
}

/// Prints a line.
fn print<O: Sink>(out: &mut O, line: &str) -> Result<(), Stop>
    ensures printed { O.told out.old → PrintsLine result line.now (O.held out.old) (O.held out.new) }
    ensures outside { IfErr result StopsOutside }
    ensures tells { O.told out.old → O.told out.new }
    ensures cause { HasFault (O.faults out.old) (O.faults out.new) result }
{
    out.write(line.as_bytes())?;
    Ok(())
}

/// Prints the line of a refusal.
fn refuse<O: Sink>(alloc: Global, out: &mut O, refusal: Refusal) -> Result<(), StoreError>
    ensures printed { O.told out.old → Appends result (O.held out.old) (refusal_text refusal) (O.held out.new) }
    ensures cause { HasCause (O.faults out.old) (O.faults out.new) result }
{
    let line = format!(in alloc; "{refusal}")?;
    out.write(line.as_str().as_bytes())
}

/// Prints the line of a work that is over.
fn tell<O: Sink>(alloc: Global, out: &mut O, ending: Ending) -> Result<(), StoreError>
    ensures printed { O.told out.old → Appends result (O.held out.old) (ending_text ending) (O.held out.new) }
    ensures cause { HasCause (O.faults out.old) (O.faults out.new) result }
{
    let line = format!(in alloc; "{ending}")?;
    out.write(line.as_str().as_bytes())
}

/// Does what the words ask for. A refusal or another ending is not printed yet.
fn work<R: Threads + Sync, S: Store, O: Sink, G: Gate>(
    rt: &R,
    alloc: Global,
    words: &[String],
    store: &mut S,
    out: &mut O,
    gate: &G,
    steps: &mut Costs,
) -> Result<(), Stop>
    ensures rendered { S.told store.old → Renders result (asked_of (S.files store.old) (map string_bytes words.now)) (S.files store.old) (S.files store.new) }
    ensures printed { S.told store.old → O.told out.old
        → Printed result (asked_of (S.files store.old) (map string_bytes words.now)) (S.files store.old) (S.files store.new) (O.held out.old) (O.held out.new) }
    ensures whole { S.told store.old → WholeUnless (Rose (S.faults store.old) (S.faults store.new)) result
        (asked_of (S.files store.old) (map string_bytes words.now)) (S.files store.old) (S.files store.new) }
    ensures some { O.told out.old → PrintsSomeLine result (request_of (map string_bytes words.now)) (O.held out.old) (O.held out.new) }
    ensures words { RefusesWords result (request_of (map string_bytes words.now)) }
    ensures tells { O.told out.old → O.told out.new }
    ensures cause { HasEitherFault (S.faults store.old) (S.faults store.new) (O.faults out.old) (O.faults out.new) result }
    ensures steps { S.told store.old → CountsOn result (asked_of (S.files store.old) (map string_bytes words.now)) (S.files store.new) steps.new.items }
{
    let Some(request) = request_of(alloc, words)? else {
        return Err(Stop::Refused(Refusal::Usage));
    };
    let line = make(rt, alloc, store, request, gate, steps)?;
    print(out, line.as_str())
}

/// Does what the words after the program's name ask for, over the store and the sink, and prints one line.
///
/// If the store says what its files hold, each answer but a fault of the outside and an allocation that was refused has its cause in the words and the files.
pub fn run<R: Threads + Sync, S: Store, O: Sink, G: Gate>(
    rt: &R,
    alloc: Global,
    words: &[String],
    store: &mut S,
    out: &mut O,
    gate: &G,
    steps: &mut Costs,
) -> Status
    // The status and the files: those that the command makes hold what is asked for and no other has changed, or the first refusal came and none has. Of a play the two files are the sound and the text of the journal of one run, and with a log a third is the text of a log of that journal. In that run all parties have ended if the status is Done, and it was cut off if the status is CycleLimit. Of a render the file is the sound of the journal of one turn run, in which each event sees what all before it left. If no op of the script is a poke, it is the only one in which each stream proxy takes part in the last meeting, if it does so. By each of these journals, up to each meeting of its two proxies, a block that no poke was made on is spared, each frame released on such a stream block has one fate, and no write of a track without a poke was answered Dead.
    ensures work { S.told store.old → Works result (asked_of (S.files store.old) (map string_bytes words.now)) (S.files store.old) (S.files store.new) }
    // The line, of one outcome with the bytes of the output: all of it, a front of it or nothing after a fault of the outside, nothing if memory ran out.
    ensures line { S.told store.old → O.told out.old
        → Prints result (asked_of (S.files store.old) (map string_bytes words.now)) (S.files store.old) (S.files store.new) (O.held out.old) (O.held out.new) }
    // The line by the status and the words alone, whatever the store says of its files: one of the command, that of the refusal or of the limit of a play, a front of some line after a fault of the outside, or nothing.
    ensures printed { O.told out.old → PrintsOwnLine result (request_of (map string_bytes words.now)) (O.held out.old) (O.held out.new) }
    // After a fault of the outside the store has failed, or the work is whole and the sink has failed at the line.
    ensures whole { S.told store.old → result ≡ Status.StoreFault → Rose (S.faults store.old) (S.faults store.new)
        ⊎ IsOver (asked_of (S.files store.old) (map string_bytes words.now)) (S.files store.old) (S.files store.new) }
    // Usage comes exactly if the words don't fit, whatever the store says of its files.
    ensures words { JudgesWords result (request_of (map string_bytes words.now)) }
    // A fault of the outside is answered exactly if a count of faults rose.
    ensures cause { CountsFaults (S.faults store.old) (S.faults store.new) (O.faults out.old) (O.faults out.new) result }
    // If no count of faults rises, the answer is what is asked for: Done if the words fit and script and files are accepted. Memory may run out, and a play may be cut off at the limit of its script, but never if the script has enough cycles by the rule of docs/FORMATS.md.
    ensures complete { S.told store.old → (Rose (S.faults store.old) (S.faults store.new) → ⊥) → (Rose (O.faults out.old) (O.faults out.new) → ⊥)
        → EndsAsAsked result (asked_of (S.files store.old) (map string_bytes words.now)) }
    // Each cycle of a render, of a play and of a trace that was done, or cut off at its limit, took at most (m + 1) * F + 7 * m + 6 word steps, with F frames and m tracks in the state that it used, and its note in a log at most ten more.
    ensures steps { S.told store.old → CountsSteps result (asked_of (S.files store.old) (map string_bytes words.now)) (S.files store.new) steps.new.items }
{
    match work(rt, alloc, words, store, out, gate, steps) {
        Ok(()) => Status::Done,
        Err(Stop::Store) => Status::StoreFault,
        Err(Stop::Memory) => Status::Memory,
        Err(Stop::Refused(refusal)) => match refuse(alloc, out, refusal) {
            Ok(()) => Status::from(refusal),
            Err(StoreError::Failed) => Status::StoreFault,
            Err(StoreError::Memory) => Status::Memory,
        },
        Err(Stop::Over(ending)) => match tell(alloc, out, ending) {
            Ok(()) => Status::from(ending),
            Err(StoreError::Failed) => Status::StoreFault,
            Err(StoreError::Memory) => Status::Memory,
        },
    }
}
