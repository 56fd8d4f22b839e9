//! The command `trace`: a script's parties, played in rounds into a file, with the texts of their journal and of their log beside it.
ghost use Rattle.std.specs.Prelude.{◌≡◌, ◌≤◌, ℕ, List, Ok, IfOk, string_bytes};
ghost use Rattle.af_commands.specs.Counted.{CountsOn};
ghost use Rattle.af_commands.specs.Ends.{Makes};
ghost use Rattle.af_commands.specs.Outputs.{trace_asked_into, trace_into};
ghost use Rattle.af_offline.specs.Loading.{loaded_view, AreFilesFor};
ghost use Rattle.af_commands.specs.Plays.{IsSomePlayLine};
ghost use Rattle.af_words.specs.Requests.{Trace};
ghost use Rattle.af_offline.specs.Status.{HasFault, SuitsRequest};
ghost use Rattle.af_commands.specs.Told.{Tells, TellsCause, TellsTexts};

use crate::playing::tell;
use crate::render::is_accepted;
use af_io::{Gate, Store};
use af_journal_laws::what_follows_of_rounds;
use af_offline::{Loaded, Stop, load_script, write_file};
use af_parties_law::{
    a_play_is_told_alone, a_play_spares_what_nobody_poked, what_a_play_hands_back_records_its_run,
};
use af_playing::{Piece, PlayFault};
use af_rendering::Played;
use af_tally::Costs;
use std::alloc::Global;
use std::thread::Threads;

/// What a trace writes: the names of the sound, of the journal and of the log, and for how many notes the log has room.
#[derive(Clone, Copy, Drop)]
pub struct TraceOutput<'a> {
    pub target: &'a str,
    pub journal: &'a str,
    pub log: &'a str,
    pub room: u32,
}

/// Answers a play as `tell` does, and writes the text of its log after the journal if all parties have ended.
fn tell_with_log<S: Store>(
    alloc: Global,
    store: &mut S,
    name: &str,
    log: &str,
    text: &[u8],
    cycles: u32,
    played: &Result<Played, PlayFault>,
) -> Result<String, Stop>
    ensures told { Tells cycles played.now result }
    ensures files { S.told store.old → TellsTexts name.now log.now text.now played.now result (S.files store.old) (S.files store.new) }
    ensures cause { TellsCause (S.faults store.old) (S.faults store.new) played.now result }
{
    let line = tell(alloc, store, name, cycles, played)?;
    write_file(store, log, text)?;
    Ok(line)
}

/// Plays what was loaded with a log, writes the journal and then the log, and answers the line of a run in which all parties have ended.
fn trace<R: Threads + Sync, S: Store, G: Gate>(
    rt: &R,
    alloc: Global,
    loaded: &Loaded,
    store: &mut S,
    output: &TraceOutput<'_>,
    gate: &G,
    steps: &mut Costs,
) -> Result<String, Stop>
    requires files { AreFilesFor loaded.now }
    requires room { (1 ≤ output.now.room) × (output.now.room ≤ 1024) }
    ensures made { S.told store.old → Makes result (Ok (trace_into output.now (loaded_view loaded.now))) (S.files store.old) (S.files store.new) }
    ensures line { IfOk result (λ line. IsSomePlayLine (string_bytes line)) }
    ensures cause { HasFault (S.faults store.old) (S.faults store.new) result }
    ensures words { (script : List ℕ) → SuitsRequest result (Trace script output.now.target.now output.now.journal.now output.now.log.now output.now.room) }
    ensures steps { S.told store.old → CountsOn result (Ok (trace_into output.now (loaded_view loaded.now))) (S.files store.new) steps.new.items }
{
    is_accepted(&loaded.script);
    what_follows_of_rounds();
    what_a_play_hands_back_records_its_run();
    a_play_is_told_alone();
    a_play_spares_what_nobody_poked();
    let mut text = Vec::new(alloc);
    let piece = Piece {
        script: &loaded.script,
        files: &loaded.files,
        name: output.target,
        room: output.room,
    };
    let played = af_playing::play_logged(rt, alloc, &piece, store, gate, &mut text, steps);
    let cycles = loaded.script.cycles();
    let told = tell_with_log(
        alloc,
        store,
        output.journal,
        output.log,
        &text,
        cycles,
        &played,
    );
    drop(played);
    told
}

/// Loads a script and the files of its tracks, and plays it in rounds into the output, with a log of room for so many notes. If all parties have ended, or if the play was cut off at its limit of cycles, the journal is written. If all have ended, the log is written after it, and the answer is the line; else the answer is what stopped the play.
pub fn trace_script<R: Threads + Sync, S: Store, G: Gate>(
    rt: &R,
    alloc: Global,
    store: &mut S,
    script: &str,
    output: &TraceOutput<'_>,
    gate: &G,
    steps: &mut Costs,
) -> Result<String, Stop>
    requires { (1 ≤ output.now.room) × (output.now.room ≤ 1024) }
    ensures made { S.told store.old → Makes result (trace_asked_into output.now (S.files store.old) script.now) (S.files store.old) (S.files store.new) }
    ensures line { IfOk result (λ line. IsSomePlayLine (string_bytes line)) }
    ensures cause { HasFault (S.faults store.old) (S.faults store.new) result }
    ensures words { SuitsRequest result (Trace script.now output.now.target.now output.now.journal.now output.now.log.now output.now.room) }
    ensures steps { S.told store.old → CountsOn result (trace_asked_into output.now (S.files store.old) script.now) (S.files store.new) steps.new.items }
{
    let loaded = load_script(alloc, store, script)?;
    trace(rt, alloc, &loaded, store, output, gate, steps)
}
