//! The command `play`: a script's parties, played in rounds into a file, and the text of their journal beside it.
ghost use Rattle.std.specs.Prelude.{◌≡◌, ◌++◌, ℕ, List, Ok, Some, IfOk, OnOk, OnErr, string_bytes};
ghost use Rattle.af_io.specs.Causes.{HasCause};
ghost use Rattle.af_io.specs.Files.{SetsFile, LeavesFront};
ghost use Rattle.af_journal.specs.Texts.{text_of};
ghost use Rattle.af_commands.specs.Counted.{CountsOn};
ghost use Rattle.af_commands.specs.Ends.{Makes};
ghost use Rattle.af_commands.specs.Outputs.{play_asked_into, play_into};
ghost use Rattle.af_offline.specs.Loading.{loaded_view, AreFilesFor};
ghost use Rattle.af_commands.specs.Plays.{IsSomePlayLine};
ghost use Rattle.af_words.specs.Requests.{Play};
ghost use Rattle.af_offline.specs.Status.{HasFault, SuitsRequest};
ghost use Rattle.af_commands.specs.Told.{Tells, TellsCause, TellsEnded, TellsLimit, TellsText, WritesText};

use crate::render::{is_accepted, line_of};
use af_base::Memory;
use af_io::{Gate, Store, StoreError};
use af_journal_laws::what_follows_of_rounds;
use af_model::Journal;
use af_offline::{Ending, Loaded, Stop, load_script, write_file};
use af_parties_law::{
    a_play_is_told_alone, a_play_spares_what_nobody_poked, what_a_play_hands_back_records_its_run,
};
use af_playing::{Piece, PlayFault};
use af_rendering::Played;
use af_tally::Costs;
use std::alloc::Global;
use std::thread::Threads;

/// What a play writes: the names of the sound and of the journal.
#[derive(Clone, Copy, Drop)]
pub struct PlayOutput<'a> {
    pub target: &'a str,
    pub journal: &'a str,
}

/// The text of a journal.
fn text_of(alloc: Global, journal: &Journal) -> Result<Vec<u8>, Memory>
    ensures { IfOk result (λ text. text.items ≡ text_of journal.now) }
{
    let mut text = Vec::new(alloc);
    af_journal::write(alloc, journal, &mut text)?;
    Ok(text)
}

/// Makes the file of a journal anew, with its text as one piece.
pub(crate) fn write_journal<S: Store>(
    alloc: Global,
    store: &mut S,
    name: &str,
    journal: &Journal,
) -> Result<(), StoreError>
    ensures written { S.told store.old → OnOk result (SetsFile (S.files store.old) name.now (Some (text_of journal.now)) (S.files store.new)) }
    ensures left { S.told store.old → OnErr result (LeavesFront (S.files store.old) name.now (text_of journal.now) (S.files store.new)) }
    ensures tells { S.told store.old → S.told store.new }
    ensures cause { HasCause (S.faults store.old) (S.faults store.new) result }
{
    let text = text_of(alloc, journal)?;
    write_file(store, name, &text)
}

/// Writes the journal of a play in which all parties have ended, and answers its line.
fn tell_ended<S: Store>(
    alloc: Global,
    store: &mut S,
    name: &str,
    played: &Played,
) -> Result<String, Stop>
    ensures told { TellsEnded played.now.summary result }
    ensures files { S.told store.old → WritesText name.now played.now.journal result (S.files store.old) (S.files store.new) }
    ensures tells { S.told store.old → S.told store.new }
    ensures cause { HasFault (S.faults store.old) (S.faults store.new) result }
{
    write_journal(alloc, store, name, &played.journal)?;
    line_of(alloc, &played.summary)
}

/// Writes the journal of a play that was cut off at its limit of so many cycles, and answers that end.
fn tell_limit<S: Store>(
    alloc: Global,
    store: &mut S,
    name: &str,
    cycles: u32,
    journal: &Journal,
) -> Result<String, Stop>
    ensures told { TellsLimit cycles result }
    ensures files { S.told store.old → WritesText name.now journal.now result (S.files store.old) (S.files store.new) }
    ensures tells { S.told store.old → S.told store.new }
    ensures cause { HasFault (S.faults store.old) (S.faults store.new) result }
{
    write_journal(alloc, store, name, journal)?;
    Err(Stop::Over(Ending::Limit { cycles }))
}

/// Answers a play: writes its journal if all parties have ended, and answers its line; or if it was cut off at its limit of so many cycles, and answers that end.
pub(crate) fn tell<S: Store>(
    alloc: Global,
    store: &mut S,
    name: &str,
    cycles: u32,
    played: &Result<Played, PlayFault>,
) -> Result<String, Stop>
    ensures told { Tells cycles played.now result }
    ensures files { S.told store.old → TellsText name.now played.now result (S.files store.old) (S.files store.new) }
    ensures tells { S.told store.old → S.told store.new }
    ensures cause { TellsCause (S.faults store.old) (S.faults store.new) played.now result }
{
    match played {
        Ok(played) => tell_ended(alloc, store, name, played),
        Err(PlayFault::CycleLimit { journal, .. }) => {
            tell_limit(alloc, store, name, cycles, journal)
        }
        Err(PlayFault::Store) => Err(Stop::Store),
        Err(PlayFault::Memory) => Err(Stop::Memory),
    }
}

/// Plays what was loaded, writes the journal, and answers the line of a run in which all parties have ended. `steps` gets the word steps of its cycles.
fn play<R: Threads + Sync, S: Store, G: Gate>(
    rt: &R,
    alloc: Global,
    loaded: &Loaded,
    store: &mut S,
    output: &PlayOutput<'_>,
    gate: &G,
    steps: &mut Costs,
) -> Result<String, Stop>
    requires { AreFilesFor loaded.now }
    ensures made { S.told store.old → Makes result (Ok (play_into output.now (loaded_view loaded.now))) (S.files store.old) (S.files store.new) }
    ensures line { IfOk result (λ line. IsSomePlayLine (string_bytes line)) }
    ensures cause { HasFault (S.faults store.old) (S.faults store.new) result }
    ensures words { (script : List ℕ) → SuitsRequest result (Play script output.now.target.now output.now.journal.now) }
    ensures steps { S.told store.old → CountsOn result (Ok (play_into output.now (loaded_view loaded.now))) (S.files store.new) steps.new.items }
{
    is_accepted(&loaded.script);
    what_follows_of_rounds();
    what_a_play_hands_back_records_its_run();
    a_play_is_told_alone();
    a_play_spares_what_nobody_poked();
    let piece = Piece {
        script: &loaded.script,
        files: &loaded.files,
        name: output.target,
        room: 0,
    };
    let played = af_playing::play(rt, alloc, &piece, store, gate, steps);
    let told = tell(
        alloc,
        store,
        output.journal,
        loaded.script.cycles(),
        &played,
    );
    drop(played);
    told
}

/// Loads a script and the files of its tracks, and plays it in rounds into the output. If all parties have ended, or if the play was cut off at its limit of cycles, the journal is written. The answer is the line if all parties have ended, and else what stopped the play.
pub fn play_script<R: Threads + Sync, S: Store, G: Gate>(
    rt: &R,
    alloc: Global,
    store: &mut S,
    script: &str,
    output: &PlayOutput<'_>,
    gate: &G,
    steps: &mut Costs,
) -> Result<String, Stop>
    ensures made { S.told store.old → Makes result (play_asked_into output.now (S.files store.old) script.now) (S.files store.old) (S.files store.new) }
    ensures line { IfOk result (λ line. IsSomePlayLine (string_bytes line)) }
    ensures cause { HasFault (S.faults store.old) (S.faults store.new) result }
    ensures words { SuitsRequest result (Play script.now output.now.target.now output.now.journal.now) }
    ensures steps { S.told store.old → CountsOn result (play_asked_into output.now (S.files store.old) script.now) (S.files store.new) steps.new.items }
{
    let loaded = load_script(alloc, store, script)?;
    play(rt, alloc, &loaded, store, output, gate, steps)
}
