//! A script's rounds from first to last, in which each party is on its own.
ghost use Rattle.std.specs.Prelude.{◌≡◌, ◌≤◌, ℕ, Some, Err, length, IfErr, IfOk, OnErr, OnOk};
ghost use Rattle.af_enough.specs.Enough.{HasEnoughCycles};
ghost use Rattle.af_playing.specs.declared.answering.PlayFault.TheVariants.{Memory as MemoryFault};
ghost use Rattle.af_playing.specs.InTime.{EndsInTime};
ghost use Rattle.af_playing.specs.PlayedRuns.{AtLimit, HandedBack, HasStoreCause};
ghost use Rattle.af_playing.specs.Pieces.{given_by};
ghost use Rattle.af_playing.specs.PlayedStages.{NotesNone, kept_in};
ghost use Rattle.af_playing.specs.PlayKept.{AppendsLogOfPlay, IsCutPlay, IsDonePlay, KeepsFiles, KeepsPlay, TellsLogOf, TookFew};
ghost use Rattle.af_rendering.specs.Rendered.{HaveFiles};
ghost use Rattle.af_side_by_side.specs.Logging.{BeginsLog, HasLogOf};

use crate::answering::{PlayFault, answer};
use crate::noted::Noted;
use crate::piece::Piece;
use crate::playing_of_all::play_to_end;
use af_audit::drained_tracks_have_reached_their_stop;
use af_base::Memory;
use af_io::{Gate, Store};
use af_model::Rounds;
use af_rendering::{Played, Stage};
use af_side_by_side::Logging;
use af_tally::Costs;
use std::alloc::Global;
use std::mem::{drop, replace};
use std::thread::Threads;

// Plays a script in rounds, with a log if the piece has room for notes.
fn play_with<R: Threads + Sync, S: Store, G: Gate>(
    rt: &R,
    alloc: Global,
    piece: &Piece<'_>,
    store: &mut S,
    noted: &mut Noted,
    gate: &G,
    steps: &mut Costs,
) -> Result<Played, PlayFault>
    requires files { HaveFiles (given_by piece.now) }
    requires none { NotesNone (length piece.now.script.now.tracks) noted.old }
    requires log { BeginsLog (kept_in piece.now.room) piece.now.script.now.cycles noted.old.logging }
    ensures keeps { KeepsPlay piece.now.script.now piece.now.files.now result }
    ensures files { S.told store.old → KeepsFiles piece.now.script.now piece.now.files.now piece.now.name.now (S.files store.old) (S.files store.new) result }
    ensures tells { S.told store.old → S.told store.new }
    ensures cause { HasStoreCause (S.faults store.old) (S.faults store.new) result }
    ensures log { TellsLogOf (kept_in piece.now.room) piece.now.script.now.frames result noted.new.logging }
    ensures steps { HandedBack (TookFew piece.now.script.now.frames steps.new.items) result }
{
    drained_tracks_have_reached_their_stop();
    let mut stage = Stage::make(alloc, piece.script)?;
    match play_to_end(&mut stage, rt, alloc, piece, store, noted, gate) {
        Ok(()) => {
            *steps = stage.room.tally.steps();
            let rounds = replace(&mut noted.rounds, Rounds::new(alloc, 0));
            answer(stage, rounds, alloc, piece.script, piece.files)
        }
        Err(error) => {
            drop(stage);
            Err(PlayFault::from(error))
        }
    }
}

/// Plays a script in rounds. In each round every party that has not ended makes one turn: each client, the normal mixer, and the fast mixer, which makes sixteen cycles, or fewer after one that isn't mixed. They make them at the same time, on as many threads as the gate says at most, if threads can be made. Then all parties meet. A party's turn begins at the gate, by the party's number: a client has the number of its track, and the mixers' numbers come behind those. The sound goes to the file of the piece, in pieces of a few rounds. All blocks, logs and mixers are made before the file is; the rounds are noted as they are played. There are at most as many rounds as the script has cycles.
///
/// Whatever the threads did, what was played is a run of the script and its files, of rounds of all parties, whose journal is handed back (`HandsBackRun`). Ok says that all parties have ended (`done`), CycleLimit that the log is full and some party has not (`limit`); so after each round but the last some party goes on and the log has room. What the journal records of the parties that are handed back with it, that the summary is that of the journal alone, and that each track is spared on whose blocks nothing was poked, are laws of af_parties_law (`what_a_play_hands_back_records_its_run`, `a_play_is_told_alone`, `a_play_spares_what_nobody_poked`). If the store shows its files, the file is the sound of the journal; after a fault no file has changed, or the file holds a front of the sound of some first rounds (`files`). `steps` gets the word steps that the cycles of the journal took, one after the other: each at most `(m + 1) * frames + 7 * m + 6` with m tracks in its state, and its note in a log at most ten.
///
/// By itself, whoever made it, the journal of Ok keeps the promises of a play that is done (`KeepsPromises`): it is that of a legal run of the script and its files, in which each frame that a client without a poke released was mixed once, in its place, was discarded by one flush that was noticed, or is still queued; nothing of such a track was found shut or corrupt; a track that is reported drained has reached the count of its last stop, at which its client had released so much; and what a client releases after it saw a START settled is discarded by a later flush alone. All that the normal mixer put into the pipe was taken from it and mixed. The journal after CycleLimit is that of a cut run, and CycleLimit never comes to a script whose tracks play through and whose cycles are enough by the rule (`enough`): whatever its threads do, its rounds can't come to the end of the log with a party still going (`in_time`), so what was played to its end is Ok. That the journal of Ok is legal is a law on plays, whatever the threads did: nothing judges that journal. The journal of CycleLimit is judged before it is handed back, so only if the script hasn't enough cycles. After such a play Memory may also stand for a journal that was judged not to be that of a cut run, or that is longer than the judge counts (131,072 turns of the normal mixer). No play has come to either. In all other cases Memory says that an allocation was refused. Store says that the store failed, and comes exactly if its count of faults rose (`cause`).
pub fn play<R: Threads + Sync, S: Store, G: Gate>(
    rt: &R,
    alloc: Global,
    piece: &Piece<'_>,
    store: &mut S,
    gate: &G,
    steps: &mut Costs,
) -> Result<Played, PlayFault>
    requires { HaveFiles (given_by piece.now) }
    ensures done { IfOk result (IsDonePlay piece.now.script.now piece.now.files.now) }
    ensures limit { IfErr result (AtLimit (IsCutPlay piece.now.script.now piece.now.files.now)) }
    ensures enough { HasEnoughCycles piece.now.script.now → IfErr result (AtLimit (λ journal ends. ⊥)) }
    ensures in_time { EndsInTime piece.now.script.now piece.now.files.now }
    ensures files { S.told store.old → KeepsFiles piece.now.script.now piece.now.files.now piece.now.name.now (S.files store.old) (S.files store.new) result }
    ensures tells { S.told store.old → S.told store.new }
    ensures cause { HasStoreCause (S.faults store.old) (S.faults store.new) result }
    ensures steps { HandedBack (TookFew piece.now.script.now.frames steps.new.items) result }
{
    let logging = Logging::none(alloc)?;
    let mut noted = Noted::of(alloc, piece.script, logging);
    let quiet = Piece { room: 0, ..*piece };
    play_with(rt, alloc, &quiet, store, &mut noted, gate, steps)
}

// If all parties have ended, drains what is left of a log, and appends its text. Memory if an allocation was refused: then `text` is as before. No other refusal comes.
fn tell(
    logging: &mut Logging,
    alloc: Global,
    played: &Result<Played, PlayFault>,
    text: &mut Vec<u8>,
) -> Result<(), Memory>
    requires told { IfOk played.now (λ p. (frames : ℕ) × (room : ℕ) × HasLogOf frames room p.journal logging.old) }
    ensures log { (n r : ℕ) → TellsLogOf (Some r) n played.now logging.old → OnOk result (AppendsLogOfPlay n r played.now text.old.items text.new.items) }
    ensures none { IfErr played.now (λ _. text.new.items ≡ text.old.items) }
    ensures unchanged { OnErr result (text.new.items ≡ text.old.items) }
    ensures memory { OnErr result (IfErr played.now (λ _. ⊥)) }
{
    if played.is_err() {
        return Ok(());
    }
    logging.write(alloc, text)
}

// Hands on what was played, if the text of its log was written too. Memory if that text was refused for lack of memory.
fn hand_on(played: Result<Played, PlayFault>, told: Result<(), Memory>) -> Result<Played, PlayFault>
    ensures same { IfOk told (λ _. result ≡ played) }
    ensures memory { IfErr told (λ _. result ≡ Err MemoryFault) }
{
    match told {
        Ok(()) => played,
        Err(_) => {
            drop(played);
            Err(PlayFault::Memory)
        }
    }
}

/// Plays a script as `play` does, with a log of notes, and refuses as `play` does. The fast mixer's party notes each entry that it adds, without waiting, in a log with room for as many notes as the piece says, 1 to 1024. A party more, whose number is behind that of the fast mixer, reads the log in each round until it sees no note left. If the answer is Ok, the text of the log is appended to `text`; else `text` is as before.
///
/// Whatever the threads did, each entry of the journal was noted in its place, and accepted or refused. A note was refused only if the notes accepted before it, in its round and in the round before, were at least as many as there is room for; so with room for 32 none was refused.
pub fn play_logged<R: Threads + Sync, S: Store, G: Gate>(
    rt: &R,
    alloc: Global,
    piece: &Piece<'_>,
    store: &mut S,
    gate: &G,
    text: &mut Vec<u8>,
    steps: &mut Costs,
) -> Result<Played, PlayFault>
    requires files { HaveFiles (given_by piece.now) }
    requires room { (1 ≤ piece.now.room) × (piece.now.room ≤ 1024) }
    ensures done { IfOk result (IsDonePlay piece.now.script.now piece.now.files.now) }
    ensures limit { IfErr result (AtLimit (IsCutPlay piece.now.script.now piece.now.files.now)) }
    ensures enough { HasEnoughCycles piece.now.script.now → IfErr result (AtLimit (λ journal ends. ⊥)) }
    ensures in_time { EndsInTime piece.now.script.now piece.now.files.now }
    ensures files { S.told store.old → KeepsFiles piece.now.script.now piece.now.files.now piece.now.name.now (S.files store.old) (S.files store.new) result }
    ensures tells { S.told store.old → S.told store.new }
    ensures cause { HasStoreCause (S.faults store.old) (S.faults store.new) result }
    ensures log { AppendsLogOfPlay piece.now.script.now.frames piece.now.room result text.old.items text.new.items
        × OnErr result (text.new.items ≡ text.old.items) }
    ensures steps { HandedBack (TookFew piece.now.script.now.frames steps.new.items) result }
{
    let logging = Logging::of(alloc, piece.room, piece.script.cycles())?;
    let mut noted = Noted::of(alloc, piece.script, logging);
    let played = play_with(rt, alloc, piece, store, &mut noted, gate, steps);
    let told = tell(&mut noted.logging, alloc, &played, text);
    drop(noted);
    hand_on(played, told)
}
