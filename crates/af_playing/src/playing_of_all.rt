//! The rounds of all parties from first to last, and the file of what they mixed.
ghost use Rattle.std.specs.Prelude.{◌≡◌, ◌+◌, ◌<◌, ◌≤◌, ◌^◌, ℕ, true, false, [], Option, length, map, IfOk, OnOk, OnErr};
ghost use Rattle.std.specs.List.{list_all};
ghost use Rattle.af_io.specs.Causes.{HasCause};
ghost use Rattle.af_model.specs.Journals.{cycles_of};
ghost use Rattle.af_playing.specs.Pieces.{given_by};
ghost use Rattle.af_playing.specs.PlayedRuns.{GoesOn, all_ended, is_full};
ghost use Rattle.af_playing.specs.PlayedStages.{AllPlayedRound, HasPlayed, HasPlayedRounds, LeavesPiece, LogsOn, NotesNone, NotesRound, SetsSound, kept_in};
ghost use Rattle.af_rendering.specs.Rendered.{HaveFiles};
ghost use Rattle.af_rendering.specs.Stages.{HasRoomToWait, IsNewStage};
ghost use Rattle.af_script.specs.Data.{ScriptData};
ghost use Rattle.af_session.specs.Noted.{NotesFrames};
ghost use Rattle.af_session.specs.Together.{SessionState};
ghost use Rattle.af_side_by_side.specs.Logging.{LogsPlay};
ghost use Rattle.af_side_by_side.specs.SideBySide.{all_noted};

use crate::noted::Noted;
use crate::piece::Piece;
use af_base::{ClientCall, Memory};
use af_io::{Gate, Store, StoreError};
use af_model::Rounds;
use af_party::Party;
use af_rendering::{Stage, Target, play_rounds};
use af_session::{Parties, Rig, Room, copied_turn, know_frames};
use af_side_by_side::round_of_all;
use std::alloc::Global;
use std::marker::Brand;
use std::thread::Threads;

// A copy of the calls of each client's last turn. Memory if an allocation was refused; no other refusal comes.
fn calls_of_all(alloc: Global, clients: &[Party]) -> Result<Vec<Vec<ClientCall>>, Memory>
    ensures { IfOk result (λ v. map (λ c. c.items) v.items ≡ map (λ p. p.calls.items) clients.now) }
{
    let mut calls = Vec::with_capacity(alloc, clients.len())?;
    for i in 0..clients.len() {
        let client = &clients[i];
        let mut made = Vec::new(alloc);
        made.extend_from_slice(client.calls.as_slice())?;
        calls.push_reserved(made);
    }
    Ok(calls)
}

// Whether all of these clients have ended.
fn clients_ended(clients: &[Party]) -> bool
    ensures { result ≡ list_all (λ p. p.client.ended) clients.now }
{
    clients.iter().all(|client| client.has_ended())
}

/// Whether all parties have ended.
pub fn have_ended(parties: &Parties) -> bool
    ensures { result ≡ all_ended parties.now }
{
    parties.normal.has_ended() && parties.fast.has_exited() && clients_ended(&parties.clients)
}

// Notes a round of all parties that is over. The caller says whether the normal mixer had ended before the round, and how many entries the fast mixer's log had. Memory if an allocation was refused; no other refusal comes.
fn note_all(
    parties: &Parties,
    alloc: Global,
    had_ended: bool,
    entries: usize,
    rounds: &mut Rounds,
) -> Result<(), Memory>
    requires more { entries ≤ length parties.now.fast.log.entries }
    requires few { cycles_of rounds.old.rounds + length parties.now.fast.log.entries < 2 ^ 62 }
    ensures noted { (s : SessionState) → had_ended ≡ s.normal.ended → entries ≡ length s.fast.log.entries
        → OnOk result (NotesRound (all_noted s parties.now) rounds.old rounds.new) }
    ensures frames { (s : SessionState) → had_ended ≡ s.normal.ended → OnOk result (NotesFrames (all_noted s parties.now)) }
{
    let calls = calls_of_all(alloc, &parties.clients)?;
    let cycles = parties.fast.log().len() - entries;
    if had_ended {
        return rounds.push(calls, None, cycles);
    }
    let entry = copied_turn(alloc, parties.normal.last())?;
    rounds.push(calls, Some(entry), cycles)
}

// Whether some party goes on, and the log has room for an entry.
fn is_going(parties: &Parties, piece: &Piece<'_>) -> bool
    requires cycles { piece.now.script.now.cycles ≡ parties.now.fast.cycles }
    ensures yes { result ≡ true → GoesOn parties.now }
    ensures no { result ≡ false → all_ended parties.now ≡ false → is_full parties.now ≡ true }
{
    !have_ended(parties) && parties.fast.log().len() != piece.script.cycles() as usize
}

// A round of all parties, and its note. Memory if an allocation was refused: the round was played, but not noted.
fn round_noted<R: Threads + Sync, G: Gate>(
    noted: &mut Noted,
    parties: &mut Parties,
    room: &mut Room,
    rt: &R,
    alloc: Global,
    rig: &Rig<'_, '_, '_>,
    gate: &G,
) -> Result<(), Memory>
    requires far { (script : ScriptData) × (kept : Option ℕ) × HasPlayedRounds script kept rig.now noted.old parties.old room.old.tally }
    requires going { GoesOn parties.old }
    requires room { HasRoomToWait parties.old room.old }
    ensures { (script : ScriptData) (kept : Option ℕ) → HasPlayedRounds script kept rig.now noted.old parties.old room.old.tally
        → AllPlayedRound script kept rig.now noted.old noted.new parties.old parties.new room.old room.new result }
{
    let had_ended = parties.normal.has_ended();
    let entries = parties.fast.log().len();
    round_of_all(parties, rt, rig, room, &mut noted.logging, gate);
    note_all(parties, alloc, had_ended, entries, &mut noted.rounds)
}

/// Makes the file, and plays rounds of all parties until all have ended, or the log has all of its entries. Each round is noted, in the tally too, and the bytes of its mixed cycles go to the file, in pieces of several rounds.
///
/// What was played is a run of all parties with the rounds noted, and the file holds its sound. After a fault of the store (Store), or if an allocation was refused (Memory), some first rounds were played, the last of which may not be noted: no file has changed, or the file holds a front of their sound.
pub(crate) fn play_to_end<R: Threads + Sync, S: Store, G: Gate>(
    stage: &mut Stage,
    rt: &R,
    alloc: Global,
    piece: &Piece<'_>,
    store: &mut S,
    noted: &mut Noted,
    gate: &G,
) -> Result<(), StoreError>
    requires new { IsNewStage piece.now.script.now stage.old }
    requires files { HaveFiles (given_by piece.now) }
    requires none { NotesNone (length piece.now.script.now.tracks) noted.old }
    requires log { LogsPlay (kept_in piece.now.room) stage.old.parties.fast [] noted.old.logging }
    ensures played { OnOk result (HasPlayed piece.now.script.now piece.now.files.now noted.new.rounds stage.new) }
    ensures written { S.told store.old → OnOk result (SetsSound piece.now stage.new (S.files store.old) (S.files store.new)) }
    ensures left { S.told store.old → OnErr result (LeavesPiece piece.now (S.files store.old) (S.files store.new)) }
    ensures tells { S.told store.old → S.told store.new }
    ensures cause { HasCause (S.faults store.old) (S.faults store.new) result }
    ensures log { OnOk result (LogsOn (kept_in piece.now.room) noted.new stage.new) }
{
    let Stage {
        shared,
        parties,
        room,
    } = stage;
    let links = shared.links();
    let tracks = piece.script.tracks();
    let files = piece.files;
    let rig = &Rig {
        links,
        tracks,
        files,
    };
    let goes_on = |_: &Noted, parties: &Parties| -> bool
        requires { piece.now.script.now.cycles ≡ parties.now.fast.cycles }
        ensures yes { result ≡ true → GoesOn parties.entry.now }
        ensures no { result ≡ false → all_ended parties.entry.now ≡ false → is_full parties.entry.now ≡ true }
    { is_going(parties, piece) };
    let round = |noted: &mut Noted, parties: &mut Parties, room: &mut Room| -> Result<(), Memory>
        requires { (script : ScriptData) × (kept : Option ℕ) × HasPlayedRounds script kept rig.now noted.now parties.now room.now.tally
            × GoesOn parties.now × HasRoomToWait parties.now room.now }
        ensures { (script : ScriptData) (kept : Option ℕ) → HasPlayedRounds script kept rig.entry.now noted.entry.now parties.entry.now room.entry.now.tally
            → AllPlayedRound script kept rig.entry.now noted.entry.now noted.exit.now parties.entry.now parties.exit.now room.entry.now room.exit.now result }
    { round_noted(noted, parties, room, rt, alloc, rig, gate) };
    let sent = play_rounds::<Brand, _, _, _, _>(
        &goes_on,
        &round,
        noted,
        parties,
        room,
        store,
        &Target { name: piece.name },
    );
    let log = parties.fast.log();
    know_frames(log.frames());
    noted.rounds.know_numbers(log);
    sent
}
