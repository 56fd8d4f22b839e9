//! A script's turns from first to last, one after the other.
ghost use Rattle.std.specs.Prelude.{◌^◌, All, ◌≡◌, ◌<◌, ◌≤◌, ℕ, true, false, [], Some, length, IfOk, IsOk, OnOk, OnErr};
ghost use Rattle.af_io.specs.Causes.{HasCause};
ghost use Rattle.af_io.specs.Files.{SetsFile};
ghost use Rattle.af_model.specs.JournalForm.{IsJournal, IsWhole};
ghost use Rattle.af_model.specs.Journals.{JournalData, RoundsNoted, journal_of};
ghost use Rattle.af_script.specs.Data.{ScriptData};
ghost use Rattle.af_session.specs.Ends.{command_proxy, ends_from, stream_proxy};
ghost use Rattle.af_rendering.specs.Rendered.{ComesTo, HaveFiles, LeavesSound};
ghost use Rattle.af_session.specs.Shown.{released_by, summary_told};
ghost use Rattle.af_rendering.specs.SoFar.{HasPlayedTo, TurnPlayed};
ghost use Rattle.af_rendering.specs.Stages.{HasRendered, HasRoomToWait, IsNewStage, IsNoted};
ghost use Rattle.af_tally.specs.Sound.{pcm_of};
ghost use Rattle.af_runs.specs.Pcm.{journal_pcm};
ghost use Rattle.af_tally.specs.Summaries.{Shown, summary_of};
ghost use Rattle.af_tally.specs.Tallies.{IsTally};

use crate::playing::play_turn;
use crate::rounds::{Target, play_rounds};
use crate::staging::Stage;
use af_base::{Items, Memory};
use af_client::Client;
use af_io::{Pcm, Store, StoreError};
use af_model::{Journal, Rounds, know_log};
use af_normal::NormalMixer;
use af_party::Party;
use af_script::Script;
use af_session::{Parties, Rig, Room, know_frames};
use af_tally::{Costs, Summary, Tally};
use std::alloc::Global;
use std::marker::{Brand, Model};
use std::mem::drop;

/// The client proxies and the normal mixer of a run that is over. Contracts see the lists that the passes of the proxies and the mixer keep.
#[derive(Drop)]
pub struct Ends {
    clients: Vec<Party>,
    normal: NormalMixer,
}

impl Model for Ends {
    ghost use Rattle.af_session.specs.Ends.{EndsState};

    ghost Value = { EndsState };

    ghost view = { λ e. record { clients = e.clients.items; normal = e.normal } };
}

impl Ends {
    /// The client proxy of the stream's block of a track.
    pub fn stream(&self, track: u32) -> &Client
        requires { track < length self.now.clients }
        ensures { stream_proxy self.now track ≡ Some result.now }
    {
        &self.clients[track as usize].stream
    }

    /// The client proxy of the command block of a track.
    pub fn command(&self, track: u32) -> &Client
        requires { track < length self.now.clients }
        ensures { command_proxy self.now track ≡ Some result.now }
    {
        &self.clients[track as usize].command
    }

    /// The normal mixer.
    pub fn normal(&self) -> &NormalMixer
        ensures { result.now ≡ self.now.normal }
    {
        &self.normal
    }
}

/// What a render comes to: its summary and the ends of its parties. Its journal stands in contracts alone, and no code makes it.
#[derive(Drop)]
pub struct Outcome {
    pub summary: Summary,
    pub ends: Ends,
}

/// What was played: its journal, its summary, and the ends of its parties.
#[derive(Drop)]
pub struct Played {
    pub journal: Journal,
    pub summary: Summary,
    pub ends: Ends,
}

// Puts how many frames the client of each track has released into a list with room for them.
fn push_released(clients: &[Party], released: &mut Items<u64>)
    requires room { length clients.now ≤ released.old.room }
    requires empty { released.old.items ≡ [] }
    ensures { released.new.items ≡ released_by clients.now }
{
    for i in 0..clients.len() {
        released.push(clients[i].released());
    }
}

// The summary of what a tally noted and of the frames that the clients released. The list `released` has room for a count of each client.
fn sum_up(parties: &Parties, tally: &Tally, released: &mut Items<u64>) -> Summary
    requires room { length parties.now.clients ≤ released.old.room }
    requires empty { released.old.items ≡ [] }
    requires count { length tally.now.tracks ≡ length parties.now.clients }
    requires small { All (λ p. p.stream.released < 2 ^ 58) parties.now.clients }
    ensures { (run : Shown) → IsTally run tally.now → result ≡ summary_of run (released_by parties.now.clients) }
{
    push_released(&parties.clients, released);
    tally.summary(released.as_slice())
}

/// The journal of parties whose rounds were noted, and the ends of the parties.
pub fn hand_over(parties: Parties, rounds: Rounds) -> (Journal, Ends)
    requires whole { IsWhole rounds parties.fast.log }
    requires form { IsJournal (journal_of rounds parties.fast.log) }
    ensures journal { result.0 ≡ journal_of rounds parties.fast.log }
    ensures ends { result.1 ≡ ends_from parties }
{
    let Parties {
        clients,
        normal,
        fast,
    } = parties;
    (
        Journal::new(rounds, fast.into_log()),
        Ends { clients, normal },
    )
}

// The ends of parties. The fast mixer and its log are dropped.
fn ends_of(parties: Parties) -> Ends
    ensures { result ≡ ends_from parties }
{
    let Parties {
        clients,
        normal,
        fast,
    } = parties;
    drop(fast);
    Ends { clients, normal }
}

// What parties hand back, with the rounds that were noted, and the summary.
fn hand_back(parties: Parties, rounds: Rounds, summary: Summary) -> Played
    requires whole { IsWhole rounds parties.fast.log }
    requires form { IsJournal (journal_of rounds parties.fast.log) }
    ensures journal { result.journal ≡ journal_of rounds parties.fast.log }
    ensures summary { result.summary ≡ summary }
    ensures ends { result.ends ≡ ends_from parties }
{
    let (journal, ends) = hand_over(parties, rounds);
    Played {
        journal,
        summary,
        ends,
    }
}

impl Stage {
    // Makes the file, and plays all turns of a script by its new parties. No round is kept.
    fn play_turns<S: Store>(
        &mut self,
        script: &Script,
        files: &[Pcm],
        store: &mut S,
        name: &str,
    ) -> Result<(), StoreError>
        requires new { IsNewStage script.now self.old }
        requires files { HaveFiles (record { tracks = script.now.tracks; files = files.now }) }
        ensures rendered { OnOk result ((rounds : RoundsNoted) × HasRendered script.now files.now rounds self.new) }
        ensures written { S.told store.old
            → OnOk result (SetsFile (S.files store.old) name.now (Some (pcm_of script.now.frames self.new.parties.fast.log)) (S.files store.new)) }
        ensures left { S.told store.old → OnErr result (LeavesSound script.now files.now name.now (S.files store.old) (S.files store.new)) }
        ensures tells { S.told store.old → S.told store.new }
        ensures cause { HasCause (S.faults store.old) (S.faults store.new) result }
    {
        let Stage {
            shared,
            parties,
            room,
        } = self;
        let links = shared.links();
        let tracks = script.tracks();
        let rig = &Rig {
            links,
            tracks,
            files,
        };
        let goes_on = |played: &usize, _: &Parties| -> bool
            ensures yes { result ≡ true → played.entry.now < length script.entry.now.turns }
            ensures no { result ≡ false → length script.entry.now.turns ≤ played.entry.now }
        { *played < script.turns().len() };
        let round = |played: &mut usize, parties: &mut Parties, room: &mut Room| -> Result<
            (),
            Memory,
        >
            requires { HasPlayedTo script.now rig.now played.now parties.now room.now.tally
                × (played.now < length script.now.turns) × HasRoomToWait parties.now room.now }
            ensures { OnOk result (TurnPlayed script.entry.now rig.entry.now played.entry.now played.exit.now
                parties.entry.now parties.exit.now room.entry.now room.exit.now) × IsOk result }
        {
            play_turn(script, rig, played, parties, room);
            Ok(())
        };
        let mut played = 0;
        let sent = play_rounds::<Brand, _, _, _, _>(
            &goes_on,
            &round,
            &mut played,
            parties,
            room,
            store,
            &Target { name },
        );
        let log = parties.fast.log();
        know_frames(log.frames());
        know_log(log);
        sent
    }

    // What a render comes to, from a stage on which all turns were played.
    fn close(mut self) -> Outcome
        requires { (script : ScriptData) × (rounds : RoundsNoted) × IsNoted script rounds self }
        ensures ends { result.ends ≡ ends_from self.parties }
        ensures summary { (script : ScriptData) (rounds : RoundsNoted) → IsNoted script rounds self
            → result.summary ≡ summary_told script.frames (journal_of rounds self.parties.fast.log) result.ends }
    {
        let summary = sum_up(&self.parties, &self.room.tally, &mut self.room.released);
        Outcome {
            summary,
            ends: ends_of(self.parties),
        }
    }

    /// The journal of the rounds that were played on a stage, the summary and the ends.
    pub fn finish(mut self, rounds: Rounds) -> Played
        requires { (script : ScriptData) × IsNoted script rounds self }
        ensures journal { result.journal ≡ journal_of rounds self.parties.fast.log }
        ensures ends { result.ends ≡ ends_from self.parties }
        ensures summary { (script : ScriptData) → IsNoted script rounds self → result.summary ≡ summary_told script.frames result.journal result.ends }
    {
        let summary = sum_up(&self.parties, &self.room.tally, &mut self.room.released);
        hand_back(self.parties, rounds, summary)
    }
}

/// Plays the turns of a script one after the other, each as a round after which all parties meet, and writes the sound to the file of this name. All blocks, logs and mixers are made before the file is; from then on no memory is taken.
///
/// What was played is a turn run of the script and its files. Its journal is nowhere written down. `played` says that there is one: its rounds are those of the run, and the summary is that of this journal. `steps` gets the word steps that its cycles took, one after the other: each at most `(m + 1) * frames + 7 * m + 6` with m tracks in its state. If the store says what its files hold, the file is the sound of this journal. That each track on whose blocks nothing was poked is spared, whatever clients stored in their words, is a law on what a render hands back (`a_render_spares_what_nobody_poked` of af_parties_law). After a fault of the store, or if an allocation was refused, no file has changed, or the file holds a front of the sound of some first turns.
pub fn render<S: Store>(
    alloc: Global,
    script: &Script,
    files: &[Pcm],
    store: &mut S,
    name: &str,
    steps: &mut Costs,
) -> Result<Outcome, StoreError>
    requires { HaveFiles (record { tracks = script.now.tracks; files = files.now }) }
    ensures played { IfOk result (λ o. (journal : JournalData) × ComesTo script.now files.now journal o.summary o.ends steps.new.items
        × (S.told store.old → SetsFile (S.files store.old) name.now (Some (journal_pcm script.now.frames journal)) (S.files store.new))) }
    ensures left { S.told store.old → OnErr result (LeavesSound script.now files.now name.now (S.files store.old) (S.files store.new)) }
    ensures tells { S.told store.old → S.told store.new }
    ensures cause { HasCause (S.faults store.old) (S.faults store.new) result }
{
    let mut stage = Stage::make(alloc, script)?;
    match stage.play_turns(script, files, store, name) {
        Ok(()) => {
            *steps = stage.room.tally.steps();
            Ok(stage.close())
        }
        Err(error) => {
            drop(stage);
            Err(error)
        }
    }
}
