//! How a normal mixer is made.
ghost use Rattle.std.specs.Prelude.{◌≡◌, false, ◌+◌, ◌*◌, ◌<◌, ◌≤◌, ◌++◌, ◌∷◌, [], length, map, replicate, All, IfOk, IfErr, Some};
ghost use Rattle.std.specs.Vec.{vec_capacity};
ghost use Rattle.af_base.specs.Turn.{ended_turn, take_seen, track_seen, turn_of};
ghost use Rattle.af_life.specs.Kept.{new_track};
ghost use Rattle.af_life.specs.Edits.{commands_exit};
ghost use Rattle.af_normal.specs.AllMixed.{HasFrames};
ghost use Rattle.af_link.specs.declared.links.Links.{Links};
ghost use Rattle.af_normal.specs.Making.{AreNew, IsMade, with_track};
ghost use Rattle.af_normal.specs.Order.{IsInOrder};
ghost use Rattle.af_normal.specs.Ready.{HaveRoom};

use crate::commands::MOST_LOOKS;
use crate::mixer::{NormalMixer, TrackHand};
use af_base::{
    CommandLooks, Frame, FrameList, Memory, NormalTake, NormalTakes, Seen, SlotEntry, TrackTurn,
    TrackTurns, TurnEntry,
};
use af_gain::Sum;
use af_life::{Setting, TrackKept, new_track};
use af_link::{PipeIn, ReportReader, StreamNames};
use af_server::Server;
use af_stateq::Mutator;
use std::alloc::Global;
use std::marker::Model;

/// What a track is made of: whether it may have a slot, how it is mixed, and the proxies of its two blocks.
#[derive(Drop)]
pub struct TrackSetup {
    pub fast: bool,
    pub mono: bool,
    /// A 4.12 scale of its gains, at most 0x1000.
    pub scale: u16,
    pub stream: Server,
    pub command: Server,
}

/// The tracks of a mixer, in order. Contracts see what each is, its stream proxy, which is there, and its command proxy.
#[derive(Drop)]
pub struct Tracks {
    settings: Vec<Setting>,
    streams: Vec<Option<Server>>,
    commands: Vec<Server>,
}

impl Model for Tracks {
    ghost use Rattle.std.specs.Prelude.{◌≡◌, length, is_some, All, true};
    ghost use Rattle.af_normal.specs.Making.{TrackList};

    ghost Value = { TrackList };

    ghost view = { λ t. record { settings = t.settings.items; streams = t.streams.items; commands = t.commands.items } };

    ghost invariant = { λ t. (length t.streams.items ≡ length t.settings.items) × (length t.commands.items ≡ length t.settings.items) × All (λ stream. is_some stream ≡ true) t.streams.items };
}

impl Tracks {
    /// No tracks.
    pub fn empty(alloc: Global) -> Tracks
        ensures { result ≡ record { settings = []; streams = []; commands = [] } }
    {
        Tracks {
            settings: Vec::new(alloc),
            streams: Vec::new(alloc),
            commands: Vec::new(alloc),
        }
    }

    /// Adds a track behind the others. Memory is its only refusal, and leaves the lists as they were.
    pub fn push(&mut self, track: TrackSetup) -> Result<(), Memory>
        ensures added { IfOk result (λ _. self.new ≡ with_track track self.old) }
        ensures same { IfErr result (λ _. self.new ≡ self.old) }
    {
        self.settings.reserve(1)?;
        self.streams.reserve(1)?;
        self.commands.reserve(1)?;
        let TrackSetup {
            fast,
            mono,
            scale,
            stream,
            command,
        } = track;
        self.settings.push_reserved(Setting { fast, mono, scale });
        self.streams.push_reserved(Some(stream));
        self.commands.push_reserved(command);
        Ok(())
    }
}

// So many records of tracks, each with room for the looks of a turn.
fn spare_turns(alloc: Global, count: usize) -> Result<TrackTurns, Memory>
    ensures { IfOk result (λ l. (length l.items ≡ count) × (l.room ≡ count) × HaveRoom l.items) }
{
    let mut turns = TrackTurns::with_room(alloc, count)?;
    for _made in 0..count {
        turns.push(TrackTurn {
            looks: CommandLooks::with_room(alloc, MOST_LOOKS)?,
            status: None,
            disabled: false,
        });
    }
    Ok(turns)
}

// So many takes, each with room for the frames of a buffer.
fn spare_takes(alloc: Global, count: usize, asked: usize) -> Result<NormalTakes, Memory>
    ensures { IfOk result (λ l. (length l.items ≡ count) × (l.room ≡ count) × All (HasFrames asked) l.items) }
{
    let mut takes = NormalTakes::with_room(alloc, count)?;
    for _made in 0..count {
        takes.push(NormalTake {
            track: 0,
            slot: SlotEntry {
                gains: 0,
                flush: 0,
                rear: 0,
                seen: Seen::Absent,
                first: 0,
            },
            frames: FrameList::with_room(alloc, asked)?,
        });
    }
    Ok(takes)
}

// So many sums of 0.
fn no_sums(alloc: Global, asked: usize) -> Result<Vec<Sum>, Memory>
    ensures { IfOk result (λ v. length v.items ≡ asked) }
{
    let mut sums = Vec::with_capacity(alloc, asked)?;
    sums.resize(asked, Sum { left: 0, right: 0 })?;
    Ok(sums)
}

// So many frames of silence.
fn silence(alloc: Global, asked: usize) -> Result<Vec<Frame>, Memory>
    ensures { IfOk result (λ v. length v.items ≡ asked) }
{
    let mut buffer = Vec::with_capacity(alloc, asked)?;
    buffer.resize(asked, Frame { left: 0, right: 0 })?;
    Ok(buffer)
}

// What is kept of a mixer's tracks, and room for their hands.
#[derive(Drop)]
struct Lives {
    tracks: Vec<TrackKept>,
    hands: Vec<TrackHand>,
}

// So many new tracks.
fn new_lives(alloc: Global, count: usize) -> Result<Lives, Memory>
    ensures tracks { IfOk result (λ l. l.tracks.items ≡ replicate count new_track) }
    ensures hands { IfOk result (λ l. l.hands.items ≡ []) }
    ensures enough { IfOk result (λ l. length l.tracks.items ≤ vec_capacity l.hands) }
{
    let tracks = vec![in alloc; new_track(); count]?;
    let hands = Vec::with_capacity(alloc, count)?;
    Ok(Lives { tracks, hands })
}

// The greatest entry of a turn, and the records of tracks and takes that go into it.
#[derive(Drop)]
struct Records {
    entry: TurnEntry,
    turns: TrackTurns,
    takes: NormalTakes,
}

// The records for so many tracks, and for a buffer of so many frames.
fn spare_records(alloc: Global, count: usize, asked: usize) -> Result<Records, Memory>
    ensures entry { IfOk result (λ r. turn_of r.entry ≡ ended_turn) }
    ensures room { IfOk result (λ r. (r.entry.tracks.room ≡ count) × (r.entry.mixes.room ≡ count)) }
    ensures turns { IfOk result (λ r. (length r.turns.items ≡ count) × (r.turns.room ≡ count) × HaveRoom r.turns.items) }
    ensures takes { IfOk result (λ r. (length r.takes.items ≡ count) × (r.takes.room ≡ count) × All (HasFrames asked) r.takes.items) }
{
    let entry = TurnEntry::with_room(alloc, count, count)?;
    let turns = spare_turns(alloc, count)?;
    let takes = spare_takes(alloc, count, asked)?;
    Ok(Records {
        entry,
        turns,
        takes,
    })
}

// What a mixer reserves: what is kept of its tracks, the records of a turn, and the sums and frames of one normal buffer.
#[derive(Drop)]
struct Reserved {
    lives: Lives,
    records: Records,
    sums: Vec<Sum>,
    buffer: Vec<Frame>,
}

// What is reserved for so many tracks, and for a buffer of so many frames.
fn reserve(alloc: Global, count: usize, asked: usize) -> Result<Reserved, Memory>
    ensures tracks { IfOk result (λ r. r.lives.tracks.items ≡ replicate count new_track) }
    ensures hands { IfOk result (λ r. r.lives.hands.items ≡ []) }
    ensures enough { IfOk result (λ r. length r.lives.tracks.items ≤ vec_capacity r.lives.hands) }
    ensures entry { IfOk result (λ r. turn_of r.records.entry ≡ ended_turn) }
    ensures room { IfOk result (λ r. (r.records.entry.tracks.room ≡ count) × (r.records.entry.mixes.room ≡ count)) }
    ensures turns { IfOk result (λ r. (length r.records.turns.items ≡ count) × (r.records.turns.room ≡ count) × HaveRoom r.records.turns.items) }
    ensures takes { IfOk result (λ r. (length r.records.takes.items ≡ count) × (r.records.takes.room ≡ count) × All (HasFrames asked) r.records.takes.items) }
    ensures sums { IfOk result (λ r. length r.sums.items ≡ asked) }
    ensures buffer { IfOk result (λ r. length r.buffer.items ≡ asked) }
{
    let sums = no_sums(alloc, asked)?;
    let buffer = silence(alloc, asked)?;
    let lives = new_lives(alloc, count)?;
    let records = spare_records(alloc, count, asked)?;
    Ok(Reserved {
        lives,
        records,
        sums,
        buffer,
    })
}

impl NormalMixer {
    /// A mixer of these tracks over its three ends, for `frames` frames a fast cycle, from 1 to 1,024, and `normal` cycles a normal buffer, from 1 to 16. No state was pushed yet.
    ///
    /// It reserves the hands, the sums and frames of one normal buffer, and the greatest entry of a turn. No other call takes memory. Memory is its only refusal.
    pub fn make(
        alloc: Global,
        frames: u32,
        normal: u32,
        tracks: Tracks,
        mutator: Mutator<Server, StreamNames>,
        reader: ReportReader,
        pipe: PipeIn,
    ) -> Result<NormalMixer, Memory>
        requires count { (1 ≤ length tracks.settings) × (length tracks.settings ≤ 32) }
        requires scales { All (λ setting. setting.scale ≤ 4096) tracks.settings }
        requires sizes { (1 ≤ frames) × (frames ≤ 1024) × (1 ≤ normal) × (normal ≤ 16) }
        requires none { commands_exit mutator.past.last ≡ false }
        ensures made { IfOk result (IsMade frames normal tracks mutator reader pipe) }
        ensures order { (links : Links) → AreNew links frames normal tracks mutator reader pipe → IfOk result (IsInOrder links) }
    {
        let Tracks {
            settings,
            streams,
            commands,
        } = tracks;
        let count = settings.len();
        let asked = (normal * frames) as usize;
        let reserved = reserve(alloc, count, asked)?;
        let Reserved {
            lives,
            records,
            sums,
            buffer,
        } = reserved;
        let Lives { tracks, hands } = lives;
        let Records {
            entry,
            turns,
            takes,
        } = records;
        Ok(NormalMixer {
            frames,
            normal,
            settings,
            tracks,
            streams,
            commands,
            hands,
            mutator,
            ends: (reader, pipe),
            entry,
            spare_turns: turns,
            spare_takes: takes,
            ended: false,
            exits: false,
            turns: 0,
            sums,
            buffer,
        })
    }
}
