//! The normal mixer, and what contracts see of it.
ghost use Rattle.std.specs.Prelude.{◌≡◌, ◌≤◌, length, slice_get, MatchOption, Some};
ghost use Rattle.std.specs.Borrow.{sem};
ghost use Rattle.af_normal.specs.Lends.{lends_flag, lends_hand};

use af_base::{Frame, NormalTakes, TrackTurns, TurnEntry};
use af_cblk::FlagHand;
use af_gain::Sum;
use af_life::{Setting, TrackKept};
use af_link::{PipeIn, ReportReader, StreamNames};
use af_server::Server;
use af_stateq::Mutator;
use std::marker::Model;

/// The hand of a track's stream block. The number of the track stands beside it, since the hand has no bytes, and an element of such a list can't be lent. Contracts see the hand.
#[derive(Drop)]
pub struct TrackHand {
    pub(crate) track: u32,
    pub(crate) flag: FlagHand,
}

impl Model for TrackHand {
    ghost use Rattle.af_cblk.specs.Sides.{HandSide};

    ghost Value = { HandSide };

    ghost view = { λ h. h.flag };
}

/// The mixer that hears of all tracks, sets what the fast mixer does, and mixes the tracks that have no slot into the pipe (AOSP's MixerThread).
#[derive(Drop)]
pub struct NormalMixer {
    pub(crate) frames: u32,
    pub(crate) normal: u32,
    pub(crate) settings: Vec<Setting>,
    pub(crate) tracks: Vec<TrackKept>,
    // The stream proxies that are home.
    pub(crate) streams: Vec<Option<Server>>,
    pub(crate) commands: Vec<Server>,
    // The hands are there from the first turn on.
    pub(crate) hands: Vec<TrackHand>,
    pub(crate) mutator: Mutator<Server, StreamNames>,
    pub(crate) ends: (ReportReader, PipeIn),
    pub(crate) entry: TurnEntry,
    // What fills the next entry.
    pub(crate) spare_turns: TrackTurns,
    pub(crate) spare_takes: NormalTakes,
    pub(crate) ended: bool,
    // Whether the last state pushed is an Exit.
    pub(crate) exits: bool,
    pub(crate) turns: u64,
    pub(crate) sums: Vec<Sum>,
    pub(crate) buffer: Vec<Frame>,
}

impl Model for NormalMixer {
    ghost use Rattle.std.specs.Prelude.{◌≡◌, ◌*◌, ◌≤◌, length};
    ghost use Rattle.std.specs.Vec.{vec_capacity};
    ghost use Rattle.af_life.specs.Edits.{commands_exit};
    ghost use Rattle.af_normal.specs.State.{NormalState};

    ghost Value = { NormalState };

    ghost view = { λ m. record { frames = m.frames; normal = m.normal; settings = m.settings.items; tracks = m.tracks.items; streams = m.streams.items; commands = m.commands.items; hands = m.hands.items; mutator = m.mutator; reader = m.ends.0; pipe = m.ends.1; entry = m.entry; spare_turns = m.spare_turns; spare_takes = m.spare_takes; ended = m.ended; turns = m.turns } };

    ghost invariant = { λ m. (length m.sums.items ≡ m.normal * m.frames) × (length m.buffer.items ≡ m.normal * m.frames) × (m.exits ≡ commands_exit m.mutator.past.last) × (length m.tracks.items ≤ vec_capacity m.hands) };
}

impl NormalMixer {
    /// What the last turn saw and did. Before the first turn it is the entry of a turn that has ended.
    pub fn last(&self) -> &TurnEntry
        ensures { result.now ≡ self.now.entry }
    {
        &self.entry
    }

    /// Whether a turn answered that it has ended.
    pub fn has_ended(&self) -> bool
        ensures { result ≡ self.now.ended }
    {
        self.ended
    }

    /// How many turns were made.
    pub fn turns(&self) -> u64
        ensures { result ≡ self.now.turns }
    {
        self.turns
    }

    /// The hand of a track's stream block, by which an underrun is shown while the stream proxy is elsewhere. None exactly before the first turn.
    pub fn hand(&mut self, track: u32) -> Option<&mut TrackHand>
        ensures* lends { sem 𝓛 (lends_hand self.entry track result) }
        ensures value { MatchOption result (length self.entry.now.hands ≤ track) (λ h. slice_get self.entry.now.hands track ≡ Some h.now) }
    {
        self.hands.get_mut(track as usize)
    }
}

impl TrackHand {
    /// Lends the hand to a meeting.
    pub fn flag(&mut self) -> &mut FlagHand
        ensures value { result.now ≡ self.entry.now }
        ensures* lends { sem 𝓛 (lends_flag self.entry result) }
    {
        &mut self.flag
    }
}
