//! The ends of a mixer.
use af_client::Client;
use af_fast::FastMixer;
use af_normal::NormalMixer;
use std::marker::Model;

/// What the client of a track has: the number of its track, and its proxies of the stream's block and of the command block.
#[derive(Drop)]
pub struct TrackEnds {
    pub track: u32,
    pub stream: Client,
    pub command: Client,
}

/// The ends of a mixer: those of the clients in order of tracks, the normal mixer and the fast mixer.
#[derive(Drop)]
pub struct Engine {
    pub tracks: Vec<TrackEnds>,
    pub normal: NormalMixer,
    pub fast: FastMixer,
}

impl Model for Engine {
    ghost use Rattle.af_engine.specs.Engines.{EngineState};

    ghost Value = { EngineState };

    ghost view = { λ e. record { tracks = e.tracks.items; normal = e.normal; fast = e.fast } };
}
