//! How the tracks of a mixer are made: their blocks, the ends of their clients, and what the normal mixer gets.
ghost use Rattle.std.specs.Prelude.{◌≡◌, ◌<◌, ◌≤◌, ◌++◌, ◌∷◌, true, [], IfOk, OnOk, length, vec_len, vec_capacity, All};
ghost use Rattle.af_cblk.specs.Rule.{new_client, new_server};
ghost use Rattle.af_cblk.specs.Sides.{client_made, server_made};
ghost use Rattle.af_normal.specs.Making.{with_track};
ghost use Rattle.af_engine.specs.MixerSpecs.{IsEngineTrack};
ghost use Rattle.af_engine.specs.NewTracks.{AreNewTracks, IsCommandShape, IsNewLine, IsNewTrack, IsStreamShape};

use crate::ends::TrackEnds;
use crate::spec::EngineTrack;
use af_base::Memory;
use af_cblk::{Block, ClientPass, ServerPass};
use af_client::Client;
use af_normal::{TrackSetup, Tracks};
use af_server::Server;
use std::alloc::Global;

// The frames of a command block.
const COMMAND_FRAMES: u32 = 128;

/// A block with its two proxies.
#[derive(Drop)]
struct Line {
    block: Block,
    client: Client,
    server: Server,
}

/// A track that was made: its two blocks, the ends of its client, and what the normal mixer gets.
#[derive(Drop)]
struct NewTrack {
    stream: Block,
    command: Block,
    ends: TrackEnds,
    setup: TrackSetup,
}

/// The tracks of a mixer, each with its parts at its place.
#[derive(Drop)]
pub(crate) struct NewTracks {
    pub streams: Vec<Block>,
    pub commands: Vec<Block>,
    pub clients: Vec<TrackEnds>,
    pub tracks: Tracks,
}

// The block of a track's frames, with its passes.
fn stream_block(
    alloc: Global,
    spec: &EngineTrack,
) -> Result<(Block, ClientPass, ServerPass), Memory>
    requires { IsEngineTrack spec.now }
    ensures shape { IfOk result (λ r. IsStreamShape spec.now r.0.shape) }
    ensures made { IfOk result (λ r. (client_made r.1 ≡ r.0) × (server_made r.2 ≡ r.0)) }
    ensures new { IfOk result (λ r. (r.1.part ≡ new_client r.0.shape) × (r.2.part ≡ new_server r.0.shape) × (r.2.has_hand ≡ true)) }
{
    if spec.positional {
        Block::make_positional(alloc, spec.frames, spec.base)
    } else {
        Block::make(alloc, spec.frames, spec.base)
    }
}

// The block of a track's frames, with its proxies.
fn stream_line(alloc: Global, spec: &EngineTrack) -> Result<Line, Memory>
    requires { IsEngineTrack spec.now }
    ensures shape { IfOk result (λ l. IsStreamShape spec.now l.block.shape) }
    ensures new { IfOk result (λ l. IsNewLine l.block.shape l.block l.client l.server) }
{
    let (block, client, server) = stream_block(alloc, spec)?;
    let client = Client::with(client, &block);
    let server = Server::with(server, &block);
    Ok(Line {
        block,
        client,
        server,
    })
}

// A command block, with its proxies.
fn command_line(alloc: Global) -> Result<Line, Memory>
    ensures shape { IfOk result (λ l. IsCommandShape l.block.shape) }
    ensures new { IfOk result (λ l. IsNewLine l.block.shape l.block l.client l.server) }
{
    let (block, client, server) = Block::make(alloc, COMMAND_FRAMES, 0)?;
    let client = Client::with(client, &block);
    let server = Server::with(server, &block);
    Ok(Line {
        block,
        client,
        server,
    })
}

// The track of a place.
fn new_track(alloc: Global, track: u32, spec: &EngineTrack) -> Result<NewTrack, Memory>
    requires { IsEngineTrack spec.now }
    ensures { IfOk result (λ t. IsNewTrack track spec.now t.stream t.command t.ends t.setup) }
{
    let stream = stream_line(alloc, spec)?;
    let command = command_line(alloc)?;
    let ends = TrackEnds {
        track,
        stream: stream.client,
        command: command.client,
    };
    let setup = TrackSetup {
        fast: spec.fast,
        mono: spec.mono,
        scale: spec.scale,
        stream: stream.server,
        command: command.server,
    };
    Ok(NewTrack {
        stream: stream.block,
        command: command.block,
        ends,
        setup,
    })
}

impl NewTracks {
    // No tracks.
    fn empty(alloc: Global) -> NewTracks
        ensures blocks { (result.streams.items ≡ []) × (result.commands.items ≡ []) }
        ensures parties { (result.clients.items ≡ []) × (result.tracks ≡ record { settings = []; streams = []; commands = [] }) }
    {
        NewTracks {
            streams: Vec::new(alloc),
            commands: Vec::new(alloc),
            clients: Vec::new(alloc),
            tracks: Tracks::empty(alloc),
        }
    }

    // Takes room for one more track. It is refused only for lack of memory.
    fn reserve_one(&mut self) -> Result<(), Memory>
        ensures room { OnOk result ((vec_len self.new.streams < vec_capacity self.new.streams) × (vec_len self.new.commands < vec_capacity self.new.commands)
            × (vec_len self.new.clients < vec_capacity self.new.clients)) }
        ensures blocks { (self.new.streams.items ≡ self.old.streams.items) × (self.new.commands.items ≡ self.old.commands.items) }
        ensures parties { (self.new.clients.items ≡ self.old.clients.items) × (self.new.tracks ≡ self.old.tracks) }
    {
        self.streams.reserve(1)?;
        self.commands.reserve(1)?;
        self.clients.reserve(1)?;
        Ok(())
    }

    // Adds a track behind the others, for which there is room. It is refused only for lack of memory.
    fn push(&mut self, track: NewTrack) -> Result<(), Memory>
        requires room { (vec_len self.old.streams < vec_capacity self.old.streams) × (vec_len self.old.commands < vec_capacity self.old.commands)
            × (vec_len self.old.clients < vec_capacity self.old.clients) }
        ensures streams { self.new.streams.items ≡ self.old.streams.items ++ track.stream ∷ [] }
        ensures commands { self.new.commands.items ≡ self.old.commands.items ++ track.command ∷ [] }
        ensures clients { self.new.clients.items ≡ self.old.clients.items ++ track.ends ∷ [] }
        ensures tracks { IfOk result (λ _. self.new.tracks ≡ with_track track.setup self.old.tracks) }
    {
        let NewTrack {
            stream,
            command,
            ends,
            setup,
        } = track;
        self.streams.push_reserved(stream);
        self.commands.push_reserved(command);
        self.clients.push_reserved(ends);
        self.tracks.push(setup)
    }
}

/// The tracks of these specs, at most 32, in order. They are refused only for lack of memory.
pub(crate) fn new_tracks(alloc: Global, specs: &[EngineTrack]) -> Result<NewTracks, Memory>
    requires count { length specs.now ≤ 32 }
    requires specs { All IsEngineTrack specs.now }
    ensures { IfOk result (λ l. AreNewTracks IsNewTrack (length specs.now) specs.now l.streams.items l.commands.items l.clients.items l.tracks) }
{
    let mut made = NewTracks::empty(alloc);
    for (index, spec) in specs.iter().enumerate() {
        made.reserve_one()?;
        let track = new_track(alloc, index as u32, spec)?;
        made.push(track)?;
    }
    Ok(made)
}
