//! A track as a journal tells it: its client and its two blocks.
ghost use Rattle.std.specs.Prelude.{◌≡◌, ◌≢◌, ◌+◌, ◌≤◌, ◌<◌, ◌^◌, MatchBool, IfOk, OnOk, List, ℕ, length, map, take, drop, true};
ghost use Rattle.af_base.specs.Sample.{packed_word};
ghost use Rattle.af_runs.specs.ClientTurns.{LegalClientTurn, Track, after_call, after_calls, is_of_commands, new_side};
ghost use Rattle.af_runs.specs.Clients.{new_client};
ghost use Rattle.af_script.specs.Bounds.{most_buffer};
ghost use Rattle.af_script.specs.Ops.{cells_of};
ghost use Rattle.af_script.specs.declared.op.Op.{Op as OpSeen};
ghost use Rattle.af_runs.specs.Sessions.{command_shape, stream_shape};
ghost use Rattle.af_judge.specs.Blocks.{new_judged};
ghost use Rattle.af_judge.specs.Tracks.{IsCallOf, KeepsTrack, Makes, SameServers, TurnEnds, blocks_told};

use crate::block_judge::BlockJudge;
use crate::client_judge::is_of_commands;
use crate::turn_judge::ClientJudge;
use af_base::{ClientCall, Frame, Memory};
use af_model::Shape;
use af_script::{Op, TrackSpec};
use std::alloc::Global;

// The most calls of a turn.
const MOST_CALLS: usize = 64;

// The calls of a client that are few enough to be counted.
const FEW_CALLS: u64 = 0x1000_0000;

// The frames of a command block.
const COMMAND_FRAMES: u32 = 128;

/// A track: its client and its two blocks.
#[derive(Drop)]
pub struct TrackJudge {
    client: ClientJudge,
    pub stream: BlockJudge,
    pub commands: BlockJudge,
}

// The cells of a block of so many frames: the least power of two that is not below them.
fn cells_of(frames: u32) -> u32
    requires { frames ≤ most_buffer }
    ensures cells { result ≡ cells_of frames }
    ensures some { result ≢ 0 }
    ensures bound { result ≤ most_buffer }
{
    frames.next_power_of_two()
}

// The sizes of a track's stream block: by the second version of scripts its flush words carry positions.
fn stream_shape(version: u32, spec: &TrackSpec) -> Shape
    requires { spec.now.frames ≤ most_buffer }
    ensures shape { result ≡ stream_shape version spec.now }
    ensures cells { result.cells ≢ 0 }
    ensures wrap { result.wrap ≤ 2 ^ 31 }
{
    let cells = cells_of(spec.frames);
    let wrap = if version == 2 { cells * 4 } else { 0 };
    Shape {
        frames: spec.frames,
        cells,
        base: spec.base,
        wrap,
    }
}

// The sizes of each command block.
fn command_shape() -> Shape
    ensures { result ≡ command_shape }
{
    Shape {
        frames: COMMAND_FRAMES,
        cells: COMMAND_FRAMES,
        base: 0,
        wrap: 0,
    }
}

// The frames of a list from a place on, so many, or those that there are.
fn frames_from(frames: &[Frame], at: u64, count: u32) -> &[Frame]
    ensures { result.now ≡ take count (drop at frames.now) }
{
    let len = frames.len() as u64;
    let first = at.min(len);
    let end = first + u64::from(count).min(len - first);
    &frames[first as usize..end as usize]
}

// The frames that a Put releases, if so many were released before.
fn frames_put(file: &[Frame], released: u64, count: u32) -> &[Frame]
    ensures { map packed_word result.now ≡ take count (drop released (map packed_word file.now)) }
{
    frames_from(file, released, count)
}

impl TrackJudge {
    /// A track of a script of this version before its first turn. `stream` and `commands` say of the two blocks that no poke of it is told in the whole journal.
    pub fn new(
        alloc: Global,
        version: u32,
        spec: &TrackSpec,
        stream: bool,
        commands: bool,
    ) -> TrackJudge
        requires { spec.now.frames ≤ most_buffer }
        ensures kept { (ops : List OpSeen) (words : List ℕ) → KeepsTrack ops result (record { file = words; client = new_client ops; stream = new_side (stream_shape version spec.now); commands = new_side command_shape }) }
        ensures blocks { (result.stream ≡ new_judged (stream_shape version spec.now) stream) × (result.commands ≡ new_judged command_shape commands) }
        ensures wrap { (stream_shape version spec.now).wrap ≤ 2 ^ 31 }
    {
        let shape = stream_shape(version, spec);
        TrackJudge::of(alloc, shape, stream, commands)
    }

    // A track before its first turn, by the sizes of its stream block.
    pub fn of(alloc: Global, shape: Shape, stream: bool, commands: bool) -> TrackJudge
        requires cells { shape.cells ≢ 0 }
        requires wrap { shape.wrap ≤ 2 ^ 31 }
        ensures kept { (ops : List OpSeen) (words : List ℕ) → KeepsTrack ops result (record { file = words; client = new_client ops; stream = new_side shape; commands = new_side command_shape }) }
        ensures blocks { (result.stream ≡ new_judged shape stream) × (result.commands ≡ new_judged command_shape commands) }
    {
        TrackJudge {
            client: ClientJudge::new(shape, command_shape()),
            stream: BlockJudge::new(alloc, shape, stream),
            commands: BlockJudge::without_hand(alloc, command_shape(), commands),
        }
    }

    /// The track's client has ended.
    pub fn has_ended(&self) -> bool
        ensures { result ≡ self.now.client.client.ended }
    {
        self.client.has_ended()
    }

    /// Ends the track's client.
    pub fn end(&mut self)
        ensures { self.new ≡ record self.old { client = record self.old.client { client = record self.old.client.client { ended = true } } } }
    {
        self.client.end();
    }

    // Notes a call that was made when the client had released so many frames of its file.
    fn tell(
        &mut self,
        was_shut: bool,
        file: &[Frame],
        released: u64,
        call: ClientCall,
    ) -> Result<(), Memory>
        ensures told { OnOk result (self.new ≡ blocks_told was_shut released (map packed_word file.now) call self.old) }
        ensures client { self.new.client ≡ self.old.client }
    {
        match call {
            ClientCall::Put { count, .. } => {
                self.stream.called(was_shut, call)?;
                self.stream
                    .release_frames(frames_put(file, released, count))?;
                Ok(())
            }
            ClientCall::Sent { code, argument, .. } => {
                self.commands.called(was_shut, call)?;
                self.commands.release(code, argument)
            }
            _ if is_of_commands(call) => self.commands.called(was_shut, call),
            _ => self.stream.called(was_shut, call),
        }
    }

    // Whether the client makes this call next, and answers right. It is noted then.
    fn call(&mut self, ops: &[Op], file: &[Frame], call: ClientCall) -> Result<bool, Memory>
        requires few { self.old.client.calls < 2 ^ 29 }
        ensures calls { self.new.client.calls ≤ self.old.client.calls + 1 }
        ensures servers { OnOk result (SameServers self.old self.new) }
        ensures made { IfOk result (λ yes. (t : Track) → t.file ≡ map packed_word file.now → KeepsTrack ops.now self.old t → MatchBool yes (IsCallOf t call × KeepsTrack ops.now self.new (after_call t call)) (IsCallOf t call → ⊥)) }
    {
        let was_shut = self.client.is_shut_for(call);
        let released = self.client.released();
        if !self.client.call(ops, file.len() as u64, call) {
            return Ok(false);
        }
        self.tell(was_shut, file, released, call)?;
        Ok(true)
    }

    // Whether the client makes these calls, one after the other.
    fn makes(&mut self, ops: &[Op], file: &[Frame], calls: &[ClientCall]) -> Result<bool, Memory>
        requires few { self.old.client.calls + length calls.now ≤ 2 ^ 29 }
        ensures servers { OnOk result (SameServers self.old self.new) }
        ensures made { IfOk result (λ yes. Makes yes ops.now (map packed_word file.now) calls.now self.old self.new) }
    {
        for call in calls {
            if !self.call(ops, file, *call)? {
                return Ok(false);
            }
        }
        Ok(true)
    }

    // Whether the turn ends after these calls, so many.
    fn ends(&mut self, ops: &[Op], calls: usize) -> bool
        requires { calls ≤ 64 }
        ensures servers { SameServers self.old self.new }
        ensures ends { TurnEnds result calls ops.now self.old self.new }
    {
        if calls == MOST_CALLS {
            self.client.cut_turn(ops);
            return true;
        }
        self.client.ends_turn(ops)
    }

    /// Whether these calls are a turn of the track's client. If they are they are noted, and the client is that of its next turn; else the client and what it did are of no more use, and its servers are as before. More calls than can be counted are refused as memory.
    pub fn client_turn(
        &mut self,
        ops: &[Op],
        file: &[Frame],
        calls: &[ClientCall],
    ) -> Result<bool, Memory>
        ensures servers { OnOk result (SameServers self.old self.new) }
        ensures turn { IfOk result (λ yes. (t : Track) → t.file ≡ map packed_word file.now → KeepsTrack ops.now self.old t → MatchBool yes (LegalClientTurn t calls.now × KeepsTrack ops.now self.new (after_calls t calls.now)) (LegalClientTurn t calls.now → ⊥)) }
    {
        if calls.len() > MOST_CALLS {
            return Ok(false);
        }
        if self.client.calls() > FEW_CALLS {
            return Err(Memory);
        }
        if !self.makes(ops, file, calls)? {
            return Ok(false);
        }
        Ok(self.ends(ops, calls.len()))
    }
}
