//! The script of the session that the generator makes.
ghost use Rattle.std.specs.Prelude.{◌≡◌, ◌<◌, ◌++◌, ◌∷◌, [], true, IfOk};
ghost use Rattle.af_script.specs.Text.{is_name};
ghost use Rattle.af_script.specs.Generated.{repeated, generated_ops, generated_name, generated_track, generated_round, generated_tracks, generated_turns, generated_script};
ghost use Rattle.af_script.specs.declared.op.Op.TheVariants.{Write};

use crate::op::{Op, TurnSpec};
use crate::script::Script;
use crate::track::{Name, Ops, TrackSpec};
use af_base::Memory;
use std::alloc::Global;

/// The tracks of a generated session.
pub const GENERATED_TRACKS: u32 = 8;

/// The frames of each file of the session that the generator makes.
pub const GENERATED_FRAMES: u32 = 100000;

// The writes of each client.
const WRITES: u32 = 200;

// The rounds.
const ROUNDS: u32 = 420;

/// The file of a track of a generated session: `g0.pcm` to `g7.pcm`.
pub fn generated_name(track: u32) -> &'static str
    requires { track < 8 }
    ensures text { result.now ≡ generated_name track }
    ensures name { is_name result.now ≡ true }
{
    match track {
        0 => "g0.pcm",
        1 => "g1.pcm",
        2 => "g2.pcm",
        3 => "g3.pcm",
        4 => "g4.pcm",
        5 => "g5.pcm",
        6 => "g6.pcm",
        _ => "g7.pcm",
    }
}

// Adds 200 writes of 500 frames.
fn add_writes(ops: &mut Vec<Op>) -> Result<(), Memory>
    ensures { IfOk result (λ _. ops.new.items ≡ ops.old.items ++ repeated 200 (Write 500 ∷ [])) }
{
    for _write in 0..WRITES {
        ops.push(Op::Write { count: 500 })?;
    }
    Ok(())
}

// What each client does, as a list.
#[tactic(auto, unfolding(crate::specs::Generated::generated_ops))]
fn op_list(alloc: Global) -> Result<Vec<Op>, Memory>
    ensures { IfOk result (λ ops. ops.items ≡ generated_ops) }
{
    let mut ops = Vec::new(alloc);
    ops.push(Op::OpenTrack)?;
    ops.push(Op::Start)?;
    ops.push(Op::Gain {
        left: 2048,
        right: 2048,
    })?;
    add_writes(&mut ops)?;
    ops.push(Op::Stop)?;
    ops.push(Op::Drain)?;
    ops.push(Op::Remove)?;
    Ok(ops)
}

// What each client does.
#[tactic(auto, using(crate::proofs::GeneratedScript::ops_whole))]
fn generated_ops(alloc: Global) -> Result<Ops, Memory>
    ensures { IfOk result (λ ops. ops ≡ generated_ops) }
{
    Ok(Ops::new(op_list(alloc)?))
}

// A track of the generated script.
#[tactic(auto, unfolding(crate::specs::Generated::generated_track))]
fn generated_track(alloc: Global, track: u32) -> Result<TrackSpec, Memory>
    requires { track < 8 }
    ensures { IfOk result (λ spec. spec ≡ generated_track track) }
{
    Ok(TrackSpec {
        fast: track < 4,
        frames: 512,
        mono: track % 2 == 0,
        base: 0,
        scale: 4096,
        file: Name::new(alloc, generated_name(track))?,
        ops: generated_ops(alloc)?,
    })
}

// The tracks of the generated script.
#[tactic(auto, using(crate::proofs::GeneratedScript::mapped_next), unfolding(crate::specs::Generated::generated_tracks))]
fn generated_tracks(alloc: Global) -> Result<Vec<TrackSpec>, Memory>
    ensures { IfOk result (λ tracks. tracks.items ≡ generated_tracks) }
{
    let mut tracks = Vec::new(alloc);
    for track in 0..GENERATED_TRACKS {
        tracks.push(generated_track(alloc, track)?)?;
    }
    Ok(tracks)
}

// Adds the turns of a round.
#[tactic(auto, using(crate::proofs::GeneratedScript::mapped_next))]
fn add_round(turns: &mut Vec<TurnSpec>) -> Result<(), Memory>
    ensures { IfOk result (λ _. turns.new.items ≡ turns.old.items ++ generated_round) }
{
    for track in 0..GENERATED_TRACKS {
        turns.push(TurnSpec::Client { track })?;
    }
    turns.push(TurnSpec::Normal)?;
    turns.push(TurnSpec::Fast { cycles: 4 })?;
    Ok(())
}

// The turns of the generated script.
#[tactic(auto, using(crate::proofs::GeneratedScript::repeated_next), unfolding(crate::specs::Generated::generated_turns))]
fn generated_turns(alloc: Global) -> Result<Vec<TurnSpec>, Memory>
    ensures { IfOk result (λ turns. turns.items ≡ generated_turns) }
{
    let mut turns = Vec::new(alloc);
    for _round in 0..ROUNDS {
        add_round(&mut turns)?;
    }
    Ok(turns)
}

/// The script of the session that the generator makes, which is the same for each number.
pub fn generated_script(alloc: Global) -> Result<Script, Memory>
    ensures { IfOk result (λ script. script ≡ generated_script) }
{
    let tracks = generated_tracks(alloc)?;
    let turns = generated_turns(alloc)?;
    Ok(Script::new(1, 64, 4, 2000, tracks, turns))
}
