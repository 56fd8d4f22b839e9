//! A script is printed.
ghost use Rattle.std.specs.Prelude.{◌≡◌, ◌++◌, flat_map, string_bytes, IfOk, OnErr, Ok, Some};
ghost use Rattle.af_script.specs.Printing.{op_text, turn_text, kind_text, channels_of, written_ops, array_text, pair_line, number_line, text_line, source_text, use_text, top_text, track_text, printed_script};
ghost use Rattle.af_script.specs.Form.{IsScript};
ghost use Rattle.af_script.specs.Reading.{script_of};
ghost use Rattle.af_script.specs.declared.fault.KeyId.TheVariants as key;

use crate::bounds::MOST_OPS;
use crate::fault::KeyId;
use crate::op::{Op, TurnSpec};
use crate::script::Script;
use crate::track::TrackSpec;
use af_base::Memory;
use std::alloc::Global;
use std::fmt;
use std::fmt::Write;

/// An op as a script spells it.
impl fmt::Display for Op {
    ghost output = { λ op. Some (op_text op) };

    fn fmt<W: fmt::Write>(&self, f: &mut fmt::Formatter<W>) -> fmt::Result {
        match *self {
            Op::OpenTrack => f.write_str("open"),
            Op::Start => f.write_str("start"),
            Op::Pause => f.write_str("pause"),
            Op::Stop => f.write_str("stop"),
            Op::Flush => f.write_str("flush"),
            Op::Drain => f.write_str("drain"),
            Op::Remove => f.write_str("remove"),
            Op::Yield => f.write_str("yield"),
            Op::Gain { left, right } => write!(f, "gain {left} {right}"),
            Op::Write { count } => write!(f, "write {count}"),
            Op::Poke {
                command: false,
                word,
                value,
            } => write!(f, "poke stream {word} {value}"),
            Op::Poke {
                command: true,
                word,
                value,
            } => write!(f, "poke command {word} {value}"),
        }
    }
}

/// A turn as a script spells it.
impl fmt::Display for TurnSpec {
    ghost output = { λ turn. Some (turn_text turn) };

    fn fmt<W: fmt::Write>(&self, f: &mut fmt::Formatter<W>) -> fmt::Result {
        match *self {
            TurnSpec::Client { track } => write!(f, "c {track}"),
            TurnSpec::Normal => f.write_str("n"),
            TurnSpec::Fast { cycles } => write!(f, "f {cycles}"),
        }
    }
}

// Adds a line of a key and a number.
#[tactic(auto, unfolding(crate::specs::Printing::pair_line))]
fn add_number(text: &mut String, key: KeyId, number: u32) -> Result<(), Memory>
    ensures { IfOk result (λ _. string_bytes text.new ≡ string_bytes text.old ++ number_line key number) }
{
    write!(text, "{key} = {number}\n")?;
    Ok(())
}

// Adds a line of a key and a text.
#[tactic(auto, unfolding(crate::specs::Printing::pair_line))]
fn add_text(text: &mut String, key: KeyId, value: &str) -> Result<(), Memory>
    ensures { IfOk result (λ _. string_bytes text.new ≡ string_bytes text.old ++ text_line key value.now) }
{
    write!(text, "{key} = \"{value}\"\n")?;
    Ok(())
}

// Adds an array of the texts of ops.
fn add_op_array(text: &mut String, ops: &[Op]) -> Result<(), Memory>
    ensures { IfOk result (λ _. string_bytes text.new ≡ string_bytes text.old ++ array_text op_text ops.now) }
{
    let [first, rest @ ..] = ops else {
        text.push_str("[]")?;
        return Ok(());
    };
    write!(text, "[\"{first}\"")?;
    for op in rest {
        write!(text, ", \"{op}\"")?;
    }
    text.push_str("]")?;
    Ok(())
}

// Adds an array of the texts of turns.
fn add_turn_array(text: &mut String, turns: &[TurnSpec]) -> Result<(), Memory>
    ensures { IfOk result (λ _. string_bytes text.new ≡ string_bytes text.old ++ array_text turn_text turns.now) }
{
    let [first, rest @ ..] = turns else {
        text.push_str("[]")?;
        return Ok(());
    };
    write!(text, "[\"{first}\"")?;
    for turn in rest {
        write!(text, ", \"{turn}\"")?;
    }
    text.push_str("]")?;
    Ok(())
}

// The ops of a track that are written.
fn written(ops: &[Op]) -> &[Op]
    ensures { result.now ≡ written_ops ops.now }
{
    &ops[..MOST_OPS.min(ops.len())]
}

// Adds the line of a track's ops.
#[tactic(auto, unfolding(crate::specs::Printing::pair_line))]
fn add_ops(text: &mut String, ops: &[Op]) -> Result<(), Memory>
    ensures { IfOk result (λ _. string_bytes text.new ≡ string_bytes text.old ++ pair_line key.Ops (array_text op_text (written_ops ops.now))) }
{
    text.push_str("ops = ")?;
    add_op_array(text, written(ops))?;
    text.push_str("\n")?;
    Ok(())
}

// Adds the line of the turns.
#[tactic(auto, unfolding(crate::specs::Printing::pair_line))]
fn add_turns(text: &mut String, turns: &[TurnSpec]) -> Result<(), Memory>
    ensures { IfOk result (λ _. string_bytes text.new ≡ string_bytes text.old ++ pair_line key.Turns (array_text turn_text turns.now)) }
{
    text.push_str("turns = ")?;
    add_turn_array(text, turns)?;
    text.push_str("\n")?;
    Ok(())
}

// The channels of a track's file.
fn channels_of(mono: bool) -> u32
    ensures { result ≡ channels_of mono }
{
    if mono { 1 } else { 2 }
}

// The kind of a track.
fn kind_text(fast: bool) -> &'static str
    ensures { result.now ≡ kind_text fast }
{
    if fast { "fast" } else { "normal" }
}

// Adds what a track reads: where it starts, its file and its buffer.
#[tactic(auto, unfolding(crate::specs::Printing::source_text))]
fn add_source(text: &mut String, track: &TrackSpec) -> Result<(), Memory>
    ensures { IfOk result (λ _. string_bytes text.new ≡ string_bytes text.old ++ source_text track.now) }
{
    add_number(text, KeyId::Base, track.base)?;
    add_number(text, KeyId::Channels, channels_of(track.mono))?;
    add_text(text, KeyId::File, track.file.as_str())?;
    add_number(text, KeyId::Frames, track.frames)
}

// Adds what is done with a track: its kind, its ops and its scale.
#[tactic(auto, unfolding(crate::specs::Printing::use_text))]
fn add_use(text: &mut String, track: &TrackSpec) -> Result<(), Memory>
    ensures { IfOk result (λ _. string_bytes text.new ≡ string_bytes text.old ++ use_text track.now) }
{
    add_text(text, KeyId::Kind, kind_text(track.fast))?;
    add_ops(text, track.ops.as_slice())?;
    add_number(text, KeyId::Scale, u32::from(track.scale))
}

// Adds a track.
#[tactic(auto, unfolding(crate::specs::Printing::track_text))]
fn add_track(text: &mut String, track: &TrackSpec) -> Result<(), Memory>
    ensures { IfOk result (λ _. string_bytes text.new ≡ string_bytes text.old ++ track_text track.now) }
{
    text.push_str("\n[[track]]\n")?;
    add_source(text, track)?;
    add_use(text, track)
}

// Adds the top table.
#[tactic(auto, unfolding(crate::specs::Printing::top_text))]
fn add_top(text: &mut String, script: &Script) -> Result<(), Memory>
    ensures text { IfOk result (λ _. string_bytes text.new ≡ string_bytes text.old ++ top_text script.now) }
    ensures script { IsScript script.now }
{
    add_number(text, KeyId::Cycles, script.cycles())?;
    add_number(text, KeyId::Frames, script.frames())?;
    add_number(text, KeyId::Normal, script.normal())?;
    add_turns(text, script.turns())?;
    add_number(text, KeyId::Version, script.version())
}

// The text of a script.
fn text_of(alloc: Global, script: &Script) -> Result<String, Memory>
    ensures text { IfOk result (λ text. string_bytes text ≡ printed_script script.now) }
    ensures script { IsScript script.now }
{
    let mut text = String::new(alloc);
    add_top(&mut text, script)?;
    for track in script.tracks() {
        add_track(&mut text, track)?;
    }
    Ok(text)
}

/// Prints a script: its text, which `read` reads as the same script, is appended to `out`. Memory is its only refusal; `out` is then as before.
///
/// The keys stand in the order of the alphabet, each on a line of its own, and each track is under a header `[[track]]`.
/// After 4096 other ops the last `remove` is left out, since it counts where it is written; `read` adds it.
#[tactic(auto, using(crate::proofs::PrintedScript::printed_reads))]
pub fn print(alloc: Global, script: &Script, out: &mut Vec<u8>) -> Result<(), Memory>
    ensures printed { IfOk result (λ _. out.new.items ≡ out.old.items ++ printed_script script.now) }
    ensures reads { script_of (printed_script script.now) ≡ Ok script.now }
    ensures kept { OnErr result (out.new.items ≡ out.old.items) }
{
    let text = text_of(alloc, script)?;
    out.extend_from_slice(text.as_str().as_bytes())?;
    Ok(())
}
