ghost use Rattle.std.specs.Prelude.{◌≡◌, ◌<◌, ◌≤◌, true, length, option_map, option_and_then, IfOk, IfSome};
ghost use Rattle.toml.specs.Data.{as_str};
ghost use Rattle.toml.specs.View.{view, table_view, items_view};
ghost use Rattle.af_script.specs.Bounds.{most_buffer, most_ops, most_tracks};
ghost use Rattle.af_script.specs.Text.{is_name};
ghost use Rattle.af_script.specs.Ops.{op_at};
ghost use Rattle.af_script.specs.Tree.{value_at, count_of, array_of};
ghost use Rattle.af_script.specs.Results.{Reads};
ghost use Rattle.af_script.specs.declared.fault.KeyId.TheVariants as key;
ghost use Rattle.af_script.specs.Steps.{CopiesText, ClosesOps};
ghost use Rattle.af_script.specs.Reading.{fast_in, shape_in, name_if, op_in, ops_in, each_in, track_of_table};

use crate::bounds::{MOST_BASE, MOST_BUFFER, MOST_OPS, UNITY_SCALE};
use crate::fault::{KeyId, LimitId, ReadError, ScriptFault};
use crate::number::{number_in, number_or};
use crate::op::{Op, ends_with_remove, op_at};
use crate::text::is_name;
use crate::tree::{count_of, has_track_keys, text_at, texts_of, value_at};
use af_base::Memory;
use std::alloc::Global;
use std::marker::Model;
use toml::{Table, Value};

/// The name of a file: 1 to 64 letters, digits, `.`, `_` and `-`, and neither `.` nor `-` first.
#[derive(Drop)]
pub struct Name {
    text: String,
}

impl Model for Name {
    ghost use Rattle.std.specs.Prelude.{◌≡◌, List, ℕ, true, string_bytes};
    ghost use Rattle.af_script.specs.Text.{is_name};

    ghost Value = { List ℕ };

    ghost view = { λ name. string_bytes name.text };

    ghost invariant = { λ name. is_name (string_bytes name.text) ≡ true };
}

impl Name {
    /// The name as a text.
    pub fn as_str(&self) -> &str
        ensures text { result.now ≡ self.now }
        ensures name { is_name self.now ≡ true }
    {
        self.text.as_str()
    }

    /// The name that a text is: `is_name` says whether it is one.
    pub fn new(alloc: Global, text: &str) -> Result<Name, Memory>
        requires { is_name text.now ≡ true }
        ensures { IfOk result (λ name. name ≡ text.now) }
    {
        Ok(Name {
            text: String::from_str(alloc, text)?,
        })
    }

    // The name that a text is, for a reader.
    fn copied(alloc: Global, text: &str) -> Result<Name, ReadError>
        requires { is_name text.now ≡ true }
        ensures { CopiesText result text.now }
    {
        Ok(Name::new(alloc, text)?)
    }
}

/// The ops of a track: `open` is the first and only the first, `remove` the last and only the last.
#[derive(Drop)]
pub struct Ops {
    ops: Vec<Op>,
}

impl Model for Ops {
    ghost use Rattle.std.specs.Prelude.{◌≡◌, List, true};
    ghost use Rattle.af_script.specs.declared.op.Op.{Op};
    ghost use Rattle.af_script.specs.Ops.{are_whole};

    ghost Value = { List Op };

    ghost view = { λ o. o.ops.items };

    ghost invariant = { λ o. are_whole o.ops.items ≡ true };
}

impl Ops {
    ghost use Rattle.af_script.specs.Ops.{are_whole};

    /// The ops of a list that begins with its only `open` and ends with its only `remove`.
    pub fn new(ops: Vec<Op>) -> Ops
        requires { are_whole ops.items ≡ true }
        ensures { result ≡ ops.items }
    {
        Ops { ops }
    }

    /// The ops in order.
    pub fn as_slice(&self) -> &[Op]
        ensures ops { result.now ≡ self.now }
        ensures whole { are_whole self.now ≡ true }
    {
        &self.ops
    }
}

/// One track of a script.
#[derive(Drop)]
pub struct TrackSpec {
    /// Whether the track asks for a slot of the fast mixer.
    pub fast: bool,
    /// The frames of the track's buffer, 1 to 8192.
    pub frames: u32,
    /// Whether the track's file has one channel, and else two.
    pub mono: bool,
    /// The position at which the track starts.
    pub base: u32,
    /// The track's scale in 4.12, at most 4096.
    pub scale: u16,
    /// The track's file of samples.
    pub file: Name,
    /// What the track's client does.
    pub ops: Ops,
}

/// What a track is, before its file.
#[derive(Clone, Copy, Debug, PartialEq, Eq)]
pub struct Shape {
    pub fast: bool,
    pub frames: u32,
    pub mono: bool,
}

/// Whether the kind of a numbered track is `fast`.
fn fast_in(table: &Table, number: u32) -> Result<bool, ScriptFault>
    ensures { result ≡ fast_in number (table_view table.now) }
{
    match text_at(table, KeyId::Kind) {
        Some("fast") => Ok(true),
        Some("normal") => Ok(false),
        _ => Err(ScriptFault::Key {
            table: number,
            key: KeyId::Kind,
        }),
    }
}

/// The kind, frames and channels of a numbered track.
fn shape_in(table: &Table, number: u32) -> Result<Shape, ScriptFault>
    ensures shape { result ≡ shape_in number (table_view table.now) }
    ensures frames { IfOk result (λ shape. shape.frames ≤ most_buffer) }
{
    let fast = fast_in(table, number)?;
    let frames = number_in(table, number, KeyId::Frames, 1, MOST_BUFFER)?;
    let channels = number_in(table, number, KeyId::Channels, 1, 2)?;
    let mono = channels == 1;
    Ok(Shape { fast, frames, mono })
}

/// The name of a track's file.
fn name_at<'a>(table: &'a Table) -> Option<&'a str>
    ensures text { option_map (λ text. text.now) result ≡ option_and_then name_if (option_and_then as_str (value_at key.File (table_view table.now))) }
    ensures name { IfSome result (λ text. is_name text.now ≡ true) }
{
    let text = text_at(table, KeyId::File)?;
    if is_name(text) { Some(text) } else { None }
}

/// The texts of a track's ops.
fn op_texts(table: &Table) -> Option<&[Value]>
    ensures { option_map (λ items. items_view items.now) result ≡ option_and_then (array_of as_str) (value_at key.Ops (table_view table.now)) }
{
    texts_of(value_at(table, KeyId::Ops)?)
}

/// The op that an item spells at an index of so many.
fn op_of_item(value: &Value, frames: u32, count: usize, index: usize) -> Option<Op>
    requires frames { frames ≤ most_buffer }
    requires index { index < count }
    ensures { result ≡ option_and_then (op_at frames count index) (as_str (view value.now)) }
{
    op_at(value.as_str()?, frames, count, index)
}

/// The ops that the items of an array spell, or the first that doesn't fit.
fn each_op(alloc: Global, track: u32, frames: u32, values: &[Value]) -> Result<Vec<Op>, ReadError>
    requires frames { frames ≤ most_buffer }
    requires count { length values.now ≤ most_ops }
    ensures { Reads (λ ops. ops.items) result (each_in (op_in track frames (count_of (items_view values.now))) 0 (items_view values.now)) }
{
    let count = count_of(values);
    let mut ops = Vec::new(alloc);
    for (index, value) in values.iter().enumerate() {
        let Some(op) = op_of_item(value, frames, count, index) else {
            return Err(ReadError::Fault(ScriptFault::Op {
                track,
                index: index as u32,
            }));
        };
        ops.push(op)?;
    }
    Ok(ops)
}

/// Adds `remove` if it isn't the last of some ops.
fn close(ops: &mut Vec<Op>) -> Result<(), ReadError>
    ensures { ClosesOps result ops.old.items ops.new.items }
{
    if !ends_with_remove(ops) {
        ops.push(Op::Remove)?;
    }
    Ok(())
}

/// The ops of a track: at most 4096 as they are written, and at least one.
fn ops_in(alloc: Global, track: u32, frames: u32, values: &[Value]) -> Result<Ops, ReadError>
    requires { frames ≤ most_buffer }
    ensures { Reads (λ ops. ops) result (ops_in track frames (items_view values.now)) }
{
    let count = count_of(values);
    if count == 0 {
        return Err(ReadError::Fault(ScriptFault::Op { track, index: 0 }));
    }
    if count > MOST_OPS {
        return Err(ReadError::Fault(ScriptFault::Limit {
            limit: LimitId::Ops,
            value: count as u64,
        }));
    }
    let mut ops = each_op(alloc, track, frames, values)?;
    close(&mut ops)?;
    Ok(Ops { ops })
}

/// The track that a table is, by its number.
pub fn track_in(alloc: Global, track: u32, table: &Table) -> Result<TrackSpec, ReadError>
    requires { track < most_tracks }
    ensures { Reads (λ spec. spec) result (track_of_table track (table_view table.now)) }
{
    let number = track + 1;
    if !has_track_keys(table) {
        return Err(ReadError::Fault(ScriptFault::Unknown { table: number }));
    }
    let shape = shape_in(table, number)?;
    let Some(file) = name_at(table) else {
        return Err(ReadError::Fault(ScriptFault::Key {
            table: number,
            key: KeyId::File,
        }));
    };
    let Some(texts) = op_texts(table) else {
        return Err(ReadError::Fault(ScriptFault::Key {
            table: number,
            key: KeyId::Ops,
        }));
    };
    let base = number_or(table, number, KeyId::Base, MOST_BASE, 0)?;
    let scale = number_or(table, number, KeyId::Scale, UNITY_SCALE, UNITY_SCALE)?;
    let ops = ops_in(alloc, track, shape.frames, texts)?;
    let file = Name::copied(alloc, file)?;
    Ok(TrackSpec {
        fast: shape.fast,
        frames: shape.frames,
        mono: shape.mono,
        base,
        scale: scale as u16,
        file,
        ops,
    })
}
