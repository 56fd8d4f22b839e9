ghost use Rattle.std.specs.Prelude.{◌≡◌, ◌<◌, ◌≤◌};
ghost use Rattle.af_script.specs.Bounds.{most_buffer};
ghost use Rattle.af_script.specs.Ops.{cells_of, words_of, plain_op, gain_of, write_of, poke_stream, poke_command, op_of, may_stand, op_at, is_remove, ends_with_remove, asked_cycles, client_turn_of, fast_of, turn_of};

use crate::bounds::{COMMAND_FRAMES, HEADER_WORDS, MOST_FAST, MOST_GAIN, MOST_VALUE, MOST_WRITE};
use crate::text::{number_after, pair_after};

/// What a client does next.
#[derive(Clone, Copy, Debug, PartialEq, Eq)]
pub enum Op {
    /// Opens the track.
    OpenTrack,
    Start,
    Pause,
    Stop,
    Flush,
    /// Waits until what was written is played.
    Drain,
    /// Gives the track back.
    Remove,
    /// Ends the turn.
    Yield,
    /// Sets both gains, each 0 to 65535 in 4.12.
    Gain {
        left: u32,
        right: u32,
    },
    /// Writes the next frames of the file, 1 to 4194304.
    Write {
        count: u32,
    },
    /// Stores a value in a word of the command block, or else of the stream block.
    Poke {
        command: bool,
        word: u32,
        value: u32,
    },
}

/// Whose turn it is.
#[derive(Clone, Copy, Debug, PartialEq, Eq)]
pub enum TurnSpec {
    /// The client of a track.
    Client { track: u32 },
    /// The normal mixer.
    Normal,
    /// The fast mixer, for 1 to 16 cycles.
    Fast { cycles: u32 },
}

/// The cells of a block of so many frames: the least power of two that is not below them.
fn cells_of(frames: u32) -> u32
    requires { frames ≤ most_buffer }
    ensures cells { result ≡ cells_of frames }
    ensures bound { result ≤ most_buffer }
{
    frames.next_power_of_two()
}

/// The op of one word.
fn plain_op(text: &str) -> Option<Op>
    ensures { result ≡ plain_op text.now }
{
    match text {
        "open" => Some(Op::OpenTrack),
        "start" => Some(Op::Start),
        "pause" => Some(Op::Pause),
        "stop" => Some(Op::Stop),
        "flush" => Some(Op::Flush),
        "drain" => Some(Op::Drain),
        "yield" => Some(Op::Yield),
        "remove" => Some(Op::Remove),
        _ => None,
    }
}

fn gain_of(text: &str) -> Option<Op>
    ensures { result ≡ gain_of text.now }
{
    let (left, right) = pair_after(text, "gain ", MOST_GAIN, MOST_GAIN)?;
    Some(Op::Gain { left, right })
}

fn write_of(text: &str) -> Option<Op>
    ensures { result ≡ write_of text.now }
{
    let count = number_after(text, "write ", 1, MOST_WRITE)?;
    Some(Op::Write { count })
}

fn poke_stream(text: &str, frames: u32) -> Option<Op>
    requires { frames ≤ most_buffer }
    ensures { result ≡ poke_stream frames text.now }
{
    let last = HEADER_WORDS + cells_of(frames) - 1;
    let (word, value) = pair_after(text, "poke stream ", last, MOST_VALUE)?;
    Some(Op::Poke {
        command: false,
        word,
        value,
    })
}

fn poke_command(text: &str) -> Option<Op>
    ensures { result ≡ poke_command text.now }
{
    let last = HEADER_WORDS + COMMAND_FRAMES - 1;
    let (word, value) = pair_after(text, "poke command ", last, MOST_VALUE)?;
    Some(Op::Poke {
        command: true,
        word,
        value,
    })
}

/// The op that a text spells, for a track of so many frames.
fn op_of(text: &str, frames: u32) -> Option<Op>
    requires { frames ≤ most_buffer }
    ensures { result ≡ op_of frames text.now }
{
    if let Some(op) = plain_op(text) {
        return Some(op);
    }
    if let Some(op) = gain_of(text) {
        return Some(op);
    }
    if let Some(op) = write_of(text) {
        return Some(op);
    }
    if let Some(op) = poke_stream(text, frames) {
        return Some(op);
    }
    poke_command(text)
}

/// Whether an op may be the first, the last, or another of its list.
fn may_stand(op: Op, first: bool, last: bool) -> bool
    ensures { result ≡ may_stand first last op }
{
    match op {
        Op::OpenTrack => first,
        Op::Remove => !first && last,
        _ => !first,
    }
}

/// The op that a text spells at an index of so many ops.
pub fn op_at(text: &str, frames: u32, count: usize, index: usize) -> Option<Op>
    requires frames { frames ≤ most_buffer }
    requires index { index < count }
    ensures { result ≡ op_at frames count index text.now }
{
    let op = op_of(text, frames)?;
    if may_stand(op, index == 0, index + 1 == count) {
        Some(op)
    } else {
        None
    }
}

/// Whether an op is `remove`.
fn is_remove(op: &Op) -> bool
    ensures { result ≡ is_remove op.now }
{
    matches!(op, Op::Remove)
}

/// Whether the last of some ops is `remove`.
pub fn ends_with_remove(ops: &[Op]) -> bool
    ensures { result ≡ ends_with_remove ops.now }
{
    match ops.last() {
        Some(op) => is_remove(op),
        None => false,
    }
}

/// The cycles that a turn asks for.
pub fn asked_cycles(turn: &TurnSpec) -> u32
    ensures { result ≡ asked_cycles turn.now }
{
    match turn {
        TurnSpec::Fast { cycles } => *cycles,
        _ => 0,
    }
}

fn client_of(text: &str, tracks: u32) -> Option<TurnSpec>
    requires { 0 < tracks }
    ensures { result ≡ client_turn_of tracks text.now }
{
    let track = number_after(text, "c ", 0, tracks - 1)?;
    Some(TurnSpec::Client { track })
}

fn fast_of(text: &str) -> Option<TurnSpec>
    ensures { result ≡ fast_of text.now }
{
    let cycles = number_after(text, "f ", 1, MOST_FAST)?;
    Some(TurnSpec::Fast { cycles })
}

/// The turn that a text spells, with so many tracks.
pub fn turn_of(text: &str, tracks: u32) -> Option<TurnSpec>
    requires { 0 < tracks }
    ensures { result ≡ turn_of tracks text.now }
{
    if text == "n" {
        return Some(TurnSpec::Normal);
    }
    if let Some(turn) = client_of(text, tracks) {
        return Some(turn);
    }
    fast_of(text)
}
