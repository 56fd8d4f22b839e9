//! The cost of a script in rounds, and the cycles that are enough for it.
ghost use Rattle.std.specs.Prelude.{◌≡◌, ◌+◌, ◌*◌, ◌≤◌, ◌<◌, ◌^◌, Some, None, IfSome, if◌then◌else◌, length};
ghost use Rattle.std.specs.List.{sum_by};
ghost use Rattle.af_script.specs.Bounds.{most_ops, most_buffer};
ghost use Rattle.af_script.specs.Form.{IsScript, IsTrack};
ghost use Rattle.af_enough.specs.Enough.{HasEnoughCycles, all_play_through, way_goes_on, greatest_cost, is_ending, op_cost, play_through, portion, track_cost, enough_rounds};

use af_script::{Op, Script, TrackSpec};

/// The most gains that may stand directly one after another.
pub const MOST_GAINS: u32 = 1024;

// Whether these ops end a track.
fn is_ending(ops: &[Op]) -> bool
    ensures { result ≡ is_ending ops.now }
{
    matches!(ops, [Op::Stop, Op::Drain, Op::Remove])
}

// Whether these ops are gains and writes, not too many gains directly one after another, and then the end.
fn goes_on(ops: &[Op]) -> bool
    ensures { result ≡ way_goes_on 0 ops.now }
{
    let mut gains = 0;
    for (index, op) in ops.iter().enumerate() {
        match op {
            Op::Gain { .. } if gains < MOST_GAINS => gains += 1,
            Op::Gain { .. } => return false,
            Op::Write { .. } => gains = 0,
            _ => return is_ending(&ops[index..]),
        }
    }
    false
}

// Whether these ops open and start a track, and go on to its end.
fn play_through(ops: &[Op]) -> bool
    ensures { result ≡ play_through ops.now }
{
    match ops {
        [Op::OpenTrack, Op::Start, rest @ ..] => goes_on(rest),
        _ => false,
    }
}

// Whether each track plays through.
fn all_play_through(script: &Script) -> bool
    ensures { result ≡ all_play_through script.now }
{
    script
        .tracks()
        .iter()
        .all(|track| play_through(track.ops.as_slice()))
}

// The portion of a track: the lesser of its buffer and a buffer of the normal mixer, in frames.
fn portion(script: &Script, track: &TrackSpec) -> u64
    requires { 1 ≤ track.now.frames }
    ensures value { result ≡ portion script.now track.now }
    ensures some { 1 ≤ result }
{
    u64::from(track.frames).min(u64::from(script.normal()) * u64::from(script.frames()))
}

// The cost of an op: 8 rounds, but for a write 4, and 4 more for each portion that it has.
fn op_cost(op: Op, portion: u64) -> u64
    requires { 1 ≤ portion }
    ensures cost { result ≡ op_cost portion op }
    ensures small { result ≤ 2 ^ 36 }
{
    match op {
        Op::Write { count } => 4 + 4 * u64::from(count).div_ceil(portion),
        _ => 8,
    }
}

// The cost of some ops, in rounds.
fn ops_cost(ops: &[Op], portion: u64) -> u64
    requires some { 1 ≤ portion }
    requires few { length ops.now ≤ most_ops + 1 }
    ensures cost { result ≡ sum_by (op_cost portion) ops.now }
    ensures small { result ≤ 2 ^ 50 }
{
    let mut cost = 0;
    for op in ops {
        cost += op_cost(*op, portion);
    }
    cost
}

// The cost of a track, in rounds.
fn track_cost(script: &Script, track: &TrackSpec) -> u64
    requires { IsTrack track.now }
    ensures cost { result ≡ track_cost script.now track.now }
    ensures small { result ≤ 2 ^ 51 }
{
    let portion = portion(script, track);
    let drained = u64::from(track.frames).div_ceil(portion);
    ops_cost(track.ops.as_slice(), portion) + 2 * drained
}

// The greatest cost of a track, in rounds.
fn greatest_cost(script: &Script) -> u64
    ensures cost { result ≡ greatest_cost script.now script.now.tracks }
    ensures small { result ≤ 2 ^ 51 }
{
    let mut greatest = 0;
    for track in script.tracks() {
        greatest = track_cost(script, track).max(greatest);
    }
    greatest
}

/// The cycles that are enough for a script, if each of its tracks plays through: it is opened and started, then its gains and writes
/// follow, at most 1024 gains directly one after another, then it is stopped, drained and removed. None if a track does something else.
pub fn enough_cycles(script: &Script) -> Option<u64>
    ensures value { result ≡ (if all_play_through script.now then Some (16 * enough_rounds script.now) else None) }
    ensures enough { IfSome result (λ cycles. cycles ≤ script.now.cycles → HasEnoughCycles script.now) }
{
    if all_play_through(script) {
        Some(16 * (16 + greatest_cost(script)))
    } else {
        None
    }
}
