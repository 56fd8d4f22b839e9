//! The command `loop`: what it makes of a file.
ghost use Rattle.std.specs.Prelude.{◌≡◌, ◌+◌, ◌*◌, [], ◌∷◌, ◌++◌, ◌≤◌, ℕ, List, Err, IfOk, OnOk, Some, length, is_some, string_bytes};
ghost use Rattle.af_base.specs.declared.frame.Frame.{Frame};
ghost use Rattle.af_base.specs.Sample.{pcm_bytes};
ghost use Rattle.af_io.specs.Files.{SameFiles};
ghost use Rattle.af_static.specs.Calls.{Call, CallsPlay, Standing, filled_of, outputs_of, standing_in, unplayed};
ghost use Rattle.af_static.specs.Loops.{shut_by};
ghost use Rattle.af_offline.specs.Asked.{buffer_in, loop_asked};
ghost use Rattle.af_offline.specs.Asking.{output_job};
ghost use Rattle.af_offline.specs.Line.{rolls_text};
ghost use Rattle.af_offline.specs.Looped.{Rolls, calls_under, heard_in, looped, next_setting, rolls_from, rolls_of, loop_setting};
ghost use Rattle.af_words.specs.Asking.{AreLoopTurns};
ghost use Rattle.af_offline.specs.Rolled.{rolls_in};
ghost use Rattle.af_offline.specs.Status.{HasFault, IsNoUsage, Meets};

use crate::load::{file_fault, frames_in, load_file};
use crate::outputs::Output;
use crate::status::{Role, Stop, Why};
use af_base::{Frame, Gains, Memory};
use af_io::{Pcm, Store, bytes_of};
use af_static::{InHand, Unrolled};
use af_words::Turns;
use std::alloc::{AllocError, Global};
use std::fmt;

/// The most bytes of a file that is looped: 8192 frames.
const MOST_BUFFER: u64 = 1 << 15;

/// Unity on both sides, as a gain word.
const UNITY: u32 = 0x1000_1000;

/// How many calls there were, how many frames they took, and whether the player is shut.
#[derive(Clone, Copy, Debug, PartialEq, Eq)]
struct Rolled {
    cycles: u32,
    filled: u64,
    is_shut: bool,
}

impl fmt::Display for Rolled {
    ghost output = { λ r. Some (rolls_text (rolls_in r)) };

    fn fmt<W: fmt::Write>(&self, f: &mut fmt::Formatter<W>) -> fmt::Result {
        let shut = u32::from(self.is_shut);
        writeln!(
            f,
            "cycles {} filled {} shut {shut}",
            self.cycles, self.filled
        )
    }
}

/// The line of what was rolled.
fn rolled_line(alloc: Global, rolled: &Rolled) -> Result<String, AllocError>
    ensures { IfOk result (λ text. string_bytes text ≡ rolls_text (rolls_in rolled.now)) }
{
    format!(in alloc; "{rolled}")
}

/// Plays once, at unity, and adds the bytes of what is heard.
fn play_once(
    hand: &mut InHand,
    places: &mut [Frame],
    bytes: &mut Vec<u8>,
) -> Result<Unrolled, Memory>
    requires { (1 ≤ length places.old) × (length places.old ≤ 1024) }
    ensures buffer { OnOk result ((hand.new.frames ≡ hand.old.frames) × (length places.new ≡ length places.old)) }
    ensures setting { OnOk result ((hand.new.newest ≡ hand.old.newest) × (next_setting hand.new ≡ next_setting hand.old)) }
    ensures bytes { OnOk result (bytes.new.items ≡ bytes.old.items ++ pcm_bytes places.new) }
    ensures played { IfOk result (λ unrolled. (first : Standing) (calls : List Call) (played : List Frame) (count : ℕ) → CallsPlay hand.old.frames first calls played count (standing_in hand.old)
        → CallsPlay hand.old.frames first (calls ++ (record { setting = hand.old.newest; gains = (4096, 4096); places = length places.old }) ∷ []) (played ++ places.new) (count + unrolled.filled) (standing_in hand.new)) }
    ensures shut { IfOk result (λ unrolled. unrolled.shut ≡ shut_by (length hand.old.frames) (next_setting hand.old)) }
{
    let unrolled = hand.play(Gains::clamped(UNITY), places);
    bytes_of(places, bytes)?;
    Ok(unrolled)
}

/// Plays so many times, and adds the bytes of what is heard.
fn play_calls(
    hand: &mut InHand,
    places: &mut [Frame],
    calls: u32,
    bytes: &mut Vec<u8>,
) -> Result<Rolled, Memory>
    requires places { (1 ≤ length places.old) × (length places.old ≤ 1024) }
    requires calls { (1 ≤ calls) × (calls ≤ 2048) }
    ensures bytes { OnOk result (bytes.new.items ≡ bytes.old.items ++ pcm_bytes (outputs_of hand.old.frames (standing_in hand.old) (calls_under hand.old.newest (length places.old) calls))) }
    ensures cycles { IfOk result (λ rolled. rolled.cycles ≡ calls) }
    ensures filled { IfOk result (λ rolled. rolled.filled ≡ filled_of hand.old.frames (standing_in hand.old) (calls_under hand.old.newest (length places.old) calls)) }
    ensures shut { IfOk result (λ rolled. rolled.is_shut ≡ is_some (shut_by (length hand.old.frames) (next_setting hand.old))) }
{
    let mut rolled = Rolled {
        cycles: 0,
        filled: 0,
        is_shut: false,
    };
    while rolled.cycles < calls {
        let unrolled = play_once(hand, places, bytes)?;
        rolled.cycles += 1;
        rolled.filled += u64::from(unrolled.filled);
        rolled.is_shut = unrolled.shut.is_some();
    }
    Ok(rolled)
}

/// A buffer in one hand, under the one setting.
fn set_once(alloc: Global, frames: &[Frame], turns: Turns) -> Result<InHand, Memory>
    requires { (1 ≤ length frames.now) × (length frames.now ≤ 8192) }
    ensures buffer { IfOk result (λ hand. hand.frames ≡ frames.now) }
    ensures setting { IfOk result (λ hand. (hand.newest ≡ loop_setting turns) × (next_setting hand ≡ loop_setting turns)) }
    ensures start { IfOk result (λ hand. standing_in hand ≡ unplayed) }
{
    let mut hand = InHand::make(alloc, frames)?;
    hand.set(turns.start, turns.end, turns.count);
    Ok(hand)
}

/// Plays all calls of a buffer in hand, into places of their own: the bytes of what is heard are added, and its line is answered.
fn play_all(
    alloc: Global,
    hand: &mut InHand,
    turns: Turns,
    bytes: &mut Vec<u8>,
) -> Result<String, Memory>
    requires { AreLoopTurns turns }
    ensures bytes { OnOk result (bytes.new.items ≡ bytes.old.items ++ pcm_bytes (heard_in hand.old turns)) }
    ensures line { IfOk result (λ line. string_bytes line ≡ rolls_text (rolls_from hand.old turns)) }
{
    let mut places = vec![in alloc; Frame { left: 0, right: 0 }; turns.places as usize]?;
    let rolled = play_calls(hand, &mut places, turns.calls, bytes)?;
    Ok(rolled_line(alloc, &rolled)?)
}

/// What is made of a buffer in hand: what is heard of all calls, and its line.
fn output_in(alloc: Global, hand: &mut InHand, turns: Turns) -> Result<Output, Memory>
    requires { AreLoopTurns turns }
    ensures bytes { IfOk result (λ output. output.bytes.items ≡ pcm_bytes (heard_in hand.old turns)) }
    ensures line { IfOk result (λ output. string_bytes output.line ≡ rolls_text (rolls_from hand.old turns)) }
{
    let mut bytes = Vec::with_capacity(alloc, 4 * turns.places as usize * turns.calls as usize)?;
    let line = play_all(alloc, hand, turns, &mut bytes)?;
    Ok(Output { bytes, line })
}

/// What is made of frames: what is heard of them, and its line.
fn output_of(alloc: Global, frames: &[Frame], turns: Turns) -> Result<Output, Memory>
    requires frames { (1 ≤ length frames.now) × (length frames.now ≤ 8192) }
    requires turns { AreLoopTurns turns }
    ensures bytes { IfOk result (λ output. output.bytes.items ≡ pcm_bytes (looped turns frames.now)) }
    ensures line { IfOk result (λ output. string_bytes output.line ≡ rolls_text (rolls_of turns frames.now)) }
{
    let mut hand = set_once(alloc, frames, turns)?;
    let output = output_in(alloc, &mut hand, turns);
    drop(hand);
    output
}

/// The frames of a stereo file that has some.
fn buffer_in(alloc: Global, bytes: &[u8]) -> Result<Pcm, Stop>
    requires { length bytes.now ≤ 32768 }
    ensures frames { Meets (λ pcm. pcm) result (buffer_in bytes.now) }
    ensures count { IfOk result (λ pcm. (1 ≤ length pcm) × (length pcm ≤ 8192)) }
    ensures faultless { result ≡ Err Stop.Store → ⊥ }
    ensures words { IsNoUsage result }
{
    let pcm = frames_in(alloc, 0, false, bytes)?;
    if pcm.frames().is_empty() {
        let why = Why::Short {
            frames: 0,
            asked: 1,
        };
        return Err(file_fault(Role::Track(0), why));
    }
    Ok(pcm)
}

/// Loads a file and loops it. Nothing is written yet.
pub fn loop_output<S: Store>(
    alloc: Global,
    store: &mut S,
    input: &str,
    turns: Turns,
) -> Result<Output, Stop>
    requires { AreLoopTurns turns }
    ensures made { (target : List ℕ) → S.told store.old → Meets (output_job target) result (loop_asked (S.files store.old) input.now target turns) }
    ensures line { IfOk result (λ output. (rolls : Rolls) × (string_bytes output.line ≡ rolls_text rolls)) }
    ensures same { S.told store.old → SameFiles (S.files store.old) (S.files store.new) }
    ensures tells { S.told store.old → S.told store.new }
    ensures cause { HasFault (S.faults store.old) (S.faults store.new) result }
    ensures words { IsNoUsage result }
{
    let bytes = load_file(alloc, store, input, Role::Track(0), MOST_BUFFER)?;
    let pcm = buffer_in(alloc, &bytes)?;
    Ok(output_of(alloc, pcm.frames(), turns)?)
}
