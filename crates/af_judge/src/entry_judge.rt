//! Whether an entry of the fast mixer is what its state makes it, but for what its slots saw.
ghost use Rattle.std.specs.Prelude.{◌≡◌, ◌↔◌, ℕ, ◌<◌, ◌≤◌, IsTrue, false, suc, if◌then◌else◌};
ghost use Rattle.std.specs.Int.{bit_at};
ghost use Rattle.std.specs.Option.{option_map};
ghost use Rattle.af_base.specs.Log.{slots};
ghost use Rattle.af_model.specs.Cycles.{cold_of, cycle_of, is_cold, is_mixed, is_mono, mix_scale, mono_marks, shown, submix_slot};
ghost use Rattle.af_model.specs.Point.{wrapped};
ghost use Rattle.af_model.specs.StateQueue.{carries};
ghost use Rattle.af_judge.specs.EntryMarks.{HasNoOthers, HasScales, IsMarkedBy};

use af_base::{Command, Cycle, CycleEntry, FastState, SLOTS, Seen, SlotEntry};
use af_model::carries_item;

// The gains of the submix: unity on both sides.
const UNITY: u32 = 0x1000_1000;

/// What a slot is that isn't of a mix.
pub const ABSENT: SlotEntry = SlotEntry {
    gains: 0,
    flush: 0,
    rear: 0,
    seen: Seen::Absent,
    first: 0,
};

/// What a cycle is by its state, if there is one, after a cold generation was performed.
pub fn cycle_of(done: u64, state: Option<&FastState>) -> Cycle
    ensures { result ≡ cycle_of done (option_map (λ x. x.now) state.entry) }
{
    let Some(state) = state else {
        return Cycle::Idle;
    };
    match state.command {
        Command::Exit => Cycle::Exit,
        Command::ColdIdle if state.cold_gen == done => Cycle::Idle,
        Command::ColdIdle => Cycle::Cold,
        Command::MixWrite => Cycle::Mixed,
        _ => Cycle::Idle,
    }
}

/// The cold generation performed last, after an entry under a state.
pub fn cold_after(done: u64, cycle: Cycle, state: Option<&FastState>) -> u64
    ensures { result ≡ (if is_cold cycle then cold_of (option_map (λ x. x.now) state.entry) else done) }
{
    match (cycle, state) {
        (Cycle::Cold, None) => 0,
        (Cycle::Cold, Some(state)) => state.cold_gen,
        _ => done,
    }
}

/// Whether a cycle mixes.
pub fn is_mixed(cycle: Cycle) -> bool
    ensures { result ≡ is_mixed cycle }
{
    matches!(cycle, Cycle::Mixed)
}

// Whether the track of a slot is mono.
fn is_mono(state: &FastState, slot: usize) -> bool
    requires { slot < slots }
    ensures { result ≡ is_mono state.now slot }
{
    carries_item(state, slot) && state.slots[slot].mono
}

// The mono marks of the slots up to this one, by those of the slots before it.
fn marks_to(marks: u32, state: &FastState, slot: usize) -> u32
    requires { slot < slots }
    ensures { marks ≡ mono_marks state.now slot → result ≡ mono_marks state.now (suc slot) }
{
    if is_mono(state, slot) {
        return marks | (1 << slot);
    }
    marks
}

// How many bits a mask has up to its last one.
fn bits_in(mask: u32) -> usize
    ensures few { result ≤ slots }
    ensures rest { (i : ℕ) → result ≤ i → bit_at mask i ≡ 0 }
{
    (u32::BITS - mask.leading_zeros()) as usize
}

/// How many slots there are up to the last one of a state's mask: it carries no later one.
pub fn slots_in(state: &FastState) -> usize
    ensures few { result ≤ slots }
    ensures rest { (i : ℕ) → result ≤ i → carries state.now i ≡ false }
{
    bits_in(state.mask)
}

// The marks of a state: bit i is set if slot i is mono.
fn mono_marks(state: &FastState) -> u32
    ensures { result ≡ mono_marks state.now slots }
{
    let mut marks = 0u32;
    for slot in 0..slots_in(state) {
        marks = marks_to(marks, state, slot);
    }
    marks
}

// The scale of a slot in the mix of a state.
fn mix_scale(state: &FastState, slot: usize) -> u16
    requires { slot < slots }
    ensures { result ≡ mix_scale state.now slot }
{
    if slot == 0 {
        0x1000
    } else if carries_item(state, slot) {
        state.slots[slot].scale
    } else {
        0
    }
}

// Whether the scales of an entry are those of the mix of a state.
fn has_scales(entry: &CycleEntry, state: &FastState) -> bool
    ensures { IsTrue result ↔ HasScales state.now entry.now }
{
    for slot in 0..SLOTS {
        if entry.scales[slot] != mix_scale(state, slot) {
            return false;
        }
    }
    true
}

// Whether each slot that isn't of the mask is absent.
fn has_no_others(entry: &CycleEntry, state: &FastState) -> bool
    ensures { IsTrue result ↔ HasNoOthers state.now entry.now }
{
    for slot in 1..SLOTS {
        if !carries_item(state, slot) && entry.slots[slot] != ABSENT {
            return false;
        }
    }
    true
}

// What a slot shows of so many frames.
fn shown(count: u32) -> Seen
    ensures { result ≡ shown count }
{
    if count == 0 {
        Seen::Empty
    } else {
        Seen::Frames { count }
    }
}

/// Whether the slot of the submix is that of a look for so many frames, if so many were taken before.
pub fn is_submix(asked: u32, taken: usize, slot: &SlotEntry) -> bool
    ensures { IsTrue result ↔ (slot.now ≡ submix_slot asked (wrapped taken) slot.now.rear slot.now.first) }
{
    let front = (taken % 0x1_0000_0000) as u32;
    let seen = shown(asked.min(slot.rear.wrapping_sub(front)));
    slot.gains == UNITY && slot.flush == 0 && slot.seen == seen
}

/// Whether the marks and scales of a Mixed entry are those of its state, and the slots that aren't of the mask are absent.
pub fn is_marked(entry: &CycleEntry, state: &FastState) -> bool
    ensures { IsTrue result ↔ IsMarkedBy state.now entry.now }
{
    entry.mono == mono_marks(state) && has_scales(entry, state) && has_no_others(entry, state)
}
