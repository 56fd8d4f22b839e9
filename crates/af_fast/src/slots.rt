//! What a cycle does with all slots of a mix.
ghost use Rattle.std.specs.Prelude.{◌≡◌, suc, ◌+◌, ◌*◌, ◌<◌, ◌≤◌, ◌^◌, true, false, length, slice_set, slice_index_or};
ghost use Rattle.af_base.specs.Log.{slots};
ghost use Rattle.af_base.specs.declared.log.Cycle.TheVariants as cycle;
ghost use Rattle.af_model.specs.Cycles.{is_mono, mix_scale, mono_marks, still_entry};
ghost use Rattle.af_base.specs.declared.log.SlotEntry.{SlotEntry};
ghost use Rattle.af_model.specs.StateQueue.{carries};
ghost use Rattle.af_stateq.specs.Observes.{InOrder};
ghost use Rattle.af_fast.specs.Fits.{stream_fits, NamesBlocks};
ghost use Rattle.af_link.specs.PipeEnds.{out_made};
ghost use Rattle.af_fast.specs.Slots.{IsMarked, IsQuietFrom, LogsPipe, LogsSlot, PlaysSlots, SameEntries};
ghost use Rattle.af_model.specs.Tracks.{tracks_of};

use crate::current::slots_in;
use crate::held::{log_held, log_taken};
use crate::submix::play_pipe;
use af_base::{Cycle, CycleEntry, FastLog, FastState, Frame, SLOTS, Seen, SlotEntry, Steps};
use af_cblk::Block;
use af_link::{Links, PipeOut, StreamNames};
use af_model::carries_item;
use af_server::Server;
use af_stateq::Observer;
use std::sync::ledger::Ledger;

/// An entry in which every slot is absent.
pub(crate) fn still_entry(state: u64, cycle: Cycle) -> CycleEntry
    ensures { result ≡ still_entry state cycle }
{
    let absent = SlotEntry {
        gains: 0,
        flush: 0,
        rear: 0,
        seen: Seen::Absent,
        first: 0,
    };
    CycleEntry {
        state,
        cycle,
        slots: [absent; SLOTS],
        scales: [0; SLOTS],
        mono: 0,
    }
}

// Whether the track of a slot is mono.
fn is_mono(state: &FastState, slot: usize) -> bool
    requires { slot < slots }
    ensures { result ≡ is_mono state.now slot }
{
    carries_item(state, slot) && state.slots[slot].mono
}

// The mono marks of the slots up to this one, by those of the slots before it.
fn marks_to(marks: u32, state: &FastState, slot: usize) -> u32
    requires { slot < slots }
    ensures { marks ≡ mono_marks state.now slot → result ≡ mono_marks state.now (suc slot) }
{
    if is_mono(state, slot) {
        return marks | (1 << slot);
    }
    marks
}

// Marks a slot of a mix that is unmarked, if it has a track, with the track's scale and whether it is mono.
fn mark_slot(entry: &mut CycleEntry, state: &FastState, slot: usize)
    requires slot { (1 ≤ slot) × (slot < slots) }
    requires unmarked { slice_index_or entry.old.scales slot 0 ≡ 0 }
    ensures scale { entry.new ≡ record entry.old { scales = slice_set entry.old.scales slot (mix_scale state.now slot); mono = entry.new.mono } }
    ensures mono { entry.old.mono ≡ mono_marks state.now slot → entry.new.mono ≡ mono_marks state.now (suc slot) }
{
    if carries_item(state, slot) {
        entry.scales[slot] = state.slots[slot].scale;
        entry.mono = marks_to(entry.mono, state, slot);
    }
}

/// Marks the entry of a mix before its slots are played, with the scales and the mono marks of its state. From the slot `used` on the state has no track.
fn mark_entry(entry: &mut CycleEntry, state: &FastState, used: usize)
    requires still { entry.old ≡ still_entry entry.old.state cycle.Mixed }
    requires used { (1 ≤ used) × (used ≤ slots) }
    requires quiet { IsQuietFrom state.now used }
    ensures { IsMarked entry.old.state state.now entry.new }
{
    entry.scales[0] = 0x1000;
    for slot in 1..used {
        mark_slot(entry, state, slot);
    }
}

// Takes what the pipe shows into the log.
fn log_pipe<L: Ledger>(
    pipe: &mut PipeOut,
    log: &mut FastLog,
    block: &Block,
    buffer: &mut [Frame],
    steps: &mut Steps<L>,
) -> SlotEntry
    requires made { out_made pipe.old ≡ block.now }
    requires few { length buffer.old < 2 ^ 32 }
    requires room { length log.old.frames + length buffer.old ≤ log.old.frame_room }
    ensures made { out_made pipe.new ≡ block.now }
    ensures logs { LogsPipe (length buffer.old) pipe.old pipe.new log.old.frames log.new.frames result }
    ensures log { SameEntries log.old log.new }
    ensures steps { steps.new ≤ steps.old + length buffer.old + 3 }
{
    let place = log.frames().len();
    let entry = play_pipe(pipe, block, place, buffer, steps);
    log_taken(log, buffer, entry.seen.count());
    entry
}

// Plays the track of a slot into the entry, if the state adopted has one for it.
fn play_slot<L: Ledger>(
    observer: &mut Observer<Server, StreamNames>,
    log: &mut FastLog,
    entry: &mut CycleEntry,
    streams: &[Block],
    slot: usize,
    buffer: &mut [Frame],
    steps: &mut Steps<L>,
)
    requires slot { slot < slots }
    requires some { 0 < observer.old.past.number }
    requires order { InOrder stream_fits observer.old }
    requires names { NamesBlocks observer.old.past.key streams.now }
    requires buffer { (1 ≤ length buffer.old) × (length buffer.old < 2 ^ 32) }
    requires room { length log.old.frames + length buffer.old ≤ log.old.frame_room }
    ensures order { InOrder stream_fits observer.new }
    ensures plays { carries observer.old.past.state slot ≡ true → (slot_entry : SlotEntry)
        × LogsSlot (length buffer.old) slot observer.old observer.new log.old.frames log.new.frames slot_entry
        × (entry.new ≡ record entry.old { slots = slice_set entry.old.slots slot slot_entry }) }
    ensures rests { carries observer.old.past.state slot ≡ false → (observer.new ≡ observer.old) × (log.new.frames ≡ log.old.frames) × (entry.new ≡ entry.old) }
    ensures log { SameEntries log.old log.new }
    ensures steps { steps.new ≤ steps.old + length buffer.old + 7 }
    ensures none { carries observer.old.past.state slot ≡ false → steps.new ≡ steps.old }
{
    let Some(state) = observer.current() else {
        unreachable!()
    };
    if !carries_item(state, slot) {
        return;
    }
    let to = &mut entry.slots[slot];
    log_held(observer, log, streams, slot, to, buffer, steps);
}

/// Plays all slots of a mix into its entry: the pipe, and then the tracks of the mask one after the other. It answers how many slots there are up to the last one of the mask: no later one has a track.
pub(crate) fn play_slots<L: Ledger>(
    observer: &mut Observer<Server, StreamNames>,
    pipe: &mut PipeOut,
    log: &mut FastLog,
    links: &Links<'_>,
    entry: &mut CycleEntry,
    buffer: &mut [Frame],
    steps: &mut Steps<L>,
) -> usize
    requires some { 0 < observer.old.past.number }
    requires order { InOrder stream_fits observer.old }
    requires names { NamesBlocks observer.old.past.key links.now.streams.now }
    requires made { out_made pipe.old ≡ links.now.pipe.now }
    requires buffer { (1 ≤ length buffer.old) × (length buffer.old < 2 ^ 32) }
    requires room { length log.old.frames + slots * length buffer.old ≤ log.old.frame_room }
    requires still { entry.old ≡ still_entry observer.old.past.number cycle.Mixed }
    ensures order { InOrder stream_fits observer.new }
    ensures made { out_made pipe.new ≡ links.now.pipe.now }
    ensures log { SameEntries log.old log.new }
    ensures plays { PlaysSlots (length buffer.old) observer.old.past.number observer.old.past.state observer.old observer.new pipe.old pipe.new log.old.frames log.new.frames entry.new }
    ensures used { (1 ≤ result) × (result ≤ slots) }
    ensures quiet { IsQuietFrom observer.old.past.state result }
    ensures steps { steps.new ≤ steps.old + (length buffer.old + 3) + tracks_of observer.old.past.state * (length buffer.old + 7) }
{
    let Some(state) = observer.current() else {
        unreachable!()
    };
    let used = slots_in(state.mask);
    mark_entry(entry, state, used);
    entry.slots[0] = log_pipe(pipe, log, links.pipe, buffer, steps);
    for slot in 1..used {
        play_slot(observer, log, entry, links.streams, slot, buffer, steps);
    }
    used
}
