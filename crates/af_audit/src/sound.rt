//! The sound of a journal, by its definition.
ghost use Rattle.std.specs.Prelude.{◌≡◌, ℕ, ◌<◌, ◌≤◌, ◌++◌, true, length, slice_index_or, IfOk, OnOk, OnErr};
ghost use Rattle.af_base.specs.Log.{count_seen, entry_at, entry_slot, slots, takes_of};
ghost use Rattle.af_base.specs.Mix.{mix};
ghost use Rattle.af_model.specs.Cycles.{is_mixed};
ghost use Rattle.af_runs.specs.Pcm.{entries_pcm, entry_pcm, journal_pcm};

use crate::entry_mix::mix_heard;
use af_base::{Cycle, CycleEntry, FastLog, Frame, Memory, SLOTS};
use af_gain::Sum;
use af_io::bytes_of;
use af_model::{Journal, mix_entry};
use std::alloc::Global;

// Whether an entry of a log is a mix.
fn is_mixed(log: &FastLog, index: usize) -> bool
    requires { index < length log.now.entries }
    ensures { result ≡ is_mixed (entry_at log.now.entries index).cycle }
{
    let Some(entry) = log.entry(index) else {
        unreachable!()
    };
    matches!(entry.cycle, Cycle::Mixed)
}

// Whether the kernel takes what an entry records: no slot took more frames than are asked for, or is scaled beyond unity.
fn is_fit(entry: &CycleEntry, asked: usize) -> bool
    ensures within { result ≡ true → (i : ℕ) → i < slots → count_seen (entry_slot entry.now i).seen ≤ asked }
    ensures scaled { result ≡ true → (i : ℕ) → i < slots → slice_index_or entry.now.scales i 0 ≤ 4096 }
{
    for slot in 0..SLOTS {
        if entry.slots[slot].seen.count() as usize > asked || entry.scales[slot] > 4096 {
            return false;
        }
    }
    true
}

// Writes the mix of an entry: by the kernel, and plainly if the kernel doesn't take what the entry records.
fn mix_one(log: &FastLog, index: usize, sums: &mut [Sum], out: &mut [Frame])
    requires there { index < length log.now.entries }
    requires mixed { is_mixed (entry_at log.now.entries index).cycle ≡ true }
    requires lengths { length sums.old ≡ length out.old }
    ensures mix { out.new ≡ mix (takes_of log.now.frames (entry_at log.now.entries index)) (length out.old) }
    ensures lengths { length sums.new ≡ length sums.old }
{
    let Some(entry) = log.entry(index) else {
        unreachable!()
    };
    if is_fit(entry, out.len()) {
        mix_heard(log.frames(), entry, sums, out);
    } else {
        mix_entry(log, index, out);
    }
}

// Appends the mix of an entry, if it is Mixed.
fn push_entry(
    log: &FastLog,
    index: usize,
    sums: &mut [Sum],
    buffer: &mut [Frame],
    out: &mut Vec<u8>,
) -> Result<(), Memory>
    requires there { index < length log.now.entries }
    requires lengths { length sums.old ≡ length buffer.old }
    ensures ok { OnOk result (out.new.items ≡ out.old.items ++ entry_pcm (length buffer.old) log.now.frames (entry_at log.now.entries index)) }
    ensures err { OnErr result (out.new.items ≡ out.old.items) }
    ensures lengths { length sums.new ≡ length sums.old }
{
    if !is_mixed(log, index) {
        return Ok(());
    }
    mix_one(log, index, sums, buffer);
    bytes_of(buffer, out)
}

// Appends the mixes of all entries, if they are Mixed.
fn push_entries(
    log: &FastLog,
    sums: &mut [Sum],
    buffer: &mut [Frame],
    out: &mut Vec<u8>,
) -> Result<(), Memory>
    requires { length sums.old ≡ length buffer.old }
    ensures ok { OnOk result (out.new.items ≡ out.old.items ++ entries_pcm (length buffer.old) log.now.frames log.now.entries) }
    ensures err { OnErr result (out.new.items ≡ out.old.items) }
{
    let start = out.len();
    for index in 0..log.len() {
        if push_entry(log, index, sums, buffer, out).is_err() {
            out.truncate(start);
            return Err(Memory);
        }
    }
    Ok(())
}

/// Appends the sound of a log whose cycles have so many frames: the bytes of the mix of each Mixed entry. Memory is its only error: an allocation was refused, and `out` is as before.
pub fn pcm(alloc: Global, log: &FastLog, frames: usize, out: &mut Vec<u8>) -> Result<(), Memory>
    ensures ok { OnOk result (out.new.items ≡ out.old.items ++ entries_pcm frames log.now.frames log.now.entries) }
    ensures err { OnErr result (out.new.items ≡ out.old.items) }
{
    let mut buffer = Vec::with_capacity(alloc, frames)?;
    buffer.resize(frames, Frame { left: 0, right: 0 })?;
    let mut sums = Vec::with_capacity(alloc, frames)?;
    sums.resize(frames, Sum { left: 0, right: 0 })?;
    push_entries(log, &mut sums, &mut buffer, out)
}

/// The PCM of a journal whose cycles have so many frames.
pub(crate) fn sound_of(alloc: Global, journal: &Journal, frames: usize) -> Result<Vec<u8>, Memory>
    ensures { IfOk result (λ bytes. bytes.items ≡ journal_pcm frames journal.now) }
{
    let mut bytes = Vec::new(alloc);
    pcm(alloc, journal.log(), frames, &mut bytes)?;
    Ok(bytes)
}
