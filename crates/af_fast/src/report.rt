//! What is reported of the slots after an entry.
ghost use Rattle.std.specs.Prelude.{◌≡◌, ℕ, ◌<◌, true, Some, if◌then◌else◌, length, slice_set};
ghost use Rattle.af_base.specs.Log.{slots};
ghost use Rattle.af_model.specs.Reports.{no_slot, report_at, carried, counted_look, slot_report};
ghost use Rattle.af_base.specs.declared.state.FastState.{FastState};
ghost use Rattle.af_model.specs.StateQueue.{carries};
ghost use Rattle.af_stateq.specs.Observes.{InOrder};
ghost use Rattle.af_fast.specs.Fits.{stream_fits};
ghost use Rattle.af_fast.specs.Known.{known, known_of};
ghost use Rattle.af_fast.specs.Mixer.{AreFew, most_entries};

use crate::current::slots_in;
use af_base::{CycleEntry, FastState, SLOTS, Seen, SlotReport};
use af_link::{StreamNames, no_slot};
use af_model::carries_item;
use af_server::Server;
use af_stateq::Observer;

/// What is known of a server.
#[derive(Clone, Copy)]
pub struct KnownNow {
    consumed: u64,
    flush_seen: u32,
    shut: bool,
}

// What is known of the proxy that the observer holds for a slot.
fn known_of(observer: &mut Observer<Server, StreamNames>, slot: usize) -> KnownNow
    requires slot { (slot < slots) × (carries observer.old.past.state slot ≡ true) }
    requires order { InOrder stream_fits observer.old }
    ensures same { observer.new ≡ observer.old }
    ensures known { known_of result ≡ known observer.old slot }
{
    let Some(server) = observer.item(slot as u32) else {
        unreachable!()
    };
    KnownNow {
        consumed: server.consumed(),
        flush_seen: server.flush_seen(),
        shut: server.shut().is_some(),
    }
}

// A report goes on with one more look at a server of which this is known.
fn count_look(report: &mut SlotReport, asked: usize, generation: u64, seen: Seen, known: KnownNow)
    requires few { (report.old.fulls < most_entries) × (report.old.partials < most_entries) × (report.old.empties < most_entries) }
    ensures { report.new ≡ counted_look asked generation seen (known_of known) report.old }
{
    report.consumed = known.consumed;
    report.shut = known.shut;
    report.generation = generation;
    report.flush_seen = known.flush_seen;
    match seen {
        Seen::Frames { count } if count as usize == asked => report.fulls += 1,
        Seen::Frames { .. } => report.partials += 1,
        Seen::Empty => report.empties += 1,
        _ => {}
    }
}

// Whether there is a state that carries an item for a slot.
fn carried(state: &Option<FastState>, slot: usize) -> bool
    requires { slot < slots }
    ensures { result ≡ carried state.now slot }
{
    match state {
        None => false,
        Some(state) => carries_item(state, slot),
    }
}

// Whether the state before carries an item for a slot of the state adopted: it does if it is kept, since that is the same state.
fn was_carried(kept: bool, last: &Option<FastState>, slot: usize) -> bool
    requires slot { slot < slots }
    requires kept { kept ≡ true → carried last.now slot ≡ true }
    ensures { result ≡ carried last.now slot }
{
    kept || carried(last, slot)
}

// A report begins anew for an item that the state before didn't carry.
fn begin_look(report: &mut SlotReport, was_carried: bool)
    requires few { (report.old.fulls < most_entries) × (report.old.partials < most_entries) × (report.old.empties < most_entries) }
    ensures few { (report.new.fulls < most_entries) × (report.new.partials < most_entries) × (report.new.empties < most_entries) }
    ensures begins { report.new ≡ (if was_carried then report.old else no_slot) }
{
    if !was_carried {
        *report = no_slot();
    }
}

// The report of one slot goes on, if the state adopted carries an item for it.
fn report_slot(
    observer: &mut Observer<Server, StreamNames>,
    reports: &mut [SlotReport; SLOTS],
    kept: bool,
    last: &Option<FastState>,
    entry: &CycleEntry,
    slot: usize,
    asked: usize,
)
    requires slot { slot < slots }
    requires some { 0 < observer.old.past.number }
    requires order { InOrder stream_fits observer.old }
    requires kept { kept ≡ true → last.now ≡ observer.old.current }
    requires few { let before = report_at reports.old slot in (before.fulls < most_entries) × (before.partials < most_entries) × (before.empties < most_entries) }
    ensures same { observer.new ≡ observer.old }
    ensures reports { reports.new ≡ slice_set reports.old slot (slot_report asked (Some observer.old.past.state) last.now entry.now (known observer.old slot) slot (report_at reports.old slot)) }
{
    let Some(state) = observer.current() else {
        unreachable!()
    };
    if !carries_item(state, slot) {
        return;
    }
    let generation = state.slots[slot].generation;
    let known = known_of(observer, slot);
    let goes_on = was_carried(kept, last, slot);
    let seen = entry.slots[slot].seen;
    let report = &mut reports[slot];
    begin_look(report, goes_on);
    count_look(report, asked, generation, seen, known);
}

/// The reports of the slots go on by an entry under the state adopted, after one under the state before it, which is the same if it is kept. It looks at no slot behind the last one of the state's mask.
pub(crate) fn report_all(
    observer: &mut Observer<Server, StreamNames>,
    reports: &mut [SlotReport; SLOTS],
    kept: bool,
    last: &Option<FastState>,
    entry: &CycleEntry,
    asked: usize,
)
    requires order { InOrder stream_fits observer.old }
    requires kept { kept ≡ true → last.now ≡ observer.old.current }
    requires few { AreFew most_entries reports.old }
    ensures same { observer.new ≡ observer.old }
    ensures whole { length reports.new ≡ slots }
    ensures each { (i : ℕ) → i < slots → report_at reports.new i ≡ slot_report asked observer.old.current last.now entry.now (known observer.old i) i (report_at reports.old i) }
{
    let Some(state) = observer.current() else {
        return;
    };
    let used = slots_in(state.mask);
    for slot in 0..used {
        report_slot(observer, reports, kept, last, entry, slot, asked);
    }
}
