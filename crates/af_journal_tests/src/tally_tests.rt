//! The printed summaries of some small runs.
ghost use Rattle.std.specs.Prelude.{◌≡◌, ◌+◌, ◌<◌, ◌≤◌, ◌^◌, length};
ghost use Rattle.af_base.specs.Log.{slots};
ghost use Rattle.af_tally.specs.Tallies.{Keeps, most_looks};

use af_base::{
    ClientCall, Command, Cycle, CycleEntry, FastState, FastTrack, Frame, FrameList, NormalTake,
    SLOTS, Seen, SlotEntry, Steps, TurnEntry,
};
use af_tally::{Summary, Tally};
use std::marker::Brand;
use std::sync::ledger::{Blank, Ledger};
use std::test::Fail;

// Notes an entry of a cycle that took no steps.
fn note_in<L: Ledger>(
    blank: Blank,
    tally: &mut Tally,
    entry: &CycleEntry,
    state: Option<&FastState>,
)
    requires ledger { (blank.name ≡ L.name) × (blank.parts ≡ L.parts) × (0 < blank.parts) }
    requires room { tally.old.looks + slots ≤ most_looks }
    requires cycles { tally.old.cycles < 2 ^ 32 }
    ensures keeps { Keeps slots 1 tally.old tally.new }
{
    let steps = Steps::<L>::start(blank);
    tally.note_entry(entry, state, &steps);
}

// Notes an entry of a cycle that took no steps.
fn note(tally: &mut Tally, entry: &CycleEntry, state: Option<&FastState>)
    requires room { tally.old.looks + slots ≤ most_looks }
    requires cycles { tally.old.cycles < 2 ^ 32 }
    ensures keeps { Keeps slots 1 tally.old tally.new }
{
    note_in::<Brand>(Blank::new(1), tally, entry, state);
}

// What a slot showed.
fn slot_of(seen: Seen) -> SlotEntry {
    SlotEntry {
        gains: 0x1000_1000,
        flush: 0,
        rear: 0,
        seen,
        first: 0,
    }
}

// A mix in which slot k, of so many from 1 on, showed this.
fn entry_of(seen: &[Seen]) -> CycleEntry
    requires { length seen.now ≤ 31 }
{
    let mut slots = [slot_of(Seen::Absent); SLOTS];
    for (i, one) in seen.iter().enumerate() {
        slots[i + 1] = slot_of(*one);
    }
    CycleEntry {
        state: 1,
        cycle: Cycle::Mixed,
        slots,
        scales: [0x1000; SLOTS],
        mono: 0,
    }
}

// A state whose slot k + 1 is of track k, with this mask.
fn state_of(mask: u32) -> FastState {
    let none = FastTrack {
        generation: 0,
        track: 0,
        mono: false,
        scale: 0x1000,
    };
    let mut slots = [none; SLOTS];
    for k in 1..SLOTS {
        slots[k].track = k as u32 - 1;
    }
    FastState {
        slots,
        mask,
        tracks_gen: 1,
        frames: 2,
        command: Command::MixWrite,
        cold_gen: 0,
    }
}

#[test]
fn what_a_flush_discards_is_dropped(rt: HostRuntime) -> Result<(), Fail> {
    let silence = [Frame { left: 0, right: 0 }; 2];
    let state = state_of(3);
    let mut tally = Tally::new(rt.alloc(), 1)?;
    note(
        &mut tally,
        &entry_of(&[Seen::Flushed { dropped: 5 }]),
        Some(&state),
    );
    tally.note_frames(&silence);
    note(&mut tally, &entry_of(&[Seen::Empty]), Some(&state));
    tally.note_frames(&silence);
    let line = format!(in rt.alloc(); "{}", tally.summary(&[5]))?;
    assert_eq!(rt; line.as_str(), "cycles 2 mixed 0 dropped 5 queued 0 peak 0");
    Ok(())
}

#[test]
fn what_a_turn_took_is_mixed(rt: HostRuntime) -> Result<(), Fail> {
    let state = state_of(1);
    let mut turn = TurnEntry::with_room(rt.alloc(), 1, 1)?;
    turn.mixes.push(NormalTake {
        track: 0,
        slot: slot_of(Seen::Frames { count: 4 }),
        frames: FrameList::with_room(rt.alloc(), 4)?,
    });
    let mut tally = Tally::new(rt.alloc(), 1)?;
    tally.note_calls(0, &[ClientCall::Put { front: 0, count: 5 }]);
    tally.note_turn(&turn);
    let entry = entry_of(&[]);
    note(&mut tally, &entry, Some(&state));
    note(&mut tally, &entry, Some(&state));
    note(&mut tally, &entry, Some(&state));
    tally.note_frames(&[Frame { left: 1, right: 1 }, Frame { left: 2, right: 2 }]);
    let line = format!(in rt.alloc(); "{}", tally.summary(&[5]))?;
    assert_eq!(rt; line.as_str(), "cycles 3 mixed 4 dropped 0 queued 1 peak 2");
    Ok(())
}

#[test]
fn a_poked_track_counts_nowhere(rt: HostRuntime) -> Result<(), Fail> {
    let poke = ClientCall::Poke {
        command: true,
        word: 5,
        value: 9,
    };
    let mut tally = Tally::new(rt.alloc(), 2)?;
    tally.note_calls(0, &[poke, ClientCall::Put { front: 0, count: 3 }]);
    note(
        &mut tally,
        &entry_of(&[Seen::Frames { count: 2 }, Seen::Frames { count: 1 }]),
        Some(&state_of(7)),
    );
    note(&mut tally, &entry_of(&[Seen::Frames { count: 9 }]), None);
    let summary = tally.summary(&[3, 3]);
    let want = Summary {
        cycles: 2,
        mixed: 1,
        dropped: 0,
        queued: 2,
        peak: 0,
    };
    assert_eq!(rt; summary, want);
    Ok(())
}

#[test]
fn the_peak_may_be_the_lowest_sample(rt: HostRuntime) -> Result<(), Fail> {
    let mut tally = Tally::new(rt.alloc(), 32)?;
    note(
        &mut tally,
        &entry_of(&[Seen::Frames { count: 1 }; 31]),
        Some(&state_of(u32::MAX)),
    );
    tally.note_frames(&[Frame {
        left: -32768,
        right: 32767,
    }]);
    let line = format!(in rt.alloc(); "{}", tally.summary(&[1; 32]))?;
    assert_eq!(rt;
        line.as_str(),
        "cycles 1 mixed 31 dropped 0 queued 1 peak 32768"
    );
    Ok(())
}
