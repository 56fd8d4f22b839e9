use af_base::{Cycle, CycleEntry, FastLog, Frame, SLOTS, Seen, SlotEntry};
use af_model::mix_entry;
use std::mem::drop;
use std::test::Fail;

#[test]
fn an_entry_is_mixed_with_silence_for_missing_frames(rt: HostRuntime) -> Result<(), Fail> {
    let mut log = FastLog::with_room(rt.alloc(), 1, 2)?;
    let absent = SlotEntry {
        gains: 0,
        flush: 0,
        rear: 0,
        seen: Seen::Absent,
        first: 0,
    };
    let mut slots = [absent; SLOTS];
    slots[1] = SlotEntry {
        gains: 0x0800_1000,
        rear: 2,
        seen: Seen::Frames { count: 2 },
        ..absent
    };
    slots[4] = SlotEntry {
        gains: 0x1000_1000,
        rear: 1,
        seen: Seen::Frames { count: 1 },
        first: 2,
        ..absent
    };
    log.push_frames(&[
        Frame {
            left: 100,
            right: 200,
        },
        Frame {
            left: -7,
            right: -7,
        },
        Frame {
            left: 10,
            right: 30000,
        },
    ]);
    let mut scales = [0; SLOTS];
    scales[1] = 0x1000;
    scales[4] = 0x0800;
    log.push(CycleEntry {
        state: 1,
        cycle: Cycle::Mixed,
        slots,
        scales,
        mono: 0x10,
    });
    let mut out = [Frame { left: 9, right: 9 }; 3];
    mix_entry(&log, 0, &mut out);
    drop(log);
    let want = [
        Frame {
            left: 105,
            right: 105,
        },
        Frame {
            left: -7,
            right: -4,
        },
        Frame { left: 0, right: 0 },
    ];
    assert!(rt; out == want);
    Ok(())
}
