use af_base::{
    Command, CommandLook, CommandLooks, Cycle, CycleEntry, FastLog, Frame, Gains, Part, SLOTS,
    Seen, SlotEntry, plain_frame, plain_mix,
};
use std::test::Fail;

#[test]
fn frames_are_words(rt: HostRuntime) {
    for (left, right, word) in &[
        (1000, -1000, 0xfc18_03e8),
        (-1, 1, 0x0001_ffff),
        (-32768, 32767, 0x7fff_8000),
    ] {
        let frame = Frame {
            left: *left,
            right: *right,
        };
        assert!(rt; frame.pack() == *word);
        assert!(rt; Frame::unpack(*word) == frame);
    }
}

#[test]
fn gains_end_at_unity(rt: HostRuntime) {
    let gains = Gains::clamped(0xffff_1001);
    assert!(rt; (gains.left(), gains.right()) == (0x1000, 0x1000));
    let half = Gains::clamped(0x0800_0fff).scaled(0x0800);
    assert!(rt; (half.left(), half.right()) == (0x07ff, 0x0400));
    assert!(rt; Command::MixWrite.code() == 24);
}

#[test]
fn one_sum_and_one_clamp(rt: HostRuntime) -> Result<(), Fail> {
    let loud = [Frame {
        left: 32767,
        right: -32768,
    }];
    let quiet = [Frame {
        left: -32767,
        right: 0,
    }];
    let part = |frames| Part {
        frames,
        mono: false,
        gains: 0x1000_1000,
        scale: 0x1000,
    };
    let mixed = plain_mix(rt.alloc(), &[part(&loud), part(&loud), part(&quiet)], 2)?;
    let want = [
        Frame {
            left: 32767,
            right: -32768,
        },
        Frame { left: 0, right: 0 },
    ];
    assert!(rt; mixed.as_slice() == want.as_slice());
    assert!(rt; plain_frame(&[part(&loud), part(&loud), part(&quiet)], 0) == want[0]);
    Ok(())
}

const ENTRY: CycleEntry = CycleEntry {
    state: 1,
    cycle: Cycle::Mixed,
    slots: [SlotEntry {
        gains: 0x1000_1000,
        flush: 0,
        rear: 2,
        seen: Seen::Frames { count: 2 },
        first: 0,
    }; SLOTS],
    scales: [0x1000; SLOTS],
    mono: 2,
};

const FRAMES: [Frame; 2] = [Frame { left: 1, right: 2 }, Frame { left: 3, right: 4 }];

/// Whether a log has one entry, and these frames.
fn is_logged(log: &FastLog, entry: &CycleEntry, frames: &[Frame]) -> bool {
    log.len() == 1
        && log.entry(0) == Some(entry)
        && log.entry(1).is_none()
        && log.frames() == frames
}

#[test]
fn a_log_is_its_entries_and_frames(rt: HostRuntime) -> Result<(), Fail> {
    let mut log = FastLog::with_room(rt.alloc(), 2, 4)?;
    let entry = ENTRY;
    log.push_frames(&FRAMES);
    log.push(entry);
    assert!(rt; is_logged(&log, &entry, &FRAMES));
    Ok(())
}

#[test]
fn a_list_with_room(rt: HostRuntime) -> Result<(), Fail> {
    let look = CommandLook {
        flush: 0,
        rear: 2,
        seen: Seen::Frames { count: 2 },
        code: 1,
        argument: 0,
    };
    let mut looks = CommandLooks::with_room(rt.alloc(), 64)?;
    looks.push(look);
    assert!(rt; looks.as_slice() == [look].as_slice());
    assert!(rt; look.seen.count() + Seen::Empty.count() == 2);
    Ok(())
}
