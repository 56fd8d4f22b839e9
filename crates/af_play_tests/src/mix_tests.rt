//! Mixes of tracks whose sums are known.
use crate::sounds::{RENDER, expect, sink};
use af_audit::pcm;
use af_base::{Cycle, CycleEntry, FastLog, Frame, SLOTS, Seen, SlotEntry};
use af_io::MemStore;
use std::alloc::Global;
use std::process::Abort;
use std::test::Fail;
use std::thread::Threads;

/// A track of a worked case: its channels, its key of scale, its op of gain, and the samples that its client writes.
#[derive(Clone, Copy)]
struct Voice<'a> {
    channels: u32,
    scale: &'a str,
    gain: &'a str,
    count: u32,
    bytes: &'a [u8],
}

/// The turns of clients in order.
fn client_turns(alloc: Global, count: usize) -> Result<String, Fail> {
    let mut text = String::new(alloc);
    for number in 0..count {
        text.push_str(format!(in alloc; "\"c {number}\", ")?.as_str())?;
    }
    Ok(text)
}

/// The table of the track with a number.
fn table_of(alloc: Global, number: usize, voice: Voice<'_>) -> Result<String, Fail> {
    Ok(format!(in alloc;
        "[[track]]\nkind = \"fast\"\nframes = 8\nchannels = {}\nfile = \"t{number}.pcm\"\n{}ops = [\"open\", \"start\", {}\"write {}\"]\n",
        voice.channels, voice.scale, voice.gain, voice.count
    )?)
}

/// The script of some tracks, in one cycle of two frames.
fn script_of(alloc: Global, voices: &[Voice<'_>]) -> Result<String, Fail> {
    let clients = client_turns(alloc, voices.len())?;
    let mut text = format!(in alloc;
        "version = 1\nframes = 2\nnormal = 1\ncycles = 100\nturns = [{clients}\"n\", {clients}\"f 1\"]\n"
    )?;
    for (number, voice) in voices.iter().enumerate() {
        let table = table_of(alloc, number, *voice)?;
        text.push_str(table.as_str())?;
    }
    Ok(text)
}

/// Puts the file of the track with a number.
fn put_file(alloc: Global, store: &mut MemStore, number: usize, bytes: &[u8]) -> Result<(), Fail> {
    let name = format!(in alloc; "t{number}.pcm")?;
    store.put(name.as_str(), bytes)?;
    Ok(())
}

/// A store with the script and the files of some tracks.
fn store_of(alloc: Global, voices: &[Voice<'_>]) -> Result<MemStore, Fail> {
    let script = script_of(alloc, voices)?;
    let mut store = MemStore::new(alloc, Vec::new(alloc));
    store.put("one.toml", script.as_str().as_bytes())?;
    for (number, voice) in voices.iter().enumerate() {
        put_file(alloc, &mut store, number, voice.bytes)?;
    }
    Ok(store)
}

/// A track of two channels at unity.
const TONE: Voice<'static> = Voice {
    channels: 2,
    scale: "",
    gain: "",
    count: 2,
    bytes: &[0xe8, 3, 0x18, 0xfc, 0xd0, 7, 0x30, 0xf8],
};

/// A track of full samples.
const LOUD: Voice<'static> = Voice {
    count: 1,
    bytes: &[0xff, 0x7f, 0x00, 0x80],
    ..TONE
};

/// A track that turns the left of those full samples down.
const TURNED: Voice<'static> = Voice {
    count: 1,
    bytes: &[0x01, 0x80, 0, 0],
    ..TONE
};

/// A track of one channel.
const ONE: Voice<'static> = Voice {
    channels: 1,
    count: 1,
    bytes: &[0xe8, 3],
    ..TONE
};

/// The output of some tracks in one cycle of two frames, and the line.
fn expect_mix<R: Threads + Sync + Abort>(
    rt: &R,
    alloc: Global,
    voices: &[Voice<'_>],
    want: [u8; 8],
    line: &str,
) -> Result<(), Fail> {
    let store = store_of(alloc, voices)?;
    let output = Some(want.as_slice());
    expect(rt, alloc, RENDER, (store, sink(alloc)), 0, line, output)
}

/// Some tracks, their output in one cycle of two frames, and the line.
type Mix<'a> = (&'a [Voice<'a>], [u8; 8], &'a str);

/// Several tracks: their sum, clamped once, and silence of one that has no frame left. As many as hold a slot, and one more, which waits.
const SUMS: &[Mix<'static>] = &[
    (
        &[TONE, LOUD],
        [0xff, 0x7f, 0x00, 0x80, 0xd0, 7, 0x30, 0xf8],
        "cycles 1 mixed 3 dropped 0 queued 0 peak 32768\n",
    ),
    (
        &[LOUD, LOUD, TURNED],
        [0xff, 0x7f, 0x00, 0x80, 0, 0, 0, 0],
        "cycles 1 mixed 3 dropped 0 queued 0 peak 32768\n",
    ),
    (
        &[ONE; 7],
        [0x58, 0x1b, 0x58, 0x1b, 0, 0, 0, 0],
        "cycles 1 mixed 7 dropped 0 queued 0 peak 7000\n",
    ),
    (
        &[LOUD; 31],
        [0xff, 0x7f, 0x00, 0x80, 0, 0, 0, 0],
        "cycles 1 mixed 31 dropped 0 queued 0 peak 32768\n",
    ),
    (
        &[LOUD; 32],
        [0xff, 0x7f, 0x00, 0x80, 0, 0, 0, 0],
        "cycles 1 mixed 31 dropped 0 queued 1 peak 32768\n",
    ),
];

/// Each output of some mixes, and its line.
fn expect_mixes<R: Threads + Sync + Abort>(
    rt: &R,
    alloc: Global,
    mixes: &[Mix<'_>],
) -> Result<(), Fail> {
    for (voices, want, line) in mixes {
        expect_mix(rt, alloc, voices, *want, line)?;
    }
    Ok(())
}

#[test]
fn tracks_are_added(rt: HostRuntime) -> Result<(), Fail> {
    expect_mixes(&rt, rt.alloc(), SUMS)
}

/// Gains above unity count as unity, a scale turns a gain down, halves are rounded down, and mono has two gains.
const GAINS: &[Mix<'static>] = &[
    (
        &[Voice {
            gain: "\"gain 4097 65535\", ",
            ..TONE
        }],
        [0xe8, 3, 0x18, 0xfc, 0xd0, 7, 0x30, 0xf8],
        "cycles 1 mixed 2 dropped 0 queued 0 peak 2000\n",
    ),
    (
        &[Voice {
            scale: "scale = 2048\n",
            ..TONE
        }],
        [0xf4, 1, 0x0c, 0xfe, 0xe8, 3, 0x18, 0xfc],
        "cycles 1 mixed 2 dropped 0 queued 0 peak 1000\n",
    ),
    (
        &[Voice {
            gain: "\"gain 2048 2048\", ",
            count: 1,
            bytes: &[1, 0, 0xff, 0xff, 0, 0, 0, 0],
            ..TONE
        }],
        [0, 0, 0xff, 0xff, 0, 0, 0, 0],
        "cycles 1 mixed 1 dropped 0 queued 0 peak 1\n",
    ),
    (
        &[Voice {
            channels: 1,
            gain: "\"gain 4096 2048\", ",
            bytes: &[1, 0, 0xfe, 0xff, 0, 0, 0, 0],
            ..TONE
        }],
        [1, 0, 0, 0, 0xfe, 0xff, 0xff, 0xff],
        "cycles 1 mixed 2 dropped 0 queued 0 peak 2\n",
    ),
    (
        &[Voice {
            channels: 1,
            count: 3,
            bytes: &[1, 0, 2, 0, 3, 0, 0, 0],
            ..TONE
        }],
        [1, 0, 1, 0, 2, 0, 2, 0],
        "cycles 1 mixed 2 dropped 0 queued 1 peak 2\n",
    ),
];

#[test]
fn gains_are_applied(rt: HostRuntime) -> Result<(), Fail> {
    expect_mixes(&rt, rt.alloc(), GAINS)
}

// An entry of one track in slot 1 at half gain on the right, which took so many frames from a place on.
fn entry_of(cycle: Cycle, first: usize, count: u32) -> CycleEntry {
    let none = SlotEntry {
        gains: 0,
        flush: 0,
        rear: 0,
        seen: Seen::Absent,
        first: 0,
    };
    let mut slots = [none; SLOTS];
    slots[1] = SlotEntry {
        gains: 0x0800_1000,
        flush: 0,
        rear: 0,
        seen: Seen::Frames { count },
        first,
    };
    let mut scales = [0u16; SLOTS];
    scales[1] = 0x1000;
    CycleEntry {
        state: 1,
        cycle,
        slots,
        scales,
        mono: 0,
    }
}

// The frames that the entries took.
const FRAMES: [Frame; 3] = [
    Frame { left: 1, right: 2 },
    Frame {
        left: 300,
        right: -4,
    },
    Frame {
        left: -2,
        right: 600,
    },
];

// What is heard of these frames.
const SOUND: [u8; 16] = [1, 0, 1, 0, 44, 1, 254, 255, 254, 255, 44, 1, 0, 0, 0, 0];

#[test]
fn mixes_sound_one_after_the_other(rt: HostRuntime) -> Result<(), Fail> {
    let mut log = FastLog::with_room(rt.alloc(), 3, 2)?;
    log.push_frames(&FRAMES);
    log.push(entry_of(Cycle::Mixed, 0, 2));
    log.push(entry_of(Cycle::Idle, 0, 0));
    log.push(entry_of(Cycle::Mixed, 2, 1));
    let mut out = Vec::new(rt.alloc());
    pcm(rt.alloc(), &log, 2, &mut out)?;
    assert!(rt; out.as_slice() == SOUND.as_slice());
    Ok(())
}
