//! Sessions whose sound and line are known: flushes, drains, pauses, buffers of the normal mixer, and clients that poke.
use crate::sounds::{RENDER, expect, sink};
use af_io::MemStore;
use std::alloc::Global;
use std::process::Abort;
use std::test::Fail;
use std::thread::Threads;

/// A track of a session: its kind, its channels, its ops, and the samples of its file. Its buffer has 8 frames.
#[derive(Clone, Copy)]
struct Voice<'a> {
    kind: &'a str,
    channels: u32,
    ops: &'a str,
    samples: &'a [i16],
}

/// How a session is played: its version, the frames of a cycle, the cycles of a buffer of the normal mixer, and its turns.
#[derive(Clone, Copy)]
struct Plan<'a> {
    version: u32,
    frames: u32,
    normal: u32,
    turns: &'a str,
}

/// Items that are separated by commas, each in quotes.
fn quoted(alloc: Global, list: &str) -> Result<String, Fail> {
    let mut text = String::new(alloc);
    for item in list.split(',') {
        text.push_str(format!(in alloc; "\"{item}\", ")?.as_str())?;
    }
    Ok(text)
}

/// The table of the track with a number.
fn table_of(alloc: Global, number: usize, voice: Voice<'_>) -> Result<String, Fail> {
    let ops = quoted(alloc, voice.ops)?;
    Ok(format!(in alloc;
        "[[track]]\nkind = \"{}\"\nframes = 8\nchannels = {}\nfile = \"t{number}.pcm\"\nops = [{ops}]\n",
        voice.kind, voice.channels
    )?)
}

/// The script of a session.
fn script_of(alloc: Global, plan: Plan<'_>, voices: &[Voice<'_>]) -> Result<String, Fail> {
    let turns = quoted(alloc, plan.turns)?;
    let mut text = format!(in alloc;
        "version = {}\nframes = {}\nnormal = {}\ncycles = 100\nturns = [{turns}]\n",
        plan.version, plan.frames, plan.normal
    )?;
    for (number, voice) in voices.iter().enumerate() {
        text.push_str(table_of(alloc, number, *voice)?.as_str())?;
    }
    Ok(text)
}

/// The bytes of samples.
fn bytes_of(alloc: Global, samples: &[i16]) -> Result<Vec<u8>, Fail> {
    let mut bytes = Vec::new(alloc);
    for sample in samples {
        bytes.extend_from_slice(&sample.to_le_bytes())?;
    }
    Ok(bytes)
}

/// Puts the file of the track with a number.
fn put_file(
    alloc: Global,
    store: &mut MemStore,
    number: usize,
    samples: &[i16],
) -> Result<(), Fail> {
    let name = format!(in alloc; "t{number}.pcm")?;
    let bytes = bytes_of(alloc, samples)?;
    store.put(name.as_str(), &bytes)?;
    Ok(())
}

/// A store with the script and the files of a session.
fn store_of(alloc: Global, plan: Plan<'_>, voices: &[Voice<'_>]) -> Result<MemStore, Fail> {
    let script = script_of(alloc, plan, voices)?;
    let mut store = MemStore::new(alloc, Vec::new(alloc));
    store.put("one.toml", script.as_str().as_bytes())?;
    for (number, voice) in voices.iter().enumerate() {
        put_file(alloc, &mut store, number, voice.samples)?;
    }
    Ok(store)
}

/// A session, its line, and the samples of its output.
type Session<'a> = (Plan<'a>, &'a [Voice<'a>], &'a str, &'a [i16]);

/// The line and the output of a session.
fn expect_session<R: Threads + Sync + Abort>(
    rt: &R,
    alloc: Global,
    (plan, voices, line, samples): Session<'_>,
) -> Result<(), Fail> {
    let output = bytes_of(alloc, samples)?;
    let ends = (store_of(alloc, plan, voices)?, sink(alloc));
    expect(rt, alloc, RENDER, ends, 0, line, Some(&output))
}

/// The line and the output of each of some sessions.
fn expect_sessions<R: Threads + Sync + Abort>(
    rt: &R,
    alloc: Global,
    sessions: &[Session<'_>],
) -> Result<(), Fail> {
    for session in sessions {
        expect_session(rt, alloc, *session)?;
    }
    Ok(())
}

/// Version 1, with cycles of two frames and buffers of one cycle.
const FIRST: Plan<'static> = Plan {
    version: 1,
    frames: 2,
    normal: 1,
    turns: "c 0,n,c 0,f 1",
};

/// A fast stereo track.
const FAST: Voice<'static> = Voice {
    kind: "fast",
    channels: 2,
    ops: "open,start,write 2",
    samples: &[1000, -1000, 2000, -2000],
};

/// A track that flushes between two writes.
const FLUSHES: Voice<'static> = Voice {
    ops: "open,write 3,flush,write 2,start",
    samples: &[1, 1, 2, 2, 3, 3, 4, 4, 5, 5],
    ..FAST
};

/// A flush discards all that was released before it is seen; by the rules of version 2 what was released before it was made. A flush of an active track is no call.
const FLUSHED: &[Session<'static>] = &[
    (
        Plan {
            turns: "c 0,n,f 2",
            ..FIRST
        },
        &[FLUSHES],
        "cycles 2 mixed 0 dropped 5 queued 0 peak 0\n",
        &[0; 8],
    ),
    (
        Plan {
            version: 2,
            turns: "c 0,n,f 2",
            ..FIRST
        },
        &[FLUSHES],
        "cycles 2 mixed 2 dropped 3 queued 0 peak 5\n",
        &[0, 0, 0, 0, 4, 4, 5, 5],
    ),
    (
        FIRST,
        &[Voice {
            ops: "open,start,write 2,flush",
            ..FAST
        }],
        "cycles 1 mixed 2 dropped 0 queued 0 peak 2000\n",
        &[1000, -1000, 2000, -2000],
    ),
];

#[test]
fn flushes_discard(rt: HostRuntime) -> Result<(), Fail> {
    expect_sessions(&rt, rt.alloc(), FLUSHED)
}

/// A part of a buffer and then silence; a drain, and that of a track without a frame; a pause, and a start after it.
const HEARD: &[Session<'static>] = &[
    (
        Plan {
            frames: 4,
            turns: "c 0,n,c 0,f 2",
            ..FIRST
        },
        &[Voice {
            ops: "open,start,write 3",
            samples: &[1, 1, 2, 2, 3, 3],
            ..FAST
        }],
        "cycles 2 mixed 3 dropped 0 queued 0 peak 3\n",
        &[1, 1, 2, 2, 3, 3, 0, 0, 0, 0, 0, 0, 0, 0, 0, 0],
    ),
    (
        Plan {
            turns: "c 0,n,c 0,f 1,c 0,n,f 1,n,f 1,n,n,c 0",
            ..FIRST
        },
        &[Voice {
            ops: "open,start,yield,write 4,stop,drain",
            samples: &[1, 1, 2, 2, 3, 3, 4, 4],
            ..FAST
        }],
        "cycles 3 mixed 4 dropped 0 queued 0 peak 4\n",
        &[0, 0, 0, 0, 1, 1, 2, 2, 3, 3, 4, 4],
    ),
    (
        Plan {
            turns: "c 0,n,f 1,c 0,n,n,c 0",
            ..FIRST
        },
        &[Voice {
            ops: "open,start,stop,drain,remove",
            samples: &[],
            ..FAST
        }],
        "cycles 1 mixed 0 dropped 0 queued 0 peak 0\n",
        &[0; 4],
    ),
    (
        Plan {
            turns: "c 0,n,c 0,n,f 1,n,f 1,c 0,n,f 1",
            ..FIRST
        },
        &[Voice {
            ops: "open,start,write 4,pause,yield,start,yield",
            samples: &[1, -1, 2, -2, 3, -3, 4, -4],
            ..FAST
        }],
        "cycles 2 mixed 4 dropped 0 queued 0 peak 4\n",
        &[1, -1, 2, -2, 3, -3, 4, -4],
    ),
];

#[test]
fn what_is_written_is_heard(rt: HostRuntime) -> Result<(), Fail> {
    expect_sessions(&rt, rt.alloc(), HEARD)
}

/// A normal track is mixed by buffers of two cycles.
const BUFFERED: &[Session<'static>] = &[(
    Plan {
        normal: 2,
        turns: "c 0,n,c 0,n,f 3",
        ..FIRST
    },
    &[Voice {
        kind: "normal",
        channels: 1,
        ops: "open,start,write 5,yield",
        samples: &[1, 2, 3, 4, 5],
    }],
    "cycles 3 mixed 4 dropped 0 queued 1 peak 2\n",
    &[0, 0, 0, 0, 0, 0, 0, 0, 1, 1, 2, 2],
)];

#[test]
fn a_normal_track_is_heard_by_buffers(rt: HostRuntime) -> Result<(), Fail> {
    expect_sessions(&rt, rt.alloc(), BUFFERED)
}

/// A client that pokes a rear shuts its own track alone, and one that pokes its gains is heard at unity and not counted.
const POKED: &[Session<'static>] = &[
    (
        Plan {
            turns: "c 0,c 1,n,c 0,c 1,f 1,n,c 0",
            ..FIRST
        },
        &[
            Voice {
                ops: "open,start,poke stream 1 9,yield,write 1",
                samples: &[9, 9],
                ..FAST
            },
            Voice {
                ops: "open,start,write 2,yield",
                ..FAST
            },
        ],
        "cycles 1 mixed 2 dropped 0 queued 0 peak 2000\n",
        &[1000, -1000, 2000, -2000],
    ),
    (
        FIRST,
        &[Voice {
            ops: "open,start,poke stream 5 4294967295,write 2",
            ..FAST
        }],
        "cycles 1 mixed 0 dropped 0 queued 0 peak 2000\n",
        &[1000, -1000, 2000, -2000],
    ),
];

#[test]
fn a_poke_stays_in_its_track(rt: HostRuntime) -> Result<(), Fail> {
    expect_sessions(&rt, rt.alloc(), POKED)
}
