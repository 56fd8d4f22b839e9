//! How runs end, and what is refused.
use crate::shared::{expect, numbered, sink};
use af_io::MemStore;
use std::alloc::Global;
use std::process::Abort;
use std::test::Fail;
use std::thread::Threads;

/// Two frames of one stereo track in one cycle.
const ONE: &str =
    "version = 1\nframes = 2\nnormal = 1\ncycles = 100\nturns = [\"c 0\", \"n\", \"c 0\", \"f 1\"]\n[[track]]\nkind = \"fast\"\nframes = 8\nchannels = 2\nfile = \"in.pcm\"\nops = [\"open\", \"start\", \"write 2\"]\n";

/// A script without turns.
const IDLE: &str =
    "version = 1\nframes = 2\nnormal = 1\ncycles = 100\n[[track]]\nkind = \"fast\"\nframes = 8\nchannels = 2\nfile = \"in.pcm\"\nops = [\"open\", \"start\"]\n";

/// Two frames of one stereo track in one cycle, by the rules of version 2.
const SECOND: &str =
    "version = 2\nframes = 2\nnormal = 1\ncycles = 100\nturns = [\"c 0\", \"n\", \"c 0\", \"f 1\"]\n[[track]]\nkind = \"fast\"\nframes = 8\nchannels = 2\nfile = \"in.pcm\"\nops = [\"open\", \"start\", \"write 2\"]\n";

const DONE: &str = "cycles 1 mixed 2 dropped 0 queued 0 peak 2\n";

const SILENT: &str = "cycles 0 mixed 0 dropped 0 queued 0 peak 0\n";

const USAGE: &str =
    "usage: render SCRIPT OUT or play SCRIPT OUT JOURNAL or verify SCRIPT OUT JOURNAL or generate NUMBER SCRIPT OUT or record IN OUT N F K or loop IN OUT F K START END COUNT or trace SCRIPT OUT JOURNAL LOG ROOM\n";

pub(crate) const RENDER: &str = "render one.toml out.pcm";

pub(crate) const RECORD: &str = "record in.pcm out.pcm 20 20 20";

pub(crate) const LOOP: &str = "loop in.pcm out.pcm 10 2 0 0 0";

/// A run: its words, the script and the length of the file that are there, the status, the line, and how many of the file's bytes OUT holds.
type Ending<'a> = (
    &'a str,
    Option<&'a str>,
    Option<usize>,
    u8,
    &'a str,
    Option<usize>,
);

/// What is done and what is refused.
const ENDINGS: &[Ending<'static>] = &[
    (RENDER, Some(ONE), Some(80), 0, DONE, Some(8)),
    (
        RENDER,
        Some(ONE),
        Some(7),
        4,
        "file: track 0 ragged 7\n",
        None,
    ),
    (
        RENDER,
        Some(ONE),
        Some(4),
        4,
        "file: track 0 short 1 2\n",
        None,
    ),
    (RENDER, Some(ONE), None, 4, "file: track 0 missing\n", None),
    (RENDER, None, Some(80), 4, "file: script missing\n", None),
    (RENDER, Some("= 1"), Some(80), 3, "script: toml\n", None),
    (RENDER, Some(IDLE), Some(80), 0, SILENT, Some(0)),
    (RENDER, Some(SECOND), Some(80), 0, DONE, Some(8)),
    ("render one.toml", Some(ONE), Some(80), 2, USAGE, None),
    ("", Some(ONE), Some(80), 2, USAGE, None),
    (
        "play one.toml out.pcm out.pcm",
        Some(ONE),
        Some(80),
        2,
        USAGE,
        None,
    ),
    (
        RECORD,
        None,
        Some(80),
        0,
        "supplied 20 read 20 lost 0\n",
        Some(80),
    ),
    (RECORD, None, Some(7), 4, "file: track 0 ragged 7\n", None),
    (RECORD, None, None, 4, "file: track 0 missing\n", None),
    (
        LOOP,
        None,
        Some(80),
        0,
        "cycles 2 filled 20 shut 0\n",
        Some(80),
    ),
    (
        LOOP,
        None,
        Some(32768),
        0,
        "cycles 2 filled 20 shut 0\n",
        Some(80),
    ),
    (LOOP, None, Some(32769), 4, "file: track 0 long\n", None),
    (LOOP, None, Some(7), 4, "file: track 0 ragged 7\n", None),
    (LOOP, None, Some(0), 4, "file: track 0 short 0 1\n", None),
    (LOOP, None, None, 4, "file: track 0 missing\n", None),
];

/// A store with these files.
fn store_of(alloc: Global, script: Option<&str>, length: Option<usize>) -> Result<MemStore, Fail> {
    let file = numbered(alloc, length.unwrap_or(0))?;
    let mut store = MemStore::new(alloc, Vec::new(alloc));
    if let Some(text) = script {
        store.put("one.toml", text.as_bytes())?;
    }
    if length.is_some() {
        store.put("in.pcm", &file)?;
    }
    Ok(store)
}

/// A run over a store with these files.
fn expect_ending<R: Threads + Sync + Abort>(
    rt: &R,
    alloc: Global,
    (words, script, length, status, line, left): Ending<'_>,
) -> Result<(), Fail> {
    let file = numbered(alloc, 80)?;
    let store = store_of(alloc, script, length)?;
    let output = match left {
        Some(left) => file.get(..left),
        None => None,
    };
    expect(rt, alloc, words, (store, sink(alloc)), status, line, output)
}

#[test]
fn each_run_ends_as_it_must(rt: HostRuntime) -> Result<(), Fail> {
    for ending in ENDINGS {
        expect_ending(&rt, rt.alloc(), *ending)?;
    }
    Ok(())
}
