//! Each call of the store and of the sink fails in turn: the status, what is left of each file, and what is printed.
use crate::ending_tests::{LOOP, RECORD, RENDER};
use crate::shared::{expect, failing_sink, given, numbered};
use std::alloc::Global;
use std::process::Abort;
use std::test::Fail;
use std::thread::Threads;

/// Calls of the store and of the sink that fail, by their numbers (0: none), the status, how many bytes of its sound OUT holds, and what is printed.
type Failure<'a> = (u64, u64, u8, Option<usize>, &'a str);

/// One track that is drained: a silent cycle, and two with its four frames.
const DRAINED: &str =
    "version = 1\nframes = 2\nnormal = 1\ncycles = 100\nturns = [\"c 0\", \"n\", \"c 0\", \"f 1\", \"c 0\", \"n\", \"f 1\", \"n\", \"f 1\", \"n\", \"n\", \"c 0\"]\n[[track]]\nkind = \"fast\"\nframes = 8\nchannels = 2\nfile = \"in.pcm\"\nops = [\"open\", \"start\", \"yield\", \"write 4\", \"stop\", \"drain\"]\n";

/// The sound of the drained track.
const HEARD: &[u8] = &[
    0, 0, 0, 0, 0, 0, 0, 0, 1, 0, 1, 0, 2, 0, 2, 0, 3, 0, 3, 0, 4, 0, 4, 0,
];

const RENDERS: &[Failure<'static>] = &[
    (
        0,
        0,
        0,
        Some(24),
        "cycles 3 mixed 4 dropped 0 queued 0 peak 4\n",
    ),
    (1, 0, 5, None, ""),
    (2, 0, 5, None, ""),
    (3, 0, 5, None, ""),
    (4, 0, 5, Some(12), ""),
    (0, 1, 5, Some(24), "cycles 3 mixed 4 drop"),
];

const RECORDINGS: &[Failure<'static>] = &[
    (1, 0, 5, None, ""),
    (2, 0, 5, None, ""),
    (3, 0, 5, Some(40), ""),
    (0, 1, 5, Some(80), "supplied 20 r"),
];

const LOOPS: &[Failure<'static>] = &[
    (1, 0, 5, None, ""),
    (2, 0, 5, None, ""),
    (3, 0, 5, Some(40), ""),
    (0, 1, 5, Some(80), "cycles 2 fill"),
];

/// Runs over the script and a file of so many bytes, of which calls fail, and whose sound is this if it is whole.
fn expect_failures<R: Threads + Sync + Abort>(
    rt: &R,
    alloc: Global,
    words: &str,
    length: usize,
    sound: &[u8],
    failures: &[Failure<'_>],
) -> Result<(), Fail> {
    for (of_store, of_sink, status, left, line) in failures {
        let output = match left {
            Some(left) => sound.get(..*left),
            None => None,
        };
        let out = failing_sink(alloc, *of_sink)?;
        let store = given(alloc, *of_store, DRAINED, length)?;
        expect(rt, alloc, words, (store, out), *status, line, output)?;
    }
    Ok(())
}

#[test]
fn each_call_fails_in_turn(rt: HostRuntime) -> Result<(), Fail> {
    let alloc = rt.alloc();
    let sound = numbered(alloc, 80)?;
    expect_failures(&rt, alloc, RENDER, 16, HEARD, RENDERS)?;
    expect_failures(&rt, alloc, RECORD, 80, &sound, RECORDINGS)?;
    expect_failures(&rt, alloc, LOOP, 80, &sound, LOOPS)
}
