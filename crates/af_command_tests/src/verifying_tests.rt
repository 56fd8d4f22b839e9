//! What is verified: a play, and what was made of its sound and its journal.
use crate::shared::{expect, failing_sink, given, sink, words_of};
use af_commands::run;
use af_io::{MemStore, NoGate};
use af_tally::no_costs;
use std::alloc::Global;
use std::process::Abort;
use std::test::Fail;
use std::thread::Threads;

const VERIFY: &str = "verify one.toml out.pcm out.txt";

/// One track that plays two frames to their end, with more cycles than it can take.
const WHOLE: &str =
    "version = 1\nframes = 2\nnormal = 1\ncycles = 2000\n[[track]]\nkind = \"fast\"\nframes = 8\nchannels = 2\nfile = \"in.pcm\"\nops = [\"open\", \"start\", \"write 2\", \"stop\", \"drain\", \"remove\"]\n";

/// A store with a play of that script.
fn played<R: Threads + Sync + Abort>(rt: &R, alloc: Global) -> Result<MemStore, Fail> {
    let words = words_of(alloc, "play one.toml out.pcm out.txt")?;
    let mut store = given(alloc, 0, WHOLE, 8)?;
    let mut out = sink(alloc);
    let mut steps = no_costs();
    let ended = run(rt, alloc, &words, &mut store, &mut out, &NoGate, &mut steps);
    assert!(rt; ended.code() == 0);
    Ok(store)
}

/// Verifies what is in a store.
fn expect_verdict<R: Threads + Sync + Abort>(
    rt: &R,
    alloc: Global,
    mut store: MemStore,
    status: u8,
    line: &str,
) -> Result<(), Fail> {
    let words = words_of(alloc, VERIFY)?;
    let mut out = sink(alloc);
    let mut steps = no_costs();
    let ended = run(rt, alloc, &words, &mut store, &mut out, &NoGate, &mut steps);
    assert!(rt; ended.code() == status, "{line}");
    assert!(rt; out.bytes() == line.as_bytes(), "{line}");
    Ok(())
}

/// A play is legal.
#[test]
fn a_play_is_verified(rt: HostRuntime) -> Result<(), Fail> {
    let alloc = rt.alloc();
    let store = played(&rt, alloc)?;
    expect_verdict(&rt, alloc, store, 0, "legal\n")
}

/// A file of a play that is written over, and what is found then.
const OVERWRITTEN: &[(&str, &[u8], &str)] = &[
    ("out.pcm", &[9], "refused: pcm 0\n"),
    ("out.txt", b"C 0\n", "refused: line 1\n"),
    ("out.txt", b"", "refused: round 0 party 0\n"),
];

/// Another sound is refused at its first byte, a text that is no journal at its first line, and a journal without rounds at the first client.
#[test]
fn what_was_changed_is_refused(rt: HostRuntime) -> Result<(), Fail> {
    let alloc = rt.alloc();
    for (name, bytes, line) in OVERWRITTEN {
        let mut store = played(&rt, alloc)?;
        store.put(name, bytes)?;
        expect_verdict(&rt, alloc, store, 7, line)?;
    }
    Ok(())
}

/// A sound and a journal that aren't there.
#[test]
fn what_is_verified_must_be_there(rt: HostRuntime) -> Result<(), Fail> {
    let alloc = rt.alloc();
    expect_verdict(
        &rt,
        alloc,
        given(alloc, 0, WHOLE, 8)?,
        4,
        "file: pcm missing\n",
    )?;
    let mut store = given(alloc, 0, WHOLE, 8)?;
    store.put("out.pcm", b"")?;
    expect_verdict(&rt, alloc, store, 4, "file: journal missing\n")
}

/// Calls of the store and of the sink that fail, by their numbers (0: none), a sound in place of that of the play, the status, and what is printed.
type VerifyFailure<'a> = (u64, u64, Option<&'a [u8]>, u8, &'a str);

/// The store is asked for the script, the file, the sound and the journal.
const FAILURES: &[VerifyFailure<'static>] = &[
    (1, 0, None, 5, ""),
    (2, 0, None, 5, ""),
    (3, 0, None, 5, ""),
    (4, 0, None, 5, ""),
    (5, 0, None, 0, "legal\n"),
    (0, 1, None, 5, "leg"),
    (0, 1, Some(&[9]), 5, "refused"),
];

/// A verify of a play, of which calls fail, leaves the sound as it is.
fn expect_verify_failure<R: Threads + Sync + Abort>(
    rt: &R,
    alloc: Global,
    play: &MemStore,
    (of_store, of_sink, other, status, line): VerifyFailure<'_>,
) -> Result<(), Fail> {
    let sound = other.unwrap_or(play.file("out.pcm").unwrap_or(&[]));
    let out = failing_sink(alloc, of_sink)?;
    let mut store = given(alloc, of_store, WHOLE, 8)?;
    store.put("out.pcm", sound)?;
    store.put("out.txt", play.file("out.txt").unwrap_or(&[]))?;
    expect(rt, alloc, VERIFY, (store, out), status, line, Some(sound))
}

/// Each call fails in turn.
#[test]
fn each_call_of_a_verify_fails_in_turn(rt: HostRuntime) -> Result<(), Fail> {
    let alloc = rt.alloc();
    let play = played(&rt, alloc)?;
    for failure in FAILURES {
        expect_verify_failure(&rt, alloc, &play, *failure)?;
    }
    Ok(())
}
