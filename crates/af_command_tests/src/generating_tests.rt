//! A session that is generated, and each call of the store that it makes failing in turn.
use crate::shared::{failing_sink, words_of};
use af_commands::run;
use af_io::{MemStore, NoGate};
use af_tally::no_costs;
use std::alloc::Global;
use std::process::Abort;
use std::test::Fail;
use std::thread::Threads;

/// What is written before the session: the name of each file, the number of the call that makes it, which the one that fills it follows, and its bytes.
const WRITTEN: &[(&str, u64, usize)] = &[
    ("g0.pcm", 1, 200000),
    ("g1.pcm", 3, 400000),
    ("g2.pcm", 5, 200000),
    ("g3.pcm", 7, 400000),
    ("g4.pcm", 9, 200000),
    ("g5.pcm", 11, 400000),
    ("g6.pcm", 13, 200000),
    ("g7.pcm", 15, 400000),
    ("s.toml", 17, 50690),
];

/// Calls of the store and of the sink that fail, by their numbers (1000: none), the status, the bytes of OUT, and what is printed.
type GenerateFailure<'a> = (u64, u64, u8, Option<usize>, &'a str);

/// The first and the last call that fill OUT, and the line.
const FAILURES: &[GenerateFailure<'static>] = &[
    (28, 0, 5, Some(6656), ""),
    (58, 0, 5, Some(400896), ""),
    (1000, 1, 5, Some(402432), "cycles 1572 mixed 800000 dr"),
];

/// The length of a file, None if it isn't there.
fn length_of(store: &MemStore, name: &str) -> Option<usize> {
    match store.file(name) {
        Some(bytes) => Some(bytes.len()),
        None => None,
    }
}

/// What is left of a file of so many bytes that one call makes and the next one fills, if one fails.
fn length_left(failing: u64, made: u64, length: usize) -> Option<usize> {
    match failing.saturating_sub(made) {
        0 => None,
        1 => Some(length / 2),
        _ => Some(length),
    }
}

/// Whether the files that are written before the session are left as they must be.
fn are_left(store: &MemStore, failing: u64) -> bool {
    for (name, made, length) in WRITTEN {
        if length_of(store, name) != length_left(failing, *made, *length) {
            return false;
        }
    }
    let first = store.file("g0.pcm").unwrap_or(&[]);
    first.is_empty() || first.starts_with(&[0x30, 0xe0, 0x16, 0xfc])
}

/// A session that is generated while calls fail.
fn expect_generated<R: Threads + Sync + Abort>(
    rt: &R,
    alloc: Global,
    (failing, of_sink, status, sound, line): GenerateFailure<'_>,
) -> Result<(), Fail> {
    let words = words_of(alloc, "generate 0 s.toml out.pcm")?;
    let mut out = failing_sink(alloc, of_sink)?;
    let mut store = MemStore::new(alloc, [failing].to_vec(alloc)?);
    let mut steps = no_costs();
    let ended = run(rt, alloc, &words, &mut store, &mut out, &NoGate, &mut steps);
    assert!(rt; ended.code() == status, "{failing}");
    assert!(rt; out.bytes() == line.as_bytes(), "{failing}");
    assert!(rt; length_of(&store, "out.pcm") == sound, "{failing}");
    assert!(rt; are_left(&store, failing), "{failing}");
    Ok(())
}

/// Each call before the session: those that write the files and the script, the loads of the files (19 to 26), and the one that makes OUT.
#[test]
fn each_call_before_a_generated_session_fails(rt: HostRuntime) -> Result<(), Fail> {
    for failing in 1..28 {
        expect_generated(&rt, rt.alloc(), (failing, 0, 5, None, ""))?;
    }
    Ok(())
}

#[test]
fn calls_of_a_generated_session_fail(rt: HostRuntime) -> Result<(), Fail> {
    for failure in FAILURES {
        expect_generated(&rt, rt.alloc(), *failure)?;
    }
    Ok(())
}
