//! Traces: the log of a play, whatever the order of its parties' turns.
use crate::shared::{WHOLE, given, sink, words_of};
use af_commands::run;
use af_io::{MemStore, NoGate};
use af_tally::no_costs;
use std::alloc::Global;
use std::process::Abort;
use std::str;
use std::test::Fail;
use std::thread::Threads;

/// How many lines of a text begin so.
fn count_begun(text: &str, begin: &str) -> usize {
    text.lines().filter(|line| line.starts_with(begin)).count()
}

/// How many notes the last line of a log says were refused.
fn refused_in(log: &str) -> Option<usize> {
    log.lines()
        .last()?
        .strip_prefix("refused ")?
        .parse::<usize>()
        .ok()
}

/// The text of a file.
fn text_in<'a>(store: &'a MemStore, name: &str) -> &'a str {
    str::from_utf8(store.file(name).unwrap_or(&[])).unwrap_or("")
}

/// Whether a log notes or refuses each entry of a journal, and refuses so many at most.
fn is_log(journal: &str, log: &str, most_refused: usize) -> bool {
    let refused = refused_in(log).unwrap_or(usize::MAX);
    let lines = log.lines().count();
    let entries = count_begun(journal, "y ");
    refused <= most_refused
        && lines.wrapping_add(refused) == entries.wrapping_add(1)
        && (log.starts_with("0 0 1 0 0 0\n") || log.starts_with("0 1 "))
}

/// A trace of a whole play with a log of this room, after which so many notes at most were refused.
fn expect_trace<R: Threads + Sync + Abort>(
    rt: &R,
    alloc: Global,
    words: &str,
    most_refused: usize,
) -> Result<(), Fail> {
    let words = words_of(alloc, words)?;
    let mut store = given(alloc, 0, WHOLE, 8)?;
    let mut out = sink(alloc);
    let mut steps = no_costs();
    let ended = run(rt, alloc, &words, &mut store, &mut out, &NoGate, &mut steps);
    assert!(rt; ended.code() == 0);
    let (journal, log) = (text_in(&store, "out.txt"), text_in(&store, "log.txt"));
    assert!(rt; is_log(journal, log, most_refused));
    Ok(())
}

/// With room for the notes of two rounds none is refused.
#[test]
fn a_trace_notes_each_entry(rt: HostRuntime) -> Result<(), Fail> {
    expect_trace(
        &rt,
        rt.alloc(),
        "trace one.toml out.pcm out.txt log.txt 32",
        0,
    )
}

/// With room for one, notes and refusals together are the entries.
#[test]
fn a_trace_counts_what_it_refuses(rt: HostRuntime) -> Result<(), Fail> {
    expect_trace(
        &rt,
        rt.alloc(),
        "trace one.toml out.pcm out.txt log.txt 1",
        2000,
    )
}
