//! What the tests share: a render over a store and a sink in memory.
use af_commands::run;
use af_io::{MemSink, MemStore, NoGate};
use af_tally::no_costs;
use std::alloc::Global;
use std::process::Abort;
use std::test::Fail;
use std::thread::Threads;

pub(crate) const RENDER: &str = "render one.toml out.pcm";

/// Words that are separated by spaces.
fn words_of(alloc: Global, line: &str) -> Result<Vec<String>, Fail> {
    let mut words = Vec::new(alloc);
    for word in line.split_whitespace() {
        words.push(String::from_str(alloc, word)?)?;
    }
    Ok(words)
}

/// A run over a store and a sink: the exit status, the line, and what OUT holds if it is made.
pub(crate) fn expect<R: Threads + Sync + Abort>(
    rt: &R,
    alloc: Global,
    words: &str,
    (mut store, mut out): (MemStore, MemSink),
    status: u8,
    line: &str,
    output: Option<&[u8]>,
) -> Result<(), Fail> {
    let words = words_of(alloc, words)?;
    let mut steps = no_costs();
    let ended = run(rt, alloc, &words, &mut store, &mut out, &NoGate, &mut steps);
    assert!(rt; ended.code() == status, "{line}");
    assert!(rt; out.bytes() == line.as_bytes(), "{line}");
    assert!(rt; store.file("out.pcm") == output, "{line}");
    Ok(())
}

/// A sink that never fails.
pub(crate) fn sink(alloc: Global) -> MemSink {
    MemSink::new(alloc, Vec::new(alloc))
}

/// So many bytes of stereo frames that are numbered from 1.
pub(crate) fn numbered(alloc: Global, length: usize) -> Result<Vec<u8>, Fail> {
    let mut bytes = Vec::new(alloc);
    for i in 0..length {
        let number = (i / 4 % 255) as u8 + 1;
        bytes.push(if i % 2 == 0 { number } else { 0 })?;
    }
    Ok(bytes)
}
