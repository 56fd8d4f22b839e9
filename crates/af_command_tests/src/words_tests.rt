//! Which words fit.
use crate::words::words_of;
use af_words::request_of;
use std::alloc::Global;
use std::mem::drop;
use std::test::*;

/// Words that fit.
const FITTING: &[&str] = &[
    "render a b",
    "generate 0 a b",
    "generate 2147483647 a b",
    "generate 0 g8.pcm g.pcm",
    "play a b c",
    "verify a b c",
    "record a b 8192 1024 1024",
    "record a b 1 1 1",
    "loop a b 1024 2048 4294967295 4294967295 4294967295",
    "loop a b 1 1 0 0 0",
    "trace a b c d 1",
    "trace a b c d 1024",
];

/// Words that do not fit.
const MISFITS: &[&str] = &[
    "render a",
    "render a b c",
    "",
    "help",
    "--help",
    "--version",
    "-x",
    "render --help b",
    "render -- a b",
    "render a a",
    "render .a b",
    "generate 2147483648 a b",
    "trace a b c d",
    "trace a b c d 0",
    "trace a b c d 1025",
    "trace a b c a 1",
    "generate 00 a b",
    "generate 07 a b",
    "generate -1 a b",
    "generate a 0 b",
    "generate 0 a",
    "generate 0 a b c",
    "generate 0 a a",
    "generate 0 a .b",
    "generate 0 g0.pcm b",
    "generate 0 a g7.pcm",
    "play a b",
    "play a b c d",
    "play a a c",
    "play a b a",
    "play a b b",
    "play a b .c",
    "play -- a b c",
    "verify a b",
    "verify a b c d",
    "verify a b b",
    "verify a .b c",
    "record a b 1 1",
    "record a b 1 1 1 1",
    "record a a 1 1 1",
    "record a .b 1 1 1",
    "record a b 0 1 1",
    "record a b 8193 1 1",
    "record a b 1 1025 1",
    "record a b 1 1 0",
    "record a b 01 1 1",
    "record a b 1 +1 1",
    "record -- a b 1 1 1",
    "record",
    "loop a b 1 1 0 0",
    "loop a b 1 1 0 0 0 0",
    "loop a a 1 1 0 0 0",
    "loop .a b 1 1 0 0 0",
    "loop a b 0 1 0 0 0",
    "loop a b 1025 1 0 0 0",
    "loop a b 1 0 0 0 0",
    "loop a b 1 2049 0 0 0",
    "loop a b 1 1 4294967296 0 0",
    "loop a b 1 1 0 4294967296 0",
    "loop a b 1 1 0 0 4294967296",
    "loop a b 1 1 00 0 0",
    "loop a b 1 1 0 0x1 0",
    "loop a b 1 1 0 0 -1",
    "loop",
];

/// Whether the words of a line ask for something, if there is memory.
fn do_fit(alloc: Global, line: &str) -> Option<bool> {
    let words = words_of(alloc, line);
    let fits = match request_of(alloc, &words) {
        Ok(request) => Some(request.is_some()),
        Err(_) => None,
    };
    drop(words);
    fits
}

/// How many lines of words fit, or don't, up to one that is otherwise.
fn count_alike(alloc: Global, lines: &[&str], fits: bool) -> usize {
    let mut count: usize = 0;
    for line in lines {
        if do_fit(alloc, line) != Some(fits) {
            break;
        }
        count = count.saturating_add(1);
    }
    count
}

#[test]
fn words_that_fit(rt: HostRuntime) {
    for (lines, fits) in [(FITTING, true), (MISFITS, false)] {
        let alike = count_alike(rt.alloc(), lines, fits);
        assert!(rt; alike == lines.len(), "{fits} {alike}");
    }
}
