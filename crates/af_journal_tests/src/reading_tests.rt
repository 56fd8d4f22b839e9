//! Texts with a line damaged, and cut off, each with the number of its first bad line.
use af_base::Memory;
use af_journal::first_bad_line;
use af_script::{Script, read};
use std::alloc::Global;
use std::mem::drop;
use std::test::Fail;

// A script of two tracks.
const SCRIPT: &str =
    "version = 1\nframes = 2\nnormal = 1\ncycles = 4\nturns = []\n[[track]]\nkind = 'fast'\nframes = 8\nchannels = 2\nfile = 'tone.pcm'\nops = ['open']\n[[track]]\nkind = 'normal'\nframes = 8\nchannels = 1\nfile = 'tone.pcm'\nops = ['open']\n";

// A text for two tracks with each kind of line.
const LINES: [&str; 30] = [
    "R",
    "C 0",
    "s 0 1 0",
    "p 0 4",
    "k 1",
    "l 1",
    "g 268439552",
    "t 2",
    "o 0 5 7",
    "C 1",
    "su 0",
    "N 8 1 0",
    "q 0 0 2 f 2",
    "h 0000000100000000",
    "b 0",
    "a 0 258",
    "q 1 0 0 e",
    "P 1 1",
    "m 0 268439552 0 4 f 1",
    "h 0001ffff",
    "m 1 268439552 1 4 l 3",
    "F",
    "y 1 0",
    "z 0 4096 0 268439552 0 1 f 1",
    "h 00000000",
    "z 1 4096 1 268439552 0 4 x 9 4",
    "y 1 1",
    "R",
    "E",
    "R",
];

// The place of a line, another line for it, and the number of the first bad line then.
const DAMAGES: [(usize, &str, u64); 44] = [
    (0, "r", 1),
    (0, "C 0", 1),
    (1, "C 2", 2),
    (1, "C", 2),
    (2, "s 0 1", 3),
    (2, "N 8 1 0", 3),
    (3, "p 0 4294967296", 4),
    (4, "k -1", 5),
    (5, "l 01", 6),
    (6, "g  1", 7),
    (7, "t", 8),
    (7, "t 2 ", 8),
    (8, "o 2 5 7", 9),
    (9, "C 0", 10),
    (10, "C 1", 11),
    (10, "sx 1", 11),
    (11, "N 8 2 0", 12),
    (11, "N 8 1 18446744073709551616", 12),
    (12, "q 0 0 2 f 0", 13),
    (12, "q 2 0 2 f 2", 13),
    (13, "h 00000001", 14),
    (13, "h 000000010000000g", 14),
    (13, "b 0", 14),
    (14, "b 2", 15),
    (15, "a 0", 16),
    (16, "q 0 0 0 e", 17),
    (17, "P 3", 18),
    (17, "m 0 268439552 0 4 f 1", 18),
    (18, "m 0 268439552 0 4 s 1", 19),
    (19, "h 0001FFFF", 20),
    (20, "m 0 268439552 1 4 l 3", 21),
    (21, "F 0", 22),
    (22, "y 1 4", 23),
    (22, "R", 23),
    (23, "z 0 4095 0 268439552 0 1 f 1", 24),
    (23, "y 1 0", 24),
    (24, "h 00000000 ", 25),
    (25, "z 0 4096 1 268439552 0 4 x 9 4", 26),
    (25, "z 32 4096 1 268439552 0 4 x 9 4", 26),
    (25, "z 1 65536 1 268439552 0 4 e", 26),
    (26, "y 18446744073709551616 1", 27),
    (27, "C 0", 28),
    (28, "E 1", 29),
    (29, "", 30),
];

// How many lines of the text stand there, and the number of the first bad line then.
const FRONTS: [(usize, Option<u64>); 12] = [
    (0, None),
    (1, None),
    (2, Some(3)),
    (3, None),
    (12, Some(13)),
    (13, Some(14)),
    (18, None),
    (19, Some(20)),
    (22, Some(23)),
    (23, Some(24)),
    (24, Some(25)),
    (30, None),
];

// Texts whose last line has no LF, or that aren't texts of lines.
const OTHERS: [(&[u8], u64); 6] = [
    (b"R", 1),
    (b"R\nR", 2),
    (b"R\n\nR", 2),
    (b"\n", 1),
    (b"R\r\n", 1),
    (b"R\n\xff\n", 2),
];

// That script, as it is read.
pub(crate) fn script(alloc: Global) -> Result<Script, Memory> {
    match read(alloc, SCRIPT.as_bytes()) {
        Ok(script) => Ok(script),
        Err(_) => Err(Memory),
    }
}

// The first lines of the text, with another line in one place.
pub(crate) fn text_with(
    alloc: Global,
    count: usize,
    place: usize,
    line: &str,
) -> Result<String, Memory> {
    let mut text = String::new(alloc);
    for (i, right) in LINES.iter().enumerate() {
        if i < count {
            text.push_str(if i == place { line } else { right })?;
            text.push_str("\n")?;
        }
    }
    Ok(text)
}

// The first bad line of the first lines of the text, with another line in one place.
fn first_bad(
    alloc: Global,
    script: &Script,
    count: usize,
    place: usize,
    line: &str,
) -> Result<Option<u64>, Memory> {
    let text = text_with(alloc, count, place, line)?;
    Ok(first_bad_line(text.as_bytes(), script))
}

// How many damages are found, up to the first that isn't.
fn damages_found(alloc: Global, script: &Script) -> usize {
    for (i, (place, line, number)) in DAMAGES.iter().enumerate() {
        if first_bad(alloc, script, 30, *place, line) != Ok(Some(*number)) {
            return i;
        }
    }
    DAMAGES.len()
}

// How many fronts are read as they are, up to the first that isn't.
fn fronts_read(alloc: Global, script: &Script) -> usize {
    for (i, (count, number)) in FRONTS.iter().enumerate() {
        if first_bad(alloc, script, *count, 30, "") != Ok(*number) {
            return i;
        }
    }
    FRONTS.len()
}

// How many of the other texts are refused at their line, up to the first that isn't.
fn others_refused(script: &Script) -> usize {
    for (i, (text, number)) in OTHERS.iter().enumerate() {
        if first_bad_line(text, script) != Some(*number) {
            return i;
        }
    }
    OTHERS.len()
}

#[test]
fn each_damaged_line_is_found(rt: HostRuntime) -> Result<(), Fail> {
    let script = script(rt.alloc())?;
    let damages = damages_found(rt.alloc(), &script);
    let fronts = fronts_read(rt.alloc(), &script);
    let others = others_refused(&script);
    drop(script);
    let all = (DAMAGES.len(), FRONTS.len(), OTHERS.len());
    assert!(rt;
        (damages, fronts, others) == all,
        "{damages} {fronts} {others}"
    );
    Ok(())
}
