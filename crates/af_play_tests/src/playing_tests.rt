//! Plays: what is the same however the turns of the parties fall.
use crate::shared::{WHOLE, failing_sink, given, loud, words_of};
use af_commands::run;
use af_io::{MemStore, NoGate};
use af_tally::no_costs;
use std::alloc::Global;
use std::process::Abort;
use std::test::Fail;
use std::thread::Threads;

/// One cycle, in which nothing can be mixed and not all parties can end.
const CUT: &str =
    "version = 1\nframes = 2\nnormal = 1\ncycles = 1\n[[track]]\nkind = \"fast\"\nframes = 8\nchannels = 2\nfile = \"in.pcm\"\nops = [\"open\"]\n";

/// How a play ends: its exit status, the end of its line, the samples of its sound that aren't silent, and the beginning of the journal's text, if that file is there.
#[derive(Clone, Copy)]
struct End<'a> {
    status: u8,
    line: &'a str,
    sound: &'a [u8],
    text: Option<&'a str>,
}

/// Whether the sound has these samples that aren't silent.
fn has_sound(alloc: Global, store: &MemStore, wanted: &[u8]) -> Result<bool, Fail> {
    let sound = loud(alloc, store.file("out.pcm").unwrap_or(&[]))?;
    Ok(sound.as_slice() == wanted)
}

/// Whether the text of the journal begins so, if that file is to be there.
fn has_text(store: &MemStore, wanted: Option<&str>) -> bool {
    match (store.file("out.txt"), wanted) {
        (Some(text), Some(begun)) => text.starts_with(begun.as_bytes()),
        (None, None) => true,
        _ => false,
    }
}

/// Whether a line is printed that ends so, and none if that is empty.
fn is_line(printed: &[u8], wanted: &str) -> bool {
    printed.ends_with(wanted.as_bytes()) && printed.is_empty() == wanted.is_empty()
}

/// A play of a script, of which a call of the store and one of the sink fail by their numbers, counted from 1.
fn expect_play<R: Threads + Sync + Abort>(
    rt: &R,
    alloc: Global,
    script: &str,
    (store_fails, sink_fails): (u64, u64),
    want: End<'_>,
) -> Result<(), Fail> {
    let words = words_of(alloc, "play one.toml out.pcm out.txt")?;
    let mut out = failing_sink(alloc, sink_fails)?;
    let mut store = given(alloc, store_fails, script, 8)?;
    let mut steps = no_costs();
    let ended = run(rt, alloc, &words, &mut store, &mut out, &NoGate, &mut steps);
    assert!(rt; ended.code() == want.status);
    assert!(rt; is_line(out.bytes(), want.line));
    assert!(rt; has_text(&store, want.text));
    let is_heard = has_sound(alloc, &store, want.sound)?;
    assert!(rt; is_heard);
    Ok(())
}

/// A play to its end: each frame is heard once and in order, and the journal begins with the first call of the client.
#[test]
fn a_play_ends_well(rt: HostRuntime) -> Result<(), Fail> {
    let want = End {
        status: 0,
        line: " mixed 2 dropped 0 queued 0 peak 2\n",
        sound: &[1, 1, 2, 2],
        text: Some("R\nC 0\ns 0 1 0\n"),
    };
    expect_play(&rt, rt.alloc(), WHOLE, (0, 0), want)
}

/// A play that is cut off at its limit has its journal and its line. If the file of the journal can't be made or filled, or the line can't be printed, that is the answer.
#[test]
fn a_play_is_cut_off(rt: HostRuntime) -> Result<(), Fail> {
    let alloc = rt.alloc();
    let cut = End {
        status: 6,
        line: "limit: cycles 1\n",
        sound: &[],
        text: Some("R\nC 0\ns 0 1 0\n"),
    };
    let unprinted = End {
        status: 5,
        line: "limit: c",
        ..cut
    };
    let unmade = End {
        status: 5,
        line: "",
        sound: &[],
        text: None,
    };
    let unfilled = End {
        text: Some("R\nC 0\n"),
        ..unmade
    };
    expect_play(&rt, alloc, CUT, (0, 0), cut)?;
    expect_play(&rt, alloc, CUT, (0, 1), unprinted)?;
    expect_play(&rt, alloc, CUT, (4, 0), unmade)?;
    expect_play(&rt, alloc, CUT, (5, 0), unfilled)
}
