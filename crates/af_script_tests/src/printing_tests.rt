use af_script::{Op, Script, TurnSpec, generated_script, print, read};
use std::alloc::Global;
use std::mem::drop;
use std::test::Fail;

/// A script with each op and each turn.
const FULL: &str = "version = 2\nframes = 1024\nnormal = 16\ncycles = 2048\n\
turns = ['c 1', 'n', 'f 16', 'c 0', 'f 1']\n\
[[track]]\nkind = 'normal'\nframes = 8192\nchannels = 1\nfile = 'a_B-9.wav'\nbase = 4294967295\nscale = 0\n\
ops = ['open', 'start', 'pause', 'stop', 'flush', 'drain', 'yield', 'gain 0 65535', 'write 4194304', 'poke stream 8198 4294967295', 'poke command 134 0', 'remove']\n\
[[track]]\nkind = 'fast'\nframes = 1\nchannels = 2\nfile = 'b'\nops = ['open']\n";

/// The full script as it is printed.
const PRINTED: &str = "cycles = 2048\nframes = 1024\nnormal = 16\n\
turns = [\"c 1\", \"n\", \"f 16\", \"c 0\", \"f 1\"]\nversion = 2\n\
\n[[track]]\nbase = 4294967295\nchannels = 1\nfile = \"a_B-9.wav\"\nframes = 8192\nkind = \"normal\"\n\
ops = [\"open\", \"start\", \"pause\", \"stop\", \"flush\", \"drain\", \"yield\", \"gain 0 65535\", \"write 4194304\", \"poke stream 8198 4294967295\", \"poke command 134 0\", \"remove\"]\nscale = 0\n\
\n[[track]]\nbase = 0\nchannels = 2\nfile = \"b\"\nframes = 1\nkind = \"fast\"\nops = [\"open\", \"remove\"]\nscale = 4096\n";

/// The script that a text is.
fn script_of(alloc: Global, text: &str) -> Result<Script, Fail> {
    Ok(read(alloc, text.as_bytes()).ok().ok_or("not read")?)
}

/// The text of a script.
fn printed(alloc: Global, script: &Script) -> Result<String, Fail> {
    let mut bytes = Vec::new(alloc);
    print(alloc, script, &mut bytes).ok().ok_or("not printed")?;
    Ok(String::from_utf8(bytes).ok().ok_or("no text")?)
}

/// Whether that is the text of the script that a text is.
fn is_printed(alloc: Global, text: &str, wanted: &str) -> Result<bool, Fail> {
    let script = script_of(alloc, text)?;
    Ok(printed(alloc, &script)?.as_str() == wanted)
}

#[test]
fn the_text_of_a_script(rt: HostRuntime) -> Result<(), Fail> {
    for text in &[FULL, PRINTED] {
        assert!(rt; is_printed(rt.alloc(), text, PRINTED)?, "{text}");
    }
    Ok(())
}

/// A track with so many ops that wait, and maybe a last `remove`.
fn long_track(alloc: Global, waits: usize, end: &str) -> Result<Script, Fail> {
    let mut text = String::from_str(
        alloc,
        "version = 1\nframes = 1\nnormal = 1\ncycles = 1\n[[track]]\nkind = 'fast'\nframes = 1\nchannels = 1\nfile = 'a'\nops = ['open'",
    )?;
    for _ in 0..waits {
        text.push_str(", 'yield'")?;
    }
    text.push_str(end)?;
    script_of(alloc, text.as_str())
}

/// Tracks with so many ops that wait, what stands behind them, the number of ops, and how the printed text ends.
const LONG: [(usize, &str, usize, &str); 3] = [
    (4095, "]", 4097, "\"yield\"]\nscale = 4096\n"),
    (4094, "]", 4096, "\"remove\"]\nscale = 4096\n"),
    (4094, ", 'remove']", 4096, "\"remove\"]\nscale = 4096\n"),
];

/// Whether the first track of a script has so many ops, of which the last is a `remove`.
fn has_ops(script: &Script, count: usize) -> bool {
    let Some(track) = script.tracks().first() else {
        return false;
    };
    track.ops.as_slice().len() == count && track.ops.as_slice().last() == Some(&Op::Remove)
}

/// Whether that text is read again with so many ops and the same text.
fn is_long(alloc: Global, text: &str, count: usize) -> Result<bool, Fail> {
    let again = script_of(alloc, text)?;
    Ok(has_ops(&again, count) && printed(alloc, &again)?.as_str() == text)
}

/// Whether the text of a long track has that end, and is read again with so many ops.
fn ends_so(alloc: Global, waits: usize, end: &str, count: usize, ends: &str) -> Result<bool, Fail> {
    let script = long_track(alloc, waits, end)?;
    let text = printed(alloc, &script);
    drop(script);
    let text = text?;
    let long = is_long(alloc, text.as_str(), count);
    let ends_so = text.as_str().ends_with(ends);
    drop(text);
    Ok(long? && ends_so)
}

#[test]
fn the_limit_of_ops(rt: HostRuntime) -> Result<(), Fail> {
    for (waits, end, count, ends) in &LONG {
        let is_right = ends_so(rt.alloc(), *waits, end, *count, ends)?;
        assert!(rt; is_right, "{waits} {end}");
    }
    Ok(())
}

/// Whether a script has the turns and tracks of the generated one.
fn is_generated(script: &Script) -> bool {
    let turns = script.turns();
    turns.len() == 4200
        && turns.first() == Some(&TurnSpec::Client { track: 0 })
        && turns.last() == Some(&TurnSpec::Fast { cycles: 4 })
        && script.tracks().len() == 8
}

/// Whether the generated script is printed and read again as it is.
fn generated_is_printed(alloc: Global) -> Result<bool, Fail> {
    let script = generated_script(alloc).ok().ok_or("no script")?;
    let is_so = is_generated(&script);
    let text = printed(alloc, &script);
    drop(script);
    let text = text?;
    let again = is_printed(alloc, text.as_str(), text.as_str());
    drop(text);
    let again = again?;
    Ok(is_so && again)
}

#[test]
fn the_generated_script(rt: HostRuntime) -> Result<(), Fail> {
    assert!(rt; generated_is_printed(rt.alloc())?);
    Ok(())
}
