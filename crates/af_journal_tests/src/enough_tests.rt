//! The cycles that are enough for some scripts.
use af_enough::enough_cycles;
use af_script::read;
use std::alloc::Global;
use std::test::Fail;

// Two tones, as in examples/play.
const TWO_TONES: &str = "version = 1
frames = 64
normal = 4
cycles = 4000
[[track]]
kind = 'fast'
frames = 2048
channels = 2
file = 'low.pcm'
ops = ['open', 'start', 'write 8192', 'stop', 'drain']
[[track]]
kind = 'normal'
frames = 2048
channels = 1
file = 'high.pcm'
ops = ['open', 'start', 'gain 3072 1024', 'write 8192', 'stop', 'drain']
";

// A script but for the ops of its track.
const SILENCE: &str = "version = 1
frames = 2
normal = 1
cycles = 4
[[track]]
kind = 'fast'
frames = 8
channels = 2
file = 'tone.pcm'
";

// A track of a script, whose client writes so many frames through a buffer of its own.
fn track(alloc: Global, kind: &str, frames: u32, written: u32) -> Result<String, Fail> {
    let text = format!(in alloc;
        "[[track]]\nkind = '{kind}'\nframes = {frames}\nchannels = 2\nfile = 'a.pcm'\nops = ['open', 'start', 'write {written}', 'stop', 'drain', 'remove']\n"
    )?;
    Ok(text)
}

// Four tracks, of 8192 frames and of 1024, at 48 kHz.
fn long_and_short(alloc: Global) -> Result<String, Fail> {
    let long = track(alloc, "normal", 8192, 96000)?;
    let short = track(alloc, "fast", 1024, 4800)?;
    let text = format!(in alloc;
        "version = 1\nframes = 240\nnormal = 4\ncycles = 8700\n{long}{short}{short}{short}"
    )?;
    Ok(text)
}

// The cycles that are enough for the script that a text spells.
fn enough_of(alloc: Global, text: &str) -> Result<Option<u64>, Fail> {
    let script = read(alloc, text.as_bytes()).ok().ok_or("no script")?;
    Ok(enough_cycles(&script))
}

// The cycles that are enough for a track with these ops.
fn enough_with(alloc: Global, ops: &str) -> Result<Option<u64>, Fail> {
    let text = format!(in alloc; "{SILENCE}ops = [{ops}]")?;
    enough_of(alloc, text.as_str())
}

// The cycles that are enough for a track whose client sets its gains so many times.
fn enough_with_gains(alloc: Global, count: usize) -> Result<Option<u64>, Fail> {
    let mut ops = String::from_str(alloc, "'open', 'start'")?;
    for _ in 0..count {
        ops.push_str(", 'gain 0 0'")?;
    }
    ops.push_str(", 'stop', 'drain'")?;
    enough_with(alloc, ops.as_str())
}

#[test]
fn worked_examples(rt: HostRuntime) -> Result<(), Fail> {
    let alloc = rt.alloc();
    // 40 for five ops, 404 for the write of 100 portions, 18 for the drain of nine: 462, and 16 more
    let text = long_and_short(alloc)?;
    assert!(rt; enough_of(alloc, text.as_str())? == Some(7648));
    // 48 for six ops, 132 for the write of 32 portions, 16 for the drain of eight: 196, and 16 more
    assert!(rt; enough_of(alloc, TWO_TONES)? == Some(3392));
    // 40 for five ops, 8 for the drain of four: 48, and 16 more
    let silent = "'open', 'start', 'stop', 'drain'";
    assert!(rt; enough_with(alloc, silent)? == Some(1024));
    Ok(())
}

#[test]
fn ops_that_do_not_play_through(rt: HostRuntime) -> Result<(), Fail> {
    let alloc = rt.alloc();
    for ops in &[
        "'open'",
        "'open', 'write 2', 'start', 'stop', 'drain'",
        "'open', 'start', 'yield', 'stop', 'drain'",
        "'open', 'start', 'write 2', 'stop'",
        "'open', 'start', 'stop', 'drain', 'gain 1 1'",
    ] {
        assert!(rt; enough_with(alloc, ops)? == None, "{ops}");
    }
    Ok(())
}

#[test]
fn gains_directly_one_after_another(rt: HostRuntime) -> Result<(), Fail> {
    let alloc = rt.alloc();
    assert!(rt; enough_with_gains(alloc, 1024)? == Some(132096));
    assert!(rt; enough_with_gains(alloc, 1025)? == None);
    Ok(())
}
