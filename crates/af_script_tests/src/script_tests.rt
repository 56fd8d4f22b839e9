use af_script::{Op, ReadError, Script, TurnSpec, print, read};
use std::alloc::Global;
use std::test::Fail;

const SCRIPT: &str =
    "version = 1\nframes = 2\nnormal = 1\ncycles = 4\nturns = ['c 0', 'n', 'f 1']\n[[track]]\nkind = 'fast'\nframes = 8\nchannels = 2\nfile = 'tone.pcm'\nops = ['open', 'start', 'write 2']\n";

/// The track of that script.
const TRACK: &str =
    "[[track]]\nkind = 'fast'\nframes = 8\nchannels = 2\nfile = 'tone.pcm'\nops = ['open', 'start', 'write 2']\n";

const LONG_RUN: &str = "frames = 1024\nnormal = 1\ncycles = 2049";

/// A change of a script, and what is read then.
const CHANGES: [(&str, &str, &str); 45] = [
    ("version = 1", "= 1", "toml"),
    ("version = 1", "speed = 1\nversion = 1", "unknown 0"),
    ("version = 1\n", "", "key 0 version"),
    ("version = 1", "version = 3", "range 0 version 3"),
    ("frames = 2", "frames = 2.0", "key 0 frames"),
    ("frames = 2", "frames = 0", "range 0 frames 0"),
    ("frames = 2", "frames = 1025", "range 0 frames 1025"),
    ("normal = 1", "normal = true", "key 0 normal"),
    ("normal = 1", "normal = 17", "range 0 normal 17"),
    ("cycles = 4", "cycles = '4'", "key 0 cycles"),
    ("cycles = 4", "cycles = 100001", "range 0 cycles 100001"),
    ("[[track]]", "[track]", "key 0 track"),
    ("turns = ['c 0', 'n', 'f 1']", "turns = 3", "key 0 turns"),
    ("'n'", "1979-05-27", "key 0 turns"),
    ("turns = ['c 0', 'n', 'f 1']\n", "", "accepted"),
    ("kind", "sort", "unknown 1"),
    ("kind = 'fast'\n", "", "key 1 kind"),
    ("'fast'", "'slow'", "key 1 kind"),
    ("frames = 8\n", "", "key 1 frames"),
    ("frames = 8", "frames = 8193", "range 1 frames 8193"),
    ("channels = 2", "channels = []", "key 1 channels"),
    ("channels = 2", "channels = 3", "range 1 channels 3"),
    ("tone.pcm", ".pcm", "key 1 file"),
    ("ops = [", "ops = [1, ", "key 1 ops"),
    ("channels = 2", "channels = 2\nbase = '0'", "key 1 base"),
    ("channels = 2", "channels = 2\nbase = -1", "range 1 base -1"),
    ("channels = 2", "channels = 2\nscale = 1.5", "key 1 scale"),
    (
        "channels = 2",
        "channels = 2\nscale = 4097",
        "range 1 scale 4097",
    ),
    ("'open', 'start', 'write 2'", "", "op 0 0"),
    ("'open', ", "", "op 0 0"),
    ("'start'", "'open'", "op 0 1"),
    ("'start'", "'remove'", "op 0 1"),
    ("'write 2'", "'write  2'", "op 0 2"),
    ("'write 2'", "'write 02'", "op 0 2"),
    ("'write 2'", "'gain 1 65536'", "op 0 2"),
    ("'write 2'", "'poke stream 15 0'", "op 0 2"),
    ("'write 2'", "'poke command 135 0'", "op 0 2"),
    ("'write 2'", "'poke stream 14 4294967295'", "accepted"),
    ("'write 2'", "'write 4194304', 'remove'", "accepted"),
    ("'n'", "'c 1'", "turn 1"),
    ("'f 1'", "'f 17'", "turn 2"),
    ("'f 1'", "'f 0'", "turn 2"),
    ("'f 1'", "'f 3', 'f 2'", "limit asked 5"),
    (
        "frames = 2\nnormal = 1\ncycles = 4",
        LONG_RUN,
        "limit product 2098176",
    ),
    ("file = 'tone.pcm'", "file = 7", "key 1 file"),
];

/// Two changes of a script that each leave a fault, and the fault that is found.
const PAIRS: [(&str, &str, &str, &str, &str); 13] = [
    (
        "version = 1",
        "speed = 1",
        "frames = 2",
        "frames = 0",
        "unknown 0",
    ),
    (
        "version = 1",
        "version = 3",
        "frames = 2",
        "frames = 0",
        "range 0 version 3",
    ),
    (
        "cycles = 4",
        "cycles = 0",
        "[[track]]",
        "[track]",
        "range 0 cycles 0",
    ),
    ("'n'", "3", "[[track]]", "[track]", "key 0 track"),
    (
        "'n'",
        "3",
        "frames = 2\nnormal = 1\ncycles = 4",
        LONG_RUN,
        "key 0 turns",
    ),
    (
        "kind",
        "sort",
        "frames = 2\nnormal = 1\ncycles = 4",
        LONG_RUN,
        "limit product 2098176",
    ),
    ("kind", "sort", "frames = 8", "frames = 0", "unknown 1"),
    ("'fast'", "'slow'", "frames = 8", "frames = 0", "key 1 kind"),
    (
        "channels = 2",
        "channels = 0",
        "tone.pcm",
        "-pcm",
        "range 1 channels 0",
    ),
    (
        "channels = 2",
        "channels = 2\nbase = -1",
        "ops = [",
        "ops = [1, ",
        "key 1 ops",
    ),
    (
        "channels = 2",
        "channels = 2\nscale = -1",
        "'open'",
        "'begin'",
        "range 1 scale -1",
    ),
    ("'f 1'", "'f 0'", "'start'", "'begin'", "op 0 1"),
    ("'n'", "'f 5'", "'f 1'", "'f 0'", "turn 2"),
];

/// What stands in the place of the track, and what is read then.
const NO_TABLES: [(&str, &str); 3] = [
    ("", "key 0 track"),
    ("track = []", "range 0 track 0"),
    ("track = [1]", "key 0 track"),
];

/// Whether a script is read again once it is printed.
fn is_read_again(alloc: Global, script: &Script) -> bool {
    let mut bytes = Vec::new(alloc);
    print(alloc, script, &mut bytes).is_ok() && read(alloc, bytes.as_slice()).is_ok()
}

/// Whether the bytes of a script are read as that, in words.
fn is_told(alloc: Global, text: &str, line: &str) -> Result<bool, Fail> {
    match read(alloc, text.as_bytes()) {
        Ok(script) => Ok(line == "accepted" && is_read_again(alloc, &script)),
        Err(ReadError::Fault(fault)) => Ok(format!(in alloc; "{fault}")?.as_str() == line),
        Err(ReadError::Memory) => Ok(false),
    }
}

/// A text with one part changed.
fn changed(alloc: Global, text: &str, from: &str, to: &str) -> Result<String, Fail> {
    let (front, back) = text.split_once(from).ok_or("no such part")?;
    Ok(format!(in alloc; "{front}{to}{back}")?)
}

/// Whether the script with one part changed is read as that.
fn is_told_with(alloc: Global, from: &str, to: &str, line: &str) -> Result<bool, Fail> {
    let text = changed(alloc, SCRIPT, from, to)?;
    is_told(alloc, text.as_str(), line)
}

/// Whether the script with two parts changed is read as that.
fn is_told_with_two(
    alloc: Global,
    (from, to, other, other_to, line): &(&str, &str, &str, &str, &str),
) -> Result<bool, Fail> {
    let once = changed(alloc, SCRIPT, from, to)?;
    let text = changed(alloc, once.as_str(), other, other_to)?;
    is_told(alloc, text.as_str(), line)
}

/// Whether the script is read as that with a part so many times, and an end, in the place of another.
fn is_told_with_many(
    alloc: Global,
    from: &str,
    part: &str,
    times: usize,
    end: &str,
    line: &str,
) -> Result<bool, Fail> {
    let mut text = String::new(alloc);
    for _ in 0..times {
        text.push_str(part)?;
    }
    text.push_str(end)?;
    is_told_with(alloc, from, text.as_str(), line)
}

/// How many changes are read as they should, up to the first that isn't.
fn changes_told(alloc: Global) -> Result<usize, Fail> {
    for (i, (from, to, line)) in CHANGES.iter().enumerate() {
        if !is_told_with(alloc, from, to, line)? {
            return Ok(i);
        }
    }
    Ok(CHANGES.len())
}

fn no_tables_told(alloc: Global) -> Result<usize, Fail> {
    for (i, (track, line)) in NO_TABLES.iter().enumerate() {
        if !is_told_with(alloc, TRACK, track, line)? {
            return Ok(i);
        }
    }
    Ok(NO_TABLES.len())
}

fn pairs_told(alloc: Global) -> Result<usize, Fail> {
    for (i, pair) in PAIRS.iter().enumerate() {
        if !is_told_with_two(alloc, pair)? {
            return Ok(i);
        }
    }
    Ok(PAIRS.len())
}

/// What stands in the place of a part, what stands there so many times, what stands behind it, and what is read then.
const LISTS: [(&str, &str, usize, &str, &str); 2] = [
    ("'write 2'", "'yield', ", 4094, "'remove'", "limit ops 4097"),
    ("'n', ", "'n', ", 99999, "", "limit turns 100001"),
];

fn lists_told(alloc: Global) -> Result<usize, Fail> {
    for (i, (from, part, times, end, line)) in LISTS.iter().enumerate() {
        if !is_told_with_many(alloc, from, part, *times, end, line)? {
            return Ok(i);
        }
    }
    Ok(LISTS.len())
}

/// How many rows of each table are read as they should: single changes, tracks that are no tables, two changes, and lists at their limits.
#[test]
fn each_fault(rt: HostRuntime) -> Result<(), Fail> {
    let found = [
        changes_told(rt.alloc())?,
        no_tables_told(rt.alloc())?,
        pairs_told(rt.alloc())?,
        lists_told(rt.alloc())?,
    ];
    assert!(rt; found == [45, 3, 13, 2], "{found:?}");
    Ok(())
}

const TURNS: [TurnSpec; 3] = [
    TurnSpec::Client { track: 0 },
    TurnSpec::Normal,
    TurnSpec::Fast { cycles: 1 },
];

const OPS: [Op; 4] = [Op::OpenTrack, Op::Start, Op::Write { count: 2 }, Op::Remove];

/// Whether the script has its sizes and its turns.
fn has_sizes_and_turns(script: &Script) -> bool {
    script.version() == 1
        && script.frames() == 2
        && script.normal() == 1
        && script.cycles() == 4
        && script.turns() == TURNS.as_slice()
}

/// Whether the script's first track is as it stands there.
fn has_track(script: &Script) -> bool {
    let Some(track) = script.tracks().first() else {
        return false;
    };
    track.fast
        && track.frames == 8
        && !track.mono
        && track.base == 0
        && track.scale == 4096
        && track.file.as_str() == "tone.pcm"
        && track.ops.as_slice() == OPS.as_slice()
}

#[test]
fn the_parts_of_a_script(rt: HostRuntime) -> Result<(), Fail> {
    let script = read(rt.alloc(), SCRIPT.as_bytes()).ok().ok_or("not read")?;
    assert!(rt; has_sizes_and_turns(&script));
    assert!(rt; has_track(&script));
    Ok(())
}
