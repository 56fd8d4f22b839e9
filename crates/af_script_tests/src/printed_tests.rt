//! Random scripts of both versions, printed and read again.
ghost use Rattle.std.specs.Prelude.{◌≤◌};

use af_script::{Op, Script, TrackSpec, print, read};
use std::alloc::Global;
use std::fmt::Write;
use std::mem::drop;
use std::test::*;

/// The ops without numbers.
const WORDS: [&str; 6] = ["start", "pause", "stop", "flush", "drain", "yield"];

/// The source of what a script says.
#[derive(Drop)]
struct Source {
    seed: u32,
}

impl Source {
    /// The next number below a bound.
    fn draw(&mut self, bound: u32) -> u32
        ensures { result ≤ bound }
    {
        self.seed = self
            .seed
            .wrapping_mul(1_664_525)
            .wrapping_add(1_013_904_223);
        (self.seed >> 8) % bound.max(1)
    }

    /// Adds an op of a track with a buffer of so many frames.
    fn op(&mut self, text: &mut String, frames: u32) -> Result<(), Fail> {
        let kind = self.draw(10);
        match kind {
            0 => add_item(text, "gain", Some(self.draw(65536)), Some(self.draw(65536))),
            1 | 2 => add_item(text, "write", Some(1 + self.draw(5000)), None),
            3 => {
                let word = self.draw(frames.min(8192));
                add_item(text, "poke stream", Some(word), Some(self.draw(1 << 24)))
            }
            4 => add_item(
                text,
                "poke command",
                Some(self.draw(135)),
                Some(self.draw(1 << 24)),
            ),
            other => {
                let word = WORDS.get(other as usize - 5).unwrap_or(&"yield");
                add_item(text, word, None, None)
            }
        }
    }

    /// Adds `open` and so many other ops, and maybe a `remove`.
    fn ops(&mut self, text: &mut String, frames: u32, count: u32) -> Result<(), Fail> {
        text.push_str("ops = ['open', ")?;
        for _ in 0..count {
            self.op(text, frames)?;
        }
        let end = if self.draw(2) == 0 {
            "'remove']\n"
        } else {
            "]\n"
        };
        Ok(text.push_str(end)?)
    }

    /// Adds a table of a track; version 2 has two keys more.
    fn track(&mut self, text: &mut String, version: u32, number: u32) -> Result<(), Fail> {
        let frames = 1 + self.draw(8192);
        let count = self.draw(20);
        let kind = if number < 7 && self.draw(2) == 0 {
            "[[track]]\nkind = 'fast'\n"
        } else {
            "[[track]]\nkind = 'normal'\n"
        };
        text.push_str(kind)?;
        add_key(text, "frames", frames)?;
        add_key(text, "channels", 1 + self.draw(2))?;
        let file = self.draw(1000);
        write!(text, "file = 't-{number}_{file}'\n")?;
        self.ops(text, frames, count)?;
        if version == 2 {
            add_key(text, "base", self.draw(1 << 24))?;
            add_key(text, "scale", self.draw(4097))?;
        }
        Ok(())
    }

    /// Adds the turns of a script.
    fn turns(&mut self, text: &mut String, tracks: u32) -> Result<(), Fail> {
        text.push_str("turns = [")?;
        for _ in 0..self.draw(40) {
            let kind = self.draw(3);
            let (word, number) = match kind {
                0 => ("c", Some(self.draw(tracks))),
                1 => ("n", None),
                _ => ("f", Some(1 + self.draw(16))),
            };
            add_item(text, word, number, None)?;
        }
        Ok(text.push_str("]\n")?)
    }

    /// Adds a script.
    fn script(&mut self, text: &mut String) -> Result<(), Fail> {
        let version = 1 + self.draw(2);
        let tracks = 1 + self.draw(4);
        add_key(text, "version", version)?;
        add_key(text, "frames", 1 + self.draw(1024))?;
        add_key(text, "normal", 1 + self.draw(16))?;
        add_key(text, "cycles", 1000 + self.draw(1000))?;
        self.turns(text, tracks)?;
        for number in 0..tracks {
            self.track(text, version, number)?;
        }
        Ok(())
    }
}

/// Adds an op or a turn in quotes, with a comma behind it.
fn add_item(
    text: &mut String,
    word: &str,
    first: Option<u32>,
    second: Option<u32>,
) -> Result<(), Fail> {
    text.push_str("'")?;
    text.push_str(word)?;
    for number in &[first, second] {
        if let Some(number) = number {
            write!(text, " {number}")?;
        }
    }
    Ok(text.push_str("', ")?)
}

/// Adds a line of a key and its number.
fn add_key(text: &mut String, key: &str, number: u32) -> Result<(), Fail> {
    Ok(write!(text, "{key} = {number}\n")?)
}

/// Whether two tracks are the same.
fn is_same_track(one: &TrackSpec, other: &TrackSpec) -> bool {
    one.fast == other.fast
        && one.frames == other.frames
        && one.mono == other.mono
        && one.base == other.base
        && one.scale == other.scale
        && one.file.as_str() == other.file.as_str()
        && one.ops.as_slice() == other.ops.as_slice()
}

/// Whether two lists of tracks are the same.
fn are_same_tracks(ones: &[TrackSpec], others: &[TrackSpec]) -> bool {
    if ones.len() != others.len() {
        return false;
    }
    for i in 0..ones.len() {
        if !is_same_track(&ones[i], &others[i]) {
            return false;
        }
    }
    true
}

/// Whether two scripts are the same.
fn is_same(one: &Script, other: &Script) -> bool {
    one.version() == other.version()
        && one.frames() == other.frames()
        && one.normal() == other.normal()
        && one.cycles() == other.cycles()
        && one.turns() == other.turns()
        && are_same_tracks(one.tracks(), other.tracks())
}

/// How many pokes a script has.
fn pokes_in(script: &Script) -> usize {
    let mut pokes: usize = 0;
    for track in script.tracks() {
        for op in track.ops.as_slice() {
            if let Op::Poke { .. } = op {
                pokes = pokes.saturating_add(1);
            }
        }
    }
    pokes
}

/// How many pokes a script has, if it is the same once it was printed.
fn pokes_again(alloc: Global, script: &Script) -> Option<usize> {
    let mut bytes = Vec::new(alloc);
    let printed = print(alloc, script, &mut bytes).is_ok();
    let read = read(alloc, bytes.as_slice());
    drop(bytes);
    let again = read.ok()?;
    let is_same = printed && is_same(script, &again);
    let pokes = pokes_in(&again);
    drop(again);
    if is_same { Some(pokes) } else { None }
}

/// How many pokes the next script has, if it is the same once it was printed.
fn next_pokes(alloc: Global, source: &mut Source) -> Result<Option<usize>, Fail> {
    let mut text = String::new(alloc);
    let made = source.script(&mut text);
    let read = read(alloc, text.as_bytes());
    drop(text);
    made?;
    let script = read.ok().ok_or("not read")?;
    let pokes = pokes_again(alloc, &script);
    drop(script);
    Ok(pokes)
}

/// Three hundred scripts, each the same once it was printed.
#[test]
fn random_scripts_printed(rt: HostRuntime) -> Result<(), Fail> {
    let mut source = Source { seed: 2026 };
    let mut pokes: usize = 0;
    for number in 0..300 {
        let found = next_pokes(rt.alloc(), &mut source)?;
        assert!(rt; found.is_some(), "script {number}");
        pokes = pokes.saturating_add(found.unwrap_or(0));
    }
    assert!(rt; pokes > 100);
    Ok(())
}
