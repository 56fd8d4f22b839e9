//! Each call of the store and of the sink of a play or a trace fails in turn: the status, what is printed, and what is left of each file.
ghost use Rattle.std.specs.Prelude.{◌≡◌, None};
ghost use Rattle.af_io.specs.Causes.{HasCause};

use crate::shared::{failing_sink, given, loud, numbered, sink, words_of};
use af_commands::run;
use af_io::{Load, MemStore, NoGate, Store, StoreError};
use af_tally::no_costs;
use std::alloc::Global;
use std::process::Abort;
use std::test::Fail;
use std::thread::Threads;

/// Files in memory, of which one call on the file of a name fails, by its number among the calls on that file.
#[derive(Drop)]
struct OneFails<'a> {
    files: MemStore,
    name: &'a str,
    failing: u64,
    made: u64,
    faults: u64,
}

impl<'a> OneFails<'a> {
    /// Counts a call on a file, and says whether it fails.
    fn fails(&mut self, name: &str) -> bool
        ensures { self.new.faults ≡ self.old.faults }
    {
        if name != self.name {
            return false;
        }
        self.made = self.made.saturating_add(1);
        self.made == self.failing
    }
}

/// Counts a fault.
fn count_fault<T>(ended: &Result<T, StoreError>, faults: &mut u64)
    ensures { HasCause faults.old faults.new ended.now }
{
    if let Err(StoreError::Failed) = ended {
        *faults = faults.saturating_add(1);
    }
}

impl<'a> Store for OneFails<'a> {
    ghost told = { λ _. ⊥ };

    ghost files = { λ _ _. None };

    ghost faults = { λ s. s.faults };

    fn load(&mut self, name: &str, limit: u64, into: &mut Vec<u8>) -> Result<Load, StoreError> {
        let loaded = if self.fails(name) {
            Err(StoreError::Failed)
        } else {
            self.files.load(name, limit, into)
        };
        count_fault(&loaded, &mut self.faults);
        loaded
    }

    fn create(&mut self, name: &str) -> Result<(), StoreError> {
        let created = if self.fails(name) {
            Err(StoreError::Failed)
        } else {
            self.files.create(name)
        };
        count_fault(&created, &mut self.faults);
        created
    }

    fn append(&mut self, name: &str, bytes: &[u8]) -> Result<(), StoreError> {
        let appended = if self.fails(name) {
            let _half = self.files.append(name, &bytes[..bytes.len() / 2]);
            Err(StoreError::Failed)
        } else {
            self.files.append(name, bytes)
        };
        count_fault(&appended, &mut self.faults);
        appended
    }
}

/// How much of a file is left.
#[derive(Clone, Copy, PartialEq, Eq)]
enum Left {
    Unmade,
    Part,
    Whole,
}

use Left::{Part, Unmade, Whole};

/// One track that plays a thousand frames to their end, with more cycles than it can take.
const THOUSAND: &str =
    "version = 1\nframes = 2\nnormal = 1\ncycles = 20000\n[[track]]\nkind = \"fast\"\nframes = 100\nchannels = 2\nfile = \"in.pcm\"\nops = [\"open\", \"start\", \"write 1000\", \"stop\", \"drain\", \"remove\"]\n";

const PLAY: &str = "play one.toml out.pcm out.txt";

const TRACE: &str = "trace one.toml out.pcm out.txt log.txt 32";

/// The name of a file of which one call fails, its number among the calls on that file, that of a call of the sink that fails (0: none), the status, how the printed line begins, and what is left of OUT, JOURNAL and LOG.
type PlayFailure<'a> = (&'a str, u64, u64, u8, &'a str, [Left; 3]);

const PLAYS: &[PlayFailure<'static>] = &[
    ("", 0, 0, 0, "cycles ", [Whole, Whole, Unmade]),
    ("one.toml", 1, 0, 5, "", [Unmade; 3]),
    ("in.pcm", 1, 0, 5, "", [Unmade; 3]),
    ("out.pcm", 1, 0, 5, "", [Unmade; 3]),
    ("out.pcm", 2, 0, 5, "", [Part, Unmade, Unmade]),
    ("out.pcm", 3, 0, 5, "", [Part, Unmade, Unmade]),
    ("out.pcm", 4, 0, 5, "", [Part, Unmade, Unmade]),
    ("out.txt", 1, 0, 5, "", [Whole, Unmade, Unmade]),
    ("out.txt", 2, 0, 5, "", [Whole, Part, Unmade]),
    ("", 0, 1, 5, "cycles ", [Whole, Whole, Unmade]),
];

const TRACES: &[PlayFailure<'static>] = &[
    ("", 0, 0, 0, "cycles ", [Whole; 3]),
    ("one.toml", 1, 0, 5, "", [Unmade; 3]),
    ("in.pcm", 1, 0, 5, "", [Unmade; 3]),
    ("out.pcm", 1, 0, 5, "", [Unmade; 3]),
    ("out.pcm", 2, 0, 5, "", [Part, Unmade, Unmade]),
    ("out.txt", 1, 0, 5, "", [Whole, Unmade, Unmade]),
    ("out.txt", 2, 0, 5, "", [Whole, Part, Unmade]),
    ("log.txt", 1, 0, 5, "", [Whole, Whole, Unmade]),
    ("log.txt", 2, 0, 5, "", [Whole, Whole, Part]),
    ("", 0, 1, 5, "cycles ", [Whole; 3]),
];

/// How much of a file is left that is whole or not, if it is there.
fn judged_left(found: Option<&[u8]>, is_whole: bool) -> Left {
    match found {
        None => Unmade,
        Some(_) if is_whole => Whole,
        Some(_) => Part,
    }
}

/// Whether a sound has each of a thousand frames once and in order.
fn is_heard(alloc: Global, sound: &[u8]) -> Result<bool, Fail> {
    let file = numbered(alloc, 4000)?;
    let played = loud(alloc, &file)?;
    let heard = loud(alloc, sound)?;
    Ok(heard.as_slice() == played.as_slice())
}

/// Whether OUT and JOURNAL are verified.
fn is_verified<R: Threads + Sync + Abort>(
    rt: &R,
    alloc: Global,
    files: &mut MemStore,
) -> Result<bool, Fail> {
    let words = words_of(alloc, "verify one.toml out.pcm out.txt")?;
    let mut out = sink(alloc);
    let mut steps = no_costs();
    Ok(run(rt, alloc, &words, files, &mut out, &NoGate, &mut steps).code() == 0)
}

/// What is left of OUT, JOURNAL and LOG. The sound is whole if each frame is heard once and in order, the journal if it is verified, and the log if its last line is there.
fn lefts<R: Threads + Sync + Abort>(
    rt: &R,
    alloc: Global,
    files: &mut MemStore,
) -> Result<[Left; 3], Fail> {
    let is_legal = is_verified(rt, alloc, files)?;
    let sound = files.file("out.pcm");
    let is_whole = is_heard(alloc, sound.unwrap_or(&[]))?;
    let log = files.file("log.txt");
    let has_end = log.unwrap_or(&[]).ends_with(b"\nrefused 0\n");
    Ok([
        judged_left(sound, is_whole),
        judged_left(files.file("out.txt"), is_legal),
        judged_left(log, has_end),
    ])
}

/// The files of a play, of which a call fails.
fn one_fails<'a>(alloc: Global, name: &'a str, failing: u64) -> Result<OneFails<'a>, Fail> {
    Ok(OneFails {
        files: given(alloc, 0, THOUSAND, 4000)?,
        name,
        failing,
        made: 0,
        faults: 0,
    })
}

/// Whether a text is printed that begins so, and none if that is empty.
fn is_begun(printed: &[u8], line: &str) -> bool {
    printed.starts_with(line.as_bytes()) && printed.is_empty() == line.is_empty()
}

/// A play or a trace, of which a call fails: its status, what it has printed, and what it has left.
fn expect_play_failure<R: Threads + Sync + Abort>(
    rt: &R,
    alloc: Global,
    words: &str,
    (name, failing, of_sink, status, line, want): PlayFailure<'_>,
) -> Result<(), Fail> {
    let words = words_of(alloc, words)?;
    let mut out = failing_sink(alloc, of_sink)?;
    let mut store = one_fails(alloc, name, failing)?;
    let mut steps = no_costs();
    let ended = run(rt, alloc, &words, &mut store, &mut out, &NoGate, &mut steps).code();
    assert!(rt; ended == status, "{name} {failing}");
    assert!(rt; is_begun(out.bytes(), line), "{name} {failing}");
    let found = lefts(rt, alloc, &mut store.files)?;
    assert!(rt; found == want, "{name} {failing}");
    Ok(())
}

#[test]
fn each_call_of_a_play_fails_in_turn(rt: HostRuntime) -> Result<(), Fail> {
    for failure in PLAYS {
        expect_play_failure(&rt, rt.alloc(), PLAY, *failure)?;
    }
    Ok(())
}

#[test]
fn each_call_of_a_trace_fails_in_turn(rt: HostRuntime) -> Result<(), Fail> {
    for failure in TRACES {
        expect_play_failure(&rt, rt.alloc(), TRACE, *failure)?;
    }
    Ok(())
}
