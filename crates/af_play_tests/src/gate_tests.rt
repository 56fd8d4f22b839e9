//! A gate by which two parties are seen to begin their turns side by side.
use crate::shared::{sink, words_of};
use af_commands::run;
use af_io::{Gate, MemStore, Pcm, frames_of};
use af_playing::{Piece, play};
use af_rendering::have_files;
use af_script::{Script, read};
use af_tally::no_costs;
use std::alloc::Global;
use std::mem::drop;
use std::process::Abort;
use std::sync::atomic::{AtomicU32, Ordering};
use std::test::Fail;
use std::thread::{Threads, yield_now};

/// Two clients that start, stop and drain, with no frames to play.
const IDLE: &str =
    "version = 1\nframes = 2\nnormal = 1\ncycles = 1024\n[[track]]\nkind = \"fast\"\nframes = 8\nchannels = 2\nfile = \"in.pcm\"\nops = [\"open\", \"start\", \"stop\", \"drain\", \"remove\"]\n[[track]]\nkind = \"fast\"\nframes = 8\nchannels = 2\nfile = \"in.pcm\"\nops = [\"open\", \"start\", \"stop\", \"drain\", \"remove\"]\n";

/// The number of the second client, and that of the fast mixer.
const CLIENT: u32 = 1;

const FAST: u32 = 3;

/// Watches party 0 and another: each of the first three turns of either waits, but not forever, until the other has begun as many.
#[derive(Drop)]
struct Watch {
    other: u32,
    first_turns: AtomicU32,
    other_turns: AtomicU32,
    /// How many turns found the other.
    met: AtomicU32,
}

impl Watch {
    fn new(other: u32) -> Self {
        Watch {
            other,
            first_turns: AtomicU32::new(0),
            other_turns: AtomicU32::new(0),
            met: AtomicU32::new(0),
        }
    }

    /// Counts a turn, and waits for as many of the other's.
    fn wait(&self, own: &AtomicU32, others: &AtomicU32) {
        let turns = own.fetch_add(1, Ordering::SeqCst);
        if turns >= 3 {
            return;
        }
        for _ in 0..10_000_000u32 {
            if others.load(Ordering::SeqCst) > turns {
                self.met.fetch_add(1, Ordering::SeqCst);
                return;
            }
            yield_now();
        }
    }
}

impl Gate for Watch {
    /// One for each of the four parties.
    fn threads(&self) -> u32 {
        4
    }

    fn enter(&self, party: u32) {
        if party == 0 {
            self.wait(&self.first_turns, &self.other_turns);
        } else if party == self.other {
            self.wait(&self.other_turns, &self.first_turns);
        }
    }
}

/// A store with the script and the file of both clients.
fn idle_store(alloc: Global) -> Result<MemStore, Fail> {
    let mut store = MemStore::new(alloc, Vec::new(alloc));
    store.put("s.toml", IDLE.as_bytes())?;
    store.put("in.pcm", &[])?;
    Ok(store)
}

/// All six turns found the other party, in a run of the program.
fn expect_run<R: Threads + Sync + Abort>(rt: &R, alloc: Global, other: u32) -> Result<(), Fail> {
    let words = words_of(alloc, "play s.toml out.pcm journal")?;
    let mut store = idle_store(alloc)?;
    let mut out = sink(alloc);
    let watch = Watch::new(other);
    let mut steps = no_costs();
    let ended = run(rt, alloc, &words, &mut store, &mut out, &watch, &mut steps);
    assert!(rt; ended.code() == 0);
    assert!(rt; watch.met.load(Ordering::SeqCst) == 6);
    Ok(())
}

/// The script, and no frames for either client.
fn idle(alloc: Global) -> Result<(Script, Vec<Pcm>), Fail> {
    let script = read(alloc, IDLE.as_bytes()).ok().ok_or("not read")?;
    let mut files = Vec::new(alloc);
    for _ in 0..2 {
        files.push(frames_of(alloc, &[], false).ok().ok_or("no frames")?)?;
    }
    Ok((script, files))
}

/// Whether a script with these files is played until all parties have ended.
fn is_played<R: Threads + Sync>(
    rt: &R,
    alloc: Global,
    script: &Script,
    files: &[Pcm],
    watch: &Watch,
) -> bool {
    if !have_files(script.tracks(), files) {
        return false;
    }
    let mut store = MemStore::new(alloc, Vec::new(alloc));
    let name = "out.pcm";
    let piece = Piece {
        script,
        files,
        name,
        room: 0,
    };
    let mut steps = no_costs();
    let played = play(rt, alloc, &piece, &mut store, watch, &mut steps);
    let is_whole = played.is_ok();
    drop(played);
    is_whole
}

/// All six turns found the other party, in a play alone.
fn expect_play<R: Threads + Sync + Abort>(rt: &R, alloc: Global, other: u32) -> Result<(), Fail> {
    let (script, files) = idle(alloc)?;
    let watch = Watch::new(other);
    assert!(rt; is_played(rt, alloc, &script, &files, &watch));
    assert!(rt; watch.met.load(Ordering::SeqCst) == 6);
    Ok(())
}

#[test]
fn two_clients_side_by_side(rt: HostRuntime) -> Result<(), Fail> {
    expect_run(&rt, rt.alloc(), CLIENT)?;
    expect_play(&rt, rt.alloc(), CLIENT)
}

#[test]
fn a_client_and_the_fast_mixer_side_by_side(rt: HostRuntime) -> Result<(), Fail> {
    expect_run(&rt, rt.alloc(), FAST)?;
    expect_play(&rt, rt.alloc(), FAST)
}
