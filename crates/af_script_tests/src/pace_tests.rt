//! Which rounds go on all threads, by what they take.
use af_io::Gate;
use af_pace::Pace;
use std::io;
use std::process::Abort;
use std::sync::atomic::{AtomicU64, Ordering};
use std::test::Fail;
use std::time::{Clock, Duration};

/// A clock that is set by hand, in nanoseconds; at `BROKEN` it can't be read.
#[derive(Drop)]
struct Hand {
    now: AtomicU64,
}

const BROKEN: u64 = u64::MAX;

impl Clock for Hand {
    fn monotonic(&self) -> io::Result<Duration> {
        match self.now.load(Ordering::SeqCst) {
            BROKEN => Err(io::Error::from(io::ErrorKind::Other)),
            now => Ok(Duration::from_nanos(now)),
        }
    }

    fn since_1970(&self) -> io::Result<Duration> {
        self.monotonic()
    }
}

/// How many of so many rounds go on all four threads, if one alone takes `alone` and one on all takes `together`.
fn rounds_on_all(rounds: u32, alone: u64, together: u64) -> u32 {
    let clock = Hand {
        now: AtomicU64::new(0),
    };
    let pace = Pace::new(&clock, 4);
    let mut many = 0u32;
    for _ in 0..rounds {
        let took = if pace.threads() == 1 {
            alone
        } else {
            many = many.saturating_add(1);
            together
        };
        clock.now.fetch_add(took, Ordering::SeqCst);
    }
    many
}

/// What a round alone takes, what one on all threads takes, and how many of 160 rounds go on all.
const ROUNDS: [(u64, u64, u32); 5] = [
    (100_000, 300_000, 10),
    (100_000, 5_000_000_000, 10),
    (300_000, 100_000, 150),
    (100_000, 100_000, 150),
    (0, 0, 150),
];

#[test]
fn most_rounds_go_as_took_less(rt: HostRuntime) -> Result<(), Fail> {
    for (alone, together, many) in &ROUNDS {
        let on_all = rounds_on_all(160, *alone, *together);
        assert!(rt; on_all == *many, "{alone} {together}: {on_all}");
    }
    Ok(())
}

/// What threads cost is measured anew, and what they cost before counts for less and less.
#[test]
fn the_measures_change(rt: HostRuntime) -> Result<(), Fail> {
    let clock = Hand {
        now: AtomicU64::new(0),
    };
    let pace = Pace::new(&clock, 4);
    let mut last = 0;
    for round in 0..320u32 {
        let is_alone = pace.threads() == 1;
        let is_busy = round < 160;
        let took = if is_alone || !is_busy { 100 } else { 900 };
        clock.now.fetch_add(took, Ordering::SeqCst);
        last = if is_alone { 1 } else { 4 };
    }
    assert!(rt; last == 4);
    Ok(())
}

/// Without a clock each round goes on all threads.
#[test]
fn a_broken_clock(rt: HostRuntime) -> Result<(), Fail> {
    let clock = Hand {
        now: AtomicU64::new(BROKEN),
    };
    let pace = Pace::new(&clock, 4);
    for _ in 0..20 {
        assert!(rt; pace.threads() == 4);
    }
    Ok(())
}
