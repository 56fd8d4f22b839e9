//! The gate that asks the clock.
use crate::cost::Cost;
use af_io::{Gate, Processors};
use std::sync::atomic::{AtomicBool, AtomicU64, Ordering};
use std::thread::Threads;
use std::time::{Clock, Duration};

/// Of so many rounds one goes on all threads and one on a single one, whatever they take, so that both are measured anew.
const EVERY: u64 = 16;

/// A gate that holds nobody, before as many threads as pay.
///
/// A round goes on one thread for each processor or on a single one, as took less time of late: threads that are made for a round cost more than its turns where these are short, or where other programs have the processors. Of each sixteen rounds the first goes on all threads, and the second on one.
///
/// It measures from one call of `threads` to the next, so it is to be asked once in each round, as the round begins. Where the clock can't be read a round goes on all threads.
#[derive(Drop)]
pub struct Pace<'a, R> {
    clock: &'a R,
    most: u32,
    rounds: AtomicU64,
    began: AtomicU64,
    was_alone: AtomicBool,
    alone: Cost,
    together: Cost,
}

// The nanoseconds of a time, which start again after some 584 years.
fn nanoseconds(time: Duration) -> u64 {
    let seconds = time.as_secs().wrapping_mul(1_000_000_000);
    seconds.wrapping_add(u64::from(time.subsec_nanos()))
}

impl<'a, R: Clock> Pace<'a, R> {
    /// Before at most so many threads.
    pub fn new(clock: &'a R, most: u32) -> Self {
        Pace {
            clock,
            most,
            rounds: AtomicU64::new(0),
            began: AtomicU64::new(0),
            was_alone: AtomicBool::new(false),
            alone: Cost::new(),
            together: Cost::new(),
        }
    }

    // Notes what the last round took, if there was one, and that the next begins; its number, from 0.
    fn begin(&self, now: u64) -> u64 {
        let round = self.rounds.fetch_add(1, Ordering::SeqCst);
        let began = self.began.swap(now, Ordering::SeqCst);
        if round > 0 {
            let took = now.wrapping_sub(began);
            if self.was_alone.load(Ordering::SeqCst) {
                self.alone.measure(took);
            } else {
                self.together.measure(took);
            }
        }
        round
    }

    // Whether the round of this number goes on a single thread.
    fn is_alone(&self, round: u64) -> bool {
        match round % EVERY {
            0 => false,
            1 => true,
            _ => self.alone.mean() < self.together.mean(),
        }
    }
}

impl<'a, R: Threads + Clock> Pace<'a, R> {
    /// Before at most as many threads as processors.
    pub fn of(rt: &'a R) -> Self {
        Pace::new(rt, Processors::of(rt).threads())
    }
}

impl<R: Clock + Sync> Gate for Pace<'_, R> {
    /// The most threads that the turns of a round go on at the same time: all, or one.
    fn threads(&self) -> u32 {
        let Ok(now) = self.clock.monotonic() else {
            return self.most;
        };
        let round = self.begin(nanoseconds(now));
        let is_alone = self.is_alone(round);
        self.was_alone.store(is_alone, Ordering::SeqCst);
        if is_alone { 1 } else { self.most }
    }

    /// The turn of a party, by its number, begins.
    fn enter(&self, _party: u32) {}
}
