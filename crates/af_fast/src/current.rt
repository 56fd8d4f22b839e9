//! What the state adopted says.
ghost use Rattle.std.specs.Prelude.{◌≡◌, ℕ, ◌≤◌, true, if◌then◌else◌};
ghost use Rattle.std.specs.Int.{bit_at};
ghost use Rattle.af_base.specs.Log.{slots};
ghost use Rattle.af_model.specs.Cycles.{cold_of, cycle_by, cycle_of, is_cold};
ghost use Rattle.af_stateq.specs.Observes.{InOrder};
ghost use Rattle.af_fast.specs.Fits.{stream_fits};

use af_base::{Command, Cycle, FastState};
use af_link::StreamNames;
use af_server::Server;
use af_stateq::Observer;

// What a cycle is by a state.
fn cycle_by(done: u64, state: &FastState) -> Cycle
    ensures { result ≡ cycle_by done state.now.cold_gen state.now.command }
{
    match state.command {
        Command::Exit => Cycle::Exit,
        Command::ColdIdle if state.cold_gen == done => Cycle::Idle,
        Command::ColdIdle => Cycle::Cold,
        Command::MixWrite => Cycle::Mixed,
        _ => Cycle::Idle,
    }
}

/// What a cycle is by the state adopted.
pub(crate) fn cycle_of(done: u64, observer: &Observer<Server, StreamNames>) -> Cycle
    requires { InOrder stream_fits observer.now }
    ensures { result ≡ cycle_of done observer.now.current }
{
    match observer.current() {
        None => Cycle::Idle,
        Some(state) => cycle_by(done, state),
    }
}

// The cold generation of the state adopted, 0 before the first.
fn cold_now(observer: &Observer<Server, StreamNames>) -> u64
    requires { InOrder stream_fits observer.now }
    ensures { result ≡ cold_of observer.now.current }
{
    match observer.current() {
        None => 0,
        Some(state) => state.cold_gen,
    }
}

/// The cold generation performed last, after an entry under the state adopted.
pub(crate) fn cold_after(done: u64, cycle: Cycle, observer: &Observer<Server, StreamNames>) -> u64
    requires { InOrder stream_fits observer.now }
    ensures { result ≡ (if is_cold cycle then cold_of observer.now.current else done) }
{
    match cycle {
        Cycle::Cold => cold_now(observer),
        _ => done,
    }
}

/// Keeps a copy of the state adopted, if it isn't the one that is kept.
pub(crate) fn keep_current(
    last: &mut Option<FastState>,
    kept: bool,
    observer: &Observer<Server, StreamNames>,
)
    requires order { InOrder stream_fits observer.now }
    requires kept { kept ≡ true → last.old ≡ observer.now.current }
    ensures { last.new ≡ observer.now.current }
{
    if !kept {
        *last = observer.current().copied();
    }
}

/// How many slots there are up to the last one of a mask: it holds no later one.
pub(crate) fn slots_in(mask: u32) -> usize
    ensures few { result ≤ slots }
    ensures rest { (i : ℕ) → result ≤ i → bit_at mask i ≡ 0 }
{
    (u32::BITS - mask.leading_zeros()) as usize
}
