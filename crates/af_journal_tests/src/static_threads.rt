//! A client that sets on one thread, and a player on another.
ghost use Rattle.std.specs.Prelude.{◌≡◌, ◌<◌, ◌≤◌};
ghost use Rattle.af_latest.specs.Laws.{stores};
ghost use Rattle.af_static.specs.Ends.{IsPlayerOf};

use crate::static_tests::{NEW, Numbers, Plain, call, counted};
use af_base::{Frame, Memory, Steps};
use af_static::{Player, Setter, Shared, make};
use std::alloc::Global;
use std::marker::Brand;
use std::mem::drop;
use std::sync::ledger::{Blank, Ledger};
use std::test::*;
use std::thread::{Threads, join, yield_now};

// The setting of a number.
fn numbers_of(number: u32) -> Numbers
    requires { number ≤ 1000 }
{
    (number, number + 16 + number % 5, number)
}

fn set_in<L: Ledger>(blank: Blank, shared: &Shared, setter: &mut Setter)
    requires ledger { (blank.name ≡ L.name) × (blank.parts ≡ L.parts) × (0 < blank.parts) }
    requires together { setter.old.cell ≡ shared.now.cell }
    requires none { stores setter.old.events ≡ 0 }
{
    let mut steps = Steps::<L>::start(blank);
    for number in 1..1001u32 {
        let (start, end, count) = numbers_of(number);
        setter.set(shared, start, end, count, &mut steps);
    }
}

fn set_all(shared: &Shared, mut setter: Setter)
    requires together { setter.cell ≡ shared.now.cell }
    requires none { stores setter.events ≡ 0 }
{
    set_in::<Brand>(Blank::new(1), shared, &mut setter);
    drop(setter);
}

// Whether a call's output is that of its setting, which is no older than the one before.
fn follows(plain: &mut Plain, frames: &[Frame], last: u64, number: u64, out: &[Frame]) -> bool {
    if number < last || number > 1000 {
        return false;
    }
    if number > last {
        plain.adopt(frames.len(), numbers_of(number as u32));
    }
    plain.plays(frames, out)
}

// Plays until the last setting was used. Whether each output is that of its setting, in rising order.
fn play_in<L: Ledger>(blank: Blank, shared: &Shared, player: &mut Player, frames: &[Frame]) -> bool
    requires ledger { (blank.name ≡ L.name) × (blank.parts ≡ L.parts) × (0 < blank.parts) }
    requires together { IsPlayerOf shared.now player.old }
{
    let mut steps = Steps::<L>::start(blank);
    let mut plain = NEW;
    let mut last = 0;
    let mut right = true;
    for _ in 0..1_000_000u32 {
        let (out, unrolled) = call(shared, player, &mut steps);
        right = follows(&mut plain, frames, last, unrolled.number, &out) && right;
        last = unrolled.number;
        if last >= 1000 {
            break;
        }
        yield_now();
    }
    right
}

fn play_all(shared: &Shared, mut player: Player, frames: &[Frame]) -> bool
    requires together { IsPlayerOf shared.now player }
{
    let right = play_in::<Brand>(Blank::new(1), shared, &mut player, frames);
    drop(player);
    right
}

fn both<R: Threads + Sync>(rt: &R, alloc: Global) -> Result<bool, Memory> {
    let frames = counted();
    let (shared, setter, player) = make(alloc, &frames)?;
    let (shared, frames) = (&shared, frames.as_slice());
    let (_, right) = join(
        rt,
        move ||
            requires { (setter.cell ≡ shared.now.cell) × (stores setter.events ≡ 0) }
        { set_all(shared, setter) },
        move || -> bool
            requires { IsPlayerOf shared.now player }
        { play_all(shared, player, frames) },
    );
    Ok(right)
}

#[test]
fn each_output_is_that_of_its_setting(rt: HostRuntime) {
    assert!(rt; both(&rt, rt.alloc()) == Ok(true));
}
