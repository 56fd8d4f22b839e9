//! A mixer that forgets its log every few cycles sounds and reports as one that keeps all of it: as the plain model does.
use crate::run_tests::Run;
use crate::table_tests::{Step, THREE, plays};
use af_base::{Command, Memory};
use std::alloc::Global;
use std::mem::drop;
use std::test::*;

// How many cycles a run has.
const TURNS: usize = 60;

// The word of the frame (100, -100).
const WORD: u32 = 0xff9c_0064;

// A track into which another number of frames is written before each cycle, and none at times. A log that has so many entries is forgotten before the cycle.
fn turns(run: &mut Run, most: usize) -> Result<(), Memory> {
    run.attaches(0, false, 0x1000)?;
    run.does(Step::Push {
        command: Command::MixWrite,
    })?;
    for turn in 0..TURNS {
        let (track, word, count) = (0, WORD, turn % 6);
        if count > 0 {
            run.does(Step::Write { track, word, count })?;
        }
        run.does(Step::Forget { most })?;
        run.does(Step::Cycle)?;
    }
    Ok(())
}

// Whether a mixer with room for so many entries, that forgets them when it has so many, answers each step as the model does.
fn is_as_kept(alloc: Global, room: usize, most: usize) -> Result<bool, Memory> {
    let sizes = &THREE[..1];
    let mut run = Run::new(alloc, sizes)?;
    let made = turns(&mut run, most);
    let found = plays(alloc, room.max(1).min(1000), sizes, &run.rows, &[], &[]);
    let steps = run.rows.len();
    drop(run);
    made?;
    Ok(found?.0 == steps)
}

// The room of a log, and from how many entries on it is forgotten. The first keeps all, and the last has no room for them.
const ROOMS: [(usize, usize, bool); 5] = [
    (100, 100, true),
    (1, 1, true),
    (7, 7, true),
    (9, 4, true),
    (7, 8, false),
];

#[test]
fn a_mixer_that_forgets_sounds_and_reports_as_one_that_keeps(rt: HostRuntime) {
    for (room, most, kept) in &ROOMS {
        let found = is_as_kept(rt.alloc(), *room, *most);
        assert!(rt; found == Ok(*kept), "{room} {most}");
    }
}
