//! A track in each slot, and the pipe, over 200 cycles, each compared with the plain model.
use crate::plain_tests::Plain;
use crate::table_tests::{Row, Size, Step, plays};
use af_base::{Command, Memory, SLOTS};
use std::alloc::Global;
use std::mem::drop;
use std::test::*;

const CYCLES: u32 = 200;

// One track for each slot but the submix.
const TRACKS: usize = SLOTS - 1;

// Blocks of odd sizes, of which some wrap: their frames, and their first positions.
const SIZES: [(u32, u32); 7] = [
    (5, 0),
    (7, 0xffff_ffff),
    (9, 3),
    (11, 0x7fff_fffb),
    (13, 0xffff_ff9c),
    (3, 1),
    (17, 0xffff_fc18),
];

const SCALES: [u16; 7] = [0x1000, 0x0e00, 0x0c01, 0x0a02, 0x0803, 0x0604, 0];

// A run as it is made: what each step is to answer by the model, and the source of what the parties do.
#[derive(Drop)]
pub(crate) struct Run {
    alloc: Global,
    pub rows: Vec<Row>,
    plain: Plain,
    seed: u32,
}

impl Run {
    // A run over blocks of these sizes, of which nothing was done.
    pub(crate) fn new(alloc: Global, sizes: &[Size]) -> Result<Run, Memory> {
        Ok(Run {
            alloc,
            rows: Vec::new(alloc),
            plain: Plain::new(alloc, sizes)?,
            seed: 1,
        })
    }

    // The next number.
    fn draw(&mut self) -> u32 {
        self.seed = self
            .seed
            .wrapping_mul(1_664_525)
            .wrapping_add(1_013_904_223);
        self.seed >> 16
    }

    // A word whose samples are any.
    fn word(&mut self) -> u32 {
        self.draw() << 16 | self.draw()
    }

    // Makes a step.
    pub(crate) fn does(&mut self, step: Step) -> Result<(), Memory> {
        let told = self.plain.does(self.alloc, step)?;
        self.rows.push((step, told))?;
        Ok(())
    }

    // Attaches a track to the slot after its number.
    pub(crate) fn attaches(&mut self, track: usize, mono: bool, scale: u16) -> Result<(), Memory> {
        self.does(Step::Attach {
            slot: (track & 31) as u32 + 1,
            track: (track & 31) as u32,
            mono,
            scale,
        })
    }

    // What a client does before a cycle: it may write, set gains and flush. Two clients store a rear out of turn, each once.
    fn client(&mut self, track: usize, cycle: u32) -> Result<(), Memory> {
        let pokes = track == 3 && cycle == 100 || track == 30 && cycle == 110;
        if self.draw() % 8 < 7 {
            let count = 1 + self.draw() as usize % 8;
            let word = self.word();
            self.does(Step::Write { track, word, count })?;
        }
        if self.draw() % 8 == 0 {
            let word = self.word() & 0x1fff_1fff;
            self.does(Step::Gains { track, word })?;
        }
        if self.draw() % 16 == 0 && !pokes {
            self.does(Step::Flush { track })?;
        }
        if pokes {
            let rear = SIZES[track % 7].1.wrapping_add(1_000_000);
            self.does(Step::Poke { track, rear })?;
        }
        Ok(())
    }

    // What the mutator does before a cycle. The proxies of slots 2 and 31 come back, and are attached again: mono, at a scale of their own.
    fn mutator(&mut self, cycle: u32) -> Result<(), Memory> {
        match cycle {
            60 => self.does(Step::Detach { slot: 2 })?,
            62 => self.does(Step::Detach { slot: 31 })?,
            70 => {
                self.does(Step::Ack)?;
                self.does(Step::TakeBack { slot: 2 })?;
                self.does(Step::TakeBack { slot: 31 })?;
                self.attaches(1, true, 0x0abc)?;
                self.attaches(30, true, 0x0abc)?;
            }
            _ => {}
        }
        let command = match cycle {
            0..5 => return Ok(()),
            120..125 => Command::ColdIdle,
            140..143 => Command::Mix,
            150..160 => Command::ColdIdle,
            _ => Command::MixWrite,
        };
        self.does(Step::Push { command })
    }

    // A cycle, with what is done before it.
    fn cycle(&mut self, cycle: u32) -> Result<(), Memory> {
        for track in 0..TRACKS {
            self.client(track, cycle)?;
        }
        let (word, count) = (self.word(), self.draw() as usize % 8);
        self.does(Step::Put { word, count })?;
        self.mutator(cycle)?;
        self.does(Step::Cycle)
    }

    // All cycles, once each track was attached.
    fn cycles(&mut self) -> Result<(), Memory> {
        for track in 0..TRACKS {
            self.attaches(track, track % 2 == 1, SCALES[track % 7])?;
        }
        for cycle in 0..CYCLES {
            self.cycle(cycle)?;
        }
        Ok(())
    }
}

// Blocks for all tracks.
fn sizes() -> [Size; TRACKS] {
    let mut sizes = [Size { frames: 1, base: 0 }; TRACKS];
    for track in 0..TRACKS {
        let (frames, base) = SIZES[track % 7];
        sizes[track] = Size { frames, base };
    }
    sizes
}

// How many steps of the run did not answer what the model does, and whether the log is the model's.
fn runs(alloc: Global) -> Result<(usize, bool), Memory> {
    let sizes = sizes();
    let mut run = Run::new(alloc, &sizes)?;
    let made = run.cycles();
    let (rows, entries, frames) = (&run.rows, &run.plain.entries, &run.plain.frames);
    let found = plays(alloc, CYCLES as usize, &sizes, rows, entries, frames);
    let steps = rows.len();
    drop(run);
    made?;
    let (right, logged) = found?;
    Ok((steps.wrapping_sub(right), logged))
}

#[test]
fn a_long_run_is_that_of_the_plain_model(rt: HostRuntime) {
    assert!(rt; runs(rt.alloc()) == Ok((0, true)));
}
