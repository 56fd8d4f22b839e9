//! A plain model of what a table of steps answers, by the rules alone: lists of frames, counts, and what each cycle shows of them.
use crate::table_tests::{Size, Step, Told, frames_of};
use crate::tests::{BEFORE, FRAMES, Turned, still};
use af_base::{
    Command, Cycle, CycleEntry, FastState, FastTrack, Frame, Memory, Part, Push, Report, SLOTS,
    Seen, SlotEntry, SlotReport, plain_mix,
};
use af_client::Wrote;
use af_link::{first_report, no_slot};
use af_model::first_state;
use std::alloc::Global;

// A track: all frames released, how many of them were consumed, and the words of its block.
#[derive(Drop)]
struct PlainTrack {
    size: Size,
    released: Vec<Frame>,
    flushes: u32,
    gains: u32,
    // The rear that was stored out of turn.
    poked: Option<u32>,
    consumed: usize,
    flush_seen: u32,
    shut: Option<(u32, u32)>,
    underran: bool,
}

// The pipe: all frames put, and how many of them were taken.
#[derive(Drop)]
struct PlainPipe {
    put: Vec<Frame>,
    taken: usize,
}

/// All of a run: the tracks and the pipe, the draft and the number of pushes, the state used and the one that the last entry used, and what was logged and reported.
#[derive(Drop)]
pub(crate) struct Plain {
    tracks: Vec<PlainTrack>,
    pipe: PlainPipe,
    draft: FastState,
    number: u64,
    state: Option<FastState>,
    last: Option<FastState>,
    cold: u64,
    report: Report,
    pub entries: Vec<CycleEntry>,
    pub frames: Vec<Frame>,
}

// The low 32 bits of a number.
fn low(number: usize) -> u32 {
    (number & 0xffff_ffff) as u32
}

// So many frames from a place on, or as many of them as there are.
fn part(frames: &[Frame], from: usize, count: usize) -> &[Frame] {
    let rest = &frames[from.min(frames.len())..];
    &rest[..count.min(rest.len())]
}

fn append(frames: &mut Vec<Frame>, more: &[Frame]) -> Result<(), Memory> {
    for frame in more {
        frames.push(*frame)?;
    }
    Ok(())
}

// The cells of a block of so many frames.
fn cells_of(frames: u32) -> u32 {
    let mut cells = 1u32;
    for _power in 0..16 {
        if cells < frames {
            cells = cells.wrapping_mul(2);
        }
    }
    cells
}

impl PlainTrack {
    // The word of a position.
    fn word(&self, position: usize) -> u32 {
        self.size.base.wrapping_add(low(position))
    }

    fn rear(&self) -> u32 {
        self.poked.unwrap_or(self.word(self.released.len()))
    }

    // Writes the first of these frames, up to the last cell.
    fn write(&mut self, frames: &[Frame]) -> Result<Wrote, Memory> {
        if self.shut.is_some() {
            let flags = 4 | u32::from(self.underran);
            return Ok(Wrote::Dead { flags });
        }
        let (front, rear) = (self.word(self.consumed), self.rear());
        let room = self.size.frames.wrapping_sub(rear.wrapping_sub(front));
        if room == 0 {
            return Ok(Wrote::Full { front });
        }
        let cells = cells_of(self.size.frames);
        let last = cells.wrapping_sub(rear & cells.wrapping_sub(1));
        let count = low(frames.len()).min(room).min(last);
        append(&mut self.released, part(frames, 0, count as usize))?;
        let rest = room.wrapping_sub(count);
        Ok(Wrote::Put { front, count, rest })
    }

    // What a look shows, without what it does.
    fn seen(&self) -> Seen {
        if let Some((front, rear)) = self.shut {
            return Seen::Shut { front, rear };
        }
        let (front, rear) = (self.word(self.consumed), self.rear());
        let there = rear.wrapping_sub(front);
        if self.flushes != self.flush_seen {
            return Seen::Flushed { dropped: there };
        }
        if there > self.size.frames {
            return Seen::Shut { front, rear };
        }
        if there == 0 {
            return Seen::Empty;
        }
        let count = there.min(FRAMES as u32);
        Seen::Frames { count }
    }

    // The slot of a cycle, with the frames that it takes added to those of the log.
    fn play(&mut self, log: &mut Vec<Frame>) -> Result<SlotEntry, Memory> {
        let was_shut = self.shut;
        let seen = self.seen();
        let mut first = 0;
        match seen {
            Seen::Frames { count } => {
                first = log.len();
                append(log, part(&self.released, self.consumed, count as usize))?;
                self.consumed = self.consumed.wrapping_add(count as usize);
                self.underran = self.underran || count < FRAMES as u32;
            }
            Seen::Empty => self.underran = true,
            Seen::Flushed { .. } => self.consumed = self.released.len(),
            Seen::Shut { front, rear } => self.shut = Some((front, rear)),
            _ => {}
        }
        if was_shut.is_none() {
            self.flush_seen = self.flushes;
        }
        let rear = match was_shut {
            Some((_, rear)) => rear,
            None => self.rear(),
        };
        Ok(SlotEntry {
            gains: self.gains,
            flush: self.flush_seen,
            rear,
            seen,
            first,
        })
    }

    // The report of a track's slot, after the one before and a look.
    fn report(&self, generation: u64, seen: Seen, before: SlotReport) -> SlotReport {
        let mut report = before;
        report.consumed = self.consumed as u64;
        report.shut = self.shut.is_some();
        report.generation = generation;
        report.flush_seen = self.flush_seen;
        match seen {
            Seen::Frames { count } if count as usize == FRAMES => {
                report.fulls = before.fulls.wrapping_add(1);
            }
            Seen::Frames { .. } => report.partials = before.partials.wrapping_add(1),
            Seen::Empty => report.empties = before.empties.wrapping_add(1),
            _ => {}
        }
        report
    }
}

impl PlainPipe {
    // Puts the first of these frames, as many as there is room for.
    fn put(&mut self, frames: &[Frame]) -> Result<(), Memory> {
        let waiting = self.put.len().wrapping_sub(self.taken);
        append(
            &mut self.put,
            part(frames, 0, 64usize.wrapping_sub(waiting)),
        )
    }

    // The slot of a cycle.
    fn play(&mut self, log: &mut Vec<Frame>) -> Result<SlotEntry, Memory> {
        let place = log.len();
        let taken = part(&self.put, self.taken, FRAMES);
        append(log, taken)?;
        let count = taken.len();
        self.taken = self.taken.wrapping_add(count);
        let seen = match count {
            0 => Seen::Empty,
            _ => Seen::Frames { count: low(count) },
        };
        Ok(SlotEntry {
            gains: 0x1000_1000,
            flush: 0,
            rear: low(self.put.len()),
            seen,
            first: if count == 0 { 0 } else { place },
        })
    }
}

// Whether a state has a track in a slot.
fn has(state: &Option<FastState>, slot: usize) -> bool {
    match state {
        Some(state) => slot > 0 && (state.mask >> (slot % SLOTS)) & 1 == 1,
        None => false,
    }
}

impl Plain {
    /// A run over blocks of these sizes, of which nothing was done.
    pub(crate) fn new(alloc: Global, sizes: &[Size]) -> Result<Plain, Memory> {
        let mut tracks = Vec::new(alloc);
        for size in sizes {
            tracks.push(PlainTrack {
                size: *size,
                released: Vec::new(alloc),
                flushes: 0,
                gains: 0x1000_1000,
                poked: None,
                consumed: 0,
                flush_seen: 0,
                shut: None,
                underran: false,
            })?;
        }
        Ok(Plain {
            tracks,
            pipe: PlainPipe {
                put: Vec::new(alloc),
                taken: 0,
            },
            draft: first_state(FRAMES as u32),
            number: 0,
            state: None,
            last: None,
            cold: 0,
            report: first_report(),
            entries: Vec::new(alloc),
            frames: Vec::new(alloc),
        })
    }

    // What the cycle is. A cold idle is performed once.
    fn what(&mut self) -> Cycle {
        let Some(state) = self.state else {
            return Cycle::Idle;
        };
        if state.command == Command::MixWrite {
            return Cycle::Mixed;
        }
        if state.command == Command::ColdIdle && state.cold_gen != self.cold {
            self.cold = state.cold_gen;
            return Cycle::Cold;
        }
        Cycle::Idle
    }

    // Plays the slots of a mix into its entry.
    fn mix_slots(&mut self, entry: &mut CycleEntry, state: FastState) -> Result<(), Memory> {
        entry.slots[0] = self.pipe.play(&mut self.frames)?;
        entry.scales[0] = 0x1000;
        for slot in 1..SLOTS {
            if !has(&self.state, slot) {
                continue;
            }
            let Some(track) = self.tracks.get_mut(state.slots[slot].track as usize) else {
                continue;
            };
            entry.slots[slot] = track.play(&mut self.frames)?;
            entry.scales[slot] = state.slots[slot].scale;
            entry.mono |= u32::from(state.slots[slot].mono) << slot;
        }
        Ok(())
    }

    // Reports after an entry.
    fn note(&mut self, entry: &CycleEntry, state: FastState) {
        for slot in 1..SLOTS {
            if !has(&self.state, slot) {
                continue;
            }
            let before = match has(&self.last, slot) {
                true => self.report.slots[slot],
                false => no_slot(),
            };
            if let Some(track) = self.tracks.get(state.slots[slot].track as usize) {
                let generation = state.slots[slot].generation;
                self.report.slots[slot] = track.report(generation, entry.slots[slot].seen, before);
            }
        }
        self.last = self.state;
    }

    // The mix of an entry, if it is one.
    fn mix(&self, alloc: Global, entry: &CycleEntry) -> Result<[Frame; FRAMES], Memory> {
        let mut out = [BEFORE; FRAMES];
        if entry.cycle != Cycle::Mixed {
            return Ok(out);
        }
        let silent = Part {
            frames: &[],
            mono: false,
            gains: 0,
            scale: 0,
        };
        let mut parts = [silent; SLOTS];
        for slot in 0..SLOTS {
            let seen = entry.slots[slot];
            parts[slot] = Part {
                frames: part(&self.frames, seen.first, seen.seen.count() as usize),
                mono: (entry.mono >> slot) & 1 == 1,
                gains: seen.gains,
                scale: entry.scales[slot],
            };
        }
        let mixed = plain_mix(alloc, &parts, FRAMES)?;
        if mixed.len() == FRAMES {
            out.copy_from_slice(&mixed);
        }
        Ok(out)
    }

    // A cycle.
    fn cycle(&mut self, alloc: Global) -> Result<Turned, Memory> {
        let cycle = self.what();
        let mut entry = still(self.number, cycle);
        if let Some(state) = self.state {
            if cycle == Cycle::Mixed {
                self.mix_slots(&mut entry, state)?;
            }
            self.note(&entry, state);
        }
        self.report.cycle = self.report.cycle.wrapping_add(1);
        let out = self.mix(alloc, &entry)?;
        self.entries.push(entry)?;
        Ok(Turned {
            cycle,
            out,
            report: self.report,
        })
    }

    // The draft with a track in a slot, or without one.
    fn edit(&mut self, slot: u32, track: Option<FastTrack>) {
        let slot = slot as usize % SLOTS;
        match track {
            Some(track) => {
                let generation = self.draft.slots[slot].generation.wrapping_add(1);
                self.draft.slots[slot] = track;
                self.draft.slots[slot].generation = generation;
                self.draft.mask |= 1 << slot;
            }
            None => self.draft.mask &= !(1 << slot),
        }
    }

    // Pushes the draft with a command.
    fn push(&mut self, command: Command) -> Push {
        if command == Command::ColdIdle && self.draft.command != Command::ColdIdle {
            self.draft.cold_gen = self.draft.cold_gen.wrapping_add(1);
        }
        self.draft.command = command;
        self.number = self.number.wrapping_add(1);
        self.state = Some(self.draft);
        Push::Pushed {
            number: self.number,
        }
    }

    // What a client does.
    fn track_does(&mut self, track: usize, step: Step) -> Result<Told, Memory> {
        let Some(track) = self.tracks.get_mut(track) else {
            return Ok(Told::Done);
        };
        match step {
            Step::Write { word, count, .. } => {
                let wrote = track.write(part(&frames_of(word), 0, count))?;
                return Ok(Told::Wrote { wrote });
            }
            Step::Gains { word, .. } => track.gains = word,
            Step::Flush { .. } => track.flushes = track.flushes.wrapping_add(1),
            Step::Poke { rear, .. } => track.poked = Some(rear),
            _ => {}
        }
        Ok(Told::Done)
    }

    /// Makes a step, and gives what it is to answer, if each push is followed by a cycle.
    pub(crate) fn does(&mut self, alloc: Global, step: Step) -> Result<Told, Memory> {
        match step {
            Step::Attach {
                slot,
                track,
                mono,
                scale,
            } => {
                let generation = 0;
                let track = FastTrack {
                    generation,
                    track,
                    mono,
                    scale,
                };
                self.edit(slot, Some(track));
            }
            Step::Detach { slot } => self.edit(slot, None),
            Step::Push { command } => {
                let push = self.push(command);
                return Ok(Told::Pushed { push });
            }
            Step::Write { track, .. }
            | Step::Gains { track, .. }
            | Step::Flush { track }
            | Step::Poke { track, .. } => return self.track_does(track, step),
            Step::Forget { .. } => return Ok(Told::Done),
            Step::Put { word, count } => {
                self.pipe.put(part(&frames_of(word), 0, count))?;
                return Ok(Told::Done);
            }
            Step::Cycle => {
                let turned = self.cycle(alloc)?;
                return Ok(Told::Turned { turned });
            }
            _ => {}
        }
        Ok(Told::Is { so: true })
    }
}
