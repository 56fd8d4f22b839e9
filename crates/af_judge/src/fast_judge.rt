//! The fast mixer as a journal tells it.
ghost use Rattle.std.specs.Prelude.{◌≡◌, ◌↔◌, ℕ, ◌+◌, ◌<◌, ◌≤◌, ◌^◌, ◌&&◌, ◌==◌, IsTrue, IfOk, OnOk, [], true, false, length, map, take, drop, ◌≢◌, ◌||◌, ◌⊎◌, ◌-◌, List, min, slice_index_or};
ghost use Rattle.af_base.specs.Log.{slots, entry_at, entry_slot, frames_taken};
ghost use Rattle.af_base.specs.Sample.{packed_word};
ghost use Rattle.af_model.specs.Cycles.{is_exit, is_mixed, submix_slot};
ghost use Rattle.af_model.specs.Point.{wrapped};
ghost use Rattle.af_model.specs.StateQueue.{carries, slot_of};
ghost use Rattle.af_judge.specs.FastKept.{AreSlotsRight, EndsAsTurn, FollowsTold, IsEntryRight, IsLookRight, IsMixRight, IsSlotRight, carries_track, entry_told, entry_tracks, fast_added, fast_begins, fast_drafted, fast_polled, number_found, pipe_played, slot_played, slots_played, stream_changed};
ghost use Rattle.af_runs.specs.Runs.{most_round_cycles};
ghost use Rattle.af_judge.specs.Blocks.{played_told};
ghost use Rattle.af_judge.specs.EntriesTold.{AreEntriesRight, entries_leave, playing};
ghost use Rattle.af_judge.specs.Foresight.{entries_foreseen, foreseen, server_of, servers_at};
ghost use Rattle.af_model.specs.Cycles.{Listed};
ghost use Rattle.af_judge.specs.Reporting.{adopted_in, state_in};

use crate::entry_judge::{cold_after, cycle_of, is_marked, is_mixed, is_submix, slots_in};
use crate::pipe_judge::PipeJudge;
use crate::queue_judge::QueueJudge;
use crate::server_judge::ServerJudge;
use crate::slot_report::{Reporter, is_shown, state_of};
use crate::track_judge::TrackJudge;
use af_base::{Cycle, CycleEntry, FastLog, FastState, Frame, Memory, Report, SlotEntry};
use af_model::carries_item;
use std::alloc::Global;
use std::marker::Model;

// The most entries that are counted.
const MOST_ENTRIES: u64 = 1 << 31;

// The most entries of a round.
const MOST_CYCLES: u64 = 16;

/// The entries of a turn: the place of the first one in the log, and how many there are.
#[derive(Clone, Copy, Debug, PartialEq, Eq)]
pub struct Entries {
    pub first: usize,
    pub count: usize,
}

/// The fast mixer: the cold generation performed last, whether it has ended, what it told so far, and the reports of this round with the one before it. It has the ends of the queue and of the pipe.
#[derive(Drop)]
pub struct FastJudge {
    alloc: Global,
    asked: u32,
    cold: u64,
    ended: bool,
    told: Reporter,
    before: Report,
    reports: Vec<Report>,
    pub queue: QueueJudge,
    pub pipe: PipeJudge,
}

impl Model for FastJudge {
    ghost use Rattle.std.specs.Prelude.{◌≡◌};
    ghost use Rattle.af_judge.specs.FastKept.{FastKept};

    ghost Value = { FastKept };

    ghost view = { λ f. record { told = f.told; cold = f.cold; ended = f.ended; before = f.before; reports = f.reports.items; queue = f.queue; pipe = f.pipe } };

    ghost invariant = { λ f. f.asked ≡ f.told.asked };
}

// So many frames from a place on, or as many of them as there are.
fn frames_from(frames: &[Frame], first: usize, count: usize) -> &[Frame]
    ensures { result.now ≡ take count (drop first frames.now) }
{
    let rest = &frames[first.min(frames.len())..];
    &rest[..count.min(rest.len())]
}

// The frames that a slot of an entry took.
fn slot_frames<'a>(log: &'a FastLog, entry: &CycleEntry, slot: usize) -> &'a [Frame]
    requires { slot < slots }
    ensures { result.now ≡ frames_taken log.now.frames (entry_slot entry.now slot) }
{
    let seen = entry.slots[slot];
    frames_from(log.frames(), seen.first, seen.seen.count() as usize)
}

// One of both holds.
fn either(first: bool, second: bool) -> bool
    ensures { result ≡ (first || second) }
{
    first || second
}

// Whether a slot of a state carries the track.
fn carries_in(state: &FastState, slot: usize, track: u32) -> bool
    requires { slot < slots }
    ensures { result ≡ (carries state.now slot && ((slot_of state.now slot).track == track)) }
{
    carries_item(state, slot) && state.slots[slot].track == track
}

// Whether a state carries the track. It looks at no slot behind the last one of the mask.
fn carries_track(state: &FastState, track: u32) -> bool
    ensures { result ≡ carries_track state.now track }
{
    let mut found = false;
    for slot in 0..slots_in(state) {
        found = either(found, carries_in(state, slot, track));
    }
    found
}

// Both hold.
fn both(first: bool, second: bool) -> bool
    ensures { IsTrue result ↔ (IsTrue first × IsTrue second) }
{
    first && second
}

// The second holds if the first does.
fn holds_if(first: bool, second: bool) -> bool
    ensures { IsTrue result ↔ (first ≡ true → IsTrue second) }
{
    !first || second
}

// Whether the mixer has ended, after an entry.
fn ended_after(ended: bool, cycle: Cycle) -> bool
    ensures { result ≡ (ended || is_exit cycle) }
{
    ended || matches!(cycle, Cycle::Exit)
}

// A mixer's look at the stream block of a track, and whether it is right. A track that isn't there isn't looked at.
fn play_track(
    asked: u32,
    tracks: &mut [TrackJudge],
    track: u32,
    slot: &SlotEntry,
    frames: &[Frame],
) -> Result<bool, Memory>
    ensures told { OnOk result (tracks.new ≡ stream_changed track (played_told asked slot.now (map packed_word frames.now)) tracks.old) }
    ensures right { IfOk result (λ yes. IsTrue yes ↔ IsLookRight asked slot.now track tracks.old) }
{
    let at = track as usize;
    if at >= tracks.len() {
        return Ok(true);
    }
    tracks[at].stream.played(asked, slot, frames)
}

// Whether an entry is mixed.
fn is_mix(log: &FastLog, at: usize) -> bool
    ensures { at < length log.now.entries → result ≡ is_mixed (entry_at log.now.entries at).cycle }
{
    match log.entry(at) {
        Some(entry) => is_mixed(entry.cycle),
        None => false,
    }
}

// Whether each of so many entries of a log, from this place on, is mixed.
fn are_mixes(log: &FastLog, first: usize, count: usize) -> bool
    requires { first + count ≤ length log.now.entries }
    ensures { IsTrue result ↔ ((i : ℕ) → i < count → is_mixed (entry_at log.now.entries (first + i)).cycle ≡ true) }
{
    let _len = log.len();
    for at in 0..count {
        if !is_mix(log, first + at) {
            return false;
        }
    }
    true
}

// Whether a turn may end with this entry: the log is full, or the turn has all its cycles, or the entry isn't mixed.
fn may_end(full: bool, whole: bool, mixed: bool) -> bool
    ensures { IsTrue result ↔ ((full ≡ true) ⊎ (whole ≡ true) ⊎ (mixed ≡ false)) }
{
    full || whole || !mixed
}

/// Whether a turn of these entries ends where it may: after so many cycles, or after one that isn't Mixed, or, if `full` says so, since the log is full. Each before the last is Mixed.
pub fn is_fast_turn(log: &FastLog, entries: Entries, cycles: usize, full: bool) -> bool
    requires { entries.first + entries.count ≤ length log.now.entries }
    ensures { IsTrue result ↔ EndsAsTurn log.now.entries entries.first entries.count cycles full }
{
    if entries.count == 0 || entries.count > cycles {
        return false;
    }
    let _len = log.len();
    let last = entries.count - 1;
    let ends = may_end(
        full,
        entries.count == cycles,
        is_mix(log, entries.first + last),
    );
    both(ends, are_mixes(log, entries.first, last))
}

// A number, but none behind the entries that a round may have after so many reports.
fn within_round(before: u64, number: u64) -> u64
    ensures { result ≡ min number (before + most_round_cycles) }
{
    if number <= before {
        return number;
    }
    before + (number - before).min(MOST_CYCLES)
}

// Adds these entries as they would be.
fn foresee_all(
    told: &mut Reporter,
    states: &[FastState],
    servers: &mut [ServerJudge],
    log: &FastLog,
    later: Entries,
) -> Result<(), Memory>
    requires { later.first + later.count ≤ length log.now.entries }
    ensures { (ss : List Listed) → servers.old ≡ map server_of ss → OnOk result (told.new ≡ (entries_foreseen states.now (take later.count (drop later.first log.now.entries)) (foreseen ss told.old)).told) }
{
    let _len = log.len();
    for at in 0..later.count {
        if told.report().cycle >= MOST_ENTRIES {
            return Err(Memory);
        }
        let Some(entry) = log.entry(later.first + at) else {
            unreachable!()
        };
        told.foresee(states, servers, entry);
    }
    Ok(())
}

impl FastJudge {
    /// The fast mixer before its first cycle of so many frames, over a pipe of `size` frames in `cells` cells.
    pub fn new(alloc: Global, asked: u32, size: u32, cells: u32) -> FastJudge
        requires { cells ≢ 0 }
        ensures { result ≡ fast_begins asked size cells }
    {
        let told = Reporter::new(asked);
        let before = told.report();
        FastJudge {
            alloc,
            asked,
            cold: 0,
            ended: false,
            told,
            before,
            reports: Vec::new(alloc),
            queue: QueueJudge::new(alloc),
            pipe: PipeJudge::new(alloc, size, cells),
        }
    }

    /// The fast mixer has ended.
    pub fn has_ended(&self) -> bool
        ensures { result ≡ self.now.ended }
    {
        self.ended
    }

    /// How many entries the fast mixer added.
    pub fn entries(&self) -> u64
        ensures { result ≡ self.now.told.report.cycle }
    {
        self.told.report().cycle
    }

    /// The fast mixer holds the stream proxy of a track: the state adopted last carries it.
    pub fn holds(&self, states: &[FastState], track: u32) -> bool
        ensures { result ≡ carries_track (adopted_in self.now.told states.now) track }
    {
        carries_track(&self.told.adopted(states), track)
    }

    /// The normal mixer's draft is now this one.
    pub fn drafted(&mut self, draft: &FastState)
        ensures { self.new ≡ fast_drafted draft.now self.old }
    {
        self.told.drafted(draft);
    }

    /// A round begins.
    pub fn begin_round(&mut self)
        ensures { self.new ≡ record self.old { before = self.old.told.report; reports = [] } }
    {
        self.before = self.told.report();
        self.reports.clear();
    }

    // Whether an entry follows: its state is that of the last entry or the next one, and was pushed, and the entry is what its state makes it.
    fn follows(&self, states: &[FastState], entry: &CycleEntry) -> bool
        ensures { IsTrue result ↔ FollowsTold self.now states.now entry.now }
    {
        let used = self.told.used();
        let next = entry.state >= used && entry.state - used <= 1;
        let pushed = entry.state <= states.len() as u64;
        let due = cycle_of(self.cold, state_of(states, entry.state));
        next && pushed && !self.ended && entry.cycle == due
    }

    // Polls, and finds the state of a number.
    fn poll(&mut self, states: &[FastState], number: u64) -> Result<(), Memory>
        ensures { OnOk result (self.new ≡ fast_polled states.now number self.old) }
    {
        self.queue.polled(self.told.current(), number)?;
        self.told.poll(states, number);
        Ok(())
    }

    // The state of a number.
    fn state(&self, states: &[FastState], number: u64) -> FastState
        ensures { result ≡ state_in self.now.told states.now number }
    {
        self.told.state(states, number)
    }

    // Plays a slot of a state if the entry shows it, and answers whether its look is right.
    fn play_slot(
        &self,
        state: &FastState,
        tracks: &mut [TrackJudge],
        log: &FastLog,
        entry: &CycleEntry,
        slot: usize,
    ) -> Result<bool, Memory>
        requires { slot < slots }
        ensures told { OnOk result (tracks.new ≡ slot_played self.now.told.asked state.now log.now.frames entry.now slot tracks.old) }
        ensures right { IfOk result (λ yes. IsTrue yes ↔ IsSlotRight self.now.told.asked state.now entry.now slot tracks.old) }
    {
        let mixed = is_mixed(entry.cycle);
        if !carries_item(state, slot) {
            return Ok(true);
        }
        if !is_shown(entry.slots[slot].seen) {
            return Ok(!mixed);
        }
        let frames = slot_frames(log, entry, slot);
        let track = state.slots[slot].track;
        let right = play_track(self.asked, tracks, track, &entry.slots[slot], frames)?;
        Ok(holds_if(mixed, right))
    }

    // Plays all slots of a state, and answers whether all looks are right. It looks at no slot behind the last one of the mask.
    fn play_slots(
        &self,
        state: &FastState,
        tracks: &mut [TrackJudge],
        log: &FastLog,
        entry: &CycleEntry,
    ) -> Result<bool, Memory>
        ensures told { OnOk result (tracks.new ≡ slots_played self.now.told.asked state.now log.now.frames entry.now slots tracks.old) }
        ensures right { IfOk result (λ yes. IsTrue yes ↔ AreSlotsRight self.now.told.asked state.now log.now.frames entry.now slots tracks.old) }
    {
        let mut right = true;
        for slot in 0..slots_in(state) {
            let played = self.play_slot(state, tracks, log, entry, slot)?;
            right = both(right, played);
        }
        Ok(right)
    }

    // The look at the pipe of a Mixed entry, and whether it shows what its words say.
    fn play_pipe(&mut self, log: &FastLog, entry: &CycleEntry) -> Result<bool, Memory>
        ensures told { OnOk result (self.new ≡ record self.old { pipe = pipe_played log.now.frames entry.now self.old.pipe }) }
        ensures right { IfOk result (λ yes. IsTrue yes ↔ (is_mixed entry.now.cycle ≡ true → (let slot = entry_slot entry.now 0 in slot ≡ submix_slot self.old.told.asked (wrapped (length self.old.pipe.taken)) slot.rear slot.first))) }
    {
        if !is_mixed(entry.cycle) {
            return Ok(true);
        }
        let slot = &entry.slots[0];
        let right = is_submix(self.asked, self.pipe.taken(), slot);
        let frames = slot_frames(log, entry, 0);
        self.pipe.looked(slot.rear, slot.seen, frames)?;
        Ok(right)
    }

    // Plays the slots of an entry under a state, and answers whether they are those of a mix, if it mixes.
    fn mix(
        &mut self,
        state: &FastState,
        tracks: &mut [TrackJudge],
        log: &FastLog,
        entry: &CycleEntry,
    ) -> Result<bool, Memory>
        ensures told { OnOk result (self.new ≡ record self.old { pipe = pipe_played log.now.frames entry.now self.old.pipe }) }
        ensures tracks { OnOk result (tracks.new ≡ slots_played self.old.told.asked state.now log.now.frames entry.now slots tracks.old) }
        ensures right { IfOk result (λ yes. IsTrue yes ↔ IsMixRight self.old.told.asked state.now log.now.frames entry.now self.old.pipe tracks.old) }
    {
        let marked = holds_if(is_mixed(entry.cycle), is_marked(entry, state));
        let slots = self.play_slots(state, tracks, log, entry)?;
        let pipe = self.play_pipe(log, entry)?;
        Ok(both(marked, both(pipe, slots)))
    }

    // Adds an entry whose looks were made, with its report.
    fn add(
        &mut self,
        states: &[FastState],
        state: &FastState,
        tracks: &[TrackJudge],
        entry: &CycleEntry,
    ) -> Result<(), Memory>
        ensures { OnOk result (self.new ≡ fast_added states.now state.now tracks.now entry.now self.old) }
    {
        if self.entries() >= MOST_ENTRIES {
            return Err(Memory);
        }
        self.told.add_played(states, state, tracks, entry);
        self.reports.push(self.told.report())?;
        self.cold = cold_after(self.cold, entry.cycle, state_of(states, entry.state));
        self.ended = ended_after(self.ended, entry.cycle);
        Ok(())
    }

    /// Notes an entry, with the states pushed so far: the poll, the looks of its slots, and the report. Answers whether it is legal after what was told.
    pub fn entry(
        &mut self,
        states: &[FastState],
        tracks: &mut [TrackJudge],
        log: &FastLog,
        entry: &CycleEntry,
    ) -> Result<bool, Memory>
        ensures told { OnOk result (self.new ≡ entry_told states.now log.now.frames entry.now tracks.old self.old) }
        ensures tracks { OnOk result (tracks.new ≡ entry_tracks states.now log.now.frames entry.now self.old tracks.old) }
        ensures right { IfOk result (λ yes. IsTrue yes ↔ IsEntryRight states.now log.now.frames entry.now self.old tracks.old) }
    {
        let follows = self.follows(states, entry);
        self.poll(states, entry.state)?;
        let state = self.state(states, entry.state);
        let mixes = self.mix(&state, tracks, log, entry)?;
        self.add(states, &state, tracks, entry)?;
        Ok(both(follows, mixes))
    }

    /// Notes these entries, one after the other. Answers whether each is legal after what was told.
    pub fn enter(
        &mut self,
        states: &[FastState],
        tracks: &mut [TrackJudge],
        log: &FastLog,
        entries: Entries,
    ) -> Result<bool, Memory>
        requires { entries.first + entries.count ≤ length log.now.entries }
        ensures told { OnOk result (playing self.new tracks.new ≡ entries_leave states.now log.now.frames (take entries.count (drop entries.first log.now.entries)) (playing self.old tracks.old)) }
        ensures right { IfOk result (λ yes. IsTrue yes ↔ AreEntriesRight states.now log.now.frames (take entries.count (drop entries.first log.now.entries)) (playing self.old tracks.old)) }
    {
        let _len = log.len();
        let mut right = true;
        for at in 0..entries.count {
            let Some(entry) = log.entry(entries.first + at) else {
                unreachable!()
            };
            let legal = self.entry(states, tracks, log, entry)?;
            right = both(right, legal);
        }
        Ok(right)
    }

    // The servers of the streams, to be tried out.
    fn servers(&self, tracks: &[TrackJudge]) -> Result<Vec<ServerJudge>, Memory>
        ensures { IfOk result (λ v. v.items ≡ map server_of (servers_at tracks.now)) }
    {
        let mut servers = Vec::new(self.alloc);
        for track in tracks {
            servers.push(track.stream.server())?;
        }
        Ok(servers)
    }

    // The report after further entries, of which none is told.
    fn report_ahead(
        &self,
        states: &[FastState],
        tracks: &[TrackJudge],
        log: &FastLog,
        later: Entries,
    ) -> Result<Report, Memory>
        requires { later.first + later.count ≤ length log.now.entries }
        ensures { IfOk result (λ r. r ≡ (entries_foreseen states.now (take later.count (drop later.first log.now.entries)) (foreseen (servers_at tracks.now) self.now.told)).told.report) }
    {
        let mut servers = self.servers(tracks)?;
        let mut told = self.told.copy();
        foresee_all(&mut told, states, &mut servers, log, later)?;
        Ok(told.report())
    }

    /// The number of the report that a turn finds which loaded this one.
    pub fn number_found(&self, number: u64) -> u64
        ensures { result ≡ number_found self.now number }
    {
        within_round(self.before.cycle, number)
    }

    /// The report of a number, if these entries of the round are still to come; if there aren't so many, the last one. A number before the round stands for the last report before it.
    pub fn report_of(
        &self,
        states: &[FastState],
        tracks: &[TrackJudge],
        log: &FastLog,
        later: Entries,
        number: u64,
    ) -> Result<Report, Memory>
        requires { later.first + later.count ≤ length log.now.entries }
        ensures before { number ≤ self.now.before.cycle → IfOk result (λ r. r ≡ self.now.before) }
        ensures ahead { self.now.before.cycle < number → self.now.told.report.cycle < number → IfOk result (λ r. r ≡ (entries_foreseen states.now (take (min later.count (number - self.now.told.report.cycle)) (drop later.first log.now.entries)) (foreseen (servers_at tracks.now) self.now.told)).told.report) }
        ensures told { self.now.before.cycle < number → number ≤ self.now.told.report.cycle → IfOk result (λ r. r ≡ slice_index_or self.now.reports (number - self.now.before.cycle - 1) self.now.before) }
    {
        let before = self.before.cycle;
        if number <= before {
            return Ok(self.before);
        }
        if number <= self.entries() {
            let at = (number - before - 1) as usize;
            return Ok(self.reports.get(at).copied().unwrap_or(self.before));
        }
        let count = later.count.min((number - self.entries()) as usize);
        self.report_ahead(states, tracks, log, Entries { count, ..later })
    }
}
