//! What the fast mixer reports after an entry, as a journal tells it.
ghost use Rattle.std.specs.Prelude.{◌≡◌, ℕ, List, [], ◌∷◌, ◌+◌, ◌<◌, ◌≤◌, ◌==◌, ◌^◌, map, length, Some, slice_index_or, if◌then◌else◌};
ghost use Rattle.std.specs.Option.{option_map};
ghost use Rattle.af_base.specs.Log.{slots};
ghost use Rattle.af_life.specs.Heard.{known_by};
ghost use Rattle.af_model.specs.Cycles.{Listed, events_behind_look, state_of, tally};
ghost use Rattle.af_model.specs.Reports.{counted_look, is_empty, is_full, is_partial, no_slot, report_at};
ghost use Rattle.af_model.specs.StateQueue.{carries};
ghost use Rattle.af_runs.specs.Fronts.{is_shown};
ghost use Rattle.af_judge.specs.Blocks.{listed_in};
ghost use Rattle.af_judge.specs.Foresight.{did_more, entry_foreseen, foreseen, heard_foreseen, looked_by, server_changed, server_in, server_of, slot_foreseen, slots_foreseen};
ghost use Rattle.af_model.specs.ServerCalls.{drops_of, look_events};
ghost use Rattle.af_judge.specs.FastKept.{heard_slots};
ghost use Rattle.af_judge.specs.Reporting.{CountsUpTo, adopted_in, block_at, entry_added, polled_in, slot_added, state_in, telling_begins, told_at_slot, told_by, unpushed_in};

use crate::server_judge::ServerJudge;
use crate::track_judge::TrackJudge;
use af_base::{
    CycleEntry, FastState, INVALID, Report, SLOTS, Seen, ServerEvent, SlotEntry, SlotReport,
    UNDERRUN,
};
use af_life::{Heard, Known};
use af_model::{carries_item, first_state};
use std::marker::Model;

// What is known of a slot that never had an item.
const NO_SLOT: SlotReport = SlotReport {
    consumed: 0,
    shut: false,
    generation: 0,
    flush_seen: 0,
    fulls: 0,
    partials: 0,
    empties: 0,
};

// What is known of a server that has done nothing.
const NOTHING_HEARD: Heard = Heard {
    known: Known {
        consumed: 0,
        fulls: 0,
        partials: 0,
        empties: 0,
        shut: false,
    },
    flush_seen: 0,
};

// A look showed all that was asked for.
fn is_full(asked: u32, seen: Seen) -> bool
    ensures { result ≡ is_full asked seen }
{
    match seen {
        Seen::Frames { count } => count == asked,
        _ => false,
    }
}

// A look showed some frames, but not all that were asked for.
fn is_partial(asked: u32, seen: Seen) -> bool
    ensures { result ≡ is_partial asked seen }
{
    match seen {
        Seen::Frames { count } => count != asked,
        _ => false,
    }
}

// A look showed no frames.
fn is_empty(seen: Seen) -> bool
    ensures { result ≡ is_empty seen }
{
    matches!(seen, Seen::Empty)
}

/// A look showed something.
pub fn is_shown(seen: Seen) -> bool
    ensures { result ≡ is_shown seen }
{
    !matches!(seen, Seen::Absent)
}

// A report goes on with one more look at a server of which this is known.
fn counted_look(
    asked: u32,
    generation: u64,
    seen: Seen,
    heard: Heard,
    before: SlotReport,
) -> SlotReport
    requires few { CountsUpTo (2 ^ 31) before }
    ensures look { result ≡ counted_look asked generation seen (told_by heard) before }
    ensures few { (most : ℕ) → CountsUpTo most before → CountsUpTo (most + 1) result }
{
    SlotReport {
        consumed: heard.known.consumed,
        shut: heard.known.shut,
        generation,
        flush_seen: heard.flush_seen,
        fulls: before.fulls + u32::from(is_full(asked, seen)),
        partials: before.partials + u32::from(is_partial(asked, seen)),
        empties: before.empties + u32::from(is_empty(seen)),
    }
}

// The counts that a look goes on from: those of a slot that the last state carried, and else none.
fn counts_from(last: &FastState, slot: usize, before: SlotReport) -> SlotReport
    requires { slot < slots }
    ensures counts { result ≡ (if carries last.now slot then before else no_slot) }
    ensures few { (most : ℕ) → CountsUpTo most before → CountsUpTo most result }
{
    if carries_item(last, slot) {
        before
    } else {
        NO_SLOT
    }
}

/// The state of a number, if it is pushed.
pub fn state_of(states: &[FastState], number: u64) -> Option<&FastState>
    ensures { option_map (λ x. x.now) result ≡ state_of states.now number }
{
    if number == 0 || number > states.len() as u64 {
        return None;
    }
    Some(&states[number as usize - 1])
}

// What is known of the stream of a track.
fn heard_in(tracks: &[TrackJudge], track: u32) -> Heard
    ensures { result ≡ known_by (listed_in (block_at (map (λ t. t.stream) tracks.now) track)) }
{
    if track as usize >= tracks.len() {
        return NOTHING_HEARD;
    }
    tracks[track as usize].stream.known()
}

// What is known of a server of these.
fn heard_from(servers: &[ServerJudge], track: u32) -> Heard
    ensures { (ss : List Listed) → servers.now ≡ map server_of ss → result ≡ known_by (server_in ss track) }
{
    if track as usize >= servers.len() {
        return NOTHING_HEARD;
    }
    servers[track as usize].known()
}

// What is known of the slots of a state, by servers as they would be.
fn heard_by(state: &FastState, servers: &[ServerJudge]) -> [Heard; SLOTS]
    ensures { (ss : List Listed) → servers.now ≡ map server_of ss → result ≡ heard_foreseen ss state.now }
{
    let mut heard = [NOTHING_HEARD; SLOTS];
    for slot in 0..SLOTS {
        heard[slot] = heard_from(servers, state.slots[slot].track);
    }
    heard
}

// Notes what a server did.
fn note(server: &mut ServerJudge, event: ServerEvent)
    ensures { (s : Listed) → server.old ≡ server_of s → server.new ≡ server_of (did_more (event ∷ []) s) }
{
    server.note(event);
}

// Notes what a look drops.
fn note_drop(server: &mut ServerJudge, seen: Seen, front: u32)
    ensures { (s : Listed) → server.old ≡ server_of s → server.new ≡ server_of (did_more (drops_of seen front) s) }
{
    if let Seen::Flushed { dropped } = seen {
        let to = front.wrapping_add(dropped);
        note(server, ServerEvent::Drop { to });
    }
}

// Notes a look that saw this front.
fn note_look(server: &mut ServerJudge, slot: &SlotEntry, front: u32)
    ensures { (s : Listed) → server.old ≡ server_of s → server.new ≡ server_of (did_more (look_events slot.now.seen slot.now.flush slot.now.rear front) s) }
{
    note(server, ServerEvent::SawFlush { flush: slot.flush });
    note(server, ServerEvent::SawRear { rear: slot.rear });
    note(server, ServerEvent::SawFront { front });
    note_drop(server, slot.seen, front);
}

// Notes the look of a slot, by a server that wasn't shut.
fn note_seen(server: &mut ServerJudge, was_shut: bool, slot: &SlotEntry, front: u32)
    ensures { (s : Listed) → server.old ≡ server_of s → server.new ≡ server_of (did_more (if was_shut then [] else look_events slot.now.seen slot.now.flush slot.now.rear front) s) }
{
    if was_shut {
        return;
    }
    note_look(server, slot, front);
}

// Notes missing frames, if there are some.
fn note_missing(server: &mut ServerJudge, missing: u32)
    ensures { (s : Listed) → server.old ≡ server_of s → server.new ≡ server_of (did_more (tally missing) s) }
{
    if missing == 0 {
        return;
    }
    note(server, ServerEvent::Tally { missing });
    note(server, ServerEvent::SetFlags { bits: UNDERRUN });
}

// Notes what follows a look.
fn note_after(server: &mut ServerJudge, asked: u32, was_shut: bool, seen: Seen)
    ensures { (s : Listed) → server.old ≡ server_of s → server.new ≡ server_of (did_more (events_behind_look asked was_shut seen) s) }
{
    match seen {
        Seen::Frames { count } => {
            note(server, ServerEvent::Take { count });
            note_missing(server, asked.saturating_sub(count));
        }
        Seen::Empty => note_missing(server, asked),
        Seen::Shut { .. } if !was_shut => {
            note(server, ServerEvent::SetFlags { bits: INVALID });
        }
        _ => {}
    }
}

// Notes that a server was played in a slot.
fn note_slot(server: &mut ServerJudge, asked: u32, slot: &SlotEntry)
    ensures { (s : Listed) → server.old ≡ server_of s → server.new ≡ server_of (looked_by asked slot.now s) }
{
    let was_shut = server.is_shut();
    let front = server.front_told(asked, slot);
    note(server, ServerEvent::SawGain { word: slot.gains });
    note_seen(server, was_shut, slot, front);
    note_after(server, asked, was_shut, slot.seen);
}

// Notes that a track was played. One that isn't there isn't.
fn foresee_track(servers: &mut [ServerJudge], asked: u32, track: u32, slot: &SlotEntry)
    ensures { (ss : List Listed) → servers.old ≡ map server_of ss → servers.new ≡ map server_of (server_changed track (looked_by asked slot.now) ss) }
{
    let at = track as usize;
    if at >= servers.len() {
        return;
    }
    note_slot(&mut servers[at], asked, slot);
}

// Notes that the track of a slot was played, if the entry shows it.
fn foresee_slot(
    servers: &mut [ServerJudge],
    asked: u32,
    state: &FastState,
    entry: &CycleEntry,
    slot: usize,
)
    requires { slot < slots }
    ensures { (ss : List Listed) → servers.old ≡ map server_of ss → servers.new ≡ map server_of (slot_foreseen asked state.now entry.now slot ss) }
{
    if !carries_item(state, slot) || !is_shown(entry.slots[slot].seen) {
        return;
    }
    foresee_track(servers, asked, state.slots[slot].track, &entry.slots[slot]);
}

// Notes for each slot that its track was played, if the entry shows it.
fn foresee_slots(servers: &mut [ServerJudge], asked: u32, state: &FastState, entry: &CycleEntry)
    ensures { (ss : List Listed) → servers.old ≡ map server_of ss → servers.new ≡ map server_of (slots_foreseen asked state.now entry.now slots ss) }
{
    for slot in 0..SLOTS {
        foresee_slot(servers, asked, state, entry, slot);
    }
}

/// What the fast mixer has told: the number of the state adopted last, that of the last entry, and the last report, whose number is that of the entries. It has the normal mixer's draft, as which states count that aren't pushed yet.
#[derive(Drop)]
pub struct Reporter {
    asked: u32,
    first: FastState,
    current: u64,
    used: u64,
    draft: FastState,
    report: Report,
}

impl Model for Reporter {
    ghost use Rattle.std.specs.Prelude.{◌≡◌};
    ghost use Rattle.af_model.specs.Draft.{initial};
    ghost use Rattle.af_judge.specs.Reporting.{CountsEntries, Telling};

    ghost Value = { Telling };

    ghost view = { λ r. record { asked = r.asked; current = r.current; used = r.used; draft = r.draft; report = r.report } };

    ghost invariant = { λ r. (r.first ≡ initial r.asked) × CountsEntries r.report };
}

impl Reporter {
    /// Before the first entry, with so many frames in a cycle.
    pub fn new(asked: u32) -> Reporter
        ensures { result ≡ telling_begins asked }
    {
        let first = first_state(asked);
        Reporter {
            asked,
            first,
            current: 0,
            used: 0,
            draft: first,
            report: Report {
                cycle: 0,
                slots: [NO_SLOT; SLOTS],
            },
        }
    }

    /// The reporter once more, to be tried out.
    pub fn copy(&self) -> Reporter
        ensures { result ≡ self.now }
    {
        Reporter {
            asked: self.asked,
            first: self.first,
            current: self.current,
            used: self.used,
            draft: self.draft,
            report: self.report,
        }
    }

    /// The number of the state adopted last.
    pub fn current(&self) -> u64
        ensures { result ≡ self.now.current }
    {
        self.current
    }

    /// The number of the state of the last entry, 0 if there is none.
    pub fn used(&self) -> u64
        ensures { result ≡ self.now.used }
    {
        self.used
    }

    /// The last report.
    pub fn report(&self) -> Report
        ensures { result ≡ self.now.report }
    {
        self.report
    }

    /// The normal mixer's draft is now this one.
    pub fn drafted(&mut self, draft: &FastState)
        ensures { self.new ≡ record self.old { draft = draft.now } }
    {
        self.draft = *draft;
    }

    /// The state adopted last: at first one that carries nothing.
    pub fn adopted(&self, states: &[FastState]) -> FastState
        ensures { result ≡ adopted_in self.now states.now }
    {
        match state_of(states, self.current) {
            Some(state) => *state,
            None => self.first,
        }
    }

    // The state that a number without one counts as: number 0 as the one adopted last, and any other as the normal mixer's draft.
    fn unpushed(&self, states: &[FastState], number: u64) -> FastState
        ensures { result ≡ unpushed_in self.now states.now number }
    {
        if number == 0 {
            return self.adopted(states);
        }
        self.draft
    }

    /// The state of a number.
    pub fn state(&self, states: &[FastState], number: u64) -> FastState
        ensures { result ≡ state_in self.now states.now number }
    {
        match state_of(states, number) {
            Some(state) => *state,
            None => self.unpushed(states, number),
        }
    }

    /// The fast mixer polls and finds the state of a number, which it adopts if it was pushed.
    pub fn poll(&mut self, states: &[FastState], number: u64)
        ensures { self.new ≡ polled_in states.now number self.old }
    {
        if number <= states.len() as u64 {
            self.current = number;
        }
    }

    // The report of one slot after an entry, if this is known of its server. Of a state that isn't pushed only what the entry shows is told.
    fn slot(
        &self,
        states: &[FastState],
        state: &FastState,
        last: &FastState,
        entry: &CycleEntry,
        heard: Heard,
        slot: usize,
    ) -> SlotReport
        requires slot { slot < slots }
        requires few { self.now.report.cycle < 2 ^ 31 }
        ensures few { CountsUpTo (self.now.report.cycle + 1) result }
        ensures slot { result ≡ slot_added self.now.asked states.now state.now last.now entry.now (told_by heard) slot (report_at self.now.report.slots slot) }
    {
        let before = self.report.slots[slot];
        let seen = entry.slots[slot].seen;
        if !carries_item(state, slot)
            || state_of(states, entry.state).is_none() && !is_shown(seen)
        {
            return before;
        }
        let counts = counts_from(last, slot, before);
        counted_look(
            self.asked,
            state.slots[slot].generation,
            seen,
            heard,
            counts,
        )
    }

    // An entry is added whose looks were made, with what is known of the streams of the slots of its state.
    fn add(&mut self, states: &[FastState], heard: &[Heard; SLOTS], entry: &CycleEntry)
        requires { self.old.report.cycle < 2 ^ 31 }
        ensures { self.new ≡ entry_added states.now (told_at_slot heard.now) entry.now self.old }
    {
        let state = self.state(states, entry.state);
        let last = self.state(states, self.used);
        let mut slots = self.report.slots;
        for slot in 0..SLOTS {
            slots[slot] = self.slot(states, &state, &last, entry, heard[slot], slot);
        }
        self.report.slots = slots;
        self.report.cycle += 1;
        self.used = entry.state;
    }

    /// An entry is added whose looks were made, by what is known of the streams of the slots of this state. Of the streams of slots that aren't carried nothing is asked.
    pub fn add_played(
        &mut self,
        states: &[FastState],
        played: &FastState,
        tracks: &[TrackJudge],
        entry: &CycleEntry,
    )
        requires { self.old.report.cycle < 2 ^ 31 }
        ensures { self.new ≡ entry_added states.now (told_at_slot (heard_slots tracks.now played.now)) entry.now self.old }
    {
        let state = self.state(states, entry.state);
        let last = self.state(states, self.used);
        let mut slots = self.report.slots;
        for slot in 0..SLOTS {
            if carries_item(&state, slot) {
                let heard = heard_in(tracks, played.slots[slot].track);
                slots[slot] = self.slot(states, &state, &last, entry, heard, slot);
            }
        }
        self.report.slots = slots;
        self.report.cycle += 1;
        self.used = entry.state;
    }

    // The frames of a cycle.
    fn asked(&self) -> u32
        ensures { result ≡ self.now.asked }
    {
        self.asked
    }

    /// An entry is added as it would be: its looks are noted of these servers alone.
    pub fn foresee(&mut self, states: &[FastState], servers: &mut [ServerJudge], entry: &CycleEntry)
        requires { self.old.report.cycle < 2 ^ 31 }
        ensures servers { (ss : List Listed) → servers.old ≡ map server_of ss → servers.new ≡ map server_of (entry_foreseen states.now entry.now (foreseen ss self.old)).servers }
        ensures told { (ss : List Listed) → servers.old ≡ map server_of ss → self.new ≡ (entry_foreseen states.now entry.now (foreseen ss self.old)).told }
    {
        self.poll(states, entry.state);
        let state = self.state(states, entry.state);
        let asked = self.asked();
        foresee_slots(servers, asked, &state, entry);
        let heard = heard_by(&state, servers);
        self.add(states, &heard, entry);
    }
}
