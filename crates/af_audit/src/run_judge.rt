//! A run as its journal records it, round by round.
ghost use Rattle.std.specs.Prelude.{◌≡◌, ◌⊎◌, ◌↔◌, ◌+◌, ◌-◌, ◌^◌, ◌<◌, ◌≤◌, IfOk, IfSome, IsTrue, OnOk, length, map, nat_le, take, drop, option_map, true};
ghost use Rattle.std.specs.List.{list_any, prefix_len};
ghost use Rattle.af_base.specs.Turn.{turn_of};
ghost use Rattle.af_model.specs.JournalForm.{IsJournal, IsTurn};
ghost use Rattle.af_model.specs.Journals.{calls_at, entries_of, frames_of, round_at};
ghost use Rattle.af_runs.specs.Blocks.{Marks};
ghost use Rattle.af_runs.specs.LegalRuns.{is_lawful_block, is_poke_on, marks_of};
ghost use Rattle.af_runs.specs.Runs.{Run};
ghost use Rattle.af_runs.specs.Sessions.{Session, spec_setting};
ghost use Rattle.af_script.specs.Form.{IsScript};
ghost use Rattle.af_judge.specs.EntriesTold.{AreEntriesRight, MayEnter, entries_leave, playing};
ghost use Rattle.af_judge.specs.NormalJudged.{IsJudged};
ghost use Rattle.af_judge.specs.BlocksMet.{AreShort, BothKeep, blocks_met};
ghost use Rattle.af_judge.specs.QueueNumbers.{turn_steps, with_steps};
ghost use Rattle.af_judge.specs.SharedTold.{AreRight};
ghost use Rattle.af_audit.specs.MeetingsJudged.{TracksMet, is_there, mixers_met};
ghost use Rattle.af_audit.specs.RoundTold.{MixersTold, RoundPlayed, TurnIfTold, TurnTold, ended_track, pipe_turned, report_turned};
ghost use Rattle.af_audit.specs.RunJudged.{IsReady};
ghost use Rattle.af_audit.specs.RunKept.{AreNewTracks, CallsJudged, IsNewJudge, JudgesRound, KeepsRun, LeastBelow, client_ended, found_after, least_found, lesser, party_ended, run_before};
ghost use Rattle.af_audit.specs.Verdicts.{MayEnd};

use af_base::{ClientCall, FastLog, FastState, Memory, TurnEntry};
use af_io::Pcm;
use af_judge::{Entries, FastJudge, NormalJudge, ReportJudge, TrackJudge, is_fast_turn};
use af_life::Setting;
use af_model::Journal;
use af_script::{Script, TrackSpec};
use std::alloc::Global;

// More frames than a buffer has.
const MOST_PUT: usize = 0x1_0000_0000;

// The most cycles of a turn of the fast mixer.
const MOST_CYCLES: usize = 16;

/// The mixers of a run: the normal mixer, the fast mixer with the queue and the pipe, the report between them, and how many cycles the script allows.
#[derive(Drop)]
pub(crate) struct RunJudge {
    alloc: Global,
    normal: NormalJudge,
    fast: FastJudge,
    report: ReportJudge,
    cycles: u64,
}

// What is found of a round: the least client whose turn isn't legal, the least one whose block has no history, and whether each mixer is clear.
#[derive(Clone, Copy)]
struct Found {
    caller: Option<u32>,
    met: Option<u32>,
    normal: bool,
    fast: bool,
}

// Whether a call pokes the command block, or else the stream block.
fn is_poke_on(commands: bool, call: ClientCall) -> bool
    ensures { result ≡ is_poke_on commands call }
{
    match call {
        ClientCall::Poke { command, .. } => command == commands,
        _ => false,
    }
}

// Whether some of these calls pokes that block.
fn has_poke_on(commands: bool, calls: &[ClientCall]) -> bool
    ensures { result ≡ list_any (is_poke_on commands) calls.now }
{
    calls.iter().any(|call| is_poke_on(commands, *call))
}

// Whether a block of a track is never poked in the journal.
fn is_lawful(journal: &Journal, track: u32, commands: bool) -> bool
    requires { track < journal.now.tracks }
    ensures { result ≡ is_lawful_block commands journal.now.rounds track }
{
    for round in 0..journal.rounds() {
        if has_poke_on(commands, journal.client(round, track)) {
            return false;
        }
    }
    true
}

/// The tracks of a script before the first round.
pub(crate) fn new_tracks(
    alloc: Global,
    script: &Script,
    journal: &Journal,
) -> Result<Vec<TrackJudge>, Memory>
    requires tracks { journal.now.tracks ≡ length script.now.tracks }
    ensures count { IfOk result (λ tracks. length tracks.items ≡ length script.now.tracks) }
    ensures new { IfOk result (λ tracks. AreNewTracks script.now journal.now.rounds (length script.now.tracks) tracks.items) }
{
    let version = script.version();
    let mut tracks = Vec::new(alloc);
    for (at, spec) in script.tracks().iter().enumerate() {
        let stream = is_lawful(journal, at as u32, false);
        let commands = is_lawful(journal, at as u32, true);
        tracks.push(TrackJudge::new(alloc, version, spec, stream, commands))?;
    }
    Ok(tracks)
}

// How a track is mixed.
fn setting_of(spec: &TrackSpec) -> Setting
    ensures { result ≡ spec_setting spec.now }
{
    Setting {
        fast: spec.fast,
        mono: spec.mono,
        scale: spec.scale,
    }
}

// How the tracks of a script are mixed.
fn settings_of(alloc: Global, script: &Script) -> Result<Vec<Setting>, Memory>
    ensures { IfOk result (λ settings. settings.items ≡ map spec_setting script.now.tracks) }
{
    let specs = script.tracks();
    let mut settings = Vec::new(alloc);
    for spec in specs {
        settings.push(setting_of(spec))?;
    }
    Ok(settings)
}

// How many entries of a round come first: up to the first whose state is beyond those pushed.
fn early_of(log: &FastLog, entries: Entries, pushed: u64) -> Entries
    requires { entries.first + entries.count ≤ length log.now.entries }
    ensures first { result.first ≡ entries.first }
    ensures count { result.count ≤ entries.count }
    ensures early { result.count ≡ prefix_len (λ e. nat_le e.state pushed) (take entries.count (drop entries.first log.now.entries)) }
{
    let _len = log.len();
    for at in 0..entries.count {
        let Some(entry) = log.entry(entries.first + at) else {
            unreachable!()
        };
        if entry.state > pushed {
            return Entries {
                first: entries.first,
                count: at,
            };
        }
    }
    entries
}

// The entries of a round behind its first ones.
fn late_of(entries: Entries, early: usize) -> Entries
    requires early { early ≤ entries.count }
    requires few { entries.first + entries.count < 2 ^ 64 }
    ensures first { result.first ≡ entries.first + early }
    ensures count { result.count ≡ entries.count - early }
{
    Entries {
        first: entries.first + early,
        count: entries.count - early,
    }
}

// The log of a journal.
#[tactic(auto, using(crate::proofs::RoundParts::as_many))]
fn log_in(journal: &Journal) -> &FastLog
    ensures count { length result.now.entries ≡ length (entries_of journal.now.rounds) }
    ensures entries { result.now.entries ≡ map (λ e. e.entry) (entries_of journal.now.rounds) }
    ensures frames { result.now.frames ≡ frames_of (entries_of journal.now.rounds) }
    ensures form { IsJournal journal.now }
{
    journal.log()
}

// The entries of a round.
#[tactic(auto, using(crate::proofs::RoundParts::within_rounds))]
fn entries_in(journal: &Journal, round: usize) -> Entries
    requires { round < length journal.now.rounds }
    ensures inside { result.first + result.count ≤ length (entries_of journal.now.rounds) }
    ensures first { result.first ≡ length (entries_of (take round journal.now.rounds)) }
    ensures count { result.count ≡ length (round_at journal.now round).entries }
{
    let (first, count) = journal.cycles(round);
    Entries { first, count }
}

// The turn of a round.
fn turn_in(journal: &Journal, round: usize) -> Option<&TurnEntry>
    requires { round < length journal.now.rounds }
    ensures form { IfSome result (λ e. IsTurn journal.now.tracks (turn_of e.now)) }
    ensures turn { option_map (λ e. turn_of e.now) result ≡ (round_at journal.now round).turn }
{
    let _log = journal.log();
    journal.turn(round)
}

// The least client found at fault, after one more that is right or not.
fn found_after(least: Option<u32>, right: bool, at: u32) -> Option<u32>
    ensures { result ≡ found_after least right at }
{
    match least {
        None if !right => Some(at),
        _ => least,
    }
}

// The lesser of two clients.
fn least(a: Option<u32>, b: Option<u32>) -> Option<u32>
    ensures either { (result ≡ a) ⊎ (result ≡ b) }
    ensures least { result ≡ lesser a b }
{
    match (a, b) {
        (None, _) => b,
        (Some(x), Some(y)) if y < x => b,
        _ => a,
    }
}

impl Found {
    // The least party at fault, in a run of so many tracks. `over` says whether the round is behind the end of all parties.
    fn least(self, over: bool, tracks: u32) -> Option<u32>
        requires few { tracks ≤ 32 }
        requires caller { IfSome self.caller (λ track. track < tracks) }
        requires met { IfSome self.met (λ track. track < tracks) }
        ensures party { IfSome result (λ party. party ≤ tracks + 1) }
        ensures least { result ≡ least_found over tracks self }
    {
        if over {
            return Some(0);
        }
        if let Some(track) = least(self.caller, self.met) {
            return Some(track);
        }
        if !self.normal {
            return Some(tracks);
        }
        if !self.fast {
            return Some(tracks + 1);
        }
        None
    }
}

// The first client that hasn't ended.
fn going_client(tracks: &[TrackJudge]) -> Option<u32>
    requires { length tracks.now ≤ 32 }
    ensures { LeastBelow (λ track. client_ended tracks.now track ≡ true) (length tracks.now) result }
{
    for at in 0..tracks.len() {
        if !tracks[at].has_ended() {
            return Some(at as u32);
        }
    }
    None
}

// Notes the calls of all clients. Answers the least one whose turn isn't legal.
fn call_all(
    tracks: &mut [TrackJudge],
    specs: &[TrackSpec],
    files: &[Pcm],
    journal: &Journal,
    round: usize,
) -> Result<Option<u32>, Memory>
    requires few { length tracks.old ≤ 32 }
    requires specs { length specs.now ≡ length tracks.old }
    requires files { length files.now ≡ length tracks.old }
    requires tracks { journal.now.tracks ≡ length tracks.old }
    requires round { round < length journal.now.rounds }
    ensures count { length tracks.new ≡ length tracks.old }
    ensures track { IfOk result (λ found. IfSome found (λ track. track < length tracks.old)) }
    ensures calls { IfOk result (CallsJudged (length tracks.old) specs.now files.now (calls_at journal.now round) tracks.old tracks.new) }
{
    let mut least = None;
    for at in 0..tracks.len() {
        let calls = journal.client(round, at as u32);
        let file = files[at].frames();
        let legal = tracks[at].client_turn(specs[at].ops.as_slice(), file, calls)?;
        least = found_after(least, legal, at as u32);
    }
    Ok(least)
}

// Ends every client, once the normal mixer has ended.
fn end_all(tracks: &mut [TrackJudge])
    ensures { tracks.new ≡ map ended_track tracks.old }
{
    for track in tracks {
        track.end();
    }
}

// Whether both hold.
fn both(first: bool, second: bool) -> bool
    ensures { IsTrue result ↔ (IsTrue first × IsTrue second) }
{
    first && second
}

// Lets a track meet the mixers. Answers whether both its blocks have their histories.
fn meet(track: &mut TrackJudge, there: bool, hands: bool) -> Result<bool, Memory>
    ensures met { OnOk result (track.new ≡ blocks_met there hands track.old) }
    ensures short { OnOk result (AreShort there track.new) }
    ensures right { IfOk result (λ yes. IsTrue yes ↔ BothKeep there track.new) }
{
    let stream = track.stream.meet(there, hands)?;
    let commands = track.commands.meet(true, false)?;
    Ok(both(stream, commands))
}

impl RunJudge {
    /// The judge of a script's run before the first round.
    pub(crate) fn new(alloc: Global, script: &Script) -> Result<RunJudge, Memory>
        ensures ready { IfOk result (λ j. IsReady j (length script.now.tracks)) }
        ensures new { IfOk result (λ j. IsNewJudge script.now j) }
    {
        let (frames, multiple) = (script.frames(), script.normal());
        let settings = settings_of(alloc, script)?;
        let normal = NormalJudge::new(alloc, frames, multiple, &settings)?;
        let size = 4 * (multiple * frames);
        Ok(RunJudge {
            alloc,
            normal,
            fast: FastJudge::new(alloc, frames, size, size.next_power_of_two()),
            report: ReportJudge::new(),
            cycles: u64::from(script.cycles()),
        })
    }

    /// The least party that hasn't ended; None if all have.
    pub(crate) fn going_party(&self, tracks: &[TrackJudge]) -> Option<u32>
        requires { length tracks.now ≤ 32 }
        ensures least { LeastBelow (λ party. party_ended self.now tracks.now party ≡ true) (length tracks.now + 2) result }
        ensures party { IfSome result (λ party. party ≤ length tracks.now + 1) }
    {
        if let Some(track) = going_client(tracks) {
            return Some(track);
        }
        let normal = tracks.len() as u32;
        if !self.normal.has_ended() {
            return Some(normal);
        }
        if !self.fast.has_ended() {
            return Some(normal + 1);
        }
        None
    }

    /// Whether a run may end: all parties have ended, or, if it is cut off, its log is full and some party hasn't.
    pub(crate) fn may_end(&self, tracks: &[TrackJudge], cut: bool) -> bool
        requires { length tracks.now ≤ 32 }
        ensures { (s : Session) (marks : Marks) (run : Run) → KeepsRun s marks self.now tracks.now run → IsTrue result ↔ MayEnd cut s run }
    {
        let over = self.going_party(tracks).is_none();
        if !cut {
            return over;
        }
        both(self.fast.entries() == self.cycles, !over)
    }

    // Notes what a turn left of the draft, what it did at the queue, after so many pushes, what it put into the pipe, and the report that it loaded.
    fn note_turn(&mut self, pushed: u64, turn: &TurnEntry) -> Result<(), Memory>
        requires judged { IsJudged self.old.normal }
        ensures same { self.new.normal ≡ self.old.normal }
        ensures noted { OnOk result (let e = turn_of turn.now in self.new ≡ record self.old { fast = record self.old.fast { told = record self.old.fast.told { draft = self.old.normal.plain.kept.draft }; queue = with_steps (turn_steps pushed e.ended e.ack e.push) self.old.fast.queue; pipe = pipe_turned self.old.normal.setup e self.old.fast.pipe }; report = report_turned e self.old.report }) }
    {
        let draft = *self.normal.draft();
        self.fast.drafted(&draft);
        self.fast.queue.turned(pushed, turn)?;
        if turn.ended {
            return Ok(());
        }
        self.fast.pipe.room(turn.room)?;
        let put = self.normal.put(self.alloc, turn.mixes.as_slice())?;
        if put.len() >= MOST_PUT {
            return Err(Memory);
        }
        self.fast.pipe.put(&put)?;
        self.report.loaded(turn.cycle);
        Ok(())
    }

    // Notes a turn of the normal mixer, before these entries of its round. Answers whether it is legal.
    fn turn(
        &mut self,
        tracks: &mut [TrackJudge],
        log: &FastLog,
        later: Entries,
        turn: &TurnEntry,
    ) -> Result<bool, Memory>
        requires ready { IsReady self.old (length tracks.old) }
        requires inside { later.first + later.count ≤ length log.now.entries }
        requires form { IsTurn (length tracks.old) (turn_of turn.now) }
        ensures ready { IfOk result (λ _. IsReady self.new (length tracks.old)) }
        ensures count { IfOk result (λ _. length tracks.new ≡ length tracks.old) }
        ensures told { IfOk result (λ right. TurnTold self.old tracks.old (take later.count (drop later.first log.now.entries)) (turn_of turn.now) right self.new tracks.new) }
    {
        let had_ended = self.normal.has_ended();
        let states = self.normal.states();
        let pushed = states.len() as u64;
        let number = self.fast.number_found(turn.cycle);
        let report = self.fast.report_of(states, tracks, log, later, number)?;
        let legal = self.normal.turn(self.alloc, tracks, &report, turn)?;
        self.note_turn(pushed, turn)?;
        Ok(legal && !had_ended)
    }

    // Notes the turn of a round, if the round has one. Answers whether that is legal: a round without a turn is, once the mixer has ended.
    fn turn_if(
        &mut self,
        tracks: &mut [TrackJudge],
        log: &FastLog,
        later: Entries,
        turn: Option<&TurnEntry>,
    ) -> Result<bool, Memory>
        requires ready { IsReady self.old (length tracks.old) }
        requires inside { later.first + later.count ≤ length log.now.entries }
        requires form { IfSome turn (λ e. IsTurn (length tracks.old) (turn_of e.now)) }
        ensures ready { IfOk result (λ _. IsReady self.new (length tracks.old)) }
        ensures count { IfOk result (λ _. length tracks.new ≡ length tracks.old) }
        ensures told { IfOk result (λ right. TurnIfTold self.old tracks.old (take later.count (drop later.first log.now.entries)) (option_map (λ e. turn_of e.now) turn.entry) right self.new tracks.new) }
    {
        match turn {
            None => Ok(self.normal.has_ended()),
            Some(turn) => self.turn(tracks, log, later, turn),
        }
    }

    // Notes the turns of both mixers in a round. Answers whether that of each is legal, but for what is asked of all entries at once.
    fn mix(
        &mut self,
        tracks: &mut [TrackJudge],
        journal: &Journal,
        round: usize,
    ) -> Result<(bool, bool), Memory>
        requires ready { IsReady self.old (length tracks.old) }
        requires tracks { journal.now.tracks ≡ length tracks.old }
        requires round { round < length journal.now.rounds }
        ensures ready { IfOk result (λ _. IsReady self.new (length tracks.old)) }
        ensures count { IfOk result (λ _. length tracks.new ≡ length tracks.old) }
        ensures told { IfOk result (λ right. let r = round_at journal.now round in MixersTold (frames_of (entries_of journal.now.rounds)) (map (λ e. e.entry) r.entries) r.turn self.old tracks.old right.0 right.1 self.new tracks.new) }
    {
        let log = log_in(journal);
        let entries = entries_in(journal, round);
        let _len = log.len();
        let early = early_of(log, entries, self.normal.states().len() as u64);
        let late = late_of(entries, early.count);
        let before = self.fast.enter(self.normal.states(), tracks, log, early)?;
        let normal = self.turn_if(tracks, log, late, turn_in(journal, round))?;
        let after = self.fast.enter(self.normal.states(), tracks, log, late)?;
        Ok((normal, both(before, after)))
    }

    // Whether as many entries may come in a round as do: none after the end, and else a turn of the fast mixer, within the script's cycles. Of a run that is cut off the turn may also end since the log is full.
    fn may_enter(&self, journal: &Journal, round: usize, cut: bool) -> bool
        requires { round < length journal.now.rounds }
        ensures { IsTrue result ↔ MayEnter cut self.now.fast self.now.cycles (map (λ e. e.entry) (entries_of journal.now.rounds)) (length (entries_of (take round journal.now.rounds))) (length (round_at journal.now round).entries) }
    {
        let entries = entries_in(journal, round);
        let told = self.fast.entries();
        let count = entries.count as u64;
        if told >= self.cycles || count > self.cycles - told {
            return false;
        }
        if self.fast.has_ended() {
            return entries.count == 0;
        }
        let full = cut && told + count == self.cycles;
        is_fast_turn(log_in(journal), entries, MOST_CYCLES, full)
    }

    // Whether the stream proxy of a track takes part in a meeting: it is home, or the fast mixer has it.
    fn is_there(&self, track: u32) -> bool
        ensures { result ≡ is_there self.now track }
    {
        self.normal.is_home(track) || self.fast.holds(self.normal.states(), track)
    }

    // Lets the clients meet the mixers. Answers the least client one of whose blocks has no history.
    fn meet_all(&self, tracks: &mut [TrackJudge]) -> Result<Option<u32>, Memory>
        requires few { length tracks.old ≤ 32 }
        ensures count { length tracks.new ≡ length tracks.old }
        ensures track { IfOk result (λ found. IfSome found (λ track. track < length tracks.old)) }
        ensures met { IfOk result (λ found. TracksMet self.now (length tracks.old) tracks.old tracks.new found) }
    {
        let hands = self.normal.has_hands();
        let mut least = None;
        for at in 0..tracks.len() {
            let there = self.is_there(at as u32);
            let right = meet(&mut tracks[at], there, hands)?;
            least = found_after(least, right, at as u32);
        }
        Ok(least)
    }

    // Lets the mixers meet. Answers whether the queue, the pipe and the report have their histories.
    fn meet_mixers(&mut self) -> Result<bool, Memory>
        ensures same { self.new.normal ≡ self.old.normal }
        ensures met { OnOk result (self.new ≡ mixers_met self.old) }
        ensures right { IfOk result (λ yes. IsTrue yes ↔ AreRight self.old.fast.told.report.cycle self.old.fast.queue self.old.report self.old.fast.pipe) }
    {
        let queue = self.fast.queue.meet()?;
        let pipe = self.fast.pipe.meet()?;
        let report = self.report.meet(self.fast.entries());
        Ok(both(queue, both(pipe, report)))
    }

    // Notes all turns and meetings of a round, and answers what is found.
    fn play(
        &mut self,
        tracks: &mut [TrackJudge],
        specs: &[TrackSpec],
        files: &[Pcm],
        journal: &Journal,
        round: usize,
        cut: bool,
    ) -> Result<Found, Memory>
        requires ready { IsReady self.old (length tracks.old) }
        requires specs { length specs.now ≡ length tracks.old }
        requires files { length files.now ≡ length tracks.old }
        requires tracks { journal.now.tracks ≡ length tracks.old }
        requires round { round < length journal.now.rounds }
        ensures ready { IfOk result (λ _. IsReady self.new (length tracks.old)) }
        ensures count { IfOk result (λ _. length tracks.new ≡ length tracks.old) }
        ensures caller { IfOk result (λ found. IfSome found.caller (λ track. track < length tracks.old)) }
        ensures met { IfOk result (λ found. IfSome found.met (λ track. track < length tracks.old)) }
        ensures told { IfOk result (λ found. let all = entries_of journal.now.rounds in RoundPlayed cut specs.now files.now (frames_of all) (map (λ e. e.entry) all) (length (entries_of (take round journal.now.rounds))) (round_at journal.now round) self.old tracks.old found self.new tracks.new) }
    {
        self.fast.begin_round();
        let may = self.may_enter(journal, round, cut);
        let caller = call_all(tracks, specs, files, journal, round)?;
        let (normal, fast) = self.mix(tracks, journal, round)?;
        let met = self.meet_all(tracks)?;
        let shared = self.meet_mixers()?;
        if self.normal.has_ended() {
            end_all(tracks);
        }
        Ok(Found {
            caller,
            met,
            normal: both(normal, shared),
            fast: both(fast, may),
        })
    }

    /// Notes a round, of a run that is cut off or not. Answers the least party that isn't clear; None if all are.
    pub(crate) fn round(
        &mut self,
        tracks: &mut [TrackJudge],
        specs: &[TrackSpec],
        files: &[Pcm],
        journal: &Journal,
        round: usize,
        cut: bool,
    ) -> Result<Option<u32>, Memory>
        requires ready { IsReady self.old (length tracks.old) }
        requires specs { length specs.now ≡ length tracks.old }
        requires files { length files.now ≡ length tracks.old }
        requires tracks { journal.now.tracks ≡ length tracks.old }
        requires round { round < length journal.now.rounds }
        ensures ready { IfOk result (λ _. IsReady self.new (length tracks.old)) }
        ensures count { IfOk result (λ _. length tracks.new ≡ length tracks.old) }
        ensures party { IfOk result (λ found. IfSome found (λ party. party ≤ length tracks.old + 1)) }
        ensures judged { (s : Session) → IsScript s.script → s.script.tracks ≡ specs.now → s.files ≡ files.now → (let marks = marks_of journal.now.rounds in let run = run_before s journal.now.rounds round in
            KeepsRun s marks self.old tracks.old run → IfOk result (λ found. JudgesRound cut s marks run (round_at journal.now round) self.new tracks.new found)) }
    {
        let _log = log_in(journal);
        let going = self.going_party(tracks);
        let found = self.play(tracks, specs, files, journal, round, cut)?;
        Ok(found.least(going.is_none(), tracks.len() as u32))
    }
}
