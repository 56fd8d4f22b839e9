//! A journal is put together from its text.
ghost use Rattle.std.specs.Prelude.{◌≡◌, ℕ, ◌+◌, ◌*◌, ◌<◌, ◌^◌, ◌∷◌, ◌==◌, [], length, map, true, false, if◌then◌else◌, None, IfErr, IfOk, IfSome};
ghost use Rattle.af_model.specs.Journals.{JournalData, cycles_of};
ghost use Rattle.af_journal.specs.Beginnings.{AreRead, IsFrontOf, NotesBy, NotesRest, ReadsRound, is_last};
ghost use Rattle.af_journal.specs.declared.line.Line.TheVariants as line;
ghost use Rattle.af_journal.specs.declared.stage.Stage.TheVariants as stage;
ghost use Rattle.af_journal.specs.Judged.{EndsBeyond, first_of_round, is_beyond, most_entries, most_judged, most_looks};
ghost use Rattle.af_journal.specs.Lines.{numbers};
ghost use Rattle.af_journal.specs.Readings.{IsFaultOf, Reads};
ghost use Rattle.af_journal.specs.Taken.{AreTaken, Leaves};
ghost use Rattle.af_journal.specs.Texts.{call_lines, client_lines, each_from};

use crate::fast_reading::{Taken, read_fast};
use crate::left::{Left, Stop, line_with, next_line};
use crate::line::Line;
use crate::poked::pokes_in;
use crate::reach::{End, Reach, RoundRead, end_after, has_more, reach_of_all, reach_of_judged};
use crate::reading::{first_bad_line, first_refused};
use crate::stage::Stage;
use crate::turn_reading::read_turn;
use af_base::{ClientCall, FastLog};
use af_model::{Journal, Rounds};
use af_script::Script;
use std::alloc::Global;

/// Why a text was not read.
#[derive(Clone, Copy, Debug, PartialEq, Eq)]
pub enum JournalFault {
    /// The number of its first bad line, counted from 1.
    Line { number: u64 },
    /// Memory ran out.
    Memory,
}

/// What a text begins with.
#[derive(Drop)]
pub struct Front {
    /// The text's journal, if it is whole. Else all of its rounds but the last are what is kept of the first ones of that journal, and the last one only pokes what the rest of the text pokes.
    pub journal: Journal,
    /// The text was read to its end, and nothing of it left out.
    pub whole: bool,
}

// The calls that follow.
fn read_calls(alloc: Global, left: &mut Left<'_>) -> Result<Vec<ClientCall>, Stop>
    ensures { IfOk result (λ calls. Leaves left.old.rest.now (call_lines calls.items) left.new.rest.now) }
{
    let mut calls = Vec::new(alloc);
    'calls: while let Some((Line::Call { call }, after)) = next_line(left.rest) {
        left.rest = after;
        calls.push(call)?;
    }
    Ok(calls)
}

// The calls of a client; none if it has no line.
fn read_client(alloc: Global, left: &mut Left<'_>, track: u32) -> Result<Vec<ClientCall>, Stop>
    ensures { IfOk result (λ calls. Leaves left.old.rest.now (client_lines track calls.items) left.new.rest.now) }
{
    match line_with(left.rest, b'C') {
        Some((Line::Client { track: own }, after)) if own == track => {
            left.rest = after;
            let calls = read_calls(alloc, left)?;
            if calls.is_empty() {
                Err(Stop::Order)
            } else {
                Ok(calls)
            }
        }
        _ => Ok(Vec::new(alloc)),
    }
}

// The calls of each client.
fn read_clients(
    alloc: Global,
    left: &mut Left<'_>,
    tracks: u32,
) -> Result<Vec<Vec<ClientCall>>, Stop>
    ensures lines { IfOk result (λ clients. Leaves left.old.rest.now (each_from client_lines 0 (map (λ c. c.items) clients.items)) left.new.rest.now) }
    ensures each { IfOk result (λ clients. length clients.items ≡ tracks) }
{
    let mut clients = Vec::with_capacity(alloc, tracks as usize)?;
    for track in 0..tracks {
        let calls = read_client(alloc, left, track)?;
        clients.push(calls)?;
    }
    Ok(clients)
}

// A round, after its line: what is kept of it is noted.
fn read_round(
    alloc: Global,
    left: &mut Left<'_>,
    tracks: u32,
    reach: Reach,
    noted: &mut Rounds,
    taken: &mut Taken,
) -> Result<RoundRead, Stop>
    requires counted { cycles_of noted.old.rounds ≡ length taken.old.entries.items }
    requires few { 2 * length taken.old.entries.items + length left.old.rest.now < 2 ^ 63 }
    ensures { IfOk result (λ read. (r : ReadsRound tracks reach.kept noted.old taken.old.entries.items taken.old.frames.items left.old.rest.now noted.new taken.new.entries.items taken.new.frames.items left.new.rest.now) × (read.beyond ≡ is_beyond reach.entries reach.looks (first_of_round reach.kept r.round)) × (read.full ≡ (length r.round.entries == reach.kept))) }
{
    let calls = read_clients(alloc, left, tracks)?;
    let turn = read_turn(alloc, left, tracks, reach.kept)?;
    let cycles = read_fast(alloc, left, taken, reach.kept)?;
    let more = has_more(reach.looks, &turn);
    let beyond = cycles > reach.entries || more;
    noted.push(calls, turn, cycles)?;
    Ok(RoundRead {
        beyond,
        full: cycles == reach.kept,
    })
}

// What follows the line of a round, if rounds are read on and there is one.
fn next_round(bytes: &[u8], end: End) -> Option<&[u8]>
    ensures line { IfSome result (λ after. Leaves bytes.now (numbers line.Round ∷ []) after.now) }
    ensures last { IfSome result (λ after. is_last end ≡ true) }
    ensures shorter { IfSome result (λ after. length after.now < length bytes.now) }
{
    match next_line(bytes) {
        Some((Line::Round, after)) if end.is_last() => Some(after),
        _ => None,
    }
}

// The rounds of a text are noted, so far as it is read; why no further ones are.
fn read_rounds(
    alloc: Global,
    left: &mut Left<'_>,
    tracks: u32,
    reach: Reach,
    noted: &mut Rounds,
    taken: &mut Taken,
) -> Result<End, Stop>
    requires none { AreTaken tracks [] noted.old taken.old.entries.items taken.old.frames.items }
    requires few { length left.old.rest.now < 2 ^ 63 }
    requires reach { (reach.entries < reach.kept) × (reach.looks < reach.kept) }
    ensures { IfOk result (λ end. AreRead tracks reach left.old.rest.now end noted.new taken.new.entries.items taken.new.frames.items left.new.rest.now) }
{
    let mut end = End::Last;
    let mut still = 0usize;
    'rounds: while let Some(after) = next_round(left.rest, end) {
        left.rest = after;
        let before = taken.entries.len();
        let read = read_round(alloc, left, tracks, reach, noted, taken)?;
        let now = taken.entries.len();
        still = still.saturating_add(usize::from(now == before));
        end = end_after(read, reach.cycles, before, now, still);
    }
    Ok(end)
}

// At which stage the rest of a text begins: within the entries of a round, if that is full.
fn stage_behind(full: bool) -> Stage
    ensures { result ≡ (if full then stage.Entries else stage.Nothing) }
{
    if full { Stage::Entries } else { Stage::Nothing }
}

// A round is noted that pokes what is left of a text, which may begin with further entries of a round that is full.
fn note_pokes(
    alloc: Global,
    rest: &[u8],
    tracks: u32,
    full: bool,
    noted: &mut Rounds,
) -> Result<(), Stop>
    requires { cycles_of noted.old.rounds < 2 ^ 62 }
    ensures { IfOk result (λ _. (place : ℕ) → NotesRest tracks place rest.now full noted.old noted.new) }
{
    let stage = stage_behind(full);
    if first_refused(rest, tracks, stage).is_some() {
        return Err(Stop::Order);
    }
    let clients = pokes_in(alloc, rest, tracks)?;
    noted.push(clients, None, 0)?;
    Ok(())
}

// What is left of a text behind its rounds: nothing, if all were read, and else a round is noted that pokes what it pokes.
fn note_rest(
    alloc: Global,
    rest: &[u8],
    tracks: u32,
    end: End,
    noted: &mut Rounds,
) -> Result<(), Stop>
    requires { cycles_of noted.old.rounds < 2 ^ 62 }
    ensures { IfOk result (λ _. NotesBy tracks rest.now end noted.old noted.new) }
{
    if !end.is_last() {
        note_pokes(alloc, rest, tracks, end.is_full(), noted)?;
        return Ok(());
    }
    if rest.is_empty() {
        Ok(())
    } else {
        Err(Stop::Order)
    }
}

// What a text of so many tracks begins with, as far as it is read.
fn build(alloc: Global, bytes: &[u8], tracks: u32, reach: Reach) -> Result<Front, Stop>
    requires { (reach.entries < reach.kept) × (reach.looks < reach.kept) }
    ensures front { IfOk result (λ front. IsFrontOf reach.kept tracks bytes.now front.whole front.journal) }
    ensures beyond { IfOk result (λ front. front.whole ≡ false → reach.cycles ≡ None → EndsBeyond reach.entries reach.looks front.journal) }
{
    let _size = bytes.len();
    let mut left = Left { rest: bytes };
    let mut noted = Rounds::new(alloc, tracks);
    let mut taken = Taken {
        entries: Vec::new(alloc),
        frames: Vec::new(alloc),
    };
    let end = read_rounds(alloc, &mut left, tracks, reach, &mut noted, &mut taken)?;
    note_rest(alloc, left.rest, tracks, end, &mut noted)?;
    let log = FastLog::of(taken.entries, taken.frames);
    let whole = end.is_last();
    Ok(Front {
        journal: Journal::new(noted, log),
        whole,
    })
}

// Why a text isn't read: its first bad line, or, if it has none, that memory ran out.
fn fault_of(bytes: &[u8], script: &Script) -> JournalFault
    ensures { IsFaultOf (length script.now.tracks) bytes.now result }
{
    match first_bad_line(bytes, script) {
        Some(number) => JournalFault::Line { number },
        None => JournalFault::Memory,
    }
}

/// Reads a journal's text, for as many tracks as the script has: the journal whose text it is.
///
/// A text that has no reading is answered by the number of its first bad line, as `first_bad_line` gives it, whatever memory there is. Memory comes only for a text that has one, if it was refused.
pub fn read(alloc: Global, bytes: &[u8], script: &Script) -> Result<Journal, JournalFault>
    ensures journal { IfOk result (Reads (length script.now.tracks) bytes.now) }
    ensures only { IfOk result (λ journal. (other : JournalData) → Reads (length script.now.tracks) bytes.now other → other ≡ journal) }
    ensures fault { IfErr result (IsFaultOf (length script.now.tracks) bytes.now) }
{
    let tracks = script.tracks().len() as u32;
    let Ok(front) = build(alloc, bytes, tracks, reach_of_all()) else {
        return Err(fault_of(bytes, script));
    };
    if front.whole {
        Ok(front.journal)
    } else {
        Err(fault_of(bytes, script))
    }
}

// What a text begins with, as far as it is read.
fn read_to(
    alloc: Global,
    bytes: &[u8],
    script: &Script,
    reach: Reach,
) -> Result<Front, JournalFault>
    requires { (reach.entries < reach.kept) × (reach.looks < reach.kept) }
    ensures front { IfOk result (λ front. IsFrontOf reach.kept (length script.now.tracks) bytes.now front.whole front.journal) }
    ensures beyond { IfOk result (λ front. front.whole ≡ false → reach.cycles ≡ None → EndsBeyond reach.entries reach.looks front.journal) }
    ensures fault { IfErr result (IsFaultOf (length script.now.tracks) bytes.now) }
{
    let tracks = script.tracks().len() as u32;
    match build(alloc, bytes, tracks, reach) {
        Ok(front) => Ok(front),
        Err(_) => Err(fault_of(bytes, script)),
    }
}

/// Reads what of a journal's text is judged, for as many tracks as the script has, up to the first round that has more entries, or more looks at a track, than a legal one: what the text begins with.
///
/// A text that has no reading is answered as `read` answers it.
pub fn read_judged(alloc: Global, bytes: &[u8], script: &Script) -> Result<Front, JournalFault>
    ensures front { IfOk result (λ front. IsFrontOf most_judged (length script.now.tracks) bytes.now front.whole front.journal) }
    ensures beyond { IfOk result (λ front. front.whole ≡ false → EndsBeyond most_entries most_looks front.journal) }
    ensures fault { IfErr result (IsFaultOf (length script.now.tracks) bytes.now) }
{
    read_to(alloc, bytes, script, reach_of_judged(None))
}

/// Reads what `read_judged` reads, no further than it matters by the script's cycles. A round behind more entries than the script allows is never at fault by itself, since one before it is.
///
/// A text that has no reading is answered as `read` answers it.
pub fn read_front(alloc: Global, bytes: &[u8], script: &Script) -> Result<Front, JournalFault>
    ensures front { IfOk result (λ front. IsFrontOf most_judged (length script.now.tracks) bytes.now front.whole front.journal) }
    ensures fault { IfErr result (IsFaultOf (length script.now.tracks) bytes.now) }
{
    read_to(
        alloc,
        bytes,
        script,
        reach_of_judged(Some(script.cycles() as usize)),
    )
}
