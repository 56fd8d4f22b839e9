//! What a journal notes of a round: a copy of a turn, and the form of what is noted without a copy.
ghost use Rattle.std.specs.Prelude.{◌≡◌, length, map, All, IfOk};
ghost use Rattle.af_base.specs.Sample.{IsFrame};
ghost use Rattle.af_base.specs.Turn.{take_seen, track_seen, turn_of};
ghost use Rattle.af_script.specs.Form.{IsTurn};
ghost use Rattle.af_session.specs.Noted.{HasFrames, NotesFrames, NotesNumbers};
ghost use Rattle.af_session.specs.Rounds.{round_told};
ghost use Rattle.af_session.specs.Together.{SessionState};

use crate::parties::Parties;
use af_base::{Frame, Items, Memory, NormalTake, TrackTurn, TurnEntry};
use af_model::{know_calls, know_turn};
use af_script::TurnSpec;
use std::alloc::Global;

// The items of a list, in a list of its own.
fn copied_items<T: Copy + Drop>(alloc: Global, list: &Items<T>) -> Result<Items<T>, Memory>
    ensures { IfOk result (λ l. l.items ≡ list.now.items) }
{
    let items = list.as_slice();
    let mut copy = Items::with_room(alloc, items.len())?;
    for i in 0..items.len() {
        copy.push(items[i]);
    }
    Ok(copy)
}

// A frame as it is. Both samples have 16 bits.
fn known(frame: Frame) -> Frame
    ensures value { result ≡ frame }
    ensures frame { IsFrame frame }
{
    frame
}

/// Each of these frames has two samples of 16 bits: they are read to know it.
pub fn know_frames(frames: &[Frame])
    ensures { All IsFrame frames.now }
{
    for i in 0..frames.len() {
        known(frames[i]);
    }
}

// The frames of a list, in a list of its own.
fn copied_frames(alloc: Global, list: &Items<Frame>) -> Result<Items<Frame>, Memory>
    ensures same { IfOk result (λ l. l.items ≡ list.now.items) }
    ensures frames { IfOk result (λ l. All IsFrame l.items) }
{
    know_frames(list.as_slice());
    copied_items(alloc, list)
}

// What a turn saw and did of one track.
fn copied_track(alloc: Global, track: &TrackTurn) -> Result<TrackTurn, Memory>
    ensures { IfOk result (λ t. track_seen t ≡ track_seen track.now) }
{
    Ok(TrackTurn {
        looks: copied_items(alloc, &track.looks)?,
        status: track.status,
        disabled: track.disabled,
    })
}

// What a turn took of one track.
fn copied_take(alloc: Global, take: &NormalTake) -> Result<NormalTake, Memory>
    ensures same { IfOk result (λ t. take_seen t ≡ take_seen take.now) }
    ensures frames { IfOk result (λ t. All IsFrame t.frames.items) }
{
    Ok(NormalTake {
        track: take.track,
        slot: take.slot,
        frames: copied_frames(alloc, &take.frames)?,
    })
}

// The tracks of a turn.
fn copied_tracks(alloc: Global, tracks: &[TrackTurn]) -> Result<Items<TrackTurn>, Memory>
    ensures { IfOk result (λ l. map track_seen l.items ≡ map track_seen tracks.now) }
{
    let mut copy = Items::with_room(alloc, tracks.len())?;
    for i in 0..tracks.len() {
        copy.push(copied_track(alloc, &tracks[i])?);
    }
    Ok(copy)
}

// The takes of a turn.
fn copied_takes(alloc: Global, takes: &[NormalTake]) -> Result<Items<NormalTake>, Memory>
    ensures same { IfOk result (λ l. map take_seen l.items ≡ map take_seen takes.now) }
    ensures frames { IfOk result (λ l. All (λ t. All IsFrame t.frames.items) l.items) }
{
    let mut copy = Items::with_room(alloc, takes.len())?;
    for i in 0..takes.len() {
        copy.push(copied_take(alloc, &takes[i])?);
    }
    Ok(copy)
}

/// A copy of a turn's entry. Memory is its only refusal.
pub fn copied_turn(alloc: Global, entry: &TurnEntry) -> Result<TurnEntry, Memory>
    ensures same { IfOk result (λ e. turn_of e ≡ turn_of entry.now) }
    ensures frames { IfOk result (λ e. HasFrames (turn_of e)) }
{
    Ok(TurnEntry {
        ended: entry.ended,
        room: entry.room,
        ack: entry.ack,
        cycle: entry.cycle,
        tracks: copied_tracks(alloc, entry.tracks.as_slice())?,
        push: entry.push,
        mixes: copied_takes(alloc, entry.mixes.as_slice())?,
    })
}

// The frames of some takes.
fn know_takes(takes: &[NormalTake])
    ensures { All (λ t. All IsFrame t.frames.items) takes.now }
{
    for i in 0..takes.len() {
        know_frames(takes[i].frames.as_slice());
    }
}

// The frames that a turn took.
fn know_taken(entry: &TurnEntry)
    ensures { HasFrames (turn_of entry.now) }
{
    know_takes(entry.mixes.as_slice());
}

impl Parties {
    /// What a journal notes of the round of this turn, which is over, has its form: to know it, the calls of the client or the turn of the normal mixer are read where they stand. Nothing is copied, and no memory is taken.
    pub fn know_round(&self, turn: TurnSpec)
        requires { IsTurn (length self.now.clients) turn }
        ensures frames { (s : SessionState) → NotesFrames (round_told turn s self.now) }
        ensures numbers { (s : SessionState) → NotesNumbers (round_told turn s self.now) }
    {
        match turn {
            TurnSpec::Client { track } => {
                know_calls(self.clients[track as usize].calls.as_slice());
            }
            TurnSpec::Normal => {
                let entry = self.normal.last();
                know_taken(entry);
                know_turn(entry);
            }
            TurnSpec::Fast { .. } => {}
        }
    }
}
