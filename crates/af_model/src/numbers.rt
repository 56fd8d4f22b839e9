//! The numbers of a journal lie in the ranges of their fields: each is read to know it.
ghost use Rattle.std.specs.Prelude.{◌<◌, ◌^◌, All, MatchOption};
ghost use Rattle.std.specs.Option.{option_map};
ghost use Rattle.af_base.specs.Turn.{take_seen, track_seen, turn_of};
ghost use Rattle.af_model.specs.Numbers.{AreWords, FitsCall, FitsEntry, FitsLook, FitsPush, FitsSlot, FitsTake, FitsTrack, FitsTurn, seen_words};

use af_base::{
    ClientCall, CommandLook, CycleEntry, FastLog, NormalTake, Push, SLOTS, Seen, SlotEntry,
    TrackTurn, TurnEntry,
};

/// A word has 32 bits.
pub(crate) fn know_word(word: u32)
    ensures { word < 2 ^ 32 }
{
    let _word = word;
}

// The number of a cycle or of a state has 64 bits.
fn know_number(number: u64)
    ensures { number < 2 ^ 64 }
{
    let _number = number;
}

// The words of what a look showed.
fn know_seen(seen: Seen)
    ensures { AreWords (seen_words seen) }
{
    match seen {
        Seen::Absent | Seen::Empty => {}
        Seen::Frames { count } => know_word(count),
        Seen::Flushed { dropped } => know_word(dropped),
        Seen::Shut { front, rear } => {
            know_word(front);
            know_word(rear);
        }
    }
}

// The words of a call.
fn know_call(call: ClientCall)
    ensures { FitsCall call }
{
    match call {
        ClientCall::Full { front: word }
        | ClientCall::Dead { flags: word }
        | ClientCall::Cleared { flags: word }
        | ClientCall::Flush { count: word }
        | ClientCall::Gain { word }
        | ClientCall::SendFull { front: word }
        | ClientCall::SendDead { flags: word }
        | ClientCall::Status { word } => know_word(word),
        ClientCall::Put {
            front: word,
            count: other,
        }
        | ClientCall::Corrupt {
            front: word,
            rear: other,
        }
        | ClientCall::SendCorrupt {
            front: word,
            rear: other,
        }
        | ClientCall::Poke {
            word,
            value: other,
            ..
        } => {
            know_word(word);
            know_word(other);
        }
        ClientCall::Sent {
            front,
            code,
            argument,
        } => {
            know_word(front);
            know_word(code);
            know_word(argument);
        }
    }
}

/// The words of some calls have 32 bits: each is read, and nothing is done with it.
pub fn know_calls(calls: &[ClientCall])
    ensures { All FitsCall calls.now }
{
    for i in 0..calls.len() {
        know_call(calls[i]);
    }
}

/// The words of the calls of each client.
pub(crate) fn know_clients(clients: &[Vec<ClientCall>])
    ensures { All (λ calls. All FitsCall calls.items) clients.now }
{
    for i in 0..clients.len() {
        know_calls(clients[i].as_slice());
    }
}

// The words of a look at a command block.
fn know_look(look: CommandLook)
    ensures { FitsLook look }
{
    know_word(look.flush);
    know_word(look.rear);
    know_word(look.code);
    know_word(look.argument);
    know_seen(look.seen);
}

// The words of some looks at a command block.
fn know_looks(looks: &[CommandLook])
    ensures { All FitsLook looks.now }
{
    for i in 0..looks.len() {
        know_look(looks[i]);
    }
}

// A status that may be stored.
fn know_status(status: Option<u32>)
    ensures { MatchOption status (Unit {0}) (λ word. word < 2 ^ 32) }
{
    match status {
        Some(word) => know_word(word),
        None => {}
    }
}

// The numbers of what a turn saw and did of a track.
fn know_track(track: &TrackTurn)
    ensures { FitsTrack (track_seen track.now) }
{
    know_looks(track.looks.as_slice());
    know_status(track.status);
}

// The numbers of what a turn saw and did of each track.
fn know_tracks(tracks: &[TrackTurn])
    ensures { All (λ t. FitsTrack (track_seen t)) tracks.now }
{
    for i in 0..tracks.len() {
        know_track(&tracks[i]);
    }
}

// The numbers of what a push answered.
fn know_push(push: Push)
    ensures { FitsPush push }
{
    match push {
        Push::Clean => {}
        Push::Pushed { number } => know_number(number),
        Push::Busy { seen, expected } => {
            know_word(seen);
            know_word(expected);
        }
    }
}

// The words of a slot.
fn know_slot(slot: SlotEntry)
    ensures { FitsSlot slot }
{
    know_word(slot.gains);
    know_word(slot.flush);
    know_word(slot.rear);
    know_seen(slot.seen);
}

// The numbers of a take.
fn know_take(take: &NormalTake)
    ensures { FitsTake (take_seen take.now) }
{
    know_word(take.track);
    know_slot(take.slot);
}

// The numbers of each take.
fn know_takes(takes: &[NormalTake])
    ensures { All (λ t. FitsTake (take_seen t)) takes.now }
{
    for i in 0..takes.len() {
        know_take(&takes[i]);
    }
}

/// The numbers of a turn lie in the ranges of their fields: each is read, and nothing is done with it.
pub fn know_turn(turn: &TurnEntry)
    ensures { FitsTurn (turn_of turn.now) }
{
    know_word(turn.room);
    know_number(turn.cycle);
    know_tracks(turn.tracks.as_slice());
    know_push(turn.push);
    know_takes(turn.mixes.as_slice());
}

/// The numbers of a turn, if one was made.
pub(crate) fn know_turns(turn: Option<&TurnEntry>)
    ensures { MatchOption (option_map (λ e. turn_of e.now) turn.entry) (Unit {0}) FitsTurn }
{
    match turn {
        Some(entry) => know_turn(entry),
        None => {}
    }
}

// A scale has 16 bits.
fn know_scale(scale: u16)
    ensures { scale < 2 ^ 16 }
{
    let _scale = scale;
}

// The numbers of an entry.
fn know_entry(entry: &CycleEntry)
    ensures { FitsEntry entry.now }
{
    know_number(entry.state);
    for i in 0..SLOTS {
        know_slot(entry.slots[i]);
        know_scale(entry.scales[i]);
    }
}

/// The numbers of each entry of a log lie in the ranges of their fields: each is read, and nothing is done with it.
pub fn know_log(log: &FastLog)
    ensures { All FitsEntry log.now.entries }
{
    for i in 0..log.len() {
        let Some(entry) = log.entry(i) else {
            unreachable!()
        };
        know_entry(entry);
    }
}
