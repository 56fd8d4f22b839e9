//! What a call's answer says that its proxy saw and did, and whether the answer has its cause.
use crate::calls::{Answer, Call};
use af_base::{ClientEvent, INVALID, Seen, ServerEvent};
use af_client::{Sent, Wrote};
use af_server::Look;

// The sizes and the wrap of a block, whether its client may poke, and what a proxy kept before a call: its position, the flush count, and the front and rear that shut it.
#[derive(Clone, Copy)]
pub(crate) struct Kept {
    pub frames: u32,
    pub cells: u32,
    pub wrap: u32,
    pub poked: bool,
    pub position: u32,
    pub flushes: u32,
    pub shut: Option<(u32, u32)>,
}

// A position so many frames after the base.
pub(crate) fn position_of(base: u32, count: u64) -> u32 {
    base.wrapping_add((count % 0x1_0000_0000) as u32)
}

// Adds events to a list, if there is memory for them.
pub(crate) fn note<E: Copy>(list: &mut Vec<E>, events: &[E]) -> bool {
    list.extend_from_slice(events).is_ok()
}

// ## The client

// Up to three events.
type ClientEvents = ([ClientEvent; 3], usize);

fn no_event() -> ClientEvents {
    ([ClientEvent::Flush; 3], 0)
}

fn one_event(event: ClientEvent) -> ClientEvents {
    ([event; 3], 1)
}

// Flags without INVALID, and this front, were seen, and so many frames released.
fn open_events(front: u32, count: u32) -> ClientEvents {
    let saw = ClientEvent::SawFlags { flags: 0 };
    let released = ClientEvent::Release { count };
    let shown = if count == 0 { 2 } else { 3 };
    ([saw, ClientEvent::SawFront { front }, released], shown)
}

// A proxy that was shut before steps no more.
fn corrupt_events(kept: &Kept, front: u32) -> ClientEvents {
    match kept.shut {
        None => open_events(front, 0),
        Some(_) => no_event(),
    }
}

// What a client's call saw and did.
fn client_events(kept: &Kept, call: &Call, answer: &Answer) -> ClientEvents {
    match (*call, *answer) {
        (_, Answer::Wrote(Wrote::Put { front, count, .. })) => open_events(front, count),
        (_, Answer::Wrote(Wrote::Full { front })) => open_events(front, 0),
        (_, Answer::Wrote(Wrote::Dead { flags })) => one_event(ClientEvent::SawFlags { flags }),
        (_, Answer::Wrote(Wrote::Corrupt { front, .. })) => corrupt_events(kept, front),
        (_, Answer::Sent(Sent::Sent { front })) => open_events(front, 2),
        (_, Answer::Sent(Sent::Full { front })) => open_events(front, 0),
        (_, Answer::Sent(Sent::Dead { flags })) => one_event(ClientEvent::SawFlags { flags }),
        (_, Answer::Sent(Sent::Corrupt { front, .. })) => corrupt_events(kept, front),
        (Call::Flush, Answer::Word(_)) => one_event(ClientEvent::Flush),
        (Call::Clear, Answer::Word(old)) => one_event(ClientEvent::ClearFlags { old }),
        (_, Answer::Word(word)) => one_event(ClientEvent::SawStatus { word }),
        (Call::Gains(word), Answer::Done) => one_event(ClientEvent::SetGain { word }),
        (Call::Poke(word, value), Answer::Done) => one_event(ClientEvent::Poke { word, value }),
        _ => no_event(),
    }
}

// Adds what a client's call saw and did.
pub(crate) fn note_client(
    list: &mut Vec<ClientEvent>,
    kept: &Kept,
    call: &Call,
    answer: &Answer,
) -> bool {
    let (events, count) = client_events(kept, call, answer);
    note(list, &events[..count.min(3)])
}

// The words are those that shut the proxy before, or this call saw them outside the room.
fn is_outside(kept: &Kept, front: u32, rear: u32) -> bool {
    match kept.shut {
        None => rear.wrapping_sub(front) > kept.frames,
        Some(words) => words == (front, rear),
    }
}

// The frames in the block by the front that a client saw, if its proxy wasn't shut.
fn filled(kept: &Kept, front: u32) -> Option<u32> {
    match kept.shut {
        None => Some(kept.position.wrapping_sub(front)),
        Some(_) => None,
    }
}

// Whether a write puts so many of the frames asked for, and leaves this room.
fn is_put(kept: &Kept, front: u32, asked: u32, count: u32, rest: u32) -> bool {
    let Some(filled) = filled(kept, front) else {
        return false;
    };
    let room = kept.frames.saturating_sub(filled);
    let last = kept.cells.saturating_sub(1);
    let to_end = kept.cells.saturating_sub(kept.position & last);
    room > 0 && count == asked.min(room).min(to_end) && rest == room.saturating_sub(count)
}

// Only a client that pokes sees a dead track or words that don't fit, since no server here sets INVALID.
fn is_dead(kept: &Kept, flags: u32) -> bool {
    kept.poked && kept.shut == None && flags & INVALID != 0
}

fn is_corrupt(kept: &Kept, front: u32, rear: u32) -> bool {
    kept.poked && is_outside(kept, front, rear) && rear == kept.position
}

fn wrote_by_cause(kept: &Kept, asked: u32, wrote: &Wrote) -> bool {
    match *wrote {
        Wrote::Put { front, count, rest } => is_put(kept, front, asked, count, rest),
        Wrote::Full { front } => filled(kept, front) == Some(kept.frames),
        Wrote::Dead { flags } => is_dead(kept, flags),
        Wrote::Corrupt { front, rear } => is_corrupt(kept, front, rear),
    }
}

fn sent_by_cause(kept: &Kept, sent: &Sent) -> bool {
    let most = kept.frames.saturating_sub(2);
    match *sent {
        Sent::Sent { front } => filled(kept, front).is_some_and(|filled| filled <= most),
        Sent::Full { front } => {
            filled(kept, front).is_some_and(|filled| filled > most && filled <= kept.frames)
        }
        Sent::Dead { flags } => is_dead(kept, flags),
        Sent::Corrupt { front, rear } => is_corrupt(kept, front, rear),
    }
}

// Whether a client's call has the cause of its answer.
pub(crate) fn client_has_cause(kept: &Kept, call: &Call, answer: &Answer) -> bool {
    match (*call, *answer) {
        (Call::Write(_, asked), Answer::Wrote(wrote)) => {
            wrote_by_cause(kept, u32::from(asked), &wrote)
        }
        (Call::Send(..), Answer::Sent(sent)) => sent_by_cause(kept, &sent),
        (Call::Flush, Answer::Word(count)) => count == kept.flushes.wrapping_add(1),
        (Call::Clear, Answer::Word(old)) => kept.poked || old & INVALID == 0,
        (Call::Status, Answer::Word(_)) => true,
        (Call::Gains(_), Answer::Done) => true,
        (Call::Poke(..), Answer::Done) => kept.poked,
        _ => false,
    }
}

// ## The server

// Up to four events.
type ServerEvents = ([ServerEvent; 4], usize);

fn events_of(first: ServerEvent, second: ServerEvent, count: usize) -> ServerEvents {
    ([first, second, first, first], count)
}

// What a look saw, and a drop or a take. Front is the server's own position, unless the client poked: then only the words of the answer are known.
fn look_events(kept: &Kept, look: &Look, takes: bool) -> ServerEvents {
    let Look { flush, rear, seen } = *look;
    let front = match seen {
        Seen::Shut { front, .. } => front,
        Seen::Flushed { dropped } if kept.wrap == 0 => rear.wrapping_sub(dropped),
        _ => kept.position,
    };
    let (last, count) = match seen {
        Seen::Flushed { dropped } => {
            let to = front.wrapping_add(dropped);
            (ServerEvent::Drop { to }, 4)
        }
        Seen::Frames { count } if takes => (ServerEvent::Take { count }, 4),
        _ => (ServerEvent::SawFront { front }, 3),
    };
    let saw = [
        ServerEvent::SawFlush { flush },
        ServerEvent::SawRear { rear },
        ServerEvent::SawFront { front },
        last,
    ];
    (saw, if kept.shut == None { count } else { 0 })
}

// What a server's call saw and did.
fn server_events(kept: &Kept, call: &Call, answer: &Answer) -> ServerEvents {
    let set = ServerEvent::SetFlags { bits: 1 };
    match (*call, *answer) {
        (_, Answer::Saw(look)) => look_events(kept, &look, false),
        (_, Answer::Took(look, _)) => look_events(kept, &look, true),
        (_, Answer::Word(word)) => events_of(ServerEvent::SawGain { word }, set, 1),
        (Call::Tally(missing), Answer::Done) => events_of(ServerEvent::Tally { missing }, set, 2),
        (Call::SetFlags(bits), Answer::Done) => events_of(ServerEvent::SetFlags { bits }, set, 1),
        (Call::SetStatus(word), Answer::Done) => events_of(ServerEvent::SetStatus { word }, set, 1),
        _ => events_of(set, set, 0),
    }
}

// Adds what a server's call saw and did.
pub(crate) fn note_server(
    list: &mut Vec<ServerEvent>,
    kept: &Kept,
    call: &Call,
    answer: &Answer,
) -> bool {
    let (events, count) = server_events(kept, call, answer);
    note(list, &events[..count.min(4)])
}

// How many flushes a flush word counts.
fn flushes_by(kept: &Kept, word: u32) -> u32 {
    match kept.wrap {
        0 => word,
        wrap => word / wrap,
    }
}

// Whether a flush word is another than the one kept. Of a positional block the number of flushes alone is known.
fn is_new(kept: &Kept, flush: u32) -> bool {
    kept.wrap != 0 || flush != kept.flushes
}

// Whether so many frames are dropped: all that are there, or on a positional block those up to the place that the flush word gives.
fn is_dropped(kept: &Kept, flush: u32, there: u32, dropped: u32) -> bool {
    if kept.wrap == 0 {
        return dropped == there;
    }
    let to = kept.position.wrapping_add(dropped);
    dropped == 0 || (dropped <= there && to % kept.wrap == flush % kept.wrap)
}

// Whether what a look shows has its cause if the client may have poked any word.
fn shown_after_pokes(kept: &Kept, ask: u32, look: &Look) -> bool {
    match look.seen {
        Seen::Shut { front, rear } => {
            let same = kept.wrap != 0 || look.flush == kept.flushes;
            is_outside(kept, front, rear) && same && look.rear == rear
        }
        Seen::Flushed { .. } => kept.shut == None && is_new(kept, look.flush),
        Seen::Empty => kept.shut == None && flushes_by(kept, look.flush) == kept.flushes,
        Seen::Frames { count } => {
            let same = flushes_by(kept, look.flush) == kept.flushes;
            kept.shut == None && same && count >= 1 && count <= ask
        }
        Seen::Absent => false,
    }
}

// Whether what a look shows has its cause if the client has not poked: the server's own position is front, and flush counts rise.
fn shown_by_cause(kept: &Kept, ask: u32, look: &Look) -> bool {
    let there = look.rear.wrapping_sub(kept.position);
    let flushes = flushes_by(kept, look.flush);
    there <= kept.frames
        && match look.seen {
            Seen::Flushed { dropped } => {
                flushes > kept.flushes && is_dropped(kept, look.flush, there, dropped)
            }
            Seen::Empty => flushes == kept.flushes && there == 0,
            Seen::Frames { count } => {
                flushes == kept.flushes && count >= 1 && count == ask.min(there)
            }
            _ => false,
        }
}

fn look_has_cause(kept: &Kept, ask: u32, look: &Look) -> bool {
    if kept.poked {
        shown_after_pokes(kept, ask, look)
    } else {
        shown_by_cause(kept, ask, look)
    }
}

// Whether a server's call has the cause of its answer.
pub(crate) fn server_has_cause(kept: &Kept, call: &Call, answer: &Answer) -> bool {
    match (*call, *answer) {
        (Call::Look(ask), Answer::Saw(look)) => look_has_cause(kept, ask, &look),
        (Call::Take(ask), Answer::Took(look, _)) => look_has_cause(kept, ask, &look),
        (Call::SeeGains, Answer::Word(_)) => true,
        (Call::Tally(_) | Call::SetFlags(_) | Call::SetStatus(_), Answer::Done) => true,
        _ => false,
    }
}
