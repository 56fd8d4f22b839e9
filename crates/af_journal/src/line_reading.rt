//! The line that some bytes spell.
ghost use Rattle.std.specs.Prelude.{◌≡◌, ◌+◌, ◌*◌, ◌<◌, ◌^◌, Some, IfSome};
ghost use Rattle.af_journal.specs.LineReading.{call_at, corrupt_at, entry_at, frames_at, line_at, look_at, marked_at, poke_at, push_at, pushed_at, busy_at, put_at, seen_at, send_at, send_corrupt_at, sent_at, shown_at, slot_at, slot_from, status_at, take_at, turn_at, turn_line_at, whole};

use crate::digits::{next_number, next_word, one_of, three_of, two_of};
use crate::line::Line;
use af_base::{ClientCall, Push, SLOTS, Seen};

// Frames that a look showed, one at least.
#[tactic(auto, unfolding(crate::specs::LineReading::frames_at))]
fn frames_of(rest: &[u8]) -> Option<Seen>
    ensures { result ≡ frames_at rest.now }
{
    let count = one_of(rest)?;
    if count == 0 {
        return None;
    }
    Some(Seen::Frames { count })
}

// A line of a mark alone.
fn alone(rest: &[u8], line: Line) -> Option<Line>
    ensures { result ≡ whole rest.now line }
{
    if rest.is_empty() { Some(line) } else { None }
}

// A look that showed nothing.
fn empty_of(rest: &[u8]) -> Option<Seen>
    ensures { result ≡ whole rest.now Seen.Empty }
{
    if rest.is_empty() {
        Some(Seen::Empty)
    } else {
        None
    }
}

// What a look showed, by its mark.
#[tactic(auto, unfolding(crate::specs::LineReading::shown_at))]
fn shown_of(mark: u8, rest: &[u8]) -> Option<Seen>
    ensures { result ≡ shown_at mark rest.now }
{
    match mark {
        b'f' => frames_of(rest),
        b'e' => empty_of(rest),
        b'l' => {
            let dropped = one_of(rest)?;
            Some(Seen::Flushed { dropped })
        }
        b'x' => {
            let (front, rear) = two_of(rest)?;
            Some(Seen::Shut { front, rear })
        }
        _ => None,
    }
}

// What a look showed, after a space.
#[tactic(auto, unfolding(crate::specs::LineReading::seen_at))]
fn seen_of(bytes: &[u8]) -> Option<Seen>
    ensures { result ≡ seen_at bytes.now }
{
    match bytes {
        [] => None,
        [_] => None,
        [space, mark, rest @ ..] => {
            if *space == b' ' {
                shown_of(*mark, rest)
            } else {
                None
            }
        }
    }
}

#[tactic(auto, unfolding(crate::specs::LineReading::put_at))]
fn put_of(rest: &[u8]) -> Option<ClientCall>
    ensures { result ≡ put_at rest.now }
{
    let (front, count) = two_of(rest)?;
    Some(ClientCall::Put { front, count })
}

#[tactic(auto, unfolding(crate::specs::LineReading::corrupt_at))]
fn corrupt_of(rest: &[u8]) -> Option<ClientCall>
    ensures { result ≡ corrupt_at rest.now }
{
    let (front, rear) = two_of(rest)?;
    Some(ClientCall::Corrupt { front, rear })
}

#[tactic(auto, unfolding(crate::specs::LineReading::send_corrupt_at))]
fn send_corrupt_of(rest: &[u8]) -> Option<ClientCall>
    ensures { result ≡ send_corrupt_at rest.now }
{
    let (front, rear) = two_of(rest)?;
    Some(ClientCall::SendCorrupt { front, rear })
}

#[tactic(auto, unfolding(crate::specs::LineReading::sent_at))]
fn sent_of(rest: &[u8]) -> Option<ClientCall>
    ensures { result ≡ sent_at rest.now }
{
    let (front, code, argument) = three_of(rest)?;
    Some(ClientCall::Sent {
        front,
        code,
        argument,
    })
}

#[tactic(auto, unfolding(crate::specs::LineReading::poke_at))]
fn poke_of(rest: &[u8]) -> Option<ClientCall>
    ensures { result ≡ poke_at rest.now }
{
    let (command, rest) = next_number(rest, 1)?;
    let (word, value) = two_of(rest)?;
    Some(ClientCall::Poke {
        command: command == 1,
        word,
        value,
    })
}

// A send, by what follows its mark.
#[tactic(auto, unfolding(crate::specs::LineReading::send_at))]
fn send_of(rest: &[u8]) -> Option<ClientCall>
    ensures { result ≡ send_at rest.now }
{
    let (mark, after) = rest.split_first()?;
    match *mark {
        b'u' => {
            let front = one_of(after)?;
            Some(ClientCall::SendFull { front })
        }
        b'd' => {
            let flags = one_of(after)?;
            Some(ClientCall::SendDead { flags })
        }
        b'x' => send_corrupt_of(after),
        _ => sent_of(rest),
    }
}

// A call of a client, by its mark.
#[tactic(auto, unfolding(crate::specs::LineReading::call_at))]
fn call_of(mark: u8, rest: &[u8]) -> Option<ClientCall>
    ensures { result ≡ call_at mark rest.now }
{
    match mark {
        b'p' => put_of(rest),
        b'u' => {
            let front = one_of(rest)?;
            Some(ClientCall::Full { front })
        }
        b'd' => {
            let flags = one_of(rest)?;
            Some(ClientCall::Dead { flags })
        }
        b'x' => corrupt_of(rest),
        b'k' => {
            let flags = one_of(rest)?;
            Some(ClientCall::Cleared { flags })
        }
        b'l' => {
            let count = one_of(rest)?;
            Some(ClientCall::Flush { count })
        }
        b'g' => {
            let word = one_of(rest)?;
            Some(ClientCall::Gain { word })
        }
        b's' => send_of(rest),
        b't' => {
            let word = one_of(rest)?;
            Some(ClientCall::Status { word })
        }
        b'o' => poke_of(rest),
        _ => None,
    }
}

#[tactic(auto, unfolding(crate::specs::LineReading::turn_at))]
fn turn_of(rest: &[u8]) -> Option<Line>
    ensures { result ≡ turn_at rest.now }
{
    let (room, rest) = next_word(rest)?;
    let (ack, rest) = next_number(rest, 1)?;
    let (cycle, rest) = next_number(rest, u64::MAX)?;
    alone(
        rest,
        Line::Turn {
            room,
            ack: ack == 1,
            cycle,
        },
    )
}

#[tactic(auto, unfolding(crate::specs::LineReading::look_at))]
fn look_of(rest: &[u8]) -> Option<Line>
    ensures { result ≡ look_at rest.now }
{
    let (track, rest) = next_word(rest)?;
    let (flush, rest) = next_word(rest)?;
    let (rear, rest) = next_word(rest)?;
    let seen = seen_of(rest)?;
    Some(Line::Look {
        track,
        flush,
        rear,
        seen,
    })
}

#[tactic(auto, unfolding(crate::specs::LineReading::status_at))]
fn status_of(rest: &[u8]) -> Option<Line>
    ensures { result ≡ status_at rest.now }
{
    let (track, word) = two_of(rest)?;
    Some(Line::Status { track, word })
}

#[tactic(auto, unfolding(crate::specs::LineReading::pushed_at))]
fn pushed_of(rest: &[u8]) -> Option<Push>
    ensures { result ≡ pushed_at rest.now }
{
    let (number, rest) = next_number(rest, u64::MAX)?;
    if rest.is_empty() {
        Some(Push::Pushed { number })
    } else {
        None
    }
}

#[tactic(auto, unfolding(crate::specs::LineReading::busy_at))]
fn busy_of(rest: &[u8]) -> Option<Push>
    ensures { result ≡ busy_at rest.now }
{
    let (seen, expected) = two_of(rest)?;
    Some(Push::Busy { seen, expected })
}

// A push that had nothing to push.
fn clean_of(rest: &[u8]) -> Option<Push>
    ensures { result ≡ whole rest.now Push.Clean }
{
    if rest.is_empty() {
        Some(Push::Clean)
    } else {
        None
    }
}

// What a push answered, by the number of its kind.
#[tactic(auto, unfolding(crate::specs::LineReading::push_at))]
fn push_of(rest: &[u8]) -> Option<Push>
    ensures { result ≡ push_at rest.now }
{
    let (kind, rest) = next_number(rest, 2)?;
    match kind {
        0 => clean_of(rest),
        1 => pushed_of(rest),
        _ => busy_of(rest),
    }
}

#[tactic(auto, unfolding(crate::specs::LineReading::take_at))]
fn take_of(rest: &[u8]) -> Option<Line>
    ensures { result ≡ take_at rest.now }
{
    let (track, rest) = next_word(rest)?;
    let (gains, rest) = next_word(rest)?;
    let (flush, rest) = next_word(rest)?;
    let (rear, rest) = next_word(rest)?;
    let seen = seen_of(rest)?;
    Some(Line::Take {
        track,
        gains,
        flush,
        rear,
        seen,
    })
}

#[tactic(auto, unfolding(crate::specs::LineReading::entry_at))]
fn entry_of(rest: &[u8]) -> Option<Line>
    ensures { result ≡ entry_at rest.now }
{
    let (state, rest) = next_number(rest, u64::MAX)?;
    let (kind, rest) = next_number(rest, 3)?;
    let kind = kind as u32;
    alone(rest, Line::Entry { state, kind })
}

// What a slot of a number, a scale and a mark read and saw.
#[tactic(auto, unfolding(crate::specs::LineReading::slot_from))]
fn slot_with(slot: u32, scale: u16, mono: bool, rest: &[u8]) -> Option<Line>
    ensures { result ≡ slot_from slot scale mono rest.now }
{
    let (gains, rest) = next_word(rest)?;
    let (flush, rest) = next_word(rest)?;
    let (rear, rest) = next_word(rest)?;
    let seen = seen_of(rest)?;
    Some(Line::Slot {
        slot,
        scale,
        mono,
        gains,
        flush,
        rear,
        seen,
    })
}

#[tactic(auto, unfolding(crate::specs::LineReading::slot_at))]
fn slot_of(rest: &[u8]) -> Option<Line>
    ensures { result ≡ slot_at rest.now }
{
    let (slot, rest) = next_number(rest, SLOTS as u64 - 1)?;
    let (scale, rest) = next_number(rest, 0xffff)?;
    let (mono, rest) = next_number(rest, 1)?;
    slot_with(slot as u32, scale as u16, mono == 1, rest)
}

// A line of the normal mixer's turn, or a call.
#[tactic(auto, unfolding(crate::specs::LineReading::turn_line_at))]
fn turn_line_of(mark: u8, rest: &[u8]) -> Option<Line>
    ensures { result ≡ turn_line_at mark rest.now }
{
    match mark {
        b'N' => turn_of(rest),
        b'E' => alone(rest, Line::Ended),
        b'q' => look_of(rest),
        b'b' => {
            let track = one_of(rest)?;
            Some(Line::Disabled { track })
        }
        b'a' => status_of(rest),
        b'P' => {
            let push = push_of(rest)?;
            Some(Line::Pushed { push })
        }
        b'm' => take_of(rest),
        _ => {
            let call = call_of(mark, rest)?;
            Some(Line::Call { call })
        }
    }
}

// A line by its mark.
#[tactic(auto, unfolding(crate::specs::LineReading::marked_at))]
pub(crate) fn marked_of(mark: u8, rest: &[u8]) -> Option<Line>
    ensures { result ≡ marked_at mark rest.now }
{
    match mark {
        b'R' => alone(rest, Line::Round),
        b'C' => {
            let track = one_of(rest)?;
            Some(Line::Client { track })
        }
        b'F' => alone(rest, Line::Fast),
        b'y' => entry_of(rest),
        b'z' => slot_of(rest),
        _ => turn_line_of(mark, rest),
    }
}

/// The line that the bytes spell.
pub(crate) fn line_of(bytes: &[u8]) -> Option<Line>
    ensures { result ≡ line_at bytes.now }
{
    let (mark, rest) = bytes.split_first()?;
    marked_of(*mark, rest)
}
