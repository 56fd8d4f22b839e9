//! One line of a journal's text.
ghost use Rattle.std.specs.Prelude.{◌∷◌, [], Some};
ghost use Rattle.af_journal.specs.Lines.{call_line, line_text, push_line, seen_text, spaced};
ghost use Rattle.af_journal.specs.declared.line.Line.TheVariants as mark;

use af_base::{ClientCall, Push, Seen};
use std::fmt;

/// A line of numbers, by its mark: a word and numbers, with one space between them. It prints without its LF.
#[derive(Clone, Copy, Debug, PartialEq, Eq)]
pub enum Line {
    /// A round begins.
    Round,
    /// The calls of a client follow.
    Client {
        track: u32,
    },
    /// A call of that client.
    Call {
        call: ClientCall,
    },
    /// The normal mixer's turn: the frames that the pipe had room for, whether the last push was seen acknowledged, and the report's cycle.
    Turn {
        room: u32,
        ack: bool,
        cycle: u64,
    },
    /// A turn that answered that the mixer has ended.
    Ended,
    /// A look at a track's command block.
    Look {
        track: u32,
        flush: u32,
        rear: u32,
        seen: Seen,
    },
    /// DISABLED was set in a track's stream block.
    Disabled {
        track: u32,
    },
    /// A status was stored in a track's command block.
    Status {
        track: u32,
        word: u32,
    },
    /// What the push answered.
    Pushed {
        push: Push,
    },
    /// A look of the normal mixer at a stream block, for its buffer.
    Take {
        track: u32,
        gains: u32,
        flush: u32,
        rear: u32,
        seen: Seen,
    },
    /// The fast mixer's entries follow.
    Fast,
    /// An entry of the fast mixer: the number of its state, and 0 to 3 for Mixed, Idle, Cold and Exit.
    Entry {
        state: u64,
        kind: u32,
    },
    /// A slot of the mask in a mix.
    Slot {
        slot: u32,
        scale: u16,
        mono: bool,
        gains: u32,
        flush: u32,
        rear: u32,
        seen: Seen,
    },
}

// What a look showed.
#[derive(Clone, Copy)]
struct SeenText(Seen);

impl fmt::Display for SeenText {
    ghost output = { λ text. Some (seen_text text.0) };

    fn fmt<W: fmt::Write>(&self, f: &mut fmt::Formatter<W>) -> fmt::Result {
        match self.0 {
            Seen::Absent => Ok(()),
            Seen::Frames { count } => write!(f, "f {count}"),
            Seen::Empty => f.write_str("e"),
            Seen::Flushed { dropped } => write!(f, "l {dropped}"),
            Seen::Shut { front, rear } => write!(f, "x {front} {rear}"),
        }
    }
}

// Two numbers.
#[derive(Clone, Copy)]
struct Two(u32, u32);

impl fmt::Display for Two {
    ghost output = { λ n. Some (spaced (n.0 ∷ n.1 ∷ [])) };

    fn fmt<W: fmt::Write>(&self, f: &mut fmt::Formatter<W>) -> fmt::Result {
        write!(f, "{} {}", self.0, self.1)
    }
}

// Three numbers.
#[derive(Clone, Copy)]
struct Three(u32, u32, u32);

impl fmt::Display for Three {
    ghost output = { λ n. Some (spaced (n.0 ∷ n.1 ∷ n.2 ∷ [])) };

    fn fmt<W: fmt::Write>(&self, f: &mut fmt::Formatter<W>) -> fmt::Result {
        write!(f, "{} {} {}", self.0, self.1, self.2)
    }
}

// A call of a client, by what it answered.
#[derive(Clone, Copy)]
struct CallText(ClientCall);

impl fmt::Display for CallText {
    ghost output = { λ text. Some (call_line text.0) };

    fn fmt<W: fmt::Write>(&self, f: &mut fmt::Formatter<W>) -> fmt::Result {
        match self.0 {
            ClientCall::Put { front, count } => write!(f, "p {}", Two(front, count)),
            ClientCall::Full { front } => write!(f, "u {front}"),
            ClientCall::Dead { flags } => write!(f, "d {flags}"),
            ClientCall::Corrupt { front, rear } => write!(f, "x {}", Two(front, rear)),
            ClientCall::Cleared { flags } => write!(f, "k {flags}"),
            ClientCall::Flush { count } => write!(f, "l {count}"),
            ClientCall::Gain { word } => write!(f, "g {word}"),
            ClientCall::Sent {
                front,
                code,
                argument,
            } => write!(f, "s {}", Three(front, code, argument)),
            ClientCall::SendFull { front } => write!(f, "su {front}"),
            ClientCall::SendDead { flags } => write!(f, "sd {flags}"),
            ClientCall::SendCorrupt { front, rear } => write!(f, "sx {}", Two(front, rear)),
            ClientCall::Status { word } => write!(f, "t {word}"),
            ClientCall::Poke {
                command,
                word,
                value,
            } => write!(f, "o {}", Three(u32::from(command), word, value)),
        }
    }
}

// What a push answered.
#[derive(Clone, Copy)]
struct PushText(Push);

impl fmt::Display for PushText {
    ghost output = { λ text. Some (push_line text.0) };

    fn fmt<W: fmt::Write>(&self, f: &mut fmt::Formatter<W>) -> fmt::Result {
        match self.0 {
            Push::Clean => f.write_str("P 0"),
            Push::Pushed { number } => write!(f, "P 1 {number}"),
            Push::Busy { seen, expected } => write!(f, "P 2 {seen} {expected}"),
        }
    }
}

// A turn of the normal mixer: the room, whether the push was seen acknowledged, and the report's cycle.
#[derive(Clone, Copy)]
struct TurnText(u32, bool, u64);

impl fmt::Display for TurnText {
    ghost output = { λ n. Some (line_text (mark.Turn n.0 n.1 n.2)) };

    fn fmt<W: fmt::Write>(&self, f: &mut fmt::Formatter<W>) -> fmt::Result {
        write!(f, "N {} {} {}", self.0, u32::from(self.1), self.2)
    }
}

// A look at a command block: the track, the flush, the rear and what it showed.
#[derive(Clone, Copy)]
struct LookText(u32, u32, u32, Seen);

impl fmt::Display for LookText {
    ghost output = { λ n. Some (line_text (mark.Look n.0 n.1 n.2 n.3)) };

    fn fmt<W: fmt::Write>(&self, f: &mut fmt::Formatter<W>) -> fmt::Result {
        write!(
            f,
            "q {} {}",
            Three(self.0, self.1, self.2),
            SeenText(self.3)
        )
    }
}

// A look at a stream block: the track, the gains, the flush, the rear and what it showed.
#[derive(Clone, Copy)]
struct TakeText(u32, u32, u32, u32, Seen);

impl fmt::Display for TakeText {
    ghost output = { λ n. Some (line_text (mark.Take n.0 n.1 n.2 n.3 n.4)) };

    fn fmt<W: fmt::Write>(&self, f: &mut fmt::Formatter<W>) -> fmt::Result {
        write!(
            f,
            "m {} {} {}",
            self.0,
            Three(self.1, self.2, self.3),
            SeenText(self.4)
        )
    }
}

// A slot of the mask: the slot, the scale, whether it is mono, the gains, the flush, the rear and what a look showed.
#[derive(Clone, Copy)]
struct SlotText(u32, u16, bool, u32, u32, u32, Seen);

impl fmt::Display for SlotText {
    ghost output = { λ n. Some (line_text (mark.Slot n.0 n.1 n.2 n.3 n.4 n.5 n.6)) };

    fn fmt<W: fmt::Write>(&self, f: &mut fmt::Formatter<W>) -> fmt::Result {
        write!(
            f,
            "z {} {} {}",
            Three(self.0, u32::from(self.1), u32::from(self.2)),
            Three(self.3, self.4, self.5),
            SeenText(self.6)
        )
    }
}

impl fmt::Display for Line {
    ghost output = { λ line. Some (line_text line) };

    fn fmt<W: fmt::Write>(&self, f: &mut fmt::Formatter<W>) -> fmt::Result {
        match *self {
            Line::Round => f.write_str("R"),
            Line::Client { track } => write!(f, "C {track}"),
            Line::Call { call } => write!(f, "{}", CallText(call)),
            Line::Turn { room, ack, cycle } => write!(f, "{}", TurnText(room, ack, cycle)),
            Line::Ended => f.write_str("E"),
            Line::Look {
                track,
                flush,
                rear,
                seen,
            } => write!(f, "{}", LookText(track, flush, rear, seen)),
            Line::Disabled { track } => write!(f, "b {track}"),
            Line::Status { track, word } => write!(f, "a {track} {word}"),
            Line::Pushed { push } => write!(f, "{}", PushText(push)),
            Line::Take {
                track,
                gains,
                flush,
                rear,
                seen,
            } => write!(f, "{}", TakeText(track, gains, flush, rear, seen)),
            Line::Fast => f.write_str("F"),
            Line::Entry { state, kind } => write!(f, "y {state} {kind}"),
            Line::Slot {
                slot,
                scale,
                mono,
                gains,
                flush,
                rear,
                seen,
            } => write!(
                f,
                "{}",
                SlotText(slot, scale, mono, gains, flush, rear, seen)
            ),
        }
    }
}
