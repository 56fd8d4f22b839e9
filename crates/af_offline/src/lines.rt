//! The printed lines of refusals.
ghost use Rattle.std.specs.Prelude.{Some};
ghost use Rattle.af_offline.specs.Line.{ending_text, refusal_text, role_text, why_text};

use crate::status::{Ending, Refusal, Role, Why};
use af_audit::Refusal as JournalRefusal;
use std::fmt;

impl fmt::Display for Role {
    ghost output = { λ role. Some (role_text role) };

    fn fmt<W: fmt::Write>(&self, f: &mut fmt::Formatter<W>) -> fmt::Result {
        match self {
            Role::Script => f.write_str("script"),
            Role::Track(number) => write!(f, "track {number}"),
            Role::Pcm => f.write_str("pcm"),
            Role::Journal => f.write_str("journal"),
        }
    }
}

impl fmt::Display for Why {
    ghost output = { λ why. Some (why_text why) };

    fn fmt<W: fmt::Write>(&self, f: &mut fmt::Formatter<W>) -> fmt::Result {
        match self {
            Why::Missing => f.write_str("missing"),
            Why::Long => f.write_str("long"),
            Why::Ragged { length } => write!(f, "ragged {length}"),
            Why::Short { frames, asked } => write!(f, "short {frames} {asked}"),
            Why::Total { bytes } => write!(f, "total {bytes}"),
        }
    }
}

impl fmt::Display for Refusal {
    ghost output = { λ refusal. Some (refusal_text refusal) };

    fn fmt<W: fmt::Write>(&self, f: &mut fmt::Formatter<W>) -> fmt::Result {
        match self {
            Refusal::Usage => f.write_str(
                "usage: render SCRIPT OUT or play SCRIPT OUT JOURNAL or verify SCRIPT OUT JOURNAL or generate NUMBER SCRIPT OUT or record IN OUT N F K or loop IN OUT F K START END COUNT or trace SCRIPT OUT JOURNAL LOG ROOM\n",
            ),
            Refusal::Script(fault) => write!(f, "script: {fault}\n"),
            Refusal::File(fault) => write!(f, "file: {} {}\n", fault.role, fault.why),
        }
    }
}

impl fmt::Display for Ending {
    ghost output = { λ ending. Some (ending_text ending) };

    fn fmt<W: fmt::Write>(&self, f: &mut fmt::Formatter<W>) -> fmt::Result {
        match self {
            Ending::Limit { cycles } => write!(f, "limit: cycles {cycles}\n"),
            Ending::Judged(JournalRefusal::Text { line }) => write!(f, "refused: line {line}\n"),
            Ending::Judged(JournalRefusal::Round { round, party }) => {
                write!(f, "refused: round {round} party {party}\n")
            }
            Ending::Judged(JournalRefusal::Pcm { at }) => write!(f, "refused: pcm {at}\n"),
        }
    }
}
