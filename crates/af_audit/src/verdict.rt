//! What is found of a journal and its PCM.

/// Why a journal and its PCM are refused.
#[derive(Clone, Copy, Debug, PartialEq, Eq)]
pub enum Refusal {
    /// The number of the first line, from 1, such that no text with a reading begins with the lines up to it.
    Text { line: u64 },
    /// The first round, from 0, and in it the least party, whose turn or history isn't legal.
    Round { round: u64, party: u32 },
    /// The first byte, from 0, that isn't that of the mix, or where the shorter list ends.
    Pcm { at: u64 },
}

/// The verdict on a journal and its PCM.
#[derive(Clone, Copy, Debug, PartialEq, Eq)]
pub enum Verdict {
    /// The journal is a legal run of the script and the files, and the bytes are its PCM.
    Legal,
    /// The journal and the bytes are refused, for this reason.
    Refused(Refusal),
}
