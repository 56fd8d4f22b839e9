//! The answers that C gets.

use af_ends::EndError;
use af_mixer_ends::CommandError;

/// The answer if the handle is closed, or leads to an end of another kind.
pub const NO_HANDLE: i64 = -3;

/// The number of a refusal, as the header has it: -1, -2, -4, -5 or -6.
pub fn refused(error: EndError) -> i64 {
    match error {
        EndError::Argument => -1,
        EndError::Memory => -2,
        EndError::Dead => -4,
        EndError::Corrupt => -5,
        EndError::Limit => -6,
    }
}

/// The answer of a call that counts: the count, or the number of a refusal.
pub fn told(answer: Result<u32, EndError>) -> i64 {
    match answer {
        Ok(count) => i64::from(count),
        Err(error) => refused(error),
    }
}

/// The answer of a call that counts nothing: 0, or the number of a refusal.
pub fn done(answer: Result<(), EndError>) -> i64 {
    match answer {
        Ok(()) => 0,
        Err(error) => refused(error),
    }
}

/// The answer of a call whose count has 64 bits: the count, or 2^63 - 1 if it is above that.
pub fn counted(count: u64) -> i64 {
    count.min(0x7fff_ffff_ffff_ffff) as i64
}

/// 0, or the number of a refusal of a command.
pub fn asked(answer: Result<(), CommandError>) -> i64 {
    match answer {
        Ok(()) => 0,
        Err(CommandError::Dead) => -4,
        Err(CommandError::Limit) => -6,
        Err(CommandError::Full) => -7,
    }
}
