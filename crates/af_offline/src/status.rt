//! How steps and commands end.
use af_audit::Refusal as JournalRefusal;
use af_io::StoreError;
use af_script::ScriptFault;
use std::alloc::{AllocError, AllocFailed};

/// Which file a fault speaks of.
#[derive(Clone, Copy, Debug, PartialEq, Eq)]
pub enum Role {
    Script,
    /// The file of a track, by the track's number.
    Track(u32),
    /// The sound that is verified.
    Pcm,
    /// The journal that is verified.
    Journal,
}

/// What is wrong with a file. Lengths are in bytes.
#[derive(Clone, Copy, Debug, PartialEq, Eq)]
pub enum Why {
    /// The file isn't there.
    Missing,
    /// The file is longer than its limit.
    Long,
    /// The file's length is no multiple of a frame's.
    Ragged { length: u64 },
    /// The file has fewer frames than its track's client writes.
    Short { frames: u64, asked: u64 },
    /// With this file the tracks' files together pass their limit.
    Total { bytes: u64 },
}

/// A file, and what is wrong with it.
#[derive(Clone, Copy, Debug, PartialEq, Eq)]
pub struct FileFault {
    pub role: Role,
    pub why: Why,
}

/// Why nothing was played.
#[derive(Clone, Copy, Debug, PartialEq, Eq)]
pub enum Refusal {
    Usage,
    Script(ScriptFault),
    File(FileFault),
}

/// How a work came to its end if it isn't done.
#[derive(Clone, Copy, Debug, PartialEq, Eq)]
pub enum Ending {
    /// A play whose log is full was cut off, at so many cycles. Its files are whole.
    Limit { cycles: u32 },
    /// A journal or its sound was judged, and refused.
    Judged(JournalRefusal),
}

/// Why a step has no answer.
#[derive(Clone, Copy, Debug, PartialEq, Eq)]
pub enum Stop {
    Refused(Refusal),
    /// The work is over, and isn't done.
    Over(Ending),
    /// The store or the sink failed.
    Store,
    /// Memory ran out.
    Memory,
}

impl From<StoreError> for Stop {
    ghost use Rattle.af_offline.specs.Status.{stop_of};
    ghost use Rattle.std.specs.Prelude.{◌≡◌};

    ghost from_gives = { λ error stop. stop ≡ stop_of error };

    fn from(error: StoreError) -> Self {
        match error {
            StoreError::Failed => Stop::Store,
            StoreError::Memory => Stop::Memory,
        }
    }
}

impl From<af_base::Memory> for Stop {
    ghost use Rattle.std.specs.Prelude.{◌≡◌};
    ghost use Rattle.af_offline.specs.declared.status.Stop.TheVariants.{Memory};

    ghost from_gives = { λ _ stop. stop ≡ Memory };

    fn from(_: af_base::Memory) -> Self {
        Stop::Memory
    }
}

impl From<AllocError> for Stop {
    ghost use Rattle.std.specs.Prelude.{◌≡◌};
    ghost use Rattle.af_offline.specs.declared.status.Stop.TheVariants.{Memory};

    ghost from_gives = { λ _ stop. stop ≡ Memory };

    fn from(_: AllocError) -> Self {
        Stop::Memory
    }
}

impl<T: Drop> From<AllocFailed<T>> for Stop {
    ghost use Rattle.std.specs.Prelude.{◌≡◌};
    ghost use Rattle.af_offline.specs.declared.status.Stop.TheVariants.{Memory};

    ghost from_gives = { λ _ stop. stop ≡ Memory };

    fn from(_: AllocFailed<T>) -> Self {
        Stop::Memory
    }
}

/// How a command ended.
#[derive(Clone, Copy, Debug, PartialEq, Eq)]
pub enum Status {
    /// The output is whole and its line printed.
    Done,
    /// The words don't fit.
    Usage,
    /// The script is refused.
    ScriptFault(ScriptFault),
    /// A file is refused.
    TrackFault(FileFault),
    /// The store or the sink failed.
    StoreFault,
    /// A play was cut off at its limit of cycles. Both of its files are whole and its line printed.
    CycleLimit { cycles: u32 },
    /// A journal or its sound is refused.
    Refused(JournalRefusal),
    /// Memory ran out.
    Memory,
}

impl From<Refusal> for Status {
    ghost use Rattle.af_offline.specs.Status.{status_of};
    ghost use Rattle.std.specs.Prelude.{◌≡◌};

    ghost from_gives = { λ refusal status. status ≡ status_of refusal };

    fn from(refusal: Refusal) -> Self {
        match refusal {
            Refusal::Usage => Status::Usage,
            Refusal::Script(fault) => Status::ScriptFault(fault),
            Refusal::File(fault) => Status::TrackFault(fault),
        }
    }
}

impl From<Ending> for Status {
    ghost use Rattle.af_offline.specs.Status.{ended_status};
    ghost use Rattle.std.specs.Prelude.{◌≡◌};

    ghost from_gives = { λ ending status. status ≡ ended_status ending };

    fn from(ending: Ending) -> Self {
        match ending {
            Ending::Limit { cycles } => Status::CycleLimit { cycles },
            Ending::Judged(refusal) => Status::Refused(refusal),
        }
    }
}

impl Status {
    ghost use Rattle.std.specs.Prelude.{◌≡◌};
    ghost use Rattle.af_offline.specs.Status.{code_of};

    /// The exit status: 0 if the command is done.
    pub fn code(&self) -> u8
        ensures { result ≡ code_of self.now }
    {
        match self {
            Status::Done => 0,
            Status::Usage => 2,
            Status::ScriptFault(_) => 3,
            Status::TrackFault(_) => 4,
            Status::StoreFault => 5,
            Status::CycleLimit { .. } => 6,
            Status::Refused(_) => 7,
            Status::Memory => 8,
        }
    }
}
