//! The rows of the tests' tables: a step with what it is to answer.
use af_base::{Command, Push, Seen, SlotReport};

/// A step, and what it is to answer. Frames are the first multiples of (1, 1).
#[derive(Clone, Copy)]
pub(crate) enum Row {
    /// A command with an argument is sent for a track.
    Sends(usize, u32, u32),
    /// So many frames are written for a track.
    Writes(usize, usize),
    /// The stream block of a track is flushed.
    Flushes(usize),
    /// The command block of a track is flushed.
    FlushesCommands(usize),
    /// A rear is stored out of turn in the command block of a track or in its stream's.
    Pokes(usize, bool, u32),
    /// DISABLED is cleared of the first track, which had these flags.
    Clears(u32),
    /// The status word of the first track.
    Status(u32),
    /// The fast mixer polls this state.
    Polls(u64),
    /// The fast mixer plays slot 1 for so many frames, sees this, and takes the frames of these samples on either side.
    Plays(usize, Seen, [i16; 4]),
    /// The fast mixer reports of slot 1: the generation, the frames consumed, the flushes seen, and the counts of full and of empty looks.
    Reports(u64, u64, u32, [u32; 2]),
    /// The fast mixer reports this of a slot, and of the others what it did before.
    ReportsAll(usize, SlotReport),
    /// The fast mixer takes four frames, of which these are the samples of either side.
    Hears([i16; 4]),
    /// The fast mixer has this of a slot: whether it is carried, its track and its generation.
    HasSlot(usize, bool, u32, u64),
    /// The fast mixer is to do this, and was to rest so often.
    IsTold(Command, u64),
    /// The clients of the first track meet its proxies, whether the stream proxy is home or not.
    Meets(bool),
    /// DISABLED is set by the hand of a track, which meets the client, if there is a hand.
    Disables(usize, bool),
    /// The ends of the two mixers meet.
    EndsMeet,
    /// A turn that puts no buffer, its push, and what it stores of a track.
    Turns(usize, Push, Option<u32>),
    /// The same of a turn that puts a buffer.
    Mixes(usize, Push, Option<u32>),
    /// A turn that puts no buffer, its push, and that it disables the first track.
    TurnsOff(Push),
    /// The mixer has ended.
    Ends,
    /// The mixer ends by the next turn, and says so in that and in the one after it.
    StaysEnded,
    /// The last turn saw this: whether the last push was acknowledged, and the room of the pipe.
    Saw(bool, u32),
}

/// The push of the state of this number.
pub(crate) const PUSH_1: Push = Push::Pushed { number: 1 };

pub(crate) const PUSH_2: Push = Push::Pushed { number: 2 };

pub(crate) const PUSH_3: Push = Push::Pushed { number: 3 };

pub(crate) const PUSH_4: Push = Push::Pushed { number: 4 };

/// The push after the state of this number isn't acknowledged, which is seen as the last one.
pub(crate) const BUSY_0: Push = Push::Busy {
    seen: 0,
    expected: 1,
};

pub(crate) const BUSY_1: Push = Push::Busy {
    seen: 1,
    expected: 2,
};

pub(crate) const BUSY_2: Push = Push::Busy {
    seen: 2,
    expected: 3,
};

/// A turn that puts a buffer, pushes nothing and stores nothing of the first track.
pub(crate) const MIXES: Row = Row::Mixes(0, Push::Clean, None);

/// The same of a turn that puts none.
pub(crate) const TURNS: Row = Row::Turns(0, Push::Clean, None);
