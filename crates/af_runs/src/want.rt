//! What a client of a session may want.
ghost use Rattle.std.specs.Prelude.{◌≡◌};
ghost use Rattle.af_runs.specs.Clients.{command_code};

use af_life::{FLUSH, OPEN, PAUSE, REMOVE, START, STOP};

/// What a client did last by its ops.
#[derive(Clone, Copy, Debug, PartialEq, Eq)]
pub enum Mode {
    Idle,
    Active,
    Paused,
    Stopped,
}

/// A command that a client sends to the normal mixer.
#[derive(Clone, Copy, Debug, PartialEq, Eq)]
pub enum ClientCommand {
    Open,
    Start,
    Pause,
    Stop,
    Flush,
    Remove,
}

/// What a client may want.
#[derive(Clone, Copy, Debug, PartialEq, Eq)]
pub enum Want {
    /// To send a command.
    Send {
        command: ClientCommand,
    },
    /// A status by which all commands sent are settled.
    Settled,
    /// A status by which the track is stopped, too.
    Drained,
    /// To flush.
    Flush,
    /// To set its gains, each in 4.12.
    Gain {
        left: u32,
        right: u32,
    },
    /// To write so many frames.
    Write {
        count: u32,
    },
    /// To clear DISABLED.
    Clear,
    /// To overwrite a word of the command block, or else of the stream block.
    Poke {
        command: bool,
        word: u32,
        value: u32,
    },
    /// To let its turn end.
    Rest,
    /// To send a last REMOVE, whatever is answered.
    Leave,
}

/// What is left of an op in work, in this order.
#[derive(Clone, Copy, Debug, PartialEq, Eq)]
pub enum Due {
    Nothing,
    One(Want),
    Two(Want, Want),
}

impl ClientCommand {
    /// The code that is sent.
    pub fn code(self) -> u32
        ensures { result ≡ command_code self }
    {
        match self {
            ClientCommand::Open => OPEN,
            ClientCommand::Start => START,
            ClientCommand::Pause => PAUSE,
            ClientCommand::Stop => STOP,
            ClientCommand::Flush => FLUSH,
            ClientCommand::Remove => REMOVE,
        }
    }
}
