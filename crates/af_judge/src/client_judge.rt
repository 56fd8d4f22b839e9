//! Whether a call of a client is the one that it wants, and answers right.
ghost use Rattle.std.specs.Prelude.{◌≡◌, ◌≢◌, ◌↔◌, ℕ, ◌+◌, ◌/◌, IsTrue, is_some};
ghost use Rattle.af_runs.specs.ClientTurns.{new_side, asked_by, is_clear, is_flush, is_of_commands, is_send, is_status, is_write};
ghost use Rattle.af_judge.specs.Judging.{AnswersBy, AreCounted, AreFew, MadeBy, WantedBy, argument_by, kept_for, side_kept, sides_called, words_of};

use crate::side_judge::SideJudge;
use af_base::ClientCall;
use af_model::Shape;
use af_runs::{ClientCommand, Want};
use std::marker::Model;

/// The two sides of a client.
#[derive(Drop)]
pub struct SidesJudge {
    stream: SideJudge,
    commands: SideJudge,
}

impl Model for SidesJudge {
    ghost use Rattle.af_judge.specs.Judging.{SidesKept};

    ghost Value = { SidesKept };

    ghost view = { λ s. record { stream = s.stream; commands = s.commands } };
}

// The call is a send of this code and argument, however it is answered.
fn is_send(code: u32, argument: u32, call: ClientCall) -> bool
    ensures { result ≡ is_send code argument call }
{
    match call {
        ClientCall::Sent {
            code: sent,
            argument: with,
            ..
        } => sent == code && with == argument,
        ClientCall::SendFull { .. }
        | ClientCall::SendDead { .. }
        | ClientCall::SendCorrupt { .. } => true,
        _ => false,
    }
}

// The call is a write.
fn is_write(call: ClientCall) -> bool
    ensures { result ≡ is_write call }
{
    match call {
        ClientCall::Put { .. }
        | ClientCall::Full { .. }
        | ClientCall::Dead { .. }
        | ClientCall::Corrupt { .. } => true,
        _ => false,
    }
}

// The call reads the status.
fn is_status(call: ClientCall) -> bool
    ensures { result ≡ is_status call }
{
    match call {
        ClientCall::Status { .. } => true,
        _ => false,
    }
}

// The call flushes.
fn is_flush(call: ClientCall) -> bool
    ensures { result ≡ is_flush call }
{
    match call {
        ClientCall::Flush { .. } => true,
        _ => false,
    }
}

// The call clears DISABLED.
fn is_clear(call: ClientCall) -> bool
    ensures { result ≡ is_clear call }
{
    match call {
        ClientCall::Cleared { .. } => true,
        _ => false,
    }
}

/// The call is made on the command block.
pub fn is_of_commands(call: ClientCall) -> bool
    ensures { result ≡ is_of_commands call }
{
    match call {
        ClientCall::Sent { .. }
        | ClientCall::SendFull { .. }
        | ClientCall::SendDead { .. }
        | ClientCall::SendCorrupt { .. }
        | ClientCall::Status { .. } => true,
        ClientCall::Poke { command, .. } => command,
        _ => false,
    }
}

// How many frames a write is given.
fn asked_by(wanted: Want) -> u32
    ensures { result ≡ asked_by wanted }
{
    match wanted {
        Want::Write { count } => count,
        _ => 0,
    }
}

// A command's argument.
fn argument(stream: &SideJudge, sending: ClientCommand) -> u32
    ensures { result ≡ argument_by stream.now sending }
{
    match sending {
        ClientCommand::Start => stream.flushes(),
        ClientCommand::Stop => (stream.words() % 0x1_0000_0000) as u32,
        _ => 0,
    }
}

// The call is the one that is wanted.
fn is_wanted(stream: &SideJudge, wanted: Want, call: ClientCall) -> bool
    ensures { IsTrue result ↔ WantedBy stream.now wanted call }
{
    match wanted {
        Want::Send { command } => is_send(command.code(), argument(stream, command), call),
        Want::Settled | Want::Drained => is_status(call),
        Want::Flush => is_flush(call),
        Want::Gain { left, right } => match call {
            ClientCall::Gain { word } => {
                u64::from(word) == u64::from(left) + 65536 * u64::from(right)
            }
            _ => false,
        },
        Want::Write { .. } => is_write(call),
        Want::Clear => is_clear(call),
        Want::Poke {
            command,
            word,
            value,
        } => match call {
            ClientCall::Poke {
                command: on,
                word: at,
                value: with,
            } => on == command && at == word && with == value,
            _ => false,
        },
        Want::Rest => false,
        Want::Leave => is_send(ClientCommand::Remove.code(), 0, call),
    }
}

impl SidesJudge {
    /// The two sides of blocks of these sizes, on which nothing was done.
    pub fn new(stream: Shape, commands: Shape) -> SidesJudge
        requires stream { stream.cells ≢ 0 }
        requires commands { commands.cells ≢ 0 }
        ensures kept { result ≡ record { stream = side_kept (new_side stream); commands = side_kept (new_side commands) } }
        ensures counted { AreCounted 0 result }
    {
        SidesJudge {
            stream: SideJudge::new(stream),
            commands: SideJudge::new(commands),
        }
    }

    /// The side that the call is made on is shut.
    pub fn is_shut_for(&self, call: ClientCall) -> bool
        ensures { result ≡ is_some (kept_for self.now call).kept.shut }
    {
        if is_of_commands(call) {
            self.commands.is_shut()
        } else {
            self.stream.is_shut()
        }
    }

    /// How many words the client released on the stream block.
    pub fn released(&self) -> u64
        ensures { result ≡ self.now.stream.words }
    {
        self.stream.words()
    }

    // The call answers right on its side.
    fn answers(&self, asked: u32, call: ClientCall) -> bool
        requires stream { self.now.stream.shape.cells ≢ 0 }
        requires commands { self.now.commands.shape.cells ≢ 0 }
        ensures { IsTrue result ↔ AnswersBy (kept_for self.now call) asked call }
    {
        if is_of_commands(call) {
            self.commands.answers(asked, call)
        } else {
            self.stream.answers(asked, call)
        }
    }

    /// Whether the call is the one that is wanted, and answers right.
    pub fn is_made(&self, wanted: Want, call: ClientCall) -> bool
        requires stream { self.now.stream.shape.cells ≢ 0 }
        requires commands { self.now.commands.shape.cells ≢ 0 }
        ensures { IsTrue result ↔ MadeBy self.now wanted call }
    {
        is_wanted(&self.stream, wanted, call) && self.answers(asked_by(wanted), call)
    }

    // How many words the call releases, if the file has so many frames.
    fn words_of(&self, file: u64, call: ClientCall) -> u32
        ensures { result ≡ words_of file self.now call }
    {
        match call {
            ClientCall::Put { count, .. } => {
                let left = file.saturating_sub(self.stream.words());
                u64::from(count).min(left) as u32
            }
            ClientCall::Sent { .. } => 2,
            _ => 0,
        }
    }

    /// How many commands were sent.
    pub fn commands_sent(&self) -> u64
        ensures { result ≡ self.now.commands.words / 2 }
    {
        self.commands.words() / 2
    }

    /// Notes a call, if the file has so many frames.
    pub fn note(&mut self, file: u64, call: ClientCall)
        requires few { AreFew self.old.stream × AreFew self.old.commands }
        ensures called { self.new ≡ sides_called file call self.old }
        ensures counted { (n : ℕ) → AreCounted n self.old → AreCounted (n + 1) self.new }
    {
        let words = self.words_of(file, call);
        if is_of_commands(call) {
            self.commands.note(call, words);
        } else {
            self.stream.note(call, words);
        }
    }
}
