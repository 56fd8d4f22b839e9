//! A client of a session: what it wants next, by its ops, and what each answer of its proxies makes of it.
ghost use Rattle.std.specs.Prelude.{◌≡◌, ◌<◌, ◌≤◌, ◌||◌, ◌∷◌, [], true, None, Some, Option, List, length, drop};
ghost use Rattle.af_runs.specs.Clients.{after_answer, after_clear, after_put, after_send, after_sent, after_status, after_write, asked_first, at_next_turn, begun, due_of, with_wants, mode_after, new_client, next_want, rest_of, rested, wants_of};
ghost use Rattle.af_runs.specs.declared.want.Want.TheVariants.{Send};
ghost use Rattle.af_runs.specs.declared.want.ClientCommand.TheVariants.{Start};
ghost use Rattle.af_runs.specs.declared.want.Want.{Want as WantSeen};
ghost use Rattle.af_script.specs.declared.op.Op.{Op as OpSeen};
ghost use Rattle.af_runs.specs.Kept.{WritesLast, client_of};

use crate::want::{ClientCommand, Due, Mode, Want};
use af_base::{ClientCall, DISABLED};
use af_script::Op;
use std::marker::Model;

/// A client: what is left of its op in work, which op comes next, what it did last, and whether it waits for the other parties or has ended.
///
/// Its calls take the ops that it was made for.
#[derive(Drop)]
pub struct Client {
    due: Due,
    at: usize,
    mode: Mode,
    waiting: bool,
    ended: bool,
}

impl Model for Client {
    ghost use Rattle.af_runs.specs.Clients.{due_of};
    ghost use Rattle.af_runs.specs.Kept.{ClientKept, WritesLast};

    ghost Value = { ClientKept };

    ghost view = { λ c. record { due = due_of c.due; at = c.at; mode = c.mode; waiting = c.waiting; ended = c.ended } };

    ghost invariant = { λ c. WritesLast (due_of c.due) };
}

// A command to send, and nothing else.
fn send(command: ClientCommand) -> Due
    ensures { due_of result ≡ Send command ∷ [] }
{
    Due::One(Want::Send { command })
}

// What an op wants in a mode.
fn wants_of(mode: Mode, op: Op) -> Due
    ensures { due_of result ≡ wants_of mode op }
{
    match op {
        Op::OpenTrack => send(ClientCommand::Open),
        Op::Start if mode != Mode::Active => Due::Two(
            Want::Send {
                command: ClientCommand::Start,
            },
            Want::Settled,
        ),
        Op::Pause if mode == Mode::Active => send(ClientCommand::Pause),
        Op::Stop if mode == Mode::Active || mode == Mode::Paused => send(ClientCommand::Stop),
        Op::Flush if mode != Mode::Active => Due::Two(
            Want::Flush,
            Want::Send {
                command: ClientCommand::Flush,
            },
        ),
        Op::Drain if mode == Mode::Stopped => Due::One(Want::Drained),
        Op::Remove => send(ClientCommand::Remove),
        Op::Yield => Due::One(Want::Rest),
        Op::Gain { left, right } => Due::One(Want::Gain { left, right }),
        Op::Write { count } => Due::One(Want::Write { count }),
        Op::Poke {
            command,
            word,
            value,
        } => Due::One(Want::Poke {
            command,
            word,
            value,
        }),
        _ => Due::Nothing,
    }
}

// The mode after a command was sent.
fn mode_after(command: ClientCommand, mode: Mode) -> Mode
    ensures { result ≡ mode_after command mode }
{
    match command {
        ClientCommand::Open | ClientCommand::Remove => mode,
        ClientCommand::Start => Mode::Active,
        ClientCommand::Pause => Mode::Paused,
        ClientCommand::Stop => Mode::Stopped,
        ClientCommand::Flush => Mode::Idle,
    }
}

// What is due after the first want.
fn rest_of(due: Due) -> Due
    ensures { due_of result ≡ rest_of (due_of due) }
{
    match due {
        Due::Nothing | Due::One(_) => Due::Nothing,
        Due::Two(_, second) => Due::One(second),
    }
}

// What is due once an op that lets the turn end is done with.
fn rested(due: Due) -> Due
    ensures { due_of result ≡ rested (due_of due) }
{
    match due {
        Due::One(Want::Rest) | Due::Two(Want::Rest, _) => rest_of(due),
        _ => due,
    }
}

// A START goes before what is due, which is one at most.
fn owing_start(due: Due) -> Due
    requires { length (due_of due) ≤ 1 }
    ensures { due_of result ≡ Send Start ∷ due_of due }
{
    let start = Want::Send {
        command: ClientCommand::Start,
    };
    match due {
        Due::Nothing => Due::One(start),
        Due::One(first) | Due::Two(first, _) => Due::Two(start, first),
    }
}

impl Client {
    /// A client that has done nothing.
    pub fn new() -> Client
        ensures { (ops : List OpSeen) → client_of ops result ≡ new_client ops }
    {
        Client {
            due: Due::Nothing,
            at: 0,
            mode: Mode::Idle,
            waiting: false,
            ended: false,
        }
    }

    /// Whether the client has ended.
    pub fn has_ended(&self) -> bool
        ensures { result ≡ self.now.ended }
    {
        self.ended
    }

    /// Whether the client makes no more calls in this turn: it waits for the other parties, or has ended.
    pub fn is_halted(&self) -> bool
        ensures { result ≡ (self.now.waiting || self.now.ended) }
    {
        self.waiting || self.ended
    }

    /// Ends the client: its track is no more.
    pub fn end(&mut self)
        ensures { self.new ≡ record self.old { ended = true } }
    {
        self.ended = true;
    }

    /// Begins the client's next op, if nothing is left of the one in work. Ops that want nothing are done at once.
    pub fn begin(&mut self, ops: &[Op])
        ensures { client_of ops.now self.new ≡ begun (client_of ops.now self.old) }
    {
        while matches!(self.due, Due::Nothing) && self.at < ops.len() {
            self.due = wants_of(self.mode, ops[self.at]);
            self.at += 1;
        }
    }

    /// What the client wants next, once its op is begun; None if its turn ends.
    pub fn next(&self) -> Option<Want>
        ensures { (ops : List OpSeen) → result ≡ next_want (client_of ops self.now) }
    {
        if self.waiting || self.ended {
            return None;
        }
        match self.due {
            Due::Nothing | Due::One(Want::Rest) | Due::Two(Want::Rest, _) => None,
            Due::One(first) | Due::Two(first, _) => Some(first),
        }
    }

    // The first want that is due is done: these are due.
    fn go_on(&mut self, due: Due)
        requires { WritesLast (due_of due) }
        ensures { (ops : List OpSeen) → client_of ops self.new ≡ with_wants (due_of due) (client_of ops self.old) }
    {
        self.due = due;
    }

    // A command was sent.
    fn note_sent(&mut self, command: ClientCommand)
        ensures { (ops : List OpSeen) → client_of ops self.new ≡ after_sent command (rest_of self.old.due) (client_of ops self.old) }
    {
        self.due = rest_of(self.due);
        self.mode = mode_after(command, self.mode);
        self.ended = self.ended || command == ClientCommand::Remove;
    }

    // What a send answered.
    fn note_send(&mut self, command: ClientCommand, call: ClientCall)
        ensures { (ops : List OpSeen) → client_of ops self.new ≡ after_send command (rest_of self.old.due) (client_of ops self.old) call }
    {
        match call {
            ClientCall::Sent { .. } => self.note_sent(command),
            ClientCall::SendFull { .. } => self.waiting = true,
            _ => self.ended = true,
        }
    }

    // So many frames are still to be written after a Put.
    fn note_put(&mut self, left: u32)
        requires { rest_of self.old.due ≡ [] }
        ensures { (ops : List OpSeen) → client_of ops self.new ≡ after_put left [] (client_of ops self.old) }
    {
        self.due = match (self.mode == Mode::Active, left) {
            (true, 0) => Due::One(Want::Clear),
            (true, count) => Due::Two(Want::Clear, Want::Write { count }),
            (false, 0) => Due::Nothing,
            (false, count) => Due::One(Want::Write { count }),
        };
    }

    // What a write of so many frames answered.
    fn note_write(&mut self, ops: &[Op], asked: u32, call: ClientCall)
        requires { rest_of self.old.due ≡ [] }
        ensures { client_of ops.now self.new ≡ after_write asked [] (client_of ops.now self.old) call }
    {
        match call {
            ClientCall::Put { count, .. } => self.note_put(asked.saturating_sub(count)),
            ClientCall::Full { .. } => self.waiting = true,
            _ => {
                self.due = Due::One(Want::Leave);
                self.at = ops.len();
            }
        }
    }

    // The status that was seen, when so many commands were sent.
    fn note_status(&mut self, to_stop: bool, commands: u64, call: ClientCall)
        ensures { (ops : List OpSeen) → client_of ops self.new ≡ after_status to_stop commands (rest_of self.old.due) (client_of ops self.old) call }
    {
        let ClientCall::Status { word } = call else {
            return;
        };
        if word % 16 == 15 {
            self.ended = true;
        } else if commands <= u64::from(word / 256) && (!to_stop || word % 16 == 8) {
            self.due = rest_of(self.due);
        } else {
            self.waiting = true;
        }
    }

    // The flags before DISABLED was cleared.
    fn note_cleared(&mut self, call: ClientCall)
        ensures { (ops : List OpSeen) → client_of ops self.new ≡ after_clear (rest_of self.old.due) (client_of ops self.old) call }
    {
        let ClientCall::Cleared { flags } = call else {
            return;
        };
        self.due = rest_of(self.due);
        if flags & DISABLED != 0 {
            self.due = owing_start(self.due);
        }
    }

    /// Notes the answer to what was wanted, when so many commands were sent in all.
    pub fn note(&mut self, ops: &[Op], commands: u64, call: ClientCall)
        ensures { (first : WantSeen) (wants : List WantSeen) → self.old.due ≡ first ∷ wants → client_of ops.now self.new ≡ after_answer commands first wants (client_of ops.now self.old) call }
    {
        let (Due::One(first) | Due::Two(first, _)) = self.due else {
            return;
        };
        match first {
            Want::Send { command } => self.note_send(command, call),
            Want::Settled => self.note_status(false, commands, call),
            Want::Drained => self.note_status(true, commands, call),
            Want::Write { count } => self.note_write(ops, count, call),
            Want::Clear => self.note_cleared(call),
            Want::Leave => self.ended = true,
            _ => self.due = rest_of(self.due),
        }
    }

    /// Ends a turn. It was cut after its 64th call, or it ended with the client.
    pub fn end_turn(&mut self, ops: &[Op], cut: bool)
        ensures { client_of ops.now self.new ≡ at_next_turn cut (client_of ops.now self.old) }
    {
        if self.waiting || self.ended || cut {
            self.waiting = false;
            return;
        }
        self.begin(ops);
        self.due = rested(self.due);
    }
}
