//! A client's turn: the calls that it wants, one after the other.
ghost use Rattle.std.specs.Prelude.{◌≡◌, ◌+◌, ◌/◌, ◌^◌, ◌<◌, ◌≤◌, true, List, [], ◌∷◌, ◌++◌, length};
ghost use Rattle.af_base.specs.declared.frame.Frame.{Frame as FrameSeen};
ghost use Rattle.af_client.specs.Order.{IsClientOf, IsInOrder};
ghost use Rattle.af_runs.specs.Clients.{Client as ClientSeen, after_answer, at_next_turn};
ghost use Rattle.af_runs.specs.ClientTurns.{LegalClientTurn, after_calls, argument_of};
ghost use Rattle.af_runs.specs.Kept.{client_of};
ghost use Rattle.af_runs.specs.declared.want.Want.{Want as WantSeen};
ghost use Rattle.af_runs.specs.declared.want.Want.TheVariants as want_seen;
ghost use Rattle.af_normal.specs.Meeting.{AreClientsOf};
ghost use Rattle.af_party.specs.Asking.{CanMake, CanSend, HasBlocks, Makes, track_with};
ghost use Rattle.af_party.specs.Parties.{track_of};
ghost use Rattle.af_party.specs.Turning.{IsMadeBy, IsTurned, Stepped, WantsNext};
ghost use Rattle.af_party.specs.Works.{CanWork};

use crate::asking::{ask_clear, ask_flush, ask_gains, ask_poke, ask_send, ask_status, ask_write};
use crate::party::Party;
use af_base::{ClientCall, Frame, Steps};
use af_cblk::Block;
use af_link::Links;
use af_runs::{ClientCommand, Want};
use af_script::Op;
use std::sync::ledger::Ledger;

/// The most calls of one turn.
const MOST_CALLS: usize = 64;

impl Party {
    // What the client wants next, with its op begun; None if its turn ends.
    fn wanted(&mut self, ops: &[Op]) -> Option<Want>
        ensures same { self.new ≡ (record self.old { client = self.new.client }) }
        ensures wants { WantsNext (client_of ops.now self.old.client) result (client_of ops.now self.new.client) }
    {
        if self.client.is_halted() {
            return None;
        }
        self.client.begin(ops);
        self.client.next()
    }

    // The argument of a command: a START carries the flushes so far, and a STOP the frames released so far.
    fn argument(&self, sending: ClientCommand) -> u32
        requires order { IsInOrder self.now.stream }
        requires few { self.now.stream.released < 2 ^ 32 }
        ensures { (c : ClientSeen) (file : List FrameSeen) → result ≡ argument_of (track_with c file self.now) sending }
    {
        match sending {
            ClientCommand::Start => self.stream.flushes(),
            ClientCommand::Stop => self.stream.released() as u32,
            _ => 0,
        }
    }

    // Sends a command.
    fn send<L: Ledger>(
        &mut self,
        sending: ClientCommand,
        command: &Block,
        steps: &mut Steps<L>,
    ) -> ClientCall
        requires ready { IsClientOf command.now self.old.command }
        requires order { IsInOrder self.old.stream }
        requires can { CanSend self.old }
        ensures ready { IsClientOf command.now self.new.command }
        ensures same { self.new ≡ (record self.old { command = self.new.command }) }
        ensures makes { (file : List FrameSeen) → Makes file result self.old self.new }
        ensures made { (file : List FrameSeen) → IsMadeBy file self.old (want_seen.Send sending) result }
    {
        let argument = self.argument(sending);
        ask_send(&mut self.command, command, sending.code(), argument, steps)
    }

    // Writes the next frames of the client's file.
    fn write<L: Ledger>(
        &mut self,
        count: u32,
        file: &[Frame],
        stream: &Block,
        steps: &mut Steps<L>,
    ) -> ClientCall
        requires ready { IsClientOf stream.now self.old.stream }
        requires can { CanMake (length file.now) self.old (want_seen.Write count) }
        ensures ready { IsClientOf stream.now self.new.stream }
        ensures same { self.new ≡ (record self.old { stream = self.new.stream }) }
        ensures makes { Makes file.now result self.old self.new }
        ensures made { IsMadeBy file.now self.old (want_seen.Write count) result }
    {
        let first = self.stream.released() as usize;
        let frames = &file[first..first + count as usize];
        ask_write(&mut self.stream, stream, frames, steps)
    }

    // Overwrites a word of the command block, or else of the stream's.
    fn poke<L: Ledger>(
        &mut self,
        in_command: bool,
        word: u32,
        value: u32,
        stream: &Block,
        command: &Block,
        steps: &mut Steps<L>,
    ) -> ClientCall
        requires blocks { HasBlocks stream.now command.now self.old }
        requires can { CanMake 0 self.old (want_seen.Poke in_command word value) }
        ensures blocks { HasBlocks stream.now command.now self.new }
        ensures makes { (file : List FrameSeen) → Makes file result self.old self.new }
        ensures made { (file : List FrameSeen) → IsMadeBy file self.old (want_seen.Poke in_command word value) result }
    {
        if in_command {
            ask_poke(&mut self.command, command, true, word, value, steps)
        } else {
            ask_poke(&mut self.stream, stream, false, word, value, steps)
        }
    }

    // Reads the status word.
    fn status<L: Ledger>(&mut self, command: &Block, steps: &mut Steps<L>) -> ClientCall
        requires ready { IsClientOf command.now self.old.command }
        ensures ready { IsClientOf command.now self.new.command }
        ensures same { self.new ≡ (record self.old { command = self.new.command }) }
        ensures makes { (file : List FrameSeen) → Makes file result self.old self.new }
        ensures made { (file : List FrameSeen) → IsMadeBy file self.old want_seen.Settled result }
    {
        ask_status(&mut self.command, command, steps)
    }

    // Asks for a flush.
    fn flush<L: Ledger>(&mut self, stream: &Block, steps: &mut Steps<L>) -> ClientCall
        requires ready { IsClientOf stream.now self.old.stream }
        requires can { CanMake 0 self.old want_seen.Flush }
        ensures ready { IsClientOf stream.now self.new.stream }
        ensures same { self.new ≡ (record self.old { stream = self.new.stream }) }
        ensures makes { (file : List FrameSeen) → Makes file result self.old self.new }
        ensures made { (file : List FrameSeen) → IsMadeBy file self.old want_seen.Flush result }
    {
        ask_flush(&mut self.stream, stream, steps)
    }

    // Sets the gains.
    fn gain<L: Ledger>(
        &mut self,
        left: u32,
        right: u32,
        stream: &Block,
        steps: &mut Steps<L>,
    ) -> ClientCall
        requires ready { IsClientOf stream.now self.old.stream }
        requires can { CanMake 0 self.old (want_seen.Gain left right) }
        ensures ready { IsClientOf stream.now self.new.stream }
        ensures same { self.new ≡ (record self.old { stream = self.new.stream }) }
        ensures makes { (file : List FrameSeen) → Makes file result self.old self.new }
        ensures made { (file : List FrameSeen) → IsMadeBy file self.old (want_seen.Gain left right) result }
    {
        ask_gains(&mut self.stream, stream, left + 65536 * right, steps)
    }

    // Clears DISABLED.
    fn clear<L: Ledger>(&mut self, stream: &Block, steps: &mut Steps<L>) -> ClientCall
        requires ready { IsClientOf stream.now self.old.stream }
        ensures ready { IsClientOf stream.now self.new.stream }
        ensures same { self.new ≡ (record self.old { stream = self.new.stream }) }
        ensures makes { (file : List FrameSeen) → Makes file result self.old self.new }
        ensures made { (file : List FrameSeen) → IsMadeBy file self.old want_seen.Clear result }
    {
        ask_clear(&mut self.stream, stream, steps)
    }

    // Makes the call that the client wants.
    fn make<L: Ledger>(
        &mut self,
        wanted: Want,
        file: &[Frame],
        stream: &Block,
        command: &Block,
        steps: &mut Steps<L>,
    ) -> ClientCall
        requires blocks { HasBlocks stream.now command.now self.old }
        requires send { CanSend self.old }
        requires can { CanMake (length file.now) self.old wanted }
        ensures blocks { HasBlocks stream.now command.now self.new }
        ensures makes { Makes file.now result self.old self.new }
        ensures made { IsMadeBy file.now self.old wanted result }
    {
        match wanted {
            Want::Send { command: sending } => self.send(sending, command, steps),
            Want::Settled | Want::Drained => self.status(command, steps),
            Want::Flush => self.flush(stream, steps),
            Want::Gain { left, right } => self.gain(left, right, stream, steps),
            Want::Write { count } => self.write(count, file, stream, steps),
            Want::Clear => self.clear(stream, steps),
            Want::Poke {
                command: in_command,
                word,
                value,
            } => self.poke(in_command, word, value, stream, command, steps),
            Want::Leave => self.send(ClientCommand::Remove, command, steps),
            Want::Rest => unreachable!(),
        }
    }

    // Notes a call, for which there is room, and what it answered.
    fn note(&mut self, ops: &[Op], call: ClientCall)
        requires room { length self.old.calls.items < self.old.calls.room }
        ensures same { self.new ≡ (record self.old { client = self.new.client; calls = self.new.calls }) }
        ensures calls { self.new.calls ≡ (record self.old.calls { items = self.old.calls.items ++ call ∷ [] }) }
        ensures noted { (first : WantSeen) (wants : List WantSeen) → self.old.client.due ≡ first ∷ wants → client_of ops.now self.new.client ≡ after_answer (self.old.command.released / 2) first wants (client_of ops.now self.old.client) call }
    {
        self.calls.push(call);
        self.client.note(ops, self.command.released() / 2, call);
    }

    // Ends a turn, which was cut or not.
    fn rest(&mut self, ops: &[Op], cut: bool)
        ensures same { self.new ≡ (record self.old { client = self.new.client }) }
        ensures client { client_of ops.now self.new.client ≡ at_next_turn cut (client_of ops.now self.old.client) }
    {
        self.client.end_turn(ops, cut);
    }

    // One call, if one is wanted; else the turn ends.
    fn step<L: Ledger>(
        &mut self,
        stream: &Block,
        command: &Block,
        ops: &[Op],
        file: &[Frame],
        steps: &mut Steps<L>,
    ) -> bool
        requires blocks { HasBlocks stream.now command.now self.old }
        requires work { CanWork ops.now (length file.now) self.old }
        requires few { self.old.command.released < 2 ^ 62 }
        requires room { length self.old.calls.items < 64 }
        ensures blocks { HasBlocks stream.now command.now self.new }
        ensures work { CanWork ops.now (length file.now) self.new }
        ensures track { self.new.track ≡ self.old.track }
        ensures few { self.new.command.released ≤ self.old.command.released + 2 }
        ensures stepped { Stepped ops.now file.now result self.old self.new }
    {
        let Some(wanted) = self.wanted(ops) else {
            self.rest(ops, false);
            return false;
        };
        let call = self.make(wanted, file, stream, command, steps);
        self.note(ops, call);
        true
    }

    // The calls of one turn.
    pub(crate) fn call_on<L: Ledger>(
        &mut self,
        stream: &Block,
        command: &Block,
        ops: &[Op],
        file: &[Frame],
        steps: &mut Steps<L>,
    )
        requires blocks { HasBlocks stream.now command.now self.old }
        requires work { CanWork ops.now (length file.now) self.old }
        requires few { self.old.command.released + 128 ≤ 2 ^ 62 }
        requires none { self.old.calls.items ≡ [] }
        ensures blocks { HasBlocks stream.now command.now self.new }
        ensures work { CanWork ops.now (length file.now) self.new }
        ensures track { self.new.track ≡ self.old.track }
        ensures few { self.new.command.released ≤ self.old.command.released + 128 }
        ensures turned { IsTurned ops.now file.now self.old self.new }
    {
        for _ in 0..MOST_CALLS {
            if !self.step(stream, command, ops, file, steps) {
                return;
            }
        }
        self.rest(ops, true);
    }

    /// One turn: the calls that the client wants, one after the other, until it wants none or 64 are made.
    ///
    /// What it wants, and what each answer makes of it, is the turn of its ops. Each call is made of the proxies of the track's two blocks, and answers by the words that it sees there. The calls stand in the place of those of the turn before.
    pub fn turn<L: Ledger>(
        &mut self,
        links: &Links<'_>,
        ops: &[Op],
        file: &[Frame],
        steps: &mut Steps<L>,
    )
        requires clients { AreClientsOf links.now self.old.track self.old.stream self.old.command }
        requires work { CanWork ops.now (length file.now) self.old }
        requires few { self.old.command.released + 128 ≤ 2 ^ 62 }
        ensures clients { AreClientsOf links.now self.new.track self.new.stream self.new.command }
        ensures work { CanWork ops.now (length file.now) self.new }
        ensures track { self.new.track ≡ self.old.track }
        ensures few { self.new.command.released ≤ self.old.command.released + 128 }
        ensures legal { LegalClientTurn (track_of ops.now file.now self.old) self.new.calls.items }
        ensures turned { track_of ops.now file.now self.new ≡ after_calls (track_of ops.now file.now self.old) self.new.calls.items }
    {
        self.calls.clear();
        let stream = &links.streams[self.track as usize];
        let command = &links.commands[self.track as usize];
        self.call_on(stream, command, ops, file, steps);
    }

    /// Ends the client: its track is no more.
    pub fn end(&mut self)
        ensures { self.new ≡ (record self.old { client = record self.old.client { ended = true } }) }
    {
        self.client.end();
    }
}
