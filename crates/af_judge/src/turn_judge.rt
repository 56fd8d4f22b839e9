//! Whether a client makes its calls as it is to.
ghost use Rattle.std.specs.Prelude.{◌≡◌, ◌≢◌, ◌+◌, ◌<◌, ◌≤◌, ◌^◌, ◌/◌, ◌∷◌, List, MatchBool, is_some, true};
ghost use Rattle.af_runs.specs.Clients.{after_answer, at_next_turn, new_client};
ghost use Rattle.af_runs.specs.ClientTurns.{new_side};
ghost use Rattle.af_script.specs.declared.op.Op.{Op as OpSeen};
ghost use Rattle.af_judge.specs.Tracks.{EndsTurn};
ghost use Rattle.af_judge.specs.Judging.{CallMade, FindsNext, IsNoCall, kept_for, side_kept, sides_called};
ghost use Rattle.af_runs.specs.declared.want.Want.{Want as WantSeen};
ghost use Rattle.af_runs.specs.Kept.{client_of};

use crate::client_judge::SidesJudge;
use af_base::ClientCall;
use af_model::Shape;
use af_runs::{Client, Want};
use af_script::Op;
use std::marker::Model;

/// A client with its two sides, and how many calls it made.
#[derive(Drop)]
pub struct ClientJudge {
    client: Client,
    sides: SidesJudge,
    calls: u64,
}

impl Model for ClientJudge {
    ghost use Rattle.af_judge.specs.Judging.{AreCounted, ClientJudged};

    ghost Value = { ClientJudged };

    ghost view = { λ j. record { client = j.client; sides = j.sides; calls = j.calls } };

    ghost invariant = { λ j. AreCounted j.calls j.sides };
}

impl ClientJudge {
    /// A client that has done nothing, with blocks of these sizes.
    pub fn new(stream: Shape, commands: Shape) -> ClientJudge
        requires stream { stream.cells ≢ 0 }
        requires commands { commands.cells ≢ 0 }
        ensures client { (ops : List OpSeen) → client_of ops result.client ≡ new_client ops }
        ensures sides { result.sides ≡ record { stream = side_kept (new_side stream); commands = side_kept (new_side commands) } }
        ensures calls { result.calls ≡ 0 }
    {
        ClientJudge {
            client: Client::new(),
            sides: SidesJudge::new(stream, commands),
            calls: 0,
        }
    }

    /// The client has ended.
    pub fn has_ended(&self) -> bool
        ensures { result ≡ self.now.client.ended }
    {
        self.client.has_ended()
    }

    /// Ends the client.
    pub fn end(&mut self)
        ensures { self.new ≡ record self.old { client = record self.old.client { ended = true } } }
    {
        self.client.end();
    }

    /// The side that the call is made on is shut.
    pub fn is_shut_for(&self, call: ClientCall) -> bool
        ensures { result ≡ is_some (kept_for self.now.sides call).kept.shut }
    {
        self.sides.is_shut_for(call)
    }

    /// How many words the client released on its stream block.
    pub fn released(&self) -> u64
        ensures { result ≡ self.now.sides.stream.words }
    {
        self.sides.released()
    }

    /// How many calls the client made.
    pub fn calls(&self) -> u64
        ensures { result ≡ self.now.calls }
    {
        self.calls
    }

    /// Ends the client's turn that is cut after its last call.
    pub fn cut_turn(&mut self, ops: &[Op])
        ensures client { client_of ops.now self.new.client ≡ at_next_turn true (client_of ops.now self.old.client) }
        ensures same { self.new ≡ record self.old { client = self.new.client } }
    {
        self.client.end_turn(ops, true);
    }

    /// Whether the client's turn ends here, since it wants no more. It is then the client of its next turn.
    pub fn ends_turn(&mut self, ops: &[Op]) -> bool
        ensures ends { EndsTurn result ops.now self.old self.new }
        ensures calls { self.new.calls ≡ self.old.calls }
    {
        match self.wanted(ops) {
            Some(_) => false,
            None => {
                self.client.end_turn(ops, false);
                true
            }
        }
    }

    // What the client wants next, with its op begun; None if its turn ends.
    fn wanted(&mut self, ops: &[Op]) -> Option<Want>
        ensures same { self.new ≡ record self.old { client = self.new.client } }
        ensures finds { FindsNext (client_of ops.now self.old.client) result (client_of ops.now self.new.client) }
    {
        if self.client.is_halted() {
            return None;
        }
        self.client.begin(ops);
        self.client.next()
    }

    // Notes a call.
    fn note(&mut self, ops: &[Op], file: u64, call: ClientCall)
        requires few { self.old.calls < 2 ^ 29 }
        ensures calls { self.new.calls ≡ self.old.calls + 1 }
        ensures sides { self.new.sides ≡ sides_called file call self.old.sides }
        ensures noted { (first : WantSeen) (wants : List WantSeen) → self.old.client.due ≡ first ∷ wants → client_of ops.now self.new.client ≡ after_answer (self.new.sides.commands.words / 2) first wants (client_of ops.now self.old.client) call }
    {
        self.sides.note(file, call);
        self.client.note(ops, self.sides.commands_sent(), call);
        self.calls += 1;
    }

    /// Whether the client makes this call next, and answers right, if its file has so many frames. If it does the call is noted; else what is kept is of no more use.
    pub fn call(&mut self, ops: &[Op], file: u64, call: ClientCall) -> bool
        requires few { self.old.calls < 2 ^ 29 }
        ensures calls { self.new.calls ≤ self.old.calls + 1 }
        ensures made { MatchBool result (CallMade ops.now file call self.old self.new) (IsNoCall ops.now call self.old) }
    {
        let Some(wanted) = self.wanted(ops) else {
            return false;
        };
        if !self.sides.is_made(wanted, call) {
            return false;
        }
        self.note(ops, file, call);
        true
    }
}
