//! A block as a journal tells it: what its parties did, and whether their lists have a history.
//!
//! `known` answers an `af_life::Heard` without looks: the frames consumed, the flushes and whether the block is shut.

ghost use Rattle.std.specs.Prelude.{◌≡◌, ◌<◌, ◌≤◌, ◌^◌, ◌∷◌, [], ◌++◌, ◌↔◌, ◌&&◌, IfOk, IsTrue, OnOk, if◌then◌else◌, is_some, length, map, true};
ghost use Rattle.af_base.specs.declared.event.ServerEvent.TheVariants as did;
ghost use Rattle.af_base.specs.declared.event.ClientEvent.TheVariants as call;
ghost use Rattle.af_base.specs.declared.event.HandEvent.TheVariants as hand;
ghost use Rattle.af_base.specs.Sample.{packed_word};
ghost use Rattle.af_life.specs.Heard.{known_by};
ghost use Rattle.af_life.specs.Looks.{HasWords, as_slot, takes_command};
ghost use Rattle.af_life.specs.Obeys.{shows_command};
ghost use Rattle.af_model.specs.ClientCalls.{client_call_events};
ghost use Rattle.af_model.specs.History.{is_lawful, is_no_poke};
ghost use Rattle.af_model.specs.ServerCalls.{drops_of, look_events};
ghost use Rattle.af_model.specs.Cycles.{events_behind_look, kept, tally};
ghost use Rattle.af_runs.specs.Fronts.{front_of};
ghost use Rattle.af_judge.specs.Blocks.{HasItsHistory, client_more, commanded_told, hand_met, hand_more, listed_in, look_told, parties_met, played_told, raised_by, released_more, server_more, servers_met, taken_more};
ghost use Rattle.af_judge.specs.Servers.{IsServerOf, LooksRightly};

use crate::parties_judge::PartiesJudge;
use crate::server_judge::ServerJudge;
use crate::words_judge::WordsJudge;
use af_base::{
    ClientCall, ClientEvent, CommandLook, DISABLED, Frame, HandEvent, INVALID, Memory, Seen,
    ServerEvent, SlotEntry, UNDERRUN,
};
use af_life::Heard;
use af_model::Shape;
use std::alloc::Global;
use std::marker::Model;

/// A block: its server, whether a poke of it is told in the whole journal or was told so far, what its parties did, how many frames the releases say (at most 2^64 - 1), and the words released and taken.
#[derive(Drop)]
pub struct BlockJudge {
    server: ServerJudge,
    lawful: bool,
    tame: bool,
    lists: PartiesJudge,
    raised: u64,
    words: WordsJudge,
}

impl Model for BlockJudge {
    ghost use Rattle.af_judge.specs.Blocks.{BlockJudged, IsBlock};

    ghost Value = { BlockJudged };

    ghost view = { λ b. record { shape = b.server.shape; lawful = b.lawful; client = b.lists.client; server = b.lists.server; hand = b.lists.hand; released = b.words.released; taken = b.words.taken } };

    ghost invariant = { λ b. IsBlock b.server b.tame b.raised b.lists };
}

// A look at a command block as one of a slot.
fn as_slot(look: CommandLook) -> SlotEntry
    ensures { result ≡ as_slot look }
{
    SlotEntry {
        gains: 0,
        flush: look.flush,
        rear: look.rear,
        seen: look.seen,
        first: 0,
    }
}

// The words of a command that was taken, and else 0.
fn has_words(look: CommandLook) -> bool
    ensures { IsTrue result ↔ HasWords look }
{
    look.seen.count() == 2 || look.code == 0 && look.argument == 0
}

// How many frames a release says.
fn raised_by(event: ClientEvent) -> u32
    ensures { result ≡ raised_by event }
{
    match event {
        ClientEvent::Release { count } => count,
        _ => 0,
    }
}

// No poke was told before, and this is none.
fn stays_tame(tame: bool, event: ClientEvent) -> bool
    ensures { result ≡ (tame && is_no_poke event) }
{
    match event {
        ClientEvent::Poke { .. } => false,
        _ => tame,
    }
}

// The rear that a look saw.
fn rear_of(slot: SlotEntry) -> u32
    ensures { result ≡ slot.rear }
{
    slot.rear
}

// All three hold.
fn are_all(one: bool, two: bool, three: bool) -> bool
    ensures { IsTrue result ↔ (IsTrue one × IsTrue two × IsTrue three) }
{
    one && two && three
}

impl BlockJudge {
    /// A block on which nothing was done. `lawful` says that no poke of it is told in the whole journal.
    pub fn new(alloc: Global, shape: Shape, lawful: bool) -> BlockJudge
        requires { shape.wrap ≤ 2 ^ 31 }
        ensures { result ≡ record { shape = shape; lawful = lawful; client = []; server = []; hand = []; released = []; taken = [] } }
    {
        BlockJudge::of(alloc, shape, lawful, true)
    }

    /// A block that has no hand, on which nothing was done. `lawful` says that no poke of it is told in the whole journal.
    pub fn without_hand(alloc: Global, shape: Shape, lawful: bool) -> BlockJudge
        requires { shape.wrap ≤ 2 ^ 31 }
        ensures { result ≡ record { shape = shape; lawful = lawful; client = []; server = []; hand = []; released = []; taken = [] } }
    {
        BlockJudge::of(alloc, shape, lawful, false)
    }

    // Either of both.
    fn of(alloc: Global, shape: Shape, lawful: bool, has_hand: bool) -> BlockJudge
        requires { shape.wrap ≤ 2 ^ 31 }
        ensures { result ≡ record { shape = shape; lawful = lawful; client = []; server = []; hand = []; released = []; taken = [] } }
    {
        BlockJudge {
            server: ServerJudge::new(shape),
            lawful,
            tame: true,
            lists: PartiesJudge::new(alloc, shape, has_hand),
            raised: 0,
            words: WordsJudge::new(alloc),
        }
    }

    /// The sizes of the block.
    pub fn shape(&self) -> Shape
        ensures { result ≡ self.now.shape }
    {
        self.server.shape()
    }

    /// What a report or a mixer learns of the block's server, without looks.
    pub fn known(&self) -> Heard
        ensures { result ≡ known_by (listed_in self.now) }
    {
        self.server.known()
    }

    /// The block's server, to be tried out.
    pub fn server(&self) -> ServerJudge
        ensures { IsServerOf (listed_in self.now) result }
    {
        self.server
    }

    /// The server is shut.
    pub fn is_shut(&self) -> bool
        ensures { result ≡ is_some (kept (listed_in self.now)).shut }
    {
        self.server.is_shut()
    }

    // ## The client

    // The block's client did this.
    fn client_does(&mut self, event: ClientEvent) -> Result<(), Memory>
        ensures told { OnOk result (self.new ≡ client_more (event ∷ []) self.old) }
    {
        self.lists.client_does(event)?;
        self.raised = self.raised.saturating_add(u64::from(raised_by(event)));
        self.tame = stays_tame(self.tame, event);
        Ok(())
    }

    // The client saw the flags without INVALID, and the front.
    fn room_seen(&mut self, front: u32) -> Result<(), Memory>
        ensures { OnOk result (self.new ≡ client_more (call.SawFlags 0 ∷ call.SawFront front ∷ []) self.old) }
    {
        self.client_does(ClientEvent::SawFlags { flags: 0 })?;
        self.client_does(ClientEvent::SawFront { front })
    }

    // The client saw room, and raised the rear.
    fn raised(&mut self, front: u32, count: u32) -> Result<(), Memory>
        ensures { OnOk result (self.new ≡ client_more (call.SawFlags 0 ∷ call.SawFront front ∷ call.Release count ∷ []) self.old) }
    {
        self.room_seen(front)?;
        self.client_does(ClientEvent::Release { count })
    }

    /// The block's client made a call. `was_shut` says whether its proxy was shut before.
    pub fn called(&mut self, was_shut: bool, call: ClientCall) -> Result<(), Memory>
        ensures { OnOk result (self.new ≡ client_more (client_call_events was_shut call) self.old) }
    {
        match call {
            ClientCall::Put { front, count } => self.raised(front, count),
            ClientCall::Sent { front, .. } => self.raised(front, 2),
            ClientCall::Full { front } | ClientCall::SendFull { front } => self.room_seen(front),
            ClientCall::Corrupt { front, .. } | ClientCall::SendCorrupt { front, .. } => {
                if was_shut {
                    return Ok(());
                }
                self.room_seen(front)
            }
            ClientCall::Dead { flags } | ClientCall::SendDead { flags } => {
                self.client_does(ClientEvent::SawFlags { flags })
            }
            ClientCall::Cleared { flags } => {
                self.client_does(ClientEvent::ClearFlags { old: flags })
            }
            ClientCall::Flush { .. } => self.client_does(ClientEvent::Flush),
            ClientCall::Gain { word } => self.client_does(ClientEvent::SetGain { word }),
            ClientCall::Status { word } => self.client_does(ClientEvent::SawStatus { word }),
            ClientCall::Poke { word, value, .. } => {
                self.client_does(ClientEvent::Poke { word, value })
            }
        }
    }

    /// The block's client released the words of a command.
    pub fn release(&mut self, code: u32, argument: u32) -> Result<(), Memory>
        ensures { OnOk result (self.new ≡ released_more (code ∷ argument ∷ []) self.old) }
    {
        self.words.release(code)?;
        self.words.release(argument)
    }

    /// The block's client released these frames.
    pub fn release_frames(&mut self, frames: &[Frame]) -> Result<(), Memory>
        ensures { OnOk result (self.new ≡ released_more (map packed_word frames.now) self.old) }
    {
        self.words.release_frames(frames)
    }

    // ## The server and the hand

    // The block's server did this.
    #[inline(always)]
    fn server_does(&mut self, event: ServerEvent) -> Result<(), Memory>
        ensures told { OnOk result (self.new ≡ server_more (event ∷ []) self.old) }
    {
        self.lists.server_does(event)?;
        self.server.note(event);
        Ok(())
    }

    // The block's hand did this.
    fn hand_does(&mut self, event: HandEvent) -> Result<(), Memory>
        ensures told { OnOk result (self.new ≡ hand_more (event ∷ []) self.old) }
    {
        self.lists.hand_does(event)
    }

    // The front that a journal tells of a look.
    fn front_told(&self, asked: u32, slot: &SlotEntry) -> u32
        ensures { result ≡ front_of asked (listed_in self.now) slot.now }
    {
        self.server.front_told(asked, slot)
    }

    // Whether a look answers as its words say: on a block that is lawful by the server's own front if the answer leaves it open, on another by some front.
    fn answers(&self, asked: u32, slot: SlotEntry) -> bool
        ensures { IsTrue result ↔ LooksRightly self.now.lawful asked (listed_in self.now) slot }
    {
        let _rear = rear_of(slot);
        self.server.answers(self.lawful, asked, &slot)
    }

    // The frames that a look dropped.
    fn drop_frames(&mut self, seen: Seen, front: u32) -> Result<(), Memory>
        ensures { OnOk result (self.new ≡ server_more (drops_of seen front) self.old) }
    {
        match seen {
            Seen::Flushed { dropped } => self.server_does(ServerEvent::Drop {
                to: front.wrapping_add(dropped),
            }),
            _ => Ok(()),
        }
    }

    // The server looked, and saw this front.
    fn looked(&mut self, slot: &SlotEntry, front: u32) -> Result<(), Memory>
        ensures { OnOk result (self.new ≡ server_more (look_events slot.now.seen slot.now.flush slot.now.rear front) self.old) }
    {
        self.server_does(ServerEvent::SawFlush { flush: slot.flush })?;
        self.server_does(ServerEvent::SawRear { rear: slot.rear })?;
        self.server_does(ServerEvent::SawFront { front })?;
        self.drop_frames(slot.seen, front)
    }

    // The server looked, unless it was shut before.
    fn look(&mut self, asked: u32, slot: &SlotEntry) -> Result<(), Memory>
        ensures { OnOk result (self.new ≡ server_more (look_told asked (listed_in self.old) slot.now) self.old) }
    {
        if self.is_shut() {
            return Ok(());
        }
        let front = self.front_told(asked, slot);
        self.looked(slot, front)
    }

    // The words of these frames are taken.
    fn take_words(&mut self, frames: &[Frame]) -> Result<(), Memory>
        ensures { OnOk result (self.new ≡ taken_more self.old.server (map packed_word frames.now) self.old) }
    {
        let at = self.server.consumed();
        self.words.take_frames(at, frames)?;
        Ok(())
    }

    // Missing frames are tallied, if there are some.
    fn tally(&mut self, missing: u32) -> Result<(), Memory>
        ensures { OnOk result (self.new ≡ server_more (tally missing) self.old) }
    {
        if missing == 0 {
            return Ok(());
        }
        self.server_does(ServerEvent::Tally { missing })?;
        self.server_does(ServerEvent::SetFlags { bits: UNDERRUN })
    }

    // What follows a look at a stream block.
    fn after_look(&mut self, asked: u32, was_shut: bool, seen: Seen) -> Result<(), Memory>
        ensures { OnOk result (self.new ≡ server_more (events_behind_look asked was_shut seen) self.old) }
    {
        match seen {
            Seen::Frames { count } => {
                self.server_does(ServerEvent::Take { count })?;
                self.tally(asked.saturating_sub(count))
            }
            Seen::Empty => self.tally(asked),
            Seen::Shut { .. } if !was_shut => self.set_invalid(),
            _ => Ok(()),
        }
    }

    /// A mixer's look at a stream block, with the gains before it, the take and the flags after it. Answers whether the look answers as its words say: on a block that is lawful by the server's own front if the answer leaves it open, on another by some front.
    pub fn played(&mut self, asked: u32, slot: &SlotEntry, frames: &[Frame]) -> Result<bool, Memory>
        ensures told { OnOk result (self.new ≡ played_told asked slot.now (map packed_word frames.now) self.old) }
        ensures right { IfOk result (λ yes. IsTrue yes ↔ LooksRightly self.old.lawful asked (listed_in self.old) slot.now) }
    {
        let right = self.answers(asked, *slot);
        let was_shut = self.is_shut();
        self.server_does(ServerEvent::SawGain { word: slot.gains })?;
        self.look(asked, slot)?;
        self.take_words(frames)?;
        self.after_look(asked, was_shut, slot.seen)?;
        Ok(right)
    }

    // The two words of a command are taken.
    fn take_command(&mut self, look: CommandLook) -> Result<(), Memory>
        ensures { OnOk result (self.new ≡ server_more (did.Take 2 ∷ []) (taken_more self.old.server (look.code ∷ look.argument ∷ []) self.old)) }
    {
        let at = self.server.consumed();
        self.words.take(at, look.code)?;
        self.words.take(at.saturating_add(1), look.argument)?;
        self.server_does(ServerEvent::Take { count: 2 })
    }

    // Whether a look at a command block answers as its words say, and has no words but those of a command.
    fn commands_rightly(&self, look: CommandLook) -> bool
        ensures { IsTrue result ↔ (LooksRightly self.now.lawful 2 (listed_in self.now) (as_slot look) × HasWords look) }
    {
        self.answers(2, as_slot(look)) && has_words(look)
    }

    // The words of a command are taken, if one was shown.
    fn take_if_shown(&mut self, look: CommandLook) -> Result<(), Memory>
        ensures { OnOk result (self.new ≡ server_more (takes_command look) (taken_more self.old.server (if shows_command look.seen then look.code ∷ look.argument ∷ [] else []) self.old)) }
    {
        if look.seen.count() == 2 {
            return self.take_command(look);
        }
        Ok(())
    }

    /// The normal mixer's look at a command block, with the take of a command. Answers whether the look answers as its words say, as for `played`, and has no words but those of a command that was taken.
    pub fn commanded(&mut self, look: CommandLook) -> Result<bool, Memory>
        ensures told { OnOk result (self.new ≡ commanded_told look self.old) }
        ensures right { IfOk result (λ yes. IsTrue yes ↔ (LooksRightly self.old.lawful 2 (listed_in self.old) (as_slot look) × HasWords look)) }
    {
        let right = self.commands_rightly(look);
        self.look(2, &as_slot(look))?;
        self.take_if_shown(look)?;
        Ok(right)
    }

    /// The server sets INVALID.
    pub fn set_invalid(&mut self) -> Result<(), Memory>
        ensures { OnOk result (self.new ≡ server_more (did.SetFlags 4 ∷ []) self.old) }
    {
        self.server_does(ServerEvent::SetFlags { bits: INVALID })
    }

    /// The server stores the status.
    pub fn store_status(&mut self, word: u32) -> Result<(), Memory>
        ensures { OnOk result (self.new ≡ server_more (did.SetStatus word ∷ []) self.old) }
    {
        self.server_does(ServerEvent::SetStatus { word })
    }

    /// The hand sets DISABLED.
    pub fn disable(&mut self) -> Result<(), Memory>
        ensures { OnOk result (self.new ≡ hand_more (hand.SetFlags 8 ∷ []) self.old) }
    {
        self.hand_does(HandEvent::SetFlags { bits: DISABLED })
    }

    // ## Meetings

    // Client and server learn how much the other did before.
    fn meet_server(&mut self) -> Result<(), Memory>
        ensures { OnOk result (self.new ≡ servers_met self.old) }
    {
        let clients = self.lists.clients();
        let servers = self.lists.servers();
        self.client_does(ClientEvent::Learn { count: servers })?;
        self.server_does(ServerEvent::Learn { count: clients })
    }

    // The hand meets the client.
    fn meet_hand(&mut self) -> Result<(), Memory>
        ensures { OnOk result (self.new ≡ hand_met self.old) }
    {
        let client = self.lists.clients();
        self.hand_does(HandEvent::Met { client })
    }

    // The parties meet: client and server, and the hand, if these say so.
    fn met(&mut self, server_there: bool, hand_there: bool) -> Result<(), Memory>
        ensures { OnOk result (self.new ≡ parties_met server_there hand_there self.old) }
    {
        if server_there {
            self.meet_server()?;
        }
        if hand_there {
            self.meet_hand()?;
        }
        Ok(())
    }

    // Whether the block has a history.
    fn has_history(&mut self) -> Result<bool, Memory>
        ensures same { self.new ≡ self.old }
        ensures has { IfOk result (λ yes. IsTrue yes ↔ HasItsHistory self.new) }
        ensures short { OnOk result (length self.new.released < 2 ^ 63) }
    {
        let has = self.lists.has_order()?;
        let released = self.words.are_released();
        let whole = self.raised == self.words.released();
        Ok(are_all(has, whole, released))
    }

    /// The parties meet: client and server if `server_there` says so, the hand if it is made. Answers whether the block has its history, if that is judged: if the server takes part and nothing was poked so far; else true.
    pub fn meet(&mut self, server_there: bool, hand_there: bool) -> Result<bool, Memory>
        ensures met { OnOk result (self.new ≡ parties_met server_there hand_there self.old) }
        ensures has { IfOk result (λ yes. IsTrue yes ↔ (server_there ≡ true → is_lawful self.new.client ≡ true → HasItsHistory self.new)) }
        ensures short { OnOk result (server_there ≡ true → is_lawful self.new.client ≡ true → length self.new.released < 2 ^ 63) }
    {
        self.met(server_there, hand_there)?;
        if !server_there || !self.tame {
            return Ok(true);
        }
        self.has_history()
    }
}
