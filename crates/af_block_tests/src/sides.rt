//! A proxy, and what its calls saw and did, written down call by call.
ghost use Rattle.std.specs.Prelude.{◌≡◌, ◌<◌};
ghost use Rattle.af_client.specs.Order.{IsClientOf};
ghost use Rattle.af_server.specs.Order.{IsServerOf};

use crate::calls::{Call, ask_client, ask_server};
use crate::causes::{
    Kept, client_has_cause, note, note_client, note_server, position_of, server_has_cause,
};
use af_base::{ClientEvent, ServerEvent, Steps};
use af_cblk::Block;
use af_client::Client;
use af_server::Server;
use std::alloc::Global;
use std::marker::Brand;
use std::sync::ledger::{Blank, Ledger};

// A proxy, with what its calls saw and did, oldest first, and whether each answer had its cause and was written down.
#[derive(Drop)]
pub(crate) struct Recorded<P, E> {
    pub proxy: P,
    // Whether the client may poke.
    pub poked: bool,
    pub list: Vec<E>,
    pub sound: bool,
}

impl<P, E> Recorded<P, E> {
    // A proxy that did nothing yet.
    pub(crate) fn new(alloc: Global, proxy: P, poked: bool) -> Recorded<P, E>
        ensures { result.proxy ≡ proxy }
    {
        Recorded {
            proxy,
            poked,
            list: Vec::new(alloc),
            sound: true,
        }
    }
}

// A side of a block, whose calls are written down.
pub(crate) trait Side: Drop {
    ghost use Rattle.af_cblk.specs.Sides.{Made};

    // The proxy of this side is of this block, and in order.
    ghost is_ready: { Made → Self → Type 0 };

    // Makes a call.
    fn play<L: Ledger>(&mut self, block: &Block, call: &Call, steps: &mut Steps<L>)
        requires { is_ready block.now self.old }
        ensures { is_ready block.now self.new };
}

impl Side for Recorded<Client, ClientEvent> {
    ghost use Rattle.af_client.specs.Order.{IsClientOf};

    ghost is_ready = { λ b s. IsClientOf b s.proxy };

    fn play<L: Ledger>(&mut self, block: &Block, call: &Call, steps: &mut Steps<L>) {
        let kept = Kept {
            frames: block.frames(),
            cells: block.cells(),
            wrap: block.wrap(),
            poked: self.poked,
            position: position_of(block.base(), self.proxy.released()),
            flushes: self.proxy.flushes(),
            shut: self.proxy.shut(),
        };
        let answer = ask_client(block, &mut self.proxy, call, steps);
        let noted = note_client(&mut self.list, &kept, call, &answer);
        self.sound = self.sound && noted && client_has_cause(&kept, call, &answer);
    }
}

impl Side for Recorded<Server, ServerEvent> {
    ghost use Rattle.af_server.specs.Order.{IsServerOf};

    ghost is_ready = { λ b s. IsServerOf b s.proxy };

    fn play<L: Ledger>(&mut self, block: &Block, call: &Call, steps: &mut Steps<L>) {
        let kept = Kept {
            frames: block.frames(),
            cells: block.cells(),
            wrap: block.wrap(),
            poked: self.poked,
            position: position_of(block.base(), self.proxy.consumed()),
            flushes: self.proxy.flush_seen(),
            shut: self.proxy.shut(),
        };
        let answer = ask_server(block, &mut self.proxy, call, steps);
        let noted = note_server(&mut self.list, &kept, call, &answer);
        self.sound = self.sound && noted && server_has_cause(&kept, call, &answer);
    }
}

// The client and the server of a block learn what the other has done.
fn learn<L: Ledger>(blank: Blank, block: &Block, client: &mut Client, server: &mut Server)
    requires ledger { (blank.name ≡ L.name) × (blank.parts ≡ L.parts) × (0 < blank.parts) }
    requires client { IsClientOf block.now client.old }
    requires server { IsServerOf block.now server.old }
    ensures client { IsClientOf block.now client.new }
    ensures server { IsServerOf block.now server.new }
{
    let mut steps = Steps::<L>::start(blank);
    server.meet(block, client.pass(), &mut steps);
}

// The client and the server learn what the other has done, and their lists say so: each has the length of the other's.
pub(crate) fn meet(
    block: &Block,
    client: &mut Recorded<Client, ClientEvent>,
    server: &mut Recorded<Server, ServerEvent>,
)
    requires client { IsClientOf block.now client.old.proxy }
    requires server { IsServerOf block.now server.old.proxy }
    ensures client { IsClientOf block.now client.new.proxy }
    ensures server { IsServerOf block.now server.new.proxy }
{
    learn::<Brand>(Blank::new(1), block, &mut client.proxy, &mut server.proxy);
    let asked = client.list.len() as u64;
    let done = server.list.len() as u64;
    let learnt = note(&mut client.list, &[ClientEvent::Learn { count: done }]);
    client.sound = client.sound && learnt;
    let learnt = note(&mut server.list, &[ServerEvent::Learn { count: asked }]);
    server.sound = server.sound && learnt;
}
