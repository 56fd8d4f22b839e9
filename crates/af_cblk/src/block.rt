//! A block, how it is made, and its sizes.
ghost use Rattle.std.specs.Prelude.{◌≡◌, ◌+◌, ◌*◌, ◌%◌, ◌≤◌, true, IfOk, [], ◌∷◌, replicate};
ghost use Rattle.af_cblk.specs.Shape.{IsShape, most_flushes};
ghost use Rattle.af_cblk.specs.Rule.{new_client, new_server};
ghost use Rattle.af_cblk.specs.Sides.{client_made, server_made};

use crate::pass::{BlockPass, ClientPass, ServerPass};
use crate::plays::ClientMoves;
use crate::view::View;
use crate::words::{CELLS, UNITY_GAINS};
use af_base::{Memory, Steps};
use af_model::Shape;
use atomic_table::{Table, TableRule};
use std::alloc::{AllocError, Global};
use std::marker::Model;
use std::sync::ledger::Ledger;

/// The rule of a block's table: if the client has not poked, there is one legal order of all parties' events, and the words stand for its last point.
pub struct OneOrder;

impl TableRule<(), View, Shape> for OneOrder {
    ghost use Rattle.af_cblk.specs.Rule.{Holds, newcomer};

    ghost holds = { Holds };

    ghost first = { newcomer };
}

/// The words that one client and one server share: AOSP's control block (`audio_track_cblk_t`) with its frames.
///
/// Seven words are followed by the cells, whose number is the least power of two that is not below the number of frames. A frame lies in the cell of its position, modulo the number of cells. Positions are numbers of 32 bits that wrap.
///
/// Each call below is one atomic step on one word, takes no memory and never waits, so that the block may be shared by `&` between threads, and each pass may be with a thread of its own. Contracts see which block it is, and its sizes.
#[derive(Drop)]
pub struct Block {
    pub(crate) table: Table<(), View, Shape, OneOrder, Global>,
    pub(crate) shape: Shape,
}

impl Model for Block {
    ghost use Rattle.std.specs.Prelude.{◌≡◌, ◌+◌};
    ghost use Rattle.af_cblk.specs.Shape.{IsShape};
    ghost use Rattle.af_cblk.specs.Sides.{Made};

    ghost Value = { Made };

    ghost view = { λ b. record { id = b.table.shared.table_id; shape = b.shape } };

    ghost invariant = { λ b. (b.table.shared.key ≡ b.shape) × (b.table.shared.table_id.words ≡ 7 + b.shape.cells) × IsShape b.shape };
}

// The words of a block in which nothing was done.
fn first_words(alloc: Global, base: u32, cells: u32) -> Result<Vec<u64>, AllocError>
    ensures { IfOk result (λ v. v.items ≡ base ∷ base ∷ 0 ∷ 0 ∷ 0 ∷ 268439552 ∷ 0 ∷ replicate cells 0) }
{
    let start = base as u64;
    let mut words = vec![in alloc; start, start, 0, 0, 0, UNITY_GAINS, 0]?;
    words.resize(CELLS + cells as usize, 0)?;
    Ok(words)
}

impl Block {
    /// A block with no frames in it, and the passes of its client and its server.
    ///
    /// Front and rear are `base`, the gains are 0x1000 each, and all else is 0. Each pass begins with no events. `frames` is from 1 to 65,536. Memory is its only refusal.
    pub fn make(
        alloc: Global,
        frames: u32,
        base: u32,
    ) -> Result<(Block, ClientPass, ServerPass), Memory>
        requires some { 1 ≤ frames }
        requires few { frames ≤ 65536 }
        ensures sizes { IfOk result (λ r. (r.0.shape.frames ≡ frames) × (r.0.shape.base ≡ base) × (r.0.shape.wrap ≡ 0) × IsShape r.0.shape) }
        ensures made { IfOk result (λ r. (client_made r.1 ≡ r.0) × (server_made r.2 ≡ r.0)) }
        ensures client { IfOk result (λ r. r.1.part ≡ new_client r.0.shape) }
        ensures server { IfOk result (λ r. (r.2.part ≡ new_server r.0.shape) × (r.2.has_hand ≡ true)) }
    {
        let shape = Shape {
            frames,
            cells: frames.next_power_of_two(),
            base,
            wrap: 0,
        };
        Block::of_shape(alloc, shape)
    }

    /// A positional block with no frames in it, and the passes of its client and its server. Its flush word carries the position of the flush: a flush discards what was released before it, and nothing that is released later.
    ///
    /// The block begins as that of `make`. `frames` is from 1 to 8,192. Memory is its only refusal.
    pub fn make_positional(
        alloc: Global,
        frames: u32,
        base: u32,
    ) -> Result<(Block, ClientPass, ServerPass), Memory>
        requires some { 1 ≤ frames }
        requires few { frames ≤ 8192 }
        ensures sizes { IfOk result (λ r. (r.0.shape.frames ≡ frames) × (r.0.shape.base ≡ base) × (r.0.shape.wrap ≡ r.0.shape.cells * 4) × IsShape r.0.shape) }
        ensures made { IfOk result (λ r. (client_made r.1 ≡ r.0) × (server_made r.2 ≡ r.0)) }
        ensures client { IfOk result (λ r. r.1.part ≡ new_client r.0.shape) }
        ensures server { IfOk result (λ r. (r.2.part ≡ new_server r.0.shape) × (r.2.has_hand ≡ true)) }
    {
        let cells = frames.next_power_of_two();
        let shape = Shape {
            frames,
            cells,
            base,
            wrap: cells * 4,
        };
        Block::of_shape(alloc, shape)
    }

    // A block of these sizes.
    fn of_shape(alloc: Global, shape: Shape) -> Result<(Block, ClientPass, ServerPass), Memory>
        requires { IsShape shape }
        ensures shape { IfOk result (λ r. r.0.shape ≡ shape) }
        ensures made { IfOk result (λ r. (client_made r.1 ≡ r.0) × (server_made r.2 ≡ r.0)) }
        ensures client { IfOk result (λ r. r.1.part ≡ new_client r.0.shape) }
        ensures server { IfOk result (λ r. (r.2.part ≡ new_server r.0.shape) × (r.2.has_hand ≡ true)) }
    {
        let Shape { base, cells, .. } = shape;
        let Ok(words) = first_words(alloc, base, cells) else {
            return Err(Memory);
        };
        let Ok((table, mut seat)) = Table::of_words(alloc, words.as_slice(), &shape) else {
            return Err(Memory);
        };
        let client = table.shared.split_seat::<ClientMoves>(&mut seat);
        Ok((
            Block { table, shape },
            ClientPass {
                seat: client,
                rear: base,
                flushes: 0,
                flushed: 0,
            },
            ServerPass { seat },
        ))
    }

    /// How many frames may lie in the block, from 1 to 65,536.
    pub fn frames(&self) -> u32
        ensures value { result ≡ self.now.shape.frames }
        ensures shape { IsShape self.now.shape }
    {
        self.shape.frames
    }

    /// How many cells there are: the least power of two that is not below the number of frames.
    pub fn cells(&self) -> u32
        ensures value { result ≡ self.now.shape.cells }
        ensures shape { IsShape self.now.shape }
    {
        self.shape.cells
    }

    /// The position of the first frame.
    pub fn base(&self) -> u32
        ensures { result ≡ self.now.shape.base }
    {
        self.shape.base
    }

    /// 0 for a block of `make`, and four times the cells for one of `make_positional`. A client of either may ask for 65,535 flushes at least.
    pub fn wrap(&self) -> u32
        ensures value { result ≡ self.now.shape.wrap }
        ensures room { 65535 ≤ most_flushes self.now.shape.wrap }
    {
        self.shape.wrap
    }

    // The place of the cell of a position. The number of cells is a power of two, so that the position's low bits name it.
    pub(crate) fn cell_of(&self, position: u32) -> usize
        ensures { result ≡ 7 + position % self.now.shape.cells }
    {
        CELLS + (position & (self.shape.cells - 1)) as usize
    }

    /// Loads front, by either pass. It appends SawFront.
    ///
    /// A client that has not poked sees no more frames in the block than it may hold.
    pub fn load_front<Q: BlockPass, L: Ledger>(&self, pass: &mut Q, steps: &mut Steps<L>) -> u32
        requires { Q.made pass.old ≡ self.now }
        ensures made { Q.made pass.new ≡ self.now }
        ensures saw { Q.saw pass.old result pass.new }
        ensures steps { steps.new ≡ steps.old + 1 }
    {
        pass.load_front_of(self, steps)
    }
}
