//! Looking for frames.
ghost use Rattle.std.specs.Prelude.{◌≡◌, ◌+◌, ◌≤◌, true, false, not, ◌==◌, None};
ghost use Rattle.af_model.specs.ServerCalls.{look_at, shown_by, is_noticed, dropped_by, flushes_by};
ghost use Rattle.af_cblk.specs.Parts.{MayStoreFront, front_stored};
ghost use Rattle.af_cblk.specs.Sides.{server_made, ServerIs};
ghost use Rattle.af_server.specs.Order.{IsServerOf, counted};
ghost use Rattle.af_server.specs.Looks.{Looks, shut_of, dropped_of, WithinAsk, look_steps, flushes_after, saw_all, stored_front};

use crate::server::{Server, raised};
use af_base::{Seen, Steps};
use af_cblk::{Block, ServerPass};
use std::sync::ledger::Ledger;

/// What a look saw: the flush word, the rear, and what they come to.
#[derive(Clone, Copy, Debug, PartialEq, Eq)]
pub struct Look {
    pub flush: u32,
    pub rear: u32,
    /// What the look showed. It is never Absent.
    pub seen: Seen,
}

/// The three words of a look.
#[derive(Clone, Copy)]
pub(crate) struct Words {
    pub(crate) flush: u32,
    pub(crate) rear: u32,
    pub(crate) front: u32,
}

// Loads the flush word, then rear, then front.
fn load_words<L: Ledger>(block: &Block, pass: &mut ServerPass, steps: &mut Steps<L>) -> Words
    requires { server_made pass.old ≡ block.now }
    ensures made { server_made pass.new ≡ block.now }
    ensures saw { ServerIs (saw_all pass.old.part result.flush result.rear result.front) pass.old pass.new }
    ensures steps { steps.new ≡ steps.old + 3 }
{
    let flush = block.load_flush(pass, steps);
    let rear = block.load_rear(pass, steps);
    let front = block.load_front(pass, steps);
    Words { flush, rear, front }
}

// Whether the words show a new flush that is noticed.
fn notices(block: &Block, kept: u32, words: Words) -> bool
    ensures { result ≡ is_noticed block.now.shape (not (words.flush == kept)) words.rear words.front }
{
    let there = words.rear.wrapping_sub(words.front);
    words.flush != kept && (block.wrap() == 0 || there <= block.frames())
}

// How many frames a new flush drops.
fn frames_dropped(wrap: u32, words: Words) -> u32
    ensures { result ≡ dropped_by wrap words.flush words.rear words.front }
{
    let Words { flush, rear, front } = words;
    if wrap == 0 {
        return rear.wrapping_sub(front);
    }
    let since = rear.wrapping_sub(flush) % wrap;
    let dropped = rear.wrapping_sub(since).wrapping_sub(front);
    if dropped < 0x8000_0000 { dropped } else { 0 }
}

// How many flushes a flush word tells of.
fn flush_count(wrap: u32, word: u32) -> u32
    ensures { result ≡ flushes_by wrap word }
{
    if wrap == 0 { word } else { word / wrap }
}

impl Server {
    // Discards the frames that a new flush drops.
    fn discard<L: Ledger>(&mut self, block: &Block, words: Words, steps: &mut Steps<L>) -> Seen
        requires made { server_made self.old.pass ≡ block.now }
        requires consumed { self.old.consumed ≤ 9223372036854775807 }
        requires may { MayStoreFront self.old.pass.part (stored_front block.now.shape.wrap words.flush words.rear words.front) }
        ensures made { server_made self.new.pass ≡ block.now }
        ensures pass { ServerIs (front_stored self.old.pass.part (stored_front block.now.shape.wrap words.flush words.rear words.front)) self.old.pass self.new.pass }
        ensures kept { self.new ≡ (record self.old {
          pass = self.new.pass;
          flush = words.flush;
          flushes = flushes_by block.now.shape.wrap words.flush;
          consumed = counted (self.old.consumed + dropped_by block.now.shape.wrap words.flush words.rear words.front);
        }) }
        ensures seen { result ≡ Seen.Flushed (dropped_by block.now.shape.wrap words.flush words.rear words.front) }
        ensures steps { steps.new ≡ steps.old + 1 }
    {
        let wrap = block.wrap();
        let dropped = frames_dropped(wrap, words);
        self.flush = words.flush;
        self.flushes = flush_count(wrap, words.flush);
        block.store_front(&mut self.pass, words.front.wrapping_add(dropped), steps);
        self.consumed = raised(self.consumed, dropped);
        Seen::Flushed { dropped }
    }

    // What the words show if no new flush is noticed.
    fn judge(&mut self, block: &Block, ask: u32, words: Words) -> Seen
        requires unnoticed { is_noticed block.now.shape (not (words.flush == self.old.flush)) words.rear words.front ≡ false }
        requires open { (self.old.shown ≡ None) × (self.old.shut ≡ None) }
        ensures seen { result ≡ look_at block.now.shape self.old.flush ask words.flush words.rear words.front }
        ensures kept { self.new ≡ (record self.old { flush = words.flush; shown = shown_by result; shut = shut_of result }) }
    {
        let Words { flush, rear, front } = words;
        self.flush = flush;
        let there = rear.wrapping_sub(front);
        if there > block.frames() {
            self.shut = Some((front, rear));
            return Seen::Shut { front, rear };
        }
        if rear == front {
            return Seen::Empty;
        }
        let count = ask.min(there);
        self.shown = Some(count);
        Seen::Frames { count }
    }

    /// Looks for up to `ask` frames, and notices a flush.
    ///
    /// A proxy that is shut answers Shut with the two words that shut it, and the flush word of that look, and makes no step. Otherwise it loads the flush word, rear and front, each in one step.
    ///
    /// Flushed exactly if the flush word differs from the one kept: that is kept, and all frames up to the rear seen are discarded, by one step more. Shut exactly if rear minus front, as a signed number, is below 0 or above the block's frames. Empty exactly if rear is front. Else Frames, with the lesser of `ask` and the frames that are there.
    ///
    /// On a positional block Shut comes first, and Flushed discards the frames up to the position of the flush, which may be none.
    pub fn look<L: Ledger>(&mut self, block: &Block, ask: u32, steps: &mut Steps<L>) -> Look
        requires ready { IsServerOf block.now self.old }
        requires some { 1 ≤ ask }
        ensures ready { IsServerOf block.now self.new }
        ensures looks { Looks self.old ask result self.new }
        ensures kept { (self.new.flush ≡ result.flush) × (self.new.shown ≡ shown_by result.seen) × (self.new.shut ≡ shut_of result.seen) × (self.new.consumed ≡ counted (self.old.consumed + dropped_of result.seen)) }
        ensures flushes { self.new.flushes ≡ flushes_after block.now.shape.wrap result.flush self.old.flushes result.seen }
        ensures within { WithinAsk ask result.seen }
        ensures frames { (self.new.pass.part.frames ≡ self.old.pass.part.frames) × (self.new.pass.has_hand ≡ self.old.pass.has_hand) }
        ensures steps { steps.new ≡ steps.old + look_steps self.old result.seen }
    {
        self.shown = None;
        if let Some((front, rear)) = self.shut {
            return Look {
                flush: self.flush,
                rear,
                seen: Seen::Shut { front, rear },
            };
        }
        let words = load_words(block, &mut self.pass, steps);
        self.front = words.front;
        let seen = if notices(block, self.flush, words) {
            self.discard(block, words, steps)
        } else {
            self.judge(block, ask, words)
        };
        Look {
            flush: words.flush,
            rear: words.rear,
            seen,
        }
    }
}
