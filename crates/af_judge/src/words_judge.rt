//! The words released on a block, and those taken.
ghost use Rattle.std.specs.Prelude.{◌≡◌, ◌∷◌, [], ◌+◌, ◌++◌, ◌↔◌, ◌<◌, ◌≤◌, ◌^◌, length, map, take, drop, slice_get, Some, All, IfSome, IsTrue, OnErr, OnOk};
ghost use Rattle.af_base.specs.Sample.{packed_word};
ghost use Rattle.af_judge.specs.declared.words_judge.Taken.{Taken as TakenSeen};
ghost use Rattle.af_judge.specs.Blocks.{IsReleased, IsRunOf, placed_from};

use crate::frame_words::{append, are_words};
use af_base::{Frame, Memory};
use std::alloc::Global;
use std::marker::Model;

/// A word that was taken, with its place among those released.
#[derive(Clone, Copy, Debug, PartialEq, Eq)]
pub struct Taken {
    pub at: u64,
    pub word: u32,
}

/// So many words, taken one after the other, that are those released from a place on.
#[derive(Clone, Copy, Debug, PartialEq, Eq)]
pub struct Run {
    pub at: usize,
    pub count: usize,
}

/// The words released and those taken. Words that were released when they were taken stand in runs, up to the first one that wasn't; from there on each stands by itself, and the first of these, so many, are known to be those released at their places.
#[derive(Drop)]
pub struct WordsJudge {
    released: Vec<u32>,
    runs: Vec<Run>,
    taken: Vec<Taken>,
    known: usize,
}

impl Model for WordsJudge {
    ghost use Rattle.std.specs.Prelude.{◌++◌};
    ghost use Rattle.af_judge.specs.Blocks.{AreWords, Words, runs_words};

    ghost Value = { Words };

    ghost view = { λ w. record { released = w.released.items; taken = runs_words w.released.items w.runs.items ++ w.taken.items } };

    ghost invariant = { λ w. AreWords w.released.items w.runs.items w.taken.items w.known };
}

// The word was released at its place.
fn is_released(released: &[u32], taken: Taken) -> bool
    ensures { IsTrue result ↔ IsReleased released.now taken }
{
    taken.at < released.len() as u64 && released[taken.at as usize] == taken.word
}

// The number of the first word taken that wasn't released at its place, or of all; so many are known.
#[tactic(auto, using(crate::proofs::Placed::known_more))]
fn unreleased(released: &[u32], taken: &[Taken], known: usize) -> usize
    requires few { known ≤ length taken.now }
    requires known { All (IsReleased released.now) (take known taken.now) }
    ensures within { result ≤ length taken.now }
    ensures known { All (IsReleased released.now) (take result taken.now) }
    ensures ends { (t : TakenSeen) → slice_get taken.now result ≡ Some t → IsReleased released.now t → ⊥ }
{
    for at in known..taken.len() {
        if !is_released(released, taken[at]) {
            return at;
        }
    }
    taken.len()
}

// The run of the words of these frames, from this place on; None if others were released there.
fn run_of(released: &[u32], at: u64, frames: &[Frame]) -> Option<Run>
    ensures { IfSome result (IsRunOf released.now at (map packed_word frames.now)) }
{
    let all = released.len() as u64;
    let count = frames.len();
    if at > all || count as u64 > all - at {
        return None;
    }
    let at = at as usize;
    if are_words(&released[at..at + count], frames) {
        Some(Run { at, count })
    } else {
        None
    }
}

impl WordsJudge {
    /// No words yet.
    pub fn new(alloc: Global) -> WordsJudge
        ensures { result ≡ record { released = []; taken = [] } }
    {
        WordsJudge {
            released: Vec::new(alloc),
            runs: Vec::new(alloc),
            taken: Vec::new(alloc),
            known: 0,
        }
    }

    /// How many words were released.
    pub fn released(&self) -> u64
        ensures count { result ≡ length self.now.released }
        ensures few { result < 2 ^ 63 }
    {
        self.released.len() as u64
    }

    /// A word is released.
    pub fn release(&mut self, word: u32) -> Result<(), Memory>
        ensures { OnOk result (self.new ≡ record self.old { released = self.old.released ++ word ∷ [] }) }
    {
        self.released.push(word)?;
        Ok(())
    }

    /// The words of these frames are released.
    pub fn release_frames(&mut self, frames: &[Frame]) -> Result<(), Memory>
        ensures { OnOk result (self.new ≡ record self.old { released = self.old.released ++ map packed_word frames.now }) }
    {
        append(&mut self.released, frames)?;
        Ok(())
    }

    /// A word is taken that was to be released at this place.
    pub fn take(&mut self, at: u64, word: u32) -> Result<(), Memory>
        ensures { OnOk result (self.new ≡ record self.old { taken = self.old.taken ++ record { at = at; word = word } ∷ [] }) }
    {
        self.taken.push(Taken { at, word })?;
        Ok(())
    }

    // The words of these frames are taken, from this place on, each by itself.
    #[tactic(auto, using(crate::proofs::Placed::placed_more))]
    fn take_each(&mut self, at: u64, frames: &[Frame]) -> Result<(), Memory>
        ensures { OnOk result (self.new ≡ record self.old { taken = self.old.taken ++ placed_from at (map packed_word frames.now) }) }
    {
        for (past, frame) in frames.iter().enumerate() {
            self.take(at.saturating_add(past as u64), frame.pack())?;
        }
        Ok(())
    }

    /// The words of these frames are taken, from this place on.
    pub fn take_frames(&mut self, at: u64, frames: &[Frame]) -> Result<(), Memory>
        ensures { OnOk result (self.new ≡ record self.old { taken = self.old.taken ++ placed_from at (map packed_word frames.now) }) }
    {
        if self.taken.is_empty()
            && let Some(run) = run_of(&self.released, at, frames)
        {
            self.runs.push(run)?;
            return Ok(());
        }
        self.take_each(at, frames)
    }

    /// Whether each word taken was released at its place.
    pub fn are_released(&mut self) -> bool
        ensures all { IsTrue result ↔ All (IsReleased self.new.released) self.new.taken }
        ensures same { self.new ≡ self.old }
    {
        let all = self.taken.len();
        let known = unreleased(&self.released, &self.taken, self.known);
        self.known = known;
        if known < all {
            return false;
        }
        true
    }
}
