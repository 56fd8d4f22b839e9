//! Both ends of a static buffer in one hand.
ghost use Rattle.std.specs.Prelude.{◌≡◌, ℕ, ◌+◌, ◌^◌, ◌<◌, ◌≤◌, IfOk, if◌then◌else◌, List, [], ◌∷◌, ◌++◌, length};
ghost use Rattle.af_base.specs.declared.frame.Frame.{Frame};
ghost use Rattle.af_latest.specs.Laws.{last_of, stores};
ghost use Rattle.af_static.specs.Calls.{Call, CallsPlay, Standing, standing_in};
ghost use Rattle.af_static.specs.Ends.{IsPlayerOf};
ghost use Rattle.af_static.specs.InStep.{IsInStep};
ghost use Rattle.af_static.specs.Loops.{at_first, head_after, head_heard, is_valid, opening, output, shut_by, taken};

use crate::ends::{Player, Setter, Shared, Unrolled, make, meet_static};
use af_base::{Frame, Gains, Memory, Steps};
use std::alloc::Global;
use std::marker::{Brand, Model};
use std::sync::ledger::{Blank, Ledger};

/// A static buffer whose two ends are in one hand. They meet after each call, so each call plays by the last setting made, until one shuts the player.
///
/// Contracts see the buffer's frames, how many settings were made and the last of them, the setting that the last call used, and the head.
#[derive(Drop)]
pub struct InHand {
    shared: Shared,
    setter: Setter,
    player: Player,
}

impl Model for InHand {
    ghost use Rattle.af_static.specs.InStep.{HandState, IsInStep, hand_of};

    ghost Value = { HandState };

    ghost view = { λ h. hand_of h.shared h.setter h.player };

    ghost invariant = { λ h. IsInStep h.shared h.setter h.player };
}

/// A first meeting of two ends that have done nothing.
fn meet_first<L: Ledger>(blank: Blank, shared: &Shared, setter: &mut Setter, player: &mut Player)
    requires ledger { (blank.name ≡ L.name) × (blank.parts ≡ L.parts) × (0 < blank.parts) }
    requires together { (setter.old.cell ≡ shared.now.cell) × IsPlayerOf shared.now player.old }
    ensures step { IsInStep shared.now setter.new player.new }
    ensures newest { (last_of opening setter.new.events ≡ last_of opening setter.old.events) × (stores setter.new.events ≡ stores setter.old.events) }
    ensures player { (player.new.setting ≡ player.old.setting) × (player.new.head ≡ player.old.head) }
{
    let mut steps = Steps::<L>::start(blank);
    meet_static(shared, setter, player, &mut steps);
}

/// A setting, and the meeting behind it.
fn set_met<L: Ledger>(
    blank: Blank,
    shared: &Shared,
    setter: &mut Setter,
    player: &mut Player,
    numbers: (u32, u32, u32),
) -> u64
    requires ledger { (blank.name ≡ L.name) × (blank.parts ≡ L.parts) × (0 < blank.parts) }
    requires step { IsInStep shared.now setter.old player.old }
    requires room { stores setter.old.events < 2 ^ 63 }
    ensures step { IsInStep shared.now setter.new player.new }
    ensures number { (result ≡ stores setter.old.events + 1) × (stores setter.new.events ≡ result) }
    ensures newest { last_of opening setter.new.events ≡ (record { number = result; start = numbers.0; end = numbers.1; count = numbers.2 }) }
    ensures player { (player.new.setting ≡ player.old.setting) × (player.new.head ≡ player.old.head) }
{
    let mut steps = Steps::<L>::start(blank);
    let number = setter.set(shared, numbers.0, numbers.1, numbers.2, &mut steps);
    meet_static(shared, setter, player, &mut steps);
    number
}

/// A call that plays, and the meeting behind it.
fn play_met<L: Ledger>(
    blank: Blank,
    shared: &Shared,
    setter: &mut Setter,
    player: &mut Player,
    gains: Gains,
    out: &mut [Frame],
) -> Unrolled
    requires ledger { (blank.name ≡ L.name) × (blank.parts ≡ L.parts) × (0 < blank.parts) }
    requires step { IsInStep shared.now setter.old player.old }
    requires places { (1 ≤ length out.old) × (length out.old ≤ 1024) }
    ensures step { IsInStep shared.now setter.new player.new }
    ensures newest { (last_of opening setter.new.events ≡ last_of opening setter.old.events) × (stores setter.new.events ≡ stores setter.old.events) }
    ensures used { player.new.setting ≡ (if is_valid (length shared.now.frames) player.old.setting then last_of opening setter.old.events else player.old.setting) }
    ensures out { let head = head_heard (length shared.now.frames) player.old.setting player.old.head player.new.setting in out.new ≡ output gains (taken shared.now.frames player.new.setting head (length out.old)) (length out.old) }
    ensures head { let head = head_heard (length shared.now.frames) player.old.setting player.old.head player.new.setting in player.new.head ≡ head_after (length shared.now.frames) player.new.setting head (length out.old) }
    ensures answer { let head = head_heard (length shared.now.frames) player.old.setting player.old.head player.new.setting in result ≡ (record { number = player.new.setting.number; filled = length (taken shared.now.frames player.new.setting head (length out.old)); shut = shut_by (length shared.now.frames) player.new.setting }) }
{
    let mut steps = Steps::<L>::start(blank);
    let unrolled = player.mix_next(shared, gains, out, &mut steps);
    meet_static(shared, setter, player, &mut steps);
    unrolled
}

impl InHand {
    /// A static buffer of 1 to 8192 frames, which are copied. Memory is its only refusal, and no other call takes memory.
    pub fn make(alloc: Global, frames: &[Frame]) -> Result<InHand, Memory>
        requires { (1 ≤ length frames.now) × (length frames.now ≤ 8192) }
        ensures { IfOk result (λ h. h ≡ (record { frames = frames.now; made = 0; newest = opening; used = opening; head = at_first })) }
    {
        let (shared, mut setter, mut player) = make(alloc, frames)?;
        meet_first::<Brand>(Blank::new(1), &shared, &mut setter, &mut player);
        Ok(InHand {
            shared,
            setter,
            player,
        })
    }

    /// Sets the start, end and count of a loop, of whatever numbers. The setting's number, from 1.
    pub fn set(&mut self, start: u32, end: u32, count: u32) -> u64
        requires { self.old.made < 2 ^ 63 }
        ensures number { result ≡ self.old.made + 1 }
        ensures state { self.new ≡ (record self.old { made = result; newest = record { number = result; start = start; end = end; count = count } }) }
    {
        set_met::<Brand>(
            Blank::new(1),
            &self.shared,
            &mut self.setter,
            &mut self.player,
            (start, end, count),
        )
    }

    /// Plays the next frames of the buffer to 1 to 1024 places, by the last setting made. An invalid setting shuts the player for good.
    ///
    /// The outputs of calls, one after the other, are those of the settings that they found (`played`).
    pub fn play(&mut self, gains: Gains, out: &mut [Frame]) -> Unrolled
        requires { (1 ≤ length out.old) × (length out.old ≤ 1024) }
        ensures used { self.new.used ≡ (if is_valid (length self.old.frames) self.old.used then self.old.newest else self.old.used) }
        ensures out { let head = head_heard (length self.old.frames) self.old.used self.old.head self.new.used in out.new ≡ output gains (taken self.old.frames self.new.used head (length out.old)) (length out.old) }
        ensures head { let head = head_heard (length self.old.frames) self.old.used self.old.head self.new.used in self.new.head ≡ head_after (length self.old.frames) self.new.used head (length out.old) }
        ensures answer { let head = head_heard (length self.old.frames) self.old.used self.old.head self.new.used in result ≡ (record { number = self.new.used.number; filled = length (taken self.old.frames self.new.used head (length out.old)); shut = shut_by (length self.old.frames) self.new.used }) }
        ensures rest { (self.new.frames ≡ self.old.frames) × (self.new.made ≡ self.old.made) × (self.new.newest ≡ self.old.newest) }
        ensures played { (first : Standing) (calls : List Call) (played : List Frame) (count : ℕ) → CallsPlay self.old.frames first calls played count (standing_in self.old)
            → let call : Call = record { setting = self.old.newest; gains = gains; places = length out.old } in CallsPlay self.old.frames first (calls ++ call ∷ []) (played ++ out.new) (count + result.filled) (standing_in self.new) }
    {
        play_met::<Brand>(
            Blank::new(1),
            &self.shared,
            &mut self.setter,
            &mut self.player,
            gains,
            out,
        )
    }
}
