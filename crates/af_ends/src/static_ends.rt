//! The two ends of a static buffer, how they are made, and how they are closed.
ghost use Rattle.std.specs.Prelude.{◌≡◌, ℕ, ◌+◌, ◌^◌, ◌++◌, ◌<◌, ◌≤◌, IfOk, IfErr, List, length};
ghost use Rattle.af_base.specs.declared.frame.Frame.{Frame};
ghost use Rattle.af_latest.specs.Laws.{stores};
ghost use Rattle.af_static.specs.Calls.{Call, HasPlayed};
ghost use Rattle.af_static.specs.Ends.{IsPlayerOf};
ghost use Rattle.af_static.specs.Loops.{opening};
ghost use Rattle.af_static.specs.Numbers.{NumbersNeverFall};
ghost use Rattle.af_model.specs.NewestValue.{HasValueHistory};
ghost use Rattle.af_ends.specs.Refusals.{RefusesSize};
ghost use Rattle.af_ends.specs.Statics.{IsOpenedStatic, HasSet, Sets, HasMixed, Plays, StaticHasMet};

use crate::common::Common;
use crate::error::EndError;
use crate::record_ends::MOST_AT_ONCE;
use crate::stream::MOST_FRAMES;
use af_base::{Frame, Gains, Memory, Steps};
use af_static::{Player, Setter, Shared, Unrolled, make as make_static, meet_static};
use counted_slot::Fits;
use std::alloc::Global;
use std::marker::{Brand, Model};
use std::sync::Arc;
use std::sync::ledger::{Blank, Ledger};

/// How many settings are made at most.
const MOST_SETTINGS: u64 = 0x8000_0000_0000_0000;

/// The end of a static buffer that sets loops, once it is closed.
#[derive(Drop)]
pub struct ParkedSetter {
    pub(crate) setter: Setter,
}

impl Fits for ParkedSetter {
    ghost use Rattle.std.specs.Prelude.{◌≡◌};

    type Tag = Shared;

    ghost fits = { λ shared parked. parked.setter.cell ≡ shared.cell };
}

/// The end of a static buffer that sets loops, with a share of the buffer.
///
/// Contracts see the cell of the settings and the frames, and the end that does the work. No call takes memory or waits. It may be sent to another thread (`Send`).
#[derive(Drop)]
pub struct SetterEnd {
    pub(crate) buffer: Arc<Common<ParkedSetter>, Global>,
    pub(crate) setter: Setter,
    pub(crate) made: u64,
}

impl Model for SetterEnd {
    ghost use Rattle.std.specs.Prelude.{◌≡◌};
    ghost use Rattle.std.specs.Arc.{arc_value};
    ghost use Rattle.af_latest.specs.Laws.{stores};
    ghost use Rattle.af_ends.specs.Statics.{SetterEndState};

    ghost Value = { SetterEndState };

    ghost view = { λ e. record { shared = arc_value e.buffer; setter = e.setter } };

    ghost invariant = { λ e. (e.setter.cell ≡ (arc_value e.buffer).cell) × (stores e.setter.events ≡ e.made) };
}

/// The end of a static buffer that plays, with a share of the buffer.
///
/// Contracts see the cell of the settings and the frames, and the end that does the work. No call takes memory or waits. It may be sent to another thread (`Send`).
#[derive(Drop)]
pub struct PlayerEnd {
    pub(crate) buffer: Arc<Common<ParkedSetter>, Global>,
    pub(crate) player: Player,
}

impl Model for PlayerEnd {
    ghost use Rattle.std.specs.Arc.{arc_value};
    ghost use Rattle.af_static.specs.Ends.{IsPlayerOf};
    ghost use Rattle.af_ends.specs.Statics.{PlayerEndState};

    ghost Value = { PlayerEndState };

    ghost view = { λ e. record { shared = arc_value e.buffer; player = e.player } };

    ghost invariant = { λ e. IsPlayerOf (arc_value e.buffer) e.player };
}

// The two ends of a new static buffer.
fn make(alloc: Global, frames: &[Frame]) -> Result<(SetterEnd, PlayerEnd), Memory>
    requires { (1 ≤ length frames.now) × (length frames.now ≤ 8192) }
    ensures { IfOk result (λ r. IsOpenedStatic frames.now r.0 r.1) }
{
    let (shared, setter, player) = make_static(alloc, frames)?;
    let buffer = Arc::new(alloc, Common::new(shared))?;
    let theirs = Arc::try_clone(&buffer)?;
    let setter = SetterEnd {
        buffer,
        setter,
        made: 0,
    };
    let player = PlayerEnd {
        buffer: theirs,
        player,
    };
    Ok((setter, player))
}

/// Opens a static buffer of these frames, 1 to 8192, which are copied: its two ends, which have done nothing.
///
/// Argument exactly if the number of frames is outside that range. Memory if an allocation was refused.
pub fn open_static(alloc: Global, frames: &[Frame]) -> Result<(SetterEnd, PlayerEnd), EndError>
    ensures opened { IfOk result (λ r. IsOpenedStatic frames.now r.0 r.1) }
    ensures size { IfOk result (λ r. (1 ≤ length frames.now) × (length frames.now ≤ 8192)) }
    ensures refused { IfErr result (λ e. RefusesSize (length frames.now) e) }
{
    if frames.is_empty() || frames.len() > MOST_FRAMES as usize {
        return Err(EndError::Argument);
    }
    match make(alloc, frames) {
        Ok(ends) => Ok(ends),
        Err(Memory) => Err(EndError::Memory),
    }
}

// Makes one setting.
fn set_in<L: Ledger>(
    blank: Blank,
    shared: &Shared,
    setter: &mut Setter,
    numbers: (u32, u32, u32),
) -> u64
    requires ledger { (blank.name ≡ L.name) × (blank.parts ≡ L.parts) × (0 < blank.parts) }
    requires together { setter.old.cell ≡ shared.now.cell }
    requires room { stores setter.old.events < 2 ^ 63 }
    ensures set { HasSet setter.old numbers.0 numbers.1 numbers.2 result setter.new }
    ensures made { stores setter.new.events ≡ result }
{
    let mut steps = Steps::<L>::start(blank);
    setter.set(shared, numbers.0, numbers.1, numbers.2, &mut steps)
}

// Plays to the places of one call.
fn play_in<L: Ledger>(
    blank: Blank,
    shared: &Shared,
    player: &mut Player,
    gains: Gains,
    out: &mut [Frame],
) -> Unrolled
    requires ledger { (blank.name ≡ L.name) × (blank.parts ≡ L.parts) × (0 < blank.parts) }
    requires together { IsPlayerOf shared.now player.old }
    requires places { (1 ≤ length out.old) × (length out.old ≤ 1024) }
    ensures together { IsPlayerOf shared.now player.new }
    ensures mixed { HasMixed shared.now.frames gains player.old (length out.old) out.new result player.new }
{
    let mut steps = Steps::<L>::start(blank);
    player.mix_next(shared, gains, out, &mut steps)
}

// The two ends of a static buffer meet.
fn meet_in<L: Ledger>(blank: Blank, shared: &Shared, setter: &mut Setter, player: &mut Player)
    requires ledger { (blank.name ≡ L.name) × (blank.parts ≡ L.parts) × (0 < blank.parts) }
    requires together { (setter.old.cell ≡ shared.now.cell) × (player.old.cell ≡ shared.now.cell) }
    ensures met { StaticHasMet player.old (record { setter = setter.new; player = player.new }) }
    ensures history { HasValueHistory opening setter.new.events player.new.events }
    ensures never_older { NumbersNeverFall setter.new.events 0 player.new.events }
    ensures played { (frames : List Frame) (calls : List Call) (played : List Frame) (count : ℕ) → HasPlayed frames calls played count player.old → HasPlayed frames calls played count player.new }
{
    let mut steps = Steps::<L>::start(blank);
    meet_static(shared, setter, player, &mut steps);
}

impl SetterEnd {
    /// Sets the start, end (both in frames) and count of a loop, in place of those set before, and answers the setting's number, from 1. Any numbers are taken.
    ///
    /// Limit exactly if 2^63 settings were made before. No other refusal comes.
    pub fn set(&mut self, start: u32, end: u32, count: u32) -> Result<u64, EndError>
        ensures shared { self.new.shared ≡ self.old.shared }
        ensures answer { Sets self.old.setter start end count result self.new.setter }
    {
        if self.made >= MOST_SETTINGS {
            return Err(EndError::Limit);
        }
        let number = set_in::<Brand>(
            Blank::new(1),
            self.buffer.what(),
            &mut self.setter,
            (start, end, count),
        );
        self.made = number;
        Ok(number)
    }

    /// Closes the end that sets. Its list is left with the buffer, for the end that plays. No refusal comes.
    pub fn close(self) {
        let SetterEnd { buffer, setter, .. } = self;
        buffer.park(ParkedSetter { setter });
    }
}

impl PlayerEnd {
    /// Plays the next frames of the buffer to 1 to 1024 places, by the newest setting, at these gains. An invalid setting shuts the player for good, and the answer says so. A player that is shut plays silence.
    ///
    /// Argument exactly if there are no places, or more than 1024. No other refusal comes.
    pub fn play(&mut self, gains: Gains, out: &mut [Frame]) -> Result<Unrolled, EndError>
        ensures shared { self.new.shared ≡ self.old.shared }
        ensures answer { Plays self.old.shared.frames gains self.old.player out.old result out.new self.new.player }
    {
        if out.is_empty() || out.len() > MOST_AT_ONCE {
            return Err(EndError::Argument);
        }
        Ok(play_in::<Brand>(
            Blank::new(1),
            self.buffer.what(),
            &mut self.player,
            gains,
            out,
        ))
    }

    /// Closes the end that plays after the end that sets: the two meet, and the buffer is freed. If the end that sets isn't closed, the end that plays is given back as it is.
    ///
    /// Whatever the order in which the steps of the two came, their lists have a history: each call has used the last setting made before it, whole, and no older one than a call before it. What all calls have played stays as it was.
    pub fn close(self) -> Result<Played, PlayerEnd>
        ensures open { IfErr result (λ p. p ≡ self) }
        ensures met { IfOk result (λ m. StaticHasMet self.player m) }
        ensures history { IfOk result (λ m. HasValueHistory opening m.setter.events m.player.events) }
        ensures never_older { IfOk result (λ m. NumbersNeverFall m.setter.events 0 m.player.events) }
        ensures played { IfOk result (λ m. (frames : List Frame) (calls : List Call) (played : List Frame) (count : ℕ) → HasPlayed frames calls played count self.player → HasPlayed frames calls played count m.player) }
    {
        let Some(parked) = self.buffer.parked() else {
            return Err(self);
        };
        let PlayerEnd { buffer, mut player } = self;
        let mut setter = parked.setter;
        meet_in::<Brand>(Blank::new(1), buffer.what(), &mut setter, &mut player);
        Ok(Played { setter, player })
    }
}

/// A static buffer whose two ends were closed, and have met.
#[derive(Drop)]
pub struct Played {
    setter: Setter,
    player: Player,
}

impl Model for Played {
    ghost use Rattle.af_ends.specs.Statics.{PlayedState};

    ghost Value = { PlayedState };

    ghost view = { λ m. record { setter = m.setter; player = m.player } };
}
