//! The two ends, and what they share.
ghost use Rattle.std.specs.Prelude.{◌≡◌, ℕ, ◌+◌, ◌<◌, ◌≤◌, ◌^◌, true, false, List, [], ◌∷◌, ◌++◌, length, All, IfOk};
ghost use Rattle.af_base.specs.declared.frame.Frame.{Frame};
ghost use Rattle.af_gain.specs.Sums.{no_sum};
ghost use Rattle.af_model.specs.NewestValue.{HasValueHistory};
ghost use Rattle.af_model.specs.declared.newest.WriterEvent.TheVariants as writes;
ghost use Rattle.af_model.specs.declared.newest.ReaderEvent.TheVariants as reads;
ghost use Rattle.af_latest.specs.Ends.{last_number, load_steps};
ghost use Rattle.af_latest.specs.Laws.{stores};
ghost use Rattle.af_static.specs.Calls.{Call, HasPlayed};
ghost use Rattle.af_static.specs.Ends.{IsPlayerOf};
ghost use Rattle.af_static.specs.Loops.{at_first, head_after, head_heard, is_valid, opening, output, shut_by, taken};
ghost use Rattle.af_static.specs.Numbers.{NumbersNeverFall};

use crate::head::{Head, first_head};
use crate::playing::roll;
use crate::setting::{Setting, opening_setting};
use af_base::{Frame, Gains, Memory, Steps};
use af_gain::Sum;
use af_latest::{Latest, Reader, Writer, latest, meet_latest};
use std::alloc::Global;
use std::marker::Model;
use std::sync::ledger::Ledger;

/// How many places a call may have.
const PLACES: usize = 1024;

/// What the two ends share: the buffer, which never changes, and the cell of the settings. Contracts see which cell it is, and the frames.
#[derive(Drop)]
pub struct Shared {
    cell: Latest<Setting>,
    buffer: Vec<Frame>,
}

impl Model for Shared {
    ghost use Rattle.std.specs.Prelude.{◌≤◌};
    ghost use Rattle.af_static.specs.Ends.{Kept};

    ghost Value = { Kept };

    ghost view = { λ s. record { cell = s.cell; frames = s.buffer.items } };
}

/// The client's end, which sets loops. Contracts see its cell and the list of its events.
#[derive(Drop)]
pub struct Setter {
    writer: Writer<Setting>,
    made: u64,
}

impl Model for Setter {
    ghost use Rattle.af_static.specs.Ends.{Sets};
    ghost use Rattle.af_static.specs.Numbers.{IsSetter};

    ghost Value = { Sets };

    ghost view = { λ s. record { cell = s.writer.cell; events = s.writer.events } };

    ghost invariant = { λ s. IsSetter s.writer s.made };
}

/// The end that plays. Contracts see its cell, the number of the buffer's frames, the list of its events, the setting that it saw last, and its head. It is shut if that setting is invalid.
#[derive(Drop)]
pub struct Player {
    reader: Reader<Setting>,
    size: usize,
    setting: Setting,
    head: Head,
    sums: Vec<Sum>,
}

impl Model for Player {
    ghost use Rattle.std.specs.Prelude.{◌≡◌, length};
    ghost use Rattle.af_static.specs.Ends.{Plays};
    ghost use Rattle.af_static.specs.Loops.{IsSound};

    ghost Value = { Plays };

    ghost view = { λ p. record { cell = p.reader.cell; size = p.size; events = p.reader.events; setting = p.setting; head = p.head } };

    ghost invariant = { λ p. IsSound p.size p.head × (length p.sums.items ≡ 1024) };
}

/// What a call played: the number of the setting that it used, 0 before any, the number of frames that it took, and the start, end and count of the setting that shut it.
#[derive(Clone, Copy, Debug, PartialEq, Eq)]
pub struct Unrolled {
    pub number: u64,
    pub filled: u32,
    pub shut: Option<(u32, u32, u32)>,
}

/// So many sums of 0.
fn no_sums(alloc: Global) -> Result<Vec<Sum>, Memory>
    ensures count { IfOk result (λ v. length v.items ≡ 1024) }
    ensures zero { IfOk result (λ v. All (λ sum. sum ≡ no_sum) v.items) }
{
    let mut sums = Vec::with_capacity(alloc, PLACES)?;
    sums.resize(PLACES, Sum { left: 0, right: 0 })?;
    Ok(sums)
}

/// A static buffer of 1 to 8192 frames, which are copied, with its two ends. Memory is its only refusal, and no other call takes memory.
pub fn make(alloc: Global, frames: &[Frame]) -> Result<(Shared, Setter, Player), Memory>
    requires { (1 ≤ length frames.now) × (length frames.now ≤ 8192) }
    ensures together { IfOk result (λ m. (m.1.cell ≡ m.0.cell) × IsPlayerOf m.0 m.2) }
    ensures frames { IfOk result (λ m. m.0.frames ≡ frames.now) }
    ensures lists { IfOk result (λ m. (m.1.events ≡ []) × (m.2.events ≡ [])) }
    ensures start { IfOk result (λ m. (m.2.setting ≡ opening) × (m.2.head ≡ at_first)) }
    ensures played { IfOk result (λ m. HasPlayed frames.now [] [] 0 m.2) }
{
    let buffer = frames.to_vec(alloc)?;
    let sums = no_sums(alloc)?;
    let setting = opening_setting();
    let (cell, writer, reader) = latest(alloc, setting)?;
    let player = Player {
        reader,
        size: frames.len(),
        setting,
        head: first_head(),
        sums,
    };
    Ok((Shared { cell, buffer }, Setter { writer, made: 0 }, player))
}

impl Setter {
    /// Sets the start, end and count of a loop, of whatever numbers, in place of those set before. It appends Store, in one step. The setting's number, from 1.
    pub fn set<L: Ledger>(
        &mut self,
        shared: &Shared,
        start: u32,
        end: u32,
        count: u32,
        steps: &mut Steps<L>,
    ) -> u64
        requires together { self.old.cell ≡ shared.now.cell }
        requires room { stores self.old.events < 2 ^ 63 }
        ensures together { self.new.cell ≡ self.old.cell }
        ensures list { self.new.events ≡ self.old.events ++ writes.Store (record { number = result; start = start; end = end; count = count }) ∷ [] }
        ensures number { (result ≡ stores self.old.events + 1) × (stores self.new.events ≡ result) }
        ensures steps { steps.new ≡ steps.old + 1 }
    {
        let number = self.made + 1;
        let setting = Setting {
            number,
            start,
            end,
            count,
        };
        self.writer.store(&shared.cell, &setting, steps);
        self.made = number;
        number
    }
}

impl Player {
    /// Loads the newest setting, unless the player is shut, and adopts it if it is new and valid.
    fn hear<L: Ledger>(&mut self, shared: &Shared, steps: &mut Steps<L>)
        requires { self.old.cell ≡ shared.now.cell }
        ensures together { (self.new.cell ≡ self.old.cell) × (self.new.size ≡ self.old.size) }
        ensures load { is_valid self.old.size self.old.setting ≡ true → (n : ℕ) × (self.new.events ≡ self.old.events ++ reads.Load n self.new.setting ∷ []) × (steps.new ≡ steps.old + load_steps (last_number 0 self.old.events) n) }
        ensures shut { is_valid self.old.size self.old.setting ≡ false → (self.new ≡ self.old) × (steps.new ≡ steps.old) }
        ensures head { self.new.head ≡ head_heard self.old.size self.old.setting self.old.head self.new.setting }
    {
        if self.setting.is_valid(self.size) {
            let setting = self.reader.load(&shared.cell, steps);
            self.head = self.head.heard(self.setting, setting, self.size);
            self.setting = setting;
        }
    }

    /// Plays by the setting that was seen last. How many frames were taken.
    fn play(&mut self, shared: &Shared, gains: Gains, out: &mut [Frame]) -> usize
        requires size { self.old.size ≡ length shared.now.frames }
        requires places { length out.old ≤ 1024 }
        ensures out { out.new ≡ output gains (taken shared.now.frames self.old.setting self.old.head (length out.old)) (length out.old) }
        ensures filled { result ≡ length (taken shared.now.frames self.old.setting self.old.head (length out.old)) }
        ensures head { self.new ≡ (record self.old { head = head_after self.old.size self.old.setting self.old.head (length out.old) }) }
        ensures short { result < length out.old → is_valid self.old.size self.old.setting ≡ true → self.new.head.position ≡ self.old.size }
        ensures most { result ≤ length out.old }
    {
        let valid = self.setting.is_valid(self.size);
        roll(
            &shared.buffer,
            valid,
            &mut self.head,
            gains,
            &mut self.sums,
            out,
        )
    }

    /// Plays the next frames of the buffer to 1 to 1024 places, by the newest setting: it loads once and appends Load with it.
    ///
    /// It takes one step, and one more if the setting is another than at the load before. An invalid setting shuts the player for good: it plays nothing, loads nothing and takes no step then.
    ///
    /// The outputs of all calls since the player was made, one after the other, are those of the settings that it loaded, in that order (`played`).
    pub fn mix_next<L: Ledger>(
        &mut self,
        shared: &Shared,
        gains: Gains,
        out: &mut [Frame],
        steps: &mut Steps<L>,
    ) -> Unrolled
        requires together { IsPlayerOf shared.now self.old }
        requires places { (1 ≤ length out.old) × (length out.old ≤ 1024) }
        ensures together { IsPlayerOf shared.now self.new }
        ensures load { is_valid self.old.size self.old.setting ≡ true → (n : ℕ) × (self.new.events ≡ self.old.events ++ reads.Load n self.new.setting ∷ []) × (steps.new ≡ steps.old + load_steps (last_number 0 self.old.events) n) }
        ensures shut { is_valid self.old.size self.old.setting ≡ false → (self.new ≡ self.old) × (steps.new ≡ steps.old) }
        ensures out { let head = head_heard self.old.size self.old.setting self.old.head self.new.setting in out.new ≡ output gains (taken shared.now.frames self.new.setting head (length out.old)) (length out.old) }
        ensures head { let head = head_heard self.old.size self.old.setting self.old.head self.new.setting in self.new.head ≡ head_after self.old.size self.new.setting head (length out.old) }
        ensures answer { let head = head_heard self.old.size self.old.setting self.old.head self.new.setting in result ≡ (record { number = self.new.setting.number; filled = length (taken shared.now.frames self.new.setting head (length out.old)); shut = shut_by self.old.size self.new.setting }) }
        ensures short { result.filled < length out.old → is_valid self.old.size self.new.setting ≡ true → self.new.head.position ≡ self.old.size }
        ensures played { (calls : List Call) (played : List Frame) (count : ℕ) → HasPlayed shared.now.frames calls played count self.old
            → let call : Call = record { setting = self.new.setting; gains = gains; places = length out.old } in HasPlayed shared.now.frames (calls ++ call ∷ []) (played ++ out.new) (count + result.filled) self.new }
    {
        self.hear(shared, steps);
        let filled = self.play(shared, gains, out);
        Unrolled {
            number: self.setting.number,
            filled: filled as u32,
            shut: self.setting.shut_by(self.size),
        }
    }
}

/// Each end learns that the other's list so far stands in the history before its own next event. It appends Learn to each list, in five steps.
///
/// Whatever the order in which their steps came, the two ends' lists have a history, before that and with these Learns: each load shows the last setting made before it, whole. No call uses an older one than a call before it, or than was learnt before it. What all calls have played stays as it was.
pub fn meet_static<L: Ledger>(
    shared: &Shared,
    setter: &mut Setter,
    player: &mut Player,
    steps: &mut Steps<L>,
)
    requires together { (setter.old.cell ≡ shared.now.cell) × (player.old.cell ≡ shared.now.cell) }
    ensures setter { (setter.new.cell ≡ setter.old.cell) × (setter.new.events ≡ setter.old.events ++ writes.Learn (length player.old.events) ∷ []) }
    ensures player { player.new ≡ (record player.old { events = player.old.events ++ reads.Learn (length setter.old.events) ∷ [] }) }
    ensures before { HasValueHistory opening setter.old.events player.old.events }
    ensures history { HasValueHistory opening setter.new.events player.new.events }
    ensures never_older { NumbersNeverFall setter.new.events 0 player.new.events }
    ensures played { (frames : List Frame) (calls : List Call) (played : List Frame) (count : ℕ) → HasPlayed frames calls played count player.old → HasPlayed frames calls played count player.new }
    ensures steps { steps.new ≡ steps.old + 5 }
{
    meet_latest(&shared.cell, &mut setter.writer, &mut player.reader, steps);
}
