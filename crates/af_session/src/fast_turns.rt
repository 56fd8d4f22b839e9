//! A turn of the fast mixer, the bytes that it mixes, and what its tally notes.
ghost use Rattle.std.specs.Prelude.{◌≡◌, ℕ, ◌+◌, ◌-◌, ◌*◌, ◌<◌, ◌≤◌, ◌^◌, ◌++◌, false, true, length};
ghost use Rattle.af_base.specs.Log.{slots, entry_at};
ghost use Rattle.af_fast.specs.Mixer.{IsInOrder as IsFastInOrder, IsLinked};
ghost use Rattle.af_fast.specs.Mixing.{MixesOnce};
ghost use Rattle.af_model.specs.Cycles.{is_mixed};
ghost use Rattle.af_session.specs.FastTurns.{IsCycle, Turned};
ghost use Rattle.af_session.specs.Rooms.{CanCycle, CanMix, HasAdded, HasNotedOn, HasRoom, KeepsRoom, KeepsSizes};
ghost use Rattle.af_session.specs.Shown.{Follows, HasPlaces, frames_written};
ghost use Rattle.af_tally.specs.Sound.{IsWhole};
ghost use Rattle.af_runs.specs.Pcm.{written};
ghost use Rattle.af_tally.specs.Steps.{most_steps};
ghost use Rattle.af_tally.specs.Summaries.{Shown, with_entry, with_written};
ghost use Rattle.af_tally.specs.Tallies.{IsTally, Keeps, most_looks};
ghost use Rattle.af_session.specs.Together.{AreTogether};

use crate::meetings::meet;
use crate::room::Room;
use af_base::{Cycle, FastState, Frame, Items, Steps};
use af_fast::FastMixer;
use af_link::Links;
use af_normal::NormalMixer;
use af_party::Party;
use af_tally::{Tally, push_pcm};
use std::marker::Brand;
use std::sync::ledger::{Blank, Ledger};

/// Whether a cycle mixes.
pub fn is_mixed(cycle: Cycle) -> bool
    ensures { result ≡ is_mixed cycle }
{
    matches!(cycle, Cycle::Mixed)
}

// Appends the bytes of a buffer, if it was mixed.
fn push_written(cycle: Cycle, buffer: &[Frame], bytes: &mut Items<u8>)
    requires room { length bytes.old.items + 4 * length buffer.now ≤ bytes.old.room }
    ensures { bytes.new ≡ record bytes.old { items = bytes.old.items ++ written cycle buffer.now } }
{
    if is_mixed(cycle) {
        push_pcm(buffer, bytes);
    }
}

// The state that a fast mixer polled last, None if it polled none.
fn state_polled(fast: &mut FastMixer) -> Option<FastState>
    requires order { IsFastInOrder fast.old }
    ensures same { fast.new ≡ fast.old }
    ensures state { result ≡ fast.old.observer.current }
{
    let observer = fast.observer();
    observer.current().copied()
}

// Notes the frames of a buffer, if it was mixed.
fn note_written(kind: Cycle, buffer: &[Frame], tally: &mut Tally)
    ensures tally { (run : Shown) → IsTally run tally.old → IsTally (with_written run (frames_written kind buffer.now)) tally.new }
    ensures keeps { Keeps 0 0 tally.old tally.new }
{
    if is_mixed(kind) {
        tally.note_frames(buffer);
    }
}

// Notes the entry that was added last, with the state that it used and the steps that its cycle took.
fn note_last<L: Ledger>(fast: &mut FastMixer, tally: &mut Tally, steps: &Steps<L>)
    requires order { IsFastInOrder fast.old }
    requires some { 0 < length fast.old.log.entries }
    requires room { tally.old.looks + slots ≤ most_looks }
    requires cycles { tally.old.cycles < 2 ^ 32 }
    ensures same { fast.new ≡ fast.old }
    ensures tally { (run : Shown) → steps.now ≤ most_steps run.frames fast.old.observer.current → IsTally run tally.old → IsTally (with_entry run (record {
      entry = entry_at fast.old.log.entries (length fast.old.log.entries - 1);
      state = fast.old.observer.current;
    })) tally.new }
    ensures keeps { Keeps slots 1 tally.old tally.new }
{
    let state = state_polled(fast);
    let log = fast.log();
    let Some(entry) = log.entry(log.len() - 1) else {
        unreachable!()
    };
    tally.note_entry(entry, state.as_ref(), steps);
}

// The mix of a cycle, whose poll took two steps at most. The entry that it adds is noted, with the state that it used, the steps that the cycle took and the frames that it writes. If it adds no entry nothing is noted.
fn mix_noted<L: Ledger>(
    fast: &mut FastMixer,
    links: &Links<'_>,
    buffer: &mut [Frame],
    tally: &mut Tally,
    steps: &mut Steps<L>,
) -> Cycle
    requires linked { IsLinked links.now fast.old }
    requires order { IsFastInOrder fast.old }
    requires turn { fast.old.adopted ≡ true }
    requires buffer { length buffer.old ≡ fast.old.frames }
    requires whole { IsWhole fast.old.log }
    requires poll { steps.old ≤ 2 }
    requires places { (n : ℕ) × (tracks : ℕ) × (n ≤ 100000) × HasPlaces n tracks (length fast.old.log.entries) tally.old }
    ensures linked { IsLinked links.now fast.new }
    ensures order { IsFastInOrder fast.new }
    ensures turn { fast.new.adopted ≡ false }
    ensures sizes { (fast.new.frames ≡ fast.old.frames) × (fast.new.cycles ≡ fast.old.cycles) }
    ensures mixes { MixesOnce fast.old buffer.old result fast.new buffer.new }
    ensures length { length buffer.new ≡ length buffer.old }
    ensures tally { Follows fast.old fast.new tally.old tally.new }
    ensures places { (n tracks : ℕ) → HasPlaces n tracks (length fast.old.log.entries) tally.old
        → HasPlaces n tracks (length fast.new.log.entries) tally.new }
{
    let entries = fast.log().len();
    let cycle = fast.mix(links, buffer, steps);
    if fast.log().len() > entries {
        note_last(fast, tally, steps);
        note_written(cycle, buffer, tally);
    }
    cycle
}

/// The mix of a cycle, after its poll, which took two steps at most. The entry that it adds is noted, with the state that it used, the steps that the cycle took and the frames that it writes, and its bytes are appended to those in the room. If it adds no entry nothing is noted.
pub fn mix_in<L: Ledger>(
    fast: &mut FastMixer,
    links: &Links<'_>,
    room: &mut Room,
    steps: &mut Steps<L>,
) -> Cycle
    requires can { CanMix links.now fast.old }
    requires poll { steps.old ≤ 2 }
    requires room { HasRoom 1 fast.old room.old }
    ensures can { CanCycle links.now fast.new }
    ensures sizes { KeepsSizes fast.old fast.new }
    ensures mixes { MixesOnce fast.old room.old.buffer.items result fast.new room.new.buffer.items }
    ensures bytes { HasAdded room.old (written result room.new.buffer.items) room.new }
    ensures noted { HasNotedOn fast.old fast.new room.old.tally room.new.tally }
    ensures kept { KeepsRoom room.old room.new }
{
    let cycle = mix_noted(fast, links, &mut room.buffer, &mut room.tally, steps);
    push_written(cycle, &room.buffer, &mut room.bytes);
    cycle
}

// One cycle: a poll, the meetings of all parties, and the mix in the room. Its steps are counted by themselves, without those of the meetings.
fn fast_cycle<L: Ledger, C: Ledger>(
    blank: Blank,
    clients: &mut [Party],
    normal: &mut NormalMixer,
    fast: &mut FastMixer,
    links: &Links<'_>,
    room: &mut Room,
    steps: &mut Steps<L>,
) -> Cycle
    requires ledger { (blank.name ≡ C.name) × (blank.parts ≡ C.parts) × (0 < blank.parts) }
    requires together { AreTogether links.now (record { clients = clients.old; normal = normal.old; fast = fast.old }) }
    requires between { fast.old.adopted ≡ false }
    requires whole { IsWhole fast.old.log }
    requires room { HasRoom 1 fast.old room.old }
    ensures together { AreTogether links.now (record { clients = clients.new; normal = normal.new; fast = fast.new }) }
    ensures between { fast.new.adopted ≡ false }
    ensures cycle { IsCycle (record { clients = clients.old; normal = normal.old; fast = fast.old }) room.old.buffer.items result
        (record { clients = clients.new; normal = normal.new; fast = fast.new }) room.new.buffer.items }
    ensures bytes { HasAdded room.old (written result room.new.buffer.items) room.new }
    ensures noted { HasNotedOn fast.old fast.new room.old.tally room.new.tally }
    ensures kept { KeepsRoom room.old room.new }
{
    let mut taken = Steps::<C>::start(blank);
    fast.adopt(links, &mut taken);
    meet(clients, normal, fast, links, steps);
    mix_in(fast, links, room, &mut taken)
}

/// The fast mixer's turn: up to `count` cycles, in each of which all parties meet between the poll and the mix. The first cycle that mixes nothing is the last. The bytes of each mix are appended to those in the room, which has room for all of them, and the tally notes each entry and what it wrote. It takes no memory.
pub(crate) fn fast_turn<L: Ledger>(
    clients: &mut [Party],
    normal: &mut NormalMixer,
    fast: &mut FastMixer,
    links: &Links<'_>,
    count: u32,
    room: &mut Room,
    steps: &mut Steps<L>,
)
    requires together { AreTogether links.now (record { clients = clients.old; normal = normal.old; fast = fast.old }) }
    requires between { fast.old.adopted ≡ false }
    requires whole { IsWhole fast.old.log }
    requires room { HasRoom count fast.old room.old }
    ensures together { AreTogether links.now (record { clients = clients.new; normal = normal.new; fast = fast.new }) }
    ensures between { fast.new.adopted ≡ false }
    ensures sizes { KeepsSizes fast.old fast.new }
    ensures turned { Turned count (record { clients = clients.old; normal = normal.old; fast = fast.old })
        (record { clients = clients.new; normal = normal.new; fast = fast.new }) room.old.bytes room.new.bytes }
    ensures noted { HasNotedOn fast.old fast.new room.old.tally room.new.tally }
    ensures kept { KeepsRoom room.old room.new }
{
    for i in 0..count {
        let blank = Blank::new(1);
        let cycle = fast_cycle::<L, Brand>(blank, clients, normal, fast, links, room, steps);
        if !is_mixed(cycle) {
            return;
        }
    }
}
