//! The rounds of a session from first to last, and the file of what they mixed: the one loop of renders and plays.
ghost use Rattle.std.specs.Prelude.{◌≡◌, ◌⊎◌, ◌<◌, ◌≤◌, ◌++◌, ℕ, true, false, [], Some, length, List, OnErr, OnOk};
ghost use Rattle.af_io.specs.Causes.{HasCause};
ghost use Rattle.af_io.specs.Files.{LeavesFront, SetsFile};
ghost use Rattle.af_rendering.specs.Rendered.{Extends, Sends};
ghost use Rattle.af_rendering.specs.Rounds.{Asks, RoundPlayed};
ghost use Rattle.af_rendering.specs.Stages.{HasRoomToWait};
ghost use Rattle.af_session.specs.Rooms.{KeepsRoom};
ghost use Rattle.af_session.specs.Together.{SessionState};
ghost use Rattle.af_tally.specs.Sound.{pcm_of};
ghost use Rattle.af_tally.specs.Tallies.{Tallied};

use af_base::{Items, Memory};
use af_io::{Store, StoreError};
use af_session::{Parties, Room};
use std::marker::Brand;

// The most bytes that wait to go out while a round is played, for each frame of a cycle: those of three rounds of sixteen cycles.
const MOST_WAITING: usize = 192;

/// How it stands between two rounds: words of the proof, which a caller picks. `K` is what is kept of the rounds, beside the parties and the tally.
pub trait Playing<K> {
    /// The rounds that were kept brought the parties and the tally here.
    ghost between: { K → SessionState → Tallied → Type 0 };

    /// Some rounds brought the parties here, whether or not the last of them was kept.
    ghost came: { SessionState → Type 0 };

    /// One more round is to be played.
    ghost going: { K → SessionState → Type 0 };

    /// No round is to be played any more.
    ghost over: { K → SessionState → Type 0 };

    /// How many rounds come at most.
    ghost left: { K → SessionState → ℕ };
}

impl<K> Playing<K> for Brand {
    ghost between = { λ kept s tally. ℕ };

    ghost came = { λ s. ℕ };

    ghost going = { λ kept s. ℕ };

    ghost over = { λ kept s. ℕ };

    ghost left = { λ kept s. 0 };
}

// Adds the bytes to a file as one piece, if there are some.
fn send_out<S: Store>(store: &mut S, name: &str, bytes: &[u8]) -> Result<(), StoreError>
    ensures sent { S.told store.old → (out : List ℕ) → Extends result name.now out (out ++ bytes.now) (S.files store.old) (S.files store.new) }
    ensures tells { S.told store.old → S.told store.new }
    ensures cause { HasCause (S.faults store.old) (S.faults store.new) result }
{
    if bytes.is_empty() {
        return Ok(());
    }
    store.append(name, bytes)
}

// Adds the bytes that wait to what the file has of the sound. No byte waits any more.
fn send_waiting<S: Store>(
    store: &mut S,
    name: &str,
    bytes: &mut Items<u8>,
) -> Result<(), StoreError>
    ensures none { bytes.new ≡ record bytes.old { items = [] } }
    ensures sent { S.told store.old → Sends result name.now bytes.old.items bytes.new.items (S.files store.old) (S.files store.new) }
    ensures tells { S.told store.old → S.told store.new }
    ensures cause { HasCause (S.faults store.old) (S.faults store.new) result }
{
    let sent = send_out(store, name, bytes.as_slice());
    bytes.clear();
    sent
}

// Adds the bytes that wait to the file, if they are more than so many.
fn send_beyond<S: Store>(
    store: &mut S,
    name: &str,
    bytes: &mut Items<u8>,
    most: usize,
) -> Result<(), StoreError>
    ensures few { length bytes.new.items ≤ most }
    ensures room { bytes.new.room ≡ bytes.old.room }
    ensures all { (bytes.new.items ≡ bytes.old.items) ⊎ (bytes.new.items ≡ []) }
    ensures sent { S.told store.old → Sends result name.now bytes.old.items bytes.new.items (S.files store.old) (S.files store.new) }
    ensures tells { S.told store.old → S.told store.new }
    ensures cause { HasCause (S.faults store.old) (S.faults store.new) result }
{
    if bytes.as_slice().len() <= most {
        return Ok(());
    }
    send_waiting(store, name, bytes)
}

/// The file that gets the sound, by its name.
#[derive(Clone, Copy, Drop)]
pub struct Target<'a> {
    pub name: &'a str,
}

/// Makes the file, and plays rounds while `goes_on` says so. A round that answers Memory was played, but not kept. The bytes of a round wait behind those of the rounds before it, and all go out as one piece as soon as those of the next round might find no room; so the file is opened once in many rounds.
///
/// The rounds brought the parties where they are (`over`, `came`), and the file holds the sound of the fast mixer's log. After a fault of the store, or if an allocation was refused, no file has changed, or the file holds a front of that sound.
pub fn play_rounds<
    W: Playing<K>,
    K,
    D: Fn(&K, &Parties) -> bool,
    F: Fn(&mut K, &mut Parties, &mut Room) -> Result<(), Memory>,
    S: Store,
>(
    goes_on: &D,
    round: &F,
    kept: &mut K,
    parties: &mut Parties,
    room: &mut Room,
    store: &mut S,
    target: &Target<'_>,
) -> Result<(), StoreError>
    requires begins { W.between kept.old parties.old room.old.tally × W.came parties.old }
    requires asks { (k : _) (s : _) → Asks (W.between k.now s.now) (W.going k.now s.now) (W.over k.now s.now) (D.pre goes_on.now k s) (D.post goes_on.now k s) }
    requires plays { (k : _) (s : _) (r : _) → W.between k.now s.now r.now.tally → W.going k.now s.now → HasRoomToWait s.now r.now
        → F.pre round.now k s r × ((answer : _) (k' : _) (s' : _) (r' : _) → F.post round.now k s r answer k' s' r'
        → RoundPlayed (W.between k'.now s'.now) (W.came s'.now) (W.left k'.now s'.now < W.left k.now s.now) s.now s'.now r.now r'.now answer) }
    requires room { HasRoomToWait parties.old room.old × (room.old.bytes.items ≡ []) }
    requires silent { pcm_of parties.old.fast.frames parties.old.fast.log ≡ [] }
    ensures over { OnOk result (W.between kept.new parties.new room.new.tally × W.over kept.new parties.new) }
    ensures came { W.came parties.new }
    ensures sizes { KeepsRoom room.old room.new }
    ensures written { S.told store.old
        → OnOk result (SetsFile (S.files store.old) target.now.name.now (Some (pcm_of parties.old.fast.frames parties.new.fast.log)) (S.files store.new)) }
    ensures left { S.told store.old
        → OnErr result (LeavesFront (S.files store.old) target.now.name.now (pcm_of parties.old.fast.frames parties.new.fast.log) (S.files store.new)) }
    ensures tells { S.told store.old → S.told store.new }
    ensures cause { HasCause (S.faults store.old) (S.faults store.new) result }
{
    store.create(target.name)?;
    while goes_on(kept, parties) {
        round(kept, parties, room)?;
        let most = MOST_WAITING * room.buffer.len();
        send_beyond(store, target.name, &mut room.bytes, most)?;
    }
    send_waiting(store, target.name, &mut room.bytes)
}
