//! How all ends of a mixer meet.
ghost use Rattle.std.specs.Prelude.{◌≡◌, ◌≢◌, ℕ, ◌<◌, length, slice_get, Some};
ghost use Rattle.af_base.specs.Log.{slots};
ghost use Rattle.af_cblk.specs.Sides.{client_made, hand_made};
ghost use Rattle.af_client.specs.Order.{IsInOrder as IsClientInOrder};
ghost use Rattle.af_fast.specs.Mixer.{IsInOrder as IsFastInOrder, IsLinked};
ghost use Rattle.af_normal.specs.Meeting.{AreClientsOf};
ghost use Rattle.af_normal.specs.Order.{IsInOrder as IsNormalInOrder};
ghost use Rattle.af_stateq.specs.Mutates.{at};
ghost use Rattle.af_engine.specs.Met.{ClientMet, EndsMet, MeetsAway, Met, TrackMet, item_at, proxies_of, slot_for, spot_of};
ghost use Rattle.af_engine.specs.Engines.{AreTogether};

use crate::ends::TrackEnds;
use af_base::{FastState, SLOTS, Steps};
use af_client::Client;
use af_fast::FastMixer;
use af_link::{Links, meet_flag};
use af_model::carries_item;
use af_normal::{NormalMixer, TrackHand};
use std::sync::ledger::Ledger;

/// The ends of the two mixers meet: those of the queue, of the report and of the pipe.
///
/// Each end learns what its other has done so far, and nothing else changes. The two lists of each object have a history.
pub fn meet_ends<L: Ledger>(
    normal: &mut NormalMixer,
    fast: &mut FastMixer,
    links: &Links<'_>,
    steps: &mut Steps<L>,
)
    requires normal { IsNormalInOrder links.now normal.old }
    requires fast { IsFastInOrder fast.old × IsLinked links.now fast.old }
    ensures normal { IsNormalInOrder links.now normal.new }
    ensures fast { IsFastInOrder fast.new × IsLinked links.now fast.new }
    ensures met { EndsMet normal.old normal.new fast.old fast.new }
    ensures same { proxies_of normal.new fast.new ≡ proxies_of normal.old fast.old }
{
    normal.meet_queue(links, fast.observer(), steps);
    normal.meet_ends(links, fast.pair(), steps);
}

// The slot in which a state carries the proxy of a track.
fn slot_in(state: &FastState, track: u32) -> Option<u32>
    ensures { result ≡ slot_for state.now track }
{
    for slot in 0..SLOTS {
        if carries_item(state, slot) && state.slots[slot].track == track {
            return Some(slot as u32);
        }
    }
    None
}

// The slot in which the fast mixer's observer holds the proxy of a track.
fn slot_held(fast: &mut FastMixer, track: u32) -> Option<u32>
    requires order { IsFastInOrder fast.old }
    ensures same { fast.new ≡ fast.old }
    ensures slot { result ≡ slot_for fast.old.observer.past.state track }
{
    let observer = fast.observer();
    let Some(state) = observer.current() else {
        return None;
    };
    slot_in(state, track)
}

// The client of a stream whose proxy isn't home meets the proxy and the hand if the observer holds the proxy, and else the hand.
fn meet_away<L: Ledger>(
    track: u32,
    fast: &mut FastMixer,
    hand: &mut TrackHand,
    stream: &mut Client,
    links: &Links<'_>,
    steps: &mut Steps<L>,
)
    requires fast { IsFastInOrder fast.old × IsLinked links.now fast.old }
    requires stream { (slice_get links.now.streams.now track ≡ Some (client_made stream.old.pass)) × IsClientInOrder stream.old }
    requires hand { hand_made hand.old ≡ client_made stream.old.pass }
    ensures fast { IsFastInOrder fast.new × IsLinked links.now fast.new }
    ensures stream { (client_made stream.new.pass ≡ client_made stream.old.pass) × IsClientInOrder stream.new }
    ensures hand { hand_made hand.new ≡ hand_made hand.old }
    ensures same { fast.new ≡ record fast.old { observer = record fast.old.observer { items = fast.new.observer.items } } }
    ensures met { let slot = slot_for fast.old.observer.past.state track in
        MeetsAway (client_made stream.old.pass) (item_at fast.old.observer.items slot) hand.old stream.old
        (item_at fast.new.observer.items slot) hand.new stream.new }
    ensures others { (k : ℕ) → slot_for fast.old.observer.past.state track ≢ Some k → at fast.new.observer.items k ≡ at fast.old.observer.items k }
{
    let Some(slot) = slot_held(fast, track) else {
        meet_flag(stream, hand.flag(), &links.streams[track as usize], steps);
        return;
    };
    fast.meet_held(links, slot, stream, hand.flag(), steps);
}

/// The client of a track meets the proxies of its two blocks: that of the commands, and that of the stream if it is home or the fast mixer holds it. A proxy on its way misses the meeting, and the client meets the track's hand alone.
///
/// Each learns what its other has done so far, and nothing else changes. The lists of each two that met have a history, if the client has not poked.
pub fn meet_track<L: Ledger>(
    track: u32,
    stream: &mut Client,
    command: &mut Client,
    normal: &mut NormalMixer,
    fast: &mut FastMixer,
    links: &Links<'_>,
    steps: &mut Steps<L>,
)
    requires clients { AreClientsOf links.now track stream.old command.old }
    requires track { track < length normal.old.tracks }
    requires normal { IsNormalInOrder links.now normal.old }
    requires fast { IsFastInOrder fast.old × IsLinked links.now fast.old }
    ensures clients { AreClientsOf links.now track stream.new command.new }
    ensures normal { IsNormalInOrder links.now normal.new }
    ensures fast { IsFastInOrder fast.new × IsLinked links.now fast.new }
    ensures same_normal { normal.new ≡ record normal.old { streams = normal.new.streams; commands = normal.new.commands; hands = normal.new.hands } }
    ensures same_fast { fast.new ≡ record fast.old { observer = record fast.old.observer { items = fast.new.observer.items } } }
    ensures met { let x = fast.old.observer.past.state in
        ClientMet (Unit {0}) (spot_of x (proxies_of normal.old fast.old) track) (spot_of x (proxies_of normal.new fast.new) track)
        stream.old command.old stream.new command.new }
    ensures others { let x = fast.old.observer.past.state in
        (i : ℕ) → i ≢ track → spot_of x (proxies_of normal.new fast.new) i ≡ spot_of x (proxies_of normal.old fast.old) i }
    ensures items { (k : ℕ) → slot_for fast.old.observer.past.state track ≢ Some k → at fast.new.observer.items k ≡ at fast.old.observer.items k }
{
    if normal.meet_client(links, track, stream, command, steps) {
        return;
    }
    let Some(hand) = normal.hand(track) else {
        unreachable!()
    };
    meet_away(track, fast, hand, stream, links, steps);
}

// The client of a track meets the proxies of its two blocks.
fn meet_client<L: Ledger>(
    ends: &mut TrackEnds,
    normal: &mut NormalMixer,
    fast: &mut FastMixer,
    links: &Links<'_>,
    steps: &mut Steps<L>,
)
    requires ends { AreClientsOf links.now ends.old.track ends.old.stream ends.old.command }
    requires track { ends.old.track < length normal.old.tracks }
    requires normal { IsNormalInOrder links.now normal.old }
    requires fast { IsFastInOrder fast.old × IsLinked links.now fast.old }
    ensures ends { AreClientsOf links.now ends.old.track ends.new.stream ends.new.command }
    ensures normal { IsNormalInOrder links.now normal.new }
    ensures fast { IsFastInOrder fast.new × IsLinked links.now fast.new }
    ensures same_normal { normal.new ≡ record normal.old { streams = normal.new.streams; commands = normal.new.commands; hands = normal.new.hands } }
    ensures same_fast { fast.new ≡ record fast.old { observer = record fast.old.observer { items = fast.new.observer.items } } }
    ensures met { let x = fast.old.observer.past.state in
        TrackMet (spot_of x (proxies_of normal.old fast.old) ends.old.track) (spot_of x (proxies_of normal.new fast.new) ends.old.track) ends.old ends.new }
    ensures others { let x = fast.old.observer.past.state in
        (i : ℕ) → i ≢ ends.old.track → spot_of x (proxies_of normal.new fast.new) i ≡ spot_of x (proxies_of normal.old fast.old) i }
    ensures items { (k : ℕ) → slot_for fast.old.observer.past.state ends.old.track ≢ Some k → at fast.new.observer.items k ≡ at fast.old.observer.items k }
{
    let track = ends.track;
    let TrackEnds {
        stream,
        command,
        ..
    } = ends;
    meet_track(track, stream, command, normal, fast, links, steps);
}

/// All ends of a mixer meet, while nobody else uses them: those of the two mixers, and then per track the client and the proxies of its two blocks.
///
/// Each learns what its other has done so far, and nothing else changes. The lists of each two that met have a history, if no client has poked.
pub fn meet_all<L: Ledger>(
    tracks: &mut [TrackEnds],
    normal: &mut NormalMixer,
    fast: &mut FastMixer,
    links: &Links<'_>,
    steps: &mut Steps<L>,
)
    requires { AreTogether links.now (record { tracks = tracks.old; normal = normal.old; fast = fast.old }) }
    ensures together { AreTogether links.now (record { tracks = tracks.new; normal = normal.new; fast = fast.new }) }
    ensures met { Met (record { tracks = tracks.old; normal = normal.old; fast = fast.old })
        (record { tracks = tracks.new; normal = normal.new; fast = fast.new }) }
{
    meet_ends(normal, fast, links, steps);
    for i in 0..tracks.len() {
        meet_client(&mut tracks[i], normal, fast, links, steps);
    }
}
