//! How all parties of a session meet.
ghost use Rattle.std.specs.Prelude.{◌≡◌, ◌≢◌, ℕ, ◌<◌, length, Some};
ghost use Rattle.af_engine.specs.Met.{proxies_of, slot_for, spot_of};
ghost use Rattle.af_fast.specs.Mixer.{IsInOrder as IsFastInOrder, IsLinked};
ghost use Rattle.af_normal.specs.Meeting.{AreClientsOf};
ghost use Rattle.af_normal.specs.Order.{IsInOrder as IsNormalInOrder};
ghost use Rattle.af_stateq.specs.Mutates.{at};
ghost use Rattle.af_session.specs.Met.{Met, TrackMet};
ghost use Rattle.af_session.specs.Together.{AreTogether};

use af_base::Steps;
use af_engine::{meet_ends, meet_track};
use af_fast::FastMixer;
use af_link::Links;
use af_normal::NormalMixer;
use af_party::Party;
use std::sync::ledger::Ledger;

// The client of a track meets the proxies of its two blocks.
fn meet_party<L: Ledger>(
    party: &mut Party,
    normal: &mut NormalMixer,
    fast: &mut FastMixer,
    links: &Links<'_>,
    steps: &mut Steps<L>,
)
    requires party { AreClientsOf links.now party.old.track party.old.stream party.old.command }
    requires track { party.old.track < length normal.old.tracks }
    requires normal { IsNormalInOrder links.now normal.old }
    requires fast { IsFastInOrder fast.old × IsLinked links.now fast.old }
    ensures party { AreClientsOf links.now party.old.track party.new.stream party.new.command }
    ensures normal { IsNormalInOrder links.now normal.new }
    ensures fast { IsFastInOrder fast.new × IsLinked links.now fast.new }
    ensures same_normal { normal.new ≡ record normal.old { streams = normal.new.streams; commands = normal.new.commands; hands = normal.new.hands } }
    ensures same_fast { fast.new ≡ record fast.old { observer = record fast.old.observer { items = fast.new.observer.items } } }
    ensures met { let x = fast.old.observer.past.state in TrackMet (spot_of x (proxies_of normal.old fast.old) party.old.track)
        (spot_of x (proxies_of normal.new fast.new) party.old.track) party.old party.new }
    ensures others { let x = fast.old.observer.past.state in (i : ℕ) → i ≢ party.old.track
        → spot_of x (proxies_of normal.new fast.new) i ≡ spot_of x (proxies_of normal.old fast.old) i }
    ensures items { (k : ℕ) → slot_for fast.old.observer.past.state party.old.track ≢ Some k
        → at fast.new.observer.items k ≡ at fast.old.observer.items k }
{
    let track = party.track;
    let Party {
        stream,
        command,
        ..
    } = party;
    meet_track(track, stream, command, normal, fast, links, steps);
}

/// All parties meet, as after each round: the two mixers meet at the queue, at the report and at the pipe. Then, per track, the client of the command block and its proxy meet, and the client of the stream block and its proxy, if that is home or the fast mixer holds it. A proxy on its way misses the meeting, and the client meets the track's hand alone.
///
/// Each learns what its other has done so far, and nothing else changes. The lists of each two that met have a history, if no client has poked.
pub(crate) fn meet<L: Ledger>(
    clients: &mut [Party],
    normal: &mut NormalMixer,
    fast: &mut FastMixer,
    links: &Links<'_>,
    steps: &mut Steps<L>,
)
    requires { AreTogether links.now (record { clients = clients.old; normal = normal.old; fast = fast.old }) }
    ensures together { AreTogether links.now (record { clients = clients.new; normal = normal.new; fast = fast.new }) }
    ensures met { Met (record { clients = clients.old; normal = normal.old; fast = fast.old })
        (record { clients = clients.new; normal = normal.new; fast = fast.new }) }
{
    meet_ends(normal, fast, links, steps);
    for i in 0..clients.len() {
        meet_party(&mut clients[i], normal, fast, links, steps);
    }
}
