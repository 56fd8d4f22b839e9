//! What each step says to the seat that makes it: one play for each kind of step.
ghost use Rattle.af_cblk.specs.Plays.{ClientSeesFront as front_seen_by_client, CellIsStored as cell_is_stored, RearIsStored as rear_is_stored, ClientSeesFlags as flags_seen, ClientSeesStatus as status_seen, Flushes as flushes, GainIsStored as gain_is_stored, FlagsAreCleared as flags_are_cleared, Pokes as pokes, SeesFlush as flush_seen, SeesRear as rear_seen, ServerSeesFront as front_seen_by_server, SeesCell as cell_seen, FrontIsStored as front_is_stored, SeesGain as gain_seen, Tallies as tallies, FlagsAreSet as flags_are_set, StatusIsStored as status_is_stored, HandSets as hand_sets, ClientLearns as client_learns, ServerLearns as server_learns, HandMeets as hand_meets, HandRecalls as hand_recalls};
ghost use Rattle.af_cblk.specs.Rule.{nobody, without_client, client_alone, and_client, without_hand, hand_alone, and_hand};

use crate::view::View;
use atomic_table::{Join, Play, Split};

pub(crate) struct ClientSeesFront;

impl Play<(), View> for ClientSeesFront {
    ghost then = { front_seen_by_client };
}

pub(crate) struct CellIsStored;

impl Play<(), View> for CellIsStored {
    ghost then = { cell_is_stored };
}

pub(crate) struct RearIsStored;

impl Play<(), View> for RearIsStored {
    ghost then = { rear_is_stored };
}

pub(crate) struct ClientSeesFlags;

impl Play<(), View> for ClientSeesFlags {
    ghost then = { flags_seen };
}

pub(crate) struct ClientSeesStatus;

impl Play<(), View> for ClientSeesStatus {
    ghost then = { status_seen };
}

pub(crate) struct Flushes;

impl Play<(), View> for Flushes {
    ghost then = { flushes };
}

pub(crate) struct GainIsStored;

impl Play<(), View> for GainIsStored {
    ghost then = { gain_is_stored };
}

pub(crate) struct FlagsAreCleared;

impl Play<(), View> for FlagsAreCleared {
    ghost then = { flags_are_cleared };
}

pub(crate) struct Pokes;

impl Play<(), View> for Pokes {
    ghost then = { pokes };
}

pub(crate) struct SeesFlush;

impl Play<(), View> for SeesFlush {
    ghost then = { flush_seen };
}

pub(crate) struct SeesRear;

impl Play<(), View> for SeesRear {
    ghost then = { rear_seen };
}

pub(crate) struct ServerSeesFront;

impl Play<(), View> for ServerSeesFront {
    ghost then = { front_seen_by_server };
}

pub(crate) struct SeesCell;

impl Play<(), View> for SeesCell {
    ghost then = { cell_seen };
}

pub(crate) struct FrontIsStored;

impl Play<(), View> for FrontIsStored {
    ghost then = { front_is_stored };
}

pub(crate) struct SeesGain;

impl Play<(), View> for SeesGain {
    ghost then = { gain_seen };
}

pub(crate) struct Tallies;

impl Play<(), View> for Tallies {
    ghost then = { tallies };
}

pub(crate) struct FlagsAreSet;

impl Play<(), View> for FlagsAreSet {
    ghost then = { flags_are_set };
}

pub(crate) struct StatusIsStored;

impl Play<(), View> for StatusIsStored {
    ghost then = { status_is_stored };
}

pub(crate) struct HandSets;

impl Play<(), View> for HandSets {
    ghost then = { hand_sets };
}

pub(crate) struct ClientLearns;

impl Play<(), View> for ClientLearns {
    ghost then = { client_learns };
}

pub(crate) struct ServerLearns;

impl Play<(), View> for ServerLearns {
    ghost then = { server_learns };
}

pub(crate) struct HandMeets;

impl Play<(), View> for HandMeets {
    ghost then = { hand_meets };
}

pub(crate) struct HandRecalls;

impl Play<(), View> for HandRecalls {
    ghost then = { hand_recalls };
}

// The client's part goes to a seat of its own, and comes from one.
pub(crate) struct ClientMoves;

impl Split<View> for ClientMoves {
    ghost left = { without_client };

    ghost right = { client_alone };
}

impl Join<View> for ClientMoves {
    ghost both = { and_client };

    ghost spent = { nobody };
}

// The hand's part goes to a seat of its own, and comes from one.
pub(crate) struct HandMoves;

impl Split<View> for HandMoves {
    ghost left = { without_hand };

    ghost right = { hand_alone };
}

impl Join<View> for HandMoves {
    ghost both = { and_hand };

    ghost spent = { nobody };
}
