//! What each step on the table tells.
use crate::cell::Slot;
use crate::rule::Fits;
use crate::view::View;
use atomic_table::{Join, Play, Split};
use std::marker::PhantomData;

pub(crate) struct SitMutator;

impl<P, K> Play<Slot<P>, View<P, K>> for SitMutator {
    ghost use Rattle.af_stateq.specs.Shelved.{sat_mutator};

    ghost then = { sat_mutator };
}

pub(crate) struct SitObserver;

impl<P, K> Play<Slot<P>, View<P, K>> for SitObserver {
    ghost use Rattle.af_stateq.specs.Shelved.{sat_observer};

    ghost then = { sat_observer };
}

pub(crate) struct SeeAck<N> {
    fits: PhantomData<N>,
}

impl<P, N: Fits<P>> Play<Slot<P>, View<P, N::Key>> for SeeAck<N> {
    ghost use Rattle.af_stateq.specs.Shelved.{saw_ack};

    ghost then = { saw_ack N.fits };
}

pub(crate) struct Push;

impl<P, K> Play<Slot<P>, View<P, K>> for Push {
    ghost use Rattle.af_stateq.specs.Shelved.{pushed};

    ghost then = { pushed };
}

pub(crate) struct SeeNext<N> {
    fits: PhantomData<N>,
}

impl<P, N: Fits<P>> Play<Slot<P>, View<P, N::Key>> for SeeNext<N> {
    ghost use Rattle.af_stateq.specs.Shelved.{saw_next};

    ghost then = { saw_next N.fits };
}

pub(crate) struct Acknowledge;

impl<P, K> Play<Slot<P>, View<P, K>> for Acknowledge {
    ghost use Rattle.af_stateq.specs.Shelved.{acked};

    ghost then = { acked };
}

/// Cuts the observer's part off.
pub(crate) struct Part;

impl<P, K> Split<View<P, K>> for Part {
    ghost use Rattle.std.specs.Prelude.{false};

    ghost left = { λ v. record v { observes = false } };

    ghost right = { λ v. record v { mutates = false } };
}

/// Takes the observer's part in.
impl<P, K> Join<View<P, K>> for Part {
    ghost use Rattle.af_stateq.specs.Shelved.{spent};

    ghost both = { λ v w. record v { observes = w.observes; observing = w.observing } };

    ghost spent = { spent };
}

pub(crate) struct Meet;

impl<P, K> Play<Slot<P>, View<P, K>> for Meet {
    ghost use Rattle.af_stateq.specs.Shelved.{met};

    ghost then = { met };
}
