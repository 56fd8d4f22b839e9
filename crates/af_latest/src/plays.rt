//! What each step on the table tells.
use crate::view::View;
use atomic_table::{Join, Play, Split};

pub(crate) struct SitWriter;

impl<T> Play<T, View<T>> for SitWriter {
    ghost use Rattle.af_latest.specs.Rule.{sat_writer};

    ghost then = { sat_writer };
}

pub(crate) struct SitReader;

impl<T> Play<T, View<T>> for SitReader {
    ghost use Rattle.af_latest.specs.Rule.{sat_reader};

    ghost then = { sat_reader };
}

pub(crate) struct Store;

impl<T> Play<T, View<T>> for Store {
    ghost use Rattle.af_latest.specs.Rule.{stored};

    ghost then = { stored };
}

pub(crate) struct Look;

impl<T> Play<T, View<T>> for Look {
    ghost use Rattle.af_latest.specs.Rule.{looked};

    ghost then = { looked };
}

pub(crate) struct Fetch;

impl<T> Play<T, View<T>> for Fetch {
    ghost use Rattle.af_latest.specs.Rule.{fetched};

    ghost then = { fetched };
}

/// Cuts the reader's part off.
pub(crate) struct Part;

impl<T> Split<View<T>> for Part {
    ghost use Rattle.std.specs.Prelude.{false};

    ghost left = { λ v. record v { reads = false } };

    ghost right = { λ v. record v { writes = false } };
}

/// Takes the reader's part in.
impl<T> Join<View<T>> for Part {
    ghost use Rattle.af_latest.specs.Rule.{spent};

    ghost both = { λ v w. record v { reads = w.reads; reading = w.reading } };

    ghost spent = { spent };
}

pub(crate) struct Meet;

impl<T> Play<T, View<T>> for Meet {
    ghost use Rattle.af_latest.specs.Rule.{met};

    ghost then = { met };
}
