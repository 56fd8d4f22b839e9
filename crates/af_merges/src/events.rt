//! Three lists of events, as a search reads them.
ghost use Rattle.std.specs.Prelude.{◌≡◌, true};
ghost use Rattle.af_merges.specs.Rising.{rises_from};

use af_base::{ClientEvent, HandEvent, ServerEvent};

/// The three lists.
#[derive(Clone, Copy)]
pub(crate) struct Events<'a> {
    pub client: &'a [ClientEvent],
    pub server: &'a [ServerEvent],
    pub hand: &'a [HandEvent],
    /// Whether each Met is known to name no fewer client events than the Met before it.
    pub rises: bool,
    ghost told: { rises ≡ true → rises_from 0 hand.now ≡ true },
}
