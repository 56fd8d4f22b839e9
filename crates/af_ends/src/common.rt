//! What two ends share.
ghost use Rattle.std.specs.Prelude.{◌≡◌, IfSome};

use crate::exclusive::Exclusive;
use counted_slot::{Counted, FREE, Fits, PRESENT, TAKEN};
use std::marker::Model;

/// What two ends share, and a place in which one of the two is left when it is closed. Contracts see what is shared.
#[derive(Drop)]
pub struct Common<X: Fits> {
    what: X::Tag,
    parked: Counted<Option<Exclusive<X>>>,
}

impl<X: Fits> Model for Common<X> {
    ghost use Rattle.std.specs.Prelude.{◌≡◌};

    ghost Value = { X.Tag };

    ghost view = { λ s. s.what };

    ghost invariant = { λ s. s.parked ≡ s.what };
}

impl<X: Fits + Drop> Common<X> {
    /// What is shared by two ends that are both open.
    pub fn new(what: X::Tag) -> Common<X>
        ensures { result ≡ what }
    {
        let parked = Counted::new(None, &what);
        Common { what, parked }
    }

    /// What both ends work on.
    pub fn what(&self) -> &X::Tag
        ensures { result.now ≡ self.now }
    {
        &self.what
    }

    /// Leaves an end in the place, unless an end is there.
    pub fn park(&self, end: X)
        requires { X.fits self.now end }
    {
        let (found, claim) = self.parked.turn(FREE, TAKEN);
        if found == FREE {
            claim.put(Some(Exclusive::new(end)), PRESENT);
        } else {
            claim.done();
        }
    }

    /// Takes the end that was left in the place, if there is one: it is an end of what is shared here.
    pub fn parked(&self) -> Option<X>
        ensures { IfSome result (λ end. X.fits self.now end) }
    {
        let (found, claim) = self.parked.turn(PRESENT, TAKEN);
        if found == PRESENT {
            Some(claim.put(None, FREE)?.into_inner())
        } else {
            claim.done();
            None
        }
    }
}
