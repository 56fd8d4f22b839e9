//! A value that no `&` reads.
ghost use Rattle.std.specs.Prelude.{◌≡◌};

use counted_slot::Fits;
use std::marker::Model;

/// A value that no `&` reads: it comes out by value alone. So threads may share this if the value may be sent to another thread.
///
/// Contracts see the value.
#[derive(Drop)]
pub struct Exclusive<X> {
    value: X,
}

impl<X> Model for Exclusive<X> {
    ghost use base.Fml.{ftrue};

    ghost Value = { X };

    ghost coded = { X.code };

    ghost view = { λ e. e.value };

    ghost also_owns = { λ _. ftrue };
}

impl<X: Fits> Fits for Exclusive<X> {
    type Tag = X::Tag;

    ghost fits = { λ tag value. X.fits tag value };
}

impl<X> Exclusive<X> {
    /// Keeps a value.
    pub fn new(value: X) -> Exclusive<X>
        ensures { result ≡ value }
    {
        Exclusive { value }
    }

    /// The value that was kept.
    pub fn into_inner(self) -> X
        ensures { result ≡ self }
    {
        let Exclusive { value } = self;
        value
    }
}

unsafe impl<X: Send> Send for Exclusive<X> {}

unsafe impl<X: Send> Sync for Exclusive<X> {}
