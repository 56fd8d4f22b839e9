//! How a call takes what a handle leads to, and puts it back.

use crate::answers::refused;
use crate::handle::Handle;
use crate::kept::Kept;
use crate::loose::Loose;
use af_ends::EndError;
use std::alloc::Global;
use std::mem::replace;

/// What a handle led to, if the handle was open. The handle is closed.
pub fn taken(alloc: Global, handle: &mut Handle) -> Option<Box<Kept, Global>> {
    let loose = replace(handle, Handle::closed()).into_loose(alloc)?;
    Some(loose.into_box())
}

/// Has the handle lead to this end. The end that the handle led to is closed.
pub fn put(alloc: Global, handle: &mut Handle, kept: Box<Kept, Global>) {
    let old = replace(handle, Handle::of(Loose::of(kept)));
    if let Some(loose) = old.into_loose(alloc) {
        close(loose.into_box());
    }
}

/// Closes an end. If it reads or plays, and the end that writes, supplies or sets was closed before it, the two meet.
pub fn close(kept: Box<Kept, Global>) {
    let mut kept = kept;
    match replace(&mut *kept, Kept::Nothing) {
        Kept::Nothing => {}
        Kept::Client(end) => end.close(),
        Kept::Server(end) => drop(end.close()),
        Kept::Capture(end) => end.close(),
        Kept::Listener(end) => drop(end.close()),
        Kept::Setter(end) => end.close(),
        Kept::Player(end) => drop(end.close()),
        Kept::Track(end) => drop(end),
        Kept::Normal(end) => drop(end),
        Kept::Fast(end) => drop(end),
    }
}

// A box with a value of any type, so that the proof need not walk through all that an end may be. Memory is the only refusal.
fn in_box<T: Drop>(alloc: Global, value: T) -> Result<Box<T, Global>, EndError> {
    match Box::new(alloc, value) {
        Ok(value) => Ok(value),
        Err(_) => Err(EndError::Memory),
    }
}

/// A box with an end. Memory is the only refusal.
pub fn boxed(alloc: Global, kept: Kept) -> Result<Box<Kept, Global>, EndError> {
    in_box(alloc, kept)
}

/// Two new ends, each in a box, or why there are none.
pub type Ends = Result<(Box<Kept, Global>, Box<Kept, Global>), EndError>;

/// Has two handles lead to two new ends, and answers 0. If the ends were refused, the handles stay as they are, and the answer is the number of the refusal.
pub fn put_both(alloc: Global, first: &mut Handle, second: &mut Handle, ends: Ends) -> i64 {
    match ends {
        Ok((one, other)) => {
            put(alloc, first, one);
            put(alloc, second, other);
            0
        }
        Err(error) => refused(error),
    }
}
