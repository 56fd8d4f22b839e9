//! How many of the frames that C hands over one call takes.
ghost use Rattle.std.specs.Prelude.{◌≡◌, length, min, take};

use af_base::Frame;

/// How many frames a call takes at most.
const MOST_FRAMES: usize = 1024;

/// The first of these frames, as many as a call takes.
pub fn first(frames: &[Frame]) -> &[Frame]
    ensures { result.now ≡ take (min (length frames.now) 1024) frames.now }
{
    &frames[..frames.len().min(MOST_FRAMES)]
}

/// The first of these places, as many as a call fills.
pub fn first_places(places: &mut [Frame]) -> &mut [Frame]
    ensures { length result.now ≡ min (length places.old) 1024 }
{
    let count = places.len().min(MOST_FRAMES);
    &mut places[..count]
}
