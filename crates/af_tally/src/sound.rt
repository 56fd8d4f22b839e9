//! The bytes of frames.
ghost use Rattle.std.specs.Prelude.{◌≡◌, ◌+◌, ◌*◌, ◌≤◌, ◌++◌, length};
ghost use Rattle.af_base.specs.Sample.{frame_bytes, pcm_bytes, sample_bytes};

use af_base::{Frame, Items};

// Appends the two bytes of a sample.
fn push_sample(sample: i16, bytes: &mut Items<u8>)
    requires room { length bytes.old.items + 2 ≤ bytes.old.room }
    ensures { bytes.new ≡ record bytes.old { items = bytes.old.items ++ sample_bytes sample } }
{
    let [low, high] = sample.cast_unsigned().to_le_bytes();
    bytes.push(low);
    bytes.push(high);
}

// Appends the four bytes of a frame.
fn push_frame(frame: Frame, bytes: &mut Items<u8>)
    requires room { length bytes.old.items + 4 ≤ bytes.old.room }
    ensures { bytes.new ≡ record bytes.old { items = bytes.old.items ++ frame_bytes frame } }
{
    push_sample(frame.left, bytes);
    push_sample(frame.right, bytes);
}

/// Appends the four bytes of each frame, for which there is room. It takes no memory.
pub fn push_pcm(frames: &[Frame], bytes: &mut Items<u8>)
    requires room { length bytes.old.items + 4 * length frames.now ≤ bytes.old.room }
    ensures { bytes.new ≡ record bytes.old { items = bytes.old.items ++ pcm_bytes frames.now } }
{
    for frame in frames {
        push_frame(*frame, bytes);
    }
}
