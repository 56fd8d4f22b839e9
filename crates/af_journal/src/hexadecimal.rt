//! Hexadecimal digits are read. Most of a journal's text is such digits, so they are read in rows, of which the compiler makes many at once.
ghost use Rattle.std.specs.Prelude.{◌≡◌, ◌+◌, ◌*◌, ◌%◌, ◌^◌, ◌<◌, ◌≤◌, ℕ, ◌∷◌, [], true, length, slice_index, IfOk};
ghost use Rattle.std.specs.Int.{to_be_bytes, w32};
ghost use Rattle.std.specs.List.{list_all};
ghost use Rattle.af_base.specs.Sample.{IsFrame, packed_word};
ghost use Rattle.af_journal.specs.Hexadecimal.{AreSpelled, is_hex};
ghost use Rattle.af_journal.specs.Lines.{hex_byte, hex_digit};

use af_base::{Frame, FrameList, Memory};
use std::alloc::Global;

// Whether a byte is a lower-case hexadecimal digit.
fn is_digit(code: u8) -> bool
    ensures { result ≡ is_hex code }
{
    (code.wrapping_sub(b'0') < 10) | (code.wrapping_sub(b'a') < 6)
}

/// Whether all bytes are hexadecimal digits.
pub(crate) fn are_digits(bytes: &[u8]) -> bool
    ensures { result ≡ list_all is_hex bytes.now }
{
    let mut all = true;
    for byte in bytes {
        all &= is_digit(*byte);
    }
    all
}

// The number of a digit: a letter's lower four bits count from 1.
fn number_of(code: u8) -> u8
    requires { is_hex code ≡ true }
    ensures digit { hex_digit result ≡ code }
    ensures small { result < 16 }
{
    code % 16 + 9 * (code / 64)
}

// The bytes that so many pairs of digits spell, from a place on.
fn bytes_at<const COUNT: usize>(digits: &[u8], at: usize) -> [u8; COUNT]
    requires inside { at + 2 * COUNT ≤ length digits.now }
    requires digits { list_all is_hex digits.now ≡ true }
    ensures { (k : ℕ) → k < COUNT → hex_byte (slice_index result k) ≡ slice_index digits.now (at + 2 * k) ∷ slice_index digits.now (at + 2 * k + 1) ∷ [] }
{
    let mut bytes = [0; COUNT];
    for i in 0..COUNT {
        let high = number_of(digits[at + 2 * i]);
        let low = number_of(digits[at + 2 * i + 1]);
        bytes[i] = high * 16 + low;
    }
    bytes
}

// The frame whose word these bytes are, from a place on, the most significant first.
fn frame_at(bytes: &[u8], at: usize) -> Frame
    requires { at + 4 ≤ length bytes.now }
    ensures frame { IsFrame result }
    ensures small { packed_word result < 2 ^ 32 }
    ensures word { to_be_bytes w32 (packed_word result) ≡ slice_index bytes.now at ∷ slice_index bytes.now (at + 1) ∷ slice_index bytes.now (at + 2) ∷ slice_index bytes.now (at + 3) ∷ [] }
{
    Frame::unpack(u32::from_be_bytes([bytes[at], bytes[at + 1], bytes[at + 2], bytes[at + 3]]))
}

// Adds the frames whose words so many pairs of digits spell, from a place on.
fn add_frames<const COUNT: usize>(frames: &mut FrameList, digits: &[u8], at: usize)
    requires words { COUNT % 4 ≡ 0 }
    requires inside { at + 2 * COUNT ≤ length digits.now }
    requires digits { list_all is_hex digits.now ≡ true }
    requires spelled { AreSpelled at digits.now frames.old.items }
    requires room { at + 2 * COUNT ≤ 8 * frames.old.room }
    ensures spelled { AreSpelled (at + 2 * COUNT) digits.now frames.new.items }
    ensures room { frames.new.room ≡ frames.old.room }
{
    let bytes = bytes_at::<COUNT>(digits, at);
    for word in 0..COUNT / 4 {
        frames.push(frame_at(&bytes, 4 * word));
    }
}

/// The frames whose words some digits spell.
pub(crate) fn frames_of(alloc: Global, digits: &[u8]) -> Result<FrameList, Memory>
    requires words { length digits.now % 8 ≡ 0 }
    requires digits { list_all is_hex digits.now ≡ true }
    ensures { IfOk result (λ frames. AreSpelled (length digits.now) digits.now frames.items) }
{
    let count = digits.len() / 8;
    let rows = count / 8;
    let mut frames = FrameList::with_room(alloc, count)?;
    for row in 0..rows {
        add_frames::<32>(&mut frames, digits, 64 * row);
    }
    for word in 8 * rows..count {
        add_frames::<4>(&mut frames, digits, 8 * word);
    }
    Ok(frames)
}
