//! The lines of a text that are left to be read, one after the other.
ghost use Rattle.std.specs.Prelude.{◌≡◌, ◌++◌, ◌∷◌, [], ◌<◌, ◌≤◌, true, length, map, flat_map, All, Some, IfOk, IfSome};
ghost use Rattle.std.specs.List.{list_all};
ghost use Rattle.af_base.specs.Sample.{IsFrame, packed_word};
ghost use Rattle.af_journal.specs.Hexadecimal.{is_hex};
ghost use Rattle.af_journal.specs.Lines.{hex_word, numbers, words};
ghost use Rattle.af_journal.specs.Readings.{cut};
ghost use Rattle.af_model.specs.Numbers.{AreWords};
ghost use Rattle.af_journal.specs.Ranges.{IsLine};
ghost use Rattle.af_journal.specs.Taken.{Leaves};
ghost use Rattle.af_journal.specs.Texts.{words_after};

use crate::hexadecimal::{are_digits, frames_of};
use crate::line::Line;
use crate::line_reading::line_of;
use crate::reading::{cut_line, packed_of};
use af_base::{FrameList, Memory};
use std::alloc::{AllocError, AllocFailed, Global};

/// Why no journal was put together.
#[derive(Clone, Copy, Debug, PartialEq, Eq)]
pub(crate) enum Stop {
    /// A line stands where it may not. No text without a bad line has one.
    Order,
    /// Memory ran out.
    Memory,
}

impl From<Memory> for Stop {
    fn from(_: Memory) -> Self {
        Stop::Memory
    }
}

impl From<AllocError> for Stop {
    fn from(_: AllocError) -> Self {
        Stop::Memory
    }
}

impl<T: Drop> From<AllocFailed<T>> for Stop {
    fn from(_: AllocFailed<T>) -> Self {
        Stop::Memory
    }
}

/// What is left of a text.
#[derive(Clone, Copy)]
pub(crate) struct Left<'a> {
    pub rest: &'a [u8],
}

/// The line of numbers that stands first, and what follows it; None if none does.
pub(crate) fn next_line(bytes: &[u8]) -> Option<(Line, &[u8])>
    ensures line { IfSome result (λ r. Leaves bytes.now (numbers r.0 ∷ []) r.1.now) }
    ensures fits { IfSome result (λ r. IsLine r.0) }
    ensures shorter { IfSome result (λ r. length r.1.now < length bytes.now) }
{
    let (part, after) = cut_line(bytes)?;
    let line = line_of(part)?;
    Some((line, after))
}

/// The line of numbers that stands first, and what follows it, if it has this mark; None if it doesn't.
pub(crate) fn line_with(bytes: &[u8], mark: u8) -> Option<(Line, &[u8])>
    ensures line { IfSome result (λ r. Leaves bytes.now (numbers r.0 ∷ []) r.1.now) }
    ensures fits { IfSome result (λ r. IsLine r.0) }
    ensures shorter { IfSome result (λ r. length r.1.now < length bytes.now) }
{
    match bytes {
        [first, ..] if *first == mark => next_line(bytes),
        _ => None,
    }
}

// The words that digits spell, which are all of words.
fn words_of(alloc: Global, digits: &[u8]) -> Result<Vec<u32>, Stop>
    ensures digits { IfOk result (λ words. digits.now ≡ flat_map hex_word words.items) }
    ensures fits { IfOk result (λ words. AreWords words.items) }
{
    let mut words = Vec::new(alloc);
    let mut rest = digits;
    'words: while let [a, b, c, d, e, f, g, h, after @ ..] = rest {
        let Some(word) = packed_of(*a, *b, *c, *d, *e, *f, *g, *h) else {
            return Err(Stop::Order);
        };
        words.push(word)?;
        rest = after;
    }
    if rest.is_empty() {
        Ok(words)
    } else {
        Err(Stop::Order)
    }
}

// The digits of a line of words, which follow its mark and a space.
fn digits_of(part: &[u8]) -> Option<&[u8]>
    ensures { IfSome result (λ digits. part.now ≡ 104 ∷ 32 ∷ digits.now) }
{
    match part {
        [b'h', b' ', digits @ ..] => Some(digits),
        _ => None,
    }
}

/// The packed words of the line that stands first, so many.
pub(crate) fn read_words(alloc: Global, left: &mut Left<'_>, count: u32) -> Result<Vec<u32>, Stop>
    requires some { 1 ≤ count }
    ensures line { IfOk result (λ list. Leaves left.old.rest.now (words list.items ∷ []) left.new.rest.now) }
    ensures count { IfOk result (λ list. length list.items ≡ count) }
{
    let Some((part, after)) = cut_line(left.rest) else {
        return Err(Stop::Order);
    };
    let Some(digits) = digits_of(part) else {
        return Err(Stop::Order);
    };
    let words = words_of(alloc, digits)?;
    if words.len() != count as usize {
        return Err(Stop::Order);
    }
    left.rest = after;
    Ok(words)
}

// So many digits that stand first, and what follows their LF.
fn digits_first(bytes: &[u8], count: usize) -> Option<(&[u8], &[u8])>
    ensures digits { IfSome result (λ r. (list_all is_hex r.0.now ≡ true) × (length r.0.now ≡ count)) }
    ensures bytes { IfSome result (λ r. bytes.now ≡ r.0.now ++ 10 ∷ r.1.now) }
{
    if count > bytes.len() {
        return None;
    }
    let (digits, rest) = bytes.split_at(count);
    match rest {
        [b'\n', after @ ..] if are_digits(digits) => Some((digits, after)),
        _ => None,
    }
}

// The digits of the line of frames that stands first, so many, and what follows it. Its LF isn't searched for.
fn frame_digits(bytes: &[u8], count: usize) -> Option<(&[u8], &[u8])>
    ensures digits { IfSome result (λ r. (list_all is_hex r.0.now ≡ true) × (length r.0.now ≡ count)) }
    ensures line { IfSome result (λ r. cut bytes.now ≡ Some (104 ∷ 32 ∷ r.0.now, r.1.now)) }
{
    match bytes {
        [b'h', b' ', rest @ ..] => {
            let (digits, after) = digits_first(rest, count)?;
            Some((digits, after))
        }
        _ => None,
    }
}

/// The frames of a line of their own, so many; if none were taken there is no line.
pub(crate) fn read_frames(alloc: Global, left: &mut Left<'_>, count: u32) -> Result<FrameList, Stop>
    ensures lines { IfOk result (λ frames. Leaves left.old.rest.now (words_after (map packed_word frames.items)) left.new.rest.now) }
    ensures count { IfOk result (λ frames. length frames.items ≡ count) }
    ensures samples { IfOk result (λ frames. All IsFrame frames.items) }
{
    if count == 0 {
        return Ok(FrameList::with_room(alloc, 0)?);
    }
    let Some((digits, after)) = frame_digits(left.rest, 8 * count as usize) else {
        return Err(Stop::Order);
    };
    let frames = frames_of(alloc, digits)?;
    left.rest = after;
    Ok(frames)
}
