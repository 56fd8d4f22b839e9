//! A journal is read.
ghost use Rattle.std.specs.Prelude.{◌≡◌, ◌≢◌, ◌==◌, ◌+◌, ◌*◌, ◌<◌, ◌≤◌, ◌^◌, ℕ, length, slice_index, IfNone, IfSome, Some};
ghost use Rattle.std.specs.List.{list_any};
ghost use Rattle.std.specs.Option.{option_map};
ghost use Rattle.af_journal.specs.declared.stage.Stage.TheVariants.{Nothing};
ghost use Rattle.af_journal.specs.LineReading.{byte_at, hex_at, packed_at, words_after_mark, words_at};
ghost use Rattle.af_journal.specs.Readings.{HasReading, IsFirstBad, cut, ends, first_refused, parts_of, stage_after};

use crate::hexadecimal::are_digits;
use crate::line_reading::marked_of;
use crate::stage::{Stage, after_line, after_words, may_end};
use af_script::Script;

// A lower-case hexadecimal digit.
fn hex_of(code: u8) -> Option<u8>
    ensures value { result ≡ hex_at code }
    ensures small { IfSome result (λ d. d < 16) }
{
    let is_digit = code.wrapping_sub(b'0') < 10;
    let is_letter = code.wrapping_sub(b'a') < 6;
    if is_digit | is_letter {
        // a letter's lower four bits count from 1
        Some(code % 16 + 9 * (code / 64))
    } else {
        None
    }
}

// The byte of two digits.
#[tactic(auto, unfolding(crate::specs::LineReading::byte_at))]
fn byte_of(high: u8, low: u8) -> Option<u8>
    ensures { result ≡ byte_at high low }
{
    let high = hex_of(high)?;
    let low = hex_of(low)?;
    Some(high * 16 + low)
}

// The word of eight digits.
#[tactic(auto, unfolding(crate::specs::LineReading::packed_at))]
pub(crate) fn packed_of(a: u8, b: u8, c: u8, d: u8, e: u8, f: u8, g: u8, h: u8) -> Option<u32>
    ensures { result ≡ packed_at a b c d e f g h }
{
    let first = byte_of(a, b)?;
    let second = byte_of(c, d)?;
    let third = byte_of(e, f)?;
    let fourth = byte_of(g, h)?;
    Some(u32::from_be_bytes([first, second, third, fourth]))
}

// How many words these digits spell.
#[tactic(auto, using(crate::proofs::Spelling::count_some, crate::proofs::Spelling::count_other, crate::proofs::Spelling::count_part))]
fn count_words(digits: &[u8]) -> Option<usize>
    ensures { result ≡ option_map length (words_at digits.now) }
{
    if digits.len() % 8 != 0 {
        return None;
    }
    if are_digits(digits) {
        Some(digits.len() / 8)
    } else {
        None
    }
}

// How many words stand after a space, one at least.
#[tactic(auto, unfolding(crate::specs::LineReading::words_after_mark))]
fn words_of(rest: &[u8]) -> Option<usize>
    ensures { result ≡ option_map length (words_after_mark rest.now) }
{
    let (space, digits) = rest.split_first()?;
    if *space != b' ' {
        return None;
    }
    let count = count_words(digits)?;
    if count == 0 { None } else { Some(count) }
}

// The stage after a line of bytes; None if it may not come.
#[tactic(auto, unfolding(crate::specs::Readings::stage_after))]
fn stage_of(tracks: u32, stage: Stage, part: &[u8]) -> Option<Stage>
    ensures { result ≡ stage_after tracks stage part.now }
{
    let (mark, rest) = part.split_first()?;
    if *mark == b'h' {
        let count = words_of(rest)?;
        after_words(stage, count)
    } else {
        let line = marked_of(*mark, rest)?;
        after_line(tracks, stage, line)
    }
}

// Whether an LF stands among some bytes.
fn has_lf(bytes: &[u8]) -> bool
    ensures { result ≡ list_any (λ b. b == 10) bytes.now }
{
    let mut found = false;
    for byte in bytes {
        found |= *byte == b'\n';
    }
    found
}

// The place of the first LF, or the end if there is none. The compiler looks at sixteen bytes at once.
fn line_end(bytes: &[u8]) -> usize
    ensures inside { result ≤ length bytes.now }
    ensures before { (k : ℕ) → k < result → slice_index bytes.now k ≢ 10 }
    ensures here { result < length bytes.now → slice_index bytes.now result ≡ 10 }
{
    let mut at = 0usize;
    'blocks: while bytes.len() - at >= 16 && !has_lf(&bytes[at..at + 16]) {
        at += 16;
    }
    'bytes: while at < bytes.len() && bytes[at] != b'\n' {
        at += 1;
    }
    at
}

// What stands before the first LF, and what after it.
pub(crate) fn cut_line(bytes: &[u8]) -> Option<(&[u8], &[u8])>
    ensures { option_map (λ r. (r.0.now, r.1.now)) result ≡ cut bytes.now }
{
    let place = line_end(bytes);
    if place < bytes.len() {
        Some((&bytes[..place], &bytes[place + 1..]))
    } else {
        None
    }
}

// Whether a text may end here: nothing stands after the last LF.
fn ends(stage: Stage, rest: &[u8]) -> bool
    ensures { result ≡ ends stage rest.now }
{
    rest.is_empty() && may_end(stage)
}

// The number of the first line that may not come after those before it, at this stage before them; None if all may, and the text may end there.
pub(crate) fn first_refused(bytes: &[u8], tracks: u32, first: Stage) -> Option<u64>
    ensures { result ≡ first_refused tracks first 1 (parts_of bytes.now) }
{
    let mut stage = first;
    let mut rest = bytes;
    let mut number = 1u64;
    'lines: while let Some((part, after)) = cut_line(rest) {
        let Some(next) = stage_of(tracks, stage, part) else {
            return Some(number);
        };
        stage = next;
        rest = after;
        number += 1;
    }
    if ends(stage, rest) {
        None
    } else {
        Some(number)
    }
}

/// Looks for the first bad line of a journal's text, for as many tracks as the script has: its number, counted from 1.
///
/// None exactly if the text has a reading: if it is the text of a journal of as many tracks, whose numbers lie in the ranges of their fields. Else the number is that of the first line such that no text with a reading begins with the lines up to it; a last line without its LF is such a line. If every line is allowed and a further one is due, it is the number after the last.
pub fn first_bad_line(bytes: &[u8], script: &Script) -> Option<u64>
    ensures reading { IfNone result (HasReading (length script.now.tracks) bytes.now) }
    ensures line { IfSome result (IsFirstBad (HasReading (length script.now.tracks)) bytes.now) }
{
    let tracks = script.tracks();
    first_refused(bytes, tracks.len() as u32, Stage::Nothing)
}
