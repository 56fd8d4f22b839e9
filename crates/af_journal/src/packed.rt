//! Lines of packed words in hexadecimal. Most of a journal's text is such lines, so they are made eight words at a time, of whose digits the compiler makes many at once.
ghost use Rattle.std.specs.Prelude.{◌≡◌, ◌*◌, ◌<◌, ◌++◌, ◌∷◌, [], map, flat_map, length, IfOk};
ghost use Rattle.std.specs.Int.{to_be_bytes, w32};
ghost use Rattle.af_base.specs.Sample.{packed_word};
ghost use Rattle.af_journal.specs.Lines.{hex_byte, hex_digit, hex_word};
ghost use Rattle.af_journal.specs.Texts.{GoesOn, words_after};

use crate::text::Text;
use af_base::{Frame, Memory};

// The lower-case hexadecimal digit of a number below 16.
fn digit_of(number: u8) -> u8
    requires { number < 16 }
    ensures { result ≡ hex_digit number }
{
    if number < 10 {
        b'0' + number
    } else {
        b'a' + (number - 10)
    }
}

// The eight digits of a word.
fn digits_of(word: u32) -> [u8; 8]
    ensures { result ≡ hex_word word }
{
    let [first, second, third, fourth] = word.to_be_bytes();
    [
        digit_of(first / 16),
        digit_of(first % 16),
        digit_of(second / 16),
        digit_of(second % 16),
        digit_of(third / 16),
        digit_of(third % 16),
        digit_of(fourth / 16),
        digit_of(fourth % 16),
    ]
}

// The bytes of eight frames' words, of each the most significant first.
fn bytes_of(frames: &[Frame]) -> [u8; 32]
    requires { length frames.now ≡ 8 }
    ensures { result ≡ flat_map (to_be_bytes w32) (map packed_word frames.now) }
{
    let mut bytes = [0; 32];
    for i in 0..8 {
        let [first, second, third, fourth] = frames[i].pack().to_be_bytes();
        bytes[4 * i] = first;
        bytes[4 * i + 1] = second;
        bytes[4 * i + 2] = third;
        bytes[4 * i + 3] = fourth;
    }
    bytes
}

// The digits of so many bytes.
fn row_of(bytes: &[u8; 32]) -> [u8; 64]
    ensures { result ≡ flat_map hex_byte bytes.now }
{
    let mut row = [0; 64];
    for i in 0..32 {
        row[2 * i] = digit_of(bytes[i] / 16);
        row[2 * i + 1] = digit_of(bytes[i] % 16);
    }
    row
}

// Adds the words of so many times eight frames.
fn add_rows(text: &mut Text, frames: &[Frame], rows: usize) -> Result<(), Memory>
    requires { length frames.now ≡ 8 * rows }
    ensures { IfOk result (λ _. text.new.bytes.items ≡ text.old.bytes.items ++ flat_map hex_word (map packed_word frames.now)) }
{
    for row in 0..rows {
        let eight = &frames[8 * row..8 * row + 8];
        text.bytes.extend_from_slice(&row_of(&bytes_of(eight)))?;
    }
    Ok(())
}

// Adds the words of some frames, one by one.
fn add_rest(text: &mut Text, frames: &[Frame]) -> Result<(), Memory>
    ensures { IfOk result (λ _. text.new.bytes.items ≡ text.old.bytes.items ++ flat_map hex_word (map packed_word frames.now)) }
{
    for frame in frames {
        text.bytes.extend_from_slice(&digits_of(frame.pack()))?;
    }
    Ok(())
}

// Adds the words of some frames.
fn add_words(text: &mut Text, frames: &[Frame]) -> Result<(), Memory>
    ensures { IfOk result (λ _. text.new.bytes.items ≡ text.old.bytes.items ++ flat_map hex_word (map packed_word frames.now)) }
{
    let rows = frames.len() / 8;
    let (whole, rest) = frames.split_at(8 * rows);
    add_rows(text, whole, rows)?;
    add_rest(text, rest)?;
    Ok(())
}

/// Adds a line of the frames that were taken, if there are some.
pub(crate) fn add_frames(text: &mut Text, frames: &[Frame]) -> Result<(), Memory>
    ensures { IfOk result (λ _. GoesOn text.old.bytes.items (words_after (map packed_word frames.now)) text.new.bytes.items) }
{
    if frames.is_empty() {
        return Ok(());
    }
    text.bytes.extend_from_slice(b"h ")?;
    add_words(text, frames)?;
    text.bytes.extend_from_slice(b"\n")?;
    Ok(())
}

/// Adds a line of two words.
pub(crate) fn add_two(text: &mut Text, first: u32, second: u32) -> Result<(), Memory>
    ensures { IfOk result (λ _. GoesOn text.old.bytes.items (words_after (first ∷ second ∷ [])) text.new.bytes.items) }
{
    text.bytes.extend_from_slice(b"h ")?;
    text.bytes.extend_from_slice(&digits_of(first))?;
    text.bytes.extend_from_slice(&digits_of(second))?;
    text.bytes.extend_from_slice(b"\n")?;
    Ok(())
}
