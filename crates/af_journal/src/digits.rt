//! Numbers of a line: each in its one form, with one space before it.
ghost use Rattle.std.specs.Prelude.{◌≡◌, ◌+◌, ◌*◌, ◌<◌, ◌≤◌, ◌^◌, IfSome};
ghost use Rattle.std.specs.Option.{option_map};
ghost use Rattle.af_journal.specs.Digits.{digit_at, digits_on, fitting, number_at};
ghost use Rattle.af_journal.specs.LineReading.{beside, ends_word, next_number, next_word, one_at, three_at, two_at, word_at};

// The digit of a code.
fn digit_of(byte: u8) -> Option<u64>
    ensures value { result ≡ digit_at byte }
    ensures small { IfSome result (λ d. d < 10) }
{
    match byte {
        b'0'..=b'9' => Some(u64::from(byte - b'0')),
        _ => None,
    }
}

// One digit more, if 64 bits hold it.
fn with_digit(value: u64, digit: u64) -> Option<u64>
    requires { digit < 10 }
    ensures { result ≡ fitting (value * 10 + digit) }
{
    value.checked_mul(10)?.checked_add(digit)
}

// Whether a word ends here: at a space, or at the end.
fn ends_word(bytes: &[u8]) -> bool
    ensures { result ≡ ends_word bytes.now }
{
    match bytes {
        [] => true,
        [first, ..] => *first == b' ',
    }
}

// The number that goes on with the digits before the first space, and what stands from there on.
fn digits_of(first: u64, bytes: &[u8]) -> Option<(u64, &[u8])>
    ensures { option_map (λ r. (r.0, r.1.now)) result ≡ beside (word_at bytes.now).1 (digits_on first (word_at bytes.now).0) }
{
    let mut value = first;
    for (place, byte) in bytes.iter().enumerate() {
        if *byte == b' ' {
            return Some((value, &bytes[place..]));
        }
        let digit = digit_of(*byte)?;
        value = with_digit(value, digit)?;
    }
    Some((value, &[]))
}

// The number that the word before the first space spells, which is 0, or digits with no 0 in front; and what stands from there on.
fn number_of(bytes: &[u8]) -> Option<(u64, &[u8])>
    ensures { option_map (λ r. (r.0, r.1.now)) result ≡ beside (word_at bytes.now).1 (number_at (word_at bytes.now).0) }
{
    let (first, rest) = bytes.split_first()?;
    let digit = digit_of(*first)?;
    if digit == 0 && !ends_word(rest) {
        return None;
    }
    digits_of(digit, rest)
}

/// A space and a number up to a limit, and what follows.
#[tactic(auto, unfolding(crate::specs::LineReading::next_number))]
pub(crate) fn next_number(bytes: &[u8], limit: u64) -> Option<(u64, &[u8])>
    ensures value { option_map (λ r. (r.0, r.1.now)) result ≡ next_number limit bytes.now }
    ensures bound { IfSome result (λ r. r.0 ≤ limit) }
{
    let (first, rest) = bytes.split_first()?;
    if *first != b' ' {
        return None;
    }
    let (number, after) = number_of(rest)?;
    if number <= limit {
        Some((number, after))
    } else {
        None
    }
}

/// A space and a number of 32 bits, and what follows.
pub(crate) fn next_word(bytes: &[u8]) -> Option<(u32, &[u8])>
    ensures { option_map (λ r. (r.0, r.1.now)) result ≡ next_word bytes.now }
{
    let (number, after) = next_number(bytes, 0xffff_ffff)?;
    Some((number as u32, after))
}

/// Nothing but one number of 32 bits.
#[tactic(auto, unfolding(crate::specs::LineReading::one_at))]
pub(crate) fn one_of(bytes: &[u8]) -> Option<u32>
    ensures { result ≡ one_at bytes.now }
{
    let (number, after) = next_word(bytes)?;
    if after.is_empty() { Some(number) } else { None }
}

/// Nothing but two numbers of 32 bits.
#[tactic(auto, unfolding(crate::specs::LineReading::two_at))]
pub(crate) fn two_of(bytes: &[u8]) -> Option<(u32, u32)>
    ensures { result ≡ two_at bytes.now }
{
    let (first, after) = next_word(bytes)?;
    let second = one_of(after)?;
    Some((first, second))
}

/// Nothing but three numbers of 32 bits.
#[tactic(auto, unfolding(crate::specs::LineReading::three_at))]
pub(crate) fn three_of(bytes: &[u8]) -> Option<(u32, u32, u32)>
    ensures { result ≡ three_at bytes.now }
{
    let (first, after) = next_word(bytes)?;
    let (second, third) = two_of(after)?;
    Some((first, second, third))
}
