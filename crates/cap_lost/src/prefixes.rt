//! Texts and numbers at the beginning of a text: the parts of which lines are read. Nothing is passed over: what isn't
//! as `dvdecc` writes it is refused, even a zero or a blank too many. `block`, `closing` and `reader` call these.
//! `is_text` and `without_prefix` are one call of the library each. Its clauses speak of elements of any type; those
//! here are the definitions that the clauses of the callers use.
ghost use Rattle.std.specs.Prelude.{◌≡◌, ◌≤◌, length, bytes_eq, option_map};
ghost use Rattle.std.specs.List.{list_all};
ghost use Rattle.cap_lost.specs.Prefixes.{without_prefix, after_number, after_eight_digits, digits_of, is_capital_digit, number_first};

use cap_map::digits_in;
use itoa::Buffer;

/// Whether a text is this one. Comparing with `==` in its place would answer the same.
pub fn is_text(text: &[u8], other: &[u8]) -> bool
    ensures { result ≡ bytes_eq text.now other.now }
{
    text == other
}

/// What comes after this prefix of a text, if the text has it.
pub fn without_prefix<'a>(text: &'a [u8], prefix: &[u8]) -> Option<&'a [u8]>
    ensures { option_map (λ rest. rest.now) result ≡ without_prefix prefix.now text.now }
{
    text.strip_prefix(prefix)
}

/// The number that a text begins with, as `dvdecc` writes it, and what comes after its digits. Zeros before other
/// digits aren't so written: the number is written again and compared. `digits_in` gives none without a digit, and none
/// from 2^63 on. So no rule about zeros is needed.
pub fn number_first<'a>(text: &'a [u8]) -> Option<(u64, &'a [u8])>
    ensures { option_map (λ found. (found.0, found.1.now)) result ≡ number_first text.now }
{
    let (digits, rest) = text.split_at(count_digits(text));
    let number = digits_in(digits, 10)?;
    if Buffer::new().format(number).as_bytes() == digits {
        Some((number, rest))
    } else {
        None
    }
}

// How many decimal digits a text begins with.
fn count_digits(text: &[u8]) -> usize
    ensures count { result ≡ digits_of text.now }
    ensures bound { result ≤ length text.now }
{
    text.iter().take_while(|byte| byte.is_ascii_digit()).count()
}

/// What comes after a number below a bound, if a text begins with one. The number isn't handed on: its callers test the
/// form alone.
pub fn after_number<'a>(text: &'a [u8], bound: u64) -> Option<&'a [u8]>
    ensures { option_map (λ rest. rest.now) result ≡ after_number bound text.now }
{
    let (number, rest) = number_first(text)?;
    if number < bound { Some(rest) } else { None }
}

/// What comes after eight hexadecimal digits with capitals, if a text begins with them. An ID is so written. Its value
/// may be any, so it isn't read.
pub fn after_eight_digits<'a>(text: &'a [u8]) -> Option<&'a [u8]>
    ensures { option_map (λ rest. rest.now) result ≡ after_eight_digits text.now }
{
    if text.len() < 8 {
        return None;
    }
    let (word, rest) = text.split_at(8);
    if are_capital_digits(word) {
        Some(rest)
    } else {
        None
    }
}

// For the eight digits of its caller. Of no bytes it holds, as the definition has it.
fn are_capital_digits(text: &[u8]) -> bool
    ensures { result ≡ list_all is_capital_digit text.now }
{
    text.iter().all(|byte| is_capital_digit(*byte))
}

// `dvdecc` writes no small letters, so these are refused. `is_ascii_hexdigit` would accept them.
fn is_capital_digit(byte: u8) -> bool
    ensures { result ≡ is_capital_digit byte }
{
    byte.is_ascii_digit() || (byte >= b'A' && byte <= b'F')
}
