//! Texts and numbers at the beginning of a text: the parts of which lines are read. Nothing is passed over, so that
//! only what `dvdecc` writes is read. `block` and `totals` call these. cap_survey uses no other crate of the
//! project, so it reads numbers by itself.
ghost use Rattle.std.specs.Prelude.{◌≡◌, ◌<◌, ◌≤◌, ◌^◌, length, option_map, IfSome};
ghost use Rattle.std.specs.List.{list_all};
ghost use Rattle.cap_survey.specs.Numbers.{after_text, are_hexadecimal, digit_count, is_hexadecimal, number_after, leading_number, number_seen, with_digit, with_digits};

/// A number, and what comes after it.
#[derive(Clone, Copy, Drop)]
pub struct Number<'a> {
    pub value: u64,
    pub rest: &'a [u8],
}

/// What comes after this text at the beginning of another.
pub fn after_text<'a>(text: &'a [u8], name: &[u8]) -> Option<&'a [u8]>
    ensures { option_map (λ s. s.now) result ≡ after_text name.now text.now }
{
    text.strip_prefix(name)
}

/// The number in decimal after this text at the beginning of another.
pub fn number_after<'a>(text: &'a [u8], name: &[u8]) -> Option<Number<'a>>
    ensures { option_map number_seen result ≡ number_after name.now text.now }
{
    leading_number(after_text(text, name)?)
}

// The number in decimal at the beginning of a text: below 10^18, and without a zero before other digits. So each number
// has one spelling, which is the one that `dvdecc` writes.
fn leading_number<'a>(text: &'a [u8]) -> Option<Number<'a>>
    ensures { option_map number_seen result ≡ leading_number text.now }
{
    let count = count_digits(text);
    if count == 0 || count > 1 && text[0] == b'0' {
        return None;
    }
    let value = value_of(&text[..count])?;
    Some(Number {
        value,
        rest: &text[count..],
    })
}

// How many decimal digits a text begins with.
fn count_digits(text: &[u8]) -> usize
    ensures count { result ≡ digit_count text.now }
    ensures bound { result ≤ length text.now }
{
    text.iter().take_while(|byte| byte.is_ascii_digit()).count()
}

// The number that decimal digits write, if it is below 10^18. The bound is tested digit by digit, so that no number of
// digits is too many.
fn value_of(digits: &[u8]) -> Option<u64>
    ensures { result ≡ with_digits 0 digits.now }
{
    let mut value = 0;
    for byte in digits {
        value = with_digit(value, *byte)?;
    }
    Some(value)
}

// A number with one digit more at its end. 10^18 times ten still fits 64 bits, and no count of a survey is as great.
fn with_digit(value: u64, byte: u8) -> Option<u64>
    requires { value < 10 ^ 18 }
    ensures value { result ≡ with_digit value byte }
    ensures below { IfSome result (λ n. n < 10 ^ 18) }
{
    // The caller has digits alone, so this doesn't fail; the definition is of any byte.
    let digit = char::from(byte).to_digit(10)?;
    let number = 10 * value + u64::from(digit);
    if number < 1_000_000_000_000_000_000 {
        Some(number)
    } else {
        None
    }
}

/// Whether all of a text are hexadecimal digits, in capitals. Its callers test how many there are.
pub fn are_hexadecimal(text: &[u8]) -> bool
    ensures { result ≡ are_hexadecimal text.now }
{
    text.iter().all(|byte| is_hexadecimal(*byte))
}

// `dvdecc` writes no small letters, so these are refused.
fn is_hexadecimal(byte: u8) -> bool
    ensures { result ≡ is_hexadecimal byte }
{
    (b'0' <= byte && byte <= b'9') || (b'A' <= byte && byte <= b'F')
}
