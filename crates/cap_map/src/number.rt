//! Numbers of a map: hexadecimal after 0x, octal after 0, else decimal. So 0 is octal, and 08 is no number. This is
//! ddrescue's own rule, that of integer constants in C: it writes hexadecimal, but a map that was edited by hand may
//! have the others.
ghost use Rattle.std.specs.Prelude.{◌≡◌, ◌<◌, ◌≤◌, ◌^◌, IfSome};
ghost use Rattle.cap_map.specs.Numbers.{digits_in, begins_with_0x, written_number, with_digit};

/// The number that a text is. There is none from 2^63 on: no file is longer than 2^63 - 1 bytes. `None` is a text that
/// isn't so written, or a number that is too great: both are one fault of a line.
pub fn written_number(text: &[u8]) -> Option<u64>
    ensures value { result ≡ written_number text.now }
    ensures below { IfSome result (λ n. n < 2 ^ 63) }
{
    if begins_with_0x(text) {
        return digits_in(&text[2..], 16);
    }
    // The 0 that marks octal stays: it is a digit that adds nothing, and 0 alone is then a number.
    let radix = if text.first() == Some(&b'0') { 8 } else { 10 };
    digits_in(text, radix)
}

// Both letters are accepted. After 0x alone there is no digit, and so no number.
fn begins_with_0x(text: &[u8]) -> bool
    ensures { result ≡ begins_with_0x text.now }
{
    text.len() > 1 && text[0] == b'0' && (text[1] == b'x' || text[1] == b'X')
}

/// The number that digits of a base, from binary to hexadecimal, write: below 2^63, and of one digit at least. Zeros
/// may come first. cap_lost reads the numbers of its lines by it too. Callers have the bases 8, 10 and 16; `to_digit`
/// would take greater ones too.
pub fn digits_in(text: &[u8], radix: u32) -> Option<u64>
    requires least { 2 ≤ radix }
    requires most { radix ≤ 16 }
    ensures value { result ≡ digits_in radix text.now }
    ensures below { IfSome result (λ n. n < 2 ^ 63) }
{
    // Without a digit the loop would give 0.
    if text.is_empty() {
        return None;
    }
    let mut value = 0;
    for byte in text {
        value = with_digit(value, *byte, radix)?;
    }
    Some(value)
}

// A number with one digit more at its end, if it is below 2^63. `to_digit` has letters of both cases. No clause bounds
// `value`, so that both steps are checked.
fn with_digit(value: u64, byte: u8, radix: u32) -> Option<u64>
    requires least { 2 ≤ radix }
    requires most { radix ≤ 16 }
    ensures value { result ≡ with_digit radix value byte }
    ensures below { IfSome result (λ n. n < 2 ^ 63) }
{
    let digit = char::from(byte).to_digit(radix)?;
    let number = value
        .checked_mul(u64::from(radix))?
        .checked_add(u64::from(digit))?;
    // The product may fit 64 bits and still be no position.
    if number < 1 << 63 { Some(number) } else { None }
}
