//! Words of any length up to 255 with 1 to 32 parity bytes. Such a word is the end of one of 255 bytes that begins with
//! zeros, and whose first bytes have to stay zeros.
//!
//! The lengths of a code are parameters of its type. With 255 for all words, 32 codes are enough: one for each number
//! of parity bytes. 255 is the longest, since the field has 255 elements other than 0; 32 is the most for which the
//! lists of rs_code have room. In the clauses 5 is the status BAD_LENGTH.
//!
//! The exports are public and keep their names (`no_mangle`), since C finds them by these. To C a slice is a pointer
//! and a length, so a length has to be tested here before anything else.
ghost use Rattle.std.specs.Prelude.{◌≡◌, ◌≢◌, ◌↔◌, ◌+◌, ◌-◌, ◌<◌, ◌≤◌, ◌++◌, IsTrue, length, replicate, take, unwrap_or};
ghost use Rattle.coding.specs.Nearest.{near_of};
ghost use Rattle.coding.specs.Words.{IsEncoded};
ghost use Rattle.dvdecc_c.specs.General.{code_status, decoding_status};
ghost use Rattle.dvdecc_c.specs.Words.{lost_marks, with_correction, word_status};

use crate::status;
use crate::words::{Correction, decode_word};
use rs_code::Code;

// Calls a function that has the number of parity bytes as a parameter of its type, for the number that is at hand. A
// type can't be chosen by a number when the call comes, so all of them are compared with it in turn. They rise by 1, so
// the first that isn't below the number is the number; what is left is the last, so each path answers. `given` is the
// list of arguments, with its parentheses.
macro_rules! by_parity {
    ($parity:ident, $call:ident, $given:tt: $($most:literal)*; $last:literal) => {{
        $(if $parity <= $most {
            return $call::<$most> $given;
        })*
        $call::<$last> $given
    }};
}

/// Sets the last bytes of a word, as many as `parity`, so that it is a codeword. They are 1 to 32, with at least one
/// byte before them, and at most 255 bytes in all. Else the word stays, and the status is BAD_LENGTH.
#[unsafe(no_mangle)]
pub extern "C" fn dvdecc_rs_parity(word: &mut [u8], parity: u32) -> u32
    ensures status { result ≡ code_status (length word.old) parity }
    ensures word { result ≡ 0 → IsEncoded (length word.old) parity (take (length word.old - parity) word.old) word.new }
    ensures same { result ≢ 0 → word.new ≡ word.old }
{
    if !is_code(word.len(), parity) {
        return status::BAD_LENGTH;
    }
    encode_any(word, parity);
    status::OK
}

/// Sets a word with as many parity bytes to the codeword near it. Where none is near, or the lengths don't fit, word
/// and correction stay. Each byte of `lost` but 0 marks its place. All is tested before anything is written.
#[unsafe(no_mangle)]
pub extern "C" fn dvdecc_rs_decode(
    word: &mut [u8],
    lost: &[u8],
    parity: u32,
    correction: &mut Correction,
) -> u32
    ensures status { result ≡ decoding_status parity word.old lost.now }
    ensures word { result ≢ 5 → word.new ≡ unwrap_or (near_of (length word.old) parity word.old (lost_marks lost.now)) word.old }
    ensures correction { result ≢ 5 → correction.new
        ≡ with_correction (near_of (length word.old) parity word.old (lost_marks lost.now)) word.old (lost_marks lost.now) correction.old }
    ensures same_word { result ≡ 5 → word.new ≡ word.old }
    ensures same_correction { result ≡ 5 → correction.new ≡ correction.old }
{
    if !is_code(word.len(), parity) || lost.len() != word.len() {
        return status::BAD_LENGTH;
    }
    decode_any(word, lost, parity, correction)
}

// Whether there is a code of words of so many bytes with so many parity bytes. `parity < size`, so that a word has a
// message.
fn is_code(size: usize, parity: u32) -> bool
    ensures { IsTrue result ↔ (1 ≤ parity) × (parity ≤ 32) × (parity < size) × (size ≤ 255) }
{
    parity >= 1 && parity <= 32 && (parity as usize) < size && size <= 255
}

// Sets the parity of a word of a code. Apart from the export, since the macro returns from the function it is in.
fn encode_any(word: &mut [u8], parity: u32)
    requires some { 1 ≤ parity }
    requires few { parity ≤ 32 }
    requires message { parity < length word.old }
    requires short { length word.old ≤ 255 }
    ensures { IsEncoded (length word.old) parity (take (length word.old - parity) word.old) word.new }
{
    by_parity!(parity, encode_after_zeros, (word, parity):
        1 2 3 4 5 6 7 8 9 10 11 12 13 14 15 16 17 18 19 20 21 22 23 24 25 26 27 28 29 30 31; 32)
}

// Decodes a word of a code. Apart from the export for the same reason, and answers the status itself, since the lengths
// are right here.
fn decode_any(word: &mut [u8], lost: &[u8], parity: u32, correction: &mut Correction) -> u32
    requires some { 1 ≤ parity }
    requires few { parity ≤ 32 }
    requires message { parity < length word.old }
    requires short { length word.old ≤ 255 }
    requires lost { length lost.now ≡ length word.old }
    ensures status { result ≡ word_status (near_of (length word.old) parity word.old (lost_marks lost.now)) }
    ensures word { word.new ≡ unwrap_or (near_of (length word.old) parity word.old (lost_marks lost.now)) word.old }
    ensures correction { correction.new
        ≡ with_correction (near_of (length word.old) parity word.old (lost_marks lost.now)) word.old (lost_marks lost.now) correction.old }
{
    by_parity!(parity, decode_after_zeros, (word, lost, parity, correction):
        1 2 3 4 5 6 7 8 9 10 11 12 13 14 15 16 17 18 19 20 21 22 23 24 25 26 27 28 29 30 31; 32)
}

// Sets the parity of a word, as the end of one of 255 bytes. Zeros before a word change none of its values, so the
// parity is that of the word. `parity` is `R` as a number: the clauses of the caller name that number, and so do these.
fn encode_after_zeros<const R: usize>(word: &mut [u8], parity: u32)
    requires parity { parity ≡ R }
    requires some { 1 ≤ R }
    requires few { R ≤ 32 }
    requires message { R < length word.old }
    requires short { length word.old ≤ 255 }
    ensures { IsEncoded (length word.old) parity (take (length word.old - parity) word.old) word.new }
{
    let zeros_before = 255 - word.len();
    let mut whole = after_zeros(word);
    Code::<255, R>::new().encode(&mut whole);
    word.copy_from_slice(&whole[zeros_before..]);
}

// Decodes a word, as the end of one of 255 bytes. A codeword near that one is near the word only where it begins with
// zeros: it may also be one that has other bytes there, which count as errors like any others. `parity` is as above.
fn decode_after_zeros<const R: usize>(
    word: &mut [u8],
    lost: &[u8],
    parity: u32,
    correction: &mut Correction,
) -> u32
    requires parity { parity ≡ R }
    requires some { 1 ≤ R }
    requires few { R ≤ 32 }
    requires message { R < length word.old }
    requires short { length word.old ≤ 255 }
    requires lost { length lost.now ≡ length word.old }
    ensures status { result ≡ word_status (near_of (length word.old) parity word.old (lost_marks lost.now)) }
    ensures word { word.new ≡ unwrap_or (near_of (length word.old) parity word.old (lost_marks lost.now)) word.old }
    ensures correction { correction.new
        ≡ with_correction (near_of (length word.old) parity word.old (lost_marks lost.now)) word.old (lost_marks lost.now) correction.old }
{
    let zeros_before = 255 - word.len();
    let mut whole = after_zeros(word);
    // A copy, since the caller's correction stays also where the codeword that is found doesn't begin with zeros.
    let mut fix = *correction;
    let status = decode_word::<255, R>(&mut whole, &after_zeros(lost), &mut fix);
    // UNCORRECTABLE is the only other status.
    if status != status::OK {
        return status::UNCORRECTABLE;
    }
    // A codeword that has other bytes there is none of the word's length.
    if !are_zeros(&whole[..zeros_before]) {
        return status::UNCORRECTABLE;
    }
    word.copy_from_slice(&whole[zeros_before..]);
    *correction = fix;
    status::OK
}

// A word, or its lost places, with zeros before it, 255 bytes in all. One call for both, since a place that isn't lost
// is a 0 too: so none of the zeros before the word is marked as lost.
fn after_zeros(word: &[u8]) -> [u8; 255]
    requires { length word.now ≤ 255 }
    ensures { result ≡ replicate (255 - length word.now) 0 ++ word.now }
{
    let mut whole = [0; 255];
    put(&mut whole, 255 - word.len(), word);
    whole
}

// Writes a part after what comes before it. Its clause is of any list and place, and the caller's follows from it. What
// comes after the part has no clause: here there is nothing.
fn put(out: &mut [u8], at: usize, part: &[u8])
    requires { at + length part.now ≤ length out.old }
    ensures { take (at + length part.now) out.new ≡ take at out.old ++ part.now }
{
    out[at..at + part.len()].copy_from_slice(part);
}

// Whether all bytes are zeros: those before the word, of which there may be none. The first other byte ends the loop.
fn are_zeros(bytes: &[u8]) -> bool
    ensures { IsTrue result ↔ (bytes.now ≡ replicate (length bytes.now) 0) }
{
    for byte in bytes {
        if *byte != 0 {
            return false;
        }
    }
    true
}
