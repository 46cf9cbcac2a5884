//! Rows and columns of a block (ECMA-267, 18): their parity, whether they are codewords, and their decoding. Lost
//! places are bytes, 0 where a place isn't lost, since C may write any byte.
//!
//! A row is 182 bytes with 10 of parity, a column 208 with 16. With e errors and s lost places a codeword is near where
//! 2e + s is at most the number of parity bytes. The exports are public and keep their names (`no_mangle`), since C
//! finds them by these; to C an array is a pointer. `Pi` and `Po` are the codes of rows and columns. Each call makes
//! its code anew, as C has no object to keep it in. Decoding writes in place, and answers a status: C returns one
//! number.
ghost use Rattle.std.specs.Prelude.{◌≡◌, ◌<◌, ◌≤◌, ◌↔◌, IsTrue, take, unwrap_or};
ghost use Rattle.coding.specs.Words.{IsCodeword, IsEncoded};
ghost use Rattle.coding.specs.Nearest.{near_of};
ghost use Rattle.dvdecc_c.specs.Words.{lost_marks, word_status, with_correction};

use crate::status;
use rs_code::{Code, Pi, Po};
use rs_decode::decode;

/// What the decoding of a word corrected. C sees its fields in this order, as dvdecc.h declares them. It is
/// written only where a codeword is near.
#[repr(C)]
#[derive(Clone, Copy)]
pub struct Correction {
    /// How many places that weren't lost changed.
    pub errors: u32,
    /// How many places were lost, also those whose byte was right.
    pub erasures: u32,
}

/// Sets the last 10 bytes of a row so that it is a codeword. The first 172 stay. Each message has a codeword, so there
/// is no status.
#[unsafe(no_mangle)]
pub extern "C" fn dvdecc_row_parity(row: &mut [u8; 182])
    ensures { IsEncoded 182 10 (take 172 row.old) row.new }
{
    Pi::new().encode(row);
}

/// Whether a row is a codeword.
#[unsafe(no_mangle)]
pub extern "C" fn dvdecc_row_is_codeword(row: &[u8; 182]) -> bool
    ensures { IsTrue result ↔ IsCodeword 182 10 row.now }
{
    Pi::new().is_codeword(row)
}

/// Sets a row to the codeword near it. Each byte of `lost` but 0 marks its place. Where none is near, row and
/// correction stay.
#[unsafe(no_mangle)]
pub extern "C" fn dvdecc_row_decode(
    row: &mut [u8; 182],
    lost: &[u8; 182],
    correction: &mut Correction,
) -> u32
    ensures status { result ≡ word_status (near_of 182 10 row.old (lost_marks lost.now)) }
    ensures word { row.new ≡ unwrap_or (near_of 182 10 row.old (lost_marks lost.now)) row.old }
    ensures correction { correction.new
        ≡ with_correction (near_of 182 10 row.old (lost_marks lost.now)) row.old (lost_marks lost.now) correction.old }
{
    decode_word::<182, 10>(row, lost, correction)
}

/// Sets the last 16 bytes of a column so that it is a codeword. The first 192 stay. Each message has a codeword here
/// too. A column is 208 bytes one after the other: who has a block copies it out of the rows.
#[unsafe(no_mangle)]
pub extern "C" fn dvdecc_column_parity(column: &mut [u8; 208])
    ensures { IsEncoded 208 16 (take 192 column.old) column.new }
{
    Po::new().encode(column);
}

/// Whether a column is a codeword.
#[unsafe(no_mangle)]
pub extern "C" fn dvdecc_column_is_codeword(column: &[u8; 208]) -> bool
    ensures { IsTrue result ↔ IsCodeword 208 16 column.now }
{
    Po::new().is_codeword(column)
}

/// Sets a column to the codeword near it. Each byte of `lost` but 0 marks its place. Where none is near, column and
/// correction stay.
#[unsafe(no_mangle)]
pub extern "C" fn dvdecc_column_decode(
    column: &mut [u8; 208],
    lost: &[u8; 208],
    correction: &mut Correction,
) -> u32
    ensures status { result ≡ word_status (near_of 208 16 column.old (lost_marks lost.now)) }
    ensures word { column.new ≡ unwrap_or (near_of 208 16 column.old (lost_marks lost.now)) column.old }
    ensures correction { correction.new
        ≡ with_correction (near_of 208 16 column.old (lost_marks lost.now)) column.old (lost_marks lost.now) correction.old }
{
    decode_word::<208, 16>(column, lost, correction)
}

// Sets a word to the codeword near it. The lengths of a code are parameters of its type: N bytes in all, R of them
// parity. Where none is near, word and correction stay, as `decode` itself leaves the word. `general` calls it too, for
// words of 255 bytes. The clauses `requires` are those of `Code`: a field of 256 elements has codewords of at most 255
// bytes, and 32 is its choice. `decode` refuses for one reason alone, so the error has nothing to report.
pub(crate) fn decode_word<const N: usize, const R: usize>(
    word: &mut [u8; N],
    lost: &[u8; N],
    correction: &mut Correction,
) -> u32
    requires some_parity { 1 ≤ R }
    requires some_message { R < N }
    requires short { N ≤ 255 }
    requires few { R ≤ 32 }
    ensures status { result ≡ word_status (near_of N R word.old (lost_marks lost.now)) }
    ensures word { word.new ≡ unwrap_or (near_of N R word.old (lost_marks lost.now)) word.old }
    ensures correction { correction.new
        ≡ with_correction (near_of N R word.old (lost_marks lost.now)) word.old (lost_marks lost.now) correction.old }
{
    let marks = marks_of(lost);
    match decode(&Code::<N, R>::new(), word, &marks) {
        Ok(fix) => {
            correction.errors = u32::from(fix.errors);
            correction.erasures = u32::from(fix.erased);
            status::OK
        }
        Err(_) => status::UNCORRECTABLE,
    }
}

// The marks of a word, as `decode` asks for them. A copy, since C may write a byte that is neither 0 nor 1, and such a
// byte is no `bool`: the caller's bytes can't be read as marks. Each but 0 marks its place.
fn marks_of<const N: usize>(lost: &[u8; N]) -> [bool; N]
    ensures { result ≡ lost_marks lost.now }
{
    let mut marks = [false; N];
    for k in 0..N {
        marks[k] = lost[k] != 0;
    }
    marks
}
