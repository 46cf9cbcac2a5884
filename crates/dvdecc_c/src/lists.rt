//! Many rows by one call, for callers to whom a call costs more than a row. What comes of each row is what the call for
//! one row gives, and changes no other: parity is found for 32 rows at once, and each row is decoded by the call for
//! one. In the clauses `other` is any answer: a list is asked for a place with something to give where it has none,
//! which doesn't happen.
//!
//! The exports are public and keep their names (`no_mangle`), since C finds them by these. To C a slice is a pointer
//! and a length, so each list has its own length and the lengths may differ.
ghost use Rattle.std.specs.Prelude.{◌≡◌, ◌≢◌, ℕ, ◌<◌, length, slice_index_or, take};
ghost use Rattle.coding.specs.Product.{line};
ghost use Rattle.coding.specs.Words.{IsEncoded};
ghost use Rattle.dvdecc_c.specs.Lists.{answer_to, lengths_status, row_decoded};
ghost use Rattle.dvdecc_c.specs.declared.lists.Answer.{Answer};

use crate::status;
use crate::words::{Correction, dvdecc_row_decode};
use dvd_block::parts::rows_parity;

/// What the decoding of one of many words came to. C sees its fields in this order, as dvdecc.h declares them.
#[repr(C)]
#[derive(Clone, Copy)]
pub struct Answer {
    /// The status of the call for one word.
    pub status: u32,
    /// What was corrected, or zeros where no codeword is near.
    pub correction: Correction,
}

/// Sets the last 10 bytes of each row so that it is a codeword. There is one list alone, so no lengths can differ, and
/// there is no status.
#[unsafe(no_mangle)]
pub extern "C" fn dvdecc_rows_parity(rows: &mut [[u8; 182]])
    ensures { (i : ℕ) → i < length rows.old → IsEncoded 182 10 (take 172 (line rows.old i)) (line rows.new i) }
{
    rows_parity(rows);
}

/// Sets each row to the codeword near it, if there is one, and answers for each. Where the three lists differ in
/// length, nothing changes and the status is BAD_LENGTH. An uncorrectable row stays, and its answer says so: the status
/// of the call is still OK.
#[unsafe(no_mangle)]
pub extern "C" fn dvdecc_rows_decode(
    rows: &mut [[u8; 182]],
    lost: &[[u8; 182]],
    answers: &mut [Answer],
) -> u32
    ensures status { result ≡ lengths_status (length rows.old) (length lost.now) (length answers.old) }
    ensures rows { result ≡ 0 → (i : ℕ) → i < length rows.old → line rows.new i ≡ row_decoded (line rows.old i) (line lost.now i) }
    ensures answers { result ≡ 0 → (i : ℕ) (other : Answer) → i < length rows.old
        → slice_index_or answers.new i other ≡ answer_to (line rows.old i) (line lost.now i) }
    ensures same_rows { result ≢ 0 → rows.new ≡ rows.old }
    ensures same_answers { result ≢ 0 → answers.new ≡ answers.old }
{
    // All lengths are compared before the first row changes, since nothing may change where they differ.
    if lost.len() != rows.len() || answers.len() != rows.len() {
        return status::BAD_LENGTH;
    }
    decode_each(rows, lost, answers);
    status::OK
}

// Decodes each of as many rows. By index, since three lists go along together. The caller has compared the lengths: so
// no index is out of range, and the clauses need no case for lists that don't fit.
fn decode_each(rows: &mut [[u8; 182]], lost: &[[u8; 182]], answers: &mut [Answer])
    requires lost { length lost.now ≡ length rows.old }
    requires answers { length answers.old ≡ length rows.old }
    ensures rows { (i : ℕ) → i < length rows.old → line rows.new i ≡ row_decoded (line rows.old i) (line lost.now i) }
    ensures answers { (i : ℕ) (other : Answer) → i < length rows.old
        → slice_index_or answers.new i other ≡ answer_to (line rows.old i) (line lost.now i) }
{
    for i in 0..rows.len() {
        answers[i] = decode_one(&mut rows[i], &lost[i]);
    }
}

// Decodes one row. It makes its answer anew, so that what the list of answers held before doesn't count.
fn decode_one(row: &mut [u8; 182], lost: &[u8; 182]) -> Answer
    ensures row { row.new ≡ row_decoded row.old lost.now }
    ensures answer { result ≡ answer_to row.old lost.now }
{
    // Zeros, since the call for one row writes no correction where no codeword is near.
    let mut correction = Correction {
        errors: 0,
        erasures: 0,
    };
    let status = dvdecc_row_decode(row, lost, &mut correction);
    Answer { status, correction }
}
