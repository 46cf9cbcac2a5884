//! The first pass: each received row is answered by the codeword near it, or it fails.
//! The values of a row are all 0 for a codeword alone (`row_group`). They are found for 32 rows at once, in a vector for
//! each power of alpha; row `n` of the 32 has lane `n` of each. In clauses `AreAnswersFrom` says that rows are answered
//! so, by their bytes and their marks.
ghost use Rattle.std.specs.Prelude.{◌≡◌, ℕ, ◌+◌, ◌<◌, ◌≤◌, IsTrue, false, length, EachIndex};
ghost use Rattle.coding.specs.Field.{alpha, power};
ghost use Rattle.coding.specs.Words.{value};
ghost use Rattle.dvd_capture.specs.Parts.{marks_rows, received_rows};
ghost use Rattle.dvd_read.specs.Parts.{AreAnswersFrom};
ghost use Rattle.dvd_read.specs.Inner.Standing.{AreAnswersBefore, AreOwnFrom, AreAsReceivedBefore, AreAsReceivedFrom, top_of};
ghost use Rattle.coding.specs.Product.{line, place};

use crate::copying::copy_transposed;
use crate::row_group::{RowGroup, answer_lost, is_lost, take_row};
use dvd_capture::parts::{AnswerRow, ColumnAnswer, Marks, Received};
use rs_code::Pi;
use rs_lanes::{Thirds, any_of, are_zeros, row_values_by, transpose};
use std::simd::prelude::*;

/// Answers the rows from `start` on, one for each place of a piece of the answers. Several workers have a piece each;
/// one alone goes by `answer_or_take_rows`. Each answer is overwritten, whatever it was. The code is made once by the
/// caller, since its generator polynomial is computed.
pub fn answer_rows(
    code: &Pi,
    received: &Received,
    marks: &Marks,
    start: usize,
    piece: &mut [AnswerRow],
)
    requires { start + length piece.old ≤ 208 }
    ensures { AreAnswersFrom (received_rows received.now) (marks_rows marks.now) start piece.new }
{
    // Room for all groups, so that it is set to zeros once: the rows transposed, and their thirds, pieces of 85 places
    // from which values are found.
    let mut transposed = [u8x32::splat(0); 182];
    let mut thirds = [[u8x32::splat(0); 3]; 85];
    for group in 0..piece.len().div_ceil(32) {
        let at = 32 * group;
        let end = piece.len().min(at + 32);
        let rows = &mut piece[at..end];
        // Where all are lost, their values aren't needed.
        if !answer_lost_rows(received, marks, start + at, rows) {
            // Values are found for 32 rows, also where fewer are left: the last 32 rows of 208 begin at row 176.
            let top = (start + at).min(176);
            let values = row_values_by(&mut transposed, &mut thirds, received.rows(), top);
            answer_group(code, received, marks, &values, start + at, rows);
        }
    }
}

/// Answers all rows of a block. They are taken as they were received, without a test of the last sixteen, where the
/// first 192, those of the data frames, are codewords and no row has a mark: the bytes of all are then in the columns
/// too, as they have been transposed for their values, and needn't be once more. Answers whether this is so; if not,
/// each row is answered by the codeword near it, and the columns may be anything. Thirds are put where the caller has
/// room for them.
pub(crate) fn answer_or_take_rows(
    code: &Pi,
    received: &Received,
    marks: &Marks,
    thirds: &mut Thirds,
    answers: &mut [AnswerRow],
    columns: &mut [ColumnAnswer],
) -> bool
    requires answers { length answers.old ≡ 208 }
    requires columns { length columns.old ≡ 182 }
    ensures answers_size { length answers.new ≡ 208 }
    ensures size { length columns.new ≡ 182 }
    ensures answered { result ≡ false → AreAnswersFrom (received_rows received.now) (marks_rows marks.now) 0 answers.new }
    ensures upper { IsTrue result → AreAnswersBefore (received_rows received.now) (marks_rows marks.now) answers.new 192 }
    ensures taken { IsTrue result → AreAsReceivedBefore (received_rows received.now) (marks_rows marks.now) answers.new 208 }
    ensures own { IsTrue result → AreOwnFrom answers.new 0 columns.new }
{
    // Room for all groups, so that it is set to zeros once.
    let mut transposed = [u8x32::splat(0); 182];
    let mut are_taken = true;
    for group in 0..6 {
        let top = 32 * group;
        let rows = &mut answers[top..top + 32];
        // Where all are lost, their values aren't needed.
        if answer_lost_rows(received, marks, top, rows) {
            are_taken = false;
            continue;
        }
        let values = row_values_by(&mut transposed, thirds, received.rows(), top);
        are_taken &= answer_or_take_group(code, received, marks, &values, top, rows);
        if are_taken {
            copy_transposed(&transposed, top, columns);
        }
    }
    let parity = &mut answers[192..];
    if are_taken && take_unmarked(received, marks, 192, parity) {
        // 32 rows are transposed at once: sixteen of them are in the columns already.
        transpose(received.rows(), 176, &mut transposed);
        copy_transposed(&transposed, 176, columns);
        return true;
    }
    let values = row_values_by(&mut transposed, thirds, received.rows(), 176);
    answer_group(code, received, marks, &values, 192, parity);
    false
}

// Answers 32 rows by their values. Answers whether all are codewords without marks, and so as they were received.
fn answer_or_take_group(
    code: &Pi,
    received: &Received,
    marks: &Marks,
    values: &[u8x32; 10],
    start: usize,
    piece: &mut [AnswerRow],
) -> bool
    requires size { length piece.old ≡ 32 }
    requires rows { start + 32 ≤ 208 }
    requires lanes { EachIndex values.now (λ k. length (line values.now k) ≡ 32) }
    requires values { (k n : ℕ) → k < 10 → n < 32 → place values.now k n ≡ value (line (received_rows received.now) (start + n)) (power alpha k) }
    ensures size { length piece.new ≡ 32 }
    ensures answers { AreAnswersFrom (received_rows received.now) (marks_rows marks.now) start piece.new }
    ensures taken { IsTrue result → AreAsReceivedFrom (received_rows received.now) (marks_rows marks.now) start piece.new }
{
    if are_zeros(any_of(values)) && take_unmarked(received, marks, start, piece) {
        return true;
    }
    answer_group(code, received, marks, values, start, piece);
    false
}

// Answers rows until one isn't lost. Answers whether all are. After `false` the caller answers all of them, those from
// here once more: no clause says which these are, and to answer a lost row twice changes nothing.
fn answer_lost_rows(
    received: &Received,
    marks: &Marks,
    start: usize,
    piece: &mut [AnswerRow],
) -> bool
    requires rows { start + length piece.old ≤ 208 }
    ensures size { length piece.new ≡ length piece.old }
    ensures answers { IsTrue result → AreAnswersFrom (received_rows received.now) (marks_rows marks.now) start piece.new }
{
    for (k, answer) in piece.iter_mut().enumerate() {
        let i = start + k;
        // Most groups begin with a row without marks, which needn't be counted.
        let row_marks = &marks.rows()[i];
        if row_marks.is_clear() || !is_lost(row_marks) {
            return false;
        }
        answer.fix = answer_lost(received.row(i), row_marks, &mut answer.bytes);
    }
    true
}

// Answers at most 32 rows, by the values of 32: of those from `start` on, or of the last 32 where fewer are left. In
// clauses `top_of start` is the row of lane 0.
fn answer_group(
    code: &Pi,
    received: &Received,
    marks: &Marks,
    values: &[u8x32; 10],
    start: usize,
    piece: &mut [AnswerRow],
)
    requires few { length piece.old ≤ 32 }
    requires rows { start + length piece.old ≤ 208 }
    requires lanes { EachIndex values.now (λ k. length (line values.now k) ≡ 32) }
    requires values { (k n : ℕ) → k < 10 → n < 32 → place values.now k n ≡ value (line (received_rows received.now) (top_of start + n)) (power alpha k) }
    ensures size { length piece.new ≡ length piece.old }
    ensures answers { AreAnswersFrom (received_rows received.now) (marks_rows marks.now) start piece.new }
{
    let top = start.min(176);
    let row_marks = &marks.rows()[start..start + piece.len()];
    let group = RowGroup::new(code, values, start - top, row_marks);
    for (k, answer) in piece.iter_mut().enumerate() {
        let i = start + k;
        answer.fix = group.answer(i - top, received.row(i), &row_marks[k], &mut answer.bytes);
    }
}

// Answers the rows from `start` on as they were received, without a test, as far as they have no mark. Answers whether
// none has: where they are codewords, these are their answers then, which callers find out by the values of the rows or
// of the columns.
fn take_unmarked(received: &Received, marks: &Marks, start: usize, piece: &mut [AnswerRow]) -> bool
    requires { start + length piece.old ≤ 208 }
    ensures size { length piece.new ≡ length piece.old }
    ensures taken { IsTrue result → AreAsReceivedFrom (received_rows received.now) (marks_rows marks.now) start piece.new }
{
    for (k, answer) in piece.iter_mut().enumerate() {
        let i = start + k;
        if !marks.is_clear(i) {
            return false;
        }
        answer.fix = Some(take_row(received.row(i), &mut answer.bytes));
    }
    true
}
