//! The second pass: each column of the rows' answers is answered by the codeword near it, the failed rows being marked.
//! The failed rows are the same in all columns, so what is computed of their places serves all.
//! The values of a column are those of its polynomial at alpha^0 to alpha^15: its syndromes, all 0 for a codeword
//! alone. They are found for 32 columns at once, in a vector for each power; column `n` of the 32 has lane `n` of each.
//! Patches are the bytes to add in the failed rows, found for 32 columns at once: each is tested before it counts. A
//! lane of `any_of` is 0 exactly where that lane of each vector is: so one vector says which of 32 columns are
//! codewords. In clauses, of the columns from `start` on: `AreOwnFrom`, they have the bytes of the rows' answers;
//! `AreColumnsFrom`, they are answered. `AreCompleted` says that columns of the rows' answers are what the second pass
//! answers to them.
ghost use Rattle.std.specs.Prelude.{◌≡◌, ℕ, ◌+◌, ◌<◌, ◌≤◌, All, IsTrue, true, false, length, map, slice_index, slice_index_or, take, position, not, MatchOption};
ghost use Rattle.coding.specs.Field.{plus};
ghost use Rattle.coding.specs.Words.{IsByte, IsCodeword, value};
ghost use Rattle.coding.specs.TwoPass.{failed_of, from_columns};
ghost use Rattle.coding.specs.Nearest.{vanishes_at_all};
ghost use Rattle.coding.specs.Filling.{marked};
ghost use Rattle.coding.specs.Product.{column, line, place};
ghost use Rattle.rs_decode.specs.Patches.{patched};
ghost use Rattle.dvd_read.specs.Parts.{AreColumnsFrom, AreSameAnswers, answer_bytes, answer_word};
ghost use Rattle.dvd_read.specs.Inner.Found.{AreRightFrom, IsFirstWrongRow, words_of_columns};
ghost use Rattle.dvd_read.specs.Calls.{AreColumnsAnswered};
ghost use Rattle.dvd_read.specs.Inner.Standing.{AreCompleted, AreOwnFrom};

use crate::column_group::{ColumnGroup, patches_for};
use crate::copying::copy_columns;
use crate::failed::{FailedRows, MOST_FAILED};
use crate::passes::Answered;
use dvd_capture::parts::{AnswerRow, ColumnAnswer};
use rs_code::Po;
use rs_decode::{Erasures, Patches, prove_bytes};
use rs_lanes::{Thirds, any_of, are_zeros, column_values_by, load, store, transposed_values};
use std::simd::prelude::*;

/// Answers all columns of the rows' answers, on this thread. Where bytes added in the failed rows make each column a
/// codeword, they are added in the rows' answers, of which the columns are then copied. Answers whether this is so: the
/// rows' answers have all bytes of the columns then. If not, the columns are answered one by one. Where more rows
/// failed than the second pass can correct, nothing is answered, and `begin` isn't called. The failed rows are handed
/// on with the answer, so that nobody gathers them again.
pub(crate) fn answer_all_columns<F: FnOnce()>(
    answers: &mut [AnswerRow],
    columns: &mut [ColumnAnswer],
    thirds: &mut Thirds,
    begin: F,
) -> Answered
    requires rows { length answers.old ≡ 208 }
    requires columns { length columns.old ≡ 182 }
    requires callable { F.IsAlwaysCallable begin }
    ensures same { AreSameAnswers answers.old answers.new }
    ensures failed { result.failed.marks ≡ failed_of (map answer_word answers.new) }
    ensures answered { AreColumnsAnswered answers.new columns.new result.are_held }
{
    let failed = FailedRows::of(answers);
    // What all columns need of the failed rows' places is computed once, and once more only where they are answered one
    // by one.
    let Some(erasures) = Erasures::shared(&failed.marks, usize::from(MOST_FAILED)) else {
        return Answered {
            failed,
            are_held: false,
        };
    };
    begin();
    let are_completed = complete_rows(&erasures, thirds, answers);
    if are_completed {
        copy_columns(answers, 0, columns);
        mark_answered(columns);
    } else {
        answer_columns(&Po::new(), answers, &failed.marks, 0, columns);
    }
    Answered {
        failed,
        are_held: are_completed,
    }
}

/// Answers the columns from `start` on, one for each place of a piece of the columns. Several workers have a piece
/// each. The code is made once by the caller, since its generator polynomial is computed.
pub fn answer_columns(
    code: &Po,
    answers: &[AnswerRow],
    failed: &[bool; 208],
    start: usize,
    piece: &mut [ColumnAnswer],
)
    requires rows { length answers.now ≡ 208 }
    requires marks { failed.now ≡ failed_of (map answer_word answers.now) }
    requires columns { start + length piece.old ≤ 182 }
    ensures { AreColumnsFrom (map answer_word answers.now) start piece.new }
{
    copy_columns(answers, start, piece);
    // Callers ask how many rows failed before, so that no column is copied in vain. The test is here again because the
    // clause holds of any number of failed rows: with more than sixteen no column has a codeword near it.
    match Erasures::shared(failed, usize::from(MOST_FAILED)) {
        Some(erasures) => answer_copied(code, answers, &erasures, start, piece),
        None => leave_unanswered(piece),
    }
}

// Adds bytes in the failed rows' answers so that all columns are codewords: they are found for 32 columns at once, and
// lie side by side in a row. Answers whether all columns are codewords then. After `false` some bytes may be added that
// are of no column's answer: those of failed rows don't count.
fn complete_rows(erasures: &Erasures<208>, thirds: &mut Thirds, answers: &mut [AnswerRow]) -> bool
    requires rows { length answers.old ≡ 208 }
    requires marks { erasures.now.marks ≡ failed_of (map answer_word answers.old) }
    requires within { marked erasures.now.marks ≤ 16 }
    ensures same { AreSameAnswers answers.old answers.new }
    ensures completed { IsTrue result → AreCompleted answers.new 0 182 }
{
    for group in 0..6usize {
        // 182 is no multiple of 32: the last 32 columns begin at column 150, and some are looked at twice.
        if !complete_group(erasures, thirds, (32 * group).min(150), answers) {
            return false;
        }
    }
    true
}

// The same for the 32 columns from `left` on. All columns before them stay.
fn complete_group(
    erasures: &Erasures<208>,
    thirds: &mut Thirds,
    left: usize,
    answers: &mut [AnswerRow],
) -> bool
    requires rows { length answers.old ≡ 208 }
    requires marks { erasures.now.marks ≡ failed_of (map answer_word answers.old) }
    requires within { marked erasures.now.marks ≤ 16 }
    requires columns { left + 32 ≤ 182 }
    ensures same { AreSameAnswers answers.old answers.new }
    ensures completed { IsTrue result → AreCompleted answers.new left (left + 32) }
    ensures before { (j : ℕ) → j < left → column (answer_bytes answers.new) j ≡ column (answer_bytes answers.old) j }
{
    let values = column_values_by(thirds, answers, left);
    if are_zeros(any_of(&values)) {
        return true;
    }
    let patches = Patches::new(erasures, &values);
    let are_right = patches.are_right();
    if are_right {
        add_patches(erasures, &patches, left, answers);
    }
    are_right
}

// Adds to the failed rows' answers the bytes for the 32 columns from `left` on. The columns before them stay.
fn add_patches(erasures: &Erasures<208>, patches: &Patches, left: usize, answers: &mut [AnswerRow])
    requires rows { length answers.old ≡ 208 }
    requires marks { erasures.now.marks ≡ failed_of (map answer_word answers.old) }
    requires within { marked erasures.now.marks ≤ 16 }
    requires columns { left + 32 ≤ 182 }
    requires bytes { (n : ℕ) → n < 32 → All IsByte (column (answer_bytes answers.old) (left + n)) }
    ensures same { AreSameAnswers answers.old answers.new }
    ensures bytes { (n : ℕ) → n < 32 → All IsByte (column (answer_bytes answers.new) (left + n)) }
    ensures patched { (n : ℕ) → n < 32 → column (answer_bytes answers.new) (left + n)
        ≡ patched (column (answer_bytes answers.old) (left + n)) erasures.now.marks (take (marked erasures.now.marks) (column patches.now.bytes n)) }
    ensures before { (j : ℕ) → j < left → column (answer_bytes answers.new) j ≡ column (answer_bytes answers.old) j }
{
    for (i, place) in erasures.places().iter().enumerate() {
        add_lanes(
            patches.lanes(i),
            &mut answers[usize::from(*place)].bytes,
            left,
        );
    }
}

// Adds 32 bytes to those of a row from place `at` on. Also ensures what the type of the row says.
fn add_lanes(lanes: u8x32, row: &mut [u8; 182], at: usize)
    requires lanes { length lanes ≡ 32 }
    requires at { at + 32 ≤ 182 }
    ensures size { length row.new ≡ 182 }
    ensures bytes { All IsByte row.new }
    ensures added { (n : ℕ) → n < 32 → slice_index row.new (at + n) ≡ plus (slice_index row.old (at + n)) (slice_index lanes n) }
    ensures before { (j : ℕ) → j < at → slice_index row.new j ≡ slice_index row.old j }
{
    store(load(row, at) ^ lanes, row, at);
    prove_bytes(row);
}

/// Whether the columns of the rows' answers are codewords as they are. Thirds are put where the caller has room for
/// them.
pub(crate) fn are_codewords(thirds: &mut Thirds, answers: &[AnswerRow]) -> bool
    requires { length answers.now ≡ 208 }
    ensures { IsTrue result → (j : ℕ) → j < 182 → IsCodeword 208 16 (column (answer_bytes answers.now) j) }
{
    for group in 0..6usize {
        // The last 32 columns begin at column 150.
        let values = column_values_by(thirds, answers, (32 * group).min(150));
        if !are_zeros(any_of(&values)) {
            return false;
        }
    }
    true
}

/// Notes that all columns are answered, by the bytes that they have.
pub(crate) fn mark_answered(columns: &mut [ColumnAnswer])
    ensures size { length columns.new ≡ length columns.old }
    ensures answered { (j : ℕ) (default : ColumnAnswer) → j < length columns.new → (slice_index_or columns.new j default).answered ≡ true }
    ensures bytes { (j : ℕ) (default : ColumnAnswer) → (slice_index_or columns.new j default).bytes ≡ (slice_index_or columns.old j default).bytes }
{
    for column in columns.iter_mut() {
        column.answered = true;
    }
}

// Notes that no column is answered. Of a block that was read before, some may be noted as answered.
fn leave_unanswered(piece: &mut [ColumnAnswer])
    ensures { (k : ℕ) (default : ColumnAnswer) → k < length piece.new → (slice_index_or piece.new k default).answered ≡ false }
{
    for column in piece.iter_mut() {
        column.answered = false;
    }
}

// Answers columns whose bytes are copied, with the failed rows marked.
fn answer_copied(
    code: &Po,
    answers: &[AnswerRow],
    erasures: &Erasures<208>,
    start: usize,
    piece: &mut [ColumnAnswer],
)
    requires rows { length answers.now ≡ 208 }
    requires marks { erasures.now.marks ≡ failed_of (map answer_word answers.now) }
    requires within { marked erasures.now.marks ≤ 16 }
    requires columns { start + length piece.old ≤ 182 }
    requires own { AreOwnFrom answers.now start piece.old }
    ensures { AreColumnsFrom (map answer_word answers.now) start piece.new }
{
    // Room for all groups, so that it is set to zeros once.
    let mut thirds = [[u8x32::splat(0); 3]; 85];
    for group in 0..piece.len().div_ceil(32) {
        let at = 32 * group;
        let end = piece.len().min(at + 32);
        answer_group(
            code,
            answers,
            erasures,
            &mut thirds,
            start + at,
            &mut piece[at..end],
        );
    }
}

// Answers at most 32 of these columns, in their places: their bytes are copies, so nothing received is lost. The values
// that test a column are its syndromes too, so that a column isn't read once more to be decoded. Where rows failed, all
// columns need bytes in these rows: they are found for 32 at once. What the thirds were isn't read.
fn answer_group(
    code: &Po,
    answers: &[AnswerRow],
    erasures: &Erasures<208>,
    thirds: &mut Thirds,
    start: usize,
    piece: &mut [ColumnAnswer],
)
    requires rows { length answers.now ≡ 208 }
    requires marks { erasures.now.marks ≡ failed_of (map answer_word answers.now) }
    requires within { marked erasures.now.marks ≤ 16 }
    requires few { length piece.old ≤ 32 }
    requires columns { start + length piece.old ≤ 182 }
    requires own { AreOwnFrom answers.now start piece.old }
    ensures size { length piece.new ≡ length piece.old }
    ensures columns { AreColumnsFrom (map answer_word answers.now) start piece.new }
{
    // The values of 32 columns are found even where fewer follow: the last 32 begin at column 150. They are those of
    // the rows' answers, where the bytes of 32 columns lie side by side, and so of the columns as they were copied.
    let left = start.min(150);
    let values = column_values_by(thirds, answers, left);
    let group = ColumnGroup::new(code, &values);
    let patches = patches_for(erasures, &values);
    for (k, column) in piece.iter_mut().enumerate() {
        let n = start - left + k;
        column.answered = group.answer(erasures, &patches, n, &mut column.bytes);
    }
}

/// The first column that has no answer. A refusal names it, so the order is that of the columns. Its number has 16
/// bits, as causes have it.
pub(crate) fn first_missing(columns: &[ColumnAnswer]) -> Option<u16>
    requires { length columns.now ≡ 182 }
    ensures { result ≡ position (λ column. not column.answered) columns.now }
{
    for (j, column) in columns.iter().enumerate() {
        if !column.answered {
            return Some(j as u16);
        }
    }
    None
}

/// The first row of the columns' words that isn't a codeword. The groups are in rising order, and rows that two of them
/// share were right in the first. Each column has a word here, since callers ask `first_missing` before; of one without
/// an answer it would be the bytes that were copied.
pub(crate) fn first_wrong(columns: &[ColumnAnswer]) -> Option<u16>
    requires { length columns.now ≡ 182 }
    ensures { result ≡ position (λ row. not (vanishes_at_all 10 row)) (from_columns (words_of_columns columns.now)) }
{
    for group in 0..7usize {
        // The last 32 rows begin at row 176.
        let top = (32 * group).min(176);
        if let Some(i) = first_wrong_from(columns, top) {
            return Some(i);
        }
    }
    None
}

// The first of the 32 rows from `top` on that isn't a codeword: 32 are tested at once, by their values.
fn first_wrong_from(columns: &[ColumnAnswer], top: usize) -> Option<u16>
    requires columns { length columns.now ≡ 182 }
    requires top { top + 32 ≤ 208 }
    ensures { MatchOption result (AreRightFrom columns.now top 32) (λ i. IsFirstWrongRow columns.now top i) }
{
    let wrong = any_of(&transposed_values(&transposed_rows(columns, top)));
    for n in 0..32usize {
        if wrong[n] != 0 {
            return Some((top + n) as u16);
        }
    }
    None
}

// The 32 rows of the columns' words from `top` on, a vector for each place. Columns are stored as such, so that each
// gives a vector without being transposed.
fn transposed_rows(columns: &[ColumnAnswer], top: usize) -> [u8x32; 182]
    requires columns { length columns.now ≡ 182 }
    requires top { top + 32 ≤ 208 }
    ensures size { length result ≡ 182 }
    ensures rows { (n : ℕ) → n < 32 → column result n ≡ line (from_columns (words_of_columns columns.now)) (top + n) }
{
    let mut transposed = [u8x32::splat(0); 182];
    for j in 0..182usize {
        transposed[j] = lanes_at(&columns[j].bytes, top);
    }
    transposed
}

// The 32 bytes of a column from place `at` on. Its type has the 208 bytes that `load` has to be shown of a slice.
fn lanes_at(word: &[u8; 208], at: usize) -> u8x32
    requires { at + 32 ≤ 208 }
    ensures { (n : ℕ) → n < 32 → slice_index result n ≡ slice_index word.now (at + n) }
{
    load(word, at)
}

/// Writes row `i` of the columns' words, a byte of each column. It reads every column for one row, so callers that know
/// of the row elsewhere don't call it. The row is the caller's, who may use it for the next one too.
pub(crate) fn read_row(columns: &[ColumnAnswer], i: usize, row: &mut [u8; 182])
    requires columns { length columns.now ≡ 182 }
    requires row { i < 208 }
    ensures { row.new ≡ line (from_columns (words_of_columns columns.now)) i }
{
    for j in 0..182usize {
        row[j] = columns[j].bytes[i];
    }
}
