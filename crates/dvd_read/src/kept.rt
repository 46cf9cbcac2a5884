//! Whether the columns keep the rows that were answered, by comparing both, and the failed rows' bytes where they do.
//! Workers who answered pieces of the columns apart from each other can't know it. A row that is kept is a codeword
//! already, and needs no test.
//! 32 rows and sixteen columns are compared at once, in vectors with a lane for each row. In clauses `IsRowKept` says
//! that the columns from one place to the one before another have the bytes of a row's answer. A vector is a list
//! there, whose length its type doesn't say: so clauses say that there are 32 lanes. A lane of `any_of` is 0 exactly
//! where that lane of each vector is.
ghost use Rattle.std.specs.Prelude.{◌≡◌, ◌↔◌, ℕ, ◌+◌, ◌<◌, ◌≤◌, IsTrue, false, is_some, length, map, slice_index, slice_index_or};
ghost use Rattle.coding.specs.Product.{line};
ghost use Rattle.coding.specs.TwoPass.{failed_of, from_columns};
ghost use Rattle.dvd_capture.specs.declared.parts.AnswerRow.{AnswerRow};
ghost use Rattle.dvd_capture.specs.declared.parts.ColumnAnswer.{ColumnAnswer};
ghost use Rattle.dvd_read.specs.Parts.{AreColumnsHeld, AreKeptFrom, AreSameAnswers, answer_word};
ghost use Rattle.dvd_read.specs.Inner.Found.{words_of_columns};
ghost use Rattle.dvd_read.specs.Inner.Standing.{IsRowKept};

use crate::columns::read_row;
use dvd_capture::parts::{AnswerRow, ColumnAnswer};
use rs_lanes::{any_of, load, load_transposed};
use std::simd::prelude::*;

/// Writes the failed rows of the columns' block into their answers, where the columns have, in each row that didn't
/// fail, the bytes of the rows' answers. Answers whether they have: then the answers have all bytes of the columns.
/// Only passes with several workers ask this: a worker who answers all columns completes the rows as he does so.
pub fn hold_columns(
    answers: &mut [AnswerRow],
    failed: &[bool; 208],
    columns: &[ColumnAnswer],
) -> bool
    requires rows { length answers.old ≡ 208 }
    requires marks { failed.now ≡ failed_of (map answer_word answers.old) }
    requires columns { length columns.now ≡ 182 }
    ensures kept { IsTrue result ↔ AreKeptFrom answers.old 0 columns.now }
    ensures same { AreSameAnswers answers.old answers.new }
    ensures held { IsTrue result → AreColumnsHeld answers.new columns.now }
    ensures left { result ≡ false → answers.new ≡ answers.old }
{
    let are_held = are_kept(answers, failed, columns);
    if are_held {
        fill_failed(answers, columns);
    }
    are_held
}

// Whether the columns of a block have, in each row that didn't fail, the bytes of the rows' answers. It ends at the
// first difference, since then all rows are tested in any case.
fn are_kept(answers: &[AnswerRow], failed: &[bool; 208], columns: &[ColumnAnswer]) -> bool
    requires rows { length answers.now ≡ 208 }
    requires marks { failed.now ≡ failed_of (map answer_word answers.now) }
    requires columns { length columns.now ≡ 182 }
    ensures { IsTrue result ↔ AreKeptFrom answers.now 0 columns.now }
{
    for group in 0..7usize {
        // 208 is no multiple of 32: the last 32 rows begin at row 176, and some are compared twice.
        if !are_rows_kept(answers, failed, columns, (32 * group).min(176)) {
            return false;
        }
    }
    true
}

// Writes into the answer of each failed row its row of the columns' block. A column has one byte of a row, so a row is
// gathered from all of them: once, for all that read it after this. The others stay.
fn fill_failed(answers: &mut [AnswerRow], columns: &[ColumnAnswer])
    requires columns { length columns.now ≡ 182 }
    ensures same { AreSameAnswers answers.old answers.new }
    ensures failed { (i : ℕ) (default : AnswerRow) → i < length answers.old → i < 208 → is_some (slice_index_or answers.old i default).fix ≡ false
        → (slice_index_or answers.new i default).bytes ≡ line (from_columns (words_of_columns columns.now)) i }
{
    for i in 0..answers.len().min(208) {
        if answers[i].fix.is_none() {
            read_row(columns, i, &mut answers[i].bytes);
        }
    }
}

// The same of the 32 rows from `top` on.
fn are_rows_kept(
    answers: &[AnswerRow],
    failed: &[bool; 208],
    columns: &[ColumnAnswer],
    top: usize,
) -> bool
    requires rows { length answers.now ≡ 208 }
    requires columns { length columns.now ≡ 182 }
    requires top { top + 32 ≤ 208 }
    ensures { IsTrue result ↔ ((n : ℕ) → n < 32 → slice_index_or failed.now (top + n) false ≡ false → IsRowKept answers.now columns.now (top + n) 0 182) }
{
    let changed = rows_changed(answers, columns, top);
    for n in 0..32usize {
        // Failed rows may differ: no codeword is near them, and the columns give their bytes.
        if changed[n] != 0 && !failed[top + n] {
            return false;
        }
    }
    true
}

// Lanes that are zero where the columns have the bytes of the rows' answers: lane `n` for row `top + n`. Failed rows
// are compared too, and the caller passes over their lanes: no lane can be left out of a vector.
fn rows_changed(answers: &[AnswerRow], columns: &[ColumnAnswer], top: usize) -> u8x32
    requires rows { length answers.now ≡ 208 }
    requires columns { length columns.now ≡ 182 }
    requires top { top + 32 ≤ 208 }
    ensures size { length result ≡ 32 }
    ensures zeros { (n : ℕ) → n < 32 → (slice_index result n ≡ 0) ↔ IsRowKept answers.now columns.now (top + n) 0 182 }
{
    let mut tiles = [u8x32::splat(0); 12];
    for tile in 0..12usize {
        // 182 is no multiple of sixteen: the last sixteen columns begin at column 166.
        tiles[tile] = tile_changed(answers, columns, top, (16 * tile).min(166));
    }
    any_of(&tiles)
}

// The same of the sixteen columns from `at` on: as many as are transposed at once. Rows have their bytes side by side,
// and columns theirs, so that one of both has to be transposed to be compared.
fn tile_changed(answers: &[AnswerRow], columns: &[ColumnAnswer], top: usize, at: usize) -> u8x32
    requires rows { length answers.now ≡ 208 }
    requires columns { length columns.now ≡ 182 }
    requires top { top + 32 ≤ 208 }
    requires at { at + 16 ≤ 182 }
    ensures size { length result ≡ 32 }
    ensures zeros { (n : ℕ) → n < 32 → (slice_index result n ≡ 0) ↔ IsRowKept answers.now columns.now (top + n) at (at + 16) }
{
    let transposed = load_transposed(answers, top, at);
    let mut differences = [u8x32::splat(0); 16];
    for j in 0..16usize {
        differences[j] = difference(transposed[j], &columns[at + j].bytes, top);
    }
    any_of(&differences)
}

// Lanes that are zero where these are the 32 bytes of a column from `top` on: the exclusive or of two bytes is 0 where
// they are equal.
fn difference(lanes: u8x32, word: &[u8; 208], top: usize) -> u8x32
    requires lanes { length lanes ≡ 32 }
    requires top { top + 32 ≤ 208 }
    ensures { (n : ℕ) → n < 32 → (slice_index result n ≡ 0) ↔ (slice_index word.now (top + n) ≡ slice_index lanes n) }
{
    load(word, top) ^ lanes
}
