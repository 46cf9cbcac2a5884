//! Columns copied of rows: 32 rows at a time, transposed, so that 32 bytes of a column are one vector. A row has 182
//! bytes side by side, and a column 208, so that a copy byte by byte would touch another row for each byte of a column.
//! In clauses `AreCopied` says that the columns have the bytes of the rows' answers before one, `AreOwnFrom` that they
//! have those of all, and `AreColumnsOf` that they have the bytes of rows that needn't be answers. `wide` says what the
//! type does: the prover doesn't know the length of an array in a list.
ghost use Rattle.std.specs.Prelude.{◌≡◌, ℕ, ◌+◌, ◌<◌, ◌≤◌, List, length, slice_index, slice_index_or};
ghost use Rattle.coding.specs.Product.{place};
ghost use Rattle.dvd_read.specs.Inner.Standing.{AreColumnsOf, AreCopied, AreOwnFrom};

use dvd_capture::parts::{AnswerRow, ColumnAnswer};
use rs_lanes::{load_transposed, store};
use std::simd::prelude::*;

/// Writes columns of the rows' bytes, of failed rows too: sixteen at a time, as many as are transposed at once. A failed
/// row is marked, so its bytes don't count and needn't be set to 0: all columns are copied alike.
pub(crate) fn copy_columns(answers: &[AnswerRow], start: usize, piece: &mut [ColumnAnswer])
    requires rows { length answers.now ≡ 208 }
    requires columns { start + length piece.old ≤ 182 }
    ensures { AreOwnFrom answers.now start piece.new }
{
    for tile in 0..piece.len().div_ceil(16) {
        let at = 16 * tile;
        let end = piece.len().min(at + 16);
        copy_tile(answers, start + at, &mut piece[at..end]);
    }
}

// Writes at most sixteen columns.
fn copy_tile(answers: &[AnswerRow], start: usize, piece: &mut [ColumnAnswer])
    requires rows { length answers.now ≡ 208 }
    requires few { length piece.old ≤ 16 }
    requires columns { start + length piece.old ≤ 182 }
    ensures size { length piece.new ≡ length piece.old }
    ensures own { AreOwnFrom answers.now start piece.new }
{
    for group in 0..6 {
        copy_rows(answers, 32 * group, start, piece);
    }
    // 208 is no multiple of 32: the last 32 rows repeat sixteen of the group before. The groups come in rising order,
    // since `copy_rows` ensures only that the rows before its own stay.
    copy_rows(answers, 176, start, piece);
}

// Writes into each of at most sixteen columns the bytes of the 32 rows' answers from `top` on. There are fewer at the
// end of a piece alone.
fn copy_rows(answers: &[AnswerRow], top: usize, start: usize, piece: &mut [ColumnAnswer])
    requires rows { length answers.now ≡ 208 }
    requires top { top + 32 ≤ 208 }
    requires few { length piece.old ≤ 16 }
    requires columns { start + length piece.old ≤ 182 }
    ensures size { length piece.new ≡ length piece.old }
    ensures wide { (j : ℕ) (default : ColumnAnswer) → j < length piece.new → length (slice_index_or piece.new j default).bytes ≡ 208 }
    ensures copied { AreCopied answers.now start piece.old top → AreCopied answers.now start piece.new (top + 32) }
{
    if piece.len() == 16 {
        copy_sixteen(answers, top, start, piece);
    } else {
        copy_few(answers, top, start, piece);
    }
}

// The same for sixteen columns. Their number is a constant, so that the vectors stay in registers.
#[inline(always)]
fn copy_sixteen(answers: &[AnswerRow], top: usize, start: usize, piece: &mut [ColumnAnswer])
    requires rows { length answers.now ≡ 208 }
    requires top { top + 32 ≤ 208 }
    requires sixteen { length piece.old ≡ 16 }
    requires columns { start + 16 ≤ 182 }
    ensures size { length piece.new ≡ 16 }
    ensures wide { (j : ℕ) (default : ColumnAnswer) → j < 16 → length (slice_index_or piece.new j default).bytes ≡ 208 }
    ensures copied { AreCopied answers.now start piece.old top → AreCopied answers.now start piece.new (top + 32) }
{
    let transposed = load_transposed(answers, top, start);
    for j in 0..16usize {
        put_lanes(transposed[j], top, &mut piece[j].bytes);
    }
}

// The same for any number of them.
fn copy_few(answers: &[AnswerRow], top: usize, start: usize, piece: &mut [ColumnAnswer])
    requires rows { length answers.now ≡ 208 }
    requires top { top + 32 ≤ 208 }
    requires few { length piece.old ≤ 16 }
    requires columns { start + length piece.old ≤ 182 }
    ensures size { length piece.new ≡ length piece.old }
    ensures wide { (j : ℕ) (default : ColumnAnswer) → j < length piece.new → length (slice_index_or piece.new j default).bytes ≡ 208 }
    ensures copied { AreCopied answers.now start piece.old top → AreCopied answers.now start piece.new (top + 32) }
{
    // Sixteen places are transposed even where fewer follow: the last sixteen begin at place 166. So column `start` is
    // vector `start - at` of them.
    let at = start.min(166);
    let transposed = load_transposed(answers, top, at);
    for (j, column) in piece.iter_mut().enumerate() {
        put_lanes(transposed[start - at + j], top, &mut column.bytes);
    }
}

/// Writes 32 rows, which are transposed, into all columns, from place `top` on: vector `j` has their bytes in column
/// `j`. Rows before them stay. Also ensures the lengths of columns, which have their type.
pub(crate) fn copy_transposed(transposed: &[u8x32; 182], top: usize, columns: &mut [ColumnAnswer])
    requires top { top + 32 ≤ 208 }
    requires columns { length columns.old ≡ 182 }
    ensures size { length columns.new ≡ 182 }
    ensures wide { (j : ℕ) (default : ColumnAnswer) → j < 182 → length (slice_index_or columns.new j default).bytes ≡ 208 }
    ensures copied { (rows : List (List ℕ)) → ((j n : ℕ) → j < 182 → n < 32 → place transposed.now j n ≡ place rows (top + n) j)
        → AreColumnsOf rows columns.old top → AreColumnsOf rows columns.new (top + 32) }
{
    for j in 0..182usize {
        put_lanes(transposed[j], top, &mut columns[j].bytes);
    }
}

// Writes 32 bytes of a column. Also ensures its length, which the type of the array has and a slice wouldn't.
fn put_lanes(lanes: u8x32, at: usize, word: &mut [u8; 208])
    requires { at + 32 ≤ 208 }
    ensures size { length word.new ≡ 208 }
    ensures set { (n : ℕ) → n < 32 → slice_index word.new (at + n) ≡ slice_index lanes n }
    ensures below { (i : ℕ) → i < at → slice_index word.new i ≡ slice_index word.old i }
{
    store(lanes, word, at);
}
