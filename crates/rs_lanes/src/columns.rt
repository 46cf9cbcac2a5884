//! The columns of an ECC block, 32 at once. A vector has the bytes of one row in 32 columns, so that the rows needn't
//! be transposed.
//!
//! Values are found by thirds. With 47 zeros before it a column is three pieces of 85 bytes. They are added up to one
//! piece in three ways: each sum, a third, has the values of the column at those alpha^k whose k has one remainder by
//! 3. Horner's rule, a row at a time, would take a product for each row and value, 16 times 208. Thirds take less than
//! a fifth of that: the 208 rows are read once for all values, and 85 places are left. What is done for each row is
//! inlined, so that its vectors needn't pass through memory. In contracts `filled 208` is a column followed by zeros,
//! up to 208 places. A vector is a list there, whose length its type doesn't say: so `lanes` says it.
ghost use Rattle.std.specs.Prelude.{◌≡◌, ℕ, ◌+◌, ◌*◌, ◌<◌, ◌≤◌, List, ◌++◌, length, map, slice_index, EachIndex, All};
ghost use Rattle.coding.specs.Field.{alpha, power};
ghost use Rattle.coding.specs.Words.{IsByte, IsEncoded, value};
ghost use Rattle.coding.specs.Rows.{line, place, column};
ghost use Rattle.rs_lanes.specs.Inner.Lanes.{HasLanes};
ghost use Rattle.rs_lanes.specs.Inner.Parity.{filled};
ghost use Rattle.rs_lanes.specs.Inner.Thirds.{after_zeros, third, AreStored, IsThird};

use crate::fold3::{Thirds, rotated_thirds, values_of};
use crate::lanes::{load, store};
use crate::matrices::PO_MATRIX;
use crate::parity::parity_of;
use crate::row::Row;
use std::simd::prelude::*;

/// Sets all bytes of sixteen rows to the outer parity of 192 rows: each column is then followed by its parity. What
/// they had isn't read. The rows are two slices, as a caller that has 208 rows splits them: the upper are only read.
pub fn outer_parity(rows: &[[u8; 182]], parity: &mut [[u8; 182]])
    requires rows { length rows.now ≡ 192 }
    requires parity { length parity.old ≡ 16 }
    ensures size { length parity.new ≡ 16 }
    ensures sizes { (k : ℕ) → k < 16 → length (line parity.new k) ≡ 182 }
    ensures encoded { (j : ℕ) → j < 182 → IsEncoded 208 16 (column rows.now j) (column rows.now j ++ column parity.new j) }
{
    // Room for all groups, so that it is set to zeros once.
    let mut thirds = [[u8x32::splat(0); 3]; 85];
    for group in 0..5 {
        put_parity(&mut thirds, rows, 32 * group, parity);
    }
    // 182 is no multiple of 32: the last 32 columns repeat ten of the group before, whose bytes are set again alike.
    put_parity(&mut thirds, rows, 150, parity);
}

/// The values of the 32 columns from `at` on of 208 rows at alpha^0 to alpha^15, a vector for each of these powers:
/// that of column `at + n` is in lane `n`. A column is a codeword where all are 0, and for a decoder they are the
/// syndromes. The rows are only read, and may be a decoder's answers, with more than their bytes. The thirds serve all
/// sixteen values, so that each row is read once. Also ensures that the elements of the columns are bytes,
/// which a codeword has to be made of.
pub fn column_values<T: Row>(rows: &[T], at: usize) -> [u8x32; 16]
    requires at { at + 32 ≤ 182 }
    requires rows { length rows.now ≡ 208 }
    ensures bytes { (j : ℕ) → j < 32 → All IsByte (column (map T.word rows.now) (at + j)) }
    ensures lanes { EachIndex result (λ k. length (line result k) ≡ 32) }
    ensures values { (k j : ℕ) → k < 16 → j < 32 → place result k j ≡ value (column (map T.word rows.now) (at + j)) (power alpha k) }
{
    column_values_by(&mut [[u8x32::splat(0); 3]; 85], rows, at)
}

/// The values of 32 columns as `column_values` has them, by thirds that are put where the caller has room for them, as
/// `row_values_by` has those of rows.
pub fn column_values_by<T: Row>(thirds: &mut Thirds, rows: &[T], at: usize) -> [u8x32; 16]
    requires at { at + 32 ≤ 182 }
    requires rows { length rows.now ≡ 208 }
    ensures bytes { (j : ℕ) → j < 32 → All IsByte (column (map T.word rows.now) (at + j)) }
    ensures lanes { EachIndex result (λ k. length (line result k) ≡ 32) }
    ensures values { (k j : ℕ) → k < 16 → j < 32 → place result k j ≡ value (column (map T.word rows.now) (at + j)) (power alpha k) }
{
    put_thirds(rows, 208, at, thirds);
    values_of(thirds)
}

/// The outer parity of the 32 columns from `at` on of 192 rows, a vector for each of its sixteen bytes. Lane `n` is for
/// column `at + n`. A parity has the same values as its column with zeros in its place: the sum of both is then 0 at
/// each root. It is public for callers that write the parity elsewhere than in rows. Thirds are put where the caller has
/// room for them, as in `column_values_by`.
pub fn parity_of_columns(thirds: &mut Thirds, rows: &[[u8; 182]], at: usize) -> [u8x32; 16]
    requires at { at + 32 ≤ 182 }
    requires rows { length rows.now ≡ 192 }
    ensures lanes { EachIndex result (λ k. length (line result k) ≡ 32) }
    ensures encoded { (j : ℕ) → j < 32 → IsEncoded 208 16 (column rows.now (at + j)) (column rows.now (at + j) ++ column result j) }
{
    put_thirds(rows, 192, at, thirds);
    parity_of(&PO_MATRIX, &values_of(thirds))
}

// Sets the outer parity of the 32 columns from `at` on. All else stays, so that groups of columns are set one by one.
fn put_parity(thirds: &mut Thirds, rows: &[[u8; 182]], at: usize, parity: &mut [[u8; 182]])
    requires at { at + 32 ≤ 182 }
    requires rows { length rows.now ≡ 192 }
    requires parity { length parity.old ≡ 16 }
    ensures size { length parity.new ≡ 16 }
    ensures sizes { (k : ℕ) → k < 16 → length (line parity.new k) ≡ 182 }
    ensures encoded { (j : ℕ) → j < 32 → IsEncoded 208 16 (column rows.now (at + j)) (column rows.now (at + j) ++ column parity.new (at + j)) }
    ensures below { (k j : ℕ) → j < at → place parity.new k j ≡ place parity.old k j }
    ensures above { (k j : ℕ) → at + 32 ≤ j → place parity.new k j ≡ place parity.old k j }
{
    put_vectors(&parity_of_columns(thirds, rows, at), at, parity);
}

// Sets the bytes of 32 columns, from `at` on, to those of the vectors: vector `k` has the bytes of row `k`. All others
// stay, as groups of columns may share some.
#[inline(always)]
fn put_vectors(vectors: &[u8x32; 16], at: usize, parity: &mut [[u8; 182]])
    requires at { at + 32 ≤ 182 }
    requires parity { length parity.old ≡ 16 }
    ensures size { length parity.new ≡ 16 }
    ensures sizes { (k : ℕ) → k < 16 → length (line parity.new k) ≡ 182 }
    ensures set { (k j : ℕ) → k < 16 → j < 32 → place parity.new k (at + j) ≡ place vectors.now k j }
    ensures below { (k j : ℕ) → j < at → place parity.new k j ≡ place parity.old k j }
    ensures above { (k j : ℕ) → at + 32 ≤ j → place parity.new k j ≡ place parity.old k j }
{
    for k in 0..16 {
        put_lanes(vectors[k], &mut parity[k], at);
    }
}

// Sets the 32 places from `at` on in a row. Also ensures that the row has 182 places. It is passed by itself, as an
// array, since of a row in a list this isn't known.
#[inline(always)]
fn put_lanes(lanes: u8x32, row: &mut [u8; 182], at: usize)
    requires { at + 32 ≤ 182 }
    ensures size { length row.new ≡ 182 }
    ensures set { (k : ℕ) → k < 32 → slice_index row.new (at + k) ≡ slice_index lanes k }
    ensures below { (k : ℕ) → k < at → slice_index row.new k ≡ slice_index row.old k }
    ensures above { (k : ℕ) → at + 32 ≤ k → slice_index row.new k ≡ slice_index row.old k }
{
    store(lanes, row, at);
}

// The 32 bytes of a row from place `at` on. An array is passed, so that its length is known to suffice.
#[inline(always)]
fn lanes_at(row: &[u8; 182], at: usize) -> u8x32
    requires { at + 32 ≤ 182 }
    ensures { HasLanes result (λ k. slice_index row.now (at + k)) }
{
    load(row, at)
}

// Sets all thirds to those of the 32 columns from `at` on, of 208 rows or of fewer with zeros below. They are put where
// the caller has them, so that 8,160 bytes needn't be copied. `count` is the number of rows, as a constant where this
// is inlined: few places need a test then. Also ensures that the elements of the columns are bytes.
#[inline(always)]
fn put_thirds<T: Row>(rows: &[T], count: usize, at: usize, thirds: &mut [[u8x32; 3]; 85])
    requires at { at + 32 ≤ 182 }
    requires count { count ≤ 208 }
    requires rows { length rows.now ≡ count }
    ensures bytes { (j : ℕ) → j < 32 → All IsByte (column (map T.word rows.now) (at + j)) }
    ensures thirds { (i j : ℕ) → i < 3 → j < 32 → IsThird i (filled 208 (column (map T.word rows.now) (at + j))) (third thirds.new i j) }
{
    // There is a call for each piece, so that its rotations are a constant where this is inlined.
    put_piece(rows, count, at, 0, thirds);
    put_piece(rows, count, at, 1, thirds);
    put_piece(rows, count, at, 2, thirds);
    put_piece(rows, count, at, 3, thirds);
    put_piece(rows, count, at, 4, thirds);
}

// Sets one of the five pieces of all thirds, rotated as `fold5` needs it; the pieces before it stay. Place `place` of a
// third is made of that place of the word's three pieces.
#[inline(always)]
fn put_piece<T: Row>(
    rows: &[T],
    count: usize,
    at: usize,
    piece: usize,
    thirds: &mut [[u8x32; 3]; 85],
)
    requires at { at + 32 ≤ 182 }
    requires count { count ≤ 208 }
    requires rows { length rows.now ≡ count }
    requires piece { piece < 5 }
    ensures { AreStored 47 (λ j. filled 208 (column (map T.word rows.now) (at + j))) (17 * piece) thirds.old
        → AreStored 47 (λ j. filled 208 (column (map T.word rows.now) (at + j))) (17 * piece + 17) thirds.new }
{
    for q in 0..17 {
        let place = 17 * piece + q;
        thirds[place] = rotated_thirds(
            2 * (4 - piece),
            padded(rows, count, at, place),
            padded(rows, count, at, 85 + place),
            padded(rows, count, at, 170 + place),
        );
    }
}

// A place of these columns after 47 zeros are put before each. A column has 208 bytes and three pieces 255. Zeros in
// front of a word change none of its values.
#[inline(always)]
fn padded<T: Row>(rows: &[T], count: usize, at: usize, place: usize) -> u8x32
    requires at { at + 32 ≤ 182 }
    requires rows { length rows.now ≡ count }
    requires place { place < 255 }
    ensures { (j : ℕ) → j < 32
        → slice_index result j ≡ slice_index (after_zeros 47 (filled 208 (column (map T.word rows.now) (at + j)))) place }
{
    if place < 47 {
        u8x32::splat(0)
    } else {
        lanes_or_zeros(rows, count, place - 47, at)
    }
}

// The 32 bytes of row `i` from place `at` on, or zeros below the last row. Rows that are missing are those of the
// parity, in whose place zeros are read.
#[inline(always)]
fn lanes_or_zeros<T: Row>(rows: &[T], count: usize, i: usize, at: usize) -> u8x32
    requires at { at + 32 ≤ 182 }
    requires rows { length rows.now ≡ count }
    ensures { (j : ℕ) → j < 32 → slice_index result j ≡ place (map T.word rows.now) i (at + j) }
{
    if i < count {
        lanes_at(rows[i].row(), at)
    } else {
        u8x32::splat(0)
    }
}
