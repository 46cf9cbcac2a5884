//! Columns of bytes as words with two parity bytes, 32 columns at once. A word is a codeword where its values at 1 and
//! at alpha are 0. W is the length of the rows, so there are W words: 86 P words or 52 Q words. A vector has 32 lanes,
//! a byte for each column; alpha is 2. What has vectors is inlined, so that these needn't pass through memory. Clauses
//! `size` repeat the length that a type has, for the proofs of callers.
ghost use Rattle.std.specs.Prelude.{◌≡◌, ◌↔◌, ℕ, ◌+◌, ◌<◌, ◌≤◌, [], ◌∷◌, ◌++◌, length, slice_index, All};
ghost use Rattle.coding.specs.Field.{alpha, plus, product};
ghost use Rattle.coding.specs.Words.{IsByte, IsCodeword, value};
ghost use Rattle.coding.specs.Rows.{line, place, column};
ghost use Rattle.rs_lanes.specs.Inner.Lanes.{HasLanes};

use rs_lanes::{any_of, load, multiple, store, with_multiple};
use std::simd::prelude::*;

/// A byte for each column, which is 0 exactly where the column is a codeword. Any other byte says no more than that it
/// isn't: it is the OR of the two values.
pub(crate) fn faults<const W: usize>(rows: &[[u8; W]]) -> [u8; W]
    requires { 32 ≤ W }
    ensures size { length result ≡ W }
    ensures codewords { (j : ℕ) → j < W → (slice_index result j ≡ 0) ↔ IsCodeword (length rows.now) 2 (column rows.now j) }
{
    let mut faults = [0; W];
    for group in 0..W / 32 {
        put_faults(rows, 32 * group, &mut faults);
    }
    // Neither kind of row is a multiple of 32 bytes long: the last 32 columns repeat some of those before.
    put_faults(rows, W - 32, &mut faults);
    faults
}

/// Two rows that make each column a codeword when they follow the others, the first of them first. All columns are
/// encoded at once, which `Code` does word by word.
pub(crate) fn parity<const W: usize>(rows: &[[u8; W]]) -> [[u8; W]; 2]
    requires { 32 ≤ W }
    ensures codewords { (j : ℕ) → j < W
        → IsCodeword (length rows.now + 2) 2 (column rows.now j ++ place result 0 j ∷ place result 1 j ∷ []) }
    ensures first_size { length (line result 0) ≡ W }
    ensures second_size { length (line result 1) ≡ W }
{
    let mut first = [0; W];
    let mut second = [0; W];
    for group in 0..W / 32 {
        put_parity(rows, 32 * group, &mut first, &mut second);
    }
    // The last 32 columns, as above.
    put_parity(rows, W - 32, &mut first, &mut second);
    [first, second]
}

// Sets the bytes of the 32 columns from `at` on: 0 where both values are, else another number. All before them stay; of
// those after nothing is said, since groups are set from the first on.
#[inline(always)]
fn put_faults<const W: usize>(rows: &[[u8; W]], at: usize, faults: &mut [u8; W])
    requires { at + 32 ≤ W }
    ensures size { length faults.new ≡ W }
    ensures set { (j : ℕ) → j < 32
        → (slice_index faults.new (at + j) ≡ 0) ↔ IsCodeword (length rows.now) 2 (column rows.now (at + j)) }
    ensures below { (j : ℕ) → j < at → slice_index faults.new j ≡ slice_index faults.old j }
{
    store(any_of(&values_at(rows, at)), faults, at);
}

// Sets the parity of the 32 columns from `at` on. All before it stays, and nothing is said of what comes after.
#[inline(always)]
fn put_parity<const W: usize>(
    rows: &[[u8; W]],
    at: usize,
    first: &mut [u8; W],
    second: &mut [u8; W],
)
    requires { at + 32 ≤ W }
    ensures set { (j : ℕ) → j < 32
        → IsCodeword (length rows.now + 2) 2
        (column rows.now (at + j) ++ slice_index first.new (at + j) ∷ slice_index second.new (at + j) ∷ []) }
    ensures first_size { length first.new ≡ W }
    ensures second_size { length second.new ≡ W }
    ensures first_below { (j : ℕ) → j < at → slice_index first.new j ≡ slice_index first.old j }
    ensures second_below { (j : ℕ) → j < at → slice_index second.new j ≡ slice_index second.old j }
{
    let [sum, value] = values_at(rows, at);
    // The two parity bytes add up to the sum of the column, and 3 times the first is this sum plus 4 times the value at
    // alpha: before two more bytes the column's value counts alpha^2 times, the first of them counts alpha times, and
    // the second is the sum plus the first. In the field 1/3 is 0xF4, and 4/3 is 0xF7.
    let lanes = with_multiple(multiple(sum, 0xF4), value, 0xF7);
    store(lanes, first, at);
    store(lanes ^ sum, second, at);
}

// The values at 1 and at alpha of the 32 columns from `at` on, the sum being the value at 1. Also ensures that the
// columns are bytes, which a codeword has to be, and which the checker has from loading them into vectors.
#[inline(always)]
fn values_at<const W: usize>(rows: &[[u8; W]], at: usize) -> [u8x32; 2]
    requires { at + 32 ≤ W }
    ensures bytes { (j : ℕ) → j < 32 → All IsByte (column rows.now (at + j)) }
    ensures sums { HasLanes (line result 0) (λ j. value (column rows.now (at + j)) 1) }
    ensures values { HasLanes (line result 1) (λ j. value (column rows.now (at + j)) alpha) }
{
    let mut sum = u8x32::splat(0);
    let mut value = u8x32::splat(0);
    for m in 0..rows.len() {
        [sum, value] = with_row(sum, value, load(&rows[m], at));
    }
    [sum, value]
}

// A step of Horner's rule at 1, where no product is needed, and at alpha, which is 2. Also ensures that the lanes of
// `row` are bytes.
#[inline(always)]
fn with_row(sum: u8x32, value: u8x32, row: u8x32) -> [u8x32; 2]
    ensures bytes { (j : ℕ) → j < 32 → slice_index row j < 256 }
    ensures sums { HasLanes (line result 0) (λ j. plus (slice_index sum j) (slice_index row j)) }
    ensures values { HasLanes (line result 1) (λ j. plus (slice_index row j) (product (slice_index value j) 2)) }
{
    [sum ^ row, with_multiple(row, value, 2)]
}
