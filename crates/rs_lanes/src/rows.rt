//! The rows of an ECC block, 32 at once. They are transposed first, so that each lane has a row of its own and one step
//! is done for 32 rows at once.
//!
//! Values are found by thirds. With 73 zeros before it a row is three pieces of 85 bytes. They are added up to one
//! piece in three ways: each sum, a third, has the values of the row at those alpha^k whose k has one remainder by 3.
//! That takes little more than a quarter of the products of Horner's rule, which has one for each of 182 places and ten
//! values. The parity is the word that has the values of its message followed by zeros: both together are 0 at each
//! root. Where vectors begin as zeros, these are all overwritten. What is done for each place or row is inlined, so
//! that vectors needn't pass through memory. In contracts `filled 182` is a word followed by zeros, up to 182 places.
//! A vector is a list there, whose length its type doesn't say: so `lanes` says it.
ghost use Rattle.std.specs.Prelude.{◌≡◌, ℕ, ◌+◌, ◌*◌, ◌<◌, ◌≤◌, List, ◌++◌, length, take, slice_index, EachIndex, All};
ghost use Rattle.coding.specs.Field.{alpha, power};
ghost use Rattle.coding.specs.Words.{IsByte, IsEncoded, value};
ghost use Rattle.coding.specs.Rows.{line, place, column};
ghost use Rattle.rs_lanes.specs.Inner.Parity.{filled};
ghost use Rattle.rs_lanes.specs.Inner.Thirds.{after_zeros, third, AreStored, IsThird};

use crate::fold3::{Thirds, rotated_thirds, values_of};
use crate::matrices::PI_MATRIX;
use crate::parity::parity_of;
use crate::transposing::transpose;
use std::simd::prelude::*;

/// Sets the last ten bytes of the 32 rows from `top` on so that these rows are codewords. All other rows stay. The ten
/// bytes that were there aren't read. Callers with fewer than 32 rows put them in 32 of their own, since all lanes are
/// done. The transposed rows and their thirds are put where the caller has room for them, as in `row_values_by`.
pub fn inner_parity(
    transposed: &mut [u8x32; 182],
    thirds: &mut Thirds,
    rows: &mut [[u8; 182]],
    top: usize,
)
    requires { top + 32 ≤ length rows.old }
    ensures size { length rows.new ≡ length rows.old }
    ensures encoded { (n : ℕ) → n < 32 → IsEncoded 182 10 (take 172 (line rows.old (top + n))) (line rows.new (top + n)) }
    ensures below { (i : ℕ) → i < top → line rows.new i ≡ line rows.old i }
    ensures above { (i : ℕ) → top + 32 ≤ i → line rows.new i ≡ line rows.old i }
{
    transpose(rows, top, transposed);
    // With zeros in place of the parity, the values are those that the parity needs.
    put_thirds(transposed, 172, thirds);
    let parity = parity_of(&PI_MATRIX, &values_of(thirds));
    for n in 0..32 {
        put_end(&parity, n, &mut rows[top + n]);
    }
}

/// The values of the 32 rows from `top` on at alpha^0 to alpha^9, a vector for each of these powers: that of row
/// `top + n` is in lane `n`. A row is a codeword where all are 0, and for a decoder they are the syndromes.
/// Also ensures that the rows are 182 bytes each, since of rows in a list callers don't know it. The rows are a whole
/// block for callers, whose last 32 begin at row 176, and share some with the group before.
pub fn row_values(rows: &[[u8; 182]], top: usize) -> [u8x32; 10]
    requires { top + 32 ≤ length rows.now }
    ensures sizes { (n : ℕ) → n < 32 → length (line rows.now (top + n)) ≡ 182 }
    ensures bytes { (n : ℕ) → n < 32 → All IsByte (line rows.now (top + n)) }
    ensures lanes { EachIndex result (λ k. length (line result k) ≡ 32) }
    ensures values { (k n : ℕ) → k < 10 → n < 32 → place result k n ≡ value (line rows.now (top + n)) (power alpha k) }
{
    let mut transposed = [u8x32::splat(0); 182];
    row_values_by(&mut transposed, &mut [[u8x32::splat(0); 3]; 85], rows, top)
}

/// The values of 32 rows as `row_values` has them, by the transposed rows and their thirds, which are put where the
/// caller has room for them. What the room has isn't read, so one serves all groups of a block, and isn't set to zeros
/// for each. Callers that copy the rows as columns find them transposed.
pub fn row_values_by(
    transposed: &mut [u8x32; 182],
    thirds: &mut Thirds,
    rows: &[[u8; 182]],
    top: usize,
) -> [u8x32; 10]
    requires { top + 32 ≤ length rows.now }
    ensures sizes { (n : ℕ) → n < 32 → length (line rows.now (top + n)) ≡ 182 }
    ensures bytes { (n : ℕ) → n < 32 → All IsByte (line rows.now (top + n)) }
    ensures lanes { EachIndex result (λ k. length (line result k) ≡ 32) }
    ensures values { (k n : ℕ) → k < 10 → n < 32 → place result k n ≡ value (line rows.now (top + n)) (power alpha k) }
    ensures transposed { (k n : ℕ) → k < 182 → n < 32 → place transposed.new k n ≡ place rows.now (top + n) k }
{
    transpose(rows, top, transposed);
    values_by(thirds, transposed)
}

/// The values of 32 transposed words at the same powers, where each vector has one place of all words: those of word
/// `n` are in lane `n`. It is public for callers that store columns: 32 bytes of a column are such a vector, and
/// nothing is transposed.
/// Also ensures that the elements of the words are bytes, which a codeword has to be made of.
pub fn transposed_values(transposed: &[u8x32; 182]) -> [u8x32; 10]
    ensures bytes { (n : ℕ) → n < 32 → All IsByte (column transposed.now n) }
    ensures lanes { EachIndex result (λ k. length (line result k) ≡ 32) }
    ensures values { (k n : ℕ) → k < 10 → n < 32 → place result k n ≡ value (column transposed.now n) (power alpha k) }
{
    values_by(&mut [[u8x32::splat(0); 3]; 85], transposed)
}

// The values of 32 transposed words, by thirds that are put where the caller has room for them.
fn values_by(thirds: &mut Thirds, transposed: &[u8x32; 182]) -> [u8x32; 10]
    ensures bytes { (n : ℕ) → n < 32 → All IsByte (column transposed.now n) }
    ensures lanes { EachIndex result (λ k. length (line result k) ≡ 32) }
    ensures values { (k n : ℕ) → k < 10 → n < 32 → place result k n ≡ value (column transposed.now n) (power alpha k) }
{
    put_thirds(transposed, 182, thirds);
    values_of(thirds)
}

// Sets the last ten bytes of a row to lane `n` of these vectors. They are set one by one, since a vector has one byte
// of each row.
#[inline(always)]
fn put_end(parity: &[u8x32; 10], n: usize, row: &mut [u8; 182])
    requires lane { n < 32 }
    requires lanes { EachIndex parity.now (λ k. length (line parity.now k) ≡ 32) }
    ensures { row.new ≡ take 172 row.old ++ column parity.now n }
{
    for k in 0..10 {
        row[172 + k] = parity[k][n];
    }
}

// Sets all thirds to those of words of 182 bytes, which have zeros from place `count` on: 172 where the parity isn't
// known yet, else 182. They are put where the caller has them, so that 8,160 bytes needn't be copied. Also ensures that
// the other elements are bytes.
#[inline(always)]
fn put_thirds(transposed: &[u8x32; 182], count: usize, thirds: &mut [[u8x32; 3]; 85])
    requires { count ≤ 182 }
    ensures bytes { (n : ℕ) → n < 32 → All IsByte (take count (column transposed.now n)) }
    ensures thirds { (i n : ℕ) → i < 3 → n < 32 → IsThird i (filled 182 (take count (column transposed.now n))) (third thirds.new i n) }
{
    // There is a call for each piece, so that its rotations are a constant where this is inlined.
    put_piece(transposed, count, 0, thirds);
    put_piece(transposed, count, 1, thirds);
    put_piece(transposed, count, 2, thirds);
    put_piece(transposed, count, 3, thirds);
    put_piece(transposed, count, 4, thirds);
}

// Sets one of the five pieces of all thirds, rotated as `fold5` needs it; the pieces before it stay. Place `place` of a
// third is made of that place of the word's three pieces.
#[inline(always)]
fn put_piece(transposed: &[u8x32; 182], count: usize, piece: usize, thirds: &mut [[u8x32; 3]; 85])
    requires count { count ≤ 182 }
    requires piece { piece < 5 }
    ensures { AreStored 73 (λ n. filled 182 (take count (column transposed.now n))) (17 * piece) thirds.old
        → AreStored 73 (λ n. filled 182 (take count (column transposed.now n))) (17 * piece + 17) thirds.new }
{
    for q in 0..17 {
        let place = 17 * piece + q;
        thirds[place] = rotated_thirds(
            2 * (4 - piece),
            padded(transposed, count, place),
            padded(transposed, count, 85 + place),
            padded(transposed, count, 170 + place),
        );
    }
}

// A place of these words after 73 zeros are put before each. A row has 182 bytes and three pieces 255. Zeros in front
// of a word change none of its values.
#[inline(always)]
fn padded(transposed: &[u8x32; 182], count: usize, at: usize) -> u8x32
    requires count { count ≤ 182 }
    requires at { at < 255 }
    ensures { (n : ℕ) → n < 32
        → slice_index result n ≡ slice_index (after_zeros 73 (filled 182 (take count (column transposed.now n)))) at }
{
    if at < 73 {
        u8x32::splat(0)
    } else {
        lanes_or_zeros(transposed, count, at - 73)
    }
}

// The vector of a place below `count`, or zeros: from there on the parity comes, in whose place zeros are read. `count`
// is a constant where this is inlined, so that few places need a test then.
#[inline(always)]
fn lanes_or_zeros(transposed: &[u8x32; 182], count: usize, at: usize) -> u8x32
    requires { count ≤ 182 }
    ensures { (n : ℕ) → n < 32 → slice_index result n ≡ slice_index (take count (column transposed.now n)) at }
{
    if at < count {
        transposed[at]
    } else {
        u8x32::splat(0)
    }
}
