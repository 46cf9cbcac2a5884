//! The parity of words in 32 lanes, as a sum: for each of their values, a multiple of the column that a matrix has for
//! it.
//! The parity is the word that has the same values as its message followed by zeros. Both together are then zero at
//! each root. Both functions are inlined, so that vectors needn't pass through memory.
ghost use Rattle.std.specs.Prelude.{◌≡◌, ℕ, ◌<◌, length, slice_index, EachIndex, All};
ghost use Rattle.coding.specs.Field.{alpha, plus, product, power};
ghost use Rattle.coding.specs.Words.{IsByte, value};
ghost use Rattle.coding.specs.Rows.{line, place, column};
ghost use Rattle.rs_lanes.specs.Inner.Lanes.{HasLanes};
ghost use Rattle.rs_lanes.specs.Inner.Parity.{IsBasis};

use crate::lanes::with_multiple;
use std::simd::prelude::*;

/// The words of `R` bytes with these values at alpha^0 to alpha^(`R` - 1), one in each lane: vector `i` has byte `i` of
/// all. The clause on values is for a matrix whose column k has the value 1 at alpha^k and 0 at the others, as both of
/// `matrices` are proved to have. The values have to be bytes, since products are bytes and couldn't give others.
#[inline(always)]
pub fn parity_of<const R: usize>(matrix: &[[u8; R]; R], values: &[u8x32; R]) -> [u8x32; R]
    requires { (k j : ℕ) → k < R → j < 32 → place values.now k j < 256 }
    ensures lanes { EachIndex result (λ i. length (line result i) ≡ 32) }
    ensures bytes { (j : ℕ) → j < 32 → All IsByte (column result j) }
    ensures values { IsBasis R matrix.now → (k j : ℕ) → k < R → j < 32
        → value (column result j) (power alpha k) ≡ place values.now k j }
{
    let mut parity = [u8x32::splat(0); R];
    for k in 0..R {
        add_multiples(matrix, k, values[k], &mut parity);
    }
    parity
}

// Adds to each place `i` the value with number `k`, times entry `k` of row `i`: so all lanes get a multiple of column
// `k`. It is a function of its own, so that each proof has one loop.
#[inline(always)]
fn add_multiples<const R: usize>(
    matrix: &[[u8; R]; R],
    k: usize,
    value: u8x32,
    parity: &mut [u8x32; R],
)
    requires { k < R }
    ensures size { length parity.new ≡ R }
    ensures added { (i : ℕ) → i < R
        → HasLanes (line parity.new i) (λ j. plus (place parity.old i j) (product (slice_index value j) (place matrix.now i k))) }
{
    for i in 0..R {
        parity[i] = with_multiple(parity[i], value, matrix[i][k]);
    }
}
