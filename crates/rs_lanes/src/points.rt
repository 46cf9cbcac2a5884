//! Vectors of sixteen bytes, where each lane has a point of its own: an element at which a word has a value. In `lanes`
//! each lane has a word of its own, and here all lanes serve one word. Sixteen are enough for its values, since no code
//! of a block has more parity bytes. This crate calls none of it; decoders of single words do. All is inlined, so that
//! vectors needn't pass through memory.
ghost use Rattle.std.specs.Prelude.{◌≡◌, ℕ, ◌*◌, ◌/◌, ◌%◌, ◌<◌, length, slice_index};
ghost use Rattle.coding.specs.Field.{alpha, product, power};
ghost use Rattle.rs_lanes.specs.Inner.Lanes.{HoldsLanes};

use crate::gf_tables::{powers_of, products};
use std::simd::prelude::*;

/// The product of each lane and a factor: the sum of those of its low nibble and of its high one, which the factor's
/// table has.
#[inline(always)]
pub fn mul_scalar(lanes: u8x16, factor: u8) -> u8x16
    ensures size { length result ≡ 16 }
    ensures each { (k : ℕ) → k < 16 → slice_index result k ≡ product (slice_index lanes k) factor }
{
    let table = products(factor);
    at_low_nibbles(&table[0], lanes) ^ at_high_nibbles(&table[1], lanes)
}

/// The powers of alpha^`exponent`: lane `k` is alpha^(`exponent` k). Times a byte, they are what it adds to the values
/// of its word at alpha^0 to alpha^15 from the place with this exponent. The table has 255 rows, since alpha^255 is 1.
/// Callers have the exponent of a term or a logarithm, which is below 255, so nothing is reduced here.
#[inline(always)]
pub fn powers(exponent: usize) -> u8x16
    requires { exponent < 255 }
    ensures size { length result ≡ 16 }
    ensures each { (k : ℕ) → k < 16 → slice_index result k ≡ power alpha (exponent * k) }
{
    u8x16::from_array(powers_of(exponent))
}

// The table's entries at the low four bits of each lane. A look-up asks for numbers below sixteen, so the high four
// bits are cleared. The table is not put in a vector twice, as in `lanes`: sixteen lanes reach all of its entries.
#[inline(always)]
fn at_low_nibbles(table: &[u8; 16], lanes: u8x16) -> u8x16
    ensures { HoldsLanes 16 result (λ k. slice_index table.now (slice_index lanes k % 16)) }
{
    u8x16::from_slice(table).swizzle_dyn_within::<16>(lanes & u8x16::splat(15))
}

// The table's entries at the high four bits of each lane. A shift by four leaves numbers below sixteen.
#[inline(always)]
fn at_high_nibbles(table: &[u8; 16], lanes: u8x16) -> u8x16
    ensures { HoldsLanes 16 result (λ k. slice_index table.now (slice_index lanes k / 16)) }
{
    u8x16::from_slice(table).swizzle_dyn_within::<16>(lanes >> u8x16::splat(4))
}
