//! Products of lanes with lanes, where each has a factor of its own: tables for vectors serve one factor. Where many
//! vectors are multiplied by the same one, its multiples are made once.
ghost use Rattle.std.specs.Prelude.{◌≡◌, ℕ, ◌*◌, ◌<◌, length, slice_index};
ghost use Rattle.std.specs.Int.{bit_at};
ghost use Rattle.coding.specs.Field.{product, shifted};
ghost use Rattle.coding.specs.Rows.{place};
ghost use Rattle.rs_lanes.specs.Inner.Lanes.{HoldsLanes};

use rs_lanes::mul_scalar;
use std::simd::prelude::*;

/// Lanes times x^0 to x^7, of which `lane_products` adds those that the bits of a byte choose.
#[inline(always)]
pub fn multiples_of(lanes: u8x16) -> [u8x16; 8]
    ensures { (k i : ℕ) → k < 8 → i < 16 → place result k i ≡ shifted (slice_index lanes i) k }
{
    let mut multiples = [lanes; 8];
    for k in 1..8 {
        multiples[k] = mul_scalar(multiples[k - 1], 2);
    }
    multiples
}

/// The product of each lane and the one that these are the multiples of.
#[inline(always)]
pub fn lane_products(multiples: &[u8x16; 8], lanes: u8x16) -> u8x16
    ensures size { length result ≡ 16 }
    ensures each { (i factor : ℕ) → i < 16 → factor < 256 → ((k : ℕ) → k < 8 → place multiples.now k i ≡ shifted factor k)
        → slice_index result i ≡ product factor (slice_index lanes i) }
{
    let mut sum = u8x16::splat(0);
    for k in 0..8 {
        sum = sum ^ chosen(lanes, k as u8, multiples[k]);
    }
    sum
}

// The multiples of those lanes that have bit `k`, and zeros elsewhere.
#[inline(always)]
fn chosen(lanes: u8x16, k: u8, multiples: u8x16) -> u8x16
    requires { k < 8 }
    ensures { HoldsLanes 16 result (λ i. bit_at (slice_index lanes i) k * slice_index multiples i) }
{
    let bits = lanes >> u8x16::splat(k) & u8x16::splat(1);
    let zeros = u8x16::splat(0);
    bits.simd_eq(zeros).select(zeros, multiples)
}
