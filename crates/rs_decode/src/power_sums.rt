//! Power sums of bytes at points: sixteen at once, a lane for each, where the code has no more parity bytes. The
//! syndromes of a word are power sums of its errors.
//! In clauses a vector is a list, whose length its type doesn't say: so they say it where a proof needs it.
ghost use Rattle.std.specs.Prelude.{◌≡◌, ◌≢◌, ◌↔◌, ℕ, ◌<◌, ◌≤◌, take, length, slice_index, All, IsTrue};
ghost use Rattle.rs_code.specs.Inner.PowerSums.{power_sum};
ghost use Rattle.rs_lanes.specs.Inner.Lanes.{HoldsLanes};

use arrayvec::ArrayVec;
use gf_field::log;
use rs_lanes::{mul_scalar, powers};
use std::simd::prelude::*;

/// Whether all numbers are 0: whether a list of syndromes is that of a codeword. It stops at the first other one, which
/// a damaged word mostly has at once.
pub fn are_zeros(numbers: &[u8]) -> bool
    ensures { IsTrue result ↔ ((k : ℕ) → k < length numbers.now → slice_index numbers.now k ≡ 0) }
{
    for number in numbers {
        if *number != 0 {
            return false;
        }
    }
    true
}

/// The first lanes of a vector, as a list. They are at most sixteen, which always fit: `unwrap` can't fail.
pub fn first_lanes(lanes: u8x16, count: usize) -> ArrayVec<u8, 32>
    requires lanes { length lanes ≡ 16 }
    requires few { count ≤ 16 }
    ensures { result.items ≡ take count lanes }
{
    ArrayVec::try_from(&lanes.to_array()[..count]).unwrap()
}

/// The first sixteen power sums of bytes at points. They are added from the last byte on, as the definition adds a byte
/// to the sum of those after it.
pub fn power_sums(points: &[u8], bytes: &[u8]) -> u8x16
    requires nonzero { All (λ point. point ≢ 0) points.now }
    requires fits { length bytes.now ≡ length points.now }
    ensures { HoldsLanes 16 result (λ k. power_sum bytes.now points.now k) }
{
    let mut sums = u8x16::splat(0);
    for i in (0..points.len()).rev() {
        sums = sums ^ mul_scalar(powers(log(points[i]) as usize), bytes[i]);
    }
    sums
}
