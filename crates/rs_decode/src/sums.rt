//! Power sums of bytes at points: the k-th is the sum of each byte times its point to the power k. To take out a point
//! cancels the byte at it, whatever it is, and costs one sum. What is left are the sums of the other bytes, each times
//! its point's distances to those that were taken out; `distances` is their product, and a distance is a sum.
//! In clauses a vector is a list, whose length its type doesn't say: so they say it where a proof needs it.
ghost use Rattle.std.specs.Prelude.{◌≡◌, ℕ, ◌+◌, ◌-◌, ◌<◌, ◌≤◌, List, length, take, slice_index};
ghost use Rattle.coding.specs.Field.{plus, product};
ghost use Rattle.rs_decode.specs.Inner.Locator.{at_points, distances};
ghost use Rattle.rs_decode.specs.Inner.Sums.{AreSums};

use crate::combining::as_prefix;
use rs_lanes::mul_scalar;
use std::simd::prelude::*;

/// Takes points out of power sums, of which the first lanes then have as many less. What the lanes after these have
/// isn't said, and callers leave it. Sixteen sums are as many as the codes of a block have.
pub fn without_points(points: &[u8], sums: &[u8]) -> u8x16
    requires enough { length points.now ≤ length sums.now }
    requires few { length sums.now ≤ 16 }
    ensures size { length result ≡ 16 }
    ensures are { (places bytes : List ℕ) → AreSums places bytes sums.now
        → AreSums places (at_points (distances points.now) bytes places) (take (length sums.now - length points.now) result) }
{
    let mut left = u8x16::from_array(as_prefix(sums));
    for point in points {
        left = without(left, *point);
    }
    left
}

/// Takes a point out of sums in lanes: each sum becomes the next plus the point times it, in which a byte at the point
/// cancels, as its share of the next is just that product. The last lane has no sum then. It is inlined, so that lanes
/// needn't pass through memory.
#[inline(always)]
fn without(sums: u8x16, point: u8) -> u8x16
    requires { length sums ≡ 16 }
    ensures size { length result ≡ 16 }
    ensures each { (k : ℕ) → k < 15 → slice_index result k ≡ plus (slice_index sums (k + 1)) (product point (slice_index sums k)) }
{
    // Lane k gets lane k + 1; the number 16 is a lane of the zeros.
    let next = sums.shuffle(
        u8x16::splat(0),
        [1, 2, 3, 4, 5, 6, 7, 8, 9, 10, 11, 12, 13, 14, 15, 16],
    );
    next ^ mul_scalar(sums, point)
}
