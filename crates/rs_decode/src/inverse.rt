//! The inverse of the powers of points: what Forney's formula gives for the points alone. Many words whose marked
//! places are the same are filled by it, each by sums of multiples of its columns.
//! In clauses a vector is a list, whose length its type doesn't say: so they say it where a proof needs it.
ghost use Rattle.std.specs.Prelude.{◌≡◌, ◌≢◌, ℕ, ◌+◌, ◌<◌, ◌≤◌, length, slice_index, All};
ghost use Rattle.coding.specs.Field.{product};
ghost use Rattle.coding.specs.Words.{IsByte};
ghost use Rattle.rs_code.specs.Inner.PowerSums.{AreDistinct};
ghost use Rattle.coding.specs.Rows.{place};
ghost use Rattle.rs_decode.specs.Inner.Inverse.{HasSums, IsInverse, IsPolynomial};
ghost use Rattle.rs_decode.specs.Inner.Locator.{distances};
ghost use Rattle.rs_decode.specs.Register.{total};
ghost use Rattle.rs_lanes.specs.Inner.Lanes.{HoldsLanes};
ghost use Rattle.rs_decode.specs.Inner.Sums.{AreOnly};

use crate::combining::as_prefix;
use crate::forney::times_distance;
use crate::multiples::{lane_products, multiples_of};
use crate::power_sums::first_lanes;
use arrayvec::ArrayVec;
use gf_field::inv;
use rs_lanes::mul_scalar;
use std::simd::prelude::*;

/// The inverse of the matrix whose row k has the k-th powers of at most sixteen points: its row i, times power sums, is
/// the byte at point i. It is as wide as there are points, and the rest are zeros. Sixteen bytes are a vector, and no
/// code of a block has more parity bytes. Other crates have it within `Erasures` alone.
#[derive(Drop)]
pub struct Inverse {
    /// The points, none of which comes twice. Sixteen at most, though the list has the room of all lists of points.
    pub(crate) points: ArrayVec<u8, 32>,
    /// Its columns: byte i of column k is in row i. A column is one vector, to be multiplied by the k-th power sum.
    pub(crate) columns: [[u8; 16]; 16],
    /// They are as many as a vector has lanes, or fewer.
    pub ghost few: { length points.items ≤ 16 },
    /// It is the inverse.
    pub ghost inverse: { IsInverse points.items columns },
    /// From the other side too.
    pub ghost sums: { HasSums points.items columns },
}

impl Inverse {
    /// That of the powers of these points. Were two equal, there would be no inverse.
    pub fn new(points: ArrayVec<u8, 32>) -> Self
        requires distinct { AreDistinct points.items }
        requires few { length points.items ≤ 16 }
        ensures { result.points.items ≡ points.items }
    {
        let columns = inverse_columns(&points);
        Inverse { points, columns }
    }

    /// The bytes at the points that have these power sums, the lowest first, if any have. As many sums are read as
    /// there are points, which determine the bytes; callers test the others.
    pub fn bytes_at(&self, sums: &[u8]) -> ArrayVec<u8, 32>
        requires { length self.now.points.items ≤ length sums.now }
        ensures { AreOnly self.now.points.items sums.now result.items }
    {
        let count = self.points.len();
        first_lanes(combined(&self.columns, &sums[..count]), count)
    }
}

// The columns of the inverse. Row i has the coefficients of the polynomial that is 1 at point i and 0 at the others:
// the product of the distances to all points, divided by the distance to point i, and then by what the quotient is
// there. Its value at a point is a sum of coefficients times powers, so power sums take the place of the powers. All
// rows are divided at once, a lane for each: Horner's rule at point i comes to the coefficients of the quotient one by
// one, the highest first, and so at the same time to the quotient's value at point i.
fn inverse_columns(points: &[u8]) -> [[u8; 16]; 16]
    requires distinct { AreDistinct points.now }
    requires few { length points.now ≤ 16 }
    ensures inverse { IsInverse points.now result }
    ensures sums { HasSums points.now result }
{
    let count = points.len();
    let locator = times_distances(one(), points).to_array();
    let multiples = multiples_of(u8x16::from_array(as_prefix(points)));
    let mut quotients = [u8x16::splat(0); 16];
    let mut value = u8x16::splat(0);
    let mut derivative = u8x16::splat(0);
    for t in 0..count {
        value = lane_products(&multiples, value) ^ u8x16::splat(locator[t]);
        derivative = lane_products(&multiples, derivative) ^ value;
        quotients[count - 1 - t] = value;
    }
    divided(&quotients, derivative, count)
}

// Columns with each lane divided by that of one vector. Lanes past the number of points are zeros.
fn divided(columns: &[u8x16; 16], divisors: u8x16, count: usize) -> [[u8; 16]; 16]
    requires few { count ≤ 16 }
    requires bytes { (k i : ℕ) → k < count → i < count → place columns.now k i < 256 }
    requires nonzero { (i : ℕ) → i < count → slice_index divisors i ≢ 0 }
    ensures { (k i : ℕ) → k < count → i < count → product (slice_index divisors i) (place result k i) ≡ place columns.now k i }
{
    let multiples = multiples_of(inverses(divisors, count));
    let mut quotients = [[0; 16]; 16];
    for k in 0..count {
        quotients[k] = lane_products(&multiples, columns[k]).to_array();
    }
    quotients
}

// The inverse of each of the first lanes. The others are zeros.
fn inverses(lanes: u8x16, count: usize) -> u8x16
    requires few { count ≤ 16 }
    requires nonzero { (i : ℕ) → i < count → slice_index lanes i ≢ 0 }
    ensures bytes { (i : ℕ) → i < count → slice_index result i < 256 }
    ensures inverse { (i : ℕ) → i < count → product (slice_index lanes i) (slice_index result i) ≡ 1 }
{
    let bytes = lanes.to_array();
    let mut inverses = [0; 16];
    for i in 0..count {
        inverses[i] = inv(bytes[i]);
    }
    u8x16::from_array(inverses)
}

// The polynomial 1, in the first lane: the product of no distances.
fn one() -> u8x32
    ensures first { slice_index result 0 ≡ 1 }
    ensures polynomial { IsPolynomial 1 result (λ x. 1) }
{
    let mut lanes = [0; 32];
    lanes[0] = 1;
    u8x32::from_array(lanes)
}

// A polynomial times (x + a) for each `a` of the others.
fn times_distances(lanes: u8x32, others: &[u8]) -> u8x32
    requires { length lanes ≡ 32 }
    ensures size { length result ≡ 32 }
    ensures bytes { All IsByte result }
    ensures first { slice_index result 0 ≡ slice_index lanes 0 }
    ensures product { (count : ℕ) (f : ℕ → ℕ) → count + length others.now ≤ 32 → IsPolynomial count lanes f
        → IsPolynomial (count + length others.now) result (λ x. product (f x) (distances others.now x)) }
{
    let mut product = lanes;
    for other in others {
        product = times_distance(product, *other);
    }
    product
}

// The sum of the columns, each times one of the sums: lane `i` is row i times the sums.
fn combined(columns: &[[u8; 16]; 16], sums: &[u8]) -> u8x16
    requires { length sums.now ≤ 16 }
    ensures { HoldsLanes 16 result (λ i. total (length sums.now) (λ k. product (place columns.now k i) (slice_index sums.now k))) }
{
    let mut bytes = u8x16::splat(0);
    for k in 0..sums.len() {
        bytes = bytes ^ mul_scalar(u8x16::from_array(columns[k]), sums[k]);
    }
    bytes
}
