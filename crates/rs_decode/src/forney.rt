//! The bytes at given points that have given power sums, by Forney's formula: at each point the value of an evaluator,
//! divided by the derivative of the locator, the polynomial that vanishes at the points.
//!
//! Where the places are known, this takes the least work: the evaluator comes from the sums by a step for each point,
//! and no system of equations is solved. The formula finds the only bytes that can have the sums. Whether they have
//! them all, and a word with them is a codeword, is tested where they are used: no proof rests on their being right for
//! any other word.
//! In clauses a vector is a list, whose length its type doesn't say: so they say it where a proof needs it.
ghost use Rattle.std.specs.Prelude.{◌≡◌, ◌≢◌, ℕ, ◌+◌, ◌*◌, ◌<◌, ◌≤◌, List, length, take, drop, All, slice_index};
ghost use Rattle.coding.specs.Field.{alpha, plus, product, power};
ghost use Rattle.coding.specs.Words.{value};
ghost use Rattle.rs_code.specs.Inner.PowerSums.{AreDistinct, power_sum};
ghost use Rattle.rs_lanes.specs.Inner.Lanes.{HasLanes};
ghost use Rattle.rs_decode.specs.Inner.Locator.{at_points, distances, slope};
ghost use Rattle.rs_decode.specs.Inner.Sums.{AreOnly, AreSums};

use crate::combining::{as_prefix, moved_up};
use arrayvec::ArrayVec;
use gf_field::{alpha_pow, div, log, mul};
use rs_lanes::with_multiple;
use std::simd::prelude::*;

/// The bytes at the points that have these power sums, the lowest first, if any have; else bytes that may be anything.
pub fn bytes_at(points: &[u8], sums: &[u8]) -> ArrayVec<u8, 32>
    requires distinct { AreDistinct points.now }
    requires enough { length points.now ≤ length sums.now }
    requires room { length sums.now ≤ 32 }
    ensures { AreOnly points.now sums.now result.items }
{
    let evaluator = evaluator(points, sums).to_array();
    let mut bytes = ArrayVec::new();
    for i in 0..points.len() {
        // There is a coefficient for each point: the lanes after them mean nothing.
        let value = value_at(&evaluator[..points.len()], points[i]);
        // No two points are equal, so that no derivative is 0.
        bytes.push(div(value, derivative(points, i)));
    }
    bytes
}

// The derivative of the locator at a point: the product of its distances to the others. It is a sum of logarithms, so
// that only one power is looked up. It isn't 0, since no two points are equal.
fn derivative(points: &[u8], i: usize) -> u8
    requires distinct { AreDistinct points.now }
    requires inside { i < length points.now }
    requires few { length points.now ≤ 32 }
    ensures nonzero { result ≢ 0 }
    ensures slope { result ≡ slope points.now (slice_index points.now i) (slice_index points.now i) }
{
    let point = points[i];
    let before = distance_exponent(point, &points[..i]);
    let after = distance_exponent(point, &points[i + 1..]);
    alpha_pow(before + after)
}

// The logarithm of the product of a point's distances to others, or that and a multiple of 255. A distance is a sum,
// `^`. No remainder is taken, as `alpha_pow` reads any number of 32 bits.
fn distance_exponent(point: u8, others: &[u8]) -> u32
    requires apart { All (λ other. point ≢ other) others.now }
    requires few { length others.now ≤ 32 }
    ensures small { result ≤ 254 * length others.now }
    ensures reaches { power alpha result ≡ distances others.now point }
{
    let mut exponent = 0;
    for other in others {
        exponent += u32::from(log(point ^ *other));
    }
    exponent
}

// The evaluator of power sums, in the first lanes, the highest power first: its value at x is the sum of the bytes,
// each times the slope of the locator between its point and x. The slope is what the locator's values at both differ
// by, divided by their distance, and the derivative where both are one. So at a point only that point's byte is left.
// It is the product of the locator and the sums, highest powers first: each step multiplies by one distance, and lanes
// past the number of points aren't part of it.
fn evaluator(points: &[u8], sums: &[u8]) -> u8x32
    requires enough { length points.now ≤ length sums.now }
    requires room { length sums.now ≤ 32 }
    ensures size { length result ≡ 32 }
    ensures values { (bytes : List ℕ) → AreSums points.now bytes sums.now
        → (x : ℕ) → value (take (length points.now) result) x ≡ power_sum (at_points (slope points.now x) bytes points.now) points.now 0 }
{
    let mut lanes = u8x32::from_array(as_prefix(sums));
    for point in points {
        lanes = times_distance(lanes, *point);
    }
    lanes
}

/// A polynomial times (x + `point`), where the highest power of both is in the first lane. What leaves the last lane is
/// lost, but callers use the first lanes alone. Lane `k` gets the point times lane `k - 1`. It is public for `inverse`,
/// and inlined, so that lanes needn't pass through memory.
#[inline(always)]
pub fn times_distance(lanes: u8x32, point: u8) -> u8x32
    requires { length lanes ≡ 32 }
    ensures size { length result ≡ 32 }
    ensures first { slice_index result 0 ≡ slice_index lanes 0 }
    ensures each { (k : ℕ) → k < 31 → slice_index result (k + 1) ≡ plus (slice_index lanes (k + 1)) (product point (slice_index lanes k)) }
{
    with_multiple(lanes, moved_up(0, lanes), point)
}

// The value of a polynomial at an element, the highest power first. By Horner's rule, since the logarithm of `x` isn't
// at hand here.
fn value_at(polynomial: &[u8], x: u8) -> u8
    ensures { result ≡ value polynomial.now x }
{
    let mut sum = 0;
    for coefficient in polynomial {
        sum = mul(x, sum) ^ *coefficient;
    }
    sum
}
