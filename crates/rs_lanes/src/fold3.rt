//! The values of words in 32 lanes at the first powers of alpha. A word of at most 255 bytes, with zeros put before it,
//! is three pieces of 85 bytes. Since alpha^255 is 1, the 85th power of alpha^k depends on k mod 3 alone. So for each
//! of these three the pieces are added up to one first; this sum is called a third. A third serves five exponents below
//! 15, and its own five pieces are added up for all of them at once (`fold5`). What is left for each exponent is
//! Horner's rule on 17 bytes.
//! Horner's rule on the word itself takes a product for each byte and each value: 16 times 208 for columns, 10 times
//! 182 for rows. Here thirds take 85, fifths 255, and the last steps 17 for each value but that at 1: about 600 for
//! columns, 500 for rows.
//! All is inlined: exponents are constants then, and vectors needn't pass through memory. Where a function also ensures
//! that lanes are bytes, this is for callers' proofs, in which a vector is a list of numbers.
//! Thirds are stored with their pieces rotated as `fold5` needs them. In contracts `third thirds i j` is the third with
//! number i in lane j, as a list that isn't rotated, and `exponent_at i m` its exponent with number m.
ghost use Rattle.std.specs.Prelude.{◌≡◌, ◌≢◌, ◌↔◌, ℕ, ◌*◌, ◌%◌, ◌<◌, ◌≤◌, length, slice_index};
ghost use Rattle.coding.specs.Field.{alpha, plus, product, power};
ghost use Rattle.coding.specs.Words.{value};
ghost use Rattle.coding.specs.Rows.{line, place};
ghost use Rattle.rs_lanes.specs.Inner.Lanes.{HasLanes};
ghost use Rattle.rs_lanes.specs.Inner.Thirds.{exponent_at, third, third_byte};

use crate::fold5::folded_places;
use crate::gf_tables::{powers_of, products};
use crate::lanes::{mul_const, xor};
use std::simd::prelude::*;

/// The thirds of 32 words: vector `i` of entry `p` has place `p` of third `i`, a lane for each word.
pub type Thirds = [[u8x32; 3]; 85];

/// One place of the three thirds, by that place of the three pieces, the first piece first. Third `i` is rotated `i`
/// times as often as is asked. A rotation is a product with alpha^85, but none is made for it: where the pieces change
/// places in a circle, third `i` is rotated `i` times. So all three are rotated at once. Also ensures that the lanes of
/// the pieces are bytes. Where this is inlined `rotations` is a constant, and no branch is left.
#[inline(always)]
pub fn rotated_thirds(rotations: usize, a: u8x32, b: u8x32, c: u8x32) -> [u8x32; 3]
    ensures thirds { (i : ℕ) → i < 3
        → HasLanes (line result i) (λ j. product (third_byte i (slice_index a j) (slice_index b j) (slice_index c j)) (power alpha (85 * (i * rotations)))) }
    ensures bytes { (j : ℕ) → j < 32 → (slice_index a j < 256) × (slice_index b j < 256) × (slice_index c j < 256) }
{
    // alpha^255 is 1, so three rotations change nothing.
    let rest = rotations % 3;
    if rest == 0 {
        thirds_of(a, b, c)
    } else if rest == 1 {
        thirds_of(b, c, a)
    } else {
        thirds_of(c, a, b)
    }
}

// One place of the three thirds, not rotated. Third `i` is Horner's rule in alpha^(85 i). Also ensures that the lanes of
// the pieces are bytes.
#[inline(always)]
fn thirds_of(a: u8x32, b: u8x32, c: u8x32) -> [u8x32; 3]
    ensures thirds { (i : ℕ) → i < 3 → HasLanes (line result i) (λ j. third_byte i (slice_index a j) (slice_index b j) (slice_index c j)) }
    ensures bytes { (j : ℕ) → j < 32 → (slice_index a j < 256) × (slice_index b j < 256) × (slice_index c j < 256) }
{
    // alpha^85 is 0xD6, and alpha^170 is 0xD6 + 1: one product serves both.
    let sum = xor(a, b);
    let shared = mul_const(&products(0xD6), sum);
    [xor(sum, c), xor(shared, xor(a, c)), xor(shared, xor(b, c))]
}

/// The values of each lane's word at alpha^0 to alpha^(`R` - 1): ten for a row, and sixteen for a column. The clause
/// speaks of the third that serves each power, as the word isn't known here. Callers' thirds have the word's values.
/// `R` is at most sixteen, since the three thirds serve fifteen exponents, and alpha^15 has steps of its own.
#[inline(always)]
pub fn values_of<const R: usize>(thirds: &[[u8x32; 3]; 85]) -> [u8x32; R]
    requires { R ≤ 16 }
    ensures { (k : ℕ) → k < R → HasLanes (line result k) (λ j. value (third thirds.now (k % 3) j) (power alpha k)) }
{
    // There is a call for each third, so that its exponents are constants where this is inlined.
    let mut all = [u8x32::splat(0); R];
    put_values(&values(thirds, 0, R), 0, &mut all);
    put_values(&values(thirds, 1, R), 1, &mut all);
    put_values(&values(thirds, 2, R), 2, &mut all);
    put_last_value(thirds, &mut all);
    all
}

// Sets the values at the five exponents of the third with number `i`, where these are below `R`. Those that aren't have
// no place, and were not computed. All values of the two other thirds stay.
#[inline(always)]
fn put_values<const R: usize>(values: &[u8x32; 5], i: usize, all: &mut [u8x32; R])
    requires { i < 3 }
    ensures set { (m : ℕ) → m < 5 → exponent_at i m < R → line all.new (exponent_at i m) ≡ line values.now m }
    ensures others { (k : ℕ) → k % 3 ≢ i → line all.new k ≡ line all.old k }
{
    for m in 0..5 {
        let k = exponent(i, m);
        if k < R {
            all[k] = values[m];
        }
    }
}

// Sets the value at alpha^15, if there are sixteen values. All others stay. The three thirds serve five exponents each,
// so the sixteenth value has steps of its own.
#[inline(always)]
fn put_last_value<const R: usize>(thirds: &[[u8x32; 3]; 85], all: &mut [u8x32; R])
    ensures set { R ≡ 16 → HasLanes (line all.new 15) (λ j. value (third thirds.now 0 j) (power alpha 15)) }
    ensures others { (k : ℕ) → k ≢ 15 → line all.new k ≡ line all.old k }
{
    if R == 16 {
        all[15] = last_value(thirds);
    }
}

// The values of each lane's third with number `i` at its five exponents, as far as these are below `count`. The others
// stay zeros: a row needs ten values, and a column sixteen. A third has five pieces of seventeen places: each place of
// the pieces is added up for all five exponents, and then read by a step of Horner's rule at each.
#[inline(always)]
fn values(thirds: &[[u8x32; 3]; 85], i: usize, count: usize) -> [u8x32; 5]
    requires { i < 3 }
    ensures { (m : ℕ) → m < 5 → exponent_at i m < count
        → HasLanes (line result m) (λ j. value (third thirds.now i j) (power alpha (exponent_at i m))) }
{
    let mut values = [u8x32::splat(0); 5];
    for place in 0..17 {
        read_places(&mut values, &folded_places(thirds, i, place), i, count);
    }
    values
}

// The value of each lane's word at alpha^15. The 17th power of alpha^15 is 1, so the five pieces are added up as for
// alpha^0: the first of the five sums is read, and the count 16 only lets the step for 15 be taken. `values` has room
// for five exponents alone, so these sums are made once more.
#[inline(always)]
fn last_value(thirds: &[[u8x32; 3]; 85]) -> u8x32
    ensures { HasLanes result (λ j. value (third thirds.now 0 j) (power alpha 15)) }
{
    let mut value = u8x32::splat(0);
    for place in 0..17 {
        value = next_value(15, 16, value, folded_places(thirds, 0, place)[0]);
    }
    value
}

// A step of Horner's rule at each exponent of a third that is below `count`; the other values stay. `next` has the next
// place of the pieces, as it was added up for each exponent. Also ensures that its lanes are bytes.
#[inline(always)]
fn read_places(values: &mut [u8x32; 5], next: &[u8x32; 5], i: usize, count: usize)
    requires { i < 3 }
    ensures steps { (m : ℕ) → m < 5 → exponent_at i m < count
        → HasLanes (line values.new m) (λ j. plus (product (power alpha (exponent_at i m)) (place values.old m j)) (place next.now m j)) }
    ensures bytes { (m j : ℕ) → m < 5 → j < 32 → place next.now m j < 256 }
{
    for m in 0..5 {
        values[m] = next_value(exponent(i, m), count, values[m], next[m]);
    }
}

// A step of Horner's rule at alpha^`k`, where `k` is below `count`; else the value as it is, and no product is spent.
// Both numbers are constants after inlining, so that no test is left. Also ensures that the next lanes are bytes, in
// both cases. `powers_of(1)` has alpha^0 to alpha^15, so `k` is below sixteen.
#[inline(always)]
fn next_value(k: usize, count: usize, value: u8x32, next: u8x32) -> u8x32
    requires { k < 16 }
    ensures step { k < count → HasLanes result (λ j. plus (product (power alpha k) (slice_index value j)) (slice_index next j)) }
    ensures bytes { (j : ℕ) → j < 32 → slice_index next j < 256 }
{
    if k < count {
        xor(multiplied(value, k), next)
    } else {
        value
    }
}

// Each lane times alpha^`k`. Where this is inlined `k` is a constant, and no branch is left.
#[inline(always)]
fn multiplied(lanes: u8x32, k: usize) -> u8x32
    requires { k < 16 }
    ensures { HasLanes result (λ j. product (power alpha k) (slice_index lanes j)) }
{
    // alpha^0 is 1. A look-up in the multiples of 1 would be made as in any other, so it is left out.
    if k == 0 {
        lanes
    } else {
        mul_const(&products(powers_of(1)[k]), lanes)
    }
}

// The exponent with number `m` of a third. The five are those with the remainder `i` by 3, in the order in which
// `fold5` has their values: their 17th powers are that of the first one times the powers of alpha^51, one by one. They
// depend on the remainder of the exponent by 15 alone, since alpha^255 is 1.
// The first one is 10 i, which has this remainder too: its 17th power is alpha^(170 i), a third root of one. So to
// multiply a piece by a power of it is to rotate it, and no product is made. From i on each piece but the last would
// need one.
#[inline(always)]
fn exponent(i: usize, m: usize) -> usize
    requires third { i < 3 }
    requires number { m < 5 }
    ensures { result ≡ exponent_at i m }
{
    (10 * i + 3 * m) % 15
}
