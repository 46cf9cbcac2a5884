//! The zeros of 32 polynomials of degree 5, x^5 and five coefficients each, by trying all 256 points. Squares and
//! fourth powers are linear over the bits of a point, and its third and fifth powers are products of two such. So the
//! polynomial is a quadratic form of eight bits. Where one bit changes, its value changes by a sum: of what belongs to
//! that bit alone, and of what belongs to that bit and each other bit that is set. In Gray's order each point has one
//! bit changed, and no product is left.
//! The upper four bits change in Gray's order, and for each of their sixteen values the lower four do. A single is what
//! a bit adds by itself, a pair what two bits add together, and a change what a bit would add at the point at hand.
//! Nothing is proved of the zeros, so no function has a clause on them: what is proposed by them is tested row by row.
//! A remainder or a clause keeps an index inside its list. The steps are inlined, so that what changes with each point
//! stays in registers.
ghost use Rattle.std.specs.Prelude.{◌<◌};

use rs_lanes::mul_scalar;
use std::simd::prelude::*;

// The elements that have one bit.
static UNITS: [u8; 8] = [0x01, 0x02, 0x04, 0x08, 0x10, 0x20, 0x40, 0x80];

// Their second to fifth powers, of which those of all points are made by sums.
static SQUARES: [u8; 8] = [0x01, 0x04, 0x10, 0x40, 0x1D, 0x74, 0xCD, 0x13];

static CUBES: [u8; 8] = [0x01, 0x08, 0x40, 0x3A, 0xCD, 0x26, 0x2D, 0x75];

static FOURTH_POWERS: [u8; 8] = [0x01, 0x10, 0x1D, 0xCD, 0x4C, 0xB4, 0x8F, 0x18];

static FIFTH_POWERS: [u8; 8] = [0x01, 0x20, 0x74, 0x26, 0xB4, 0x03, 0x60, 0x9C];

// What two units a and b add to the third power of their sum: a^2 b + a b^2.
static CUBE_PAIRS: [[u8; 8]; 8] = [
    [0x00, 0x06, 0x14, 0x48, 0x0D, 0x54, 0x8D, 0x93],
    [0x06, 0x00, 0x30, 0xA0, 0x7A, 0x68, 0x9A, 0x1C],
    [0x14, 0x30, 0x00, 0x9D, 0x69, 0xF7, 0x67, 0xA4],
    [0x48, 0xA0, 0x9D, 0x00, 0x9C, 0x6F, 0xEB, 0x1F],
    [0x0D, 0x7A, 0x69, 0x9C, 0x00, 0x94, 0x5F, 0x0B],
    [0x54, 0x68, 0xF7, 0x6F, 0x94, 0x00, 0xD4, 0xC2],
    [0x8D, 0x9A, 0x67, 0xEB, 0x5F, 0xD4, 0x00, 0xEE],
    [0x93, 0x1C, 0xA4, 0x1F, 0x0B, 0xC2, 0xEE, 0x00],
];

// What they add to the fifth power: a^4 b + a b^4.
static FIFTH_PAIRS: [[u8; 8]; 8] = [
    [0x00, 0x12, 0x19, 0xC5, 0x5C, 0x94, 0xCF, 0x98],
    [0x12, 0x00, 0x7A, 0x07, 0x85, 0x4F, 0x77, 0xD8],
    [0x19, 0x7A, 0x00, 0xFB, 0xE0, 0x6D, 0x15, 0x46],
    [0xC5, 0x07, 0xFB, 0x00, 0x16, 0x51, 0x21, 0x9A],
    [0x5C, 0x85, 0xE0, 0x16, 0x00, 0xFA, 0xF2, 0x54],
    [0x94, 0x4F, 0x6D, 0x51, 0xFA, 0x00, 0x36, 0x2B],
    [0xCF, 0x77, 0x15, 0x21, 0xF2, 0x36, 0x00, 0x8E],
    [0x98, 0xD8, 0x46, 0x9A, 0x54, 0x2B, 0x8E, 0x00],
];

/// The zeros of each polynomial that aren't 0, in no order: the last five found. Where fewer are found, the others are
/// 0. There are no more than five. `taps` are the coefficients of x^4 to x^0, as bytes. The point 0 is tried like all
/// others: noted as a zero, it reads as none.
pub fn roots(taps: &[u8x32; 5]) -> [u8x32; 5] {
    let mut lower = [u8x16::splat(0); 5];
    let mut upper = [u8x16::splat(0); 5];
    for k in 0..5 {
        lower[k] = taps[k].extract::<0, 16>();
        upper[k] = taps[k].extract::<16, 16>();
    }
    let lower = roots_of_half(&lower);
    let upper = roots_of_half(&upper);
    let mut found = [u8x32::splat(0); 5];
    for k in 0..5 {
        found[k] = joined(lower[k], upper[k]);
    }
    found
}

// Likewise for sixteen polynomials. What changes with each point then fits into sixteen registers of sixteen lanes, as
// processors without vectors of 32 bytes have them. `value` and `point` stay at lower bits 0, where each walk begins:
// at the point 0 the value is the coefficient of x^0. The first walk has no upper bit; each step changes one of bits 4
// to 7.
fn roots_of_half(taps: &[u8x16; 5]) -> [u8x16; 5] {
    let mut found = [u8x16::splat(0); 5];
    let pairs = pairs_of(taps[1]);
    let mut changes = singles_of(taps);
    let inner = inner_changes(&changes, &pairs);
    // Of the lower bits only what they share with upper ones is needed here.
    for bit in 0..4 {
        changes[bit] = u8x16::splat(0);
    }
    let mut value = taps[4];
    let mut point = u8x16::splat(0);
    walk(&mut found, value, point, &inner, &changes);
    for step in 1..16u32 {
        let bit = 4 + flipped(step);
        value = value ^ changes[bit];
        point = point ^ u8x16::splat(UNITS[bit]);
        update_changes(&mut changes, &pairs[bit]);
        walk(&mut found, value, point, &inner, &changes);
    }
    found
}

// Joins two halves to a vector: in a shuffle the lanes of the second one are numbered from 16 on.
#[inline(always)]
fn joined(lower: u8x16, upper: u8x16) -> u8x32 {
    lower.shuffle(
        upper,
        [
            0, 1, 2, 3, 4, 5, 6, 7, 8, 9, 10, 11, 12, 13, 14, 15, 16, 17, 18, 19, 20, 21, 22, 23,
            24, 25, 26, 27, 28, 29, 30, 31,
        ],
    )
}

// The bit that changes with a step in Gray's order: the lowest one that the step's number has. A step is from 1 to 15,
// so that the remainder changes nothing: it shows that the bit is below four.
#[inline(always)]
fn flipped(step: u32) -> usize
    ensures { result < 4 }
{
    step.trailing_zeros() as usize % 4
}

// What each bit that is set adds to the values by itself: x^5 and the terms of x^4 to x^1 at this bit alone.
#[inline(always)]
fn singles_of(taps: &[u8x16; 5]) -> [u8x16; 8] {
    let mut singles = [u8x16::splat(0); 8];
    for bit in 0..8 {
        singles[bit] = u8x16::splat(FIFTH_POWERS[bit])
            ^ mul_scalar(taps[0], FOURTH_POWERS[bit])
            ^ mul_scalar(taps[1], CUBES[bit])
            ^ mul_scalar(taps[2], SQUARES[bit])
            ^ mul_scalar(taps[3], UNITS[bit]);
    }
    singles
}

// What each two bits add together where both are set, by the coefficients of x^3: only third and fifth powers aren't
// linear. It is the same either way round, and 0 for a bit with itself, so half is computed.
#[inline(always)]
fn pairs_of(cubic: u8x16) -> [[u8x16; 8]; 8] {
    let mut pairs = [[u8x16::splat(0); 8]; 8];
    for a in 0..8 {
        for b in 0..a {
            let pair = u8x16::splat(FIFTH_PAIRS[a][b]) ^ mul_scalar(cubic, CUBE_PAIRS[a][b]);
            pairs[a][b] = pair;
            pairs[b][a] = pair;
        }
    }
    pairs
}

// The changes of the values with each step over the lower four bits, where no upper one is set. They are the same for
// all upper bits, but for what a bit shares with those. So they are computed once. Entry `step` is for that step; steps
// begin at 1, and entry 0 isn't read.
#[inline(always)]
fn inner_changes(singles: &[u8x16; 8], pairs: &[[u8x16; 8]; 8]) -> [u8x16; 16] {
    let mut changes = *singles;
    let mut inner = [u8x16::splat(0); 16];
    for step in 1..16u32 {
        let bit = flipped(step);
        inner[step as usize] = changes[bit];
        update_changes(&mut changes, &pairs[bit]);
    }
    inner
}

// Adds to the changes what they share with a bit that changes. It adds nothing to the change of this bit itself. Added
// once more, it takes that away, so that it serves a bit that is set and one that is cleared.
#[inline(always)]
fn update_changes(changes: &mut [u8x16; 8], pairs: &[u8x16; 8]) {
    for bit in 0..8 {
        changes[bit] = changes[bit] ^ pairs[bit];
    }
}

// Walks the sixteen points with the same upper bits: four times four, each of which changes bit 0, bit 1 and bit 0. The
// value and the point are copies: the caller's stay where the lower bits are 0. A step adds its change without upper
// bits, from `inner`, and what its bit shares with the upper bits that are set, from `changes`. Zeros go to `found`.
// Step `4 four` changes bit 2 or 3, which the bit of `four` in Gray's order says; the remainder keeps it below four.
#[inline(always)]
fn walk(
    found: &mut [u8x16; 5],
    value: u8x16,
    point: u8x16,
    inner: &[u8x16; 16],
    changes: &[u8x16; 8],
) {
    let mut value = value;
    let mut point = point;
    walk_four(found, &mut value, &mut point, inner, changes, 0);
    for four in 1..4u32 {
        let bit = 2 + flipped(four) % 2;
        value = value ^ inner[4 * four as usize] ^ changes[bit];
        point = point ^ u8x16::splat(UNITS[bit]);
        walk_four(found, &mut value, &mut point, inner, changes, four as usize);
    }
}

// Walks four points with the same upper six bits, and leaves `value` and `point` at the last. All four values are at
// hand before any is tested, so that one test serves them. `four` is the number of the four among those of a walk: its
// three steps, `4 four + 1` to `4 four + 3`, change bit 0, bit 1 and bit 0.
#[inline(always)]
fn walk_four(
    found: &mut [u8x16; 5],
    value: &mut u8x16,
    point: &mut u8x16,
    inner: &[u8x16; 16],
    changes: &[u8x16; 8],
    four: usize,
)
    requires { four < 4 }
{
    let mut values = [*value; 4];
    let mut points = [*point; 4];
    for step in 1..4 {
        let bit = usize::from(step == 2);
        values[step] = values[step - 1] ^ inner[4 * four + step] ^ changes[bit];
        points[step] = points[step - 1] ^ u8x16::splat(UNITS[bit]);
    }
    *value = values[3];
    *point = points[3];
    note_four(found, &values, &points);
}

// Puts those of four points where the value is 0 before those found, in each lane. A lane seldom has two of them. So
// each lane that has one gets it at once, and only where a lane has two are the points put one by one. `point` begins
// with the first point, zero or not: only lanes of `any` read it.
#[inline(always)]
fn note_four(found: &mut [u8x16; 5], values: &[u8x16; 4], points: &[u8x16; 4]) {
    let zero = u8x16::splat(0);
    let mut any = values[0].simd_eq(zero);
    let mut point = points[0];
    let mut two = mask8x16::splat(false);
    for k in 1..4 {
        let here = values[k].simd_eq(zero);
        two = two | (any & here);
        any = any | here;
        point = here.select(points[k], point);
    }
    if two.any() {
        note_each(found, values, points);
    } else {
        put(found, any, point);
    }
}

// Likewise one by one: each is put in the lanes where it is a zero.
#[inline(always)]
fn note_each(found: &mut [u8x16; 5], values: &[u8x16; 4], points: &[u8x16; 4]) {
    for k in 0..4 {
        put(found, values[k].simd_eq(u8x16::splat(0)), points[k]);
    }
}

// Puts a point before those found, in each lane that is chosen. All five move up in each lane alike, without a branch
// or a place that is counted. From the last on, so that each is read before it is overwritten. The fifth is lost: it is
// still 0, as a polynomial of degree 5 has at most five zeros.
#[inline(always)]
fn put(found: &mut [u8x16; 5], chosen: mask8x16, point: u8x16) {
    for k in 0..4 {
        found[4 - k] = chosen.select(found[3 - k], found[4 - k]);
    }
    found[0] = chosen.select(point, found[0]);
}
