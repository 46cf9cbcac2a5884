//! The field as pairs of nibbles: a byte's high nibble is the coefficient of y, and its low nibble is added. Nibbles
//! are the field of sixteen elements by z^4 + z + 1, and y^2 = y + z^14. Vectors have no product of bytes. In this form
//! a product is three products of nibbles. These are sums of logarithms to the base z, which tables of sixteen give in
//! all lanes at once.
//! (a y + b) (c y + d) is a c z^14 + b d (1 + y) + (a + b) (c + d) y: so each of the three products has one table.
//! No function has a clause: all of it makes proposals, which are tested, so a wrong entry could cost time alone.
//! Tables of fifteen powers have a sixteenth entry, 0, that no sum of logarithms reaches.
//! All is inlined, so that vectors needn't pass through memory.
use crate::nibbles::{at_high_nibbles, at_low_nibbles, look_up, mapped};
use std::simd::prelude::*;

/// The logarithms of a vector's high nibbles, of its low ones, and of the sums of both. The logarithm of 0 is 240: with
/// another added to it, it is still 128 or more, and a look-up there gives 0. A number that has several factors is
/// looked up once.
pub type Logs = [u8x32; 3];

/// The number that is used as the logarithm of 0: the sum of two is 224 by eight bits, and still 128 or more.
const LOG_OF_ZERO: u8 = 0xF0;

// The logarithms of the nibbles.
static LOGARITHMS: [u8; 16] = [
    LOG_OF_ZERO,
    0x00,
    0x01,
    0x04,
    0x02,
    0x08,
    0x05,
    0x0A,
    0x03,
    0x0E,
    0x09,
    0x07,
    0x06,
    0x0D,
    0x0B,
    0x0C,
];

// The powers of z, from z^0 on. There are fifteen.
static POWERS: [u8; 16] = [
    0x01, 0x02, 0x04, 0x08, 0x03, 0x06, 0x0C, 0x0B, 0x05, 0x0A, 0x07, 0x0E, 0x0F, 0x0D, 0x09, 0,
];

// What a product of the high nibbles adds: itself times y^2, whose y cancels a part of the middle product.
static OF_HIGH: [u8; 16] = [
    0x09, 0x01, 0x02, 0x04, 0x08, 0x03, 0x06, 0x0C, 0x0B, 0x05, 0x0A, 0x07, 0x0E, 0x0F, 0x0D, 0,
];

// What a product of the low nibbles adds: itself, and itself times y, since the middle product has it once too often.
static OF_LOW: [u8; 16] = [
    0x11, 0x22, 0x44, 0x88, 0x33, 0x66, 0xCC, 0xBB, 0x55, 0xAA, 0x77, 0xEE, 0xFF, 0xDD, 0x99, 0,
];

// What the middle product, that of the sums of both nibbles, adds: itself times y.
static OF_SUMS: [u8; 16] = [
    0x10, 0x20, 0x40, 0x80, 0x30, 0x60, 0xC0, 0xB0, 0x50, 0xA0, 0x70, 0xE0, 0xF0, 0xD0, 0x90, 0,
];

// The squares of the powers of z, times z^14: what a high nibble adds to a norm.
static SQUARES_IN_NORM: [u8; 16] = [
    0x09, 0x02, 0x08, 0x06, 0x0B, 0x0A, 0x0E, 0x0D, 0x01, 0x04, 0x03, 0x0C, 0x05, 0x07, 0x0F, 0,
];

// The logarithms of the inverses of the nibbles.
static INVERSE_LOGARITHMS: [u8; 16] = [
    LOG_OF_ZERO,
    0x00,
    0x0E,
    0x0B,
    0x0D,
    0x07,
    0x0A,
    0x05,
    0x0C,
    0x01,
    0x06,
    0x08,
    0x09,
    0x02,
    0x04,
    0x03,
];

// From bytes to pairs of nibbles, where z is 98 and y is 12 (in base 16): any of the four elements and the two that
// meet the equations above would do. For z^14 any of eight nibbles would: those with which no nibble meets the second
// equation, since y has to be none.
static PAIRS: [[u8; 16]; 2] = [
    [
        0x00, 0x01, 0x48, 0x49, 0x34, 0x35, 0x7C, 0x7D, 0x40, 0x41, 0x08, 0x09, 0x74, 0x75, 0x3C,
        0x3D,
    ],
    [
        0x00, 0x58, 0xF6, 0xAE, 0x38, 0x60, 0xCE, 0x96, 0x1A, 0x42, 0xEC, 0xB4, 0x22, 0x7A, 0xD4,
        0x8C,
    ],
];

// From pairs of nibbles to bytes.
static BYTES: [[u8; 16]; 2] = [
    [
        0x00, 0x01, 0x98, 0x99, 0x4E, 0x4F, 0xD6, 0xD7, 0x0A, 0x0B, 0x92, 0x93, 0x44, 0x45, 0xDC,
        0xDD,
    ],
    [
        0x00, 0x12, 0x58, 0x4A, 0x08, 0x1A, 0x50, 0x42, 0xB4, 0xA6, 0xEC, 0xFE, 0xBC, 0xAE, 0xE4,
        0xF6,
    ],
];

// The squares of pairs of nibbles.
static SQUARES: [[u8; 16]; 2] = [
    [
        0x00, 0x01, 0x04, 0x05, 0x03, 0x02, 0x07, 0x06, 0x0C, 0x0D, 0x08, 0x09, 0x0F, 0x0E, 0x0B,
        0x0A,
    ],
    [
        0x00, 0x19, 0x42, 0x5B, 0x38, 0x21, 0x7A, 0x63, 0xC6, 0xDF, 0x84, 0x9D, 0xFE, 0xE7, 0xBC,
        0xA5,
    ],
];

/// Bytes as pairs of nibbles. The change is linear over the bits, so two tables of sixteen do it.
#[inline(always)]
pub fn pairs(bytes: u8x32) -> u8x32 {
    mapped(&PAIRS, bytes)
}

/// Pairs of nibbles as bytes, likewise.
#[inline(always)]
pub fn bytes(pairs: u8x32) -> u8x32 {
    mapped(&BYTES, pairs)
}

/// The squares of pairs of nibbles. A square is linear in this field, so it needs no logarithms.
#[inline(always)]
pub fn squares(pairs: u8x32) -> u8x32 {
    mapped(&SQUARES, pairs)
}

/// The logarithms of pairs of nibbles. Of `sums` only the low nibble is read, which is the sum of both.
#[inline(always)]
pub fn logs(pairs: u8x32) -> Logs {
    let sums = pairs ^ (pairs >> u8x32::splat(4));
    [
        at_high_nibbles(&LOGARITHMS, pairs),
        at_low_nibbles(&LOGARITHMS, pairs),
        at_low_nibbles(&LOGARITHMS, sums),
    ]
}

/// The logarithms of 1, whose high nibble is 0 and whose low nibble is 1: so the sum of both is 1, too.
#[inline(always)]
pub fn logs_of_one() -> Logs {
    [u8x32::splat(LOG_OF_ZERO), u8x32::splat(0), u8x32::splat(0)]
}

/// The logarithms of 0: both nibbles and their sum are 0.
#[inline(always)]
pub fn logs_of_zero() -> Logs {
    [u8x32::splat(LOG_OF_ZERO); 3]
}

/// The products of pairs of nibbles, by the logarithms of the factors.
#[inline(always)]
pub fn product(a: &Logs, b: &Logs) -> u8x32 {
    look_up(&OF_HIGH, joined(a[0], b[0]))
        ^ look_up(&OF_LOW, joined(a[1], b[1]))
        ^ look_up(&OF_SUMS, joined(a[2], b[2]))
}

/// The logarithms of the inverses. Those of 0 have no meaning. For a nibble 0 they have 209 or more, which a sum with
/// another keeps from 128 on.
/// The product of a y + b and its conjugate a y + (a + b) is its norm, a nibble: b (a + b) + a^2 z^14. So the inverse
/// is the conjugate divided by the norm. In a conjugate the low nibble and the sum of both have changed places.
#[inline(always)]
pub fn inverse(a: &Logs) -> Logs {
    let norms = look_up(&POWERS, joined(a[1], a[2])) ^ look_up(&SQUARES_IN_NORM, a[0]);
    let divisors = at_low_nibbles(&INVERSE_LOGARITHMS, norms);
    [
        joined(a[0], divisors),
        joined(a[2], divisors),
        joined(a[1], divisors),
    ]
}

/// In each lane the first logarithms where `choice` is set, else the second. All three vectors of a number go together.
#[inline(always)]
pub fn chosen(choice: mask8x32, first: &Logs, second: &Logs) -> Logs {
    [
        choice.select(first[0], second[0]),
        choice.select(first[1], second[1]),
        choice.select(first[2], second[2]),
    ]
}

// The logarithms of products, by those of the factors: their sums, less fifteen where these aren't below fifteen. Below
// fifteen the subtraction wraps round to more than the sum itself, so that the least is the right one. With a logarithm
// of 0 the result is 128 or more, so that a look-up there gives 0.
#[inline(always)]
fn joined(a: u8x32, b: u8x32) -> u8x32 {
    let sums = a + b;
    sums.simd_min(sums - u8x32::splat(15))
}
