//! The five pieces of a third, added up for its five exponents k at once. A third is a word of 85 bytes, whose values
//! are asked for at the alpha^k with k below 15 and k mod 3 = i; its pieces have seventeen bytes. Horner's rule over
//! pieces needs the 17th power of alpha^k. These five powers are one of them times the fifth roots of one, so the sums
//! are values of words of five bytes at these roots.
//! A rotation is a product with alpha^85. This is a third root of one, so three rotations change nothing. Pieces are stored
//! rotated as they are needed here, so that no product is made for it.
//! All is inlined: factors are constants then, and vectors needn't pass through memory.
//! In contracts `folded` is a third's pieces added up to one by Horner's rule in a factor.
ghost use Rattle.std.specs.Prelude.{ℕ, ◌*◌, ◌<◌, [], ◌∷◌, slice_index};
ghost use Rattle.coding.specs.Field.{alpha, plus, product, power};
ghost use Rattle.coding.specs.Words.{value};
ghost use Rattle.coding.specs.Rows.{line};
ghost use Rattle.rs_lanes.specs.Inner.Lanes.{HasLanes};
ghost use Rattle.rs_lanes.specs.Inner.Thirds.{exponent_at, folded, third};

use crate::gf_tables::products;
use crate::lanes::{mul_const, xor};
use std::simd::prelude::*;

/// One place of the five pieces of the third with number `i`, added up to one as by Horner's rule in the 17th power of
/// alpha^k: result `m` for the exponent k with number `m`. With k = 10 i + 3 m the 17th power of alpha^k is
/// alpha^(170 i) times alpha^(51 m). So piece j, counted from the last one, whose power is 1, has to be multiplied by
/// alpha^(170 i j) first, in 2 i j rotations. It is stored so. What is left for each m is a fifth root of one.
/// The 10 is there since 17 times 10 is twice 85: so rotations serve all five exponents at once.
#[inline(always)]
pub fn folded_places(thirds: &[[u8x32; 3]; 85], i: usize, place: usize) -> [u8x32; 5]
    requires third { i < 3 }
    requires place { place < 17 }
    ensures { (m : ℕ) → m < 5
        → HasLanes (line result m) (λ j. slice_index (folded 17 (power (power alpha (exponent_at i m)) 17) (third thirds.now i j) 4) place) }
{
    at_fifth_roots(
        thirds[68 + place][i],
        thirds[51 + place][i],
        thirds[34 + place][i],
        thirds[17 + place][i],
        thirds[place][i],
    )
}

// The values of each lane's word `y4 y3 y2 y1 y0` at the fifth roots of one: result `m` has those at alpha^(51 `m`).
// A product for each of four bytes and each root but 1 would be sixteen. Roots in pairs with their inverses need five.
// For each `m` there is one value, in the order in which `exponent` of `fold3` has the five exponents. Also ensures
// that the lanes are bytes.
#[inline(always)]
fn at_fifth_roots(y0: u8x32, y1: u8x32, y2: u8x32, y3: u8x32, y4: u8x32) -> [u8x32; 5]
    ensures values { (m : ℕ) → m < 5 → HasLanes (line result m) (λ j.
        value (slice_index y4 j ∷ slice_index y3 j ∷ slice_index y2 j ∷ slice_index y1 j ∷ slice_index y0 j ∷ []) (power alpha (51 * m))) }
    ensures bytes { (j : ℕ) → j < 32
        → (slice_index y0 j < 256) × (slice_index y1 j < 256) × (slice_index y2 j < 256) × (slice_index y3 j < 256) × (slice_index y4 j < 256) }
{
    // The roots are, for m from 0 to 4: 1, 0x0A, 0x44, 0x92 and 0xDD. 0xDD is the inverse of 0x0A, and 0x92 that of
    // 0x44. 0x0A and 0xDD add up to 0xD7, 0x44 and 0x92 to 0xD7 + 1. So a product with 0xD7 makes a sum with one root
    // into that with its inverse. At 0x0A the bytes y4, y3, y2, y1 are multiplied by 0xDD, 0x92, 0x44, 0x0A. With 0xDD
    // for y1 and 0x92 for y2 too, y1 goes with y4 and y2 with y3, and two products serve four bytes. `crossed` puts
    // right what that changes, but for the 1 in 0xD7 + 1: so y2 is added once more. That makes `first`, the value at
    // 0x0A, and that at 0xDD comes of it. `second` is that at 0x44 likewise, with 0x92 for y1 and 0x0A for y2: here y1
    // is added once more. It gives that at 0x92. One of the two pairs is multiplied by 0x92 in both: `shared` does so
    // for both pairs at once, and the other pair then needs 0x4F in the place of 0xDD, or 0x98 in that of 0x0A.
    let ends = xor(y1, y4);
    let middle = xor(y2, y3);
    let both = xor(ends, middle);
    let exchanged = mul_const(&products(0xD7), both);
    let crossed = xor(y0, mul_const(&products(0xD7), xor(y1, y2)));
    let shared = mul_const(&products(0x92), both);
    let first = xor(
        xor(crossed, y2),
        xor(shared, mul_const(&products(0x4F), ends)),
    );
    let second = xor(
        xor(crossed, y1),
        xor(shared, mul_const(&products(0x98), middle)),
    );
    [
        xor(y0, both),
        first,
        second,
        xor(second, xor(exchanged, ends)),
        xor(first, xor(exchanged, middle)),
    ]
}
