//! Sums of elements of the field of 256, with x^8 + x^4 + x^3 + x^2 + 1, and products, quotients, inverses and powers
//! by logarithms: to multiply is to add exponents of alpha. 0 has no logarithm, so it is treated apart, or a contract
//! refuses it. Each function can be inlined into other crates, whose loops call them for each byte. `using` in a
//! `tactic` names the facts on the two tables that a proof needs.
ghost use Rattle.std.specs.Prelude.{◌≡◌, ◌≢◌, ◌<◌};
ghost use Rattle.coding.specs.Field.{alpha, plus, product, power};

use crate::powers::{LOGARITHMS, POWERS};

/// The number of different powers of alpha: alpha^255 is 01.
const ORDER: u32 = 255;

/// The sum of two elements, which is their difference too. Only tests call it: it is here to state that `^`, which all
/// others write, is the sum of the field.
#[inline]
pub fn add(a: u8, b: u8) -> u8
    ensures { result ≡ plus a b }
{
    a ^ b
}

/// The product of two elements. Two exponents are at most 508 together, which is a place of the table of powers. A
/// product with 0 is tested first, since 0 has no logarithm.
#[inline]
#[tactic(auto, using(crate::proofs::Logarithms::products))]
pub fn mul(a: u8, b: u8) -> u8
    ensures { result ≡ product a b }
{
    if a == 0 || b == 0 {
        return 0;
    }
    power_at(exponent(a) + exponent(b))
}

/// The inverse of an element that isn't 0. The exponents of both add up to 255, as alpha^255 is 1. For 01 the place is
/// 255 itself, where the table has alpha^0 once more. To divide 01 by it would take one look-up more.
#[inline]
#[tactic(auto, using(crate::proofs::Logarithms::inverse_by_powers))]
pub fn inv(a: u8) -> u8
    requires { a ≢ 0 }
    ensures { product a result ≡ 1 }
{
    power_at(255 - exponent(a))
}

/// The quotient of two elements, of which the second isn't 0.
#[inline]
#[tactic(auto, using(crate::proofs::Logarithms::quotients))]
pub fn div(a: u8, b: u8) -> u8
    requires { b ≢ 0 }
    ensures { product result b ≡ a }
{
    if a == 0 {
        return 0;
    }
    // 255 more leaves the power as it is, and the difference is then not below 0.
    power_at(exponent(a) + 255 - exponent(b))
}

/// The element alpha = 02 to the power k. Any k is allowed, as a sum of many logarithms: the powers repeat after 255.
#[inline]
#[tactic(auto, using(crate::proofs::Logarithms::exponents))]
pub fn alpha_pow(k: u32) -> u8
    ensures { result ≡ power alpha k }
{
    power_at((k % ORDER) as usize)
}

/// The logarithm of an element that isn't 0: the k below 255 with alpha^k = a. It is `exponent` as a byte, for callers
/// that store it or add it in a type of their own.
#[inline]
pub fn log(a: u8) -> u8
    requires { a ≢ 0 }
    ensures below { result < 255 }
    ensures reaches { power alpha result ≡ a }
{
    exponent(a) as u8
}

/// The exponent of alpha whose power is an element that isn't 0: a place in the table of powers. It is a `usize`, so
/// that the sum of two fits and is a place.
#[inline]
fn exponent(a: u8) -> usize
    requires { a ≢ 0 }
    ensures below { result < 255 }
    ensures reaches { power alpha result ≡ a }
{
    // Place 0 of the table is there so that no element needs a subtraction.
    LOGARITHMS[a as usize] as usize
}

/// The power of alpha at a place of the table, which has all powers twice: a sum of two exponents needs no remainder.
#[inline]
#[tactic(auto, using(crate::proofs::Logarithms::POWERS_at))]
fn power_at(place: usize) -> u8
    requires { place < 510 }
    ensures { result ≡ power alpha place }
{
    POWERS[place]
}
