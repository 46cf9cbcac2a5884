//! The values of a word at points: at powers of alpha, which are given by their exponents. The first byte of a word is
//! the coefficient of its highest power. A word is the remainder of a longer one here, so it has as many bytes as a
//! code has parity bytes.
ghost use Rattle.std.specs.Prelude.{◌≡◌, ◌↔◌, ◌<◌, ◌≤◌, length, replicate, IsTrue};
ghost use Rattle.coding.specs.Field.{alpha, power};
ghost use Rattle.coding.specs.Words.{value};
ghost use Rattle.rs_code.specs.Syndromes.{syndromes_of};

use arrayvec::ArrayVec;
use gf_field::{alpha_pow, log};

/// The values of a word at alpha^0 to alpha^(`parity` - 1), in this order: its syndromes, for a code of `parity` roots.
/// They are in a list with room for 32, the most that a code here has, so that no memory is taken.
pub fn syndromes(word: &[u8], parity: usize) -> ArrayVec<u8, 32>
    requires few { length word.now ≤ 32 }
    requires parity { parity ≤ 32 }
    ensures { result.items ≡ syndromes_of parity word.now }
{
    let mut syndromes = ArrayVec::new();
    for k in 0..parity {
        syndromes.push(value_at(word, k as u32));
    }
    syndromes
}

/// Whether all bytes of a word are 0.
pub fn is_zero(word: &[u8]) -> bool
    ensures { IsTrue result ↔ (word.now ≡ replicate (length word.now) 0) }
{
    for byte in word {
        if *byte != 0 {
            return false;
        }
    }
    true
}

// The value of a word of at most 33 bytes at alpha to a power below 255, term by term. A term's logarithm is that of
// its byte plus a multiple of the exponent, so that no term depends on another. Logarithms and multiples are summed up
// in 32 bits: with so few bytes no sum is too great. `syndromes` has 32 at most; 33, the coefficients of a polynomial
// of degree 32, is arbitrary, and many more would do.
fn value_at(word: &[u8], exponent: u32) -> u8
    requires few { length word.now ≤ 33 }
    requires below { exponent < 255 }
    ensures { result ≡ value word.now (power alpha exponent) }
{
    let mut sum = 0;
    let mut shift = 0;
    // From the last byte on, whose exponent is 0. A byte 0 has no logarithm and adds nothing.
    for k in (0..word.len()).rev() {
        if word[k] != 0 {
            sum ^= alpha_pow(log(word[k]) as u32 + shift);
        }
        shift += exponent;
    }
    sum
}
