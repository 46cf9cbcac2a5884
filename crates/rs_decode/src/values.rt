//! The values of a polynomial at the powers of alpha, sixteen at once. The highest power comes first.
//! A term's values at sixteen powers, each times one power of alpha, are its values at the next sixteen. Formulas for
//! low degrees would need a table and a proof for each degree, and this search for all others.
ghost use Rattle.std.specs.Prelude.{◌≡◌, ℕ, ◌*◌, ◌<◌, ◌≤◌, length, slice_index};
ghost use Rattle.coding.specs.Field.{alpha, plus, product, power};
ghost use Rattle.coding.specs.Words.{value};

use crate::combining::add_lanes;
use gf_field::alpha_pow;
use rs_lanes::{mul_scalar, powers};

/// The polynomial's values at alpha^0, alpha^1, .. : byte `k` is that at alpha^k, for each `k` below `count`. Values
/// are found in whole groups of sixteen, so the list has room for sixteen groups, and those from `count` on aren't
/// said.
pub fn values_at_powers(polynomial: &[u8], count: usize) -> [u8; 256]
    requires room { count ≤ 256 }
    requires short { length polynomial.now ≤ 255 }
    ensures { (k : ℕ) → k < count → slice_index result k ≡ value polynomial.now (power alpha k) }
{
    let mut values = [0; 256];
    for exponent in 0..polynomial.len() {
        // The highest power comes first, so that of x^0 is the last.
        let coefficient = polynomial[polynomial.len() - 1 - exponent];
        add_term(&mut values, count.div_ceil(16), coefficient, exponent);
    }
    values
}

// Adds the values of `coefficient` x^`exponent` to the first `groups` groups of sixteen; the other groups stay. The
// values in the next group are those in this one times alpha^(16 `exponent`).
fn add_term(values: &mut [u8], groups: usize, coefficient: u8, exponent: usize)
    requires room { 16 * groups ≤ length values.old }
    requires short { exponent < 255 }
    ensures size { length values.new ≡ length values.old }
    ensures added { (k : ℕ) → k < 16 * groups
        → slice_index values.new k ≡ plus (slice_index values.old k) (product coefficient (power alpha (exponent * k))) }
{
    let mut term = mul_scalar(powers(exponent), coefficient);
    let step = alpha_pow(16 * exponent as u32);
    for group in 0..groups {
        add_lanes(values, 16 * group, term);
        term = mul_scalar(term, step);
    }
}
