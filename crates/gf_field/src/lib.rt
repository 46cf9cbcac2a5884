//! The field of 256 elements over which the codes of a DVD are defined (ECMA-267, clauses 16.2 and 18), and its laws.
//!
//! An element is a byte: its bit k is the coefficient of x^k, and products are reduced by x^8 + x^4 + x^3 + x^2 + 1.
//! Products, quotients, inverses and powers are read from two tables, of the powers of alpha and of logarithms.
//! In the crate `coding`, `specs/Field.antt` defines sum, product and power, and `specs/Words.antt` words over the
//! field and their codes.
#![tactic(auto)]

mod field;
pub mod laws;
mod powers;

pub use field::{add, alpha_pow, div, inv, log, mul};

#[cfg(test)]
mod tests {
    use super::*;

    // a, b and their product: computed from the definition outside the program.
    const PRODUCTS: [(u8, u8, u8); 6] = [
        (0x80, 0x02, 0x1D),
        (0x03, 0xF4, 0x01),
        (0x53, 0xCA, 0x8F),
        (0xFF, 0xFF, 0xE2),
        (0xB7, 0x01, 0xB7),
        (0x00, 0x9C, 0x00),
    ];

    // The exponent of alpha and the power.
    const POWERS: [(u32, u8); 8] = [
        (0, 0x01),
        (1, 0x02),
        (8, 0x1D),
        (25, 0x03),
        (254, 0x8E),
        (255, 0x01),
        (256, 0x02),
        (4294967295, 0x01),
    ];

    #[test]
    fn meets_values_from_outside(rt: HostRuntime) {
        assert_eq!(rt; add(0xA5, 0x0F), 0xAA);
        for (a, b, product) in PRODUCTS {
            assert_eq!(rt; mul(a, b), product);
        }
        for (k, power) in POWERS {
            assert_eq!(rt; alpha_pow(k), power);
        }
        assert_eq!(rt; inv(0x03), 0xF4);
        assert_eq!(rt; div(0x1D, 0x02), 0x80);
        assert_eq!(rt; log(0x03), 25);
        assert_eq!(rt; log(0x8E), 254);
        assert_eq!(rt; log(0x01), 0);
    }
}
