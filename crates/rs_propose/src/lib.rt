//! Errors of 32 rows at once: what to add to each row is proposed in the lanes of vectors, and each proposal is tested.
//! Of how a proposal is made, nothing is proved but that it is safe. A wrong one only means that its row is decoded by
//! itself. Contracts speak of [`Proposals::believe`] alone, which tests what it does. Where other functions have
//! clauses, they are for this test, or keep numbers within their bounds.
//!
//! - [`proposals`]: what is proposed for 32 rows, and the test of it.
//! - `counting`: a byte added to a row, and the number of places that then differ from the received row.
//! - `locators`: the locators of the rows by the algorithm of Berlekamp and Massey, all at once.
//! - `roots`: the zeros of 32 polynomials of degree 5.
//! - `amounts`: the bytes at these zeros, by Forney's formula.
//! - `tower`: products and inverses of lanes, in the field as pairs of nibbles.
//! - `nibbles`: look-ups in tables of sixteen.
#![tactic(auto)]

mod amounts;
mod counting;
mod locators;
mod nibbles;
pub mod proposals;
mod roots;
#[cfg(test)]
mod tests;
mod tower;

pub use proposals::Proposals;
