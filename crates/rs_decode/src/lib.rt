//! Decoding of words of Reed-Solomon codes (ECMA-267, clauses 16.2 and 18) in place, by functions that take no memory.
//!
//! - [`erasures`]: `fill` finds the codeword that agrees with a word at all places that aren't marked.
//! - [`errors`]: `decode` finds the codeword that is near a word with marks, and `decode_from` does so by syndromes and
//!   marked places that are at hand, so that words with the same marks share these.
//! - `forney`: the bytes at given points that have given power sums, by Forney's formula.
//! - `inverse`: what the formula gives for the points alone, [`Inverse`], by which many words are filled.
//! - `locating`: the places where errors may be, from power sums and a locator.
//! - `multiples`: products of lanes with lanes.
//! - `patches`: what 32 words with the same marks lack at these, [`Patches`], proposed for all at once and tested.
//! - `places`: the marked places of a word, [`Erasures`].
//! - [`register`]: `shortest` finds the shortest linear feedback register that generates a list.
//! - `combining`: sixteen bytes added to others at once, lists in the first lanes of vectors, and lanes moved up.
//! - `sums`: power sums with points taken out.
//! - `power_sums`: power sums of bytes at points, sixteen at once.
//! - `values`: the values of a polynomial at the powers of alpha.
//! - [`laws`]: what holds of every word, as contracts alone.
#![tactic(auto)]

mod combining;
pub mod erasures;
pub mod errors;
mod forney;
mod inverse;
pub mod laws;
mod locating;
mod multiples;
mod patches;
mod places;
mod power_sums;
pub mod register;
mod sums;
#[cfg(test)]
mod tests;
mod values;

pub use erasures::{NoCodeword, fill};
pub use errors::{Beyond, Fix, decode, decode_from};
pub use inverse::Inverse;
pub use locating::prove_bytes;
pub use patches::Patches;
pub use places::Erasures;
pub use register::{Register, shortest};
