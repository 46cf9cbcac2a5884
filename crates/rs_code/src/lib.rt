//! Reed-Solomon codes over the field of 256 elements, for words of constant length with their parity bytes at the end
//! (ECMA-267, clauses 16.2 and 18).
//!
//! - [`code`]: a code, with its encoder, its syndromes and its test.
//! - `division`: the generator polynomial, and the division by it.
//! - `register`: the division where the remainder fits one number of 128 bits.
//! - `tables`: the multiples of two generators, for that division, and [`sums`], by which tables are written.
//! - `evaluation`: the values of a word at powers of alpha.
//! - [`laws`]: what holds of every code, as contracts alone.
#![tactic(auto)]

pub mod code;
mod division;
mod evaluation;
pub mod laws;
mod register;
mod tables;
#[cfg(test)]
mod tests;

pub use code::{Code, Ied, Pi, Po};
