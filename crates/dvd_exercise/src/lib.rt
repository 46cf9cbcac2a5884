//! A self-test of a decoder: pseudo-random sectors, and damage to a received ECC block (ECMA-267, clause 18) within the
//! bound of two-pass decoding. The same seed draws the same sectors and the same damage.
//! What is made and read back of them is the command's own: `exercise`, in dvd_commands.
#![tactic(auto)]

mod damage; // what is damaged in a block
mod generator; // pseudo-random numbers
pub mod laws; // what holds of the damage, as contracts alone

pub use damage::hurt;
pub use generator::{Rand, fill_piece};

#[cfg(test)]
mod tests;
