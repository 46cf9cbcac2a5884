//! CD-ROM sectors of Mode 1 (ECMA-130, 2nd edition, clause 14 and annex A): 2,352 bytes with the address of a sector,
//! its 2,048 bytes of user data, a code that detects errors in both, and two that correct them.
#![tactic(auto)]

mod checking; // a sector that was read, checked
mod columns; // columns of rows as words, tested and encoded
mod edc; // the code that detects errors
pub mod laws; // what holds of every sector
mod repairing; // a sector that was read, repaired
mod rows; // the words of a sector as columns of rows
mod sector; // a whole sector
mod table; // the remainders of bytes, for the EDC
mod words; // the words that correct errors

pub use checking::{CdCause, check};
pub use edc::cd_edc;
pub use repairing::repair;
pub use sector::make;

#[cfg(test)]
mod tests;
