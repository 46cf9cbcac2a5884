//! Iterated reading of a captured ECC block (ours; ECMA-267, clause 18, defines the block). Where two passes over rows
//! and columns refuse a block, up to four rounds of both may still give it back: the next round no longer has the marks
//! and errors that one round corrects.
#![tactic(auto)]

mod column_step; // the column step of a round
mod deep; // a search for a block by rounds
pub mod laws; // what holds of every block that is read so
mod rounds; // the rounds of a search, and the test of the rows
mod row_step; // the row step of a round
mod sectors; // the checks of a found block's frames, and their Main Data
mod tries; // what a column is tried with

pub use deep::Deep;

#[cfg(test)]
mod tests;
