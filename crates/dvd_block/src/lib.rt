//! ECC blocks of a DVD (ECMA-267, clause 18): sixteen data frames with their inner and outer parity, and the order
//! in which their rows are recorded (clause 19).
#![tactic(auto)]

mod block; // a block: its frames, its parity, its rows as they are recorded
mod buffers; // the memory of a block
pub mod laws; // what holds of every block
mod order; // where a row is recorded
mod parity; // the parity of rows and columns
pub mod parts; // the buffers and the parity of some rows or columns, for work on several at once
mod piece; // a buffer for the sectors of a block

pub use block::{Block, write_rows};
pub use order::{record_of_row, row_of_record};
pub use piece::Piece;

#[cfg(test)]
mod tests;
