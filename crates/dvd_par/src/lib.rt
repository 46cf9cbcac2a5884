//! Work on one captured or mastered block by several workers at once. Each pass over its rows or over its columns is
//! cut into pieces, as many as there are workers at most. The calling thread does the last piece, and each other is
//! done by a thread of its own where one can be made. The answers are those of one worker. A piece is a slice that one
//! worker writes and nobody else reads, so that no buffer is copied. Commands with the option `--workers` come here,
//! also with one worker.
#![tactic(auto)]

mod cutting; // how a pass is cut into pieces
mod gate; // what is asked before each piece
mod parity; // the parity of a block
mod passes; // both passes over a captured block
mod reading; // a captured block read as an entry of a plan

pub use gate::{Gate, OpenGate};
pub use parity::add_parity_par;
pub use passes::two_pass_par;
pub use reading::read_block_par;

#[cfg(test)]
mod asked;
#[cfg(test)]
mod tests;
#[cfg(test)]
mod worked;
