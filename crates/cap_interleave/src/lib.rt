//! Blocks of several captures in turn, as `dvdecc merge` reads them: block 0 of each capture, then block 1 of each, ..
//!
//! One block of each capture is read before any of them is written, so that the output has a block of each or of none.
#![tactic(auto)]

mod buffers; // one block of each capture
mod ends; // how the loop ends
mod interleaving; // the loop
pub mod laws; // what holds of blocks in turn, as contracts alone

pub use buffers::Buffers;
pub use ends::InterleaveEnd;
pub use interleaving::interleave_loop;

#[cfg(test)]
mod tests;
