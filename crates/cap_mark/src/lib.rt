//! Plain captures in the marked form: each byte that a map doesn't call rescued gets a mark.
//!
//! A capture is read by recording frames, 13 recorded rows of 182 bytes. Each row is written with 23 bytes of mark
//! bits.
#![tactic(auto)]

pub mod laws; // what the mark bits say, as contracts alone
mod marking; // the loop over recording frames
mod marks; // the mark bits of a row, and the rows of a frame
mod walk; // the spans of a map from a byte on

pub use marking::mark_loop;
