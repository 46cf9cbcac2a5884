//! Data frames and scrambled frames of a DVD (ECMA-267, clauses 16 and 17): 2,064 bytes with the identification
//! of a sector, its 2,048 bytes Main Data, and the codes that detect errors in both.
#![tactic(auto)]

mod checks; // the two codes that detect errors: IED and EDC
mod folds; // chunks of bytes added to later ones, for the EDC
mod frame; // a whole data frame
mod id; // the identification of a sector: area, layer and number
pub mod laws; // what holds of every data frame
mod parts; // parts of lists: written, or read as vectors
mod reading; // a frame that was read, checked
mod remainders; // what dividing each byte leaves, for the EDC
mod scrambling; // which bytes are added to which Main Data bytes

pub use checks::{edc, ied};
pub use frame::{make_frame, make_frame_with};
pub use id::{Area, Id};
pub use reading::{FrameCause, found_id, has_right_ied, read_frame, read_frame_into};
pub use scrambling::{Keystream, Rule, Scrambler, preset, scramble};

#[cfg(test)]
mod tests;
