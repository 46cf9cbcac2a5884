//! Scattered recording frames of a DVD (ECMA-267, clause 19) put in order. Each is joined to the block that its own
//! first row names, whatever frames came before it.
#![tactic(auto)]

mod frame; // a captured recording frame
mod home; // where a recording frame belongs
pub mod laws; // what holds of all captured frames, as contracts alone
mod shelf; // the blocks of a data zone

pub use frame::{FrameWork, fetch_frame};
pub use shelf::Shelf;

#[cfg(test)]
mod tests;
