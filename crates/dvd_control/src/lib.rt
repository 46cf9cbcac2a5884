//! Main Data of the blocks that hold no image: zeros, the reference code and the control data
//! (ECMA-267, Lead-in Zone), with the physical format in the first sector of each block of control data.
#![tactic(auto)]

mod format; // the physical format of a disk, written and read
pub mod laws; // what holds of every physical format
mod main_data; // the Main Data of a frame
mod numbers; // sector numbers of a physical format

pub use format::{ControlFault, PhysicalFormat};
pub use main_data::main_of;

#[cfg(test)]
mod tests;
