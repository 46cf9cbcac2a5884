//! Captures of one ECC block of a DVD (ECMA-267, clause 18), joined place by place. What one capture has lost another
//! may have received, and where two received different bytes neither is believed. `dvdecc merge` joins whole blocks
//! here, and dvd_assemble the rows of scattered recording frames.
#![tactic(auto)]

pub mod laws; // what holds of every join, as contracts alone
mod lanes; // 32 places of a row at once
mod merge; // what is known of each place of a block
mod place; // what is known of a place
mod record; // rows in the marked form
mod row; // rows joined to those of a capture

pub use merge::Merge;
pub use place::Place;

#[cfg(test)]
mod tests;
