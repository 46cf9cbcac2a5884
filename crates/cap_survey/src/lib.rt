//! The lines of a survey of a disk, as `dvdecc survey` writes them, and the counts in them. No file is read here.
//!
//! A survey has a line for each block and a line of totals. What a line says and which rule it breaks are definitions
//! in `specs/`, and so is the result of all lines. The bytes come in pieces of any length.
#![tactic(auto)]

mod block; // the line of a block
mod cell; // what is kept of a block
mod fault; // why a text is no survey
mod number; // numbers after a name
mod survey; // what was read so far
mod text; // lines that come in pieces
mod totals; // totals over blocks, and their line

pub use cell::Cell;
pub use fault::{Fault, SurveyCause};
pub use survey::ReadSurvey;
pub use text::Reading;
pub use totals::{Totals, count_refused, greatest_failed, greatest_sum8, totals_of};

#[cfg(test)]
mod tests;
