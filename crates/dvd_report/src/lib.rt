//! The lines of a report that name the ECC blocks of a stream that are damaged, or that a round gave back. Also the
//! survey of a disk's surface: how many rows of its blocks have a PI error (ECMA-267, clause 18).
#![tactic(auto)]

mod cause; // the line of a damaged block
mod counts; // what a survey counts, of a block and over all blocks
mod errors; // the counts of one block
mod round; // the line of a block that a round gave back
mod setting; // the line of a layout that breaks a rule
mod survey; // a survey, and what is added to it
mod survey_lines; // the lines of a survey
mod text; // lines of text, and what is put at their end
#[cfg(test)]
mod tests;

pub use cause::{put_block, write_cause};
pub use counts::{Surveyed, Totals};
pub use round::write_round;
pub use setting::setting_line;
pub use survey::Survey;
pub use text::Line;
