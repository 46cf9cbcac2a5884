//! Reading of a captured ECC block (ECMA-267, clause 18): two passes over its rows and columns give the one block that
//! agrees with what was received, and the checks of its sixteen data frames (clauses 16 and 17) give their Main Data.
#![tactic(auto)]

mod column_group; // 32 columns by their values, and the codeword near each
mod columns; // the second pass: columns of the rows' answers
mod copying; // columns copied of rows
mod failed; // the rows that failed in the first pass
mod fixed; // what was fixed of a block that is read
mod frames; // the checks of the sixteen data frames
mod kept; // whether the columns keep the rows that were answered
mod lanes; // the values of 32 words, as the syndromes of each
pub mod laws; // what holds of every captured block that is read
pub mod parts; // the passes piece by piece, for work on several pieces at once
mod passes; // both passes, and the test of the rows
mod reading; // a captured block read as an entry of a plan
mod rescue; // the frames that can be saved, of a refused block too
mod row_group; // 32 rows by their values, and the codeword near each
mod rows; // the first pass: rows

pub use column_group::{ColumnGroup, patches_for};
pub use dvd_decoding::Cause;
pub use failed::FailedRows;
pub use fixed::Fixed;
pub use frames::{read_frame_at, sectors};
pub use passes::two_pass;
pub use reading::read_block;
pub use rescue::salvage;
pub use row_group::RowGroup;

#[cfg(test)]
mod tests;
