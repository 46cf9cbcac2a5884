//! Captured ECC blocks of a DVD (ECMA-267, clause 18): what was received, which places are known to be lost, and
//! what a decoder finds of them. Nothing here decodes.
#![tactic(auto)]

mod capture; // blocks from a source
mod form; // the forms in which a captured block is stored
mod header; // the header of a listed capture
pub mod laws; // what holds of every captured block, as contracts alone
mod listed; // blocks in the listed form, to a sink and from a source
mod order; // recorded rows put in the order of the block
pub mod parts; // the buffers of a captured block, lent one by one
mod places; // the marks of a block in the order of recording
mod row_marks; // the marks of one row
mod runs; // the runs of marked places as fields
mod stage; // how far a captured block is
mod work; // a captured block with all that is found of it

pub use capture::{FetchAnswer, cut_off, fetch};
pub use form::Form;
pub use header::{Header, HeaderFault};
pub use listed::write_listed;
pub use row_marks::{RowMarks, SPREAD};
pub use stage::Stage;
pub use work::Work;

#[cfg(test)]
mod equality_tests;
#[cfg(test)]
mod listed_tests;
#[cfg(test)]
mod tests;
