//! Which sectors of an image are lost: from the report of `dvdecc recover` or `deep` to a map of GNU ddrescue.
//!
//! The lines of the report are read as they come. Each has to be one that `dvdecc` writes for the blocks of a layout;
//! the first that isn't is named. The sectors of refused blocks are kept. The map then covers the image from its first
//! byte to its last.
#![tactic(auto)]

mod block; // the lines of blocks
mod closing; // the closing line
mod draft; // what lines say together
mod extent; // sectors one after the other
mod fault; // why a report isn't read
mod prefixes; // texts and numbers at the beginning of a text
pub mod laws; // what holds of every report, as contracts alone
mod map; // the map of the image
mod reader; // lines out of bytes
mod report; // a whole report

pub use draft::Lost;
pub use extent::Extent;
pub use fault::{ReportCause, ReportFault};
pub use map::write_map;
pub use report::read_report;

#[cfg(test)]
mod tests;
