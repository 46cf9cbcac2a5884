//! The survey of a disk as a picture: an SVG file, which any browser shows.
//!
//! A survey is read as a whole, and then its picture is written in one write. Each part of the picture is a definition
//! in `specs/`: the columns of the blocks, the texts, and the numbers in them. All numbers are whole.
#![tactic(auto)]

mod axes; // the axes, and what frames the parts
mod bars; // the columns of a picture, as rectangles and marks
mod column; // the blocks that share a column
mod drawing; // reads a survey, and writes its picture
mod page; // the bytes of a picture
mod picture; // a whole picture
mod plot; // how wide and how high the parts are
mod words; // the totals in words, and the legend

pub use cap_survey::{Fault, SurveyCause};
pub use drawing::{DrawEnd, draw};

#[cfg(test)]
mod tests;
