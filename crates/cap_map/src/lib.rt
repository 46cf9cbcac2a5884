//! The map of GNU ddrescue: which bytes of a capture are rescued. No file is read here; the text of a map is a slice.
//!
//! A map has comments, a line with the state of the run that wrote it, and lines with a position, a size and a status.
//! Each rule of these lines is a definition in `specs/`, and `read_map` gives what they say or names the line that
//! breaks one.
#![tactic(auto)]

mod draft; // what a map says, as far as it was read
mod fault; // why a text is no map
mod fields; // lines and the fields of a line
mod line; // what one line says
mod map; // a whole map
mod number; // numbers in three bases
mod span; // bytes of a capture that have one status

pub use fault::{MapCause, MapFault};
pub use map::read_map;
pub use number::digits_in;
pub use span::Span;

#[cfg(test)]
mod tests;
