//! What tests of whole runs are written in: texts that say what is there, what is damaged, what is run and what must
//! come. A table of cases in code would be a tree of values, through which the checker goes again for each function
//! that names it. A text is one value, which a few small functions read while the test runs. They have no clauses,
//! since nothing but tests rests on them: only that they are safe and end is proved. `None` as an answer is a text that
//! isn't of the form, a line that doesn't hold, or want of memory: the test fails by each. A text is written by hand,
//! so a form has no more than tests need. `derive(Drop)` lets an owner let go of a value.
//!
//! All lines and steps are listed where texts are read, at the head of dvd_vectors' `src/tests/runs.rt`, and not here
//! as well: who reads a test has that file alone. A frame is a recording frame here, a sixteenth of a block.
#![tactic(auto)]

mod amounts; // numbers, amounts, lists of numbers, names and lines of several cases
mod damage; // bytes that are lost, wrong or doubtful
mod failure; // what is printed where a result isn't the one expected
mod gate; // a gate that counts what several workers do
mod made; // how bytes are made
mod runs; // one run over streams that fail or go in pieces, and see that nothing is tried again
mod trial; // the lines of a text
mod turns; // runs in which something fails in turn

pub use failure::{Held, fails, hold};
pub use runs::{Runtime, words_of};
pub use trial::bytes_of;
