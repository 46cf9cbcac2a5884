//! Sources and sinks of bytes: what a call moves, when it may fail, and what it leaves.
//!
//! Every object counts its own faults and the ends of its input, and knows whether its last call was one of these. Code
//! that is generic over a source or a sink can't change these counts. So a contract may allow a fault only where
//! exactly one call failed, the last. Such a contract refuses a body that gives up by itself, and one that tries a
//! failed call again. A read that met the end of the input is likewise the last.
//!
//! Your own `Source` or `Sink` says in `seen` what it is and what it moved: `bytes.moved` is a list that its own fields
//! give, as `SliceSource` gives the first `at` of its bytes, or that of a source or sink on which it calls. `read` and
//! `write` are then proved to move exactly what they answer.
#![tactic(auto)]

/// The two traits and their errors.
mod port;
/// Whole pieces, over any source or sink, whatever the single calls move.
mod whole;
/// Sources over memory.
mod sources;
/// Sinks over memory, and one that keeps nothing.
mod sinks;
/// Objects over std's readers and writers.
mod adapters;
/// What an object's calls have moved, for contracts alone.
mod moved;
/// A reader that counts its calls, for contracts alone.
mod counted;

pub use adapters::{StdSink, StdSource};
pub use port::{Failed, NoMemory, Sink, Source, WriteFault};
pub use sinks::{MemSink, NullSink};
pub use sources::{MemSource, SliceSource};
pub use whole::{read_whole, write_whole};

#[cfg(test)]
mod tests;
