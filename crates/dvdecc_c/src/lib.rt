//! The codec as functions for C: each export does what a call of the crates below does, and its contract says so again.
//!
//! Nothing here is required of a caller but that memory is as dvdecc.h declares it: what can be tested has a
//! status. A status is a function of the definitions, and after another status than 0 each buffer of the caller is as
//! it was, but for the numbers that say why.
//!
//! The exports are public and have `unsafe(no_mangle)`, since C finds them by their names. For C a slice is a pointer
//! and a length, an array is a pointer alone, and `alloc` is no parameter: it is the memory of malloc.
//!
//! The tests are those of checks/c_library, which calls each export from C. Tests here would have the whole crate
//! proved twice.
#![tactic(auto)]

mod blocks; // whole blocks: their parity, and two passes over a captured one
mod checks; // the codes that detect errors
mod frames; // scrambling and data frames
mod general; // words of any length
mod lists; // many rows by one call
mod reading; // captured blocks: their sectors, and what is salvaged
mod sectors; // CD-ROM sectors
mod status; // what the calls answer
mod words; // rows and columns of a block
