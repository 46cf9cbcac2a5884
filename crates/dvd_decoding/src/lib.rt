//! Definitions of what is read of a captured ECC block (ECMA-267, clauses 16 to 18), with no code but the causes: why a
//! block is refused, its sixteen data frames, and what is salvaged of a block that is refused. dvd_read computes them.
#![tactic(auto)]

mod cause;

pub use cause::Cause;
