//! The tests.
mod loops; // the loops of two commands by themselves, and an output that keeps nothing
mod runs; // whole runs, as texts
