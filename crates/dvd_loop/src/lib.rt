//! The loop that goes over an input unit by unit, whatever the units are: what it reads, writes and reports, and its
//! ends.
#![tactic(auto)]

mod ends; // how a loop ends, and what a unit is
pub mod laws; // what holds of every run
mod loops; // the loop over units, and the line that closes it
mod plain_command; // a command that neither opens nor closes
mod reading; // the bytes of one unit
mod unit_command; // a command, seen from the loop

pub use ends::{AfterLast, LoopEnd, Processed, UnitKind};
pub use loops::{close, run_owned, run_units};
pub use plain_command::{PlainCommand, run_plain};
pub use reading::read_unit;
pub use unit_command::UnitCommand;
