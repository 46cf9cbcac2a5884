//! The arguments of the command line: each command by its own `clap` command, and each option by its form.
//!
//! - `fault`: why arguments give no settings.
//! - `parser`: the `clap` command of each command.
//! - `settings`: what the arguments ask for.
//! - `table`: the commands, a row each.
//! - `values`: the values of options.
//! - `words`: reads the arguments.
#![tactic(auto)]

mod fault;
mod parser;
mod settings;
mod table;
#[cfg(test)]
mod tests;
mod values;
mod words;

pub use fault::WordsFault;
pub use parser::{parse_by, with_option};
pub use settings::Settings;
pub use table::{Command, Unit, unit_of};
pub use values::{read_form, read_within};
pub use words::{given, read, read_options};
