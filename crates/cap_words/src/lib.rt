//! The arguments of `dvdcap`: each command by its own `clap` command, and each option by its form.
#![tactic(auto)]

mod draw; // the values of `draw`
mod interleave; // the values of `interleave`
mod lost; // the values of `lost`
mod mark; // the values of `mark`
mod parser; // the clap command of each command
mod settings; // what the arguments ask for
mod words; // reads the arguments

pub use dvd_words::WordsFault;
pub use settings::{
    Command, DrawSettings, InterleaveSettings, LostSettings, MarkSettings, Settings,
};
pub use words::read;

#[cfg(test)]
mod tests;
