//! What one run of `dvdcap` does: a command, and each line of its report. Streams are parameters, so that tests run
//! over memory and cap_main over files.
#![tactic(auto)]

mod causes; // why lines of the inputs aren't accepted
mod closing; // the lines of reports that several commands have
mod draw; // a run of `draw`
mod interleave; // a run of `interleave`
mod lost; // a run of `lost`
mod mark; // a run of `mark`
mod status; // how a run ends

pub use closing::refuse_words;
pub use draw::run_draw;
pub use interleave::run_interleave;
pub use lost::run_lost;
pub use mark::run_mark;
pub use status::Status;

#[cfg(test)]
mod tests;
