//! The top of dvdecc: the call that does all that the program does, and what its runs promise.
#![tactic(auto)]

pub mod laws; // what holds of every run
mod lines; // the closing lines of the report
mod status; // how a run ends
mod top; // the top call

pub use dvd_commands::{
    HeaderEnd, assemble_loop, cdmake_loop, cdread_loop, convert_loop, deep_loop, exercise_loop,
    frames_loop, info_loop, listed_layout, master_loop, merge_loop, recover_loop, survey_loop,
};
pub use dvd_loop::LoopEnd;
pub use dvd_words::{Command, Settings};
pub use status::Status;
pub use top::run;
