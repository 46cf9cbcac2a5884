//! The commands of dvdecc: how each begins, and what it does for each unit of its input. A unit is a sector, a block or
//! a recording frame.
//! All share one loop. A command without a report lends it a `NullSink`, and promises its run with any report. The
//! crate above, dvd_top, says with which line and status a run ends.
#![tactic(auto)]

mod assemble; // scattered recording frames put in order
mod blocks; // the blocks of a plan, as the commands go over them
mod captured; // captured blocks, as the commands that read a stream of them use them
mod cd_line; // the line of a damaged CD-ROM sector
mod cd_make; // a CD-ROM sector for each sector of user data
mod cd_read; // the user data of CD-ROM sectors
mod convert; // captured blocks in the listed form
mod deep; // image sectors by rounds, where two passes refuse a block
mod dispatch; // which command runs
mod exercise; // blocks that are drawn, damaged and read back
mod format; // the lines of a physical format
mod frames; // a scrambled data frame for each sector
mod imaging; // what `recover` and `deep` have in common: image sectors of captured blocks are written
mod info; // the physical format in the lead-in of a disk
pub mod laws; // what holds of what each command does
mod making; // what `frames` and `cdmake` have in common: something is made of each sector
mod master; // the recording frames of each ECC block of a disk
mod merge; // one stream of captured blocks, joined of several captures
mod opening; // the header that a listed capture opens with
mod recover; // image sectors from a stream of captured blocks
mod refusal; // why a command doesn't begin
mod start; // what a command begins with: its memory and its settings
mod survey; // a line for each captured block, and a line of totals
mod unit; // what the writes of a unit came to
mod workers; // what makes the workers, and what they do for a unit of a command

pub use assemble::assemble_loop;
pub use cd_make::cdmake_loop;
pub use cd_read::cdread_loop;
pub use convert::convert_loop;
pub use deep::deep_loop;
pub use dispatch::perform;
pub use exercise::exercise_loop;
pub use frames::frames_loop;
pub use info::info_loop;
pub use master::master_loop;
pub use merge::merge_loop;
pub use opening::{HeaderEnd, listed_layout};
pub use recover::recover_loop;
pub use refusal::Refusal;
pub use survey::survey_loop;
pub use workers::Workers;
