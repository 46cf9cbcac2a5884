//! What holds of every run of a command: each function's contract is one law, and its body is empty. The laws of what
//! each command does are those of dvd_commands. A function is what makes a theorem part of the promise: nobody calls
//! it, and it does nothing at run time.
//!
//! A law is here, and not in dvd_commands, where it speaks of what this crate defines: the loop of a command over a
//! whole input, with the header that a listed capture opens with, or the stream of an image. An outcome of a loop is
//! what was read of the input, the output, the report and the end. The closing line, as `done`, comes after the loop,
//! so the report of an outcome has a command's own lines alone, as damage lines. A fault is a failed read, write or
//! line. Where a law says that no fault ended a loop, it says nothing of one that a fault ended.
ghost use Rattle.dvd_top.specs.Laws.{WhatIsDoneIsDetermined, WorkersChangeNothing, SomethingIsDone, BoundIsKept, LoopsKeepTheBound, GoodFramesAreKept, ImageIsMastered, MasteredStreamIsRecovered, CaptureIsRecovered, ConvertedIsRead};

// Named here too, so that one module has all laws of the commands and their runs.
pub use dvd_commands::laws::{
    captured_frames_are_assembled, correctable_sectors_are_kept,
    damage_within_the_bound_is_repaired, drawn_frames_are_mastered,
    good_frames_of_a_refused_block_are_given, image_is_taken_in_order, image_is_taken_whole,
    info_finds_the_first_answer, the_broken_field_is_found,
};

/// Two outcomes of the same settings and the same input, neither ended by a fault, have the same output, report and
/// end, and read the same, except for how much is read of a block that breaks a rule of its form: the form leaves that
/// open.
pub fn what_is_done_is_determined()
    ensures { WhatIsDoneIsDetermined }
{}

/// The number of workers changes nothing: settings that differ in it alone allow the same outcomes and the same runs.
pub fn workers_change_nothing()
    ensures { WorkersChangeNothing }
{}

/// Every input of bytes has an outcome that no fault ended. The settings have six bytes of CPR_MAI and break no rule of
/// layouts; `cdmake` has an address for each sector, and no form but the plain one: the header of a listed capture
/// could state more sectors than there are addresses. All settings that are read of arguments, and that a run begins
/// with, are such.
pub fn something_is_done()
    ensures { SomethingIsDone }
{}

/// A loop of recovery, by two passes (`recover`) or by rounds (`deep`), keeps the bound, whatever ended it. A block is
/// within the bound where, compared with the mastered one, twice its bad rows plus its lost rows is at most 16. Each
/// such block that came gives its mastered sectors, at their place, and no line names it. Where a write or a line
/// failed, what was written of one is a prefix of them.
pub fn bound_is_kept()
    ensures { BoundIsKept }
{}

/// Likewise a loop over the blocks alone, as it runs after the header of a listed capture, by the settings that this
/// states. `bound_is_kept` is of loops with that header.
pub fn loops_keep_the_bound()
    ensures { LoopsKeepTheBound }
{}

/// A loop of `recover`, whatever ended it, gives of a block that two passes refuse the mastered sector of each frame
/// with twelve good rows: compared with the mastered block, twice the errors plus the marks of each is at most 10.
/// Where a write failed, what was written of such a sector is a prefix of it.
pub fn good_frames_are_kept()
    ensures { GoodFramesAreKept }
{}

/// A loop of `master` over an input of 2,048 bytes for each sector of the layout, if no fault ended it, reads all of
/// it, writes the stream of that image, reports no line of its own (the closing line `done` comes after it), and ends
/// as Done. The stream has for each block of the plan, in order, the recording of the one ECC block of its data frames.
pub fn image_is_mastered()
    ensures { ImageIsMastered }
{}

/// A loop of `recover` over the stream of an image, of any CPR_MAI, in the plain form, with the same layout and zones,
/// if no fault ended it, gives the image back. No line names a block, and the end is Done. So `recover` undoes
/// `master`.
pub fn mastered_stream_is_recovered()
    ensures { MasteredStreamIsRecovered }
{}

/// A loop of `recover` over any bytes, in the plain or the marked form, that are as many as the blocks of the plan
/// have, if no fault ended it, writes the image sectors of each block in order. They are those of the block that two
/// passes determine, if its frames are right. Else they are those of each frame that is right by itself, and zeros for
/// the others. All is read, and the end is Done or Damaged.
pub fn capture_is_recovered()
    ensures { CaptureIsRecovered }
{}

/// Where `convert` of a plain or marked capture ended as Done, `recover` of what it wrote, in the listed form and with
/// any other settings, may do what `recover` of that capture did, if no fault ended that: the same output, report and
/// end. That it can do nothing else is `what_is_done_is_determined`.
pub fn what_is_converted_is_read()
    ensures { ConvertedIsRead }
{}
