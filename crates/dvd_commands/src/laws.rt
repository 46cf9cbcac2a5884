//! What holds of what each command does: each function's contract is one law, and its body is empty.
//! A law is a theorem about definitions, which specs/Laws.antt has in full. A function is what makes it part of the
//! crate's promise; nobody calls it, and it does nothing at run time.
//!
//! A law is about the units of a command, mostly blocks, and what may be done for one: bytes are written, a line is
//! reported. Those about whole runs, with arguments and headers, are in dvd_top. A data block is one with image
//! sectors. The block that was mastered at a place is the one that `master` makes of these image sectors for the entry
//! of the plan there. A row of a captured block is compared with that of the mastered one: it is lost where more than
//! 10 bytes are marked, good where twice its errors plus its marks is at most 10, and else bad.
ghost use Rattle.dvd_commands.specs.Laws.{ImageIsTakenInOrder, ImageIsTakenWhole, DamageWithinTheBoundIsRepaired, GoodFramesOfARefusedBlockAreGiven, DrawnFramesAreMastered, InfoFindsTheFirstAnswer, CorrectableSectorsAreKept, CapturedFramesAreAssembled, BrokenFieldIsFound};

/// The loop of `master` over the k blocks before a data block, where it ends as Done, reads 2,048 bytes of the input
/// for each image sector before the first of that block. So the block's own sectors come next in the input, whatever
/// blocks without image are among those before it.
pub fn image_is_taken_in_order()
    ensures { ImageIsTakenInOrder }
{}

/// If no fault ends a loop of `master`, it ends as Done exactly where the input has 2,048 bytes for each sector of the
/// layout.
pub fn image_is_taken_whole()
    ensures { ImageIsTakenWhole }
{}

/// `recover` of one data block, whole in the input, that was mastered of any image and any CPR_MAI: where twice the bad
/// rows plus the lost rows is at most 16, exactly the mastered image sectors are written, and no line names it.
pub fn damage_within_the_bound_is_repaired()
    ensures { DamageWithinTheBoundIsRepaired }
{}

/// `recover` of one data block likewise, but beyond what two passes can decode: they refuse it. Each image sector whose
/// frame has twelve good rows is written, at its place, as it was mastered, whatever became of the other rows.
pub fn good_frames_of_a_refused_block_are_given()
    ensures { GoodFramesOfARefusedBlockAreGiven }
{}

/// The data frames of the blocks that `exercise` draws are those that `master` makes of the same sectors, with the
/// CPR_MAI zeros, on a disk with one layer. So what `exercise` tries is no other coding than that of `master`.
pub fn drawn_frames_are_mastered()
    ensures { DrawnFramesAreMastered }
{}

/// A run of `info` that no fault ended, over the blocks up to the last of the lead-in's control blocks: one answers if
/// it is right and its first sector is a physical format. The lines of the first that answers are written, and nothing
/// after it is read. If none does, nothing is written, and the end says whether all were read, the input ended before,
/// or a listed block broke a rule.
pub fn info_finds_the_first_answer()
    ensures { InfoFindsTheFirstAnswer }
{}

/// A loop of `cdread` gives back the user data of each CD-ROM sector whose damage is within the bound, whatever ended
/// it: of all that came before a failed read, and a prefix of them where a write or a line failed. The bound is for
/// each half of a sector, its low and its high bytes: at most one wrong byte in each P word, and one among the last two
/// of each Q word. Or one P word may be all wrong, where the last two bytes of each Q word are right.
/// It is of whole loops, and here since `cdread` has no header: its input is the loop's.
pub fn correctable_sectors_are_kept()
    ensures { CorrectableSectorsAreKept }
{}

/// A captured frame of a mastered one has the mastered byte wherever it isn't marked, and at most ten marks in its
/// first row. Such frames of the Data Zone, of any image and CPR_MAI, are put where they were mastered, whatever their
/// order. No byte of the blocks that `assemble` makes of them is in conflict, and each that is known is the mastered
/// one.
pub fn captured_frames_are_assembled()
    ensures { CapturedFramesAreAssembled }
{}

/// After its 37,856 bytes a listed block has fields: the number of runs of marks, and each run's start and length. The
/// offset that is found by going over these is that of the first field that is whole and breaks a rule of the form, and
/// none is found exactly where no field does. So the units of commands may have a formula in place of that statement.
pub fn the_broken_field_is_found()
    ensures { BrokenFieldIsFound }
{}
