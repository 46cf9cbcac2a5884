//! What holds of all captured frames: each function's contract is one law, and its body is empty. Nobody calls them.
//! They are public because what they ensure is promised of the crate.
//!
//! A law is about frames, thirteen rows with their marks, and about no call. The home of a frame is the block of the
//! layout's Data Zone, and the recording frame of it, whose ID its first row has, with a right IED, once the row is
//! corrected. A frame without a home counts for nothing. The blocks that frames make start with no byte known, and at
//! its home each frame is joined place by place: a marked place adds nothing, and two different bytes make a conflict,
//! which stays.
//!
//! In the last two laws mastered blocks are one product codeword for each number of the Data Zone, in which row 12f,
//! the first of frame f, begins with the ID of that frame and its IED. Nothing else of their bytes matters. A frame was
//! captured of frame f of such a block if each byte that isn't marked is the block's, and at most ten of its first row
//! are marked, so that this row can be corrected. Anything may be marked elsewhere; a wrong byte has to be.
ghost use Rattle.dvd_assemble.specs.Laws.{CapturedFramesAgree, CapturedFramesComeHome, FramesAreSettledOneByOne, FrameOrderDoesNotCount};

/// Neither the order of frames nor their repetition changes the blocks that they make: two lists with the same frames
/// in them make the same. Nothing is assumed of the frames.
pub fn order_of_frames_does_not_count()
    ensures { FrameOrderDoesNotCount }
{}

/// A frame that is settled into the blocks of some frames makes the blocks of these and itself. So frames that are
/// settled one after the other, as `assemble` does, make the blocks of all of them.
pub fn frames_are_settled_one_by_one()
    ensures { FramesAreSettledOneByOne }
{}

/// A frame that was captured of a mastered one has its home there, so it is no stray and is put nowhere else.
pub fn captured_frames_come_home()
    ensures { CapturedFramesComeHome }
{}

/// Frames that were all captured of mastered blocks, of one layout, are nowhere in conflict: in the blocks that they
/// make each place is unknown or has the mastered byte. Which frames of which block came, and how often, doesn't
/// matter.
pub fn captured_frames_agree()
    ensures { CapturedFramesAgree }
{}
