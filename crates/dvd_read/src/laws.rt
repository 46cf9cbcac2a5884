//! What holds of every captured block that is read: each function's contract is one law, and its body is empty.
//! Nobody calls them. They are public because what they ensure is promised of the crate.
//!
//! A law is about any 208 received rows and their marks, and about no call: what a call gives is said by the call's own
//! contract. The notions are defined in coding and dvd_decoding, which have no functions to promise anything by, and
//! computed here. They are these.
//! - The answer of a row is the codeword near it; a row without one has failed. Each column of the answers is decoded
//!   with the failed rows as erasures. The block found is the one of the columns' codewords.
//! - Two passes have a cause, or refuse the block, where more than sixteen rows failed, or a column has no codeword
//!   near it, or a row of the block found is no codeword.
//! - A block has two-pass agreement with what was received if all its rows and columns are codewords, and in each
//!   column twice the answered rows that it changes plus the failed rows is at most 16.
//! - An entry of a plan says which IDs the sixteen frames of a block have. The cause of a block as this entry is that
//!   of two passes, or else that of the first frame of the block found whose IED, ID or EDC is wrong.
//! - A frame is saved, by `salvage`, if its candidate has no such cause. The candidate is the frame of the block found,
//!   or, where two passes refuse the block, that of its twelve rows' answers, if none of these rows failed.
ghost use Rattle.dvd_read.specs.Laws.{GoodRowsAreSaved, NoCauseIsRead, NoCauseIsTwoPass, NoCauseIsWhollySaved, SavedIsSixteenSectors, TwoPassIsFound, WhatIsReadIsDetermined, WithinIsReadBack};

/// Where two passes have no cause, the block found has two-pass agreement with what was received.
pub fn no_cause_is_two_pass()
    ensures { NoCauseIsTwoPass }
{}

/// Where some block has two-pass agreement with what was received, two passes have no cause, and the block found is
/// that block. So there is one such block at most.
pub fn two_pass_is_found()
    ensures { TwoPassIsFound }
{}

/// Sectors are read of a block as an entry where some block with two-pass agreement has sixteen right frames, and these
/// are their Main Data. Then there is no cause, and the sectors are those of the block found: no other ones are read.
pub fn what_is_read_is_determined()
    ensures { WhatIsReadIsDetermined }
{}

/// The converse: where a block has no cause as an entry, the Main Data of the block found are read of it, in that
/// sense.
pub fn no_cause_is_read()
    ensures { NoCauseIsRead }
{}

/// A block was recorded of sixteen frames with the IDs of an entry, of any Main Data and any CPR_MAI. Compared with it,
/// twice the bad rows plus the lost rows of what was received is at most 16. Then what was received has no cause as
/// this entry, and its sectors are the Main Data that were recorded.
pub fn within_is_read_back()
    ensures { WithinIsReadBack }
{}

/// Where a block has no cause as an entry, `salvage` saves all sixteen frames, and its sectors are those of the block
/// found. `no_cause_is_read` is about `read_block`, which takes all frames or none; salvage takes each by itself. So
/// what is salvaged says of any block, refused or not, which sectors `recover` writes.
pub fn no_cause_is_wholly_saved()
    ensures { NoCauseIsWhollySaved }
{}

/// Where two passes refuse what was received of a block, recorded as in `within_is_read_back`, each frame is saved with
/// the Main Data that were recorded if in each of its twelve rows twice the errors plus the marks is at most 10. A row
/// of the frame that is worse may cost the frame, and none of the others.
pub fn good_rows_are_saved()
    ensures { GoodRowsAreSaved }
{}

/// What `salvage` gives of any block are sixteen sectors of 2,048 bytes, zeros for a frame that isn't saved, and the
/// number of frames that are saved is at most 16.
pub fn saved_is_sixteen_sectors()
    ensures { SavedIsSixteenSectors }
{}
