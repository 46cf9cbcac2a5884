//! What holds of every join of captures: each function's contract is one law, and its body is empty. Nobody calls them.
//! They are public because what they ensure is promised of the crate.
//!
//! A law is about tables, and about no call. A capture's table has for each place of a block its byte, or nothing where
//! it is marked. The join has at each place the byte that all those have who have one. It has nothing where none has
//! one, and a conflict where two differ. A place without one known byte is written as 0 and marked.
ghost use Rattle.dvd_merge.specs.Laws.{CostDoesNotGrow, MarkedTextIsCaptured, CaptureOrderDoesNotCount};

/// Neither the order of captures nor their repetition changes the join: two lists with the same tables in them have the
/// same join. Nothing is assumed of the captures, which may be wrong.
pub fn order_of_captures_does_not_count()
    ensures { CaptureOrderDoesNotCount }
{}

/// A row of the join costs at most what it costs in any one of the captures, where all the others have the recorded
/// byte at each unmarked place. The cost is twice the errors plus the marks, against the block that was recorded. So a
/// row that is good in that capture, which costs at most 10, stays good. Wrong bytes of the one become conflicts, or
/// stay.
pub fn merging_costs_no_row_more()
    ensures { CostDoesNotGrow }
{}

/// What is written of a join, in the marked form, is read back as it is there: its bytes, and a mark where none is
/// known. A conflict is read back as a mark, so what is merged again may believe a byte that a first merge didn't.
pub fn a_marked_text_is_captured_as_it_was_joined()
    ensures { MarkedTextIsCaptured }
{}
