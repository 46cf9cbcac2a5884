//! What holds of blocks in turn: each function's contract is one law, and its body is empty. Nothing calls them. They
//! are public because what they ensure is promised of the crate. The last is generic, since it speaks of what a kind of
//! source was seen to give.
//!
//! `units_of` is what is written by definition: block 0 of each capture, then block 1 of each, and so on for a number
//! of blocks. `interleave_loop` is proved to write that of what came. A task is how many captures there are, how many
//! bytes a block has, and whether blocks are filled.
ghost use Rattle.cap_interleave.specs.Laws.{BlocksAreInMergeOrder, LostBlockIsMarkedWhole, WholeCapturesComeWhole};

use dvd_ports::Source;

/// Where each capture has at least n blocks, and units are cut into pieces of the size of a block, piece c of unit k is
/// block k of capture c, for k below n: the order in which `dvdecc merge` reads them. Where blocks are filled it
/// assumes the size of the marked form, as `Buffers::new` requires. It speaks of `units_of` alone, not of a run.
pub fn blocks_are_in_merge_order()
    ensures { BlocksAreInMergeOrder }
{}

/// The bytes that replace a missing block, read as a block of the marked form, have a mark at each of the 182 bytes of
/// each of the 208 rows. So nobody takes their zeros for what a disk has.
pub fn a_lost_block_is_marked_whole()
    ensures { LostBlockIsMarkedWhole }
{}

/// Where the bytes of all captures are known, and each has n whole blocks and no more, n being below the 2^32 - 1 at
/// which the loop ends, a run that no failed read or write ends is `Done` and has written the n units. There is at
/// least one capture, and a block has a byte. It is said of all that `interleave_loop` may do by its contract. What is
/// left over where captures differ in length isn't spoken of here.
pub fn whole_captures_come_whole<S: Source>()
    ensures { WholeCapturesComeWhole S.seen }
{}
