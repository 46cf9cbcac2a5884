//! What holds of what every report says: each function's contract is one law, and its body is empty. Nothing calls
//! them. They are public because what they ensure is promised of the crate.
//!
//! `losses_of` is what a text says by definition, of a layout and zones: the extents of lost sectors and how many
//! sectors were written, or the first line that breaks a rule. `read_report` is proved to give it. The laws are here
//! because they speak of it alone.
ghost use Rattle.cap_lost.specs.Laws.{LossesAreInOrder, LostAreThoseOfRefusedBlocks};

/// For any text that breaks no rule: an image sector is in one of the extents exactly where a line of the text says
/// that the block of that sector is refused. So all image sectors of such a block count as lost, those of salvaged
/// frames too, and those of a block that a round of `deep` gave back don't.
pub fn the_lost_are_those_of_refused_blocks()
    ensures { LostAreThoseOfRefusedBlocks }
{}

/// For any text that breaks no rule: each extent has a sector, and between one and the next there is at least one
/// sector that is in neither. The last ends within the sectors that were written, and these are no more than the image
/// has. So `write_map` gives each sector of the image one status.
pub fn losses_are_in_order()
    ensures { LossesAreInOrder }
{}
