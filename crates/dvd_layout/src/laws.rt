//! What holds of every valid layout. Each function's contract is a law of the definitions; the bodies are empty. Nobody
//! has to call one: the crate is proved only if each law is. They are public because what they ensure is promised of
//! the crate. A layout has a shape, the image sectors of each layer, the blocks of the Initial Zone, and those of each
//! zone after data, its tail. Its plan is the list of its blocks in the order of a stream, either of all zones or of
//! the Data Zones alone; an entry has the first of a block's sixteen sector numbers, its area, its layer and its
//! content. A block of image has the sixteen image sectors from one on, or what is left of the image.
ghost use Rattle.std.specs.Prelude.{ℕ};
ghost use Rattle.dvd_layout.specs.Laws.{ControlDataIsInTheLeadIn, ImageIsWhole, ImageIsInOrder, LayoutIsByLengths, LayoutsBreakNoRule, PlacesDiffer, PlanBeginsWithTheLeadIn, PlanFollowsPlaces, PlanNumbersHave24Bits};

/// A layout breaks no rule: of no value of the type `Layout` are the lengths such that `Layout::new` refuses them.
pub fn layouts_break_no_rule()
    ensures { LayoutsBreakNoRule }
{}

/// Two layouts of the same shape and the same four lengths are the same: nothing else is in a layout. So options or a
/// header that state these name one disk.
pub fn layout_is_by_lengths()
    ensures { LayoutIsByLengths }
{}

/// Every sector number of a plan has 24 bits, those of the last frames of its blocks too. Every layer is 0 or 1. An ID
/// has room for these and no more, so `id_of` requires it, and callers have it of each entry.
pub fn plan_numbers_have_24_bits()
    ensures { PlanNumbersHave24Bits }
{}

/// The control data are in the lead-in, from sector 02F200 on: 192 blocks one after the other. Before them come the
/// Initial Zone, of `initial` blocks, and 32 blocks of reference code and buffer, none of which is control data. So a
/// reader of the lead-in knows when they come. It holds of any `initial`, also of one that no disk can have.
pub fn control_data_is_in_the_lead_in()
    ensures { (initial : ℕ) → ControlDataIsInTheLeadIn initial }
{}

/// The plan of a disk, all zones of it, begins with the lead-in of layer 0, `initial` + 256 blocks, whatever the other
/// lengths are. So `lead_in_block` gives entries of the plan without knowing the layout.
pub fn plan_begins_with_the_lead_in()
    ensures { PlanBeginsWithTheLeadIn }
{}

/// No two image sectors have one place: they differ in layer or in sector number. So a place names one image sector at
/// most.
pub fn places_differ()
    ensures { PlacesDiffer }
{}

/// The blocks before a block of image, in a plan of either kind, hold exactly as many image sectors as come before its
/// first. So what is read or written block by block is the image in order.
pub fn image_is_in_order()
    ensures { ImageIsInOrder }
{}

/// The blocks of a plan of either kind together hold as many image sectors as the image has.
pub fn image_is_whole()
    ensures { ImageIsWhole }
{}

/// The image sectors of a block are at the block's layer and sector numbers, one after the other: the one in frame f is
/// where `Layout::sector_of` says. A frame of the last block that has no image sector left isn't spoken of.
pub fn plan_follows_places()
    ensures { PlanFollowsPlaces }
{}
