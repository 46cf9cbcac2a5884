//! The lines that `recover` and `deep` write of blocks. Each is compared to the byte with what they write, so that a
//! line of another layout or program isn't believed. The lines are `block K sector H6 layer L: CAUSE N saved S` of a
//! refused block, `block K sector H6 layer L: address N found H8 saved S` where a frame has the ID of another place,
//! and `block K sector H6 layer L: round T` of one that `deep` gave back. `H6` and `H8` are hexadecimal digits.
//!
//! The clauses `some` say that a block that a line names has an image sector. So each line moves the draft on, which
//! bounds its counts. `reader` calls `block_said` for each line that begins with `block `. Where a test needs what
//! comes after a prefix, a `match` answers false without one: the library has no `is_some_and`. `HasNumbers` says that
//! the sector numbers of a block have 24 bits, as in every plan, so that `H6` has them whole.
ghost use Rattle.std.specs.Prelude.{◌≡◌, ◌<◌, codes, option_map, IfOk};
ghost use Rattle.dvd_layout.specs.Place.{HasNumbers};
ghost use Rattle.cap_lost.specs.Blocks.{after_address, after_prefix, block_said, entry_said, extent_of, prefix_of, is_numbered, is_refusal, is_round, is_saved, is_some_and, what_said};
ghost use Rattle.cap_lost.specs.Prefixes.{without_prefix};
ghost use Rattle.cap_lost.specs.Inner.{NamesSectors};

use crate::draft::Said;
use crate::extent::Extent;
use crate::fault::ReportCause;
use crate::prefixes::{after_eight_digits, after_number, is_text, number_first, without_prefix};
use dvd_layout::{BlockPlan, Content, Layout, Zones};
use dvd_report::{Line, put_block};

/// What a line that begins with the word `block` says.
/// `rest` is what comes after that word. The whole line is read too, since it is compared from its first byte.
pub fn block_said(
    layout: &Layout,
    zones: Zones,
    line: &[u8],
    rest: &[u8],
) -> Result<Said, ReportCause>
    ensures said { result ≡ block_said layout.now zones line.now rest.now }
    ensures some { IfOk result NamesSectors }
{
    let Some((k, _)) = number_first(rest) else {
        return Err(ReportCause::Line);
    };
    // A plan has an entry for the blocks of the layout alone.
    if k >= layout.blocks(zones) {
        return Err(ReportCause::Block);
    }
    // The number alone is read. What comes after it has to be what `dvdecc` writes of that block.
    place_said(layout, k, &layout.plan(zones, k), line)
}

// What a line of block `k`, which has this entry, says. A line of another layout is reported as such, whatever the
// block of that number holds in this one: so the place is tested before the sectors.
fn place_said(layout: &Layout, k: u64, plan: &BlockPlan, line: &[u8]) -> Result<Said, ReportCause>
    requires { HasNumbers plan.now }
    ensures said { result ≡ after_prefix layout.now plan.now (without_prefix (prefix_of k plan.now) line.now) }
    ensures some { IfOk result NamesSectors }
{
    let prefix = prefix_of(k, plan);
    let Some(what) = without_prefix(line, prefix.as_slice()) else {
        return Err(ReportCause::Place);
    };
    let extent = extent_of(layout, plan.content);
    // `recover` and `deep` decode no such block, so they write no line of it. After this test `from` is below `to`, as
    // `what_said` requires.
    if extent.to <= extent.from {
        return Err(ReportCause::NoImage);
    }
    what_said(extent, what)
}

// What each line of block `k` begins with: its number, its first sector number and its layer. It is made and compared
// with the line, so that no part of it needs a reader. `put_block` is what writes the lines of `dvdecc`, so the two
// can't differ. It puts at most 50 bytes, and a `Line` has room for 256.
fn prefix_of(k: u64, plan: &BlockPlan) -> Line
    requires { HasNumbers plan.now }
    ensures { result ≡ prefix_of k plan.now }
{
    let mut line = Line::new();
    put_block(&mut line, k, plan);
    line.put(b": ");
    line
}

// The image sectors of a block: none in a block of another zone, and fewer than sixteen in the last of the image, whose
// other sectors are padding. A block has at most sixteen, and they end with the image at the latest, so neither the
// cast nor the sum cuts. From 0 to 0 there are none, which the caller tests.
fn extent_of(layout: &Layout, content: Content) -> Extent
    ensures { result ≡ extent_of layout.now content }
{
    match content {
        Content::Image(from) => Extent {
            from,
            to: from + layout.image_sectors(content) as u32,
        },
        Content::Zero | Content::Reference | Content::Control => Extent { from: 0, to: 0 },
    }
}

// `recover` writes the first kind alone, and `deep` both. A block that a round gave back is in the image, so it isn't
// lost. It is kept all the same, as the next line has to name a later block. No text is both, so the order of the tests
// is free.
fn what_said(extent: Extent, what: &[u8]) -> Result<Said, ReportCause>
    requires { extent.from < extent.to }
    ensures said { result ≡ what_said extent what.now }
    ensures some { IfOk result NamesSectors }
{
    if is_refusal(what) {
        Ok(Said::Refused(extent))
    } else if is_round(what) {
        Ok(Said::GivenBack(extent))
    } else {
        Err(ReportCause::Line)
    }
}

// Whether this is the cause of a refused block, and how many of its frames were salvaged. A number is below the count
// of what it numbers: 182 columns, 208 rows, 16 frames. `rows` counts failed rows, of which there may be 208. The
// numbers have no part in the map, so that only these bounds are tested. Each name ends with a blank, so no text has
// two of them: their order is free.
fn is_refusal(what: &[u8]) -> bool
    ensures { result ≡ is_refusal what.now }
{
    is_numbered(what, b"rows ", 209)
        || is_numbered(what, b"column ", 182)
        || is_numbered(what, b"row ", 208)
        || is_numbered(what, b"ied ", 16)
        || is_numbered(what, b"edc ", 16)
        || is_address(what)
}

// Whether this is a cause with a name and a number below a bound.
// The cause is followed by the count of salvaged frames.
fn is_numbered(what: &[u8], name: &[u8], bound: u64) -> bool
    ensures { result ≡ is_numbered name.now bound what.now }
{
    match without_prefix(what, name).and_then(|rest| after_number(rest, bound)) {
        Some(rest) => is_saved(rest),
        None => false,
    }
}

// Whether this is the cause of a frame that names another place.
fn is_address(what: &[u8]) -> bool
    ensures { result ≡ is_some_and (after_address what.now) is_saved }
{
    match after_address(what) {
        Some(rest) => is_saved(rest),
        None => false,
    }
}

// What comes after the frame that names another place, and the ID found in it. Neither is used. It is a function by
// itself, as `?` needs a function that answers an option.
fn after_address<'a>(what: &'a [u8]) -> Option<&'a [u8]>
    ensures { option_map (λ rest. rest.now) result ≡ after_address what.now }
{
    let rest = without_prefix(what, b"address ")?;
    let rest = after_number(rest, 16)?;
    let rest = without_prefix(rest, b" found ")?;
    after_eight_digits(rest)
}

// Whether this is how many of sixteen frames were salvaged, from 0 to 16, and nothing more. Which frames these are
// isn't said, so all sectors of the block count as lost.
fn is_saved(rest: &[u8]) -> bool
    ensures { result ≡ is_saved rest.now }
{
    match without_prefix(rest, b" saved ").and_then(|rest| after_number(rest, 17)) {
        Some(rest) => rest.is_empty(),
        None => false,
    }
}

// Whether this is the round that gave a block back. `deep` has at most four, counted from 1. They are compared as
// texts, since `after_number` would accept a round 0 too.
fn is_round(what: &[u8]) -> bool
    ensures { result ≡ is_round what.now }
{
    is_text(what, b"round 1")
        || is_text(what, b"round 2")
        || is_text(what, b"round 3")
        || is_text(what, b"round 4")
}
