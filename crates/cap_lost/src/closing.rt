//! The line that closes a report. It says how far the run came, and so how much of the image was written. It is `done`,
//! `damaged: N blocks` or `long` of a whole image, `short: block K, B bytes` or `bad marks: block K, byte A` of one
//! that stopped, and `read fault` or `write fault`. Lines of runs that wrote no image, as `usage`, close no such
//! report. `reader` calls `closing_said`. A form with numbers is a function by itself, since `?` leaves it where a part
//! is missing. `NamesSectors` asks of a damage line that its extent isn't empty, and nothing of a closing line: the
//! clause is here since `reader` hands what either says on to the draft.
ghost use Rattle.std.specs.Prelude.{◌≡◌, ◌<◌, length, take, IfOk, IfSome, IfNone};
ghost use Rattle.dvd_layout.specs.Place.{image_before, image_sectors};
ghost use Rattle.dvd_layout.specs.Plan.{plan_of};
ghost use Rattle.cap_lost.specs.Closings.{number_before, closing_said, counted_in, is_fault, number_between, stopped_at, stopped_in};
ghost use Rattle.cap_lost.specs.Inner.{NamesSectors};

use crate::draft::Said;
use crate::fault::ReportCause;
use crate::prefixes::{is_text, number_first, without_prefix};
use dvd_layout::{Content, Layout, Zones};

/// What a line that names no block says, if it closes the report of an image. A run that went on to the last block
/// wrote the whole image. One that stopped wrote the sectors before that block.
pub fn closing_said(layout: &Layout, zones: Zones, line: &[u8]) -> Result<Said, ReportCause>
    ensures said { result ≡ closing_said layout.now zones line.now }
    ensures some { IfOk result NamesSectors }
{
    // No line has two of these forms, so the order of the tests has no part in the answer.
    if is_fault(line) {
        return Err(ReportCause::Fault);
    }
    // The capture went on after the last block. This line comes in the place of the count, so none can be compared.
    if is_text(line, b"long") {
        return Ok(Said::Ended {
            refused: None,
            written: layout.total(),
        });
    }
    if let Some(refused) = counted_in(line) {
        return Ok(Said::Ended {
            refused: Some(refused),
            written: layout.total(),
        });
    }
    match stopped_in(line) {
        Some(k) => stopped_at(layout, zones, k),
        None => Err(ReportCause::Line),
    }
}

// Whether a fault ended the run: how much it wrote isn't known then, as the line names no block. So there is no map,
// and the cause says why.
fn is_fault(line: &[u8]) -> bool
    ensures { result ≡ is_fault line.now }
{
    is_text(line, b"read fault") || is_text(line, b"write fault")
}

// How many blocks were refused, where the report is of a whole image. `done` counts none, so that it isn't believed
// after a damage line. The draft compares the count with the lines that came, and `damaged: 0 blocks`, which `dvdecc`
// doesn't write, is read as `done`.
fn counted_in(line: &[u8]) -> Option<u64>
    ensures { result ≡ counted_in line.now }
{
    if is_text(line, b"done") {
        return Some(0);
    }
    number_between(line, b"damaged: ", b" blocks")
}

// The number between two texts, where nothing else is in a line.
fn number_between(line: &[u8], first: &[u8], last: &[u8]) -> Option<u64>
    ensures { result ≡ number_between first.now last.now line.now }
{
    let (number, rest) = number_first(without_prefix(line, first)?)?;
    if is_text(rest, last) {
        Some(number)
    } else {
        None
    }
}

// The block in which the run stopped. `short: block K, B bytes`: the capture ended in block K, after B of its bytes.
// `bad marks: block K, byte A`: the marks of a listed capture break a rule in block K. No line has both forms, so their
// order is free.
fn stopped_in(line: &[u8]) -> Option<u64>
    ensures { result ≡ stopped_in line.now }
{
    match number_before(line, b"short: block ", b", ", b" bytes") {
        Some(k) => Some(k),
        None => number_before(line, b"bad marks: block ", b", byte ", b""),
    }
}

// The number after the first text, if a further number is between the two others. That one counts bytes and isn't used:
// it may be any.
fn number_before(line: &[u8], first: &[u8], middle: &[u8], last: &[u8]) -> Option<u64>
    ensures { result ≡ number_before first.now middle.now last.now line.now }
{
    let (k, rest) = number_first(without_prefix(line, first)?)?;
    number_between(rest, middle, last)?;
    Some(k)
}

// The image sectors of the blocks before this one were written. The line doesn't say how many of those were refused.
fn stopped_at(layout: &Layout, zones: Zones, k: u64) -> Result<Said, ReportCause>
    ensures said { result ≡ stopped_at layout.now zones k }
    ensures some { IfOk result NamesSectors }
{
    if k >= layout.blocks(zones) {
        return Err(ReportCause::Block);
    }
    Ok(Said::Ended {
        refused: None,
        written: written_before(layout, zones, k),
    })
}

// How many image sectors the blocks before one hold: the first of the next block that has any, or all. Blocks of the
// lead-in and other zones hold none, so the next that holds some is looked for. Blocks hold the image in its order, so
// nothing need be added up. The arm `None` is written out, since there the proof uses that such a block adds nothing.
fn written_before(layout: &Layout, zones: Zones, k: u64) -> u32
    requires { k < length (plan_of layout.now zones) }
    ensures { result ≡ image_before layout.now (take k (plan_of layout.now zones)) }
{
    for later in k..layout.blocks(zones) {
        let plan = layout.plan(zones, later);
        match image_first(layout, plan.content) {
            Some(first) => return first,
            None => {}
        }
    }
    layout.total()
}

// The first image sector of a block, if it holds any. The clauses are for the loop, which needs to know that a block
// without one adds nothing.
fn image_first(layout: &Layout, content: Content) -> Option<u32>
    ensures some { IfSome result (λ first. content ≡ Content.Image first) }
    ensures none { IfNone result (image_sectors layout.now content ≡ 0) }
{
    match content {
        Content::Image(first) => Some(first),
        Content::Zero | Content::Reference | Content::Control => None,
    }
}
