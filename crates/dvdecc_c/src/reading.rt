//! Captured blocks (ECMA-267, 16 to 18): their sixteen sectors, and what is salvaged of them. Each call takes the
//! memory of one block and gives it back: no call hands out an object.
//!
//! A block has sixteen data frames, whose sector numbers follow each other. A cause is the first reason why a block is
//! refused. A frame is salvaged where it is right by itself, also in a refused block: its IED, its place and its EDC
//! are right, and where two passes find no block each of its twelve rows has a codeword near. `Work` is the memory of
//! one block: rows and marks as received, what two passes made of them, and the sectors. In the clauses 2 is the status
//! NO_MEMORY: it may come of any block, and the caller's buffers stay then. `asked` says that `id` and `rule` were
//! right then, as they are tested first. The stage of a `Work` says how far it is: `Fetched` once a block was received,
//! and `HasAnswers` once its rows were decoded. `HasNumbers` says of a plan that its sixteen sector numbers have 24
//! bits and that its layer is 0 or 1.
//!
//! The exports are public and keep their names (`no_mangle`), since C finds them by these. To C an array is a pointer,
//! and `alloc` is no parameter: it is the memory of malloc.
ghost use Rattle.std.specs.Prelude.{◌≡◌, ◌≢◌, Ok, Err, IfOk, IfErr};
ghost use Rattle.coding.specs.TwoPass.{answers_of};
ghost use Rattle.dvd_capture.specs.Captured.{captured_marks, captured_rows};
ghost use Rattle.dvd_capture.specs.Rule.{HasAnswers};
ghost use Rattle.dvd_capture.specs.Works.{marks_of_work, rows_of, sectors_of, stage_of};
ghost use Rattle.dvd_capture.specs.declared.form.Form.TheVariants.{Marked};
ghost use Rattle.dvd_capture.specs.declared.stage.Stage.TheVariants.{Fetched};
ghost use Rattle.dvd_decoding.specs.Reading.{block_cause, block_in};
ghost use Rattle.dvd_decoding.specs.Frames.{main_data};
ghost use Rattle.dvd_decoding.specs.Salvage.{block_out};
ghost use Rattle.dvd_layout.specs.Place.{HasNumbers};
ghost use Rattle.dvdecc_c.specs.Blocks.{block_or, block_status, report_of};
ghost use Rattle.dvdecc_c.specs.Reading.{asked_block, asked_status, HasAsked, report_read, read_sectors, read_status, salvaged_frames, salvaged_sectors, saved_frames};

use crate::blocks::{Report, receive, report_cause, report_found};
use crate::status;
use dvd_capture::Work;
use dvd_frame::Id;
use dvd_layout::{BlockPlan, Content};
use dvd_read::parts::salvage_frame;
use dvd_read::{read_block, two_pass};
use std::alloc::Global;

/// The most that the first sector number of a block may be: its sixteen have 24 bits, so the last is at most 2^24 - 1.
const LAST_FIRST: u32 = (1 << 24) - 16;

/// Decodes a captured block, checks its sixteen data frames, and writes its sectors. `id` names the first frame, and
/// `rule` is that of the first frame. Only a block that is right gives its sectors: after a cause they stay, and the
/// report has its number. Without memory, or where `id` or `rule` is wrong, both stay.
#[unsafe(no_mangle)]
pub extern "C" fn dvdecc_read_block(
    alloc: Global,
    capture: &[u8; 42640],
    id: u32,
    rule: u32,
    sectors: &mut [[u8; 2048]; 16],
    report: &mut Report,
) -> u32
    ensures status { result ≢ 2 → result ≡ read_status (asked_block id rule) (captured_rows Marked capture.now) (captured_marks Marked capture.now) }
    ensures sectors { result ≢ 2 → sectors.new ≡ read_sectors (asked_block id rule) (captured_rows Marked capture.now) (captured_marks Marked capture.now) sectors.old }
    ensures report { result ≢ 2 → report.new ≡ report_read (asked_block id rule) (captured_rows Marked capture.now) (captured_marks Marked capture.now) report.old }
    ensures same_sectors { result ≡ 2 → sectors.new ≡ sectors.old }
    ensures same_report { result ≡ 2 → report.new ≡ report.old }
    ensures asked { result ≡ 2 → asked_status (asked_block id rule) ≡ 0 }
{
    match receive_asked(alloc, capture, id, rule) {
        Ok((mut work, plan)) => read_received(&mut work, &plan, sectors, report),
        Err(status) => status,
    }
}

/// Writes the sectors of a captured block whose data frames are right by themselves, and zeros for the others. `id`
/// names the first frame. A byte of `saved` is 1 where the frame is salvaged, else 0: a sector of zeros may be one that
/// was saved, so a count wouldn't say which. Where none is saved the status is OK too.
#[unsafe(no_mangle)]
pub extern "C" fn dvdecc_salvage_block(
    alloc: Global,
    capture: &[u8; 42640],
    id: u32,
    rule: u32,
    sectors: &mut [[u8; 2048]; 16],
    saved: &mut [u8; 16],
) -> u32
    ensures status { result ≢ 2 → result ≡ asked_status (asked_block id rule) }
    ensures sectors { result ≢ 2 → sectors.new ≡ salvaged_sectors (asked_block id rule) (captured_rows Marked capture.now) (captured_marks Marked capture.now) sectors.old }
    ensures saved { result ≢ 2 → saved.new ≡ salvaged_frames (asked_block id rule) (captured_rows Marked capture.now) (captured_marks Marked capture.now) saved.old }
    ensures same_sectors { result ≡ 2 → sectors.new ≡ sectors.old }
    ensures same_saved { result ≡ 2 → saved.new ≡ saved.old }
    ensures asked { result ≡ 2 → asked_status (asked_block id rule) ≡ 0 }
{
    match receive_asked(alloc, capture, id, rule) {
        Ok((mut work, plan)) => {
            salvage_received(&mut work, &plan, sectors, saved);
            status::OK
        }
        Err(refused) => refused,
    }
}

// Receives the block that is asked for. What can be refused without memory is refused first.
fn receive_asked(
    alloc: Global,
    capture: &[u8; 42640],
    id: u32,
    rule: u32,
) -> Result<(Work, BlockPlan), u32>
    ensures stage { IfOk result (λ given. stage_of given.0 ≡ Fetched) }
    ensures rows { IfOk result (λ given. rows_of given.0 ≡ captured_rows Marked capture.now) }
    ensures marks { IfOk result (λ given. marks_of_work given.0 ≡ captured_marks Marked capture.now) }
    ensures plan { IfOk result (λ given. asked_block id rule ≡ Ok given.1) }
    ensures numbers { IfOk result (λ given. HasNumbers given.1) }
    ensures refused { IfErr result (λ status. status ≢ 2 → asked_block id rule ≡ Err status) }
    ensures asked { IfErr result (λ status. status ≡ 2 → asked_status (asked_block id rule) ≡ 0) }
{
    let plan = plan_of(id, rule)?;
    let Ok(mut work) = Work::new(alloc) else {
        return Err(status::NO_MEMORY);
    };
    receive(capture, &mut work);
    Ok((work, plan))
}

// The entry of a plan whose frames these are, or the status of what is wrong: the rule first, then the number. A place
// is area, layer and sector number. So only these are kept of `id`, and frames are compared with it in these alone.
// Frame f has to have the first number plus f. The first is a multiple of 16 on a disk, but nothing here rests on it:
// with another number no block of a disk is right. Of the content only the rule counts, so `Zero` is as good as an
// image. No status of it is NO_MEMORY, so that this says one thing.
fn plan_of(id: u32, rule: u32) -> Result<BlockPlan, u32>
    ensures asked { result ≡ asked_block id rule }
    ensures numbers { HasAsked result }
{
    // The numbers are those of `dvdecc_rule` in dvdecc.h: 0 scrambles all of Main Data, 1 none, 2 the first 160
    // bytes. The first frame of a block has 0, and then all sixteen have it; or it has 2, in the Reference Code Zone,
    // and then the other fifteen have 1. No block begins with 1.
    let content = match rule {
        0 => Content::Zero,
        2 => Content::Reference,
        _ => return Err(status::BAD_RULE),
    };
    let id = Id::from_word(id);
    if id.number() > LAST_FIRST {
        return Err(status::BAD_ID);
    }
    Ok(BlockPlan {
        first: id.number(),
        area: id.area(),
        layer: id.layer(),
        content,
    })
}

// Reads a block that was received: two passes, then the checks of its frames. `read_block` leaves the sectors in
// `work`, and they are copied from there only where there is no cause.
fn read_received(
    work: &mut Work,
    plan: &BlockPlan,
    sectors: &mut [[u8; 2048]; 16],
    report: &mut Report,
) -> u32
    requires stage { stage_of work.old ≡ Fetched }
    requires numbers { HasNumbers plan.now }
    ensures status { result ≡ block_status (block_cause (rows_of work.old) (marks_of_work work.old) plan.now) }
    ensures sectors { sectors.new ≡ block_or (block_cause (rows_of work.old) (marks_of_work work.old) plan.now) (main_data (block_in (rows_of work.old) (marks_of_work work.old)) plan.now) sectors.old }
    ensures report { report.new ≡ report_of (block_cause (rows_of work.old) (marks_of_work work.old) plan.now) (rows_of work.old) (answers_of (rows_of work.old) (marks_of_work work.old)) }
{
    match read_block(work, plan) {
        Ok(fixed) => {
            put_sectors(work, sectors);
            *report = report_found(fixed);
            status::OK
        }
        Err(cause) => report_cause(cause, report),
    }
}

// Salvages a block that was received. Sectors and `saved` are all written, whatever they held. The status is OK
// whatever is salvaged, so it isn't answered here.
fn salvage_received(
    work: &mut Work,
    plan: &BlockPlan,
    sectors: &mut [[u8; 2048]; 16],
    saved: &mut [u8; 16],
)
    requires stage { stage_of work.old ≡ Fetched }
    requires numbers { HasNumbers plan.now }
    ensures sectors { sectors.new ≡ block_out (rows_of work.old) (marks_of_work work.old) plan.now }
    ensures saved { saved.new ≡ saved_frames (rows_of work.old) (marks_of_work work.old) plan.now }
{
    // A cause is dropped: `salvage_frame` reads the block where two passes found one, and else the rows' answers, which
    // are in `work` all the same.
    let _found = two_pass(work);
    salvage_each(work, plan, sectors, saved);
}

// Salvages each frame of a block whose rows are answered. Each by itself: a wrong frame costs no other.
// `salvage_frame` writes to the caller's sector, and zeros where the frame isn't salvaged, so nothing old is left
// there.
fn salvage_each(work: &Work, plan: &BlockPlan, sectors: &mut [[u8; 2048]; 16], saved: &mut [u8; 16])
    requires stage { HasAnswers (stage_of work.now) }
    requires numbers { HasNumbers plan.now }
    ensures sectors { sectors.new ≡ block_out (rows_of work.now) (marks_of_work work.now) plan.now }
    ensures saved { saved.new ≡ saved_frames (rows_of work.now) (marks_of_work work.now) plan.now }
{
    for f in 0..16usize {
        saved[f] = u8::from(salvage_frame(work, plan, f, &mut sectors[f]));
    }
}

// Writes the sixteen sectors. They are copied only once the block is right, so that a refused one leaves the caller's
// buffer.
fn put_sectors(work: &Work, sectors: &mut [[u8; 2048]; 16])
    ensures { sectors.new ≡ sectors_of work.now }
{
    for f in 0..16usize {
        sectors[f].copy_from_slice(work.sector(f));
    }
}
