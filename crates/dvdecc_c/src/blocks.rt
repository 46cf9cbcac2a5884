//! Whole blocks (ECMA-267, 18): their parity, and two passes over a captured one. A capture is in the marked form, so
//! that one call takes bytes and marks: 208 rows of 182 bytes, each with 23 bytes of marks, 42,640 in all.
//!
//! Two passes decode the rows, then the columns with the failed rows as erasures, and then test all rows. A cause is
//! the first reason why no block comes of that. `Work` is the memory of one block: rows and marks as received, and what
//! the passes made of them. It is taken for a call and given back at its end. In the clauses 2 is the status NO_MEMORY,
//! which may come of any block. The stage of a `Work` says how far it is: `Fetched` once a block was received, `Fixed`
//! once two passes found one.
//!
//! The exports are public and keep their names (`no_mangle`), since C finds them by these. To C an array is a pointer,
//! and `alloc` is no parameter: it is the memory of malloc. A `Work` is taken there: it is 150 KB, more than the stack
//! that a caller has to leave.
ghost use Rattle.std.specs.Prelude.{◌≡◌, ◌≢◌, ◌↔◌, ◌<◌, IsTrue};
ghost use Rattle.coding.specs.Product.{IsParityAdded, IsProduct, line};
ghost use Rattle.coding.specs.TwoPass.{answers_of};
ghost use Rattle.dvd_capture.specs.Captured.{captured_marks, captured_rows};
ghost use Rattle.dvd_capture.specs.Works.{block_of, marks_of_work, rows_of, stage_of};
ghost use Rattle.dvd_capture.specs.declared.form.Form.TheVariants.{Marked};
ghost use Rattle.dvd_capture.specs.declared.stage.Stage.TheVariants.{Fetched, Fixed as StageFixed};
ghost use Rattle.dvd_decoding.specs.Causes.{two_pass_cause};
ghost use Rattle.dvdecc_c.specs.Blocks.{block_status, captured_answers, cause_number, cause_status, block_by_answers, with_report};

use crate::status;
use dvd_block::parts::{fill_parity, is_product};
use dvd_capture::{Form, Work, fetch};
use dvd_decoding::Cause;
use dvd_ports::SliceSource;
use dvd_read::{Fixed, two_pass};
use std::alloc::Global;

/// What two passes over a captured block came to. C sees its fields in this order, as dvdecc.h declares them.
#[repr(C)]
#[derive(Clone, Copy)]
pub struct Report {
    /// In how many places the block differs from what was received, or 0 where there is a cause. A marked place whose
    /// byte was right isn't counted, as it needed no correction.
    pub corrected: u32,
    /// How many rows failed in the first pass, or 0 where there is a cause.
    pub failed_rows: u32,
    /// Where there is a cause: the number of failed rows, or the number of the column, of the row or of the frame.
    pub number: u32,
}

/// Sets the parity of a block: the last ten bytes of each row and the last sixteen rows. It is set in place, so it
/// takes no memory and has no status: any data have a parity. The first 172 bytes of rows 0 to 191 stay.
#[unsafe(no_mangle)]
pub extern "C" fn dvdecc_block_parity(rows: &mut [[u8; 182]; 208])
    ensures { IsParityAdded rows.old rows.new }
{
    fill_parity(rows);
}

/// Whether each row and each column of a block is a codeword. All are tested, since C may hand over any bytes.
#[unsafe(no_mangle)]
pub extern "C" fn dvdecc_block_is_codeword(rows: &[[u8; 182]; 208]) -> bool
    ensures { IsTrue result ↔ IsProduct rows.now }
{
    is_product(rows)
}

/// Decodes a captured block by two passes, and writes its rows in the order of the block. After a cause the caller's
/// rows stay as they were, and the report has the number of the cause. Without memory both stay.
#[unsafe(no_mangle)]
pub extern "C" fn dvdecc_two_pass(
    alloc: Global,
    capture: &[u8; 42640],
    rows: &mut [[u8; 182]; 208],
    report: &mut Report,
) -> u32
    ensures status { result ≢ 2 → result ≡ block_status (two_pass_cause (captured_answers capture.now)) }
    ensures rows { result ≢ 2 → rows.new ≡ block_by_answers (captured_answers capture.now) rows.old }
    ensures report { result ≢ 2 → report.new ≡ with_report (captured_rows Marked capture.now) (captured_answers capture.now) }
    ensures same_rows { result ≡ 2 → rows.new ≡ rows.old }
    ensures same_report { result ≡ 2 → report.new ≡ report.old }
{
    let Ok(mut work) = Work::new(alloc) else {
        return status::NO_MEMORY;
    };
    receive(capture, &mut work);
    decode_received(&mut work, rows, report)
}

// Receives a captured block. The received rows are in the order of the block, those of a capture in that of recording.
pub(crate) fn receive(capture: &[u8; 42640], work: &mut Work)
    ensures stage { stage_of work.new ≡ Fetched }
    ensures rows { rows_of work.new ≡ captured_rows Marked capture.now }
    ensures marks { marks_of_work work.new ≡ captured_marks Marked capture.now }
{
    // The answer is known: a list of so many bytes gives a whole block, and marks of this form break no rule. A source
    // over the caller's bytes, since blocks are received from sources everywhere.
    let _answer = fetch(&mut SliceSource::new(capture), Form::Marked, work);
}

// Decodes a block that was received. The caller's rows are written only once the block is found.
fn decode_received(work: &mut Work, rows: &mut [[u8; 182]; 208], report: &mut Report) -> u32
    requires { stage_of work.old ≡ Fetched }
    ensures status { result ≡ block_status (two_pass_cause (answers_of (rows_of work.old) (marks_of_work work.old))) }
    ensures rows { rows.new ≡ block_by_answers (answers_of (rows_of work.old) (marks_of_work work.old)) rows.old }
    ensures report { report.new ≡ with_report (rows_of work.old) (answers_of (rows_of work.old) (marks_of_work work.old)) }
{
    match two_pass(work) {
        Ok(fixed) => {
            put_block(work, rows);
            *report = report_found(fixed);
            status::OK
        }
        Err(cause) => report_cause(cause, report),
    }
}

// The report of a block that was found. It says what was corrected; only a cause has a number. `reading` calls it too.
pub(crate) fn report_found(fixed: Fixed) -> Report
    ensures { result ≡ record { corrected = fixed.bytes; failed_rows = fixed.failed_rows; number = 0 } }
{
    Report {
        corrected: fixed.bytes,
        failed_rows: u32::from(fixed.failed_rows),
        number: 0,
    }
}

// Reports the number of a cause. Answers its status. Two passes have the first three causes; the others are those of
// data frames, for `dvdecc_read_block`. One call for both, so that a cause has one status. Which ID was found isn't
// reported: there is one number, that of the frame. The other two are 0: a `Cause` has no counts, and
// dvdecc.h promises them after DVDECC_OK alone.
pub(crate) fn report_cause(cause: Cause, report: &mut Report) -> u32
    ensures status { result ≡ cause_status cause }
    ensures report { report.new ≡ record { corrected = 0; failed_rows = 0; number = cause_number cause } }
{
    let (status, number) = match cause {
        Cause::Rows { failed } => (status::ROWS, u32::from(failed)),
        Cause::Column { j } => (status::COLUMN, u32::from(j)),
        Cause::Row { i } => (status::ROW, u32::from(i)),
        Cause::Ied { f } => (status::IED, u32::from(f)),
        Cause::Address { f, found: _ } => (status::ID, u32::from(f)),
        Cause::Edc { f } => (status::EDC, u32::from(f)),
    };
    *report = Report {
        corrected: 0,
        failed_rows: 0,
        number,
    };
    status
}

// Writes the rows of the block that two passes found. Row by row, so that each loop has one invariant.
fn put_block(work: &Work, rows: &mut [[u8; 182]; 208])
    requires { stage_of work.now ≡ StageFixed }
    ensures { rows.new ≡ block_of work.now }
{
    for i in 0..208usize {
        put_row(work, i, &mut rows[i]);
    }
}

// Writes one of them. Byte by byte, since the found block is kept by columns.
fn put_row(work: &Work, i: usize, row: &mut [u8; 182])
    requires stage { stage_of work.now ≡ StageFixed }
    requires row { i < 208 }
    ensures { row.new ≡ line (block_of work.now) i }
{
    for j in 0..182usize {
        row[j] = work.block_byte(i, j);
    }
}
