//! The rows of a captured block that have a PI error, and those that failed. Rows are counted as they were received, so
//! that a survey shows what decoding hides. `HasAnswers` says that the rows of the work were decoded, so that there is
//! an answer to each.
ghost use Rattle.std.specs.Prelude.{◌≡◌, ◌+◌, nat_lt, true, length, All, IfSome};
ghost use Rattle.std.specs.Result.{result_err};
ghost use Rattle.std.specs.declared.option.Option.TheVariants.{None};
ghost use Rattle.coding.specs.Words.{IsByte};
ghost use Rattle.dvd_capture.specs.Rule.{HasAnswers};
ghost use Rattle.dvd_capture.specs.Works.{marks_of_work, rows_of, stage_of};
ghost use Rattle.dvd_report.specs.Survey.{pi_rows, surveyed_with};

use crate::counts::Surveyed;
use dvd_capture::Work;
use dvd_read::{Cause, FailedRows, Fixed};
use rs_decode::Fix;

/// What a survey keeps of a block that was read with this answer. The work has the answers of both passes; it stays. Of
/// the answer only a cause is kept: what was fixed doesn't say how many rows have a PI error.
pub(crate) fn survey_block(work: &Work, answer: &Result<Fixed, Cause>) -> Surveyed
    requires { HasAnswers (stage_of work.now) }
    ensures { result ≡ surveyed_with (rows_of work.now) (marks_of_work work.now) (result_err answer.now) }
{
    Surveyed {
        pi: count_pi_rows(work),
        // A block has 208 rows, a number that eight bits hold.
        failed: FailedRows::of_work(work).count() as u8,
        cause: answer.err(),
    }
}

// How many received rows have a PI error. The answers are asked and not the rows, which would have to be tested once
// more.
fn count_pi_rows(work: &Work) -> u8
    requires { HasAnswers (stage_of work.now) }
    ensures { result ≡ pi_rows (rows_of work.now) (marks_of_work work.now) }
{
    let mut count = 0;
    for i in 0..208usize {
        // An answer says what it corrects of a row of bytes, so the row has to be one.
        prove_row(work.row(i));
        count += u8::from(has_pi_error(work.answer(i)));
    }
    count
}

// Whether a row with this answer was received with a PI error: it failed, or a byte was corrected or marked. A marked
// row counts even where its bytes are right.
fn has_pi_error(answer: Option<Fix>) -> bool
    ensures failed { answer ≡ None → result ≡ true }
    ensures answered { IfSome answer (λ fix. result ≡ nat_lt 0 (fix.errors + fix.erased)) }
{
    match answer {
        Some(fix) => fix.errors > 0 || fix.erased > 0,
        None => true,
    }
}

// A row has 182 bytes. The contract of a block's rows doesn't say this; the call proves it, and does nothing at run
// time.
fn prove_row(row: &[u8; 182])
    ensures size { length row.now ≡ 182 }
    ensures bytes { All IsByte row.now }
{
    prove_bytes(row);
}

// The elements of a slice of bytes are bytes. The call proves this, and does nothing at run time. It is of a slice, and
// apart from `prove_row`, since the checker knows this of slices and not of arrays.
fn prove_bytes(bytes: &[u8])
    ensures { All IsByte bytes.now }
{}
