//! Both passes over a captured block, and the test of the rows. A row or column is answered where a codeword is near
//! it; a row that isn't has failed. Rows' answers hold the block where they have all bytes of the columns: no row that
//! was answered was corrected, and failed rows have the columns' bytes in their answers.
//! A `Work` has received rows, marks, answers of rows and columns, and a stage: at Fetched no answer counts, at Refused
//! the rows' answers do, and at Fixed the columns are the block as well. In clauses `AreColumnsHeld` says that the
//! answers of rows have the bytes of columns, and `AreRowsHeld` that they have those of a block.
ghost use Rattle.std.specs.Prelude.{◌≡◌, ℕ, ◌<◌, ◌≤◌, Bool, List, None, Some, true, length, map, not, position, IsTrue, IfErr, IfOk, OnErr, OnOk};
ghost use Rattle.coding.specs.Distance.{distance};
ghost use Rattle.coding.specs.Filling.{marked};
ghost use Rattle.coding.specs.Nearest.{vanishes_at_all};
ghost use Rattle.coding.specs.Product.{line};
ghost use Rattle.dvd_capture.specs.Answers.{AreAnswers, IsAnswer};
ghost use Rattle.dvd_capture.specs.Rule.{HasAnswers, HasBlock, HasNoTwoPass};
ghost use Rattle.coding.specs.TwoPass.{AgreesWith, answers_of, failed_of, from_columns, IsTwoPass};
ghost use Rattle.dvd_capture.specs.Works.{answers_of_work, block_of, marks_of_work, rows_of, stage_of};
ghost use Rattle.dvd_capture.specs.Parts.{column_answers, marks_rows, received_rows};
ghost use Rattle.dvd_capture.specs.Kept.{KeepsReceived};
ghost use Rattle.dvd_read.specs.Calls.{AreColumnsAnswered, AreBothAnswered, IsDecoded};
ghost use Rattle.dvd_decoding.specs.Causes.{two_pass_cause};
ghost use Rattle.coding.specs.Found.{block_differences, block_found};
ghost use Rattle.dvd_read.specs.Parts.{AreAnswersFrom, AreColumnsFrom, AreColumnsHeld, AreRowsHeld, answer_word};
ghost use Rattle.dvd_read.specs.Inner.Found.{words_of_columns};
ghost use Rattle.dvd_read.specs.Inner.Standing.{AreAnswersBefore, AreCodewords};

use crate::columns::{
    answer_all_columns, are_codewords, first_missing, first_wrong, mark_answered, read_row,
};
use crate::failed::FailedRows;
use crate::fixed::Fixed;
use crate::rows::{answer_or_take_rows, answer_rows};
use dvd_capture::parts::{AnswerRow, ColumnAnswer, Marks, Received};
use dvd_capture::{Stage, Work};
use dvd_decoding::Cause;
use rs_code::Pi;
use std::simd::prelude::*;

/// What the passes over a block came to, before the test of its rows.
#[derive(Clone, Copy, Debug, PartialEq, Eq)]
pub struct Answered {
    /// The rows that failed in the first pass.
    pub failed: FailedRows,
    /// Whether the rows' answers have all bytes of the columns, those of failed rows too. `false` claims nothing.
    pub are_held: bool,
}

/// Decodes a captured block: each received row is answered by the codeword near it or fails; each column of the
/// answers, with the failed rows marked, by the codeword near it; and the block of these columns must have codewords in
/// all its rows.
/// The stage is then Fixed, or Refused after a cause. Received bytes, marks and sectors stay.
/// It is for callers that want the block and not its frames. `read_block` makes both calls itself, since it has to know
/// whether the rows' answers hold the block.
pub fn two_pass(work: &mut Work) -> Result<Fixed, Cause>
    requires { HasBlock (stage_of work.old) }

    ensures { IsDecoded work.old work.new result }
{
    let answered = answer_block(work, || ());
    end_passes(work, &answered)
}

/// Answers the rows and columns of a captured block, on this thread. `begin_columns` is called once, where the second
/// pass begins, and not at all where more rows failed than it can correct: what it does is the caller's, so no clause
/// says when it is called.
/// What was found is set by `end_passes`: the two are apart since several workers answer likewise in dvd_par, and end
/// by the same call.
pub fn answer_block<F: FnOnce()>(work: &mut Work, begin_columns: F) -> Answered
    requires stage { HasBlock (stage_of work.old) }
    requires callable { F.IsAlwaysCallable begin_columns }
    ensures answered { AreBothAnswered work.new result }
    ensures received { KeepsReceived work.old work.new }
    ensures sectors { work.new.sectors ≡ work.old.sectors }
{
    // The answers are about to be overwritten, and at this stage nothing is said of them.
    work.set_stage(Stage::Fetched);
    answer_both(
        &work.received,
        &work.marks,
        work.answers.rows_mut(),
        work.columns.all_mut(),
        begin_columns,
    )
}

// Answers all rows and columns, of buffers that are lent one by one. Where a block is as it was recorded, the rows of
// outer parity aren't tested: these sixteen are codewords where all other rows are and all columns. Where it isn't,
// they are answered as any other rows, and then all columns.
fn answer_both<F: FnOnce()>(
    received: &Received,
    marks: &Marks,
    answers: &mut [AnswerRow],
    columns: &mut [ColumnAnswer],
    begin_columns: F,
) -> Answered
    requires rows { length answers.old ≡ 208 }
    requires columns { length columns.old ≡ 182 }
    requires callable { F.IsAlwaysCallable begin_columns }
    ensures rows { AreAnswersFrom (received_rows received.now) (marks_rows marks.now) 0 answers.new }
    ensures failed { result.failed.marks ≡ failed_of (map answer_word answers.new) }
    ensures columns { AreColumnsAnswered answers.new columns.new result.are_held }
{
    let code = Pi::new();
    // Room for the thirds of both passes. It is set to zeros once, but where single rows or columns are answered.
    let mut thirds = [[u8x32::splat(0); 3]; 85];
    if !answer_or_take_rows(&code, received, marks, &mut thirds, answers, columns) {
        return answer_all_columns(answers, columns, &mut thirds, begin_columns);
    }
    begin_columns();
    if are_codewords(&mut thirds, answers) {
        mark_answered(columns);
        return Answered {
            failed: FailedRows::none(),
            are_held: true,
        };
    }
    answer_parity_rows(&code, received, marks, answers);
    answer_all_columns(answers, columns, &mut thirds, || ())
}

// Answers the sixteen rows of outer parity, whatever their answers were. The others stay.
fn answer_parity_rows(code: &Pi, received: &Received, marks: &Marks, answers: &mut [AnswerRow])
    requires size { length answers.old ≡ 208 }
    requires rows { AreAnswersBefore (received_rows received.now) (marks_rows marks.now) answers.old 192 }
    ensures size { length answers.new ≡ 208 }
    ensures rows { AreAnswersFrom (received_rows received.now) (marks_rows marks.now) 0 answers.new }
{
    let (_, parity) = answers.split_at_mut(192);
    answer_rows(code, received, marks, 192, parity);
}

/// Sets the stage of a block whose rows and columns are answered, as `two_pass` does: the block of these columns must
/// have codewords in all its rows. Where the rows' answers have all bytes of the columns, the columns correct no row
/// that was answered: these rows are codewords and need no test.
/// It is public for those who answer the pieces of both passes by several workers. All buffers stay. `are_held` may be
/// `false` of any block: then all rows are tested, which takes more time and gives the same answer.
pub fn end_passes(work: &mut Work, answered: &Answered) -> Result<Fixed, Cause>
    requires answers { AreAnswersFrom (rows_of work.old) (marks_of_work work.old) 0 (answers_of_work work.old) }
    requires columns { marked (failed_of (map answer_word (answers_of_work work.old))) ≤ 16
        → AreColumnsFrom (map answer_word (answers_of_work work.old)) 0 (column_answers work.old.columns) }
    requires failed { answered.now.failed.marks ≡ failed_of (map answer_word (answers_of_work work.old)) }
    requires held { IsTrue answered.now.are_held → AreColumnsHeld (answers_of_work work.old) (column_answers work.old.columns) }

    ensures decoded { IsDecoded work.old work.new result }
    ensures held { IsTrue answered.now.are_held → AreRowsHeld (answers_of_work work.new) (block_of work.new) }
{
    match find_block(work, answered) {
        Ok(failed_rows) => {
            // The stage first: it ensures that the answers are those of the received rows, by which bytes are counted.
            work.set_stage(Stage::Fixed);
            let bytes = count_fixed(work, answered.are_held);
            Ok(Fixed { bytes, failed_rows })
        }
        Err(cause) => {
            work.set_stage(Stage::Refused);
            Err(cause)
        }
    }
}

// How many rows failed, or why there is no block. Its clauses are of the captured block, and those of `find_columns` of
// answers alone, whatever was received.
fn find_block(work: &Work, answered: &Answered) -> Result<u16, Cause>
    requires answers { AreAnswersFrom (rows_of work.now) (marks_of_work work.now) 0 (answers_of_work work.now) }
    requires columns { marked (failed_of (map answer_word (answers_of_work work.now))) ≤ 16
        → AreColumnsFrom (map answer_word (answers_of_work work.now)) 0 (column_answers work.now.columns) }
    requires failed { answered.now.failed.marks ≡ failed_of (map answer_word (answers_of_work work.now)) }
    requires held { IsTrue answered.now.are_held → AreColumnsHeld (answers_of_work work.now) (column_answers work.now.columns) }
    ensures answers { AreAnswers (rows_of work.now) (marks_of_work work.now) (answers_of_work work.now) }
    ensures refused { IfErr result (λ cause. two_pass_cause (answers_of (rows_of work.now) (marks_of_work work.now)) ≡ Some cause) }
    ensures none { OnErr result (HasNoTwoPass (rows_of work.now) (marks_of_work work.now)) }
    ensures found { OnOk result (two_pass_cause (answers_of (rows_of work.now) (marks_of_work work.now)) ≡ None) }
    ensures block { OnOk result (block_of work.now ≡ block_found (answers_of (rows_of work.now) (marks_of_work work.now))) }
    ensures agrees { OnOk result (IsTwoPass (rows_of work.now) (marks_of_work work.now) (block_of work.now)) }
    ensures failed { IfOk result (λ failed. failed ≡ marked (failed_of (answers_of (rows_of work.now) (marks_of_work work.now)))) }
{
    find_columns(work.answers.rows(), work.columns.all(), answered)
}

// The same of the answers alone.
// More than 16 failed rows leave no column an answer, so their number is looked at first. The columns alone don't make
// a product codeword: without the test of the rows a block could be answered that was never recorded. The three tests
// have the order of the causes, since a refusal names the first that applies.
fn find_columns(
    answers: &[AnswerRow],
    columns: &[ColumnAnswer],
    answered: &Answered,
) -> Result<u16, Cause>
    requires rows { length answers.now ≡ 208 }
    requires codewords { AreCodewords answers.now }
    requires columns { length columns.now ≡ 182 }
    requires answered { marked (failed_of (map answer_word answers.now)) ≤ 16 → AreColumnsFrom (map answer_word answers.now) 0 columns.now }
    requires failed { answered.now.failed.marks ≡ failed_of (map answer_word answers.now) }
    requires held { IsTrue answered.now.are_held → AreColumnsHeld answers.now columns.now }
    ensures refused { IfErr result (λ cause. two_pass_cause (map answer_word answers.now) ≡ Some cause) }
    ensures found { OnOk result (two_pass_cause (map answer_word answers.now) ≡ None) }
    ensures block { OnOk result (from_columns (words_of_columns columns.now) ≡ block_found (map answer_word answers.now)) }
    ensures agrees { OnOk result (AgreesWith (map answer_word answers.now) (from_columns (words_of_columns columns.now))) }
    ensures failed { IfOk result (λ failed. failed ≡ marked (failed_of (map answer_word answers.now))) }
{
    let failed_rows = answered.failed.count();
    if !answered.failed.are_few() {
        return Err(Cause::Rows {
            failed: failed_rows,
        });
    }
    if let Some(j) = first_missing(columns) {
        return Err(Cause::Column { j });
    }
    match find_wrong(columns, answered.are_held) {
        Some(i) => Err(Cause::Row { i }),
        None => Ok(failed_rows),
    }
}

// The first row of the columns' words that isn't a codeword. Where rows that were answered are kept, none needs to be
// looked at: the values of all rows at a point are a codeword of PO. Those of the kept rows are 0, and no codeword but
// zeros has at most sixteen bytes that aren't, so those of the failed rows are 0 too.
fn find_wrong(columns: &[ColumnAnswer], are_kept: bool) -> Option<u16>
    requires columns { length columns.now ≡ 182 }
    requires right { IsTrue are_kept → (i : ℕ) → i < 208 → vanishes_at_all 10 (line (from_columns (words_of_columns columns.now)) i) ≡ true }
    ensures { result ≡ position (λ row. not (vanishes_at_all 10 row)) (from_columns (words_of_columns columns.now)) }
{
    if are_kept { None } else { first_wrong(columns) }
}

// In how many places the block differs from what was received. Where the rows' answers hold the block, most needn't be
// compared.
fn count_fixed(work: &Work, are_held: bool) -> u32
    requires stage { HasAnswers (stage_of work.now) }
    requires held { IsTrue are_held → AreRowsHeld (answers_of_work work.now) (block_of work.now) }
    ensures { result ≡ block_differences (rows_of work.now) (block_of work.now) }
{
    if are_held {
        count_corrections(work)
    } else {
        count_differences(&work.received, work.columns.all())
    }
}

// The same where the answers of all rows hold the block. So the counts of those that were answered do, and only failed
// rows and rows with marks are compared. Each count is below 65,536, so that the sum of 208 has room in 32 bits.
fn count_corrections(work: &Work) -> u32
    requires stage { HasAnswers (stage_of work.now) }
    requires held { AreRowsHeld (answers_of_work work.now) (block_of work.now) }
    ensures { result ≡ block_differences (rows_of work.now) (block_of work.now) }
{
    let answers = work.answers.rows();
    let mut count = 0;
    for i in 0..208usize {
        count += row_corrections(work.received.row(i), &answers[i]);
    }
    count
}

// In how many places the bytes of a row's answer differ from what was received: where nothing was marked, at its
// errors. A mark on a right byte is no correction, so rows with marks are compared, and failed rows. `erased` says
// whether there are any marks, so these are named by the clause alone. Also ensures the length of the answer's bytes,
// which their type has.
fn row_corrections(received: &[u8; 182], answer: &AnswerRow) -> u32
    ensures count { (marks : List Bool) → length marks ≡ 182 → IsAnswer received.now marks answer.now → result ≡ distance received.now answer.now.bytes }
    ensures most { result < 65536 }
    ensures width { length answer.now.bytes ≡ 182 }
{
    match answer.fix {
        Some(fix) if fix.erased == 0 => u32::from(fix.errors),
        _ => row_differences(received, &answer.bytes),
    }
}

// In how many places the block of the columns differs from what was received. The columns may have changed rows that
// were answered, so all places are compared: row by row, as the received bytes lie.
fn count_differences(received: &Received, columns: &[ColumnAnswer]) -> u32
    requires { length columns.now ≡ 182 }
    ensures { result ≡ block_differences (received_rows received.now) (from_columns (words_of_columns columns.now)) }
{
    let mut count = 0;
    let mut row = [0; 182];
    for i in 0..208usize {
        read_row(columns, i, &mut row);
        count += row_differences(received.row(i), &row);
    }
    count
}

// In how many places two rows differ.
fn row_differences(received: &[u8; 182], row: &[u8; 182]) -> u32
    ensures count { result ≡ distance received.now row.now }
    ensures most { result ≤ 182 }
{
    // A byte has room for as many, so that a vector compares 32 places.
    let mut count = 0u8;
    for j in 0..182usize {
        count += u8::from(received[j] != row[j]);
    }
    u32::from(count)
}
