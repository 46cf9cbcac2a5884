//! Both passes over a captured block, with several workers in each. Rows don't depend on each other, nor do columns, so
//! a block is shared out. Blocks side by side would need a captured block for each worker, and an order for what they
//! write. `rt` is the runtime, which makes the threads, and `gate` is asked before each piece: only gates of tests do
//! anything.
ghost use Rattle.std.specs.Prelude.{◌≡◌, ◌+◌, ◌<◌, ◌≤◌, length, map};
ghost use Rattle.dvd_capture.specs.Rule.{HasBlock};
ghost use Rattle.coding.specs.TwoPass.{failed_of};
ghost use Rattle.dvd_capture.specs.Works.{stage_of};
ghost use Rattle.dvd_capture.specs.Parts.{marks_rows, received_rows};
ghost use Rattle.dvd_capture.specs.Kept.{KeepsReceived};
ghost use Rattle.dvd_read.specs.Calls.{AreColumnsAnswered, AreBothAnswered, IsDecoded};
ghost use Rattle.dvd_read.specs.Parts.{AreAnswersFrom, AreColumnsFrom, AreSameAnswers, answer_word};

use crate::cutting::for_each_piece;
use crate::gate::Gate;
use dvd_capture::parts::{AnswerRow, ColumnAnswer, Marks, Received};
use dvd_capture::{Stage, Work};
use dvd_read::parts::{Answered, answer_columns, answer_rows, end_passes, hold_columns};
use dvd_read::{Cause, FailedRows, Fixed};
use rs_code::{Pi, Po};
use std::thread::Threads;

/// Decodes a captured block as `dvd_read::two_pass` does, with so many workers. A worker has the rows of a piece in the
/// first pass, and the columns of a piece in the second. The second begins where the first has ended. One worker works
/// on this thread. Sixteen workers are the most that the option allows; the passes don't need that limit. Only tests
/// call it: commands read blocks as entries of a plan, by `read_block_par`.
pub fn two_pass_par<R: Threads + Sync, G: Gate>(
    rt: &R,
    workers: u8,
    gate: &G,
    work: &mut Work,
) -> Result<Fixed, Cause>
    requires workers { (1 ≤ workers) × (workers ≤ 16) }
    requires stage { HasBlock (stage_of work.old) }
    ensures { IsDecoded work.old work.new result }
{
    let answered = answer_block(rt, workers, gate, work);
    // What the passes came to is asked once all pieces are done.
    end_passes(work, &answered)
}

/// Answers the rows and columns of a captured block. With more than sixteen failed rows the columns stay as they were,
/// and `end_passes` doesn't look at them. `read_block_par` calls it too: for the frames it has to know where rows can
/// be read whole.
pub(crate) fn answer_block<R: Threads + Sync, G: Gate>(
    rt: &R,
    workers: u8,
    gate: &G,
    work: &mut Work,
) -> Answered
    requires workers { (1 ≤ workers) × (workers ≤ 16) }
    requires stage { HasBlock (stage_of work.old) }
    ensures answered { AreBothAnswered work.new result }
    ensures received { KeepsReceived work.old work.new }
    ensures sectors { work.new.sectors ≡ work.old.sectors }
{
    // One worker has all rows and all columns, so the plain call does both passes; the gate is asked where each begins.
    if workers == 1 {
        gate.pass(0);
        return dvd_read::parts::answer_block(work, || gate.pass(0));
    }
    // Answers of an earlier reading don't count from here on, since they are overwritten. The stage stays Fetched:
    // `end_passes` sets what was found.
    work.set_stage(Stage::Fetched);
    let answers = work.answers.rows_mut();
    row_pass(rt, workers, gate, &work.received, &work.marks, answers);
    // The failed rows are gathered once, on this thread, since all columns have them as marks.
    let failed = FailedRows::of(work.answers.rows());
    let answers = work.answers.rows_mut();
    let columns = work.columns.all_mut();
    let are_held = column_pass(rt, workers, gate, answers, &failed, columns);
    Answered { failed, are_held }
}

// The first pass. A single piece is done on this thread. Rows don't depend on each other, so the answers are the same
// however they are cut. The workers share one code, whose generator polynomial is computed when it is made.
fn row_pass<R: Threads + Sync, G: Gate>(
    rt: &R,
    workers: u8,
    gate: &G,
    received: &Received,
    marks: &Marks,
    answers: &mut [AnswerRow],
)
    requires workers { 1 ≤ workers }
    requires rows { length answers.old ≡ 208 }
    ensures { AreAnswersFrom (received_rows received.now) (marks_rows marks.now) 0 answers.new }
{
    let code = Pi::new();
    let answer = |start: usize, piece: &mut [AnswerRow]|
        requires { start + length piece.now ≤ 208 }
        ensures answers { AreAnswersFrom (received_rows received.entry.now) (marks_rows marks.entry.now) start piece.exit.now }
        ensures size { length piece.exit.now ≡ length piece.entry.now }
    {
        answer_rows(&code, received, marks, start, piece);
    };
    for_each_piece(rt, workers, gate, answers, &answer);
}

// The second pass, where no more rows failed than the sixteen parity bytes of a column correct; else the columns stay,
// and nothing is claimed. Answers whether the rows' answers then have all bytes of the columns. Several workers answer
// their pieces apart from each other, so the columns are compared with the rows at the end, on this thread.
fn column_pass<R: Threads + Sync, G: Gate>(
    rt: &R,
    workers: u8,
    gate: &G,
    answers: &mut [AnswerRow],
    failed: &FailedRows,
    columns: &mut [ColumnAnswer],
) -> bool
    requires workers { 1 ≤ workers }
    requires rows { length answers.old ≡ 208 }
    requires marks { failed.now.marks ≡ failed_of (map answer_word answers.old) }
    requires columns { length columns.old ≡ 182 }
    ensures same { AreSameAnswers answers.old answers.new }
    ensures answered { AreColumnsAnswered answers.new columns.new result }
{
    if !failed.are_few() {
        return false;
    }
    column_pieces(rt, workers, gate, answers, &failed.marks, columns);
    hold_columns(answers, &failed.marks, columns)
}

// The columns, piece by piece. The closure is proved by its own clauses, so `requires` repeats there what this function
// knows of the answers. The workers share one code, as in the first pass.
fn column_pieces<R: Threads + Sync, G: Gate>(
    rt: &R,
    workers: u8,
    gate: &G,
    answers: &[AnswerRow],
    failed: &[bool; 208],
    columns: &mut [ColumnAnswer],
)
    requires workers { 1 ≤ workers }
    requires rows { length answers.now ≡ 208 }
    requires marks { failed.now ≡ failed_of (map answer_word answers.now) }
    requires columns { length columns.old ≡ 182 }
    ensures { AreColumnsFrom (map answer_word answers.now) 0 columns.new }
{
    let code = Po::new();
    let answer = |start: usize, piece: &mut [ColumnAnswer]|
        requires { (start + length piece.now ≤ 182)
            × (length answers.now ≡ 208)
            × (failed.now ≡ failed_of (map answer_word answers.now)) }
        ensures columns { AreColumnsFrom (map answer_word answers.entry.now) start piece.exit.now }
        ensures size { length piece.exit.now ≡ length piece.entry.now }
    {
        answer_columns(&code, answers, failed, start, piece);
    };
    for_each_piece(rt, workers, gate, columns, &answer);
}
