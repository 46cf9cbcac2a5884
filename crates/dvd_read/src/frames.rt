//! The checks of a block's sixteen data frames, and their Main Data. `HasNumbers` says of an entry of a plan that the
//! numbers of its sixteen sectors have 24 bits, and that its layer is 0 or 1: every plan's entries have that.
ghost use Rattle.std.specs.Prelude.{◌≡◌, ℕ, ◌+◌, ◌*◌, ◌<◌, ◌≤◌, ◌++◌, None, Some, length, take, IsTrue, IfErr, OnOk};
ghost use Rattle.coding.specs.Product.{line};
ghost use Rattle.dvd_capture.specs.Parts.{received_rows, sector_bytes};
ghost use Rattle.coding.specs.TwoPass.{from_columns};
ghost use Rattle.dvd_capture.specs.Works.{answers_of_work, block_of, rows_of, stage_of};
ghost use Rattle.dvd_layout.specs.Place.{HasNumbers};
ghost use Rattle.dvd_read.specs.Calls.{AreFramesChecked};
ghost use Rattle.dvd_read.specs.Parts.{AreRowsHeld, answer_bytes};
ghost use Rattle.coding.specs.Found.{block_differences};
ghost use Rattle.dvd_read.specs.Inner.Found.{words_of_columns};
ghost use Rattle.dvd_decoding.specs.Frames.{cause_in, fault_at, frame_of, frames_cause, main_at, main_data};

use crate::columns::read_row;
use dvd_capture::parts::{AnswerRow, ColumnAnswer, Received, Sectors};
use dvd_capture::{Stage, Work};
use dvd_decoding::Cause;
use dvd_frame::{FrameCause, Scrambler, read_frame_into};
use dvd_layout::{BlockPlan, id_of, rule_of};
use rs_lanes::{load, store};

/// Checks the sixteen data frames of a block that two passes fixed, as those of an entry of a plan, and sets the
/// sectors to their unscrambled Main Data. After a cause, that of the first frame that has one, the sectors are zeros.
/// So nothing of an earlier block is left in them.
/// The stage and all else stay. It is for who has called `two_pass`, and may not know which rows the columns keep:
/// tests, so far.
pub fn sectors(work: &mut Work, plan: &BlockPlan) -> Result<(), Cause>
    requires stage { stage_of work.old ≡ Stage.Fixed }
    requires numbers { HasNumbers plan.now }
    ensures { AreFramesChecked work.old work.new plan.now result }
{
    // The columns have the whole block, whichever rows the passes changed.
    sectors_of_block(work, plan, FrameSource::Columns)
}

/// Where the rows of a block that two passes fixed are read. They are whole in the received rows and in the rows'
/// answers, and spread over all columns: each column has one byte of a row. So whole rows are read where there are any.
#[derive(Clone, Copy, Debug, PartialEq, Eq)]
pub(crate) enum FrameSource {
    /// In what was received, where the block is that.
    Received,
    /// In the rows' answers, where these hold the block.
    Answers,
    /// In the columns.
    Columns,
}

impl FrameSource {
    /// Where the rows of a block are read of which so many bytes were fixed, and which the rows' answers hold or may
    /// not.
    pub(crate) fn of(bytes: u32, are_held: bool) -> FrameSource
        ensures received { result ≡ FrameSource.Received → bytes ≡ 0 }
        ensures answers { result ≡ FrameSource.Answers → IsTrue are_held }
    {
        if bytes == 0 {
            FrameSource::Received
        } else if are_held {
            FrameSource::Answers
        } else {
            FrameSource::Columns
        }
    }
}

/// Checks the frames as `sectors` does, of rows that are read from this source. The source changes no answer, only
/// time. It is for callers that answered the passes and know whether the answers hold the block, as `end_reading` does.
pub(crate) fn sectors_of_block(
    work: &mut Work,
    plan: &BlockPlan,
    source: FrameSource,
) -> Result<(), Cause>
    requires stage { stage_of work.old ≡ Stage.Fixed }
    requires numbers { HasNumbers plan.now }
    requires received { source ≡ FrameSource.Received → block_differences (rows_of work.old) (block_of work.old) ≡ 0 }
    requires answers { source ≡ FrameSource.Answers → AreRowsHeld (answers_of_work work.old) (block_of work.old) }
    ensures { AreFramesChecked work.old work.new plan.now result }
{
    let answers = work.answers.rows();
    let columns = work.columns.all();
    let sectors = &mut work.sectors;
    match read_frames(&work.received, answers, columns, source, plan, sectors) {
        Ok(()) => Ok(()),
        Err(cause) => {
            // Frames before the cause are written already.
            work.blank();
            Err(cause)
        }
    }
}

// Reads the frames of the block of these columns into the sectors, up to the first that has a cause. After a cause the
// sectors mean nothing, so no clause is of them: the caller sets them to zeros. Buffers are lent one by one, since the
// others are read while the sectors are written.
fn read_frames(
    received: &Received,
    answers: &[AnswerRow],
    columns: &[ColumnAnswer],
    source: FrameSource,
    plan: &BlockPlan,
    sectors: &mut Sectors,
) -> Result<(), Cause>
    requires rows { length answers.now ≡ 208 }
    requires columns { length columns.now ≡ 182 }
    requires received { source ≡ FrameSource.Received → block_differences (received_rows received.now) (from_columns (words_of_columns columns.now)) ≡ 0 }
    requires answers { source ≡ FrameSource.Answers → AreRowsHeld answers.now (from_columns (words_of_columns columns.now)) }
    requires numbers { HasNumbers plan.now }
    ensures refused { IfErr result (λ cause. frames_cause (from_columns (words_of_columns columns.now)) plan.now ≡ Some cause) }
    ensures right { OnOk result (frames_cause (from_columns (words_of_columns columns.now)) plan.now ≡ None) }
    ensures main { OnOk result (sector_bytes sectors.new ≡ main_data (from_columns (words_of_columns columns.now)) plan.now) }
{
    // The frames of a block have one preset, so that the scrambling bytes are made once and serve all sixteen.
    let mut scrambler = Scrambler::new();
    let mut frame = [0; 2064];
    for f in 0..16usize {
        get_frame(received, answers, columns, source, f, &mut frame);
        // An ID is compared without b29, which a disk with two layers sets: `false` will do for both. `rule` says which
        // bytes of the frame are scrambled.
        let want = id_of(plan, false, f);
        let rule = rule_of(plan.content, f);
        let main = sectors.sector_mut(f);
        if let Err(cause) = read_frame_into(&mut scrambler, &frame, want, rule, main) {
            return Err(cause_of(f as u8, cause));
        }
    }
    Ok(())
}

/// Reads data frame `f` of a block as that of an entry of a plan: checks it, and writes its unscrambled Main Data.
/// After a cause these mean nothing. It is for blocks that aren't in a `Work`, as dvd_deep has them. The scrambling
/// bytes are made for this frame alone, where `read_frames` makes them once for sixteen. b29 of an ID isn't compared,
/// so `false` will do for it here too.
pub fn read_frame_at(
    rows: &[[u8; 182]; 208],
    plan: &BlockPlan,
    f: usize,
    main: &mut [u8; 2048],
) -> Result<(), Cause>
    requires numbers { HasNumbers plan.now }
    requires frame { f < 16 }
    ensures refused { IfErr result (λ cause. fault_at rows.now plan.now f ≡ Some cause) }
    ensures right { OnOk result (fault_at rows.now plan.now f ≡ None) }
    ensures main { OnOk result (main.new ≡ main_at rows.now plan.now f) }
{
    let mut frame = [0; 2064];
    copy_received(rows, f, &mut frame);
    let want = id_of(plan, false, f);
    let rule = rule_of(plan.content, f);
    match read_frame_into(&mut Scrambler::new(), &frame, want, rule, main) {
        Ok(()) => Ok(()),
        Err(cause) => Err(cause_of(f as u8, cause)),
    }
}

// A cause of a frame, as that of a block: with the frame's number. dvd_frame knows one frame, and not which it is.
fn cause_of(f: u8, cause: FrameCause) -> Cause
    ensures { result ≡ cause_in f cause }
{
    match cause {
        FrameCause::Ied => Cause::Ied { f },
        FrameCause::Address { found } => Cause::Address { f, found },
        FrameCause::Edc => Cause::Edc { f },
    }
}

// Writes frame `f` of the block of these columns, whose rows are read from this source: by the clauses each source that
// may be given has the same bytes.
fn get_frame(
    received: &Received,
    answers: &[AnswerRow],
    columns: &[ColumnAnswer],
    source: FrameSource,
    f: usize,
    frame: &mut [u8; 2064],
)
    requires rows { length answers.now ≡ 208 }
    requires columns { length columns.now ≡ 182 }
    requires received { source ≡ FrameSource.Received → block_differences (received_rows received.now) (from_columns (words_of_columns columns.now)) ≡ 0 }
    requires answers { source ≡ FrameSource.Answers → AreRowsHeld answers.now (from_columns (words_of_columns columns.now)) }
    requires frame { f < 16 }
    ensures { frame.new ≡ frame_of (from_columns (words_of_columns columns.now)) f }
{
    match source {
        FrameSource::Received => copy_received(received.rows(), f, frame),
        FrameSource::Answers => copy_held(answers, f, frame),
        FrameSource::Columns => copy_frame(columns, f, frame),
    }
}

// Writes frame `f` of the rows' answers, which hold the block. Also ensures that they have 182 bytes, as
// `copy_received` does.
fn copy_held(answers: &[AnswerRow], f: usize, frame: &mut [u8; 2064])
    requires rows { length answers.now ≡ 208 }
    requires frame { f < 16 }
    ensures frame { frame.new ≡ frame_of (answer_bytes answers.now) f }
    ensures widths { (q : ℕ) → q < 12 → length (line (answer_bytes answers.now) (12 * f + q)) ≡ 182 }
{
    for q in 0..12usize {
        put_data(frame, 172 * q, &answers[12 * f + q].bytes);
    }
}

// Writes frame `f` of these rows: rows 12f to 12f + 11, as the rows from 192 on are outer parity. Also ensures that
// they have 182 bytes, by which two rows that differ nowhere are equal.
fn copy_received(rows: &[[u8; 182]], f: usize, frame: &mut [u8; 2064])
    requires rows { length rows.now ≡ 208 }
    requires frame { f < 16 }
    ensures frame { frame.new ≡ frame_of rows.now f }
    ensures widths { (q : ℕ) → q < 12 → length (line rows.now (12 * f + q)) ≡ 182 }
{
    for q in 0..12usize {
        put_data(frame, 172 * q, &rows[12 * f + q]);
    }
}

/// Writes frame `f` of the block of these columns. Each row is first gathered whole, and its ten bytes of inner parity
/// are then left out, so that `put_data` is the one place that knows what a frame has of a row.
pub(crate) fn copy_frame(columns: &[ColumnAnswer], f: usize, frame: &mut [u8; 2064])
    requires columns { length columns.now ≡ 182 }
    requires frame { f < 16 }
    ensures { frame.new ≡ frame_of (from_columns (words_of_columns columns.now)) f }
{
    let mut row = [0; 182];
    for q in 0..12usize {
        read_row(columns, 12 * f + q, &mut row);
        put_data(frame, 172 * q, &row);
    }
}

/// Writes the first 172 bytes of a row after what comes before them: the last ten are inner parity. A frame is written
/// from its first row on, since only the bytes before `at` are ensured to stay. `width` is for callers' proofs, which
/// don't know the length of a row in a list. They are copied as six vectors, as `copy_row` of rs_lanes copies a row: the
/// last begins at place 140 and writes some bytes again, as 172 is no multiple of 32.
pub(crate) fn put_data(frame: &mut [u8; 2064], at: usize, row: &[u8; 182])
    requires { at + 172 ≤ 2064 }
    ensures prefix { take (at + 172) frame.new ≡ take at frame.old ++ take 172 row.now }
    ensures width { length row.now ≡ 182 }
{
    for piece in 0..5usize {
        store(load(row, 32 * piece), frame, at + 32 * piece);
    }
    store(load(row, 140), frame, at + 140);
}
