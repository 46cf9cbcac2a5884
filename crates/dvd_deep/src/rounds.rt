//! Rounds over the state of a search: a row step, a column step, and the test whether the round finishes. The state is
//! the rows of a block with a mark for each place. A row or column is answered where a codeword is near it: it becomes
//! that and loses its marks. Others stay as they are, for the next round. A round finishes where all columns are
//! answered, and all rows are codewords after that.
//! `HasBlock` says that a block was received: `Work` has no rows to read before.
ghost use Rattle.std.specs.Prelude.{◌≡◌, ◌↔◌, ◌+◌, ◌<◌, ◌≤◌, ℕ, IsTrue, true, IfSome, length};
ghost use Rattle.std.specs.List.{list_all};
ghost use Rattle.coding.specs.Nearest.{vanishes_at_all};
ghost use Rattle.coding.specs.Product.{line};
ghost use Rattle.dvd_capture.specs.Rule.{HasBlock};
ghost use Rattle.dvd_capture.specs.Works.{marks_of_work, rows_of, stage_of};
ghost use Rattle.dvd_deep.specs.Inner.Buffers.{buffered_state};
ghost use Rattle.dvd_deep.specs.Rounds.{after_rounds, finishes, first_round, round, state_in};

use crate::column_step::answer_columns;
use crate::row_step::answer_rows;
use dvd_capture::{RowMarks, Work};
use rs_lanes::{any_of, are_zeros, row_values};

/// The rows of a block: 37,856 bytes.
pub(crate) type Rows = [[u8; 182]; 208];

/// The marks of these rows: 4,784 bytes.
pub(crate) type Marks = [RowMarks; 208];

// The most rounds of a search. Each is two passes more, so that their number bounds the work for a block. Another bound
// would do; the tests have damage that takes each number of rounds up to four, and one more.
const MOST_ROUNDS: u8 = 4;

/// Sets rows and marks to those of a received block. They are copies, since rounds change both.
pub(crate) fn read_block(work: &Work, rows: &mut Rows, marks: &mut Marks)
    requires { HasBlock (stage_of work.now) }
    ensures { buffered_state rows.new marks.new ≡ state_in (rows_of work.now) (marks_of_work work.now) }
{
    for i in 0..208usize {
        rows[i] = *work.row(i);
        marks[i] = *work.row_marks(i);
    }
}

/// Plays up to four rounds. Returns the number of the first that finishes; rows and marks are then the state that it
/// leaves. Where none finishes they are what four rounds leave, of which nothing is said and which nobody reads.
pub(crate) fn play_rounds(rows: &mut Rows, marks: &mut Marks) -> Option<u8>
    ensures first { result ≡ first_round (buffered_state rows.old marks.old) }
    ensures state { IfSome result (λ t. buffered_state rows.new marks.new ≡ after_rounds t (buffered_state rows.old marks.old)) }
{
    for t in 1..=MOST_ROUNDS {
        if play_round(rows, marks) {
            return Some(t);
        }
    }
    None
}

// Plays one round. Returns whether it finishes. The failed rows are those of this round, and known to it alone: a row
// that failed before may be answered now. They aren't marks of the state, since a failed row isn't marked as a whole
// for the next row step.
fn play_round(rows: &mut Rows, marks: &mut Marks) -> bool
    ensures state { buffered_state rows.new marks.new ≡ round (buffered_state rows.old marks.old) }
    ensures finishes { result ≡ finishes (buffered_state rows.old marks.old) }
{
    let failed = answer_rows(rows, marks);
    let answered = answer_columns(rows, marks, &failed.marks);
    // With a column that isn't answered no test of the rows is needed. With all answered, columns are codewords.
    answered && are_codewords(rows)
}

// Whether all rows are codewords. Columns are answered after rows, and may change a row that was a codeword. Rows alone
// are tested, as columns are codewords where this is asked.
fn are_codewords(rows: &Rows) -> bool
    ensures { result ≡ list_all (vanishes_at_all 10) rows.now }
{
    for group in 0..7usize {
        // 208 is no multiple of 32: the last of seven groups begins at row 176, and some rows are tested twice.
        if !group_are_codewords(rows, (32 * group).min(176)) {
            return false;
        }
    }
    true
}

// Whether the 32 rows from `top` on are codewords: their values at alpha^0 to alpha^9, the ten roots of PI, are all 0.
// A vector has a lane for each of 32 rows, so that they are tested at once.
fn group_are_codewords(rows: &[[u8; 182]], top: usize) -> bool
    requires { top + 32 ≤ length rows.now }
    ensures { IsTrue result ↔ ((n : ℕ) → n < 32 → vanishes_at_all 10 (line rows.now (top + n)) ≡ true) }
{
    are_zeros(any_of(&row_values(rows, top)))
}
