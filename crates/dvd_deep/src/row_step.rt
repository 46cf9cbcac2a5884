//! The row step of a round: each row that has a codeword near it becomes that and loses its marks. The code, with its
//! generator polynomial, is made once for all rows. In clauses `AreWide` says that each row has 182 bytes: the type has
//! this too, but of an array in a list the checker doesn't know the length, so the step ensures it for the next one.
ghost use Rattle.std.specs.Prelude.{◌≡◌, ◌+◌, ◌<◌, ◌≤◌, ℕ, false, if◌then◌else◌, is_some, length, replicate, slice_set, unwrap_or};
ghost use Rattle.coding.specs.Field.{alpha, power};
ghost use Rattle.coding.specs.Product.{line, place};
ghost use Rattle.coding.specs.Words.{value};
ghost use Rattle.dvd_capture.specs.Parts.{marks_of_rows};
ghost use Rattle.dvd_deep.specs.Inner.Buffers.{buffered_state};
ghost use Rattle.dvd_deep.specs.Rounds.{State, failed_marks, row_near, row_step};
ghost use Rattle.dvd_deep.specs.Inner.Steps.{AreWide, IsStepped};

use crate::rounds::{Marks, Rows};
use dvd_capture::RowMarks;
use dvd_read::{FailedRows, RowGroup};
use rs_code::Pi;
use rs_lanes::row_values;

/// Answers all rows. Returns which of them fail, which the column step needs.
pub(crate) fn answer_rows(rows: &mut Rows, marks: &mut Marks) -> FailedRows
    ensures state { buffered_state rows.new marks.new ≡ row_step (buffered_state rows.old marks.old) }
    ensures failed { result.marks ≡ failed_marks (buffered_state rows.old marks.old) }
    ensures wide { AreWide rows.new }
{
    let code = Pi::new();
    let mut failed = FailedRows::none();
    for group in 0..6usize {
        answer_row_group(&code, 32 * group, 32 * group + 32, rows, marks, &mut failed);
    }
    // 208 is no multiple of 32: sixteen rows are left.
    answer_row_group(&code, 192, 208, rows, marks, &mut failed);
    failed
}

// Answers the rows from `start` on that are before `end`, at most 32: dvd_read finds the codewords near them by their
// values. In clauses `IsStepped` says how far the row step of a state has come.
fn answer_row_group(
    code: &Pi,
    start: usize,
    end: usize,
    rows: &mut Rows,
    marks: &mut Marks,
    failed: &mut FailedRows,
)
    requires within { (start ≤ end) × (end ≤ 208) }
    requires few { end ≤ start + 32 }
    ensures height { length marks.new ≡ 208 }
    ensures stepped { (state : State) → IsStepped state rows.old (marks_of_rows marks.old) failed.old.marks start
        → IsStepped state rows.new (marks_of_rows marks.new) failed.new.marks end }
{
    // Values are found for 32 rows, also where fewer are left: the last 32 begin at row 176.
    let top = start.min(176);
    let values = row_values(rows, top);
    let group = RowGroup::new(code, &values, start - top, &marks[start..end]);
    for i in start..end {
        if !answer_row(&group, i - top, rows, marks, i) {
            failed.note(i);
        }
    }
}

// Answers row `i`, which has lane `n` of the group: if there is a codeword near it, the row becomes that and loses its
// marks. Returns whether there is one. It is lent all rows, so that its clauses say that the others stay; `wide` and
// `height` are for callers' proofs. What was corrected isn't asked for: no line of `deep` counts it.
fn answer_row(group: &RowGroup, n: usize, rows: &mut Rows, marks: &mut Marks, i: usize) -> bool
    requires row { i < 208 }
    requires lane { n < 32 }
    requires width { length (line rows.old i) ≡ 182 }
    requires values { (k : ℕ) → k < 10 → place group.now.values k n ≡ value (line rows.old i) (power alpha k) }
    ensures answered { result ≡ is_some (row_near (buffered_state rows.old marks.old) i) }
    ensures row { rows.new ≡ slice_set rows.old i (unwrap_or (row_near (buffered_state rows.old marks.old) i) (line rows.old i)) }
    ensures wide { length (line rows.new i) ≡ 182 }
    ensures marks { marks_of_rows marks.new ≡ (if result then slice_set (marks_of_rows marks.old) i (replicate 182 false) else marks_of_rows marks.old) }
    ensures height { length marks.new ≡ 208 }
{
    // A copy, since the row stays where no codeword is near it.
    let mut word = [0; 182];
    let answered = group.answer(n, &rows[i], &marks[i], &mut word).is_some();
    if answered {
        rows[i] = word;
        marks[i] = RowMarks::none();
    }
    answered
}
