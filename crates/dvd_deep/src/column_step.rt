//! The column step of a round: each column that has a codeword near it becomes that and loses its marks. The code, with
//! its generator polynomial, is made once for all columns. In clauses `AreWide` says that each row has 182 bytes, by
//! which a byte that is set at place `j` of a row is proved to be there: the type has this too, but of an array in a
//! list the checker doesn't know the length.
ghost use Rattle.std.specs.Prelude.{◌≡◌, ◌+◌, ◌<◌, ◌≤◌, ℕ, false, is_some, length, slice_index_or, unwrap_or};
ghost use Rattle.std.specs.List.{list_all};
ghost use Rattle.coding.specs.Field.{alpha, power};
ghost use Rattle.coding.specs.Product.{column, place};
ghost use Rattle.coding.specs.Words.{value};
ghost use Rattle.dvd_capture.specs.Parts.{marks_of_row, marks_of_rows};
ghost use Rattle.dvd_deep.specs.Inner.Buffers.{buffered_state};
ghost use Rattle.dvd_deep.specs.Rounds.{State, are_answered, column_near, column_step};
ghost use Rattle.dvd_deep.specs.Inner.Steps.{AreMarksTaken, AreStepped, AreTold, AreWide, IsColumnPut, mark_left};
ghost use Rattle.rs_decode.specs.Patches.{Completes};

use crate::rounds::{Marks, Rows};
use crate::tries::Tries;
use dvd_capture::RowMarks;
use dvd_read::ColumnGroup;
use rs_code::Po;
use rs_decode::Patches;
use rs_lanes::column_values;

/// Answers all columns. Returns whether all are answered. An answered column loses its own marks alone, which no other
/// column reads, so that all are cleared at the end.
pub(crate) fn answer_columns(rows: &mut Rows, marks: &mut Marks, failed: &[bool; 208]) -> bool
    requires wide { AreWide rows.old }
    ensures state { buffered_state rows.new marks.new ≡ column_step failed.now (buffered_state rows.old marks.old) }
    ensures answered { result ≡ are_answered failed.now (buffered_state rows.old marks.old) }
{
    let code = Po::new();
    let mut answered = [false; 182];
    let tries = Tries::new(failed, marks);
    // Also past a column without an answer: each that is answered may help a row of the next round. Their order doesn't
    // matter, since each reads and writes its own bytes alone.
    for group in 0..5usize {
        answer_column_group(
            &code,
            &tries,
            32 * group,
            32 * group + 32,
            rows,
            &mut answered,
        );
    }
    // 182 is no multiple of 32: 22 columns are left.
    answer_column_group(&code, &tries, 160, 182, rows, &mut answered);
    take_marks(marks, &answered);
    are_all(&answered)
}

// Whether all columns are answered.
fn are_all(answered: &[bool; 182]) -> bool
    ensures { result ≡ list_all (λ is. is) answered.now }
{
    answered.iter().all(|is| *is)
}

// Answers the columns from `start` on that are before `end`, at most 32: dvd_read finds the codewords near them by
// their values. Notes which are answered. In clauses `AreStepped` says how far the column step of a state has come, and
// `AreTold` that this is noted of the columns before one.
fn answer_column_group(
    code: &Po,
    tries: &Tries,
    start: usize,
    end: usize,
    rows: &mut Rows,
    answered: &mut [bool; 182],
)
    requires within { (start ≤ end) × (end ≤ 182) }
    requires few { end ≤ start + 32 }
    requires wide { AreWide rows.old }
    ensures stepped { (state : State) → length state.rows ≡ 208 → state.marks ≡ marks_of_rows tries.now.marks.now → AreStepped tries.now.failed.now state rows.old start
        → AreStepped tries.now.failed.now state rows.new end }
    ensures told { (state : State) → length state.rows ≡ 208 → state.marks ≡ marks_of_rows tries.now.marks.now → AreStepped tries.now.failed.now state rows.old start
        → AreTold tries.now.failed.now state answered.old start → AreTold tries.now.failed.now state answered.new end }
{
    // Values are found for 32 columns, also where fewer are left: the last 32 begin at column 150.
    let left = start.min(150);
    let values = column_values(rows, left);
    let group = ColumnGroup::new(code, &values);
    let patches = tries.patches(&values);
    for j in start..end {
        answered[j] = answer_column(&group, &patches, tries, j - left, rows, j);
    }
}

// Answers column `j`, which has lane `n` of the group: if the first or the second try finds a codeword, the column
// becomes that. Returns whether one is found. It is decoded as a copy, since its bytes lie in all rows; where none is
// found nothing changes. What was corrected isn't asked for: no line of `deep` counts it.
fn answer_column(
    group: &ColumnGroup,
    patches: &Patches,
    tries: &Tries,
    n: usize,
    rows: &mut Rows,
    j: usize,
) -> bool
    requires place { j < 182 }
    requires wide { AreWide rows.old }
    requires lane { n < 32 }
    requires values { (k : ℕ) → k < 16 → place group.now.values k n ≡ value (column rows.old j) (power alpha k) }
    requires completes { Completes patches.now tries.now.failed.now n (column rows.old j) }
    ensures answered { result ≡ is_some (column_near tries.now.failed.now (buffered_state rows.old tries.now.marks.now) j) }
    ensures column { IsColumnPut j (unwrap_or (column_near tries.now.failed.now (buffered_state rows.old tries.now.marks.now) j) (column rows.old j)) rows.old rows.new }
    ensures wide { AreWide rows.new }
{
    let mut word = [0; 208];
    read_column(rows, j, &mut word);
    if !tries.answer(group, patches, n, j, &mut word) {
        return false;
    }
    put_column(rows, j, &word);
    true
}

// Copies column `j`, whose bytes are one in each row, since a decoder reads them side by side.
fn read_column(rows: &Rows, j: usize, word: &mut [u8; 208])
    requires { j < 182 }
    ensures { word.new ≡ column rows.now j }
{
    for i in 0..208usize {
        word[i] = rows[i][j];
    }
}

// Sets column `j`, its byte in each row, and nothing else.
fn put_column(rows: &mut Rows, j: usize, word: &[u8; 208])
    requires place { j < 182 }
    requires wide { AreWide rows.old }
    ensures column { IsColumnPut j word.now rows.old rows.new }
    ensures wide { AreWide rows.new }
{
    for i in 0..208usize {
        rows[i][j] = word[i];
    }
}

// Clears the marks of the answered columns, row by row, as marks are kept by rows.
fn take_marks(marks: &mut Marks, answered: &[bool; 182])
    ensures taken { AreMarksTaken answered.now (marks_of_rows marks.old) (marks_of_rows marks.new) }
    ensures height { length marks.new ≡ 208 }
{
    for i in 0..208usize {
        take_row_marks(&mut marks[i], answered);
    }
}

// Clears them in one row.
fn take_row_marks(row: &mut RowMarks, answered: &[bool; 182])
    ensures { (j : ℕ) → j < 182 → slice_index_or (marks_of_row row.new) j false ≡ mark_left answered.now (marks_of_row row.old) j }
{
    // Most rows have no mark.
    if row.is_clear() {
        return;
    }
    for j in 0..182usize {
        if answered[j] {
            row.set(j, false);
        }
    }
}
