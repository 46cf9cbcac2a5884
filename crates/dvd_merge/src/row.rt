//! A row of a block, joined 32 places at a time: a vector has 32 bytes, and each of its lanes is one place. What is
//! done for each group of 32 is inlined, so that vectors needn't pass through memory.
ghost use Rattle.std.specs.Prelude.{◌≡◌, ℕ, ◌+◌, ◌*◌, ◌<◌, ◌≤◌};
ghost use Rattle.dvd_capture.specs.Parts.{marks_of_row};
ghost use Rattle.dvd_merge.specs.Inner.Rows.{AreJoined, at_place, joined_at};
ghost use Rattle.dvd_merge.specs.Join.{join_rows, seen_row};
ghost use Rattle.dvd_merge.specs.Planes.{row_of};

use crate::lanes::joined;
use dvd_capture::{RowMarks, SPREAD};
use rs_lanes::{load, store};

/// Joins each place of a received row: its byte, or nothing where it is marked.
pub(crate) fn take_row(
    values: &mut [u8; 182],
    codes: &mut [u8; 182],
    bytes: &[u8; 182],
    marks: &RowMarks,
)
    ensures { row_of values.new codes.new ≡ join_rows (row_of values.old codes.old) (seen_row bytes.now (marks_of_row marks.now)) }
{
    // Most rows have no mark, and then none has to be spread to a byte for each place. Zeros mark nothing, and are a
    // constant where `join_row` is inlined.
    if marks.is_clear() {
        join_row(values, codes, bytes, &[0; SPREAD]);
    } else {
        join_row(values, codes, bytes, &marks.spread());
    }
}

// Joins each place with its byte, or with nothing where the byte of its mark isn't 0. A place has a value, and a code
// that says what is known: no byte yet, that value, or that two bytes differed, which stays so. The marks are spread
// over 184 bytes, eight for each of the 23 mark bytes: the last two are spare, and no group of 32 reads them.
#[inline(always)]
fn join_row(values: &mut [u8; 182], codes: &mut [u8; 182], bytes: &[u8; 182], marks: &[u8; SPREAD])
    ensures { (k : ℕ) → k < 182 → at_place values.new codes.new k ≡ joined_at values.old codes.old bytes.now marks.now k }
{
    // The last two groups share places 150 to 159. These are joined twice by the same bytes, which changes nothing.
    for group in 0..6 {
        join_at(values, codes, bytes, marks, start_of(group));
    }
}

// Joins the 32 places from `at` on. All others stay.
#[inline(always)]
fn join_at(
    values: &mut [u8; 182],
    codes: &mut [u8; 182],
    bytes: &[u8; 182],
    marks: &[u8; SPREAD],
    at: usize,
)
    requires { at + 32 ≤ 182 }
    ensures { AreJoined values.old codes.old values.new codes.new bytes.now marks.now at }
{
    let (new_values, new_codes) = joined(
        load(values, at),
        load(codes, at),
        load(bytes, at),
        load(marks, at),
    );
    store(new_values, values, at);
    store(new_codes, codes, at);
}

/// Where a group of 32 places begins, of the six that have all places of a row. 182 is no multiple of 32. So that the
/// last group is full too, it begins within the one before it, at 182 less 32. The clauses show that a group leaves no
/// place out after the one before it, and that the last ends with the row.
#[inline(always)]
pub(crate) fn start_of(group: usize) -> usize
    requires { group < 6 }
    ensures fits { result + 32 ≤ 182 }
    ensures from { result ≤ 32 * group }
    ensures reach { 32 * group ≤ result + 32 }
    ensures last { result < 32 * group → result ≡ 150 }
{
    if group < 5 { 32 * group } else { 150 }
}
