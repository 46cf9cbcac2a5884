//! The runs of marked places of a block as fields: put one after the other, and taken as they come. A field is a number
//! of two bytes, the most significant first. A run has two fields, its start and its length; its end is their sum, the
//! place after its last.
ghost use Rattle.std.specs.Prelude.{◌≡◌, ℕ, ◌+◌, ◌*◌, ◌<◌, ◌≤◌, ◌⊎◌, List, [], ◌++◌, length, take, IfOk, IfErr, OnOk};
ghost use Rattle.std.specs.Int.{to_be_bytes, w16};
ghost use Rattle.arrayvec.specs.ArrayVec.{array_vec_len};
ghost use Rattle.dvd_capture.specs.Listed.{field_at, mark_of};
ghost use Rattle.dvd_capture.specs.Inner.Listing.{AreFields, BreaksIn, HasFields, HasRuns, IsBadMarks};
ghost use Rattle.dvd_capture.specs.Parts.{marks_rows};
ghost use Rattle.dvd_capture.specs.declared.capture.FetchAnswer.TheVariants.{BadMarks};

use crate::capture::FetchAnswer;
use crate::parts::Marks;
use crate::places::{PLACES, count_runs, mark_places, next_place};
use arrayvec::ArrayVec;
use byteorder::{BigEndian, ByteOrder};

/// The most runs that a block has: every other place is marked. Two runs have an unmarked place between them, so there
/// are at most half as many as places.
pub(crate) const MOST_RUNS: usize = 18_928;

/// The fields after the rows of a block: the number of its runs, and two for each. Each field is two bytes: 2 and 4 ×
/// 18,928. Writers put all of them in one; readers take the number by itself, and have the fields of the runs here.
/// They are on the stack, since nothing is allocated once blocks are read. The list has a capacity and no heap.
pub(crate) type Fields = ArrayVec<u8, 75_714>;

/// How many runs were taken, and where the last of them ends. Before the first run both are 0: so an end of 0 says
/// nothing of the first place, and `check_start` asks for the number of runs too.
#[derive(Clone, Copy)]
pub(crate) struct Taken {
    pub runs: usize,
    pub end: usize,
}

/// Puts the number of runs and then each run. A run goes from the next marked place to the next that isn't, so that no
/// two touch, as the readers of the form demand. The runs are found a second time after they were counted, since the
/// number comes first and a list only grows at its end.
pub(crate) fn list_runs(marks: &Marks, fields: &mut Fields)
    requires { fields.old.items ≡ [] }
    ensures { (before : List ℕ) → length before ≡ 37_856 → AreFields before (mark_of (marks_rows marks.now)) fields.new.items }
{
    let number = count_runs(marks);
    put_field(fields, number);
    let mut end = 0;
    for _run in 0..number {
        let start = next_place(marks, end, true);
        end = next_place(marks, start, false);
        put_field(fields, start);
        put_field(fields, end - start);
    }
}

// Puts a field. The greatest value is a length of 37,856, where all places are one run.
fn put_field(fields: &mut Fields, value: usize)
    requires value { value ≤ 37_856 }
    requires room { array_vec_len fields.old + 2 ≤ 75_714 }
    ensures items { fields.new.items ≡ fields.old.items ++ to_be_bytes w16 value }
    ensures len { array_vec_len fields.new ≡ array_vec_len fields.old + 2 }
{
    // There is room for the most runs. Each value is below 37,857, which two bytes hold.
    let _ = fields.try_extend_from_slice(&(value as u16).to_be_bytes());
}

/// Takes the runs that are whole in these fields, after those that were taken before, and looks at the start of the
/// next one. The fields are all that came so far, and may be cut within a run or a field. Marks are only added. After a
/// broken rule the runs before it are marked. In the clauses `head` is what comes before the fields: the bytes of the
/// rows and the number of runs, which is `count`. 75,712 bytes are the fields of the most runs, two of two bytes each.
pub(crate) fn take_runs(
    marks: &mut Marks,
    fields: &[u8],
    taken: Taken,
) -> Result<Taken, FetchAnswer>
    requires size { length fields.now ≤ 75_712 }
    requires before { 4 * taken.runs ≤ length fields.now }
    ensures taken { (head : List ℕ) (count : ℕ) → length fields.now ≤ 4 * count
        → HasRuns (head ++ take (4 * taken.runs) fields.now) count taken.runs taken.end (mark_of (marks_rows marks.old))
        → IfOk result (HasFields head count fields.now (mark_of (marks_rows marks.new))) }
    ensures broken { (head : List ℕ) (count : ℕ) → length fields.now ≤ 4 * count
        → HasRuns (head ++ take (4 * taken.runs) fields.now) count taken.runs taken.end (mark_of (marks_rows marks.old))
        → IfErr result (BreaksIn (head ++ fields.now)) }
    ensures within { IfOk result (λ now. 4 * now.runs ≤ length fields.now) }
    ensures bad { IfErr result IsBadMarks }
{
    // Runs taken before aren't looked at again: their marks are set.
    let mut taken = taken;
    for i in taken.runs..fields.len() / 4 {
        let start = field(fields, 4 * i);
        let length = field(fields, 4 * i + 2);
        check_start(i, start, taken.end)?;
        check_length(i, start, length)?;
        mark_places(marks, start, start + length);
        taken = Taken {
            runs: i + 1,
            end: start + length,
        };
    }
    // Two or three bytes after the last whole run have the next start whole. So a wrong one is reported before its
    // length has come.
    if fields.len() % 4 >= 2 {
        check_start(taken.runs, field(fields, 4 * taken.runs), taken.end)?;
    }
    Ok(taken)
}

// The field at an offset, which counts from the first run's start.
fn field(fields: &[u8], offset: usize) -> usize
    requires { offset + 2 ≤ length fields.now }
    ensures value { result ≡ field_at fields.now offset }
    ensures small { result < 65_536 }
{
    usize::from(BigEndian::read_u16(&fields[offset..offset + 2]))
}

// Run `i` starts at a place of the block, above the end of the one before. A run that goes on where the one before ends
// would be a second spelling of the same marks. The first run has none before it, and may start at place 0. `end` is
// then any number. `i` is below the most runs, so that the offset that is reported fits 32 bits. The offset counts from
// the unit's first byte: the rows, two bytes for the number of runs, and four for each run before.
fn check_start(i: usize, start: usize, end: usize) -> Result<(), FetchAnswer>
    requires { i < 18_928 }
    ensures valid { OnOk result ((start < 37_856) × (0 < i → end < start)) }
    ensures breaks { IfErr result (λ answer. (answer ≡ BadMarks (37_858 + 4 * i)) × ((37_856 ≤ start) ⊎ ((0 < i) × (start ≤ end)))) }
{
    if start >= PLACES || (i > 0 && start <= end) {
        return Err(FetchAnswer::BadMarks {
            at: (PLACES + 2 + 4 * i) as u32,
        });
    }
    Ok(())
}

// It has a place, and none beyond the block's last one. Start and length are two rules, since each field that breaks
// one is reported with its own offset: the number of runs has two bytes, and a run has four.
fn check_length(i: usize, start: usize, length: usize) -> Result<(), FetchAnswer>
    requires i { i < 18_928 }
    requires start { start < 37_856 }
    requires length { length < 65_536 }
    ensures valid { OnOk result ((0 < length) × (start + length ≤ 37_856)) }
    ensures breaks { IfErr result (λ answer. (answer ≡ BadMarks (37_860 + 4 * i)) × ((length ≡ 0) ⊎ (37_856 < start + length))) }
{
    if length == 0 || start + length > PLACES {
        return Err(FetchAnswer::BadMarks {
            at: (PLACES + 4 + 4 * i) as u32,
        });
    }
    Ok(())
}
