//! The marks of a block by its places in the order of recording: place 182 m + j is place j of recorded row m. Runs of
//! the listed form go by these places, and `Marks` by the rows of the block: `row_of_record` leads from one to the
//! other.
ghost use Rattle.std.specs.Prelude.{◌≡◌, ◌≢◌, ℕ, ◌<◌, ◌≤◌, ◌&&◌, ◌||◌, true, nat_le, nat_lt};
ghost use Rattle.dvd_capture.specs.Listed.{mark_of};
ghost use Rattle.dvd_capture.specs.Inner.Listing.{IsFound, starts_below};
ghost use Rattle.dvd_capture.specs.Parts.{marks_rows};

use crate::parts::Marks;
use dvd_block::row_of_record;

/// The places of a block: 208 times 182. A place has one byte, so it is the number of bytes of the rows too.
pub(crate) const PLACES: usize = 37_856;

// Marks a place, and no other.
fn mark_place(marks: &mut Marks, place: usize)
    requires { place < 37_856 }
    ensures others { (other : ℕ) → other < 37_856 → other ≢ place → mark_of (marks_rows marks.new) other ≡ mark_of (marks_rows marks.old) other }
    ensures same { mark_of (marks_rows marks.new) place ≡ true }
{
    marks.set(row_of_record(place / 182), place % 182, true);
}

/// Marks the places from `start` to before `end`, and no others. They go one by one: in the order of recording a run
/// may go on in a row that is elsewhere in the block.
pub(crate) fn mark_places(marks: &mut Marks, start: usize, end: usize)
    requires order { start ≤ end }
    requires within { end ≤ 37_856 }
    ensures { (place : ℕ) → place < 37_856
        → mark_of (marks_rows marks.new) place ≡ (mark_of (marks_rows marks.old) place || (nat_le start place && nat_lt place end)) }
{
    for place in start..end {
        mark_place(marks, place);
    }
}

/// The first place from `from` on whose mark is this, or the number of places, which is no place. Only the row of
/// `from` is looked at from within, and all after it from their first place. Where `from` is the number of places, none
/// is.
pub(crate) fn next_place(marks: &Marks, from: usize, marked: bool) -> usize
    requires { from ≤ 37_856 }
    ensures { IsFound (mark_of (marks_rows marks.now)) marked from 37_856 result }
{
    let mut start = from % 182;
    // Row by row: within one, eight places alike are passed at once.
    for m in from / 182..208 {
        let place = marks.next(row_of_record(m), start, marked);
        if place < 182 {
            return 182 * m + place;
        }
        start = 0;
    }
    PLACES
}

/// How many runs the marked places are: one starts at each marked place that has no marked place just before it. They
/// are counted before they are written, since their number comes first. It goes from the end of one run to the start of
/// the next, as `list_runs` does.
pub(crate) fn count_runs(marks: &Marks) -> usize
    ensures { result ≡ starts_below (mark_of (marks_rows marks.now)) 37_856 }
{
    let mut count = 0;
    let mut end = 0;
    while end < PLACES {
        let start = next_place(marks, end, true);
        if start == PLACES {
            return count;
        }
        end = next_place(marks, start, false);
        count += 1;
    }
    count
}
