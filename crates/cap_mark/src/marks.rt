//! The marks of a row, and the rows of a recording frame. A map speaks of bytes and a mark is a bit: what it says of a
//! row is first a byte for each place, of which dvd_capture makes the bits.
//!
//! A frame has thirteen rows of 182 bytes, and each row gets 23 bytes of marks: 205. A span is a run of bytes of which
//! the map says one thing. `start` is the number in the capture of a row's first byte, and a place is a number within
//! the row. The bounds on `start` say that sums with it fit 64 bits.
ghost use Rattle.std.specs.Prelude.{◌≡◌, ◌<◌, ◌≤◌, ◌+◌, ◌*◌, ◌^◌, ◌++◌, ℕ, [], length, slice_index};
ghost use Rattle.arrayvec.specs.ArrayVec.{array_vec_len};
ghost use Rattle.cap_mark.specs.Frames.{marked_rows};
ghost use Rattle.cap_mark.specs.Marks.{is_marked, row_mark_bytes};
ghost use Rattle.dvd_capture.specs.MarkBits.{is_other};

use crate::walk::{is_rescued, spans_from, whole_row};
use arrayvec::ArrayVec;
use cap_map::Span;
use dvd_capture::RowMarks;

/// A recording frame with its marks: thirteen rows of 205 bytes.
pub type MarkedFrame = ArrayVec<u8, 2665>;

// What is said of a rescued byte, as `bool` is a number; 0 is said of any other.
const RESCUED: u8 = 1;

/// Puts the thirteen rows of a frame, the first byte of which has this number, each with its marks. The bytes are
/// copied as they came, lost ones too. Spans that end at or before the first byte of a row are passed for all rows
/// after it: the span of a byte is the first that ends after it, so that these are the span of no byte from there on.
/// So nothing rests on the order of the spans. Those of `read_map` ascend without a gap from byte 0, so the bytes that
/// no span has are those after the last: they aren't rescued, and get marks. `frame` and `spans` stay.
pub fn put_rows(spans: &[Span], start: u64, frame: &[u8; 2366], out: &mut MarkedFrame)
    requires empty { out.old.items ≡ [] }
    requires start { start < 2 ^ 63 }
    ensures { out.new.items ≡ marked_rows spans.now start frame.now 13 }
{
    let mut left = spans;
    for n in 0..13 {
        let first = start + 182 * n as u64;
        left = spans_from(left, first);
        put(out, &frame[182 * n..182 * n + 182]);
        put_marks(left, first, out);
    }
}

// Puts bytes at the end of the frame.
fn put(out: &mut MarkedFrame, bytes: &[u8])
    requires { array_vec_len out.old + length bytes.now ≤ 2665 }
    ensures items { out.new.items ≡ out.old.items ++ bytes.now }
    ensures len { array_vec_len out.new ≡ array_vec_len out.old + length bytes.now }
{
    // It can't fail: the clause says that there is room. So the answer is dropped.
    let _ = out.try_extend_from_slice(bytes);
}

// Puts the mark bytes of a row.
fn put_marks(spans: &[Span], start: u64, out: &mut MarkedFrame)
    requires room { array_vec_len out.old + 23 ≤ 2665 }
    requires start { start + 182 < 2 ^ 64 }
    ensures items { out.new.items ≡ out.old.items ++ row_mark_bytes spans.now start }
    ensures len { array_vec_len out.new ≡ array_vec_len out.old + 23 }
{
    let marks = RowMarks::where_not(RESCUED, &rescued_places(spans, start));
    put(out, marks.bits());
}

// A byte for each place of a row, which says whether its byte is rescued. Nearly all rows are rescued or lost as a
// whole, so that few go place by place.
fn rescued_places(spans: &[Span], start: u64) -> [u8; 182]
    requires { start + 182 < 2 ^ 64 }
    ensures { (j : ℕ) → j < 182 → is_other 1 (slice_index result j) ≡ is_marked spans.now start j }
{
    match whole_row(spans, start) {
        Some(rescued) => [u8::from(rescued); 182],
        None => places_one_by_one(spans, start),
    }
}

// The same for any row. Spans before a place are passed as in `put_rows`, so that the first that is left has it.
fn places_one_by_one(spans: &[Span], start: u64) -> [u8; 182]
    requires { start + 182 < 2 ^ 64 }
    ensures { (j : ℕ) → j < 182 → is_other 1 (slice_index result j) ≡ is_marked spans.now start j }
{
    let mut places = [0; 182];
    let mut left = spans;
    for j in 0..182usize {
        let byte = start + j as u64;
        left = spans_from(left, byte);
        places[j] = u8::from(is_rescued(left, byte));
    }
    places
}
