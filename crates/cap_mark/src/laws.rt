//! What holds of every capture: each function's contract is one law, and its body is empty. Nothing calls them. They
//! are public because what they ensure is promised of the crate.
ghost use Rattle.std.specs.Prelude.{◌≡◌, ◌<◌, ℕ, List};
ghost use Rattle.cap_map.specs.declared.span.Span.{Span as MapSpan};
ghost use Rattle.cap_mark.specs.Capture.{MarksWhole};
ghost use Rattle.cap_mark.specs.Marks.{is_marked, row_mark_bytes};
ghost use Rattle.dvd_capture.specs.MarkBits.{mark_at};

/// Of the 23 mark bytes of a row, mark j, which is bit 7 - j % 8 of byte j / 8, is 1 exactly where the map doesn't call
/// byte j of the row rescued, for each j below 182. `start` is the number in the capture of the row's first byte.
/// Rescued is a byte whose first span that ends after it says so; the spans may be any.
pub fn marks_say_what_is_lost()
    ensures { (spans : List MapSpan) (start j : ℕ) → j < 182 → mark_at (row_mark_bytes spans start) j ≡ is_marked spans start j }
{}

/// A capture of fewer than 2^32 - 1 recording frames, which is as far as the loop counts, that is marked without a
/// failed read or write is read to its end, and all of its whole frames come out: thirteen rows of 182 bytes, each with
/// its 23 mark bytes. No line is reported. The end is `Short` and says how many bytes there are of a last frame that is
/// cut, 0 where none is; nothing of that frame comes out. It is said of all that `mark_loop` may do by its contract.
pub fn captures_are_marked_whole()
    ensures { MarksWhole }
{}
