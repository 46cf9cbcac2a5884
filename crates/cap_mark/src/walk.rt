//! The spans of a map from a byte on, so that the loop doesn't go over a span twice. `marking` does so for frames, and
//! `marks` for rows and bytes.
ghost use Rattle.std.specs.Prelude.{◌≡◌, ◌<◌, ◌≤◌, ◌+◌, ◌^◌, ℕ, IfSome};
ghost use Rattle.cap_map.specs.Spans.{is_rescued};
ghost use Rattle.cap_mark.specs.Walk.{AgreeFrom};

use cap_map::Span;

/// The spans without those before them that end at or before byte `place`. They say the same from that byte on. The
/// loop goes up, so that few are passed each time. They are a part of the same list: nothing is copied.
pub fn spans_from<'a>(spans: &'a [Span], place: u64) -> &'a [Span]
    ensures { AgreeFrom place result.now spans.now }
{
    let mut left = spans;
    while !left.is_empty() && left[0].end <= place {
        left = &left[1..];
    }
    left
}

/// What a map says of all 182 bytes of a row, if it is one thing and the first of these spans shows it. The first span
/// that ends after a byte has it, so a first span that ends after the last byte has all. `None` promises nothing, as
/// two spans of a row may say the same: the caller asks byte by byte then.
pub fn whole_row(spans: &[Span], start: u64) -> Option<bool>
    requires { start + 182 < 2 ^ 64 }
    ensures { IfSome result (λ rescued. (j : ℕ) → j < 182 → is_rescued spans.now (start + j) ≡ rescued) }
{
    match spans.first() {
        // No span is left for this row: the map says nothing of it.
        None => Some(false),
        Some(span) if start + 182 <= span.end => Some(span.rescued),
        Some(_) => None,
    }
}

/// Whether a byte is rescued. A byte after all spans isn't: the map says nothing of it. A span begins where the one
/// before it ends, so the first that ends after the byte has it.
pub fn is_rescued(spans: &[Span], byte: u64) -> bool
    ensures { result ≡ is_rescued spans.now byte }
{
    for span in spans {
        if byte < span.end {
            return span.rescued;
        }
    }
    false
}
