//! A whole map, line by line. A line that breaks a rule ends it, since marks by a map that was half understood could be
//! missing.
ghost use Rattle.std.specs.Prelude.{◌≡◌, ◌+◌, drop, Ok, IfErr, IfOk};
ghost use Rattle.cap_map.specs.Map.{IsFaultOf, map_of};

use crate::draft::{MapStop, SpansDraft};
use crate::fault::{MapCause, MapFault};
use crate::fields::line_length;
use crate::span::Span;
use std::alloc::Global;

/// The spans of a map in which these statuses are trusted, or the first line that breaks a rule. It allocates memory
/// for the spans, two numbers for each block, and `NoMemory` comes only where there is none. The text is read and not
/// kept: cap_top has read it whole, and cap_mark gets the spans. `good` has one byte for each status; one that no block
/// has does nothing. `IsFaultOf` claims nothing of the map at `NoMemory`.
pub fn read_map(alloc: Global, text: &[u8], good: &[u8]) -> Result<Vec<Span>, MapFault>
    ensures read { IfOk result (λ spans. map_of good.now text.now ≡ Ok spans.items) }
    ensures rule { IfErr result (IsFaultOf (map_of good.now text.now)) }
{
    let mut draft = SpansDraft {
        opened: false,
        spans: Vec::new(alloc),
    };
    let mut rest = text;
    // Each line has a byte at least, its line feed or another, so that the count fits 64 bits.
    let mut line = 1;
    while !rest.is_empty() {
        let end = line_length(rest);
        match draft.take(&rest[..end], good) {
            Ok(()) => {}
            Err(MapStop::NoMemory) => return Err(MapFault::NoMemory),
            Err(MapStop::Rule(cause)) => return Err(MapFault::Rule { line, cause }),
        }
        rest = after_line(rest, end);
        line += 1;
    }
    // No line had a field, so the line that is missing is named: it would be the next one.
    if !draft.opened {
        return Err(MapFault::Rule {
            line,
            cause: MapCause::State,
        });
    }
    Ok(draft.spans)
}

// What comes after a line of that length and its line feed. The last line may have none: nothing comes after it, and
// `end + 1` would be beyond the text.
fn after_line<'a>(text: &'a [u8], end: usize) -> &'a [u8]
    ensures { result.now ≡ drop (end + 1) text.now }
{
    if end < text.len() {
        &text[end + 1..]
    } else {
        &[]
    }
}
