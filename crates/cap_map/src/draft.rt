//! What a map says, as far as it was read. It goes from the line of the state to blocks, each of which begins where the
//! one before it ended.
//!
//! A map's text has comments, then a line with the state of the run of ddrescue that wrote it, and a line for each
//! block: position, size and status. A block becomes a span, which has its end and whether its status is trusted.
//! `IsStopOf` says that a rule that is broken is the one that the definition names; of `NoMemory` nothing is claimed.
ghost use Rattle.std.specs.Prelude.{◌≡◌, ◌++◌, [], ◌∷◌, Ok, OnOk, IfOk, IfErr};
ghost use Rattle.cap_map.specs.Inner.{IsStopOf, read_of};
ghost use Rattle.cap_map.specs.Lines.{line_fields};
ghost use Rattle.cap_map.specs.Map.{with_first_span, end_after, line_read, with_block};

use crate::fault::MapCause;
use crate::fields::line_fields;
use crate::line::{MapBlock, is_among, is_state, map_block};
use crate::span::Span;

/// Why a line isn't accepted. `read_map`, which counts lines, makes a fault of it.
#[derive(Clone, Copy, Debug, PartialEq, Eq)]
pub enum MapStop {
    /// It breaks a rule.
    Rule(MapCause),
    /// There is no memory for its span.
    NoMemory,
}

/// Whether the line of the state has come, and the spans of the blocks that came. The fields are public for `read_map`,
/// which begins and ends with them.
#[derive(Drop)]
pub struct SpansDraft {
    pub opened: bool,
    pub spans: Vec<Span>,
}

impl SpansDraft {
    /// Reads one more line of a map in which these statuses are trusted. At `Err` the map is given up, and nothing is
    /// promised of the draft.
    pub fn take(&mut self, line: &[u8], good: &[u8]) -> Result<(), MapStop>
        ensures read { OnOk result (line_read good.now (read_of self.old) (line_fields line.now) ≡ Ok (read_of self.new)) }
        ensures rule { IfErr result (IsStopOf (line_read good.now (read_of self.old) (line_fields line.now))) }
    {
        let fields = line_fields(line);
        // A comment alone, or an empty line: it says nothing, wherever it comes.
        if fields.first.is_empty() {
            return Ok(());
        }
        // The line of the state is the first with a field, so each later one is a block.
        if self.opened {
            return match map_block(&fields) {
                Ok(block) => self.add(&block, good),
                Err(cause) => Err(MapStop::Rule(cause)),
            };
        }
        if !is_state(&fields) {
            return Err(MapStop::Rule(MapCause::State));
        }
        self.opened = true;
        Ok(())
    }

    // Adds the span of a block; before that of the first block, one for the bytes of which the map says nothing. Spans
    // have no beginning, so a gap or an overlap would give bytes to the wrong span: both are refused.
    fn add(&mut self, block: &MapBlock, good: &[u8]) -> Result<(), MapStop>
        ensures read { OnOk result (with_block good.now self.old.spans.items block.now ≡ Ok self.new.spans.items) }
        ensures same { OnOk result (self.new.opened ≡ self.old.opened) }
        ensures rule { IfErr result (IsStopOf (with_block good.now self.old.spans.items block.now)) }
    {
        let end = self.end_after(block.position);
        if block.position < end {
            return Err(MapStop::Rule(MapCause::Overlap));
        }
        if end < block.position {
            return Err(MapStop::Rule(MapCause::Gap));
        }
        // The map says nothing of the bytes before its first block, so they aren't rescued.
        if self.spans.is_empty() && block.position > 0 {
            self.push(block.position, false)?;
        }
        self.push(block.end, is_among(good, block.status))
    }

    // Adds a span. One goes on from the span before it, so only its end is kept. The clause `same` is for `take`, which
    // promises both fields.
    fn push(&mut self, end: u64, rescued: bool) -> Result<(), MapStop>
        ensures read { OnOk result (self.new.spans.items ≡ self.old.spans.items ++ record { end = end; rescued = rescued } ∷ []) }
        ensures same { OnOk result (self.new.opened ≡ self.old.opened) }
        ensures memory { IfErr result (λ stop. stop ≡ MapStop.NoMemory) }
    {
        match self.spans.push(Span { end, rescued }) {
            Ok(()) => Ok(()),
            Err(_) => Err(MapStop::NoMemory),
        }
    }

    // The end of the last span, or `position` where there is none. That is the first block's own, which so begins
    // anywhere.
    fn end_after(&self, position: u64) -> u64
        ensures { result ≡ end_after position self.now.spans.items }
    {
        match self.spans.last() {
            Some(span) => span.end,
            None => position,
        }
    }
}
