//! Lines out of bytes that come in pieces. One line is kept at a time, so that a report of any length needs no memory
//! but for its extents.
//!
//! `goes_on` in the clauses is the result of a report that has these bytes after those that came. A fault is that of
//! each report that begins so. `IsReaderSound` says that the number of a line is at most `next` of the draft and two
//! more, so that it fits 64 bits, and that the line that has begun has at most 128 bytes, none of them a line feed.
//! `IsCounted` says of the draft that it has counted at most `next` damage lines, each of which names a sector, and
//! that `next` has 32 bits; `closing_count` is 1 once the closing line came. The draft may take on what a line says
//! only before that: so `read_line` tests it first. `HasReadOn` counts a line as 129 bytes, so that each byte is
//! progress and `read_report` ends. `report` reads by it. At `NoMemory` nothing is claimed of the report.
ghost use Rattle.std.specs.Prelude.{◌≡◌, ◌+◌, ◌<◌, ◌≤◌, ◌++◌, [], ◌∷◌, ℕ, List, Ok, codes, length, IfOk, OnOk, IfErr};
ghost use Rattle.cap_lost.specs.Inner.{HasReadOn, IsCounted, IsReaderSound, IsStopOf, NamesSectors, StopsAs, closing_count, goes_on, sayings_of};
ghost use Rattle.cap_lost.specs.Report.{IsFaultOf, line_read, losses_of, word_said};
ghost use Rattle.cap_lost.specs.Lost.{losses_in};
ghost use Rattle.cap_lost.specs.Prefixes.{without_prefix};

use crate::block::block_said;
use crate::closing::closing_said;
use crate::draft::{LossesDraft, Lost, ReportStop, Said};
use crate::fault::{ReportCause, ReportFault};
use crate::prefixes::without_prefix;
use arrayvec::ArrayVec;
use dvd_layout::{Layout, Zones};
use std::alloc::Global;

// No line that is read has more bytes. What `dvdecc` writes of a block is shorter, so a longer line is refused before
// it ends. The longest that is accepted has 74 bytes where its block number has ten digits, so any bound from that up
// would do.
const LONGEST: usize = 128;

/// A report of this layout, as far as it came: what its whole lines say, and the number and the bytes of the next line.
/// The number counts from 1, for the fault. It has no view of its own: the clauses look at its fields.
#[derive(Drop)]
pub struct Reader {
    layout: Layout,
    zones: Zones,
    draft: LossesDraft,
    number: u64,
    line: ArrayVec<u8, LONGEST>,
}

impl Reader {
    /// A report of which nothing came.
    pub fn new(alloc: Global, layout: Layout, zones: Zones) -> Reader
        ensures begins { (text : List ℕ) → goes_on result text ≡ losses_of layout zones text }
        ensures sound { IsReaderSound result }
    {
        Reader {
            layout,
            zones,
            draft: LossesDraft::new(alloc),
            number: 1,
            line: ArrayVec::new(),
        }
    }

    /// Reads one more piece of the report. At `Err` the rest of the piece isn't looked at, and nothing is promised of
    /// the reader: it is given up.
    pub fn take(&mut self, piece: &[u8]) -> Result<(), ReportFault>
        requires sound { IsReaderSound self.old }
        ensures read { OnOk result ((rest : List ℕ) → goes_on self.old (piece.now ++ rest) ≡ goes_on self.new rest) }
        ensures rule { IfErr result (StopsAs (λ rest. goes_on self.old (piece.now ++ rest))) }
        ensures sound { OnOk result (IsReaderSound self.new) }
        ensures moved { OnOk result (HasReadOn (length piece.now) self.old self.new) }
    {
        for byte in piece {
            self.take_byte(*byte)?;
        }
        Ok(())
    }

    // Byte by byte, since a piece may begin and end within a line. A line feed alone ends a line: a carriage return is
    // kept, and no line with one has a form that is read.
    fn take_byte(&mut self, byte: u8) -> Result<(), ReportFault>
        requires sound { IsReaderSound self.old }
        ensures read { OnOk result ((rest : List ℕ) → goes_on self.old (byte ∷ rest) ≡ goes_on self.new rest) }
        ensures rule { IfErr result (StopsAs (λ rest. goes_on self.old (byte ∷ rest))) }
        ensures sound { OnOk result (IsReaderSound self.new) }
        ensures moved { OnOk result (HasReadOn 1 self.old self.new) }
    {
        if byte == b'\n' {
            return self.end_line();
        }
        if self.line.is_full() {
            return Err(self.breaks(ReportCause::Line));
        }
        self.line.push(byte);
        Ok(())
    }

    // Reads the line that came, as one that a line feed ends. The memory of the line is kept for the next. At `Err` the
    // line stays, as the reader is given up. The clauses `_last` are for a last line without line feed.
    fn end_line(&mut self) -> Result<(), ReportFault>
        requires sound { IsReaderSound self.old }
        ensures read { OnOk result ((rest : List ℕ) → goes_on self.old (10 ∷ rest) ≡ goes_on self.new rest) }
        ensures rule { IfErr result (StopsAs (λ rest. goes_on self.old (10 ∷ rest))) }
        ensures read_last { OnOk result (0 < length self.old.line.items → goes_on self.old [] ≡ goes_on self.new []) }
        ensures rule_last { IfErr result (λ fault. 0 < length self.old.line.items → IsFaultOf (goes_on self.old []) fault) }
        ensures line { OnOk result (self.new.line.items ≡ []) }
        ensures sound { OnOk result (IsReaderSound self.new) }
        ensures moved { OnOk result (HasReadOn 1 self.old self.new) }
    {
        match read_line(
            &self.layout,
            self.zones,
            &mut self.draft,
            self.line.as_slice(),
        ) {
            Ok(()) => {
                self.line.clear();
                // It fits 64 bits: each line before the closing one names a sector more.
                self.number += 1;
                Ok(())
            }
            Err(ReportStop::NoMemory) => Err(ReportFault::NoMemory),
            Err(ReportStop::Rule(cause)) => Err(self.breaks(cause)),
        }
    }

    // A fault of the line that came.
    fn breaks(&self, cause: ReportCause) -> ReportFault
        ensures { result ≡ ReportFault.Rule self.now.number cause }
    {
        ReportFault::Rule {
            line: self.number,
            cause,
        }
    }

    /// What the report says, if it ends here. The last line may lack its line feed. Without a closing line how much was
    /// written isn't known. `number` is then that of the line after the last, which is missing. The reader is used up,
    /// as its extents are handed on.
    pub fn finish(mut self) -> Result<Lost, ReportFault>
        requires sound { IsReaderSound self }
        ensures read { IfOk result (λ lost. goes_on self [] ≡ Ok (losses_in lost)) }
        ensures rule { IfErr result (IsFaultOf (goes_on self [])) }
    {
        self.end_last()?;
        match self.draft.written {
            Some(written) => Ok(Lost {
                extents: self.draft.extents,
                written,
            }),
            None => Err(self.breaks(ReportCause::NoEnd)),
        }
    }

    // Reads the line that came, if any did, as the last. After a line feed there is none: an empty line would be
    // refused.
    fn end_last(&mut self) -> Result<(), ReportFault>
        requires sound { IsReaderSound self.old }
        ensures read { OnOk result (goes_on self.old [] ≡ goes_on self.new []) }
        ensures rule { IfErr result (IsFaultOf (goes_on self.old [])) }
        ensures line { OnOk result (self.new.line.items ≡ []) }
    {
        if self.line.is_empty() {
            return Ok(());
        }
        self.end_line()
    }
}

// Nothing may come after the closing line, whatever it says. It is no method, since the line and the draft are parts of
// the reader, and the draft alone changes. A method would borrow the whole reader. By definition a line over 128 bytes
// is refused; `take_byte` has done so before (`short`).
fn read_line(
    layout: &Layout,
    zones: Zones,
    draft: &mut LossesDraft,
    line: &[u8],
) -> Result<(), ReportStop>
    requires short { length line.now ≤ 128 }
    requires counted { IsCounted draft.old }
    ensures read { OnOk result (line_read layout.now zones (sayings_of draft.old) line.now ≡ Ok (sayings_of draft.new)) }
    ensures rule { IfErr result (IsStopOf (line_read layout.now zones (sayings_of draft.old) line.now)) }
    ensures counted { OnOk result (IsCounted draft.new) }
    ensures goes_on { OnOk result (draft.old.next + closing_count draft.old.written + 1 ≤ draft.new.next + closing_count draft.new.written) }
{
    if draft.written.is_some() {
        return Err(ReportStop::Rule(ReportCause::AfterEnd));
    }
    match said_by(layout, zones, line) {
        Ok(said) => draft.add(said),
        Err(cause) => Err(ReportStop::Rule(cause)),
    }
}

// A line of a block begins with that word, and no closing line does.
fn said_by(layout: &Layout, zones: Zones, line: &[u8]) -> Result<Said, ReportCause>
    ensures said { result ≡ word_said layout.now zones line.now (without_prefix (codes "block ") line.now) }
    ensures some { IfOk result NamesSectors }
{
    match without_prefix(line, b"block ") {
        Some(rest) => block_said(layout, zones, line, rest),
        None => closing_said(layout, zones, line),
    }
}
