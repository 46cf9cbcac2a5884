//! What the lines of a report say together: extents of lost sectors, in order and joined where they touch.
//!
//! Each line of a block moves `next` on by a sector at least (`NamesSectors`, `goes_on`). So `refused` is at most
//! `next` (`IsCounted`) and fits 32 bits, and the reader's number of lines has a bound. `closing_count` is 1 once the
//! closing line came, and 0 before, so that this line counts as progress too. `IsStopOf` says that a rule that is
//! broken is the one that the definition names; of `NoMemory` nothing is claimed.
ghost use Rattle.std.specs.Prelude.{◌≡◌, ◌+◌, ◌≤◌, ◌<◌, None, Some, Ok, OnOk, IfErr};
ghost use Rattle.cap_lost.specs.Inner.{IsCounted, IsStopOf, NamesSectors, closing_count, sayings_of};
ghost use Rattle.cap_lost.specs.Report.{is_count, is_end, last_of, nothing_said, with_end, with_extent, with_said};

use crate::extent::Extent;
use crate::fault::ReportCause;
use std::alloc::Global;

/// What a line says.
#[derive(Clone, Copy, Debug, PartialEq, Eq)]
pub enum Said {
    /// The block with these image sectors is refused.
    Refused(Extent),
    /// The block with these image sectors was given back by a round.
    GivenBack(Extent),
    /// The run ended. This number of blocks was refused, where the line says so, and this number of image sectors was
    /// written. `refused` has 64 bits, since it is what the line says, which may be wrong.
    Ended { refused: Option<u64>, written: u32 },
}

/// Why a line isn't accepted. A draft doesn't know the number of its line: the reader makes a `ReportFault` of this.
#[derive(Clone, Copy, Debug, PartialEq, Eq)]
pub enum ReportStop {
    /// It breaks a rule.
    Rule(ReportCause),
    /// There is no memory for its extent.
    NoMemory,
}

/// What a whole report says of an image.
#[derive(Debug, PartialEq, Eq, Drop)]
pub struct Lost {
    /// The image sectors of refused blocks, in order. No extent begins where another ends.
    pub extents: Vec<Extent>,
    /// How many image sectors were written.
    pub written: u32,
}

/// What was said so far: the sectors of refused blocks, and the sector after those of the last block that was named.
/// How many blocks were refused, and, once that is said, how many sectors were written. Blocks are named in their
/// order, so one sector number says which may still come. Its fields are public for the reader, which ends with them.
/// `refused` is compared with the closing line, and is no part of the result.
#[derive(Drop)]
pub struct LossesDraft {
    pub extents: Vec<Extent>,
    pub next: u32,
    pub refused: u32,
    pub written: Option<u32>,
}

impl LossesDraft {
    /// Nothing was said.
    pub fn new(alloc: Global) -> LossesDraft
        ensures { sayings_of result ≡ nothing_said }
    {
        LossesDraft {
            extents: Vec::new(alloc),
            next: 0,
            refused: 0,
            written: None,
        }
    }

    /// Adds what one more line says. At `Err` nothing is promised of the draft: the report is given up then. The reader
    /// asks first whether the end was said (`before_end`).
    pub fn add(&mut self, said: Said) -> Result<(), ReportStop>
        requires counted { IsCounted self.old }
        requires some { NamesSectors said }
        requires before_end { self.old.written ≡ None }
        ensures added { OnOk result (with_said (sayings_of self.old) said ≡ Ok (sayings_of self.new)) }
        ensures rule { IfErr result (IsStopOf (with_said (sayings_of self.old) said)) }
        ensures counted { OnOk result (IsCounted self.new) }
        ensures goes_on { OnOk result (self.old.next + 1 ≤ self.new.next + closing_count self.new.written) }
    {
        match said {
            Said::Refused(extent) => self.refuse(extent),
            Said::GivenBack(extent) => self.pass(extent),
            Said::Ended { refused, written } => self.end(refused, written),
        }
    }

    // Adds the sectors of a refused block. Its place in the order is tested first, before anything is counted.
    fn refuse(&mut self, extent: Extent) -> Result<(), ReportStop>
        requires counted { IsCounted self.old }
        requires some { extent.from < extent.to }
        ensures added { OnOk result (with_said (sayings_of self.old) (Said.Refused extent) ≡ Ok (sayings_of self.new)) }
        ensures rule { IfErr result (IsStopOf (with_said (sayings_of self.old) (Said.Refused extent))) }
        ensures counted { OnOk result (IsCounted self.new) }
        ensures next { OnOk result (self.new.next ≡ extent.to) }
        ensures from { OnOk result (self.old.next ≤ extent.from) }
    {
        self.pass(extent)?;
        self.refused += 1;
        self.lose(extent)
    }

    // Passes the sectors of a block that a line names. For a block that was given back that is all. Only `next` is
    // written, and nothing after a refusal.
    fn pass(&mut self, extent: Extent) -> Result<(), ReportStop>
        requires some { extent.from < extent.to }
        ensures added { OnOk result (with_said (sayings_of self.old) (Said.GivenBack extent) ≡ Ok (sayings_of self.new)) }
        ensures rule { IfErr result (λ stop. (stop ≡ ReportStop.Rule ReportCause.Order) × (extent.from < self.old.next)) }
        ensures only { self.new ≡ record self.old { next = self.new.next } }
        ensures next { OnOk result (self.new.next ≡ extent.to) }
        ensures from { OnOk result (self.old.next ≤ extent.from) }
    {
        if extent.from < self.next {
            return Err(ReportStop::Rule(ReportCause::Order));
        }
        self.next = extent.to;
        Ok(())
    }

    // Adds an extent, to the last one where that ends at its first sector. So the map has one line for sectors that are
    // lost together. Its order isn't tested here: `pass` has done so.
    fn lose(&mut self, extent: Extent) -> Result<(), ReportStop>
        ensures added { OnOk result (self.new.extents.items ≡ with_extent self.old.extents.items extent) }
        ensures memory { IfErr result (λ stop. stop ≡ ReportStop.NoMemory) }
        ensures next { self.new.next ≡ self.old.next }
        ensures refused { self.new.refused ≡ self.old.refused }
        ensures written { self.new.written ≡ self.old.written }
    {
        if self.ends_at(extent.from) {
            self.lengthen(extent.to);
            return Ok(());
        }
        match self.extents.push(extent) {
            Ok(()) => Ok(()),
            Err(_) => Err(ReportStop::NoMemory),
        }
    }

    // Whether the last extent ends at a sector.
    fn ends_at(&self, sector: u32) -> bool
        ensures { result ≡ is_end (last_of self.now.extents.items) sector }
    {
        match self.extents.last() {
            Some(last) => last.to == sector,
            None => false,
        }
    }

    // Gives the last extent another end. `lose` has found one by `ends_at`; without any nothing would change, so that
    // no clause has to say that there is one.
    fn lengthen(&mut self, to: u32)
        ensures longer { self.new.extents.items ≡ with_end self.old.extents.items (last_of self.old.extents.items) to }
        ensures next { self.new.next ≡ self.old.next }
        ensures refused { self.new.refused ≡ self.old.refused }
        ensures written { self.new.written ≡ self.old.written }
    {
        if let Some(last) = self.extents.last_mut() {
            last.to = to;
        }
    }

    // Ends with this number of written sectors. The count of damage lines is compared, so that a report with a line
    // missing isn't believed. It is compared first: where both rules are broken, the definition names `Count`.
    fn end(&mut self, refused: Option<u64>, written: u32) -> Result<(), ReportStop>
        ensures added { OnOk result (with_said (sayings_of self.old) (Said.Ended refused written) ≡ Ok (sayings_of self.new)) }
        ensures rule { IfErr result (IsStopOf (with_said (sayings_of self.old) (Said.Ended refused written))) }
        ensures only { OnOk result (self.new ≡ record self.old { written = Some written }) }
    {
        if !self.counts(refused) {
            return Err(ReportStop::Rule(ReportCause::Count));
        }
        // A run that stopped before a sector that a line names can't have come to that line.
        if written < self.next {
            return Err(ReportStop::Rule(ReportCause::Order));
        }
        self.written = Some(written);
        Ok(())
    }

    // Whether a closing line that counts this number of refused blocks, or none, is right. One that counts none, as
    // `short`, is right after any lines.
    fn counts(&self, refused: Option<u64>) -> bool
        ensures { result ≡ is_count self.now.refused refused }
    {
        match refused {
            Some(refused) => refused == u64::from(self.refused),
            None => true,
        }
    }
}
