//! A survey that comes in pieces of any length, put together line by line. cap_draw reads the pieces, and calls what is
//! public.
//!
//! `reading_on` in the clauses is the result of a survey that has these bytes after those that came. `progress` grows
//! with each byte and is below 2^30, so that a loop over a survey without end comes to a line that breaks a rule. A
//! survey has at most 2^21 blocks and a line of totals, so the number of its next line is at most 2,097,154; a line
//! that has begun has at most 255 bytes. `progress` counts 256 for each line, which is a full line and its line feed.
ghost use Rattle.std.specs.Prelude.{◌≡◌, ◌<◌, ◌≤◌, ◌+◌, ◌^◌, ℕ, List, [], ◌∷◌, ◌++◌, length, Ok, Err, IfOk, IfErr, OnOk};
ghost use Rattle.cap_survey.specs.Survey.{fault_of_next, nothing_read, progress, reading_on};

use crate::fault::{Fault, SurveyCause};
use crate::survey::ReadSurvey;
use arrayvec::ArrayVec;
use std::alloc::{AllocError, Global};
use std::marker::Model;

/// A survey of which some bytes were read: its whole lines, and the bytes of a line that has begun. Contracts see it as
/// these two. A line is kept until its end came, since a piece may end within it.
#[derive(Drop)]
pub struct Reading {
    survey: ReadSurvey,
    line: ArrayVec<u8, 255>,
}

impl Model for Reading {
    ghost use Rattle.std.specs.Prelude.{◌≤◌, length};
    ghost use Rattle.cap_survey.specs.Survey.{Begun, next_line};

    ghost Value = { Begun };

    ghost view = { λ r. record { read = r.survey; line = r.line.items } };

    ghost invariant = { λ r. (next_line r.survey ≤ 2097154) × (length r.line.items ≤ 255) };
}

impl Reading {
    /// A survey of which nothing was read. All of its memory is allocated here.
    pub fn new(alloc: Global) -> Result<Reading, AllocError>
        ensures { IfOk result (λ reading_on. reading_on ≡ record { read = nothing_read; line = [] }) }
    {
        Ok(Reading {
            survey: ReadSurvey::new(alloc)?,
            line: ArrayVec::new(),
        })
    }

    /// Reads more bytes, or gives the first line that breaks a rule, whatever follows. No survey has 2^30 bytes. After
    /// a fault nothing is promised of the reading.
    pub fn take(&mut self, bytes: &[u8]) -> Result<(), Fault>
        ensures read { OnOk result ((more : List ℕ) → reading_on self.old (bytes.now ++ more) ≡ reading_on self.new more) }
        ensures rule { IfErr result (λ fault. (more : List ℕ) → reading_on self.old (bytes.now ++ more) ≡ Err fault) }
        ensures grows { OnOk result (progress self.old + length bytes.now ≤ progress self.new) }
        ensures bound { OnOk result (0 < length bytes.now → progress self.new < 2 ^ 30) }
    {
        for byte in bytes {
            self.put(*byte)?;
        }
        Ok(())
    }

    // Reads a byte: a line feed ends the line that has begun, and any other is kept. A carriage return is kept too, so
    // that no line with one is that of a block or of totals.
    fn put(&mut self, byte: u8) -> Result<(), Fault>
        ensures read { OnOk result ((more : List ℕ) → reading_on self.old (byte ∷ more) ≡ reading_on self.new more) }
        ensures rule { IfErr result (λ fault. (more : List ℕ) → reading_on self.old (byte ∷ more) ≡ Err fault) }
        ensures grows { OnOk result (progress self.old + 1 ≤ progress self.new) }
        ensures bound { OnOk result (progress self.new < 2 ^ 30) }
    {
        if byte == b'\n' {
            return self.end_line();
        }
        // No line of a survey is longer, so that the rest of it needn't come.
        if self.line.is_full() {
            return Err(self.fault(SurveyCause::Form));
        }
        self.line.push(byte);
        Ok(())
    }

    // Reads the line that has begun, of which all bytes came. Its memory is kept for the next. Where it breaks a rule
    // it stays, as nothing is promised then.
    fn end_line(&mut self) -> Result<(), Fault>
        ensures read { OnOk result ((more : List ℕ) → reading_on self.old (10 ∷ more) ≡ reading_on self.new more) }
        ensures rule { IfErr result (λ fault. (more : List ℕ) → reading_on self.old (10 ∷ more) ≡ Err fault) }
        ensures grows { OnOk result (progress self.old + 1 ≤ progress self.new) }
        ensures bound { OnOk result (progress self.new < 2 ^ 30) }
    {
        match self.survey.add(&self.line) {
            Ok(()) => {
                self.line.clear();
                Ok(())
            }
            Err(cause) => Err(self.fault(cause)),
        }
    }

    /// Ends the text, of which no more comes. Answers how many bytes came of a last line without its line feed: 0 where
    /// the text ends with one. Such a line isn't read, as more of it may be missing. A survey that is cut breaks no
    /// rule: `dvdcap draw` draws its whole lines, and its closing line `short` says this count. Whether a survey is cut
    /// is what `is_closed` says, and not the count. After the line of totals nothing may come, so that bytes there
    /// break a rule.
    pub fn end(&self) -> Result<usize, Fault>
        ensures read { IfOk result (λ left. reading_on self.now [] ≡ Ok (record { read = self.now.read; left = left })) }
        ensures rule { IfErr result (λ fault. reading_on self.now [] ≡ Err fault) }
    {
        // Before the line of totals they are a line that was cut, and no fault.
        let left = self.line.len();
        if self.survey.is_closed() && left > 0 {
            return Err(self.fault(SurveyCause::After));
        }
        Ok(left)
    }

    // The fault of the line that comes next.
    fn fault(&self, cause: SurveyCause) -> Fault
        ensures { result ≡ fault_of_next self.now.read cause }
    {
        Fault {
            line: self.survey.next_line(),
            cause,
        }
    }

    /// What was read. These are its whole lines: the one that has begun isn't in it.
    pub fn survey(&self) -> &ReadSurvey
        ensures { result.now ≡ self.now.read }
    {
        &self.survey
    }
}
