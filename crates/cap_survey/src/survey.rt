//! What was read so far of a survey. A line is believed only where it goes on from those before it.
//!
//! A survey has a line for each block, from block 0, and a line of totals that closes it. `pi` counts the PI error rows
//! of a block, `failed` its failed rows, and `sum8` the PI error rows of the block and the seven before it.
ghost use Rattle.std.specs.Prelude.{◌≡◌, ◌≤◌, ◌+◌, [], length, false, sum_by, Ok, Err, IfOk, IfErr, OnOk, OnErr};
ghost use Rattle.cap_survey.specs.Survey.{cell_of, last_seven, line_read, next_line, with_block, with_totals};
ghost use Rattle.cap_survey.specs.Totals.{pi_of};

use crate::block::{BlockLine, block_line};
use crate::cell::Cell;
use crate::fault::SurveyCause;
use crate::totals::{Totals, sum_pi, totals_in, totals_of};
use std::alloc::{AllocError, Global};
use std::marker::Model;

// The most blocks of a survey: more than twice those of the greatest disk. Their memory is taken at once, so that no
// line ends a run for want of it. Any number that no disk reaches would do.
const ROOM: usize = 2_097_152;

// No line of a survey is longer: numbers have at most 18 digits, with which the line of a block has 178 bytes. Any
// bound from that up would do; `Reading` keeps as many bytes.
const LINE: usize = 255;

/// The blocks whose lines were read, and whether the line of totals was. Contracts see it as these two. It is public,
/// since `Reading` lends it.
#[derive(Drop)]
pub struct ReadSurvey {
    cells: Vec<Cell>,
    closed: bool,
}

impl Model for ReadSurvey {
    ghost use Rattle.std.specs.Prelude.{◌≤◌, vec_len, vec_capacity};
    ghost use Rattle.cap_survey.specs.Survey.{SurveyRead};

    ghost Value = { SurveyRead };

    ghost view = { λ s. record { cells = s.cells.items; closed = s.closed } };

    ghost invariant = { λ s. (vec_len s.cells ≤ 2097152) × (2097152 ≤ vec_capacity s.cells) };
}

impl ReadSurvey {
    /// A survey of which nothing was read. The memory for all of its blocks is allocated here.
    pub fn new(alloc: Global) -> Result<ReadSurvey, AllocError>
        ensures { IfOk result (λ survey. survey ≡ record { cells = []; closed = false }) }
    {
        Ok(ReadSurvey {
            cells: Vec::with_capacity(alloc, ROOM)?,
            closed: false,
        })
    }

    /// Reads one more line, which is given without its line feed. A line that breaks a rule leaves the survey as it
    /// was: `Reading` makes the line number of the fault of it afterwards.
    pub fn add(&mut self, line: &[u8]) -> Result<(), SurveyCause>
        ensures read { OnOk result (line_read self.old line.now ≡ Ok self.new) }
        ensures rule { IfErr result (λ cause. line_read self.old line.now ≡ Err cause) }
        ensures same { OnErr result (self.new ≡ self.old) }
        ensures next { OnOk result (next_line self.new ≡ next_line self.old + 1) }
        ensures bound { OnOk result (next_line self.new ≤ 2097154) }
    {
        // `Reading` gives no longer line, but the rule is one of lines, whoever reads them. Here and below the first
        // rule that is broken is named, in the order of the definition.
        if line.len() > LINE {
            return Err(SurveyCause::Form);
        }
        // The totals end a survey.
        if self.closed {
            return Err(SurveyCause::After);
        }
        // The first word of a line, `block` or `blocks`, says which of the two it is.
        if let Some(block) = block_line(line) {
            return self.add_block(&block);
        }
        match totals_in(line) {
            Some(totals) => self.add_totals(&totals),
            None => Err(SurveyCause::Form),
        }
    }

    // Reads the line of a block. Where it breaks a rule nothing is added.
    fn add_block(&mut self, block: &BlockLine) -> Result<(), SurveyCause>
        ensures read { OnOk result (with_block self.old block.now ≡ Ok self.new) }
        ensures rule { IfErr result (λ cause. with_block self.old block.now ≡ Err cause) }
        ensures same { OnErr result (self.new ≡ self.old) }
        ensures next { OnOk result (next_line self.new ≡ next_line self.old + 1) }
    {
        let cell = cell_of(&self.cells, block)?;
        match self.cells.push(cell) {
            Ok(()) => Ok(()),
            // `cell_of` found room.
            Err(_) => unreachable!(),
        }
    }

    // Reads the line of totals. It has to be that of the blocks that came, and closes the survey.
    fn add_totals(&mut self, totals: &Totals) -> Result<(), SurveyCause>
        requires { self.old.closed ≡ false }
        ensures read { OnOk result (with_totals self.old totals.now ≡ Ok self.new) }
        ensures rule { IfErr result (λ cause. with_totals self.old totals.now ≡ Err cause) }
        ensures same { OnErr result (self.new ≡ self.old) }
        ensures next { OnOk result (next_line self.new ≡ next_line self.old + 1) }
    {
        // So a survey that lost a line isn't drawn as a whole one.
        if *totals != totals_of(&self.cells) {
            return Err(SurveyCause::Totals);
        }
        self.closed = true;
        Ok(())
    }

    /// The number of the line that comes next, counted from 1. Each line that was read is that of a block or of totals,
    /// so no count of lines is kept.
    pub fn next_line(&self) -> u64
        ensures { result ≡ next_line self.now }
    {
        self.cells.len() as u64 + if self.closed { 2 } else { 1 }
    }

    /// The blocks whose lines were read: at most 2,097,152.
    pub fn cells(&self) -> &[Cell]
        ensures cells { result.now ≡ self.now.cells }
        ensures bound { length result.now ≤ 2097152 }
    {
        &self.cells
    }

    /// Whether the line of totals was read. Without it the survey is cut: it isn't known how many blocks come after
    /// these.
    pub fn is_closed(&self) -> bool
        ensures { result ≡ self.now.closed }
    {
        self.closed
    }
}

// What is kept of a block that comes after these, or the first rule that its line breaks. Nothing is changed: the
// caller adds the cell, for which the clause `room` says that there is room. The order of the tests says which rule is
// named where several are broken, as the definition has them.
fn cell_of(cells: &[Cell], block: &BlockLine) -> Result<Cell, SurveyCause>
    requires { length cells.now ≤ 2097152 }
    ensures cell { result ≡ cell_of cells.now block.now }
    ensures room { OnOk result (length cells.now + 1 ≤ 2097152) }
{
    let BlockLine {
        pi,
        failed,
        sum8,
        ..
    } = *block;
    if block.block != cells.len() as u64 {
        return Err(SurveyCause::Order);
    }
    // A block has 208 rows, and a failed row has a PI error.
    if block.layer > 1 || pi > 208 || failed > pi {
        return Err(SurveyCause::Range);
    }
    if sum8 != pi + sum_of_seven(cells) {
        return Err(SurveyCause::Sum8);
    }
    if cells.len() == ROOM {
        return Err(SurveyCause::TooMany);
    }
    // By the tests above `sum8` is at most 208 + 1,785, so that nothing is cut.
    Ok(Cell {
        sum8: sum8 as u16,
        pi: pi as u8,
        failed: failed as u8,
        layer: block.layer as u8,
        refused: block.refused,
    })
}

// The PI error rows of the last seven blocks. At the beginning there are fewer. They are summed anew for each block,
// since a running sum would have to be kept right beside the cells. The bound is seven times the greatest number of 8
// bits, since the clauses don't say that a kept count is at most 208.
fn sum_of_seven(cells: &[Cell]) -> u64
    requires { length cells.now ≤ 2097152 }
    ensures sum { result ≡ sum_by pi_of (last_seven cells.now) }
    ensures bound { result ≤ 1785 }
{
    sum_pi(&cells[cells.len().saturating_sub(7)..])
}
