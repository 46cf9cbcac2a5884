//! The survey of a disk's surface: how many PI errors its blocks have, singly, in eight together, and in all. ECMA-267
//! allows 280 in any eight blocks one after the other, so a window of eight goes along. Clauses `cause` say by the
//! counts of a sink whether a write failed.
ghost use Rattle.std.specs.Prelude.{◌≡◌, ◌+◌, ◌-◌, ◌<◌, ◌≤◌, ◌^◌, List, [], ◌∷◌, ◌++◌, length, sum, IfOk, OnOk, OnErr};
ghost use Rattle.std.specs.Result.{result_err};
ghost use Rattle.dvd_ports.specs.Bytes.{Appends};
ghost use Rattle.dvd_capture.specs.Rule.{HasAnswers};
ghost use Rattle.dvd_capture.specs.Works.{marks_of_work, rows_of, stage_of};
ghost use Rattle.dvd_layout.specs.Place.{HasNumbers};
ghost use Rattle.dvd_ports.specs.Causes.{HasCause};
ghost use Rattle.dvd_ports.specs.Whole.{AppendsPrefix};
ghost use Rattle.dvd_report.specs.Inner.Sound.{IsBounded};
ghost use Rattle.dvd_report.specs.Survey.{Represents, sum8, survey_line, surveyed_with, totals_line, totals_of};

use crate::counts::{Surveyed, Totals};
use crate::errors::survey_block;
use crate::survey_lines::{line_of_block, line_of_totals};
use crate::text::Line;
use circular_buffer::HeapCircularBuffer;
use dvd_capture::Work;
use dvd_layout::BlockPlan;
use dvd_ports::{NoMemory, Sink, WriteFault, write_whole};
use dvd_read::{Cause, Fixed};
use std::alloc::Global;
use std::marker::Model;

// The number of blocks that are summed together. The first seven have fewer before them, and sums of fewer. Blocks
// follow each other as in the plan, so that a sum may go from one zone or layer to the next.
const WINDOW: usize = 8;

// Sums above this are counted: ECMA-267 allows 280, so 280 itself isn't.
const MANY: u32 = 280;

/// A survey: totals over all blocks, the PI error rows of the last eight, and the last block.
/// It keeps only these of the list of its blocks; a contract sees it as the survey of that list. So a disk of any size
/// is surveyed in the same memory. `Represents` relates the two; a clause with it holds for each list that this is of.
/// The window is a circular buffer, which drops its oldest number by itself. Its crate has none that isn't on the heap.
/// The last block is kept, since its line is written by a call of its own after it is added.
#[derive(Drop)]
pub struct Survey {
    totals: Totals,
    window: HeapCircularBuffer<u8>,
    last: Option<Surveyed>,
}

impl Model for Survey {
    ghost use Rattle.dvd_report.specs.Inner.Sound.{IsSound};
    ghost use Rattle.dvd_report.specs.Survey.{SurveyState};

    ghost Value = { SurveyState };

    ghost view = { λ s. record { totals = s.totals; window = s.window.items; last = s.last } };

    ghost invariant = { λ s. IsSound s.totals s.window s.last };
}

impl Survey {
    /// The survey of no block. `NoMemory` may come at any time, and nothing is allocated then.
    pub fn new(alloc: Global) -> Result<Survey, NoMemory>
        ensures { IfOk result (λ survey. Represents survey []) }
    {
        let window = HeapCircularBuffer::with_capacity(alloc, WINDOW).map_err(|_| NoMemory)?;
        Ok(Survey {
            totals: no_totals(),
            window,
            last: None,
        })
    }

    /// Adds a block that was decoded, and what was answered to it. The rows are counted as they were received. The work
    /// stays, and no memory is allocated. With fewer than 2^32 blocks before, no total passes 64 bits: each grows by at
    /// most 255 a block, and a plan has fewer blocks. `HasAnswers`: its rows were decoded.
    pub fn add(&mut self, work: &Work, answer: &Result<Fixed, Cause>)
        requires answers { HasAnswers (stage_of work.now) }
        requires room { self.old.totals.blocks < 2 ^ 32 }
        ensures counted { self.new.totals.blocks ≡ self.old.totals.blocks + 1 }
        ensures added { (blocks : List Surveyed) → Represents self.old blocks
            → Represents self.new (blocks ++ surveyed_with (rows_of work.now) (marks_of_work work.now) (result_err answer.now) ∷ []) }
    {
        let block = survey_block(work, answer);
        // First into the window, since the sum is with the new block. A full window gives its oldest number back, which
        // isn't needed any more.
        let _ = self.window.push_back(block.pi);
        self.totals = totals_with(&self.totals, &block, sum_of(&self.window));
        self.last = Some(block);
    }

    /// The totals over all blocks so far. Tests look at them; programs write their line.
    pub fn totals(&self) -> Totals
        ensures { result ≡ self.now.totals }
    {
        self.totals
    }

    /// Writes the line of the last block, whose entry of the plan this is:
    /// `block K sector H6 layer L pi P failed F sum8 S: ANSWER` and a line feed. `K` is the block's number from 0. `P`
    /// and `F` are its rows with a PI error and its uncorrectable rows. `S` is the sum of `P` over it and the seven
    /// before it. After a fault a prefix of the line was written.
    pub fn write_line<K: Sink>(&self, plan: &BlockPlan, out: &mut K) -> Result<(), WriteFault>
        requires some { 0 < self.now.totals.blocks }
        requires numbers { HasNumbers plan.now }
        ensures written { (blocks : List Surveyed) → Represents self.now blocks
            → OnOk result (Appends (K.seen out.old).bytes (K.seen out.new).bytes (survey_line (length blocks - 1) plan.now blocks)) }
        ensures begun { (blocks : List Surveyed) → Represents self.now blocks
            → OnErr result (AppendsPrefix (K.seen out.old).bytes (K.seen out.new).bytes (survey_line (length blocks - 1) plan.now blocks)) }
        ensures cause { HasCause (K.seen out.old) (K.seen out.new) result }
    {
        write_whole(out, self.last_line(plan).as_slice())
    }

    /// Writes the line of totals: `blocks B pi P failed F damaged D peak S at K over O` and a line feed. After a fault
    /// a prefix of the line was written.
    pub fn write_totals<K: Sink>(&self, out: &mut K) -> Result<(), WriteFault>
        ensures written { (blocks : List Surveyed) → Represents self.now blocks
            → OnOk result (Appends (K.seen out.old).bytes (K.seen out.new).bytes (totals_line blocks)) }
        ensures begun { (blocks : List Surveyed) → Represents self.now blocks
            → OnErr result (AppendsPrefix (K.seen out.old).bytes (K.seen out.new).bytes (totals_line blocks)) }
        ensures cause { HasCause (K.seen out.old) (K.seen out.new) result }
    {
        write_whole(out, line_of_totals(&self.totals).as_slice())
    }

    // The line of the last block, whole, so that it goes out as one piece. Blocks are counted from 0. The sum is added
    // up again from the window, so that it isn't kept in two places.
    fn last_line(&self, plan: &BlockPlan) -> Line
        requires { 0 < self.now.totals.blocks }
        ensures { (blocks : List Surveyed) → Represents self.now blocks → result ≡ survey_line (length blocks - 1) plan.now blocks }
    {
        match self.last {
            Some(block) => line_of_block(
                self.totals.blocks - 1,
                plan,
                &block,
                sum_of(&self.window),
            ),
            // A block was added, as the clause says.
            None => unreachable!(),
        }
    }
}

// The totals of no block. The peak is 0 at block 0 until a block has an error.
fn no_totals() -> Totals
    ensures totals { result ≡ totals_of [] }
    ensures bounded { IsBounded result }
    ensures none { result.blocks ≡ 0 }
{
    Totals {
        blocks: 0,
        pi: 0,
        failed: 0,
        damaged: 0,
        peak: 0,
        peak_at: 0,
        over: 0,
    }
}

// The totals with one more block, whose sum of eight this is. The sum comes from the window: totals don't have it.
// `bounded` says that each total is at most 255 for each block, so that none overflows.
fn totals_with(totals: &Totals, block: &Surveyed, sum: u32) -> Totals
    requires bounded { IsBounded totals.now }
    requires room { totals.now.blocks < 2 ^ 32 }
    ensures totals { (blocks : List Surveyed) → totals.now ≡ totals_of blocks → sum ≡ sum8 (blocks ++ block.now ∷ []) (length blocks)
        → result ≡ totals_of (blocks ++ block.now ∷ []) }
    ensures bounded { IsBounded result }
    ensures blocks { result.blocks ≡ totals.now.blocks + 1 }
{
    Totals {
        blocks: totals.blocks + 1,
        pi: totals.pi + u64::from(block.pi),
        failed: totals.failed + u64::from(block.failed),
        damaged: totals.damaged + u64::from(block.cause.is_some()),
        peak: totals.peak.max(sum),
        // Only a greater sum, so that the first block of several is named. The new block's number is how many came
        // before.
        peak_at: if sum > totals.peak {
            totals.blocks
        } else {
            totals.peak_at
        },
        over: totals.over + u64::from(sum > MANY),
    }
}

// The sum of the numbers in a window of eight.
fn sum_of(window: &HeapCircularBuffer<u8>) -> u32
    requires { length window.now.items ≤ 8 }
    ensures { result ≡ sum window.now.items }
{
    window.iter().map(|number| u32::from(*number)).sum()
}
