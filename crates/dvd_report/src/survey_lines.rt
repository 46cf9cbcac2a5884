//! The lines of a survey: one of each block, and one of totals. They are results and go to the output, not to the
//! report. A PI error row is one that was received with an error or a mark; a failed row is uncorrectable. `unfolding`
//! is for the checker: it opens a definition that a clause names.
ghost use Rattle.std.specs.Prelude.{◌≡◌, ◌+◌, ◌≤◌, ◌++◌, length};
ghost use Rattle.dvd_report.specs.Survey.{answer_text, line_of_totals, surveyed_line};

use crate::cause::{put_block, put_cause};
use crate::counts::{Surveyed, Totals};
use crate::text::Line;
use dvd_layout::BlockPlan;
use dvd_read::Cause;

/// The line of block `k` of a plan. `sum` is the PI error rows of it and the seven before it, which one block doesn't
/// show. The counts of one block have eight bits, since a block has 208 rows. Words and order are those of the manual,
/// for programs that read the lines.
#[tactic(auto, unfolding(crate::specs::Survey::surveyed_line))]
pub(crate) fn line_of_block(k: u64, plan: &BlockPlan, block: &Surveyed, sum: u32) -> Line
    ensures { result ≡ surveyed_line k plan.now block.now sum }
{
    let mut line = Line::new();
    put_block(&mut line, k, plan);
    line.put(b" pi ");
    line.put_byte(block.pi);
    line.put(b" failed ");
    line.put_byte(block.failed);
    line.put_named(b" sum8 ", u64::from(sum));
    line.put(b": ");
    put_answer(&mut line, block.cause);
    line.put(b"\n");
    line
}

// Puts a cause at the end of a line, or `whole` for a block without one. No cause is longer than 43 bytes: the bound
// that `put_cause` has.
fn put_answer(line: &mut Line, cause: Option<Cause>)
    requires room { length line.old + 43 ≤ 256 }
    ensures bytes { line.new ≡ line.old ++ answer_text cause }
    ensures len { length line.new ≤ length line.old + 43 }
{
    match cause {
        Some(cause) => put_cause(line, &cause),
        None => line.put(b"whole"),
    }
}

/// The line of totals. It has seven numbers of at most 20 digits, so it fits a `Line`.
#[tactic(auto, unfolding(crate::specs::Survey::line_of_totals))]
pub(crate) fn line_of_totals(totals: &Totals) -> Line
    ensures { result ≡ line_of_totals totals.now }
{
    let mut line = Line::new();
    line.put_named(b"blocks ", totals.blocks);
    line.put_named(b" pi ", totals.pi);
    line.put_named(b" failed ", totals.failed);
    line.put_named(b" damaged ", totals.damaged);
    line.put_named(b" peak ", u64::from(totals.peak));
    line.put_named(b" at ", totals.peak_at);
    line.put_named(b" over ", totals.over);
    line.put(b"\n");
    line
}
