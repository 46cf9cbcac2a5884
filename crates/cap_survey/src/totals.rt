//! Totals over blocks, and the line of totals. They are counted anew, so that the line can be compared with them.
//! cap_draw uses these functions too, over the blocks of a column and for its texts.
//!
//! The line is `blocks B pi P failed F damaged D peak S at K over O`. A survey has at most 2,097,152 blocks, so that
//! sums of their counts fit 64 bits.
ghost use Rattle.std.specs.Prelude.{◌≡◌, ◌≤◌, ◌*◌, ◌==◌, length, sum_by, count_by};
ghost use Rattle.cap_survey.specs.Lines.{totals_in};
ghost use Rattle.cap_survey.specs.Totals.{before_first, failed_in_cell, greatest_of, is_over, pi_of, refused_of, sum8_of, totals_of};

use crate::cell::Cell;
use crate::number::number_after;

/// The totals over blocks.
#[derive(Clone, Copy, Debug, PartialEq, Eq, Drop)]
pub struct Totals {
    /// How many blocks there are.
    pub blocks: u64,
    /// Their PI error rows, all together.
    pub pi: u64,
    /// Their failed rows, all together.
    pub failed: u64,
    /// How many of the blocks are refused.
    pub damaged: u64,
    /// The greatest `sum8`.
    pub peak: u64,
    /// The first block that has it.
    pub peak_at: u64,
    /// How many blocks have a `sum8` above 280.
    pub over: u64,
}

/// What a line says, if it is one of totals.
pub fn totals_in(line: &[u8]) -> Option<Totals>
    ensures { result ≡ totals_in line.now }
{
    let blocks = number_after(line, b"blocks ")?;
    let pi = number_after(blocks.rest, b" pi ")?;
    let failed = number_after(pi.rest, b" failed ")?;
    let damaged = number_after(failed.rest, b" damaged ")?;
    let peak = number_after(damaged.rest, b" peak ")?;
    let at = number_after(peak.rest, b" at ")?;
    let over = number_after(at.rest, b" over ")?;
    if !over.rest.is_empty() {
        return None;
    }
    Some(Totals {
        blocks: blocks.value,
        pi: pi.value,
        failed: failed.value,
        damaged: damaged.value,
        peak: peak.value,
        peak_at: at.value,
        over: over.value,
    })
}

/// The totals over these blocks. Each is counted by itself, as each has a definition of its own.
pub fn totals_of(cells: &[Cell]) -> Totals
    requires { length cells.now ≤ 2097152 }
    ensures { result ≡ totals_of cells.now }
{
    let peak = greatest_sum8(cells);
    Totals {
        blocks: cells.len() as u64,
        pi: sum_pi(cells),
        failed: sum_failed(cells),
        damaged: count_refused(cells),
        peak: u64::from(peak),
        peak_at: first_with(cells, peak),
        over: count_over(cells),
    }
}

/// The PI error rows of some blocks, all together. `survey` calls it too, and needs `bound`, by which a sum of eight
/// blocks fits 16 bits. So it is a loop, whose invariant has the bound.
pub fn sum_pi(cells: &[Cell]) -> u64
    requires { length cells.now ≤ 2097152 }
    ensures sum { result ≡ sum_by pi_of cells.now }
    ensures bound { result ≤ 255 * length cells.now }
{
    let mut sum = 0;
    for cell in cells {
        sum += widened(cell.pi);
    }
    sum
}

// The failed rows of some blocks, all together. Nothing rests on a bound of it, so that it is a sum of the library.
fn sum_failed(cells: &[Cell]) -> u64
    requires { length cells.now ≤ 2097152 }
    ensures { result ≡ sum_by failed_in_cell cells.now }
{
    cells.iter().map(|cell| u64::from(cell.failed)).sum()
}

// A count of rows in 64 bits. A function by itself, so that its clause gives the bound that a sum needs.
fn widened(rows: u8) -> u64
    ensures same { result ≡ rows }
    ensures bound { result ≤ 255 }
{
    u64::from(rows)
}

/// How many of some blocks are refused. `bound` is for cap_draw, which counts those of a column in 32 bits.
pub fn count_refused(cells: &[Cell]) -> u64
    ensures count { result ≡ count_by refused_of cells.now }
    ensures bound { result ≤ length cells.now }
{
    cells.iter().filter(|cell| cell.refused).count() as u64
}

// How many of some blocks have a `sum8` above the limit.
fn count_over(cells: &[Cell]) -> u64
    ensures { result ≡ count_by is_over cells.now }
{
    // ECMA-267 allows 280.
    cells.iter().filter(|cell| cell.sum8 > 280).count() as u64
}

/// The greatest `sum8` of some blocks, and 0 of none: it begins with 0, so that no blocks are no case of their own. The
/// highest bar of a column and the scale of the plot are made of it too.
pub fn greatest_sum8(cells: &[Cell]) -> u16
    ensures { result ≡ greatest_of sum8_of cells.now }
{
    cells.iter().fold(0, |most, cell| cell.sum8.max(most))
}

/// The greatest number of failed rows of some blocks, and 0 of none. The bar of failed rows of a column is made of it.
pub fn greatest_failed(cells: &[Cell]) -> u8
    ensures { result ≡ greatest_of failed_in_cell cells.now }
{
    cells.iter().fold(0, |most, cell| cell.failed.max(most))
}

// The first of some blocks that has this `sum8`; their number where none has. Of no blocks the peak is 0, at 0.
fn first_with(cells: &[Cell], sum8: u16) -> u64
    ensures { result ≡ before_first (λ cell. sum8_of cell == sum8) cells.now }
{
    cells.iter().take_while(|cell| cell.sum8 != sum8).count() as u64
}
