//! The blocks that share a column of a picture. A disk has more blocks than a picture has columns. Where a survey has
//! fewer, there are as many columns as blocks, so that none is without a block. `bars` draws them. 2,097,152, or 2^21,
//! is the most blocks that cap_survey keeps, and 4,999 the greatest width that `plot_of` gives.
ghost use Rattle.std.specs.Prelude.{◌≡◌, ◌<◌, ◌≤◌, ◌+◌, length};
ghost use Rattle.cap_draw.specs.Columns.{column_of};
ghost use Rattle.cap_draw.specs.Plot.{share};

use crate::plot::{Plot, share};
use cap_survey::{Cell, count_refused, greatest_failed, greatest_sum8};

/// A column: its blocks, its position and width, and what is drawn of it. The greatest of each number, so that no bad
/// block is too small to be seen.
#[derive(Clone, Copy, Debug, PartialEq, Eq, Drop)]
pub struct Column {
    /// The first of its blocks, and how many there are.
    pub first: u32,
    pub blocks: u32,
    /// Where it begins in the plot, and how wide it is.
    pub x: u16,
    pub width: u16,
    /// The greatest `sum8` and the greatest number of failed rows of its blocks, as `Page` puts numbers: of 16 bits.
    pub sum8: u16,
    pub failed: u16,
    /// How many of its blocks are refused.
    pub refused: u32,
}

/// Column `c` of the plot of these blocks. Blocks and width are shared among the columns by the same rule, so that a
/// block is drawn about where the axis has its number. It is made anew for each of the three parts that draw it, so
/// that no list of columns is kept. No cast cuts: places are at most 4,999, and counts at most 2^21. By `fewer` each
/// column has a block at least.
pub fn column_of(cells: &[Cell], plot: &Plot, c: u16) -> Column
    requires few { length cells.now ≤ 2097152 }
    requires width { plot.now.width ≤ 4999 }
    requires fewer { plot.now.columns ≤ length cells.now }
    requires within { c < plot.now.columns }
    ensures { result ≡ column_of cells.now plot.now c }
{
    let columns = u32::from(plot.columns);
    let (first, end) = part(u32::from(c), cells.len() as u32, columns);
    let (x, right) = part(u32::from(c), u32::from(plot.width), columns);
    let blocks = &cells[first as usize..end as usize];
    Column {
        first,
        blocks: end - first,
        x: x as u16,
        width: (right - x) as u16,
        sum8: greatest_sum8(blocks),
        failed: u16::from(greatest_failed(blocks)),
        refused: count_refused(blocks) as u32,
    }
}

// Where part `k` of a whole begins and ends. A part ends where the next begins, so that each block is in one column and
// no width is lost. A width added to each beginning would lose what isn't shared evenly. The bounds are those of
// `share`.
fn part(k: u32, whole: u32, parts: u32) -> (u32, u32)
    requires within { k < parts }
    requires few { parts ≤ 2097152 }
    requires bound { whole ≤ 2097152 }
    ensures begins { result.0 ≡ share k whole parts }
    ensures ends { result.1 ≡ share (k + 1) whole parts }
    ensures order { result.0 ≤ result.1 }
    ensures within { result.1 ≤ whole }
{
    (share(k, whole, parts), share(k + 1, whole, parts))
}
