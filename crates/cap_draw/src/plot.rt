//! How wide and how high the parts of a picture are. All numbers are whole, so that each byte of the picture is
//! determined.
ghost use Rattle.std.specs.Prelude.{◌≡◌, ◌<◌, ◌≤◌, ◌+◌, min, length};
ghost use Rattle.cap_draw.specs.Plot.{plot_of, plot_width, scale_for, share};
ghost use Rattle.cap_survey.specs.Totals.{greatest_of, sum8_of};

use cap_survey::{Cell, greatest_sum8};

/// How wide a plot is, how many PI error rows are as high as one unit of it, and how many columns share its width. A
/// plot is 440 units high, so that a great peak needs more rows to a unit.
#[derive(Clone, Copy, Debug, PartialEq, Eq, Drop)]
pub struct Plot {
    pub width: u16,
    pub scale: u16,
    pub columns: u16,
}

/// The plot of some blocks with at most `most` columns. The lesser of the two numbers is at most 4,000, so the cast
/// cuts nothing.
pub fn plot_of(cells: &[Cell], most: u16) -> Plot
    requires some { 0 < most }
    requires most { most ≤ 4000 }
    ensures plot { result ≡ plot_of cells.now most }
    ensures width { result.width ≤ 4999 }
    ensures scale { result.scale ≤ 4 }
    ensures columns { result.columns ≤ 4000 }
    ensures fewer { result.columns ≤ length cells.now }
{
    Plot {
        width: plot_width(most),
        scale: scale_for(greatest_sum8(cells)),
        columns: cells.len().min(usize::from(most)) as u16,
    }
}

// A whole number of units for each column, together at least 1,000: a plot of few columns isn't narrow. It depends on
// `most` alone, so pictures of short and of long surveys are equally wide. It is below 1,000 + `most`.
fn plot_width(most: u16) -> u16
    requires some { 0 < most }
    requires most { most ≤ 4000 }
    ensures width { result ≡ plot_width most }
    ensures bound { result ≤ 4999 }
{
    most * ((999 + most) / most)
}

// How many PI error rows are a unit: as few as show the peak in 420 units. The greatest peak, 1,664, needs four. The
// other 20 units of the plot are for marks above the bars. By 1, 2 and 4 a line of the axis, one each 70 units, is at
// 280; by 3 none would be.
fn scale_for(peak: u16) -> u16
    ensures scale { result ≡ scale_for peak }
    ensures bound { result ≤ 4 }
{
    if peak <= 420 {
        1
    } else if peak <= 840 {
        2
    } else {
        4
    }
}

/// Where part `k` begins, if a whole is shared among `parts` parts. The product is of 64 bits, since each factor may be
/// 2^21. Part `parts`, which is none, gives the end of the last. Blocks, widths and ticks are all shared by it, in
/// `column` and `axes`: so a tick is about where the column of its block is.
pub fn share(k: u32, whole: u32, parts: u32) -> u32
    requires some { 0 < parts }
    requires within { k ≤ parts }
    requires few { parts ≤ 2097152 }
    requires bound { whole ≤ 2097152 }
    ensures share { result ≡ share k whole parts }
    ensures within { result ≤ whole }
{
    (u64::from(k) * u64::from(whole) / u64::from(parts)) as u32
}
