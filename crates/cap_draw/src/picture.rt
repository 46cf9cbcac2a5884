//! A whole picture, part by part from top to bottom. It is made in two halves, each with a bound on its bytes. A cell
//! is what is kept of a block, and a plot says how wide and high the parts are and how many columns there are. The
//! bounds on bytes are sums of what the parts have at most, rounded up; `Page` has room for the whole.
ghost use Rattle.std.specs.Prelude.{◌≡◌, ◌≤◌, ◌<◌, [], ◌++◌, length};
ghost use Rattle.cap_draw.specs.Picture.{lower_part, picture, upper_part};

use crate::axes::{
    put_block_axis, put_limit, put_lower_frame, put_marks_frame, put_marks_line, put_plot_frame,
    put_row_lines,
};
use crate::bars::{Part, put_columns};
use crate::page::Page;
use crate::plot::{Plot, plot_of};
use crate::words::{put_head, put_legend, put_totals};
use cap_survey::Cell;

/// Puts the picture of these blocks in at most `most` columns, which is `--width` of `dvdcap draw`; a survey that isn't
/// closed is cut. It has at most 2,000,000 bytes. That holds by what each part has at most: with 4,000 columns the
/// bars, failed rows and marks have 1,920,000 bytes.
pub fn put_picture(page: &mut Page, cells: &[Cell], closed: bool, most: u16)
    requires empty { page.old ≡ [] }
    requires few { length cells.now ≤ 2097152 }
    requires some { 0 < most }
    requires most { most ≤ 4000 }
    ensures bytes { page.new ≡ picture cells.now closed most }
    ensures len { length page.new ≤ 2000000 }
{
    let plot = plot_of(cells, most);
    put_upper_part(page, cells, closed, &plot);
    put_lower_part(page, cells, &plot);
}

// The heading, the totals, and the plot of sums with its axes. What is put later lies over what came before: bars over
// the lines of the axis, the line at 280 over the bars. The parts have at most 2,460 bytes before the bars, 800,000 of
// bars, which are 200 for each of 4,000 columns, and 1,130 after them.
fn put_upper_part(page: &mut Page, cells: &[Cell], closed: bool, plot: &Plot)
    requires empty { page.old ≡ [] }
    requires few { length cells.now ≤ 2097152 }
    requires width { plot.now.width ≤ 4999 }
    requires scale { plot.now.scale ≤ 4 }
    requires columns { plot.now.columns ≤ 4000 }
    requires fewer { plot.now.columns ≤ length cells.now }
    ensures bytes { page.new ≡ upper_part cells.now closed plot.now }
    ensures len { length page.new ≤ 804000 }
{
    put_head(page, plot.width);
    put_totals(page, cells, plot.columns, closed);
    put_row_lines(page, plot);
    put_plot_frame(page, plot);
    put_columns(page, Part::Sums, cells, plot);
    put_limit(page, plot);
    put_block_axis(page, cells, plot);
}

// The bands of failed rows and of refused blocks, and the legend. They have at most 170 and 110 bytes for each of 4,000
// columns, and 1,460 besides. 804,000 is what the upper part has at most.
fn put_lower_part(page: &mut Page, cells: &[Cell], plot: &Plot)
    requires room { length page.old ≤ 804000 }
    requires few { length cells.now ≤ 2097152 }
    requires width { plot.now.width ≤ 4999 }
    requires scale { plot.now.scale ≤ 4 }
    requires columns { plot.now.columns ≤ 4000 }
    requires fewer { plot.now.columns ≤ length cells.now }
    ensures bytes { page.new ≡ page.old ++ lower_part cells.now plot.now }
    ensures len { length page.new ≤ 2000000 }
{
    put_lower_frame(page, plot);
    put_columns(page, Part::FailedRows, cells, plot);
    put_marks_frame(page, plot);
    put_columns(page, Part::RefusedBlocks, cells, plot);
    put_marks_line(page, plot);
    put_legend(page);
}
