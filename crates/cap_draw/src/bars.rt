//! The columns of a picture, as rectangles and marks. The clauses say how many bytes each has at most, of which
//! `picture`, which calls those that are public, makes the bound of the whole; `room` is what the parts before have at
//! most, rounded up.
//!
//! A column is some blocks one after the other. `sum8` is the number of PI error rows in a block and the seven before
//! it, at most 1,664; ECMA-267 allows 280. `scale` says how many rows are as high as a unit of the picture. A shape has
//! the colour of its group, which `axes` opens, and class `o` makes it black. In the plot and in the band of failed
//! rows heights are rows, counted from the lower edge up; in the band of refused blocks they are units downwards. A
//! function puts what one definition of `specs` says, so what may be missing has two: whether it is there, and what it
//! is.
ghost use Rattle.std.specs.Prelude.{◌≡◌, ◌≤◌, ◌+◌, ◌*◌, ◌++◌, length};
ghost use Rattle.cap_draw.specs.Bars.{bar, column_text, columns_text, failed_rows_bar, mark_path, middle_of, most_of, over_class, over_mark, title, triangle};

use crate::column::{Column, column_of};
use crate::page::Page;
use crate::plot::Plot;
use cap_survey::Cell;

/// A part of a picture that shows something of each column.
#[derive(Clone, Copy, Debug, PartialEq, Eq, Drop)]
pub enum Part {
    /// The plot of sums has a bar, as high as the greatest `sum8` of the column.
    Sums,
    /// The band of failed rows has a bar and a mark where there is a failed row. The bar is as high as the most failed
    /// rows of a block.
    FailedRows,
    /// The band of refused blocks has a mark where there is such a block.
    RefusedBlocks,
}

/// Puts what a part shows of the columns, one after the other.
pub fn put_columns(page: &mut Page, part: Part, cells: &[Cell], plot: &Plot)
    requires room { length page.old + most_of part * plot.now.columns ≤ 2000000 }
    requires few { length cells.now ≤ 2097152 }
    requires width { plot.now.width ≤ 4999 }
    requires scale { plot.now.scale ≤ 4 }
    requires fewer { plot.now.columns ≤ length cells.now }
    ensures bytes { page.new ≡ page.old ++ columns_text part cells.now plot.now plot.now.columns }
    ensures len { length page.new ≤ length page.old + most_of part * plot.now.columns }
{
    for c in 0..plot.columns {
        put_column(page, part, &column_of(cells, plot, c), plot.scale);
    }
}

// What a part shows of a column: nothing, where it has no failed row or no refused block.
fn put_column(page: &mut Page, part: Part, column: &Column, scale: u16)
    requires room { length page.old + most_of part ≤ 2000000 }
    requires scale { scale ≤ 4 }
    ensures bytes { page.new ≡ page.old ++ column_text part scale column.now }
    ensures len { length page.new ≤ length page.old + most_of part }
{
    match part {
        Part::Sums => put_bar(page, column, scale),
        Part::FailedRows => {
            if column.failed > 0 {
                put_failed_rows(page, column);
            }
        }
        Part::RefusedBlocks => {
            if column.refused > 0 {
                put_triangle(page, column);
            }
        }
    }
}

// Puts a bar. It has no `y`: the plot counts upwards, so that a bar begins at the lower edge. Its class comes right
// after `<rect`, so the text of the class begins with a blank.
fn put_bar(page: &mut Page, column: &Column, scale: u16)
    requires room { length page.old + 200 ≤ 2000000 }
    requires scale { scale ≤ 4 }
    ensures bytes { page.new ≡ page.old ++ bar scale column.now }
    ensures len { length page.new ≤ length page.old + 200 }
{
    page.put(b"<rect");
    put_class(page, column.sum8);
    page.put_short(b" x='", column.x);
    page.put_short(b"' width='", column.width);
    page.put_short(b"' height='", column.sum8);
    put_title(page, column);
    page.put_short(b"sum8 ", column.sum8);
    page.put(b"</title></rect>\n");
    put_mark(page, column, scale);
}

// The class of a bar above the limit. 280 itself is allowed.
fn put_class(page: &mut Page, sum8: u16)
    requires room { length page.old + 10 ≤ 2000000 }
    ensures bytes { page.new ≡ page.old ++ over_class sum8 }
    ensures len { length page.new ≤ length page.old + 10 }
{
    if sum8 > 280 {
        page.put(b" class='o'");
    }
}

// Which blocks a column has. A browser shows it where the mouse is. The text begins with what ends the last attribute
// of the shape. The caller puts its number and `</title>` after it. 44 is its greatest length: 24 bytes of text and two
// numbers of at most 10 digits.
fn put_title(page: &mut Page, column: &Column)
    requires room { length page.old + 44 ≤ 2000000 }
    ensures bytes { page.new ≡ page.old ++ title column.now }
    ensures len { length page.new ≤ length page.old + 44 }
{
    page.put_count(b"'><title>", column.blocks);
    page.put_count(b" blocks from ", column.first);
    page.put(b": ");
}

// The mark of a column above the limit, at the upper edge of the plot. So the picture can be read without colour.
fn put_mark(page: &mut Page, column: &Column, scale: u16)
    requires room { length page.old + 60 ≤ 2000000 }
    requires scale { scale ≤ 4 }
    ensures bytes { page.new ≡ page.old ++ over_mark scale column.now }
    ensures len { length page.new ≤ length page.old + 60 }
{
    if column.sum8 > 280 {
        put_mark_at(page, column, scale);
    }
}

// Heights in the plot are rows: it is 440 × `scale` high, and the mark 14 × `scale`. So the mark is 14 units high by
// any scale. It goes down from the upper edge by `v-`, since heights grow upwards, and is above the highest line of the
// axis, which is at 420.
#[tactic(auto, using(std::proofs::lemmas::List::append_assoc))]
fn put_mark_at(page: &mut Page, column: &Column, scale: u16)
    requires room { length page.old + 60 ≤ 2000000 }
    requires scale { scale ≤ 4 }
    ensures bytes { page.new ≡ page.old ++ mark_path scale column.now }
    ensures len { length page.new ≤ length page.old + 60 }
{
    page.put_short(b"<path class='o' d='M", column.x);
    page.put_short(b" ", 440 * scale);
    page.put_short(b"h", column.width);
    page.put_short(b"v-", 14 * scale);
    page.put_short(b"h-", column.width);
    page.put(b"z'/>\n");
}

// The mark is below the bar, since the bar of one row is hardly seen. It is 16 rows high, for which the band has room
// below 0: there `v-` goes down too.
#[tactic(auto, using(std::proofs::lemmas::List::append_assoc))]
fn put_failed_rows(page: &mut Page, column: &Column)
    requires room { length page.old + 170 ≤ 2000000 }
    ensures bytes { page.new ≡ page.old ++ failed_rows_bar column.now }
    ensures len { length page.new ≤ length page.old + 170 }
{
    page.put_short(b"<rect x='", column.x);
    page.put_short(b"' width='", column.width);
    page.put_short(b"' height='", column.failed);
    put_title(page, column);
    page.put_short(b"failed ", column.failed);
    page.put_short(b"</title></rect><path class='o' d='M", column.x);
    page.put_short(b" 0h", column.width);
    page.put_short(b"v-16h-", column.width);
    page.put(b"z'/>\n");
}

// A triangle with its upper corner in the middle of the column, 10 units wide and 14 high. Its width doesn't depend on
// the columns, so that one of a narrow column is seen. Its band has 16 units; any size that fits would do.
fn put_triangle(page: &mut Page, column: &Column)
    requires room { length page.old + 110 ≤ 2000000 }
    ensures bytes { page.new ≡ page.old ++ triangle column.now }
    ensures len { length page.new ≤ length page.old + 110 }
{
    page.put_count(b"<path d='M", middle_of(column));
    page.put(b" 0l5 14h-10z");
    put_title(page, column);
    page.put_count(b"refused ", column.refused);
    page.put(b"</title></path>\n");
}

// The middle of a column. It has 32 bits, since no clause here bounds its place and its width.
fn middle_of(column: &Column) -> u32
    ensures { result ≡ middle_of column.now }
{
    u32::from(column.x) + u32::from(column.width) / 2
}
