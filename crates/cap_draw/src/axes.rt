//! The axes of a picture, and what frames its parts. All is in units of the picture. The plot of sums begins at 64 from
//! the left and 100 from the top, and ends at 540.
//!
//! A sum is the number of PI error rows in a block and the seven before it. `scale` says how many rows are as high as a
//! unit. The axis of rows reaches 420 units; the 20 above it are for the marks of bars over the limit of ECMA-267, 280.
//! A class is one of the style in `words`: `g` a grey line, `k` a black line, `d` a dashed line, `u` a bar, `o` a black
//! shape, `f` a grey shape.
//!
//! The clauses `room` say what the parts before have at most, rounded up, and `len` what a part adds at most. `picture`
//! makes the bound of the whole of these. A survey has at most 2,097,152 blocks, and a plot is at most 4,999 units
//! wide. A function puts what one definition of `specs` says, so what may be missing has two: whether it is there, and
//! what it is. `picture` calls those that are public.
ghost use Rattle.std.specs.Prelude.{◌≡◌, ◌≤◌, ◌<◌, ◌+◌, ◌*◌, ◌++◌, length};
ghost use Rattle.cap_draw.specs.Axes.{block_axis, block_tick, block_ticks, is_on_layer_1, layer_at, layer_mark, limit_line, lower_frame, marks_frame, band_line, plot_frame, block_x, row_line, row_lines, tick_at};
ghost use Rattle.cap_survey.specs.Totals.{before_first};

use crate::page::Page;
use crate::plot::{Plot, share};
use cap_survey::Cell;

/// Puts the seven lines of the axis of rows, with their numbers. They come before the plot, so that bars lie over them.
pub fn put_row_lines(page: &mut Page, plot: &Plot)
    requires room { length page.old ≤ 2000 }
    requires width { plot.now.width ≤ 4999 }
    requires scale { plot.now.scale ≤ 4 }
    ensures bytes { page.new ≡ page.old ++ row_lines plot.now 7 }
    ensures len { length page.new ≤ length page.old + 840 }
{
    for i in 0..7 {
        put_row_line(page, plot, i);
    }
}

// A line of the axis of rows, 70 units above the one before it: seven of them reach 420. It begins 4 units left of the
// plot, as a tick. Its number is that of the rows, `scale` for each unit. It is 5 units lower, since a text is placed
// by the foot of its letters. It ends at 54, which leaves 6 units before the tick.
#[tactic(auto, using(std::proofs::lemmas::List::append_assoc))]
fn put_row_line(page: &mut Page, plot: &Plot, i: u16)
    requires room { length page.old ≤ 5000 }
    requires width { plot.now.width ≤ 4999 }
    requires scale { plot.now.scale ≤ 4 }
    requires line { i < 7 }
    ensures bytes { page.new ≡ page.old ++ row_line plot.now i }
    ensures len { length page.new ≤ length page.old + 120 }
{
    page.put_short(b"<path class='g' d='M60 ", 540 - 70 * i);
    page.put_short(b"h", plot.width + 4);
    page.put_short(b"'/><text x='54' y='", 545 - 70 * i);
    page.put_short(b"' text-anchor='end'>", 70 * plot.scale * i);
    page.put(b"</text>\n");
}

/// Puts what opens the plot of sums. It counts PI error rows from its lower edge up. So a bar is drawn by its own
/// number, whatever the scale is. The matrix makes heights grow upwards, and `none` lets them be scaled without the
/// width.
#[tactic(auto, using(std::proofs::lemmas::List::append_assoc))]
pub fn put_plot_frame(page: &mut Page, plot: &Plot)
    requires room { length page.old ≤ 5000 }
    requires scale { plot.now.scale ≤ 4 }
    ensures bytes { page.new ≡ page.old ++ plot_frame plot.now }
    ensures len { length page.new ≤ length page.old + 220 }
{
    page.put_short(b"<svg x='64' y='100' width='", plot.width);
    page.put_short(b"' height='440' viewBox='0 0 ", plot.width);
    page.put_short(b" ", 440 * plot.scale);
    page.put_short(
        b"' preserveAspectRatio='none'><g class='u' transform='matrix(1 0 0 -1 0 ",
        440 * plot.scale,
    );
    page.put(b")'>\n");
}

/// Puts the line at 280, and closes the plot of sums. Within the plot heights are rows, so a stroke of 2 × `scale` is 2
/// units of the picture. After the plot come the lines at its lower edge and on its left.
pub fn put_limit(page: &mut Page, plot: &Plot)
    requires room { length page.old ≤ 802500 }
    requires scale { plot.now.scale ≤ 4 }
    ensures bytes { page.new ≡ page.old ++ limit_line plot.now }
    ensures len { length page.new ≤ length page.old + 130 }
{
    page.put_short(b"<path class='d' stroke-width='", 2 * plot.scale);
    page.put_short(b"' d='M0 280h", plot.width);
    page.put_short(b"'/></g></svg>\n<path class='k' d='M64 540h", plot.width);
    page.put(b"M64 100v440'/>\n");
}

/// Puts the axis of blocks, and where layer 1 begins. Without a block there are no ticks: their places are parts of the
/// number of blocks. The word `block` is at 580, between the numbers of the ticks at 562 and the band of failed rows at
/// 592.
pub fn put_block_axis(page: &mut Page, cells: &[Cell], plot: &Plot)
    requires room { length page.old ≤ 802700 }
    requires few { length cells.now ≤ 2097152 }
    requires width { plot.now.width ≤ 4999 }
    ensures bytes { page.new ≡ page.old ++ block_axis cells.now plot.now }
    ensures len { length page.new ≤ length page.old + 1000 }
{
    put_layer(page, cells, plot.width);
    if !cells.is_empty() {
        put_block_ticks(page, cells.len() as u32, plot.width);
    }
    page.put_short(b"<text x='", 64 + plot.width / 2);
    page.put(b"' y='580' text-anchor='middle'>block</text>\n");
}

// Where a block begins in the picture, 64 being the left edge of the plot. The number of all blocks gives its right
// edge.
fn block_x(block: u32, blocks: u32, width: u16) -> u16
    requires some { 0 < blocks }
    requires within { block ≤ blocks }
    requires few { blocks ≤ 2097152 }
    requires width { width ≤ 4999 }
    ensures place { result ≡ block_x block blocks width }
    ensures bound { result ≤ 5063 }
{
    64 + share(block, u32::from(width), blocks) as u16
}

// The mark where layer 1 begins, if a block is on it. A disk with one layer has none.
fn put_layer(page: &mut Page, cells: &[Cell], width: u16)
    requires room { length page.old ≤ 802700 }
    requires few { length cells.now ≤ 2097152 }
    requires width { width ≤ 4999 }
    ensures bytes { page.new ≡ page.old ++ layer_mark cells.now width }
    ensures len { length page.new ≤ length page.old + 120 }
{
    let first = first_on_layer_1(cells);
    let blocks = cells.len() as u32;
    if first < blocks {
        put_layer_at(page, block_x(first, blocks, width));
    }
}

// The mark of layer 1: a dashed line over the height of the plot, and a text on its right, below the marks of bars.
#[tactic(auto, using(std::proofs::lemmas::List::append_assoc))]
fn put_layer_at(page: &mut Page, x: u16)
    requires room { length page.old ≤ 802700 }
    requires x { x ≤ 5063 }
    ensures bytes { page.new ≡ page.old ++ layer_at x }
    ensures len { length page.new ≤ length page.old + 120 }
{
    page.put_short(b"<path class='k' stroke-dasharray='2 4' d='M", x);
    page.put_short(b" 100v440'/><text x='", x + 5);
    page.put(b"' y='132'>layer 1</text>\n");
}

// The first block on layer 1; the number of all where none is. So one comparison says whether there is one. A survey
// isn't tested for blocks of layer 0 after it.
fn first_on_layer_1(cells: &[Cell]) -> u32
    requires { length cells.now ≤ 2097152 }
    ensures first { result ≡ before_first is_on_layer_1 cells.now }
    ensures within { result ≤ length cells.now }
{
    cells.iter().take_while(|cell| cell.layer != 1).count() as u32
}

// The ticks of the axis: at most six. At the ends of five parts, or at each block where there are fewer. Any number
// would do by which the texts don't touch. The last is at the right edge, where the blocks end, and has their number.
fn put_block_ticks(page: &mut Page, blocks: u32, width: u16)
    requires room { length page.old ≤ 802900 }
    requires some { 0 < blocks }
    requires few { blocks ≤ 2097152 }
    requires width { width ≤ 4999 }
    ensures bytes { page.new ≡ page.old ++ block_ticks blocks width }
    ensures len { length page.new ≤ length page.old + 600 }
{
    let parts = blocks.min(5);
    for i in 0..parts + 1 {
        put_block_tick(page, share(i, blocks, parts), blocks, width);
    }
}

// The tick where a block begins. 818,000 is more than all ticks come to: any bound with room for a tick would do.
fn put_block_tick(page: &mut Page, block: u32, blocks: u32, width: u16)
    requires room { length page.old ≤ 818000 }
    requires some { 0 < blocks }
    requires within { block ≤ blocks }
    requires few { blocks ≤ 2097152 }
    requires width { width ≤ 4999 }
    ensures bytes { page.new ≡ page.old ++ block_tick blocks width block }
    ensures len { length page.new ≤ length page.old + 100 }
{
    put_tick_at(page, block_x(block, blocks, width), block);
}

// A tick of 6 units below the plot, and the number of its block.
#[tactic(auto, using(std::proofs::lemmas::List::append_assoc))]
fn put_tick_at(page: &mut Page, x: u16, block: u32)
    requires { length page.old ≤ 818000 }
    ensures bytes { page.new ≡ page.old ++ tick_at x block }
    ensures len { length page.new ≤ length page.old + 100 }
{
    page.put_short(b"<path class='k' d='M", x);
    page.put_short(b" 540v6'/><text x='", x);
    page.put_count(b"' y='562' text-anchor='middle'>", block);
    page.put(b"</text>\n");
}

/// Puts what opens the band of failed rows. It has 208 rows, a quarter of a unit each, with room for the marks below:
/// 16 rows, so that 224 rows are 56 units. Its heights grow upwards, as those of the plot.
pub fn put_lower_frame(page: &mut Page, plot: &Plot)
    requires room { length page.old ≤ 804000 }
    ensures bytes { page.new ≡ page.old ++ lower_frame plot.now }
    ensures len { length page.new ≤ length page.old + 200 }
{
    page.put_short(b"<svg x='64' y='592' width='", plot.width);
    page.put_short(b"' height='56' viewBox='0 0 ", plot.width);
    page.put(
        b" 224' preserveAspectRatio='none'><g class='f' transform='matrix(1 0 0 -1 0 208)'>\n",
    );
}

/// Closes the band of failed rows, and puts what opens that of refused blocks. Between them are the lines of the first,
/// at 0 rows and on its left, and its two numbers. 208 rows are 52 units, so 0 is at 644. The numbers are lower than
/// their places, by the foot of their letters. In the group of the marks 0 is the left upper corner of their band.
pub fn put_marks_frame(page: &mut Page, plot: &Plot)
    requires room { length page.old ≤ 1485000 }
    ensures bytes { page.new ≡ page.old ++ marks_frame plot.now }
    ensures len { length page.new ≤ length page.old + 300 }
{
    page.put_short(b"</g></svg>\n<path class='k' d='M64 644h", plot.width);
    page.put(b"M64 592v52'/><text x='54' y='603' text-anchor='end'>208</text>");
    page.put(
        b"<text x='54' y='648' text-anchor='end'>0</text>\n<g class='o' transform='translate(64 656)'>\n",
    );
}

/// Closes the band of refused blocks. Its line is below the marks, which are 14 units high from 656 on.
pub fn put_marks_line(page: &mut Page, plot: &Plot)
    requires room { length page.old ≤ 1930000 }
    ensures bytes { page.new ≡ page.old ++ band_line plot.now }
    ensures len { length page.new ≤ length page.old + 60 }
{
    page.put_short(b"</g>\n<path class='k' d='M64 672h", plot.width);
    page.put(b"'/>\n");
}
