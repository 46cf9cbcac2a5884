//! The totals in words, and the legend. With them the picture needs no page beside it.
//!
//! `sum8` is the number of PI error rows in a block and the seven before it; ECMA-267 allows 280. The clauses `room`
//! say what the parts of the picture before have at most, rounded up, and `len` what a part adds at most; `picture`,
//! which calls those that are public, adds these up. A function puts what one definition of `specs` says, so what may
//! be missing has two: whether it is there, and what it is.
ghost use Rattle.std.specs.Prelude.{◌≡◌, ◌≤◌, ◌+◌, ◌++◌, length};
ghost use Rattle.cap_draw.specs.Words.{counts_text, cut_line, cut_text, head, legend, lower_legend, peak_text, totals_text};

use crate::page::Page;
use cap_survey::{Cell, Totals, totals_of};

/// Puts what a picture begins with: its size, its classes, a white ground and its heading. 64 units on the left and 44
/// on the right are for axes and numbers. The classes are `g` for grey lines, `k` for black and `d` for dashed ones,
/// `u` for bars, `o` for what is black and `f` for failed rows. The picture is 800 units high: the legend ends above.
/// Nothing comes before the heading, and `room` is rounded up.
pub fn put_head(page: &mut Page, width: u16)
    requires room { length page.old ≤ 100 }
    requires width { width ≤ 4999 }
    ensures bytes { page.new ≡ page.old ++ head width }
    ensures len { length page.new ≤ length page.old + 700 }
{
    page.put_short(
        b"<svg xmlns='http://www.w3.org/2000/svg' viewBox='0 0 ",
        width + 108,
    );
    page.put(
        b" 800' font-family='sans-serif' font-size='14'>\n<title>The survey of a disk</title>\n",
    );
    page.put(
        b"<style>.g{stroke:#ccc}.k{stroke:#000;fill:none}.u{fill:#6b9fd1}.o{fill:#000}.f{fill:#777}",
    );
    page.put(b".d{stroke:#000;stroke-dasharray:10 5;fill:none}</style>\n");
    page.put_short(b"<rect width='", width + 108);
    page.put(
        b"' height='800' fill='#fff'/>\n<text x='64' y='28' font-size='20' font-weight='bold'>",
    );
    page.put(b"PI error rows of eight blocks (sum8) over a disk</text>\n");
}

/// Puts the totals in words. They say that the survey is cut, where it is. They are counted of the blocks, since a
/// survey that is cut has no line of totals. Their lines are at 52, 70 and 90, between the heading at 28 and the plot
/// at 100.
pub fn put_totals(page: &mut Page, cells: &[Cell], columns: u16, closed: bool)
    requires room { length page.old ≤ 1000 }
    requires few { length cells.now ≤ 2097152 }
    ensures bytes { page.new ≡ page.old ++ totals_text cells.now columns closed }
    ensures len { length page.new ≤ length page.old + 700 }
{
    let totals = totals_of(cells);
    put_counts(page, &totals, columns);
    put_peak(page, &totals);
    put_cut(page, totals.blocks, closed);
}

// Without the line of totals nothing shows that these are all the lines, so the picture says it. `blocks` is the number
// of the first block that is missing.
fn put_cut(page: &mut Page, blocks: u64, closed: bool)
    requires { length page.old ≤ 2000 }
    ensures bytes { page.new ≡ page.old ++ cut_text blocks closed }
    ensures len { length page.new ≤ length page.old + 150 }
{
    if !closed {
        put_cut_line(page, blocks);
    }
}

// The line of a survey that is cut, in bold letters below the totals.
fn put_cut_line(page: &mut Page, blocks: u64)
    requires { length page.old ≤ 2000 }
    ensures bytes { page.new ≡ page.old ++ cut_line blocks }
    ensures len { length page.new ≤ length page.old + 150 }
{
    page.put_long(
        b"<text x='64' y='90' font-weight='bold'>The survey is cut before block ",
        blocks,
    );
    page.put(b". The totals are of the blocks before it.</text>\n");
}

// Puts the totals of all blocks, and in how many columns they are drawn.
fn put_counts(page: &mut Page, totals: &Totals, columns: u16)
    requires room { length page.old ≤ 2000 }
    ensures bytes { page.new ≡ page.old ++ counts_text totals.now columns }
    ensures len { length page.new ≤ length page.old + 250 }
{
    page.put_long(b"<text x='64' y='52'>", totals.blocks);
    page.put_short(b" blocks in ", columns);
    page.put_long(b" columns: ", totals.pi);
    page.put_long(b" PI error rows, ", totals.failed);
    page.put_long(b" failed rows, ", totals.damaged);
    page.put(b" refused blocks.</text>\n");
}

// Puts the greatest `sum8`. Of no blocks it is 0, at block 0.
fn put_peak(page: &mut Page, totals: &Totals)
    requires room { length page.old ≤ 2000 }
    ensures bytes { page.new ≡ page.old ++ peak_text totals.now }
    ensures len { length page.new ≤ length page.old + 250 }
{
    page.put_long(b"<text x='64' y='70'>The greatest sum8 is ", totals.peak);
    page.put_long(b", first at block ", totals.peak_at);
    page.put_long(b". Blocks with a sum8 above 280: ", totals.over);
    page.put(b".</text>\n");
}

/// Puts what the colours and the marks mean, and ends the picture: nothing comes after it. Its pieces of colour are
/// drawn by the classes of the picture itself. Its lines are 20 units one below the other, after the band of refused
/// blocks, which ends at 672. A page has room for 2,000,000 bytes, and `room` is far from it: how much more is left
/// than this needs means nothing.
pub fn put_legend(page: &mut Page)
    requires room { length page.old ≤ 1940000 }
    ensures bytes { page.new ≡ page.old ++ legend }
    ensures len { length page.new ≤ length page.old + 900 }
{
    page.put(b"<path class='u' d='M64 690h24v12h-24z'/><text x='98' y='701'>");
    page.put(
        b"A column is as high as the greatest sum8 of its blocks: PI error rows of a block and the seven before it.</text>\n",
    );
    page.put(b"<path class='o' d='M64 710h24v12h-24z'/><text x='98' y='721'>");
    page.put(b"The same above 280, with a black mark at the upper edge.</text>\n");
    page.put(b"<path class='d' stroke-width='2' d='M64 736h24'/><text x='98' y='741'>");
    page.put(b"280, what ECMA-267 allows.</text>\n");
    put_lower_legend(page);
}

// Puts what the bands below the plot show, and ends the file: it is the last part.
fn put_lower_legend(page: &mut Page)
    requires room { length page.old ≤ 1991000 }
    ensures bytes { page.new ≡ page.old ++ lower_legend }
    ensures len { length page.new ≤ length page.old + 450 }
{
    page.put(
        b"<path class='f' d='M64 750h24v9h-24z'/><path class='o' d='M64 760h24v4h-24z'/><text x='98' y='761'>",
    );
    page.put(
        b"Lower band: the most failed rows of a block in a column, with a black mark below where there are any.</text>\n",
    );
    page.put(b"<path class='o' d='M76 770l5 14h-10z'/><text x='98' y='781'>");
    page.put(b"A refused block is in this column.</text>\n</svg>\n");
}
