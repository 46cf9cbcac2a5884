//! The parity of a block, with several workers. Rows and then columns are shared out, as in decoding. `rt` is the
//! runtime, which makes the threads, and `gate` is asked before each piece: only gates of tests do anything.
ghost use Rattle.std.specs.Prelude.{◌≡◌, ℕ, ◌+◌, ◌<◌, ◌≤◌, ◌++◌, length, take, EachIndex, replicate};
ghost use Rattle.coding.specs.Words.{IsCodeword, IsEncoded};
ghost use Rattle.dvd_block.specs.Buffers.{block_rows, cells_all, lines_rows};
ghost use Rattle.coding.specs.Product.{IsParityAdded, column, line};

use crate::cutting::for_each_piece;
use crate::gate::Gate;
use dvd_block::Block;
use dvd_block::parts::{Cells, Lines, columns_parity, rows_parity};
use std::thread::Threads;

/// Sets the inner and the outer parity as `Block::add_parity` does, with so many workers. A worker has the rows of a
/// piece in the first pass, and the columns of a piece in the second. The second begins where the first has ended. One
/// worker works on this thread. The cells are zeros at the end. Sixteen workers are the most that the option allows;
/// the passes don't need that limit.
pub fn add_parity_par<R: Threads + Sync, G: Gate>(rt: &R, workers: u8, gate: &G, block: &mut Block)
    requires workers { (1 ≤ workers) × (workers ≤ 16) }
    ensures parity { IsParityAdded (block_rows block.old) (block_rows block.new) }
    ensures cells { cells_all block.new.cells ≡ replicate 182 (replicate 16 0) }
{
    if workers == 1 {
        // One call does both passes, and writes the outer parity into its rows without cells. So the gate is asked for
        // each pass here.
        gate.pass(0);
        gate.pass(0);
        block.add_parity();
        return;
    }
    // The rows first: the columns at places 172 to 181 are made of their parity.
    inner_parity(rt, workers, gate, &mut block.lines);
    outer_parity(rt, workers, gate, &block.lines, &mut block.cells);
    block.place_parity();
    // Cells are memory for a call alone, and a block is its rows.
    block.cells.clear();
}

// Sets the inner parity of the upper 192 rows. Rows 192 to 207 get theirs by the outer parity: they are sums of
// multiples of the rows above, and so codewords too. The clause is of the buffer, and that of `row_pieces` of the rows
// that it lends.
fn inner_parity<R: Threads + Sync, G: Gate>(rt: &R, workers: u8, gate: &G, lines: &mut Lines)
    requires { 1 ≤ workers }
    ensures { (i : ℕ) → i < 192 → IsEncoded 182 10 (take 172 (line (lines_rows lines.old) i)) (line (lines_rows lines.new) i) }
{
    let (upper, _) = lines.rows_mut().split_at_mut(192);
    row_pieces(rt, workers, gate, upper);
}

// Sets the inner parity of these rows, piece by piece. A piece goes by vectors, in groups of 32 from its first row. A
// row's parity depends on the row alone, so where the piece begins doesn't matter.
fn row_pieces<R: Threads + Sync, G: Gate>(rt: &R, workers: u8, gate: &G, rows: &mut [[u8; 182]])
    requires workers { 1 ≤ workers }
    requires rows { length rows.old ≡ 192 }
    ensures { EachIndex rows.new (λ i. IsEncoded 182 10 (take 172 (line rows.old i)) (line rows.new i)) }
{
    let encode = |_start: usize, piece: &mut [[u8; 182]]|
        ensures rows { EachIndex piece.exit.now (λ i. IsEncoded 182 10 (take 172 (line piece.entry.now i)) (line piece.exit.now i)) }
        ensures size { length piece.exit.now ≡ length piece.entry.now }
    {
        rows_parity(piece);
    };
    for_each_piece(rt, workers, gate, rows, &encode);
}

// Sets the outer parity of each column, in a cell of its own: sixteen bytes side by side. In the block they are in
// sixteen rows, and a piece has to be one slice. `place_parity` then copies the cells into rows 192 to 207. The clause
// is of the buffer, and that of `cell_pieces` of the cells that it lends.
fn outer_parity<R: Threads + Sync, G: Gate>(
    rt: &R,
    workers: u8,
    gate: &G,
    lines: &Lines,
    cells: &mut Cells,
)
    requires { 1 ≤ workers }
    ensures { (j : ℕ) → j < 182 → IsCodeword 208 16 (take 192 (column (lines_rows lines.now) j) ++ line (cells_all cells.new) j) }
{
    cell_pieces(rt, workers, gate, lines, cells.all_mut());
}

// Sets these cells to the outer parity of their columns, piece by piece. A piece goes by vectors, in groups of 32 from
// its first column. All workers read all rows, which nobody writes meanwhile.
fn cell_pieces<R: Threads + Sync, G: Gate>(
    rt: &R,
    workers: u8,
    gate: &G,
    lines: &Lines,
    cells: &mut [[u8; 16]],
)
    requires workers { 1 ≤ workers }
    requires cells { length cells.old ≡ 182 }
    ensures { EachIndex cells.new (λ j. IsCodeword 208 16 (take 192 (column (lines_rows lines.now) j) ++ line cells.new j)) }
{
    let encode = |start: usize, piece: &mut [[u8; 16]]|
        requires { start + length piece.now ≤ 182 }
        ensures cells { EachIndex piece.exit.now (λ k. IsCodeword 208 16 (take 192 (column (lines_rows lines.entry.now) (start + k)) ++ line piece.exit.now k)) }
        ensures size { length piece.exit.now ≡ length piece.entry.now }
    {
        columns_parity(lines, start, piece);
    };
    for_each_piece(rt, workers, gate, cells, &encode);
}
