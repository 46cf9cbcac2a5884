//! A block: its frames, its parity, its rows as they are recorded. It has 208 rows of 182 bytes: rows 12f to 12f+11 are
//! frame f and the inner parity of its rows, and rows 192 to 207 are outer parity. A frame has 2,064 bytes, which is
//! twelve times 172; with ten bytes of inner parity a row has 182.
ghost use Rattle.std.specs.Prelude.{◌≡◌, ℕ, ◌+◌, ◌*◌, ◌/◌, ◌<◌, ◌≤◌, ◌⊎◌, ◌↔◌, IsTrue, ◌++◌, length, take, drop, IfOk, replicate, slice_index, EachIndex};
ghost use Rattle.dvd_ports.specs.Whole.{IsWritten};
ghost use Rattle.coding.specs.Product.{line, place};
ghost use Rattle.coding.specs.Recording.{recording};

use crate::buffers::{Cells, Lines};
use crate::order::row_of_record;
use crate::parity::{fill_parity, is_product, place_cells};
use dvd_ports::{NoMemory, Sink, WriteFault, write_whole};
use std::alloc::Global;

// The bytes of a recorded block: 208 rows of 182 (ECMA-267, 19).
const RECORDING: usize = 37_856;

/// The rows of a block, with cells for its outer parity. Both are lent apart from each other. So one can be read while
/// the other is written.
#[derive(Drop)]
pub struct Block {
    pub lines: Lines,
    pub cells: Cells,
}

impl Block {
    ghost use Rattle.dvd_block.specs.Buffers.{block_rows, cells_all};
    ghost use Rattle.coding.specs.Product.{line, place, IsProduct, IsParityAdded, HoldsFrame};
    ghost use Rattle.coding.specs.Recording.{recording};

    /// Zeros. `NoMemory` may come at any time, and nothing is taken then. A run takes this memory once, and each block
    /// is made in it.
    pub fn new(alloc: Global) -> Result<Block, NoMemory>
        ensures rows { IfOk result (λ block. block_rows block ≡ replicate 208 (replicate 182 0)) }
        ensures cells { IfOk result (λ block. cells_all block.cells ≡ replicate 182 (replicate 16 0)) }
    {
        Ok(Block {
            lines: Lines::new(alloc)?,
            cells: Cells::new(alloc)?,
        })
    }

    /// Row `i`, for programs on this crate that want one row: whoever reads or writes many has them by `lines`.
    pub fn row(&self, i: usize) -> &[u8; 182]
        requires { i < 208 }
        ensures { result.now ≡ line (block_rows self.now) i }
    {
        &self.lines.rows()[i]
    }

    /// Sets places 0 to 171 of rows 12f to 12f+11 to the frame, and nothing else. The parity of these rows and columns
    /// stays that of what was there: it is added once, after all sixteen frames.
    pub fn put_frame(&mut self, f: usize, frame: &[u8; 2064])
        requires { f < 16 }
        ensures frame { HoldsFrame f frame.now (block_rows self.new) }
        ensures other_rows { (i : ℕ) → (i < 12 * f) ⊎ (12 * f + 12 ≤ i) → line (block_rows self.new) i ≡ line (block_rows self.old) i }
        ensures inner_parity { (i j : ℕ) → 172 ≤ j → place (block_rows self.new) i j ≡ place (block_rows self.old) i j }
        ensures cells { cells_all self.new.cells ≡ cells_all self.old.cells }
    {
        put_rows(&mut self.lines.rows_mut()[12 * f..12 * f + 12], frame);
    }

    /// Writes frame `f`: places 0 to 171 of rows 12f to 12f+11. It undoes `put_frame`,
    /// for programs on this crate: the commands here read frames from captured rows, which are no `Block`.
    pub fn get_frame(&self, f: usize, out: &mut [u8; 2064])
        requires { f < 16 }
        ensures { HoldsFrame f out.new (block_rows self.now) }
    {
        get_rows(&self.lines.rows()[12 * f..12 * f + 12], out);
    }

    /// Sets the inner and the outer parity: places 172 to 181 of all rows, and rows 192 to 207. The bytes of the frames
    /// stay, and the cells are zeros at the end.
    pub fn add_parity(&mut self)
        ensures parity { IsParityAdded (block_rows self.old) (block_rows self.new) }
        ensures cells { cells_all self.new.cells ≡ replicate 182 (replicate 16 0) }
    {
        fill_parity(self.lines.rows_mut());
        // No cell was used here. With several workers `add_parity_par` of dvd_par uses them, and calls this with one.
        // Both ensure the same, so the cells are cleared here too.
        self.cells.clear();
    }

    /// Whether each row and each column is a codeword. It is for programs on this crate: the C library has rows and no
    /// `Block`, and calls the function of `parity`.
    pub fn is_product(&self) -> bool
        ensures { IsTrue result ↔ IsProduct (block_rows self.now) }
    {
        is_product(self.lines.rows())
    }

    /// Writes the sixteen recording frames in order, 37,856 bytes. After a fault a prefix of them was taken.
    pub fn write_recording<K: Sink>(&self, out: &mut K) -> Result<(), WriteFault>
        ensures { IsWritten (recording (block_rows self.now)) (K.seen out.old) (K.seen out.new) result }
    {
        write_rows(self.lines.rows(), out)
    }

    /// Sets place j of row 192+t to byte t of cell j, for all t below 16 and j below 182. All else stays. The cells
    /// have it by columns, as it was computed, and the rows need it by rows. It is for dvd_par, where several workers
    /// fill the cells; one worker has `add_parity`, which writes the rows at once. `sizes` says what the type does: the
    /// prover doesn't know the length of an array in a list.
    pub fn place_parity(&mut self)
        ensures placed { (t j : ℕ) → t < 16 → j < 182 → place (block_rows self.new) (192 + t) j ≡ place (cells_all self.old.cells) j t }
        ensures sizes { (t : ℕ) → t < 16 → length (line (block_rows self.new) (192 + t)) ≡ 182 }
        ensures rows_kept { take 192 (block_rows self.new) ≡ take 192 (block_rows self.old) }
        ensures cells_kept { cells_all self.new.cells ≡ cells_all self.old.cells }
    {
        place_cells(self.cells.all(), &mut self.lines.rows_mut()[192..]);
    }
}

/// Writes 208 rows as the sixteen recording frames in order, 37,856 bytes in one piece. After a fault a prefix of them
/// was taken.
pub fn write_rows<K: Sink>(rows: &[[u8; 182]], out: &mut K) -> Result<(), WriteFault>
    requires { length rows.now ≡ 208 }
    ensures { IsWritten (recording rows.now) (K.seen out.old) (K.seen out.new) result }
{
    // The rows are gathered, so that a block is one write where the sink accepts it whole. It is a function of rows,
    // and no method, since the captured rows that `convert` writes are in another buffer.
    let mut bytes = [0; RECORDING];
    record_rows(rows, &mut bytes);
    write_whole(out, &bytes)
}

// Writes the first 172 bytes of twelve rows one after the other: the frame without the inner parity.
fn get_rows(rows: &[[u8; 182]], frame: &mut [u8; 2064])
    requires { length rows.now ≡ 12 }
    ensures { (q p : ℕ) → q < 12 → p < 172 → slice_index frame.new (172 * q + p) ≡ place rows.now q p }
{
    for (q, row) in rows.iter().enumerate() {
        frame[172 * q..172 * q + 172].copy_from_slice(&row[..172]);
    }
}

// Writes the rows in the order of recording. It goes by recorded rows, so that the bytes are set from the first on.
fn record_rows(rows: &[[u8; 182]], bytes: &mut [u8; RECORDING])
    requires { length rows.now ≡ 208 }
    ensures { bytes.new ≡ recording rows.now }
{
    for m in 0..208 {
        let row = &rows[row_of_record(m)];
        bytes[182 * m..182 * m + 182].copy_from_slice(row);
    }
}

// Sets the first 172 bytes of twelve rows to a frame.
fn put_rows(rows: &mut [[u8; 182]], frame: &[u8; 2064])
    requires { length rows.old ≡ 12 }
    ensures { EachIndex rows.new (λ q. line rows.new q ≡ take 172 (drop (172 * q) frame.now) ++ drop 172 (line rows.old q)) }
{
    for (q, row) in rows.iter_mut().enumerate() {
        put_data(row, &frame[172 * q..172 * q + 172]);
    }
}

// Sets the first 172 bytes of a row. Its ten bytes of parity stay. The row is passed as an array, whose length is known
// to suffice for 172.
fn put_data(row: &mut [u8; 182], prefix: &[u8])
    requires { length prefix.now ≡ 172 }
    ensures { row.new ≡ prefix.now ++ drop 172 row.old }
{
    row[..172].copy_from_slice(prefix);
}
