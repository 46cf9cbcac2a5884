//! The buffers of a block.
//! They are on the heap, since what lasts as long as a run doesn't belong on the stack. They are lent one by one, so
//! that rows and cells can be worked on at once. A clause `writes_back` says of a loan that the buffer is afterwards
//! what was written through it, and as long as it was. Memory fails in one way, so a failure has nothing but its name.
//! A ghost field `size` takes no memory: it is a fact of each value, public for proofs of the crates above.
ghost use Rattle.std.specs.Prelude.{◌≡◌, length, vec_len, IfOk, replicate};

use dvd_ports::NoMemory;
use std::alloc::Global;

/// The 208 rows of 182 bytes, 37,856 bytes in sum.
#[derive(Drop)]
pub struct Lines {
    rows: Vec<[u8; 182]>,
    pub ghost size: { vec_len rows ≡ 208 },
}

/// A cell of 16 bytes for each of the 182 columns, for its outer parity while it is computed; 2,912 bytes in sum. So
/// rows can be read while columns are encoded, and the rows of outer parity are set afterwards. Several workers fill
/// them, each a piece; one alone writes the rows at once, by `Block::add_parity`.
#[derive(Drop)]
pub struct Cells {
    cells: Vec<[u8; 16]>,
    pub ghost size: { vec_len cells ≡ 182 },
}

impl Lines {
    ghost use Rattle.dvd_block.specs.Buffers.{lines_rows};
    ghost use Rattle.dvd_block.specs.Lends.{LendsRows};
    ghost use Rattle.std.specs.Borrow.{sem};

    /// Zeros. `NoMemory` may come at any time, and nothing is taken then.
    pub(crate) fn new(alloc: Global) -> Result<Lines, NoMemory>
        ensures { IfOk result (λ lines. lines_rows lines ≡ replicate 208 (replicate 182 0)) }
    {
        let rows = vec![in alloc; [0; 182]; 208].map_err(|_| NoMemory)?;
        Ok(Lines { rows })
    }

    /// The rows.
    pub fn rows(&self) -> &[[u8; 182]]
        ensures rows { result.now ≡ lines_rows self.now }
        ensures size { length result.now ≡ 208 }
    {
        &self.rows
    }

    /// The rows, lent for writing. Their number stays.
    pub fn rows_mut(&mut self) -> &mut [[u8; 182]]
        ensures* writes_back { sem 𝓛 (LendsRows self.entry result) }
        ensures rows { result.now ≡ lines_rows self.old }
        ensures size { length result.now ≡ 208 }
    {
        &mut self.rows
    }
}

impl Cells {
    ghost use Rattle.dvd_block.specs.Buffers.{cells_all};
    ghost use Rattle.dvd_block.specs.Lends.{LendsCells};
    ghost use Rattle.std.specs.Borrow.{sem};

    /// Zeros. `NoMemory` may come at any time, and nothing is taken then.
    pub(crate) fn new(alloc: Global) -> Result<Cells, NoMemory>
        ensures { IfOk result (λ cells. cells_all cells ≡ replicate 182 (replicate 16 0)) }
    {
        let cells = vec![in alloc; [0; 16]; 182].map_err(|_| NoMemory)?;
        Ok(Cells { cells })
    }

    /// The cells.
    pub fn all(&self) -> &[[u8; 16]]
        ensures cells { result.now ≡ cells_all self.now }
        ensures size { length result.now ≡ 182 }
    {
        &self.cells
    }

    /// Sets all cells to zeros. Whoever adds parity calls it at the end, with cells used or not, so that a block
    /// doesn't depend on the number of workers.
    pub fn clear(&mut self)
        ensures { cells_all self.new ≡ replicate 182 (replicate 16 0) }
    {
        self.cells.fill([0; 16]);
    }

    /// The cells, lent for writing. Their number stays.
    pub fn all_mut(&mut self) -> &mut [[u8; 16]]
        ensures* writes_back { sem 𝓛 (LendsCells self.entry result) }
        ensures cells { result.now ≡ cells_all self.old }
        ensures size { length result.now ≡ 182 }
    {
        &mut self.cells
    }
}
