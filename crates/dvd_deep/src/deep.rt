//! A search for the block of a captured one, by rounds.
ghost use Rattle.std.specs.Prelude.{◌≡◌, ◌<◌, IfOk, IfSome, IsTrue, Some, false, is_some};
ghost use Rattle.coding.specs.Product.{place};
ghost use Rattle.dvd_capture.specs.Rule.{HasBlock};
ghost use Rattle.dvd_capture.specs.Works.{marks_of_work, rows_of, stage_of};
ghost use Rattle.dvd_deep.specs.Rounds.{deep_block, deep_round};

use crate::rounds::{Marks, Rows, play_rounds, read_block};
use dvd_capture::{RowMarks, Work};
use dvd_ports::NoMemory;
use std::alloc::Global;

/// The state of a search: the rows of a block, 37,856 bytes in all, their marks, 4,784 bytes, and whether the last
/// search found a block.
/// They are apart from what was received, so that a block that isn't found can still be salvaged from its first pass.
#[derive(Drop)]
pub struct Deep {
    pub(crate) rows: Box<Rows>,
    marks: Box<Marks>,
    // No code reads it: contracts do, so that nobody reads rows that mean nothing.
    has_found: bool,
}

impl Deep {
    ghost use Rattle.dvd_deep.specs.Deeps.{has_found, rows_of_deep};

    /// A search that has found no block yet. `NoMemory` may come at any time, and nothing stays allocated then. The
    /// memory is taken once, before anything is read, and serves each refused block of a run. It is on the heap, since
    /// what lasts as long as a run doesn't belong on the stack.
    pub fn new(alloc: Global) -> Result<Deep, NoMemory>
        ensures { IfOk result (λ deep. has_found deep ≡ false) }
    {
        Ok(Deep {
            rows: Box::new(alloc, [[0; 182]; 208]).map_err(|_| NoMemory)?,
            marks: Box::new(alloc, [RowMarks::none(); 208]).map_err(|_| NoMemory)?,
            has_found: false,
        })
    }

    /// Searches for the block of a captured one by up to four rounds. Each round first replaces rows by the codewords
    /// near them. Then it replaces columns likewise, with the failed rows as marks, or else with the marks that are
    /// left in the column. Returns the number of the first round that finishes: all columns are answered, and all rows
    /// are then codewords. Where none does, no block is found, and the rows mean nothing. What an earlier search found
    /// is lost in each case; `work` stays. `deep` calls it for a block that two passes or its frames refuse, and prints
    /// the number.
    pub fn search(&mut self, work: &Work) -> Option<u8>
        requires stage { HasBlock (stage_of work.now) }
        ensures round { result ≡ deep_round (rows_of work.now) (marks_of_work work.now) }
        ensures block { IfSome result (λ _. deep_block (rows_of work.now) (marks_of_work work.now) ≡ Some (rows_of_deep self.new)) }
        ensures found { has_found self.new ≡ is_some result }
    {
        read_block(work, &mut self.rows, &mut self.marks);
        let round = play_rounds(&mut self.rows, &mut self.marks);
        self.has_found = round.is_some();
        round
    }

    /// The byte in row `i` at place `j` of the block that the last search found. It is for programs on this
    /// crate that ask for single bytes: `deep` asks for the Main Data, by `sectors`.
    pub fn byte(&self, i: usize, j: usize) -> u8
        requires found { IsTrue (has_found self.now) }
        requires row { i < 208 }
        requires place { j < 182 }
        ensures { result ≡ place (rows_of_deep self.now) i j }
    {
        self.rows[i][j]
    }
}
