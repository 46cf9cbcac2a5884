//! What captures of a block know of each of its places, and how it is written.
ghost use Rattle.std.specs.Prelude.{◌≡◌, ◌<◌, vec_len, slice_set, IfOk};
ghost use Rattle.dvd_capture.specs.Parts.{marks_of_row};
ghost use Rattle.dvd_capture.specs.Rule.{HasBlock};
ghost use Rattle.dvd_capture.specs.Works.{marks_of_work, rows_of, stage_of};
ghost use Rattle.dvd_ports.specs.Whole.{IsWritten};
ghost use Rattle.dvd_merge.specs.Join.{join, join_rows, join_tables, known_at, known_row, seen_row, seen_table, unseen};
ghost use Rattle.dvd_merge.specs.MarkedText.{marked_text};
ghost use Rattle.dvd_merge.specs.declared.place.Place.TheVariants.{Value};

use crate::place::{Place, UNSEEN};
use crate::record::{TEXT, fill_text};
use crate::row;
use dvd_capture::{RowMarks, Work};
use dvd_ports::{NoMemory, Sink, WriteFault, write_whole};
use std::alloc::Global;

/// What captures of a block know of its places, in two planes of 37,856 bytes: 208 rows of 182. Values and codes are
/// apart, so that 32 of each fill a vector. The ghost fields take no memory: they are facts of each table, public for
/// proofs of the crates above.
#[derive(Drop)]
pub struct Merge {
    /// The byte of each place. Where no one byte is known it doesn't count, and may be any.
    values: Vec<[u8; 182]>,
    /// The code of what is known of each place.
    codes: Vec<[u8; 182]>,
    /// There are 208 rows of values.
    pub ghost values_size: { vec_len values ≡ 208 },
    /// And 208 rows of codes.
    pub ghost codes_size: { vec_len codes ≡ 208 },
}

impl Merge {
    ghost use Rattle.dvd_merge.specs.Merges.{table_of};

    /// No place is seen. `NoMemory` may come at any time, and nothing is taken then: values that were taken before the
    /// codes failed are given back.
    pub fn new(alloc: Global) -> Result<Merge, NoMemory>
        ensures { IfOk result (λ merge. table_of merge ≡ unseen) }
    {
        let values = vec![in alloc; [0; 182]; 208].map_err(|_| NoMemory)?;
        let codes = vec![in alloc; [UNSEEN; 182]; 208].map_err(|_| NoMemory)?;
        Ok(Merge { values, codes })
    }

    /// Forgets all places, so that one table serves each block of a run.
    pub fn clear(&mut self)
        ensures { table_of self.new ≡ unseen }
    {
        // The codes alone would do: the value of an unseen place doesn't count. The values are set too, so that nothing
        // of an earlier block is left.
        self.values.fill([0; 182]);
        self.codes.fill([UNSEEN; 182]);
    }

    /// Joins a byte into row `i` at place `j`. All else stays. It is for programs on this crate that have single
    /// bytes, and goes by the plain `join` of two places: the commands here join whole rows, by `take_row`.
    pub fn see(&mut self, i: usize, j: usize, byte: u8)
        requires row { i < 208 }
        requires place { j < 182 }
        ensures { table_of self.new ≡ slice_set (table_of self.old) i
            (slice_set (known_row (table_of self.old) i) j (join (known_at (table_of self.old) i j) (Value byte))) }
    {
        let place = self.place(i, j).join(Place::Value(byte));
        self.values[i][j] = place.byte();
        self.codes[i][j] = place.code();
    }

    /// Joins each place of the received block: its byte, or nothing where it is marked. The answers that a `Work` may
    /// have don't count, and it stays. The stage is asked for, since a `Work` without a block may have the bytes of an
    /// earlier one.
    pub fn take(&mut self, work: &Work)
        requires { HasBlock (stage_of work.now) }
        ensures { table_of self.new ≡ join_tables (table_of self.old) (seen_table (rows_of work.now) (marks_of_work work.now)) }
    {
        for i in 0..208 {
            self.take_row(i, work.row(i), work.row_marks(i));
        }
    }

    /// What is known of the place in row `i` at `j`. Tests look at it; programs write the whole block.
    pub fn place(&self, i: usize, j: usize) -> Place
        requires row { i < 208 }
        requires place { j < 182 }
        ensures { result ≡ known_at (table_of self.now) i j }
    {
        Place::new(self.values[i][j], self.codes[i][j])
    }

    /// Writes the block in the marked form, 42,640 bytes: a place with no known byte is 0 and marked. After a fault a
    /// prefix of them was taken.
    pub fn write_marked<K: Sink>(&self, out: &mut K) -> Result<(), WriteFault>
        ensures { IsWritten (marked_text (table_of self.now)) (K.seen out.old) (K.seen out.new) result }
    {
        // The whole text first, so that a block goes out as one piece.
        let mut text = [0; TEXT];
        fill_text(&self.values, &self.codes, &mut text);
        write_whole(out, &text)
    }

    /// Joins each place of a received row into row `i`: its byte, or nothing where it is marked. All else stays. It is
    /// public for dvd_assemble, which has thirteen rows of a block at a time.
    pub fn take_row(&mut self, i: usize, bytes: &[u8; 182], marks: &RowMarks)
        requires { i < 208 }
        ensures { table_of self.new ≡ slice_set (table_of self.old) i
            (join_rows (known_row (table_of self.old) i) (seen_row bytes.now (marks_of_row marks.now))) }
    {
        row::take_row(&mut self.values[i], &mut self.codes[i], bytes, marks);
    }
}
