//! A captured block: what was received, and what was found of it. A getter requires a stage at which its buffer means
//! something. Some contracts speak of the buffer alone and would do without; but so nobody takes what is left of an
//! earlier block for this one.
ghost use Rattle.std.proofs.Props.{props};
ghost use Rattle.std.specs.Prelude.{◌≡◌, ℕ, ◌<◌, ◌≤◌, ◌≢◌, ◌↔◌, Bool, false, List, length, take, replicate, slice_index, slice_index_or, slice_set, IfOk, IfSome, IfNone, OnSome};
ghost use Rattle.std.specs.List.{flat_map};
ghost use Rattle.std.specs.declared.option.Option.TheVariants.{None, Some};
ghost use Rattle.coding.specs.Product.{line, place};
ghost use Rattle.dvd_capture.specs.Answers.{AreAnswers, IsFix, marks_line, row_answer};
ghost use Rattle.dvd_capture.specs.Parts.{answer_rows, column_answers, column_words, marks_rows, received_rows};
ghost use Rattle.dvd_capture.specs.Rule.{AgreesWith-prop, HasAnswers, HasBlock, HasNoTwoPass};
ghost use Rattle.coding.specs.TwoPass.{IsTwoPass, from_columns};
ghost use Rattle.dvd_capture.specs.declared.stage.Stage.TheVariants.{Empty, Fetched, Refused, Fixed};

use crate::parts::{Answers, Columns, Marks, Received, Sectors};
use crate::row_marks::RowMarks;
use crate::stage::Stage;
use dvd_block::Block;
use dvd_ports::NoMemory;
use rs_decode::Fix;
use std::alloc::Global;

/// A received block with its marks, what was found of it, and its sixteen sectors. The five buffers are lent apart from
/// each other. Their memory is taken once, before anything is read, and serves each block in turn. The stage is
/// private: whoever has a buffer may write it, but only at a stage that says nothing of what it then holds. `by` shows
/// that any two proofs of a ghost field are the same, so that a work may keep one.
#[derive(Drop)]
pub struct Work {
    pub received: Received,
    pub marks: Marks,
    pub answers: Answers,
    pub columns: Columns,
    pub sectors: Sectors,
    stage: Stage,

    /// Where there are row answers, they are those of the received rows and marks.
    pub ghost answered: { HasAnswers stage → AreAnswers (received_rows received) (marks_rows marks) (answer_rows answers) } by { Prim.hlevel props },

    /// At stage Refused no block has two-pass agreement.
    pub ghost refused: { stage ≡ Refused → HasNoTwoPass (received_rows received) (marks_rows marks) },

    /// At stage Fixed the columns are the block that has it.
    pub ghost fixed: { stage ≡ Fixed → IsTwoPass (received_rows received) (marks_rows marks) (from_columns (column_words columns)) } by { Prim.hlevel AgreesWith-prop },
}

impl Work {
    ghost use Rattle.dvd_block.specs.Buffers.{block_rows};
    ghost use Rattle.dvd_capture.specs.Parts.{marks_of_row};
    ghost use Rattle.dvd_capture.specs.Works.{answers_of_work, block_of, marks_of_work, rows_of, sectors_of, stage_of};

    /// No block: all bytes 0, no marks, no row and no column answered. `NoMemory` may come at any time, and nothing is
    /// taken then: buffers that were taken before it are given back.
    pub fn new(alloc: Global) -> Result<Work, NoMemory>
        ensures stage { IfOk result (λ work. stage_of work ≡ Empty) }
        ensures received { IfOk result (λ work. rows_of work ≡ replicate 208 (replicate 182 0)) }
        ensures marks { IfOk result (λ work. marks_of_work work ≡ replicate 208 (replicate 182 false)) }
        ensures answers { IfOk result (λ work. answers_of_work work ≡ replicate 208 (record { bytes = replicate 182 0; fix = None })) }
        ensures columns { IfOk result (λ work. column_answers work.columns ≡ replicate 182 (record { bytes = replicate 208 0; answered = false })) }
        ensures sectors { IfOk result (λ work. sectors_of work ≡ replicate 16 (replicate 2048 0)) }
    {
        Ok(Work {
            received: Received::new(alloc)?,
            marks: Marks::new(alloc)?,
            answers: Answers::new(alloc)?,
            columns: Columns::new(alloc)?,
            sectors: Sectors::new(alloc)?,
            stage: Stage::Empty,
        })
    }

    /// The stage.
    pub fn stage(&self) -> Stage
        ensures { result ≡ stage_of self.now }
    {
        self.stage
    }

    /// Sets the stage, and all else stays. Where it says that something was found, that is in the buffers: a caller
    /// proves it, and nothing is tested here. Nothing is asked for Empty and Fetched, of which no ghost field speaks.
    /// It is public for dvd_read and dvd_par, which decode.
    pub fn set_stage(&mut self, stage: Stage)
        requires answered { HasAnswers stage → AreAnswers (rows_of self.old) (marks_of_work self.old) (answers_of_work self.old) }
        requires refused { stage ≡ Refused → HasNoTwoPass (rows_of self.old) (marks_of_work self.old) }
        requires fixed { stage ≡ Fixed → IsTwoPass (rows_of self.old) (marks_of_work self.old) (block_of self.old) }
        ensures stage { stage_of self.new ≡ stage }
        ensures received { self.new.received ≡ self.old.received }
        ensures marks { self.new.marks ≡ self.old.marks }
        ensures answers { self.new.answers ≡ self.old.answers }
        ensures columns { self.new.columns ≡ self.old.columns }
        ensures sectors { self.new.sectors ≡ self.old.sectors }
    {
        self.stage = stage;
    }

    /// Receives this block with no marks, as if it were read from an undamaged disk. It is for
    /// `exercise`, as `damage` is: that command reads no capture.
    pub fn load_block(&mut self, block: &Block)
        ensures stage { stage_of self.new ≡ Fetched }
        ensures received { rows_of self.new ≡ block_rows block.now }
        ensures marks { marks_of_work self.new ≡ replicate 208 (replicate 182 false) }
        ensures answers { self.new.answers ≡ self.old.answers }
        ensures columns { self.new.columns ≡ self.old.columns }
        ensures sectors { self.new.sectors ≡ self.old.sectors }
    {
        // At stage Empty the rows and marks may be set one after the other: at Refused or Fixed a ghost field would be
        // wrong between the two.
        self.set_stage(Stage::Empty);
        self.received.set_rows(block.lines.rows());
        self.marks.clear();
        self.set_stage(Stage::Fetched);
    }

    /// Sets the received byte in row `i` at place `j` and its mark. All others stay. `width` says what the type does:
    /// the prover doesn't know the length of an array in a list.
    pub fn damage(&mut self, i: usize, j: usize, byte: u8, mark: bool)
        requires stage { HasBlock (stage_of self.old) }
        requires row { i < 208 }
        requires place { j < 182 }
        ensures stage { stage_of self.new ≡ Fetched }
        ensures received { rows_of self.new ≡ slice_set (rows_of self.old) i (slice_set (line (rows_of self.old) i) j byte) }
        ensures width { length (line (rows_of self.new) i) ≡ 182 }
        ensures marks { marks_of_work self.new ≡ slice_set (marks_of_work self.old) i (slice_set (marks_line (marks_of_work self.old) i) j mark) }
        ensures answers { self.new.answers ≡ self.old.answers }
        ensures columns { self.new.columns ≡ self.old.columns }
        ensures sectors { self.new.sectors ≡ self.old.sectors }
    {
        // Answers to the row as it was no longer count. First, so that no ghost field speaks of the row while it
        // changes.
        self.stage = Stage::Fetched;
        self.received.set(i, j, byte);
        self.marks.set(i, j, mark);
    }

    /// The received byte in row `i` at place `j`. This and `marked` are for `exercise`; decoders read rows.
    pub fn received(&self, i: usize, j: usize) -> u8
        requires stage { HasBlock (stage_of self.now) }
        requires row { i < 208 }
        requires place { j < 182 }
        ensures { result ≡ place (rows_of self.now) i j }
    {
        self.received.row(i)[j]
    }

    /// Whether the place is marked, which `damage` is to keep where only the byte changes.
    pub fn marked(&self, i: usize, j: usize) -> bool
        requires stage { HasBlock (stage_of self.now) }
        requires row { i < 208 }
        requires place { j < 182 }
        ensures { result ≡ slice_index_or (marks_line (marks_of_work self.now) i) j false }
    {
        self.marks.get(i, j)
    }

    /// The received bytes of row `i`. It and `row_marks` are for those that read a whole block without decoding it in
    /// place, as dvd_merge and dvd_deep do.
    pub fn row(&self, i: usize) -> &[u8; 182]
        requires stage { HasBlock (stage_of self.now) }
        requires row { i < 208 }
        ensures { result.now ≡ line (rows_of self.now) i }
    {
        self.received.row(i)
    }

    /// Their marks, lent as bits.
    pub fn row_marks(&self, i: usize) -> &RowMarks
        requires stage { HasBlock (stage_of self.now) }
        requires row { i < 208 }
        ensures { marks_of_row result.now ≡ marks_line (marks_of_work self.now) i }
    {
        self.marks.row_marks(i)
    }

    /// What the answer to row `i` corrects: none exactly where no codeword is near the row. A survey counts these.
    pub fn answer(&self, i: usize) -> Option<Fix>
        requires stage { HasAnswers (stage_of self.now) }
        requires row { i < 208 }
        ensures failed { (result ≡ None) ↔ (row_answer (rows_of self.now) (marks_of_work self.now) i ≡ None) }
        ensures fix { (word : List ℕ) → row_answer (rows_of self.now) (marks_of_work self.now) i ≡ Some word
            → IfSome result (IsFix (line (rows_of self.now) i) (marks_line (marks_of_work self.now) i) word) }
    {
        self.answers.rows()[i].fix
    }

    /// Byte `j` of the codeword near row `i`. A failed row has none, which a clause excludes. It is for programs on
    /// this crate that ask for single bytes: a survey asks for `answer` alone, and decoders read the buffer.
    pub fn answer_byte(&self, i: usize, j: usize) -> u8
        requires stage { HasAnswers (stage_of self.now) }
        requires row { i < 208 }
        requires place { j < 182 }
        requires answered { row_answer (rows_of self.now) (marks_of_work self.now) i ≢ None }
        ensures { IfSome (row_answer (rows_of self.now) (marks_of_work self.now) i) (λ word. result ≡ slice_index word j) }
    {
        self.answers.rows()[i].bytes[j]
    }

    /// The byte in row `i` at place `j` of the block that has two-pass agreement. It is kept by columns. The C library
    /// asks for it; commands read the sectors, which a decoder has written.
    pub fn block_byte(&self, i: usize, j: usize) -> u8
        requires stage { stage_of self.now ≡ Fixed }
        requires row { i < 208 }
        requires place { j < 182 }
        ensures column { result ≡ place (block_of self.now) i j }
        ensures fixed { (block : List (List ℕ)) → IsTwoPass (rows_of self.now) (marks_of_work self.now) block → result ≡ place block i j }
    {
        self.columns.all()[j].bytes[i]
    }

    /// The 2,048 bytes of sector `f`. They may be asked for at any stage: no stage says what the sectors are, since the
    /// call that writes them ensures it.
    pub fn sector(&self, f: usize) -> &[u8]
        requires { f < 16 }
        ensures value { result.now ≡ line (sectors_of self.now) f }
        ensures size { length result.now ≡ 2048 }
    {
        self.sectors.sector(f)
    }

    /// The bytes of the first `count` sectors, one after the other. Commands write them: the last block of an image may
    /// have fewer than sixteen.
    pub fn first_sectors(&self, count: usize) -> &[u8]
        requires { count ≤ 16 }
        ensures { result.now ≡ flat_map (λ sector. sector) (take count (sectors_of self.now)) }
    {
        self.sectors.first(count)
    }

    /// Sets the sixteen sectors to zeros. All else stays. Decoders call it after a block is refused, so that no sector
    /// of an earlier block is left.
    pub fn blank(&mut self)
        ensures sectors { sectors_of self.new ≡ replicate 16 (replicate 2048 0) }
        ensures stage { stage_of self.new ≡ stage_of self.old }
        ensures received { self.new.received ≡ self.old.received }
        ensures marks { self.new.marks ≡ self.old.marks }
        ensures answers { self.new.answers ≡ self.old.answers }
        ensures columns { self.new.columns ≡ self.old.columns }
    {
        self.sectors.blank();
    }
}
