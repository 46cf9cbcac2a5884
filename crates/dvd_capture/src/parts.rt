//! The buffers of a captured block. Whoever decodes several rows or columns at once lends them one by one. They are on
//! the heap and apart from each other, so that one can be read while another is written. Their lengths never change, by
//! the ghost field `size` of each, which takes no memory and is public for proofs of the crates above. What decoders
//! need of a buffer is public; rows and marks are written in this crate alone. In contracts `received_rows`,
//! `marks_rows`, `answer_rows`, `column_answers` and `sector_bytes` are what a buffer holds, as lists. A clause
//! `writes_back` says of a loan for writing that the buffer is afterwards what was written through it. The clause
//! `width` says what a type does: the prover doesn't know the length of an array in a list. Memory fails in one way, so
//! a failure has nothing but its name.
ghost use Rattle.std.specs.Prelude.{◌≡◌, ℕ, ◌↔◌, ◌+◌, ◌*◌, ◌<◌, ◌≤◌, false, length, take, drop, vec_len, IfOk, IsTrue, replicate, slice_index_or, slice_set};
ghost use Rattle.std.specs.List.{flat_map};
ghost use Rattle.std.specs.declared.option.Option.TheVariants.{None};
ghost use Rattle.coding.specs.Product.{line};
ghost use Rattle.coding.specs.Recording.{record_at};
ghost use Rattle.dvd_capture.specs.Inner.Listing.{IsFound};
ghost use Rattle.dvd_capture.specs.Captured.{marks_in, record_of, record_size};
ghost use Rattle.dvd_capture.specs.declared.form.Form.TheVariants.{Marked};

use crate::form::Form;
use crate::order::{put_in_order, set_rows};
use crate::row_marks::RowMarks;
use dvd_ports::NoMemory;
use rs_decode::Fix;
use rs_lanes::{Row, copy_row};
use std::alloc::Global;

/// The received rows: 208 of 182 bytes, 37,856 bytes in sum. They are one list of bytes and no list of rows, so that
/// one read brings a plain block straight into them: what a list of arrays is after that isn't known.
#[derive(Drop)]
pub struct Received {
    bytes: Vec<u8>,
    pub ghost size: { vec_len bytes ≡ 37_856 },
}

/// A mark for each received place, a bit each: 208 rows of 23 bytes, 4,784 bytes in sum.
/// They are bits, as in the marked form, and are spread out where they are used: most rows have none, which 23 bytes
/// show at once.
#[derive(Drop)]
pub struct Marks {
    rows: Vec<RowMarks>,
    pub ghost size: { vec_len rows ≡ 208 },
}

/// What was found for one row: the codeword near it and what that corrects, or, for a failed row, no `fix`.
/// The bytes of a failed row mean nothing: they are there, as the columns are read over all 208 rows.
#[derive(Clone, Copy, Debug, PartialEq, Eq, Drop)]
pub struct AnswerRow {
    pub bytes: [u8; 182],
    pub fix: Option<Fix>,
}

/// The row answers: 208 with 37,856 bytes in sum.
#[derive(Drop)]
pub struct Answers {
    rows: Vec<AnswerRow>,
    pub ghost size: { vec_len rows ≡ 208 },
}

/// What was found for one column of row answers: its codeword, if it was answered. Its 208 bytes are side by side, so
/// that a column is one thing that a worker writes; in rows they would be apart.
#[derive(Clone, Copy, Debug, PartialEq, Eq, Drop)]
pub struct ColumnAnswer {
    pub bytes: [u8; 208],
    pub answered: bool,
}

/// The columns: 182 with 37,856 bytes in sum.
#[derive(Drop)]
pub struct Columns {
    all: Vec<ColumnAnswer>,
    pub ghost size: { vec_len all ≡ 182 },
}

/// The Main Data of the sixteen sectors of a block: 32,768 bytes in sum.
#[derive(Drop)]
pub struct Sectors {
    all: Vec<[u8; 2048]>,
    pub ghost size: { vec_len all ≡ 16 },
}

impl Received {
    ghost use Rattle.dvd_capture.specs.Parts.{received_bytes, received_rows, row_in};
    ghost use Rattle.dvd_capture.specs.Lends.{LendsBytes};
    ghost use Rattle.std.specs.Borrow.{sem};

    /// Zeros. `NoMemory` may come at any time, and nothing is taken then.
    pub(crate) fn new(alloc: Global) -> Result<Received, NoMemory>
        ensures { IfOk result (λ received. received_rows received ≡ replicate 208 (replicate 182 0)) }
    {
        let bytes = vec![in alloc; 0; 37_856].map_err(|_| NoMemory)?;
        Ok(Received { bytes })
    }

    /// The received rows. The bytes are 208 times 182, so that no bytes are left after the rows.
    pub fn rows(&self) -> &[[u8; 182]]
        ensures rows { result.now ≡ received_rows self.now }
        ensures size { length result.now ≡ 208 }
    {
        self.bytes.as_chunks::<182>().0
    }

    /// The bytes of the rows, lent for writing. Their number stays. A source writes them in the order of recording, and
    /// `put_in_order` has to follow.
    pub(crate) fn bytes_mut(&mut self) -> &mut [u8]
        ensures* writes_back { sem 𝓛 (LendsBytes self.entry result) }
        ensures bytes { result.now ≡ received_bytes self.old }
        ensures size { length result.now ≡ 37_856 }
    {
        &mut self.bytes
    }

    /// Received row `i`.
    pub fn row(&self, i: usize) -> &[u8; 182]
        requires { i < 208 }
        ensures { result.now ≡ line (received_rows self.now) i }
    {
        &self.rows()[i]
    }

    /// Sets all rows, given in the order of the block.
    pub(crate) fn set_rows(&mut self, rows: &[[u8; 182]])
        requires { length rows.now ≡ 208 }
        ensures { received_rows self.new ≡ rows.now }
    {
        self.bytes.copy_from_slice(rows.as_flattened());
    }

    /// Puts the rows in the order of the block, where they are in the order of recording: the twelve rows of a frame
    /// are side by side in both, so they move at once.
    pub(crate) fn put_in_order(&mut self)
        ensures { (i : ℕ) → i < 208 → row_in (received_bytes self.new) i ≡ row_in (received_bytes self.old) (record_at i) }
    {
        put_in_order(&mut self.bytes);
    }

    /// The 205 bytes of recorded row `m`, where rows with their marks came straight into this buffer. They are copied
    /// out, since the row is then set in the same buffer. It is inlined, as `set_row` is: a record is short.
    #[inline(always)]
    pub(crate) fn record(&self, m: usize) -> [u8; 205]
        requires { m < 184 }
        ensures { result ≡ record_of Marked (received_bytes self.now) m }
    {
        let mut record = [0; 205];
        record.copy_from_slice(&self.bytes[205 * m..205 * m + 205]);
        record
    }

    /// Sets row `i`, and nothing else. It is passed as a slice, as it is the first part of a recorded row. The clauses
    /// `front` and `rest` are of bytes that aren't rows yet.
    #[inline(always)]
    pub(crate) fn set_row(&mut self, i: usize, row: &[u8])
        requires row { i < 208 }
        requires size { length row.now ≡ 182 }
        ensures set { received_rows self.new ≡ slice_set (received_rows self.old) i row.now }
        ensures front { take (182 * i) (received_bytes self.new) ≡ take (182 * i) (received_bytes self.old) }
        ensures rest { drop (182 * i + 182) (received_bytes self.new) ≡ drop (182 * i + 182) (received_bytes self.old) }
    {
        set_rows(&mut self.bytes, i, row);
    }

    /// Sets the byte in row `i` at place `j`, and nothing else.
    pub(crate) fn set(&mut self, i: usize, j: usize, byte: u8)
        requires row { i < 208 }
        requires place { j < 182 }
        ensures received { received_rows self.new ≡ slice_set (received_rows self.old) i (slice_set (line (received_rows self.old) i) j byte) }
        ensures width { length (line (received_rows self.new) i) ≡ 182 }
    {
        self.bytes[182 * i + j] = byte;
    }
}

impl Marks {
    ghost use Rattle.dvd_capture.specs.Parts.{marks_of_row, marks_of_rows, marks_rows};
    ghost use Rattle.dvd_capture.specs.Answers.{marks_line};

    /// No marks. `NoMemory` may come at any time, and nothing is taken then.
    pub(crate) fn new(alloc: Global) -> Result<Marks, NoMemory>
        ensures { IfOk result (λ marks. marks_rows marks ≡ replicate 208 (replicate 182 false)) }
    {
        let rows = vec![in alloc; RowMarks::none(); 208].map_err(|_| NoMemory)?;
        Ok(Marks { rows })
    }

    /// The marks of row `i`, lent as bits. `row` writes them as a list, which a decoder needs.
    pub(crate) fn row_marks(&self, i: usize) -> &RowMarks
        requires { i < 208 }
        ensures { marks_of_row result.now ≡ marks_line (marks_rows self.now) i }
    {
        &self.rows[i]
    }

    /// The marks of all rows, lent as bits, for whoever answers several rows at once.
    pub fn rows(&self) -> &[RowMarks]
        ensures rows { marks_of_rows result.now ≡ marks_rows self.now }
        ensures size { length result.now ≡ 208 }
    {
        &self.rows
    }

    /// Writes the marks of row `i`, as the list that decoders read. They ask for `is_clear` first, as most rows have
    /// none.
    pub fn row(&self, i: usize, out: &mut [bool; 182])
        requires { i < 208 }
        ensures { out.new ≡ marks_line (marks_rows self.now) i }
    {
        self.rows[i].unpack(out);
    }

    /// Whether no place of row `i` is marked.
    pub fn is_clear(&self, i: usize) -> bool
        requires { i < 208 }
        ensures { IsTrue result ↔ (marks_line (marks_rows self.now) i ≡ replicate 182 false) }
    {
        self.rows[i].is_clear()
    }

    /// The first place of row `i` from `from` on whose mark is this, or 182. Runs of the listed form are found by it.
    pub(crate) fn next(&self, i: usize, from: usize, mark: bool) -> usize
        requires row { i < 208 }
        requires from { from ≤ 182 }
        ensures { IsFound (λ j. slice_index_or (marks_line (marks_rows self.now) i) j false) mark from 182 result }
    {
        self.rows[i].next(from, mark)
    }

    /// The mark in row `i` at place `j`.
    pub(crate) fn get(&self, i: usize, j: usize) -> bool
        requires row { i < 208 }
        requires place { j < 182 }
        ensures { result ≡ slice_index_or (marks_line (marks_rows self.now) i) j false }
    {
        self.rows[i].get(j)
    }

    /// Sets the mark in row `i` at place `j`, and nothing else.
    pub(crate) fn set(&mut self, i: usize, j: usize, mark: bool)
        requires row { i < 208 }
        requires place { j < 182 }
        ensures { marks_rows self.new ≡ slice_set (marks_rows self.old) i (slice_set (marks_line (marks_rows self.old) i) j mark) }
    {
        self.rows[i].set(j, mark);
    }

    /// Sets the marks of row `i` to those in a recorded row by itself, and no others. In the listed form these are
    /// none: its runs come after all rows.
    pub(crate) fn set_record(&mut self, i: usize, form: Form, bytes: &[u8])
        requires row { i < 208 }
        requires size { length bytes.now ≡ record_size form }
        ensures { marks_rows self.new ≡ slice_set (marks_rows self.old) i (marks_in form bytes.now) }
    {
        self.rows[i].copy_from_record(form, bytes);
    }

    /// Takes all marks away, where a block without marks is received or its runs come after its rows.
    pub(crate) fn clear(&mut self)
        ensures { marks_rows self.new ≡ replicate 208 (replicate 182 false) }
    {
        self.rows.fill(RowMarks::none());
    }
}

impl AnswerRow {
    /// Sets both fields. For a failed row the bytes may be any; the received ones are passed.
    pub fn set(&mut self, bytes: &[u8; 182], fix: Option<Fix>)
        ensures bytes { self.new.bytes ≡ bytes.now }
        ensures fix { self.new.fix ≡ fix }
    {
        copy_row(bytes, &mut self.bytes);
        self.fix = fix;
    }
}

// So rs_lanes tests the columns of answers where they are, without a copy of the rows. The ghost `word` is what its
// clauses call the row.
impl Row for AnswerRow {
    ghost word = { λ answer. answer.bytes };

    fn row(&self) -> &[u8; 182] {
        &self.bytes
    }
}

impl Answers {
    ghost use Rattle.dvd_capture.specs.Parts.{answer_rows};
    ghost use Rattle.dvd_capture.specs.Lends.{LendsAnswers};
    ghost use Rattle.std.specs.Borrow.{sem};

    /// Zeros with no `fix`. `NoMemory` may come at any time, and nothing is taken then.
    pub(crate) fn new(alloc: Global) -> Result<Answers, NoMemory>
        ensures { IfOk result (λ answers. answer_rows answers ≡ replicate 208 (record { bytes = replicate 182 0; fix = None })) }
    {
        let empty = AnswerRow {
            bytes: [0; 182],
            fix: None,
        };
        let rows = vec![in alloc; empty; 208].map_err(|_| NoMemory)?;
        Ok(Answers { rows })
    }

    /// The row answers, of which columns are made. Their bytes mean something only where the stage says so.
    pub fn rows(&self) -> &[AnswerRow]
        ensures rows { result.now ≡ answer_rows self.now }
        ensures size { length result.now ≡ 208 }
    {
        &self.rows
    }

    /// The row answers, lent for writing. Their number stays. Several workers write a piece of them each.
    pub fn rows_mut(&mut self) -> &mut [AnswerRow]
        ensures* writes_back { sem 𝓛 (LendsAnswers self.entry result) }
        ensures rows { result.now ≡ answer_rows self.old }
        ensures size { length result.now ≡ 208 }
    {
        &mut self.rows
    }
}

impl ColumnAnswer {
    /// Sets both fields, for decoders outside this house: those here set each field in its place.
    pub fn set(&mut self, bytes: &[u8; 208], answered: bool)
        ensures bytes { self.new.bytes ≡ bytes.now }
        ensures answered { self.new.answered ≡ answered }
    {
        self.bytes = *bytes;
        self.answered = answered;
    }
}

impl Columns {
    ghost use Rattle.dvd_capture.specs.Parts.{column_answers};
    ghost use Rattle.dvd_capture.specs.Lends.{LendsColumns};
    ghost use Rattle.std.specs.Borrow.{sem};

    /// Zeros, none answered. `NoMemory` may come at any time, and nothing is taken then.
    pub(crate) fn new(alloc: Global) -> Result<Columns, NoMemory>
        ensures { IfOk result (λ columns. column_answers columns ≡ replicate 182 (record { bytes = replicate 208 0; answered = false })) }
    {
        let empty = ColumnAnswer {
            bytes: [0; 208],
            answered: false,
        };
        let all = vec![in alloc; empty; 182].map_err(|_| NoMemory)?;
        Ok(Columns { all })
    }

    /// The columns. Their bytes are the block only where the stage says so.
    pub fn all(&self) -> &[ColumnAnswer]
        ensures columns { result.now ≡ column_answers self.now }
        ensures size { length result.now ≡ 182 }
    {
        &self.all
    }

    /// The columns, lent for writing. Their number stays. Several workers write a piece of them each.
    pub fn all_mut(&mut self) -> &mut [ColumnAnswer]
        ensures* writes_back { sem 𝓛 (LendsColumns self.entry result) }
        ensures columns { result.now ≡ column_answers self.old }
        ensures size { length result.now ≡ 182 }
    {
        &mut self.all
    }
}

impl Sectors {
    ghost use Rattle.dvd_capture.specs.Parts.{sector_bytes};
    ghost use Rattle.dvd_capture.specs.Lends.{LendsSector};
    ghost use Rattle.std.specs.Borrow.{sem};

    /// Zeros. `NoMemory` may come at any time, and nothing is taken then.
    pub(crate) fn new(alloc: Global) -> Result<Sectors, NoMemory>
        ensures { IfOk result (λ sectors. sector_bytes sectors ≡ replicate 16 (replicate 2048 0)) }
    {
        let all = vec![in alloc; [0; 2048]; 16].map_err(|_| NoMemory)?;
        Ok(Sectors { all })
    }

    /// Sets sector `f`, and nothing else, for decoders outside this house: those here write it in place, by
    /// `sector_mut`.
    pub fn set(&mut self, f: usize, main: &[u8; 2048])
        requires { f < 16 }
        ensures { sector_bytes self.new ≡ slice_set (sector_bytes self.old) f main.now }
    {
        self.all[f] = *main;
    }

    /// Sector `f`, lent for writing, so that a decoder descrambles straight into it. The others stay.
    pub fn sector_mut(&mut self, f: usize) -> &mut [u8; 2048]
        requires { f < 16 }
        ensures* writes_back { sem 𝓛 (LendsSector self.entry f result) }
        ensures sector { result.now ≡ line (sector_bytes self.old) f }
    {
        &mut self.all[f]
    }

    /// Sector `f`, for `Work::sector`.
    pub(crate) fn sector(&self, f: usize) -> &[u8; 2048]
        requires { f < 16 }
        ensures { result.now ≡ line (sector_bytes self.now) f }
    {
        &self.all[f]
    }

    /// The first `count` sectors, one after the other. The last block of an image may have fewer than sixteen.
    pub(crate) fn first(&self, count: usize) -> &[u8]
        requires { count ≤ 16 }
        ensures { result.now ≡ flat_map (λ sector. sector) (take count (sector_bytes self.now)) }
    {
        self.all[..count].as_flattened()
    }

    /// Sets all sectors to zeros.
    pub(crate) fn blank(&mut self)
        ensures { sector_bytes self.new ≡ replicate 16 (replicate 2048 0) }
    {
        self.all.fill([0; 2048]);
    }
}
