//! Captured blocks are read from a source. A recorded row, or record, is a row at its place in the order of recording,
//! with its mark bits after it in the marked form. `tactic` names lemmas for the prover. Numbers of bytes have 32 bits
//! in answers: the longest block, a listed one with all its runs, has 113,570 bytes. A buffer that one call needs is on
//! the stack, since nothing is allocated once blocks are read.
ghost use Rattle.std.specs.Prelude.{◌≡◌, ◌≢◌, ℕ, ◌*◌, ◌<◌, ◌==◌, if◌then◌else◌, Bool, List, ◌++◌, ◌+◌, ◌≤◌, IfOk, OnErr, length, take, slice_set};
ghost use Rattle.std.specs.Io.{ReadsAtMost};
ghost use Rattle.dvd_ports.specs.Bytes.{Consumes, IsAtEnd};
ghost use Rattle.dvd_ports.specs.Causes.{HasFilled};
ghost use Rattle.dvd_ports.specs.Whole.{ConsumesFewer};
ghost use Rattle.coding.specs.Recording.{row_at};
ghost use Rattle.dvd_capture.specs.Captured.{captured_marks, captured_rows, marks_in, record_of};
ghost use Rattle.dvd_capture.specs.Parts.{marks_rows, received_bytes, received_rows};
ghost use Rattle.dvd_capture.specs.Fetching.{Fetches};
ghost use Rattle.dvd_capture.specs.Inner.Putting.{ArePut};
ghost use Rattle.dvd_capture.specs.Works.{marks_of_work, rows_of, stage_of};
ghost use Rattle.dvd_capture.specs.declared.form.Form.TheVariants.{Plain, Marked};
ghost use Rattle.dvd_capture.specs.declared.stage.Stage.TheVariants.{Empty, Fetched};
ghost use Rattle.dvd_capture.specs.declared.capture.FetchAnswer.TheVariants.{Full, End, Short, BadMarks};

use crate::form::Form;
use crate::listed::fetch_listed;
use crate::parts::{Marks, Received};
use crate::stage::Stage;
use crate::work::Work;
use dvd_block::row_of_record;
use dvd_ports::{Failed, Source, read_whole};

const RECORD: usize = 205; // a row and its mark bits

const FIRST_RECORDS: usize = 13 * 13; // the records of the first thirteen recording frames

const FIRST: usize = FIRST_RECORDS * RECORD; // their bytes, which end before the rows of outer parity, at 192 * 182

const LAST: usize = 3 * 13 * RECORD; // the bytes of the last three

/// What a source gave for one block.
#[derive(Clone, Copy, Debug, PartialEq, Eq)]
pub enum FetchAnswer {
    /// The whole block.
    Full,
    /// Nothing: the source ended before the first byte.
    End,
    /// So many bytes and then its end.
    Short { bytes: u32 },
    /// A fault.
    ReadFault,
    /// Runs of marks that break a rule: the first field that does begins so many bytes after the block's first.
    BadMarks { at: u32 },
}

/// Reads one captured block, by as many calls as it takes. A block that isn't whole leaves the work at stage Empty: in
/// the listed form its rows may be written by then, with some of their marks. Answers, columns and sectors of an
/// earlier block stay in their buffers, and no clause of either stage speaks of them.
pub fn fetch<S: Source>(src: &mut S, form: Form, work: &mut Work) -> FetchAnswer
    ensures fetches { Fetches form (S.seen src.old) (S.seen src.new) (rows_of work.new) (marks_of_work work.new) result }
    ensures fetched { result ≡ Full → stage_of work.new ≡ Fetched }
    ensures empty { result ≢ Full → stage_of work.new ≡ Empty }
    ensures answers { work.new.answers ≡ work.old.answers }
    ensures columns { work.new.columns ≡ work.old.columns }
    ensures sectors { work.new.sectors ≡ work.old.sectors }
{
    // Answers of an earlier block would not be those of other rows, so the stage goes first.
    work.set_stage(Stage::Empty);
    // At stage Empty nothing is said of the buffers, so they may be written in part.
    let answer = fetch_parts(src, form, &mut work.received, &mut work.marks);
    if answer == FetchAnswer::Full {
        work.set_stage(Stage::Fetched);
    }
    answer
}

// Reads a block into its buffers. They are lent without the work, whose stage would have to fit what they hold. After
// another answer than Full they may be written in part, or not at all.
fn fetch_parts<S: Source>(
    src: &mut S,
    form: Form,
    received: &mut Received,
    marks: &mut Marks,
) -> FetchAnswer
    ensures { Fetches form (S.seen src.old) (S.seen src.new) (received_rows received.new) (marks_rows marks.new) result }
{
    match form {
        Form::Plain => fetch_plain(src, received, marks),
        Form::Marked => fetch_marked(src, received, marks),
        Form::Listed => fetch_listed(src, received, marks),
    }
}

// Reads a block without marks. Its rows come straight into their buffer in the order of recording, since one read can't
// fill rows that are apart, and are put in the order of the block there. Where not all came, what the rows had before
// is lost, and nobody may read them: the block's stage is Empty then. Marks of an earlier block are cleared. The listed
// form has its rows read here too. The clause `never` says that BadMarks comes from runs alone.
pub(crate) fn fetch_plain<S: Source>(
    src: &mut S,
    received: &mut Received,
    marks: &mut Marks,
) -> FetchAnswer
    ensures fetches { Fetches Plain (S.seen src.old) (S.seen src.new) (received_rows received.new) (marks_rows marks.new) result }
    ensures never { (at : ℕ) → result ≢ BadMarks at }
{
    let answer = fill(src, received.bytes_mut());
    if answer == FetchAnswer::Full {
        received.put_in_order();
        marks.clear();
    }
    answer
}

// Fills a buffer with the bytes of a plain block. Where all came, the block is the rows that are captured in them, with
// no marks.
#[tactic(auto, using(crate::proofs::FetchedCounts::cut_counts))]
fn fill<S: Source>(src: &mut S, buffer: &mut [u8]) -> FetchAnswer
    requires { length buffer.old ≡ 37_856 }
    ensures size { length buffer.new ≡ 37_856 }
    ensures fetches { (rows : List (List ℕ)) (marks : List (List Bool))
        → (result ≡ Full → (rows ≡ captured_rows Plain buffer.new) × (marks ≡ captured_marks Plain buffer.new))
        → Fetches Plain (S.seen src.old) (S.seen src.new) rows marks result }
    ensures never { (at : ℕ) → result ≢ BadMarks at }
{
    match read_whole(src, buffer) {
        Ok(count) if count < buffer.len() => cut_off(count),
        Ok(_) => FetchAnswer::Full,
        Err(Failed) => FetchAnswer::ReadFault,
    }
}

// Reads a block that has marks after the bytes of each row. Its 42,640 bytes don't fit in the rows' buffer, and one for
// all of them would be zeroed first and then read again. So the first thirteen recording frames come straight into the
// rows' buffer, and are put in order there. They end before the rows of outer parity, so that each row can be set at
// its place at once. The last three frames come into a small buffer.
fn fetch_marked<S: Source>(src: &mut S, received: &mut Received, marks: &mut Marks) -> FetchAnswer
    ensures { Fetches Marked (S.seen src.old) (S.seen src.new) (received_rows received.new) (marks_rows marks.new) result }
{
    let mut last = [0; LAST];
    let answer = fill_marked(src, received.bytes_mut(), &mut last);
    if answer == FetchAnswer::Full {
        put_first(received, marks);
        put_last(received, marks, &last);
    }
    answer
}

// Reads a marked block: the first frames into the front of the rows' buffer, and the last ones into their own. Where
// all came, the block is the rows and marks that are captured in both together.
fn fill_marked<S: Source>(src: &mut S, rows: &mut [u8], last: &mut [u8; LAST]) -> FetchAnswer
    requires { length rows.old ≡ 37_856 }
    ensures size { length rows.new ≡ 37_856 }
    ensures fetches { (block : List (List ℕ)) (marks : List (List Bool))
        → (result ≡ Full → (block ≡ captured_rows Marked (take 34_645 rows.new ++ last.new)) × (marks ≡ captured_marks Marked (take 34_645 rows.new ++ last.new)))
        → Fetches Marked (S.seen src.old) (S.seen src.new) block marks result }
{
    fill_both(src, &mut rows[..FIRST], last)
}

// Fills two buffers with the bytes of a marked block. Where all came, the block is the rows and marks that are captured
// in both together.
#[tactic(auto, using(crate::proofs::FetchedCounts::cut_counts))]
fn fill_both<S: Source>(src: &mut S, first: &mut [u8], last: &mut [u8]) -> FetchAnswer
    requires first { length first.old ≡ 34_645 }
    requires last { length last.old ≡ 7_995 }
    ensures first { length first.new ≡ 34_645 }
    ensures last { length last.new ≡ 7_995 }
    ensures fetches { (rows : List (List ℕ)) (marks : List (List Bool))
        → (result ≡ Full → (rows ≡ captured_rows Marked (first.new ++ last.new)) × (marks ≡ captured_marks Marked (first.new ++ last.new)))
        → Fetches Marked (S.seen src.old) (S.seen src.new) rows marks result }
{
    match read_both(src, first, last) {
        Ok(count) if count < FIRST + LAST => cut_off(count),
        Ok(_) => FetchAnswer::Full,
        Err(Failed) => FetchAnswer::ReadFault,
    }
}

// Fills two buffers one after the other, as `read_whole` fills one that has the bytes of both. Nothing is asked for
// after the end of the input.
#[tactic(auto, using(crate::proofs::ReadParts::both_begun, crate::proofs::ReadParts::both_taken))]
fn read_both<S: Source>(src: &mut S, first: &mut [u8], last: &mut [u8]) -> Result<usize, Failed>
    requires { length first.old + length last.old ≤ 42_640 }
    ensures first { length first.new ≡ length first.old }
    ensures last { length last.new ≡ length last.old }
    ensures size { length (first.new ++ last.new) ≡ length first.old + length last.old }
    ensures bound { ReadsAtMost result (first.new ++ last.new) }
    ensures taken { IfOk result (λ count. Consumes (S.seen src.old).bytes (S.seen src.new).bytes (take count (first.new ++ last.new))) }
    ensures end { IfOk result (λ count. count < length (first.new ++ last.new) → IsAtEnd (S.seen src.new).bytes) }
    ensures begun { OnErr result (ConsumesFewer (S.seen src.old).bytes (S.seen src.new).bytes (length (first.new ++ last.new))) }
    ensures stops { HasFilled (length (first.new ++ last.new)) (S.seen src.old) (S.seen src.new) result }
{
    let count = read_whole(src, first)?;
    if count < first.len() {
        return Ok(count);
    }
    Ok(count + read_whole(src, last)?)
}

/// What is answered where a source ended after so many bytes of a block, or of a part of one. They are fewer than the
/// 42,640 of a whole marked block, and so have room in 32 bits. Nothing at all is an answer of its own, since an input
/// may end between two blocks. It is public for dvd_assemble, which reads recording frames.
pub fn cut_off(bytes: usize) -> FetchAnswer
    requires { bytes < 42640 }
    ensures { result ≡ (if bytes == 0 then End else Short bytes) }
{
    if bytes == 0 {
        FetchAnswer::End
    } else {
        FetchAnswer::Short {
            bytes: bytes as u32,
        }
    }
}

// Puts the records that are in the rows' buffer, from the first on. None is written over before it is put: a row of a
// data frame has no higher number in the block than its record has, and fewer bytes, and rows of outer parity come
// after these records. The clause has any bytes after them, so that `put_last` goes on from there.
fn put_first(received: &mut Received, marks: &mut Marks)
    ensures { (last : List ℕ) → ArePut Marked (take 34_645 (received_bytes received.old) ++ last) (received_rows received.new) (marks_rows marks.new) 169 }
{
    for m in 0..FIRST_RECORDS {
        let record = received.record(m);
        put_record(received, marks, m, &record);
    }
}

// Puts the records of the last frames, which have a buffer of their own. Those before are put already, and stay.
fn put_last(received: &mut Received, marks: &mut Marks, last: &[u8; LAST])
    ensures { (first : List ℕ) → length first ≡ 34_645
        → ArePut Marked (first ++ last.now) (received_rows received.old) (marks_rows marks.old) 169
        → ArePut Marked (first ++ last.now) (received_rows received.new) (marks_rows marks.new) 208 }
{
    for m in FIRST_RECORDS..208 {
        let from = RECORD * (m - FIRST_RECORDS);
        put_record(received, marks, m, &last[from..from + RECORD]);
    }
}

// Sets the row that is recorded row `m`, and its marks. All other rows and marks stay, and later records that are in
// the rows' buffer. The first 182 bytes are the row; where marks are, `set_record` knows. It is inlined, so that the
// length of the record is known where it is copied.
#[inline(always)]
fn put_record(received: &mut Received, marks: &mut Marks, m: usize, bytes: &[u8])
    requires row { m < 208 }
    requires size { length bytes.now ≡ 205 }
    ensures received { received_rows received.new ≡ slice_set (received_rows received.old) (row_at m) (take 182 bytes.now) }
    ensures marks { marks_rows marks.new ≡ slice_set (marks_rows marks.old) (row_at m) (marks_in Marked bytes.now) }
    ensures later { (k : ℕ) → m < k → k < 169 → record_of Marked (received_bytes received.new) k ≡ record_of Marked (received_bytes received.old) k }
{
    let i = row_of_record(m);
    received.set_row(i, &bytes[..182]);
    marks.set_record(i, Form::Marked, bytes);
}
