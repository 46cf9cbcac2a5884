//! Blocks in the listed form: the bytes of the plain form, and after them fields of two bytes, the number of runs of
//! marked places and each run's start and length. All these are a unit. A run is marked places one after the other in
//! the order of recording. In contracts `before` is the bytes of the rows, which come before the fields. The clauses
//! named `cause` and `counts` are of the stream: where the answer is a fault, one call failed and was the last
//! (`HasCause`); where the input ended too early, one read met its end and was the last; else all calls went on, also
//! before a unit that breaks a rule (`HasFetchCause`, `FetchCounts`). So nothing is tried again.
ghost use Rattle.std.specs.Prelude.{◌≡◌, ℕ, ◌+◌, ◌<◌, ◌≤◌, List, length, IfOk, IfErr, OnOk, OnErr};
ghost use Rattle.coding.specs.Product.{line};
ghost use Rattle.dvd_ports.specs.Causes.{HasCause};
ghost use Rattle.arrayvec.specs.ArrayVec.{array_vec_len};
ghost use Rattle.dvd_capture.specs.Listed.{mark_of};
ghost use Rattle.dvd_capture.specs.Listing.{AppendsPart, AppendsUnit};
ghost use Rattle.dvd_capture.specs.Fetching.{FetchCounts, Fetches};
ghost use Rattle.dvd_capture.specs.Inner.Listing.{AppendsAll, AppendsSome, AreRows, HasFetchCause, IsFetched, IsNoField, IsStopped, TakesAll, TakesField, TakesMore, TakesNone};
ghost use Rattle.dvd_capture.specs.Parts.{marks_rows, received_rows};
ghost use Rattle.dvd_capture.specs.Rule.{HasBlock};
ghost use Rattle.dvd_capture.specs.Works.{marks_of_work, rows_of, stage_of};
ghost use Rattle.dvd_capture.specs.declared.form.Form.TheVariants.{Listed};

use crate::capture::{FetchAnswer, fetch_plain};
use crate::parts::{Marks, Received};
use crate::places::PLACES;
use crate::runs::{Fields, MOST_RUNS, Taken, list_runs, take_runs};
use crate::work::Work;
use byteorder::{BigEndian, ByteOrder};
use dvd_block::write_rows;
use dvd_ports::{Failed, Sink, Source, WriteFault, read_whole, write_whole};

/// Writes the unit of the received rows and marks. After a fault a prefix of it was taken. The work stays as it is; row
/// answers and columns aren't written. It is for `convert`, the one command that writes this form.
pub fn write_listed<K: Sink>(work: &Work, out: &mut K) -> Result<(), WriteFault>
    requires { HasBlock (stage_of work.now) }
    ensures written { OnOk result (AppendsUnit (K.seen out.old).bytes (K.seen out.new).bytes (rows_of work.now) (marks_of_work work.now)) }
    ensures begun { OnErr result (AppendsPart (K.seen out.old).bytes (K.seen out.new).bytes (rows_of work.now) (marks_of_work work.now)) }
    ensures cause { HasCause (K.seen out.old) (K.seen out.new) result }
{
    write_unit(work.received.rows(), &work.marks, out)
}

// Writes the unit of these rows and marks: what `write_listed` does, without a stage to speak of. The rows go out
// before the runs are listed, so that no buffer has both.
fn write_unit<K: Sink>(rows: &[[u8; 182]], marks: &Marks, out: &mut K) -> Result<(), WriteFault>
    requires { length rows.now ≡ 208 }
    ensures written { OnOk result (AppendsUnit (K.seen out.old).bytes (K.seen out.new).bytes rows.now (marks_rows marks.now)) }
    ensures begun { OnErr result (AppendsPart (K.seen out.old).bytes (K.seen out.new).bytes rows.now (marks_rows marks.now)) }
    ensures cause { HasCause (K.seen out.old) (K.seen out.new) result }
{
    write_rows(rows, out)?;
    write_runs(marks, out)
}

// Writes the number of runs and then each run, after the bytes of the rows, as one piece. So the fields are one write,
// where the sink accepts them whole.
fn write_runs<K: Sink>(marks: &Marks, out: &mut K) -> Result<(), WriteFault>
    ensures written { (before : List ℕ) → length before ≡ 37_856
        → OnOk result (AppendsAll before (mark_of (marks_rows marks.now)) (K.seen out.old).bytes (K.seen out.new).bytes) }
    ensures begun { (before : List ℕ) → length before ≡ 37_856
        → OnErr result (AppendsSome before (mark_of (marks_rows marks.now)) (K.seen out.old).bytes (K.seen out.new).bytes) }
    ensures cause { HasCause (K.seen out.old) (K.seen out.new) result }
{
    let mut fields = Fields::new();
    list_runs(marks, &mut fields);
    write_whole(out, fields.as_slice())
}

/// Reads a unit into its buffers. The rows come as in the plain form, which also takes all marks away: the runs then
/// only add marks. After an answer other than Full, some runs may be marked already; `fetch` leaves such a block at
/// stage Empty.
pub(crate) fn fetch_listed<S: Source>(
    src: &mut S,
    received: &mut Received,
    marks: &mut Marks,
) -> FetchAnswer
    ensures { Fetches Listed (S.seen src.old) (S.seen src.new) (received_rows received.new) (marks_rows marks.new) result }
{
    match fetch_plain(src, received, marks) {
        FetchAnswer::Full => fetch_marks(src, marks),
        other => other,
    }
}

// Reads the number of runs and then each run, after the bytes of the rows. `fetch_runs` has a `Result` so that each
// step may end it by `?`: its errors are answers too.
fn fetch_marks<S: Source>(src: &mut S, marks: &mut Marks) -> FetchAnswer
    ensures fetched { (before : List ℕ) → AreRows before (mark_of (marks_rows marks.old))
        → IsFetched before (mark_of (marks_rows marks.new)) (S.seen src.old).bytes (S.seen src.new).bytes result }
    ensures counts { FetchCounts result (S.seen src.old) (S.seen src.new) }
{
    match fetch_runs(src, marks) {
        Ok(()) => FetchAnswer::Full,
        Err(answer) => answer,
    }
}

// As `fetch_marks`; `Ok` is the whole list. The fields of the runs come in pieces, and each is looked at before the
// next one is asked for, so that no more is waited for where one breaks a rule.
fn fetch_runs<S: Source>(src: &mut S, marks: &mut Marks) -> Result<(), FetchAnswer>
    ensures all { (before : List ℕ) → AreRows before (mark_of (marks_rows marks.old))
        → OnOk result (TakesAll before (mark_of (marks_rows marks.new)) (S.seen src.old).bytes (S.seen src.new).bytes) }
    ensures stopped { (before : List ℕ) → AreRows before (mark_of (marks_rows marks.old))
        → IfErr result (IsStopped before (S.seen src.old).bytes (S.seen src.new).bytes) }
    ensures cause { HasFetchCause result (S.seen src.old) (S.seen src.new) }
{
    // The offsets that are reported count from the first byte of the unit. A place has one byte, so that the number of
    // places is also that of the bytes before the fields.
    let number = fetch_field(src, PLACES)?;
    // Refused before more is read, and so the fields have room for all that follow. The offset is that of the number.
    if number > MOST_RUNS {
        return Err(FetchAnswer::BadMarks { at: PLACES as u32 });
    }
    let mut fields = Fields::new();
    let mut taken = Taken { runs: 0, end: 0 };
    // Each iteration reads a byte at least, so the loop ends. A run has four bytes and is taken once these are whole,
    // so all are at the end.
    while fields.len() < 4 * number {
        read_fields(src, &mut fields, 4 * number)?;
        taken = take_runs(marks, fields.as_slice(), taken)?;
    }
    Ok(())
}

// Reads some of the fields, by one call, up to so many bytes in all. So nothing of the next unit is read. 75,712 bytes
// are the fields of the most runs, 18,928. After an error the fields stay.
fn read_fields<S: Source>(src: &mut S, fields: &mut Fields, most: usize) -> Result<(), FetchAnswer>
    requires some { array_vec_len fields.old < most }
    requires room { most ≤ 75_712 }
    ensures more { OnOk result (TakesMore most fields.old.items fields.new.items (S.seen src.old).bytes (S.seen src.new).bytes) }
    ensures none { IfErr result (TakesNone (37_858 + length fields.old.items) (S.seen src.old).bytes (S.seen src.new).bytes) }
    ensures cause { HasFetchCause result (S.seen src.old) (S.seen src.new) }
{
    // A read goes into an array first, since the list of fields lends only what it holds. Any length would do: a longer
    // one takes more stack, and a shorter one more calls. `read_whole` would wait for all of it.
    let mut piece = [0; 4096];
    let room = piece.len().min(most - fields.len());
    match src.read(&mut piece[..room]) {
        // The source has ended: the bytes of the rows, the number of runs and these fields came.
        Ok(0) => Err(FetchAnswer::Short {
            bytes: (PLACES + 2 + fields.len()) as u32,
        }),
        Ok(count) => {
            // There is room: no more is asked for than the number of runs allows.
            let _ = fields.try_extend_from_slice(&piece[..count]);
            Ok(())
        }
        Err(Failed) => Err(FetchAnswer::ReadFault),
    }
}

// Reads a field, before which so many bytes of the unit were taken; an end within it is reported with those. The number
// of runs alone is read so, after 37,856 bytes. The clause on `held` has any number that leaves room in 32 bits.
fn fetch_field<S: Source>(src: &mut S, held: usize) -> Result<usize, FetchAnswer>
    requires { held ≤ 200_000 }
    ensures field { IfOk result (TakesField (S.seen src.old).bytes (S.seen src.new).bytes) }
    ensures small { IfOk result (λ value. value < 65_536) }
    ensures stopped { IfErr result (IsNoField held (S.seen src.old).bytes (S.seen src.new).bytes) }
    ensures cause { HasFetchCause result (S.seen src.old) (S.seen src.new) }
{
    let mut bytes = [0; 2];
    match read_whole(src, &mut bytes) {
        Ok(2) => Ok(usize::from(BigEndian::read_u16(&bytes))),
        Ok(count) => Err(FetchAnswer::Short {
            bytes: (held + count) as u32,
        }),
        Err(Failed) => Err(FetchAnswer::ReadFault),
    }
}
