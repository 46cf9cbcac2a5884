//! A captured recording frame: thirteen rows with their marks. It is read into memory of its own, since only its first
//! row says to which block it belongs.
ghost use Rattle.std.specs.Prelude.{◌≡◌, ◌≢◌, ℕ, ◌<◌, false, length, replicate, take};
ghost use Rattle.coding.specs.Product.{line};
ghost use Rattle.dvd_capture.specs.Answers.{marks_line};
ghost use Rattle.dvd_capture.specs.Captured.{HasSize, marks_in, record_size};
ghost use Rattle.dvd_capture.specs.Parts.{marks_of_row};
ghost use Rattle.dvd_capture.specs.declared.capture.FetchAnswer.TheVariants.{Full, End, Short, ReadFault, BadMarks};
ghost use Rattle.dvd_capture.specs.Fetching.{FetchCounts};
ghost use Rattle.dvd_merge.specs.Merges.{table_of};
ghost use Rattle.dvd_ports.specs.Whole.{ConsumesFewer};
ghost use Rattle.dvd_assemble.specs.Frames.{CapturesFrame, FrameEndsAfter, frame_in, frame_size};
ghost use Rattle.dvd_assemble.specs.Assembled.{with_frame};
ghost use Rattle.dvd_assemble.specs.Works.{captured};

use dvd_block::row_of_record;
use dvd_capture::{FetchAnswer, Form, RowMarks, cut_off};
use dvd_merge::Merge;
use dvd_ports::{Failed, Source, read_whole};

// The bytes of a recorded row, and of its mark bits: one for each of 182 bytes, in whole bytes.
const ROW: usize = 182;

const MARK_BYTES: usize = 23;

// The bytes of a frame in the form that has most, the marked one: 2,665. A buffer of this size serves both forms.
const MOST: usize = 13 * (ROW + MARK_BYTES);

/// A captured recording frame: thirteen rows of 182 bytes, and 23 bytes of mark bits for each.
#[derive(Clone, Copy, Debug, PartialEq, Eq)]
pub struct FrameWork {
    rows: [[u8; ROW]; 13],
    marks: [RowMarks; 13],
}

impl FrameWork {
    ghost use Rattle.dvd_assemble.specs.Works.{captured, frame_marks, frame_rows};

    /// Zeros without marks, for `fetch_frame` to fill: one buffer serves all frames of a run.
    pub fn new() -> FrameWork
        ensures rows { frame_rows result ≡ replicate 13 (replicate 182 0) }
        ensures marks { frame_marks result ≡ replicate 13 (replicate 182 false) }
    {
        FrameWork {
            rows: [[0; ROW]; 13],
            marks: [RowMarks::none(); 13],
        }
    }

    // Sets all rows and their marks to those in these bytes. Nothing of an earlier frame stays: in the plain form,
    // which has no marks, all are cleared.
    fn put(&mut self, form: Form, bytes: &[u8])
        requires { length bytes.now ≡ frame_size form }
        ensures { captured self.new ≡ frame_in form bytes.now }
    {
        let size = form.record_size();
        for q in 0..13usize {
            let row = &bytes[size * q..size * q + size];
            put_row(&mut self.rows[q], &mut self.marks[q], form, row);
        }
    }

    // The first row, which has the ID: it alone says where the frame belongs.
    pub(crate) fn first_row(&self) -> &[u8; ROW]
        ensures { result.now ≡ line (frame_rows self.now) 0 }
    {
        &self.rows[0]
    }

    // The marks of row `q`.
    pub(crate) fn row_marks(&self, q: usize) -> &RowMarks
        requires { q < 13 }
        ensures { marks_of_row result.now ≡ marks_line (frame_marks self.now) q }
    {
        &self.marks[q]
    }

    // Joins the frame into a block as its recording frame `f`. Its rows go to where the order of recording has them,
    // the last among the rows of outer parity. The block's other rows stay, and so does this frame. A `Merge` is what
    // frames said of a block so far: a marked place adds nothing to it, and two different bytes make a conflict.
    pub(crate) fn join_into(&self, f: usize, merge: &mut Merge)
        requires { f < 16 }
        ensures { table_of merge.new ≡ with_frame f (captured self.now) (table_of merge.old) }
    {
        for q in 0..13usize {
            merge.take_row(row_of_record(13 * f + q), &self.rows[q], self.row_marks(q));
        }
    }
}

// Sets a row and its marks to those in the bytes of a recorded row: 182 bytes, and in the marked form the mark bits
// after them. The form alone says whether there are any, so both forms are read by one function.
fn put_row(row: &mut [u8; ROW], marks: &mut RowMarks, form: Form, bytes: &[u8])
    requires { length bytes.now ≡ record_size form }
    ensures row { row.new ≡ take 182 bytes.now }
    ensures marks { marks_of_row marks.new ≡ marks_in form bytes.now }
{
    row.copy_from_slice(&bytes[..ROW]);
    marks.copy_from_record(form, bytes);
}

/// Reads one recording frame, by as many calls as that needs: 2,366 bytes in the plain form, 2,665 in the marked form.
/// It is `End` where the source ended before the first, and `Short` where it ended within. One that isn't whole leaves
/// the frame as it was. Marks of these forms break no rule (`no_rule`). The listed form is left out (`HasSize`): its
/// units are whole blocks, whose sizes differ. It isn't the call that reads a whole block: that one puts rows in their
/// places, and here only the rows that are read say which place that is. `tactic` names a lemma: where fewer bytes
/// came, the last read met the end.
#[tactic(auto, using(dvd_capture::proofs::FetchedCounts::cut_counts))]
pub fn fetch_frame<S: Source>(src: &mut S, form: Form, frame: &mut FrameWork) -> FetchAnswer
    requires { HasSize form }
    ensures full { result ≡ Full → CapturesFrame form (S.seen src.old).bytes (S.seen src.new).bytes (captured frame.new) }
    ensures end { result ≡ End → FrameEndsAfter form (S.seen src.old).bytes (S.seen src.new).bytes 0 }
    ensures short { (count : ℕ) → result ≡ Short count → (0 < count) × FrameEndsAfter form (S.seen src.old).bytes (S.seen src.new).bytes count }
    ensures no_rule { (at : ℕ) → result ≢ BadMarks at }
    ensures fault { result ≡ ReadFault → ConsumesFewer (S.seen src.old).bytes (S.seen src.new).bytes (frame_size form) }
    ensures counts { FetchCounts result (S.seen src.old) (S.seen src.new) }
    ensures same { result ≢ Full → frame.new ≡ frame.old }
{
    let size = 13 * form.record_size();
    let mut buffer = [0; MOST];
    // The bytes come here first and not into the frame, which has to stay where they aren't all. They are as many as
    // the form has, so that none of the next frame is read.
    let bytes = &mut buffer[..size];
    match read_whole(src, bytes) {
        // `End` where there is none, and else `Short`.
        Ok(count) if count < size => cut_off(count),
        Ok(_) => {
            // Only whole frames come here, so that a cut one leaves what was there.
            frame.put(form, bytes);
            FetchAnswer::Full
        }
        Err(Failed) => FetchAnswer::ReadFault,
    }
}
