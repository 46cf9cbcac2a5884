//! The rows of a block that failed: no codeword is near them. All columns have them as marks; a refusal, what was fixed
//! and a survey say how many they are. The two passes gather and count them once and hand them on. dvd_deep notes those
//! of each of its rounds.
ghost use Rattle.std.specs.Prelude.{◌≡◌, ◌≤◌, ◌<◌, ◌↔◌, IsTrue, false, true, length, map, replicate, slice_set};
ghost use Rattle.coding.specs.Filling.{marked};
ghost use Rattle.coding.specs.TwoPass.{answers_of, failed_of};
ghost use Rattle.dvd_capture.specs.Rule.{HasAnswers};
ghost use Rattle.dvd_capture.specs.Works.{marks_of_work, rows_of, stage_of};
ghost use Rattle.dvd_read.specs.Parts.{answer_word};

use dvd_capture::Work;
use dvd_capture::parts::AnswerRow;

// More failed rows than this leave no column an answer. Each costs one of the sixteen bytes of outer parity.
pub(crate) const MOST_FAILED: u16 = 16;

/// The failed rows of a block: a flag for each row, as columns have marks, and how many flags are set. The number is
/// kept beside them so that nobody has to count.
#[derive(Clone, Copy, Debug, PartialEq, Eq)]
pub struct FailedRows {
    /// Whether each of the 208 rows failed. It is public, as contracts of callers name it.
    pub marks: [bool; 208],
    // 16 bits, as the causes have for numbers of rows.
    count: u16,
    /// A block has 208 rows.
    pub ghost size: { length marks ≡ 208 },
    ghost counted: { count ≡ marked marks },
}

impl FailedRows {
    /// Those of a block whose rows are all answered: they need no search through the rows.
    pub fn none() -> FailedRows
        ensures { result.marks ≡ replicate 208 false }
    {
        FailedRows {
            marks: [false; 208],
            count: 0,
        }
    }

    /// Those of a block with these answers: the rows that have none.
    pub fn of(answers: &[AnswerRow]) -> FailedRows
        requires { length answers.now ≡ 208 }
        ensures { result.marks ≡ failed_of (map answer_word answers.now) }
    {
        let mut failed = FailedRows::none();
        for i in 0..208usize {
            if answers[i].fix.is_none() {
                failed.note(i);
            }
        }
        failed
    }

    /// Those of a captured block whose rows are answered, for callers that didn't decode it themselves, as a survey.
    pub fn of_work(work: &Work) -> FailedRows
        requires { HasAnswers (stage_of work.now) }
        ensures { result.marks ≡ failed_of (answers_of (rows_of work.now) (marks_of_work work.now)) }
    {
        FailedRows::of(work.answers.rows())
    }

    /// Notes that row `i` failed. A row that is noted twice counts once.
    pub fn note(&mut self, i: usize)
        requires { i < 208 }
        ensures { self.new.marks ≡ slice_set self.old.marks i true }
    {
        if !self.marks[i] {
            self.marks[i] = true;
            self.count += 1;
        }
    }

    /// How many rows failed.
    pub fn count(&self) -> u16
        ensures count { result ≡ marked self.now.marks }
        ensures within { result ≤ 208 }
    {
        self.count
    }

    /// Whether no more rows failed than columns can correct: sixteen. With more, all columns are without an answer.
    pub fn are_few(&self) -> bool
        ensures { IsTrue result ↔ marked self.now.marks ≤ 16 }
    {
        self.count <= MOST_FAILED
    }
}
