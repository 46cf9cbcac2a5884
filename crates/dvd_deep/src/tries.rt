//! What a column is tried with in a column step. `MarksListed` says that a row that isn't noted as marked has no mark.
ghost use Rattle.std.specs.Prelude.{◌≡◌, ◌<◌, ◌≤◌, ℕ, List, false, is_some, length, unwrap_or};
ghost use Rattle.coding.specs.Field.{alpha, power};
ghost use Rattle.std.specs.Option.{ForSome, option_or};
ghost use Rattle.coding.specs.Filling.{marked};
ghost use Rattle.coding.specs.Nearest.{near_of};
ghost use Rattle.coding.specs.Product.{place};
ghost use Rattle.coding.specs.Words.{value};
ghost use Rattle.dvd_capture.specs.Parts.{marks_of_rows};
ghost use Rattle.dvd_deep.specs.Rounds.{column_marks, mark_in};
ghost use Rattle.dvd_deep.specs.Inner.Steps.{MarksListed};
ghost use Rattle.rs_decode.specs.Patches.{Completes};

use crate::rounds::Marks;
use dvd_read::{ColumnGroup, patches_for};
use rs_decode::{Erasures, Patches};
use std::simd::prelude::*;

/// What a column is tried with: the failed rows as its marks, and then its own marks.
#[derive(Drop)]
pub(crate) struct Tries<'a> {
    pub failed: &'a [bool; 208],
    // The places of the failed rows, where these are no more than the sixteen that a column corrects.
    erasures: Option<Erasures<208>>,
    pub marks: &'a Marks,
    // The rows that have a mark. They are found once, so that columns needn't look at rows without marks.
    marked_rows: [bool; 208],
    ghost size: { length failed.now ≡ 208 },
    ghost erased: { ForSome erasures (λ erasures. (marked erasures.marks ≤ 16) × (erasures.marks ≡ failed.now)) },
    ghost many: { is_some erasures ≡ false → 16 < marked failed.now },
    ghost listed: { MarksListed (marks_of_rows marks.now) marked_rows },
}

impl<'a> Tries<'a> {
    /// Those of a state after its row step.
    pub fn new(failed: &'a [bool; 208], marks: &'a Marks) -> Tries<'a>
        ensures failed { result.failed.now ≡ failed.now }
        ensures marks { result.marks.now ≡ marks.now }
    {
        Tries {
            failed,
            erasures: Erasures::shared(failed, 16),
            marks,
            marked_rows: marked_rows(marks),
        }
    }

    /// What 32 columns with these values lack in the failed rows, or nothing where these are too many.
    pub fn patches(&self, values: &[u8x32; 16]) -> Patches
        ensures { (n : ℕ) (word : List ℕ) → n < 32 → length word ≡ 208
            → ((k : ℕ) → k < 16 → place values.now k n ≡ value word (power alpha k)) → Completes result self.now.failed.now n word }
    {
        match &self.erasures {
            Some(erasures) => patches_for(erasures, values),
            None => Patches::none(),
        }
    }

    /// Answers the word of column `j`, which has lane `n` of the group. The first try believes no byte of a failed row, as
    /// two passes do. Where it finds no codeword, as with more than sixteen failed rows, the own marks may be fewer: the
    /// row step left marks in failed rows alone.
    pub fn answer(
        &self,
        group: &ColumnGroup,
        patches: &Patches,
        n: usize,
        j: usize,
        word: &mut [u8; 208],
    ) -> bool
        requires lane { n < 32 }
        requires place { j < 182 }
        requires values { (k : ℕ) → k < 16 → place group.now.values k n ≡ value word.old (power alpha k) }
        requires completes { Completes patches.now self.now.failed.now n word.old }
        ensures answered { result ≡ is_some (option_or (near_of 208 16 word.old self.now.failed.now) (near_of 208 16 word.old (column_marks (marks_of_rows self.now.marks.now) j))) }
        ensures word { word.new ≡ unwrap_or (option_or (near_of 208 16 word.old self.now.failed.now) (near_of 208 16 word.old (column_marks (marks_of_rows self.now.marks.now) j))) word.old }
    {
        self.by_failed(group, patches, n, word) || self.by_own(group, n, j, word)
    }

    // Answers the word of a column with the failed rows as its marks. A try without an answer leaves the word for the
    // next one.
    fn by_failed(
        &self,
        group: &ColumnGroup,
        patches: &Patches,
        n: usize,
        word: &mut [u8; 208],
    ) -> bool
        requires lane { n < 32 }
        requires values { (k : ℕ) → k < 16 → place group.now.values k n ≡ value word.old (power alpha k) }
        requires completes { Completes patches.now self.now.failed.now n word.old }
        ensures answered { result ≡ is_some (near_of 208 16 word.old self.now.failed.now) }
        ensures word { word.new ≡ unwrap_or (near_of 208 16 word.old self.now.failed.now) word.old }
    {
        match &self.erasures {
            Some(erasures) => group.answer(erasures, patches, n, word),
            None => false,
        }
    }

    // Answers the word of column `j` with its own marks. A column with more marks than sixteen isn't answered, even if
    // it is a codeword.
    fn by_own(&self, group: &ColumnGroup, n: usize, j: usize, word: &mut [u8; 208]) -> bool
        requires lane { n < 32 }
        requires place { j < 182 }
        requires values { (k : ℕ) → k < 16 → place group.now.values k n ≡ value word.old (power alpha k) }
        ensures answered { result ≡ is_some (near_of 208 16 word.old (column_marks (marks_of_rows self.now.marks.now) j)) }
        ensures word { word.new ≡ unwrap_or (near_of 208 16 word.old (column_marks (marks_of_rows self.now.marks.now) j)) word.old }
    {
        match Erasures::new(&own_marks(self.marks, &self.marked_rows, j), 16) {
            Some(erasures) => group.answer(&erasures, &Patches::none(), n, word),
            None => false,
        }
    }
}

// The rows that have a mark.
fn marked_rows(marks: &Marks) -> [bool; 208]
    ensures { MarksListed (marks_of_rows marks.now) result }
{
    let mut marked = [false; 208];
    for i in 0..208usize {
        marked[i] = !marks[i].is_clear();
    }
    marked
}

// The marks of column `j`, as the list that a decoder reads. They are asked for only after the first try. Only marked
// rows are looked at.
fn own_marks(marks: &Marks, marked: &[bool; 208], j: usize) -> [bool; 208]
    requires place { j < 182 }
    requires marked { MarksListed (marks_of_rows marks.now) marked.now }
    ensures { result ≡ column_marks (marks_of_rows marks.now) j }
{
    let mut own = [false; 208];
    for i in 0..208usize {
        own[i] = own_mark(marks, marked, i, j);
    }
    own
}

// The mark of column `j` in row `i`. It is by itself for its proof, which needs that a row that isn't marked has none:
// `tactic` names the lemma that says so.
#[tactic(auto, using(crate::proofs::MarksTaken::unmarked))]
fn own_mark(marks: &Marks, marked: &[bool; 208], i: usize, j: usize) -> bool
    requires row { i < 208 }
    requires place { j < 182 }
    requires marked { MarksListed (marks_of_rows marks.now) marked.now }
    ensures { result ≡ mark_in (marks_of_rows marks.now) i j }
{
    marked[i] && marks[i].get(j)
}
