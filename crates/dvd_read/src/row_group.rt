//! The codeword near each of 32 rows, by their values: for the first pass over a captured block, and for other crates
//! that have rows with marks of their own, as the rounds of dvd_deep have.
//! The values of a row are those of its polynomial at alpha^0 to alpha^9: its syndromes, all 0 for a codeword alone.
//! They are found for 32 rows at once, in a vector for each power; lane `n` of each is for row `n`. From them it can
//! also be proposed for 32 rows at once what to add to each. A proposal is tested before it counts, so a wrong one costs
//! time and no answer.
//! The ten syndromes of one row are a list with room for 32, as decoders of codes of any length read them. A lane of
//! `any_of` is 0 exactly where that lane of each vector is: so one vector says which of 32 rows are codewords.
ghost use Rattle.std.specs.Prelude.{◌≡◌, ◌↔◌, ℕ, ◌+◌, ◌<◌, ◌≤◌, MatchOption, None, Some, IsTrue, false, length, replicate, slice_index};
ghost use Rattle.coding.specs.Field.{alpha, power};
ghost use Rattle.coding.specs.Filling.{marked};
ghost use Rattle.coding.specs.Nearest.{near_of};
ghost use Rattle.coding.specs.Product.{place};
ghost use Rattle.coding.specs.Words.{value};
ghost use Rattle.rs_code.specs.Syndromes.{syndromes_of};
ghost use Rattle.dvd_capture.specs.Answers.{IsFix};
ghost use Rattle.dvd_capture.specs.Parts.{marks_of_row};
ghost use Rattle.dvd_read.specs.Inner.Standing.{IsAsReceived};

use crate::lanes::{bytes_of, lane_of};
use arrayvec::ArrayVec;
use dvd_capture::RowMarks;
use rs_code::Pi;
use rs_decode::{Erasures, Fix, decode_from};
use rs_lanes::{any_of, copy_row};
use rs_propose::Proposals;
use std::simd::prelude::*;

#[cfg(test)]
mod tests;

// A row with more marks than this is lost: each costs one of the ten bytes of inner parity.
const MOST_MARKED: u32 = 10;

// For fewer rows than this, to decode each takes less time than to propose for 32: proposing goes through all lanes,
// however few are wrong. Any number gives the same answers.
const FEWEST_PROPOSED: usize = 4;

/// 32 rows of a block by their values, and what is proposed for them. It has no rows: each is passed when it is
/// answered, so that it may be anywhere.
#[derive(Drop)]
pub struct RowGroup<'a> {
    code: &'a Pi,
    /// Byte `n` of each list is for row `n`: its value at a power of alpha. It is public, as contracts of callers name
    /// it.
    pub values: [[u8; 32]; 10],
    // Byte `n` is 0 only where row `n` is a codeword.
    wrong: [u8; 32],
    proposals: Proposals,
    ghost zeros: { (n : ℕ) → n < 32 → slice_index wrong n ≡ 0 → (k : ℕ) → k < 10 → place values k n ≡ 0 },
}

impl<'a> RowGroup<'a> {
    /// Rows that have these values at alpha^0 to alpha^9. Those that will be answered have the lanes from `first` on and
    /// these marks: by them it is known whether it pays to propose for all rows at once. The code is made once by the
    /// caller, since its generator polynomial is computed.
    pub fn new(code: &'a Pi, values: &[u8x32; 10], first: usize, marks: &[RowMarks]) -> RowGroup<'a>
        requires { first + length marks.now ≤ 32 }
        ensures { (k n : ℕ) → k < 10 → n < 32 → place result.values k n ≡ place values.now k n }
    {
        let wrong = any_of(values);
        // Those of no row: where none are made, none is believed, and each row is decoded by itself.
        let mut proposals = Proposals::none();
        if are_many(wrong, first, marks) {
            proposals.propose(values);
        }
        RowGroup {
            code,
            values: bytes_of(values),
            wrong: wrong.to_array(),
            proposals,
        }
    }

    /// Writes the codeword near a row with marks, the one in lane `n` (clause 18). Answers what it corrects, or `None`
    /// where no codeword is near: then `word` may be anything. The row stays.
    #[inline(always)]
    pub fn answer(
        &self,
        n: usize,
        row: &[u8; 182],
        marks: &RowMarks,
        word: &mut [u8; 182],
    ) -> Option<Fix>
        requires lane { n < 32 }
        requires values { (k : ℕ) → k < 10 → place self.now.values k n ≡ value row.now (power alpha k) }
        ensures { MatchOption result (near_of 182 10 row.now (marks_of_row marks.now) ≡ None) (IsFix row.now (marks_of_row marks.now) word.new) }
    {
        // Most rows have no marks, and are codewords: these are their own answers. What a call answers is taken out of
        // its place in memory, so that what is answered of most rows needn't pass through there.
        if !marks.is_clear() {
            let fix = self.answer_marked(n, row, marks, word)?;
            return Some(fix);
        }
        if self.wrong[n] == 0 {
            return Some(take_row(row, word));
        }
        let fix = self.answer_unmarked(n, row, word)?;
        Some(fix)
    }

    // The same of a row without marks; callers have passed by the codewords.
    #[inline(never)]
    fn answer_unmarked(&self, n: usize, row: &[u8; 182], word: &mut [u8; 182]) -> Option<Fix>
        requires lane { n < 32 }
        requires values { (k : ℕ) → k < 10 → place self.now.values k n ≡ value row.now (power alpha k) }
        ensures { MatchOption result (near_of 182 10 row.now (replicate 182 false) ≡ None) (IsFix row.now (replicate 182 false) word.new) }
    {
        let syndromes = lane_of(&self.values, n);
        // What is proposed is right if the proposed bytes have these syndromes. As they are five at most, the row with
        // them added is then the codeword near it, which `decode` would find too.
        match self.proposals.believe(n, &syndromes, row, word) {
            Some(fix) => Some(fix),
            None => decode_unmarked(self.code, row, syndromes, word),
        }
    }

    // The same of a row that has marks: it goes by itself, since they are counted even where it is a codeword. Most rows
    // have none, and pass by without room for what this needs.
    #[inline(never)]
    fn answer_marked(
        &self,
        n: usize,
        row: &[u8; 182],
        marks: &RowMarks,
        word: &mut [u8; 182],
    ) -> Option<Fix>
        requires lane { n < 32 }
        requires values { (k : ℕ) → k < 10 → place self.now.values k n ≡ value row.now (power alpha k) }
        ensures { MatchOption result (near_of 182 10 row.now (marks_of_row marks.now) ≡ None) (IsFix row.now (marks_of_row marks.now) word.new) }
    {
        if is_lost(marks) {
            return answer_lost(row, marks, word);
        }
        let mut flags = [false; 182];
        marks.unpack(&mut flags);
        // More than ten places are marked only in lost rows, so there are always erasures here.
        let Some(erasures) = Erasures::new(&flags, 10) else {
            return None;
        };
        decode_copy(self.code, row, &erasures, lane_of(&self.values, n), word)
    }
}

/// Whether a row with these marks is lost: no codeword is near it, whatever its bytes are.
// Few rows are marked, so what counts their marks stays out of the loop over all rows.
#[inline(never)]
pub(crate) fn is_lost(marks: &RowMarks) -> bool
    ensures { IsTrue result ↔ 10 < marked (marks_of_row marks.now) }
{
    marks.count() > MOST_MARKED
}

/// Answers a codeword without marks, or a row that is believed to be one: it is its own answer.
#[inline(always)]
pub(crate) fn take_row(row: &[u8; 182], word: &mut [u8; 182]) -> Fix
    ensures { IsAsReceived row.now (replicate 182 false) (record { bytes = word.new; fix = Some result }) }
{
    copy_row(row, word);
    Fix {
        errors: 0,
        erased: 0,
    }
}

/// Answers a lost row: no codeword is near it. The received bytes are copied though they don't count, as `decode_copy`
/// leaves them in each row that fails: nothing of an earlier block stays, and a column in which they happen to be right
/// is a codeword without a patch.
#[inline(always)]
pub(crate) fn answer_lost(row: &[u8; 182], marks: &RowMarks, word: &mut [u8; 182]) -> Option<Fix>
    requires { 10 < marked (marks_of_row marks.now) }
    ensures { MatchOption result (near_of 182 10 row.now (marks_of_row marks.now) ≡ None) (IsFix row.now (marks_of_row marks.now) word.new) }
{
    copy_row(row, word);
    None
}

// Writes the codeword near a row without marks that no proposal is right for, by its syndromes. Most rows are answered
// before, and pass by without room for what this needs.
#[inline(never)]
fn decode_unmarked(
    code: &Pi,
    row: &[u8; 182],
    syndromes: ArrayVec<u8, 32>,
    word: &mut [u8; 182],
) -> Option<Fix>
    requires { syndromes.items ≡ syndromes_of 10 row.now }
    ensures { MatchOption result (near_of 182 10 row.now (replicate 182 false) ≡ None) (IsFix row.now (replicate 182 false) word.new) }
{
    decode_copy(code, row, &Erasures::none(), syndromes, word)
}

// Writes the codeword near a row, by its marked places and its syndromes: a copy of the row is decoded, since the row
// stays. Where no codeword is near, it is a copy of the row.
fn decode_copy(
    code: &Pi,
    row: &[u8; 182],
    erasures: &Erasures<182>,
    syndromes: ArrayVec<u8, 32>,
    word: &mut [u8; 182],
) -> Option<Fix>
    requires { syndromes.items ≡ syndromes_of 10 row.now }
    ensures { MatchOption result (near_of 182 10 row.now erasures.now.marks ≡ None) (IsFix row.now erasures.now.marks word.new) }
{
    *word = *row;
    decode_from(code, erasures, syndromes, word).ok()
}

// Whether it pays to propose for all rows at once, by the lanes that aren't zero: where at least four rows that have no
// mark are no codewords. Other lanes don't count.
// It has no clause: the answers are the same whether it pays or not.
fn are_many(wrong: u8x32, first: usize, marks: &[RowMarks]) -> bool
    requires { first + length marks.now ≤ 32 }
{
    let mut alone = 0;
    for (k, row) in marks.iter().enumerate() {
        if wrong[first + k] != 0 && row.is_clear() {
            alone += 1;
        }
    }
    alone >= FEWEST_PROPOSED
}
