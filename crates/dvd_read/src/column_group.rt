//! The codeword near each of 32 columns, by their values: for the second pass over a captured block, and for other
//! crates that have columns with marks of their own, as the rounds of dvd_deep have.
//! The values of a column are those of its polynomial at alpha^0 to alpha^15: its syndromes, all 0 for a codeword alone.
//! They are found for 32 columns at once, in a vector for each power; lane `n` of each is for column `n`. Patches are
//! the bytes to add at marked places that all 32 share, found at once: each is tested before it counts. A lane of
//! `any_of` is 0 exactly where that lane of each vector is: so one vector says which of 32 columns are codewords.
//! In clauses `Completes` says that patches not noted as wrong make a column a codeword.
ghost use Rattle.std.specs.Prelude.{◌≡◌, ℕ, ◌<◌, ◌≤◌, List, is_some, length, slice_index, unwrap_or};
ghost use Rattle.coding.specs.Field.{alpha, power};
ghost use Rattle.coding.specs.Filling.{marked};
ghost use Rattle.coding.specs.Nearest.{near_of};
ghost use Rattle.coding.specs.Product.{place};
ghost use Rattle.coding.specs.Words.{value};
ghost use Rattle.rs_decode.specs.Patches.{Completes};

use crate::lanes::{bytes_of, lane_of};
use rs_code::Po;
use rs_decode::{Erasures, Patches, decode_from};
use rs_lanes::{any_of, are_zeros};
use std::simd::prelude::*;

/// 32 columns of a block by their values. It has no columns: each is passed when it is answered.
#[derive(Drop)]
pub struct ColumnGroup<'a> {
    code: &'a Po,
    /// Byte `n` of each list is for column `n`: its value at a power of alpha. It is public, as contracts of callers
    /// name it.
    pub values: [[u8; 32]; 16],
    // Byte `n` is 0 only where column `n` is a codeword.
    wrong: [u8; 32],
    ghost zeros: { (n : ℕ) → n < 32 → slice_index wrong n ≡ 0 → (k : ℕ) → k < 16 → place values k n ≡ 0 },
}

impl<'a> ColumnGroup<'a> {
    /// Columns that have these values at alpha^0 to alpha^15. The code is made once by the caller, since its generator
    /// polynomial is computed.
    pub fn new(code: &'a Po, values: &[u8x32; 16]) -> ColumnGroup<'a>
        ensures { (k n : ℕ) → k < 16 → n < 32 → place result.values k n ≡ place values.now k n }
    {
        ColumnGroup {
            code,
            values: bytes_of(values),
            wrong: any_of(values).to_array(),
        }
    }

    /// Sets a column, the one in lane `n`, to the codeword near it (clause 18). Answers whether one is; if not, the
    /// column is unchanged. The patches are those for columns with these marks, or none.
    pub fn answer(
        &self,
        erasures: &Erasures<208>,
        patches: &Patches,
        n: usize,
        word: &mut [u8; 208],
    ) -> bool
        requires within { marked erasures.now.marks ≤ 16 }
        requires completes { Completes patches.now erasures.now.marks n word.old }
        requires lane { n < 32 }
        requires values { (k : ℕ) → k < 16 → place self.now.values k n ≡ value word.old (power alpha k) }
        ensures answered { result ≡ is_some (near_of 208 16 word.old erasures.now.marks) }
        ensures word { word.new ≡ unwrap_or (near_of 208 16 word.old erasures.now.marks) word.old }
    {
        // A codeword is its own answer, also where places are marked: each costs one, and at most sixteen are.
        if self.wrong[n] == 0 {
            return true;
        }
        // What is proposed is tested. Where it isn't right, the column is as it was, and is decoded by itself: only
        // then are its syndromes listed.
        if patches.fill(erasures, n, word) {
            return true;
        }
        decode_from(self.code, erasures, lane_of(&self.values, n), word).is_ok()
    }
}

/// What 32 columns with these values lack at marked places that they share. Nothing is proposed where all are
/// codewords. Where a column is wrong though no place is marked, the patches have no byte for it, and their test
/// refuses it.
pub fn patches_for(erasures: &Erasures<208>, values: &[u8x32; 16]) -> Patches
    ensures { (n : ℕ) (word : List ℕ) → n < 32 → length word ≡ 208
        → ((k : ℕ) → k < 16 → place values.now k n ≡ value word (power alpha k)) → Completes result erasures.now.marks n word }
{
    if are_zeros(any_of(values)) {
        Patches::none()
    } else {
        Patches::new(erasures, values)
    }
}
