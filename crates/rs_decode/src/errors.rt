//! Errors and erasures: the codeword that is near a word with marks.
//! The syndromes, with the marked points taken out, are power sums of the errors alone; the shortest register that
//! generates them is a locator, whose zeros are the places of errors. These and the marked places are then filled
//! alike.
ghost use Rattle.std.specs.Prelude.{◌≡◌, ℕ, ◌≤◌, List, All, IfOk, OnErr};
ghost use Rattle.coding.specs.Words.{IsByte, IsCodeword, IsNear};
ghost use Rattle.rs_code.specs.Syndromes.{syndromes_of};
ghost use Rattle.rs_decode.specs.Errors.{HasNoneNear, error_count};
ghost use Rattle.coding.specs.Filling.{marked};

use crate::erasures::{NoCodeword, fill_from};
use crate::locating::{count_errors, mark_zeros, prove_bytes, sums_without};
use crate::places::Erasures;
use crate::power_sums::are_zeros;
use crate::register::shortest;
use arrayvec::ArrayVec;
use rs_code::Code;
use thiserror::Error;

/// What a decoder corrected. Both numbers are at most 255, as a word has no more places: any unsigned type would do.
#[derive(Clone, Copy, Debug, PartialEq, Eq, Drop)]
pub struct Fix {
    /// How many places that aren't marked changed.
    pub errors: u16,
    /// How many places are marked.
    pub erased: u16,
}

/// No codeword is near: each differs in too many places, where a marked place counts once and any other twice.
#[derive(Clone, Copy, Debug, PartialEq, Eq, Error)]
#[error("no codeword is near the word")]
pub struct Beyond;

/// Sets `word` to the codeword that is near it: to the one for which twice the number of unmarked places that differ,
/// and the number of marked places, are together at most the code's number of parity bytes. The byte at a marked place
/// doesn't count. Answers `Beyond` exactly where no codeword is near, and the word is then unchanged. More marks than
/// parity bytes are too many by themselves.
pub fn decode<const N: usize, const R: usize>(
    code: &Code<N, R>,
    word: &mut [u8; N],
    marks: &[bool; N],
) -> Result<Fix, Beyond>
    ensures near { IfOk result (λ _. IsNear N R word.old marks.now word.new) }
    ensures errors { IfOk result (λ fix. fix.errors ≡ error_count word.old word.new marks.now) }
    ensures erased { IfOk result (λ fix. fix.erased ≡ marked marks.now) }
    ensures beyond { OnErr result (HasNoneNear N R word.old marks.now) }
    ensures same { OnErr result (word.new ≡ word.old) }
{
    let Some(erasures) = Erasures::new(marks, R) else {
        return Err(Beyond);
    };
    decode_from(code, &erasures, code.syndromes(word), word)
}

/// Sets `word` as `decode` does, by its marked places and its syndromes, which are at hand: many words may share the
/// one, and the other may have been found for 32 words at once.
pub fn decode_from<const N: usize, const R: usize>(
    code: &Code<N, R>,
    erasures: &Erasures<N>,
    syndromes: ArrayVec<u8, 32>,
    word: &mut [u8; N],
) -> Result<Fix, Beyond>
    requires { syndromes.items ≡ syndromes_of R word.old }
    ensures near { IfOk result (λ _. IsNear N R word.old erasures.now.marks word.new) }
    ensures errors { IfOk result (λ fix. fix.errors ≡ error_count word.old word.new erasures.now.marks) }
    ensures erased { IfOk result (λ fix. fix.erased ≡ marked erasures.now.marks) }
    ensures beyond { OnErr result (HasNoneNear N R word.old erasures.now.marks) }
    ensures same { OnErr result (word.new ≡ word.old) }
{
    // For the prover: nothing else says that the elements of this array are bytes.
    prove_bytes(word);
    let erased = erasures.points.len();
    // The caller may have allowed more marks than this code corrects.
    if erased > R {
        return Err(Beyond);
    }
    // A codeword without marks is its own answer, as most words are. One with at most R marks is too, but that is rare,
    // and the steps below find it.
    if erased == 0 && are_zeros(&syndromes) {
        return Ok(Fix {
            errors: 0,
            erased: 0,
        });
    }
    // The errors are counted against it, and a refused word is given back by it.
    let received = *word;
    let Ok(()) = fill_located(code, erasures, syndromes, word) else {
        return Err(Beyond);
    };
    let errors = count_errors(&received, word, &erasures.marks);
    // A codeword was made, but it may differ in too many places to be near.
    if 2 * errors as usize + erased > R {
        *word = received;
        return Err(Beyond);
    }
    Ok(Fix {
        errors,
        erased: erased as u16,
    })
}

// Sets the bytes at the marked places and at those where the locator shows an error: to the near codeword, if there is
// one. What it makes is tested and counted, so nothing is needed of the locator but that it misses no error.
fn fill_located<const N: usize, const R: usize>(
    code: &Code<N, R>,
    erasures: &Erasures<N>,
    syndromes: ArrayVec<u8, 32>,
    word: &mut [u8; N],
) -> Result<(), NoCodeword>
    requires syndromes { syndromes.items ≡ syndromes_of R word.old }
    requires bytes { All IsByte word.old }
    requires few { marked erasures.now.marks ≤ R }
    ensures codeword { IfOk result (λ _. IsCodeword N R word.new) }
    ensures nearest { IfOk result (λ _. (near : List ℕ) → IsNear N R word.old erasures.now.marks near → near ≡ word.new) }
    ensures beyond { OnErr result (HasNoneNear N R word.old erasures.now.marks) }
    ensures same { OnErr result (word.new ≡ word.old) }
{
    let locator = shortest(&sums_without(&erasures.points, &syndromes));
    // A locator of degree 0 is 1 and shows no error, so that no zeros are tried and no marks are copied.
    if locator.len == 0 {
        return fill_from(code, erasures, syndromes, word);
    }
    // A copy, since other words may have the same marks and other errors. Places of errors are marked in it.
    let mut doubtful = erasures.marks;
    mark_zeros(locator.taps, &mut doubtful);
    // With a near codeword there are no more such places than the code has parity bytes.
    match Erasures::new(&doubtful, R) {
        Some(places) => fill_from(code, &places, syndromes, word),
        None => Err(NoCodeword),
    }
}
