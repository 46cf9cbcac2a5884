//! Erasures: bytes that are known to be lost, at marked places.
ghost use Rattle.std.specs.Prelude.{◌≡◌, ◌≢◌, ◌↔◌, ℕ, ◌<◌, length, slice_index, All, IsTrue, IfOk, OnErr};
ghost use Rattle.coding.specs.Field.{alpha, plus, power};
ghost use Rattle.coding.specs.Words.{IsByte, IsCodeword, value};
ghost use Rattle.rs_code.specs.Inner.PowerSums.{power_sum};
ghost use Rattle.rs_code.specs.Syndromes.{syndromes_of};
ghost use Rattle.coding.specs.Filling.{IsFilling, HasNoFilling, marked};

use crate::places::{Erasures, patch};
use crate::power_sums::{first_lanes, power_sums};
use arrayvec::ArrayVec;
use rs_code::Code;
use thiserror::Error;

/// More places are marked than the code has parity bytes, or no codeword agrees with the word at all other places.
#[derive(Clone, Copy, Debug, PartialEq, Eq, Error)]
#[error("no codeword agrees with the word at its unmarked places")]
pub struct NoCodeword;

/// Sets the bytes at the marked places so that `word` is a codeword, and answers how many places are marked. The bytes
/// that were there don't count. After an error the word is unchanged. It is for programs on this crate that have
/// only the word: decoders here have its syndromes at hand, and call `fill_from`.
pub fn fill<const N: usize, const R: usize>(
    code: &Code<N, R>,
    word: &mut [u8; N],
    marks: &[bool; N],
) -> Result<u16, NoCodeword>
    ensures ok { IfOk result (λ count. IsFilling N R word.old marks.now word.new × (count ≡ marked marks.now)) }
    ensures err { OnErr result (HasNoFilling N R word.old marks.now) }
    ensures same { OnErr result (word.new ≡ word.old) }
{
    let Some(erasures) = Erasures::new(marks, R) else {
        return Err(NoCodeword);
    };
    fill_from(code, &erasures, code.syndromes(word), word)?;
    Ok(erasures.points.len() as u16)
}

/// Sets the bytes in the same way, by the marked places and the word's syndromes. After an error the word is unchanged
/// too. Decoders call it with syndromes at hand, and with places of errors among the marked ones.
pub fn fill_from<const N: usize, const R: usize>(
    code: &Code<N, R>,
    erasures: &Erasures<N>,
    syndromes: ArrayVec<u8, 32>,
    word: &mut [u8; N],
) -> Result<(), NoCodeword>
    requires { syndromes.items ≡ syndromes_of R word.old }
    ensures ok { IfOk result (λ _. IsFilling N R word.old erasures.now.marks word.new) }
    ensures err { OnErr result (HasNoFilling N R word.old erasures.now.marks) }
    ensures same { OnErr result (word.new ≡ word.old) }
{
    let points = &erasures.points;
    // The caller may have allowed more marks than this code has parity bytes.
    if points.len() > R {
        return Err(NoCodeword);
    }
    // The bytes that a codeword needs there, if one agrees. Whether it does is tested.
    let corrections = erasures.corrections(&syndromes);
    patch(word, points, &corrections);
    if !completes(code, word, &syndromes, points, &corrections) {
        // The same bytes added once more give the word back.
        patch(word, points, &corrections);
        return Err(NoCodeword);
    }
    Ok(())
}

// Whether a word that was filled with bytes at points is a codeword. Its values are the syndromes plus the power sums
// of these bytes, and 0 where the two are equal. So it isn't divided again where there are at most sixteen. `R` is a
// constant of the type, so the choice is made before the program runs.
fn completes<const N: usize, const R: usize>(
    code: &Code<N, R>,
    filled: &[u8; N],
    syndromes: &[u8],
    points: &[u8],
    bytes: &[u8],
) -> bool
    requires word_bytes { All IsByte filled.now }
    requires nonzero { All (λ point. point ≢ 0) points.now }
    requires fits { length bytes.now ≡ length points.now }
    requires size { length syndromes.now ≡ R }
    requires values { (k : ℕ) → k < R → value filled.now (power alpha k) ≡ plus (slice_index syndromes.now k) (power_sum bytes.now points.now k) }
    ensures { IsTrue result ↔ IsCodeword N R filled.now }
{
    if R <= 16 {
        let sums = first_lanes(power_sums(points, bytes), R);
        return sums[..] == syndromes[..];
    }
    code.is_codeword(filled)
}
