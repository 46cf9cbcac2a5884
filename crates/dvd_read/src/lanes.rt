//! The values of 32 words at powers of alpha, as bytes: the syndromes of word `n` are the bytes with this number.
ghost use Rattle.std.specs.Prelude.{◌≡◌, ℕ, ◌<◌, ◌≤◌, List};
ghost use Rattle.coding.specs.Field.{alpha, power};
ghost use Rattle.coding.specs.Words.{value};
ghost use Rattle.rs_code.specs.Syndromes.{syndromes_of};
ghost use Rattle.coding.specs.Product.{column, place};

use arrayvec::ArrayVec;
use std::simd::prelude::*;

/// The lanes of vectors as bytes, to be read word by word. What holds a reference can't hold vectors.
pub(crate) fn bytes_of<const R: usize>(vectors: &[u8x32; R]) -> [[u8; 32]; R]
    ensures { (k n : ℕ) → k < R → n < 32 → place result k n ≡ place vectors.now k n }
{
    let mut bytes = [[0; 32]; R];
    for k in 0..R {
        bytes[k] = vectors[k].to_array();
    }
    bytes
}

/// Byte `n` of each list: where these are the values of a word, its syndromes. It is a list, as a decoder takes the
/// syndromes of a code of any length, with room for 32 of them: no code here has more parity bytes. Rows have ten of
/// them (`R`), and columns sixteen. Callers ask word by word, since not every word needs them.
pub(crate) fn lane_of<const R: usize>(values: &[[u8; 32]; R], n: usize) -> ArrayVec<u8, 32>
    requires few { R ≤ 32 }
    requires lane { n < 32 }
    ensures lanes { result.items ≡ column values.now n }
    ensures syndromes { (word : List ℕ) → ((k : ℕ) → k < R → place values.now k n ≡ value word (power alpha k)) → result.items ≡ syndromes_of R word }
{
    let mut lanes = ArrayVec::new();
    for k in 0..R {
        lanes.push(values[k][n]);
    }
    lanes
}
