//! What 32 words with the same marks lack at their marked places, for all at once: proposed in the lanes of vectors by
//! the inverse of the places' powers. The bytes have the right power sums, as many as there are marked places. Whether
//! the further sums are right too, as they are where a word has no errors, is tested there: with sixteen marked places
//! none is left. In contracts `Completes` says of patches and a word: where `wrong` is 0 for it, it is a codeword with
//! its bytes added.
ghost use Rattle.std.specs.Prelude.{◌≡◌, ◌≢◌, ℕ, ◌+◌, ◌<◌, ◌≤◌, Bool, List, false, length, slice_index, take, All, IsTrue};
ghost use Rattle.coding.specs.Field.{alpha, plus, power, product};
ghost use Rattle.coding.specs.Words.{value};
ghost use Rattle.coding.specs.Rows.{column, line, place};
ghost use Rattle.coding.specs.Filling.{IsFilling, marked};
ghost use Rattle.rs_code.specs.Inner.PowerSums.{power_sum};
ghost use Rattle.rs_decode.specs.Register.{total};
ghost use Rattle.rs_decode.specs.Patches.{ArePlaces, AreRight, Completes, patched};

use crate::inverse::Inverse;
use crate::locating::prove_bytes;
use crate::places::Erasures;
use gf_field::log;
use rs_lanes::{any_of, are_zeros, powers, with_multiple};
use std::simd::prelude::*;

/// The bytes to add at the marked places of 32 words of a code with sixteen parity bytes, which all have the same
/// marks. They are bytes and not vectors, since pieces of columns read them word by word.
#[derive(Drop)]
pub struct Patches {
    /// Byte `n` of the list with number `i` is for the marked place that `i` others come before, in word `n`.
    pub(crate) bytes: [[u8; 32]; 16],
    /// Byte `n` is 0 only if the bytes for word `n` make it a codeword.
    pub(crate) wrong: [u8; 32],
}

impl Patches {
    /// Those for no word, whatever its marks are. Each word is noted as wrong, so that none is filled.
    pub fn none() -> Self
        ensures { (n : ℕ) (marks : List Bool) (word : List ℕ) → n < 32 → Completes result marks n word }
    {
        Patches {
            bytes: [[0; 32]; 16],
            wrong: [1; 32],
        }
    }

    /// Those for words with these marks that have these values at alpha^0 to alpha^15: for word `n` those in the lanes
    /// `n`. They are right for each word that has a filling, if the marks are made for many words, which tests show and
    /// no contract says: `wrong` says where they are, and a word that isn't filled is decoded by itself.
    pub fn new<const N: usize>(erasures: &Erasures<N>, values: &[u8x32; 16]) -> Self
        ensures { (n : ℕ) (word : List ℕ) → n < 32 → length word ≡ N
            → ((k : ℕ) → k < 16 → place values.now k n ≡ value word (power alpha k)) → Completes result erasures.now.marks n word }
    {
        let Some(inverse) = &erasures.inverse else {
            return Patches::none();
        };
        let proposed = proposed(inverse, values);
        let mut patches = Patches::none();
        for i in 0..16 {
            patches.bytes[i] = proposed[i].to_array();
        }
        patches.wrong = left_over(&erasures.points, &proposed, values).to_array();
        patches
    }

    /// Whether the bytes for all 32 words are right.
    pub fn are_right(&self) -> bool
        ensures { IsTrue result → AreRight self.now }
    {
        are_zeros(lanes_of(&self.wrong))
    }

    /// The bytes for all words at the marked place that `i` others come before: that for word `n` is in lane `n`. So
    /// words that lie side by side are filled a place at a time, where `are_right` says that all may be. Also ensures
    /// how many places have bytes, as the type says.
    pub fn lanes(&self, i: usize) -> u8x32
        requires { i < 16 }
        ensures size { length result ≡ 32 }
        ensures count { length self.now.bytes ≡ 16 }
        ensures bytes { (n : ℕ) → n < 32 → slice_index result n ≡ place self.now.bytes i n }
    {
        lanes_of(&self.bytes[i])
    }

    /// Sets the bytes at the marked places of word `n` so that it is a codeword. Answers whether the bytes for it are
    /// right: where they aren't, the word is unchanged. The marks have to be those that the patches were made for,
    /// which a clause asks for, as the word has to be the one whose values they were made by.
    pub fn fill<const N: usize>(&self, erasures: &Erasures<N>, n: usize, word: &mut [u8; N]) -> bool
        requires short { N ≤ 255 }
        requires lane { n < 32 }
        requires completes { Completes self.now erasures.now.marks n word.old }
        ensures filled { IsTrue result → IsFilling N 16 word.old erasures.now.marks word.new }
        ensures same { result ≡ false → word.new ≡ word.old }
    {
        let places = erasures.places();
        // The test of the count is for the prover, which doesn't know that more than sixteen marks have no patches.
        if self.wrong[n] != 0 || places.len() > 16 {
            return false;
        }
        self.add_to(places, n, word);
        // It does nothing at run time: the clause `filled` speaks of bytes, which the checker doesn't know of an array.
        prove_bytes(word);
        true
    }

    // Adds the bytes for word `n` at its marked places; all other places stay. A clause asks for places of the word, so
    // that none is tested here. It is inlined into `fill`, which is called for each word.
    #[inline(always)]
    fn add_to(&self, places: &[u8], n: usize, word: &mut [u8])
        requires lane { n < 32 }
        requires few { length places.now ≤ 16 }
        requires inside { (i : ℕ) → i < length places.now → slice_index places.now i < length word.old }
        ensures { (marks : List Bool) → length marks ≡ length word.old → marked marks ≡ length places.now → ArePlaces marks (marked marks) places.now
            → word.new ≡ patched word.old marks (take (marked marks) (column self.now.bytes n)) }
    {
        for (i, place) in places.iter().enumerate() {
            word[usize::from(*place)] ^= self.bytes[i][n];
        }
    }
}

// 32 bytes as the lanes of a vector. Their number is known of the type, and not of a list in a list.
#[inline(always)]
fn lanes_of(bytes: &[u8; 32]) -> u8x32
    ensures size { length result ≡ 32 }
    ensures same { result ≡ bytes.now }
{
    u8x32::from_array(*bytes)
}

// The bytes that words with these values need at the points, in the lanes of a vector for each point: their first power
// sums, as many as there are points, are the values. Those past the last point are zeros.
#[inline(always)]
fn proposed(inverse: &Inverse, values: &[u8x32; 16]) -> [u8x32; 16]
    ensures { (k n : ℕ) → k < length inverse.now.points.items → n < 32 → place values.now k n < 256
        → place values.now k n ≡ power_sum (take (length inverse.now.points.items) (column result n)) inverse.now.points.items k }
{
    let mut bytes = [u8x32::splat(0); 16];
    add_columns(&mut bytes, 0, inverse, values);
    add_columns(&mut bytes, 8, inverse, values);
    bytes
}

// Adds to the eight vectors from `first` on the columns of the inverse, each times its value. Eight sums stay in
// registers with what multiplies them, and sixteen wouldn't.
#[inline(always)]
fn add_columns(sums: &mut [u8x32; 16], first: usize, inverse: &Inverse, values: &[u8x32; 16])
    requires { first ≤ 8 }
    ensures size { length sums.new ≡ 16 }
    ensures added { (i n : ℕ) → first ≤ i → i < first + 8 → n < 32 → place sums.new i n
        ≡ plus (place sums.old i n) (total (length inverse.now.points.items) (λ k. product (place values.now k n) (place inverse.now.columns k i))) }
    ensures below { (i : ℕ) → i < first → line sums.new i ≡ line sums.old i }
    ensures above { (i : ℕ) → first + 8 ≤ i → line sums.new i ≡ line sums.old i }
{
    for k in 0..inverse.points.len() {
        add_multiples(sums, first, values[k], &inverse.columns[k]);
    }
}

// Lanes that are zero only where bytes at points have these values as their further power sums: none is left where
// there are sixteen points. They are added to the values, and leave zeros where both are equal.
#[inline(always)]
fn left_over(points: &[u8], bytes: &[u8x32; 16], values: &[u8x32; 16]) -> u8x32
    requires nonzero { All (λ point. point ≢ 0) points.now }
    requires few { length points.now ≤ 16 }
    ensures size { length result ≡ 32 }
    ensures sums { (k n : ℕ) → length points.now ≤ k → k < 16 → n < 32 → slice_index result n ≡ 0
        → place values.now k n ≡ power_sum (take (length points.now) (column bytes.now n)) points.now k }
{
    let mut left = [u8x32::splat(0); 16];
    for k in points.len()..16 {
        left[k] = with_sum(points, bytes, values[k], k);
    }
    any_of(&left)
}

// Adds to each lane the power sum with the number `k` of its bytes at the points. From the last byte on, as the
// definition adds a byte to the sum of those after it.
fn with_sum(points: &[u8], bytes: &[u8x32; 16], value: u8x32, k: usize) -> u8x32
    requires nonzero { All (λ point. point ≢ 0) points.now }
    requires few { length points.now ≤ 16 }
    requires inside { k < 16 }
    ensures { (n : ℕ) → n < 32 → slice_index result n
        ≡ plus (slice_index value n) (power_sum (take (length points.now) (column bytes.now n)) points.now k) }
{
    let mut sum = value;
    for i in (0..points.len()).rev() {
        // The k-th power of the point, from a row of a table: it has sixteen, and one is read.
        let powers = powers(log(points[i]) as usize).to_array();
        sum = with_multiple(sum, bytes[i], powers[k]);
    }
    sum
}

// Adds to each of the eight vectors from `first` on its multiple of one vector. Past the last point the factors are
// zeros. It is inlined, so that lanes needn't pass through memory.
#[inline(always)]
fn add_multiples(sums: &mut [u8x32; 16], first: usize, lanes: u8x32, factors: &[u8; 16])
    requires { first ≤ 8 }
    ensures size { length sums.new ≡ 16 }
    ensures added { (i n : ℕ) → first ≤ i → i < first + 8 → n < 32
        → place sums.new i n ≡ plus (place sums.old i n) (product (slice_index lanes n) (slice_index factors.now i)) }
    ensures below { (i : ℕ) → i < first → line sums.new i ≡ line sums.old i }
    ensures above { (i : ℕ) → first + 8 ≤ i → line sums.new i ≡ line sums.old i }
{
    for k in 0..8 {
        let i = first + k;
        sums[i] = with_multiple(sums[i], lanes, factors[i]);
    }
}
