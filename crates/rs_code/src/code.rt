//! Codes of constant length. A word is a polynomial, its first byte the coefficient of the highest power. The codewords
//! are the multiples of the generator, whose roots are alpha^0 to alpha^(R-1): so a codeword is 0 at each of these.
//! The lengths are in the type, so that loops and choices by them are settled before the program runs.
ghost use Rattle.std.specs.Prelude.{◌≡◌, ◌↔◌, ℕ, ◌+◌, ◌-◌, ◌++◌, ◌<◌, ◌≤◌, take, length, All, IsTrue};
ghost use Rattle.arrayvec.specs.ArrayVec.{array_vec_len};
ghost use Rattle.coding.specs.Field.{alpha, power};
ghost use Rattle.coding.specs.Words.{IsByte, IsCodeword, IsEncoded, value};
ghost use Rattle.rs_code.specs.Polynomials.{HasRoots};
ghost use Rattle.rs_code.specs.Syndromes.{syndromes_of};

use crate::tables::{PI_TABLES, PO_TABLES};
use crate::{division, evaluation, register};
use arrayvec::ArrayVec;

/// The code of a row of an ECC block with its ten PI bytes (ECMA-267, clause 18).
pub type Pi = Code<182, 10>;

/// The code of a column of an ECC block with its sixteen PO bytes (ECMA-267, clause 18).
pub type Po = Code<208, 16>;

/// The code of an ID with its two parity bytes, the IED (ECMA-267, clause 16.2).
pub type Ied = Code<6, 2>;

/// The code of words of `N` bytes that end with `R` parity bytes.
#[derive(Drop)]
pub struct Code<const N: usize, const R: usize> {
    /// The generator polynomial without its leading 1, the highest power first. Codes with 10 or 16 parity bytes divide
    /// by tables and don't use it: they have it for the ghost fields, which say of every code that its generator has
    /// its roots.
    generator: ArrayVec<u8, 32>,
    /// A word has 1 to 32 parity bytes, at least one byte more, and at most 255 in all. It is public, as the proofs of
    /// decoders need it; the other two are for this crate.
    pub ghost bounds: { (1 ≤ R) × (R < N) × (N ≤ 255) × (R ≤ 32) },
    ghost degree: { array_vec_len generator ≡ R },
    ghost roots: { HasRoots R generator.items },
}

impl<const N: usize, const R: usize> Code<N, R> {
    /// The code for these lengths. 255 places are as many as alpha has different powers. 32 parity bytes are as many as
    /// the lists of generators and syndromes hold: a choice, as a disk has codes with 16 at most. It has no `ensures`:
    /// the ghost fields say what each code is.
    pub fn new() -> Self
        requires some_parity { 1 ≤ R }
        requires some_message { R < N }
        requires short { N ≤ 255 }
        requires few { R ≤ 32 }
    {
        Code {
            generator: division::generator(R as u8),
        }
    }

    /// Sets the last `R` bytes of `word` so that it is a codeword, and keeps the others. The parity is the remainder of
    /// the other bytes by the generator, so that the whole is a multiple of it.
    pub fn encode(&self, word: &mut [u8; N])
        ensures { IsEncoded N R (take (N - R) word.old) word.new }
    {
        let (message, parity) = word.split_at_mut(N - R);
        self.divide(message, parity);
    }

    /// The values of `word` at alpha^0 to alpha^(R-1), in this order. They are those of its remainder, which has the
    /// same values and is shorter. There are R, in a list with room for 32.
    pub fn syndromes(&self, word: &[u8; N]) -> ArrayVec<u8, 32>
        ensures { result.items ≡ syndromes_of R word.now }
    {
        evaluation::syndromes(&self.remainder(word), R)
    }

    /// Whether `word` is a codeword. A codeword is a multiple of the generator, so that no remainder is left. That is
    /// less work than the values at each root.
    pub fn is_codeword(&self, word: &[u8; N]) -> bool
        ensures { IsTrue result ↔ IsCodeword N R word.now }
    {
        evaluation::is_zero(&self.remainder(word))
    }

    // The remainder of `word` by the generator polynomial: `R` bytes that have the word's values at alpha^0 to
    // alpha^(R-1). They are zeros where the word is a codeword. Also ensures that the elements of `word` are bytes.
    fn remainder(&self, word: &[u8; N]) -> [u8; R]
        ensures values { (k : ℕ) → k < R → value result (power alpha k) ≡ value word.now (power alpha k) }
        ensures bytes { All IsByte result }
        ensures word_bytes { All IsByte word.now }
    {
        let (message, parity) = word.split_at(N - R);
        let mut remainder = [0; R];
        self.divide(message, &mut remainder);
        // The last `R` bytes are below the generator's degree: they are their own remainder.
        division::add_word(&mut remainder, parity);
        remainder
    }

    // Sets `parity` so that it makes a codeword with `message`: by tables for the codes of an ECC block, else by the
    // generator. It is the remainder of the message, moved up by `R` places. What `parity` had isn't read. Also ensures
    // that the elements of `message` are bytes. `message` is a slice, since a type can't say `N - R`.
    fn divide(&self, message: &[u8], parity: &mut [u8])
        requires fits { length parity.old ≡ R }
        ensures codeword { IsCodeword (length message.now + R) R (message.now ++ parity.new) }
        ensures message_bytes { All IsByte message.now }
        ensures parity_bytes { All IsByte parity.new }
    {
        // `R` is a constant of the type, so the choice is made before the program runs.
        if R == 10 {
            register::divide(&PI_TABLES, message, parity);
        } else if R == 16 {
            register::divide(&PO_TABLES, message, parity);
        } else {
            division::divide(&self.generator, message, parity);
        }
    }
}
