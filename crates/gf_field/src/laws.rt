//! The laws of the field. Each function's contract is a law of the definitions; the bodies are empty. No code calls
//! them: they are public as statements of the crate, each of which is proved. The definitions are in `coding`, which
//! has neither code nor proofs: so their laws are here, where the field is first computed.
//! a + b is the exclusive or. ab is the product of the polynomials whose coefficients are the bits, less multiples of
//! x^8 + x^4 + x^3 + x^2 + 1. A power is such a product of equal factors, and alpha is 02, the polynomial x.
//! A law that doesn't say that its numbers are bytes holds for all numbers, since a product depends on the lowest eight
//! bits of its factors alone. What is said of one side of a sum or a product holds of the other, as both are
//! commutative. `using` names the page of their proofs.
#![tactic(auto, using(crate::proofs::FieldLaws::laws))]

ghost use Rattle.std.specs.Prelude.{◌≡◌, ◌≢◌, ◌⊎◌, ℕ, ◌+◌, ◌<◌};
ghost use Rattle.coding.specs.Field.{alpha, plus, product, power};
ghost use Rattle.gf_field.specs.Laws.{HasInverse, IsPowerOfAlpha};

/// The sum of two bytes is a byte.
pub fn sum_is_byte()
    ensures { (a b : ℕ) → a < 256 → b < 256 → plus a b < 256 }
{}

/// a + b = b + a.
pub fn sum_is_commutative()
    ensures { (a b : ℕ) → plus a b ≡ plus b a }
{}

/// (a + b) + c = a + (b + c).
pub fn sum_is_associative()
    ensures { (a b c : ℕ) → plus (plus a b) c ≡ plus a (plus b c) }
{}

/// 0 is neutral in sums.
pub fn zero_is_neutral()
    ensures { (a : ℕ) → plus a 0 ≡ a }
{}

/// a + a = 0: each element is its own negative, and a sum is a difference too.
pub fn sum_with_itself_is_zero()
    ensures { (a : ℕ) → plus a a ≡ 0 }
{}

/// A product is a byte.
pub fn product_is_byte()
    ensures { (a b : ℕ) → product a b < 256 }
{}

/// ab = ba.
pub fn product_is_commutative()
    ensures { (a b : ℕ) → product a b ≡ product b a }
{}

/// (ab)c = a(bc).
pub fn product_is_associative()
    ensures { (a b c : ℕ) → product (product a b) c ≡ product a (product b c) }
{}

/// 1 is neutral in products of bytes. Of a greater number the product has the lowest eight bits alone.
pub fn one_is_neutral()
    ensures { (a : ℕ) → a < 256 → product a 1 ≡ a }
{}

/// a(b + c) = ab + ac.
pub fn product_distributes_over_sum()
    ensures { (a b c : ℕ) → product a (plus b c) ≡ plus (product a b) (product a c) }
{}

/// A product of bytes is 0 only where a factor is: so each element but 0 can be divided by.
pub fn zero_product_has_zero_factor()
    ensures { (a b : ℕ) → a < 256 → b < 256 → product a b ≡ 0 → (a ≡ 0) ⊎ (b ≡ 0) }
{}

/// Each byte but 0 has an inverse: a byte whose product with it is 1.
pub fn each_byte_but_zero_has_an_inverse()
    ensures { (a : ℕ) → a < 256 → a ≢ 0 → HasInverse a }
{}

/// The first 255 powers of alpha, alpha^0 to alpha^254, differ. So each place of a word of at most 255 bytes has a
/// power of its own, and codes are no longer.
pub fn first_255_powers_of_alpha_differ()
    ensures { (i j : ℕ) → i < 255 → j < 255 → power alpha i ≡ power alpha j → i ≡ j }
{}

/// alpha^255 = 01: from there on the powers repeat.
pub fn alpha_to_the_255_is_one()
    ensures { power alpha 255 ≡ 1 }
{}

/// Each byte but 0 is one of the first 255 powers of alpha; which one, is its logarithm.
pub fn each_byte_but_zero_is_a_power_of_alpha()
    ensures { (a : ℕ) → a < 256 → a ≢ 0 → IsPowerOfAlpha a }
{}
