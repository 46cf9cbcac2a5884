//! The generator polynomial, and the division by it, for codes with any number of parity bytes up to 32: an ID and the
//! words of a CD-ROM sector have two, and the library has codes of its callers' choice. `register` is faster, and has
//! tables for two codes alone.
//! A polynomial with the leading coefficient 1 is stored without it.
ghost use Rattle.std.specs.Prelude.{◌≡◌, ℕ, ◌-◌, ◌<◌, ◌≤◌, List, [], ◌∷◌, ◌++◌, length, All};
ghost use Rattle.arrayvec.specs.ArrayVec.{array_vec_len};
ghost use Rattle.coding.specs.Words.{IsByte};
ghost use Rattle.rs_code.specs.Polynomials.{HasRoots};
ghost use Rattle.rs_code.specs.Inner.Polynomials.{sum_of, times_root, IsRemainder};

use arrayvec::ArrayVec;
use gf_field::mul;

// The generators of the codes of an ECC block are constants, since callers may make a code for each word. A clause of
// `generator` says that they have their roots, so none of their bytes can be wrong.
static PI_GENERATOR: [u8; 10] = [0xD8, 0xC2, 0x9F, 0x6F, 0xC7, 0x5E, 0x5F, 0x71, 0x9D, 0xC1];

static PO_GENERATOR: [u8; 16] = [
    0x3B, 0x0D, 0x68, 0xBD, 0x44, 0xD1, 0x1E, 0x08, 0xA3, 0x41, 0x29, 0xE5, 0x62, 0x32, 0x24, 0x3B,
];

/// The product of (x + alpha^k) for k from 0 to `parity` - 1, without its leading 1. The list has room for 32, so that
/// ten and sixteen always fit, and no `unwrap` fails.
pub fn generator(parity: u8) -> ArrayVec<u8, 32>
    requires { parity ≤ 32 }
    ensures degree { array_vec_len result ≡ parity }
    ensures roots { HasRoots parity result.items }
{
    match parity {
        10 => ArrayVec::try_from(&PI_GENERATOR[..]).unwrap(),
        16 => ArrayVec::try_from(&PO_GENERATOR[..]).unwrap(),
        _ => product_of_factors(parity),
    }
}

// The same product, computed factor by factor: those by alpha^0, alpha^1 and so on, where alpha is 2. A polynomial 1
// has no stored coefficient, so it begins with none. Before each factor a 0 is pushed, since the product has one
// coefficient more.
fn product_of_factors(parity: u8) -> ArrayVec<u8, 32>
    requires { parity ≤ 32 }
    ensures degree { array_vec_len result ≡ parity }
    ensures roots { HasRoots parity result.items }
{
    let mut coefficients = ArrayVec::new();
    let mut root = 1;
    for _k in 0..parity {
        coefficients.push(0);
        multiply_by_root(&mut coefficients, root);
        root = mul(root, 2);
    }
    coefficients
}

// Multiplies a polynomial by (x + `root`), in place. A 0 comes after it, since the product has one coefficient more.
// Each coefficient becomes itself plus the root times the one before it, which is kept, as it has been overwritten.
fn multiply_by_root(coefficients: &mut [u8], root: u8)
    ensures { (polynomial : List ℕ) → coefficients.old ≡ polynomial ++ 0 ∷ [] → coefficients.new ≡ times_root polynomial root }
{
    // The leading 1, which isn't stored.
    let mut before = 1;
    for coefficient in coefficients.iter_mut() {
        let current = *coefficient;
        *coefficient = current ^ mul(root, before);
        before = current;
    }
}

/// Sets `register` to the remainder of `message` by the generator, which is its parity. What it had isn't read. Also
/// ensures that the elements of `message` are bytes. In this field a sum is a difference too: the message, followed by
/// its remainder, is a multiple of the generator.
pub fn divide(generator: &[u8], message: &[u8], register: &mut [u8])
    requires some_degree { 0 < length generator.now }
    requires fits { length register.old ≡ length generator.now }
    ensures remainder { IsRemainder generator.now message.now register.new }
    ensures message_bytes { All IsByte message.now }
{
    register.fill(0);
    for byte in message {
        read_byte(generator, register, *byte);
    }
}

// One step of the division: reads one more byte. The sum of the byte and the one that leaves the register is the
// leading coefficient. The multiple of the generator that has the same one is added, which cancels it. Upwards, so
// that each byte is read before it is overwritten. Nothing moves into the last place, so it gets the multiple alone.
fn read_byte(generator: &[u8], register: &mut [u8], byte: u8)
    requires some_degree { 0 < length generator.now }
    requires fits { length register.old ≡ length generator.now }
    ensures { (read : List ℕ) → IsRemainder generator.now read register.old → IsRemainder generator.now (read ++ byte ∷ []) register.new }
{
    let factor = register[0] ^ byte;
    let last = register.len() - 1;
    for i in 0..last {
        register[i] = register[i + 1] ^ mul(factor, generator[i]);
    }
    register[last] = mul(factor, generator[last]);
}

/// Adds `word` to another of the same length. Also ensures that its elements are bytes. It is public for `code`, which
/// adds the last bytes of a word to the remainder of the others.
pub fn add_word(sum: &mut [u8], word: &[u8])
    requires { length word.now ≡ length sum.old }
    ensures sum { sum.new ≡ sum_of sum.old word.now }
    ensures word_bytes { All IsByte word.now }
{
    for i in 0..word.len() {
        sum[i] ^= word[i];
    }
}
