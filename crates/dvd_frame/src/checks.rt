//! The two codes of a data frame that detect errors: the IED over its ID (ECMA-267, 16.2)
//! and the EDC over its first 2,060 bytes (16.4).
//!
//! A register is what dividing all bytes before has left, 32 bits. In contracts `divided_from register bytes` is what
//! the division leaves once these bytes are read too. So a step is right where it leaves the same for whatever bytes
//! follow.
ghost use Rattle.std.specs.Prelude.{◌≡◌, ℕ, ◌+◌, ◌≤◌, List, [], ◌∷◌, ◌++◌, length};
ghost use Rattle.std.specs.List.{concat};
ghost use Rattle.coding.specs.Words.{IsCodeword};
ghost use Rattle.dvd_frame.specs.Edc.{edc_of};
ghost use Rattle.dvd_frame.specs.Id.{word_bytes, ied_of};
ghost use Rattle.dvd_frame.specs.Inner.Registers.{divided_from};

use crate::folds::fold;
use crate::id::Id;
use crate::parts::{load, put};
use crate::remainders::{remainder_of, remainder_of_word};
use byteorder::{BigEndian, ByteOrder};
use rs_code::Ied;
use std::simd::prelude::*;

/// The IED of an ID: the two bytes with which its four bytes are a codeword of 6 bytes with 2 parity bytes. It is
/// public for the C library, as `edc` is. Its code is made anew by each call: the generator is a few products.
pub fn ied(id: Id) -> [u8; 2]
    ensures value { result ≡ ied_of id }
    ensures codeword { IsCodeword 6 2 (word_bytes id ++ result) }
{
    let [first, second, third, fourth] = id.bytes();
    let mut word = [first, second, third, fourth, 0, 0];
    Ied::new().encode(&mut word);
    [word[4], word[5]]
}

/// The EDC of a list of bytes of any length: the remainder of its bits, as a polynomial times x^32, by x^32 + x^31 +
/// x^4 + 1, most significant byte first. Frames don't need it: it is for the C library.
pub fn edc(bytes: &[u8]) -> [u8; 4]
    ensures { result ≡ edc_of bytes.now }
{
    // The last 2,048 bytes of a frame before its EDC are the Main Data.
    let (prefix, back) = bytes.split_at(bytes.len().saturating_sub(2048));
    edc_of_parts(prefix, back)
}

/// The EDC of two lists of bytes, as if the second came after the first. A frame that is read has its first twelve
/// bytes and its unscrambled Main Data in two places, and needn't copy them together. It is inlined, so
/// that `folded` knows the lengths.
#[inline(always)]
pub(crate) fn edc_of_parts(prefix: &[u8], back: &[u8]) -> [u8; 4]
    ensures { result ≡ edc_of (prefix.now ++ back.now) }
{
    let register = divide_parts(prefix, back);
    // The most significant byte first; `to_be_bytes` would do too.
    let mut edc = [0; 4];
    BigEndian::write_u32(&mut edc, register);
    edc
}

// The remainder of two lists of bytes, as if the second came after the first.
#[inline(always)]
fn divide_parts(prefix: &[u8], back: &[u8]) -> u32
    ensures { divided_from result [] ≡ divided_from 0 (prefix.now ++ back.now) }
{
    // A frame has twelve bytes before its Main Data. Lists of other lengths, which the C library alone may have, are
    // divided word by word.
    if prefix.len() <= 32 && back.len() == 2048 {
        return folded(prefix, back);
    }
    with_bytes(with_bytes(0, prefix), back)
}

// The remainder of 2,048 bytes, which are 64 chunks of 32, with at most one chunk before them: zeros in front of that
// change nothing. A fold leaves 32 chunks, which are 64 of half the size for the next, with no chunk before them. After
// four folds by vectors 128 bytes are left to divide.
// All is inlined: where the lengths are known, loops over them are written out, and most of the room that they fill
// isn't set to zeros before.
#[inline(always)]
fn folded(prefix: &[u8], back: &[u8]) -> u32
    requires prefix { length prefix.now ≤ 32 }
    requires back { length back.now ≡ 2048 }
    ensures { divided_from result [] ≡ divided_from 0 (prefix.now ++ back.now) }
{
    let mut first = [0; 32];
    put(&mut first, 32 - prefix.len(), prefix);
    let (mut whole, mut half) = ([0; 1024], [0; 512]);
    let (mut quarter, mut last) = ([0; 256], [0; 128]);
    fold::<32>(load(&first, 0), back, &mut [0; 1056], &mut whole);
    fold::<16>(Simd::splat(0), &whole, &mut [0; 528], &mut half);
    fold::<8>(Simd::splat(0), &half, &mut [0; 264], &mut quarter);
    fold::<4>(Simd::splat(0), &quarter, &mut [0; 132], &mut last);
    with_bytes(0, &last)
}

// The remainder of what was read so far, with these bytes more: by words of eight bytes, and the last few by
// themselves.
fn with_bytes(register: u32, bytes: &[u8]) -> u32
    ensures { (rest : List ℕ) → divided_from result rest ≡ divided_from register (bytes.now ++ rest) }
{
    let (words, others) = bytes.as_chunks::<8>();
    let mut next = with_words(register, words);
    for byte in others {
        next = with_byte(next, *byte);
    }
    next
}

// The remainder of what was read so far, with these words of eight bytes more.
fn with_words(register: u32, words: &[[u8; 8]]) -> u32
    ensures { (rest : List ℕ) → divided_from result rest ≡ divided_from register (concat words.now ++ rest) }
{
    let mut next = register;
    for word in words {
        next = with_word(next, *word);
    }
    next
}

// Eight bytes more at once: the whole register leaves, added to the first four, and what dividing all eight leaves is
// the next. So no part of the register is shifted, and the eight look-ups needn't wait for each other.
fn with_word(register: u32, word: [u8; 8]) -> u32
    ensures { (rest : List ℕ) → divided_from result rest ≡ divided_from register (word ++ rest) }
{
    let [first, second, third, fourth] = register.to_be_bytes();
    remainder_of_word([
        word[0] ^ first,
        word[1] ^ second,
        word[2] ^ third,
        word[3] ^ fourth,
        word[4],
        word[5],
        word[6],
        word[7],
    ])
}

// One byte more: its sum with the eight bits that leave the register is divided, and what this leaves is added at the
// end.
fn with_byte(register: u32, byte: u8) -> u32
    ensures { (rest : List ℕ) → divided_from result rest ≡ divided_from register (byte ∷ rest) }
{
    let leaving = (register >> 24) as u8 ^ byte;
    register << 8 ^ remainder_of(leaving)
}
