//! The words of a sector that correct its errors (ECMA-130, annex A): 86 of P parity and 52 of Q parity, each of which
//! ends with two bytes of its own. Bytes 12 to 2351 are pairs of a low and a high byte, which are coded apart: words of
//! even number have low bytes, and the next number has the high bytes of the same pairs.
ghost use Rattle.std.specs.Prelude.{◌≡◌, ◌≢◌, ◌↔◌, ℕ, ◌+◌, ◌-◌, ◌<◌, ◌≤◌, length, slice_index, EachIndex, IsTrue, IfSome, None};
ghost use Rattle.cd_sector.specs.Words.{sector_place, word_size, IsRight};

use rs_code::Code;

/// P words are numbered before Q words.
pub(crate) const P_WORDS: usize = 86;

/// The number of words: 86 P words and 52 Q words.
pub(crate) const WORDS: usize = 138;

/// The code of a P word.
pub(crate) type PWord = Code<26, 2>;

/// The code of a Q word.
pub(crate) type QWord = Code<45, 2>;

/// Fills `bytes` with the first bytes of a word, as many as there is room for; callers have room for all. It is for one
/// word that is to be repaired: where all are tested, `rows` has them at once.
pub(crate) fn read_word(sector: &[u8; 2352], word: usize, bytes: &mut [u8])
    requires word { word < 138 }
    requires size { length bytes.old ≤ word_size word }
    ensures { EachIndex bytes.new (λ m. slice_index bytes.new m ≡ slice_index sector.now (sector_place word m)) }
{
    for (m, byte) in bytes.iter_mut().enumerate() {
        *byte = sector[place(word, m)];
    }
}

/// The place in the sector of byte `m` of a word. A P word goes down a column of rows of 86 bytes. A Q word goes down a
/// diagonal: one row and two bytes further for each place, round the end. Its parity follows after all of these. The
/// rows begin at byte 12, after the sync, and 26 of them have 2,236 bytes; 43 is the number of a Q word's bytes before
/// parity.
pub(crate) fn place(word: usize, m: usize) -> usize
    requires word { word < 138 }
    requires byte { m < word_size word }
    ensures value { result ≡ sector_place word m }
    ensures inside { result < 2352 }
{
    if word < P_WORDS {
        return 12 + 86 * m + word;
    }
    let number = word - P_WORDS;
    if m < 43 {
        12 + (88 * m + 86 * (number / 2)) % 2236 + number % 2
    } else {
        2248 + 52 * (m - 43) + number
    }
}
