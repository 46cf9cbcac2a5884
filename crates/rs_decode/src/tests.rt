//! Worked values from outside, and the answers for drawn words as another decoder gives them: one by the
//! Berlekamp-Massey algorithm and Forney's formula.
ghost use Rattle.std.specs.Prelude.{◌≡◌, ◌<◌, ◌≤◌, length};

use crate::{Beyond, Erasures, Fix, NoCodeword, Patches, decode, fill, shortest};
use gf_field::mul;
use rand_xoshiro::SplitMix64;
use rand_xoshiro::rand_core::{Rng, SeedableRng};
use rs_code::{Code, Ied, Pi, Po};
use sha2::{Digest, Sha256};
use std::simd::prelude::*;

#[test]
fn fills_marked_places_of_an_id(rt: HostRuntime) {
    let code = Code::<6, 2>::new();
    let mut word = [0x00, 0x03, 0x00, 0x00, 0xFF, 0xFF];
    assert_eq!(rt;
        fill(&code, &mut word, &[false, false, false, false, true, true]),
        Ok(2)
    );
    assert_eq!(rt; word, [0x00, 0x03, 0x00, 0x00, 0x11, 0x12]);

    // One place too many, and a wrong byte at a place that isn't marked.
    let mut word = [0x00, 0x03, 0x00, 0x00, 0xFF, 0xFF];
    assert_eq!(rt;
        fill(&code, &mut word, &[false, false, false, true, true, true]),
        Err(NoCodeword)
    );
    assert_eq!(rt; word, [0x00, 0x03, 0x00, 0x00, 0xFF, 0xFF]);
    let mut word = [0x00, 0x03, 0x00, 0x00, 0x11, 0x13];
    assert_eq!(rt; fill(&code, &mut word, &[false; 6]), Err(NoCodeword));
    assert_eq!(rt; word, [0x00, 0x03, 0x00, 0x00, 0x11, 0x13]);
}

#[test]
fn fills_the_shortest_words(rt: HostRuntime) {
    let code = Code::<2, 1>::new();
    let mut word = [0x05, 0x00];
    assert_eq!(rt; fill(&code, &mut word, &[false, true]), Ok(1));
    assert_eq!(rt; word, [0x05, 0x05]);
    let mut word = [0x05, 0x00];
    assert_eq!(rt; fill(&code, &mut word, &[true, true]), Err(NoCodeword));
    assert_eq!(rt; word, [0x05, 0x00]);
}

#[test]
fn fills_as_many_places_as_there_are_parity_bytes(rt: HostRuntime) {
    let code = Code::<255, 32>::new();
    for (first, step) in [(0usize, 1usize), (223, 1), (3, 8)] {
        let mut word = [0u8; 255];
        let mut marks = [false; 255];
        for k in 0..32usize {
            word[first + k * step] = 0xFF;
            marks[first + k * step] = true;
        }
        assert_eq!(rt; fill(&code, &mut word, &marks), Ok(32));
        assert!(rt; word.iter().all(|byte| *byte == 0));
    }
}

// What is answered where so many errors and erased bytes were corrected.
fn fixed(errors: u16, erased: u16) -> Result<Fix, Beyond> {
    Ok(Fix { errors, erased })
}

/// What is answered for words with errors and marks, and which word is left.
#[test]
fn decodes_as_worked(rt: HostRuntime) {
    let code = Pi::new();
    let zeros = [0; 182];
    // How many bytes are wrong, wrong and marked, right and marked; and what is answered.
    for ((wrong, lost, doubted), want) in [
        ((5usize, 0usize, 0usize), fixed(5, 0)),
        ((0, 10, 0), fixed(0, 10)),
        ((4, 2, 0), fixed(4, 2)),
        ((1, 0, 9), Err(Beyond)),
        ((0, 0, 11), Err(Beyond)),
        ((0, 0, 0), fixed(0, 0)),
    ] {
        let mut word = zeros;
        let mut marks = [false; 182];
        for k in 0..wrong + lost + doubted {
            if k < wrong + lost {
                word[17 * k % 182] = 0x5A;
            }
            marks[17 * k % 182] = wrong <= k;
        }
        let received = word;
        assert_eq!(rt;
            decode(&code, &mut word, &marks),
            want,
            "at {wrong}, {lost}, {doubted}"
        );
        assert!(rt; word == if want.is_ok() { zeros } else { received });
    }

    // Six bytes of the codeword of 171 zeros and 01 are nearer to it than to zeros.
    let mut codeword = zeros;
    codeword[171] = 1;
    code.encode(&mut codeword);
    let mut word = zeros;
    word[171..177].copy_from_slice(b"\x01\xD8\xC2\x9F\x6F\xC7");
    assert_eq!(rt; decode(&code, &mut word, &[false; 182]), fixed(5, 0));
    assert!(rt; word == codeword);
}

#[test]
fn decodes_the_shortest_words(rt: HostRuntime) {
    let mut id = [0x00, 0x03, 0x00, 0x00, 0x11, 0x13];
    assert_eq!(rt; decode(&Ied::new(), &mut id, &[false; 6]), fixed(1, 0));
    assert_eq!(rt; id, [0x00, 0x03, 0x00, 0x00, 0x11, 0x12]);
    let code = Code::<2, 1>::new();
    let mut pair = [0x05, 0x04];
    assert_eq!(rt; decode(&code, &mut pair, &[false, false]), Err(Beyond));
    assert_eq!(rt; pair, [0x05, 0x04]);
    assert_eq!(rt; decode(&code, &mut pair, &[false, true]), fixed(0, 1));
    assert_eq!(rt; pair, [0x05, 0x05]);
}

// A drawn byte. The other decoder draws the same.
fn byte(drawn: &mut SplitMix64) -> u8 {
    drawn.next_u64().to_be_bytes()[0]
}

// A drawn number below a bound.
fn below(drawn: &mut SplitMix64, bound: usize) -> usize
    requires { 0 < bound }
    ensures { result < bound }
{
    (drawn.next_u64() % bound as u64) as usize
}

/// Damages up to one marked place more than `parity`, and up to one unmarked place more than half of it. They are
/// 31 apart, which has no factor in common with a length here, so that no place comes twice; any such number would
/// do.
fn damage(drawn: &mut SplitMix64, word: &mut [u8], marks: &mut [bool], parity: usize)
    requires some { 0 < length word.old }
    requires fits { length marks.old ≡ length word.old }
    requires few { parity ≤ 32 }
{
    let marked = below(drawn, parity + 2);
    let wrong = below(drawn, parity / 2 + 2);
    let first = below(drawn, word.len());
    for k in 0..marked + wrong {
        let place = (first + 31 * k) % word.len();
        if k < marked {
            marks[place] = true;
            word[place] ^= byte(drawn);
        } else {
            word[place] ^= byte(drawn) | 1;
        }
    }
}

/// Adds to a digest what is answered for 300 drawn words, and the words as they are left.
fn hash_answers<const N: usize, const R: usize>(hasher: &mut Sha256, code: &Code<N, R>, seed: u64) {
    let mut drawn = SplitMix64::seed_from_u64(seed);
    for _k in 0..300 {
        let mut word = [0; N];
        drawn.fill_bytes(&mut word[..N - R]);
        code.encode(&mut word);
        let mut marks = [false; N];
        damage(&mut drawn, &mut word, &mut marks, R);
        match decode(code, &mut word, &marks) {
            Ok(fix) => {
                // Both counts are below 256, so that their low bytes are all of them.
                hasher.update(&[1]);
                hasher.update(&[fix.errors.to_be_bytes()[1], fix.erased.to_be_bytes()[1]]);
            }
            Err(Beyond) => hasher.update(&[0]),
        }
        hasher.update(&word);
    }
}

#[test]
fn decodes_drawn_words(rt: HostRuntime) {
    let mut hasher = Sha256::new();
    hash_answers(&mut hasher, &Pi::new(), 4);
    hash_answers(&mut hasher, &Po::new(), 5);
    hash_answers(&mut hasher, &Ied::new(), 6);
    assert_eq!(rt;
        hasher.finalize(),
        *b"\x33\xE6\xA4\x80\xC2\x70\xFF\x25\x73\xF6\x9E\x7A\xF9\xA0\xF6\xF9\x4F\xA9\x53\xC9\xA8\x6C\xBB\xC8\x57\x69\xE4\xF9\xCC\x31\x49\xE6"
    );
}

#[test]
fn finds_shortest_registers_as_worked(rt: HostRuntime) {
    let doubling = shortest(&[0x01, 0x02, 0x04, 0x08]);
    assert_eq!(rt; doubling.len, 1);
    assert!(rt; doubling.taps.as_slice() == [0x01, 0x02].as_slice());
    assert_eq!(rt; shortest(&[0x00, 0x00, 0x01]).len, 3);
    for zeros in [&[] as &[u8], &[0x00, 0x00]] {
        let none = shortest(zeros);
        assert_eq!(rt; none.len, 0);
        assert!(rt; none.taps.as_slice() == [0x01].as_slice());
    }
}

#[test]
fn registers_are_alike_where_they_generate_one_recurrence(rt: HostRuntime) {
    let doubling = shortest(&[0x01, 0x02, 0x04, 0x08]);
    assert!(rt; doubling == shortest(&[0x02, 0x04, 0x08, 0x10]));
    assert!(rt; doubling != shortest(&[0x01, 0x04, 0x10, 0x40]));
    assert!(rt; doubling != shortest(&[0x00, 0x00]));
}

/// Adds the powers of a drawn point, each times a drawn byte, to a list: a register of as many taps as points generates
/// it.
fn add_powers(drawn: &mut SplitMix64, list: &mut [u8]) {
    let point = byte(drawn);
    let mut byte = byte(drawn);
    for number in list.iter_mut() {
        *number ^= byte;
        byte = mul(byte, point);
    }
}

/// A list of bytes, of bits, or of sums of powers.
fn fill_list(drawn: &mut SplitMix64, list: &mut [u8]) {
    let kind = below(drawn, 3);
    if kind == 2 {
        for _k in 0..below(drawn, 18) {
            add_powers(drawn, list);
        }
    } else {
        for number in list.iter_mut() {
            *number = byte(drawn) & if kind == 0 { 0xFF } else { 0x01 };
        }
    }
}

/// The digest of the lengths for 2,000 drawn lists, and of the taps where no others are as short.
#[test]
fn finds_shortest_registers_of_drawn_lists(rt: HostRuntime) {
    let mut drawn = SplitMix64::seed_from_u64(7);
    let mut hasher = Sha256::new();
    for _k in 0..2000 {
        let mut list = [0; 32];
        let size = below(&mut drawn, 33);
        fill_list(&mut drawn, &mut list[..size]);
        let register = shortest(&list[..size]);
        hasher.update(&[register.len.to_be_bytes()[1]]);
        if 2 * register.len as usize <= size {
            hasher.update(&register.taps);
        }
    }
    assert_eq!(rt;
        hasher.finalize(),
        *b"\xE3\x5F\x34\x8E\xF4\x19\x36\x96\x55\x3D\x0F\x1F\x5D\xE5\x21\x46\x09\x74\xEC\x94\xDE\x4D\x41\xD3\x58\x9B\xCF\xA4\x85\xB0\x43\x5F"
    );
}

/// The values at alpha^0 to alpha^15 of 32 words that are 0 but for drawn bytes at their marked places.
fn drawn_values(drawn: &mut SplitMix64, marks: &[bool; 208]) -> [u8x32; 16] {
    let code = Po::new();
    let mut values = [[0; 32]; 16];
    for n in 0..32usize {
        let mut word = [0; 208];
        for place in 0..208usize {
            if marks[place] {
                word[place] = byte(drawn);
            }
        }
        for (k, value) in code.syndromes(&word).iter().enumerate() {
            values[k % 16][n] = *value;
        }
    }
    let mut lanes = [u8x32::splat(0); 16];
    for k in 0..16usize {
        lanes[k] = u8x32::from_array(values[k]);
    }
    lanes
}

/// Whether what is proposed for 32 words with `count` marks from place `first` on, 13 apart, is right for each, so that
/// none has to be decoded by itself: else answers stay right and take longer. Sixteen marks go once round the 208
/// places.
fn are_patched(drawn: &mut SplitMix64, first: usize, count: usize) -> bool {
    let mut marks = [false; 208];
    for k in 0..count {
        marks[first.wrapping_add(k.wrapping_mul(13)) % 208] = true;
    }
    match Erasures::shared(&marks, 16) {
        Some(erasures) => Patches::new(&erasures, &drawn_values(drawn, &marks)).wrong == [0; 32],
        None => false,
    }
}

#[test]
fn patches_all_words_with_up_to_sixteen_marks(rt: HostRuntime) {
    let mut drawn = SplitMix64::seed_from_u64(9);
    for first in [0usize, 207] {
        assert!(rt; are_patched(&mut drawn, first, 1), "at {first}");
    }
    for count in [1usize, 2, 5, 15, 16] {
        for _k in 0..8 {
            let first = below(&mut drawn, 208);
            assert!(rt;
                are_patched(&mut drawn, first, count),
                "{count} from {first}"
            );
        }
    }
}

/// Words with an error more are found, whichever lane they are in.
#[test]
fn names_words_that_are_not_patched(rt: HostRuntime) {
    let mut marks = [false; 208];
    marks[100] = true;
    let mut values = drawn_values(&mut SplitMix64::seed_from_u64(10), &marks);
    values[3] ^= u8x32::from_array([
        1, 0, 0, 0, 0, 0, 0, 2, 0, 0, 0, 0, 0, 0, 0, 0, 0, 0, 0, 0, 0, 0, 0, 0, 0, 0, 0, 0, 0, 0,
        0, 0x80,
    ]);
    let Some(erasures) = Erasures::shared(&marks, 16) else {
        panic!(rt; "one mark is not few");
    };
    let wrong = Patches::new(&erasures, &values).wrong;
    for n in 0..32usize {
        assert_eq!(rt; wrong[n] != 0, n == 0 || n == 7 || n == 31, "in lane {n}");
    }
}
