//! Values from outside: worked parity bytes, and the parity of drawn words as another program computed it. That program
//! solves the parity checks as linear equations and uses no generator.
ghost use Rattle.std.specs.Prelude.{◌≡◌, length};

use crate::{Code, Ied, Pi, Po};
use rand_xoshiro::SplitMix64;
use rand_xoshiro::rand_core::{Rng, SeedableRng};
use sha2::{Digest, Sha256};

/// The parity of a message of zeros and a last byte 1.
fn parity_of_one<const N: usize, const R: usize>(code: &Code<N, R>) -> [u8; R] {
    let mut word = [0; N];
    word[N - R - 1] = 1;
    code.encode(&mut word);
    let bytes = &word[..];
    let mut parity = [0; R];
    parity.copy_from_slice(&bytes[N - R..]);
    parity
}

/// The digest of the parity bytes of 100 drawn words, one after the other. The other program draws the same.
fn parity_digest<const N: usize, const R: usize>(code: &Code<N, R>, seed: u64) -> [u8; 32] {
    let mut drawn = SplitMix64::seed_from_u64(seed);
    let mut hasher = Sha256::new();
    for _k in 0..100 {
        let mut word = [0; N];
        drawn.fill_bytes(&mut word[..N - R]);
        code.encode(&mut word);
        let bytes = &word[..];
        hasher.update(&bytes[N - R..]);
    }
    hasher.finalize()
}

#[test]
fn encodes_as_worked(rt: HostRuntime) {
    assert_eq!(rt;
        parity_of_one(&Pi::new()),
        *b"\xD8\xC2\x9F\x6F\xC7\x5E\x5F\x71\x9D\xC1"
    );
    assert_eq!(rt;
        parity_of_one(&Po::new()),
        *b"\x3B\x0D\x68\xBD\x44\xD1\x1E\x08\xA3\x41\x29\xE5\x62\x32\x24\x3B"
    );
    assert_eq!(rt;
        parity_of_one(&Code::<255, 32>::new()),
        *b"\x74\x40\x34\xAE\x36\x7E\x10\xC2\xA2\x21\x21\x9D\xB0\xC5\xE1\x0C\x3B\x37\xFD\xE4\x94\x2F\xB3\xB9\x18\x8A\xFD\x14\x8E\x37\xAC\x58"
    );
    let mut id = [0, 3, 0, 0, 0xFF, 0xFF];
    Ied::new().encode(&mut id);
    assert_eq!(rt; id, [0, 3, 0, 0, 0x11, 0x12]);
    let mut pair = [5, 0];
    Code::<2, 1>::new().encode(&mut pair);
    assert_eq!(rt; pair, [5, 5]);
}

#[test]
fn encodes_drawn_words(rt: HostRuntime) {
    assert_eq!(rt;
        parity_digest(&Pi::new(), 2),
        *b"\xA1\xCB\xB5\x59\x87\x9C\x77\xDD\xFA\xB6\xB2\x0A\xAD\x87\x99\x82\xB9\x6F\x73\x63\xAE\x64\x08\x23\xC8\x08\x58\xF6\x60\x1E\xB4\x64"
    );
    assert_eq!(rt;
        parity_digest(&Po::new(), 3),
        *b"\x1A\x95\x4C\xBE\x5A\x3C\xB6\x88\x95\x53\x0B\x97\xD3\x2C\x71\x1D\x45\xDE\x5E\xC4\xD1\xB3\x21\xAB\x86\x97\x31\xCE\x50\x61\xEB\x75"
    );
}

#[test]
fn knows_syndromes_and_codewords(rt: HostRuntime) {
    let id = Ied::new();
    assert_eq!(rt;
        id.syndromes(&[1, 2, 3, 4, 5, 6]).as_slice(),
        [0x07, 0x04].as_slice()
    );
    assert!(rt; id.is_codeword(&[0, 3, 0, 0, 0x11, 0x12]));
    assert!(rt; !id.is_codeword(&[0, 3, 0, 0, 0x11, 0x13]));
    assert!(rt; Pi::new().is_codeword(&[0; 182]));
    assert!(rt; Po::new().is_codeword(&[0; 208]));
    assert_eq!(rt;
        Code::<2, 1>::new().syndromes(&[0x03, 0xF4]).as_slice(),
        [0xF7].as_slice()
    );
}
