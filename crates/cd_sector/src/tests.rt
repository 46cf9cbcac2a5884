//! Worked values from outside the program: whole sectors of the definitions and of the method of the program ecm,
//! both written anew in Python, which agree.
use crate::{CdCause, cd_edc, check, make, repair};
use rs_code::Code;
use sha2::{Digest, Sha256};
use std::test::Fail;

// The sector of zeros at address 150, which is the first after the pause of two seconds.
const ZEROS: [u8; 32] =
    *b"\xB4\xF1\x8A\xB6\x67\x09\xC9\xB3\xFD\xEF\x27\x21\xCC\x32\x3E\x03\x1B\x67\x28\xF3\xCA\x6C\x57\xB7\xC4\x35\xC9\x61\x89\x22\x22\x50";

// The last sector of all, of counted bytes.
const COUNTED: [u8; 32] =
    *b"\x8A\xA4\x98\xE5\x26\xE2\x21\x08\xE4\x94\x78\x9C\xD3\xCB\x30\x2E\x15\x16\x21\xFC\x5E\x95\x31\xC6\xAF\x49\x57\xA8\xF6\xDF\x22\xE6";

#[test]
fn edcs_of_known_bytes(rt: HostRuntime) {
    assert_eq!(rt; cd_edc(&[0x80]), [0x01, 0x80, 0x01, 0xD8]);
    assert_eq!(rt; cd_edc(&[]), [0; 4]);
}

#[test]
fn parity_of_a_word(rt: HostRuntime) {
    let mut word = [0; 26];
    word[23] = 1;
    Code::<26, 2>::new().encode(&mut word);
    assert_eq!(rt; &word[24..], [0x03, 0x02].as_slice());
}

#[test]
fn a_sector_of_zeros(rt: HostRuntime) {
    let mut sector = [0; 2352];
    make(150, &[0; 2048], &mut sector);
    let prefix = [
        0x00, 0xFF, 0xFF, 0xFF, 0xFF, 0xFF, 0xFF, 0xFF, 0xFF, 0xFF, 0xFF, 0x00, 0x00, 0x02, 0x00,
        0x01,
    ];
    assert!(rt; sector.starts_with(&prefix));
    assert_eq!(rt; &sector[2064..2068], [0xC5, 0x13, 0x68, 0x2B].as_slice());
    assert_eq!(rt; Sha256::digest(&sector), ZEROS);
}

#[test]
fn a_sector_of_counted_bytes(rt: HostRuntime) {
    let mut user = [0; 2048];
    for i in 0..2048 {
        user[i] = ((7 * i + i / 256) % 256) as u8;
    }
    let mut sector = [0; 2352];
    make(449_999, &user, &mut sector);
    assert_eq!(rt; &sector[12..16], [0x99, 0x59, 0x74, 0x01].as_slice());
    assert_eq!(rt; Sha256::digest(&sector), COUNTED);
}

#[test]
fn causes_of_wrong_sectors(rt: HostRuntime) {
    let mut sector = [0; 2352];
    assert!(rt; check(&sector, 150) == Err(CdCause::Mode { byte: 0 }));
    make(150, &[0; 2048], &mut sector);
    assert!(rt; check(&sector, 150) == Ok(()));
    assert!(rt; check(&sector, 151) == Err(CdCause::Address { found: 0x0200 }));
    sector[0] = 9;
    assert!(rt; check(&sector, 150) == Ok(()));
    // Byte 2300 is the last of the first Q word.
    sector[2300] ^= 1;
    assert!(rt; check(&sector, 150) == Err(CdCause::Parity { word: 86 }));
    // Byte 23 is the first of P word 11.
    sector[23] ^= 1;
    assert!(rt; check(&sector, 150) == Err(CdCause::Parity { word: 11 }));
}

#[test]
fn repaired_sectors(rt: HostRuntime) {
    let mut whole = [0; 2352];
    make(150, &[0; 2048], &mut whole);
    // Two P words with one wrong byte each, and a wrong sync, which doesn't count.
    let mut hurt = whole;
    hurt[0] = 1;
    hurt[16] ^= 0xFF;
    hurt[18] ^= 0x01;
    assert!(rt; repair(&mut hurt, 150) == Ok(2));
    assert!(rt; hurt == whole);
    // All 26 bytes of one P word.
    for m in 0..26 {
        hurt[22 + 86 * m] ^= 0xFF;
    }
    assert!(rt; repair(&mut hurt, 150) == Ok(26));
    assert!(rt; hurt == whole);
}

#[test]
fn sectors_beyond_repair(rt: HostRuntime) {
    let mut zeros = [0; 2352];
    assert!(rt; repair(&mut zeros, 150) == Err(CdCause::Mode { byte: 0 }));
    assert!(rt; zeros[1] == 0);
    make(150, &[0; 2048], &mut zeros);
    assert!(rt; repair(&mut zeros, 151) == Err(CdCause::Address { found: 0x0200 }));
    // At least eleven bytes of each P word, and fifteen of each Q word.
    for at in 1000..2000 {
        zeros[at] ^= 0x55;
    }
    let hurt = zeros;
    assert!(rt; repair(&mut zeros, 150) == Err(CdCause::Parity { word: 0 }));
    assert!(rt; zeros == hurt);
}

// Another EDC, with all words codewords.
#[test]
fn a_wrong_edc(rt: HostRuntime) {
    let mut sector = [0; 2352];
    make(150, &[0; 2048], &mut sector);
    sector[2064] ^= 0x01;
    sector[2150] ^= 0x03;
    sector[2236] ^= 0x02;
    sector[2272] ^= 0x7F;
    sector[2274] ^= 0x81;
    sector[2276] ^= 0xFE;
    sector[2324] ^= 0x7E;
    sector[2326] ^= 0x82;
    sector[2328] ^= 0xFC;
    assert!(rt; check(&sector, 150) == Err(CdCause::Edc));
    assert!(rt; repair(&mut sector, 150) == Err(CdCause::Edc));
}

/// Each cause is equal to itself, and to no other: of another kind, or of the same with another number.
#[test]
fn causes_differ(rt: HostRuntime) {
    let causes = [
        CdCause::Parity { word: 1 },
        CdCause::Parity { word: 2 },
        CdCause::Mode { byte: 1 },
        CdCause::Mode { byte: 2 },
        CdCause::Address { found: 1 },
        CdCause::Address { found: 2 },
        CdCause::Edc,
    ];
    for (i, cause) in causes.iter().enumerate() {
        for (k, other) in causes.iter().enumerate() {
            assert_eq!(rt; cause == other, i == k, "at {i}, {k}");
        }
    }
}
