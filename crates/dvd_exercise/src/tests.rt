//! Worked values from outside the program.
ghost use Rattle.std.specs.Prelude.{◌≡◌};
ghost use Rattle.dvd_capture.specs.Works.{stage_of};
ghost use Rattle.dvd_capture.specs.declared.stage.Stage.TheVariants.{Fetched};

use crate::{Rand, fill_piece, hurt};
use dvd_block::{Block, Piece};
use dvd_capture::Work;
use sha2::{Digest, Sha256};
use std::alloc::{AllocError, Global};
use std::test::Fail;

// Seeds and their first four words, computed by another program.
static WORDS: [(u32, [u64; 4]); 3] = [
    (
        0,
        [
            1082269761,
            1152992998833853505,
            11177516664432764457,
            17678023832001937445,
        ],
    ),
    (
        1,
        [
            2164539522,
            2305985997667575939,
            3908431074842011666,
            8836381484286226498,
        ],
    ),
    (
        4294967295,
        [
            4648317627024801792,
            2598594581474050048,
            477124728218454016,
            16508085175909875728,
        ],
    ),
];

// SHA-256 of the piece of seed 7.
static PIECE: [u8; 32] =
    *b"\x3F\xE6\x51\x3F\xC0\xD6\x37\x20\x97\x17\x7B\x89\x76\xA5\x58\x21\x23\xBC\x2D\x60\x2C\xE8\x6A\xD0\xEB\xA3\x96\x5B\x0E\xAF\x7B\x33";

// SHA-256 of rows and marks after a block of zeros was damaged once with seed 3, by 6 bad and 3 lost rows.
static HURT: [u8; 32] =
    *b"\x1E\xCA\x4D\x3F\xEB\x67\x21\x4C\xD6\xD9\x31\x1B\xDE\x27\xE8\xAE\x90\x2A\x37\x39\xDB\xDD\xD7\xB6\x9E\x6B\x3E\x6C\x02\x00\x78\xC4";

// Likewise after it was damaged again from that state on, by 4 bad and 4 lost rows.
static AGAIN: [u8; 32] =
    *b"\x74\xED\x24\x60\xA5\x42\xCC\x72\x3D\xE7\x7C\xE2\x41\x3F\x18\xAB\x76\x80\xEB\x42\x7A\xD3\x31\xC0\x85\x14\xF0\xE1\xA1\xBA\xBC\x10";

#[test]
fn words_follow_the_seed(rt: HostRuntime) {
    for (seed, words) in WORDS {
        let mut rand = Rand::new(seed);
        for word in words {
            assert_eq!(rt; rand.word(), word);
        }
    }
    assert_eq!(rt; Rand::new(0).byte(), 0);
}

#[test]
fn a_piece_is_filled(rt: HostRuntime) -> Result<(), Fail> {
    let mut piece = Piece::new(rt.alloc())?;
    let mut rand = Rand::new(7);
    fill_piece(&mut rand, &mut piece);
    assert_eq!(rt; Sha256::digest(piece.bytes()), PIECE);
    assert_eq!(rt; rand.word(), 5886447638819002706);
    Ok(())
}

// SHA-256 of the received bytes, row by row, and then of the marks, a byte 0 or 1 for each.
fn digest(alloc: Global, work: &Work) -> Result<[u8; 32], AllocError>
    requires { stage_of work.now ≡ Fetched }
{
    let mut bytes = Vec::new(alloc);
    for i in 0..208 {
        for j in 0..182 {
            bytes.push(work.received(i, j))?;
        }
    }
    for i in 0..208 {
        for j in 0..182 {
            bytes.push(u8::from(work.marked(i, j)))?;
        }
    }
    Ok(Sha256::digest(&bytes))
}

#[test]
fn a_block_is_hurt_twice(rt: HostRuntime) -> Result<(), Fail> {
    let alloc = rt.alloc();
    let mut work = Work::new(alloc)?;
    work.load_block(&Block::new(alloc)?);
    let mut rand = Rand::new(3);
    hurt(&mut rand, &mut work);
    assert_eq!(rt; digest(alloc, &work)?, HURT);
    hurt(&mut rand, &mut work);
    assert_eq!(rt; digest(alloc, &work)?, AGAIN);
    Ok(())
}

#[test]
fn generators_are_alike_in_one_state(rt: HostRuntime) -> Result<(), Fail> {
    let mut rand = Rand::new(1);
    let copy = rand.clone()?;
    assert!(rt; rand == copy);
    rand.word();
    assert!(rt; rand != copy && rand != Rand::new(1) && copy == Rand::new(1));
    Ok(())
}
