//! Worked values from outside the program.
ghost use Rattle.std.specs.Prelude.{◌≤◌, ◌<◌};

use crate::Deep;
use dvd_block::{Block, Piece};
use dvd_capture::{Stage, Work};
use dvd_frame::{Area, Id, Rule, make_frame};
use dvd_layout::{BlockPlan, Content};
use dvd_read::Cause;
use std::alloc::Global;
use std::test::Fail;

const FIRST: BlockPlan = BlockPlan {
    first: 0x03_0000,
    area: Area::DataZone,
    layer: 0,
    content: Content::Image(0),
};

// A number of chains of lost places (`lose_chains`), and what a search answers: the round that finishes.
const CHAINS: [(usize, Option<u8>); 5] = [
    (0, Some(1)),
    (1, Some(2)),
    (2, Some(3)),
    (3, Some(4)),
    (4, None),
];

// The first data block as it was received, with byte f as the Main Data of frame f. A Main Data byte of frame `edc` is
// changed.
fn data_block(alloc: Global, edc: Option<u32>) -> Result<Work, Fail> {
    let mut block = Block::new(alloc)?;
    for f in 0..16u32 {
        let id = Id::new(Area::DataZone, 0, false, 0x03_0000 + f);
        let mut frame = [0; 2064];
        make_frame(id, &[0; 6], Rule::Whole, &[f as u8; 2048], &mut frame);
        if edc == Some(f) {
            frame[100] ^= 0x01;
        }
        block.put_frame(f as usize, &frame);
    }
    block.add_parity();
    let mut work = Work::new(alloc)?;
    work.load_block(&block);
    Ok(work)
}

// Loses one place, and marks it.
fn lose(work: &mut Work, i: usize, j: usize) {
    if work.stage() == Stage::Fetched && i < 208 && j < 182 {
        work.damage(i, j, 0x5A, true);
    }
}

// Loses eleven places in each of seventeen rows a chain. Eleven are one more than a row corrects, and seventeen failed
// rows one more than a column does. So round 1 gives back only columns with few marks of their own: 40 and 41, which
// leave ten marks in each row of the first chain. Round 2 gives back these rows, and then the columns by which the next
// chain's rows are left with ten, and so on: each chain takes a round more.
fn lose_chains(work: &mut Work, chains: usize)
    requires { chains ≤ 4 }
{
    for row in 0..17 * chains {
        lose_row(work, row / 17, row % 17);
    }
}

// Loses ten places of a row, in columns that all rows of its chain have lost. Loses one more place, in a column that
// the chain before gives back, or for the first chain in one of two columns that have lost less.
fn lose_row(work: &mut Work, chain: usize, r: usize)
    requires chain { chain < 4 }
    requires row { r < 17 }
{
    for d in 0..10usize {
        lose(work, 17 * chain + r, 10 * chain + d);
    }
    let link = if chain == 0 {
        40 + r % 2
    } else {
        10 * (chain - 1) + r % 10
    };
    lose(work, 17 * chain + r, link);
}

// What a search answers where a block was received, which `search` requires.
fn search(deep: &mut Deep, work: &Work) -> Option<u8> {
    if work.stage() == Stage::Fetched {
        deep.search(work)
    } else {
        None
    }
}

#[test]
fn each_chain_takes_a_round(rt: HostRuntime) -> Result<(), Fail> {
    let mut deep = Deep::new(rt.alloc())?;
    for (chains, round) in CHAINS {
        assert!(rt; chains <= 4);
        let mut work = data_block(rt.alloc(), None)?;
        lose_chains(&mut work, chains);
        assert_eq!(rt; search(&mut deep, &work), round);
    }
    Ok(())
}

// What is found of the first data block where a round gives it back: its second byte, which is 03 by the ID 00030000 of
// its first frame, and the result for its frames.
fn read(deep: &mut Deep, work: &Work, piece: &mut Piece) -> Option<(u8, Result<(), Cause>)> {
    if work.stage() == Stage::Fetched && deep.search(work).is_some() {
        Some((deep.byte(0, 1), deep.sectors(&FIRST, piece)))
    } else {
        None
    }
}

#[test]
fn sectors_are_those_of_the_block_that_was_found(rt: HostRuntime) -> Result<(), Fail> {
    let mut deep = Deep::new(rt.alloc())?;
    let mut piece = Piece::new(rt.alloc())?;
    let mut work = data_block(rt.alloc(), None)?;
    lose_chains(&mut work, 3);
    let answer = read(&mut deep, &work, &mut piece);
    assert_eq!(rt; answer, Some((3, Ok(()))));
    for (f, sector) in piece.bytes().chunks_exact(2048).enumerate() {
        assert!(rt; sector.iter().all(|byte| usize::from(*byte) == f));
    }
    Ok(())
}

#[test]
fn a_faulty_frame_of_the_block_is_named(rt: HostRuntime) -> Result<(), Fail> {
    let mut deep = Deep::new(rt.alloc())?;
    let mut piece = Piece::new(rt.alloc())?;
    let mut work = data_block(rt.alloc(), Some(5))?;
    lose_chains(&mut work, 2);
    let answer = read(&mut deep, &work, &mut piece);
    assert_eq!(rt; answer, Some((3, Err(Cause::Edc { f: 5 }))));
    assert!(rt; piece.bytes().iter().all(|byte| *byte == 0));
    Ok(())
}
