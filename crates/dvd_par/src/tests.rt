//! The answers of several workers beside those of the calls that have none. Helpers without a contract test what a call
//! requires of them, a stage or a row of the block: where that doesn't hold, they do nothing or answer `None`.
//! Numbers wrap where nothing bounds them.
use crate::{OpenGate, add_parity_par, read_block_par, two_pass_par};
use dvd_block::Block;
use dvd_capture::{Stage, Work};
use dvd_frame::{Area, Id, Rule, make_frame};
use dvd_layout::{BlockPlan, Content};
use dvd_read::{Cause, Fixed, read_block, two_pass};
use std::alloc::Global;
use std::test::Fail;
use std::thread::Threads;

// Numbers of workers: one, and those that leave the last pieces of 208 rows or 182 columns short.
const WORKERS: [u8; 5] = [1, 3, 5, 15, 16];

const FIRST: BlockPlan = BlockPlan {
    first: 0x03_0000,
    area: Area::DataZone,
    layer: 0,
    content: Content::Image(0),
};

// The first data block without its parity. Its Main Data are any bytes that differ from place to place and from frame
// to frame.
pub(crate) fn frames(alloc: Global) -> Result<Block, Fail> {
    let mut block = Block::new(alloc)?;
    let mut main = [0; 2048];
    for f in 0..16u32 {
        for (k, byte) in main.iter_mut().enumerate() {
            *byte = (k * k / 7 % 251) as u8 ^ f as u8;
        }
        let id = Id::new(Area::DataZone, 0, false, 0x03_0000 + f);
        let mut frame = [0; 2064];
        make_frame(id, &[0; 6], Rule::Whole, &main, &mut frame);
        block.put_frame(f as usize, &frame);
    }
    Ok(block)
}

// The first data block, received so: in each of the `bad` rows from row `from` on, of every `step` rows, eleven bytes
// are changed, and in each of the `lost` rows after them all places are marked.
pub(crate) fn received(
    alloc: Global,
    from: usize,
    step: usize,
    bad: usize,
    lost: usize,
) -> Result<Work, Fail> {
    let mut block = frames(alloc)?;
    block.add_parity();
    let mut work = Work::new(alloc)?;
    work.load_block(&block);
    for t in 0..208usize {
        let i = from.wrapping_add(t.wrapping_mul(step));
        for j in 0..182usize {
            if t < bad {
                hurt(&mut work, i, j, 0x5A, j % 17 > 0);
            } else if t < bad.wrapping_add(lost) {
                put(&mut work, i, j, 0, true);
            }
        }
    }
    Ok(work)
}

fn hurt(work: &mut Work, i: usize, j: usize, change: u8, kept: bool) {
    if work.stage() == Stage::Fetched && i < 208 && j < 182 && !kept {
        let byte = work.received(i, j) ^ change;
        work.damage(i, j, byte, false);
    }
}

// Sets a received byte and its mark. It does nothing where `damage` would ask for more than is known here: a stage, or
// a row and a place of the block.
pub(crate) fn put(work: &mut Work, i: usize, j: usize, byte: u8, mark: bool) {
    if work.stage() == Stage::Fetched && i < 208 && j < 182 {
        work.damage(i, j, byte, mark);
    }
}

// What two passes answer with so many workers, where a block was received; with none, by the plain call.
pub(crate) fn decode<R: Threads + Sync>(
    rt: &R,
    workers: u8,
    work: &mut Work,
) -> Option<Result<Fixed, Cause>> {
    if work.stage() != Stage::Fetched || workers > 16 {
        None
    } else if workers == 0 {
        Some(two_pass(work))
    } else {
        Some(two_pass_par(rt, workers, &OpenGate, work))
    }
}

// What is read of the first data block.
fn read<R: Threads + Sync>(rt: &R, workers: u8, work: &mut Work) -> Option<Result<Fixed, Cause>> {
    if work.stage() != Stage::Fetched || workers > 16 {
        None
    } else if workers == 0 {
        Some(read_block(work, &FIRST))
    } else {
        Some(read_block_par(rt, workers, &OpenGate, work, &FIRST))
    }
}

// Whether all that was found of one block was found of the other.
fn are_same(one: &Work, other: &Work) -> bool {
    one.stage() == other.stage()
        && one.answers.rows() == other.answers.rows()
        && (0..16usize).all(|f| one.sector(f) == other.sector(f))
        && (one.stage() != Stage::Fixed || one.columns.all() == other.columns.all())
}

#[test]
fn blocks_are_decoded_as_by_one_worker(rt: HostRuntime) -> Result<(), Fail> {
    // From which row on, every how many rows, bad rows and lost rows: five within the bound, and three
    // beyond it. Twice the bad rows plus the lost ones is 0, 16, 16, 16 and 2, and then 17, 18 and 34.
    let blocks: [(usize, usize, usize, usize); 8] = [
        (0, 1, 0, 0),
        (3, 13, 8, 0),
        (1, 12, 0, 16),
        (192, 1, 2, 12),
        (206, 1, 0, 2),
        (0, 12, 0, 17),
        (5, 2, 9, 0),
        (191, 1, 17, 0),
    ];
    for (from, step, bad, lost) in blocks {
        let mut plain = received(rt.alloc(), from, step, bad, lost)?;
        let wanted = decode(&rt, 0, &mut plain);
        assert!(rt; wanted.is_some());
        for workers in WORKERS {
            let mut work = received(rt.alloc(), from, step, bad, lost)?;
            assert_eq!(rt; decode(&rt, workers, &mut work), wanted);
            assert!(rt; are_same(&work, &plain));
        }
    }
    Ok(())
}

#[test]
fn blocks_are_read_as_by_one_worker(rt: HostRuntime) -> Result<(), Fail> {
    for lost in [0, 16, 17] {
        let mut plain = received(rt.alloc(), 0, 12, 0, lost)?;
        let wanted = read(&rt, 0, &mut plain);
        assert!(rt; wanted.is_some());
        for workers in WORKERS {
            let mut work = received(rt.alloc(), 0, 12, 0, lost)?;
            assert_eq!(rt; read(&rt, workers, &mut work), wanted);
            assert!(rt; are_same(&work, &plain));
        }
    }
    Ok(())
}

#[test]
fn parity_is_that_of_one_worker(rt: HostRuntime) -> Result<(), Fail> {
    let mut plain = frames(rt.alloc())?;
    plain.add_parity();
    for workers in [1u8, 5, 16] {
        let mut block = frames(rt.alloc())?;
        add_parity_par(&rt, workers, &OpenGate, &mut block);
        assert!(rt; block.lines.rows() == plain.lines.rows());
        assert!(rt; block.cells.all() == plain.cells.all());
    }
    Ok(())
}
