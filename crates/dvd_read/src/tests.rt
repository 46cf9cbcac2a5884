//! Worked values from outside the program. Blocks of which no frame is read are in dvd_par, by the plain call too.
//! Helpers without a contract test what a call requires of them, a stage or a row of the block: where that doesn't
//! hold, they do nothing or answer `None`. Products wrap where nothing bounds them.
use crate::parts::answer_block;
use crate::{Cause, Fixed, read_block, salvage, sectors, two_pass};
use dvd_block::Block;
use dvd_capture::{Stage, Work};
use dvd_frame::{Area, Id, Rule, make_frame};
use dvd_layout::{BlockPlan, Content};
use std::alloc::Global;
use std::test::Fail;

const FIRST: BlockPlan = BlockPlan {
    first: 0x03_0000,
    area: Area::DataZone,
    layer: 0,
    content: Content::Image(0),
};

// A received block of zeros.
fn zero_block(alloc: Global) -> Result<Work, Fail> {
    let mut work = Work::new(alloc)?;
    work.load_block(&Block::new(alloc)?);
    Ok(work)
}

fn put(work: &mut Work, i: usize, j: usize, byte: u8, mark: bool) {
    if work.stage() == Stage::Fetched && i < 208 && j < 182 {
        work.damage(i, j, byte, mark);
    }
}

// Marks all places of row `i`.
fn lose_row(work: &mut Work, i: usize) {
    for j in 0..182usize {
        put(work, i, j, 0, true);
    }
}

// Loses `count` rows, from row 0 on, each `step` rows after the one before.
fn lose_rows(work: &mut Work, step: usize, count: usize) {
    for t in 0..count {
        lose_row(work, step.wrapping_mul(t));
    }
}

// What is answered of a received block that both passes fixed.
fn fixed(bytes: u32, failed_rows: u16) -> Option<Result<Fixed, Cause>> {
    Some(Ok(Fixed { bytes, failed_rows }))
}

// Both passes, where a block was received.
fn decode(work: &mut Work) -> Option<Result<Fixed, Cause>> {
    if work.stage() == Stage::Fetched {
        Some(two_pass(work))
    } else {
        None
    }
}

// What is read of a block as the first data block, where one was received.
fn read(work: &mut Work) -> Option<Result<Fixed, Cause>> {
    if work.stage() == Stage::Fetched {
        Some(read_block(work, &FIRST))
    } else {
        None
    }
}

// Whether all bytes of sector `f` are `byte`.
fn is_sector_of(work: &Work, f: usize, byte: u8) -> bool {
    f < 16 && work.sector(f).iter().all(|b| *b == byte)
}

// Whether all bytes of all sectors are zeros.
fn are_zeros(work: &Work) -> bool {
    (0..16usize).all(|f| is_sector_of(work, f, 0))
}

// The checks of the first data block's frames, where both passes fixed it.
fn check(work: &mut Work) -> Option<Result<(), Cause>> {
    if work.stage() == Stage::Fixed {
        Some(sectors(work, &FIRST))
    } else {
        None
    }
}

// What is saved of the first data block, where its rows were answered.
fn save(work: &mut Work) -> Option<u8> {
    if work.stage() == Stage::Refused || work.stage() == Stage::Fixed {
        Some(salvage(work, &FIRST))
    } else {
        None
    }
}

// Whether sector `f` is that of the first data block, or zeros where it is lost; of all sixteen.
fn all_but(work: &Work, lost: [usize; 2]) -> bool {
    (0..16u8).all(|f| {
        let at = usize::from(f);
        let is_lost = at == lost[0] || at == lost[1];
        is_sector_of(work, at, if is_lost { 0 } else { f })
    })
}

#[test]
fn lost_rows_that_hold_noise_are_filled(rt: HostRuntime) -> Result<(), Fail> {
    let mut work = zero_block(rt.alloc())?;
    for t in 0..16usize {
        for j in 0..182usize {
            put(&mut work, 13 * t, j, ((7 * t + j) % 256) as u8 | 1, true);
        }
    }
    assert_eq!(rt; decode(&mut work), fixed(16 * 182, 16));
    Ok(())
}

// The first data block, with byte f as the Main Data of frame f. A main byte of frame `edc` is changed, and a bit of
// the IED of frame `ied`.
fn data_block(alloc: Global, edc: Option<u32>, ied: Option<u32>) -> Result<Work, Fail> {
    let mut block = Block::new(alloc)?;
    for f in 0..16u32 {
        let id = Id::new(Area::DataZone, 0, false, 0x03_0000 + f);
        let mut frame = [0; 2064];
        make_frame(id, &[0; 6], Rule::Whole, &[f as u8; 2048], &mut frame);
        if edc == Some(f) {
            frame[100] ^= 0x01;
        }
        if ied == Some(f) {
            frame[5] ^= 0x40;
        }
        block.put_frame(f as usize, &frame);
    }
    block.add_parity();
    let mut work = Work::new(alloc)?;
    work.load_block(&block);
    Ok(work)
}

// Whether one worker finds that the rows' answers of a received block hold its columns.
fn are_held(work: &mut Work) -> Option<bool> {
    if work.stage() == Stage::Fetched {
        Some(answer_block(work, || ()).are_held)
    } else {
        None
    }
}

// `false` would be allowed for each, as no clause says when the answers are found to hold the columns: it costs time.
// Row 100 is one of the frames, and row 207 one of outer parity.
#[test]
fn answers_hold_columns_that_correct_no_answered_row(rt: HostRuntime) -> Result<(), Fail> {
    for lost in [0usize, 1, 16] {
        for (i, errors) in [(100, 0usize), (100, 5), (207, 1)] {
            let mut work = zero_block(rt.alloc())?;
            for t in 0..lost {
                for j in 0..182usize {
                    put(&mut work, t.wrapping_mul(13), j, 0xA5, true);
                }
            }
            for k in 0..errors {
                put(&mut work, i, k.wrapping_mul(36), 0x5A, false);
            }
            assert_eq!(rt; are_held(&mut work), Some(true));
        }
    }
    Ok(())
}

#[test]
fn the_first_frame_with_a_fault_is_named(rt: HostRuntime) -> Result<(), Fail> {
    for (edc, cause) in [(Some(2), Cause::Edc { f: 2 }), (None, Cause::Ied { f: 3 })] {
        let mut work = data_block(rt.alloc(), edc, Some(3))?;
        assert_eq!(rt; decode(&mut work), fixed(0, 0));
        assert_eq!(rt; check(&mut work), Some(Err(cause)));
        assert!(rt; work.sector(15).iter().all(|byte| *byte == 0));
    }
    Ok(())
}

#[test]
fn a_block_of_zeros_names_no_place(rt: HostRuntime) -> Result<(), Fail> {
    let mut work = zero_block(rt.alloc())?;
    assert!(rt; decode(&mut work).is_some());
    let cause = Cause::Address { f: 0, found: 0 };
    assert_eq!(rt; check(&mut work), Some(Err(cause)));
    Ok(())
}

#[test]
fn sectors_are_read_back_or_are_zeros(rt: HostRuntime) -> Result<(), Fail> {
    let mut work = data_block(rt.alloc(), None, None)?;
    assert_eq!(rt; read(&mut work), fixed(0, 0));
    for f in 0..16u8 {
        assert!(rt; is_sector_of(&work, usize::from(f), f));
    }

    // The sectors of the block before are gone after a cause of the frames, and of the two passes.
    work.load_block(&Block::new(rt.alloc())?);
    let cause = Cause::Address { f: 0, found: 0 };
    assert_eq!(rt; read(&mut work), Some(Err(cause)));
    assert!(rt; are_zeros(&work));
    let mut work = data_block(rt.alloc(), None, None)?;
    assert_eq!(rt; read(&mut work), fixed(0, 0));
    work.load_block(&Block::new(rt.alloc())?);
    lose_rows(&mut work, 12, 17);
    assert_eq!(rt; read(&mut work), Some(Err(Cause::Rows { failed: 17 })));
    assert!(rt; are_zeros(&work));
    Ok(())
}

#[test]
fn frames_without_a_fault_are_saved(rt: HostRuntime) -> Result<(), Fail> {
    // Of a block that two passes fixed, all but the two frames that are faulty.
    let mut work = data_block(rt.alloc(), Some(2), Some(3))?;
    assert_eq!(rt; read(&mut work), Some(Err(Cause::Edc { f: 2 })));
    assert_eq!(rt; save(&mut work), Some(14));
    assert!(rt; all_but(&work, [2, 3]));

    // Of a block without a fault, all.
    let mut work = data_block(rt.alloc(), None, None)?;
    assert!(rt; read(&mut work).is_some());
    assert_eq!(rt; save(&mut work), Some(16));
    assert!(rt; all_but(&work, [0, 0]));

    // Of a block of another place, none.
    let mut work = zero_block(rt.alloc())?;
    assert!(rt; read(&mut work).is_some());
    assert_eq!(rt; save(&mut work), Some(0));
    Ok(())
}

#[test]
fn frames_of_answered_rows_are_saved(rt: HostRuntime) -> Result<(), Fail> {
    // Seventeen rows are one more than the columns correct. Rows 0 to 16 are those of frame 0 and five of frame 1.
    let mut work = data_block(rt.alloc(), None, None)?;
    lose_rows(&mut work, 1, 17);
    assert_eq!(rt; read(&mut work), Some(Err(Cause::Rows { failed: 17 })));
    assert_eq!(rt; save(&mut work), Some(14));
    assert!(rt; all_but(&work, [0, 1]));

    // Seventeen rows of frames 4 and 10: rows 49 to 59 and 120 to 125.
    let mut work = data_block(rt.alloc(), None, None)?;
    for t in 0..11usize {
        lose_row(&mut work, 49 + t);
    }
    for t in 0..6usize {
        lose_row(&mut work, 120 + t);
    }
    assert_eq!(rt; read(&mut work), Some(Err(Cause::Rows { failed: 17 })));
    assert_eq!(rt; save(&mut work), Some(14));
    assert!(rt; all_but(&work, [4, 10]));

    // One row of each frame and one of parity: nothing is saved.
    let mut work = data_block(rt.alloc(), None, None)?;
    lose_rows(&mut work, 12, 17);
    assert_eq!(rt; decode(&mut work), Some(Err(Cause::Rows { failed: 17 })));
    assert_eq!(rt; save(&mut work), Some(0));
    assert!(rt; are_zeros(&work));
    Ok(())
}
