//! Worked values from outside the program.
use crate::{FrameWork, Shelf, fetch_frame};
use dvd_capture::{FetchAnswer, Form};
use dvd_layout::{Layout, Shape, Zones};
use dvd_merge::Place;
use dvd_ports::MemSource;
use std::alloc::{AllocError, Global};
use std::test::Fail;

// First rows of recording frames of zeros, by their ID, its check, and the ten bytes of parity: frame 1 of the first
// block, frame 15 of the last block of a disk with 32 and 16 sectors on the opposite track path, the same without b29,
// and the frame after that block.
const FIRST_ROWS: [([u8; 6], [u8; 10]); 4] = [
    (
        [0x00, 0x03, 0x00, 0x01, 0x12, 0x10],
        [0x53, 0x07, 0xDC, 0x58, 0xB8, 0x48, 0x01, 0x7C, 0xBE, 0xE3],
    ),
    (
        [0x21, 0xFC, 0xFF, 0xEF, 0x4E, 0x83],
        [0xA2, 0x62, 0x41, 0xFC, 0xC2, 0x91, 0xA3, 0x74, 0x99, 0x60],
    ),
    (
        [0x01, 0xFC, 0xFF, 0xEF, 0x89, 0x64],
        [0xA0, 0x25, 0x93, 0x90, 0xF6, 0x52, 0xDC, 0x5E, 0x90, 0x30],
    ),
    (
        [0x21, 0xFC, 0xFF, 0xF0, 0x6F, 0xBD],
        [0xD4, 0xF4, 0x26, 0xB8, 0x8F, 0x71, 0x10, 0x1B, 0x0F, 0x44],
    ),
];

const HOMES: [Option<(u16, u8)>; 4] = [Some((0, 1)), Some((2, 15)), Some((2, 15)), None];

// Byte j of row q of a frame, of which this is the first row. The remainders by 13 and 182 change neither number of a
// frame: they bound what no contract bounds.
fn byte_at(first: &([u8; 6], [u8; 10]), q: usize, j: usize) -> u8 {
    if q > 0 {
        ((7 * (q % 13) + j % 182) % 256) as u8
    } else if j < 6 {
        first.0[j]
    } else if j >= 172 && j < 182 {
        first.1[j - 172]
    } else {
        0
    }
}

// The frame in the marked form. In each row places 8 to 15 are marked, and hold a wrong byte: eight erasures, which the
// ten parity bytes of the first row correct.
fn marked_frame(alloc: Global, first: &([u8; 6], [u8; 10])) -> Result<Vec<u8>, AllocError> {
    let mut bytes = Vec::new(alloc);
    for q in 0..13usize {
        for j in 0..182usize {
            let wrong = if j / 8 == 1 { 0x55 } else { 0 };
            bytes.push(byte_at(first, q, j) ^ wrong)?;
        }
        for k in 0..23usize {
            bytes.push(if k == 1 { 0xFF } else { 0 })?;
        }
    }
    Ok(bytes)
}

#[test]
fn frames_come_home(rt: HostRuntime) -> Result<(), Fail> {
    let alloc = rt.alloc();
    let layout = Layout::new(Shape::Opposite, 32, 16, 0, 16)?;
    let mut shelf = Shelf::new(alloc, 3)?;
    let mut frame = FrameWork::new();
    for (first, home) in FIRST_ROWS.iter().zip(HOMES) {
        let mut source = MemSource::new(marked_frame(alloc, first)?, 1000, Vec::new(alloc));
        assert!(rt; fetch_frame(&mut source, Form::Marked, &mut frame) == FetchAnswer::Full);
        assert!(rt; u64::from(shelf.blocks()) == layout.blocks(Zones::DataOnly));
        assert_eq!(rt; shelf.settle(&layout, &frame), home);
    }
    // What is then known. Of block 0 frame 1 came: rows 12 to 23 and row 193, which is its row of outer parity. Places
    // 8 to 15 were marked. Of block 2 frame 15 came twice: rows 180 to 191 and row 207. The first byte of its ID
    // differs, by b29. Nothing came of block 1, and the frame after block 2 is put nowhere.
    let places = [
        (0, 12, 3, Place::Value(0x01)),
        (0, 12, 8, Place::Unseen),
        (0, 23, 181, Place::Value(2)),
        (0, 193, 0, Place::Value(84)),
        (0, 192, 0, Place::Unseen),
        (0, 24, 0, Place::Unseen),
        (1, 12, 0, Place::Unseen),
        (2, 180, 0, Place::Conflict),
        (2, 180, 1, Place::Value(0xFC)),
        (2, 191, 100, Place::Value(177)),
        (2, 207, 181, Place::Value(9)),
        (2, 206, 181, Place::Unseen),
    ];
    for (k, i, j, place) in places {
        assert!(rt; k < shelf.blocks() && i < 208 && j < 182);
        assert_eq!(rt; shelf.merged(k).place(i, j), place);
    }
    Ok(())
}

#[test]
fn frames_are_fetched_whole(rt: HostRuntime) -> Result<(), Fail> {
    let alloc = rt.alloc();
    // How many bytes there are, and what is answered in the plain form, of 2,366 bytes a frame, and in the marked one,
    // of 2,665.
    let cut: [(usize, FetchAnswer, FetchAnswer); 4] = [
        (0, FetchAnswer::End, FetchAnswer::End),
        (
            2365,
            FetchAnswer::Short { bytes: 2365 },
            FetchAnswer::Short { bytes: 2365 },
        ),
        (2366, FetchAnswer::Full, FetchAnswer::Short { bytes: 2366 }),
        (2665, FetchAnswer::Full, FetchAnswer::Full),
    ];
    for (count, plain, marked) in cut {
        for (form, answer) in [(Form::Plain, plain), (Form::Marked, marked)] {
            let mut frame = FrameWork::new();
            let mut source = MemSource::new(vec![in alloc; 1; count]?, 1000, Vec::new(alloc));
            assert!(rt; fetch_frame(&mut source, form, &mut frame) == answer);
            assert!(rt; (frame == FrameWork::new()) == (answer != FetchAnswer::Full));
        }
    }
    // Of calls of 1,000 bytes the third fails.
    let mut failing = Vec::new(alloc);
    failing.push(2)?;
    let mut source = MemSource::new(vec![in alloc; 1; 2366]?, 1000, failing);
    let mut frame = FrameWork::new();
    assert!(rt; fetch_frame(&mut source, Form::Plain, &mut frame) == FetchAnswer::ReadFault);
    assert!(rt; frame == FrameWork::new());
    Ok(())
}

// A frame in the marked form of zeros, but for one byte.
fn frame_with(alloc: Global, at: usize, byte: u8) -> Result<FrameWork, Fail> {
    let mut bytes = vec![in alloc; 0; 2665]?;
    if let Some(place) = bytes.get_mut(at) {
        *place = byte;
    }
    let mut frame = FrameWork::new();
    let mut source = MemSource::new(bytes, 1000, Vec::new(alloc));
    match fetch_frame(&mut source, Form::Marked, &mut frame) {
        FetchAnswer::Full => Ok(frame),
        answer => Err(answer.into()),
    }
}

#[test]
fn frames_are_alike_in_rows_and_marks(rt: HostRuntime) -> Result<(), Fail> {
    // The mark bits of the first row begin at byte 182, with that of its first place.
    let row = frame_with(rt.alloc(), 0, 1)?;
    let mark = frame_with(rt.alloc(), 182, 0x80)?;
    assert!(rt; frame_with(rt.alloc(), 0, 0)? == FrameWork::new());
    assert!(rt; row != FrameWork::new() && mark != FrameWork::new() && row != mark);
    Ok(())
}
