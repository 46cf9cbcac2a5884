//! Worked values from outside the program.
use crate::{Block, Piece, record_of_row, row_of_record};
use dvd_ports::{MemSink, WriteFault};
use sha2::{Digest, Sha256};
use std::test::Fail;

/// SHA-256 of the 37,856 recorded bytes of the sixteen frames of `frame`, computed by another program that fills
/// columns before rows.
const RECORDED: [u8; 32] = [
    0x2B, 0xA5, 0x43, 0xD3, 0x26, 0x30, 0x32, 0x46, 0xEC, 0xA1, 0x2B, 0xB3, 0x14, 0x3C, 0x54, 0xBE,
    0xC6, 0x44, 0xA4, 0x12, 0x13, 0xDD, 0x6E, 0xD0, 0xAB, 0xEF, 0x0B, 0xCF, 0x6A, 0x3F, 0xCC, 0xD0,
];

// Byte k of frame f is 59f + 7k + k/172, modulo 256.
fn frame(f: usize) -> [u8; 2064] {
    let mut bytes = [0; 2064];
    for (k, byte) in bytes.iter_mut().enumerate() {
        *byte = ((f % 256 * 59 + k * 7 + k / 172) % 256) as u8;
    }
    bytes
}

#[test]
fn rows_of_outer_parity_stand_between_the_others(rt: HostRuntime) {
    for (row, record) in [
        (0, 0),
        (11, 11),
        (12, 13),
        (191, 206),
        (192, 12),
        (207, 207),
    ] {
        assert!(rt; row < 208 && record < 208);
        assert_eq!(rt; record_of_row(row), record);
        assert_eq!(rt; row_of_record(record), row);
    }
}

#[test]
fn sixteen_frames_are_recorded_and_read_back(rt: HostRuntime) -> Result<(), Fail> {
    let alloc = rt.alloc();
    let mut block = Block::new(alloc)?;
    assert_eq!(rt; block.row(207)[181], 0);
    for f in 0..16 {
        block.put_frame(f, &frame(f));
    }
    assert!(rt; !block.is_product());
    block.add_parity();
    assert!(rt; block.is_product());
    let mut sink = MemSink::new(alloc, 40000, 1000, Vec::new(alloc))?;
    block.write_recording(&mut sink)?;
    assert_eq!(rt; sink.held().len(), 37856);
    assert_eq!(rt; Sha256::digest(sink.held()), RECORDED);
    for f in 0..16 {
        let mut out = [0; 2064];
        block.get_frame(f, &mut out);
        assert!(rt; out == frame(f));
    }
    Ok(())
}

#[test]
fn a_fault_leaves_a_prefix(rt: HostRuntime) -> Result<(), Fail> {
    let alloc = rt.alloc();
    let mut block = Block::new(alloc)?;
    block.put_frame(0, &frame(0));
    let mut sink = MemSink::new(alloc, 2500, 1000, Vec::new(alloc))?;
    assert_eq!(rt; block.write_recording(&mut sink), Err(WriteFault));
    assert_eq!(rt; sink.held().len(), 2500);
    assert!(rt; sink.held().starts_with(&[0, 7, 14, 21, 28]));
    Ok(())
}

#[test]
fn a_block_is_one_call_of_a_sink_that_takes_it_whole(rt: HostRuntime) -> Result<(), Fail> {
    let alloc = rt.alloc();
    let block = Block::new(alloc)?;
    let mut sink = MemSink::new(alloc, 100_000, 100_000, vec![in alloc; 1; 1]?)?;
    block.write_recording(&mut sink)?;
    assert_eq!(rt; block.write_recording(&mut sink), Err(WriteFault));
    assert_eq!(rt; sink.held().len(), 37856);
    Ok(())
}

#[test]
fn a_piece_has_room_for_sixteen_sectors(rt: HostRuntime) -> Result<(), Fail> {
    let mut piece = Piece::new(rt.alloc())?;
    assert_eq!(rt; piece.bytes()[32767], 0);
    piece.bytes_mut()[32767] = 7;
    assert_eq!(rt; piece.bytes()[32767], 7);
    assert_eq!(rt; piece.bytes().len(), 32768);
    Ok(())
}
