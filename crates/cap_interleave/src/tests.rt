//! Runs over memory: blocks in turn, captures that end, and a fault of each stream. A `MemSource` is made of its bytes,
//! of how many a call gives at most, and of the numbers of the calls that fail, counted from 0; a `MemSink` of its
//! room, and then likewise.
use crate::{Buffers, InterleaveEnd, interleave_loop};
use dvd_capture::Form;
use dvd_ports::{MemSink, MemSource, Source};
use std::alloc::Global;
use std::test::Fail;

// This number of bytes, each of which depends on its number and on that of the capture. So a byte at a wrong place or
// of a wrong capture is found.
fn capture(alloc: Global, number: u8, count: usize) -> Result<Vec<u8>, Fail> {
    let mut bytes = Vec::new(alloc);
    for k in 0..count {
        bytes.push((k / 182 % 256) as u8 ^ (k % 251) as u8 ^ (number << 5))?;
    }
    Ok(bytes)
}

// A run over three captures of these lengths. The second fails at a call, and the output has room for `room` bytes. A
// read gives at most 1,000 bytes, so that a plain block takes 38 reads. `blocks` counts those of which bytes are
// wanted: more than `room` has room for is cut.
struct Case {
    form: Form,
    fill: bool,
    counts: [usize; 3],
    broken_read: u64,
    room: usize,
    end: InterleaveEnd,
    blocks: usize,
}

// The bytes of a block in the marked form.
const WIDE: usize = 42_640;

// The number of a read that no run comes to: none fails.
const NONE: u64 = 9999;

// A run in each row: form, whether blocks are filled, lengths of the captures, the read that fails, and the room. Then
// its end, and how many blocks are written of each capture.
macro_rules! cases {
    ($($form:ident $fill:literal $counts:tt $broken_read:tt $room:literal => $end:expr, $blocks:literal;)*) => {
        [$(Case {
            form: Form::$form,
            fill: $fill,
            counts: $counts,
            broken_read: $broken_read,
            room: $room,
            end: $end,
            blocks: $blocks,
        },)*]
    };
}

static CASES: [Case; 17] = cases!(
    Plain false [75_712, 75_712, 75_712] NONE 999_999 => InterleaveEnd::Done, 2;
    Marked false [42_640, 42_640, 42_640] NONE 999_999 => InterleaveEnd::Done, 1;
    Plain false [0, 0, 0] NONE 0 => InterleaveEnd::Done, 0;
    Plain false [75_712, 37_856, 75_712] NONE 999_999 => InterleaveEnd::Short { capture: 1, block: 1, bytes: 0 }, 1;
    Plain false [37_856, 75_712, 75_712] NONE 999_999 => InterleaveEnd::Short { capture: 0, block: 1, bytes: 0 }, 1;
    Plain false [37_856, 37_856, 37_857] NONE 999_999 => InterleaveEnd::Short { capture: 0, block: 1, bytes: 0 }, 1;
    Plain false [75_712, 75_712, 75_711] NONE 999_999 => InterleaveEnd::Short { capture: 2, block: 1, bytes: 37_855 }, 1;
    Plain false [100, 100, 100] NONE 999_999 => InterleaveEnd::Short { capture: 0, block: 0, bytes: 100 }, 0;
    Marked true [85_280, 42_640, 0] NONE 999_999 => InterleaveEnd::Done, 2;
    Marked true [0, 182, 204] NONE 999_999 => InterleaveEnd::Done, 1;
    Marked true [0, 0, 0] NONE 999_999 => InterleaveEnd::Done, 0;
    Marked true [42_641, 42_639, 42_640] NONE 999_999 => InterleaveEnd::Done, 2;
    Plain false [75_712, 75_712, 75_712] 0 999_999 => InterleaveEnd::ReadFault { capture: 1 }, 0;
    Plain false [75_712, 75_712, 75_712] 60 999_999 => InterleaveEnd::ReadFault { capture: 1 }, 1;
    Plain false [75_712, 75_712, 75_712] 76 999_999 => InterleaveEnd::ReadFault { capture: 1 }, 2;
    Plain false [75_712, 75_712, 75_712] NONE 120_000 => InterleaveEnd::WriteFault, 2;
    Plain false [75_712, 75_712, 75_712] NONE 0 => InterleaveEnd::WriteFault, 2;
);

// A byte of a block that is marked whole.
fn lost(at: usize) -> u8 {
    match at % 205 {
        0..=181 => 0,
        204 => 0xFC,
        _ => 0xFF,
    }
}

fn size_of(form: Form) -> usize {
    match form {
        Form::Plain => 37_856,
        Form::Marked | Form::Listed => 42_640,
    }
}

// The first `blocks` blocks of each capture, in turn, as far as the output has room. Where a capture lacks a byte, that
// of a lost block is wanted.
fn wanted(alloc: Global, case: &Case, captures: &[Vec<u8>]) -> Result<Vec<u8>, Fail> {
    let size = size_of(case.form);
    let mut bytes = Vec::new(alloc);
    for k in 0..case.blocks {
        for capture in captures {
            for at in 0..size {
                let place = k.wrapping_mul(size).wrapping_add(at);
                bytes.push(capture.get(place).copied().unwrap_or(lost(at)))?;
            }
        }
    }
    bytes.truncate(case.room);
    Ok(bytes)
}

// Tries a run. `Buffers::new` is called with a known form in each arm, as its contract asks of `fill`.
fn runs(alloc: Global, case: &Case) -> Result<(), Fail> {
    let mut captures = Vec::new(alloc);
    let mut sources = Vec::new(alloc);
    for number in 0..3 {
        let bytes = capture(alloc, number as u8, case.counts[number])?;
        captures.push(bytes.clone()?)?;
        let fails = if number == 1 { case.broken_read } else { NONE };
        sources.push(MemSource::new(bytes, 1000, vec![in alloc; fails; 1]?))?;
    }
    if sources.len() != 3 {
        Err(sources.len())?;
    }
    let mut out = MemSink::new(alloc, case.room, 50_000, Vec::new(alloc))?;
    let mut buffers = match case.form {
        Form::Marked => Buffers::new(alloc, Form::Marked, case.fill, 3)?,
        Form::Plain | Form::Listed => Buffers::new(alloc, Form::Plain, false, 3)?,
    };
    let end = interleave_loop(&mut buffers, &mut sources, &mut out);
    let wanted = wanted(alloc, case, &captures)?;
    if end != case.end || out.held() != wanted.as_slice() {
        Err((
            case.counts[0],
            case.counts[1],
            case.counts[2],
            out.held().len(),
        ))?;
    }
    Ok(())
}

#[test]
fn blocks_come_in_turn_and_ends_are_named(rt: HostRuntime) -> Result<(), Fail> {
    CASES.iter().try_for_each(|case| runs(rt.alloc(), case))
}

// Nothing more is asked of a capture that has ended: its next call would fail.
#[test]
fn ended_captures_are_left_alone(rt: HostRuntime) -> Result<(), Fail> {
    let alloc = rt.alloc();
    let long = capture(alloc, 1, 3 * WIDE)?;
    let mut sources = Vec::new(alloc);
    sources.push(MemSource::new(capture(alloc, 0, 7)?, 10, vec![in alloc; 2; 1]?))?;
    sources.push(MemSource::new(long, WIDE, vec![in alloc; 4; 1]?))?;
    let mut out = MemSink::new(alloc, 6 * WIDE, WIDE, Vec::new(alloc))?;
    let mut buffers = Buffers::new(alloc, Form::Marked, true, 2)?;
    assert!(rt; interleave_loop(&mut buffers, &mut sources, &mut out) == InterleaveEnd::Done);
    assert!(rt; out.held().len() == 6 * WIDE);
    assert!(rt; sources[1].read(&mut [0; 1]).is_err());
    Ok(())
}
