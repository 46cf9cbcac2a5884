//! Runs over memory: what is written and reported, and how a fault of each stream ends. A `MemSource` is made of its
//! bytes, of how many a call gives at most, and of the numbers of the calls that fail, counted from 0; a `MemSink` of
//! its room, and then likewise. Numbers of nines are more than a case comes to.
ghost use Rattle.std.specs.Prelude.{◌≡◌};
ghost use Rattle.arrayvec.specs.ArrayVec.{array_vec_len};

use crate::{Status, run_interleave, run_mark};
use arrayvec::ArrayVec;
use cap_words::{InterleaveSettings, MarkSettings};
use dvd_capture::Form;
use dvd_ports::{MemSink, MemSource, SliceSource, Source};
use std::alloc::Global;
use std::test::Fail;

static MAP: &[u8] = b"0 +\n0 183 +\n183 1 -\n184 2182 +\n2366 182 /\n2548 0x1000 +\n";

// Two recording frames of sevens with their marks: place 1 of row 1 is marked, and the first row of the second frame
// whole.
fn wanted(alloc: Global) -> Result<Vec<u8>, Fail> {
    let mut bytes = Vec::new(alloc);
    for row in 0..26 {
        bytes.extend_from_slice(&[7; 182])?;
        match row {
            1 => bytes.push(0x40)?,
            13 => bytes.push(0xFF)?,
            _ => bytes.push(0)?,
        }
        bytes.extend_from_slice(if row == 13 { &[0xFF; 21] } else { &[0; 21] })?;
        bytes.push(if row == 13 { 0xFC } else { 0 })?;
    }
    Ok(bytes)
}

// A run over a capture of `capture` sevens. Each read gives at most a hundred, so that a frame takes 24, and the output
// has room for `room` bytes.
struct Case {
    capture: usize,
    broken_read: u64,
    room: usize,
    report_room: usize,
    status: Status,
    written: usize,
    line: &'static [u8],
}

static CASES: [Case; 7] = [
    Case {
        capture: 4732,
        broken_read: 999,
        room: 9999,
        report_room: 99,
        status: Status::Done,
        written: 5330,
        line: b"done\n",
    },
    Case {
        capture: 0,
        broken_read: 999,
        room: 9999,
        report_room: 99,
        status: Status::Done,
        written: 0,
        line: b"done\n",
    },
    Case {
        capture: 2367,
        broken_read: 999,
        room: 9999,
        report_room: 99,
        status: Status::Short,
        written: 2665,
        line: b"short: frame 1, 1 bytes\n",
    },
    Case {
        capture: 2365,
        broken_read: 999,
        room: 9999,
        report_room: 99,
        status: Status::Short,
        written: 0,
        line: b"short: frame 0, 2365 bytes\n",
    },
    Case {
        capture: 4732,
        broken_read: 30,
        room: 9999,
        report_room: 99,
        status: Status::ReadFault,
        written: 2665,
        line: b"read fault\n",
    },
    Case {
        capture: 4732,
        broken_read: 999,
        room: 3000,
        report_room: 99,
        status: Status::WriteFault,
        written: 3000,
        line: b"write fault\n",
    },
    Case {
        capture: 4732,
        broken_read: 999,
        room: 9999,
        report_room: 2,
        status: Status::ReportFault,
        written: 5330,
        line: b"do",
    },
];

// Tries a run of `mark` over the map above. What is written is a prefix of what a whole run writes.
fn runs(alloc: Global, case: &Case) -> Result<(), Fail> {
    let capture = vec![in alloc; 7u8; case.capture]?;
    let mut src = MemSource::new(capture, 100, vec![in alloc; case.broken_read; 1]?);
    let mut out = MemSink::new(alloc, case.room, 77, Vec::new(alloc))?;
    let mut report = MemSink::new(alloc, case.report_room, 1, Vec::new(alloc))?;
    let settings = MarkSettings { map: "", good: "+" };
    let status = run_mark(
        alloc,
        &settings,
        &mut SliceSource::new(MAP),
        &mut src,
        &mut out,
        &mut report,
    );
    let wanted = wanted(alloc)?;
    if status != case.status
        || report.held() != case.line
        || wanted.get(..case.written) != Some(out.held())
    {
        Err(case.line.len())?;
    }
    Ok(())
}

#[test]
fn frames_are_marked_and_faults_are_named(rt: HostRuntime) -> Result<(), Fail> {
    CASES.iter().try_for_each(|case| runs(rt.alloc(), case))
}

// A run whose map gives no spans: nothing is read of the capture, and nothing is written. A read of a hundred bytes at
// last shows that the capture is where it was.
fn is_refused<M: Source>(
    alloc: Global,
    map: &mut M,
    status: Status,
    line: &[u8],
) -> Result<(), Fail> {
    let mut src = MemSource::new(vec![in alloc; 7u8; 2366]?, 100, Vec::new(alloc));
    let mut out = MemSink::new(alloc, 9999, 77, Vec::new(alloc))?;
    let mut report = MemSink::new(alloc, 99, 1, Vec::new(alloc))?;
    let settings = MarkSettings { map: "", good: "+" };
    let ended = run_mark(alloc, &settings, map, &mut src, &mut out, &mut report);
    if ended != status
        || report.held() != line
        || !out.held().is_empty()
        || src.read(&mut [0; 100]) != Ok(100)
    {
        Err(line.len())?;
    }
    Ok(())
}

#[test]
fn maps_that_give_no_spans(rt: HostRuntime) -> Result<(), Fail> {
    let alloc = rt.alloc();
    is_refused(
        alloc,
        &mut SliceSource::new(b"0 +\n0 1 +\n2 1 +\n"),
        Status::BadInput,
        b"map: line 3: gap\n",
    )?;
    is_refused(
        alloc,
        &mut SliceSource::new(b""),
        Status::BadInput,
        b"map: line 1: no state\n",
    )?;
    let mut broken = MemSource::new(MAP.to_vec(alloc)?, 10, vec![in alloc; 2; 1]?);
    is_refused(alloc, &mut broken, Status::ReadFault, b"map: read fault\n")
}

// The lengths of two plain captures of sevens, the failing call of the second, and the status, the line and the length
// of the output.
type InterleaveCase = (usize, usize, u64, Status, &'static [u8], usize);

static INTERLEAVE_CASES: [InterleaveCase; 6] = [
    (37_856, 37_856, 9, Status::Done, b"done\n", 75_712),
    (0, 0, 9, Status::Done, b"done\n", 0),
    (
        37_856,
        0,
        9,
        Status::Short,
        b"short: file 2, block 0, 0 bytes\n",
        0,
    ),
    (
        37_855,
        37_856,
        9,
        Status::Short,
        b"short: file 1, block 0, 37855 bytes\n",
        0,
    ),
    (
        37_856,
        37_856,
        0,
        Status::ReadFault,
        b"file 2: read fault\n",
        0,
    ),
    (
        37_856,
        37_856,
        1,
        Status::ReadFault,
        b"file 2: read fault\n",
        75_712,
    ),
];

// Tries a run of `interleave` over two captures. Their names aren't used: files are opened before.
fn takes_units(alloc: Global, case: &InterleaveCase) -> Result<(), Fail> {
    let mut captures = Vec::new(alloc);
    captures.push(MemSource::new(vec![in alloc; 7u8; case.0]?, 40_000, Vec::new(alloc)))?;
    captures.push(MemSource::new(
        vec![in alloc; 7u8; case.1]?,
        40_000,
        vec![in alloc; case.2; 1]?,
    ))?;
    let mut out = MemSink::new(alloc, 99_999, 99_999, Vec::new(alloc))?;
    let mut report = MemSink::new(alloc, 99, 1, Vec::new(alloc))?;
    let settings = InterleaveSettings {
        form: Form::Plain,
        fill: false,
        files: two_names(),
    };
    let status = run_interleave(alloc, &settings, &mut captures, &mut out, &mut report);
    if status != case.3 || report.held() != case.4 || out.held().len() != case.5 {
        Err((case.0, case.1))?;
    }
    Ok(())
}

fn two_names<'a>() -> ArrayVec<&'a str, 16>
    ensures { array_vec_len result ≡ 2 }
{
    let mut names = ArrayVec::new();
    names.push("a");
    names.push("b");
    names
}

#[test]
fn blocks_take_turns_and_files_are_named(rt: HostRuntime) -> Result<(), Fail> {
    INTERLEAVE_CASES
        .iter()
        .try_for_each(|case| takes_units(rt.alloc(), case))
}
