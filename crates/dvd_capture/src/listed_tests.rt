//! Worked headers and units, from outside the program.
ghost use Rattle.std.specs.Prelude.{◌≡◌, ◌<◌, OnOk};
ghost use Rattle.dvd_capture.specs.Rule.{HasBlock};
ghost use Rattle.dvd_capture.specs.Works.{stage_of};
ghost use Rattle.dvd_capture.specs.declared.capture.FetchAnswer.TheVariants.{Full};
ghost use Rattle.dvd_capture.specs.declared.stage.Stage.TheVariants.{Fetched};

use crate::tests::{gives, stream};
use crate::{FetchAnswer, Form, Header, HeaderFault, Work, write_listed};
use dvd_block::Block;
use dvd_ports::{MemSink, MemSource};
use std::alloc::{AllocError, Global};
use std::test::Fail;

// The header of a single layer with 16 sectors and a tail of 16 blocks.
static HEADER: [u8; 32] = [
    0x44, 0x56, 0x44, 0x45, 0x43, 0x43, 0, 2, 0, 0, 0, 0, 0, 0, 0, 16, 0, 0, 0, 0, 0, 0, 0, 0, 0,
    0, 0, 16, 0, 0, 0, 0,
];

// Fields after the rows, and what the unit is.
type Unit = (&'static [u16], FetchAnswer);

static UNITS: [Unit; 14] = [
    (&[0], FetchAnswer::Full),
    (&[1, 0, 37856], FetchAnswer::Full),
    (&[2, 3, 2, 6, 1], FetchAnswer::Full),
    (&[1, 37855, 1], FetchAnswer::Full),
    (&[2, 0, 5, 5, 1], FetchAnswer::BadMarks { at: 37862 }),
    (&[18929], FetchAnswer::BadMarks { at: 37856 }),
    (&[18928], FetchAnswer::Short { bytes: 37858 }),
    (&[1, 37856, 1], FetchAnswer::BadMarks { at: 37858 }),
    (&[1, 37856], FetchAnswer::BadMarks { at: 37858 }),
    (&[1, 37855, 2], FetchAnswer::BadMarks { at: 37860 }),
    (&[1, 7, 0], FetchAnswer::BadMarks { at: 37860 }),
    (&[2, 9, 2, 4, 1], FetchAnswer::BadMarks { at: 37862 }),
    (&[2, 9, 2], FetchAnswer::Short { bytes: 37862 }),
    (&[2, 9, 2, 12, 65535], FetchAnswer::BadMarks { at: 37864 }),
];

// The bytes of rows, byte k being 7k + k/182 modulo 256, and then these fields.
fn unit(alloc: Global, fields: &[u16]) -> Result<Vec<u8>, AllocError> {
    let mut bytes = stream(alloc, 37856, 182)?;
    for field in fields {
        bytes.extend_from_slice(&field.to_be_bytes())?;
    }
    Ok(bytes)
}

// An error where these bytes, at most `step` of them a call, give something else.
fn give(
    alloc: Global,
    bytes: &[u8],
    step: usize,
    work: &mut Work,
    wanted: FetchAnswer,
) -> Result<(), Fail>
    requires { 0 < step }
    ensures { OnOk result (wanted ≡ Full → stage_of work.new ≡ Fetched) }
{
    let mut source = MemSource::new(bytes.to_vec(alloc)?, step, Vec::new(alloc));
    gives(&mut source, Form::Listed, work, wanted)
}

// A unit is fetched, or broken as it should be.
fn is_unit(alloc: Global, case: &Unit, work: &mut Work) -> Result<(), Fail> {
    let bytes = unit(alloc, case.0)?;
    give(alloc, &bytes, 1000, work, case.1)
}

#[test]
fn units_are_fetched_or_broken(rt: HostRuntime) -> Result<(), Fail> {
    let alloc = rt.alloc();
    let mut work = Work::new(alloc)?;
    for case in &UNITS {
        is_unit(alloc, case, &mut work)?;
    }
    Ok(())
}

// So many bytes of a unit are too few.
fn is_short(alloc: Global, whole: &[u8], count: u32, work: &mut Work) -> Result<(), Fail> {
    let bytes = &whole[..whole.len().min(count as usize)];
    give(alloc, bytes, 7, work, FetchAnswer::Short { bytes: count })
}

// The bytes of a unit's list are missing, one after the other.
fn is_cut(alloc: Global, whole: &[u8], work: &mut Work) -> Result<(), Fail> {
    for count in 37850..37866 {
        is_short(alloc, whole, count, work)?;
    }
    Ok(())
}

#[test]
fn a_unit_is_cut_at_each_byte_of_its_list(rt: HostRuntime) -> Result<(), Fail> {
    let alloc = rt.alloc();
    let mut work = Work::new(alloc)?;
    let whole = unit(alloc, &[2, 3, 2, 6, 1])?;
    is_cut(alloc, &whole, &mut work)
}

static RUNS: [u16; 11] = [5, 0, 3, 181, 2, 2183, 1, 2366, 2, 37855, 1];

// A row of the unit with these runs, places of it that are marked, and places that aren't, by another program.
type MarkedRow = (usize, &'static [usize], &'static [usize]);

static MARKED: [MarkedRow; 6] = [
    (0, &[0, 2, 181], &[3]),
    (1, &[0], &[1]),
    (11, &[181], &[]),
    (192, &[], &[0, 181]),
    (12, &[0, 1], &[2]),
    (207, &[181], &[]),
];

// An error where one of these places of a row has another mark.
fn have(work: &Work, row: usize, places: &[usize], mark: bool) -> Result<(), Fail>
    requires { HasBlock (stage_of work.now) }
{
    for place in places {
        if work.marked(row.min(207), (*place).min(181)) != mark {
            Err((row, *place))?;
        }
    }
    Ok(())
}

// Each place is, and the bytes are those of the rows.
fn has_runs(work: &Work) -> Result<(), Fail>
    requires { HasBlock (stage_of work.now) }
{
    for (row, marked, others) in &MARKED {
        have(work, *row, marked, true)?;
        have(work, *row, others, false)?;
    }
    if work.received(0, 181) != 243 || work.received(207, 181) != 232 {
        Err("other bytes")?;
    }
    Ok(())
}

// An error where the unit that is written has another length or other bytes at its end.
fn writes(work: &Work, sink: &mut MemSink, size: usize, end: &[u8]) -> Result<(), Fail>
    requires { HasBlock (stage_of work.now) }
{
    write_listed(work, sink)?;
    let held = sink.held();
    if held.len() != size || !held.ends_with(end) {
        Err(held.len())?;
    }
    Ok(())
}

// A unit is read, and written as it was read.
fn comes_back(alloc: Global, bytes: &[u8], work: &mut Work) -> Result<(), Fail> {
    give(alloc, bytes, 1, work, FetchAnswer::Full)?;
    has_runs(work)?;
    let mut sink = MemSink::new(alloc, 40000, 999, Vec::new(alloc))?;
    writes(work, &mut sink, bytes.len(), bytes)
}

#[test]
fn runs_mark_their_places(rt: HostRuntime) -> Result<(), Fail> {
    let alloc = rt.alloc();
    let mut work = Work::new(alloc)?;
    let bytes = unit(alloc, &RUNS)?;
    comes_back(alloc, &bytes, &mut work)
}

// Receives a block of zeros.
fn receive_zeros(alloc: Global, work: &mut Work) -> Result<(), Fail>
    ensures { OnOk result (stage_of work.new ≡ Fetched) }
{
    let block = Block::new(alloc)?;
    work.load_block(&block);
    Ok(())
}

// Marks the last of each so many places, and no other.
fn mark(work: &mut Work, every: usize)
    requires number { 0 < every }
    requires stage { stage_of work.old ≡ Fetched }
    ensures { stage_of work.new ≡ Fetched }
{
    for place in 0..37856 {
        work.damage(place / 182, place % 182, 0, place % every == every - 1);
    }
}

// Units with no run, with one that is as long as can be, and with as many as can be.
fn write_units(alloc: Global, work: &mut Work) -> Result<(), Fail>
    requires { stage_of work.old ≡ Fetched }
{
    let mut sink = MemSink::new(alloc, 200_000, 1000, Vec::new(alloc))?;
    writes(work, &mut sink, 37858, &[0, 0, 0])?;
    mark(work, 1);
    writes(work, &mut sink, 37858 + 37862, &[0, 1, 0, 0, 0x93, 0xE0])?;
    mark(work, 2);
    writes(
        work,
        &mut sink,
        37858 + 37862 + 37858 + 4 * 18928,
        &[0x93, 0xDD, 0, 1, 0x93, 0xDF, 0, 1],
    )
}

#[test]
fn units_are_written(rt: HostRuntime) -> Result<(), Fail> {
    let alloc = rt.alloc();
    let mut work = Work::new(alloc)?;
    receive_zeros(alloc, &mut work)?;
    write_units(alloc, &mut work)
}

// A sink whose room ends within the list has what comes before.
fn is_cut_off(alloc: Global, work: &Work) -> Result<(), Fail>
    requires { HasBlock (stage_of work.now) }
{
    let mut sink = MemSink::new(alloc, 37861, 40000, Vec::new(alloc))?;
    if write_listed(work, &mut sink).is_ok() || !sink.held().ends_with(&[0, 0, 1, 0, 5, 0]) {
        Err(sink.held().len())?;
    }
    Ok(())
}

#[test]
fn a_fault_leaves_a_prefix_of_the_unit(rt: HostRuntime) -> Result<(), Fail> {
    let alloc = rt.alloc();
    let mut work = Work::new(alloc)?;
    receive_zeros(alloc, &mut work)?;
    work.damage(0, 5, 9, true);
    is_cut_off(alloc, &work)
}

// Whether a header states what is in `HEADER`.
fn is_stated(header: &Header) -> bool {
    header.shape == 0
        && header.zones == 0
        && header.sectors0 == 16
        && header.sectors1 == 0
        && header.initial == 0
        && header.tail == 16
}

// The bytes after the first eight of a header whose fields are numbers of the bytes 1 to 16.
static FIELDS: [u8; 20] = [
    2, 1, 0, 0, 1, 2, 3, 4, 5, 6, 7, 8, 9, 10, 11, 12, 13, 14, 15, 16,
];

// Whether that header is written so, and read again.
fn is_counted() -> bool {
    let header = Header {
        shape: 2,
        zones: 1,
        sectors0: 0x0102_0304,
        sectors1: 0x0506_0708,
        initial: 0x090A_0B0C,
        tail: 0x0D0E_0F10,
    };
    let mut bytes = [255; 32];
    header.to_bytes(&mut bytes);
    bytes[8..28] == FIELDS[..] && Header::from_bytes(&bytes) == Ok(header)
}

#[test]
fn headers_are_written_and_read(rt: HostRuntime) -> Result<(), Fail> {
    assert!(rt; is_stated(&Header::from_bytes(&HEADER)?));
    assert!(rt; is_counted());
    Ok(())
}

// Whether another byte there is refused, or read where there may be others.
fn is_looked_at(at: usize) -> bool
    requires { at < 32 }
{
    let mut bytes = HEADER;
    bytes[at] = bytes[at].wrapping_add(3);
    let read = Header::from_bytes(&bytes);
    if at < 12 || at >= 28 {
        read == Err(HeaderFault::Place { at: at as u8 })
    } else {
        read.is_ok()
    }
}

#[test]
fn each_byte_of_a_header_is_looked_at(rt: HostRuntime) {
    for at in 0..32 {
        assert!(rt; is_looked_at(at), "place {at}");
    }
}
