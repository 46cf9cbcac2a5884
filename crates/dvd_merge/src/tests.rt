//! Worked values from outside the program. Rows and places go through `min`, since the calls require them to be of a
//! block and no contract says it of the cases.
ghost use Rattle.std.specs.Prelude.{◌≡◌, ◌<◌, OnOk};
ghost use Rattle.dvd_capture.specs.Works.{stage_of};
ghost use Rattle.dvd_capture.specs.Rule.{HasBlock};
ghost use Rattle.dvd_capture.specs.declared.stage.Stage.TheVariants.{Fetched};

use crate::{Merge, Place};
use dvd_block::Block;
use dvd_capture::{FetchAnswer, Form, Work, fetch};
use dvd_ports::{MemSink, MemSource};
use std::alloc::Global;
use std::test::Fail;

// A place: its row and its place there, the bytes of three captures there, their marks, and what is known of it after
// one, two and three of them.
type Case = (usize, usize, [u8; 3], [bool; 3], (Place, Place, Place));

static CASES: [Case; 6] = [
    (
        0,
        0,
        [1, 9, 1],
        [false, true, false],
        (Place::Value(1), Place::Value(1), Place::Value(1)),
    ),
    (
        0,
        181,
        [1, 2, 1],
        [false, false, false],
        (Place::Value(1), Place::Conflict, Place::Conflict),
    ),
    (
        12,
        8,
        [7, 7, 7],
        [true, true, true],
        (Place::Unseen, Place::Unseen, Place::Unseen),
    ),
    (
        192,
        3,
        [7, 8, 9],
        [true, false, false],
        (Place::Unseen, Place::Value(8), Place::Conflict),
    ),
    (
        207,
        0,
        [0, 0, 5],
        [false, false, true],
        (Place::Value(0), Place::Value(0), Place::Value(0)),
    ),
    (
        207,
        181,
        [3, 4, 5],
        [false, false, true],
        (Place::Value(3), Place::Conflict, Place::Conflict),
    ),
];

// Capture c has at this place what it is to have there.
fn receive(work: &mut Work, case: &Case, c: usize)
    requires number { c < 3 }
    requires stage { HasBlock (stage_of work.old) }
    ensures { stage_of work.new ≡ Fetched }
{
    work.damage(case.0.min(207), case.1.min(181), case.2[c], case.3[c]);
}

// Receives capture c: zeros, but at the places above.
fn receive_all(work: &mut Work, block: &Block, c: usize)
    requires { c < 3 }
    ensures { stage_of work.new ≡ Fetched }
{
    work.load_block(block);
    for case in &CASES {
        receive(work, case, c);
    }
}

// What is known of a place: its row and its place there.
type Known = (usize, usize, Place);

// An error where it isn't.
fn has(merge: &Merge, known: &Known) -> Result<(), Fail> {
    let place = merge.place(known.0.min(207), known.1.min(181));
    if place != known.2 {
        Err((known.0, known.1))?;
    }
    Ok(())
}

// Capture c is joined at this place.
fn knows(merge: &Merge, case: &Case, c: usize) -> Result<(), Fail>
    requires { c < 3 }
{
    let known = case.4;
    has(merge, &(case.0, case.1, [known.0, known.1, known.2][c]))
}

// It is at all of them.
fn knows_all(merge: &Merge, c: usize) -> Result<(), Fail>
    requires { c < 3 }
{
    for case in &CASES {
        knows(merge, case, c)?;
    }
    has(merge, &(100, 100, Place::Value(0)))
}

// Joins capture c.
fn join(alloc: Global, merge: &mut Merge, c: usize) -> Result<(), Fail>
    requires { c < 3 }
{
    let mut work = Work::new(alloc)?;
    let block = Block::new(alloc)?;
    receive_all(&mut work, &block, c);
    merge.take(&work);
    knows_all(merge, c)
}

// Joins the captures.
fn join_all(alloc: Global, merge: &mut Merge) -> Result<(), Fail> {
    has(merge, &(207, 181, Place::Unseen))?;
    for c in 0..3 {
        join(alloc, merge, c)?;
    }
    Ok(())
}

// What is known there where single bytes are then joined: a place that wasn't seen has its byte, one that was is in
// conflict, and neighbours stay.
static SEEN: [Known; 4] = [
    (12, 8, Place::Value(6)),
    (0, 0, Place::Conflict),
    (12, 7, Place::Value(0)),
    (13, 8, Place::Value(0)),
];

#[test]
fn captures_are_joined_place_by_place(rt: HostRuntime) -> Result<(), Fail> {
    let alloc = rt.alloc();
    let mut merge = Merge::new(alloc)?;
    join_all(alloc, &mut merge)?;
    merge.see(12, 8, 6);
    merge.see(0, 0, 2);
    for known in &SEEN {
        has(&merge, known)?;
    }
    merge.clear();
    has(&merge, &(12, 8, Place::Unseen))?;
    has(&merge, &(100, 100, Place::Unseen))
}

const MARKED: usize = 42_640;

// The bytes of the captures joined that aren't 0, by their offsets. A recorded row has 205 bytes: 182, and then mark
// bits, the first place the highest bit. Row 0 begins with 01 and has a mark at 181, the last before the two spare
// bits. Then row 192 has one at 3, row 12, which comes after it, one at 8, and row 207, the last, one at 181.
static WRITTEN: [(usize, u8); 5] = [
    (0, 1),
    (204, 0b100),
    (12 * 205 + 182, 0b1_0000),
    (13 * 205 + 183, 0b1000_0000),
    (207 * 205 + 204, 0b100),
];

// An error where these bytes aren't those: a list, so that each other byte has to be 0.
fn are_written(alloc: Global, bytes: &[u8]) -> Result<(), Fail> {
    let mut written = vec![in alloc; 0; MARKED]?;
    for (at, byte) in &WRITTEN {
        if let Some(place) = written.get_mut(*at) {
            *place = *byte;
        }
    }
    if bytes != written.as_slice() {
        Err(bytes.len())?;
    }
    Ok(())
}

// Reads these bytes as a captured block in the marked form.
fn read(alloc: Global, bytes: &[u8], work: &mut Work) -> Result<(), Fail>
    ensures { OnOk result (stage_of work.new ≡ Fetched) }
{
    let mut source = MemSource::new(bytes.to_vec(alloc)?, 1000, Vec::new(alloc));
    let answer = fetch(&mut source, Form::Marked, work);
    if answer != FetchAnswer::Full {
        Err(answer)?;
    }
    Ok(())
}

// A place is received as it was known.
fn receives(work: &Work, case: &Case) -> Result<(), Fail>
    requires { HasBlock (stage_of work.now) }
{
    let (i, j) = (case.0.min(207), case.1.min(181));
    let known = match case.4.2 {
        Place::Value(byte) => (byte, false),
        Place::Unseen | Place::Conflict => (0, true),
    };
    if (work.received(i, j), work.marked(i, j)) != known {
        Err((i, j))?;
    }
    Ok(())
}

// The places of the captures come back of these bytes.
fn come_back(alloc: Global, bytes: &[u8]) -> Result<(), Fail> {
    let mut work = Work::new(alloc)?;
    read(alloc, bytes, &mut work)?;
    for case in &CASES {
        receives(&work, case)?;
    }
    Ok(())
}

// The captures joined are written.
fn is_written(alloc: Global, merge: &Merge) -> Result<(), Fail> {
    let mut out = MemSink::new(alloc, MARKED, 1000, Vec::new(alloc))?;
    merge.write_marked(&mut out)?;
    are_written(alloc, out.held())?;
    come_back(alloc, out.held())
}

#[test]
fn a_join_is_written_as_a_marked_block(rt: HostRuntime) -> Result<(), Fail> {
    let alloc = rt.alloc();
    let mut merge = Merge::new(alloc)?;
    join_all(alloc, &mut merge)?;
    is_written(alloc, &merge)
}

#[test]
fn a_failed_write_leaves_a_prefix(rt: HostRuntime) -> Result<(), Fail> {
    let alloc = rt.alloc();
    let merge = Merge::new(alloc)?;
    // Of calls of 1,000 bytes the third fails.
    let mut out = MemSink::new(alloc, MARKED, 1000, vec![in alloc; 2; 1]?)?;
    assert!(rt; merge.write_marked(&mut out).is_err());
    assert!(rt; out.held().len() == 2000);
    Ok(())
}

static PLACES: [Place; 4] = [
    Place::Unseen,
    Place::Value(0),
    Place::Value(1),
    Place::Conflict,
];

#[test]
fn places_are_like_themselves_alone(rt: HostRuntime) -> Result<(), Fail> {
    for (a, place) in PLACES.iter().enumerate() {
        for (b, other) in PLACES.iter().enumerate() {
            assert_eq!(rt; place == other, a == b);
        }
    }
    Ok(())
}
