//! Worked values from outside the program.
ghost use Rattle.std.specs.Prelude.{◌≡◌, ◌≤◌, ◌<◌, OnOk};
ghost use Rattle.dvd_capture.specs.Rule.{HasBlock};
ghost use Rattle.dvd_capture.specs.Works.{stage_of};
ghost use Rattle.dvd_capture.specs.declared.capture.FetchAnswer.TheVariants.{Full};
ghost use Rattle.dvd_capture.specs.declared.stage.Stage.TheVariants.{Fetched};

use crate::parts::{Answers, Columns};
use crate::{FetchAnswer, Form, Stage, Work, fetch};
use dvd_block::Block;
use dvd_ports::MemSource;
use rs_decode::Fix;
use std::alloc::{AllocError, Global};
use std::test::Fail;

// Row, place, byte and mark.
type Place = (usize, usize, u8, bool);

// Places of the first block of `stream` in each form: its recorded rows have 205 bytes in the marked one and 182 in the
// plain one. They were computed by another program.
static FETCHED: [(Form, Place); 16] = [
    (Form::Marked, (0, 0, 0, true)),
    (Form::Marked, (0, 181, 243, true)),
    (Form::Marked, (11, 7, 229, false)),
    (Form::Marked, (12, 8, 36, true)),
    (Form::Marked, (13, 100, 68, false)),
    (Form::Marked, (191, 3, 157, false)),
    (Form::Marked, (192, 0, 80, false)),
    (Form::Marked, (192, 181, 67, true)),
    (Form::Marked, (207, 180, 16, true)),
    (Form::Marked, (207, 181, 23, false)),
    (Form::Plain, (0, 181, 243, false)),
    (Form::Plain, (12, 8, 247, false)),
    (Form::Plain, (13, 100, 118, false)),
    (Form::Plain, (191, 3, 15, false)),
    (Form::Plain, (192, 0, 196, false)),
    (Form::Plain, (207, 181, 232, false)),
];

// So many bytes: byte k is 7k + k/size, modulo 256.
pub(crate) fn stream(alloc: Global, count: usize, size: usize) -> Result<Vec<u8>, AllocError>
    requires size { 0 < size }
    requires count { count ≤ 100_000 }
{
    let mut bytes = Vec::new(alloc);
    for k in 0..count {
        bytes.push(((k * 7 + k / size) % 256) as u8)?;
    }
    Ok(bytes)
}

// The stage of a block that a source gave so.
fn stage(answer: FetchAnswer) -> Stage {
    match answer {
        FetchAnswer::Full => Stage::Fetched,
        _ => Stage::Empty,
    }
}

// An error where a source gives something else.
pub(crate) fn gives(
    source: &mut MemSource,
    form: Form,
    work: &mut Work,
    wanted: FetchAnswer,
) -> Result<(), Fail>
    ensures { OnOk result (wanted ≡ Full → stage_of work.new ≡ Fetched) }
{
    let answer = fetch(source, form, work);
    if answer != wanted || work.stage() != stage(wanted) {
        Err(answer)?;
    }
    Ok(())
}

// An error where another byte is at a place, or another mark.
fn has(work: &Work, place: &Place) -> Result<(), Fail>
    requires { HasBlock (stage_of work.now) }
{
    let (i, j, byte, mark) = *place;
    let (row, column) = (i.min(207), j.min(181));
    if work.received(row, column) != byte || work.marked(row, column) != mark {
        Err((i, j))?;
    }
    Ok(())
}

// The same of each of these places.
fn has_all(work: &Work, places: &[Place]) -> Result<(), Fail>
    requires { HasBlock (stage_of work.now) }
{
    for place in places {
        has(work, place)?;
    }
    Ok(())
}

// The same of the places of a block that was fetched in this form.
fn has_fetched(work: &Work, form: Form) -> Result<(), Fail>
    requires { HasBlock (stage_of work.now) }
{
    for (of, place) in &FETCHED {
        if *of == form {
            has(work, place)?;
        }
    }
    Ok(())
}

// A stream of one byte more gives a block, and then that byte.
fn gives_more(alloc: Global, work: &mut Work) -> Result<(), Fail> {
    let mut source = MemSource::new(stream(alloc, 42641, 205)?, 1000, Vec::new(alloc));
    gives(&mut source, Form::Marked, work, FetchAnswer::Full)?;
    has_fetched(work, Form::Marked)?;
    gives(
        &mut source,
        Form::Marked,
        work,
        FetchAnswer::Short { bytes: 1 },
    )
}

#[test]
fn a_marked_block_is_fetched(rt: HostRuntime) -> Result<(), Fail> {
    let alloc = rt.alloc();
    let mut work = Work::new(alloc)?;
    gives_more(alloc, &mut work)
}

#[test]
fn a_plain_block_is_fetched_by_single_bytes(rt: HostRuntime) -> Result<(), Fail> {
    let alloc = rt.alloc();
    let mut work = Work::new(alloc)?;
    let mut source = MemSource::new(stream(alloc, Form::Plain.size(), 182)?, 1, Vec::new(alloc));
    gives(&mut source, Form::Plain, &mut work, FetchAnswer::Full)?;
    has_fetched(&work, Form::Plain)
}

// Bytes of a stream, the calls of the source that fail, and what it gives as one block of the plain and of the marked
// form.
type Cut = (usize, &'static [u64], FetchAnswer, FetchAnswer);

static CUT: [Cut; 8] = [
    (0, &[], FetchAnswer::End, FetchAnswer::End),
    (
        1,
        &[],
        FetchAnswer::Short { bytes: 1 },
        FetchAnswer::Short { bytes: 1 },
    ),
    (
        34645,
        &[],
        FetchAnswer::Short { bytes: 34645 },
        FetchAnswer::Short { bytes: 34645 },
    ),
    (
        37855,
        &[],
        FetchAnswer::Short { bytes: 37855 },
        FetchAnswer::Short { bytes: 37855 },
    ),
    (
        37856,
        &[],
        FetchAnswer::Full,
        FetchAnswer::Short { bytes: 37856 },
    ),
    (42640, &[], FetchAnswer::Full, FetchAnswer::Full),
    (42640, &[5], FetchAnswer::ReadFault, FetchAnswer::ReadFault),
    (42640, &[9], FetchAnswer::ReadFault, FetchAnswer::ReadFault),
];

// A cut stream gives that, in one form.
fn is_cut(
    alloc: Global,
    cut: &Cut,
    form: Form,
    work: &mut Work,
    wanted: FetchAnswer,
) -> Result<(), Fail> {
    let bytes = stream(alloc, cut.0.min(100_000), 182)?;
    let mut source = MemSource::new(bytes, 4000, cut.1.to_vec(alloc)?);
    gives(&mut source, form, work, wanted)
}

#[test]
fn a_stream_ends_or_fails_within_a_block(rt: HostRuntime) -> Result<(), Fail> {
    let alloc = rt.alloc();
    let mut work = Work::new(alloc)?;
    for cut in &CUT {
        is_cut(alloc, cut, Form::Plain, &mut work, cut.2)?;
        is_cut(alloc, cut, Form::Marked, &mut work, cut.3)?;
    }
    Ok(())
}

// A source that gives all it is asked for is called so often for a block, and the next call fails.
fn takes_calls(alloc: Global, form: Form, calls: u64, work: &mut Work) -> Result<(), Fail> {
    let bytes = stream(alloc, 85280, 205)?;
    let mut source = MemSource::new(bytes, 100_000, vec![in alloc; calls; 1]?);
    gives(&mut source, form, work, FetchAnswer::Full)?;
    gives(&mut source, form, work, FetchAnswer::ReadFault)
}

#[test]
fn a_plain_block_takes_one_call_and_a_marked_one_two(rt: HostRuntime) -> Result<(), Fail> {
    let alloc = rt.alloc();
    let mut work = Work::new(alloc)?;
    takes_calls(alloc, Form::Plain, 1, &mut work)?;
    takes_calls(alloc, Form::Marked, 2, &mut work)
}

// Places of a block whose first row has nines, where three of them are damaged.
static DAMAGED: [Place; 4] = [
    (0, 169, 9, false),
    (0, 170, 4, true),
    (0, 171, 5, false),
    (207, 181, 6, true),
];

// Damages them.
fn damage(work: &mut Work)
    requires { HasBlock (stage_of work.old) }
    ensures { stage_of work.new ≡ Fetched }
{
    work.damage(0, 170, 4, true);
    work.damage(0, 171, 5, false);
    work.damage(207, 181, 6, true);
}

// Place 170 is the only one of row 0 that is marked.
fn has_one_mark(work: &Work) -> bool {
    let mut marks = [false; 182];
    work.marks.row(0, &mut marks);
    let mut wanted = [false; 182];
    wanted[170] = true;
    marks == wanted
}

// They are damaged until the block is loaded again.
fn is_damaged(work: &mut Work, block: &Block) -> Result<(), Fail> {
    work.load_block(block);
    damage(work);
    has_all(work, &DAMAGED)?;
    if !has_one_mark(work) {
        Err("other marks")?;
    }
    work.load_block(block);
    has(work, &(0, 170, 9, false))
}

#[test]
fn places_are_damaged_and_marked(rt: HostRuntime) -> Result<(), Fail> {
    let alloc = rt.alloc();
    let mut work = Work::new(alloc)?;
    let mut block = Block::new(alloc)?;
    block.put_frame(0, &[9; 2064]);
    is_damaged(&mut work, &block)
}

// What is set of the last row is there.
fn a_row_is_set(answers: &mut Answers) -> bool {
    let fix = Some(Fix {
        errors: 2,
        erased: 3,
    });
    answers.rows_mut()[207].set(&[7; 182], fix);
    let row = &answers.rows()[207];
    row.bytes[181] == 7 && row.fix == fix
}

// What is set of the last column is there.
fn a_column_is_set(columns: &mut Columns) -> bool {
    columns.all_mut()[181].set(&[8; 208], true);
    let column = &columns.all()[181];
    column.bytes[207] == 8 && column.answered
}

// What is set of the last sector is there, until the sectors are blank.
fn a_sector_is_set(work: &mut Work) -> bool {
    work.sectors.set(15, &[9; 2048]);
    let is_set = work.sector(14)[2047] == 0 && work.sector(15)[2047] == 9;
    let size = work.sector(15).len();
    work.blank();
    is_set && size == 2048 && work.sector(15)[2047] == 0
}

#[test]
fn parts_are_set(rt: HostRuntime) -> Result<(), Fail> {
    let mut work = Work::new(rt.alloc())?;
    assert!(rt; a_row_is_set(&mut work.answers));
    assert!(rt; a_column_is_set(&mut work.columns));
    assert!(rt; a_sector_is_set(&mut work));
    work.set_stage(Stage::Fetched);
    assert!(rt; work.stage() == Stage::Fetched);
    Ok(())
}
