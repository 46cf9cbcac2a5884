//! The loops of `master` and `recover`, called directly and not by `run`, over a disk of one layer with all its zones:
//! `master_loop` records the same bytes as `run` does, and `recover_loop` makes the image again of what `run` recorded.
//! And `run` of `recover` over the same disk, into a sink that keeps nothing: it is Done, and reports `done` alone.
ghost use Rattle.std.specs.Prelude.{◌≤◌, IfSome};

use dvd_block::{Block, Piece};
use dvd_capture::Work;
use dvd_par::OpenGate;
use dvd_ports::{MemSink, NullSink, SliceSource};
use dvd_top::{LoopEnd, Settings, Status, master_loop, recover_loop, run};
use dvd_trial::{Held, bytes_of, words_of};
use std::alloc::Global;
use std::thread::Threads;

// What the arguments ask for: one worker, as none are named, else None. The loops require 1 to 16, hence the clause.
fn asked(alloc: Global, text: &str) -> Option<Settings>
    ensures { IfSome result (λ settings. (1 ≤ settings.workers) × (settings.workers ≤ 16)) }
{
    let settings = dvd_words::read(alloc, &words_of(alloc, text)?).ok()?;
    (settings.workers == 1).then_some(settings)
}

// None unless the loop of `master` is Done.
fn master<R: AllocGlobal + Threads + Sync>(rt: &R, image: &[u8], out: &mut MemSink) -> Option<()> {
    let settings = asked(rt.alloc(), "master --sectors 17 --zones all")?;
    let layout = settings.layout().ok()?;
    let mut block = Block::new(rt.alloc()).ok()?;
    let mut piece = Piece::new(rt.alloc()).ok()?;
    let source = &mut SliceSource::new(image);
    let (block, piece) = (&mut block, &mut piece);
    let end = master_loop(rt, &settings, &layout, &OpenGate, block, piece, source, out);
    (end == LoopEnd::Done).then_some(())
}

// None unless the loop of `recover` is Done.
fn recover<R: AllocGlobal + Threads + Sync>(
    rt: &R,
    work: &mut Work,
    disk: &[u8],
    out: &mut MemSink,
    report: &mut MemSink,
) -> Option<()> {
    let settings = asked(rt.alloc(), "recover --sectors 17 --zones all")?;
    let layout = settings.layout().ok()?;
    let source = &mut SliceSource::new(disk);
    let end = recover_loop(rt, &settings, &layout, &OpenGate, work, source, out, report);
    (end == LoopEnd::Done).then_some(())
}

// The image has 17 drawn sectors, and the disk is what `run` records of it: 274 blocks, else None. Sinks have room for
// the first number of bytes, by at most the second in a call. `recover_loop` and `run` append to one report, which is
// that of `run` alone: of a disk without damage the loop reports nothing. None: a case fails, or what is read or made
// for it, or memory is wanting. `OpenGate` lets all workers pass.
fn all_hold<R: AllocGlobal + Threads + Sync>(rt: &R) -> Option<()> {
    let alloc = rt.alloc();
    let image = bytes_of(rt, "image of 17 sectors")?;
    let steps = "image of 17 sectors | master --sectors 17 --zones all makes 274 blocks";
    let disk = bytes_of(rt, steps)?;
    let mut recorded = MemSink::new(alloc, 274 * 37_856, 40_000, Vec::new(alloc)).ok()?;
    let mut output = MemSink::new(alloc, 17 * 2048, 40_000, Vec::new(alloc)).ok()?;
    let mut report = MemSink::new(alloc, 80, 80, Vec::new(alloc)).ok()?;
    let mut work = Work::new(alloc).ok()?;
    master(rt, &image, &mut recorded)?;
    recover(rt, &mut work, &disk, &mut output, &mut report)?;
    let words = words_of(alloc, "recover --sectors 17 --zones all")?;
    let (source, sink) = (&mut SliceSource::new(&disk), &mut NullSink::new());
    let status = run(rt, alloc, &words, &OpenGate, source, sink, &mut report);
    let are_right = recorded.held() == disk.as_slice() && output.held() == image.as_slice();
    let is_reported = status == Status::Done && report.held() == b"done\n".as_slice();
    (are_right && is_reported).then_some(())
}

#[test]
fn the_loops_record_as_the_command_does_and_read_back(rt: HostRuntime) -> Held {
    all_hold(&rt).ok_or("a loop or the run isn't Done, or leaves other bytes or another report")
}
