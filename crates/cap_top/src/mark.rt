//! A run of `mark`: a map and a plain capture in, the capture in the marked form out. cap_main opens the map and calls
//! it. The name of the map in the settings isn't used here.
ghost use Rattle.std.specs.Prelude.{◌≡◌};
ghost use Rattle.cap_top.specs.Mark.{Headline};
ghost use Rattle.cap_top.specs.Mark.Statuses.{status_of};
ghost use Rattle.dvd_loop.specs.Streams.{streams};

mod lines; // the lines of its report
mod opening; // its map

use crate::closing::end_with;
use crate::status::Status;
use cap_mark::mark_loop;
use cap_words::MarkSettings;
use dvd_loop::{LoopEnd, close};
use dvd_ports::{Sink, Source};
use lines::{closing_line, refusal_end};
use opening::open_map;
use std::alloc::Global;

/// Reads the map whole, then the capture from `src`, and writes it to `out` in the marked form. The report gets one
/// line, which says how the run ended. Memory is allocated for the map alone, before the first byte of the capture. The
/// equations in the clause are handed to the definition, which states them where a stream isn't touched.
pub fn run_mark<M: Source, S: Source, K: Sink, E: Sink>(
    alloc: Global,
    settings: &MarkSettings<'_>,
    map: &mut M,
    src: &mut S,
    out: &mut K,
    report: &mut E,
) -> Status
    ensures { Headline settings.now.good.now (M.seen map.old) (M.seen map.new) ((src.new ≡ src.old) × (out.new ≡ out.old))
        (streams (S.seen src.old) (K.seen out.old) (E.seen report.old))
        (streams (S.seen src.new) (K.seen out.new) (E.seen report.new)) result }
{
    match open_map(alloc, settings.good.as_bytes(), map) {
        Ok(spans) => {
            let end = mark_loop(&spans, src, out);
            // `close` writes the line as `end_with` does; its clauses go on from those of the loop. It returns the end,
            // or `ReportFault` where the line failed, so the status is that of what it returns.
            status_of(close(end, closing_line(end).as_slice(), report))
        }
        Err(refusal) => end_with(refusal_end(refusal), report),
    }
}

// A capture may end after any frame: an end within one of which no byte came is no fault. The other ends are that the
// report failed, and those that no run of `mark` has.
fn status_of(end: LoopEnd) -> Status
    ensures { result ≡ status_of end }
{
    match end {
        LoopEnd::Done | LoopEnd::Short { bytes: 0, .. } => Status::Done,
        LoopEnd::ReadFault => Status::ReadFault,
        LoopEnd::WriteFault => Status::WriteFault,
        LoopEnd::Short { .. } => Status::Short,
        LoopEnd::Long => Status::Long,
        _ => Status::ReportFault,
    }
}
