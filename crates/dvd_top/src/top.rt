//! The top call, which does all that the program does. Tests make it over memory, and `main` over the real streams.
ghost use Rattle.std.specs.Prelude.{map, string_bytes};
ghost use Rattle.dvd_loop.specs.Streams.{streams};
ghost use Rattle.dvd_top.specs.Headline.{Headline, Reports};

use crate::lines::closing_line;
use crate::status::Status;
use dvd_commands::{Refusal, Workers, perform};
use dvd_loop::close;
use dvd_par::Gate;
use dvd_ports::{Sink, Source, WriteFault, write_whole};
use dvd_report::setting_line;
use dvd_words::{WordsFault, read};
use std::alloc::Global;
use std::thread::Threads;

/// Does what the arguments ask for: reads `src`, writes to `out`, and writes lines to `report`. The last line names how
/// the run ended. Each worker asks the gate before its pieces; nothing that is read, written or reported depends on it.
/// It is there for tests, which see by it that pieces are done at once; in programs nobody waits at it.
/// The contract says which bytes an input, an output or a report has where these are known.
/// `main` and the tests each have a runtime of their own, so it is a parameter: it makes the threads of the workers.
pub fn run<R: Threads + Sync, S: Source, K: Sink, E: Sink, G: Gate>(
    rt: &R,
    alloc: Global,
    words: &[String],
    gate: &G,
    src: &mut S,
    out: &mut K,
    report: &mut E,
) -> Status
    // The page that says all of it: arguments, layout, one run, faults, the bound, and the promise in plain words.
    ensures { Headline src.old src.new out.old out.new (map string_bytes words.now)
        (streams (S.seen src.old) (K.seen out.old) (E.seen report.old))
        (streams (S.seen src.new) (K.seen out.new) (E.seen report.new)) result }
{
    // What a user can put right comes first: arguments, then the layout, then memory (the last two in `perform`).
    match read(alloc, words) {
        Err(WordsFault::Usage) => refuse(Status::Usage, b"usage\n", report),
        Err(WordsFault::NoMemory) => refuse(Status::NoMemory, b"no memory\n", report),
        Ok(settings) => match perform(&Workers { rt, gate }, alloc, &settings, src, out, report) {
            // The closing line is written even after a fault of the input or the output. Where it can't be, `close`
            // gives `ReportFault` in place of the end.
            Ok(end) => close(end, closing_line(settings.command, end).as_slice(), report).into(),
            Err(Refusal::Setting(fault)) => refuse(
                Status::Setting,
                setting_line(fault).as_slice(),
                report,
            ),
            Err(Refusal::NoMemory) => refuse(Status::NoMemory, b"no memory\n", report),
        },
    }
}

// Writes the line of a run that doesn't begin, and returns its status, or `ReportFault` where the line can't be
// written. Neither input nor output is touched. `close` of dvd_loop isn't for it, since no loop has ended.
fn refuse<E: Sink>(status: Status, line: &[u8], report: &mut E) -> Status
    ensures { Reports status line.now (E.seen report.old) (E.seen report.new) result }
{
    match write_whole(report, line) {
        Ok(()) => status,
        Err(WriteFault) => Status::ReportFault,
    }
}
