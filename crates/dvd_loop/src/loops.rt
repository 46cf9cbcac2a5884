//! The loop over units that all commands share, and the line that closes it. In clauses an outcome is what was read,
//! written and reported, and the end. `HasEnded` says that the streams have moved by one that the units allow, and that
//! a fault is one failed call, the last of its stream. A command's `key` is what its units depend on, `units` what may
//! be read and done for each, and `ready` what its buffers and counts are after units with these bytes: `[]`, before
//! the first. The command, the streams and what is done are parameters of a type, so one proof of the loop is for all.
ghost use Rattle.std.specs.Prelude.{◌≡◌, ◌≢◌, ℕ, List, [], true, false};
ghost use Rattle.dvd_ports.specs.Seen.{Seen};
ghost use Rattle.dvd_loop.specs.Machine.{Closes, EndsAfterLast, IsOutcome};
ghost use Rattle.dvd_loop.specs.Streams.{streams, HaveReached, Counts, HasEnded, HaveCauses, is_report_fault};
ghost use Rattle.dvd_loop.specs.declared.ends.LoopEnd.{LoopEnd as HowItEnds};

use crate::{AfterLast, LoopEnd, UnitCommand};
use dvd_ports::{Failed, Sink, Source, WriteFault, read_whole, write_whole};

/// Opens a command, goes over its units, closes it, and checks what comes after the last unit. Nothing is tried again:
/// a failed call, and a read that met the end of the input, is the last of its stream. The command closes before the
/// end of the input is looked for, so that an input that is too long has its closing too. It writes no closing line:
/// `close` does. The command is borrowed, for callers that look at what it leaves; `run_owned` is for the others.
pub fn run_units<C: UnitCommand<S, K, E>, S: Source, K: Sink, E: Sink>(
    command: &mut C,
    src: &mut S,
    out: &mut K,
    report: &mut E,
) -> LoopEnd
    requires { C.ready command.old [] }
    ensures follows { HasEnded (IsOutcome (C.units (C.key command.old)))
        (streams (S.seen src.old) (K.seen out.old) (E.seen report.old))
        (streams (S.seen src.new) (K.seen out.new) (E.seen report.new)) result }
    ensures same { C.key command.new ≡ C.key command.old }
    ensures left { C.left command.new result }
{
    // An end within any call is the end of the loop: after a fault nothing is closed, since that writes.
    if let Err(end) = command.open(out, report) {
        return end;
    }
    // At most one a unit, and units are counted in 32 bits: the sum has room in them too.
    let mut bad = 0;
    for k in 0..command.count() {
        match command.process(k, src, out, report) {
            // The unit that answers is what was looked for, so bad units before it don't count, and nothing is closed.
            Ok(kind) if kind.is_last() => return LoopEnd::Done,
            Ok(kind) => bad += kind.bad(),
            Err(end) => return end,
        }
    }
    match command.close(out, report) {
        Ok(()) => expect_end(command.after_last(), bad, src),
        Err(end) => end,
    }
}

/// Likewise for a command that is handed over, where the caller doesn't need what it leaves. So it has no clause of the
/// command after the loop, and callers have none to prove. The command is `Drop`, since it is let go of at the end.
pub fn run_owned<C: UnitCommand<S, K, E> + Drop, S: Source, K: Sink, E: Sink>(
    command: C,
    src: &mut S,
    out: &mut K,
    report: &mut E,
) -> LoopEnd
    requires { C.ready command [] }
    ensures { HasEnded (IsOutcome (C.units (C.key command)))
        (streams (S.seen src.old) (K.seen out.old) (E.seen report.old))
        (streams (S.seen src.new) (K.seen out.new) (E.seen report.new)) result }
{
    let mut command = command;
    run_units(&mut command, src, out, report)
}

// The end of a loop after its last unit. One byte is requested, since only a read can find the end of the input; a byte
// that comes is lost, and the end is `Long`, whatever was bad: a run has one end, and this one says that the input is
// another than was asked for. Output and report aren't touched. Where nothing is requested `bad` doesn't count: the
// commands that end so, `info` and `exercise`, have no bad unit.
fn expect_end<S: Source>(after_last: AfterLast, bad: u32, src: &mut S) -> LoopEnd
    ensures comes { (output report : Seen) → HaveReached (EndsAfterLast after_last bad)
        (streams (S.seen src.old) output report) (streams (S.seen src.new) output report) result }
    ensures causes { (output report : Seen) → HaveCauses result result
        (streams (S.seen src.old) output report) (streams (S.seen src.new) output report) }
{
    match after_last {
        AfterLast::Done => LoopEnd::Done,
        AfterLast::NoControl => LoopEnd::NoControl,
        AfterLast::EndOfInput => match read_whole(src, &mut [0; 1]) {
            Ok(0) if bad == 0 => LoopEnd::Done,
            Ok(0) => LoopEnd::Damaged { blocks: bad },
            Ok(_) => LoopEnd::Long,
            Err(Failed) => LoopEnd::ReadFault,
        },
    }
}

/// Writes the closing line of a loop's end to the report. After a fault of the report nothing is tried. Where the line
/// can't be written, the end is `ReportFault` in place of the other, since who reads reports must not take silence for
/// success. Programs call it after the loop, since the words of the line are theirs. `line` is that of `end`, with its
/// end of line.
pub fn close<E: Sink>(end: LoopEnd, line: &[u8], report: &mut E) -> LoopEnd
    ensures closes { (closing : HowItEnds → List ℕ) (source output : Seen) → closing end ≡ line.now → HaveReached (λ bytes. Closes closing end)
        (streams source output (E.seen report.old)) (streams source output (E.seen report.new)) result }
    ensures same { result ≢ LoopEnd.ReportFault → result ≡ end }
    ensures cause { end ≢ LoopEnd.ReportFault → Counts (is_report_fault result) (E.seen report.old) (E.seen report.new) }
    ensures none { end ≡ LoopEnd.ReportFault → report.new ≡ report.old }
{
    match end {
        LoopEnd::ReportFault => end,
        _ => match write_whole(report, line) {
            Ok(()) => end,
            Err(WriteFault) => LoopEnd::ReportFault,
        },
    }
}
