//! The lines of reports that several commands have, and the status that goes with the last. A run whose closing line
//! fails has the status ReportFault, whatever else it did: silence isn't success. The bound of 20 bytes is within
//! what a `Line` has room for, 256, and more than any text here has.
ghost use Rattle.std.specs.Prelude.{◌≡◌, ◌≤◌, codes, length};
ghost use Rattle.cap_top.specs.Closing.{EndsWith, words_line, words_status};
ghost use Rattle.cap_top.specs.Causes.{rule_line};

use crate::causes::{LineCause, cause_text, input_name};
use crate::status::Status;
use cap_words::WordsFault;
use dvd_ports::{Sink, WriteFault, write_whole};
use dvd_report::Line;

/// How a run ends: its status, and the line that closes its report.
#[derive(Drop)]
pub struct RunEnd {
    pub status: Status,
    pub line: Line,
}

/// Writes the closing line, and answers the status of the run, or `ReportFault` where the line can't be written, of
/// which a prefix may have come out.
pub fn end_with<E: Sink>(end: RunEnd, report: &mut E) -> Status
    ensures { EndsWith end.status end.line (E.seen report.old) (E.seen report.new) result }
{
    match write_whole(report, end.line.as_slice()) {
        Ok(()) => end.status,
        Err(WriteFault) => Status::ReportFault,
    }
}

/// Reports why arguments aren't read. It is public for cap_main, which reads them: no command has run then.
pub fn refuse_words<E: Sink>(fault: WordsFault, report: &mut E) -> Status
    ensures { EndsWith (words_status fault) (words_line fault) (E.seen report.old) (E.seen report.new) result }
{
    match fault {
        WordsFault::Usage => end_with(fixed_end(Status::Usage, b"usage\n"), report),
        WordsFault::NoMemory => end_with(fixed_end(Status::NoMemory, b"no memory\n"), report),
    }
}

/// An end whose line is a fixed text.
pub fn fixed_end(status: Status, text: &[u8]) -> RunEnd
    requires { length text.now ≤ 20 }
    ensures status { result.status ≡ status }
    ensures line { result.line ≡ text.now }
{
    let mut line = Line::new();
    line.put(text);
    RunEnd { status, line }
}

/// The end of a run with an input, a line of which breaks a rule. Lines are counted from 1.
pub fn rule_end(cause: LineCause, number: u64) -> RunEnd
    ensures status { result.status ≡ Status.BadInput }
    ensures line { result.line ≡ rule_line cause number }
{
    let mut line = Line::new();
    line.put(input_name(cause));
    line.put_named(b": line ", number);
    line.put(b": ");
    line.put(cause_text(cause));
    line.put(b"\n");
    RunEnd {
        status: Status::BadInput,
        line,
    }
}
