//! The lines of the report of `mark`, one of which closes each run.
ghost use Rattle.std.specs.Prelude.{◌≡◌};
ghost use Rattle.cap_top.specs.Mark.Lines.{closing_line, refusal_line};
ghost use Rattle.cap_top.specs.Mark.Statuses.{refusal_status};

use super::opening::MapRefusal;
use crate::causes::LineCause;
use crate::closing::{RunEnd, fixed_end, rule_end};
use crate::status::Status;
use cap_map::MapFault;
use dvd_loop::LoopEnd;
use dvd_report::Line;

/// The line that closes the report of a run. The number of recording frames of a capture isn't known before. So an end
/// within a frame none of whose bytes came is that of a whole capture. The line is empty after a fault of the report,
/// and for an end that no run has.
pub fn closing_line(end: LoopEnd) -> Line
    ensures { result ≡ closing_line end }
{
    let mut line = Line::new();
    match end {
        LoopEnd::Done | LoopEnd::Short { bytes: 0, .. } => line.put(b"done\n"),
        LoopEnd::ReadFault => line.put(b"read fault\n"),
        LoopEnd::WriteFault => line.put(b"write fault\n"),
        LoopEnd::Short { unit, bytes } => {
            line.put_named(b"short: frame ", u64::from(unit));
            line.put_named(b", ", u64::from(bytes));
            line.put(b" bytes\n");
        }
        LoopEnd::Long => line.put(b"long\n"),
        // A report that failed gets no line more, and the other ends are none of `mark`.
        _ => {}
    }
    line
}

/// The end of a run that doesn't begin. Nothing was read of the capture.
pub fn refusal_end(refusal: MapRefusal) -> RunEnd
    ensures status { result.status ≡ refusal_status refusal }
    ensures line { result.line ≡ refusal_line refusal }
{
    match refusal {
        MapRefusal::ReadFault => fixed_end(Status::ReadFault, b"map: read fault\n"),
        MapRefusal::Text(MapFault::NoMemory) => fixed_end(Status::NoMemory, b"no memory\n"),
        MapRefusal::Text(MapFault::Rule { line, cause }) => rule_end(LineCause::Map(cause), line),
    }
}
