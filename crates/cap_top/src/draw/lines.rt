//! The lines of the report of `draw`. Each run has one, which closes it, and scripts may look for its text.
ghost use Rattle.std.specs.Prelude.{◌≡◌};
ghost use Rattle.cap_draw.specs.declared.drawing.DrawEnd.TheVariants.{Short};
ghost use Rattle.cap_top.specs.Draw.{draw_line, draw_status};

use crate::causes::LineCause;
use crate::closing::{RunEnd, fixed_end, rule_end};
use crate::status::Status;
use cap_draw::DrawEnd;
use dvd_report::Line;

/// The status of a run, and the line that closes its report.
pub fn draw_end(end: DrawEnd) -> RunEnd
    ensures status { result.status ≡ draw_status end }
    ensures line { result.line ≡ draw_line end }
{
    match end {
        DrawEnd::Done => fixed_end(Status::Done, b"done\n"),
        DrawEnd::Short { line, bytes } => short_end(line, bytes),
        DrawEnd::ReadFault => fixed_end(Status::ReadFault, b"read fault\n"),
        DrawEnd::WriteFault => fixed_end(Status::WriteFault, b"write fault\n"),
        DrawEnd::Rule(fault) => rule_end(LineCause::Survey(fault.cause), fault.line),
        DrawEnd::NoMemory => fixed_end(Status::NoMemory, b"no memory\n"),
    }
}

// The end of a survey that is cut: in which line, counted from 1, and how many bytes of that came. It has a status of
// its own, though the picture is written whole.
fn short_end(number: u64, bytes: u64) -> RunEnd
    ensures status { result.status ≡ Status.Short }
    ensures line { result.line ≡ draw_line (Short number bytes) }
{
    let mut line = Line::new();
    line.put_named(b"short: line ", number);
    line.put_named(b", ", bytes);
    line.put(b" bytes\n");
    RunEnd {
        status: Status::Short,
        line,
    }
}
