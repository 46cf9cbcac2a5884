//! How a run of `interleave` ends.
ghost use Rattle.std.specs.Prelude.{◌≡◌};
ghost use Rattle.cap_top.specs.Interleave.{closing_line, status_of};

use crate::closing::{RunEnd, fixed_end};
use crate::status::Status;
use cap_interleave::InterleaveEnd;
use dvd_report::Line;

/// The status of a run, which has no number of a file or a block, and the line that closes its report, which names
/// these. The files are counted from 1 there, as they are in the arguments; blocks are counted from 0. The sum has 64
/// bits, so that it can't overflow.
pub fn interleave_end(end: InterleaveEnd) -> RunEnd
    ensures status { result.status ≡ status_of end }
    ensures line { result.line ≡ closing_line end }
{
    // Ends with numbers fill `line`; the others return, as their line is a fixed text.
    let mut line = Line::new();
    let status = match end {
        InterleaveEnd::Done => return fixed_end(Status::Done, b"done\n"),
        InterleaveEnd::ReadFault { capture } => {
            line.put_named(b"file ", u64::from(capture) + 1);
            line.put(b": read fault\n");
            Status::ReadFault
        }
        InterleaveEnd::WriteFault => return fixed_end(Status::WriteFault, b"write fault\n"),
        InterleaveEnd::Short {
            capture,
            block,
            bytes,
        } => {
            line.put_named(b"short: file ", u64::from(capture) + 1);
            line.put_named(b", block ", u64::from(block));
            line.put_named(b", ", u64::from(bytes));
            line.put(b" bytes\n");
            Status::Short
        }
        InterleaveEnd::Long => return fixed_end(Status::Long, b"long\n"),
    };
    RunEnd { status, line }
}
