//! The closing lines of the report. Each is put together first, so that it goes out as one piece.
ghost use Rattle.std.specs.Prelude.{◌≡◌, ◌≤◌, length};
ghost use Rattle.dvd_top.specs.Lines.{closing_line, unit_name};

use dvd_loop::LoopEnd;
use dvd_report::Line;
use dvd_words::{Command, Unit, unit_of};

/// The line that closes the report of a run; empty where the report has failed. Ends that count units name them by what
/// the command goes over. Only captured blocks have marks, so `BadMarks` always names a block. One unit has the plural
/// too, so that the text has one form, which `dvdcap lost` reads.
pub fn closing_line(command: Command, end: LoopEnd) -> Line
    ensures { result ≡ closing_line command end }
{
    let mut line = Line::new();
    match end {
        LoopEnd::Done => line.put(b"done\n"),
        LoopEnd::ReadFault => line.put(b"read fault\n"),
        LoopEnd::WriteFault => line.put(b"write fault\n"),
        // Nothing is tried again: a report that failed gets no line more.
        LoopEnd::ReportFault => {}
        LoopEnd::Short { unit, bytes } => {
            line.put(b"short: ");
            line.put(name_of(unit_of(command)));
            line.put_named(b" ", u64::from(unit));
            line.put_named(b", ", u64::from(bytes));
            line.put(b" bytes\n");
        }
        LoopEnd::Long => line.put(b"long\n"),
        LoopEnd::Damaged { blocks } => {
            line.put_named(b"damaged: ", u64::from(blocks));
            line.put(b" ");
            line.put(name_of(unit_of(command)));
            line.put(b"s\n");
        }
        LoopEnd::NoControl => line.put(b"no control block\n"),
        LoopEnd::BadMarks { block, at } => {
            line.put_named(b"bad marks: block ", u64::from(block));
            line.put_named(b", byte ", u64::from(at));
            line.put(b"\n");
        }
        LoopEnd::ShortHeader { bytes } => {
            line.put_named(b"short: header, ", u64::from(bytes));
            line.put(b" bytes\n");
        }
        LoopEnd::BadHeader { at } => {
            line.put_named(b"bad header: byte ", u64::from(at));
            line.put(b"\n");
        }
    }
    line
}

// What a unit is called in a closing line, in the singular: a count of them adds an s. `short` shows that a line with
// it fits its 256 bytes.
fn name_of(unit: Unit) -> &'static [u8]
    ensures name { result.now ≡ unit_name unit }
    ensures short { length result.now ≤ 6 }
{
    match unit {
        Unit::Sector => b"sector",
        Unit::Block => b"block",
        Unit::Frame => b"frame",
    }
}
