//! A whole report, read as it comes. Nothing is written before its last line, which says how much of the image there
//! is. Its report lines name blocks of a layout: the disk's zones and image, as the options of `dvdcap lost` say.
ghost use Rattle.std.specs.Prelude.{IfOk, IfErr};
ghost use Rattle.cap_lost.specs.Lost.{losses_in};
ghost use Rattle.cap_lost.specs.Reads.{IsReportRefused, ReadsReport};

use crate::draft::Lost;
use crate::fault::ReportFault;
use crate::reader::Reader;
use dvd_layout::{Layout, Zones};
use dvd_ports::{Failed, Source};
use std::alloc::Global;

/// Reads a report of this layout and these zones to its end, or to the first line that breaks a rule. It allocates
/// memory for the extents, two numbers for each, and `NoMemory` comes only where there is none.
/// After a fault nothing is left of what was read. cap_top calls it and then writes the map.
pub fn read_report<S: Source>(
    alloc: Global,
    layout: Layout,
    zones: Zones,
    src: &mut S,
) -> Result<Lost, ReportFault>
    ensures read { IfOk result (λ lost. ReadsReport layout zones (S.seen src.old) (S.seen src.new) (losses_in lost)) }
    ensures refused { IfErr result (IsReportRefused layout zones (S.seen src.old) (S.seen src.new)) }
{
    let mut reader = Reader::new(alloc, layout, zones);
    // A piece may end within a line: the reader puts lines together. The length of a piece has no part in the result.
    // It bounds what is read after the line that breaks a rule. Any would do.
    let mut piece = [0; 4096];
    // It ends for any source: no line has more than 128 bytes, and each names a later block than the one before, so
    // that a report without end breaks a rule.
    loop {
        match src.read(&mut piece) {
            Ok(0) => return reader.finish(),
            Ok(count) => reader.take(&piece[..count])?,
            Err(Failed) => return Err(ReportFault::ReadFault),
        }
    }
}
