//! A run of `lost`: a report of `dvdecc` in, a map of the image out. Two reports are spoken of: the one that is read,
//! and that of this run, `report`. cap_main calls it with the real streams.
ghost use Rattle.std.specs.Prelude.{◌≡◌};
ghost use Rattle.cap_top.specs.Lost.{Headline, HasRunByLayout};
ghost use Rattle.dvd_loop.specs.Streams.{streams};

mod lines; // the lines of its report

use crate::closing::end_with;
use crate::status::Status;
use cap_lost::{read_report, write_map};
use cap_words::LostSettings;
use dvd_layout::{Layout, Zones};
use dvd_ports::{Sink, Source};
use lines::{map_end, refusal_end, setting_end};
use std::alloc::Global;

/// Reads the report of a run of `dvdecc` from `src`, line by line, and then writes the map of its image to `out`. The
/// report of this run gets one line, which says how it ended. Memory is allocated for the extents of lost sectors
/// alone, and nothing is written before the last line was read. A layout that breaks a rule ends the run before
/// anything is read. The equations in the clause are handed to the definition, which states them where a stream isn't
/// touched.
pub fn run_lost<S: Source, K: Sink, E: Sink>(
    alloc: Global,
    settings: &LostSettings,
    src: &mut S,
    out: &mut K,
    report: &mut E,
) -> Status
    ensures { Headline settings.now (src.new ≡ src.old) (out.new ≡ out.old)
        (streams (S.seen src.old) (K.seen out.old) (E.seen report.old))
        (streams (S.seen src.new) (K.seen out.new) (E.seen report.new)) result }
{
    match settings.layout() {
        Ok(layout) => map_image(alloc, layout, settings.zones, src, out, report),
        Err(fault) => end_with(setting_end(fault), report),
    }
}

// Likewise for a layout that breaks no rule. The number of all image sectors goes to the map, since it names those that
// weren't written too.
fn map_image<S: Source, K: Sink, E: Sink>(
    alloc: Global,
    layout: Layout,
    zones: Zones,
    src: &mut S,
    out: &mut K,
    report: &mut E,
) -> Status
    ensures { HasRunByLayout layout zones (out.new ≡ out.old)
        (streams (S.seen src.old) (K.seen out.old) (E.seen report.old))
        (streams (S.seen src.new) (K.seen out.new) (E.seen report.new)) result }
{
    // The whole report first: how much was written is in its last line.
    match read_report(alloc, layout, zones, src) {
        Ok(lost) => end_with(map_end(write_map(&lost, layout.total(), out)), report),
        Err(fault) => end_with(refusal_end(fault), report),
    }
}
