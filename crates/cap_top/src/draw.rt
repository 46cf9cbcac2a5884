//! A run of `draw`: a survey in, its picture out. The end of `draw` says all, so that only its status and its line are
//! made here. cap_main calls it with the real streams.
ghost use Rattle.std.specs.Prelude.{◌≡◌, ◌≤◌};
ghost use Rattle.cap_top.specs.Draw.{Runs};

mod lines; // the lines of its report

use crate::closing::end_with;
use crate::status::Status;
use cap_draw::draw;
use cap_words::DrawSettings;
use dvd_ports::{Sink, Source};
use lines::draw_end;
use std::alloc::Global;

/// Reads a survey from `src` to its end, and writes its picture to `out`. The report gets one line, which says how the
/// run ended. All memory is allocated before the first byte of the survey is read. Nothing is written where a read
/// fails or a line breaks a rule. The equations in the clause are handed to the definition, which states them where a
/// stream isn't touched. `least` and `most` are what `draw` requires, and what settings have that were read of
/// arguments.
pub fn run_draw<S: Source, K: Sink, E: Sink>(
    alloc: Global,
    settings: &DrawSettings,
    src: &mut S,
    out: &mut K,
    report: &mut E,
) -> Status
    requires least { 100 ≤ settings.now.width }
    requires most { settings.now.width ≤ 4000 }
    ensures { Runs settings.now.width (S.seen src.old) (S.seen src.new) (K.seen out.old) (K.seen out.new) (src.new ≡ src.old) (out.new ≡ out.old)
        (E.seen report.old) (E.seen report.new) result }
{
    // A width of at most 4,000 fits 16 bits.
    let end = draw(alloc, settings.width as u16, src, out);
    end_with(draw_end(end), report)
}
