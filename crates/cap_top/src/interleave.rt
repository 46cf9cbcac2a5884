//! A run of `interleave`: several captures in, their blocks in turn out. cap_main opens the captures and calls it. It
//! is `IsValid` that the form has blocks of one size, and that only the marked form is filled.
ghost use Rattle.std.specs.Prelude.{◌≡◌, ◌≤◌, length};
ghost use Rattle.cap_top.specs.Interleave.{Headline};
ghost use Rattle.cap_words.specs.Interleave.{IsValid};

mod lines; // the lines of its report

use crate::closing::{end_with, fixed_end};
use crate::status::Status;
use cap_interleave::{Buffers, interleave_loop};
use cap_words::InterleaveSettings;
use dvd_ports::{NoMemory, Sink, Source};
use lines::interleave_end;
use std::alloc::Global;

/// Writes the blocks of captures in turn to `out`. The report gets one line, which says how the run ended. Memory is
/// allocated for one block of each capture, before the first byte is read. Sixteen captures, as the clause `few` says,
/// are what the buffers have room for. It is asked besides `valid`, since nothing here ties the captures to the files
/// that the settings name. However it ends, whole turns are written, but for the last where a write failed. The
/// equations in the clause are handed to the definition, which states them where a stream isn't touched.
pub fn run_interleave<S: Source, K: Sink, E: Sink>(
    alloc: Global,
    settings: &InterleaveSettings<'_>,
    captures: &mut [S],
    out: &mut K,
    report: &mut E,
) -> Status
    requires valid { IsValid settings.now }
    requires few { length captures.old ≤ 16 }
    ensures { Headline S.seen settings.now captures.old captures.new ((captures.new ≡ captures.old) × (out.new ≡ out.old))
        (K.seen out.old) (K.seen out.new) (E.seen report.old) (E.seen report.new) result }
{
    // Memory is taken for all captures before any is read, so that no run ends for want of it in the middle.
    match Buffers::new(alloc, settings.form, settings.fill, captures.len()) {
        Ok(mut buffers) => {
            let end = interleave_loop(&mut buffers, captures, out);
            end_with(interleave_end(end), report)
        }
        Err(NoMemory) => end_with(fixed_end(Status::NoMemory, b"no memory\n"), report),
    }
}
