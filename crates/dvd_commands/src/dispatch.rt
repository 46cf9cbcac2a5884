//! Which command runs.
ghost use Rattle.std.specs.Prelude.{◌≡◌, IsErr};
ghost use Rattle.dvd_loop.specs.Streams.{streams};
ghost use Rattle.dvd_commands.specs.Performed.{IsPerformed};
ghost use Rattle.dvd_words.specs.Reading.{IsValid};

use crate::assemble::run_assemble;
use crate::cd_make::cdmake_loop;
use crate::cd_read::cdread_loop;
use crate::convert::run_convert;
use crate::deep::run_deep;
use crate::exercise::run_exercise;
use crate::frames::frames_loop;
use crate::info::run_info;
use crate::master::run_master;
use crate::merge::run_merge;
use crate::recover::run_recover;
use crate::refusal::Refusal;
use crate::start::Start;
use crate::survey::run_survey;
use crate::workers::Workers;
use dvd_loop::LoopEnd;
use dvd_par::Gate;
use dvd_ports::{Sink, Source};
use dvd_words::{Command, Settings};
use std::alloc::Global;
use std::thread::Threads;

/// The loop of the command that the settings name, or why it doesn't begin.
/// The one place that names every command's function. What all of them begin with is put together here.
/// Where it doesn't begin, input, output and report are untouched. The closing line is the caller's, `run` of dvd_top:
/// a refusal has a line too, and both are written in one place. It is public for that caller alone.
pub fn perform<R: Threads + Sync, S: Source, K: Sink, E: Sink, G: Gate>(
    workers: &Workers<'_, R, G>,
    alloc: Global,
    settings: &Settings,
    src: &mut S,
    out: &mut K,
    report: &mut E,
) -> Result<LoopEnd, Refusal>
    requires { IsValid settings.now }
    ensures performed { IsPerformed settings.now
        (streams (S.seen src.old) (K.seen out.old) (E.seen report.old))
        (streams (S.seen src.new) (K.seen out.new) (E.seen report.new)) result }
    ensures untouched { IsErr result → (src.new ≡ src.old) × (out.new ≡ out.old) × (report.new ≡ report.old) }
{
    // Three commands, whose loops are called at once, take no memory and have no layout, so they always begin. Those
    // without `report` write no line of their own, and those without `workers` work with one thread. The bounds that
    // each asks of the settings, as at most sixteen workers or captures, are in `IsValid`: reading the arguments
    // ensures them. `exercise` is handed an input that it doesn't read, since its contract here is of all three
    // streams.
    let start = Start { alloc, settings };
    match settings.command {
        Command::Frames => Ok(frames_loop(settings, src, out)),
        Command::Master => run_master(workers, &start, src, out),
        Command::Recover => run_recover(workers, &start, src, out, report),
        Command::Info => run_info(&start, src, out),
        Command::Survey => run_survey(workers, &start, src, out),
        Command::Exercise => run_exercise(workers, &start, src, out),
        Command::CdMake => Ok(cdmake_loop(settings, src, out)),
        Command::CdRead => Ok(cdread_loop(settings, src, out, report)),
        Command::Merge => run_merge(&start, src, out),
        Command::Deep => run_deep(&start, src, out, report),
        Command::Assemble => run_assemble(&start, src, out, report),
        Command::Convert => run_convert(&start, src, out),
    }
}
