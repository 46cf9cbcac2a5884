//! The command `recover`: image sectors from a stream of captured blocks.
//!
//! `run_recover` takes the memory and reads the header of a listed capture, `recover_loop` goes over all blocks of the
//! plan by `Imaging`, and `give` does one that holds image. `Work` is the memory of one captured block: its received
//! rows and marks, what two passes made of them, and its sixteen sectors. Each block overwrites what the one before
//! left there. `Planned` is a block of the stream with its number, which lines name, and its entry in the plan of the
//! layout.
//!
//! In the clauses `IsLayoutOf` says that the layout is the one that the settings ask for, `MayRead` that the work holds
//! a received block, that the sector numbers of an entry have 24 bits, that the runtime and the gate may be shared with
//! threads, and that there are 1 to 16 workers, and `IsReader` that each call of the closure reads a block as
//! `read_block` does.
ghost use Rattle.std.specs.Thread.{IsSync};
ghost use Rattle.std.specs.Prelude.{◌≡◌, ◌≤◌, length, IsErr};
ghost use Rattle.dvd_layout.specs.Plan.{plan_of};
ghost use Rattle.dvd_loop.specs.Machine.{IsOutcome};
ghost use Rattle.dvd_loop.specs.Streams.{streams, HasEnded};
ghost use Rattle.dvd_read.specs.Calls.{IsBlockRead};
ghost use Rattle.dvd_commands.specs.Captured.{IsCaptureEnd};
ghost use Rattle.dvd_commands.specs.Recover.{IsImageDone, recover_units};
ghost use Rattle.dvd_commands.specs.Performed.{IsPerformed};
ghost use Rattle.dvd_commands.specs.Inner.Workers.{IsReader, MayRead};
ghost use Rattle.dvd_words.specs.Settings.{IsLayoutOf};

use crate::blocks::Blocks;
use crate::captured::{Planned, refuse_block, write_image};
use crate::imaging::{GivesImage, Imaging};
use crate::opening::{layout_from_arguments, open_blocks};
use crate::refusal::Begun;
use crate::start::Start;
use crate::workers::{Workers, read_by};
use dvd_capture::Work;
use dvd_layout::{BlockPlan, Layout};
use dvd_loop::{LoopEnd, Processed, UnitKind, run_plain};
use dvd_par::{Gate, read_block_par};
use dvd_ports::{Sink, Source};
use dvd_read::{Cause, Fixed};
use dvd_words::{Command, Settings};
use std::thread::Threads;

/// How its blocks are read.
#[derive(Drop)]
struct Recover<'r, F> {
    read: &'r F,
}

// The clauses are in the trait. `ready` is what a block needs: a closure that reads one as `read_block` does.
impl<'r, F, K: Sink, E: Sink> GivesImage<K, E> for Recover<'r, F>
where
    F: Fn(&mut Work, &BlockPlan) -> Result<Fixed, Cause>,
{
    ghost May = { IsImageDone };

    ghost ready = { λ r. IsReader F.Fn r.read.now };

    // Writes the sectors of a block that is accepted. Or reports its cause, and writes those that are salvaged and
    // zeros for the others. `deep` has the same form, but reads by one thread and tries rounds.
    fn give(&mut self, block: &Planned, work: &mut Work, out: &mut K, report: &mut E) -> Processed {
        match read_by(self.read, work, block.entry) {
            // What was fixed isn't reported: an accepted block has no line here, and `survey` counts rows.
            Ok(_) => write_image(block, work, UnitKind::Good, out),
            Err(cause) => refuse_block(block, &cause, work, out, report),
        }
    }
}

/// Reads every block of the plan of the layout and the zones that the settings choose, and writes its image sectors. A
/// line names each that is refused, and zeros are written for its sectors that aren't salvaged.
/// It is public for callers with buffers of their own. What the work held before doesn't matter, and nothing is
/// promised of it afterwards. The layout is what the settings ask for, made once by the caller. `rt` makes the workers,
/// and each asks `gate` before its piece of a block. `ends` says which ends a caller has to expect.
pub fn recover_loop<R: Threads + Sync, S: Source, K: Sink, E: Sink, G: Gate>(
    rt: &R,
    settings: &Settings,
    layout: &Layout,
    gate: &G,
    work: &mut Work,
    src: &mut S,
    out: &mut K,
    report: &mut E,
) -> LoopEnd
    requires layout { IsLayoutOf settings.now layout.now }
    requires workers { (1 ≤ settings.now.workers) × (settings.now.workers ≤ 16) }
    ensures follows { HasEnded (IsOutcome (recover_units layout.now settings.now.zones settings.now.form))
        (streams (S.seen src.old) (K.seen out.old) (E.seen report.old))
        (streams (S.seen src.new) (K.seen out.new) (E.seen report.new)) result }
    ensures ends { IsCaptureEnd settings.now.form (length (plan_of layout.now settings.now.zones)) result }
{
    let workers = settings.workers;
    // A closure, since `process` doesn't know that the runtime and the gate may be shared with threads. Here both may.
    let read = |work: &mut Work, plan: &BlockPlan| -> Result<Fixed, Cause>
        requires { MayRead (IsSync R.row) (IsSync G.row) workers work.now plan.now }
        ensures { IsBlockRead work.entry.now work.exit.now plan.entry.now result }
    { read_block_par(rt, workers, gate, work, plan) };
    let recover = Imaging {
        blocks: Blocks {
            layout: *layout,
            zones: settings.zones,
        },
        form: settings.form,
        command: Recover { read: &read },
        work,
    };
    run_plain(recover, src, out, report)
}

/// The command with its buffers, or why it doesn't begin.
/// Memory is taken before the header of a listed capture is read, so a command that doesn't begin has read nothing.
pub(crate) fn run_recover<R: Threads + Sync, S: Source, K: Sink, E: Sink, G: Gate>(
    workers: &Workers<'_, R, G>,
    start: &Start<'_>,
    src: &mut S,
    out: &mut K,
    report: &mut E,
) -> Begun
    requires command { start.now.settings.now.command ≡ Command.Recover }
    requires workers { (1 ≤ start.now.settings.now.workers) × (start.now.settings.now.workers ≤ 16) }
    ensures performed { IsPerformed start.now.settings.now
        (streams (S.seen src.old) (K.seen out.old) (E.seen report.old))
        (streams (S.seen src.new) (K.seen out.new) (E.seen report.new)) result }
    ensures untouched { IsErr result → (src.new ≡ src.old) × (out.new ≡ out.old) × (report.new ≡ report.old) }
{
    let settings = start.settings;
    // The layout is tried before memory is taken: a broken rule is what a user can put right.
    let worded = layout_from_arguments(settings)?;
    let mut work = Work::new(start.alloc)?;
    match open_blocks(settings, worded, src) {
        Ok(stated) => Ok(recover_loop(
            workers.rt,
            &stated.settings,
            &stated.layout,
            workers.gate,
            &mut work,
            src,
            out,
            report,
        )),
        // The run ended in the header of its input. It did begin, so this is an end and no refusal.
        Err(end) => Ok(end),
    }
}
