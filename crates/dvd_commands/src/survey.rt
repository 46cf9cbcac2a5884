//! The command `survey`: a line for each captured block, and a line of totals.
//! It reads every block, also one without image: it shows where a surface fails. The lines are its results, so they go
//! to the output, and nothing but the closing line of a run goes to the report.
//!
//! `Survey` has the totals and what is needed of the last blocks (`Represents` says of which list of blocks it is the
//! survey). `Work` is the memory of one captured block. Both are the caller's.
//!
//! In the clauses `IsLayoutOf` says that the layout is the one that the settings ask for, `HasBlock` that the work
//! holds a received block, `HasNumbers` that the sector numbers of an entry have 24 bits, `MayRead` that besides these
//! the runtime and the gate may be shared with threads, and that there are 1 to 16 workers, and `IsReader` that each
//! call of the closure reads a block as `read_block` does. `AreDone` says which steps, writes and lines, are done for a
//! unit; where a call fails, only a first part of them is. Clauses `causes` say by the counts of a stream that the call
//! that failed, where one did, was its last. No report is written, so clauses are of any (`report`, or `source` where
//! the function isn't handed the source), which stays as it is.
ghost use Rattle.std.specs.Thread.{IsSync};
ghost use Rattle.std.specs.Prelude.{◌≡◌, ◌≢◌, ◌++◌, ◌<◌, ◌≤◌, ◌^◌, List, [], ◌∷◌, length, IsErr};
ghost use Rattle.std.specs.Result.{result_err};
ghost use Rattle.dvd_capture.specs.Rule.{HasBlock};
ghost use Rattle.dvd_capture.specs.Works.{rows_of, marks_of_work, stage_of};
ghost use Rattle.dvd_capture.specs.declared.form.Form.{Form as CaptureForm};
ghost use Rattle.dvd_layout.specs.Place.{HasNumbers};
ghost use Rattle.dvd_layout.specs.Plan.{plan_of};
ghost use Rattle.dvd_layout.specs.declared.layout.Layout.{Layout as DiskLayout};
ghost use Rattle.dvd_layout.specs.declared.layout.Zones.{Zones as WhichZones};
ghost use Rattle.dvd_loop.specs.Machine.{IsOutcome};
ghost use Rattle.dvd_loop.specs.Streams.{streams, HasEnded};
ghost use Rattle.dvd_loop.specs.UnitCommand.{AreDone, HaveCausesFor};
ghost use Rattle.dvd_ports.specs.Seen.{Seen};
ghost use Rattle.dvd_report.specs.Survey.{Represents, surveyed};
ghost use Rattle.dvd_report.specs.declared.counts.Surveyed.{Surveyed};
ghost use Rattle.dvd_read.specs.Calls.{IsBlockRead};
ghost use Rattle.dvd_commands.specs.Captured.{IsCaptureEnd};
ghost use Rattle.dvd_commands.specs.Survey.{found_in, survey_units, kind_by};
ghost use Rattle.dvd_commands.specs.Performed.{BesideAnyReport, IsPerformed};
ghost use Rattle.dvd_commands.specs.Inner.Performing.{IsLineDone};
ghost use Rattle.dvd_commands.specs.Inner.Workers.{IsReader, MayRead};
ghost use Rattle.dvd_words.specs.Settings.{IsLayoutOf};

use crate::blocks::Blocks;
use crate::captured::fetch_block;
use crate::opening::{layout_from_arguments, open_blocks};
use crate::refusal::Begun;
use crate::start::Start;
use crate::workers::{Workers, read_by};
use dvd_capture::{Form, Work};
use dvd_layout::{BlockPlan, Layout};
use dvd_loop::{AfterLast, LoopEnd, Processed, UnitCommand, UnitKind, run_owned};
use dvd_par::{Gate, read_block_par};
use dvd_ports::{NullSink, Sink, Source};
use dvd_read::{Cause, Fixed};
use dvd_report::Survey;
use dvd_words::{Command, Settings};
use std::thread::Threads;

/// Its blocks, in the order of the plan, how they are read, what was found so far, and the memory of one block.
#[derive(Drop)]
struct Surveying<'a, 'r, F> {
    blocks: Blocks,
    form: Form,
    read: &'r F,
    survey: &'a mut Survey,
    work: &'a mut Work,
}

// The clauses of these methods are in the trait: together they do what `survey_units` says. `key` is what these units
// depend on; no method changes it. `ready` is what holds between blocks: the survey is that of the blocks before.
// `left` says what the end leaves to the caller, here nothing. It is no `PlainCommand`, since a line needs the blocks
// before, and totals close the survey. `Processed` is the kind of a unit, or how the loop ends in it. The trait has no
// default bodies, so `open`, which has nothing to write, is there too.
impl<'a, 'r, F, S: Source, K: Sink, E: Sink> UnitCommand<S, K, E> for Surveying<'a, 'r, F>
where
    F: Fn(&mut Work, &BlockPlan) -> Result<Fixed, Cause>,
{
    ghost Key = { DiskLayout × WhichZones × CaptureForm };

    ghost key = { λ s. (s.blocks.layout, s.blocks.zones, s.form) };

    ghost units = { λ key. survey_units key.0 key.1 key.2 };

    ghost ready = { λ s before. Represents s.survey.now (found_in s.blocks.layout s.blocks.zones s.form before) × IsReader F.Fn s.read.now };

    ghost left = { λ _ _. Unit {0} };

    fn count(&self) -> u32 {
        self.blocks.count()
    }

    // The loop then requests one more byte: an input with more blocks than the plan is an end of its own (`Long`).
    fn after_last(&self) -> AfterLast {
        AfterLast::EndOfInput
    }

    fn open(&self, _out: &mut K, _report: &mut E) -> Result<(), LoopEnd> {
        Ok(())
    }

    // A refused block doesn't end the run: its line and the totals say so.
    fn process(&mut self, k: u32, src: &mut S, out: &mut K, _report: &mut E) -> Processed {
        let entry = self.blocks.at(k);
        fetch_block(src, k, self.form, self.work)?;
        survey_block(&entry, self.read, self.survey, self.work, out)
    }

    // Before one more byte is requested, so that an input that is too long has its totals too. `?` makes an end of the
    // loop of a write that failed.
    fn close(&self, out: &mut K, _report: &mut E) -> Result<(), LoopEnd> {
        self.survey.write_totals(out)?;
        Ok(())
    }
}

/// Surveys every block of the plan of the layout and the zones that the settings choose. The survey has to be empty
/// before. It is public for callers with buffers of their own, of which nothing is promised afterwards. `unfolding`
/// shows the checker that nothing is found of no block. `rt` makes the workers, and each asks `gate` before its piece
/// of a block. `ends` says which ends a caller has to expect. It is that of all commands that read captures, and allows
/// a failed report: `no_report` says that this one has none.
#[tactic(auto, unfolding(crate::specs::Survey::found_in))]
pub fn survey_loop<R: Threads + Sync, S: Source, K: Sink, G: Gate>(
    rt: &R,
    settings: &Settings,
    layout: &Layout,
    gate: &G,
    survey: &mut Survey,
    work: &mut Work,
    src: &mut S,
    out: &mut K,
) -> LoopEnd
    requires layout { IsLayoutOf settings.now layout.now }
    requires workers { (1 ≤ settings.now.workers) × (settings.now.workers ≤ 16) }
    requires empty { Represents survey.old [] }
    ensures follows { (report : Seen) → HasEnded (IsOutcome (survey_units layout.now settings.now.zones settings.now.form))
        (streams (S.seen src.old) (K.seen out.old) report) (streams (S.seen src.new) (K.seen out.new) report) result }
    ensures ends { IsCaptureEnd settings.now.form (length (plan_of layout.now settings.now.zones)) result }
    ensures no_report { result ≢ LoopEnd.ReportFault }
{
    let workers = settings.workers;
    // A closure, since `process` doesn't know that the runtime and the gate may be shared with threads. Here both may.
    let read = |work: &mut Work, plan: &BlockPlan| -> Result<Fixed, Cause>
        requires { MayRead (IsSync R.row) (IsSync G.row) workers work.now plan.now }
        ensures { IsBlockRead work.entry.now work.exit.now plan.entry.now result }
    { read_block_par(rt, workers, gate, work, plan) };
    let surveying = Surveying {
        blocks: Blocks {
            layout: *layout,
            zones: settings.zones,
        },
        form: settings.form,
        read: &read,
        survey,
        work,
    };
    // The loop wants a report, but this command writes none. It owns the command, which nobody needs afterwards.
    run_owned(surveying, src, out, &mut NullSink::new())
}

/// The command with its buffers, or why it doesn't begin.
/// Memory is taken before the header of a listed capture is read, so a command that doesn't begin has read nothing.
pub(crate) fn run_survey<R: Threads + Sync, S: Source, K: Sink, G: Gate>(
    workers: &Workers<'_, R, G>,
    start: &Start<'_>,
    src: &mut S,
    out: &mut K,
) -> Begun
    requires command { start.now.settings.now.command ≡ Command.Survey }
    requires workers { (1 ≤ start.now.settings.now.workers) × (start.now.settings.now.workers ≤ 16) }
    ensures performed { BesideAnyReport (IsPerformed start.now.settings.now) (S.seen src.old) (K.seen out.old) (S.seen src.new) (K.seen out.new) result }
    ensures untouched { IsErr result → (src.new ≡ src.old) × (out.new ≡ out.old) }
{
    let settings = start.settings;
    // The layout is tried before memory is taken: a broken rule is what a user can put right.
    let worded = layout_from_arguments(settings)?;
    let mut survey = Survey::new(start.alloc)?;
    let mut work = Work::new(start.alloc)?;
    match open_blocks(settings, worded, src) {
        Ok(stated) => Ok(survey_loop(
            workers.rt,
            &stated.settings,
            &stated.layout,
            workers.gate,
            &mut survey,
            &mut work,
            src,
            out,
        )),
        // The run ended in the header of its input. It did begin, so this is an end and no refusal.
        Err(end) => Ok(end),
    }
}

// Reads a block, adds it to the survey, and writes its line.
// It is added first, since its line is the last of the survey: `write_line` prints what `add` counted. `room` keeps the
// count of blocks in its bits, and a plan has fewer blocks than it allows. After a failed write the block stays added,
// and the run ends. `blocks` in the clauses is the list of those before.
fn survey_block<F: Fn(&mut Work, &BlockPlan) -> Result<Fixed, Cause>, K: Sink>(
    entry: &BlockPlan,
    read: &F,
    survey: &mut Survey,
    work: &mut Work,
    out: &mut K,
) -> Processed
    requires reader { IsReader F.Fn read.now }
    requires numbers { HasNumbers entry.now }
    requires stage { HasBlock (stage_of work.old) }
    requires room { survey.old.totals.blocks < 2 ^ 32 }
    ensures survey { (blocks : List Surveyed) → Represents survey.old blocks
        → Represents survey.new (blocks ++ surveyed (rows_of work.old) (marks_of_work work.old) entry.now ∷ []) }
    ensures done { (source report : Seen) (blocks : List Surveyed) → Represents survey.old blocks
        → AreDone (IsLineDone entry.now blocks (rows_of work.old) (marks_of_work work.old))
        (streams source (K.seen out.old) report) (streams source (K.seen out.new) report) result }
    ensures causes { (source report : Seen) → HaveCausesFor result
        (streams source (K.seen out.old) report) (streams source (K.seen out.new) report) }
{
    let answer = read_by(read, work, entry);
    survey.add(work, &answer);
    survey.write_line(entry, out)?;
    Ok(kind_of(&answer))
}

// A refused block counts as bad: the run goes on, and then ends as damaged.
fn kind_of(answer: &Result<Fixed, Cause>) -> UnitKind
    ensures { result ≡ kind_by (result_err answer.now) }
{
    match answer {
        Ok(_) => UnitKind::Good,
        Err(_) => UnitKind::Bad,
    }
}
