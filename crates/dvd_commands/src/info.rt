//! The command `info`: the physical format in the lead-in of a disk.
//! The lead-in begins with the Initial Zone, 2 blocks of reference code, 30 of a buffer zone, and 192 control blocks,
//! whose first sector is the physical format; all 192 say the same. A unit is one captured block of these. A control
//! block answers where it is right and its first sector is a physical format; the first that answers ends the run.
//!
//! In the clauses `HasBlock` says that the work holds a received block, and `HasNumbers` that the sector numbers of an
//! entry have 24 bits. `AreDone` says which steps, writes and lines, are done for a unit; where a call fails, only a
//! first part of them is. It writes no report, so clauses are of any (`report`, or `source` where the function isn't
//! handed the source), which stays as it is.
ghost use Rattle.std.specs.Prelude.{◌≡◌, ◌≤◌, ◌+◌, ℕ, None, IsErr, IfSome};
ghost use Rattle.dvd_capture.specs.Rule.{HasBlock};
ghost use Rattle.dvd_capture.specs.Works.{rows_of, marks_of_work, stage_of};
ghost use Rattle.dvd_capture.specs.declared.form.Form.{Form as CaptureForm};
ghost use Rattle.dvd_control.specs.Format.{fields_of};
ghost use Rattle.dvd_layout.specs.Lengths.{most_initial};
ghost use Rattle.dvd_layout.specs.Place.{HasNumbers};
ghost use Rattle.dvd_loop.specs.Machine.{IsOutcome};
ghost use Rattle.dvd_loop.specs.Streams.{streams, HasEnded};
ghost use Rattle.dvd_loop.specs.UnitCommand.{AreDone};
ghost use Rattle.dvd_ports.specs.Seen.{Seen};
ghost use Rattle.dvd_commands.specs.Captured.{IsSoughtEnd};
ghost use Rattle.dvd_commands.specs.Commands.{GoesOver};
ghost use Rattle.dvd_commands.specs.Opening.{IsOpened};
ghost use Rattle.dvd_commands.specs.Info.{IsAsked, IsControlDone, info_units};
ghost use Rattle.dvd_commands.specs.Performed.{BesideAnyReport, IsPerformed};
ghost use Rattle.dvd_commands.specs.Inner.Performing.{AnswersNothing, GivesFormat};

use crate::captured::fetch_block;
use crate::format::format_lines;
use crate::opening::{open_listed, worded_initial};
use crate::refusal::Begun;
use crate::start::Start;
use dvd_capture::{Form, Work};
use dvd_control::PhysicalFormat;
use dvd_layout::{BlockPlan, Content, lead_in_block};
use dvd_loop::{AfterLast, LoopEnd, Processed, UnitCommand, UnitKind, run_units};
use dvd_ports::{NullSink, Sink, Source, write_whole};
use dvd_read::read_block;
use dvd_words::{Command, Settings};

// The blocks of the lead-in after its Initial Zone, up to the last of control data: 2 + 30 + 192. The 32 of Buffer Zone
// 2 come after these, and can't answer.
const BLOCKS_AFTER_INITIAL: u32 = 224;

/// The blocks of the lead-in up to the last of control data, and the memory of one block. By `fits` their number has 32
/// bits: `most_initial`, 12,031, is the longest Initial Zone that a layout may have.
#[derive(Drop)]
struct Info<'a> {
    initial: u32,
    form: Form,
    work: &'a mut Work,
    ghost fits: { initial ≤ most_initial },
}

// The clauses of these methods are in the trait: together they do what `info_units` says. `key` is what these units
// depend on; no method changes it. `ready` and `left` say nothing, since a block doesn't depend on those before, and
// the caller needs nothing afterwards. It is no `PlainCommand`, since the run has an end of its own where no block
// answers. `Processed` is the kind of a unit, or how the loop ends in it. The trait has no default bodies, so `open`
// and `close`, which have nothing to write, are there too.
impl<'a, S: Source, K: Sink, E: Sink> UnitCommand<S, K, E> for Info<'a> {
    ghost Key = { ℕ × CaptureForm };

    ghost key = { λ i. (i.initial, i.form) };

    ghost units = { λ key. info_units key.0 key.1 };

    ghost ready = { λ _ _. Unit {0} };

    ghost left = { λ _ _. Unit {0} };

    fn count(&self) -> u32 {
        self.initial + BLOCKS_AFTER_INITIAL
    }

    // The units run out only where none answered: one that answers ends the run.
    fn after_last(&self) -> AfterLast {
        AfterLast::NoControl
    }

    fn open(&self, _out: &mut K, _report: &mut E) -> Result<(), LoopEnd> {
        Ok(())
    }

    // Of the plan only the lead-in is needed, whose entries follow from the length of the Initial Zone alone.
    fn process(&mut self, k: u32, src: &mut S, out: &mut K, _report: &mut E) -> Processed {
        let entry = lead_in_block(self.initial, k);
        fetch_block(src, k, self.form, self.work)?;
        ask_block(&entry, self.work, out)
    }

    fn close(&self, _out: &mut K, _report: &mut E) -> Result<(), LoopEnd> {
        Ok(())
    }
}

/// Seeks the first control block that answers, and writes the lines of its physical format. What comes after that block
/// isn't read. Of the settings only `initial` and `form` count. It is public for callers with buffers of their own, of
/// which nothing is promised afterwards. What the work held before doesn't matter. `ends` says which ends a caller has
/// to expect.
pub fn info_loop<S: Source, K: Sink>(
    settings: &Settings,
    work: &mut Work,
    src: &mut S,
    out: &mut K,
) -> LoopEnd
    requires { settings.now.initial ≤ most_initial }
    ensures follows { (report : Seen) → HasEnded (IsOutcome (info_units settings.now.initial settings.now.form))
        (streams (S.seen src.old) (K.seen out.old) report) (streams (S.seen src.new) (K.seen out.new) report) result }
    ensures ends { IsSoughtEnd settings.now.form (settings.now.initial + 224) result }
{
    let mut info = Info {
        initial: settings.initial,
        form: settings.form,
        work,
    };
    // The loop wants a report, but this command writes none. `run_owned` would do as well, since `left` says nothing.
    run_units(&mut info, src, out, &mut NullSink::new())
}

/// The command with its buffers, or why it doesn't begin.
/// Memory is taken before the header of a listed capture is read, so a command that doesn't begin has read nothing.
pub(crate) fn run_info<S: Source, K: Sink>(start: &Start<'_>, src: &mut S, out: &mut K) -> Begun
    requires { start.now.settings.now.command ≡ Command.Info }
    ensures performed { BesideAnyReport (IsPerformed start.now.settings.now) (S.seen src.old) (K.seen out.old) (S.seen src.new) (K.seen out.new) result }
    ensures untouched { IsErr result → (src.new ≡ src.old) × (out.new ≡ out.old) }
{
    let settings = start.settings;
    // Of a layout only the Initial Zone counts here, so no other rule is tried. This is tried before memory is taken.
    let worded = worded_initial(settings)?;
    let mut work = Work::new(start.alloc)?;
    match worded {
        // The length is that of the settings, which the loop reads itself.
        Some(_) => Ok(info_loop(settings, &mut work, src, out)),
        None => Ok(info_listed(settings, &mut work, src, out)),
    }
}

// Likewise for a listed capture: its header, and then its blocks.
// The header states the length of the Initial Zone, on which the places of the control blocks depend. A run that ends
// in the header did begin, so that is an end and no refusal.
fn info_listed<S: Source, K: Sink>(
    settings: &Settings,
    work: &mut Work,
    src: &mut S,
    out: &mut K,
) -> LoopEnd
    requires { settings.now.command ≡ Command.Info }
    ensures { (report : Seen) → HasEnded (IsOpened GoesOver settings.now)
        (streams (S.seen src.old) (K.seen out.old) report) (streams (S.seen src.new) (K.seen out.new) report) result }
{
    match open_listed(settings, src) {
        Ok(stated) => info_loop(&stated.settings, work, src, out),
        Err(end) => end,
    }
}

// Seeks the physical format in a block of control data. Any other block is passed over, undecoded. The contents are
// listed by name, so that a new one has to be thought of.
fn ask_block<K: Sink>(entry: &BlockPlan, work: &mut Work, out: &mut K) -> Processed
    requires numbers { HasNumbers entry.now }
    requires stage { HasBlock (stage_of work.old) }
    ensures { (source report : Seen) → AreDone (IsAsked entry.now.content entry.now (rows_of work.old) (marks_of_work work.old))
        (streams source (K.seen out.old) report) (streams source (K.seen out.new) report) result }
{
    match entry.content {
        Content::Control => ask_control(entry, work, out),
        Content::Zero | Content::Reference | Content::Image(_) => Ok(UnitKind::Good),
    }
}

// A block without a physical format is Good, not Bad: nothing of it is missing in the output, and the next is asked.
fn ask_control<K: Sink>(entry: &BlockPlan, work: &mut Work, out: &mut K) -> Processed
    requires numbers { HasNumbers entry.now }
    requires stage { HasBlock (stage_of work.old) }
    ensures { (source report : Seen) → AreDone (IsControlDone entry.now (rows_of work.old) (marks_of_work work.old))
        (streams source (K.seen out.old) report) (streams source (K.seen out.new) report) result }
{
    let Some(format) = format_in(entry, work) else {
        return Ok(UnitKind::Good);
    };
    // One write, so that the output has a prefix of these lines after a fault. `?` makes an end of the loop of a write
    // that failed.
    write_whole(out, format_lines(&format).as_slice())?;
    Ok(UnitKind::Last)
}

// The physical format in the first sector of a block, if the block is right and the sector is one.
// A block or a sector that is refused gives none, and the next one is asked: all control blocks have the same format,
// so why one has none doesn't matter. One thread reads it, since `info` has no option for workers.
fn format_in(entry: &BlockPlan, work: &mut Work) -> Option<PhysicalFormat>
    requires numbers { HasNumbers entry.now }
    requires stage { HasBlock (stage_of work.old) }
    ensures format { IfSome result (λ format. GivesFormat entry.now (rows_of work.old) (marks_of_work work.old) (fields_of format)) }
    ensures none { result ≡ None → AnswersNothing entry.now (rows_of work.old) (marks_of_work work.old) }
{
    read_block(work, entry).ok()?;
    // A copy, since a format is read of an array, and the work lends a slice.
    let mut sector = [0; 2048];
    sector.copy_from_slice(work.sector(0));
    PhysicalFormat::from_bytes(&sector).ok()
}
