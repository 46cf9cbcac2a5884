//! The command `assemble`: scattered recording frames put in order.
//!
//! The home of a frame is the block, and the place in it, that the frame's own first row names. A frame without a home
//! is a stray, and is joined to nothing. The shelf has what is known of all blocks of the Data Zone, since the last
//! frame may belong to the first block. So blocks are written only when all frames have come. Clauses `causes` say by
//! the counts of a stream that the call that failed, where one did, was its last. `unseen` says of a block that no
//! place of it is known.
ghost use Rattle.std.specs.Prelude.{◌≡◌, ◌+◌, ◌<◌, ◌≤◌, ℕ, length, replicate, IsErr, IfErr, OnOk};
ghost use Rattle.std.specs.Option.{option_map_or};
ghost use Rattle.dvd_assemble.specs.Assembled.{settled};
ghost use Rattle.dvd_assemble.specs.Frames.{CapturesFrame, frame_size};
ghost use Rattle.dvd_assemble.specs.Home.{home};
ghost use Rattle.dvd_assemble.specs.Shelves.{tables_of};
ghost use Rattle.dvd_assemble.specs.Works.{captured};
ghost use Rattle.dvd_capture.specs.Captured.{HasSize};
ghost use Rattle.dvd_capture.specs.declared.form.Form.{Form as CaptureForm};
ghost use Rattle.dvd_layout.specs.Plan.{plan_of};
ghost use Rattle.dvd_layout.specs.declared.layout.Layout.{Layout as DiskLayout};
ghost use Rattle.dvd_layout.specs.declared.layout.Zones.TheVariants.{DataOnly};
ghost use Rattle.dvd_loop.specs.Machine.{IsOutcome};
ghost use Rattle.dvd_loop.specs.Streams.{streams, HasEnded};
ghost use Rattle.dvd_loop.specs.UnitCommand.{EndsShort, HasReadCause};
ghost use Rattle.dvd_merge.specs.Join.{unseen};
ghost use Rattle.dvd_ports.specs.Whole.{IsWritten};
ghost use Rattle.dvd_commands.specs.Assemble.{IsAssembleEnd, IsShelfOf, assemble_units, placed_line, text_of};
ghost use Rattle.dvd_commands.specs.Performed.{IsPerformedByWords};
ghost use Rattle.dvd_words.specs.Settings.{IsLayoutOf};

use crate::captured::fetched;
use crate::refusal::Begun;
use crate::start::Start;
use crate::unit::line_reported;
use dvd_assemble::{FrameWork, Shelf, fetch_frame};
use dvd_capture::Form;
use dvd_layout::{Layout, Zones};
use dvd_loop::{AfterLast, LoopEnd, Processed, UnitCommand, UnitKind, run_units};
use dvd_ports::{Sink, Source, WriteFault, write_whole};
use dvd_report::Line;
use dvd_words::{Command, Settings};

/// How many frames there are, how many of those that came have a home, and the memory of one frame and of all blocks.
/// `sized`: the form is plain or marked. A single frame has no listed form. The layout is a copy, since it is a few
/// numbers; the buffers are borrowed, since a caller may have its own.
#[derive(Drop)]
struct Assembling<'a> {
    layout: Layout,
    form: Form,
    frames: u32,
    placed: u32,
    shelf: &'a mut Shelf,
    frame: &'a mut FrameWork,

    ghost sized: { HasSize form },
}

// The clauses of these methods are in the trait: together they do what `assemble_units` says. `key` is what these units
// depend on; no method changes it. `ready` is what holds between frames: the shelf and the count are those of the
// frames before. `left` says what the end leaves to the caller, here nothing. It is no `PlainCommand`, since all is
// written at the close. `Processed` is the kind of a unit, or how the loop ends in it. The trait has no default bodies,
// so `open`, which has nothing to write, is there too.
impl<'a, S: Source, K: Sink, E: Sink> UnitCommand<S, K, E> for Assembling<'a> {
    ghost Key = { DiskLayout × CaptureForm × ℕ };

    ghost key = { λ a. (a.layout, a.form, a.frames) };

    ghost units = { λ key. assemble_units key.0 key.1 key.2 };

    ghost ready = { λ a before. IsShelfOf a.layout a.form before (tables_of a.shelf.now) a.placed };

    ghost left = { λ _ _. Unit {0} };

    fn count(&self) -> u32 {
        self.frames
    }

    // The loop then requests one more byte: more frames than were counted are an end of their own (`Long`).
    fn after_last(&self) -> AfterLast {
        AfterLast::EndOfInput
    }

    fn open(&self, _out: &mut K, _report: &mut E) -> Result<(), LoopEnd> {
        Ok(())
    }

    // Nothing is written yet: a frame of any block may come last. A stray is Good too: only the closing counts name it.
    // `placed` has room in 32 bits, since by `ready` it is at most the number of frames before.
    fn process(&mut self, k: u32, src: &mut S, _out: &mut K, _report: &mut E) -> Processed {
        read_frame(src, k, self.form, self.frame)?;
        self.placed += settle_frame(&self.layout, self.frame, self.shelf);
        Ok(UnitKind::Good)
    }

    // Before one more byte is requested, so that the line is true of what was written even if the input is too long.
    // The blocks come first: after a failed write no line says that frames were placed. `?` makes an end of the loop of
    // a write that failed, and `line_reported` one of a line that failed.
    fn close(&self, out: &mut K, report: &mut E) -> Result<(), LoopEnd> {
        write_blocks(self.shelf, out)?;
        // No more are placed than there are frames. But the trait lets `close` be called at any time, so the difference
        // has to have a value always.
        let line = placed_line(self.placed, self.frames.saturating_sub(self.placed));
        line_reported(write_whole(report, line.as_slice()))
    }
}

/// Puts the recording frames that the settings count in order. The shelf has the data blocks of the layout that the
/// settings choose, and nothing is known of any of their bytes yet. It is public for callers with buffers of their own,
/// of which nothing is promised afterwards. `IsLayoutOf`: the layout is the one that the settings ask for, made once by
/// the caller; `HasSize`: the form is plain or marked. What the frame held before doesn't matter. `ends` says which
/// ends a caller has to expect.
pub fn assemble_loop<S: Source, K: Sink, E: Sink>(
    settings: &Settings,
    layout: &Layout,
    shelf: &mut Shelf,
    frame: &mut FrameWork,
    src: &mut S,
    out: &mut K,
    report: &mut E,
) -> LoopEnd
    requires layout { IsLayoutOf settings.now layout.now }
    requires form { HasSize settings.now.form }
    requires unseen { tables_of shelf.old ≡ replicate (length (plan_of layout.now DataOnly)) unseen }
    ensures follows { HasEnded (IsOutcome (assemble_units layout.now settings.now.form settings.now.frames))
        (streams (S.seen src.old) (K.seen out.old) (E.seen report.old))
        (streams (S.seen src.new) (K.seen out.new) (E.seen report.new)) result }
    ensures ends { IsAssembleEnd settings.now.frames result }
{
    let mut assembling = Assembling {
        layout: *layout,
        form: settings.form,
        frames: settings.frames,
        placed: 0,
        shelf,
        frame,
    };
    // `run_owned` would do as well, since `left` says nothing.
    run_units(&mut assembling, src, out, report)
}

/// The command with its buffers, or why it doesn't begin. The layout is tried before memory is taken: a broken rule is
/// what a user can put right.
pub(crate) fn run_assemble<S: Source, K: Sink, E: Sink>(
    start: &Start<'_>,
    src: &mut S,
    out: &mut K,
    report: &mut E,
) -> Begun
    requires command { start.now.settings.now.command ≡ Command.Assemble }
    requires form { HasSize start.now.settings.now.form }
    requires few { start.now.settings.now.sectors + start.now.settings.now.sectors1 ≤ 16384 }
    ensures performed { IsPerformedByWords start.now.settings.now
        (streams (S.seen src.old) (K.seen out.old) (E.seen report.old))
        (streams (S.seen src.new) (K.seen out.new) (E.seen report.new)) result }
    ensures untouched { IsErr result → (src.new ≡ src.old) × (out.new ≡ out.old) × (report.new ≡ report.old) }
{
    let settings = start.settings;
    let layout = settings.layout()?;
    // At most 1,024 blocks, by `few`, so 16 bits hold their number. `few` bounds the memory, of 75,712 bytes a block:
    // two for each place of 208 rows of 182 bytes. A disk of 1,024 blocks is a choice, which the arguments keep. A
    // frame is small, and has its place on the stack.
    let mut shelf = Shelf::new(start.alloc, layout.blocks(Zones::DataOnly) as u16)?;
    let mut frame = FrameWork::new();
    Ok(assemble_loop(settings, &layout, &mut shelf, &mut frame, src, out, report))
}

// Reads frame `k`, or answers how the loop ends within it.
// A frame that isn't whole leaves the one before in the buffer, and the loop ends. Plain and marked frames break no
// rule, so `BadMarks` doesn't come.
fn read_frame<S: Source>(
    src: &mut S,
    k: u32,
    form: Form,
    frame: &mut FrameWork,
) -> Result<(), LoopEnd>
    requires { HasSize form }
    ensures full { OnOk result (CapturesFrame form (S.seen src.old).bytes (S.seen src.new).bytes (captured frame.new)) }
    ensures short { IfErr result (EndsShort k (frame_size form) (S.seen src.old) (S.seen src.new)) }
    ensures causes { HasReadCause result (S.seen src.old) (S.seen src.new) }
{
    fetched(fetch_frame(src, form, frame), k)
}

// Joins a frame to its home. Answers 1, or 0 for a stray, which changes nothing: a number, since the caller adds it up.
// Which home it was, nobody asks. The clause without a name says that the shelf has a place for each data block.
fn settle_frame(layout: &Layout, frame: &FrameWork, shelf: &mut Shelf) -> u32
    requires { length (tables_of shelf.old) ≡ length (plan_of layout.now DataOnly) }
    ensures count { result ≡ option_map_or (λ n. 1) (home layout.now (captured frame.now)) 0 }
    ensures settled { tables_of shelf.new ≡ settled layout.now (tables_of shelf.old) (captured frame.now) }
{
    match shelf.settle(layout, frame) {
        Some(_) => 1,
        None => 0,
    }
}

// In the order of the plan, whatever the order of the frames was, and marked where no frame gave a row. Each block is
// written, even one without any frame, so that the output is a whole capture. The plan is the shelf's own order, so no
// layout is needed.
fn write_blocks<K: Sink>(shelf: &Shelf, out: &mut K) -> Result<(), WriteFault>
    ensures { IsWritten (text_of (tables_of shelf.now)) (K.seen out.old) (K.seen out.new) result }
{
    for k in 0..shelf.blocks() {
        shelf.merged(k).write_marked(out)?;
    }
    Ok(())
}

// The line goes to the report, since the output is a capture and nothing else. Its two texts, two numbers of at most 20
// digits and a line feed are far below the 256 bytes of a `Line`. `unfolding` is for the checker: it opens the
// definition that the clause names.
#[tactic(auto, unfolding(crate::specs::Assemble::placed_line))]
fn placed_line(placed: u32, strays: u32) -> Line
    ensures { result ≡ placed_line placed strays }
{
    let mut line = Line::new();
    line.put_named(b"placed ", u64::from(placed));
    line.put_named(b" strays ", u64::from(strays));
    line.put(b"\n");
    line
}
