//! The command `merge`: one stream of captured blocks, joined of several captures of one disk.
//! The input has block 0 of each capture, then block 1 of each, and so on, so the memory of one block is enough. Bytes
//! are joined place by place, whatever they hold: of the plan only the number of blocks counts, and nothing is decoded.
//! Clauses `causes` say by the counts of a stream that the call that failed, where one did, was its last. No report is
//! written, so clauses are of any (`report`), which stays as it is.
ghost use Rattle.std.specs.Prelude.{◌≡◌, ◌*◌, ◌<◌, ◌≤◌, ℕ, length, IsErr, IfErr, OnOk, refl};
ghost use Rattle.dvd_capture.specs.Captured.{block_size, Captures, HasSize};
ghost use Rattle.dvd_capture.specs.Rule.{HasBlock};
ghost use Rattle.dvd_capture.specs.Works.{rows_of, marks_of_work, stage_of};
ghost use Rattle.dvd_capture.specs.declared.form.Form.{Form as CaptureForm};
ghost use Rattle.dvd_layout.specs.Plan.{plan_of};
ghost use Rattle.dvd_layout.specs.declared.layout.Layout.{Layout as DiskLayout};
ghost use Rattle.dvd_layout.specs.declared.layout.Zones.{Zones as WhichZones};
ghost use Rattle.dvd_loop.specs.Laws.{IsPlainEnd};
ghost use Rattle.dvd_loop.specs.Machine.{IsOutcome};
ghost use Rattle.dvd_loop.specs.Streams.{streams, HasEnded};
ghost use Rattle.dvd_loop.specs.UnitCommand.{EndsShort, HasReadCause};
ghost use Rattle.dvd_merge.specs.Merges.{table_of};
ghost use Rattle.dvd_ports.specs.Seen.{Seen};
ghost use Rattle.dvd_commands.specs.Merge.{merge_units};
ghost use Rattle.dvd_commands.specs.Performed.{BesideAnyReport, IsPerformedByWords};
ghost use Rattle.dvd_commands.specs.Inner.Performing.{AreTaken, EndsInCapture};
ghost use Rattle.dvd_words.specs.Settings.{IsLayoutOf};

use crate::blocks::Blocks;
use crate::refusal::Begun;
use crate::start::Start;
use crate::unit::unit_written;
use dvd_capture::{FetchAnswer, Form, Work, fetch};
use dvd_layout::Layout;
use dvd_loop::{LoopEnd, PlainCommand, Processed, UnitKind, run_plain};
use dvd_merge::Merge;
use dvd_ports::{NullSink, Sink, Source};
use dvd_words::{Command, Settings};

/// Its blocks, how many captures there are of each, and the memory of one capture and of the join. `sized`: the form is
/// plain or marked, in which each block has the same size. A listed capture would state a layout for each capture.
/// `few` keeps the bytes of a unit within 32 bits; the option allows 2 to 16 captures, and nothing rests on the 2.
#[derive(Drop)]
struct Merging<'a> {
    blocks: Blocks,
    form: Form,
    captures: u32,
    merge: &'a mut Merge,
    work: &'a mut Work,

    ghost few: { captures ≤ 16 },
    ghost sized: { HasSize form },
}

// The clauses of these methods are in the trait: for block `k` they do what `merge_units` says, and nothing opens or
// closes the units (`alone`). `key` is what the units depend on; no method changes it. A `PlainCommand` has units that
// don't depend on each other; `Processed` is the kind of one, or how the loop ends in it.
impl<'a, S: Source, K: Sink, E: Sink> PlainCommand<S, K, E> for Merging<'a> {
    ghost Key = { DiskLayout × WhichZones × CaptureForm × ℕ };

    ghost key = { λ m. (m.blocks.layout, m.blocks.zones, m.form, m.captures) };

    ghost units = { λ key. merge_units key.0 key.1 key.2 key.3 };

    ghost alone = { λ _. record { opens = refl; closes = λ _. refl; after_last = refl } };

    fn count(&self) -> u32 {
        self.blocks.count()
    }

    // The join goes out in the marked form, since a place where captures differ, or which none has, is marked. Every
    // block is Good: nothing judges it here.
    fn process(&mut self, k: u32, src: &mut S, out: &mut K, _report: &mut E) -> Processed {
        take_captures(src, k, self.form, self.captures, self.merge, self.work)?;
        unit_written(self.merge.write_marked(out), UnitKind::Good)
    }
}

/// Joins the captures of each block of the plan of the layout and the zones that the settings choose: a captured block
/// of each of them, one after the other. It is public for callers with buffers of their own, of which nothing is
/// promised afterwards. `IsLayoutOf`: the layout is the one that the settings ask for, made once by the caller;
/// `HasSize`: the form is plain or marked. What the buffers held before doesn't matter. `ends` says which ends a caller
/// has to expect.
pub fn merge_loop<S: Source, K: Sink>(
    settings: &Settings,
    layout: &Layout,
    merge: &mut Merge,
    work: &mut Work,
    src: &mut S,
    out: &mut K,
) -> LoopEnd
    requires layout { IsLayoutOf settings.now layout.now }
    requires form { HasSize settings.now.form }
    requires captures { settings.now.captures ≤ 16 }
    ensures follows { (report : Seen) → HasEnded (IsOutcome (merge_units layout.now settings.now.zones settings.now.form settings.now.captures))
        (streams (S.seen src.old) (K.seen out.old) report) (streams (S.seen src.new) (K.seen out.new) report) result }
    ensures ends { IsPlainEnd (length (plan_of layout.now settings.now.zones)) result }
{
    let merging = Merging {
        blocks: Blocks {
            layout: *layout,
            zones: settings.zones,
        },
        form: settings.form,
        captures: settings.captures,
        merge,
        work,
    };
    // The loop wants a report, but this command writes none.
    run_plain(merging, src, out, &mut NullSink::new())
}

/// The command with its buffers, or why it doesn't begin. The layout is tried before memory is taken: a broken rule is
/// what a user can put right.
pub(crate) fn run_merge<S: Source, K: Sink>(start: &Start<'_>, src: &mut S, out: &mut K) -> Begun
    requires command { start.now.settings.now.command ≡ Command.Merge }
    requires form { HasSize start.now.settings.now.form }
    requires captures { start.now.settings.now.captures ≤ 16 }
    ensures performed { BesideAnyReport (IsPerformedByWords start.now.settings.now) (S.seen src.old) (K.seen out.old) (S.seen src.new) (K.seen out.new) result }
    ensures untouched { IsErr result → (src.new ≡ src.old) × (out.new ≡ out.old) }
{
    let layout = start.settings.layout()?;
    let mut merge = Merge::new(start.alloc)?;
    let mut work = Work::new(start.alloc)?;
    Ok(merge_loop(start.settings, &layout, &mut merge, &mut work, src, out))
}

// Joins the captures of block `k`, or answers how the loop ends within them. The join doesn't depend on earlier blocks:
// it is cleared first. Each capture is joined before the next is read, so that one buffer is enough. After an error it
// has some of the captures, and the loop ends before it is written.
fn take_captures<S: Source>(
    src: &mut S,
    k: u32,
    form: Form,
    captures: u32,
    merge: &mut Merge,
    work: &mut Work,
) -> Result<(), LoopEnd>
    requires form { HasSize form }
    requires captures { captures ≤ 16 }
    ensures taken { OnOk result (AreTaken captures form (S.seen src.old).bytes (S.seen src.new).bytes (table_of merge.new)) }
    ensures short { IfErr result (EndsShort k (captures * block_size form) (S.seen src.old) (S.seen src.new)) }
    ensures causes { HasReadCause result (S.seen src.old) (S.seen src.new) }
{
    merge.clear();
    for c in 0..captures {
        fetch_capture(src, k, c, form, work)?;
        merge.take(work);
    }
    Ok(())
}

// Reads capture `c` of block `k`, or answers how the loop ends within it.
// A unit is the captures of one block, so an end counts the bytes of those before it too, which `fetch_block` of
// `captured` doesn't.
fn fetch_capture<S: Source>(
    src: &mut S,
    k: u32,
    c: u32,
    form: Form,
    work: &mut Work,
) -> Result<(), LoopEnd>
    requires form { HasSize form }
    requires capture { c < 16 }
    ensures full { OnOk result (Captures form (S.seen src.old).bytes (S.seen src.new).bytes (rows_of work.new) (marks_of_work work.new)) }
    ensures stage { OnOk result (HasBlock (stage_of work.new)) }
    ensures short { IfErr result (EndsInCapture k (c * block_size form) (block_size form) (S.seen src.old) (S.seen src.new)) }
    ensures causes { HasReadCause result (S.seen src.old) (S.seen src.new) }
{
    // The bytes of the captures before this one: at most 15 blocks of 42,640, which have room in 32 bits. So many has a
    // marked block: 208 rows of 182 bytes, and 23 bytes of marks for each.
    let held = c * form.size() as u32;
    match fetch(src, form, work) {
        FetchAnswer::Full => Ok(()),
        FetchAnswer::End => Err(LoopEnd::Short {
            unit: k,
            bytes: held,
        }),
        FetchAnswer::Short { bytes } => Err(LoopEnd::Short {
            unit: k,
            bytes: held + bytes,
        }),
        FetchAnswer::ReadFault => Err(LoopEnd::ReadFault),
        // Plain and marked blocks break no rule, so this doesn't come: the answer is that of listed blocks too.
        FetchAnswer::BadMarks { at } => Err(LoopEnd::BadMarks { block: k, at }),
    }
}
