//! The command `convert`: captured blocks in the listed form, after the header that states their layout.
//! Nothing is decoded, and bytes and marks stay: only the marks are written otherwise, as runs. So a block can't be
//! refused, and of the plan only the number of blocks counts. It writes no report, so its clauses are of any
//! (`report`), which stays as it is.
ghost use Rattle.std.specs.Prelude.{◌≡◌, length, IsErr};
ghost use Rattle.dvd_capture.specs.Captured.{HasSize};
ghost use Rattle.dvd_capture.specs.Header.{header_bytes};
ghost use Rattle.dvd_capture.specs.declared.form.Form.{Form as CaptureForm};
ghost use Rattle.dvd_capture.specs.declared.header.Header.{Header as CaptureHeader};
ghost use Rattle.dvd_layout.specs.Plan.{plan_of};
ghost use Rattle.dvd_layout.specs.declared.layout.Layout.{Layout as DiskLayout};
ghost use Rattle.dvd_layout.specs.declared.layout.Zones.{Zones as WhichZones};
ghost use Rattle.dvd_loop.specs.Laws.{IsPlainEnd};
ghost use Rattle.dvd_loop.specs.Machine.{IsOutcome};
ghost use Rattle.dvd_loop.specs.Streams.{streams, HasEnded};
ghost use Rattle.dvd_ports.specs.Seen.{Seen};
ghost use Rattle.dvd_commands.specs.Convert.{Converts, convert_units};
ghost use Rattle.dvd_commands.specs.Performed.{BesideAnyReport, IsPerformedByWords};
ghost use Rattle.dvd_words.specs.Settings.{IsLayoutOf};

use crate::blocks::Blocks;
use crate::captured::fetch_block;
use crate::opening::header_of;
use crate::refusal::Begun;
use crate::start::Start;
use dvd_capture::{Form, Header, Work, write_listed};
use dvd_layout::Layout;
use dvd_loop::{AfterLast, LoopEnd, Processed, UnitCommand, UnitKind, run_units};
use dvd_ports::{NullSink, Sink, Source, write_whole};
use dvd_words::{Command, Settings};

/// Its blocks, in the number of the layout, the header that opens them, and the memory of one block.
#[derive(Drop)]
struct Converting<'a> {
    blocks: Blocks,
    form: Form,
    header: Header,
    work: &'a mut Work,
}

// The clauses of these methods are in the trait: together they do what `convert_units` says. `key` is what these units
// depend on, here the header too, with which the output opens; no method changes it. `ready` and `left` say nothing,
// since a block doesn't depend on those before, and the caller needs nothing afterwards. It is no `PlainCommand`, since
// a header opens the output. `Processed` is the kind of a unit, or how the loop ends in it. The trait has no default
// bodies, so `close`, which has nothing to write, is there too.
impl<'a, S: Source, K: Sink, E: Sink> UnitCommand<S, K, E> for Converting<'a> {
    ghost Key = { DiskLayout × WhichZones × CaptureForm × CaptureHeader };

    ghost key = { λ c. (c.blocks.layout, c.blocks.zones, c.form, c.header) };

    ghost units = { λ key. convert_units key.0 key.1 key.2 (header_bytes key.3) };

    ghost ready = { λ _ _. Unit {0} };

    ghost left = { λ _ _. Unit {0} };

    fn count(&self) -> u32 {
        self.blocks.count()
    }

    // The loop then requests one more byte: an input with more blocks than the layout is an end of its own (`Long`).
    fn after_last(&self) -> AfterLast {
        AfterLast::EndOfInput
    }

    // Before the first block is read, so that the output begins with its header however the run ends. A header of the
    // listed form has 32 bytes. `?` makes an end of the loop of a write that failed, here and below.
    fn open(&self, out: &mut K, _report: &mut E) -> Result<(), LoopEnd> {
        let mut bytes = [0; 32];
        self.header.to_bytes(&mut bytes);
        write_whole(out, &bytes)?;
        Ok(())
    }

    // A block is written only when it is whole. Plain and marked blocks break no rule, so that reading ends the run
    // only where the input ends or a read fails. Every block is Good, whatever its marks are: nothing judges it here.
    fn process(&mut self, k: u32, src: &mut S, out: &mut K, _report: &mut E) -> Processed {
        fetch_block(src, k, self.form, self.work)?;
        write_listed(self.work, out)?;
        Ok(UnitKind::Good)
    }

    fn close(&self, _out: &mut K, _report: &mut E) -> Result<(), LoopEnd> {
        Ok(())
    }
}

/// Writes the header of the layout and of the zones that the settings choose, and then each captured block as a listed
/// one. The input is in the plain or the marked form (`form`): a listed capture has nothing to convert. It is public
/// for callers with buffers of their own, of which nothing is promised afterwards. `IsLayoutOf`: the layout is the one
/// that the settings ask for, made once by the caller; `HasSize`: the form is plain or marked. What the work held
/// before doesn't matter. `ends` says which ends a caller has to expect.
pub fn convert_loop<S: Source, K: Sink>(
    settings: &Settings,
    layout: &Layout,
    work: &mut Work,
    src: &mut S,
    out: &mut K,
) -> LoopEnd
    requires layout { IsLayoutOf settings.now layout.now }
    requires form { HasSize settings.now.form }
    ensures follows { (report : Seen) → HasEnded (Converts settings.now layout.now)
        (streams (S.seen src.old) (K.seen out.old) report) (streams (S.seen src.new) (K.seen out.new) report) result }
    ensures ends { IsPlainEnd (length (plan_of layout.now settings.now.zones)) result }
{
    let mut converting = Converting {
        blocks: Blocks {
            layout: *layout,
            zones: settings.zones,
        },
        form: settings.form,
        header: header_of(layout, settings.zones),
        work,
    };
    // The loop wants a report, but this command writes none. `run_owned` would do as well, since `left` says nothing.
    run_units(&mut converting, src, out, &mut NullSink::new())
}

/// The command with its buffers, or why it doesn't begin. The layout is tried before memory is taken: a broken rule is
/// what a user can put right.
pub(crate) fn run_convert<S: Source, K: Sink>(start: &Start<'_>, src: &mut S, out: &mut K) -> Begun
    requires command { start.now.settings.now.command ≡ Command.Convert }
    requires form { HasSize start.now.settings.now.form }
    ensures performed { BesideAnyReport (IsPerformedByWords start.now.settings.now) (S.seen src.old) (K.seen out.old) (S.seen src.new) (K.seen out.new) result }
    ensures untouched { IsErr result → (src.new ≡ src.old) × (out.new ≡ out.old) }
{
    let layout = start.settings.layout()?;
    let mut work = Work::new(start.alloc)?;
    Ok(convert_loop(start.settings, &layout, &mut work, src, out))
}
