//! Captured blocks, as the commands that read a stream of them use them.
//! `Work` is the memory of one: its received rows and marks, what two passes made of them, and its sixteen sectors. Its
//! stage says what of these there is: `HasBlock`, a block was received; `HasAnswers`, its rows were decoded too.
//! `HasNumbers` says that the numbers of an entry's sixteen sectors have 24 bits, as those of every plan have.
//! `AreDone` says which steps, writes and lines, are done for a unit; where a call fails, only a first part of them is.
//! Clauses `causes` say by the counts of a stream that the call that failed, where one did, was its last. Where a
//! stream isn't handed to a function, the clause is of any (`source`, `report`), which stays as it is.
ghost use Rattle.std.specs.Prelude.{◌≡◌, IfErr, OnOk};
ghost use Rattle.dvd_capture.specs.Captured.{Captures};
ghost use Rattle.dvd_capture.specs.Rule.{HasAnswers, HasBlock};
ghost use Rattle.dvd_capture.specs.Works.{rows_of, marks_of_work, sectors_of, stage_of};
ghost use Rattle.dvd_loop.specs.Streams.{streams};
ghost use Rattle.dvd_layout.specs.Place.{HasNumbers, image_sectors};
ghost use Rattle.dvd_loop.specs.UnitCommand.{AreDone, HasReadCause};
ghost use Rattle.dvd_ports.specs.Seen.{Seen};
ghost use Rattle.dvd_ports.specs.Whole.{IsWritten};
ghost use Rattle.dvd_commands.specs.Inner.Performing.{EndsCaptured, IsRefusedFor, WritesAlone, fetched, sectors_out};

use crate::unit::{line_reported, unit_written};
use dvd_capture::{FetchAnswer, Form, Work, fetch};
use dvd_layout::{BlockPlan, Layout};
use dvd_loop::{LoopEnd, Processed, UnitKind};
use dvd_ports::{Sink, Source, WriteFault, write_whole};
use dvd_read::{Cause, salvage};
use dvd_report::write_cause;

/// Block `k` of the stream, with its entry in the plan of the layout. One value, since they go from call to call
/// together: `k` names the block in lines, and the layout says how many of its sectors belong to the image.
#[derive(Drop)]
pub(crate) struct Planned<'a> {
    pub layout: &'a Layout,
    pub k: u32,
    pub entry: &'a BlockPlan,
}

/// How the loop goes on where this was answered of unit `k`, a block or a frame: those who read it know no loop, so
/// their answers become ends here, which name the unit. `End` is an input that ended between two units, and so `Short`
/// with 0 bytes.
pub(crate) fn fetched(answer: FetchAnswer, k: u32) -> Result<(), LoopEnd>
    ensures { result ≡ fetched answer k }
{
    match answer {
        FetchAnswer::Full => Ok(()),
        FetchAnswer::End => Err(LoopEnd::Short { unit: k, bytes: 0 }),
        FetchAnswer::Short { bytes } => Err(LoopEnd::Short { unit: k, bytes }),
        FetchAnswer::ReadFault => Err(LoopEnd::ReadFault),
        FetchAnswer::BadMarks { at } => Err(LoopEnd::BadMarks { block: k, at }),
    }
}

/// Reads captured block `k`, or answers how the loop ends within it. Where the block isn't whole, the work has none.
/// Marks break a rule in the listed form alone, at the byte of the block where the field that breaks it begins.
pub(crate) fn fetch_block<S: Source>(
    src: &mut S,
    k: u32,
    form: Form,
    work: &mut Work,
) -> Result<(), LoopEnd>
    ensures full { OnOk result (Captures form (S.seen src.old).bytes (S.seen src.new).bytes (rows_of work.new) (marks_of_work work.new)) }
    ensures stage { OnOk result (HasBlock (stage_of work.new)) }
    ensures ended { IfErr result (EndsCaptured form k (S.seen src.old) (S.seen src.new)) }
    ensures causes { HasReadCause result (S.seen src.old) (S.seen src.new) }
{
    fetched(fetch(src, form, work), k)
}

/// Reports the line of a block that is refused for this cause, and writes its image sectors: those that are salvaged,
/// and zeros for the others.
/// It salvages first, since the line says how many frames are saved. The line goes out before any sector, so that
/// whoever follows the output knows of the zeros before they come. The sectors of the work are overwritten; its
/// received rows and marks stay. `recover` and `deep` share it: after the rounds of `deep` too, what is salvaged comes
/// from the two passes, whose answers are still in the work.
pub(crate) fn refuse_block<K: Sink, E: Sink>(
    block: &Planned<'_>,
    cause: &Cause,
    work: &mut Work,
    out: &mut K,
    report: &mut E,
) -> Processed
    requires numbers { HasNumbers block.now.entry.now }
    requires stage { HasAnswers (stage_of work.old) }
    ensures { (source : Seen) → AreDone (IsRefusedFor block.now.layout.now block.now.k block.now.entry.now (rows_of work.old) (marks_of_work work.old) cause.now)
        (streams source (K.seen out.old) (E.seen report.old)) (streams source (K.seen out.new) (E.seen report.new)) result }
{
    let saved = salvage(work, block.entry);
    line_reported(write_cause(u64::from(block.k), block.entry, cause, saved, report))?;
    write_image(block, work, UnitKind::Bad, out)
}

/// Writes the image sectors of a block, which is then of this kind. The image's last block may have fewer than sixteen:
/// what fills that block up isn't written. They are the first sectors of a block, in the order of the image. The kind
/// comes from the caller, since a good block and a refused one are written alike.
pub(crate) fn write_image<K: Sink>(
    block: &Planned<'_>,
    work: &Work,
    kind: UnitKind,
    out: &mut K,
) -> Processed
    ensures { (source report : Seen) → AreDone (WritesAlone (sectors_out (image_sectors block.now.layout.now block.now.entry.now.content) (sectors_of work.now)) kind)
        (streams source (K.seen out.old) report) (streams source (K.seen out.new) report) result }
{
    let count = block.layout.image_sectors(block.entry.content);
    unit_written(write_each(work.first_sectors(count), out), kind)
}

/// Writes the sectors in these bytes, each by a `write_whole` of its own. After a fault a prefix of the bytes was
/// written. Callers have whole sectors; what is left after these would go out as a shorter piece. `IsWritten` is of all
/// bytes together, so it holds for pieces of any size, and for one alone: a sector for each is a choice.
pub(crate) fn write_each<K: Sink>(sectors: &[u8], out: &mut K) -> Result<(), WriteFault>
    ensures { IsWritten sectors.now (K.seen out.old) (K.seen out.new) result }
{
    for sector in sectors.chunks(2048) {
        write_whole(out, sector)?;
    }
    Ok(())
}
