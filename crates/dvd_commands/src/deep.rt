//! The command `deep`: image sectors from a stream of captured blocks, by rounds where two passes refuse a block.
//! It goes over its blocks by `Imaging`, as `recover` does, and differs in how it gives one that holds image.
//!
//! A round is one step over the rows of a block and one over its columns; there are at most four. `Deep` is the memory
//! of rounds, and `Piece` that of the sixteen sectors which they give. `Work` is that of the captured block, whose
//! received rows and marks stay: so what two passes made of them is still there to be salvaged when rounds fail.
//! `Planned` is a block of the stream with its number, which lines name, and its entry in the plan of the layout. All
//! is done by one thread, since `deep` has no option for workers.
//!
//! In the clauses `IsLayoutOf` says that the layout is the one that the settings ask for, `HasBlock` that the work
//! holds a received block, and `HasNumbers` that the sector numbers of an entry have 24 bits. `AreDone` says which
//! steps, writes and lines, are done for a unit; where a call fails, only a first part of them is. The clause of a
//! function that isn't handed the source is of any (`source`), which stays as it is.
ghost use Rattle.std.specs.Prelude.{◌≡◌, length, Some, IfErr, IfOk, IsErr};
ghost use Rattle.dvd_ports.specs.Seen.{Seen};
ghost use Rattle.dvd_block.specs.Buffers.{piece_bytes};
ghost use Rattle.dvd_capture.specs.Rule.{HasBlock};
ghost use Rattle.dvd_capture.specs.Works.{rows_of, marks_of_work, stage_of};
ghost use Rattle.dvd_deep.specs.Reading.{deep_cause};
ghost use Rattle.dvd_layout.specs.Place.{HasNumbers};
ghost use Rattle.dvd_layout.specs.Plan.{plan_of};
ghost use Rattle.dvd_layout.specs.declared.layout.Layout.{Layout as DiskLayout};
ghost use Rattle.dvd_loop.specs.Machine.{IsOutcome};
ghost use Rattle.dvd_loop.specs.Streams.{streams, HasEnded};
ghost use Rattle.dvd_loop.specs.UnitCommand.{AreDone};
ghost use Rattle.dvd_loop.specs.declared.ends.UnitKind.TheVariants.{Good};
ghost use Rattle.dvd_decoding.specs.Reading.{block_cause};
ghost use Rattle.dvd_report.specs.Lines.{round_line};
ghost use Rattle.dvd_commands.specs.Captured.{IsCaptureEnd};
ghost use Rattle.dvd_commands.specs.Deep.{IsImageRead, deep_units};
ghost use Rattle.dvd_commands.specs.Performed.{IsPerformed};
ghost use Rattle.dvd_commands.specs.Inner.Performing.{IsFoundBy, ReportsAndWrites};
ghost use Rattle.dvd_words.specs.Settings.{IsLayoutOf};

use crate::blocks::Blocks;
use crate::captured::{Planned, refuse_block, write_each, write_image};
use crate::imaging::{GivesImage, Imaging};
use crate::opening::{layout_from_arguments, open_blocks};
use crate::refusal::Begun;
use crate::start::Start;
use crate::unit::{line_reported, unit_written};
use dvd_block::Piece;
use dvd_capture::Work;
use dvd_deep::Deep;
use dvd_layout::{BlockPlan, Layout};
use dvd_loop::{LoopEnd, Processed, UnitKind, run_plain};
use dvd_ports::{Sink, Source};
use dvd_read::{Cause, read_block};
use dvd_report::write_round;
use dvd_words::{Command, Settings};

/// The memory of the rounds of a block.
#[derive(Drop)]
struct Deepening<'a> {
    deep: &'a mut Deep,
    piece: &'a mut Piece,
}

// The clauses are in the trait.
impl<'a, K: Sink, E: Sink> GivesImage<K, E> for Deepening<'a> {
    ghost May = { IsImageRead };

    // Writes the sectors of a block, after the line of its round where two passes refused it. Or reports its cause, and
    // writes those that are salvaged and zeros for the others.
    fn give(&mut self, block: &Planned, work: &mut Work, out: &mut K, report: &mut E) -> Processed {
        let entry = block.entry;
        match read_block(work, entry) {
            // What was fixed isn't reported: a block that two passes determine has no line.
            Ok(_) => write_image(block, work, UnitKind::Good, out),
            // Rounds are for refused blocks alone: one that two passes determine is given as `recover` gives it.
            Err(cause) => match search_block(entry, cause, self.deep, work, self.piece) {
                // The image's last block may have fewer than sixteen sectors, the first of the piece: the rest isn't
                // written.
                Ok(round) => {
                    let count = block.layout.image_sectors(entry.content);
                    let sectors = &self.piece.bytes()[..2048 * count];
                    give_back(block.k, entry, round, sectors, out, report)
                }
                Err(cause) => refuse_block(block, &cause, work, out, report),
            },
        }
    }
}

/// Reads every block of the plan of the layout and the zones that the settings choose, by rounds where two passes
/// refuse it, and writes its image sectors. A line names each that is refused; zeros are written for its sectors that
/// aren't salvaged.
/// It is public for callers with buffers of their own. What these held before doesn't matter, and nothing is promised
/// of them afterwards. The layout is what the settings ask for, made once by the caller. `ends` says which ends a
/// caller has to expect.
pub fn deep_loop<S: Source, K: Sink, E: Sink>(
    settings: &Settings,
    layout: &Layout,
    deep: &mut Deep,
    piece: &mut Piece,
    work: &mut Work,
    src: &mut S,
    out: &mut K,
    report: &mut E,
) -> LoopEnd
    requires layout { IsLayoutOf settings.now layout.now }
    ensures follows { HasEnded (IsOutcome (deep_units layout.now settings.now.zones settings.now.form))
        (streams (S.seen src.old) (K.seen out.old) (E.seen report.old))
        (streams (S.seen src.new) (K.seen out.new) (E.seen report.new)) result }
    ensures ends { IsCaptureEnd settings.now.form (length (plan_of layout.now settings.now.zones)) result }
{
    let deepening = Imaging {
        blocks: Blocks {
            layout: *layout,
            zones: settings.zones,
        },
        form: settings.form,
        command: Deepening { deep, piece },
        work,
    };
    run_plain(deepening, src, out, report)
}

/// The command with its buffers, or why it doesn't begin.
/// Memory is taken before the header of a listed capture is read, so a command that doesn't begin has read nothing.
pub(crate) fn run_deep<S: Source, K: Sink, E: Sink>(
    start: &Start<'_>,
    src: &mut S,
    out: &mut K,
    report: &mut E,
) -> Begun
    requires { start.now.settings.now.command ≡ Command.Deep }
    ensures performed { IsPerformed start.now.settings.now
        (streams (S.seen src.old) (K.seen out.old) (E.seen report.old))
        (streams (S.seen src.new) (K.seen out.new) (E.seen report.new)) result }
    ensures untouched { IsErr result → (src.new ≡ src.old) × (out.new ≡ out.old) × (report.new ≡ report.old) }
{
    let settings = start.settings;
    // The layout is tried before memory is taken: a broken rule is what a user can put right.
    let worded = layout_from_arguments(settings)?;
    let mut deep = Deep::new(start.alloc)?;
    let mut piece = Piece::new(start.alloc)?;
    let mut work = Work::new(start.alloc)?;
    match open_blocks(settings, worded, src) {
        Ok(stated) => Ok(deep_loop(
            &stated.settings,
            &stated.layout,
            &mut deep,
            &mut piece,
            &mut work,
            src,
            out,
            report,
        )),
        // The run ended in the header of its input. It did begin, so this is an end and no refusal.
        Err(end) => Ok(end),
    }
}

// Searches by rounds for a block that was refused for this cause. Answers the round, 1 to 4, that gave it back with
// right frames, with its Main Data in the piece; or why it is still refused. The piece is apart from the sectors of the
// work, and `work` is only read, so that the two passes' answers stay for the salvage.
// Where rounds find nothing the cause of the two passes stays, as `recover` reports it. Where they find a block with a
// wrong frame, the cause is that of the frame. The piece has no sectors then.
fn search_block(
    entry: &BlockPlan,
    cause: Cause,
    deep: &mut Deep,
    work: &Work,
    piece: &mut Piece,
) -> Result<u8, Cause>
    requires numbers { HasNumbers entry.now }
    requires stage { HasBlock (stage_of work.now) }
    requires refused { block_cause (rows_of work.now) (marks_of_work work.now) entry.now ≡ Some cause }
    ensures found { (layout : DiskLayout) → IfOk result (IsFoundBy layout entry.now (rows_of work.now) (marks_of_work work.now) (piece_bytes piece.new)) }
    ensures refused { IfErr result (λ cause. deep_cause (rows_of work.now) (marks_of_work work.now) entry.now ≡ Some cause) }
{
    let Some(round) = deep.search(work) else {
        return Err(cause);
    };
    match deep.sectors(entry, piece) {
        Ok(()) => Ok(round),
        Err(cause) => Err(cause),
    }
}

// Reports the line of a block that a round gave back, and writes its image sectors.
// The line goes first, so that no sector of a refused block is written before it. The block is good: nothing is lost.
// It has a line although it is good, since `recover` would refuse it. The sectors are those of the piece
// that belong to the image, so no layout is needed here.
fn give_back<K: Sink, E: Sink>(
    k: u32,
    entry: &BlockPlan,
    round: u8,
    sectors: &[u8],
    out: &mut K,
    report: &mut E,
) -> Processed
    requires { HasNumbers entry.now }
    ensures { (source : Seen) → AreDone (ReportsAndWrites (round_line k entry.now round) sectors.now Good)
        (streams source (K.seen out.old) (E.seen report.old)) (streams source (K.seen out.new) (E.seen report.new)) result }
{
    line_reported(write_round(u64::from(k), entry, round, report))?;
    unit_written(write_each(sectors, out), UnitKind::Good)
}
