//! The command `master`: the recording frames of each ECC block of a disk.
//! Block by block it reads what the block has of the image, makes its sixteen data frames, adds the parity, and writes
//! its rows in the order of recording. `Block` is the memory of 208 rows, and `Piece` that of sixteen sectors.
//!
//! In the clauses `IsLayoutOf` says that the layout is the one that the settings ask for, `IsEntry` that an entry is
//! one of its plan, `HasNumbers` that the sector numbers of an entry have 24 bits, `MayWork` that the runtime and the
//! gate may be shared with threads, and that there are 1 to 16 workers, and `IsAdder` that each call of the closure
//! adds the parity as `add_parity` does. Clauses `causes` say by the counts of a stream that the call that failed,
//! where one did, was its last. No report is written, so clauses are of any (`report`), which stays as it is.
ghost use Rattle.std.specs.Thread.{IsSync};
ghost use Rattle.std.specs.Prelude.{◌≡◌, ◌-◌, ◌*◌, ◌<◌, ◌≤◌, ℕ, List, length, take, drop, replicate, IfErr, IsErr, OnOk, refl};
ghost use Rattle.dvd_ports.specs.Bytes.{Consumes};
ghost use Rattle.dvd_block.specs.Buffers.{block_rows, piece_bytes};
ghost use Rattle.coding.specs.Product.{IsBlockOf, IsParityAdded};
ghost use Rattle.dvd_layout.specs.Place.{HasNumbers};
ghost use Rattle.dvd_layout.specs.Plan.{IsEntry, plan_of};
ghost use Rattle.dvd_layout.specs.declared.layout.Layout.{Layout as DiskLayout};
ghost use Rattle.dvd_layout.specs.declared.layout.Zones.{Zones as WhichZones};
ghost use Rattle.dvd_loop.specs.Laws.{IsPlainEnd};
ghost use Rattle.dvd_loop.specs.Machine.{IsOutcome};
ghost use Rattle.dvd_loop.specs.Streams.{streams, HasEnded};
ghost use Rattle.dvd_loop.specs.UnitCommand.{EndsShort, HasReadCause};
ghost use Rattle.dvd_ports.specs.Seen.{Seen};
ghost use Rattle.dvd_commands.specs.Master.{cpr_in, frame_for, frames_of, image_bytes, main_for, master_units};
ghost use Rattle.dvd_commands.specs.Performed.{BesideAnyReport, IsPerformedByWords};
ghost use Rattle.dvd_commands.specs.Inner.Workers.{IsAdder, MayWork};
ghost use Rattle.dvd_words.specs.Settings.{IsLayoutOf};

use crate::blocks::Blocks;
use crate::refusal::Begun;
use crate::start::Start;
use crate::unit::unit_written;
use crate::workers::{Workers, add_by};
use dvd_block::{Block, Piece};
use dvd_control::main_of;
use dvd_frame::{Area, Scrambler, make_frame_with};
use dvd_layout::{BlockPlan, Content, Layout, id_of, rule_of};
use dvd_loop::{LoopEnd, PlainCommand, Processed, UnitKind, read_unit, run_plain};
use dvd_par::{Gate, add_parity_par};
use dvd_ports::{NullSink, Sink, Source};
use dvd_words::{Command, Settings};
use std::thread::Threads;

/// Its blocks, in the order of the plan, the bytes of CPR_MAI for frames of the Data Zone, how blocks get their parity,
/// and the buffers of one block.
#[derive(Drop)]
struct Master<'a, 'r, F> {
    blocks: Blocks,
    cpr: [u8; 6],
    add: &'r F,
    block: &'a mut Block,
    piece: &'a mut Piece,
}

// The clauses of these methods are in the trait: for block `k` they do what `master_units` says, and nothing opens or
// closes the units (`alone`). `key` is what the units depend on; no method changes it.
// `ready` is what a unit needs: a closure that adds the parity as `add_parity` does. A `PlainCommand` has units that
// don't depend on each other; `Processed` is the kind of one, or how the loop ends in it.
impl<'a, 'r, F: Fn(&mut Block), S: Source, K: Sink, E: Sink> PlainCommand<S, K, E>
    for Master<'a, 'r, F> {
    ghost Key = { DiskLayout × WhichZones × List ℕ };

    ghost key = { λ m. (m.blocks.layout, m.blocks.zones, m.cpr) };

    ghost units = { λ key. master_units key.0 key.1 key.2 };

    ghost ready = { λ m. IsAdder F.Fn m.add.now };

    ghost alone = { λ _. record { opens = refl; closes = λ _. refl; after_last = refl } };

    fn count(&self) -> u32 {
        self.blocks.count()
    }

    // The whole recording of a block is written before the next is read, so one block is all that is in memory. Nothing
    // is read for one without image. Every block is Good: any bytes are an image.
    fn process(&mut self, k: u32, src: &mut S, out: &mut K, _report: &mut E) -> Processed {
        let entry = self.blocks.at(k);
        let size = image_size(&self.blocks.layout, &entry);
        read_image(src, k, self.piece, size)?;
        let given = Mastered {
            layout: &self.blocks.layout,
            entry: &entry,
            cpr: &self.cpr,
            sectors: self.piece.bytes(),
        };
        fill_block(&given, self.add, self.block);
        unit_written(self.block.write_recording(out), UnitKind::Good)
    }
}

/// Masters every block of the plan of the layout and the zones that the settings choose.
/// It is public for callers with buffers of their own. What these held before doesn't matter, and nothing is promised
/// of them afterwards. The layout is what the settings ask for, made once by the caller. `rt` makes the workers, and
/// each asks `gate` before its piece of a block. `ends` says which ends a caller has to expect.
pub fn master_loop<R: Threads + Sync, S: Source, K: Sink, G: Gate>(
    rt: &R,
    settings: &Settings,
    layout: &Layout,
    gate: &G,
    block: &mut Block,
    piece: &mut Piece,
    src: &mut S,
    out: &mut K,
) -> LoopEnd
    requires layout { IsLayoutOf settings.now layout.now }
    requires workers { (1 ≤ settings.now.workers) × (settings.now.workers ≤ 16) }
    ensures follows { (report : Seen) → HasEnded (IsOutcome (master_units layout.now settings.now.zones settings.now.cpr))
        (streams (S.seen src.old) (K.seen out.old) report) (streams (S.seen src.new) (K.seen out.new) report) result }
    ensures ends { IsPlainEnd (length (plan_of layout.now settings.now.zones)) result }
{
    let workers = settings.workers;
    // A closure, since `process` doesn't know that the runtime and the gate may be shared with threads. Here both may.
    let add = |block: &mut Block|
        requires { MayWork (IsSync R.row) (IsSync G.row) workers }
        ensures { IsParityAdded (block_rows block.entry.now) (block_rows block.exit.now) }
    { add_parity_par(rt, workers, gate, block) };
    let master = Master {
        blocks: Blocks {
            layout: *layout,
            zones: settings.zones,
        },
        cpr: settings.cpr,
        add: &add,
        block,
        piece,
    };
    // The loop wants a report, but this command writes none.
    run_plain(master, src, out, &mut NullSink::new())
}

/// The command with its buffers, or why it doesn't begin.
/// It reads an image and no capture, so its layout always comes from the arguments. That is tried before memory is
/// taken: a broken rule is what a user can put right. Sixteen are the most workers that the option allows.
pub(crate) fn run_master<R: Threads + Sync, S: Source, K: Sink, G: Gate>(
    workers: &Workers<'_, R, G>,
    start: &Start<'_>,
    src: &mut S,
    out: &mut K,
) -> Begun
    requires command { start.now.settings.now.command ≡ Command.Master }
    requires workers { (1 ≤ start.now.settings.now.workers) × (start.now.settings.now.workers ≤ 16) }
    ensures performed { BesideAnyReport (IsPerformedByWords start.now.settings.now) (S.seen src.old) (K.seen out.old) (S.seen src.new) (K.seen out.new) result }
    ensures untouched { IsErr result → (src.new ≡ src.old) × (out.new ≡ out.old) }
{
    let layout = start.settings.layout()?;
    let mut block = Block::new(start.alloc)?;
    let mut piece = Piece::new(start.alloc)?;
    Ok(master_loop(
        workers.rt,
        start.settings,
        &layout,
        workers.gate,
        &mut block,
        &mut piece,
        src,
        out,
    ))
}

// How many image bytes a block has: 0 for one without image, which reads nothing, and fewer than 32,768 for the last
// one where sixteen sectors aren't left.
fn image_size(layout: &Layout, entry: &BlockPlan) -> usize
    ensures value { result ≡ image_bytes layout.now entry.now }
    ensures most { result ≤ 32768 }
{
    2048 * layout.image_sectors(entry.content)
}

// Reads the image bytes of block `k` to the beginning of the piece, and fills the rest with zeros.
// The piece held the block before, so the rest is filled each time: an image that isn't whole blocks is filled up with
// zero sectors. After a fault the piece may be written in part, and the loop ends.
fn read_image<S: Source>(src: &mut S, k: u32, piece: &mut Piece, size: usize) -> Result<(), LoopEnd>
    requires { size ≤ 32768 }
    ensures length { length (piece_bytes piece.new) ≡ 32768 }
    ensures whole { OnOk result (Consumes (S.seen src.old).bytes (S.seen src.new).bytes (take size (piece_bytes piece.new))) }
    ensures zeros { OnOk result (drop size (piece_bytes piece.new) ≡ replicate (32768 - size) 0) }
    ensures short { IfErr result (EndsShort k size (S.seen src.old) (S.seen src.new)) }
    ensures causes { HasReadCause result (S.seen src.old) (S.seen src.new) }
{
    let bytes = piece.bytes_mut();
    read_unit(src, k, &mut bytes[..size])?;
    bytes[size..].fill(0);
    Ok(())
}

/// What a block is mastered of: its entry in the plan of the layout, the six bytes of CPR_MAI, and its image bytes,
/// filled up with zeros to 32,768. `exercise` makes its blocks of the same, with a layout, bytes and sectors of its
/// own. One value, since they go from call to call together.
#[derive(Drop)]
pub(crate) struct Mastered<'a> {
    pub layout: &'a Layout,
    pub entry: &'a BlockPlan,
    pub cpr: &'a [u8; 6],
    pub sectors: &'a [u8],
}

/// Puts the sixteen frames of a block into it, and adds the parity. All 208 rows are written, so what the block held
/// before doesn't matter.
pub(crate) fn fill_block<F: Fn(&mut Block)>(given: &Mastered<'_>, add: &F, block: &mut Block)
    requires size { length given.now.sectors.now ≡ 32768 }
    requires entry { IsEntry given.now.layout.now given.now.entry.now }
    requires numbers { HasNumbers given.now.entry.now }
    requires adder { IsAdder F.Fn add.now }
    ensures { IsBlockOf (frames_of given.now.layout.now given.now.entry.now given.now.cpr.now given.now.sectors.now) (block_rows block.new) }
{
    // All frames of a block have the same preset of the scrambler, so its sequence is made once: bits 4 to 7 of the
    // sector number select it, and a block's first number is a multiple of 16. The frame's buffer is used again, since
    // each frame writes all of it.
    let mut scrambler = Scrambler::new();
    let mut frame = [0; 2064];
    for f in 0..16 {
        write_frame(&mut scrambler, given, f, &mut frame);
        block.put_frame(f, &frame);
    }
    add_by(add, block);
}

// Writes data frame `f` of a block. Only image sectors come from the input. The Main Data of the other contents, as
// zeros or the physical format, are made here, by the rules of the layout. The contents are listed by name, so that a
// new one has to be thought of.
fn write_frame(scrambler: &mut Scrambler, given: &Mastered<'_>, f: usize, frame: &mut [u8; 2064])
    requires size { length given.now.sectors.now ≡ 32768 }
    requires entry { IsEntry given.now.layout.now given.now.entry.now }
    requires numbers { HasNumbers given.now.entry.now }
    requires frame { f < 16 }
    ensures { frame.new ≡ frame_for given.now.layout.now given.now.entry.now given.now.cpr.now given.now.sectors.now f }
{
    match given.entry.content {
        Content::Image(_) => make_with(scrambler, given, f, sector_at(given.sectors, f), frame),
        Content::Zero | Content::Reference | Content::Control => {
            let mut main = [0; 2048];
            main_of(given.layout, given.entry, f, &mut main);
            make_with(scrambler, given, f, &main, frame);
        }
    }
}

// Sector `f` of sixteen. As an array, which frames are made of; a slice of 2,048 bytes always becomes one, so that the
// unwrapping can't fail. It is lent, and not copied.
fn sector_at(sectors: &[u8], f: usize) -> &[u8; 2048]
    requires size { length sectors.now ≡ 32768 }
    requires frame { f < 16 }
    ensures { result.now ≡ take 2048 (drop (2048 * f) sectors.now) }
{
    <&[u8; 2048]>::try_from(&sectors[2048 * f..2048 * f + 2048]).unwrap()
}

// Makes frame `f` with these Main Data. Its ID, its CPR_MAI and which bytes are scrambled come from the entry, whatever
// the Main Data are. `main` says that these are the Main Data of this frame, whoever made them: so one function ends
// both cases of `write_frame`.
fn make_with(
    scrambler: &mut Scrambler,
    given: &Mastered<'_>,
    f: usize,
    main: &[u8; 2048],
    frame: &mut [u8; 2064],
)
    requires entry { IsEntry given.now.layout.now given.now.entry.now }
    requires numbers { HasNumbers given.now.entry.now }
    requires frame { f < 16 }
    requires main { main.now ≡ main_for given.now.entry.now.content given.now.layout.now given.now.entry.now given.now.sectors.now f }
    ensures { frame.new ≡ frame_for given.now.layout.now given.now.entry.now given.now.cpr.now given.now.sectors.now f }
{
    make_frame_with(
        scrambler,
        id_of(given.entry, given.layout.dim(), f),
        &cpr_of(given.entry.area, given.cpr),
        rule_of(given.entry.content, f),
        main,
        frame,
    );
}

// Only frames of the Data Zone have the bytes that were asked for, those that fill up its last block too: CPR_MAI
// belongs to the protection of its data.
fn cpr_of(area: Area, cpr: &[u8; 6]) -> [u8; 6]
    ensures { result ≡ cpr_in area cpr.now }
{
    match area {
        Area::DataZone => *cpr,
        Area::LeadIn | Area::LeadOut | Area::Middle => [0; 6],
    }
}
