//! The command `exercise`: blocks that are drawn from a number, damaged within the bound, and read back.
//! The bound is what the two passes of decoding always correct, so every block has to come back whole. The last block
//! stays in the work.
//!
//! `rand` is the generator: its state, of 64 bits, begins as the seed plus 1, since from 0 only zeros would be drawn,
//! and each block is drawn from the state that the block before left. So the same seed gives the same blocks. `Block`
//! is the memory of 208 rows as they are made, `Piece` that of the sixteen sectors that were drawn, and `Work` that of
//! the block as it is received and read.
//!
//! In the clauses `IsEntry` says that an entry is one of the plan of the layout, `HasBlock` that the work holds a
//! received block, and `HasNumbers` that the sector numbers of an entry have 24 bits. `MayWork` and `MayRead` say that
//! the runtime and the gate may be shared with threads, and that there are 1 to 16 workers; `IsAdder` and `IsReader`
//! that a call of the closure does what `add_parity` or `read_block` does. No report is written, so clauses are of any
//! (`report`), which stays as it is; `no_stream` is that of a source that isn't there.
ghost use Rattle.std.specs.Thread.{IsSync};
ghost use Rattle.std.specs.Prelude.{◌≡◌, ◌⊎◌, ◌+◌, ◌-◌, ◌*◌, ◌<◌, ◌≤◌, ◌^◌, ℕ, length, None, replicate, false, true, IsErr};
ghost use Rattle.std.specs.Str.{bytes_eq};
ghost use Rattle.dvd_block.specs.Buffers.{block_rows, piece_bytes};
ghost use Rattle.coding.specs.Product.{IsBlockOf, IsParityAdded, line};
ghost use Rattle.dvd_capture.specs.Kept.{KeepsReceived};
ghost use Rattle.dvd_capture.specs.Rule.{HasBlock};
ghost use Rattle.dvd_capture.specs.Works.{marks_of_work, rows_of, sectors_of, stage_of};
ghost use Rattle.dvd_exercise.specs.Damage.{IsHurt, hurt_state};
ghost use Rattle.dvd_exercise.specs.Generator.{bytes_from, state_after, state_of};
ghost use Rattle.dvd_layout.specs.Place.{HasNumbers};
ghost use Rattle.dvd_layout.specs.Plan.{IsEntry};
ghost use Rattle.dvd_layout.specs.declared.layout.Shape.TheVariants.{Single};
ghost use Rattle.dvd_loop.specs.Machine.{IsOutcome};
ghost use Rattle.dvd_loop.specs.Streams.{streams, HasEnded, no_stream};
ghost use Rattle.dvd_ports.specs.Seen.{Seen};
ghost use Rattle.dvd_read.specs.Calls.{IsBlockRead};
ghost use Rattle.dvd_decoding.specs.Reading.{block_cause, IsReadAs};
ghost use Rattle.dvd_commands.specs.Exercise.{IsLeft, drawn_sector, drawn_sectors, exercise_line, exercise_units, no_marks, state_at};
ghost use Rattle.dvd_commands.specs.Master.{frames_of};
ghost use Rattle.dvd_commands.specs.Performed.{BesideAnyReport, IsPerformedByWords};
ghost use Rattle.dvd_commands.specs.Inner.Exercising.{CountsOne, HaveBeenTried, IsDiskOf, are_sectors};
ghost use Rattle.dvd_commands.specs.Inner.Workers.{IsAdder, IsReader, MayRead, MayWork};

use crate::master::{Mastered, fill_block};
use crate::refusal::Begun;
use crate::start::Start;
use crate::workers::{Workers, read_by};
use dvd_block::{Block, Piece};
use dvd_capture::{Stage, Work};
use dvd_exercise::{Rand, fill_piece, hurt};
use dvd_layout::{BlockPlan, Layout, Shape, Zones};
use dvd_loop::{AfterLast, LoopEnd, Processed, UnitCommand, UnitKind, run_units};
use dvd_par::{Gate, add_parity_par, read_block_par};
use dvd_ports::{NullSink, Sink, SliceSource, Source, write_whole};
use dvd_read::{Cause, Fixed};
use dvd_report::Line;
use dvd_words::{Command, Settings};
use std::thread::Threads;

// What was found of the blocks so far.
#[derive(Drop)]
struct Counts {
    whole: u32, // blocks that gave back what was drawn
    fixed: u64, // bytes in which the received blocks differ from those made
    failed: u64, // received rows that are uncorrectable
}

impl Counts {
    // Counts a block that was read, and whether it gave back what was drawn. A block adds less than 2^32 bytes and 2^16
    // rows, as their types say; at most 4,096 blocks are counted, so the sums keep far below 2^64. 4,096 is the limit
    // of the option; nothing here needs one so low. A block has 37,856 bytes, but the types' bounds need no proof. The
    // clauses `..._most` are for the rooms of the next block.
    fn add(&mut self, fixed: Fixed, is_whole: bool)
        requires whole_room { self.old.whole < 4096 }
        requires fixed_room { self.old.fixed ≤ 4096 * 2 ^ 32 }
        requires failed_room { self.old.failed ≤ 4096 * 2 ^ 16 }
        ensures whole { is_whole ≡ true → self.new.whole ≡ self.old.whole + 1 }
        ensures not_whole { is_whole ≡ false → self.new.whole ≡ self.old.whole }
        ensures fixed { self.new.fixed ≡ self.old.fixed + fixed.bytes }
        ensures fixed_most { self.new.fixed ≤ self.old.fixed + 2 ^ 32 }
        ensures failed { self.new.failed ≡ self.old.failed + fixed.failed_rows }
        ensures failed_most { self.new.failed ≤ self.old.failed + 2 ^ 16 }
    {
        self.fixed += u64::from(fixed.bytes);
        self.failed += u64::from(fixed.failed_rows);
        if is_whole {
            self.whole += 1;
        }
    }
}

// Its seed and its blocks, the state that the next is drawn from, what was found so far, how a block gets its parity
// and is read, and the memory of one block. `some` is for `left`, which speaks of a last block. `shape` and `sectors`
// say that the layout is that of `disk_of`, so that block k is an entry of its plan.
#[derive(Drop)]
struct Exercise<'a, 'r, A, F> {
    seed: u32,
    blocks: u32,
    layout: Layout,
    rand: Rand,
    counts: Counts,
    add: &'r A,
    read: &'r F,
    block: &'a mut Block,
    piece: &'a mut Piece,
    work: &'a mut Work,
    ghost some: { 1 ≤ blocks },
    ghost few: { blocks ≤ 4096 },
    ghost shape: { layout.shape ≡ Single },
    ghost sectors: { layout.sectors0 ≡ 16 * blocks },
}

// The clauses of these methods are in the trait: together they do what `exercise_units` says. `key` is what these units
// depend on; no method changes it. `ready` is what holds between blocks: generator and counts are those of the blocks
// before. `left` is what the end leaves to the caller: the last block, read back. It is no `PlainCommand`: each block
// goes on from the one before, and a line closes the run. `Processed` is the kind of a unit, or how the loop ends in
// it.
impl<'a, 'r, A: Fn(&mut Block), F, S: Source, K: Sink, E: Sink> UnitCommand<S, K, E>
    for Exercise<'a, 'r, A, F>
where
    F: Fn(&mut Work, &BlockPlan) -> Result<Fixed, Cause>,
{
    ghost Key = { ℕ × ℕ × ℕ };

    // With the name of the work, which says that it is the caller's own, and the same one all the time: the caller
    // finds there what the last block left. The units don't depend on it.
    ghost key = { λ e. (e.seed, e.blocks, e.work.ghost_name) };

    ghost units = { λ key. exercise_units key.0 key.1 };

    ghost ready = { λ e before. HaveBeenTried e.seed (length before) (state_of e.rand) e.counts e.work.now
        × IsAdder A.Fn e.add.now × IsReader F.Fn e.read.now };

    ghost left = { λ e _. IsLeft e.seed (e.blocks - 1) e.work.now };

    fn count(&self) -> u32 {
        self.blocks
    }

    // It reads nothing, so that no end of an input is looked for.
    fn after_last(&self) -> AfterLast {
        AfterLast::Done
    }

    // The trait has no default bodies, so it is there although nothing is written.
    fn open(&self, _out: &mut K, _report: &mut E) -> Result<(), LoopEnd> {
        Ok(())
    }

    // Nothing is read or written for a block. All are Good: one that didn't come back would only be missing in `whole`.
    // The order of the calls is part of what is drawn: first the sectors, then the damage, from one generator.
    fn process(&mut self, k: u32, _src: &mut S, _out: &mut K, _report: &mut E) -> Processed {
        let entry = self.layout.plan(Zones::DataOnly, u64::from(k));
        draw_block(
            &self.layout,
            &entry,
            &mut self.rand,
            self.add,
            self.block,
            self.piece,
        );
        load_hurt(self.block, &mut self.rand, self.work);
        read_back(
            &entry,
            self.piece.bytes(),
            self.read,
            self.work,
            &mut self.counts,
        );
        Ok(UnitKind::Good)
    }

    // The line is the result, so it goes to the output. `?` makes an end of the loop of a write that failed.
    fn close(&self, out: &mut K, _report: &mut E) -> Result<(), LoopEnd> {
        let line = exercise_line(self.seed, self.blocks, &self.counts);
        write_whole(out, line.as_slice())?;
        Ok(())
    }
}

// What the trials of a run go by: what makes its workers, and its settings. One value, as `Drawing` is, so that the
// calls below have fewer parameters.
#[derive(Drop)]
struct Setup<'a, R, G> {
    workers: &'a Workers<'a, R, G>,
    settings: &'a Settings,
}

// How many blocks are drawn, and from which seed, what gives a block its parity, and what reads it: closures, whose
// types have no names.
#[derive(Drop)]
struct Drawing<'r, A, F> {
    seed: u32,
    blocks: u32,
    add: &'r A,
    read: &'r F,
}

/// Draws, damages and reads back `settings.blocks` blocks, from 1 to 4,096. The work then holds the last of them, even
/// where the line couldn't be written. It has no input, and so hands on an empty one. It is public for callers with
/// buffers of their own; the block and the piece are scratch. `rt` makes the workers, and each asks `gate` before its
/// piece of a block. `ends` says which ends a caller has to expect: nothing is read or reported.
pub fn exercise_loop<R: Threads + Sync, K: Sink, G: Gate>(
    rt: &R,
    settings: &Settings,
    gate: &G,
    block: &mut Block,
    piece: &mut Piece,
    work: &mut Work,
    out: &mut K,
) -> LoopEnd
    requires some { 1 ≤ settings.now.blocks }
    requires few { settings.now.blocks ≤ 4096 }
    requires workers { (1 ≤ settings.now.workers) × (settings.now.workers ≤ 16) }
    ensures follows { (report : Seen) → HasEnded (IsOutcome (exercise_units settings.now.seed settings.now.blocks))
        (streams no_stream (K.seen out.old) report) (streams no_stream (K.seen out.new) report) result }
    ensures ends { (result ≡ LoopEnd.Done) ⊎ (result ≡ LoopEnd.WriteFault) }
    ensures left { IsLeft settings.now.seed (settings.now.blocks - 1) work.new }
{
    let workers = Workers { rt, gate };
    let setup = Setup {
        workers: &workers,
        settings,
    };
    run_trials(&setup, block, piece, work, &mut SliceSource::new(&[]), out)
}

// Likewise with any source, which stays as it is: the loop asks for one, though these units read nothing. So
// `run_exercise` can give the run's own, which its clauses are of.
fn run_trials<R: Threads + Sync, S: Source, K: Sink, G: Gate>(
    setup: &Setup<'_, R, G>,
    block: &mut Block,
    piece: &mut Piece,
    work: &mut Work,
    src: &mut S,
    out: &mut K,
) -> LoopEnd
    requires some { 1 ≤ setup.now.settings.now.blocks }
    requires few { setup.now.settings.now.blocks ≤ 4096 }
    requires workers { (1 ≤ setup.now.settings.now.workers) × (setup.now.settings.now.workers ≤ 16) }
    ensures follows { (report : Seen) → HasEnded (IsOutcome (exercise_units setup.now.settings.now.seed setup.now.settings.now.blocks))
        (streams (S.seen src.old) (K.seen out.old) report) (streams (S.seen src.new) (K.seen out.new) report) result }
    ensures left { IsLeft setup.now.settings.now.seed (setup.now.settings.now.blocks - 1) work.new }
{
    let rt = setup.workers.rt;
    let gate = setup.workers.gate;
    let workers = setup.settings.workers;
    // Closures, since `process` doesn't know that the runtime and the gate may be shared with threads. Here both may.
    let add = |block: &mut Block|
        requires { MayWork (IsSync R.row) (IsSync G.row) workers }
        ensures { IsParityAdded (block_rows block.entry.now) (block_rows block.exit.now) }
    { add_parity_par(rt, workers, gate, block) };
    let read = |work: &mut Work, plan: &BlockPlan| -> Result<Fixed, Cause>
        requires { MayRead (IsSync R.row) (IsSync G.row) workers work.now plan.now }
        ensures { IsBlockRead work.entry.now work.exit.now plan.entry.now result }
    { read_block_par(rt, workers, gate, work, plan) };
    let drawing = Drawing {
        seed: setup.settings.seed,
        blocks: setup.settings.blocks,
        add: &add,
        read: &read,
    };
    run_drawing(&drawing, block, piece, work, src, out)
}

// Likewise by these closures. A function of its own, since a closure's type has no name where it is made.
fn run_drawing<'a, 'r, A: Fn(&mut Block), F, S: Source, K: Sink>(
    drawing: &Drawing<'r, A, F>,
    block: &'a mut Block,
    piece: &'a mut Piece,
    work: &'a mut Work,
    src: &mut S,
    out: &mut K,
) -> LoopEnd
where
    F: Fn(&mut Work, &BlockPlan) -> Result<Fixed, Cause>,
    requires adder { IsAdder A.Fn drawing.now.add.now }
    requires reader { IsReader F.Fn drawing.now.read.now }
    requires some { 1 ≤ drawing.now.blocks }
    requires few { drawing.now.blocks ≤ 4096 }
    ensures follows { (report : Seen) → HasEnded (IsOutcome (exercise_units drawing.now.seed drawing.now.blocks))
        (streams (S.seen src.old) (K.seen out.old) report) (streams (S.seen src.new) (K.seen out.new) report) result }
    ensures left { IsLeft drawing.now.seed (drawing.now.blocks - 1) work.new }
{
    let mut exercise = Exercise {
        seed: drawing.seed,
        blocks: drawing.blocks,
        layout: disk_of(drawing.blocks),
        rand: rand_of(drawing.seed),
        counts: Counts {
            whole: 0,
            fixed: 0,
            failed: 0,
        },
        add: drawing.add,
        read: drawing.read,
        block,
        piece,
        work,
    };
    // The loop wants a report, but this command writes none. By a reference, since what is left in the work counts:
    // `run_owned` says nothing of it.
    run_units(&mut exercise, src, out, &mut NullSink::new())
}

/// The command with its buffers, or why it doesn't begin: only memory may be missing, since its layout is its own.
/// `some` and `few` are the limits of the option, and sixteen the most workers that an option allows.
pub(crate) fn run_exercise<R: Threads + Sync, S: Source, K: Sink, G: Gate>(
    workers: &Workers<'_, R, G>,
    start: &Start<'_>,
    src: &mut S,
    out: &mut K,
) -> Begun
    requires command { start.now.settings.now.command ≡ Command.Exercise }
    requires some { 1 ≤ start.now.settings.now.blocks }
    requires few { start.now.settings.now.blocks ≤ 4096 }
    requires workers { (1 ≤ start.now.settings.now.workers) × (start.now.settings.now.workers ≤ 16) }
    ensures performed { BesideAnyReport (IsPerformedByWords start.now.settings.now) (S.seen src.old) (K.seen out.old) (S.seen src.new) (K.seen out.new) result }
    ensures untouched { IsErr result → (src.new ≡ src.old) × (out.new ≡ out.old) }
{
    let mut block = Block::new(start.alloc)?;
    let mut piece = Piece::new(start.alloc)?;
    let mut work = Work::new(start.alloc)?;
    let setup = Setup {
        workers,
        settings: start.settings,
    };
    Ok(run_trials(&setup, &mut block, &mut piece, &mut work, src, out))
}

// The smallest disk with so many blocks, each at an address of its own. The zeros are the sectors of a second layer,
// the Initial Zone and the zone after the data: none is needed. Its 16 to 65,536 sectors break no rule of layouts, so
// the unwrapping can't fail.
fn disk_of(blocks: u32) -> Layout
    requires some { 1 ≤ blocks }
    requires few { blocks ≤ 4096 }
    ensures { IsDiskOf blocks result }
{
    Layout::new(Shape::Single, 16 * blocks, 0, 0, 0).unwrap()
}

// The generator that block 0 is drawn from. The clause says it in the words of the definition, whose states are
// numbered by blocks.
fn rand_of(seed: u32) -> Rand
    ensures { state_of result ≡ state_at seed 0 }
{
    Rand::new(seed)
}

// Draws sixteen sectors, and makes their block as `master` does, with CPR_MAI zeros. The sectors stay in the piece, to
// be compared with what is read. Each of their 32,768 bytes is one step of the generator.
fn draw_block<A: Fn(&mut Block)>(
    layout: &Layout,
    entry: &BlockPlan,
    rand: &mut Rand,
    add: &A,
    block: &mut Block,
    piece: &mut Piece,
)
    requires entry { IsEntry layout.now entry.now }
    requires numbers { HasNumbers entry.now }
    requires adder { IsAdder A.Fn add.now }
    ensures drawn { piece_bytes piece.new ≡ bytes_from (state_of rand.old) 32768 }
    ensures made { IsBlockOf (frames_of layout.now entry.now (replicate 6 0) (piece_bytes piece.new)) (block_rows block.new) }
    ensures state { state_of rand.new ≡ state_after (state_of rand.old) 32768 }
{
    fill_piece(rand, piece);
    let drawn = Mastered {
        layout,
        entry,
        cpr: &[0; 6],
        sectors: piece.bytes(),
    };
    fill_block(&drawn, add, block);
}

// Loads a block, and damages it.
// The block stays as it was made; the damage is done to its copy in the work. It goes on with the generator, so that
// each block has other damage. `load_block` leaves no marks (`no_marks`): with any before the
// damage, it might not be within the bound.
fn load_hurt(block: &Block, rand: &mut Rand, work: &mut Work)
    ensures hurt { IsHurt (state_of rand.old) (block_rows block.now) no_marks (rows_of work.new) (marks_of_work work.new) }
    ensures state { state_of rand.new ≡ hurt_state (state_of rand.old) }
    ensures stage { HasBlock (stage_of work.new) }
{
    work.load_block(block);
    hurt(rand, work);
}

// Reads a block and counts what is found of it. Its damage is within the bound, so that the reading finds no cause
// (`right`) and its sectors are those that were drawn: `image`, the bytes of the piece. That they are isn't required
// here but assumed in `counted`, since it follows from the damage, which only the caller knows. `received` says that
// the damaged rows and marks stay, which the caller promises of the last block.
fn read_back<F: Fn(&mut Work, &BlockPlan) -> Result<Fixed, Cause>>(
    entry: &BlockPlan,
    image: &[u8],
    read: &F,
    work: &mut Work,
    counts: &mut Counts,
)
    requires size { length image.now ≡ 32768 }
    requires reader { IsReader F.Fn read.now }
    requires numbers { HasNumbers entry.now }
    requires stage { HasBlock (stage_of work.old) }
    requires right { block_cause (rows_of work.old) (marks_of_work work.old) entry.now ≡ None }
    requires whole_room { counts.old.whole < 4096 }
    requires fixed_room { counts.old.fixed ≤ 4096 * 2 ^ 32 }
    requires failed_room { counts.old.failed ≤ 4096 * 2 ^ 16 }
    ensures read { IsReadAs (rows_of work.old) (marks_of_work work.old) entry.now (sectors_of work.new) }
    ensures counted { sectors_of work.new ≡ drawn_sectors image.now → CountsOne (rows_of work.old) (marks_of_work work.old) counts.old counts.new }
    ensures fixed_most { counts.new.fixed ≤ counts.old.fixed + 2 ^ 32 }
    ensures failed_most { counts.new.failed ≤ counts.old.failed + 2 ^ 16 }
    ensures stage { stage_of work.new ≡ Stage.Fixed }
    ensures received { KeepsReceived work.old work.new }
{
    // The other case doesn't come, by `right`, and so has no arm.
    if let Ok(fixed) = read_by(read, work, entry) {
        counts.add(fixed, has_sectors(work, image));
    }
}

// Whether all sixteen sectors are those of the image. The line counts what comes out of this comparison, though by the
// contract all blocks come back: so the line reports what was compared. `unfolding` is for the checker: it opens the
// definition that the clause names.
#[tactic(auto, unfolding(crate::specs::Inner::Exercising::are_sectors))]
fn has_sectors(work: &Work, image: &[u8]) -> bool
    requires { length image.now ≡ 32768 }
    ensures { result ≡ are_sectors (sectors_of work.now) image.now }
{
    (0..16).all(|f| is_sector(work, image, f))
}

// Whether sector `f` that was read is the one that was drawn. A function of its own, so that one comparison has one
// clause.
fn is_sector(work: &Work, image: &[u8], f: usize) -> bool
    requires size { length image.now ≡ 32768 }
    requires sector { f < 16 }
    ensures { result ≡ bytes_eq (line (sectors_of work.now) f) (drawn_sector image.now f) }
{
    work.sector(f) == &image[2048 * f..2048 * f + 2048]
}

// The line of a run: its seed and number of blocks, and the counts of what was read back. Its texts and five numbers of
// at most 20 digits are below the 256 bytes of a `Line`. `unfolding` is for the checker: it opens the definition that
// the clause names.
#[tactic(auto, unfolding(crate::specs::Exercise::exercise_line))]
fn exercise_line(seed: u32, blocks: u32, counts: &Counts) -> Line
    ensures { result ≡ exercise_line seed blocks counts.now.whole counts.now.fixed counts.now.failed }
{
    let mut line = Line::new();
    line.put_named(b"exercise seed ", u64::from(seed));
    line.put_named(b" blocks ", u64::from(blocks));
    line.put_named(b" whole ", u64::from(counts.whole));
    line.put_named(b" fixed ", counts.fixed);
    line.put_named(b" failed ", counts.failed);
    line.put(b"\n");
    line
}
