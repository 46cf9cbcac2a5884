//! The loop of the commands that write the image sectors of captured blocks: `recover` and `deep`. Each block is read
//! whole. One without image is passed over, and what is done for any other is the command's own.
//!
//! In the clauses `HasBlock` says that the work holds a received block, and `HasNumbers` that the sector numbers of an
//! entry have 24 bits. `AreDone` says which steps, writes and lines, are done for a unit; where a call fails, only a
//! first part of them is. The clause of a function that isn't handed the source is of any (`source`), which stays as it
//! is.
ghost use Rattle.std.specs.Prelude.{ℕ, Bool, List, refl};
ghost use Rattle.dvd_capture.specs.Rule.{HasBlock};
ghost use Rattle.dvd_capture.specs.Works.{rows_of, marks_of_work, stage_of};
ghost use Rattle.dvd_capture.specs.declared.form.Form.{Form as CaptureForm};
ghost use Rattle.dvd_layout.specs.Place.{HasNumbers};
ghost use Rattle.dvd_layout.specs.declared.entry.BlockPlan.{BlockPlan as Entry};
ghost use Rattle.dvd_layout.specs.declared.layout.Layout.{Layout as DiskLayout};
ghost use Rattle.dvd_layout.specs.declared.layout.Zones.{Zones as WhichZones};
ghost use Rattle.dvd_loop.specs.Machine.{Step};
ghost use Rattle.dvd_loop.specs.Streams.{streams};
ghost use Rattle.dvd_loop.specs.UnitCommand.{AreDone};
ghost use Rattle.dvd_loop.specs.declared.ends.UnitKind.{UnitKind as Kind};
ghost use Rattle.dvd_ports.specs.Seen.{Seen};
ghost use Rattle.dvd_commands.specs.Captured.{image_units};

use crate::blocks::Blocks;
use crate::captured::{Planned, fetch_block};
use dvd_capture::{Form, Work};
use dvd_layout::Content;
use dvd_loop::{PlainCommand, Processed, UnitKind};
use dvd_ports::{Sink, Source};

/// How a command gives the image sectors of a captured block.
pub(crate) trait GivesImage<K: Sink, E: Sink> {
    /// What may be done for a block of this layout with this number, by its entry, its rows and its marks.
    ghost May: { DiskLayout → ℕ → Entry → List (List ℕ) → List (List Bool) → List Step → Kind → Type 0 };

    /// It can give a block: a closure that it calls does what it has to.
    ghost ready: { Self → Type 0 } = { λ _. Unit {0} };

    /// Decodes the block that the work holds, and writes its image sectors or what there is in their place, with its
    /// line.
    fn give(&mut self, block: &Planned, work: &mut Work, out: &mut K, report: &mut E) -> Processed
        requires ready { ready self.old }
        requires numbers { HasNumbers block.now.entry.now }
        requires stage { HasBlock (stage_of work.old) }
        ensures ready { ready self.new }
        ensures done { (source : Seen) → AreDone (May block.now.layout.now block.now.k block.now.entry.now (rows_of work.old) (marks_of_work work.old))
            (streams source (K.seen out.old) (E.seen report.old)) (streams source (K.seen out.new) (E.seen report.new)) result };
}

/// The blocks, in the order of the plan, the command, and the memory of one block.
#[derive(Drop)]
pub(crate) struct Imaging<'a, C> {
    pub blocks: Blocks,
    pub form: Form,
    pub command: C,
    pub work: &'a mut Work,
}

// The clauses of these methods are in the trait: for block `k` they do what `image_units` says, and nothing opens or
// closes the units (`alone`). `key` is what the units depend on; no method changes it. A `PlainCommand` has units that
// don't depend on each other; `Processed` is the kind of one, or how the loop ends in it.
impl<'a, C: GivesImage<K, E>, S: Source, K: Sink, E: Sink> PlainCommand<S, K, E>
    for Imaging<'a, C> {
    ghost Key = { DiskLayout × WhichZones × CaptureForm };

    ghost key = { λ i. (i.blocks.layout, i.blocks.zones, i.form) };

    ghost units = { λ key. image_units C.May key.0 key.1 key.2 };

    ghost ready = { λ i. C.ready i.command };

    ghost alone = { λ _. record { opens = refl; closes = λ _. refl; after_last = refl } };

    fn count(&self) -> u32 {
        self.blocks.count()
    }

    // Each block is read whole, even one without image, since the next begins after it. Nothing of that one goes to the
    // image, so damage there costs nothing. The contents are listed by name, so that a new one has to be thought of.
    fn process(&mut self, k: u32, src: &mut S, out: &mut K, report: &mut E) -> Processed {
        let entry = self.blocks.at(k);
        fetch_block(src, k, self.form, self.work)?;
        let block = Planned {
            layout: &self.blocks.layout,
            k,
            entry: &entry,
        };
        match entry.content {
            Content::Image(_) => self.command.give(&block, self.work, out, report),
            Content::Zero | Content::Reference | Content::Control => Ok(UnitKind::Good),
        }
    }
}
