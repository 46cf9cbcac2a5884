//! What the workers do for a unit of a command: a closure, which the loop made, holds them.
//! Processing a unit is a method of a trait, whose caller can't promise that the runtime and the gate may be shared
//! with threads. The function that makes the loop knows this, so it makes the closure.
//!
//! In the clauses `HasBlock` says that the work holds a received block, `HasNumbers` that the sector numbers of an
//! entry have 24 bits, and `IsReader` and `IsAdder` that each call of the closure does what `read_block` or
//! `add_parity` does.
ghost use Rattle.dvd_block.specs.Buffers.{block_rows};
ghost use Rattle.coding.specs.Product.{IsParityAdded};
ghost use Rattle.dvd_capture.specs.Rule.{HasBlock};
ghost use Rattle.dvd_capture.specs.Works.{stage_of};
ghost use Rattle.dvd_layout.specs.Place.{HasNumbers};
ghost use Rattle.dvd_read.specs.Calls.{IsBlockRead};
ghost use Rattle.dvd_commands.specs.Inner.Workers.{IsAdder, IsReader};

use dvd_block::Block;
use dvd_capture::Work;
use dvd_layout::BlockPlan;
use dvd_read::{Cause, Fixed};

/// What makes the workers of a run (`rt`, the runtime), and the gate that each of them asks before a piece: a part of a
/// block's rows or columns. Tests watch the workers by a gate; the program's own lets all pass. How many workers there
/// are is in the settings. Both are borrowed, since all workers share them.
#[derive(Drop)]
pub struct Workers<'a, R, G> {
    pub rt: &'a R,
    pub gate: &'a G,
}

/// Reads a captured block as an entry of a plan, as `dvd_read::read_block` does.
/// A function of its own, so that what a call of the closure does is drawn from `IsReader` in one place. The work then
/// has the sectors of the block, or zeros after a cause; its received rows and marks stay. `recover`, `survey` and
/// `exercise` call it; `deep` and `info` have no workers, and call `dvd_read::read_block` itself.
pub(crate) fn read_by<F: Fn(&mut Work, &BlockPlan) -> Result<Fixed, Cause>>(
    read: &F,
    work: &mut Work,
    plan: &BlockPlan,
) -> Result<Fixed, Cause>
    requires reader { IsReader F.Fn read.now }
    requires stage { HasBlock (stage_of work.old) }
    requires numbers { HasNumbers plan.now }
    ensures { IsBlockRead work.old work.new plan.now result }
{
    read(work, plan)
}

/// Sets the inner and the outer parity of a block, as `Block::add_parity` does. The other bytes stay. Likewise a
/// function of its own, for `IsAdder`. `fill_block` calls it, and so `master` and `exercise`.
pub(crate) fn add_by<F: Fn(&mut Block)>(add: &F, block: &mut Block)
    requires adder { IsAdder F.Fn add.now }
    ensures { IsParityAdded (block_rows block.old) (block_rows block.new) }
{
    add(block);
}
