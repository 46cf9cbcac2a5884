//! Reading of a captured block as an entry of a plan, with several workers. Only the passes are shared out. The frames
//! are checked on the calling thread in their order, since the first cause is named. `rt` is the runtime, which makes
//! the threads, and `gate` is asked before each piece of a pass: only gates of tests do anything.
ghost use Rattle.std.specs.Prelude.{◌≤◌};
ghost use Rattle.dvd_capture.specs.Rule.{HasBlock};
ghost use Rattle.dvd_capture.specs.Works.{stage_of};
ghost use Rattle.dvd_layout.specs.Place.{HasNumbers};
ghost use Rattle.dvd_read.specs.Calls.{IsBlockRead};

use crate::gate::Gate;
use crate::passes::answer_block;
use dvd_capture::Work;
use dvd_layout::BlockPlan;
use dvd_read::parts::end_reading;
use dvd_read::{Cause, Fixed};
use std::thread::Threads;

/// Reads a captured block as `dvd_read::read_block` does, with so many workers in both passes: with the same clauses,
/// and by the same call after the passes.
pub fn read_block_par<R: Threads + Sync, G: Gate>(
    rt: &R,
    workers: u8,
    gate: &G,
    work: &mut Work,
    plan: &BlockPlan,
) -> Result<Fixed, Cause>
    requires workers { (1 ≤ workers) × (workers ≤ 16) }
    requires stage { HasBlock (stage_of work.old) }
    requires numbers { HasNumbers plan.now }
    ensures { IsBlockRead work.old work.new plan.now result }
{
    let answered = answer_block(rt, workers, gate, work);
    end_reading(work, plan, &answered)
}
