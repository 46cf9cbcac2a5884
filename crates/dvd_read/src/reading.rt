//! Reading of a captured block as an entry of a plan, which says which IDs its frames have. By the clauses a block was
//! received (`HasBlock`), and the numbers of its sixteen sectors have 24 bits (`HasNumbers`), as those of every plan.
ghost use Rattle.dvd_capture.specs.Rule.{HasBlock};
ghost use Rattle.dvd_capture.specs.Works.{stage_of};
ghost use Rattle.dvd_layout.specs.Place.{HasNumbers};
ghost use Rattle.dvd_read.specs.Calls.{AreBothAnswered, IsBlockRead};

use crate::fixed::Fixed;
use crate::frames::{FrameSource, sectors_of_block};
use crate::passes::{Answered, answer_block, end_passes};
use dvd_capture::Work;
use dvd_decoding::Cause;
use dvd_layout::BlockPlan;

/// Reads a captured block as an entry of a plan: two passes, then the checks of its frames. The sixteen sectors are
/// then the Main Data of the block, or zeros after a cause. Received bytes and marks stay. The answer says how many
/// bytes of the block differ from those received, and how many rows failed.
/// Where two passes refuse the block the stage is Refused. After a cause of its frames it is Fixed, since the block was
/// found. `tactic` lets the prover unfold the cause of a block: that of two passes, or else that of its frames.
#[tactic(auto, unfolding(dvd_decoding::specs::Reading::block_cause))]
pub fn read_block(work: &mut Work, plan: &BlockPlan) -> Result<Fixed, Cause>
    requires stage { HasBlock (stage_of work.old) }
    requires numbers { HasNumbers plan.now }
    ensures { IsBlockRead work.old work.new plan.now result }
{
    let answered = answer_block(work, || ());
    end_reading(work, plan, &answered)
}

/// Ends the reading of a block whose rows and columns are answered, as `read_block` does. Whether the rows' answers
/// have all bytes of the columns spares a test, and says where rows can be read whole; `false` may be said of any
/// block.
/// It is public for those who answer the pieces of both passes by several workers.
#[tactic(auto, unfolding(dvd_decoding::specs::Reading::block_cause))]
pub fn end_reading(work: &mut Work, plan: &BlockPlan, answered: &Answered) -> Result<Fixed, Cause>
    requires answered { AreBothAnswered work.old answered.now }
    requires numbers { HasNumbers plan.now }
    ensures { IsBlockRead work.old work.new plan.now result }
{
    match end_passes(work, answered) {
        Ok(fixed) => {
            // How many bytes differ from those received counts too: where none does, the frames are read from what was
            // received. It sets the sectors to zeros itself where a frame has a cause.
            sectors_of_block(work, plan, FrameSource::of(fixed.bytes, answered.are_held))?;
            Ok(fixed)
        }
        Err(cause) => {
            // So no sector of an earlier block is left.
            work.blank();
            Err(cause)
        }
    }
}
