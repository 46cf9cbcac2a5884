//! The line of an ECC block that two passes refuse, and that a round of iterated reading gave back. A round is one step
//! over the rows of a block and one over its columns. The block need not be the recorded one, so a line names it.
ghost use Rattle.std.specs.Prelude.{◌≡◌};
ghost use Rattle.dvd_layout.specs.Place.{HasNumbers};
ghost use Rattle.dvd_ports.specs.Whole.{IsWritten};
ghost use Rattle.dvd_report.specs.Lines.{round_line};

use crate::cause::put_block;
use crate::text::Line;
use dvd_layout::BlockPlan;
use dvd_ports::{Sink, WriteFault, write_whole};

/// Writes the line of block `k` of a plan, which this round gave back. It is `block K sector H6 layer L: round T` and a
/// line feed. After a fault a prefix of the line was written. `HasNumbers`: its sector numbers have 24 bits, so that
/// `H6` has them whole.
pub fn write_round<E: Sink>(
    k: u64,
    plan: &BlockPlan,
    round: u8,
    report: &mut E,
) -> Result<(), WriteFault>
    requires { HasNumbers plan.now }
    ensures { IsWritten (round_line k plan.now round) (E.seen report.old) (E.seen report.new) result }
{
    write_whole(report, line_of(k, plan, round).as_slice())
}

// The whole line, so that it goes out as one piece. Its longest has 62 bytes, and a `Line` has room for 256: so no call
// has to show that there is room.
// It begins as a damage line does, so that a rescuer finds the block in the same way. `unfolding` is for the checker:
// it opens the definition that the clause names.
#[tactic(auto, unfolding(crate::specs::Lines::round_line))]
fn line_of(k: u64, plan: &BlockPlan, round: u8) -> Line
    ensures { result ≡ round_line k plan.now round }
{
    let mut line = Line::new();
    put_block(&mut line, k, plan);
    line.put(b": round ");
    line.put_byte(round);
    line.put(b"\n");
    line
}
