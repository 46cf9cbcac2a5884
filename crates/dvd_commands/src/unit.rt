//! What the writes of a unit came to. `AreDone` says which steps are done for a unit, and `WritesAlone` that they are
//! one write of these bytes.
ghost use Rattle.std.specs.Prelude.{◌≡◌, ℕ, IfErr, List};
ghost use Rattle.dvd_loop.specs.Streams.{streams};
ghost use Rattle.dvd_loop.specs.UnitCommand.{AreDone};
ghost use Rattle.dvd_ports.specs.Seen.{Seen};
ghost use Rattle.dvd_ports.specs.Whole.{IsWritten};
ghost use Rattle.dvd_commands.specs.Inner.Performing.{WritesAlone};

use dvd_loop::{LoopEnd, Processed, UnitKind};
use dvd_ports::WriteFault;

/// A unit of this kind, whose write was answered so: its kind, or the fault that ends the loop. `?` does the same, but
/// here is the clause that draws `AreDone` from what the write ensures, whatever the bytes and the streams are: so it
/// is proved once.
pub(crate) fn unit_written(answer: Result<(), WriteFault>, kind: UnitKind) -> Processed
    ensures { (bytes : List ℕ) (source output new_output report : Seen) → IsWritten bytes output new_output answer
        → AreDone (WritesAlone bytes kind) (streams source output report) (streams source new_output report) result }
{
    match answer {
        Ok(()) => Ok(kind),
        Err(WriteFault) => Err(LoopEnd::WriteFault),
    }
}

/// A line of the report, whose write was answered so: the fault that ends the loop names the report. So callers don't
/// use `?` on the write itself, which would make a fault of the output of it.
pub(crate) fn line_reported(answer: Result<(), WriteFault>) -> Result<(), LoopEnd>
    ensures written { (line : List ℕ) (old new : Seen) → IsWritten line old new answer → IsWritten line old new result }
    ensures fault { IfErr result (λ end. end ≡ LoopEnd.ReportFault) }
{
    match answer {
        Ok(()) => Ok(()),
        Err(WriteFault) => Err(LoopEnd::ReportFault),
    }
}
