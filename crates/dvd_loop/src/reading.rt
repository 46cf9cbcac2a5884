//! The bytes of one unit. `seen` is what a clause sees of a stream: its bytes, how often it failed and ended, and
//! whether its last call did either.
ghost use Rattle.std.specs.Prelude.{◌<◌, ◌^◌, length, IfErr, OnOk};
ghost use Rattle.dvd_ports.specs.Bytes.{Consumes};
ghost use Rattle.dvd_loop.specs.UnitCommand.{EndsShort, HasReadCause};

use crate::LoopEnd;
use dvd_ports::{Source, read_whole};

/// Reads unit `k`, whose bytes fill the buffer, or answers how the loop ends within it. The failed read, or the one
/// that met the end of the input, is then the last. The buffer may have a part of the unit then, on which nobody acts.
/// Commands call it, and not the loop, since they have the buffers.
pub fn read_unit<S: Source>(src: &mut S, k: u32, unit: &mut [u8]) -> Result<(), LoopEnd>
    requires { length unit.old < 2 ^ 32 }
    ensures whole { OnOk result (Consumes (S.seen src.old).bytes (S.seen src.new).bytes unit.new) }
    ensures short { IfErr result (EndsShort k (length unit.new) (S.seen src.old) (S.seen src.new)) }
    ensures causes { HasReadCause result (S.seen src.old) (S.seen src.new) }
{
    // `?` makes a failed read the end `ReadFault`. The buffer is shorter than 2^32 bytes, so that a number of its bytes
    // has room in 32 bits, as an end has it. Each caller proves it of its buffer.
    let held = read_whole(src, unit)?;
    if held < unit.len() {
        return Err(LoopEnd::Short {
            unit: k,
            bytes: held as u32,
        });
    }
    Ok(())
}
