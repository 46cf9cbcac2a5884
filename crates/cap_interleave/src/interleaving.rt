//! The loop over the blocks of several captures. It has several inputs, so that the loop of dvd_loop doesn't serve it.
//! A unit is block `k` of each capture, counted from 0. Of a capture that has ended no byte comes.
ghost use Rattle.std.specs.Prelude.{◌≡◌, ◌≤◌, length, IfErr, OnOk};
ghost use Rattle.cap_interleave.specs.Inner.{AreReadTo, EndsBroken, IsUnitInterleaved, fresh, task_of};
ghost use Rattle.cap_interleave.specs.Interleaved.{IsInterleaved};

use crate::buffers::Buffers;
use crate::ends::InterleaveEnd;
use dvd_ports::{Failed, Sink, Source, WriteFault};

/// Writes block 0 of each capture, then block 1 of each, and so on. Nothing is tried again: a failed call, and a read
/// that met the end of a capture, is the last of its stream. The buffers are those that `Buffers::new` made for as many
/// captures. Sixteen captures are what a unit has room for.
pub fn interleave_loop<S: Source, K: Sink>(
    buffers: &mut Buffers,
    captures: &mut [S],
    out: &mut K,
) -> InterleaveEnd
    requires fresh { buffers.old ≡ fresh (task_of buffers.old) }
    requires count { length captures.old ≡ length buffers.old.held }
    requires few { length captures.old ≤ 16 }
    ensures { IsInterleaved S.seen (task_of buffers.old) captures.old captures.new (K.seen out.old) (K.seen out.new) result }
{
    // `interleave_unit` answers the other ends. A block number has 32 bits, so that captures without end come to
    // `Long`.
    for k in 0..u32::MAX {
        if let Err(end) = interleave_unit(k, buffers, captures, out) {
            return end;
        }
    }
    InterleaveEnd::Long
}

// Writes block `k` of each capture, or answers how the loop ends. All are read, and their lengths checked, before
// anything is written. So the output has a block of each or of none, but for a first part where the write fails. Where
// the captures end, the end comes from `check`, which names block `k` if one of them is short.
fn interleave_unit<S: Source, K: Sink>(
    k: u32,
    buffers: &mut Buffers,
    captures: &mut [S],
    out: &mut K,
) -> Result<(), InterleaveEnd>
    requires count { length captures.old ≡ length buffers.old.held }
    requires few { length captures.old ≤ 16 }
    ensures { IsUnitInterleaved S.seen k buffers.old buffers.new captures.old captures.new (K.seen out.old) (K.seen out.new) result }
{
    read_unit(buffers, captures)?;
    buffers.check(k)?;
    match buffers.write(out) {
        Ok(()) => Ok(()),
        Err(WriteFault) => Err(InterleaveEnd::WriteFault),
    }
}

// Reads the next block of each capture, in their order. A failed read ends it there: the captures after it are as they
// were, and the unit isn't written. Which blocks are short is asked later, by `check`. There are at most sixteen, so
// that `c` fits 32 bits.
fn read_unit<S: Source>(buffers: &mut Buffers, captures: &mut [S]) -> Result<(), InterleaveEnd>
    requires count { length captures.old ≡ length buffers.old.held }
    requires few { length captures.old ≤ 16 }
    ensures read { OnOk result (AreReadTo S.seen (length captures.old) buffers.old buffers.new captures.old captures.new) }
    ensures broken { IfErr result (EndsBroken S.seen buffers.old captures.old captures.new) }
{
    buffers.clear();
    for c in 0..captures.len() {
        match buffers.read(c, &mut captures[c]) {
            Ok(()) => {}
            Err(Failed) => return Err(InterleaveEnd::ReadFault { capture: c as u32 }),
        }
    }
    Ok(())
}
