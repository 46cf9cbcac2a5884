//! Whole pieces: a write of all bytes, and a read that fills a buffer. A call may move fewer bytes than it is asked to.
//! Who uses these two needn't know how many calls a piece took. `tactic` is for the prover alone: it names lemmas by
//! which what several calls moved is one piece. They aren't std's `write_all` and `read_exact`: those try an
//! interrupted call again, and the second doesn't say how many bytes came before the end.
ghost use Rattle.std.specs.Prelude.{◌<◌, length, take, IfOk, OnErr};
ghost use Rattle.std.specs.Io.{ReadsAtMost};
ghost use Rattle.dvd_ports.specs.Bytes.{Consumes, IsAtEnd};
ghost use Rattle.dvd_ports.specs.Causes.{HasFilled};
ghost use Rattle.dvd_ports.specs.Whole.{ConsumesFewer, IsWritten};

use crate::{Failed, Sink, Source, WriteFault};

/// Writes the whole piece, in one call or several. After a fault the sink has accepted a prefix of the piece and not
/// all of it, and the failed call is the last. A piece without bytes takes no call. The error is another type than that
/// of a read, so that a caller's `?` makes another end of it.
#[tactic(auto, using(crate::proofs::KnownLemmas::write_begun, crate::proofs::KnownLemmas::writes_more))]
pub fn write_whole<K: Sink>(out: &mut K, buf: &[u8]) -> Result<(), WriteFault>
    ensures { IsWritten buf.now (K.seen out.old) (K.seen out.new) result }
{
    // Each call accepts a byte at least or fails, so the loop ends.
    let mut written = 0;
    while written < buf.len() {
        match out.write(&buf[written..]) {
            Ok(count) => written += count,
            // Nothing is tried again: a second call would hide that one failed. How much was written isn't answered,
            // since no caller goes on from there.
            Err(Failed) => return Err(WriteFault),
        }
    }
    Ok(())
}

/// Fills the buffer, in one call or several, and returns the number of bytes read. It is less than the buffer's length
/// only at the end of the input, which is believed at once. After a fault fewer bytes than the buffer's length were
/// read from the source, and the failed call is the last. What they are isn't said, and no caller looks.
#[tactic(auto, using(crate::proofs::KnownLemmas::reads_more, crate::proofs::KnownLemmas::reads_inside))]
pub fn read_whole<S: Source>(src: &mut S, buf: &mut [u8]) -> Result<usize, Failed>
    ensures bound { ReadsAtMost result buf.new }
    ensures taken { IfOk result (λ count. Consumes (S.seen src.old).bytes (S.seen src.new).bytes (take count buf.new)) }
    ensures end { IfOk result (λ count. count < length buf.new → IsAtEnd (S.seen src.new).bytes) }
    ensures begun { OnErr result (ConsumesFewer (S.seen src.old).bytes (S.seen src.new).bytes (length buf.new)) }
    ensures stops { HasFilled (length buf.new) (S.seen src.old) (S.seen src.new) result }
{
    let mut filled = 0;
    while filled < buf.len() {
        let count = src.read(&mut buf[filled..])?;
        // There was room, so the input ended. To read once more could wait for a terminal.
        if count == 0 {
            return Ok(filled);
        }
        filled += count;
    }
    Ok(filled)
}
