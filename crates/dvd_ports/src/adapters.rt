//! Sources and sinks over std's readers and writers. Each counts its own errors, and a source also how often its input
//! ended. The counts have 64 bits and stay at their greatest number. They begin at 0 and never fall, so that a caller
//! sees by them whether a call failed. `stopped` says that the last call failed or met the end. No code reads it:
//! contracts do, through `seen`. They ask that the call that failed was the last, which the counts don't show, since
//! calls that move bytes leave these as they are. `derive(Drop)` lets an owner let go of a value.
ghost use Rattle.std.specs.Prelude.{◌≡◌, ◌+◌, ◌<◌, [], length, take, None, IfOk, OnErr, is_ok, false, if◌then◌else◌};
ghost use Rattle.std.specs.Io.KnownBytes.{Appends as GainsKnown};
ghost use Rattle.dvd_ports.specs.Calls.{IsRead, IsWrite};
ghost use Rattle.dvd_ports.specs.Causes.{next_count};
ghost use Rattle.dvd_ports.specs.Whole.{GainsPrefix};

use crate::counted::Counted;
use crate::moved::Moved;
use crate::{Failed, Sink, Source};
use std::io::{Read, Write};

#[cfg(test)]
mod tests;

/// A source over a reader, for real streams. The bytes that are left are known where std knows those of the reader; those
/// that its reads returned are known always. An error's kind is dropped, and nobody asks for it: each is a fault, an
/// interrupted call too, since nothing is tried again.
#[derive(Drop)]
pub struct StdSource<R: Read> {
    reader: Counted<R>,
    // What its reads returned.
    moved: Moved,
    faults: u64,
    ends: u64,
    stopped: bool,
}

impl<R: Read> StdSource<R> {
    ghost use Rattle.dvd_ports.specs.Adapters.{source_calls, source_reader};

    /// A source over this reader. Nothing is read yet.
    pub fn new(reader: R) -> StdSource<R>
        ensures reader { source_reader result ≡ reader }
        ensures calls { source_calls result ≡ 0 }
        ensures seen { ⟦<StdSource<R> as Source>⟧.seen result ≡ record { bytes = record { moved = []; left = R.remaining reader }; faults = 0; ends = 0; stopped = false } }
    {
        StdSource {
            reader: Counted::new(reader),
            moved: Moved::new(),
            faults: 0,
            ends: 0,
            stopped: false,
        }
    }
}

impl<R: Read> Source for StdSource<R> {
    ghost use Rattle.dvd_ports.specs.Adapters.{source_calls, source_reader};

    ghost seen = { λ s. record { bytes = record { moved = s.moved.bytes; left = R.remaining (source_reader s) }; faults = s.faults; ends = s.ends; stopped = s.stopped } };

    fn read(&mut self, buf: &mut [u8]) -> Result<usize, Failed>
        ensures counts { (⟦<StdSource<R> as Source>⟧.seen self.new).faults
            ≡ (if is_ok result then (⟦<StdSource<R> as Source>⟧.seen self.old).faults
            else next_count (⟦<StdSource<R> as Source>⟧.seen self.old).faults) }

        // The reader is called once, and a call that failed isn't tried again.
        ensures once { 0 < length buf.old → source_calls self.new ≡ source_calls self.old + 1 }

        // As every source.
        ensures call { IsRead (⟦<StdSource<R> as Source>⟧.seen self.old) (⟦<StdSource<R> as Source>⟧.seen self.new) result buf.new }
        ensures empty { length buf.old ≡ 0 → (result ≡ Ok 0) × (self.new ≡ self.old) }
    {
        // The reader isn't asked: its 0 would be taken for the end of the input.
        if buf.is_empty() {
            return Ok(0);
        }
        // Set first, and taken back only where bytes came: no other way out can miss it.
        self.stopped = true;
        match self.reader.read(buf) {
            Ok(0) => {
                self.ends = self.ends.saturating_add(1);
                Ok(0)
            }
            Ok(count) => {
                self.moved.note(&buf[..count]);
                self.stopped = false;
                Ok(count)
            }
            Err(_) => {
                self.faults = self.faults.saturating_add(1);
                Err(Failed)
            }
        }
    }
}

/// A sink over a writer, which it flushes after each write, so that a fault is known at the write that caused it. A
/// write that accepts nothing of a piece has failed, so that a loop over the sink ends. A failed call accepted none, as
/// for every sink: where only the flush failed, the bytes of that call don't count as accepted, though the writer may
/// have them.
#[derive(Drop)]
pub struct StdSink<W: Write> {
    writer: W,
    // What its writes accepted.
    moved: Moved,
    faults: u64,
    stopped: bool,
}

impl<W: Write> StdSink<W> {
    ghost use Rattle.dvd_ports.specs.Adapters.{sink_writer};

    /// A sink over this writer. Nothing is written yet. `ends` is 0 for each sink: only an input ends.
    pub fn new(writer: W) -> StdSink<W>
        ensures writer { sink_writer result ≡ writer }
        ensures seen { ⟦<StdSink<W> as Sink>⟧.seen result ≡ record { bytes = record { moved = []; left = None }; faults = 0; ends = 0; stopped = false } }
    {
        StdSink {
            writer,
            moved: Moved::new(),
            faults: 0,
            stopped: false,
        }
    }
}

impl<W: Write> Sink for StdSink<W> {
    ghost use Rattle.dvd_ports.specs.Adapters.{sink_writer};

    ghost seen = { λ s. record { bytes = record { moved = s.moved.bytes; left = None }; faults = s.faults; ends = 0; stopped = s.stopped } };

    // For the prover, two lemmas: a write takes a prefix of the piece, whether it fails or not, and a flush no more.
    #[tactic(auto, using(crate::proofs::KnownLemmas::write_prefix, crate::proofs::KnownLemmas::prefix_kept))]
    fn write(&mut self, buf: &[u8]) -> Result<usize, Failed>
        ensures counts { (⟦<StdSink<W> as Sink>⟧.seen self.new).faults
            ≡ (if is_ok result then (⟦<StdSink<W> as Sink>⟧.seen self.old).faults
            else next_count (⟦<StdSink<W> as Sink>⟧.seen self.old).faults) }

        // What std knows of the writer's bytes. Where only the flush failed, the writer may have the whole piece.
        ensures written { IfOk result (λ count.
            GainsKnown (W.contents (sink_writer self.old)) (W.contents (sink_writer self.new)) (take count buf.now)) }
        ensures begun { OnErr result (GainsPrefix (W.contents (sink_writer self.old)) (W.contents (sink_writer self.new)) buf.now) }

        // As every sink.
        ensures call { IsWrite (⟦<StdSink<W> as Sink>⟧.seen self.old) (⟦<StdSink<W> as Sink>⟧.seen self.new) result buf.now }
        ensures empty { length buf.now ≡ 0 → (result ≡ Ok 0) × (self.new ≡ self.old) }
    {
        // The writer isn't asked: to accept no byte of none isn't a fault.
        if buf.is_empty() {
            return Ok(0);
        }
        // Set first, and taken back only where bytes were written and flushed: no other way out can miss it.
        self.stopped = true;
        match self.writer.write(buf) {
            Ok(count) if count > 0 => match self.writer.flush() {
                Ok(()) => {
                    self.moved.note(&buf[..count]);
                    self.stopped = false;
                    Ok(count)
                }
                Err(_) => {
                    self.faults = self.faults.saturating_add(1);
                    Err(Failed)
                }
            },
            // An error, or no byte of a piece that has some. Nothing was accepted, so nothing is flushed.
            _ => {
                self.faults = self.faults.saturating_add(1);
                Err(Failed)
            }
        }
    }
}
