//! A reader whose calls are counted, for contracts alone. Of a read that failed std says nothing by which a contract
//! could distinguish it from two: without the count, a body that tries a failed read again would be proved. The reader
//! lies in this module, and whoever has it here reads by the one call that counts.
ghost use Rattle.std.specs.Prelude.{◌≡◌, ◌+◌, [], length, ℕ};
ghost use Rattle.std.specs.Io.{ReadsAtMost};
ghost use Rattle.std.specs.Io.KnownBytes.{ReadConsumes};

use crate::moved::Moved;
use std::io;
use std::io::Read;

/// A reader, and how often it was called.
#[derive(Drop)]
pub struct Counted<R: Read> {
    reader: R,
    // A byte for each call: the log is there, and what it holds doesn't matter.
    calls: Moved,
}

impl<R: Read> Counted<R> {
    ghost use Rattle.dvd_ports.specs.Adapters.{calls_made, counted_reader};

    /// This reader, before its first call.
    pub fn new(reader: R) -> Counted<R>
        ensures reader { counted_reader result ≡ reader }
        ensures calls { calls_made result ≡ 0 }
    {
        Counted {
            reader,
            calls: Moved::new(),
        }
    }

    /// One call of the reader.
    pub fn read(&mut self, buf: &mut [u8]) -> io::Result<usize>
        ensures once { calls_made self.new ≡ calls_made self.old + 1 }
        ensures bound { ReadsAtMost result buf.new }
        ensures bytes { ReadConsumes (R.remaining (counted_reader self.old)) (R.remaining (counted_reader self.new)) result buf.new }
    {
        self.calls.note(&[0]);
        self.reader.read(buf)
    }

    /// The reader itself, to be looked at.
    #[cfg(test)]
    pub fn inner(&self) -> &R {
        &self.reader
    }
}
