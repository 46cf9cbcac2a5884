//! Sources, sinks and their errors. They are traits of this project and not std's readers and writers, since a contract
//! asks of an object what those don't have: how often it failed, whether its last call did, and which bytes its calls
//! have moved. `Seen` is that, and what is known of the bytes that are left. The texts of the errors are for who prints one: the programs have lines of their own.
ghost use Rattle.std.specs.Prelude.{◌≡◌, length};
ghost use Rattle.dvd_ports.specs.Calls.{IsRead, IsWrite};
ghost use Rattle.dvd_ports.specs.Seen.{Seen};

use thiserror::Error;

/// A single call of a source or a sink failed. The object's count of faults has risen by one. It has no kind and no
/// cause, since whatever it is nothing is tried again.
#[derive(Clone, Copy, Debug, PartialEq, Eq, Drop, Error)]
#[error("the call failed")]
pub struct Failed;

/// A piece couldn't be written whole. It is another error than `Failed`, so that a loop can end by it in another way
/// than by a failed read.
#[derive(Clone, Copy, Debug, PartialEq, Eq, Drop, Error)]
#[error("a write failed")]
pub struct WriteFault;

/// There was no memory for an object. It is here since the crates that allocate share it.
#[derive(Clone, Copy, Debug, PartialEq, Eq, Drop, Error)]
#[error("no memory")]
pub struct NoMemory;

/// Where bytes come from.
pub trait Source {
    /// The bytes that its reads returned, and those left where they are known; the counts of faults and of ends; and whether the last call
    /// failed or met the end. By the last the contracts of callers say that they try nothing again: their last call is
    /// the one that failed or met the end. It asks nothing of the stream, which may answer a further call as it likes.
    ghost seen: { Self → Seen };

    /// Moves bytes to the beginning of `buf` and returns their number. The rest of `buf` may be anything, and all of it
    /// after an error, which loses no byte of the input. Into a buffer with room, 0 is the end of the input. With an
    /// empty buffer nothing is moved and nothing changes, so that such a call is never mistaken for that
    /// end.
    fn read(&mut self, buf: &mut [u8]) -> Result<usize, Failed>
        ensures call { IsRead (seen self.old) (seen self.new) result buf.new }
        ensures empty { length buf.old ≡ 0 → (result ≡ Ok 0) × (self.new ≡ self.old) };
}

/// Where bytes go.
pub trait Sink {
    /// The bytes that its writes accepted; the count of faults; and whether the last call failed.
    ghost seen: { Self → Seen };

    /// Accepts bytes from the beginning of `buf` and returns their number: at least one, if there is one, so that a
    /// loop over a piece ends. With an empty buffer nothing changes.
    fn write(&mut self, buf: &[u8]) -> Result<usize, Failed>
        ensures call { IsWrite (seen self.old) (seen self.new) result buf.now }
        ensures empty { length buf.now ≡ 0 → (result ≡ Ok 0) × (self.new ≡ self.old) };
}
