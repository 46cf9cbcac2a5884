//! Sinks over memory, and one that keeps nothing. A call fails only where its number is listed, or where the sink is
//! full. What a contract sees of a sink in memory is a value, its `Model`, of which clauses name the fields. Contracts
//! ask by `stopped` that a call that failed was the last; no later call reads it. They are part of the library, since
//! the crates that depend on it use them. `derive(Drop)` lets an owner let go of a value.
ghost use Rattle.std.specs.Prelude.{◌≡◌, ◌<◌, ◌≤◌, ◌↔◌, ◌-◌, ◌⊎◌, ◌++◌, [], length, take, min, Some, None, Contains, IfOk, IsErr, OnErr, true, false};
ghost use Rattle.dvd_ports.specs.Calls.{IsWrite};
ghost use Rattle.dvd_ports.specs.Causes.{next_count};
ghost use Rattle.dvd_ports.specs.Memory.{sink_seen};

use crate::moved::Moved;
use crate::{Failed, NoMemory, Sink};
use std::alloc::Global;
use std::marker::Model;

/// A sink that keeps what it accepts, for tests. It has room for `room` bytes and accepts at most `step` of them a
/// call. It fails where it is full, and at the calls whose numbers are listed. Calls with a byte to write are numbered
/// from 0, up to the greatest number of 64 bits, which then stays.
#[derive(Drop)]
pub struct MemSink {
    held: Vec<u8>,
    // Kept beside the list, whose capacity may be more than was asked for: a test has to know where the sink is full.
    room: usize,
    step: usize,
    fails: Vec<u64>,
    calls: u64,
    faults: u64,
    stopped: bool,
}

impl Model for MemSink {
    ghost use Rattle.std.specs.Prelude.{◌≤◌, vec_len, vec_capacity};
    ghost use Rattle.dvd_ports.specs.Memory.{SinkState};

    ghost Value = { SinkState };

    ghost view = { λ s. record { held = s.held.items; room = s.room; step = s.step; fails = s.fails.items; calls = s.calls; faults = s.faults; stopped = s.stopped } };

    ghost invariant = { λ s. (vec_len s.held ≤ s.room) × (s.room ≤ vec_capacity s.held) × (1 ≤ s.step) };
}

impl MemSink {
    /// A sink with room for `room` bytes, whose memory is allocated here; no write allocates any, so none fails for
    /// want of it. `step` isn't 0: each call that doesn't fail has to accept a byte.
    pub fn new(
        alloc: Global,
        room: usize,
        step: usize,
        fails: Vec<u64>,
    ) -> Result<MemSink, NoMemory>
        requires { 1 ≤ step }
        ensures { IfOk result (λ sink. sink
            ≡ record { held = []; room = room; step = step; fails = fails.items; calls = 0; faults = 0; stopped = false }) }
    {
        let held = Vec::with_capacity(alloc, room).map_err(|_| NoMemory)?;
        Ok(MemSink {
            held,
            room,
            step,
            fails,
            calls: 0,
            faults: 0,
            stopped: false,
        })
    }

    /// The bytes that the sink has accepted, in order, for a test to compare.
    pub fn held(&self) -> &[u8]
        ensures { result.now ≡ self.now.held }
    {
        &self.held
    }
}

impl Sink for MemSink {
    ghost seen = { sink_seen };

    fn write(&mut self, buf: &[u8]) -> Result<usize, Failed>
        ensures fails { IsErr result
            ↔ ((0 < length buf.now) × (Contains self.old.fails self.old.calls ⊎ (length self.old.held ≡ self.old.room))) }
        ensures takes { IfOk result (λ count.
            count ≡ min self.old.step (min (length buf.now) (self.old.room - length self.old.held))) }
        ensures leaves { 0 < length buf.now → IfOk result (λ count.
            self.new ≡ record self.old { held = self.old.held ++ take count buf.now; calls = next_count self.old.calls; stopped = false }) }
        ensures failed { OnErr result (self.new
            ≡ record self.old { calls = next_count self.old.calls; faults = next_count self.old.faults; stopped = true }) }

        // As every sink.
        ensures call { IsWrite (sink_seen self.old) (sink_seen self.new) result buf.now }
        ensures empty { length buf.now ≡ 0 → (result ≡ Ok 0) × (self.new ≡ self.old) }
    {
        // Such a call has no number: it is neither counted nor fails, also where the sink is full.
        if buf.is_empty() {
            return Ok(0);
        }
        // The number of this call, before it is counted. A call that fails accepts nothing.
        let call = self.calls;
        self.calls = call.saturating_add(1);
        self.stopped = self.fails.contains(&call) || self.held.len() == self.room;
        if self.stopped {
            self.faults = self.faults.saturating_add(1);
            return Err(Failed);
        }
        let count = self.step.min(buf.len().min(self.room - self.held.len()));
        match self.held.extend_from_slice(&buf[..count]) {
            Ok(()) => Ok(count),
            // Room was allocated by `new`, and no more is written than there is room for.
            Err(_) => unreachable!(),
        }
    }
}

/// A sink that accepts everything, keeps nothing and never fails. It is lent as the report of commands that write none.
#[derive(Drop)]
pub struct NullSink {
    // What its writes accepted.
    moved: Moved,
}

impl NullSink {
    /// A sink that keeps nothing. Nothing is written yet.
    pub fn new() -> NullSink
        ensures { ⟦<NullSink as Sink>⟧.seen result ≡ record { bytes = record { moved = []; left = None }; faults = 0; ends = 0; stopped = false } }
    {
        NullSink {
            moved: Moved::new(),
        }
    }
}

impl Sink for NullSink {
    ghost seen = { λ s. record { bytes = record { moved = s.moved.bytes; left = None }; faults = 0; ends = 0; stopped = false } };

    fn write(&mut self, buf: &[u8]) -> Result<usize, Failed>
        ensures takes { result ≡ Ok (length buf.now) }

        // As every sink.
        ensures call { IsWrite (⟦<NullSink as Sink>⟧.seen self.old) (⟦<NullSink as Sink>⟧.seen self.new) result buf.now }
        ensures empty { length buf.now ≡ 0 → (result ≡ Ok 0) × (self.new ≡ self.old) }
    {
        if !buf.is_empty() {
            self.moved.note(buf);
        }
        Ok(buf.len())
    }
}
