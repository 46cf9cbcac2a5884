//! Sources over memory. Their bytes are known, and a call fails only where its number is listed. They are part of the
//! library, since the crates that depend on it test their faults with them. What a contract sees of each is a value,
//! its `Model`: clauses name its fields, so that a test knows each count. Counts stay at their greatest number, of 64
//! bits. Contracts ask by `stopped` that a call that failed, or met the end, was the last. The clauses of `read` say
//! more than those of every source, exactly what each call does, so that a test can state what must come.
//! `derive(Drop)` lets an owner let go of a value.
ghost use Rattle.std.specs.Prelude.{◌≡◌, ◌<◌, ◌≤◌, ◌↔◌, ◌++◌, [], length, take, drop, min, Some, Contains, IfOk, IsErr, OnErr, OnOk, true, false};
ghost use Rattle.dvd_ports.specs.Calls.{IsRead};
ghost use Rattle.dvd_ports.specs.Causes.{next_count};
ghost use Rattle.dvd_ports.specs.Memory.{slice_seen, source_seen};

use crate::{Failed, Source};
use std::marker::Model;

/// A source over borrowed bytes. Each call gives the bytes that are left, as far as the buffer has room; none fails.
/// It isn't for tests alone: a command that reads nothing is lent an empty one, and a caller's buffer is read by one.
#[derive(Drop)]
pub struct SliceSource<'a> {
    bytes: &'a [u8],
    // How many of them were given.
    at: usize,
    // How many calls met the end.
    ends: u64,
    // Whether the last call, of those whose buffer had room, gave nothing.
    stopped: bool,
}

impl<'a> Model for SliceSource<'a> {
    ghost use Rattle.std.specs.Prelude.{◌≤◌, drop, length, take};
    ghost use Rattle.dvd_ports.specs.Memory.{SliceState};

    ghost Value = { SliceState };

    ghost view = { λ s. record { given = take s.at s.bytes.now; left = drop s.at s.bytes.now; ends = s.ends; stopped = s.stopped } };

    ghost invariant = { λ s. s.at ≤ length s.bytes.now };
}

impl<'a> SliceSource<'a> {
    /// A source of these bytes. They are borrowed, so that it takes no memory and copies nothing before a read.
    pub fn new(bytes: &'a [u8]) -> SliceSource<'a>
        ensures { result ≡ record { given = []; left = bytes.now; ends = 0; stopped = false } }
    {
        SliceSource {
            bytes,
            at: 0,
            ends: 0,
            stopped: false,
        }
    }
}

impl<'a> Source for SliceSource<'a> {
    ghost seen = { slice_seen };

    fn read(&mut self, buf: &mut [u8]) -> Result<usize, Failed>
        ensures gives { result ≡ Ok (min (length buf.old) (length self.old.left)) }
        ensures fills { IfOk result (λ count. buf.new ≡ take count self.old.left ++ drop count buf.old) }
        ensures leaves { 0 < length buf.old → 0 < length self.old.left → IfOk result (λ count.
            self.new ≡ record self.old { given = self.old.given ++ take count self.old.left; left = drop count self.old.left; stopped = false }) }
        ensures ended { 0 < length buf.old → length self.old.left ≡ 0
            → self.new ≡ record self.old { ends = next_count self.old.ends; stopped = true } }

        // As every source.
        ensures call { IsRead (slice_seen self.old) (slice_seen self.new) result buf.new }
        ensures empty { length buf.old ≡ 0 → (result ≡ Ok 0) × (self.new ≡ self.old) }
    {
        // Not counted: it isn't the end of the input, and such a call changes nothing.
        if buf.is_empty() {
            return Ok(0);
        }
        // There is room, so a call that gives nothing has met the end. An end may be met again: each time counts.
        self.stopped = true;
        if self.at == self.bytes.len() {
            self.ends = self.ends.saturating_add(1);
            return Ok(0);
        }
        self.stopped = false;
        let count = buf.len().min(self.bytes.len() - self.at);
        buf[..count].copy_from_slice(&self.bytes[self.at..self.at + count]);
        self.at += count;
        Ok(count)
    }
}

/// A source over bytes of its own, for tests: it gives at most `step` bytes a call, and fails at the calls whose
/// numbers are listed. Calls into a buffer with room are numbered from 0, up to the greatest number of 64 bits, which
/// then stays.
#[derive(Drop)]
pub struct MemSource {
    bytes: Vec<u8>,
    // How many of them were given: they stay where they are, so that no read moves the rest.
    at: usize,
    // The most bytes a call, and the numbers of the calls that fail, from 0 on.
    step: usize,
    fails: Vec<u64>,
    // How many calls there were, how many failed, and how many met the end.
    calls: u64,
    faults: u64,
    ends: u64,
    // Whether the last call, of those whose buffer had room, gave nothing.
    stopped: bool,
}

impl Model for MemSource {
    ghost use Rattle.std.specs.Prelude.{◌≤◌, drop, take, vec_len};
    ghost use Rattle.dvd_ports.specs.Memory.{SourceState};

    ghost Value = { SourceState };

    ghost view = { λ s. record { given = take s.at s.bytes.items; left = drop s.at s.bytes.items; step = s.step; fails = s.fails.items; calls = s.calls; faults = s.faults; ends = s.ends; stopped = s.stopped } };

    ghost invariant = { λ s. (s.at ≤ vec_len s.bytes) × (1 ≤ s.step) };
}

impl MemSource {
    /// A source of these bytes, at most `step` of them a call; the calls with these numbers fail, in any order and with
    /// repetitions. `step` isn't 0: a call that gives nothing while there are bytes would say that they have ended.
    pub fn new(bytes: Vec<u8>, step: usize, fails: Vec<u64>) -> MemSource
        requires { 1 ≤ step }
        ensures { result ≡ record { given = []; left = bytes.items; step = step; fails = fails.items; calls = 0; faults = 0; ends = 0; stopped = false } }
    {
        MemSource {
            bytes,
            at: 0,
            step,
            fails,
            calls: 0,
            faults: 0,
            ends: 0,
            stopped: false,
        }
    }
}

impl Source for MemSource {
    ghost seen = { source_seen };

    fn read(&mut self, buf: &mut [u8]) -> Result<usize, Failed>
        ensures fails { IsErr result ↔ ((0 < length buf.old) × Contains self.old.fails self.old.calls) }
        ensures gives { IfOk result (λ count. count ≡ min self.old.step (min (length buf.old) (length self.old.left))) }
        ensures fills { IfOk result (λ count. buf.new ≡ take count self.old.left ++ drop count buf.old) }
        ensures leaves { 0 < length buf.old → 0 < length self.old.left → IfOk result (λ count.
            self.new ≡ record self.old { given = self.old.given ++ take count self.old.left; left = drop count self.old.left; calls = next_count self.old.calls; stopped = false }) }
        ensures ended { 0 < length buf.old → length self.old.left ≡ 0 → OnOk result (self.new
            ≡ record self.old { calls = next_count self.old.calls; ends = next_count self.old.ends; stopped = true }) }
        ensures failed { OnErr result (self.new
            ≡ record self.old { calls = next_count self.old.calls; faults = next_count self.old.faults; stopped = true }) }
        ensures untouched { OnErr result (buf.new ≡ buf.old) }

        // As every source.
        ensures call { IsRead (source_seen self.old) (source_seen self.new) result buf.new }
        ensures empty { length buf.old ≡ 0 → (result ≡ Ok 0) × (self.new ≡ self.old) }
    {
        // Such a call has no number: it is neither counted nor fails.
        if buf.is_empty() {
            return Ok(0);
        }
        // The number of this call, before it is counted. A call that fails comes before the end is looked for, and
        // leaves all bytes for the next.
        let call = self.calls;
        self.calls = call.saturating_add(1);
        // Taken back below where bytes come.
        self.stopped = true;
        if self.fails.contains(&call) {
            self.faults = self.faults.saturating_add(1);
            return Err(Failed);
        }
        if self.at == self.bytes.len() {
            self.ends = self.ends.saturating_add(1);
            return Ok(0);
        }
        self.stopped = false;
        let count = self.step.min(buf.len().min(self.bytes.len() - self.at));
        buf[..count].copy_from_slice(&self.bytes[self.at..self.at + count]);
        self.at += count;
        Ok(count)
    }
}
