//! One run, its streams and what it leaves. A run here is that of the program: its arguments as words, its streams over
//! memory by the adapters that `main` has, and its status. The streams go in pieces and fail at one call, and see that
//! nothing is tried again: after a failed call, and after a read that met the end of the input, no stream is asked for
//! anything more but the report, for the closing line; and after a fault of the report not even that. They are std's
//! readers and writers, and not sources and sinks, so that a run goes by these adapters, flushes included.
use crate::amounts::is;
use crate::runs::StreamCall::{Flush, FlushReport, Report};
use dvd_par::Gate;
use dvd_ports::{StdSink, StdSource};
use dvd_top::{Status, run};
use std::alloc::Global;
use std::cell::Cell;
use std::io::{self, ErrorKind, Read, Write};
use std::thread::Threads;

/// What runs need of a runtime, besides memory: threads.
pub trait Runtime: Threads + Sync {}

impl<R: Threads + Sync> Runtime for R {}

/// The kinds of calls, of which one may fail.
#[derive(Clone, Copy, PartialEq, Eq)]
pub enum StreamCall {
    Read,
    Write,
    Flush,
    Report,
    FlushReport,
}

/// The most bytes of a call; the one call that fails: its kind, and how many such come before; where the input ends.
#[derive(Clone, Copy)]
pub struct Plan {
    pub step: usize,
    pub call: StreamCall,
    pub count: usize,
    pub end: usize,
}

/// No call fails: no run makes so many. A run leaves the same by any step; by one longer than a block it is quick.
pub const SOUND: Plan = Plan {
    step: 40_000,
    call: StreamCall::Read,
    count: usize::MAX,
    end: usize::MAX,
};

/// What the streams of a run have in common: cells, since each of three streams notes what it sees.
#[derive(Drop)]
pub struct Watch {
    plan: Plan,
    coming: Cell<usize>, // the calls that come before the one that fails
    pub read: Cell<usize>, // the bytes that were read
    pub stopped: Cell<Option<StreamCall>>, // the last call that failed or met the end of the input
    is_late: Cell<bool>, // and then a call came, but for a closing line
    lines: Cell<usize>, // the lines of the report that begin then
}

impl Watch {
    // A call comes, and fails where the plan says so. After one that stopped, any is late but those of the report; and
    // those are late after a fault of its own. Else they may be of the closing line, of which the beginning is counted.
    fn begin(&self, call: StreamCall, begins_line: bool) -> io::Result<()> {
        match self.stopped.get() {
            Some(Report | FlushReport) => self.is_late.set(true),
            Some(_) if !matches!(call, Report | FlushReport) => self.is_late.set(true),
            Some(_) if begins_line => self.lines.set(self.lines.get().saturating_add(1)),
            _ => {}
        }
        if self.plan.call == call {
            let coming = self.coming.get();
            self.coming.set(coming.wrapping_sub(1));
            if coming == 0 {
                self.stopped.set(Some(call));
                // The kind of error after which readers and writers commonly try again, which a run must not.
                return Err(ErrorKind::Interrupted.into());
            }
        }
        Ok(())
    }
}

// The input, of which `rest` is what wasn't read yet.
#[derive(Drop)]
struct Input<'a> {
    watch: &'a Watch,
    rest: &'a [u8],
}

impl<'a> Read for Input<'a> {
    fn read(&mut self, buf: &mut [u8]) -> io::Result<usize> {
        self.watch.begin(StreamCall::Read, false)?;
        let count = self.watch.plan.step.min(buf.len().min(self.rest.len()));
        // The end of the input, as a source never asks with an empty buffer.
        if count == 0 {
            self.watch.stopped.set(Some(StreamCall::Read));
        }
        buf[..count].copy_from_slice(&self.rest[..count]);
        self.rest = &self.rest[count..];
        self.watch
            .read
            .set(self.watch.read.get().saturating_add(count));
        Ok(count)
    }
}

// The output, or the report: `calls` are the kinds of its writes and of its flushes. `held` is what it got.
#[derive(Drop)]
struct Output<'a> {
    watch: &'a Watch,
    calls: [StreamCall; 2],
    held: &'a mut Vec<u8>,
}

impl<'a> Write for Output<'a> {
    // A line begins where nothing or a whole line is held. By want of memory of the test the run sees a fault, and the
    // line that wants another status doesn't hold.
    fn write(&mut self, buf: &[u8]) -> io::Result<usize> {
        let begins_line = matches!(self.held.last(), None | Some(b'\n'));
        self.watch.begin(self.calls[0], begins_line)?;
        let count = self.watch.plan.step.min(buf.len());
        self.held.extend_from_slice(&buf[..count])?;
        Ok(count)
    }

    // A sink flushes each write at once, so that a flush has the number of its write.
    fn flush(&mut self) -> io::Result<()> {
        self.watch.begin(self.calls[1], false)
    }
}

/// What a run leaves.
#[derive(Drop)]
pub struct Left {
    pub status: Status,
    pub output: Vec<u8>,
    pub report: Vec<u8>,
    pub watch: Watch, // what its streams saw
}

impl Left {
    /// Nothing yet. `is_same` accepts no `NoMemory`, so that this is like no result.
    pub fn new(alloc: Global, plan: Plan) -> Left {
        Left {
            status: Status::NoMemory,
            output: Vec::new(alloc),
            report: Vec::new(alloc),
            watch: Watch {
                plan,
                coming: Cell::new(plan.count),
                read: Cell::new(0),
                stopped: Cell::new(None),
                is_late: Cell::new(false),
                lines: Cell::new(0),
            },
        }
    }

    /// Whether both runs had memory and left the same. How much they read isn't compared.
    pub fn is_same(&self, other: &Left) -> Option<()> {
        let is_end = self.status == other.status && self.status != Status::NoMemory;
        let is_output = self.output.as_slice() == other.output.as_slice();
        is(is_end && is_output && self.report.as_slice() == other.report.as_slice())
    }
}

/// The words of this text as arguments; `no words` are none, since an empty text says that no run is named yet: there
/// is no such run. No argument of a test has a blank in it.
pub fn words_of(alloc: Global, text: &str) -> Option<Vec<String>> {
    is(!text.is_empty())?;
    let mut words = Vec::new(alloc);
    let text = if text == "no words" { "" } else { text };
    for word in text.split_whitespace() {
        words.push(String::from_str(alloc, word).ok()?).ok()?;
    }
    Some(words)
}

/// Runs the arguments over these bytes, where the workers ask this gate. Answers whether nothing was tried again, so
/// each run of each text tests that: nothing but the closing line came after a call that stopped. Lines are counted and
/// not calls, since a line may go in many; none at all is right too, as after a fault of the report. What a run leaves
/// is handed over by the caller, so that it is there to be printed where something was.
pub fn run_over(
    rt: &impl Runtime,
    gate: &impl Gate,
    text: &str,
    bytes: &[u8],
    plan: Plan,
    left: &mut Left,
) -> Option<()> {
    let alloc = *left.output.allocator();
    let words = words_of(alloc, text)?;
    *left = Left::new(alloc, plan);
    let watch = &left.watch;
    let rest = &bytes[..plan.end.min(bytes.len())];
    let source = &mut StdSource::new(Input { watch, rest });
    let (calls, held) = ([StreamCall::Write, Flush], &mut left.output);
    let output = Output { watch, calls, held };
    let (calls, held) = ([Report, FlushReport], &mut left.report);
    let report = Output { watch, calls, held };
    let (sink, lines) = (&mut StdSink::new(output), &mut StdSink::new(report));
    left.status = run(rt, alloc, &words, gate, source, sink, lines);
    is(!left.watch.is_late.get() && left.watch.lines.get() <= 1)
}
