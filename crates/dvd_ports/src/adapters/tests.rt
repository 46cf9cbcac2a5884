//! Readers and writers that move a part of a piece, move nothing, or fail. Each case is tried with two kinds of errors:
//! std's own loops try again after one of them, and no object here may.
use super::{StdSink, StdSource};
use crate::{Failed, Sink, Source, read_whole, write_whole};
use std::alloc::{AllocError, Global};
use std::io;
use std::io::{ErrorKind, Read, Write};
use std::test::Fail;

// A call number that no call has.
const NEVER: usize = usize::MAX;

// The error after which std's own loops try again.
const AGAIN: ErrorKind = ErrorKind::Interrupted;

// Another error.
const OTHER: ErrorKind = ErrorKind::Other;

// Gives at most `step` bytes a call and fails at one call.
#[derive(Drop)]
struct Reader<'a> {
    rest: &'a [u8],
    step: usize,
    fails: usize,
    kind: ErrorKind,
    calls: usize,
}

impl<'a> Reader<'a> {
    fn new(rest: &'a [u8], step: usize, fails: usize, kind: ErrorKind) -> Reader<'a> {
        Reader {
            rest,
            step,
            fails,
            kind,
            calls: 0,
        }
    }
}

impl<'a> Read for Reader<'a> {
    fn read(&mut self, buf: &mut [u8]) -> io::Result<usize> {
        let call = self.calls;
        self.calls = call.saturating_add(1);
        if call == self.fails {
            return Err(self.kind.into());
        }
        let count = self.step.min(buf.len().min(self.rest.len()));
        buf[..count].copy_from_slice(&self.rest[..count]);
        self.rest = &self.rest[count..];
        Ok(count)
    }
}

// Accepts at most `step` bytes a call and fails at one write and at one flush. `flushed` is the number of bytes that it
// had at its last flush.
#[derive(Drop)]
struct Writer {
    held: Vec<u8>,
    step: usize,
    fails: usize,
    flush_fails: usize,
    kind: ErrorKind,
    calls: usize,
    flushes: usize,
    flushed: usize,
}

impl Writer {
    fn new(
        alloc: Global,
        step: usize,
        fails: usize,
        flush_fails: usize,
        kind: ErrorKind,
    ) -> Writer {
        Writer {
            held: Vec::new(alloc),
            step,
            fails,
            flush_fails,
            kind,
            calls: 0,
            flushes: 0,
            flushed: 0,
        }
    }
}

impl Write for Writer {
    fn write(&mut self, buf: &[u8]) -> io::Result<usize> {
        let call = self.calls;
        self.calls = call.saturating_add(1);
        if call == self.fails {
            return Err(self.kind.into());
        }
        let count = self.step.min(buf.len());
        self.held.extend_from_slice(&buf[..count])?;
        Ok(count)
    }

    fn flush(&mut self) -> io::Result<()> {
        let flush = self.flushes;
        self.flushes = flush.saturating_add(1);
        if flush == self.flush_fails {
            return Err(self.kind.into());
        }
        self.flushed = self.held.len();
        Ok(())
    }
}

// `count` bytes: byte k is k modulo 251.
fn stream(alloc: Global, count: usize) -> Result<Vec<u8>, AllocError> {
    let mut bytes = Vec::new(alloc);
    for k in 0..count {
        bytes.push((k % 251) as u8)?;
    }
    Ok(bytes)
}

// Bytes of the input, length of the buffer, bytes a call of the reader, and the call that fails. 2,366 bytes are a
// recording frame, and 32,768 the sectors of a block.
type Reads = (usize, usize, usize, usize);

static READS: [Reads; 9] = [
    (0, 1, 1, 0),
    (5, 1, 9, NEVER),
    (5, 1, 1, 3),
    (9464, 2366, 9999, 0),
    (9465, 2366, 1000, 2),
    (9, 2366, 2366, 1),
    (98_304, 32_768, 32_768, 0),
    (70_000, 32_768, 32_767, 1),
    (25_000, 32_768, 2366, 7),
];

// An error where a call gives or counts something else. What it gives is added to what came before.
fn reads(
    source: &mut StdSource<Reader>,
    buf: &mut [u8],
    got: &mut Vec<u8>,
    case: &Reads,
    call: usize,
) -> Result<(), Fail> {
    let left = case.0.saturating_sub(got.len());
    let answer = source.read(buf);
    let wanted = if call == case.3 {
        Err(Failed)
    } else {
        Ok(case.2.min(case.1.min(left)))
    };
    let calls = call.saturating_add(1);
    let faults = u64::from(case.3 <= call);
    if answer != wanted || source.reader.inner().calls != calls || source.faults != faults {
        Err((case.0, call))?;
    }
    if source.stopped != matches!(answer, Ok(0) | Err(Failed)) {
        Err((case.0, call))?;
    }
    if let Ok(count) = answer {
        got.extend_from_slice(&buf[..count])?;
    }
    Ok(())
}

// All bytes come, by fourteen calls: more than the longest case needs, so that calls at the end are tried too.
fn gives(
    source: &mut StdSource<Reader>,
    buf: &mut [u8],
    got: &mut Vec<u8>,
    case: &Reads,
) -> Result<(), Fail> {
    for call in 0..14 {
        reads(source, buf, got, case, call)?;
    }
    Ok(())
}

// All bytes come too, where the error is of that kind.
fn come(alloc: Global, case: &Reads, kind: ErrorKind) -> Result<(), Fail> {
    let input = stream(alloc, case.0)?;
    let mut source = StdSource::new(Reader::new(&input, case.2, case.3, kind));
    let mut buf = vec![in alloc; 0u8; case.1]?;
    let mut got = Vec::new(alloc);
    gives(&mut source, &mut buf, &mut got, case)?;
    if got.as_slice() != input.as_slice() {
        Err(case.0)?;
    }
    Ok(())
}

#[test]
fn a_source_reads_once_a_call_and_counts_each_error(rt: HostRuntime) -> Result<(), Fail> {
    let alloc = rt.alloc();
    for case in &READS {
        come(alloc, case, AGAIN)?;
        come(alloc, case, OTHER)?;
    }
    Ok(())
}

// Length of the piece, bytes a call of the writer, and the write and the flush that fail.
type Writes = (usize, usize, usize, usize);

static WRITES: [Writes; 9] = [
    (1, 1, NEVER, NEVER),
    (1, 9, 0, 2),
    (1, 0, 3, NEVER),
    (2366, 2366, 0, 0),
    (2366, 1000, 2, NEVER),
    (2366, 9999, NEVER, 1),
    (32_768, 32_768, NEVER, 0),
    (32_768, 32_768, 0, NEVER),
    (32_768, 2366, 1, 3),
];

// What a writer must have, and what a sink must count.
#[derive(Drop)]
struct Wanted {
    held: Vec<u8>,
    calls: usize,
    flushes: usize,
    faults: u64,
    stopped: bool,
}

impl Wanted {
    // One more call, and what it answers.
    fn write(&mut self, piece: &[u8], case: &Writes) -> Result<Result<usize, Failed>, AllocError> {
        let taken = if self.calls == case.2 {
            0
        } else {
            case.1.min(piece.len())
        };
        let fault = taken == 0 || self.flushes == case.3;
        self.calls = self.calls.saturating_add(1);
        self.flushes = self.flushes.saturating_add(usize::from(taken > 0));
        self.faults = self.faults.saturating_add(u64::from(fault));
        self.stopped = fault;
        self.held.extend_from_slice(&piece[..taken])?;
        Ok(if fault { Err(Failed) } else { Ok(taken) })
    }

    // Whether the writer has that, and the sink counts that.
    fn is_in(&self, sink: &StdSink<Writer>) -> bool {
        sink.writer.held.as_slice() == self.held.as_slice()
            && sink.writer.calls == self.calls
            && sink.writer.flushes == self.flushes
            && sink.faults == self.faults
            && sink.stopped == self.stopped
    }
}

// An error where a call answers, leaves or counts something else.
fn writes(
    sink: &mut StdSink<Writer>,
    piece: &[u8],
    wanted: &mut Wanted,
    case: &Writes,
) -> Result<(), Fail> {
    let answer = wanted.write(piece, case)?;
    if sink.write(piece) != answer || !wanted.is_in(sink) {
        Err((case.0, wanted.calls))?;
    }
    if answer.is_ok() && sink.writer.flushed != wanted.held.len() {
        Err((case.0, wanted.calls))?;
    }
    Ok(())
}

// Six calls do what they have to.
fn takes(alloc: Global, case: &Writes, kind: ErrorKind) -> Result<(), Fail> {
    let piece = stream(alloc, case.0)?;
    let mut sink = StdSink::new(Writer::new(alloc, case.1, case.2, case.3, kind));
    let mut wanted = Wanted {
        held: Vec::new(alloc),
        calls: 0,
        flushes: 0,
        faults: 0,
        stopped: false,
    };
    for _ in 0..6 {
        writes(&mut sink, &piece, &mut wanted, case)?;
    }
    Ok(())
}

#[test]
fn a_sink_writes_and_flushes_once_a_call_and_counts_each_error(
    rt: HostRuntime,
) -> Result<(), Fail> {
    let alloc = rt.alloc();
    for case in &WRITES {
        takes(alloc, case, AGAIN)?;
        takes(alloc, case, OTHER)?;
    }
    Ok(())
}

// Bytes a call, the call that fails, and the number of calls that a piece of 32,768 bytes then needs.
type Whole = (usize, usize, usize);

static WHOLE: [Whole; 4] = [
    (32_768, NEVER, 1),
    (2366, NEVER, 14),
    (2366, 5, 6),
    (1, 32_767, 32_768),
];

// A piece is read whole, or until the call that fails.
fn is_read(alloc: Global, piece: &[u8], case: &Whole, kind: ErrorKind) -> Result<(), Fail> {
    let mut source = StdSource::new(Reader::new(piece, case.0, case.1, kind));
    let mut buf = vec![in alloc; 0u8; 32_768]?;
    let read = read_whole(&mut source, &mut buf);
    let is_right = if case.1 == NEVER {
        read == Ok(32_768) && buf.as_slice() == piece && source.faults == 0
    } else {
        read == Err(Failed) && source.faults == 1
    };
    if !is_right || source.reader.inner().calls != case.2 {
        Err(*case)?;
    }
    Ok(())
}

// A piece is written whole, or until the call that fails.
fn is_written(alloc: Global, piece: &[u8], case: &Whole, kind: ErrorKind) -> Result<(), Fail> {
    let mut sink = StdSink::new(Writer::new(alloc, case.0, case.1, NEVER, kind));
    let written = write_whole(&mut sink, piece);
    let is_right = if case.1 == NEVER {
        written.is_ok() && sink.writer.held.as_slice() == piece && sink.faults == 0
    } else {
        written.is_err() && sink.faults == 1
    };
    if !is_right || sink.writer.calls != case.2 {
        Err(*case)?;
    }
    Ok(())
}

// It is written and read so too, where the error is of that kind.
fn ends(alloc: Global, piece: &[u8], case: &Whole, kind: ErrorKind) -> Result<(), Fail> {
    is_read(alloc, piece, case, kind)?;
    is_written(alloc, piece, case, kind)
}

#[test]
fn a_whole_piece_ends_at_its_first_fault(rt: HostRuntime) -> Result<(), Fail> {
    let alloc = rt.alloc();
    let piece = stream(alloc, 32_768)?;
    for case in &WHOLE {
        ends(alloc, &piece, case, AGAIN)?;
        ends(alloc, &piece, case, OTHER)?;
    }
    Ok(())
}
