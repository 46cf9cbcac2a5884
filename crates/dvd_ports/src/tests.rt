//! Each object once, through its trait. In `reads` and `writes` a call with an empty buffer comes first, which may
//! change nothing.
use super::*;
use std::alloc::Global;
use std::test::Fail;

// Bytes, step, calls that fail, and what a buffer of five gets at each of the next calls: a count, or 9 for `Failed`,
// which is no count of a buffer of five.
type Reads = (&'static [u8], usize, &'static [u64], [usize; 4]);

static READS: [Reads; 4] = [
    (&[1, 2, 3], 7, &[], [3, 0, 0, 0]),
    (&[1, 2, 3, 4, 5, 6], 2, &[], [2, 2, 2, 0]),
    (&[1, 2, 3, 4, 5, 6], 9, &[0, 2], [9, 5, 9, 1]),
    (&[], 1, &[1], [0, 9, 0, 0]),
];

// Room, step, calls that fail, and how many bytes of a piece of three are accepted at each of the next calls.
type Writes = (usize, usize, &'static [u64], [usize; 4]);

static WRITES: [Writes; 4] = [
    (20, 9, &[], [3, 3, 3, 3]),
    (7, 2, &[], [2, 2, 2, 1]),
    (5, 9, &[1], [3, 9, 2, 9]),
    (0, 1, &[], [9, 9, 9, 9]),
];

// A count, or 9 for `Failed`.
fn count_or_nine(answer: Result<usize, Failed>) -> usize {
    answer.unwrap_or(9)
}

// An error where the next call gives another count. What it gives is added to what came before.
fn reads(source: &mut MemSource, got: &mut Vec<u8>, count: usize) -> Result<(), Fail> {
    let mut buf = [0u8; 5];
    let none = count_or_nine(source.read(&mut []));
    let some = count_or_nine(source.read(&mut buf));
    if (none, some) != (0, count) {
        Err((none, some))?;
    }
    if some <= 5 {
        got.extend_from_slice(&buf[..some])?;
    }
    Ok(())
}

// The bytes come by these counts.
fn gives(alloc: Global, source: &mut MemSource, case: &Reads) -> Result<(), Fail> {
    let mut got = Vec::new(alloc);
    for count in case.3 {
        reads(source, &mut got, count)?;
    }
    if got.as_slice() != case.0 {
        Err(case.1)?;
    }
    Ok(())
}

// They come from memory.
fn is_read(alloc: Global, case: &Reads) -> Result<(), Fail> {
    let bytes = case.0.to_vec(alloc)?;
    let mut source = MemSource::new(bytes, case.1.max(1), case.2.to_vec(alloc)?);
    gives(alloc, &mut source, case)
}

#[test]
fn a_source_in_memory_gives_its_bytes_by_steps(rt: HostRuntime) -> Result<(), Fail> {
    for case in &READS {
        is_read(rt.alloc(), case)?;
    }
    Ok(())
}

// An error where the next call accepts another count. What it accepts is added to what is wanted.
fn writes(sink: &mut MemSink, wanted: &mut Vec<u8>, count: usize) -> Result<(), Fail> {
    let none = count_or_nine(sink.write(&[]));
    let some = count_or_nine(sink.write(&[7, 8, 9]));
    if (none, some) != (0, count) {
        Err((none, some))?;
    }
    if some <= 3 {
        wanted.extend_from_slice(&[7, 8, 9][..some])?;
    }
    Ok(())
}

// The pieces are accepted by these counts, and held.
fn takes(alloc: Global, sink: &mut MemSink, case: &Writes) -> Result<(), Fail> {
    let mut wanted = Vec::new(alloc);
    for count in case.3 {
        writes(sink, &mut wanted, count)?;
    }
    if sink.held() != wanted.as_slice() {
        Err(case.0)?;
    }
    Ok(())
}

// They are held in memory.
fn is_held(alloc: Global, case: &Writes) -> Result<(), Fail> {
    let fails = case.2.to_vec(alloc)?;
    let mut sink = MemSink::new(alloc, case.0, case.1.max(1), fails)?;
    takes(alloc, &mut sink, case)
}

#[test]
fn a_sink_in_memory_takes_by_steps_and_has_its_room(rt: HostRuntime) -> Result<(), Fail> {
    for case in &WRITES {
        is_held(rt.alloc(), case)?;
    }
    Ok(())
}

static BYTES: [u8; 10] = [1, 2, 3, 4, 5, 6, 7, 8, 9, 10];

// A buffer of eight is filled and written: the count that came, 9 for `Failed`, and whether it was written.
fn copied<S: Source, K: Sink>(src: &mut S, out: &mut K) -> (usize, bool) {
    let mut buf = [0u8; 8];
    let read = read_whole(src, &mut buf);
    (count_or_nine(read), write_whole(out, &buf).is_ok())
}

// It goes through std's reader and writer over memory.
fn goes_through_std(alloc: Global) -> bool {
    let mut held = Vec::new(alloc);
    let both = copied(
        &mut StdSource::new(&BYTES[..]),
        &mut StdSink::new(&mut held),
    );
    both == (8, true) && held.as_slice() == &BYTES[..8]
}

// All of a short slice goes to a sink that keeps nothing.
fn goes_through_slices() -> bool {
    copied(&mut SliceSource::new(&BYTES[..3]), &mut NullSink::new()) == (3, true)
}

// A whole piece, and then the last two bytes, for which there is no room with the rest of the buffer.
fn are_copied(source: &mut MemSource, sink: &mut MemSink) -> bool {
    copied(source, sink) == (8, true)
        && copied(source, sink) == (2, false)
        && sink.held() == &BYTES[..9]
}

// Both go through a source and a sink that move three bytes a call.
fn goes_through_memory(alloc: Global) -> Result<(), Fail> {
    let mut source = MemSource::new(BYTES.to_vec(alloc)?, 3, Vec::new(alloc));
    let mut sink = MemSink::new(alloc, 9, 3, Vec::new(alloc))?;
    if !are_copied(&mut source, &mut sink) {
        Err("it didn't go through memory")?;
    }
    Ok(())
}

// A source stops where its second call fails.
fn stops(alloc: Global) -> Result<(), Fail> {
    let mut broken = MemSource::new(BYTES.to_vec(alloc)?, 3, vec![in alloc; 1]?);
    if read_whole(&mut broken, &mut [0; 8]) != Err(Failed) {
        Err("it didn't stop")?;
    }
    Ok(())
}

#[test]
fn whole_pieces_go_through_every_object(rt: HostRuntime) -> Result<(), Fail> {
    let alloc = rt.alloc();
    assert!(rt; goes_through_std(alloc) && goes_through_slices());
    goes_through_memory(alloc)?;
    stops(alloc)
}
