//! Drawings over memory: what is written, and how a fault of each stream ends. A `MemSource` is made of its bytes, of
//! how many a call gives at most, and of the numbers of the calls that fail, counted from 0; a `MemSink` of its room,
//! and then likewise. Numbers of nines are more than a case comes to.
use crate::{DrawEnd, Fault, SurveyCause, draw};
use dvd_ports::{MemSink, MemSource, Source};
use std::alloc::Global;
use std::test::Fail;

static SURVEY: &[u8] = b"block 0 sector 030000 layer 0 pi 30 failed 30 sum8 30: rows 30\n\
    block 1 sector 030010 layer 0 pi 15 failed 15 sum8 45: whole\n\
    blocks 2 pi 45 failed 45 damaged 1 peak 45 at 1 over 0\n";

// A drawing of the first bytes of the survey. Each read gives at most 50 of them, and the output has room for `room`.
struct Case {
    survey: usize,
    broken_read: u64,
    room: usize,
    end: DrawEnd,
}

static CASES: [Case; 6] = [
    Case {
        survey: 999,
        broken_read: 999,
        room: 9999,
        end: DrawEnd::Done,
    },
    Case {
        survey: 70,
        broken_read: 999,
        room: 9999,
        end: DrawEnd::Short { line: 2, bytes: 7 },
    },
    Case {
        survey: 0,
        broken_read: 999,
        room: 9999,
        end: DrawEnd::Short { line: 1, bytes: 0 },
    },
    Case {
        survey: 999,
        broken_read: 2,
        room: 9999,
        end: DrawEnd::ReadFault,
    },
    Case {
        survey: 999,
        broken_read: 999,
        room: 1000,
        end: DrawEnd::WriteFault,
    },
    Case {
        survey: 999,
        broken_read: 999,
        room: 0,
        end: DrawEnd::WriteFault,
    },
];

// Tries a drawing. A picture that was written whole ends in `</svg>`, and a survey that couldn't be read leaves none.
// Where the output has no room it is empty in any case.
fn draws(alloc: Global, case: &Case) -> Result<(), Fail> {
    let survey = SURVEY[..case.survey.min(SURVEY.len())].to_vec(alloc)?;
    let mut src = MemSource::new(survey, 50, vec![in alloc; case.broken_read; 1]?);
    let mut out = MemSink::new(alloc, case.room, 777, Vec::new(alloc))?;
    let end = draw(alloc, 1000, &mut src, &mut out);
    let is_whole = out.held().ends_with(b"</svg>\n");
    let is_right = match case.end {
        DrawEnd::Done | DrawEnd::Short { .. } => is_whole,
        DrawEnd::WriteFault => !is_whole && out.held().is_empty() == (case.room == 0),
        _ => out.held().is_empty(),
    };
    if end == case.end && is_right {
        Ok(())
    } else {
        Err((case.survey, case.room))?
    }
}

#[test]
fn surveys_are_drawn_and_faults_named(rt: HostRuntime) -> Result<(), Fail> {
    CASES.iter().try_for_each(|case| draws(rt.alloc(), case))
}

#[test]
fn nothing_is_written_of_what_breaks_a_rule(rt: HostRuntime) -> Result<(), Fail> {
    let alloc = rt.alloc();
    let mut src = MemSource::new(b"block 1 \n".to_vec(alloc)?, 3, Vec::new(alloc));
    let mut out = MemSink::new(alloc, 9999, 777, Vec::new(alloc))?;
    let fault = Fault {
        line: 1,
        cause: SurveyCause::Form,
    };
    assert!(rt; draw(alloc, 100, &mut src, &mut out) == DrawEnd::Rule(fault));
    assert!(rt; out.held().is_empty() && src.read(&mut [0; 9]) == Ok(0));
    Ok(())
}
