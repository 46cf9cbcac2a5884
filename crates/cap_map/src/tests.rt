//! Maps as GNU ddrescue writes them, and maps that break a rule.
use crate::{MapCause, MapFault, Span, read_map};
use std::alloc::Global;
use std::test::Fail;

// A text, the statuses that are trusted, and the spans: their ends, and whether they are rescued.
type Good = (&'static str, &'static str, &'static [(u64, bool)]);

static GOOD: [Good; 9] = [
    ("0x0 +", "+", &[]),
    ("# a comment\n0x0 + 1\n0x0 0x200 +\n", "+", &[(512, true)]),
    ("0x0 ?\n0x100 0x200 +", "+", &[(256, false), (768, true)]),
    (
        "010 ? 2\n\n 0\t010 +\r\n8 0X8 - # the end\n#\n",
        "+",
        &[(8, true), (16, false)],
    ),
    (
        "0 F\n0 1 ?\n1 1 *\n2 1 /\n3 1 -\n4 1 +\n",
        "+",
        &[(1, false), (2, false), (3, false), (4, false), (5, true)],
    ),
    (
        "0 G\n0 1 ?\n1 1 *\n2 1 /\n3 1 -\n4 1 +\n",
        "/*",
        &[(1, false), (2, true), (3, true), (4, false), (5, false)],
    ),
    (
        "0 +\n0 1 +\n1 0x7FFFFFFFFFFFFFFE -\n",
        "+",
        &[(1, true), (9223372036854775807, false)],
    ),
    (
        "0000000000000000000000000 +\n0 000000000000000000000001 +\n",
        "+",
        &[(1, true)],
    ),
    ("# \u{e4}\n0 +#\n0 1 +# \u{e4}\n", "+", &[(1, true)]),
];

fn are_read(alloc: Global, case: &Good) -> Result<(), Fail> {
    let spans = read_map(alloc, case.0.as_bytes(), case.1.as_bytes()).map_err(|_| case.0)?;
    if spans.len() != case.2.len() {
        Err(case.0)?;
    }
    for (span, wanted) in spans.iter().zip(case.2) {
        let (end, rescued) = *wanted;
        if *span != (Span { end, rescued }) {
            Err(case.0)?;
        }
    }
    Ok(())
}

#[test]
fn spans_of_maps(rt: HostRuntime) -> Result<(), Fail> {
    GOOD.iter().try_for_each(|case| are_read(rt.alloc(), case))
}

// A text, the line that breaks a rule, and the rule. `+` alone is trusted.
static BROKEN: [(&str, u64, MapCause); 26] = [
    ("", 1, MapCause::State),
    ("# only a comment\n", 2, MapCause::State),
    ("+ 0x0\n", 1, MapCause::State),
    ("0x0 + 1 2\n", 1, MapCause::State),
    ("0x0 x\n", 1, MapCause::State),
    ("0x0 + x\n", 1, MapCause::State),
    ("0x0 0x200 +\n", 1, MapCause::State),
    ("0 +\n0 1\n", 2, MapCause::Fields),
    ("0 +\n0 1 + 1\n", 2, MapCause::Fields),
    ("0 +\nx 1 +\n", 2, MapCause::Number),
    ("0 +\n0 0x +\n", 2, MapCause::Number),
    ("0 +\n0 08 +\n", 2, MapCause::Number),
    ("0 +\n0 -1 +\n", 2, MapCause::Number),
    ("0 +\n0 +1 +\n", 2, MapCause::Number),
    ("0 +\n0 9223372036854775808 +\n", 2, MapCause::Number),
    (
        "0 +\n0 99999999999999999999999999999999999999999 +\n",
        2,
        MapCause::Number,
    ),
    ("0 +\n0x10000000000000000 1 +\n", 2, MapCause::Number),
    ("0 +\n0 1 x\n", 2, MapCause::Status),
    ("0 +\n0 1 ++\n", 2, MapCause::Status),
    ("0 +\n0 1 F\n", 2, MapCause::Status),
    ("0 +\n0 0 +\n", 2, MapCause::Empty),
    ("0 +\n0x7FFFFFFFFFFFFFFF 1 +\n", 2, MapCause::TooLong),
    ("0 +\n0 2 +\n3 1 +\n", 3, MapCause::Gap),
    ("0 +\n0 2 +\n1 1 +\n", 3, MapCause::Overlap),
    ("0 +\n0 2 +\n0 2 +\n", 3, MapCause::Overlap),
    ("0 +\n#\n0 2 +\n\n4 1 +\n", 5, MapCause::Gap),
];

#[test]
fn maps_that_break_a_rule(rt: HostRuntime) -> Result<(), Fail> {
    for case in &BROKEN {
        let (text, line, cause) = *case;
        let wanted = MapFault::Rule { line, cause };
        if read_map(rt.alloc(), text.as_bytes(), b"+").err() != Some(wanted) {
            Err(text)?;
        }
    }
    Ok(())
}
