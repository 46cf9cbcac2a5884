//! Derived equality: each value is like itself alone.
ghost use Rattle.std.specs.Prelude.{◌<◌};

use crate::parts::{AnswerRow, ColumnAnswer};
use crate::{Header, HeaderFault, RowMarks};
use rs_decode::Fix;
use std::test::Fail;

// Whether each value is like itself alone.
fn are_unlike<T: PartialEq>(values: &[T]) -> bool {
    let mut are_unlike = true;
    for (i, value) in values.iter().enumerate() {
        for (j, other) in values.iter().enumerate() {
            are_unlike &= (value == other) == (i == j);
        }
    }
    are_unlike
}

fn header(shape: u8, zones: u8, lengths: [u32; 4]) -> Header
    requires shape { shape < 3 }
    requires zones { zones < 2 }
{
    let [sectors0, sectors1, initial, tail] = lengths;
    Header {
        shape,
        zones,
        sectors0,
        sectors1,
        initial,
        tail,
    }
}

#[test]
fn headers_are_alike_in_all_fields(rt: HostRuntime) -> Result<(), Fail> {
    let headers = [
        header(0, 0, [16, 0, 0, 16]),
        header(1, 0, [16, 0, 0, 16]),
        header(0, 1, [16, 0, 0, 16]),
        header(0, 0, [17, 0, 0, 16]),
        header(0, 0, [16, 1, 0, 16]),
        header(0, 0, [16, 0, 1, 16]),
        header(0, 0, [16, 0, 0, 17]),
    ];
    assert!(rt; are_unlike(&headers));
    assert!(rt; are_unlike(&[HeaderFault::Place { at: 1 }, HeaderFault::Place { at: 2 }]));
    Ok(())
}

#[test]
fn row_marks_are_alike_in_each_place(rt: HostRuntime) -> Result<(), Fail> {
    let mut first = RowMarks::none();
    first.set(0, true);
    let mut last = RowMarks::none();
    last.set(181, true);
    assert!(rt; are_unlike(&[RowMarks::none(), first, last]));
    first.set(0, false);
    assert!(rt; first == RowMarks::none());
    Ok(())
}

fn row_answer(byte: u8, fix: Option<Fix>) -> AnswerRow {
    let bytes = [byte; 182];
    AnswerRow { bytes, fix }
}

fn column_answer(byte: u8, answered: bool) -> ColumnAnswer {
    let bytes = [byte; 208];
    ColumnAnswer { bytes, answered }
}

#[test]
fn answers_are_alike_in_both_fields(rt: HostRuntime) -> Result<(), Fail> {
    let fix = Fix {
        errors: 0,
        erased: 0,
    };
    let rows = [
        row_answer(0, None),
        row_answer(1, None),
        row_answer(0, Some(fix)),
    ];
    let columns = [
        column_answer(0, false),
        column_answer(1, false),
        column_answer(0, true),
    ];
    assert!(rt; are_unlike(&rows));
    assert!(rt; are_unlike(&columns));
    Ok(())
}
