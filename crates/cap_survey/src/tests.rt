//! Surveys as `dvdecc survey` writes them, and texts that are none.
ghost use Rattle.std.specs.Prelude.{◌<◌};

use crate::{Cell, Fault, Reading, SurveyCause, totals_of};
use std::alloc::Global;
use std::test::Fail;

static WHOLE: &str = "block 0 sector 030000 layer 0 pi 30 failed 30 sum8 30: rows 30\n\
    block 1 sector 030010 layer 0 pi 15 failed 15 sum8 45: whole\n\
    block 2 sector FCFFE0 layer 1 pi 208 failed 0 sum8 253: address 3 found 0003001F\n\
    blocks 3 pi 253 failed 45 damaged 2 peak 253 at 2 over 0\n";

static CELLS: [Cell; 3] = [
    Cell {
        sum8: 30,
        pi: 30,
        failed: 30,
        layer: 0,
        refused: true,
    },
    Cell {
        sum8: 45,
        pi: 15,
        failed: 15,
        layer: 0,
        refused: false,
    },
    Cell {
        sum8: 253,
        pi: 208,
        failed: 0,
        layer: 1,
        refused: true,
    },
];

// The result of a text that is read in pieces of `step` bytes: how many bytes are left of its last line.
fn read(reading: &mut Reading, text: &str, step: usize) -> Result<usize, Fault>
    requires { 0 < step }
{
    for piece in text.as_bytes().chunks(step) {
        reading.take(piece)?;
    }
    reading.end()
}

#[test]
fn a_survey_in_pieces(rt: HostRuntime) -> Result<(), Fail> {
    for step in [1, 7, 64, 999] {
        let mut reading = Reading::new(rt.alloc())?;
        assert!(rt; read(&mut reading, WHOLE, step) == Ok(0));
        assert!(rt; reading.survey().cells() == CELLS.as_slice() && reading.survey().is_closed());
    }
    Ok(())
}

#[test]
fn a_survey_that_is_cut(rt: HostRuntime) -> Result<(), Fail> {
    let mut reading = Reading::new(rt.alloc())?;
    // Two lines, and six bytes of the third.
    let cut = &WHOLE.as_bytes()[..130];
    reading.take(cut).map_err(|_| 1)?;
    assert!(rt; reading.end() == Ok(6) && reading.survey().cells() == &CELLS[..2]);
    assert!(rt; !reading.survey().is_closed() && totals_of(reading.survey().cells()).peak == 45);
    Ok(())
}

// The first block, as often as a test needs it.
static FIRST: &str = "block 0 sector 030000 layer 0 pi 9 failed 2 sum8 9: whole\n";

// In each row the number of the line that breaks a rule, the rule, and what comes after the line of the first block.
macro_rules! faults {
    ($($line:literal $cause:ident $text:literal;)*) => {
        [$(($text, Fault { line: $line, cause: SurveyCause::$cause }),)*]
    };
}

static FAULTS: [(&str, Fault); 33] = faults!(
    2 Form "\n";
    2 Form "done\n";
    2 Form "block 1\n";
    2 Form "block 1 sector 03001 layer 0 pi 0 failed 0 sum8 9: whole\n";
    2 Form "block 1 sector 03001g layer 0 pi 0 failed 0 sum8 9: whole\n";
    2 Form "block 1 sector 03001a layer 0 pi 0 failed 0 sum8 9: whole\n";
    2 Form "block 01 sector 030010 layer 0 pi 0 failed 0 sum8 9: whole\n";
    2 Form "block 1  sector 030010 layer 0 pi 0 failed 0 sum8 9: whole\n";
    2 Form "block -1 sector 030010 layer 0 pi 0 failed 0 sum8 9: whole\n";
    2 Form "block 1000000000000000000 sector 030010 layer 0 pi 0 failed 0 sum8 9: whole\n";
    2 Form "block 1 sector 030010 layer 0 pi 0 failed 0 sum8 9: whole \n";
    2 Form "block 1 sector 030010 layer 0 pi 0 failed 0 sum8 9: whole\r\n";
    2 Form "block 1 sector 030010 layer 0 pi 0 failed 0 sum8 9: row\n";
    2 Form "block 1 sector 030010 layer 0 pi 0 failed 0 sum8 9: rows \n";
    2 Form "block 1 sector 030010 layer 0 pi 0 failed 0 sum8 9: edc 16 saved 3\n";
    2 Form "block 1 sector 030010 layer 0 pi 0 failed 0 sum8 9: address 3 found 0003001\n";
    2 Form "block 1 sector 030010 layer 0 pi 0 failed 0 sum8 9: address 3\n";
    2 Form "block 1 sector 030010 layer 0 pi 0 failed 0 sum8 9:\n";
    2 Order "block 0 sector 030000 layer 0 pi 9 failed 2 sum8 18: whole\n";
    2 Order "block 2 sector 030020 layer 0 pi 0 failed 0 sum8 9: whole\n";
    2 Order "block 999999999999999999 sector 030020 layer 0 pi 0 failed 0 sum8 9: whole\n";
    2 Range "block 1 sector 030010 layer 2 pi 0 failed 0 sum8 9: whole\n";
    2 Range "block 1 sector 030010 layer 0 pi 209 failed 0 sum8 218: whole\n";
    2 Range "block 1 sector 030010 layer 0 pi 3 failed 4 sum8 12: whole\n";
    2 Sum8 "block 1 sector 030010 layer 0 pi 0 failed 0 sum8 8: whole\n";
    2 Totals "blocks 2 pi 9 failed 2 damaged 0 peak 9 at 0 over 0\n";
    2 Totals "blocks 1 pi 8 failed 2 damaged 0 peak 9 at 0 over 0\n";
    2 Totals "blocks 1 pi 9 failed 2 damaged 1 peak 9 at 0 over 0\n";
    2 Totals "blocks 1 pi 9 failed 2 damaged 0 peak 9 at 1 over 0\n";
    2 Form "blocks 1 pi 9 failed 2 damaged 0 peak 9 at 0 over 0 \n";
    3 After "blocks 1 pi 9 failed 2 damaged 0 peak 9 at 0 over 0\n\n";
    3 After "blocks 1 pi 9 failed 2 damaged 0 peak 9 at 0 over 0\nx";
    2 Form "0123456789012345678901234567890123456789012345678901234567890123456789012345678901234567890123456789\
        0123456789012345678901234567890123456789012345678901234567890123456789012345678901234567890123456789\
        01234567890123456789012345678901234567890123456789012345";
);

// Tries that what comes after the first block breaks this rule.
fn breaks(alloc: Global, text: &str, fault: Fault) -> Result<(), Fail> {
    let mut reading = Reading::new(alloc)?;
    reading.take(FIRST.as_bytes()).map_err(|_| 0)?;
    match read(&mut reading, text, 999) {
        Err(found) if found == fault => Ok(()),
        _ => Err(text)?,
    }
}

#[test]
fn texts_that_are_no_survey(rt: HostRuntime) -> Result<(), Fail> {
    FAULTS
        .iter()
        .try_for_each(|(text, fault)| breaks(rt.alloc(), text, *fault))
}

#[test]
fn a_survey_of_nothing(rt: HostRuntime) -> Result<(), Fail> {
    let mut reading = Reading::new(rt.alloc())?;
    assert!(rt; reading.end() == Ok(0) && reading.survey().cells().is_empty());
    let totals = "blocks 0 pi 0 failed 0 damaged 0 peak 0 at 0 over 0\n";
    assert!(rt; read(&mut reading, totals, 3) == Ok(0) && reading.survey().is_closed());
    Ok(())
}
