//! Reports of small disks, and the maps that they give. A `MemSource` is made of its bytes, of how many a call gives at
//! most, and of the numbers of the calls that fail, counted from 0; a `MemSink` of its room, and then likewise. The
//! steps may be any.
use crate::{ReportCause, ReportFault, read_report, write_map};
use dvd_layout::{Layout, Shape, Zones};
use dvd_ports::{Failed, MemSink, MemSource, SliceSource, Source};
use std::alloc::Global;
use std::test::Fail;

static HEAD: &[u8] =
    b"# Mapfile. Created by dvdcap\n# current_pos  current_status  current_pass\n0x00000000     +               1\n#      pos        size  status\n";

// A report of a disk of 40 sectors, and the lines of its map after the head.
type Good = (&'static str, &'static str);

static GOOD: [Good; 8] = [
    ("done\n", "0x00000000  0x00014000  +\n"),
    ("done", "0x00000000  0x00014000  +\n"),
    ("long\n", "0x00000000  0x00014000  +\n"),
    (
        "block 0 sector 030000 layer 0: rows 17 saved 2\ndamaged: 1 blocks\n",
        "0x00000000  0x00008000  -\n0x00008000  0x0000C000  +\n",
    ),
    (
        "block 1 sector 030010 layer 0: column 181 saved 0\nblock 2 sector 030020 layer 0: address 0 found 0003000F saved 16\ndamaged: 2 blocks\n",
        "0x00000000  0x00008000  +\n0x00008000  0x0000C000  -\n",
    ),
    (
        "block 0 sector 030000 layer 0: row 207 saved 0\nblock 1 sector 030010 layer 0: round 4\nblock 2 sector 030020 layer 0: edc 15 saved 3\ndamaged: 2 blocks\n",
        "0x00000000  0x00008000  -\n0x00008000  0x00008000  +\n0x00010000  0x00004000  -\n",
    ),
    (
        "block 0 sector 030000 layer 0: ied 0 saved 0\nshort: block 2, 0 bytes\n",
        "0x00000000  0x00008000  -\n0x00008000  0x00008000  +\n0x00010000  0x00004000  ?\n",
    ),
    (
        "bad marks: block 0, byte 37856\n",
        "0x00000000  0x00014000  ?\n",
    ),
];

fn layout() -> Option<Layout> {
    Layout::new(Shape::Single, 40, 0, 0, 0).ok()
}

// Tries that a report gives these lines of a map after the head.
fn gives(
    alloc: Global,
    layout: Layout,
    zones: Zones,
    report: &'static str,
    lines: &str,
) -> Result<(), Fail> {
    let lost = read_report(
        alloc,
        layout,
        zones,
        &mut SliceSource::new(report.as_bytes()),
    )
    .map_err(|_| report)?;
    let mut out = MemSink::new(alloc, 999, 77, Vec::new(alloc))?;
    if write_map(&lost, layout.total(), &mut out).is_err() {
        Err(report)?;
    }
    if out.held().strip_prefix(HEAD) != Some(lines.as_bytes()) {
        Err(report)?;
    }
    Ok(())
}

#[test]
fn maps_of_reports(rt: HostRuntime) -> Result<(), Fail> {
    let Some(layout) = layout() else {
        return Err("layout")?;
    };
    for case in &GOOD {
        gives(rt.alloc(), layout, Zones::DataOnly, case.0, case.1)?;
    }
    Ok(())
}

// Two layers, the second read from the outside: its last block has one sector.
#[test]
fn blocks_of_layer_1(rt: HostRuntime) -> Result<(), Fail> {
    let Ok(layout) = Layout::new(Shape::Opposite, 32, 17, 0, 1) else {
        return Err("layout")?;
    };
    gives(
        rt.alloc(),
        layout,
        Zones::DataOnly,
        "block 2 sector FCFFE0 layer 1: rows 208 saved 0\nblock 3 sector FCFFF0 layer 1: rows 208 saved 0\ndamaged: 2 blocks\n",
        "0x00000000  0x00010000  +\n0x00010000  0x00008800  -\n",
    )?;
    // In all zones 256 blocks come before the data, and two of a middle zone between the layers.
    gives(
        rt.alloc(),
        layout,
        Zones::All,
        "block 257 sector 030010 layer 0: rows 208 saved 0\nblock 261 sector FCFFF0 layer 1: rows 208 saved 0\ndamaged: 2 blocks\n",
        "0x00000000  0x00008000  +\n0x00008000  0x00008000  -\n0x00010000  0x00008000  +\n0x00018000  0x00000800  -\n",
    )?;
    gives(
        rt.alloc(),
        layout,
        Zones::All,
        "short: block 259, 1 bytes\n",
        "0x00000000  0x00010000  +\n0x00010000  0x00008800  ?\n",
    )?;
    gives(
        rt.alloc(),
        layout,
        Zones::All,
        "short: block 262, 1 bytes\n",
        "0x00000000  0x00018800  +\n",
    )
}

// A report, the line that breaks a rule, and the rule. Line 0: it breaks none, and the rule isn't used.
type Bad = (&'static str, u64, ReportCause);

// The same in each row, the text at its end.
macro_rules! bad {
    ($($line:literal $cause:ident $text:literal;)*) => {
        [$(($text, $line, ReportCause::$cause),)*]
    };
}

static BAD: [Bad; 38] = bad!(
    1 NoEnd "";
    1 Line "\n";
    2 AfterEnd "done\ndone\n";
    2 AfterEnd "done\n\n";
    1 Line "done \n";
    1 Line "done\r\n";
    1 Line "Done\n";
    1 Line "usage\n";
    1 Line "no memory\n";
    1 Line "short: header, 3 bytes\n";
    1 Fault "read fault\n";
    1 Fault "write fault\n";
    1 Count "damaged: 1 blocks\n";
    0 NoEnd "damaged: 0 blocks\n";
    1 Line "damaged: 1 sectors\n";
    1 Line "damaged: 01 blocks\n";
    1 Line "damaged: 9999999999999999999999999 blocks\n";
    1 Block "short: block 3, 1 bytes\n";
    1 Line "short: block 99999999999999999999999, 1 bytes\n";
    1 Line "short: block 1, bytes\n";
    2 NoEnd "block 0 sector 030000 layer 0: rows 17 saved 2\n";
    2 Count "block 0 sector 030000 layer 0: rows 17 saved 2\ndone\n";
    2 Order "block 0 sector 030000 layer 0: rows 17 saved 2\nshort: block 0, 0 bytes\n";
    2 Order "block 0 sector 030000 layer 0: rows 17 saved 2\nblock 0 sector 030000 layer 0: rows 17 saved 2\n";
    2 Order "block 1 sector 030010 layer 0: round 1\nblock 0 sector 030000 layer 0: rows 17 saved 2\n";
    2 NoEnd "block 0 sector 030000 layer 0: rows 17 saved 2";
    1 Line "block 0 sector 030000 layer 0: rows 209 saved 2\n";
    1 Line "block 0 sector 030000 layer 0: rows 017 saved 2\n";
    1 Line "block 0 sector 030000 layer 0: rows 17 saved 17\n";
    1 Line "block 0 sector 030000 layer 0: rows 17 saved 2 \n";
    1 Line "block 0 sector 030000 layer 0: round 5\n";
    1 Line "block 0 sector 030000 layer 0: round 0\n";
    1 Line "block 0 sector 030000 layer 0: address 0 found 0003000f saved 1\n";
    1 Place "block 0 sector 030000 layer 1: rows 17 saved 2\n";
    1 Place "block 0 sector 030010 layer 0: rows 17 saved 2\n";
    1 Block "block 3 sector 030030 layer 0: rows 17 saved 2\n";
    1 Line "block 18446744073709551616 sector 030000 layer 0: rows 17 saved 2\n";
    1 Line "block 00 sector 030000 layer 0: rows 17 saved 2\n";
);

// Tries that a report is refused at this line for this rule. At line 0 it is accepted.
fn is_refused(alloc: Global, layout: Layout, zones: Zones, case: &Bad) -> Result<(), Fail> {
    let answer = read_report(
        alloc,
        layout,
        zones,
        &mut SliceSource::new(case.0.as_bytes()),
    );
    match answer {
        Err(ReportFault::Rule { line, cause }) if line == case.1 && cause == case.2 => Ok(()),
        Ok(_) if case.1 == 0 => Ok(()),
        _ => Err(case.0)?,
    }
}

#[test]
fn lines_that_break_a_rule(rt: HostRuntime) -> Result<(), Fail> {
    let Some(layout) = layout() else {
        return Err("layout")?;
    };
    for case in &BAD {
        is_refused(rt.alloc(), layout, Zones::DataOnly, case)?;
    }
    is_refused(
        rt.alloc(),
        layout,
        Zones::All,
        &(
            "block 0 sector 02F000 layer 0: rows 17 saved 2\n",
            1,
            ReportCause::NoImage,
        ),
    )
}

#[test]
fn lines_without_an_end_and_faults(rt: HostRuntime) -> Result<(), Fail> {
    let alloc = rt.alloc();
    let Some(layout) = layout() else {
        return Err("layout")?;
    };
    // No more than a piece is read of a line that has no end: of 9,000 bytes 4,096, which leaves 4,904.
    let mut endless = MemSource::new(vec![in alloc; 7u8; 9000]?, 9000, Vec::new(alloc));
    let answer = read_report(alloc, layout, Zones::DataOnly, &mut endless);
    let too_long = ReportFault::Rule {
        line: 1,
        cause: ReportCause::Line,
    };
    if answer != Err(too_long) || endless.read(&mut [0; 9000]) != Ok(4904) {
        Err("endless")?;
    }
    let mut broken = MemSource::new(vec![in alloc; 7u8; 9]?, 3, vec![in alloc; 2; 1]?);
    if read_report(alloc, layout, Zones::DataOnly, &mut broken) != Err(ReportFault::ReadFault) {
        Err("broken")?;
    }
    Ok(())
}
