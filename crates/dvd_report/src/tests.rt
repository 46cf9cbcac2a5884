//! Worked lines from outside the program.
//! A call may need a stage of the work or a bound, which the data of a test don't prove. So it is asked first. Where it
//! doesn't hold nothing is done, and the comparison fails.
use crate::{Survey, Totals, write_cause};
use dvd_block::Block;
use dvd_capture::{Stage, Work};
use dvd_layout::{BlockPlan, Layout, Shape, Zones};
use dvd_ports::{MemSink, WriteFault};
use dvd_read::{Cause, Fixed, read_block, two_pass};
use std::test::Fail;

// A block of the plan, the number for its line, its cause, how many frames were salvaged, and the line.
const LINES: [(u64, u64, Cause, u8, &[u8]); 7] = [
    (
        256,
        0,
        Cause::Address { f: 0, found: 0 },
        0,
        b"block 0 sector 030000 layer 0: address 0 found 00000000 saved 0\n",
    ),
    (
        290,
        3,
        Cause::Column { j: 171 },
        14,
        b"block 3 sector FCFFE0 layer 1: column 171 saved 14\n",
    ),
    (
        274,
        18_446_744_073_709_551_615,
        Cause::Address {
            f: 15,
            found: 0x89AB_CDEF,
        },
        15,
        b"block 18446744073709551615 sector FCFEE0 layer 1: address 15 found 89ABCDEF saved 15\n",
    ),
    (
        0,
        10,
        Cause::Rows { failed: 208 },
        0,
        b"block 10 sector 02F000 layer 0: rows 208 saved 0\n",
    ),
    (
        257,
        11,
        Cause::Row { i: 0 },
        16,
        b"block 11 sector 030010 layer 0: row 0 saved 16\n",
    ),
    (
        258,
        12,
        Cause::Ied { f: 7 },
        15,
        b"block 12 sector 030020 layer 0: ied 7 saved 15\n",
    ),
    (
        291,
        13,
        Cause::Edc { f: 9 },
        10,
        b"block 13 sector FCFFF0 layer 1: edc 9 saved 10\n",
    ),
];

#[test]
fn each_cause_has_its_line(rt: HostRuntime) -> Result<(), Fail> {
    let alloc = rt.alloc();
    let layout = Layout::new(Shape::Opposite, 32, 16, 0, 16).expect(&rt, "a valid layout");
    for (b, k, cause, saved, line) in LINES {
        assert!(rt; b < layout.blocks(Zones::All));
        let plan = layout.plan(Zones::All, b);
        assert!(rt; plan.first < 0xFF_FFF1 && plan.layer < 2);
        let mut report = MemSink::new(alloc, 100, 7, Vec::new(alloc)).expect(&rt, "memory");
        assert_eq!(rt; write_cause(k, &plan, &cause, saved, &mut report), Ok(()));
        assert_eq!(rt; report.held(), line);

        let mut short = MemSink::new(alloc, 20, 9, Vec::new(alloc)).expect(&rt, "memory");
        assert_eq!(rt;
            write_cause(k, &plan, &cause, saved, &mut short),
            Err(WriteFault)
        );
        assert!(rt; line.len() >= 20);
        assert_eq!(rt; short.held(), &line[..20]);
    }
    Ok(())
}

// The rows with a wrong byte or a mark, the lost rows, and the line of a block.
static BLOCKS: [(usize, usize, &[u8]); 21] = [
    (
        40,
        0,
        b"block 0 sector 030000 layer 0 pi 40 failed 0 sum8 40: whole\n",
    ),
    (
        40,
        0,
        b"block 1 sector 030010 layer 0 pi 40 failed 0 sum8 80: whole\n",
    ),
    (
        40,
        0,
        b"block 2 sector 030020 layer 0 pi 40 failed 0 sum8 120: whole\n",
    ),
    (
        40,
        0,
        b"block 3 sector 030030 layer 0 pi 40 failed 0 sum8 160: whole\n",
    ),
    (
        40,
        0,
        b"block 4 sector 030040 layer 0 pi 40 failed 0 sum8 200: whole\n",
    ),
    (
        40,
        0,
        b"block 5 sector 030050 layer 0 pi 40 failed 0 sum8 240: whole\n",
    ),
    (
        40,
        0,
        b"block 6 sector 030060 layer 0 pi 40 failed 0 sum8 280: whole\n",
    ),
    (
        0,
        0,
        b"block 7 sector 030070 layer 0 pi 0 failed 0 sum8 280: whole\n",
    ),
    (
        40,
        0,
        b"block 8 sector 030080 layer 0 pi 40 failed 0 sum8 280: whole\n",
    ),
    (
        41,
        0,
        b"block 9 sector 030090 layer 0 pi 41 failed 0 sum8 281: whole\n",
    ),
    (
        40,
        0,
        b"block 10 sector 0300A0 layer 0 pi 40 failed 0 sum8 281: whole\n",
    ),
    (
        0,
        0,
        b"block 11 sector 0300B0 layer 0 pi 0 failed 0 sum8 241: whole\n",
    ),
    (
        0,
        0,
        b"block 12 sector 0300C0 layer 0 pi 0 failed 0 sum8 201: whole\n",
    ),
    (
        0,
        0,
        b"block 13 sector 0300D0 layer 0 pi 0 failed 0 sum8 161: whole\n",
    ),
    (
        0,
        17,
        b"block 14 sector 0300E0 layer 0 pi 17 failed 17 sum8 138: rows 17\n",
    ),
    (
        0,
        0,
        b"block 15 sector 0300F0 layer 0 pi 0 failed 0 sum8 138: whole\n",
    ),
    (
        0,
        0,
        b"block 16 sector 030100 layer 0 pi 0 failed 0 sum8 98: whole\n",
    ),
    (
        0,
        0,
        b"block 17 sector 030110 layer 0 pi 0 failed 0 sum8 57: whole\n",
    ),
    (
        0,
        0,
        b"block 18 sector 030120 layer 0 pi 0 failed 0 sum8 17: whole\n",
    ),
    (
        0,
        0,
        b"block 19 sector 030130 layer 0 pi 0 failed 0 sum8 17: whole\n",
    ),
    (
        3,
        0,
        b"block 20 sector 030140 layer 0 pi 3 failed 0 sum8 20: whole\n",
    ),
];

// Sets a received byte and its mark, at a place of the order of the block.
fn put(work: &mut Work, i: usize, j: usize, byte: u8, mark: bool) {
    if work.stage() == Stage::Fetched && i < 208 && j < 182 {
        work.damage(i, j, byte, mark);
    }
}

// A received block of zeros. Each of its first `wrong` rows has a wrong byte or a mark or both, in turn; in its last
// `lost` rows all bytes are marked.
fn receive(work: &mut Work, zeros: &Block, wrong: usize, lost: usize) {
    work.load_block(zeros);
    for i in 0..wrong {
        put(
            work,
            i,
            181 - i % 182,
            if i % 3 == 1 { 0 } else { 0x80 },
            i % 3 != 0,
        );
    }
    for i in 0..lost {
        for j in 0..182usize {
            put(work, 207 - i % 208, j, 0, true);
        }
    }
}

// The totals of these blocks.
static TOTALS: &[u8] = b"blocks 21 pi 421 failed 17 damaged 1 peak 281 at 9 over 2\n";

// The totals over no block, the line of a block without errors, the totals then, and the line of a block whose first
// frame names another place.
static LINES_OF_ZEROS: [&[u8]; 4] = [
    b"blocks 0 pi 0 failed 0 damaged 0 peak 0 at 0 over 0\n",
    b"block 0 sector 030000 layer 0 pi 0 failed 0 sum8 0: whole\n",
    b"blocks 1 pi 0 failed 0 damaged 0 peak 0 at 0 over 0\n",
    b"block 1 sector 030000 layer 0 pi 0 failed 0 sum8 0: address 0 found 00000000\n",
];

// Both passes, and the block is added.
fn decode_and_add(survey: &mut Survey, work: &mut Work) {
    if work.stage() == Stage::Fetched {
        let answer = two_pass(work);
        if survey.totals().blocks < 100
            && work.stage() != Stage::Empty
            && work.stage() != Stage::Fetched
        {
            survey.add(work, &answer);
        }
    }
}

// The survey's line of its last block.
fn write_last(
    survey: &Survey,
    plan: &BlockPlan,
    out: &mut MemSink,
) -> Option<Result<(), WriteFault>> {
    if survey.totals().blocks > 0 && plan.first < 0xFF_FFF1 && plan.layer < 2 {
        Some(survey.write_line(plan, out))
    } else {
        None
    }
}

#[test]
fn sums_of_eight_rise_and_fall(rt: HostRuntime) -> Result<(), Fail> {
    let alloc = rt.alloc();
    let layout = Layout::new(Shape::Single, 336, 0, 0, 16).expect(&rt, "a valid layout");
    let zeros = Block::new(alloc)?;
    let mut work = Work::new(alloc)?;
    let mut survey = Survey::new(alloc)?;
    for (k, (wrong, lost, line)) in BLOCKS.iter().enumerate() {
        receive(&mut work, &zeros, *wrong, *lost);
        decode_and_add(&mut survey, &mut work);
        assert!(rt; (k as u64) < layout.blocks(Zones::DataOnly));
        let plan = layout.plan(Zones::DataOnly, k as u64);
        let mut out = MemSink::new(alloc, 100, 9, Vec::new(alloc)).expect(&rt, "memory");
        assert_eq!(rt; write_last(&survey, &plan, &mut out), Some(Ok(())));
        assert_eq!(rt; out.held(), *line);
    }
    let totals = Totals {
        blocks: 21,
        pi: 421,
        failed: 17,
        damaged: 1,
        peak: 281,
        peak_at: 9,
        over: 2,
    };
    assert_eq!(rt; survey.totals(), totals);
    let mut out = MemSink::new(alloc, 100, 9, Vec::new(alloc)).expect(&rt, "memory");
    assert_eq!(rt; survey.write_totals(&mut out), Ok(()));
    assert_eq!(rt; out.held(), TOTALS);
    Ok(())
}

// What is read of a block as an entry of a plan is added.
fn read_and_add(survey: &mut Survey, work: &mut Work, plan: &BlockPlan) {
    if work.stage() == Stage::Fetched && plan.first < 0xFF_FFF1 && plan.layer < 2 {
        let answer = read_block(work, plan);
        if survey.totals().blocks < 100
            && work.stage() != Stage::Empty
            && work.stage() != Stage::Fetched
        {
            survey.add(work, &answer);
        }
    }
}

#[test]
fn a_block_has_its_line_and_the_survey_its_totals(rt: HostRuntime) -> Result<(), Fail> {
    let alloc = rt.alloc();
    let layout = Layout::new(Shape::Single, 16, 0, 0, 16).expect(&rt, "a valid layout");
    assert!(rt; 0 < layout.blocks(Zones::DataOnly));
    let plan = layout.plan(Zones::DataOnly, 0);
    let zeros = Block::new(alloc)?;
    let mut work = Work::new(alloc)?;
    let mut survey = Survey::new(alloc)?;
    let mut out = MemSink::new(alloc, 400, 400, Vec::new(alloc)).expect(&rt, "memory");
    assert_eq!(rt; survey.write_totals(&mut out), Ok(()));
    assert_eq!(rt; out.held(), LINES_OF_ZEROS[0]);
    work.load_block(&zeros);
    decode_and_add(&mut survey, &mut work);
    let mut out = MemSink::new(alloc, 400, 400, Vec::new(alloc)).expect(&rt, "memory");
    assert_eq!(rt; write_last(&survey, &plan, &mut out), Some(Ok(())));
    assert_eq!(rt; out.held(), LINES_OF_ZEROS[1]);
    let mut out = MemSink::new(alloc, 400, 400, Vec::new(alloc)).expect(&rt, "memory");
    assert_eq!(rt; survey.write_totals(&mut out), Ok(()));
    assert_eq!(rt; out.held(), LINES_OF_ZEROS[2]);

    // Read as the first block of the data, it names another place.
    work.load_block(&zeros);
    read_and_add(&mut survey, &mut work, &plan);
    let mut out = MemSink::new(alloc, 400, 400, Vec::new(alloc)).expect(&rt, "memory");
    assert_eq!(rt; write_last(&survey, &plan, &mut out), Some(Ok(())));
    assert_eq!(rt; out.held(), LINES_OF_ZEROS[3]);

    let mut short = MemSink::new(alloc, 20, 9, Vec::new(alloc)).expect(&rt, "memory");
    assert_eq!(rt;
        write_last(&survey, &plan, &mut short),
        Some(Err(WriteFault))
    );
    assert_eq!(rt; short.held(), &LINES_OF_ZEROS[3][..20]);
    Ok(())
}
