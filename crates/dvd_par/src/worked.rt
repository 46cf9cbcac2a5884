//! Both passes, by the plain call and with several workers, over blocks whose answers were worked out from the
//! standard.
use crate::tests::{decode, put};
use dvd_block::Block;
use dvd_capture::Work;
use dvd_read::{Cause, Fixed};
use gf_field::mul;
use std::alloc::Global;
use std::test::Fail;
use std::thread::Threads;

// None, so that the plain call answers; one, the most, and a number that divides neither 208 rows nor 182 columns.
static WORKERS: [u8; 4] = [0, 1, 3, 16];

// The row codeword of the generator polynomial of PI: it is at the last eleven places, 171 to 181, and zeros before.
// Moved to the left by some places it is a codeword too.
const GENERATOR: [u8; 11] = [
    0x01, 0xD8, 0xC2, 0x9F, 0x6F, 0xC7, 0x5E, 0x5F, 0x71, 0x9D, 0xC1,
];

// Factors of it for rows 191 to 198: C1 times the first eight of the 17 coefficients of PO's generator polynomial. The
// codeword's first byte is 01, so each row has its factor at place 171: column 171 begins there as a codeword of PO
// whose 17 bytes are in rows 191 to 207. The ninth is C1 times 08.
static FACTORS: [u8; 8] = [0xC1, 0x91, 0xA4, 0x49, 0x39, 0x29, 0x53, 0x76];

// A received block of zeros.
fn zero_block(alloc: Global) -> Result<Work, Fail> {
    let mut work = Work::new(alloc)?;
    work.load_block(&Block::new(alloc)?);
    Ok(work)
}

// Puts a multiple of the generator's codeword into row `i` from place `j` on.
fn put_codeword(work: &mut Work, i: usize, j: usize, factor: u8) {
    for (k, byte) in GENERATOR.iter().enumerate() {
        if j <= 181 {
            put(work, i, j + k, mul(factor, *byte), false);
        }
    }
}

// Marks all places of a row.
fn lose_row(work: &mut Work, i: usize) {
    for j in 0..182usize {
        put(work, i, j, 0, true);
    }
}

// So many rows are lost, 17 at most, every twelfth: one in each frame, and one of outer parity as the last.
fn lost_rows(alloc: Global, count: usize) -> Result<Work, Fail> {
    let mut work = zero_block(alloc)?;
    for t in 0..17usize {
        if t < count {
            lose_row(&mut work, 12 * t);
        }
    }
    Ok(work)
}

// Eight rows are those of another codeword. So columns 171 to 181 have eight errors each, the most that sixteen parity
// bytes correct. The rows are twenty apart; any eight would do.
fn eight_rows(alloc: Global) -> Result<Work, Fail> {
    let mut work = zero_block(alloc)?;
    for t in 0..8usize {
        put_codeword(&mut work, 20 * t, 171, 1);
    }
    Ok(work)
}

// Every row is a codeword, and the columns make one of them no codeword. Column 171 has nine of the seventeen bytes of
// a column codeword, and is corrected to that by eight more, in rows 200 to 207, which are received as zeros. Each
// other column has eight bytes at most that aren't 0, and is near zeros. So row 191 has one byte that isn't 0.
// The ninth byte is the last of row 199, 08 times C1. So that row begins at place 161 and ends in column 171: it
// adds no ninth byte to columns 172 to 181.
fn wrong_row(alloc: Global) -> Result<Work, Fail> {
    let mut work = zero_block(alloc)?;
    for t in 0..8usize {
        put_codeword(&mut work, 191 + t, 171, FACTORS[t]);
    }
    put_codeword(&mut work, 199, 161, 0x08);
    Ok(work)
}

// What was received: rows that are lost, so many; eight rows of another codeword; these and a lost row; or rows whose
// columns make one of them no codeword.
enum Received {
    Lost(usize),
    Eight,
    EightAndLost,
    Wrong,
}

// The block that was received so.
fn work_of(alloc: Global, what: &Received) -> Result<Work, Fail> {
    let mut work = match what {
        Received::Lost(count) => lost_rows(alloc, *count)?,
        Received::Eight | Received::EightAndLost => eight_rows(alloc)?,
        Received::Wrong => wrong_row(alloc)?,
    };
    if let Received::EightAndLost = what {
        lose_row(&mut work, 207);
    }
    Ok(work)
}

// Sixteen lost rows are filled with the zeros that they have, so no byte differs. Eight rows of eleven bytes that
// aren't 0 are 88 bytes. With a lost row each of their columns has eight errors and an erasure, more than sixteen
// parity bytes correct; column 171 is the first of them.
static ANSWERS: [(Received, Result<Fixed, Cause>); 5] = [
    (
        Received::Lost(16),
        Ok(Fixed {
            bytes: 0,
            failed_rows: 16,
        }),
    ),
    (Received::Lost(17), Err(Cause::Rows { failed: 17 })),
    (
        Received::Eight,
        Ok(Fixed {
            bytes: 88,
            failed_rows: 0,
        }),
    ),
    (Received::EightAndLost, Err(Cause::Column { j: 171 })),
    (Received::Wrong, Err(Cause::Row { i: 191 })),
];

// Whether so many workers answer this.
fn is_answered<R: AllocGlobal + Threads + Sync>(
    rt: &R,
    what: &Received,
    answer: Result<Fixed, Cause>,
    workers: u8,
) -> Result<bool, Fail> {
    let mut work = work_of(rt.alloc(), what)?;
    Ok(decode(rt, workers, &mut work) == Some(answer))
}

#[test]
fn each_number_of_workers_answers_the_same(rt: HostRuntime) -> Result<(), Fail> {
    for (what, answer) in &ANSWERS {
        for workers in WORKERS {
            assert!(rt; is_answered(&rt, what, *answer, workers)?);
        }
    }
    Ok(())
}
