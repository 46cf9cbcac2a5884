//! The locators of 32 rows, by their syndromes: the algorithm of Berlekamp and Massey in each lane, without a branch.
//! The first coefficient is 1 and isn't stored. A row with more than five errors gets some locator too, and its
//! proposal isn't believed. Five coefficients are kept, since ten parity bytes correct at most five errors.
//! No function has a clause on its results, and none is needed: what is proposed by a locator is tested row by row, in
//! `proposals`, and a wrong one only makes a row be decoded by itself. Clauses keep numbers within their bounds.
//! Numbers are pairs of nibbles as in `tower`, and products are read from their logarithms. "Taps" are coefficients.
//! What is done for each syndrome is inlined, so that vectors needn't pass through memory.
ghost use Rattle.std.specs.Prelude.{◌<◌};

use crate::tower::{Logs, chosen, inverse, logs, logs_of_one, logs_of_zero, product};
use std::simd::prelude::*;

/// The coefficients of the locators after the first one, that of the next lower power first: x^5 and these five are the
/// polynomials whose zeros are tried. Where there are fewer than five errors, the last coefficients are 0.
pub fn locators(syndromes: &[u8x32; 10], syndrome_logs: &[Logs; 10]) -> [u8x32; 5] {
    let mut taps = [u8x32::splat(0); 5];
    // The register as it was before it last got longer, moved up one place for each syndrome since, and the inverse of
    // its discrepancy then. At first it is 1, moved up once, as if it had missed by 1.
    let mut earlier = [logs_of_zero(); 5];
    earlier[0] = logs_of_one();
    let mut divisor = logs_of_one();
    let mut lengths = u8x32::splat(0);
    for at in 0..10 {
        // Of the taps before they change: the sum is theirs, and so is the register that may be kept.
        let tap_logs = logs_of_all(&taps);
        let missed = sum_at(at, syndromes, syndrome_logs, &tap_logs);
        let missed_logs = logs(missed);
        let factor = logs(product(&missed_logs, &divisor));
        add_multiples(&mut taps, &factor, &earlier, at + 1);
        let grows = grow_at(at, missed, lengths);
        shift(&mut earlier, &tap_logs, grows);
        // A discrepancy 0 has no inverse, but there no register gets longer.
        divisor = chosen(grows, &inverse(&missed_logs), &divisor);
        // The syndromes so far, less the length before: no register that generates this one too is shorter.
        lengths = grows.select(u8x32::splat(at as u8 + 1) - lengths, lengths);
    }
    taps
}

/// The logarithms of all coefficients. Each coefficient has several factors, and its logarithms are looked up once. It
/// is public for `amounts`, which multiplies by the same coefficients.
#[inline(always)]
pub fn logs_of_all(taps: &[u8x32; 5]) -> [Logs; 5] {
    let mut all = [logs_of_zero(); 5];
    for k in 0..5 {
        all[k] = logs(taps[k]);
    }
    all
}

/// The sum of the syndrome with number `at` and those before it, each times its coefficient: at most five have one. For
/// a register this is its discrepancy there, 0 where it generates the syndrome. For a whole locator and `at` below five
/// it is a coefficient of the numerator of Forney's formula, for which it is public. No clause says so, since the
/// proposal that is made of it is tested; the one that is required keeps `at` inside the list.
#[inline(always)]
pub fn sum_at(
    at: usize,
    syndromes: &[u8x32; 10],
    syndrome_logs: &[Logs; 10],
    tap_logs: &[Logs; 5],
) -> u8x32
    requires { at < 10 }
{
    let mut sum = syndromes[at];
    for k in 0..at.min(5) {
        sum = sum ^ product(&tap_logs[k], &syndrome_logs[at - 1 - k]);
    }
    sum
}

// Whether a register gets longer: where its discrepancy isn't 0, and it isn't longer than half of the `at` syndromes
// before this one. A longer register keeps its length, since one of this length generates this syndrome too.
// A mask, since each lane has its own answer and lanes can't branch.
#[inline(always)]
fn grow_at(at: usize, missed: u8x32, lengths: u8x32) -> mask8x32
    requires { at < 10 }
{
    let reach = u8x32::splat(at as u8);
    missed.simd_ne(u8x32::splat(0)) & (lengths + lengths).simd_le(reach)
}

// Adds the multiple of the earlier register that makes the discrepancy 0. Only its first `count` coefficients can be
// other than 0: at first one can, and one more with each syndrome. Where nothing was missed, the factor is 0 and the
// taps stay.
#[inline(always)]
fn add_multiples(taps: &mut [u8x32; 5], factor: &Logs, earlier: &[Logs; 5], count: usize) {
    for k in 0..count.min(5) {
        taps[k] = taps[k] ^ product(factor, &earlier[k]);
    }
}

// Moves the earlier register up by one place. Where a register gets longer, it becomes the earlier one as it was
// before: `taps`, moved up by one place too, with its 1 first. From the last coefficient on, so that each is read
// before it is overwritten; what leaves the fifth is lost, since the locator of a row that can be corrected is no
// longer.
#[inline(always)]
fn shift(earlier: &mut [Logs; 5], taps: &[Logs; 5], grows: mask8x32) {
    for k in 0..4 {
        earlier[4 - k] = chosen(grows, &taps[3 - k], &earlier[3 - k]);
    }
    earlier[0] = chosen(grows, &logs_of_one(), &logs_of_zero());
}
