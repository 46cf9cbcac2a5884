//! What is proposed for 32 rows, and the test of it.
//! Of the proposals themselves no contract says anything: a row is only corrected by one where its test, which is
//! proved, shows that the result is the codeword near it.
//! In clauses a vector is a list, whose length its type doesn't say: so they say it where a proof needs it.
ghost use Rattle.std.specs.Prelude.{◌≡◌, ℕ, ◌-◌, ◌<◌, false, length, replicate, slice_index, take, IfSome, IsTrue};
ghost use Rattle.coding.specs.Field.{alpha, plus, power, product};
ghost use Rattle.coding.specs.Words.{IsNear};
ghost use Rattle.coding.specs.Filling.{marked};
ghost use Rattle.rs_code.specs.Syndromes.{syndromes_of};
ghost use Rattle.rs_decode.specs.Errors.{error_count};

use crate::amounts::put_amounts;
use crate::counting::add_at;
use crate::locators::locators;
use crate::roots::roots;
use crate::tower::{bytes, logs, logs_of_zero, pairs};
use gf_field::log;
use rs_decode::Fix;
use rs_lanes::{mul_scalar, powers};
use std::simd::prelude::*;

/// What is proposed for each of 32 rows of 182 bytes, ten of them parity: up to five bytes to add, and the powers of
/// alpha at their places, their points. A byte 0 at the point 1 is none. They are bytes and not vectors, since they are
/// read row by row: entry `n` of each list is for row `n`.
#[derive(Drop)]
pub struct Proposals {
    points: [[u8; 32]; 5],
    bytes: [[u8; 32]; 5],
}

impl Proposals {
    /// No proposal for any row: adding them changes no row, so for a row that is no codeword nothing is believed.
    /// Callers begin with these and propose only where it pays.
    pub fn none() -> Self {
        Proposals {
            points: [[1; 32]; 5],
            bytes: [[0; 32]; 5],
        }
    }

    /// Makes proposals for rows that have these values at alpha^0 to alpha^9: lane `n` has those of row `n`. They are
    /// right for rows with at most five errors; tests show this, and no contract says it, since `believe` tests each.
    /// All go through all steps, codewords too, since lanes can't branch. Earlier proposals are all overwritten. In
    /// between, numbers are pairs of nibbles, in which `tower` has products of lanes; `roots` alone needs the locators
    /// as bytes. The logarithms of the syndromes are found once, for both steps that multiply by them.
    pub fn propose(&mut self, values: &[u8x32; 10]) {
        let mut syndromes = [u8x32::splat(0); 10];
        let mut syndrome_logs = [logs_of_zero(); 10];
        for k in 0..10 {
            syndromes[k] = pairs(values[k]);
            syndrome_logs[k] = logs(syndromes[k]);
        }
        let taps = locators(&syndromes, &syndrome_logs);
        let mut coefficients = [u8x32::splat(0); 5];
        for k in 0..5 {
            coefficients[k] = bytes(taps[k]);
        }
        let mut points = roots(&coefficients);
        let mut amounts = [u8x32::splat(0); 5];
        put_amounts(&syndromes, &syndrome_logs, &taps, &mut points, &mut amounts);
        for k in 0..5 {
            self.points[k] = points[k].to_array();
            self.bytes[k] = amounts[k].to_array();
        }
    }

    /// Sets `row` to the codeword near a received row without marks, by its syndromes and the proposal for row `n`, if
    /// this is right. It is right if its bytes have the syndromes as their power sums: the row with these bytes added
    /// is then a codeword. This codeword is near the row, since at most five places differ. Otherwise the result is
    /// `None`, and `row` may be anything: callers then decode the received row, which stays. The syndromes are passed,
    /// since callers have them from the values that the proposals were made by. The power sums are found by the five
    /// bytes alone, so that the row isn't read for them.
    pub fn believe(
        &self,
        n: usize,
        syndromes: &[u8],
        received: &[u8; 182],
        row: &mut [u8; 182],
    ) -> Option<Fix>
        requires lane { n < 32 }
        requires syndromes { syndromes.now ≡ syndromes_of 10 received.now }
        ensures near { IfSome result (λ _. IsNear 182 10 received.now (replicate 182 false) row.new) }
        ensures errors { IfSome result (λ fix. fix.errors ≡ error_count received.now row.new (replicate 182 false)) }
        ensures erased { IfSome result (λ fix. fix.erased ≡ marked (replicate 182 false)) }
    {
        // The bytes are added to a copy: the received row is what errors are counted by, and what a caller decodes
        // else.
        *row = *received;
        let mut errors = 0;
        let mut sums = u8x16::splat(0);
        for k in 0..5 {
            let place = place_of(self.points[k][n])?;
            // A byte 0 is added like any other, so that no branch hangs on the number of errors.
            errors = add_at(received, row, place, self.bytes[k][n], errors);
            sums = with_byte(sums, place, self.bytes[k][n]);
        }
        if !begin_with(sums, syndromes) {
            return None;
        }
        Some(Fix { errors, erased: 0 })
    }
}

// The place in a row whose power of alpha this is, if there is one: the last place, 181, has the exponent 0. Exponents
// from 182 to 254 are of no place in a row, and no row with at most five errors has them. 0 is no power; it isn't
// proposed, but only this test shows that, and `log` needs it. It is inlined, as all that `believe` does for each of
// five bytes is.
#[inline(always)]
fn place_of(point: u8) -> Option<usize>
    ensures { IfSome result (λ place. place < 182) }
{
    if point == 0 {
        return None;
    }
    181usize.checked_sub(log(point) as usize)
}

// The power sums with one more byte, which is at a place of a row: sum `k` gets the byte times the place's power of
// alpha, to the power k. All sixteen lanes are computed at once, of which the first ten are compared. The place is
// passed and not its point, since `powers` goes by exponents: that of a place is 181 less its number.
#[inline(always)]
fn with_byte(sums: u8x16, place: usize, byte: u8) -> u8x16
    requires { place < 182 }
    ensures size { length result ≡ 16 }
    ensures each { (k : ℕ) → k < 16
        → slice_index result k ≡ plus (slice_index sums k) (product byte (power (power alpha k) (181 - place))) }
{
    sums ^ mul_scalar(powers(181 - place), byte)
}

// Whether the first sums are these syndromes. No branch hangs on one of them, so that all are compared at once: the
// first eight, and the last eight of the ten, six of them twice. The clause goes one way, since believing too little
// would only cost time.
#[inline(always)]
fn begin_with(sums: u8x16, syndromes: &[u8]) -> bool
    requires lanes { length sums ≡ 16 }
    requires size { length syndromes.now ≡ 10 }
    ensures { IsTrue result → take 10 sums ≡ syndromes.now }
{
    let first = sums.extract::<0, 8>() ^ u8x8::from_slice(syndromes);
    let last = sums.extract::<2, 8>() ^ u8x8::from_slice(&syndromes[2..]);
    (first | last).reduce_or() == 0
}
