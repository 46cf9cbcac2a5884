//! How often a row has to be decoded by itself. That the proposal for a row with at most five errors is right is shown
//! here alone. Where it isn't, the row is decoded by itself, and its answer is still right.
ghost use Rattle.std.specs.Prelude.{◌<◌, ◌≤◌};

use crate::Proposals;
use rand_xoshiro::SplitMix64;
use rand_xoshiro::rand_core::{Rng, SeedableRng};
use rs_code::Pi;
use rs_decode::decode;
use rs_lanes::row_values;

/// 32 drawn codewords.
fn drawn_rows(drawn: &mut SplitMix64) -> [[u8; 182]; 32] {
    let code = Pi::new();
    let mut rows = [[0; 182]; 32];
    for row in rows.iter_mut() {
        drawn.fill_bytes(&mut row[..]);
        code.encode(row);
    }
    rows
}

/// A drawn byte that isn't 0: what an error adds.
fn drawn_error(drawn: &mut SplitMix64) -> u8 {
    drawn.next_u64().to_be_bytes()[0] | 1
}

/// Whether the proposal for row `n` is believed exactly where the row has an answer, and gives that answer.
fn is_right(proposals: &Proposals, n: usize, received: &[u8; 182]) -> bool
    requires { n < 32 }
{
    let code = Pi::new();
    let mut want = *received;
    let answer = decode(&code, &mut want, &[false; 182]);
    let mut row = [0; 182];
    match proposals.believe(n, &code.syndromes(received), received, &mut row) {
        Some(fix) => answer == Ok(fix) && row == want,
        None => answer.is_err(),
    }
}

/// The first row, if there is one, where this isn't so.
fn first_refused(received: &[[u8; 182]; 32]) -> Option<usize> {
    let mut proposals = Proposals::none();
    proposals.propose(&row_values(received, 0));
    for n in 0..32usize {
        if !is_right(&proposals, n, &received[n]) {
            return Some(n);
        }
    }
    None
}

/// The first of 32 drawn rows where it isn't so. Each has `fewest` to `most` errors at drawn places, some of which may
/// be the same.
fn first_refused_with(drawn: &mut SplitMix64, fewest: u64, most: u64) -> Option<usize>
    requires some { fewest ≤ most }
    requires few { most ≤ 182 }
{
    let mut rows = drawn_rows(drawn);
    for row in rows.iter_mut() {
        for _k in 0..fewest + drawn.next_u64() % (most - fewest + 1) {
            row[(drawn.next_u64() % 182) as usize] ^= drawn_error(drawn);
        }
    }
    first_refused(&rows)
}

/// With up to five errors a row has an answer. With more it seldom has one, and is then decoded by itself.
#[test]
fn believes_what_is_proposed_where_decoding_has_an_answer(rt: HostRuntime) {
    let mut drawn = SplitMix64::seed_from_u64(1);
    for (rounds, fewest, most) in [(20, 0, 5), (8, 6, 25)] {
        for round in 0..rounds {
            assert_eq!(rt;
                first_refused_with(&mut drawn, fewest, most),
                None,
                "with {fewest} to {most} errors in round {round}"
            );
        }
    }
}

#[test]
fn believes_what_is_proposed_for_each_place(rt: HostRuntime) {
    let mut drawn = SplitMix64::seed_from_u64(2);
    for round in 0..6usize {
        let mut rows = drawn_rows(&mut drawn);
        for n in 0..32usize {
            rows[n][(32 * round + n) % 182] ^= drawn_error(&mut drawn);
        }
        assert_eq!(rt; first_refused(&rows), None, "in round {round}");
    }
}
