//! The shortest linear feedback register that generates a list, by the steps of Berlekamp and Massey: the list is taken
//! number by number. Where the register at hand fails, a multiple of an earlier one, shifted to fail at the same place,
//! corrects it. A register's taps are in one vector, and its connections from the place at hand on in another: what
//! corrects its taps corrects its connections too, so that nothing is summed up at any place. No step takes memory, and
//! each is inlined, so that both vectors may stay in registers.
//! In clauses a vector is a list, whose length its type doesn't say: so they say it where a proof needs it.
ghost use Rattle.std.specs.Prelude.{◌≡◌, ℕ, ◌+◌, ◌<◌, ◌≤◌, ◌∷◌, length, take, slice_index};
ghost use Rattle.coding.specs.Field.{plus, product};
ghost use Rattle.rs_lanes.specs.Inner.Lanes.{HasLanes};
ghost use Rattle.rs_decode.specs.Register.{Generates, IsLeast};

use crate::combining::{as_prefix, moved_up};
use arrayvec::ArrayVec;
use gf_field::inv;
use rs_lanes::{multiple, store, with_multiple};
use std::simd::prelude::*;

/// A register that generates a list: from place `len` on, the sum over i of the i-th tap times the number i places
/// before is 0.
#[derive(Clone, Debug, PartialEq, Eq, Drop)]
pub struct Register {
    /// How many numbers before a place it reads, 0 to 32: its length. Any unsigned type would do.
    pub len: u16,
    /// Its `len` + 1 taps, of which the first is 01: so there is room for 33.
    pub taps: ArrayVec<u8, 33>,
}

// A register on the way to the shortest one.
#[derive(Clone, Copy)]
struct Candidate {
    // Its taps but for the first, which is 1 at the register at hand and 0 at the earlier one. So 32 are enough.
    taps: u8x32,
    // Lane k is its connection k places after the place at hand, where the list has such a place.
    connections: u8x32,
}

/// The shortest register that generates `seq`, which has at most 32 bytes. It takes no memory and never fails. Where
/// its length is more than half of the number of bytes, there may be others as short, of which this is one. No other
/// crate calls it; tests name it at the crate's root. 32 bytes are as many syndromes as a code has at most.
pub fn shortest(seq: &[u8]) -> Register
    requires { length seq.now ≤ 32 }
    ensures generates { Generates result.len result.taps.items seq.now }
    ensures least { IsLeast result.len seq.now }
{
    let mut len = 0;
    // Of length 0, it fails by each number itself.
    let mut register = Candidate {
        taps: u8x32::splat(0),
        connections: u8x32::from_array(as_prefix(seq)),
    };
    // The register from before the length last changed, shifted to fail at the place at hand, and multiplied to fail by
    // 1. While the length is 0 there is none, and a power of x takes its place. That doesn't correct the first failure,
    // and needn't: from there on the length is `place` + 1, and connections at places below that may be anything.
    let mut earlier = Candidate {
        taps: moved_up(1, register.taps),
        connections: moved_up(0, register.connections),
    };
    for place in 0..seq.len() {
        let found = register.connections[0];
        // The first tap of the earlier one, before it is shifted: other than 0 only where the register at hand, whose
        // first tap is 1, was put in its place and multiplied.
        let mut first = 0;
        if found != 0 {
            // A copy, since it may become the earlier one.
            let before = register;
            register = corrected(register, earlier, found);
            // No register that generates the number here is shorter than `place + 1 - len`. Where that is longer than
            // `len`, it is the new length; else the old length is enough.
            if 2 * len <= place {
                len = place + 1 - len;
                first = inv(found);
                earlier = mul_scalar(before, first);
            }
        }
        register.connections = moved_down(register.connections);
        // Shifted, it has at the next place the connections that it had here.
        earlier.taps = moved_up(first, earlier.taps);
    }
    Register {
        len: len as u16,
        taps: all_taps(register.taps, len),
    }
}

// A register with a multiple of another added, in taps and connections alike: a connection is linear in the taps.
#[inline(always)]
fn corrected(register: Candidate, other: Candidate, factor: u8) -> Candidate
    ensures taps { HasLanes result.taps (λ k. plus (slice_index register.taps k) (product (slice_index other.taps k) factor)) }
    ensures connections { HasLanes result.connections
        (λ k. plus (slice_index register.connections k) (product (slice_index other.connections k) factor)) }
{
    Candidate {
        taps: with_multiple(register.taps, other.taps, factor),
        connections: with_multiple(register.connections, other.connections, factor),
    }
}

// A multiple of a register but for its first tap, which the caller has.
#[inline(always)]
fn mul_scalar(register: Candidate, factor: u8) -> Candidate
    ensures taps { HasLanes result.taps (λ k. product (slice_index register.taps k) factor) }
    ensures connections { HasLanes result.connections (λ k. product (slice_index register.connections k) factor) }
{
    Candidate {
        taps: multiple(register.taps, factor),
        connections: multiple(register.connections, factor),
    }
}

// Each lane moved down by one. What was in the first lane is lost: that place is done. The last lane becomes 0.
#[inline(always)]
fn moved_down(lanes: u8x32) -> u8x32
    ensures size { length result ≡ 32 }
    ensures each { (k : ℕ) → k < 31 → slice_index result k ≡ slice_index lanes (k + 1) }
{
    lanes.shuffle(
        u8x32::splat(0),
        [
            1, 2, 3, 4, 5, 6, 7, 8, 9, 10, 11, 12, 13, 14, 15, 16, 17, 18, 19, 20, 21, 22, 23, 24,
            25, 26, 27, 28, 29, 30, 31, 32,
        ],
    )
}

// The taps of a register of length `len`, of which the first is 1. The others of the 32 are dropped: they are zeros.
fn all_taps(lanes: u8x32, len: usize) -> ArrayVec<u8, 33>
    requires { len ≤ 32 }
    ensures { result.items ≡ take (len + 1) (1 ∷ lanes) }
{
    // The vector is put from place 1 on, so that the 1 at place 0 stays.
    let mut bytes = [1; 33];
    store(lanes, &mut bytes, 1);
    let mut taps = ArrayVec::from(bytes);
    taps.truncate(len + 1);
    taps
}
