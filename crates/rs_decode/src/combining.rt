//! Vectors and lists: vectors added to bytes, lists in the first lanes of vectors, and lanes moved up. They serve
//! several modules of the crate. What has vectors as parameters or results is inlined, so that they needn't pass
//! through memory.
ghost use Rattle.std.specs.Prelude.{◌≡◌, ℕ, ◌+◌, ◌<◌, ◌≤◌, length, slice_index, take, ◌∷◌};
ghost use Rattle.coding.specs.Field.{plus};
ghost use Rattle.rs_lanes.specs.Inner.Lanes.{HasLanes};

use std::simd::prelude::*;

/// Adds lanes to the sixteen bytes from place `at` on. All others stay. It is for `values`, which adds a term's values
/// group by group.
#[inline(always)]
pub fn add_lanes(bytes: &mut [u8], at: usize, lanes: u8x16)
    requires { at + 16 ≤ length bytes.old }
    ensures size { length bytes.new ≡ length bytes.old }
    ensures added { (k : ℕ) → k < 16 → slice_index bytes.new (at + k) ≡ plus (slice_index bytes.old (at + k)) (slice_index lanes k) }
    ensures below { (k : ℕ) → k < at → slice_index bytes.new k ≡ slice_index bytes.old k }
    ensures above { (k : ℕ) → at + 16 ≤ k → slice_index bytes.new k ≡ slice_index bytes.old k }
{
    let sum = u8x16::from_slice(&bytes[at..]) ^ lanes;
    sum.copy_to_slice(&mut bytes[at..]);
}

/// The lanes of a vector that begins with a list. The others are zeros. So lists of different lengths have the one form
/// that vectors read.
pub fn as_prefix<const N: usize>(list: &[u8]) -> [u8; N]
    requires { length list.now ≤ N }
    ensures { take (length list.now) result ≡ list.now }
{
    let mut bytes = [0; N];
    bytes[..list.len()].copy_from_slice(list);
    bytes
}

/// Each lane moved up by one, and a byte in the first. What was in the last lane is lost.
#[inline(always)]
pub fn moved_up(first: u8, lanes: u8x32) -> u8x32
    ensures { HasLanes result (λ k. slice_index (first ∷ lanes) k) }
{
    // Numbers below 32 are lanes of the vector of `first`, and those from 32 on are lanes of the other.
    u8x32::splat(first).shuffle(
        lanes,
        [
            0, 32, 33, 34, 35, 36, 37, 38, 39, 40, 41, 42, 43, 44, 45, 46, 47, 48, 49, 50, 51, 52,
            53, 54, 55, 56, 57, 58, 59, 60, 61, 62,
        ],
    )
}
