//! 32 rows, transposed: vector `k` has place `k` of each row. Bytes of one row are then in one lane, and a step for all
//! 32 rows is a step for one vector.
//!
//! This is done by tiles: a tile is sixteen vectors, with sixteen places of 32 rows. Its lower half is lanes 0 to 15 of
//! all vectors, and its upper half lanes 16 to 31. Each half is a square of sixteen times sixteen bytes, and a square
//! is transposed by two equal steps, each a riffle: four quarters of a deck are put into one another, card by card. So
//! each step moves 32 bytes at once, and no byte by itself. The steps are inlined, so that few vectors pass through
//! memory.
//! That a vector has 32 lanes is said in clauses, since in contracts its type doesn't say it.
ghost use Rattle.std.specs.Prelude.{◌≡◌, ℕ, ◌+◌, ◌*◌, ◌/◌, ◌%◌, ◌<◌, ◌≤◌, [], ◌∷◌, length, map, slice_index, EachIndex};
ghost use Rattle.coding.specs.Rows.{line, place};
ghost use Rattle.rs_lanes.specs.Inner.Transposing.{IsRiffled, IsTransposed};

use crate::row::Row;
use std::simd::prelude::*;

/// Sets all vectors to the places of the 32 rows from `top` on. Also ensures that these rows have 182 places, as
/// callers know it of no row in a list. What the vectors had isn't read. They are put where the caller has them, so
/// that 5,824 bytes needn't be copied. It is public for callers that copy all columns of 32 rows.
pub fn transpose<T: Row>(rows: &[T], top: usize, transposed: &mut [u8x32; 182])
    requires { top + 32 ≤ length rows.now }
    ensures sizes { (n : ℕ) → n < 32 → length (line (map T.word rows.now) (top + n)) ≡ 182 }
    ensures lanes { (k : ℕ) → k < 182 → length (line transposed.new k) ≡ 32 }
    ensures transposed { (k n : ℕ) → k < 182 → n < 32 → place transposed.new k n ≡ place (map T.word rows.now) (top + n) k }
{
    for tile in 0..11 {
        put_tile(
            &load_transposed(rows, top, 16 * tile),
            16 * tile,
            transposed,
        );
    }
    // 182 is no multiple of sixteen: the last tile repeats ten places of the one before.
    put_tile(&load_transposed(rows, top, 166), 166, transposed);
}

// Sets the sixteen vectors from `at` on. All others stay, so that tiles are put one after the other.
#[inline(always)]
fn put_tile(tile: &[u8x32; 16], at: usize, transposed: &mut [u8x32; 182])
    requires { at + 16 ≤ 182 }
    ensures size { length transposed.new ≡ 182 }
    ensures set { (k : ℕ) → k < 16 → line transposed.new (at + k) ≡ line tile.now k }
    ensures below { (k : ℕ) → k < at → line transposed.new k ≡ line transposed.old k }
    ensures above { (k : ℕ) → at + 16 ≤ k → line transposed.new k ≡ line transposed.old k }
{
    for k in 0..16 {
        transposed[at + k] = tile[k];
    }
}

/// Sixteen places, from `at` on, of the 32 rows from `top` on, transposed: vector `k` has place `at + k` of each row.
/// Also ensures that these rows have 182 places. It is public for callers that copy or compare sixteen columns and need
/// no more of the rows.
#[inline(always)]
pub fn load_transposed<T: Row>(rows: &[T], top: usize, at: usize) -> [u8x32; 16]
    requires top { top + 32 ≤ length rows.now }
    requires at { at + 16 ≤ 182 }
    ensures sizes { (n : ℕ) → n < 32 → length (line (map T.word rows.now) (top + n)) ≡ 182 }
    ensures lanes { EachIndex result (λ k. length (line result k) ≡ 32) }
    ensures transposed { (k n : ℕ) → k < 16 → n < 32 → place result k n ≡ place (map T.word rows.now) (top + n) (at + k) }
{
    transpose_tile(&load_tile(rows, top, at))
}

// Sixteen places of 32 rows, not transposed yet: vector `k` has row `top + k` in its lower half, and row `top + 16 + k`
// in its upper half. Sixteen bytes of a row are one load. So each half is a square of sixteen, which is transposed by
// itself, and lane `n` is then row `top + n` in both.
#[inline(always)]
fn load_tile<T: Row>(rows: &[T], top: usize, at: usize) -> [u8x32; 16]
    requires top { top + 32 ≤ length rows.now }
    requires at { at + 16 ≤ 182 }
    ensures sizes { (n : ℕ) → n < 32 → length (line (map T.word rows.now) (top + n)) ≡ 182 }
    ensures lanes { EachIndex result (λ k. length (line result k) ≡ 32) }
    ensures bytes { (k n : ℕ) → k < 16 → n < 32 → place result k n ≡ place (map T.word rows.now) (top + (16 * (n / 16) + k)) (at + n % 16) }
{
    let mut tile = [u8x32::splat(0); 16];
    for k in 0..16 {
        tile[k] = pair_at(rows[top + k].row(), rows[top + 16 + k].row(), at);
    }
    tile
}

// Sixteen places of two rows. Also ensures that these have 182 places. They are passed by themselves, since of rows in
// a list this isn't known.
#[inline(always)]
fn pair_at(one: &[u8; 182], other: &[u8; 182], at: usize) -> u8x32
    requires { at + 16 ≤ 182 }
    ensures one_size { length one.now ≡ 182 }
    ensures other_size { length other.now ≡ 182 }
    ensures size { length result ≡ 32 }
    ensures one { (n : ℕ) → n < 16 → slice_index result n ≡ slice_index one.now (at + n) }
    ensures other { (n : ℕ) → n < 16 → slice_index result (16 + n) ≡ slice_index other.now (at + n) }
{
    load_pair(one, other, at)
}

// Sixteen bytes of each of two slices, from `at` on, one after the other: in a shuffle the lanes of the second vector
// are numbered from 16 on. It is about slices of any length: that the arrays of `pair_at` are long enough follows from
// their own length.
#[inline(always)]
fn load_pair(one: &[u8], other: &[u8], at: usize) -> u8x32
    requires one { at + 16 ≤ length one.now }
    requires other { at + 16 ≤ length other.now }
    ensures size { length result ≡ 32 }
    ensures one { (n : ℕ) → n < 16 → slice_index result n ≡ slice_index one.now (at + n) }
    ensures other { (n : ℕ) → n < 16 → slice_index result (16 + n) ≡ slice_index other.now (at + n) }
{
    u8x16::from_slice(&one[at..]).shuffle(
        u8x16::from_slice(&other[at..]),
        [
            0, 1, 2, 3, 4, 5, 6, 7, 8, 9, 10, 11, 12, 13, 14, 15, 16, 17, 18, 19, 20, 21, 22, 23,
            24, 25, 26, 27, 28, 29, 30, 31,
        ],
    )
}

// Transposes both halves of a tile. Within a half, the numbers of vector and lane, four bits each, are eight bits
// together, which each step rotates by two. After two steps the two have changed places.
#[inline(always)]
fn transpose_tile(tile: &[u8x32; 16]) -> [u8x32; 16]
    requires { EachIndex tile.now (λ k. length (line tile.now k) ≡ 32) }
    ensures lanes { EachIndex result (λ k. length (line result k) ≡ 32) }
    ensures transposed { IsTransposed tile.now result }
{
    riffle(&riffle(tile))
}

// One of two equal steps: vectors `k`, `k + 4`, `k + 8` and `k + 12` become vectors `4 k` to `4 k + 3`, where their
// lanes alternate. No lane leaves its half, so that both halves are transposed at once. A new tile is made: in place a
// step would overwrite vectors that it has yet to read.
#[inline(always)]
fn riffle(tile: &[u8x32; 16]) -> [u8x32; 16]
    requires { EachIndex tile.now (λ k. length (line tile.now k) ≡ 32) }
    ensures lanes { EachIndex result (λ k. length (line result k) ≡ 32) }
    ensures riffled { IsRiffled tile.now result }
{
    let mut riffled = [u8x32::splat(0); 16];
    for k in 0..4 {
        let four = alternating(tile[k], tile[k + 4], tile[k + 8], tile[k + 12]);
        riffled[4 * k] = four[0];
        riffled[4 * k + 1] = four[1];
        riffled[4 * k + 2] = four[2];
        riffled[4 * k + 3] = four[3];
    }
    riffled
}

// Four vectors whose lanes alternate: the first four lanes of each half in one, the next four in the next, and so on. It
// is done by pairs, in two steps for the same four vectors: a step of pairs for all sixteen would hold twice as many
// registers as a processor for `x86-64-v2` has.
#[inline(always)]
fn alternating(a: u8x32, b: u8x32, c: u8x32, d: u8x32) -> [u8x32; 4]
    requires a { length a ≡ 32 }
    requires b { length b ≡ 32 }
    requires c { length c ≡ 32 }
    requires d { length d ≡ 32 }
    ensures lanes { (q : ℕ) → q < 4 → length (line result q) ≡ 32 }
    ensures each { (q n : ℕ) → q < 4 → n < 32 → place result q n ≡ place (a ∷ b ∷ c ∷ d ∷ []) (n % 4) (16 * (n / 16) + (4 * q + n % 16 / 4)) }
{
    let first_even = first_lanes(a, c);
    let last_even = last_lanes(a, c);
    let first_odd = first_lanes(b, d);
    let last_odd = last_lanes(b, d);
    [
        first_lanes(first_even, first_odd),
        last_lanes(first_even, first_odd),
        first_lanes(last_even, last_odd),
        last_lanes(last_even, last_odd),
    ]
}

// The first eight lanes of each half of two vectors, alternating. In each half this is one instruction of the
// processor. The lanes of `b` are numbered from 32 on.
#[inline(always)]
fn first_lanes(a: u8x32, b: u8x32) -> u8x32
    requires a { length a ≡ 32 }
    requires b { length b ≡ 32 }
    ensures size { length result ≡ 32 }
    ensures even { (n : ℕ) → n < 32 → n % 2 ≡ 0 → slice_index result n ≡ slice_index a (16 * (n / 16) + n % 16 / 2) }
    ensures odd { (n : ℕ) → n < 32 → n % 2 ≡ 1 → slice_index result n ≡ slice_index b (16 * (n / 16) + n % 16 / 2) }
{
    a.shuffle(
        b,
        [
            0, 32, 1, 33, 2, 34, 3, 35, 4, 36, 5, 37, 6, 38, 7, 39, 16, 48, 17, 49, 18, 50, 19, 51,
            20, 52, 21, 53, 22, 54, 23, 55,
        ],
    )
}

// The last eight lanes of each half of two vectors, alternating, likewise: the lanes 8 to 15 and 24 to 31 of `a`, and
// those of `b`, which are numbered from 32 on.
#[inline(always)]
fn last_lanes(a: u8x32, b: u8x32) -> u8x32
    requires a { length a ≡ 32 }
    requires b { length b ≡ 32 }
    ensures size { length result ≡ 32 }
    ensures even { (n : ℕ) → n < 32 → n % 2 ≡ 0 → slice_index result n ≡ slice_index a (16 * (n / 16) + (8 + n % 16 / 2)) }
    ensures odd { (n : ℕ) → n < 32 → n % 2 ≡ 1 → slice_index result n ≡ slice_index b (16 * (n / 16) + (8 + n % 16 / 2)) }
{
    a.shuffle(
        b,
        [
            8, 40, 9, 41, 10, 42, 11, 43, 12, 44, 13, 45, 14, 46, 15, 47, 24, 56, 25, 57, 26, 58,
            27, 59, 28, 60, 29, 61, 30, 62, 31, 63,
        ],
    )
}
