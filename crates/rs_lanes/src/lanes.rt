//! Vectors of 32 bytes, lane by lane: a lane is one byte of a vector. Each operation is a function of its own, so that
//! a contract says once what happens in each lane.
//! In contracts a vector is a list of numbers, and its type doesn't say how many. So a clause says where there are 32:
//! `size`, or `HasLanes`, which says what each lane has too. Contracts of what other crates use don't cite `HasLanes`.
//! Those are `load`, `store`, `copy_row`, `any_of`, `are_zeros`, `multiple` and `with_multiple`; the rest serves this
//! crate.
//! All is inlined, so that vectors needn't pass through memory, and a factor that is a constant stays one.
ghost use Rattle.std.specs.Prelude.{◌≡◌, ◌↔◌, ℕ, IsTrue, ◌+◌, ◌*◌, ◌/◌, ◌%◌, ◌<◌, ◌≤◌, length, slice_index};
ghost use Rattle.coding.specs.Field.{plus, product};
ghost use Rattle.coding.specs.Rows.{place};
ghost use Rattle.rs_lanes.specs.Inner.Lanes.{HasLanes};
ghost use Rattle.rs_lanes.specs.Inner.Tables.{IsTable};

use crate::gf_tables::products;
use std::simd::prelude::*;

/// The sum of two vectors.
#[inline(always)]
pub fn xor(a: u8x32, b: u8x32) -> u8x32
    ensures { HasLanes result (λ k. plus (slice_index a k) (slice_index b k)) }
{
    a ^ b
}

/// Lanes that are zero exactly where those of every vector are. So 32 words are tested by one vector: a lane is zero
/// only where all values of its word are. What a lane has otherwise isn't said, since only zero or not is asked for.
#[inline(always)]
pub fn any_of<const R: usize>(vectors: &[u8x32; R]) -> u8x32
    ensures size { length result ≡ 32 }
    ensures zeros { (j : ℕ) → j < 32 → (slice_index result j ≡ 0) ↔ ((k : ℕ) → k < R → place vectors.now k j ≡ 0) }
{
    let mut any = u8x32::splat(0);
    for k in 0..R {
        any = either(any, vectors[k]);
    }
    any
}

/// Whether all lanes are zero.
#[inline(always)]
pub fn are_zeros(lanes: u8x32) -> bool
    requires { length lanes ≡ 32 }
    ensures { IsTrue result ↔ ((k : ℕ) → k < 32 → slice_index lanes k ≡ 0) }
{
    lanes.reduce_or() == 0
}

/// The 32 bytes from place `at` on. `from_slice` reads the first 32 of a slice that may be longer.
#[inline(always)]
pub fn load(row: &[u8], at: usize) -> u8x32
    requires { at + 32 ≤ length row.now }
    ensures size { length result ≡ 32 }
    ensures each { (k : ℕ) → k < 32 → slice_index result k ≡ slice_index row.now (at + k) }
{
    u8x32::from_slice(&row[at..])
}

/// Sets the 32 bytes from place `at` on. All others stay: `copy_to_slice` writes the first 32 of a slice that may be
/// longer.
#[inline(always)]
pub fn store(lanes: u8x32, row: &mut [u8], at: usize)
    requires { at + 32 ≤ length row.old }
    ensures size { length row.new ≡ length row.old }
    ensures set { (k : ℕ) → k < 32 → slice_index row.new (at + k) ≡ slice_index lanes k }
    ensures below { (k : ℕ) → k < at → slice_index row.new k ≡ slice_index row.old k }
    ensures above { (k : ℕ) → at + 32 ≤ k → slice_index row.new k ≡ slice_index row.old k }
{
    lanes.copy_to_slice(&mut row[at..]);
}

/// Copies a row, as six vectors. The last begins at place 150 and writes some bytes again, as 182 is no multiple of 32.
/// A row is copied for each answer, and a call that copies any number of bytes takes longer than these six.
#[inline(always)]
pub fn copy_row(from: &[u8; 182], to: &mut [u8; 182])
    ensures { to.new ≡ from.now }
{
    for piece in 0..5usize {
        store(load(from, 32 * piece), to, 32 * piece);
    }
    store(load(from, 150), to, 150);
}

/// The product of each lane and the factor of the table. A product is linear: it is the sum of those with the low and
/// with the high half of the lane. The table has all that is needed of the factor: its products with the sixteen low
/// nibbles, and with the sixteen high ones. `fold3` and `fold5` call this and not `multiple`, since their contracts
/// cite `HasLanes` too.
#[inline(always)]
pub fn mul_const(table: &[[u8; 16]; 2], lanes: u8x32) -> u8x32
    ensures { (factor : ℕ) → IsTable factor table.now → HasLanes result (λ k. product (slice_index lanes k) factor) }
{
    xor(
        by_low_nibble(&table[0], lanes),
        by_high_nibble(&table[1], lanes),
    )
}

/// The product of each lane and a factor. It is public for other crates, which have no tables: that of the factor is
/// looked up once, and serves all lanes.
#[inline(always)]
pub fn multiple(lanes: u8x32, factor: u8) -> u8x32
    ensures size { length result ≡ 32 }
    ensures each { (k : ℕ) → k < 32 → slice_index result k ≡ product (slice_index lanes k) factor }
{
    mul_const(&products(factor), lanes)
}

/// The sum of a vector and a multiple of another: the step of each sum of multiples, here in `parity` and in decoders.
#[inline(always)]
pub fn with_multiple(sum: u8x32, lanes: u8x32, factor: u8) -> u8x32
    ensures size { length result ≡ 32 }
    ensures each { (k : ℕ) → k < 32 → slice_index result k ≡ plus (slice_index sum k) (product (slice_index lanes k) factor) }
{
    xor(sum, multiple(lanes, factor))
}

// Lanes that are zero exactly where those of both are.
#[inline(always)]
fn either(a: u8x32, b: u8x32) -> u8x32
    ensures size { length result ≡ 32 }
    ensures zeros { (k : ℕ) → k < 32 → (slice_index result k ≡ 0) ↔ ((slice_index a k ≡ 0) × (slice_index b k ≡ 0)) }
{
    a | b
}

// The table's entries at the low four bits of each lane. A look-up asks for numbers below sixteen, so the high four
// bits are cleared.
#[inline(always)]
fn by_low_nibble(table: &[u8; 16], lanes: u8x32) -> u8x32
    ensures { HasLanes result (λ k. slice_index table.now (slice_index lanes k % 16)) }
{
    twice(table).swizzle_dyn_within::<16>(lanes & u8x32::splat(15))
}

// The table's entries at the high four bits of each lane. A look-up asks for numbers below sixteen: a shift of a byte
// by four leaves no greater ones, so nothing is cleared.
#[inline(always)]
fn by_high_nibble(table: &[u8; 16], lanes: u8x32) -> u8x32
    ensures { HasLanes result (λ k. slice_index table.now (slice_index lanes k / 16)) }
{
    twice(table).swizzle_dyn_within::<16>(lanes >> u8x32::splat(4))
}

// The table in both halves of a vector. A look-up reaches the sixteen entries in its own half alone, as the
// instruction of the processor does.
#[inline(always)]
fn twice(table: &[u8; 16]) -> u8x32
    ensures { HasLanes result (λ k. slice_index table.now (k % 16)) }
{
    u8x16::from_slice(table).swizzle([
        0, 1, 2, 3, 4, 5, 6, 7, 8, 9, 10, 11, 12, 13, 14, 15, 0, 1, 2, 3, 4, 5, 6, 7, 8, 9, 10, 11,
        12, 13, 14, 15,
    ])
}
