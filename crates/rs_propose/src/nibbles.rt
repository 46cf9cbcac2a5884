//! Look-ups in tables of sixteen bytes, in each lane. There are no clauses on what is found, since all of it goes into
//! proposals, which are tested. It is proved that each look-up asks only for what a table answers. Those of
//! rs_lanes have clauses on each lane, and are private there. All is inlined, so that vectors needn't pass through
//! memory.
use std::simd::prelude::*;

/// The table's entry at each lane, and 0 at lanes from 128 on, which serve as logarithms of 0. Lanes from 16 to 127
/// count by their low four bits; none are expected.
#[inline(always)]
pub fn look_up(table: &[u8; 16], places: u8x32) -> u8x32 {
    // A look-up asks for lanes below sixteen, or from 128 on. The mask makes sure of it without a clause.
    twice(table).swizzle_dyn_within::<16>(places & u8x32::splat(0x8F))
}

/// The table's entries at the low four bits of each lane. A look-up asks for lanes below sixteen, so the high four bits
/// are cleared.
#[inline(always)]
pub fn at_low_nibbles(table: &[u8; 16], lanes: u8x32) -> u8x32 {
    twice(table).swizzle_dyn_within::<16>(lanes & u8x32::splat(15))
}

/// The table's entries at the high four bits of each lane. A shift of a byte by four leaves lanes below sixteen.
#[inline(always)]
pub fn at_high_nibbles(table: &[u8; 16], lanes: u8x32) -> u8x32 {
    twice(table).swizzle_dyn_within::<16>(lanes >> u8x32::splat(4))
}

/// A linear map of bytes in each lane, by its values at each low nibble and at each high one: the sum of both is its
/// value at the byte.
#[inline(always)]
pub fn mapped(tables: &[[u8; 16]; 2], lanes: u8x32) -> u8x32 {
    at_low_nibbles(&tables[0], lanes) ^ at_high_nibbles(&tables[1], lanes)
}

// The table in both halves of a vector. A look-up reaches the sixteen entries in its own half alone, as the
// instruction of the processor does.
#[inline(always)]
fn twice(table: &[u8; 16]) -> u8x32 {
    u8x16::from_slice(table).swizzle([
        0, 1, 2, 3, 4, 5, 6, 7, 8, 9, 10, 11, 12, 13, 14, 15, 0, 1, 2, 3, 4, 5, 6, 7, 8, 9, 10, 11,
        12, 13, 14, 15,
    ])
}
