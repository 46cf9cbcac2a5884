//! 32 places of a row at once, a lane for each: its value is in one vector, and the code of what is known of it in
//! another. Lanes have no branches: both cases are computed for all, and `pick` chooses. All is inlined, so that
//! vectors needn't pass through memory. In clauses `at_place` is what the value and the code in a lane say of its
//! place, and `joined_at` that with a byte, unless it is marked.
ghost use Rattle.std.specs.Prelude.{◌==◌, if◌then◌else◌, slice_index};
ghost use Rattle.dvd_merge.specs.Inner.Rows.{HasLanes, HasPlaces, at_place, joined_at};
ghost use Rattle.dvd_merge.specs.Join.{byte_of, join};
ghost use Rattle.dvd_merge.specs.declared.place.Place.TheVariants.{Value};

use crate::place::{CONFLICT, SEEN, UNSEEN};
use std::simd::prelude::*;

/// Each place joined with its byte, or with nothing where its mark isn't 0: the new values, and then the new codes of
/// the places. They are results and nothing is written here: `row` has the slices. A marked place keeps its old lanes,
/// by the last two choices.
#[inline(always)]
pub(crate) fn joined(values: u8x32, codes: u8x32, bytes: u8x32, marks: u8x32) -> (u8x32, u8x32)
    ensures { HasPlaces result.0 result.1 (λ k. joined_at values codes bytes marks k) }
{
    let unmarked = u8x32::splat(0);
    let (new_values, new_codes) = joined_bytes(values, codes, bytes);
    (
        pick(marks, unmarked, new_values, values),
        pick(marks, unmarked, new_codes, codes),
    )
}

// Each place joined with its byte, as `Place::join` does for one.
#[inline(always)]
fn joined_bytes(values: u8x32, codes: u8x32, bytes: u8x32) -> (u8x32, u8x32)
    ensures { HasPlaces result.0 result.1 (λ k. join (at_place values codes k) (Value (slice_index bytes k))) }
{
    // The order counts: an unseen place first gets the byte and the code of a seen one. The last line then has one
    // question for all: where value and byte are equal the code stays, and else it becomes a conflict. So a conflict
    // stays one in both cases, whatever its old value is.
    let unseen = u8x32::splat(UNSEEN);
    let new_values = pick(codes, unseen, bytes, values);
    let seen_codes = pick(codes, unseen, u8x32::splat(SEEN), codes);
    let new_codes = pick(new_values, bytes, seen_codes, u8x32::splat(CONFLICT));
    (new_values, new_codes)
}

/// The byte of each place, 0 where none is known, as the marked form has it: the value of an unseen place or of a
/// conflict may be any, and isn't given.
#[inline(always)]
pub(crate) fn known_bytes(values: u8x32, codes: u8x32) -> u8x32
    ensures { HasLanes result (λ k. byte_of (at_place values codes k)) }
{
    pick(codes, u8x32::splat(SEEN), values, u8x32::splat(0))
}

// The lanes of `same` where `a` and `b` are equal, and of `other` elsewhere.
#[inline(always)]
fn pick(a: u8x32, b: u8x32, same: u8x32, other: u8x32) -> u8x32
    ensures { HasLanes result (λ k. if slice_index a k == slice_index b k then slice_index same k else slice_index other k) }
{
    a.simd_eq(b).select(same, other)
}
