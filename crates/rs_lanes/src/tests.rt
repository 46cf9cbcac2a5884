//! The parity of drawn words, as the encoder of one word computes it. Also values, products and powers as they are
//! without vectors.
ghost use Rattle.std.specs.Prelude.{◌≡◌, ◌<◌, ◌≤◌, length, vec_len, IfOk};

use crate::{any_of, column_values, inner_parity, mul_scalar, outer_parity, powers, row_values};
use rand_xoshiro::SplitMix64;
use rand_xoshiro::rand_core::{Rng, SeedableRng};
use rs_code::{Pi, Po};
use std::alloc::{AllocError, Global};
use std::simd::prelude::*;
use std::test::Fail;

// Rows of zeros.
fn empty_rows(alloc: Global, count: usize) -> Result<Vec<[u8; 182]>, AllocError>
    ensures { IfOk result (λ rows. vec_len rows ≡ count) }
{
    vec![in alloc; [0; 182]; count]
}

// Rows of drawn bytes.
fn drawn_rows(alloc: Global, count: usize, seed: u64) -> Result<Vec<[u8; 182]>, AllocError>
    ensures { IfOk result (λ rows. vec_len rows ≡ count) }
{
    let mut rows = empty_rows(alloc, count)?;
    let mut drawn = SplitMix64::seed_from_u64(seed);
    for row in rows.iter_mut() {
        drawn.fill_bytes(&mut row[..]);
    }
    Ok(rows)
}

// Sets one byte. A clause says that the number of rows stays, which a loop has to know.
fn put_byte(rows: &mut [[u8; 182]], i: usize, j: usize, byte: u8)
    requires row { i < length rows.old }
    requires place { j < 182 }
    ensures { length rows.new ≡ length rows.old }
{
    rows[i][j] = byte;
}

// Column `j`, as far as there are rows, and zeros for the others.
fn column(rows: &[[u8; 182]], j: usize) -> [u8; 208]
    requires { j < 182 }
{
    let mut word = [0; 208];
    for (byte, row) in word.iter_mut().zip(rows) {
        *byte = row[j];
    }
    word
}

// Whether lane `n` of the vectors has these bytes.
fn lane_has(vectors: &[u8x32], n: usize, bytes: &[u8]) -> bool
    requires { n < 32 }
{
    let mut same = vectors.len() == bytes.len();
    for (lanes, byte) in vectors.iter().zip(bytes) {
        same = same && lanes.to_array()[n] == *byte;
    }
    same
}

// Whether lane `n` is the only one that isn't zero.
fn is_alone(lanes: u8x32, n: usize) -> bool {
    let mut alone = true;
    for k in 0..32 {
        alone = alone && (lanes[k] != 0) == (k == n);
    }
    alone
}

#[test]
fn rows_get_the_parity_of_drawn_words(rt: HostRuntime) -> Result<(), Fail> {
    let mut rows = drawn_rows(rt.alloc(), 100, 2)?;
    let mut encoded = rows.clone()?;
    for row in encoded.iter_mut() {
        Pi::new().encode(row);
    }
    // One room serves all groups, whatever is in it.
    let mut transposed = [u8x32::splat(1); 182];
    let mut thirds = [[u8x32::splat(2); 3]; 85];
    for group in 0..3usize {
        inner_parity(&mut transposed, &mut thirds, &mut rows, 32 * group);
    }
    // Row 99 is in none of these groups. The last 32 rows share some with the group before.
    assert!(rt; rows[99] != encoded[99]);
    inner_parity(&mut transposed, &mut thirds, &mut rows, 68);
    assert!(rt; rows == encoded);
    assert!(rt; any_of(&row_values(&rows, 7)) == u8x32::splat(0));
    Ok(())
}

#[test]
fn columns_get_the_parity_of_drawn_words(rt: HostRuntime) -> Result<(), Fail> {
    let mut rows = drawn_rows(rt.alloc(), 208, 3)?;
    let drawn = rows.clone()?;
    let (upper, lower) = rows.split_at_mut(192);
    outer_parity(upper, lower);
    for j in 0..182 {
        let mut encoded = column(&drawn, j);
        Po::new().encode(&mut encoded);
        assert!(rt; column(&rows, j) == encoded, "at {j}");
    }
    assert!(rt; any_of(&column_values(&rows, 150)) == u8x32::splat(0));
    Ok(())
}

#[test]
fn vectors_have_the_values_of_drawn_words(rt: HostRuntime) -> Result<(), Fail> {
    let rows = drawn_rows(rt.alloc(), 208, 5)?;
    // A group may begin at any row, and at any column.
    let of_rows = row_values(&rows, 7);
    let of_columns = column_values(&rows, 150);
    for n in 0..32 {
        let row = Pi::new().syndromes(&rows[7 + n]);
        let column = Po::new().syndromes(&column(&rows, 150 + n));
        assert!(rt; lane_has(&of_rows, n, &row), "row {n}");
        assert!(rt; lane_has(&of_columns, n, &column), "column {n}");
    }
    Ok(())
}

#[test]
fn lanes_are_multiplied(rt: HostRuntime) -> Result<(), Fail> {
    let lanes = u8x16::from_array([
        0x00, 0x01, 0x02, 0x03, 0x0F, 0x10, 0x1D, 0x53, 0x7F, 0x80, 0x8E, 0xA5, 0xCA, 0xF0, 0xF4,
        0xFF,
    ]);
    assert!(rt; mul_scalar(lanes, 0x00) == u8x16::splat(0));
    assert!(rt; mul_scalar(lanes, 0x01) == lanes);
    // 0x80 times 0x02 is 0x1D, and 0x8E times 0x02 is 0x01.
    let doubled = mul_scalar(lanes, 0x02);
    assert_eq!(rt;
        (doubled[1], doubled[8], doubled[9], doubled[10]),
        (0x02, 0xFE, 0x1D, 0x01)
    );
    // 0x03 times 0xF4 is 0x01.
    let thrice = mul_scalar(lanes, 0x03);
    assert_eq!(rt; (thrice[1], thrice[3], thrice[14]), (0x03, 0x05, 0x01));
    Ok(())
}

#[test]
fn lanes_are_powers(rt: HostRuntime) -> Result<(), Fail> {
    assert!(rt; powers(0) == u8x16::splat(1));
    let first = powers(1);
    assert_eq!(rt;
        (first[0], first[1], first[7], first[8], first[15]),
        (0x01, 0x02, 0x80, 0x1D, 0x26)
    );
    // Alpha^254 is the inverse of alpha.
    let last = powers(254);
    assert_eq!(rt;
        (last[0], last[1], mul_scalar(last, 0x02)[1]),
        (0x01, 0x8E, 0x01)
    );
    Ok(())
}

/// A byte that isn't 0 shows in the lane of its own row, and of its own column, and in no other: at each row, and at
/// each place of a row.
#[test]
fn a_wrong_byte_at_any_place_is_reported(rt: HostRuntime) -> Result<(), Fail> {
    let mut rows = empty_rows(rt.alloc(), 208)?;
    for place in 0..208 {
        let j = place % 182;
        put_byte(&mut rows, place, j, 0x80);
        let top = place.min(176);
        let at = j.min(150);
        assert!(rt; is_alone(any_of(&row_values(&rows, top)), place - top));
        assert!(rt; is_alone(any_of(&column_values(&rows, at)), j - at));
        put_byte(&mut rows, place, j, 0);
    }
    Ok(())
}
