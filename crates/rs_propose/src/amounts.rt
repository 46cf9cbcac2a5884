//! The bytes to add at the zeros of 32 locators, by Forney's formula. Let p(x) be the locator, with its highest power
//! first. Let q(x) be the powers of x from 0 on of the product of p(x) with the sum of each syndrome times x^(-k-1).
//! Then the bytes are q / p' at the zeros. For fewer than five errors p and q have the same power of x as a factor,
//! which the quotient cancels.
//! No function has a clause on its results: whether the bytes are right is tested row by row, in `proposals`.
use crate::locators::{logs_of_all, sum_at};
use crate::tower::{Logs, bytes, inverse, logs, pairs, product, squares};
use std::simd::prelude::*;

/// Sets the bytes at these points. A point 0 means none: it becomes 1, the point of a row's last place, and its byte
/// becomes 0, so that adding it changes nothing. All other points stay. Syndromes and taps, the locator's coefficients
/// after its first, are pairs of nibbles as in `tower`; points and amounts are bytes as in a row. Both results are put
/// where the caller has them, since points are changed in place.
pub fn put_amounts(
    syndromes: &[u8x32; 10],
    syndrome_logs: &[Logs; 10],
    taps: &[u8x32; 5],
    points: &mut [u8x32; 5],
    amounts: &mut [u8x32; 5],
) {
    let zero = u8x32::splat(0);
    let tap_logs = logs_of_all(taps);
    let mut numerator = [zero; 5];
    for at in 0..5 {
        numerator[at] = sum_at(at, syndromes, syndrome_logs, &tap_logs);
    }
    for k in 0..5 {
        let none = points[k].simd_eq(zero);
        let amount = amount_at(pairs(points[k]), &numerator, &tap_logs[1], taps[3]);
        amounts[k] = none.select(zero, bytes(amount));
        points[k] = none.select(u8x32::splat(1), points[k]);
    }
}

// The numerator q at a point, by Horner's rule, divided by the derivative p' there, x^4 + `quadratic` x^2 + `last`.
// Even powers vanish in a derivative, since a sum of two equal terms is 0, and so the coefficients of x^3 and x are
// left, the second and the fourth of the taps. The numerator has its coefficient of x^4 first. Where the derivative is
// 0, the result has no meaning, and its row fails the test. It is inlined, so that vectors needn't pass through memory.
#[inline(always)]
fn amount_at(point: u8x32, numerator: &[u8x32; 5], quadratic: &Logs, last: u8x32) -> u8x32 {
    let point_logs = logs(point);
    let mut value = numerator[0];
    for k in 1..5 {
        value = product(&logs(value), &point_logs) ^ numerator[k];
    }
    let square = squares(point);
    let derivative = squares(square) ^ product(quadratic, &logs(square)) ^ last;
    product(&logs(value), &inverse(&logs(derivative)))
}
