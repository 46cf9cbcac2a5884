//! The division for the EDC (ECMA-267, 16.4) of whole chunks of bytes.
//!
//! The square of a sum of polynomials over the two bits is the sum of their squares. So with x^32 + x^31 + x^4 + 1,
//! x^(32 n) + x^(31 n) + x^(4 n) + 1 is a multiple of the divisor for each power of two n. Chunks of n bits are divided
//! by this multiple first, which needs no table and no shift: what it leaves are the last 32 chunks, and these leave
//! the same remainder as all. In contracts `divided_from 0` is what division by the divisor leaves. A byte that a list
//! lacks is read as 0. `.entry` is what a vector that is handed over had at the start of the call.
ghost use Rattle.std.specs.Prelude.{◌≡◌, ℕ, ◌+◌, ◌*◌, ◌^◌, ◌<◌, ◌++◌, length};
ghost use Rattle.dvd_frame.specs.Inner.Folding.{AreQuotients, AreRests};
ghost use Rattle.dvd_frame.specs.Inner.Registers.{divided_from};

use crate::parts::{load, store};
use std::simd::prelude::*;

/// Divides 65 chunks of W bytes, the first of which is apart from the others, and writes the 32 chunks that are left:
/// these leave the same remainder as all. W is a power of two, without which the multiple above is none, and 32 at
/// most, a vector of the machine. Callers lend room for the quotient, which they don't need: its length can't be
/// computed from W here. What was in both lists isn't read. This and its parts are inlined, so that vectors needn't
/// pass through memory.
#[inline(always)]
pub(crate) fn fold<const W: usize>(
    first: Simd<u8, W>,
    others: &[u8],
    quotient: &mut [u8],
    rest: &mut [u8],
)
    requires others { length others.now ≡ 64 * W }
    requires quotient { length quotient.old ≡ 33 * W }
    requires rest { length rest.old ≡ 32 * W }
    ensures quotient_size { length quotient.new ≡ 33 * W }
    ensures size { length rest.new ≡ 32 * W }
    ensures same { (k : ℕ) → W ≡ 2 ^ k → divided_from 0 rest.new ≡ divided_from 0 (first.entry ++ others.now) }
{
    set_quotient(first, others, quotient);
    set_rest::<W>(others, quotient, rest);
}

// Writes the quotient of 65 chunks: each of its 33 chunks is the chunk that is divided, plus those of the quotient 1,
// 28 and 32 chunks before it. The one before is carried in a register, as each waits for it.
#[inline(always)]
fn set_quotient<const W: usize>(first: Simd<u8, W>, others: &[u8], quotient: &mut [u8])
    requires others { length others.now ≡ 64 * W }
    requires quotient { length quotient.old ≡ 33 * W }
    ensures size { length quotient.new ≡ 33 * W }
    ensures each { AreQuotients W (first.entry ++ others.now) quotient.new (33 * W) }
{
    let mut carried = first;
    store(carried, quotient, 0);
    let mut at = 0;
    // The first 28 chunks have none so far before them, the next four none 32 chunks before. Loops with fixed numbers
    // of steps are written out by the compiler, which a test in one loop would prevent.
    for _ in 0..27usize {
        carried = load(others, at) ^ carried;
        at += W;
        store(carried, quotient, at);
    }
    for _ in 27..31usize {
        carried = load(others, at) ^ carried ^ load(quotient, at - 27 * W);
        at += W;
        store(carried, quotient, at);
    }
    carried = load(others, 31 * W) ^ carried ^ load(quotient, 4 * W) ^ load(quotient, 0);
    store(carried, quotient, 32 * W);
}

// Writes the 32 chunks that the quotient leaves of the last 32: to each are added the chunks of the quotient 1, 28 and
// 32 chunks before it, as far as the quotient goes. None waits for another, so all are done byte by byte, of which the
// compiler takes as many at once as a vector has.
#[inline(always)]
fn set_rest<const W: usize>(others: &[u8], quotient: &[u8], rest: &mut [u8])
    requires others { length others.now ≡ 64 * W }
    requires quotient { length quotient.now ≡ 33 * W }
    requires rest { length rest.old ≡ 32 * W }
    ensures size { length rest.new ≡ 32 * W }
    ensures each { AreRests W others.now quotient.now rest.new (32 * W) }
{
    for k in 0..W {
        rest[k] = others[32 * W + k] ^ quotient[32 * W + k] ^ quotient[5 * W + k] ^ quotient[W + k];
    }
    for k in W..28 * W {
        rest[k] = others[32 * W + k] ^ quotient[5 * W + k] ^ quotient[W + k];
    }
    for k in 28 * W..32 * W {
        rest[k] = others[32 * W + k] ^ quotient[W + k];
    }
}
