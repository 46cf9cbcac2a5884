//! Parts of lists of bytes: written one after the other, and read as vectors.
ghost use Rattle.std.specs.Prelude.{◌≡◌, ◌+◌, ◌≤◌, ◌++◌, length, drop, take};
ghost use Rattle.std.specs.Simd.Lanes.{put_chunk};

use std::simd::prelude::*;

// Writes a part after what comes before it. The contract says nothing of what comes after, since a list is written from
// its first part on. It is a function, so that this is said once for all parts.
pub(crate) fn put(out: &mut [u8], at: usize, part: &[u8])
    requires { at + length part.now ≤ length out.old }
    ensures { take (at + length part.now) out.new ≡ take at out.old ++ part.now }
{
    out[at..at + part.len()].copy_from_slice(part);
}

// The W bytes from a place on, of which more may follow: W is 32, 16, 8 or 4, the sizes of chunks. It is inlined, so
// that the vector needn't pass through memory.
#[inline(always)]
pub(crate) fn load<const W: usize>(bytes: &[u8], at: usize) -> Simd<u8, W>
    requires { at + W ≤ length bytes.now }
    ensures { result ≡ take W (drop at bytes.now) }
{
    Simd::from_slice(&bytes[at..])
}

// Sets the W bytes from a place on. All others stay.
#[inline(always)]
pub(crate) fn store<const W: usize>(lanes: Simd<u8, W>, bytes: &mut [u8], at: usize)
    requires { at + W ≤ length bytes.old }
    ensures size { length bytes.new ≡ length bytes.old }
    ensures set { bytes.new ≡ put_chunk at bytes.old lanes.entry }
{
    lanes.copy_to_slice(&mut bytes[at..]);
}
