//! A whole sector (ECMA-130, 14). Clauses `size` repeat the length that a type has, for the proofs of callers.
ghost use Rattle.std.specs.Prelude.{◌≡◌, ℕ, ◌+◌, ◌<◌, ◌≤◌, ◌++◌, length, take, slice_index};
ghost use Rattle.cd_sector.specs.Sector.{digits as digits_of, header as header_of, data_part, IsSector};
ghost use Rattle.cd_sector.specs.Words.{IsRight};

use crate::columns::parity;
use crate::edc::cd_edc;
use crate::rows::{p_rows, q_rows};

/// The first twelve bytes of every sector.
pub(crate) const SYNC: [u8; 12] = [
    0x00, 0xFF, 0xFF, 0xFF, 0xFF, 0xFF, 0xFF, 0xFF, 0xFF, 0xFF, 0xFF, 0x00,
];

/// Writes the sector of an address: sync, header, mode, user data, EDC and eight zeros, then the P and Q parity of all
/// but the sync. An address counts frames: its minute, second and frame are `address / 4500`, `address / 75 % 60` and
/// `address % 75`. The minute has two decimal digits, and 450,000 frames are a hundred minutes. All of `out` is
/// written.
pub fn make(address: u32, user: &[u8; 2048], out: &mut [u8; 2352])
    requires { address < 450000 }
    ensures { IsSector address user.now out.new }
{
    set_data(address, user, out);
    set_p_words(out);
    // The Q words cover the P parity.
    set_q_words(out);
}

/// Minute, second and frame of an address, as a sector has them.
pub(crate) fn header(address: u32) -> [u8; 3]
    requires { address < 450000 }
    ensures { result ≡ header_of address }
{
    [
        digits(address / 4500),
        digits(address / 75 % 60),
        digits(address % 75),
    ]
}

// Two decimal digits, of four bits each, as the standard has them: the tens are the high four.
fn digits(number: u32) -> u8
    requires { number < 100 }
    ensures { result ≡ digits_of number }
{
    (16 * (number / 10) + number % 10) as u8
}

// Writes all that comes before the parity, bytes 0 to 2075. The parts are put from the first on, since `put` keeps only
// what comes before a part.
fn set_data(address: u32, user: &[u8; 2048], out: &mut [u8; 2352])
    requires { address < 450000 }
    ensures prefix { take 2076 out.new ≡ data_part address user.now }
    ensures size { length out.new ≡ 2352 }
{
    put(out, 0, &SYNC);
    put(out, 12, &header(address));
    put(out, 15, &[1]);
    put(out, 16, user);
    // The EDC covers all that comes before it, the sync too.
    let check = cd_edc(&out[..2064]);
    put(out, 2064, &check);
    put(out, 2068, &[0; 8]);
}

/// Writes a part after the first `at` bytes, which stay. The contract says nothing of what comes after it. It is a
/// function, so that this is said once for all parts.
pub(crate) fn put(out: &mut [u8], at: usize, part: &[u8])
    requires { at + length part.now ≤ length out.old }
    ensures { take (at + length part.now) out.new ≡ take at out.old ++ part.now }
{
    out[at..at + part.len()].copy_from_slice(part);
}

// Sets the parity of each P word. All that comes before stays; the Q parity is set later.
fn set_p_words(sector: &mut [u8; 2352])
    ensures right { (word : ℕ) → word < 86 → IsRight sector.new word }
    ensures kept { (at : ℕ) → at < 2076 → slice_index sector.new at ≡ slice_index sector.old at }
    ensures size { length sector.new ≡ 2352 }
{
    // Of the 26 rows the last two are the parity that is to be set: what they have isn't read.
    let [first, second] = parity(&p_rows(sector)[..24]);
    // After 24 rows of 86 bytes from place 12 on come the two rows of P parity.
    put(sector, 2076, &first);
    put(sector, 2162, &second);
}

// Sets the parity of each Q word. All else stays, so that the P words do.
fn set_q_words(sector: &mut [u8; 2352])
    ensures right { (word : ℕ) → 86 ≤ word → word < 138 → IsRight sector.new word }
    ensures kept { (at : ℕ) → at < 2248 → slice_index sector.new at ≡ slice_index sector.old at }
    ensures size { length sector.new ≡ 2352 }
{
    // The last two of 45 rows are the parity that is to be set. They are gathered too, and not read.
    let [first, second] = parity(&q_rows(sector)[..43]);
    // After all 26 rows come the two of Q parity, 52 bytes each.
    put(sector, 2248, &first);
    put(sector, 2300, &second);
}
