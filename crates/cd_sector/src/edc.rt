//! The code of a sector that detects errors, the EDC (ECMA-130, 14.3). The register is what dividing all bytes before
//! has left. The least significant bit of a byte comes first, so the register has its highest power in its lowest bit:
//! a step shifts it down, and the byte that leaves is the lowest one. In contracts `after_steps n` is a register after
//! n steps, of a bit each, and `after_reading` one after bytes, by eight steps for each.
ghost use Rattle.std.specs.Prelude.{◌≡◌, ◌++◌, bit_xor};
ghost use Rattle.cd_sector.specs.Edc.{cd_edc_of};
ghost use Rattle.cd_sector.specs.Inner.Register.{after_reading, after_steps};

use crate::table::{remainder_of, remainder_of_word};

/// The EDC of a list of bytes of any length: the remainder of its bits, the least significant of each byte first,
/// by (x^16 + x^15 + x^2 + 1) (x^16 + x^2 + x + 1). It is public for the C library.
pub fn cd_edc(bytes: &[u8]) -> [u8; 4]
    ensures { result ≡ cd_edc_of bytes.now }
{
    edc_of_parts(&[], bytes)
}

/// The EDC of two lists of bytes, as if the second followed the first. So the sync can be put before a sector's other
/// bytes without a copy.
pub(crate) fn edc_of_parts(prefix: &[u8], back: &[u8]) -> [u8; 4]
    ensures { result ≡ cd_edc_of (prefix.now ++ back.now) }
{
    // The register has its highest power lowest, so its lowest byte comes first.
    with_bytes(with_bytes(0, prefix), back).to_le_bytes()
}

// The register after these bytes are read. Sixteen are read at once, of which only the first four wait for the
// register.
fn with_bytes(register: u32, bytes: &[u8]) -> u32
    ensures { result ≡ after_reading bytes.now register }
{
    let (chunks, others) = bytes.as_chunks::<16>();
    let mut next = register;
    for chunk in chunks {
        next = with_chunk(next, *chunk);
    }
    for byte in others {
        next = with_byte(next, *byte);
    }
    next
}

// Reads sixteen bytes at once: the whole register is added to the first four, and nothing of it is left for the others.
// Its lowest byte leaves first, so it is added to the first byte. Halves are added up apart; any order would do.
fn with_chunk(register: u32, chunk: [u8; 16]) -> u32
    ensures { result ≡ after_reading chunk register }
{
    let [first, second, third, fourth] = register.to_le_bytes();
    let prefix = remainder_of_word(
        12,
        [
            chunk[0] ^ first,
            chunk[1] ^ second,
            chunk[2] ^ third,
            chunk[3] ^ fourth,
        ],
    ) ^ remainder_of_word(8, [chunk[4], chunk[5], chunk[6], chunk[7]]);
    let back = remainder_of_word(4, [chunk[8], chunk[9], chunk[10], chunk[11]])
        ^ remainder_of_word(0, [chunk[12], chunk[13], chunk[14], chunk[15]]);
    prefix ^ back
}

// Reads one byte: its sum with the lowest eight bits of the register is divided, and what the division leaves is added
// to the other bits.
fn with_byte(register: u32, byte: u8) -> u32
    ensures { result ≡ after_steps 8 (bit_xor register byte) }
{
    // The remainder is a byte, so that the cast drops nothing.
    let leaving = (register % 256) as u8 ^ byte;
    register >> 8 ^ remainder_of(leaving)
}
