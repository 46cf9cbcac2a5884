//! Division for the EDC (ECMA-267, 16.4), a byte or eight at once. The remainder of a sum is the sum of the remainders,
//! so that eight bytes are looked up apart from each other. In contracts `byte_remainder k` is what it leaves of a byte
//! followed by k bytes of zeros and by 32 zeros.
ghost use Rattle.std.specs.Prelude.{◌≡◌, ℕ, ◌++◌, map, replicate};
ghost use Rattle.std.specs.List.{range_with_len};
ghost use Rattle.coding.specs.Bits.{bits, bits_of};
ghost use Rattle.dvd_frame.specs.Edc.{remainder};
ghost use Rattle.dvd_frame.specs.Inner.Registers.{byte_remainder};

use rs_code::sums;

/// What division by x^32 + x^31 + x^4 + 1 leaves of each byte: table k for the byte followed by k bytes of zeros and
/// then 32 zeros. Division is linear: what it leaves of a sum of bytes is the sum of what it leaves of each.
static REMAINDERS: [[u32; 256]; 8] = [
    sums!([0] 0x80000011 0x80000033 0x80000077 0x800000FF 0x800001EF 0x800003CF 0x8000078F 0x80000F0F),
    sums!([0] 0x80001E0F 0x80003C0F 0x8000780F 0x8000F00F 0x8001E00F 0x8003C00F 0x8007800F 0x800F000F),
    sums!([0] 0x801E000F 0x803C000F 0x8078000F 0x80F0000F 0x81E0000F 0x83C0000F 0x8780000F 0x8F00000F),
    sums!([0] 0x9E00000F 0xBC00000F 0xF800000F 0x7000000F 0xE000001E 0x4000002D 0x8000005A 0x800000A5),
    sums!([0] 0x8000015B 0x800002A7 0x8000055F 0x80000AAF 0x8000154F 0x80002A8F 0x8000550F 0x8000AA0F),
    sums!([0] 0x8001540F 0x8002A80F 0x8005500F 0x800AA00F 0x8015400F 0x802A800F 0x8055000F 0x80AA000F),
    sums!([0] 0x8154000F 0x82A8000F 0x8550000F 0x8AA0000F 0x9540000F 0xAA80000F 0xD500000F 0x2A00000F),
    sums!([0] 0x5400001E 0xA800003C 0xD0000069 0x200000C3 0x40000186 0x8000030C 0x80000609 0x80000C03),
];

/// What division leaves of a byte followed by 32 zeros.
pub(crate) fn remainder_of(byte: u8) -> u32
    ensures { result ≡ byte_remainder 0 byte }
{
    entry(&REMAINDERS[0], byte)
}

/// What division leaves of eight bytes followed by 32 zeros: the sum of what it leaves of each, with zeros for the
/// others. The first byte has seven after it, so it has the last table. Halves are added up apart, as the proof goes;
/// any order gives the same.
pub(crate) fn remainder_of_word(word: [u8; 8]) -> u32
    ensures { bits 32 result ≡ remainder 64 (bits_of word ++ replicate 32 0) }
{
    let [first, second, third, fourth, fifth, sixth, seventh, eighth] = word;
    let upper = entry(&REMAINDERS[7], first)
        ^ entry(&REMAINDERS[6], second)
        ^ entry(&REMAINDERS[5], third)
        ^ entry(&REMAINDERS[4], fourth);
    let lower = entry(&REMAINDERS[3], fifth)
        ^ entry(&REMAINDERS[2], sixth)
        ^ entry(&REMAINDERS[1], seventh)
        ^ entry(&REMAINDERS[0], eighth);
    upper ^ lower
}

// An entry of a table of what each byte with k bytes of zeros after it leaves. Its contract is of any such table, and
// each caller proves that its own is one.
fn entry(table: &[u32; 256], byte: u8) -> u32
    ensures { (k : ℕ) → table.now ≡ map (byte_remainder k) (range_with_len 0 256) → result ≡ byte_remainder k byte }
{
    table[byte as usize]
}
