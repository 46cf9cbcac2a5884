//! Division for the EDC (ECMA-130, 14.3), a byte or sixteen at once. Of sixteen bytes each has a table of its own, by
//! the steps that follow it, so that no look-up waits for another. In contracts `after_steps n` is what n steps leave,
//! and `after_word n` what is left of four bytes with n steps for the last.
ghost use Rattle.std.specs.Prelude.{◌≡◌, ◌+◌, ◌*◌, ◌<◌, ◌≤◌};
ghost use Rattle.cd_sector.specs.Inner.Register.{after_steps, after_word};

use rs_code::sums;

// What steps of the division leave of each byte in a register of zeros: eight steps in the first table, and eight more
// in each one after it. The steps are linear: what they leave of a sum of bytes is the sum of what they leave of each.
static TABLES: [[u32; 256]; 16] = [
    sums!([0] 0x90910101 0x91210201 0x92410401 0x94810801 0x99011001 0x82012001 0xB4014001 0xD8018001),
    sums!([0] 0x90019000 0x90002003 0x90034005 0x90058009 0x90080011 0x90130021 0x90250041 0x90490081),
    sums!([0] 0x00900190 0x01200320 0x02400640 0x04800C80 0x09001900 0x12003200 0x24006400 0x4800C800),
    sums!([0] 0x41000001 0x82000002 0xB4030007 0xD805000D 0x00090019 0x00120032 0x00240064 0x004800C8),
    sums!([0] 0x90D00101 0x91A30201 0x93450401 0x96890801 0x9D111001 0x8A212001 0xA4414001 0xF8818001),
    sums!([0] 0x9001D100 0x9000A203 0x90024405 0x90078809 0x900C1011 0x901B2021 0x90354041 0x90698081),
    sums!([0] 0x009001D1 0x012003A2 0x02400744 0x04800E88 0x09001D10 0x12003A20 0x24007440 0x4800E880),
    sums!([0] 0x65904101 0xCB208202 0x26420407 0x4C84080E 0x9908101C 0x8213203B 0xB4254075 0xD84980E9),
    sums!([0] 0x90F49140 0x91EA2283 0x93D74505 0x97AD8A09 0x9F581411 0x8EB32821 0xAD655041 0xEAC9A081),
    sums!([0] 0xB491B490 0xD9206923 0x0243D245 0x0487A48A 0x090F4914 0x121E9228 0x243D2450 0x487A48A0),
    sums!([0] 0x41B401B4 0x83680368 0xB6D306D3 0xDDA50DA5 0x0B491B49 0x16923692 0x2D246D24 0x5A48DA48),
    sums!([0] 0x51010001 0xA2020002 0xF4070007 0x580D000D 0xB01A001A 0xD0370037 0x106D006D 0x20DA00DA),
    sums!([0] 0x90C00001 0x91830001 0x93050001 0x96090001 0x9C110001 0x88210001 0xA0410001 0xF0810001),
    sums!([0] 0x9001C101 0x90008201 0x90020401 0x90070801 0x900D1001 0x90192001 0x90314001 0x90618001),
    sums!([0] 0x900100C0 0x90010183 0x90010305 0x90010609 0x90010C11 0x90011821 0x90013041 0x90016081),
    sums!([0] 0x6C90C100 0xD9218200 0x02400403 0x04800806 0x0900100C 0x12002018 0x24004030 0x48008060),
];

/// What eight steps of the division leave of this byte.
pub(crate) fn remainder_of(byte: u8) -> u32
    ensures { result ≡ after_steps 8 byte }
{
    entry(0, byte)
}

/// What is left of four bytes of sixteen, `later` of which come after these four. The first byte has the most steps.
/// They are added up in the order of `after_word`, as the proof goes; any other gives the same.
pub(crate) fn remainder_of_word(later: usize, word: [u8; 4]) -> u32
    requires { later ≤ 12 }
    ensures { result ≡ after_word (8 + 8 * later) word }
{
    let upper = entry(later + 3, word[0]) ^ entry(later + 2, word[1]);
    let back = entry(later + 1, word[2]) ^ entry(later, word[3]);
    upper ^ back
}

// What is left of a byte of sixteen, `later` of which come after it.
fn entry(later: usize, byte: u8) -> u32
    requires { later < 16 }
    ensures { result ≡ after_steps (8 + 8 * later) byte }
{
    TABLES[later][byte as usize]
}
