//! The marks of one row, as bits: place j has bit 7 - j % 8 of byte j / 8. The functions at the end are of the 23
//! bytes, and the methods say the same of the list of 182 marks that a contract has.
ghost use Rattle.std.specs.Prelude.{◌≡◌, ◌↔◌, ℕ, ◌+◌, ◌-◌, ◌<◌, ◌≤◌, ◌≢◌, ◌==◌, false, length, map, IsTrue, replicate, slice_index, slice_index_or, slice_set};
ghost use Rattle.std.specs.Int.{bit_at};
ghost use Rattle.coding.specs.Filling.{marked};
ghost use Rattle.dvd_capture.specs.Captured.{marks_in, record_size};
ghost use Rattle.dvd_capture.specs.Inner.Listing.{IsFound};
ghost use Rattle.dvd_capture.specs.MarkBits.{is_other, is_set, mark_at, mark_bytes, marks_of, number_of_marks};

use crate::form::Form;
use std::simd::prelude::*;

/// The length of a row's marks as bytes: one for each place, and two that are spare, since 23 bytes have 184 bits.
pub const SPREAD: usize = 184;

// The bit of each of eight places in their byte of mark bits. Only `put_bits` needs all eight at once; other functions
// shift.
const BITS: [u8; 8] = [0x80, 0x40, 0x20, 0x10, 0x08, 0x04, 0x02, 0x01];

/// A mark for each of the 182 places of a row, a bit each: 23 bytes, of which the last two bits are spare. Two are
/// equal where these bits are too. The bits of a recorded row are kept as they came, and a spare one marks no place:
/// clearing it would do too, as no clause speaks of it.
#[derive(Clone, Copy, Debug, PartialEq, Eq, Drop)]
pub struct RowMarks {
    bits: [u8; 23],
}

impl RowMarks {
    ghost use Rattle.dvd_capture.specs.Parts.{bits_of_row, marks_of_row};

    /// No marks; spare bits are 0 too.
    pub fn none() -> RowMarks
        ensures { marks_of_row result ≡ replicate 182 false }
    {
        RowMarks { bits: [0; 23] }
    }

    /// Marks of the places whose byte isn't `value`, of a byte for each place; spare bits are 0. It is public for
    /// dvd_merge, which has a code for each place that says whether its byte is known.
    pub fn where_not(value: u8, bytes: &[u8; 182]) -> RowMarks
        ensures bits { bits_of_row result ≡ mark_bytes (map (is_other value) bytes.now) }
        ensures marks { marks_of_row result ≡ map (is_other value) bytes.now }
    {
        RowMarks {
            bits: pack_others(value, bytes),
        }
    }

    /// The 23 bytes of mark bits, as a recorded row has them in the marked form. Spare bits are as they came.
    pub fn bits(&self) -> &[u8; 23]
        ensures { result.now ≡ bits_of_row self.now }
    {
        &self.bits
    }

    /// Whether no place is marked.
    pub fn is_clear(&self) -> bool
        ensures { IsTrue result ↔ (marks_of_row self.now ≡ replicate 182 false) }
    {
        has_no_mark(&self.bits)
    }

    /// How many places are marked. A decoder asks it of rows that may have more than ten, which are lost.
    pub fn count(&self) -> u32
        ensures { result ≡ marked (marks_of_row self.now) }
    {
        count_marks(&self.bits)
    }

    /// The mark of place `j`. It is public for dvd_deep, which reads the marks of a column.
    pub fn get(&self, j: usize) -> bool
        requires { j < 182 }
        ensures { result ≡ slice_index_or (marks_of_row self.now) j false }
    {
        is_marked(&self.bits, j)
    }

    /// The first place from `from` on whose mark is this, or 182.
    pub(crate) fn next(&self, from: usize, mark: bool) -> usize
        requires { from ≤ 182 }
        ensures { IsFound (mark_at self.now.bits) mark from 182 result }
    {
        next_mark(&self.bits, from, mark)
    }

    /// Sets the mark of place `j`, and no other. It is public for dvd_deep, which clears the marks of answered columns.
    pub fn set(&mut self, j: usize, mark: bool)
        requires { j < 182 }
        ensures { marks_of_row self.new ≡ slice_set (marks_of_row self.old) j mark }
    {
        set_mark(&mut self.bits, j, mark);
    }

    /// Writes the mark of each place, as the list that decoders read. It goes by way of `spread`: eight bits at once,
    /// and none looked up by itself.
    pub fn unpack(&self, out: &mut [bool; 182])
        ensures { out.new ≡ marks_of_row self.now }
    {
        let spread = self.spread();
        for (j, mark) in out.iter_mut().enumerate() {
            *mark = spread[j] != 0;
        }
    }

    /// A byte for the mark of each place, 0 where it isn't marked. What the two spare bytes are isn't said. It is
    /// public for dvd_merge, which joins rows by vectors of bytes.
    pub fn spread(&self) -> [u8; SPREAD]
        ensures { (j : ℕ) → j < 182 → is_set (slice_index result j) ≡ slice_index_or (marks_of_row self.now) j false }
    {
        spread_bits(&self.bits)
    }

    /// Sets all marks to those in a recorded row by itself, which has mark bits in the marked form alone: the most
    /// significant bit of a byte is that of its first place. It is public for dvd_assemble, whose rows aren't in
    /// `Marks`.
    pub fn copy_from_record(&mut self, form: Form, bytes: &[u8])
        requires { length bytes.now ≡ record_size form }
        ensures { marks_of_row self.new ≡ marks_in form bytes.now }
    {
        match form {
            Form::Plain | Form::Listed => *self = RowMarks::none(),
            Form::Marked => self.bits.copy_from_slice(&bytes[182..]),
        }
    }
}

// Whether no place has a mark; the two spare bits don't count.
fn has_no_mark(row: &[u8; 23]) -> bool
    ensures { IsTrue result ↔ (marks_of row.now ≡ replicate 182 false) }
{
    // The last byte has six places, in its upper bits: below 4 only spare bits are set.
    are_zeros(&row[..22]) && row[22] < 4
}

// Whether 22 bytes are zeros. Each row of a block is asked for it, so all are tested at once: as the first and the last
// sixteen, ten of them twice. It is inlined, since a call would take longer.
#[inline(always)]
fn are_zeros(bytes: &[u8]) -> bool
    requires { length bytes.now ≡ 22 }
    ensures { IsTrue result ↔ (bytes.now ≡ replicate 22 0) }
{
    let first = u8x16::from_slice(bytes);
    let last = u8x16::from_slice(&bytes[6..]);
    (first | last).reduce_or() == 0
}

// How many places have a mark; the two spare bits don't count.
fn count_marks(bits: &[u8]) -> u32
    requires { length bits.now ≡ 23 }
    ensures { result ≡ marked (marks_of bits.now) }
{
    let mut count = 0;
    for k in 0..22usize {
        count += bits[k].count_ones();
    }
    // The last byte has six places, in its upper bits: a quarter of it is these alone.
    count + (bits[22] / 4).count_ones()
}

// The mark of place `j` in a row of mark bits.
fn is_marked(bits: &[u8; 23], j: usize) -> bool
    requires { j < 182 }
    ensures { result ≡ mark_at bits.now j }
{
    bits[j / 8] >> (7 - j % 8) & 1 == 1
}

// The first place from `from` on whose mark is this, or 182. Most bytes have eight marks alike, and are passed as one.
// In the last byte this may lead to 184: the loop ends all the same.
fn next_mark(bits: &[u8; 23], from: usize, mark: bool) -> usize
    requires { from ≤ 182 }
    ensures { IsFound (mark_at bits.now) mark from 182 result }
{
    // The byte in which no place has the mark: all bits are the other one.
    let passed = if mark { 0 } else { 255 };
    let mut j = from;
    while j < 182 {
        if bits[j / 8] == passed {
            j = 8 * (j / 8) + 8;
        } else if is_marked(bits, j) == mark {
            return j;
        } else {
            j += 1;
        }
    }
    182
}

// A byte for each mark bit, 0 where the place isn't marked. All 23 bytes alike: so there are 184, with two for the
// spare bits.
fn spread_bits(bits: &[u8; 23]) -> [u8; SPREAD]
    ensures { (j : ℕ) → j < 182 → is_set (slice_index result j) ≡ mark_at bits.now j }
{
    let mut marks = [0; SPREAD];
    for k in 0..23 {
        put_bits(bits[k], &mut marks, 8 * k);
    }
    marks
}

// Sets eight bytes from place `at` on: the first is 0 where the highest bit is, and so on. A byte that isn't 0 is the
// bit itself, so callers compare with 0. All eight are set at once, without a test of each bit. The contract keeps only
// what comes before, since bytes are set from the first on. It is inlined, as all with vectors is; no proof rests on
// that.
#[inline(always)]
fn put_bits(bits: u8, marks: &mut [u8], at: usize)
    requires { at + 8 ≤ length marks.old }
    ensures size { length marks.new ≡ length marks.old }
    ensures set { (k : ℕ) → k < 8 → is_set (slice_index marks.new (at + k)) ≡ (bit_at bits (7 - k) == 1) }
    ensures below { (k : ℕ) → k < at → slice_index marks.new k ≡ slice_index marks.old k }
{
    let lanes = u8x8::splat(bits) & u8x8::from_array(BITS);
    lanes.copy_to_slice(&mut marks[at..]);
}

// The mark bits of the places whose byte isn't `value`: 23 bytes, the spare bits 0.
fn pack_others(value: u8, bytes: &[u8; 182]) -> [u8; 23]
    ensures { result ≡ mark_bytes (map (is_other value) bytes.now) }
{
    let mut bits = [0; 23];
    for k in 0..22 {
        bits[k] = other_bits(value, u8x8::from_slice(&bytes[8 * k..]));
    }
    // The last byte has six places, 176 to 181. Eight are read, to fill a vector. The shift drops the two before them,
    // and leaves two bits of 0.
    bits[22] = other_bits(value, u8x8::from_slice(&bytes[174..])) << 2;
    bits
}

// A bit for each of eight bytes, set where it isn't `value`, the first the highest: eight make one byte of mark bits.
// It is inlined, so that the eight bytes needn't pass through memory.
#[inline(always)]
fn other_bits(value: u8, bytes: u8x8) -> u8
    ensures { result ≡ number_of_marks (map (is_other value) bytes) }
{
    // `to_bitmask` makes the first lane the lowest bit, so the lanes are reversed.
    bytes.reverse().simd_ne(u8x8::splat(value)).to_bitmask() as u8
}

// Sets the mark of place `j`. All other bits stay, the spare ones too. The first place of a byte has its highest bit.
fn set_mark(bits: &mut [u8; 23], j: usize, mark: bool)
    requires { j < 182 }
    ensures { marks_of bits.new ≡ slice_set (marks_of bits.old) j mark }
{
    bits[j / 8] = with_bit(bits[j / 8], 7 - j % 8, mark);
}

// A byte with this bit set, or else cleared. `place` counts from the lowest bit, which is 0.
fn with_bit(byte: u8, place: usize, set: bool) -> u8
    requires { place < 8 }
    ensures same { (bit_at result place == 1) ≡ set }
    ensures others { (k : ℕ) → k < 8 → k ≢ place → bit_at result k ≡ bit_at byte k }
{
    let bit = 1u8 << place;
    if set { byte | bit } else { byte & !bit }
}
