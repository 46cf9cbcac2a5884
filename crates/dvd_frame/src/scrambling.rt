//! Scrambling of Main Data (ECMA-267, 17): to each byte one of a sequence is added, which the ID selects.
//!
//! The standard has a register of 15 bits, r14 to r0, that is shifted by one bit: r14 + r10 comes in at r0. Its lowest
//! eight bits are a scrambling byte, and eight shifts later the next. So all bits are one sequence u, which begins with
//! the 15 bits of the preset: u(n+15) = u(n) + u(n+4). Bits 0 to 14 of it are r14 to r0, and a window is the 15 bits at
//! a byte. The square of a sum is the sum of the squares here, so that u(n+15m) = u(n) + u(n+4m) for each power of two
//! m. In contracts `keys_from preset k n` is n scrambling bytes from byte k on; keys are scrambling bytes.
ghost use Rattle.std.specs.Prelude.{◌≡◌, ℕ, ◌+◌, ◌^◌, ◌<◌, ◌≤◌, List, bit_xor, slice_index, length, take};
ghost use Rattle.std.specs.Int.{to_be_bytes, w64};
ghost use Rattle.coding.specs.Bits.{bits};
ghost use Rattle.dvd_frame.specs.Inner.Registers.{keys_from};
ghost use Rattle.dvd_frame.specs.Scrambling.{presets, preset_of, scrambled_count, scrambling_byte, masked, window};

use crate::id::Id;
use crate::parts::{load, put};
use std::marker::Model;
use std::simd::prelude::*;

/// The initial values of the register by bits b7 to b4 of the ID: the table of the standard.
static PRESETS: [u16; 16] = [
    0x0001, 0x5500, 0x0002, 0x2A00, 0x0004, 0x5400, 0x0008, 0x2800, 0x0010, 0x5000, 0x0020, 0x2001,
    0x0040, 0x4002, 0x0080, 0x0005,
];

/// Which of the Main Data bytes of a frame are scrambled.
#[derive(Clone, Copy, Debug, PartialEq, Eq)]
pub enum Rule {
    /// All 2,048.
    Whole,
    /// None.
    Off,
    /// The first 160, as in the first frame of each block of the Reference Code Zone.
    First160,
}

impl Rule {
    /// How many Main Data bytes are scrambled, from the first on.
    fn count(self) -> usize
        ensures value { result ≡ scrambled_count self }
        ensures within { result ≤ 2048 }
    {
        match self {
            Rule::Whole => 2048,
            Rule::Off => 0,
            Rule::First160 => 160,
        }
    }
}

/// The initial value of the register at one of the 16 places of the standard's table. It and `Keystream` are public
/// for programs that scramble bytes of their own, and because worked values from outside are stated of them: the crates
/// here scramble whole frames.
pub fn preset(index: u8) -> u16
    requires { index < 16 }
    ensures value { result ≡ slice_index presets index }
    ensures within { result < 2 ^ 15 }
{
    PRESETS[index as usize]
}

/// The scrambling bytes of a preset, one after the other. Contracts see the 15 bits that its register shows;
/// at byte k of a preset they are the window of the preset's sequence there.
#[derive(Drop)]
pub struct Keystream {
    register: u16,
}

impl Model for Keystream {
    ghost Value = { List ℕ };

    ghost view = { λ stream. bits 15 stream.register };

    ghost invariant = { λ stream. stream.register < 2 ^ 15 };
}

impl Keystream {
    /// A stream that is at byte 0 of the preset.
    pub fn new(preset: u16) -> Keystream
        requires { preset < 2 ^ 15 }
        ensures { result ≡ window preset 0 }
    {
        Keystream { register: preset }
    }

    /// The next scrambling byte. The contract is of any preset and any byte k of it at which the stream may be: the
    /// stream itself knows neither. A stream has no end, so it is no iterator, which would answer an option.
    pub fn next(&mut self) -> u8
        ensures byte { (preset k : ℕ) → self.old ≡ window preset k → result ≡ scrambling_byte preset k }
        ensures after { (preset k : ℕ) → self.old ≡ window preset k → self.new ≡ window preset (k + 1) }
    {
        let byte = (self.register & 0xFF) as u8;
        self.register = shifted_by_byte(self.register);
        byte
    }
}

// Eight shifts at once: r6 to r0 move up by eight places, and the eight sums from r14 + r10 to r7 + r3 come in at the
// end. None of the sums waits for another: the lowest bit in one is r3. Times 256 is a shift by eight.
fn shifted_by_byte(register: u16) -> u16
    requires { register < 2 ^ 15 }
    ensures within { result < 2 ^ 15 }
    ensures step { (preset k : ℕ) → bits 15 register ≡ window preset k → bits 15 result ≡ window preset (k + 1) }
{
    let sums = (register >> 7 ^ register >> 3) & 0xFF;
    (register & 0x7F) * 256 + sums
}

/// The scrambling bytes of one preset, as many as a frame has Main Data bytes. They are made when an ID first asks for
/// them, and kept until an ID of another preset does: the frames of a block have one preset.
#[derive(Drop)]
pub struct Scrambler {
    preset: u16,
    bytes: [u8; 2048],
    ghost made: { bytes ≡ keys_from preset 0 2048 },
}

impl Scrambler {
    /// None are made yet. It has no `ensures`: the ghost field `made` says what the bytes are, whatever the preset is.
    pub fn new() -> Scrambler {
        // A register of zeros shows zeros at each byte. No ID selects it, so that the first one has its bytes made.
        Scrambler {
            preset: 0,
            bytes: [0; 2048],
        }
    }

    // Makes the scrambling bytes of an ID, where they aren't those that are kept. That the bytes are those of the new
    // preset is the ghost field `made`.
    fn select(&mut self, id: Id)
        ensures { self.new.preset ≡ preset_of id }
    {
        let preset = preset_for(id);
        if preset != self.preset {
            set_keys(preset, &mut self.bytes);
            self.preset = preset;
        }
    }
}

// The initial value of the register that an ID selects. Bits b7 to b4 are the same for the sixteen sectors of a block.
fn preset_for(id: Id) -> u16
    ensures value { result ≡ preset_of id }
    ensures within { result < 2 ^ 15 }
{
    preset((id.word() >> 4 & 15) as u8)
}

/// Adds to Main Data the scrambling bytes of the ID, as far as the rule says; the others stay. Twice is once undone. It
/// is for the C library, where Main Data come without their frame.
pub fn scramble(rule: Rule, id: Id, main: &mut [u8; 2048])
    ensures masked { main.new ≡ masked id rule main.old }
    ensures undone { masked id rule main.new ≡ main.old }
{
    scramble_slice(&mut Scrambler::new(), rule, id, main);
}

// The same where Main Data are within a frame, and with a scrambler that a caller keeps.
pub(crate) fn scramble_slice(scrambler: &mut Scrambler, rule: Rule, id: Id, main: &mut [u8])
    requires { length main.old ≡ 2048 }
    ensures { main.new ≡ masked id rule main.old }
{
    scrambler.select(id);
    combine(&mut main[..rule.count()], &scrambler.bytes);
}

// The same where Main Data are written to another place than they are read from: each byte is written once.
pub(crate) fn scramble_into(
    scrambler: &mut Scrambler,
    rule: Rule,
    id: Id,
    bytes: &[u8],
    main: &mut [u8; 2048],
)
    requires { length bytes.now ≡ 2048 }
    ensures { main.new ≡ masked id rule bytes.now }
{
    scrambler.select(id);
    let count = rule.count();
    // The bytes that aren't scrambled are copied.
    combine_into(&bytes[..count], &scrambler.bytes, &mut main[..count]);
    put(main, count, &bytes[count..]);
}

// Sets each byte to the sum of another and the key at its place. There may be more keys than bytes: all 2,048 are made
// whatever the rule is, so that no list of keys has a length that varies. No byte depends on another that is set here,
// so that the compiler may do many at once, here and in `combine`.
fn combine_into(bytes: &[u8], keys: &[u8], out: &mut [u8])
    requires bytes { length bytes.now ≡ length out.old }
    requires keys { length out.old ≤ length keys.now }
    ensures size { length out.new ≡ length out.old }
    ensures each { (k : ℕ) → k < length out.old → slice_index out.new k ≡ bit_xor (slice_index bytes.now k) (slice_index keys.now k) }
{
    for (k, byte) in out.iter_mut().enumerate() {
        *byte = bytes[k] ^ keys[k];
    }
}

// Adds to each byte the key at its place. It is an exclusive or, so that a second time undoes it. There may be more
// keys than bytes.
fn combine(bytes: &mut [u8], keys: &[u8])
    requires { length bytes.old ≤ length keys.now }
    ensures { (k : ℕ) → k < length bytes.old → slice_index bytes.new k ≡ bit_xor (slice_index bytes.old k) (slice_index keys.now k) }
{
    for (k, byte) in bytes.iter_mut().enumerate() {
        *byte ^= keys[k];
    }
}

// Sets the scrambling bytes of a preset, as many as a frame has Main Data bytes: eight at a time, and after the first
// 256 by vectors. A vector needs keys from 240 places before it, and 256 is the first place after that where one
// begins.
fn set_keys(preset: u16, keys: &mut [u8; 2048])
    requires { preset < 2 ^ 15 }
    ensures { keys.new ≡ keys_from preset 0 2048 }
{
    set_first_keys(preset, keys);
    for step in 8..64 {
        set_vector(keys, 32 * step);
    }
}

// Sets the first 256 scrambling bytes of a preset, eight at a time: the first sixteen by the register, and each other
// word by the two before it. The last two words that are made aren't put. The other bytes stay, for `set_keys` to set.
fn set_first_keys(preset: u16, keys: &mut [u8; 2048])
    requires { preset < 2 ^ 15 }
    ensures { take 256 keys.new ≡ keys_from preset 0 256 }
{
    let mut stream = Keystream::new(preset);
    let mut word = next_word(&mut stream);
    let mut next = next_word(&mut stream);
    for place in 0..32 {
        put(keys, 8 * place, &word.to_be_bytes());
        (word, next) = (next, word_after(word, next));
    }
}

// The next eight bytes of the stream.
fn next_word(stream: &mut Keystream) -> u64
    ensures word { (preset k : ℕ) → stream.old ≡ window preset k → to_be_bytes w64 result ≡ keys_from preset k 8 }
    ensures after { (preset k : ℕ) → stream.old ≡ window preset k → stream.new ≡ window preset (k + 8) }
{
    let mut bytes = [0; 8];
    for byte in &mut bytes {
        *byte = stream.next();
    }
    u64::from_be_bytes(bytes)
}

// The eight bytes after these two words, `word` and the `next` one: each is the sum of those fifteen and eleven places
// before it, by the sequence at m = 8. In the sixteen bytes of both words these begin at byte 1 and at byte 5.
fn word_after(word: u64, next: u64) -> u64
    ensures { (preset k : ℕ) → to_be_bytes w64 word ≡ keys_from preset k 8 → to_be_bytes w64 next ≡ keys_from preset (k + 8) 8
        → to_be_bytes w64 result ≡ keys_from preset (k + 16) 8 }
{
    let both = (u128::from(word) << 64) + u128::from(next);
    (both << 8 >> 64) as u64 ^ (both << 40 >> 64) as u64
}

// Sets the 32 bytes after the scrambling bytes up to a place: each is the sum of those 240 and 176 places before it.
// This is the sequence at m = 128. At m = 32 the sums would be of bytes 60 and 44 places before, which would be right
// too, but would wait for the vector just stored. Here the last four aren't read. At m = 256 words would have to make
// 480 bytes first. It is inlined as all that has vectors is, so that these don't pass through memory; no proof rests on
// that.
#[inline(always)]
fn set_vector(keys: &mut [u8], at: usize)
    requires distance { 240 ≤ at }
    requires within { at + 32 ≤ length keys.old }
    ensures { (preset : ℕ) → take at keys.old ≡ keys_from preset 0 at → take (at + 32) keys.new ≡ keys_from preset 0 (at + 32) }
{
    let vector: u8x32 = load(keys, at - 240) ^ load(keys, at - 176);
    vector.copy_to_slice(&mut keys[at..]);
}
