//! Lines of text, which allocate no memory, and what is put at their end. A line is put together first, so that it goes
//! out as one piece.
ghost use Rattle.std.specs.Prelude.{◌≡◌, ◌+◌, ◌<◌, ◌≤◌, [], ◌++◌, length, decimal, true};
ghost use Rattle.std.specs.Fmt.{digit_glyph};
ghost use Rattle.dvd_report.specs.Lines.{hexadecimal};

use arrayvec::ArrayVec;
use itoa::Buffer;
use std::marker::Model;

/// A line of text, of at most 256 bytes. A contract sees it as the list of its bytes. No line of a report is longer,
/// and `room` shows at each call that what is put fits. Any size with which those clauses hold would do. `len` says of
/// the length what `bytes` implies, or less: so the next `room` follows by sums, without the digits of a number.
/// `coded` is the code by which proofs compare such lists.
#[derive(Drop)]
pub struct Line {
    bytes: ArrayVec<u8, 256>,
}

impl Model for Line {
    ghost use Rattle.std.specs.Prelude.{ℕ, List};
    ghost use Rattle.std.specs.Coded.{coded_ℕ, coded_list};

    ghost Value = { List ℕ };

    ghost coded = { coded_list coded_ℕ };

    ghost view = { λ line. line.bytes.items };
}

impl Line {
    /// A line without a byte.
    pub fn new() -> Line
        ensures { result ≡ [] }
    {
        Line {
            bytes: ArrayVec::new(),
        }
    }

    /// Puts a text at the end of the line. What the line had before stays, here and below.
    pub fn put(&mut self, text: &[u8])
        requires room { length self.old + length text.now ≤ 256 }
        ensures bytes { self.new ≡ self.old ++ text.now }
        ensures len { length self.new ≡ length self.old + length text.now }
    {
        // It can't fail, by `room`. So no caller has to ask.
        let _ = self.bytes.try_extend_from_slice(text);
    }

    /// Puts a number in decimal at the end of the line: at most 20 digits.
    pub fn put_number(&mut self, number: u64)
        requires room { length self.old + 20 ≤ 256 }
        ensures bytes { self.new ≡ self.old ++ decimal number }
        ensures len { length self.new ≤ length self.old + 20 }
    {
        self.put(Buffer::new().format(number).as_bytes());
    }

    /// Puts a number of eight bits in decimal at the end of the line: at most 3 digits. So it takes less room than
    /// other numbers.
    pub fn put_byte(&mut self, number: u8)
        requires room { length self.old + 3 ≤ 256 }
        ensures bytes { self.new ≡ self.old ++ decimal number }
        ensures len { length self.new ≤ length self.old + 3 }
    {
        self.put(Buffer::new().format(number).as_bytes());
    }

    /// Puts the last `width` hexadecimal digits of a number, of up to eight, in capitals at the end of the line. Lines
    /// have six for a sector number and eight for an ID, with zeros before: their width is part of the format.
    pub fn put_hexadecimal(&mut self, number: u32, width: u32)
        requires digits { width ≤ 8 }
        requires room { length self.old + width ≤ 256 }
        ensures bytes { self.new ≡ self.old ++ hexadecimal width number }
        ensures len { length self.new ≡ length self.old + width }
    {
        // A line grows at its end alone, so the highest digit comes first. Higher digits than `width` are left out.
        for place in (0..width).rev() {
            self.put(&[hexadecimal_digit(number / 16u32.pow(place) % 16)]);
        }
    }

    /// Puts a text and a number in decimal at the end of the line: most lines are made of such pairs.
    pub fn put_named(&mut self, name: &[u8], number: u64)
        requires room { length self.old + length name.now + 20 ≤ 256 }
        ensures bytes { self.new ≡ self.old ++ name.now ++ decimal number }
        ensures len { length self.new ≤ length self.old + length name.now + 20 }
    {
        self.put(name);
        self.put_number(number);
    }

    /// The bytes of the line.
    pub fn as_slice(&self) -> &[u8]
        ensures bytes { result.now ≡ self.now }
        ensures len { length result.now ≤ 256 }
    {
        self.bytes.as_slice()
    }
}

// A table, since the digits from A on don't follow 9 in ASCII. Capitals, as the formats of the lines have them.
fn hexadecimal_digit(value: u32) -> u8
    requires { value < 16 }
    ensures { result ≡ digit_glyph true value }
{
    b"0123456789ABCDEF"[value as usize]
}
