//! The bytes of a picture. They are put together in memory and go out as one piece. The clauses `len` say how many
//! bytes are added at most: so the parts of a picture add up bounds, and measure no text.
ghost use Rattle.std.specs.Prelude.{◌≡◌, ◌+◌, ◌≤◌, [], ◌++◌, length, decimal, IfOk};

use itoa::Buffer;
use std::alloc::{AllocError, Global};
use std::marker::Model;

// No picture is greater. 4,000 columns have at most 480 bytes each, and the rest is for frames, axes and texts.
// `picture` adds the bounds up.
const ROOM: usize = 2_000_000;

/// The bytes of a picture as far as it was made: at most 2,000,000. Contracts see it as their list.
#[derive(Drop)]
pub struct Page {
    bytes: Vec<u8>,
}

impl Model for Page {
    ghost use Rattle.std.specs.Prelude.{ℕ, List, ◌≤◌, vec_len, vec_capacity};
    ghost use Rattle.std.specs.Coded.{coded_ℕ, coded_list};

    ghost Value = { List ℕ };

    ghost coded = { coded_list coded_ℕ };

    ghost view = { λ page. page.bytes.items };

    ghost invariant = { λ page. (vec_len page.bytes ≤ 2000000) × (2000000 ≤ vec_capacity page.bytes) };
}

impl Page {
    /// A page without a byte. The memory for all bytes is allocated here, so that nothing that is put can fail.
    pub fn new(alloc: Global) -> Result<Page, AllocError>
        ensures { IfOk result (λ page. page ≡ []) }
    {
        Ok(Page {
            bytes: Vec::with_capacity(alloc, ROOM)?,
        })
    }

    /// Puts a text at the end.
    pub fn put(&mut self, text: &[u8])
        requires room { length self.old + length text.now ≤ 2000000 }
        ensures bytes { self.new ≡ self.old ++ text.now }
        ensures len { length self.new ≡ length self.old + length text.now }
    {
        match self.bytes.extend_from_slice(text) {
            Ok(()) => {}
            // All memory was taken by `new`, and `room` says that the text fits.
            Err(_) => unreachable!(),
        }
    }

    /// Puts a text and a number of 16 bits: at most 5 digits. A bound for each width of number keeps the bound of the
    /// whole picture low.
    pub fn put_short(&mut self, text: &[u8], number: u16)
        requires room { length self.old + length text.now + 5 ≤ 2000000 }
        ensures bytes { self.new ≡ self.old ++ text.now ++ decimal number }
        ensures len { length self.new ≤ length self.old + length text.now + 5 }
    {
        self.put(text);
        self.put(Buffer::new().format(number).as_bytes());
    }

    /// Puts a text and a number of 32 bits: at most 10 digits. Numbers of blocks are such, in a column and on the axis.
    pub fn put_count(&mut self, text: &[u8], number: u32)
        requires room { length self.old + length text.now + 10 ≤ 2000000 }
        ensures bytes { self.new ≡ self.old ++ text.now ++ decimal number }
        ensures len { length self.new ≤ length self.old + length text.now + 10 }
    {
        self.put(text);
        self.put(Buffer::new().format(number).as_bytes());
    }

    /// Puts a text and a number of 64 bits: at most 20 digits. The totals are such.
    pub fn put_long(&mut self, text: &[u8], number: u64)
        requires room { length self.old + length text.now + 20 ≤ 2000000 }
        ensures bytes { self.new ≡ self.old ++ text.now ++ decimal number }
        ensures len { length self.new ≤ length self.old + length text.now + 20 }
    {
        self.put(text);
        self.put(Buffer::new().format(number).as_bytes());
    }

    /// The bytes.
    pub fn as_slice(&self) -> &[u8]
        ensures { result.now ≡ self.now }
    {
        &self.bytes
    }
}
