//! The forms in which a captured block is stored.
ghost use Rattle.std.specs.Prelude.{◌≡◌};
ghost use Rattle.dvd_capture.specs.Captured.{HasSize, block_size, record_size};

/// How the bytes of a captured block are in a stream: its 208 recorded rows in order.
#[derive(Clone, Copy, Debug, PartialEq, Eq)]
pub enum Form {
    /// The 182 bytes of each row. No place is marked.
    Plain,
    /// After the 182 bytes of each row 23 bytes of mark bits: a bit for each place, and two that are spare.
    Marked,
    /// The bytes of the plain form, and after those of all rows the runs of marked places.
    Listed,
}

impl Form {
    /// The bytes of a captured block, in a form that gives each block as many. The listed form doesn't: its length
    /// depends on the runs. It is public for callers that count bytes or have a buffer for a block.
    pub fn size(self) -> usize
        requires { HasSize self }
        ensures { result ≡ block_size self }
    {
        208 * self.record_size()
    }

    /// The bytes of a recorded row: 182, and in the marked form 23 for 182 bits. It is public for dvd_assemble, which
    /// reads thirteen of them at once.
    pub fn record_size(self) -> usize
        ensures { result ≡ record_size self }
    {
        match self {
            Form::Plain | Form::Listed => 182,
            Form::Marked => 182 + 23,
        }
    }
}
