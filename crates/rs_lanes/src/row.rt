//! Types that have the bytes of a row.
ghost use Rattle.std.specs.Prelude.{◌≡◌, ℕ, List};

/// A row of a block, with or without more than its bytes.
/// What a decoder answers for a row has its bytes and what was corrected. The columns of such answers are tested in
/// place, without a copy of the bytes. So two types have this trait: arrays, and the answers of dvd_capture. Contracts
/// speak of the bytes of both by `word`.
pub trait Row {
    // The bytes as contracts speak of them.
    ghost word: { Self → List ℕ };

    /// The bytes of the row, as an array: its length is then known without a clause.
    fn row(&self) -> &[u8; 182]
        ensures { result.now ≡ word self.now };
}

// A row that has nothing but its bytes. Its contract is the trait's.
impl Row for [u8; 182] {
    ghost word = { λ row. row };

    fn row(&self) -> &[u8; 182] {
        self
    }
}
