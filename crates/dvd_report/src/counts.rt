//! What a survey counts, of a block and over all blocks. `pi` is what scanning tools print as PIE, and `failed` as PIF.
use dvd_read::Cause;

/// What a survey keeps of a block.
#[derive(Clone, Copy, Debug, PartialEq, Eq)]
pub struct Surveyed {
    /// How many received rows have a PI error, at most 208.
    pub pi: u8,
    /// How many rows are uncorrectable, at most 208.
    pub failed: u8,
    /// Why the block is refused, or none.
    pub cause: Option<Cause>,
}

/// The totals over the blocks of a survey.
#[derive(Clone, Copy, Debug, PartialEq, Eq)]
pub struct Totals {
    /// How many blocks were surveyed.
    pub blocks: u64,
    /// How many of their received rows have a PI error.
    pub pi: u64,
    /// How many of their rows are uncorrectable.
    pub failed: u64,
    /// How many blocks have a cause.
    pub damaged: u64,
    /// The greatest number of PI error rows in a block and the seven before it, at most 1,664: eight times 208.
    pub peak: u32,
    /// The first block that has it; blocks are counted from 0.
    pub peak_at: u64,
    /// How many blocks have more than 280 PI error rows together with the seven before them.
    pub over: u64,
}
