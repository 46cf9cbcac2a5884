//! How far a captured block is. What a buffer holds is a clause of its stage, so no reader takes an old answer for a
//! new one. Reading a block begins at Empty, and decoding at Fetched. A block has two-pass agreement with received rows
//! and marks where decoding by rows, and then by columns with the failed rows as erasures, leads to it; at most one
//! has.

/// What a `Work` holds.
#[derive(Clone, Copy, Debug, PartialEq, Eq)]
pub enum Stage {
    /// No block.
    Empty,
    /// A received block with its marks.
    Fetched,
    /// Beside it the row answers. No block has two-pass agreement with them.
    Refused,
    /// Beside them the block that has it.
    Fixed,
}
