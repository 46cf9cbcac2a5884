//! What was fixed of a block that isn't refused.

/// What two passes fixed: the places, marked or not, where the block differs from what was received, and the rows that
/// failed in the first pass.
/// A marked place whose byte happens to be right isn't counted, as it needed no correction. Any unsigned types of 16
/// bits or more would do.
#[derive(Clone, Copy, Debug, PartialEq, Eq)]
pub struct Fixed {
    /// How many places differ, at most 37,856: the bytes of 208 rows of 182.
    pub bytes: u32,
    /// How many rows failed, at most 16 where a block was found.
    pub failed_rows: u16,
}
