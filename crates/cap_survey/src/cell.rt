//! What is kept of a block: only what is drawn or counted.

/// The counts in the line of a block. They are as small as they can be, since a survey may have two million blocks. A
/// block has 208 rows, so a count of its rows has 8 bits, and one of eight blocks, at most 1,664, needs 16.
#[derive(Clone, Copy, Debug, PartialEq, Eq, Drop)]
pub struct Cell {
    /// The PI error rows of the block and the seven before it.
    pub sum8: u16,
    /// Its PI error rows.
    pub pi: u8,
    /// Its failed rows.
    pub failed: u8,
    /// The layer that it is on: 0 or 1.
    pub layer: u8,
    /// Whether two passes or the frame checks refuse it.
    pub refused: bool,
}
