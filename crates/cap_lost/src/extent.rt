//! Sectors one after the other.

/// The image sectors from one to the one before an end, counted from 0. There are none where `to` isn't above `from`.
#[derive(Clone, Copy, Debug, PartialEq, Eq, Drop)]
pub struct Extent {
    /// The first of them.
    pub from: u32,
    /// The one after the last.
    pub to: u32,
}
