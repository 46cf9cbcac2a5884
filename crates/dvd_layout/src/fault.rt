//! Why a layout is refused.

use thiserror::Error;

/// The first rule of a layout that the given lengths break. The variants are in the order in which the rules are tried,
/// and each has the number to report. Reports have words of their own for each, and not the texts here.
#[derive(Clone, Copy, Debug, PartialEq, Eq, Error)]
pub enum LayoutFault {
    /// A layer has no sector.
    #[error("layer {layer} has no sector")]
    EmptyLayer { layer: u8 },
    /// Layer 0 of two layers isn't whole blocks.
    #[error("layer 0 of two has {sectors} sectors, which are no whole blocks")]
    OddLayer { sectors: u32 },
    /// A disk of one layer has sectors for a second.
    #[error("a disk of one layer has {sectors} sectors for a second")]
    SecondLayer { sectors: u32 },
    /// On the opposite track path layer 1 is longer than layer 0.
    #[error("layer 1 has {sectors} sectors, more than layer 0 on the opposite path")]
    LayerLonger { sectors: u32 },
    /// The Initial Zone would begin below the first sector number.
    #[error("an Initial Zone of {blocks} blocks would begin below the first sector number")]
    InitialTooLong { blocks: u32 },
    /// The zone after the data is too long.
    #[error("{blocks} blocks behind the data are too many")]
    TailTooLong { blocks: u32 },
    /// A layer ends above the last sector number that it may have.
    #[error("layer {layer} would end at sector number {end}")]
    LayerTooLong { layer: u8, end: u64 },
}
