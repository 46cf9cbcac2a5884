//! Why a report isn't read. The texts are those that the report of `dvdcap lost` has for them. A layout is the disk's
//! shape, the lengths of its zones and its image, as the options say; it gives each block its place and its image
//! sectors.

use thiserror::Error;

/// The rule that a line breaks.
#[derive(Clone, Copy, Debug, PartialEq, Eq, Error)]
pub enum ReportCause {
    /// It is no line that `recover` or `deep` writes of a block, nor one that closes the report of an image.
    #[error("not a report line")]
    Line,
    /// The layout has no block of that number.
    #[error("no such block")]
    Block,
    /// In the layout that block has another sector number or layer.
    #[error("other place")]
    Place,
    /// In the layout that block has no image sectors.
    #[error("no image sectors")]
    NoImage,
    /// It names a block that doesn't come after that of the line before it.
    #[error("out of order")]
    Order,
    /// It doesn't count the damage lines before it.
    #[error("wrong count")]
    Count,
    /// The run ended with a fault, and how much of the image it wrote isn't said.
    #[error("ended by a fault")]
    Fault,
    /// It comes after the closing line.
    #[error("after the end")]
    AfterEnd,
    /// The report ends without a closing line.
    #[error("no closing line")]
    NoEnd,
}

/// Why a report says nothing of an image.
#[derive(Clone, Copy, Debug, PartialEq, Eq, Error)]
pub enum ReportFault {
    /// There is no memory for the extents.
    #[error("no memory")]
    NoMemory,
    /// A read of the report failed.
    #[error("read fault")]
    ReadFault,
    /// This line, counted from 1, is the first that breaks a rule. It is the one after the last where the closing line
    /// is missing.
    #[error("line {line}: {cause}")]
    Rule { line: u64, cause: ReportCause },
}
