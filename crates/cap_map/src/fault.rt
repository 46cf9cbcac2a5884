//! Why a text is no map. The texts are those that the report of `dvdcap mark` has for them. A block here is a line of a
//! map: bytes one after the other that have one status.

use thiserror::Error;

/// The rule that a line breaks.
#[derive(Clone, Copy, Debug, PartialEq, Eq, Error)]
pub enum MapCause {
    /// The first line that is no comment isn't that of the state: a position, a status and perhaps a pass.
    #[error("no state")]
    State,
    /// A line doesn't have the three fields position, size and status.
    #[error("fields")]
    Fields,
    /// The position or the size is no number below 2^63.
    #[error("number")]
    Number,
    /// The status isn't one of the five of a block.
    #[error("status")]
    Status,
    /// The size is 0.
    #[error("empty")]
    Empty,
    /// The block ends beyond byte 2^63 - 1.
    #[error("too long")]
    TooLong,
    /// The block begins after the end of the block before it.
    #[error("gap")]
    Gap,
    /// The block begins before the end of the block before it.
    #[error("overlap")]
    Overlap,
}

/// Why a text gives no spans.
#[derive(Clone, Copy, Debug, PartialEq, Eq, Error)]
pub enum MapFault {
    /// There is no memory for the spans.
    #[error("no memory")]
    NoMemory,
    /// This line, counted from 1, is the first that breaks a rule. It is the one after the last where the state is
    /// missing.
    #[error("line {line}: {cause}")]
    Rule { line: u64, cause: MapCause },
}
