//! Why a text is no survey. The report of `dvdcap draw` has shorter texts for the causes.

use thiserror::Error;

/// The rule that a line breaks.
#[derive(Clone, Copy, Debug, PartialEq, Eq, Error)]
pub enum SurveyCause {
    /// It is neither the line of a block nor a line of totals.
    #[error("no line of a survey")]
    Form,
    /// The block isn't the one after the block of the line before, or the first isn't block 0.
    #[error("not the next block")]
    Order,
    /// A block can't be so: its layer is above 1, it has more than 208 PI error rows, or more failed rows than these.
    #[error("too great a count")]
    Range,
    /// `sum8` isn't the sum of `pi` over the block and the seven before it.
    #[error("a wrong sum of eight")]
    Sum8,
    /// A disk has fewer blocks.
    #[error("too many blocks")]
    TooMany,
    /// The totals aren't those of the lines before.
    #[error("totals of other blocks")]
    Totals,
    /// There is more after the line of totals.
    #[error("more after the totals")]
    After,
}

/// This line, counted from 1, is the first that breaks a rule.
#[derive(Clone, Copy, Debug, PartialEq, Eq, Error)]
#[error("line {line}: {cause}")]
pub struct Fault {
    pub line: u64,
    pub cause: SurveyCause,
}
