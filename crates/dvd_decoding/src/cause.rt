//! Why a block is refused. The rules have one order, so that two readers of one capture name the same: rows, columns,
//! the test of the rows. Then each frame is checked in turn.

use thiserror::Error;

/// The first rule that a block breaks.
#[derive(Clone, Copy, Debug, PartialEq, Eq, Error)]
pub enum Cause {
    /// More than 16 rows have no near codeword.
    #[error("{failed} rows have no codeword near")]
    Rows { failed: u16 },
    /// The first column of the rows' answers that has no near codeword.
    #[error("column {j} is the first with no codeword near")]
    Column { j: u16 },
    /// The first row of the columns' answers that isn't a codeword.
    #[error("row {i} of the columns' answers is the first that is no codeword")]
    Row { i: u16 },
    /// The first frame with a fault has a wrong IED.
    #[error("the ID of frame {f} has a wrong check")]
    Ied { f: u8 },
    /// The first frame with a fault names another place; its ID word is `found`.
    #[error("frame {f} names another place, by the ID word {found}")]
    Address { f: u8, found: u32 },
    /// The first frame with a fault has a wrong EDC.
    #[error("the contents of frame {f} have a wrong check")]
    Edc { f: u8 },
}
