//! What the calls answer: one number for each reason, in all calls. None is ever given another meaning. Any numbers
//! would do but that 0 is success; these are the ones that dvdecc.h has, and clauses name some of them.

/// All was done.
pub const OK: u32 = 0;
/// No codeword is near the word.
pub const UNCORRECTABLE: u32 = 1;
/// There is no memory for the call.
pub const NO_MEMORY: u32 = 2;
/// The call has no scrambling rule of this number.
pub const BAD_RULE: u32 = 3;
/// No CD-ROM sector has this address: it is 450,000 or more.
pub const BAD_ADDRESS: u32 = 4;
/// The lengths of the lists don't fit each other.
pub const BAD_LENGTH: u32 = 5;
/// More than 16 rows of a block have no codeword near.
pub const ROWS: u32 = 6;
/// A column of the rows' answers has no codeword near.
pub const COLUMN: u32 = 7;
/// A row of the columns' answers isn't a codeword.
pub const ROW: u32 = 8;
/// A data frame has a wrong IED.
pub const IED: u32 = 9;
/// A data frame names another place.
pub const ID: u32 = 10;
/// A data frame has a wrong EDC.
pub const EDC: u32 = 11;
/// A word of a CD-ROM sector isn't a codeword.
pub const CD_PARITY: u32 = 12;
/// A CD-ROM sector has another mode than 1.
pub const CD_MODE: u32 = 13;
/// A CD-ROM sector has another address.
pub const CD_ADDRESS: u32 = 14;
/// A CD-ROM sector has a wrong EDC.
pub const CD_EDC: u32 = 15;
/// No block of a disk begins with this ID word: the sector number of its last frame would have more than 24 bits.
pub const BAD_ID: u32 = 16;
