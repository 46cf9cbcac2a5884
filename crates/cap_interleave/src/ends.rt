//! How the loop ends. An end names the capture, so that its user knows which file to look at. The lines of the report
//! are made of it in cap_top, which counts files from 1.

/// How the loop over the blocks of captures ends. Captures, blocks and bytes are counted from 0.
#[derive(Clone, Copy, Debug, PartialEq, Eq)]
pub enum InterleaveEnd {
    /// Each capture was read to its end, and the output is whole.
    Done,
    /// A read of this capture failed.
    ReadFault {
        capture: u32,
    },
    /// A write failed.
    WriteFault,
    /// This capture is the first that doesn't have this block whole: it has this number of its bytes.
    Short {
        capture: u32,
        block: u32,
        bytes: u32,
    },
    /// 2^32 - 1 blocks of each capture were written. What comes after them wasn't read.
    Long,
}
