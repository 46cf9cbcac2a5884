//! What a map says of the bytes of a capture.

/// Bytes from the end of the span before it, or from the first byte of the capture, to this end. So there is no gap
/// between spans that has to be looked for. Each has a byte: the ends of `read_map` ascend. Only the bytes after the
/// last span are in none.
#[derive(Clone, Copy, Debug, PartialEq, Eq, Drop)]
pub struct Span {
    /// The first byte that is after the span.
    pub end: u64,
    /// Whether the bytes are rescued: the map has them in a block whose status is trusted.
    pub rescued: bool,
}
