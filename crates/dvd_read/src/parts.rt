//! The passes over a captured block piece by piece, for whoever works on several pieces of its rows or of its columns
//! at once, and both passes on one thread, as `two_pass` and `read_block` make them. One frame is salvaged by itself,
//! for whoever asks which of the sixteen are.
pub use crate::columns::answer_columns;
pub use crate::kept::hold_columns;
pub use crate::passes::{Answered, answer_block, end_passes};
pub use crate::reading::end_reading;
pub use crate::rescue::salvage_frame;
pub use crate::rows::answer_rows;
