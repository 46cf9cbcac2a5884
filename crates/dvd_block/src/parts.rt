//! The buffers of a block, and the parity of some of its rows or columns, for whoever works on several rows or columns
//! of a block at once: the buffers are lent one by one. The parity and the test of a whole block are for rows that lie
//! in other buffers, as those of the C library's callers do.
pub use crate::buffers::{Cells, Lines};
pub use crate::parity::{
    column_parity, columns_parity, fill_parity, is_product, row_parity, rows_parity,
};
