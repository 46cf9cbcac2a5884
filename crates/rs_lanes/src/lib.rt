//! Reed-Solomon parity of whole ECC blocks (ECMA-267, clause 18), and the values of their rows and columns at the
//! powers of alpha, on vectors of 32 bytes: 32 columns or 32 rows at once.
//! A product with a constant is then two look-ups among sixteen, one for each half of a byte. Words are tested by their
//! values and not by a remainder, since a decoder needs these values first.
//!
//! - [`columns`]: the outer parity of 192 rows, or of 32 of their columns, and the values of 32 columns of a block.
//! - [`rows`]: the inner parity of 32 rows, and their values.
//! - [`row`]: the trait of a type that has the bytes of a row.
//! - [`transposing`]: 32 rows, transposed: vectors, one for each place.
//! - [`points`]: products and powers of sixteen bytes at once.
//! - `lanes`: sums, products, loads and stores of vectors, and where all of several are zero.
//! - `fold3`: the values of words, in each lane.
//! - `fold5`: the pieces of a third, added up for five values at once.
//! - `parity`: the parity of words by their values, in each lane.
//! - `matrices`: the parity that has one value 1 and all others 0, for each value of both codes.
//! - `gf_tables`: the products of each byte with each nibble, and the powers of each power of alpha.
#![tactic(auto)]

pub mod columns;
mod fold3;
mod fold5;
mod gf_tables;
mod lanes;
mod matrices;
mod parity;
pub mod points;
pub mod row;
pub mod rows;
#[cfg(test)]
mod tests;
pub mod transposing;

pub use columns::{column_values, column_values_by, outer_parity, parity_of_columns};
pub use fold3::Thirds;
pub use lanes::{any_of, are_zeros, copy_row, load, multiple, store, with_multiple};
pub use points::{mul_scalar, powers};
pub use row::Row;
pub use rows::{inner_parity, row_values, row_values_by, transposed_values};
pub use transposing::{load_transposed, transpose};
