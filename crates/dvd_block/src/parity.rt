//! The parity of rows and columns (ECMA-267, 18): ten bytes of inner parity (PI) end a row, sixteen of outer
//! parity (PO) end a column. Where many are encoded or tested, vectors of 32 bytes do it for 32 at once: each row, or
//! each column, has a lane, its byte in each vector. A word is a codeword where its values at all roots of its code are
//! 0: ten values of a row, sixteen of a column. Tests go by whole groups of 32, of which the last begins within the one
//! before it, since testing a word twice changes nothing. Which groups come first doesn't matter.
ghost use Rattle.std.specs.Prelude.{◌≡◌, ℕ, ◌+◌, ◌<◌, ◌≤◌, ◌++◌, length, take, slice_index, EachIndex, All, ◌↔◌, IsTrue};
ghost use Rattle.coding.specs.Words.{IsCodeword, IsEncoded};
ghost use Rattle.dvd_block.specs.Buffers.{lines_rows};
ghost use Rattle.coding.specs.Product.{line, place, column, IsParityAdded, IsProduct};

use crate::buffers::Lines;
use rs_code::{Pi, Po};
use rs_lanes::{
    Thirds, any_of, are_zeros, column_values, inner_parity, outer_parity, parity_of_columns,
    row_values,
};
use std::simd::prelude::*;

/// Keeps the first 172 bytes of a row and sets the last ten so that it is a codeword. This and
/// `column_parity` are for programs on this crate that change single rows or columns: the programs here have whole
/// blocks. They use no vectors, which would compute 32 words for the one that is wanted.
pub fn row_parity(code: &Pi, row: &mut [u8; 182])
    ensures { IsEncoded 182 10 (take 172 row.old) row.new }
{
    code.encode(row);
}

/// Sets the cell to the outer parity of column `j`: the upper 192 bytes of the column, followed by the cell,
/// are a codeword. Rows 192 to 207 aren't read, and no row is written.
pub fn column_parity(code: &Po, lines: &Lines, j: usize, cell: &mut [u8; 16])
    requires { j < 182 }
    ensures { IsCodeword 208 16 (take 192 (column (lines_rows lines.now) j) ++ cell.new) }
{
    // The column is gathered into a word of its own, as its bytes are one in each row.
    let mut word = [0; 208];
    read_column(lines.rows(), j, &mut word[..192]);
    code.encode(&mut word);
    cell.copy_from_slice(&word[192..]);
}

/// Sets the last ten bytes of each of these rows so that it is a codeword, of 32 at once. The first 172 bytes of each
/// stay. It is public for dvd_par, whose workers have a piece of the rows each: so any number of them will do.
pub fn rows_parity(rows: &mut [[u8; 182]])
    ensures size { length rows.new ≡ length rows.old }
    ensures encoded { EachIndex rows.new (λ i. IsEncoded 182 10 (take 172 (line rows.old i)) (line rows.new i)) }
{
    // Room for all groups, so that it is set to zeros once: the rows transposed, and their thirds, pieces of 85 places
    // from which values are found.
    let mut transposed = [u8x32::splat(0); 182];
    let mut thirds = [[u8x32::splat(0); 3]; 85];
    for group in 0..rows.len().div_ceil(32) {
        let at = 32 * group;
        let end = rows.len().min(at + 32);
        group_parity(&mut transposed, &mut thirds, &mut rows[at..end]);
    }
}

// The same of at most 32 rows: 32 is the number of lanes of a vector.
fn group_parity(transposed: &mut [u8x32; 182], thirds: &mut Thirds, rows: &mut [[u8; 182]])
    requires { length rows.old ≤ 32 }
    ensures size { length rows.new ≡ length rows.old }
    ensures encoded { EachIndex rows.new (λ i. IsEncoded 182 10 (take 172 (line rows.old i)) (line rows.new i)) }
{
    // A whole group is encoded where it is, from its first row, 0. The 192 rows of one worker are six whole groups;
    // a piece of several workers may leave fewer than 32 rows.
    if rows.len() == 32 {
        inner_parity(transposed, thirds, rows, 0);
    } else {
        few_rows_parity(transposed, thirds, rows);
    }
}

// The same in a buffer, since the vectors need 32 rows: those of this group alone are copied back. Rows beside them
// can't fill the group, since another worker may have them.
fn few_rows_parity(transposed: &mut [u8x32; 182], thirds: &mut Thirds, rows: &mut [[u8; 182]])
    requires { length rows.old ≤ 32 }
    ensures size { length rows.new ≡ length rows.old }
    ensures encoded { EachIndex rows.new (λ i. IsEncoded 182 10 (take 172 (line rows.old i)) (line rows.new i)) }
{
    let mut buffer = with_zeros_below(rows);
    inner_parity(transposed, thirds, &mut buffer, 0);
    rows.copy_from_slice(&buffer[..rows.len()]);
}

// At most 32 rows, and rows of zeros below them. What is below isn't in the contract: whatever it is, the parity of a
// row depends on that row alone.
fn with_zeros_below(rows: &[[u8; 182]]) -> [[u8; 182]; 32]
    requires { length rows.now ≤ 32 }
    ensures size { length result ≡ 32 }
    ensures rows { take (length rows.now) result ≡ rows.now }
{
    let mut buffer = [[0; 182]; 32];
    buffer[..rows.len()].copy_from_slice(rows);
    buffer
}

/// Sets these cells to the outer parity of the columns from `start` on, of 32 at once: the upper 192 bytes of each
/// column, followed by its cell, are a codeword. It is public for dvd_par: several workers read all rows, and write
/// apart.
pub fn columns_parity(lines: &Lines, start: usize, cells: &mut [[u8; 16]])
    requires { start + length cells.old ≤ 182 }
    ensures size { length cells.new ≡ length cells.old }
    ensures encoded { EachIndex cells.new (λ k. IsCodeword 208 16 (take 192 (column (lines_rows lines.now) (start + k)) ++ line cells.new k)) }
{
    // Room for all groups.
    let mut thirds = [[u8x32::splat(0); 3]; 85];
    for group in 0..cells.len().div_ceil(32) {
        let at = 32 * group;
        let end = cells.len().min(at + 32);
        group_cells(&mut thirds, lines, start + at, &mut cells[at..end]);
    }
}

// The same of at most 32 cells. Unlike rows, columns are only read, and each worker may read all: so a group that isn't
// whole is filled with columns beside it, whose parity isn't written.
fn group_cells(thirds: &mut Thirds, lines: &Lines, start: usize, cells: &mut [[u8; 16]])
    requires few { length cells.old ≤ 32 }
    requires columns { start + length cells.old ≤ 182 }
    ensures size { length cells.new ≡ length cells.old }
    ensures encoded { EachIndex cells.new (λ k. IsCodeword 208 16 (take 192 (column (lines_rows lines.now) (start + k)) ++ line cells.new k)) }
{
    // The parity of 32 columns is found even where fewer follow: the last 32 begin at column 150. Lane `start - left`
    // is that of column `start`.
    let left = start.min(150);
    let parity = parity_of_columns(thirds, &lines.rows()[..192], left);
    for (k, cell) in cells.iter_mut().enumerate() {
        put_cell(&parity, start - left + k, cell);
    }
}

// Sets a cell to lane `n` of these vectors. Vector t has byte t of the parity of all 32 columns. The clause `lanes` is
// for the prover, which doesn't know the lanes of a vector in an array: it is true of each.
fn put_cell(parity: &[u8x32; 16], n: usize, cell: &mut [u8; 16])
    requires lane { n < 32 }
    requires lanes { EachIndex parity.now (λ t. length (line parity.now t) ≡ 32) }
    ensures { cell.new ≡ column parity.now n }
{
    for t in 0..16 {
        cell[t] = parity[t][n];
    }
}

/// Sets the parity of the 208 rows of a block: the last ten bytes of each, and the last sixteen rows. The first 172
/// bytes of the others stay.
// The inner parity of the upper 192 rows comes first, and then the outer parity of all columns, those of inner parity
// too. The rows of outer parity are then codewords, since the code is linear.
pub fn fill_parity(rows: &mut [[u8; 182]])
    requires { length rows.old ≡ 208 }
    ensures size { length rows.new ≡ 208 }
    ensures added { IsParityAdded rows.old rows.new }
{
    let (upper, lower) = rows.split_at_mut(192);
    rows_parity(upper);
    outer_parity(upper, lower);
}

/// Whether each of the 208 rows of a block and each of its columns is a codeword.
pub fn is_product(rows: &[[u8; 182]]) -> bool
    requires { length rows.now ≡ 208 }
    ensures { IsTrue result ↔ IsProduct rows.now }
{
    // Neither follows from the other: rows that are codewords may make any columns. Which is tested first doesn't
    // matter.
    rows_are_codewords(rows) && columns_are_codewords(rows)
}

// Whether each row is a codeword, by seven groups. Some rows are tested twice, since 208 is no multiple of 32.
fn rows_are_codewords(rows: &[[u8; 182]]) -> bool
    requires { length rows.now ≡ 208 }
    ensures { IsTrue result ↔ All (IsCodeword 182 10) rows.now }
{
    for group in 0..7usize {
        // The last 32 rows begin at row 176.
        if !group_rows_are_codewords(rows, (32 * group).min(176)) {
            return false;
        }
    }
    true
}

// Whether each of the 32 rows from `top` on is a codeword: `any_of` has a lane of 0 where all ten values of its row are
// 0.
fn group_rows_are_codewords(rows: &[[u8; 182]], top: usize) -> bool
    requires { top + 32 ≤ length rows.now }
    ensures { IsTrue result ↔ ((n : ℕ) → n < 32 → IsCodeword 182 10 (line rows.now (top + n))) }
{
    are_zeros(any_of(&row_values(rows, top)))
}

// Whether each column is a codeword, by six groups. Some columns are tested twice, since 182 is no multiple of 32.
fn columns_are_codewords(rows: &[[u8; 182]]) -> bool
    requires { length rows.now ≡ 208 }
    ensures { IsTrue result ↔ ((j : ℕ) → j < 182 → IsCodeword 208 16 (column rows.now j)) }
{
    for group in 0..6usize {
        // The last 32 columns begin at column 150.
        if !group_columns_are_codewords(rows, (32 * group).min(150)) {
            return false;
        }
    }
    true
}

// Whether each of the 32 columns from `at` on is a codeword, as for rows: here of sixteen values.
fn group_columns_are_codewords(rows: &[[u8; 182]], at: usize) -> bool
    requires rows { length rows.now ≡ 208 }
    requires at { at + 32 ≤ 182 }
    ensures { IsTrue result ↔ ((n : ℕ) → n < 32 → IsCodeword 208 16 (column rows.now (at + n))) }
{
    are_zeros(any_of(&column_values(rows, at)))
}

// Copies the upper end of a column, as many bytes as there is room for: the caller has room for the 192 bytes before
// the outer parity, and sets that itself.
fn read_column(rows: &[[u8; 182]], j: usize, top: &mut [u8])
    requires column { j < 182 }
    requires size { length top.old ≤ length rows.now }
    ensures { EachIndex top.new (λ i. slice_index top.new i ≡ place rows.now i j) }
{
    for (i, byte) in top.iter_mut().enumerate() {
        *byte = rows[i][j];
    }
}

// Copies the cells into rows, byte by byte. The clause `sizes` says what the type does, since the prover doesn't know
// the length of an array in a list.
pub(crate) fn place_cells(cells: &[[u8; 16]], rows: &mut [[u8; 182]])
    requires cells { length cells.now ≡ 182 }
    requires rows { length rows.old ≡ 16 }
    ensures bytes { EachIndex rows.new (λ t. (j : ℕ) → j < 182 → place rows.new t j ≡ place cells.now j t) }
    ensures sizes { EachIndex rows.new (λ t. length (line rows.new t) ≡ 182) }
{
    for (t, row) in rows.iter_mut().enumerate() {
        read_cells(cells, t, row);
    }
}

// Copies byte `t` of each cell: a row of outer parity has byte t of the parity of each column. All of the row is set.
fn read_cells(cells: &[[u8; 16]], t: usize, row: &mut [u8; 182])
    requires byte { t < 16 }
    requires size { length cells.now ≡ 182 }
    ensures bytes { EachIndex row.new (λ j. slice_index row.new j ≡ place cells.now j t) }
    ensures size { length row.new ≡ 182 }
{
    for (j, byte) in row.iter_mut().enumerate() {
        *byte = cells[j][t];
    }
}
