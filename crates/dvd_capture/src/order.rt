//! Rows of 182 bytes one after the other, and how the 208 recorded rows of a block come into the order of the block
//! where they are.
ghost use Rattle.std.specs.Prelude.{◌≡◌, ℕ, ◌+◌, ◌*◌, ◌<◌, ◌≤◌, length, take, drop};
ghost use Rattle.coding.specs.Recording.{record_at};
ghost use Rattle.dvd_capture.specs.Parts.{row_in};

const ROW: usize = 182;

const FRAME: usize = 12 * ROW; // the rows of a data frame

const PARITY: usize = 16 * ROW; // the rows of outer parity

/// Puts the recorded rows of a block in the order of the block: the rows of data frame f move up by f rows, since a row
/// of outer parity is recorded after each frame, and those come last.
pub(crate) fn put_in_order(bytes: &mut [u8])
    requires { length bytes.old ≡ 37_856 }
    ensures size { length bytes.new ≡ 37_856 }
    ensures rows { (i : ℕ) → i < 208 → row_in bytes.new i ≡ row_in bytes.old (record_at i) }
{
    let mut parity = [0; PARITY];
    // From the first frame on, so that none is written over before it has moved.
    for f in 0..16usize {
        keep_parity(&mut parity, f, bytes);
        move_frame(bytes, f);
    }
    set_rows(bytes, 192, &parity);
}

// Keeps the row of outer parity that is recorded after frame `f`, since a later frame is moved over it. In the block it
// is row 192 + f.
fn keep_parity(parity: &mut [u8; PARITY], f: usize, bytes: &[u8])
    requires frame { f < 16 }
    requires size { length bytes.now ≡ 37_856 }
    ensures row { row_in parity.new f ≡ row_in bytes.now (13 * f + 12) }
    ensures before { (g : ℕ) → g < f → row_in parity.new g ≡ row_in parity.old g }
{
    let from = ROW * (13 * f + 12);
    set_rows(parity, f, &bytes[from..from + ROW]);
}

// Moves the twelve rows of frame `f` from where they are recorded to their places. These may overlap, so that they are
// copied by way of a frame of their own; `copy_within` would do too. Frame 0 is at its place already, and is copied
// like the others.
fn move_frame(bytes: &mut [u8], f: usize)
    requires frame { f < 16 }
    requires size { length bytes.old ≡ 37_856 }
    ensures size { length bytes.new ≡ 37_856 }
    ensures moved { (k : ℕ) → k < 12 → row_in bytes.new (12 * f + k) ≡ row_in bytes.old (13 * f + k) }
    ensures before { (i : ℕ) → i < 12 * f → row_in bytes.new i ≡ row_in bytes.old i }
    ensures after { (i : ℕ) → 12 * f + 12 ≤ i → row_in bytes.new i ≡ row_in bytes.old i }
{
    let mut frame = [0; FRAME];
    let from = ROW * (13 * f);
    frame.copy_from_slice(&bytes[from..from + FRAME]);
    set_rows(bytes, 12 * f, &frame);
}

/// Sets the rows from row `i` on, as many as are given, and no others. One row, a frame and all outer parity are set by
/// it, so that its clauses serve each of them. It is inlined: then the number of bytes is known where they are
/// copied. Clauses `front` and `rest` are of the bytes around them.
#[inline(always)]
pub(crate) fn set_rows(bytes: &mut [u8], i: usize, rows: &[u8])
    requires { 182 * i + length rows.now ≤ length bytes.old }
    ensures size { length bytes.new ≡ length bytes.old }
    ensures set { (k : ℕ) → 182 * k + 182 ≤ length rows.now → row_in bytes.new (i + k) ≡ row_in rows.now k }
    ensures before { (m : ℕ) → m < i → row_in bytes.new m ≡ row_in bytes.old m }
    ensures after { (m : ℕ) → 182 * i + length rows.now ≤ 182 * m → row_in bytes.new m ≡ row_in bytes.old m }
    ensures front { take (182 * i) bytes.new ≡ take (182 * i) bytes.old }
    ensures rest { drop (182 * i + length rows.now) bytes.new ≡ drop (182 * i + length rows.now) bytes.old }
{
    let from = ROW * i;
    bytes[from..from + rows.len()].copy_from_slice(rows);
}
