//! Rows in the marked form: 182 bytes, and 23 bytes with a bit for each place, set where no one byte is known.
ghost use Rattle.std.specs.Prelude.{◌≡◌, length, map};
ghost use Rattle.dvd_merge.specs.Join.{byte_of};
ghost use Rattle.dvd_merge.specs.MarkedText.{marked_row, marked_text};
ghost use Rattle.dvd_merge.specs.Planes.{row_of, table_of_planes};

use crate::lanes::known_bytes;
use crate::place::SEEN;
use crate::row::start_of;
use dvd_block::row_of_record;
use dvd_capture::RowMarks;
use rs_lanes::{load, store};

// The bytes of a recorded row in the marked form: 182 and 23 of mark bits.
const RECORD: usize = 205;

/// The bytes of a block in the marked form: 208 recorded rows.
pub(crate) const TEXT: usize = 208 * RECORD;

/// Writes a block in the marked form, its rows in the order of recording.
pub(crate) fn fill_text(values: &[[u8; 182]], codes: &[[u8; 182]], text: &mut [u8; TEXT])
    requires values { length values.now ≡ 208 }
    requires codes { length codes.now ≡ 208 }
    ensures { text.new ≡ marked_text (table_of_planes values.now codes.now) }
{
    // One buffer for all rows: each fills all of it. It is an array of its own, so that the length of a row is known.
    // By recorded rows, so that the text is set from the first byte on.
    let mut record = [0; RECORD];
    for m in 0..208 {
        let i = row_of_record(m);
        fill_record(&values[i], &codes[i], &mut record);
        text[RECORD * m..RECORD * m + RECORD].copy_from_slice(&record);
    }
}

// Writes a row in the marked form, all 205 bytes of it: those of its places, and the mark bits after them.
fn fill_record(values: &[u8; 182], codes: &[u8; 182], row: &mut [u8; RECORD])
    ensures { row.new ≡ marked_row (row_of values.now codes.now) }
{
    let (bytes, bits) = row.split_at_mut(182);
    fill_bytes(values, codes, bytes);
    // A place has a known byte where its code is SEEN. One in conflict has another code, and so is marked too.
    bits.copy_from_slice(RowMarks::where_not(SEEN, codes).bits());
}

// The byte of each place, and 0 where none is known. The last of six groups of 32 begins within the one before, and
// writes the same bytes there.
fn fill_bytes(values: &[u8; 182], codes: &[u8; 182], bytes: &mut [u8])
    requires { length bytes.old ≡ 182 }
    ensures { bytes.new ≡ map byte_of (row_of values.now codes.now) }
{
    for group in 0..6 {
        let at = start_of(group);
        store(known_bytes(load(values, at), load(codes, at)), bytes, at);
    }
}
