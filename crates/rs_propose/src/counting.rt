//! A byte added to a row, and the number of places that then differ from the received row. Nothing is proved of a
//! proposal: it may name a place twice, or add a byte 0. So the errors are counted by the row itself.
ghost use Rattle.std.specs.Prelude.{◌≡◌, ◌+◌, ◌<◌, ◌≤◌, false, replicate, slice_index, slice_set};
ghost use Rattle.coding.specs.Field.{plus};
ghost use Rattle.rs_decode.specs.Errors.{error_count};

/// Adds a byte at a place of `row`; all others stay. Returns the number of places that then differ from the received
/// row; `differing` did before. A proposal has five bytes, so fewer than five differ before each: no sum leaves its
/// bounds. The number has the 16 bits of a decoder's count of errors. Also ensures that `byte` is a byte,
/// for the caller's proof: in contracts it is a number. It is inlined, as it is called for each of five bytes of a row.
#[inline(always)]
pub fn add_at(
    received: &[u8; 182],
    row: &mut [u8; 182],
    place: usize,
    byte: u8,
    differing: u16,
) -> u16
    requires place { place < 182 }
    requires few { differing < 5 }
    requires counted { differing ≡ error_count received.now row.old (replicate 182 false) }
    ensures added { row.new ≡ slice_set row.old place (plus (slice_index row.old place) byte) }
    ensures counted { result ≡ error_count received.now row.new (replicate 182 false) }
    ensures few { result ≤ differing + 1 }
    ensures byte { byte < 256 }
{
    let before = u16::from(row[place] != received[place]);
    row[place] ^= byte;
    let after = u16::from(row[place] != received[place]);
    // Added first: where the place differed before, it is one of `differing`, so that nothing goes below 0.
    differing + after - before
}
