//! The words of a sector as the columns of rows: a row has the m-th bytes of all P words, or of all Q words, in order.
//! Columns of rows are tested and encoded 32 at once. P words have 26 bytes, so 26 rows of 86; Q words have 45, so 45
//! rows of 52. Bytes 12 to 2247 are the rows of P words, 2,236 bytes; all but the parity of a Q word is among these
//! too. Clauses `size` repeat the length that a type has, for the proofs of callers.
ghost use Rattle.std.specs.Prelude.{◌≡◌, ◌↔◌, ℕ, ◌+◌, ◌*◌, ◌/◌, ◌%◌, ◌<◌, length, slice_index};
ghost use Rattle.coding.specs.Rows.{place};
ghost use Rattle.cd_sector.specs.Words.{sector_place, IsRight};

use crate::columns::faults;
use crate::sector::put;

/// A byte for each P word, which is 0 exactly where the word is a codeword.
pub(crate) fn p_faults(sector: &[u8; 2352]) -> [u8; 86]
    ensures size { length result ≡ 86 }
    ensures right { (word : ℕ) → word < 86 → (slice_index result word ≡ 0) ↔ IsRight sector.now word }
{
    faults(p_rows(sector))
}

/// Likewise for each Q word.
pub(crate) fn q_faults(sector: &[u8; 2352]) -> [u8; 52]
    ensures size { length result ≡ 52 }
    ensures right { (n : ℕ) → n < 52 → (slice_index result n ≡ 0) ↔ IsRight sector.now (86 + n) }
{
    faults(&q_rows(sector))
}

/// The rows of P words, as they are in a sector. They needn't be copied: the bytes of a P word are 86 bytes apart.
pub(crate) fn p_rows(sector: &[u8; 2352]) -> &[[u8; 86]]
    ensures size { length result.now ≡ 26 }
    ensures bytes { (m j : ℕ) → m < 26 → j < 86 → place result.now m j ≡ slice_index sector.now (sector_place j m) }
{
    sector[12..2248].as_chunks::<86>().0
}

/// The rows of Q words. All but the last two are gathered from the diagonals. Those two are the parity, whose bytes are
/// in order.
pub(crate) fn q_rows(sector: &[u8; 2352]) -> [[u8; 52]; 45]
    ensures size { length result ≡ 45 }
    ensures bytes { (m n : ℕ) → m < 45 → n < 52 → place result m n ≡ slice_index sector.now (sector_place (86 + n) m) }
{
    let covered = covered_twice(sector);
    let mut rows = [[0; 52]; 45];
    // A diagonal goes down one row of 86 bytes and two bytes further for each place of its words, 88 in all. 2,236 is
    // the number of bytes that they go round in.
    for m in 0..43 {
        put_diagonals(&covered, 88 * m % 2236, &mut rows[m]);
    }
    rows[43].copy_from_slice(&sector[2248..2300]);
    rows[44].copy_from_slice(&sector[2300..2352]);
    rows
}

// The 2,236 bytes that the Q words cover, twice one after the other, so that a diagonal that leaves the first copy at
// its end goes on in the second. So no place needs a remainder. This and the next are inlined into `q_rows`, their one
// caller; no proof rests on that.
#[inline(always)]
fn covered_twice(sector: &[u8; 2352]) -> [u8; 4472]
    ensures { (at : ℕ) → at < 4472 → slice_index result at ≡ slice_index sector.now (12 + at % 2236) }
{
    let mut covered = [0; 4472];
    put(&mut covered, 0, &sector[12..2248]);
    put(&mut covered, 2236, &sector[12..2248]);
    covered
}

// Sets one pair of each diagonal: the first is at `from`, and each other 86 bytes after the one before. There are 26, a
// word of low bytes and one of high bytes to each. The last place is below 2,236 + 2,152, within the two copies.
#[inline(always)]
fn put_diagonals(covered: &[u8; 4472], from: usize, row: &mut [u8; 52])
    requires { from < 2236 }
    ensures { (n : ℕ) → n < 52 → slice_index row.new n ≡ slice_index covered.now (from + 86 * (n / 2) + n % 2) }
{
    for n in 0..26 {
        let at = from + 86 * n;
        // Both are read before one is written, so that they are copied at once.
        let [low, high] = [covered[at], covered[at + 1]];
        row[2 * n] = low;
        row[2 * n + 1] = high;
    }
}
