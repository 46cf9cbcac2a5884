//! The places where errors may be: those whose points are zeros of a locator.
ghost use Rattle.std.specs.Prelude.{◌≡◌, ℕ, ◌+◌, ◌<◌, ◌≤◌, List, Bool, length, All, slice_index};
ghost use Rattle.arrayvec.specs.ArrayVec.{array_vec_len};
ghost use Rattle.coding.specs.Field.{plus, product};
ghost use Rattle.coding.specs.Words.{IsByte, value};
ghost use Rattle.rs_code.specs.Inner.PowerSums.{points_of};
ghost use Rattle.rs_decode.specs.Errors.{error_count};
ghost use Rattle.rs_decode.specs.Inner.Locator.{at_points, distances, with_zeros};
ghost use Rattle.rs_decode.specs.Inner.Sums.{AreSums};

use crate::power_sums::first_lanes;
use crate::sums::without_points;
use crate::values::values_at_powers;
use arrayvec::ArrayVec;
use gf_field::mul;

/// The power sums with points taken out, one after the other, which leaves as many sums less.
/// The sums that are left are those of the bytes multiplied by their points' distances to those that were taken out.
/// Lost bytes so count for nothing in them: a locator of these sums shows errors alone.
pub fn sums_without(points: &[u8], sums: &[u8]) -> ArrayVec<u8, 32>
    requires enough { length points.now ≤ length sums.now }
    requires room { length sums.now ≤ 32 }
    ensures len { array_vec_len result + length points.now ≡ length sums.now }
    ensures are { (places bytes : List ℕ) → AreSums places bytes sums.now → AreSums places (at_points (distances points.now) bytes places) result.items }
{
    // No sum is left, so that none is computed.
    if points.len() == sums.len() {
        return ArrayVec::new();
    }
    // One vector has room for the sums of the codes of a block.
    if sums.len() <= 16 {
        return first_lanes(without_points(points, sums), sums.len() - points.len());
    }
    // Only the C library has codes with more than sixteen parity bytes. The list has room for as many sums as there may
    // be, so that `unwrap` can't fail. It keeps those of the caller as they are.
    let mut left: ArrayVec<u8, 32> = ArrayVec::try_from(sums).unwrap();
    for point in points {
        take_out_point(&mut left, *point);
        left.pop();
    }
    left
}

/// Adds the point times each sum to the next, one place lower. The last one stays, and the caller drops it. Upwards, so
/// that each sum is read before it is overwritten. It is for codes with more than sixteen parity bytes: their sums are
/// too many for the vector that `without_points` takes.
fn take_out_point(sums: &mut [u8], point: u8)
    ensures { (k : ℕ) → k + 1 < length sums.old → slice_index sums.new k ≡ plus (slice_index sums.old (k + 1)) (product point (slice_index sums.old k)) }
{
    for k in 1..sums.len() {
        sums[k - 1] = sums[k] ^ mul(point, sums[k - 1]);
    }
}

/// Marks each place whose point is a zero of the locator, which has at most 33 coefficients, the highest power first:
/// the taps of a register for up to 32 sums. Marks that are there stay. The last place of a word has the point alpha^0.
/// Also places without an error may be marked where the locator isn't right: what is then filled is tested.
pub fn mark_zeros(locator: ArrayVec<u8, 33>, marks: &mut [bool])
    requires short { length marks.now ≤ 255 }
    ensures { marks.new ≡ with_zeros locator.items marks.old (points_of (length marks.old)) }
{
    let size = marks.len();
    let values = values_at_powers(&locator, size);
    for place in 0..size {
        // The value at alpha^k is of the place that k others come after. No branch, so that many are done at once.
        marks[place] |= values[size - 1 - place] == 0;
    }
}

/// How many unmarked places of a received word differ from a codeword: its errors. Of marked ones the number is known.
pub fn count_errors(received: &[u8], word: &[u8], marks: &[bool]) -> u16
    requires short { length marks.now ≤ 255 }
    requires received_fits { length received.now ≡ length marks.now }
    requires word_fits { length word.now ≡ length marks.now }
    ensures { result ≡ error_count received.now word.now marks.now }
{
    let mut count = 0;
    for (place, mark) in marks.iter().enumerate() {
        // Without a branch, so that many places are taken at once.
        count += u16::from(!*mark & (word[place] != received[place]));
    }
    count
}

/// Ensures that the elements of a word are bytes. It does nothing: the checker knows this of a slice, and not of an
/// array.
pub fn prove_bytes(word: &[u8])
    ensures { All IsByte word.now }
{}
