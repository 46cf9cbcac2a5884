//! The marked places of a word. The point of a place is the power of alpha that its byte is at: the last place of a
//! word has alpha^0, and the first one alpha^(size - 1). Lists of points have room for 32, as no code here has more
//! parity bytes, and a word with more marks than these isn't filled.
//! A word has at most 255 bytes: alpha has as many different powers, so that no two places have one point.
//! Marks are counted in 16 bits, as the errors of a word are. In contracts `picked` are the entries of a list at marked
//! places, and `ArePlaces` says that a list begins with these places.
ghost use Rattle.std.specs.Prelude.{◌≡◌, List, Bool, false, ◌-◌, ◌<◌, ◌≤◌, length, replicate, All, IfSome, MatchOption};
ghost use Rattle.std.specs.Option.{ForSome};
ghost use Rattle.coding.specs.Field.{alpha, power};
ghost use Rattle.coding.specs.Words.{IsByte};
ghost use Rattle.coding.specs.Filling.{marked};
ghost use Rattle.rs_decode.specs.Patches.{patched, ArePlaces};
ghost use Rattle.rs_decode.specs.Inner.Places.{picked};
ghost use Rattle.rs_code.specs.Inner.PowerSums.{AreDistinct, points_of};
ghost use Rattle.rs_decode.specs.Inner.Sums.{AreOnly};

use crate::forney::bytes_at;
use crate::inverse::Inverse;
use arrayvec::ArrayVec;
use gf_field::{alpha_pow, log};

/// The marked places of a word of `N` bytes, and the powers of alpha that their bytes are at: found once for all words
/// that have these marks.
#[derive(Drop)]
pub struct Erasures<const N: usize> {
    /// A mark for each place: whether its byte is known to be lost. They are public, as contracts of callers name them.
    pub marks: [bool; N],
    /// The points of the marked places, in their order.
    pub(crate) points: ArrayVec<u8, 32>,
    // The inverse of their powers, where many words are to be filled at them and they are at most sixteen.
    pub(crate) inverse: Option<Inverse>,
    // The marked places in order: as many as there are points, and zeros or others after them.
    // A word has at most 255 places, so that each is a byte and 256 entries are enough.
    pub(crate) places: [u8; 256],
    /// A word of `N` bytes has as many places.
    pub ghost size: { length marks ≡ N },
    ghost gathered: { points.items ≡ picked marks (points_of (length marks)) },
    ghost same_points: { ForSome inverse (λ inverse. inverse.points.items ≡ points.items) },
    ghost located: { ArePlaces marks (length points.items) places },
}

impl<const N: usize> Erasures<N> {
    /// Those of a word without marks: they need no search through marks.
    pub fn none() -> Self
        ensures { result.marks ≡ replicate N false }
    {
        Erasures {
            marks: [false; N],
            points: ArrayVec::new(),
            inverse: None,
            places: [0; 256],
        }
    }

    /// The places of these marks, unless they are more than `most`: for one word, or a few. `most` is the number of
    /// parity bytes, as more marks have no codeword near. The list of places is a step to the points; without an
    /// inverse nobody reads it.
    pub fn new(marks: &[bool; N], most: usize) -> Option<Self>
        requires room { most ≤ 32 }
        requires short { N ≤ 255 }
        ensures { MatchOption result (most < marked marks.now) (λ erasures. (marked marks.now ≤ most) × (erasures.marks ≡ marks.now)) }
    {
        let mut places = [0; 256];
        let points = marked_points(marks, most, &mut places)?;
        Some(Erasures {
            marks: *marks,
            points,
            inverse: None,
            places,
        })
    }

    /// The same for many words, as the columns of a block are, for which the inverse of the places' powers is made
    /// once. It pays from some ten words on. Bytes are then added at the list of places, without logarithms.
    pub fn shared(marks: &[bool; N], most: usize) -> Option<Self>
        requires room { most ≤ 32 }
        requires short { N ≤ 255 }
        ensures { MatchOption result (most < marked marks.now) (λ erasures. (marked marks.now ≤ most) × (erasures.marks ≡ marks.now)) }
    {
        let mut erasures = Erasures::new(marks, most)?;
        erasures.inverse = inverse_of(&erasures.points);
        Some(erasures)
    }

    /// The marked places, in order.
    pub fn places(&self) -> &[u8]
        ensures count { length result.now ≡ marked self.now.marks }
        ensures places { ArePlaces self.now.marks (marked self.now.marks) result.now }
    {
        &self.places[..self.points.len()]
    }

    /// The bytes at the marked places that have these power sums, if any have; else any bytes. Sums past the number of
    /// places don't count: whoever adds the bytes tests whether these agree too.
    pub(crate) fn corrections(&self, sums: &[u8]) -> ArrayVec<u8, 32>
        requires short { N ≤ 255 }
        requires enough { length self.now.points.items ≤ length sums.now }
        requires room { length sums.now ≤ 32 }
        ensures { AreOnly self.now.points.items sums.now result.items }
    {
        match &self.inverse {
            Some(inverse) => inverse.bytes_at(sums),
            None => bytes_at(&self.points, sums),
        }
    }
}

// The inverse of the powers of points, if these are few enough for it: a column of it is one vector of sixteen lanes.
fn inverse_of(points: &[u8]) -> Option<Inverse>
    requires { AreDistinct points.now }
    ensures { IfSome result (λ inverse. inverse.points.items ≡ points.now) }
{
    if points.len() > 16 {
        return None;
    }
    // A copy, since the caller keeps its own list. Sixteen fit into it, which has room for 32.
    Some(Inverse::new(ArrayVec::try_from(points).unwrap()))
}

// The powers of alpha that the bytes at the marked places are at, unless more than `most` places are marked. Also
// writes these places in order.
fn marked_points(marks: &[bool], most: usize, places: &mut [u8; 256]) -> Option<ArrayVec<u8, 32>>
    requires room { most ≤ 32 }
    requires short { length marks.now ≤ 255 }
    ensures points { MatchOption result (most < marked marks.now) (λ points. (marked marks.now ≤ most) × (points.items ≡ picked marks.now (points_of (length marks.now)))) }
    ensures places { IfSome result (λ points. ArePlaces marks.now (length points.items) places.new) }
{
    // They are counted before they are gathered, so that too many cost no more.
    let count = usize::from(count_marks(marks));
    if count > most {
        return None;
    }
    // Most words have no mark.
    let mut points = ArrayVec::new();
    if count == 0 {
        return Some(points);
    }
    gather_places(marks, places);
    for place in &places[..count] {
        points.push(point_of(marks.len(), usize::from(*place)));
    }
    Some(points)
}

// How many places are marked.
fn count_marks(marks: &[bool]) -> u16
    requires short { length marks.now ≤ 255 }
    ensures { result ≡ marked marks.now }
{
    let mut count = 0;
    for place in 0..marks.len() {
        // Without a branch, so that many places are taken at once.
        count += u16::from(marks[place]);
    }
    count
}

// The power of alpha that a place of a word of this size is at. The first byte of a word is the coefficient of its
// highest power.
fn point_of(size: usize, place: usize) -> u8
    requires short { size ≤ 255 }
    requires inside { place < size }
    ensures { result ≡ power alpha (size - 1 - place) }
{
    alpha_pow((size - 1 - place) as u32)
}

// Writes the marked places in order, from the first entry on. What the entries after them are isn't said: the caller
// has to know how many are marked. It is an array and no list that grows, since an unmarked place is written too.
fn gather_places(marks: &[bool], places: &mut [u8; 256])
    requires short { length marks.now ≤ 255 }
    ensures { ArePlaces marks.now (marked marks.now) places.new }
{
    let mut count = 0;
    for place in 0..marks.len() {
        // Each place is written after those found so far and stays if it is marked, so that no branch hangs on a mark.
        places[count] = place as u8;
        count += usize::from(marks[place]);
    }
}

/// Adds each byte to the place that has its point; all other places stay. Where the points are those of marked places,
/// these are patched in order. Done twice it changes nothing, by which a caller takes it back. Also ensures that its
/// elements are bytes. A point that no place of the word has is passed over, as the type of the points allows any byte.
pub fn patch(word: &mut [u8], points: &[u8], bytes: &[u8])
    requires short { length word.old ≤ 255 }
    requires fits { length bytes.now ≡ length points.now }
    ensures patched { (marks : List Bool) → length marks ≡ length word.old → points.now ≡ picked marks (points_of (length marks)) → word.new ≡ patched word.old marks bytes.now }
    ensures bytes { All IsByte word.new }
{
    for (k, point) in points.iter().enumerate() {
        if *point != 0 {
            let exponent = log(*point) as usize;
            if exponent < word.len() {
                word[word.len() - 1 - exponent] ^= bytes[k];
            }
        }
    }
}
