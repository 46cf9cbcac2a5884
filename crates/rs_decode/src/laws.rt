//! What holds of every received word of at most 255 bytes, and of every list that registers generate: each function's
//! contract is one law, and its body is empty. No code calls them: they are public as statements of the crate, each of
//! which is proved. `tactic` names three lemmas for the prover, those of the laws on near codewords and fillings.
//! A codeword has n bytes, of which r are parity: its values at alpha^0 to alpha^(r-1) are 0. It is near a received
//! word with a mark or none at each place where two for each unmarked place that differs, and one for each marked
//! place, are at most r together. It agrees with a received word where both have the same bytes at all unmarked places.
#![tactic(auto, using(crate::proofs::OneNear::laws))]

ghost use Rattle.rs_decode.specs.Laws.{NearCodewordIsOnlyOne, NearCodewordIsFound, FillingIsOnlyOne, FillingIsNear, ShortestRegisterIsOnlyOne};

/// At most one codeword is near a received word with marks. So what a decoder finds doesn't depend on its steps, and a
/// proposal that passes the test of being near is the answer.
pub fn near_codeword_is_only_one()
    ensures { NearCodewordIsOnlyOne }
{}

/// At most one codeword agrees with a received word of which at most r places are marked.
pub fn filling_is_only_one()
    ensures { FillingIsOnlyOne }
{}

/// Where at most r places are marked, a codeword that agrees with the received word is near it: each marked place
/// counts one, and no other differs. So `fill` finds what `decode` would.
pub fn filling_is_near()
    ensures { FillingIsNear }
{}

/// A search through all words of n bytes finds the near codeword, exactly where there is one. No code searches: what
/// decoding gives is defined so in `coding`. The contracts here say `near` instead, and this law makes both the same.
pub fn near_codeword_is_found()
    ensures { NearCodewordIsFound }
{}

/// A register of length l generates a list where each number from place l on is the same sum of multiples of the l
/// numbers before it. One that no other is shorter than, and that is at most half as long as the list, is the only one
/// of its length. For a longer one there may be several, of which `shortest` finds one.
pub fn shortest_register_is_only_one()
    ensures { ShortestRegisterIsOnlyOne }
{}
