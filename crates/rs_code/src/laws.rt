//! What holds of every code of words of at most 255 bytes: each function's contract is one law, and its body is empty.
//! No code calls them: they are public as statements of the crate, each of which is proved.
//! A word is a polynomial, its first byte the coefficient of the highest power. A codeword of n bytes with r parity
//! bytes is a word of n bytes whose values at alpha^0 to alpha^(r-1) are 0. 255 is the number of different powers of
//! alpha: in a longer word two places would have the same one, and two wrong bytes there could cancel.
ghost use Rattle.rs_code.specs.Laws.{LightCodewordIsZero, CloseCodewordsAreEqual, MessageIsEncodable, MessageIsEncodedOnce};

/// A codeword with at most r bytes that aren't 0 is zero: it has none.
pub fn light_codeword_is_zero()
    ensures { LightCodewordIsZero }
{}

/// Two codewords of the same n and r that differ in at most r places are equal, as their sum is a codeword too. So a
/// decoder that corrects few enough places has one result at most.
pub fn close_codewords_are_equal()
    ensures { CloseCodewordsAreEqual }
{}

/// Each message of n - r bytes has an encoded word: a codeword of n bytes that begins with it. There has to be a parity
/// byte and a byte of message. This one holds of longer words too: a remainder by the generator is there for any
/// length.
pub fn message_is_encodable()
    ensures { MessageIsEncodable }
{}

/// Each message has only one encoded word: two would differ in their r parity bytes alone. So the contract of `encode`
/// leaves one result.
pub fn message_is_encoded_once()
    ensures { MessageIsEncodedOnce }
{}
