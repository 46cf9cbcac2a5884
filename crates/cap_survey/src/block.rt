//! The line of a block, read part by part in the order in which `dvdecc survey` writes it. It is
//! `block K sector H6 layer L pi P failed F sum8 S: ANSWER`, where `H6` is six hexadecimal digits, and ANSWER is
//! `whole` or the cause for which the block is refused. A survey writes no sector, so no count of salvaged
//! frames comes after a cause.
ghost use Rattle.std.specs.Prelude.{◌≡◌, option_map};
ghost use Rattle.cap_survey.specs.Lines.{after_sector, block_line, is_address, is_alone, is_cause, is_empty_text, is_found, refused_by};

use crate::number::{after_text, are_hexadecimal, number_after};

/// What the line of a block says. Its numbers are as they came: whether they can be those of a block is asked later, by
/// `survey`. So they have 64 bits.
#[derive(Clone, Copy, Debug, PartialEq, Eq, Drop)]
pub struct BlockLine {
    pub block: u64,
    pub layer: u64,
    pub pi: u64,
    pub failed: u64,
    pub sum8: u64,
    pub refused: bool,
}

/// What a line says, if it is that of a block. `survey` tries each line by it first; one of totals isn't such, by its
/// first word.
pub fn block_line(line: &[u8]) -> Option<BlockLine>
    ensures { result ≡ block_line line.now }
{
    let block = number_after(line, b"block ")?;
    let layer = number_after(after_sector(block.rest)?, b" layer ")?;
    let pi = number_after(layer.rest, b" pi ")?;
    let failed = number_after(pi.rest, b" failed ")?;
    let sum8 = number_after(failed.rest, b" sum8 ")?;
    let refused = refused_by(after_text(sum8.rest, b": ")?)?;
    Some(BlockLine {
        block: block.value,
        layer: layer.value,
        pi: pi.value,
        failed: failed.value,
        sum8: sum8.value,
        refused,
    })
}

// What comes after ` sector ` and its six digits. Where the block is on the disk isn't drawn, so the digits are only
// tested. They can't be compared: a survey doesn't say its disk's layout.
fn after_sector<'a>(text: &'a [u8]) -> Option<&'a [u8]>
    ensures { option_map (λ s. s.now) result ≡ after_sector text.now }
{
    let text = after_text(text, b" sector ")?;
    if text.len() >= 6 && are_hexadecimal(&text[..6]) {
        Some(&text[6..])
    } else {
        None
    }
}

// Whether a block is refused, by what its line says after the colon.
fn refused_by(answer: &[u8]) -> Option<bool>
    ensures { result ≡ refused_by answer.now }
{
    if is_empty_text(after_text(answer, b"whole")) {
        Some(false)
    } else if is_cause(answer) {
        Some(true)
    } else {
        None
    }
}

// Whether there is a text, and nothing in it. So `whole` has to be all of the answer. Comparing the answer with `whole`
// would say the same: the definition goes by what comes after it, as for all parts of a line.
fn is_empty_text(text: Option<&[u8]>) -> bool
    ensures { result ≡ is_empty_text (option_map (λ s. s.now) text.entry) }
{
    matches!(text, Some(text) if text.is_empty())
}

// Whether a text is one of the causes for which a block is refused. Which one isn't kept, so its number may be any.
// Each name ends with a blank, so no text has two of them: their order is free.
fn is_cause(text: &[u8]) -> bool
    ensures { result ≡ is_cause text.now }
{
    is_alone(text, b"rows ")
        || is_alone(text, b"column ")
        || is_alone(text, b"row ")
        || is_alone(text, b"ied ")
        || is_alone(text, b"edc ")
        || is_address(text)
}

// Whether a text is a name and a number, with nothing after it.
fn is_alone(text: &[u8], name: &[u8]) -> bool
    ensures { result ≡ is_alone name.now text.now }
{
    matches!(number_after(text, name), Some(number) if number.rest.is_empty())
}

// Whether a text is `address N found H8`: a frame, and the ID in it, which is of another place.
fn is_address(text: &[u8]) -> bool
    ensures { result ≡ is_address text.now }
{
    matches!(number_after(text, b"address "), Some(frame) if is_found(frame.rest))
}

// Whether a text is ` found ` and the eight digits of an ID.
fn is_found(text: &[u8]) -> bool
    ensures { result ≡ is_found text.now }
{
    matches!(after_text(text, b" found "), Some(word) if word.len() == 8 && are_hexadecimal(word))
}
