//! Scrambling (ECMA-267, 17) and data frames (16). A rule is given by its number, and one that isn't known is refused
//! before anything is written. A rule says which Main Data bytes are scrambled: all 2,048, none, or the first 160.
//!
//! An ID word is the four bytes of an ID as a number: area, layer, sector number and other bits. A data frame is ID,
//! IED (two bytes that check the ID), CPR_MAI, Main Data and EDC (which checks all before it).
//!
//! The exports are public and keep their names (`no_mangle`), since C finds them by these. To C an array is a pointer.
ghost use Rattle.std.specs.Prelude.{◌≡◌};
ghost use Rattle.dvdecc_c.specs.Frames.{rule_numbered, rule_status, with_scrambling, frame_or, reading_status, with_main, with_found};

use crate::status;
use dvd_frame::{FrameCause, Id, Rule};

/// Combines Main Data with the scrambling bytes that bits b7 to b4 of an ID word select, by exclusive or. So a second
/// call undoes the first. The other bits of the word don't count.
#[unsafe(no_mangle)]
pub extern "C" fn dvdecc_scramble(id: u32, rule: u32, main_data: &mut [u8; 2048]) -> u32
    ensures status { result ≡ rule_status (rule_numbered rule) }
    ensures main_data { main_data.new ≡ with_scrambling (rule_numbered rule) id main_data.old }
{
    let Some(which) = numbered(rule) else {
        return status::BAD_RULE;
    };
    dvd_frame::scramble(which, Id::from_word(id), main_data);
    status::OK
}

/// Writes the data frame of an ID word, six bytes CPR_MAI and Main Data, which are scrambled in it by the rule. The EDC
/// is that of the bytes before scrambling. The caller's Main Data stay. Any ID word and any CPR_MAI have a frame, so
/// only the rule can be wrong.
#[unsafe(no_mangle)]
pub extern "C" fn dvdecc_make_frame(
    id: u32,
    cpr: &[u8; 6],
    rule: u32,
    main_data: &[u8; 2048],
    frame: &mut [u8; 2064],
) -> u32
    ensures status { result ≡ rule_status (rule_numbered rule) }
    ensures frame { frame.new ≡ frame_or (rule_numbered rule) id cpr.now main_data.now frame.old }
{
    let Some(which) = numbered(rule) else {
        return status::BAD_RULE;
    };
    dvd_frame::make_frame(Id::from_word(id), cpr, which, main_data, frame);
    status::OK
}

/// Checks a data frame, and writes its Main Data unscrambled. Its place is area, layer and sector number, which are
/// compared with those of `id`; the other bits of an ID aren't. Where it names another place, `found` is the ID word
/// that it has; else `found` stays. After any cause Main Data stay as they were. The first cause counts: IED, place,
/// EDC.
#[unsafe(no_mangle)]
pub extern "C" fn dvdecc_read_frame(
    frame: &[u8; 2064],
    id: u32,
    rule: u32,
    main_data: &mut [u8; 2048],
    found: &mut u32,
) -> u32
    ensures status { result ≡ reading_status (rule_numbered rule) frame.now id }
    ensures main_data { main_data.new ≡ with_main (rule_numbered rule) frame.now id main_data.old }
    ensures found { found.new ≡ with_found (rule_numbered rule) frame.now id found.old }
{
    let Some(which) = numbered(rule) else {
        return status::BAD_RULE;
    };
    match dvd_frame::read_frame(frame, Id::from_word(id), which, main_data) {
        Ok(()) => status::OK,
        Err(FrameCause::Ied) => status::IED,
        Err(FrameCause::Address { found: word }) => {
            *found = word;
            status::ID
        }
        Err(FrameCause::Edc) => status::EDC,
    }
}

// The rule of a number. The numbers are those of `dvdecc_rule` in dvdecc.h, and callers rest on them. C may
// pass any number, and one that names no rule would be no `Rule`: so a rule isn't a parameter itself.
fn numbered(rule: u32) -> Option<Rule>
    ensures { result ≡ rule_numbered rule }
{
    match rule {
        0 => Some(Rule::Whole),
        1 => Some(Rule::Off),
        2 => Some(Rule::First160),
        _ => None,
    }
}
