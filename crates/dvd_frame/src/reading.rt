//! A data frame that was read: its checks, and its Main Data unscrambled (ECMA-267, 16 and 17). `tactic` says to the
//! prover which lemmas and definitions a proof needs; it changes nothing of the code.
ghost use Rattle.std.specs.Prelude.{◌≡◌, ◌≤◌, ◌++◌, None, Some, length, take, drop, IfErr, OnOk};
ghost use Rattle.std.specs.Str.{bytes_eq};
ghost use Rattle.dvd_frame.specs.Edc.{edc_of};
ghost use Rattle.dvd_frame.specs.Frame.{IsFrameRead, found_word, frame_cause, main_in};
ghost use Rattle.dvd_frame.specs.Scrambling.{masked};
ghost use Rattle.dvd_frame.specs.Id.{has_check};

use crate::checks::edc_of_parts;
use crate::id::Id;
use crate::scrambling::{Rule, Scrambler, scramble_into};
use byteorder::{BigEndian, ByteOrder};
use rs_code::Ied;
use thiserror::Error;

/// Why a frame isn't the one that is wanted.
#[derive(Clone, Copy, Debug, PartialEq, Eq, Error)]
pub enum FrameCause {
    /// ID and IED aren't a codeword.
    #[error("ied")]
    Ied,
    /// The ID names another place; its word is given as it was read.
    #[error("address {found}")]
    Address { found: u32 },
    /// The EDC of the unscrambled frame is wrong.
    #[error("edc")]
    Edc,
}

/// Checks a frame, and writes its unscrambled Main Data to `out`. The frame has to have a right IED, the area, the
/// layer and the sector number of `want`, and a right EDC; the first that it lacks is answered, and `out` is then
/// unchanged. CPR_MAI isn't looked at but by the EDC. This is the call of the C library.
pub fn read_frame(
    frame: &[u8; 2064],
    want: Id,
    rule: Rule,
    out: &mut [u8; 2048],
) -> Result<(), FrameCause>
    ensures { IsFrameRead frame.now want rule out.old out.new result }
{
    // Read apart and then moved, since `out` stays as it is after a cause.
    let mut main = [0; 2048];
    read_frame_into(&mut Scrambler::new(), frame, want, rule, &mut main)?;
    *out = main;
    Ok(())
}

/// Reads a frame as `read_frame` does, straight into `out`: what that is after a cause isn't said. So nothing is copied
/// for a caller that blanks `out` itself. The scrambling bytes are kept from one frame to the next; those that are
/// there make no difference to what is answered.
#[tactic(auto, using(std::proofs::lemmas::Bool::Decides::nat_tests), unfolding(crate::specs::Frame::frame_cause))]
pub fn read_frame_into(
    scrambler: &mut Scrambler,
    frame: &[u8; 2064],
    want: Id,
    rule: Rule,
    out: &mut [u8; 2048],
) -> Result<(), FrameCause>
    ensures refused { IfErr result (λ cause. frame_cause frame.now want rule ≡ Some cause) }
    ensures right { OnOk result (frame_cause frame.now want rule ≡ None) }
    ensures main { OnOk result (out.new ≡ main_in frame.now rule) }
{
    // In this order: a wrong ID names no place, and the ID selects the scrambling bytes without which the EDC means
    // nothing. Once it names the place of `want`, both select the same.
    if !has_right_ied(frame) {
        return Err(FrameCause::Ied);
    }
    let id = found_id(frame);
    if !id.same_place(want) {
        return Err(FrameCause::Address { found: id.word() });
    }
    unscramble(scrambler, frame, id, rule, out);
    if !has_right_edc(frame, out) {
        return Err(FrameCause::Edc);
    }
    Ok(())
}

/// The ID that bytes begin with, as it was read. It is public for dvd_assemble, which looks at the first row of a
/// recording frame: a slice, so that a row or a frame will do.
pub fn found_id(bytes: &[u8]) -> Id
    requires { 4 ≤ length bytes.now }
    ensures { result ≡ found_word bytes.now }
{
    Id::from_word(BigEndian::read_u32(bytes))
}

/// Whether the first six bytes are an ID with its right check. The two bytes could correct one of the ID, but that
/// would hide that the frame is another one. It is public for dvd_assemble too.
pub fn has_right_ied(bytes: &[u8]) -> bool
    requires { 6 ≤ length bytes.now }
    ensures { result ≡ has_check (take 6 bytes.now) }
{
    // The test is of an array of six, so they are copied out of the row or the frame.
    let mut word = [0; 6];
    word.copy_from_slice(&bytes[..6]);
    Ied::new().is_codeword(&word)
}

// Sets Main Data to the frame's, bytes 12 to 2059, with the scrambling bytes of this ID taken away.
fn unscramble(
    scrambler: &mut Scrambler,
    frame: &[u8; 2064],
    id: Id,
    rule: Rule,
    main: &mut [u8; 2048],
)
    ensures { main.new ≡ masked id rule (take 2048 (drop 12 frame.now)) }
{
    scramble_into(scrambler, rule, id, &frame[12..2060], main);
}

// Whether the last four bytes are the EDC of the first twelve and of the unscrambled Main Data.
fn has_right_edc(frame: &[u8; 2064], main: &[u8; 2048]) -> bool
    ensures { result ≡ bytes_eq (drop 2060 frame.now) (edc_of (take 12 frame.now ++ main.now)) }
{
    frame[2060..] == edc_of_parts(&frame[..12], main)[..]
}
