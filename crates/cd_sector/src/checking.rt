//! A sector that was read, checked.
ghost use Rattle.std.specs.Prelude.{◌≡◌, ◌≢◌, ◌↔◌, ℕ, ◌<◌, length, slice_index, IfErr, OnOk, IsTrue, IfSome, None};
ghost use Rattle.cd_sector.specs.Causes.{IsCause, IsRightSector, AreRightBelow, found_header, HasRightEdc};
ghost use Rattle.cd_sector.specs.Sector.{header as header_of};
ghost use Rattle.cd_sector.specs.Words.{IsRight};

use crate::edc::edc_of_parts;
use crate::rows::{p_faults, q_faults};
use crate::sector::{SYNC, header};
use crate::words::P_WORDS;
use thiserror::Error;

/// Why a sector isn't right.
#[derive(Clone, Copy, Debug, PartialEq, Eq, Error)]
pub enum CdCause {
    /// Not all words are codewords, and `word` is the least number of one that isn't: P words are 0 to 85, Q words 86
    /// to 137. Eight bits would hold it too.
    #[error("parity {word}")]
    Parity { word: u16 },
    /// Another mode than 1.
    #[error("mode {byte}")]
    Mode { byte: u8 },
    /// Another address: its bytes of minute, second and frame as they were read, the minute highest.
    #[error("address found {found}")]
    Address { found: u32 },
    /// The EDC is wrong.
    #[error("edc")]
    Edc,
}

/// Checks that all words of a sector are codewords, its mode is 1, its address is `address`, and its EDC is right.
/// Returns the first of these that fails as the cause. The sync isn't checked, and the EDC is tested as if the right
/// sync were there. Addresses are below 450,000, as those of `make` are.
/// It is for the C library: `cdread` repairs a sector, and that checks it.
pub fn check(sector: &[u8; 2352], address: u32) -> Result<(), CdCause>
    requires { address < 450000 }
    ensures right { OnOk result (IsRightSector sector.now address) }
    ensures refused { IfErr result (λ cause. IsCause sector.now address cause) }
{
    if let Some(word) = first_wrong_word(sector) {
        return Err(CdCause::Parity { word });
    }
    check_contents(sector, address)
}

/// Likewise for a sector whose words are all codewords. `repair` calls it so, since it has tested the words before. The
/// order of the tests is that of `IsCause`: the contract says which cause is the first.
pub(crate) fn check_contents(sector: &[u8; 2352], address: u32) -> Result<(), CdCause>
    requires address { address < 450000 }
    requires words { AreRightBelow 138 sector.now }
    ensures right { OnOk result (IsRightSector sector.now address) }
    ensures refused { IfErr result (λ cause. IsCause sector.now address cause) }
{
    if sector[15] != 1 {
        return Err(CdCause::Mode { byte: sector[15] });
    }
    if !has_header(sector, address) {
        let found = u32::from_be_bytes([0, sector[12], sector[13], sector[14]]);
        return Err(CdCause::Address { found });
    }
    if !has_right_edc(sector) {
        return Err(CdCause::Edc);
    }
    Ok(())
}

/// The least word that isn't a codeword, if there is one.
pub(crate) fn first_wrong_word(sector: &[u8; 2352]) -> Option<u16>
    ensures some { IfSome result (λ word. (word < 138) × (IsRight sector.now word → ⊥) × AreRightBelow word sector.now) }
    ensures none { result ≡ None → AreRightBelow 138 sector.now }
{
    // P words have the lower numbers. The Q words are gathered and tested only where no P word is wrong.
    if let Some(word) = first_fault(&p_faults(sector)) {
        return Some(word as u16);
    }
    let word = first_fault(&q_faults(sector))?;
    // A Q word's own number is counted from the first Q word on. All numbers are below 138.
    Some((P_WORDS + word) as u16)
}

// The place of the first byte that isn't 0. The loop stops there: a byte for each word is tested, in the words' order.
// `position` of an iterator would do too.
fn first_fault(faults: &[u8]) -> Option<usize>
    ensures some { IfSome result (λ k. (k < length faults.now) × (slice_index faults.now k ≢ 0)
        × ((i : ℕ) → i < k → slice_index faults.now i ≡ 0)) }
    ensures none { result ≡ None → (i : ℕ) → i < length faults.now → slice_index faults.now i ≡ 0 }
{
    for (k, fault) in faults.iter().enumerate() {
        if *fault != 0 {
            return Some(k);
        }
    }
    None
}

// Whether minute, second and frame are those of an address. The bytes are compared, since one that was read need be no
// two decimal digits.
fn has_header(sector: &[u8; 2352], address: u32) -> bool
    requires { address < 450000 }
    ensures { IsTrue result ↔ (found_header sector.now ≡ header_of address) }
{
    sector[12..15] == header(address)[..]
}

// Whether the EDC is right, with the right sync in place of the first twelve bytes. The sync is in no word, so a wrong
// one can't be corrected, and it says nothing of the data.
fn has_right_edc(sector: &[u8; 2352]) -> bool
    ensures { IsTrue result ↔ HasRightEdc sector.now }
{
    sector[2064..2068] == edc_of_parts(&SYNC, &sector[12..2064])[..]
}
