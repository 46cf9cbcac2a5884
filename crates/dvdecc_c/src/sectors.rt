//! CD-ROM sectors of Mode 1 (ECMA-130, 14). An address is tested first: two digits of the header have its minute, so
//! there is none beyond 99. It counts from 0; a minute has 60 seconds of 75 sectors. A word is a P word, 0 to 85, or a
//! Q word, 86 to 137. An address that is reported isn't counted so: it is the three bytes of the header as they were
//! read, the minute highest. In the clauses 4 is the status BAD_ADDRESS, and `answered` is what status and number say,
//! as the answer of the crate below.
//!
//! The exports are public and keep their names (`no_mangle`), since C finds them by these. To C an array is a pointer.
//! The crate below requires an address in range; nothing can be required of C, so each call tests it.
ghost use Rattle.std.specs.Prelude.{◌≡◌, ◌<◌, ◌≤◌, ◌≢◌, drop};
ghost use Rattle.coding.specs.Distance.{distance};
ghost use Rattle.cd_sector.specs.Repair.{repaired};
ghost use Rattle.cd_sector.specs.Sector.{IsSector};
ghost use Rattle.dvdecc_c.specs.Sectors.{IsAnswered, address_status, answered, with_number};

use crate::status;
use cd_sector::CdCause;

/// Addresses are below this one, which has minute 100: 100 × 60 × 75.
const ADDRESSES: u32 = 450_000;

/// Writes the sector of an address: sync, header, mode, user data, EDC, eight zeros, P and Q parity. From address
/// 450,000 on the sector stays.
#[unsafe(no_mangle)]
pub extern "C" fn dvdecc_cd_make(address: u32, user: &[u8; 2048], sector: &mut [u8; 2352]) -> u32
    ensures status { result ≡ address_status address }
    ensures sector { address < 450000 → IsSector address user.now sector.new }
    ensures same { 450000 ≤ address → sector.new ≡ sector.old }
{
    if address >= ADDRESSES {
        return status::BAD_ADDRESS;
    }
    cd_sector::make(address, user, sector);
    status::OK
}

/// Tests a sector that was read. Where something is wrong, `number` is the word, the mode or the address that is. The
/// first thing that is wrong counts, in this order, and a wrong EDC last. The sector stays. The sync isn't tested, and
/// the EDC is as if the right one were there.
#[unsafe(no_mangle)]
pub extern "C" fn dvdecc_cd_check(sector: &[u8; 2352], address: u32, number: &mut u32) -> u32
    ensures refused { 450000 ≤ address → result ≡ 4 }
    ensures answered { address < 450000 → IsAnswered sector.now address (answered result number.new) }
    ensures number { number.new ≡ with_number result number.new number.old }
{
    if address >= ADDRESSES {
        return status::BAD_ADDRESS;
    }
    match cd_sector::check(sector, address) {
        Ok(()) => status::OK,
        Err(cause) => report_cause(cause, number),
    }
}

/// Repairs a sector that was read: by its P and Q parity, and its sync is set. Where it is right then, `number` is how
/// many bytes after the sync changed. Else the sector is as it was, and `number` is the word, the mode or the address
/// that is still wrong. The sync isn't counted, since no parity is over it.
#[unsafe(no_mangle)]
pub extern "C" fn dvdecc_cd_repair(sector: &mut [u8; 2352], address: u32, number: &mut u32) -> u32
    ensures refused { 450000 ≤ address → result ≡ 4 }
    ensures answered { address < 450000 → IsAnswered (repaired sector.old) address (answered result number.new) }
    ensures repaired { result ≡ 0 → sector.new ≡ repaired sector.old }
    ensures changes { result ≡ 0 → number.new ≡ distance (drop 12 sector.old) (drop 12 sector.new) }
    ensures number { result ≢ 0 → number.new ≡ with_number result number.new number.old }
    ensures same { result ≢ 0 → sector.new ≡ sector.old }
{
    if address >= ADDRESSES {
        return status::BAD_ADDRESS;
    }
    match cd_sector::repair(sector, address) {
        Ok(changes) => {
            *number = u32::from(changes);
            status::OK
        }
        Err(cause) => report_cause(cause, number),
    }
}

// The status of a cause, and its number where it has one: the first word, the mode or the address that is wrong. A
// wrong EDC has no number, and leaves the caller's. Both calls answer by it, so that a cause has one status.
fn report_cause(cause: CdCause, number: &mut u32) -> u32
    ensures reported { answered result number.new ≡ Some (Some cause) }
    ensures number { number.new ≡ with_number result number.new number.old }
    ensures wrong { result ≢ 0 }
{
    match cause {
        CdCause::Parity { word } => {
            *number = u32::from(word);
            status::CD_PARITY
        }
        CdCause::Mode { byte } => {
            *number = u32::from(byte);
            status::CD_MODE
        }
        CdCause::Address { found } => {
            *number = found;
            status::CD_ADDRESS
        }
        CdCause::Edc => status::CD_EDC,
    }
}
