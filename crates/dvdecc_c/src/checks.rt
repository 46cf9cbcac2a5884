//! The codes that detect errors: of data frames (ECMA-267, 16.2 and 16.4) and of CD-ROM sectors (ECMA-130, 14.3). Any
//! bytes have one, so that these calls have no status.
//!
//! The exports are public and keep their names (`no_mangle`), since C finds them by these. To C an array is a pointer,
//! and a slice a pointer and a length. C returns no arrays, so each call writes through a pointer: bytes, in the order
//! in which a frame or a sector has them, so that the byte order of a machine doesn't count.
ghost use Rattle.std.specs.Prelude.{◌≡◌};
ghost use Rattle.cd_sector.specs.Edc.{cd_edc_of};
ghost use Rattle.dvd_frame.specs.Edc.{edc_of};
ghost use Rattle.dvd_frame.specs.Id.{ied_of};

use dvd_frame::Id;

/// Writes the EDC of a data frame's first 2,060 bytes before scrambling, or of any other bytes. An EDC is 32 bits of
/// check, an IED two bytes of parity of the four of an ID.
#[unsafe(no_mangle)]
pub extern "C" fn dvdecc_edc(bytes: &[u8], edc: &mut [u8; 4])
    ensures { edc.new ≡ edc_of bytes.now }
{
    *edc = dvd_frame::edc(bytes);
}

/// Writes the IED of an ID word: the four bytes of an ID as a number, the first one the highest. Any word has one, also
/// one that no disk has.
#[unsafe(no_mangle)]
pub extern "C" fn dvdecc_ied(id: u32, ied: &mut [u8; 2])
    ensures { ied.new ≡ ied_of id }
{
    *ied = dvd_frame::ied(Id::from_word(id));
}

/// Writes the EDC of a CD-ROM sector's first 2,064 bytes, or of any other bytes. It has another call than that of a
/// data frame, since it is another code: another polynomial, and the lowest bit and byte first.
#[unsafe(no_mangle)]
pub extern "C" fn dvdecc_cd_edc(bytes: &[u8], edc: &mut [u8; 4])
    ensures { edc.new ≡ cd_edc_of bytes.now }
{
    *edc = cd_sector::cd_edc(bytes);
}
