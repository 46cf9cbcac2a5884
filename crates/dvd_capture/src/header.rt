//! The header of a listed capture, which states the layout of the disk. It has the letters and the number of the form
//! in bytes 0 to 7, the shape in 8, the zones in 9, four numbers of four bytes from 12 on, and zeros elsewhere. Numbers
//! have their most significant byte first. All of it is a choice of this program: no standard has such a form. `tactic`
//! says to the prover which definitions a proof needs.
ghost use Rattle.std.specs.Prelude.{◌≡◌, ◌+◌, ◌<◌, ◌≤◌, [], ◌∷◌, slice_index, IfOk, Err};
ghost use Rattle.std.specs.Int.{from_be_bytes, w32};

use byteorder::{BigEndian, ByteOrder};
use thiserror::Error;

/// What a header states, by its numbers: the shape (0 single, 1 parallel, 2 opposite), the zones (0 data, 1 all), and,
/// in sectors or blocks, the lengths of both layers, of the initial zone and of the tail. Whether a disk may have such
/// lengths isn't known here: this crate doesn't use dvd_layout.
#[derive(Clone, Copy, Debug, PartialEq, Eq)]
pub struct Header {
    pub shape: u8,
    pub zones: u8,
    pub sectors0: u32,
    pub sectors1: u32,
    pub initial: u32,
    pub tail: u32,
    pub ghost known_shape: { shape < 3 },
    pub ghost known_zones: { zones < 2 },
}

/// Why 32 bytes are no header.
#[derive(Clone, Copy, Debug, PartialEq, Eq, Error)]
pub enum HeaderFault {
    /// The first byte that no header has there.
    #[error("place {at}")]
    Place { at: u8 },
}

// The letters DVDECC, and the number of the form in two bytes, which is 2. Any other letters and number would do, but
// captures that were written have these.
const INITIAL: [u8; 8] = [0x44, 0x56, 0x44, 0x45, 0x43, 0x43, 0, 2];

impl Header {
    ghost use Rattle.std.specs.Prelude.{ℕ};
    ghost use Rattle.dvd_capture.specs.declared.header.HeaderFault.TheVariants.{Place};
    ghost use Rattle.dvd_capture.specs.Header.{IsFirstWrongByte, IsHeader, header_bytes, may_be_there};

    /// Writes the 32 bytes, whatever they were.
    #[tactic(auto, unfolding(crate::specs::Header::header_bytes))]
    pub fn to_bytes(&self, out: &mut [u8; 32])
        ensures { out.new ≡ header_bytes self.now }
    {
        // Bytes that no field uses are 0.
        *out = [0; 32];
        out[..8].copy_from_slice(&INITIAL);
        out[8] = self.shape;
        out[9] = self.zones;
        BigEndian::write_u32(&mut out[12..], self.sectors0);
        BigEndian::write_u32(&mut out[16..], self.sectors1);
        BigEndian::write_u32(&mut out[20..], self.initial);
        BigEndian::write_u32(&mut out[24..], self.tail);
    }

    /// Reads 32 bytes, or answers the first byte that no header has there.
    pub fn from_bytes(bytes: &[u8; 32]) -> Result<Header, HeaderFault>
        ensures valid { IfOk result (λ header. IsHeader bytes.now) }
        ensures fields { IfOk result (λ header. header_bytes header ≡ bytes.now) }
        ensures refused { (at : ℕ) → result ≡ Err (Place at) → IsFirstWrongByte bytes.now at }
    {
        // Byte by byte from the first on, so that the first wrong one is reported. Whatever passes is a header, so the
        // fields need no test: that shape and zones are known is proved of bytes 8 and 9.
        for (at, byte) in bytes.iter().enumerate() {
            if !Header::is_allowed(at, *byte) {
                return Err(HeaderFault::Place { at: at as u8 });
            }
        }
        Ok(Header {
            shape: bytes[8],
            zones: bytes[9],
            sectors0: number_at(bytes, 12),
            sectors1: number_at(bytes, 16),
            initial: number_at(bytes, 20),
            tail: number_at(bytes, 24),
        })
    }

    // Whether a header may have this byte at a place. A byte that no field uses is 0. The bytes of numbers are free:
    // whether a disk may have such lengths is asked where layouts are known. There are three shapes and two zones.
    #[tactic(auto, unfolding(crate::specs::Header::may_be_there))]
    fn is_allowed(place: usize, byte: u8) -> bool
        requires { place < 32 }
        ensures { result ≡ may_be_there place byte }
    {
        match place {
            0..=7 => byte == INITIAL[place],
            8 => byte < 3,
            9 => byte < 2,
            10..=11 | 28.. => byte == 0,
            _ => true,
        }
    }
}

// The number in four bytes from a place on. What comes after these isn't read.
fn number_at(bytes: &[u8; 32], at: usize) -> u32
    requires { at ≤ 28 }
    ensures { result
        ≡ from_be_bytes w32 (slice_index bytes.now at ∷ slice_index bytes.now (at + 1) ∷ slice_index bytes.now (at + 2) ∷ slice_index bytes.now (at + 3) ∷ []) }
{
    BigEndian::read_u32(&bytes[at..])
}
