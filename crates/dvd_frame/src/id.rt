//! The ID of a data frame (ECMA-267, 16.1): four bytes that name the place of a sector on the disk.
ghost use Rattle.std.specs.Prelude.{◌≡◌, ℕ, ◌/◌, ◌%◌, ◌^◌, ◌<◌, ◌↔◌, IsTrue};
ghost use Rattle.dvd_frame.specs.Id.{area_number, id_word, word_bytes, IsSamePlace};

use byteorder::{BigEndian, ByteOrder};
use std::marker::Model;

/// The bits that two IDs of the same place share: those of area, layer and sector number. The other bits don't name a
/// place: a disk that sets them otherwise is still read.
const PLACE_BITS: u32 = 0x0DFF_FFFF;

/// The part of the disk that a sector belongs to, b27 and b26 of its ID: 0 to 3 in this order.
#[derive(Clone, Copy, Debug, PartialEq, Eq)]
pub enum Area {
    DataZone,
    LeadIn,
    LeadOut,
    Middle,
}

/// The word of 32 bits that identifies a sector. Contracts see it as a number. Any word is an ID: one that was read may
/// have bits that no place has. `inverse` gets the word back from the number: the prover needs it for `Copy` and `==`.
#[derive(Clone, Copy, Debug, PartialEq, Eq)]
pub struct Id(u32);

impl Model for Id {
    ghost Value = { ℕ };

    ghost view = { λ id. id.0 };

    ghost inverse = { λ word. record { 0 = word } };
}

impl Id {
    /// The ID of a sector of a read-only disk. `dim` sets b29, as a disk of two layers has it;
    /// format type, tracking and reserved bits are 0. The number has 24 bits of the word, and one bit is the layer.
    pub fn new(area: Area, layer: u8, dim: bool, number: u32) -> Id
        requires layer { layer < 2 }
        requires number { number < 2 ^ 24 }
        ensures { result ≡ id_word area layer dim number }
    {
        let area_bits = match area {
            Area::DataZone => 0,
            Area::LeadIn => 1 << 26,
            Area::LeadOut => 2 << 26,
            Area::Middle => 3 << 26,
        };
        // The fields have no bit in common, so that they can be added up, as the definition does: a product and sums,
        // where shifts and ORs would do too.
        let dim_bit = if dim { 1 << 29 } else { 0 };
        Id(dim_bit + area_bits + u32::from(layer) * (1 << 24) + number)
    }

    /// The ID of a word as it is on a disk; all 32 bits are kept. So a cause can report it as it was read.
    pub fn from_word(word: u32) -> Id
        ensures { result ≡ word }
    {
        Id(word)
    }

    /// The word.
    pub fn word(self) -> u32
        ensures { result ≡ self }
    {
        self.0
    }

    /// The four bytes of the word, the most significant first, as a frame begins. `to_be_bytes` would do too.
    pub fn bytes(self) -> [u8; 4]
        ensures { result ≡ word_bytes self }
    {
        let mut bytes = [0; 4];
        BigEndian::write_u32(&mut bytes, self.0);
        bytes
    }

    /// The area that b27 and b26 name. It is for the C library, where a block is read by an ID.
    pub fn area(self) -> Area
        ensures { area_number result ≡ self / 2 ^ 26 % 4 }
    {
        match self.0 >> 26 & 3 {
            0 => Area::DataZone,
            1 => Area::LeadIn,
            2 => Area::LeadOut,
            // Two bits are left, so this is 3.
            _ => Area::Middle,
        }
    }

    /// The layer, b24.
    pub fn layer(self) -> u8
        ensures { result ≡ self / 2 ^ 24 % 2 }
    {
        (self.0 >> 24 & 1) as u8
    }

    /// The sector number, b23 to b0.
    pub fn number(self) -> u32
        ensures { result ≡ self % 2 ^ 24 }
    {
        self.0 & 0xFF_FFFF
    }

    /// Whether both name the same area, layer and sector number. The other bits aren't compared, so that `==` is
    /// stricter.
    pub fn same_place(self, other: Id) -> bool
        ensures { IsTrue result ↔ IsSamePlace self other }
    {
        self.0 & PLACE_BITS == other.0 & PLACE_BITS
    }
}
