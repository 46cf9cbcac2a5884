//! The physical format of a disk, as it is in the Control Data Zone. In contracts a format is plain numbers:
//! `fields_of` those of a value, `fields_for` those that the lead-in of a layer has, and `fields_in` those that a
//! sector states. `tactic` says to the prover which lemmas and definitions a proof needs.
ghost use Rattle.std.specs.Prelude.{◌≡◌, ◌+◌, ◌-◌, ◌<◌, ◌≤◌, ◌^◌, None, Some, IfErr, IfOk};
ghost use Rattle.dvd_layout.specs.Lengths.{data_first};

use crate::numbers::{last_of, last_of_layer_0, number_at, three_bytes};
use dvd_layout::{DATA_FIRST, Layout};
use thiserror::Error;

/// What the physical format says of a disk: version of the format, maximum rate, layers and track path, kind of the
/// layers, channel bit length and track pitch by their numbers, the first and the last sector of the Data Zone, the
/// last one of layer 0 on the opposite track path, and whether there is a burst cutting area.
#[derive(Clone, Copy, Debug, PartialEq, Eq)]
pub struct PhysicalFormat {
    /// The version of the format, below 16; 1 is the first.
    pub version: u8,
    /// The maximum rate of the channel by its number, below 16: 0 is 2.52 Mbit/s, 1 is 5.04, 2 is 10.08.
    pub rate: u8,
    /// Whether the disk has two layers.
    pub two_layers: bool,
    /// Whether layer 1 goes on where layer 0 ends.
    pub opposite: bool,
    /// The kind of the layers, below 16, a bit for each: 1 has embossed data, 2 a recordable and 4 a rewritable area.
    pub kind: u8,
    /// The length of a channel bit by its number, below 16: 0 is 0.133 micrometres, 1 is 0.147.
    pub density: u8,
    /// The distance of two tracks by its number, below 16: 0 is 0.74 micrometres.
    pub pitch: u8,
    /// The first sector of the Data Zone, 030000; `info` prints it.
    pub first: u32,
    /// The last sector of the Data Zone, a number of 24 bits.
    pub last: u32,
    /// The last sector of layer 0 on the opposite track path, or 0.
    pub layer0_last: u32,
    /// Whether there is a burst cutting area.
    pub bca: bool,
    /// The version has four bits.
    pub ghost small_version: { version < 16 },
    /// The rate has four bits.
    pub ghost small_rate: { rate < 16 },
    /// The kind has four bits.
    pub ghost small_kind: { kind < 16 },
    /// The number of the channel bit length has four bits.
    pub ghost small_density: { density < 16 },
    /// The number of the track pitch has four bits.
    pub ghost small_pitch: { pitch < 16 },
    /// The Data Zone begins at 030000.
    pub ghost begins: { first ≡ data_first },
    /// It ends no earlier than it begins.
    pub ghost ends: { first ≤ last },
    /// Its last sector number has 24 bits.
    pub ghost last_number: { last < 2 ^ 24 },
    /// The last sector number of layer 0 has 24 bits too.
    pub ghost layer0_number: { layer0_last < 2 ^ 24 },
}

/// The first rule that a physical format sector breaks.
#[derive(Clone, Copy, Debug, PartialEq, Eq, Error)]
pub enum ControlFault {
    /// The disk isn't a read-only disk.
    #[error("category {byte}")]
    Category { byte: u8 },
    /// The disk isn't one of 120 mm.
    #[error("size {byte}")]
    Size { byte: u8 },
    /// The disk has neither one layer nor two.
    #[error("layers {byte}")]
    Layers { byte: u8 },
    /// The Data Zone doesn't begin at 030000, or ends before it begins.
    #[error("range {first} {last}")]
    Range { first: u32, last: u32 },
}

impl PhysicalFormat {
    ghost use Rattle.std.specs.Prelude.{◌⊎◌};
    ghost use Rattle.dvd_layout.specs.declared.layout.Shape.TheVariants.{Parallel};
    ghost use Rattle.dvd_control.specs.Format.{HasLeadIn, control_fault, fields_for, fields_in, fields_of, format_bytes, head_bytes};

    /// The physical format in the lead-in of this layer of a disk. Layer 1 has a lead-in on the parallel path alone. A
    /// disk with two layers has longer channel bits: 0.147 micrometres. What a layout doesn't state is the same on each
    /// disk that is made: the version, the rate, embossed data, tracks 0.74 micrometres apart, no burst cutting area.
    /// Nothing is decided by these; `info` prints them.
    #[tactic(auto, unfolding(crate::specs::Format::fields_for))]
    pub fn of_layout(layout: &Layout, layer: u8) -> PhysicalFormat
        requires { HasLeadIn layout.now.shape layer }
        ensures { fields_of result ≡ fields_for layout.now layer }
    {
        let two_layers = layout.shape.has_two_layers();
        let opposite = layout.shape.is_opposite();
        PhysicalFormat {
            version: VERSION,
            rate: RATE_10_08,
            two_layers,
            opposite,
            kind: READ_ONLY,
            density: if two_layers { 1 } else { 0 },
            pitch: 0,
            first: DATA_FIRST,
            last: last_of(layout, layer),
            layer0_last: if opposite { last_of_layer_0(layout) } else { 0 },
            bca: false,
        }
    }

    /// Writes the sector of this format: 17 bytes, and then zeros. It is written where the caller has
    /// the Main Data of a frame, without a copy.
    #[tactic(auto, unfolding(crate::specs::Format::format_bytes))]
    pub fn to_bytes(&self, out: &mut [u8; 2048])
        ensures { out.new ≡ format_bytes (fields_of self.now) }
    {
        *out = [0; 2048];
        out[..17].copy_from_slice(&self.head());
    }

    // Its 17 bytes. Before each sector number, three bytes, comes one that is 0. The upper halves of bytes 0 and 1 are
    // 0: a read-only disk, of 120 mm. The parts of a byte have bits of their own, since the ghost fields bound them: so
    // a sum puts them together, as in the definition.
    fn head(&self) -> [u8; 17]
        ensures { result ≡ head_bytes (fields_of self.now) }
    {
        // Byte 2 has one less than the number of layers in bits 6 and 5, the track path in bit 4, and the kind below.
        // In the names of bytes 2 is the most significant.
        let layers = if self.two_layers { 32 } else { 0 };
        let path = if self.opposite { 16 } else { 0 };
        let [first2, first1, first0] = three_bytes(self.first);
        let [last2, last1, last0] = three_bytes(self.last);
        let [layer2, layer1, layer0] = three_bytes(self.layer0_last);
        [
            self.version,
            self.rate,
            layers + path + self.kind,
            16 * self.density + self.pitch,
            0,
            first2,
            first1,
            first0,
            0,
            last2,
            last1,
            last0,
            0,
            layer2,
            layer1,
            layer0,
            if self.bca { 128 } else { 0 },
        ]
    }

    /// The format in bytes 0 to 16 of a sector, or the first rule that these break. The rest of the sector isn't read.
    /// Reserved bits are passed over. Whether the track path and the last sector of layer 0 fit the layers isn't
    /// tested.
    #[tactic(auto, using(std::proofs::lemmas::Bool::Decides::nat_tests), unfolding(crate::specs::Format::control_fault, crate::specs::Format::fields_in))]
    pub fn from_bytes(bytes: &[u8; 2048]) -> Result<PhysicalFormat, ControlFault>
        ensures refused { IfErr result (λ fault. control_fault bytes.now ≡ Some fault) }
        ensures valid { IfOk result (λ format. control_fault bytes.now ≡ None) }
        ensures fields { IfOk result (λ format. fields_of format ≡ fields_in bytes.now) }
    {
        // The upper four bits of byte 0 are the category, and those of byte 1 the size; both have to be 0. So after
        // their tests these bytes are the version and the rate. The rules are tried in the order of the bytes, and
        // faults have whole bytes as they were read. `head` says what the bits of a byte are.
        if bytes[0] > 15 {
            return Err(ControlFault::Category { byte: bytes[0] });
        }
        if bytes[1] > 15 {
            return Err(ControlFault::Size { byte: bytes[1] });
        }
        // One less than the number of layers.
        let layers = bytes[2] / 32 % 4;
        if layers > 1 {
            return Err(ControlFault::Layers { byte: bytes[2] });
        }
        let first = number_at(bytes, 5);
        let last = number_at(bytes, 9);
        if first != DATA_FIRST || last < first {
            return Err(ControlFault::Range { first, last });
        }
        Ok(PhysicalFormat {
            version: bytes[0],
            rate: bytes[1],
            two_layers: layers == 1,
            opposite: bytes[2] / 16 % 2 == 1,
            kind: bytes[2] % 16,
            density: bytes[3] / 16,
            pitch: bytes[3] % 16,
            first,
            last,
            layer0_last: number_at(bytes, 13),
            bca: bytes[16] / 128 == 1,
        })
    }
}

// The version of the format that `of_layout` names, the first one.
const VERSION: u8 = 1;

// The number of the maximum rate 10.08 Mbit/s, the highest of the three that have numbers here.
const RATE_10_08: u8 = 2;

// The kind of a layer of embossed data.
const READ_ONLY: u8 = 1;
