//! Sector numbers of a physical format: those of a layout, and three bytes for each. `tactic` says to the prover which
//! definition a proof needs.
ghost use Rattle.std.specs.Prelude.{◌≡◌, ◌+◌, ◌-◌, ◌<◌, ◌≤◌, ◌^◌};
ghost use Rattle.dvd_layout.specs.Lengths.{data_first, padded};
ghost use Rattle.dvd_control.specs.Format.{HasLeadIn, fields_for, number_at, three_bytes};

use byteorder::{BigEndian, ByteOrder};
use dvd_layout::{DATA_FIRST, Layout, Shape};

// The last of `sectors` data sectors, which fill whole ECC blocks from `first` on. Zero sectors fill the last block, so
// the Data Zone ends with it. `first` isn't 0, so that one less than the end is a number even for no sectors. The
// blocks are counted here, since `blocks_of` of dvd_layout isn't public.
fn last_from(first: u32, sectors: u32) -> u32
    requires begins { 0 < first }
    requires ends { first + padded sectors ≤ 2 ^ 24 }
    ensures { result ≡ first + padded sectors - 1 }
{
    first + 16 * sectors.div_ceil(16) - 1
}

// The last sector of the data of layer 0. On the opposite path the format states it by itself too, so `of_layout` calls
// it. Nothing is required, since the ghost fields of a layout bound its ends.
pub(crate) fn last_of_layer_0(layout: &Layout) -> u32
    ensures { result ≡ data_first + padded layout.now.sectors0 - 1 }
{
    last_from(DATA_FIRST, layout.sectors0)
}

// The last sector of the Data Zone that the lead-in of a layer names. On the parallel path each layer has a Data Zone
// of its own. On the opposite path one goes over both. A layer has a lead-in where it is 0, or 1 on the parallel path.
// The clauses `in_data` and `number` are what a format's ghost fields need.
#[tactic(auto, unfolding(crate::specs::Format::fields_for))]
pub(crate) fn last_of(layout: &Layout, layer: u8) -> u32
    requires { HasLeadIn layout.now.shape layer }
    ensures last { result ≡ (fields_for layout.now layer).last }
    ensures in_data { data_first ≤ result }
    ensures number { result < 2 ^ 24 }
{
    match layout.shape {
        Shape::Single => last_of_layer_0(layout),
        Shape::Parallel if layer == 0 => last_of_layer_0(layout),
        // The data of layer 1 begin at `second_first`: 030000 on the parallel path, and on the opposite one the
        // complement of layer 0's last sector number.
        Shape::Parallel | Shape::Opposite => last_from(layout.second_first(), layout.sectors1),
    }
}

// A sector number, the most significant byte first as in the format's sector.
pub(crate) fn three_bytes(number: u32) -> [u8; 3]
    requires { number < 2 ^ 24 }
    ensures { result ≡ three_bytes number }
{
    let mut bytes = [0; 3];
    BigEndian::write_u24(&mut bytes, number);
    bytes
}

// The sector number in three bytes from place `i` on, the most significant byte first. The last of them is byte 2047 at
// most.
pub(crate) fn number_at(bytes: &[u8; 2048], i: usize) -> u32
    requires { i ≤ 2045 }
    ensures value { result ≡ number_at bytes.now i }
    ensures number { result < 2 ^ 24 }
{
    BigEndian::read_u24(&bytes[i..])
}
