//! A zone: ECC blocks of one kind, one after the other.
ghost use Rattle.std.specs.Prelude.{◌≡◌, ◌<◌, length, Some, slice_get, All};
ghost use Rattle.std.specs.List.{flat_map};
ghost use Rattle.dvd_layout.specs.Plan.{entry_of, entries_of, zone_of};
ghost use Rattle.dvd_layout.specs.Inner.Ranges.{IsInRange};

use crate::entry::{BlockPlan, Content};
use dvd_frame::Area;

/// A zone of a layer: its first sector number, its length in ECC blocks, and what it holds.
/// The image sector of its content is the first of its first block. A zone may have no blocks. It is public since the
/// definition of a plan names it; no public call returns one.
#[derive(Clone, Copy, Debug, PartialEq, Eq)]
pub struct Zone {
    /// The number of its first sector.
    pub first: u32,
    /// The number of its ECC blocks.
    pub blocks: u32,
    /// The area that the IDs of its frames name.
    pub area: Area,
    /// Its layer, 0 or 1.
    pub layer: u8,
    /// What its first block holds.
    pub content: Content,
}

// An empty zone fills the unused places of a table, for which `ArrayVec` needs a default. Nobody reads it.
impl Default for Zone {
    fn default() -> Zone
        ensures { result ≡ zone_of 0 0 Area.DataZone 0 Content.Zero }
    {
        Zone {
            first: 0,
            blocks: 0,
            area: Area::DataZone,
            layer: 0,
            content: Content::Zero,
        }
    }
}

impl Zone {
    /// Block `b` of the zone, counted from 0. A block has sixteen sectors. `numbers` leaves room for its sector
    /// numbers.
    pub(crate) fn entry(&self, b: u32) -> BlockPlan
        requires block { b < self.now.blocks }
        requires numbers { IsInRange self.now }
        ensures { result ≡ entry_of self.now b }
    {
        BlockPlan {
            first: self.first + 16 * b,
            area: self.area,
            layer: self.layer,
            content: self.content.at_block(b),
        }
    }
}

/// The number of blocks of these zones. That they are few, and their sector numbers have 24 bits, leaves room for the
/// sum, which has the 64 bits of `Layout::blocks`. A table has at most fourteen, and each at most 2^20 blocks: any
/// small number would do in place of 16.
pub(crate) fn count_blocks(zones: &[Zone]) -> u64
    requires few { length zones.now < 16 }
    requires numbers { All IsInRange zones.now }
    ensures { result ≡ length (flat_map entries_of zones.now) }
{
    let mut blocks = 0;
    for zone in zones {
        blocks += zone.blocks as u64;
    }
    blocks
}

/// Block `k` of these zones, counted from the first block of the first zone. A zone without blocks is passed over. The
/// clause `numbers` leaves room for the sector numbers of the entry. There are at most fourteen zones to look through.
pub(crate) fn block_at(zones: &[Zone], k: u64) -> BlockPlan
    requires block { k < length (flat_map entries_of zones.now) }
    requires numbers { All IsInRange zones.now }
    ensures { slice_get (flat_map entries_of zones.now) k ≡ Some result }
{
    // What is left of `k` once the blocks of the zones before are taken off.
    let mut left = k;
    for zone in zones {
        if left < zone.blocks as u64 {
            return zone.entry(left as u32);
        }
        left -= zone.blocks as u64;
    }
    // The contract has `k` below the number of blocks, so a zone was found.
    unreachable!()
}
