//! The zone table of a layout (ECMA-267, section 5) and its plan, entry by entry. The table lists the zones in the
//! order of a stream, and the plan is the list of their blocks. No list of blocks is kept: an entry is found by the
//! table.
ghost use Rattle.std.specs.Prelude.{◌≡◌, ◌+◌, ◌*◌, ◌^◌, ◌<◌, ◌≤◌, ◌++◌, length, Some, slice_get};
ghost use Rattle.arrayvec.specs.ArrayVec.{array_vec_len};
ghost use Rattle.dvd_layout.specs.Lengths.{blocks_of, most_initial};
ghost use Rattle.dvd_layout.specs.Plan.{zone_after, first_data, inside_out, lead_in, lead_in_blocks, out_and_in, plan_of, second_data, second_first, zone_of, zone_table, zones_by};

use crate::entry::{BlockPlan, Content};
use crate::layout::{Layout, Shape, Zones, blocks_of};
use crate::zone::{Zone, block_at, count_blocks};
use arrayvec::ArrayVec;
use dvd_frame::Area;

/// The first sector number of the Data Zone of a layer that is read from the inside.
pub const DATA_FIRST: u32 = 0x03_0000;

// On the opposite track path the data of layer 1 begin as far before this number as layer 0 has sectors, in whole
// blocks: at the complement of layer 0's last data sector.
const SECOND_END: u32 = 0xFD_0000;

// The most zones that a disk has: seven for each layer on the parallel track path. A `room` clause below is this number
// less those that the function adds.
type ZoneTable = ArrayVec<Zone, 14>;

impl Layout {
    /// The number of ECC blocks in a stream of these zones. It is far below 2^32, since sector numbers have 24 bits: so
    /// callers may cast it to 32 bits, and 64 are a choice.
    pub fn blocks(&self, zones: Zones) -> u64
        ensures { result ≡ length (plan_of self.now zones) }
    {
        count_blocks(&self.zone_table(zones))
    }

    /// Entry `k` of the plan of these zones. Each call lists the zones anew: `zone_table` says why.
    pub fn plan(&self, zones: Zones, k: u64) -> BlockPlan
        requires { k < length (plan_of self.now zones) }
        ensures { slice_get (plan_of self.now zones) k ≡ Some result }
    {
        block_at(&self.zone_table(zones), k)
    }

    // The zones that a stream holds, in order.
    // They are listed anew for each block, on the stack: a stored list would have to agree with the layout, and each
    // clause that names a layout would have to say so.
    fn zone_table(&self, zones: Zones) -> ZoneTable
        ensures { result.items ≡ zone_table self.now zones }
    {
        match zones {
            Zones::DataOnly => self.data_zones(),
            Zones::All => self.all_zones(),
        }
    }

    // Every zone, in the order in which a stream has them: layer 0 from its lead-in outwards, and then layer 1 as it is
    // read. Only on the parallel path layer 1 is a layer like layer 0.
    fn all_zones(&self) -> ZoneTable
        ensures { result.items ≡ zones_by self.now self.now.shape }
    {
        let mut table = ArrayVec::new();
        match self.shape {
            Shape::Single => self.push_layer(&mut table, self.first_data()),
            Shape::Parallel => {
                self.push_layer(&mut table, self.first_data());
                self.push_layer(&mut table, self.second_data());
            }
            Shape::Opposite => self.push_opposite(&mut table),
        }
        table
    }

    // The Data Zones alone, in the order of the image. The definition picks them from all zones; here no others are
    // made.
    fn data_zones(&self) -> ZoneTable
        ensures { result.items ≡ zone_table self.now Zones.DataOnly }
    {
        let mut table = ArrayVec::new();
        table.push(self.first_data());
        if self.shape.has_two_layers() {
            table.push(self.second_data());
        }
        table
    }

    // Adds a layer that is read from the inside, with this Data Zone: seven zones, five of them the lead-in. The clause
    // `numbers` leaves room in 32 bits for the sum in `zone_after`.
    fn push_layer(&self, table: &mut ZoneTable, image: Zone)
        requires room { array_vec_len table.old ≤ 7 }
        requires numbers { image.first + 16 * image.blocks < 2 ^ 32 }
        ensures items { table.new.items ≡ table.old.items ++ inside_out self.now image }
        ensures len { array_vec_len table.new ≡ array_vec_len table.old + 7 }
    {
        push_lead_in(table, self.initial, image.layer);
        table.push(image);
        table.push(zone_after(&image, self.tail, Area::LeadOut));
    }

    // Adds both layers of the opposite track path. Layer 1 is read inwards from where layer 0 ended: its middle zone
    // comes before its data, with the numbers just below theirs, and it has no lead-in of its own. That zone begins at
    // 800000 or above: layer 0 and its own middle zone end at 800000 at the latest, and these are the same lengths. So
    // the difference below can't be negative.
    fn push_opposite(&self, table: &mut ZoneTable)
        requires room { array_vec_len table.old ≤ 4 }
        requires shape { self.now.shape ≡ Shape.Opposite }
        ensures items { table.new.items ≡ table.old.items ++ out_and_in self.now }
        ensures len { array_vec_len table.new ≡ array_vec_len table.old + 10 }
    {
        let first = self.first_data();
        let second = self.second_data();
        push_lead_in(table, self.initial, 0);
        table.push(first);
        table.push(zone_after(&first, self.tail, Area::Middle));
        table.push(zeros(second.first - 16 * self.tail, self.tail, Area::Middle, 1));
        table.push(second);
        table.push(zone_after(&second, self.tail, Area::LeadOut));
    }

    // The Data Zone of layer 0, with the image from its first sector on.
    fn first_data(&self) -> Zone
        ensures { result ≡ first_data self.now }
    {
        data_zone(DATA_FIRST, self.sectors0, 0, 0)
    }

    // The Data Zone of layer 1, where the image goes on. It is of a disk with two layers: callers ask for the shape.
    fn second_data(&self) -> Zone
        ensures { result ≡ second_data self.now }
    {
        data_zone(self.second_first(), self.sectors1, 1, self.sectors0)
    }

    /// The sector number where the data of layer 1 begin. On a disk of one layer it means nothing: `sectors1`
    /// is 0 there. It is public for dvd_control, which writes the last sector number of the data into the lead-in.
    pub fn second_first(&self) -> u32
        ensures { result ≡ second_first self.now }
    {
        // The complement of a number is FFFFFF less it. The last data sector of layer 0 is 02FFFF plus its sectors in
        // whole blocks, so the complement is FD0000 less these.
        if self.shape.is_opposite() {
            SECOND_END - 16 * blocks_of(self.sectors0)
        } else {
            DATA_FIRST
        }
    }
}

/// Block `k` of the lead-in of layer 0, with an Initial Zone of `initial` ECC blocks. After that zone come the
/// reference code, a buffer zone, the control data and another buffer zone, 256 blocks in all.
/// It is for `info`, which knows no layout yet. The plan of every layout begins with these blocks, by a law. `k` has 32
/// bits, since a lead-in has at most 12,287 blocks.
pub fn lead_in_block(initial: u32, k: u32) -> BlockPlan
    requires initial { initial ≤ most_initial }
    requires block { k < initial + 256 }
    ensures { slice_get (lead_in_blocks initial) k ≡ Some result }
{
    let mut table = ZoneTable::new();
    push_lead_in(&mut table, initial, 0);
    block_at(&table, u64::from(k))
}

// Adds the zones of the lead-in of a layer. All sector numbers but the first are the standard's: a longer Initial Zone
// begins earlier. The zones are the Initial Zone, the Reference Code Zone of 2 blocks, Buffer Zone 1 of 30, the Control
// Data Zone of 192 and Buffer Zone 2 of 32: the last ends where the data begin, at 030000.
fn push_lead_in(table: &mut ZoneTable, initial: u32, layer: u8)
    requires room { array_vec_len table.old ≤ 9 }
    requires initial { initial ≤ most_initial }
    ensures items { table.new.items ≡ table.old.items ++ lead_in initial layer }
    ensures len { array_vec_len table.new ≡ array_vec_len table.old + 5 }
{
    table.push(zeros(0x02_F000 - 16 * initial, initial, Area::LeadIn, layer));
    table.push(Zone {
        content: Content::Reference,
        ..zeros(0x02_F000, 2, Area::LeadIn, layer)
    });
    table.push(zeros(0x02_F020, 30, Area::LeadIn, layer));
    table.push(Zone {
        content: Content::Control,
        ..zeros(0x02_F200, 192, Area::LeadIn, layer)
    });
    table.push(zeros(0x02_FE00, 32, Area::LeadIn, layer));
}

// A Data Zone of `sectors` image sectors, from image sector `from` on. Its length is in whole blocks: padding is a part
// of it.
fn data_zone(first: u32, sectors: u32, layer: u8, from: u32) -> Zone
    ensures { result ≡ zone_of first (blocks_of sectors) Area.DataZone layer (Content.Image from) }
{
    Zone {
        first,
        blocks: blocks_of(sectors),
        area: Area::DataZone,
        layer,
        content: Content::Image(from),
    }
}

// A zone of which all Main Data are zeros.
fn zeros(first: u32, blocks: u32, area: Area, layer: u8) -> Zone
    ensures { result ≡ zone_of first blocks area layer Content.Zero }
{
    Zone {
        first,
        blocks,
        area,
        layer,
        content: Content::Zero,
    }
}

// The zone of zeros after a Data Zone, on the same layer. Its area depends on the shape, so that callers give it.
fn zone_after(image: &Zone, blocks: u32, area: Area) -> Zone
    requires { image.now.first + 16 * image.now.blocks < 2 ^ 32 }
    ensures { result ≡ zone_after image.now blocks area }
{
    zeros(image.first + 16 * image.blocks, blocks, area, image.layer)
}
