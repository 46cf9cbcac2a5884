//! The blocks of a data zone, to which recording frames are joined. All are kept until the last frame came, since that
//! may belong to the first block.
ghost use Rattle.std.specs.Prelude.{◌≡◌, ℕ, ◌<◌, ◌≤◌, length, replicate, slice_index_or, vec_len, IfOk};
ghost use Rattle.std.specs.Option.{option_map};
ghost use Rattle.dvd_layout.specs.Plan.{plan_of};
ghost use Rattle.dvd_layout.specs.declared.layout.Zones.TheVariants.{DataOnly};
ghost use Rattle.dvd_merge.specs.Join.{unseen};
ghost use Rattle.dvd_merge.specs.Merges.{table_of};
ghost use Rattle.dvd_assemble.specs.Assembled.{settled};
ghost use Rattle.dvd_assemble.specs.Home.{block_and_frame, home};
ghost use Rattle.dvd_assemble.specs.Works.{captured};

use crate::frame::FrameWork;
use crate::home::home_of;
use dvd_layout::Layout;
use dvd_merge::Merge;
use dvd_ports::NoMemory;
use std::alloc::Global;

/// What scattered frames said of the blocks of a data zone, up to 1,024: 75,712 bytes for each, two for each place.
/// They hold 16,384 sectors, the most that `assemble` allows, since all are in memory at once: 77 million bytes.
#[derive(Drop)]
pub struct Shelf {
    blocks: Vec<Merge>,
    /// There are no more than 1,024 of them, so 16 bits hold the number of each.
    pub ghost few: { vec_len blocks ≤ 1024 },
}

impl Shelf {
    ghost use Rattle.dvd_assemble.specs.Shelves.{tables_of};

    /// So many blocks of which no place is seen. All memory is taken here. `NoMemory` may come at any time, and nothing
    /// is taken then. There is a block at least, as a layout has no layer without a sector: a
    /// shelf of none would be a call by mistake.
    pub fn new(alloc: Global, blocks: u16) -> Result<Shelf, NoMemory>
        requires some { 0 < blocks }
        requires few { blocks ≤ 1024 }
        ensures { IfOk result (λ shelf. tables_of shelf ≡ replicate blocks unseen) }
    {
        let mut merges = Vec::with_capacity(alloc, usize::from(blocks)).map_err(|_| NoMemory)?;
        for _ in 0..blocks {
            // There is room for each, but `push` may fail by its type.
            merges.push(Merge::new(alloc)?).map_err(|_| NoMemory)?;
        }
        Ok(Shelf { blocks: merges })
    }

    /// Joins a captured frame to its home, and answers that: the block, and the frame of it. Where a frame has none
    /// nothing changes. It takes one row's decoding, and the frame's bytes. At a wrong place a frame would spoil
    /// another, so one without a home is put nowhere. The shelf has as many blocks as the layout's Data Zone, so that a
    /// home is one of them.
    pub fn settle(&mut self, layout: &Layout, frame: &FrameWork) -> Option<(u16, u8)>
        requires { length (tables_of self.old) ≡ length (plan_of layout.now DataOnly) }
        ensures home { result ≡ option_map block_and_frame (home layout.now (captured frame.now)) }
        ensures settled { tables_of self.new ≡ settled layout.now (tables_of self.old) (captured frame.now) }
    {
        let (k, f) = home_of(layout, frame)?;
        frame.join_into(usize::from(f), &mut self.blocks[usize::from(k)]);
        Some((k, f))
    }

    /// How many blocks there are. The cast loses nothing, by `few`.
    pub fn blocks(&self) -> u16
        ensures { result ≡ length (tables_of self.now) }
    {
        self.blocks.len() as u16
    }

    /// What is known of block `k`, lent so that it can be written. The caller writes block after block, since a shelf
    /// knows no output.
    pub fn merged(&self, k: u16) -> &Merge
        requires { k < length (tables_of self.now) }
        ensures { table_of result.now ≡ slice_index_or (tables_of self.now) k unseen }
    {
        &self.blocks[usize::from(k)]
    }
}
