//! Where image sectors are on the disk.
//! Commands go by the plan, block by block, and ask for no single sector: `sector_of` and `lba_of` are for programs on
//! this crate that do.
//! That the plan agrees with `sector_of` is the law `plan_follows_places`.
ghost use Rattle.std.specs.Prelude.{◌≡◌, ◌↔◌, ℕ, ◌<◌, ◌≤◌, Some, IfSome};
ghost use Rattle.dvd_layout.specs.Lengths.{has_two_layers};
ghost use Rattle.dvd_layout.specs.Place.{image_sectors, place_of, total_sectors};

use crate::entry::Content;
use crate::layout::Layout;
use crate::plan::DATA_FIRST;

impl Layout {
    /// The number of sectors of the image.
    pub fn total(&self) -> u32
        ensures { result ≡ total_sectors self.now }
    {
        // Neither layer has 2^23 sectors, by the clauses of a layout, so that the sum has room.
        self.sectors0 + self.sectors1
    }

    /// Whether the disk has two layers; bit 29 of each ID (b29, reflectivity) says so. It is called as IDs call it.
    pub fn dim(&self) -> bool
        ensures { result ≡ has_two_layers self.now.shape }
    {
        self.shape.has_two_layers()
    }

    /// The number of image sectors that a block of this content holds. The last block of an image may have fewer than
    /// sixteen: zero sectors fill it. Any content may be asked for, so one that begins after the image has 0. It is a
    /// `usize`, since callers cut their buffers by it.
    pub fn image_sectors(&self, content: Content) -> usize
        ensures value { result ≡ image_sectors self.now content }
        ensures most { result ≤ 16 }
    {
        match content {
            Content::Image(sector) => self.total().saturating_sub(sector).min(16) as usize,
            Content::Zero | Content::Reference | Content::Control => 0,
        }
    }

    /// The layer and the sector number of an image sector, in this order. The image goes on with layer 1 where the data
    /// of layer 0 end. On a disk of one layer every image sector is below `sectors0`.
    pub fn sector_of(&self, lba: u32) -> (u8, u32)
        requires { lba < total_sectors self.now }
        ensures { result ≡ place_of self.now lba }
    {
        if lba < self.sectors0 {
            (0, DATA_FIRST + lba)
        } else {
            // `second_first` is where the data of layer 1 begin. On the parallel path both layers are numbered from the
            // inside, so that is 030000 again. On the opposite path layer 1 is read from the outside, with rising
            // numbers, and begins at the complement of the last data sector of layer 0.
            (1, self.second_first() + (lba - self.sectors0))
        }
    }

    /// The image sector at a layer and a sector number, or `None` where there is no image sector. On the parallel path
    /// both layers have the same numbers, so the layer is needed too. Any layer may be asked for, and any number: those
    /// of padding, which fills the last block of a layer, have no image sector. The clauses say that it undoes
    /// `sector_of`: so it needs no definition of its own.
    pub fn lba_of(&self, layer: u8, number: u32) -> Option<u32>
        ensures within { IfSome result (λ lba. lba < total_sectors self.now) }
        ensures exact { (lba : ℕ) → lba < total_sectors self.now → (result ≡ Some lba) ↔ (place_of self.now lba ≡ (layer, number)) }
    {
        // Where the data of the layer begin, how many image sectors they have, and how many come before them.
        let (first, sectors, before) = match layer {
            0 => (DATA_FIRST, self.sectors0, 0),
            1 => (self.second_first(), self.sectors1, self.sectors0),
            _ => return None,
        };
        // A number before the data has no image sector either.
        let offset = number.checked_sub(first)?;
        if offset < sectors {
            Some(before + offset)
        } else {
            None
        }
    }
}
