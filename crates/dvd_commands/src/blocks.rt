//! The blocks of the plan of a layout, as the commands go over them.
ghost use Rattle.std.specs.Prelude.{◌≡◌, ◌<◌, length, Some, slice_get};
ghost use Rattle.dvd_layout.specs.Place.{HasNumbers};
ghost use Rattle.dvd_layout.specs.Plan.{plan_of};

use dvd_layout::{BlockPlan, Layout, Zones};

/// Which blocks a command goes over: those of the plan of a layout and of these zones. The layout is copied into it: it
/// is a few numbers.
#[derive(Drop)]
pub(crate) struct Blocks {
    pub layout: Layout,
    pub zones: Zones,
}

impl Blocks {
    /// How many there are. By the rules of layouts a plan has fewer than 2^32 blocks, so the loop counts in 32 bits,
    /// and the cast from the layout's 64 loses nothing.
    pub fn count(&self) -> u32
        ensures { result ≡ length (plan_of self.now.layout self.now.zones) }
    {
        self.layout.blocks(self.zones) as u32
    }

    /// The entry of block `k`. Each is made when it is its turn, so a plan needs no memory. `numbers` says that the
    /// sector numbers of its sixteen frames have 24 bits, as those of every entry of a plan have. Commands need that of
    /// each entry, so it is drawn from the layout here, once for all.
    pub fn at(&self, k: u32) -> BlockPlan
        requires { k < length (plan_of self.now.layout self.now.zones) }
        ensures is_there { slice_get (plan_of self.now.layout self.now.zones) k ≡ Some result }
        ensures numbers { HasNumbers result }
    {
        self.layout.plan(self.zones, u64::from(k))
    }
}
