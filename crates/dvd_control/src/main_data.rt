//! The Main Data of the frames that hold no image.
ghost use Rattle.std.specs.Prelude.{◌≡◌, ◌<◌};
ghost use Rattle.dvd_layout.specs.Content.{IsImage};
ghost use Rattle.dvd_layout.specs.Plan.{IsEntry};
ghost use Rattle.dvd_control.specs.MainData.{main_bytes};

use crate::format::PhysicalFormat;
use dvd_layout::{BlockPlan, Content, Layout};

// The byte of the reference code, by the standard (ECMA-267, Reference Code Zone).
const REFERENCE: u8 = 0xAC;

/// Writes the Main Data of frame `f` of an entry of a plan that isn't image: zeros, the reference code, or the control
/// data. Control data have the physical format of the entry's layer in frame 0 of each block, and zeros in the others:
/// the standard keeps those for the disk's maker and the content's provider.
/// It has to be an entry of this layout's plan: then a layer with control data has a lead-in, which a format is of.
/// Whatever `out` had is overwritten, and it isn't scrambled yet: `rule_of` of dvd_layout says what will be.
pub fn main_of(layout: &Layout, plan: &BlockPlan, f: usize, out: &mut [u8; 2048])
    requires frame { f < 16 }
    requires entry { IsEntry layout.now plan.now }
    requires not_image { ¬ IsImage plan.now.content }
    ensures { out.new ≡ main_bytes layout.now plan.now f }
{
    match plan.content {
        Content::Zero => *out = [0; 2048],
        Content::Reference => *out = [REFERENCE; 2048],
        Content::Control if f == 0 => {
            PhysicalFormat::of_layout(layout, plan.layer).to_bytes(out);
        }
        Content::Control => *out = [0; 2048],
        // The contract excludes it: image sectors come from the input.
        Content::Image(_) => unreachable!(),
    }
}
