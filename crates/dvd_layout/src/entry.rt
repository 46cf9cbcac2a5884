//! One ECC block of a plan.
ghost use Rattle.std.specs.Prelude.{◌≡◌, ◌+◌, ◌*◌, ◌<◌, ◌^◌};
ghost use Rattle.dvd_layout.specs.Content.{content_at, image_from};
ghost use Rattle.dvd_layout.specs.Place.{HasNumbers, rule_for};
ghost use Rattle.dvd_frame.specs.Id.{id_word};

use dvd_frame::{Area, Id, Rule};

/// What the Main Data of a block's sixteen data frames is.
#[derive(Clone, Copy, Debug, PartialEq, Eq)]
pub enum Content {
    /// Zeros.
    Zero,
    /// The reference code.
    Reference,
    /// The control data: the physical format in the first frame.
    Control,
    /// Image sectors, from this one on.
    Image(u32),
}

impl Content {
    /// What block `b` of a zone holds, where the first block of the zone has this content. Only an image goes on from
    /// block to block, sixteen sectors each; any other zone holds the same in all of its blocks.
    pub(crate) fn at_block(self, b: u32) -> Content
        requires { image_from self + 16 * b < 2 ^ 32 }
        ensures { result ≡ content_at self b }
    {
        match self {
            Content::Image(sector) => Content::Image(sector + 16 * b),
            Content::Zero | Content::Reference | Content::Control => self,
        }
    }
}

/// One ECC block of a plan: its first sector number, its area, its layer and its content.
#[derive(Clone, Copy, Debug, PartialEq, Eq)]
pub struct BlockPlan {
    /// Its first sector number.
    pub first: u32,
    /// The area that it is in.
    pub area: Area,
    /// Its layer, 0 or 1.
    pub layer: u8,
    /// What its Main Data is.
    pub content: Content,
}

/// The ID of frame `f` of a block; `dim` says whether the disk has two layers.
/// An entry doesn't know whether the disk has two layers, so `dim` is a parameter. `master` gives `Layout::dim`.
/// Readers give `false`, as `Id::same_place` doesn't compare that bit. The clause `numbers` says that the layer is 0 or
/// 1, and that the numbers of all sixteen frames have 24 bits; each entry of a plan has it, by a law.
pub fn id_of(plan: &BlockPlan, dim: bool, f: usize) -> Id
    requires frame { f < 16 }
    requires numbers { HasNumbers plan.now }
    ensures { result ≡ id_word plan.now.area plan.now.layer dim (plan.now.first + f) }
{
    Id::new(plan.area, plan.layer, dim, plan.first + f as u32)
}

/// Which Main Data bytes of frame `f` of a block are scrambled: all, zeros and control data too. The Reference Code
/// Zone is the exception: there only the first 160 of each block's first frame are (ECMA-267, Reference Code Zone).
/// Nothing else of an entry counts, so the content alone is given.
pub fn rule_of(content: Content, f: usize) -> Rule
    requires { f < 16 }
    ensures { result ≡ rule_for content f }
{
    match content {
        Content::Reference if f == 0 => Rule::First160,
        Content::Reference => Rule::Off,
        Content::Zero | Content::Control | Content::Image(_) => Rule::Whole,
    }
}
