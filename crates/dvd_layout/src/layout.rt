//! The lengths of a disk, which make a valid layout. `tactic` says to the prover which lemmas and definitions a proof
//! needs.

ghost use Rattle.std.specs.Prelude.{◌≡◌, ◌+◌, ◌*◌, ◌%◌, ◌<◌, ◌≤◌, true, false, Some, None, IfOk, IfErr, IsOk, IsTrue};
ghost use Rattle.dvd_layout.specs.Lengths.{blocks_of, first_fault, has_two_layers, initial_fault, is_opposite, layer_end, most_initial, padded};

use crate::fault::LayoutFault;
use crate::plan::DATA_FIRST;

// The longest Initial Zone, in ECC blocks: no sector has the number 0. It ends before 02F000, so that one block more
// would begin at 0. The standard leaves its length to the disk; that no number is 0 is a choice of this program.
const MAX_INITIAL: u32 = 12_031;

// The longest zone after the data, in ECC blocks. They are 030000 sectors: on the opposite path data end at FD0000 at
// the latest, and no sector number passes FFFFFF. Other shapes have the same limit, so that there is one.
const MAX_TAIL: u32 = 12_288;

// The highest sector number that may follow a layer that begins at 030000 and the zone after its data. On the opposite
// path, layer 1 has the numbers from 1000000 less this end on: none is one of layer 0. It is the limit of all shapes.
const LAST_END: u64 = 0x80_0000;

/// Checks that an Initial Zone may have `initial` ECC blocks, or returns the rule that it breaks.
/// It is a function of its own for `info`, which reads a lead-in and knows no other length of the disk. `Layout::new`
/// doesn't call it, since its body has the tests of `first_fault` one by one, and that doesn't cite `initial_fault`.
pub fn check_initial(initial: u32) -> Result<(), LayoutFault>
    ensures refused { IfErr result (λ fault. initial_fault initial ≡ Some fault) }
    ensures valid { IsOk result → initial_fault initial ≡ None }
{
    if initial > MAX_INITIAL {
        return Err(LayoutFault::InitialTooLong { blocks: initial });
    }
    Ok(())
}

/// How many layers a disk has, and which way the track of the second runs.
#[derive(Clone, Copy, Debug, PartialEq, Eq)]
pub enum Shape {
    /// One layer.
    Single,
    /// Two layers, each read from the inside.
    Parallel,
    /// Two layers, the second read from the outside.
    Opposite,
}

// By cases, as the definitions are, so that no new shape can be passed over here.
impl Shape {
    /// Whether the disk has two layers.
    pub fn has_two_layers(self) -> bool
        ensures { result ≡ has_two_layers self }
    {
        match self {
            Shape::Single => false,
            Shape::Parallel | Shape::Opposite => true,
        }
    }

    /// Whether the track of the second layer runs from the outside.
    pub fn is_opposite(self) -> bool
        ensures { result ≡ is_opposite self }
    {
        match self {
            Shape::Single | Shape::Parallel => false,
            Shape::Opposite => true,
        }
    }
}

/// Which zones of a disk a stream holds.
#[derive(Clone, Copy, Debug, PartialEq, Eq)]
pub enum Zones {
    /// The Data Zone alone.
    DataOnly,
    /// Every zone.
    All,
}

/// A valid layout: a shape, the image sectors of each layer, and the lengths in ECC blocks of the Initial Zone and of
/// each zone after the data: one length for all of these, by a choice of this program. Its ghost fields are the rules
/// that `new` checks: a layout can't be made without proofs of them, so no function of a layout tests its lengths
/// again. They take no memory, and are public for proofs of the crates above. In them `padded` is the sectors in whole
/// blocks, and `layer_end` the sector number after a layer and its tail.
#[derive(Clone, Copy, Debug, PartialEq, Eq)]
pub struct Layout {
    /// The shape of the disk.
    pub shape: Shape,
    /// The image sectors of layer 0, at least one.
    pub sectors0: u32,
    /// The image sectors of layer 1, 0 where there is none.
    pub sectors1: u32,
    /// The ECC blocks of the Initial Zone, at most 12,031.
    pub initial: u32,
    /// The ECC blocks of each zone after the data, at most 12,288.
    pub tail: u32,
    /// Layer 0 has data.
    pub ghost first_layer: { 0 < sectors0 },
    /// Layer 1 has data too, where there are two layers.
    pub ghost second_layer: { has_two_layers shape ≡ true → 0 < sectors1 },
    /// Layer 0 is whole ECC blocks, where there are two layers: the image goes on with layer 1, without padding
    /// between.
    pub ghost whole_blocks: { has_two_layers shape ≡ true → sectors0 % 16 ≡ 0 },
    /// Layer 1 has no sectors, where there is one layer.
    pub ghost one_layer: { has_two_layers shape ≡ false → sectors1 ≡ 0 },
    /// On the opposite track path layer 1 is no longer than layer 0.
    pub ghost no_longer: { is_opposite shape ≡ true → padded sectors1 ≤ padded sectors0 },
    /// The Initial Zone fits before the data.
    pub ghost initial_fits: { initial ≤ most_initial },
    /// The zones after the data are at most 12,288 blocks long.
    pub ghost tail_fits: { tail ≤ 12288 },
    /// Layer 0 ends before sector number 800000.
    pub ghost end0: { layer_end sectors0 tail ≤ 0x800000 },
    /// Layer 1 ends before it too.
    pub ghost end1: { layer_end sectors1 tail ≤ 0x800000 },
}

// The ECC blocks that this number of sectors fills, the last one maybe in part.
pub(crate) fn blocks_of(sectors: u32) -> u32
    ensures { result ≡ blocks_of sectors }
{
    sectors.div_ceil(16)
}

// The sector number after a layer that begins at 030000: after its data and the zone that follows them. It has 64 bits,
// since the error of a layer that is too long names its end exactly.
fn layer_end(sectors: u32, tail: u32) -> u64
    ensures { result ≡ layer_end sectors tail }
{
    u64::from(DATA_FIRST) + 16 * u64::from(blocks_of(sectors)) + 16 * u64::from(tail)
}

impl Layout {
    /// A layout of these lengths, or the first rule that they break.
    #[tactic(auto, using(std::proofs::lemmas::Bool::Decides::nat_tests), unfolding(crate::specs::Lengths::first_fault))]
    pub fn new(
        shape: Shape,
        sectors0: u32,
        sectors1: u32,
        initial: u32,
        tail: u32,
    ) -> Result<Layout, LayoutFault>
        ensures refused { IfErr result (λ fault. first_fault shape sectors0 sectors1 initial tail ≡ Some fault) }
        ensures valid { IfOk result (λ layout. first_fault shape sectors0 sectors1 initial tail ≡ None) }
        ensures shape { IfOk result (λ layout. layout.shape ≡ shape) }
        ensures sectors0 { IfOk result (λ layout. layout.sectors0 ≡ sectors0) }
        ensures sectors1 { IfOk result (λ layout. layout.sectors1 ≡ sectors1) }
        ensures initial { IfOk result (λ layout. layout.initial ≡ initial) }
        ensures tail { IfOk result (λ layout. layout.tail ≡ tail) }
    {
        // The order is that in which rules are reported: the first broken one is named. `first_fault` has it too.
        let two_layers = shape.has_two_layers();
        if sectors0 == 0 {
            return Err(LayoutFault::EmptyLayer { layer: 0 });
        }
        if two_layers && sectors1 == 0 {
            return Err(LayoutFault::EmptyLayer { layer: 1 });
        }
        if two_layers && sectors0 % 16 != 0 {
            return Err(LayoutFault::OddLayer { sectors: sectors0 });
        }
        if !two_layers && sectors1 != 0 {
            return Err(LayoutFault::SecondLayer { sectors: sectors1 });
        }
        // Blocks are compared, since the padding of layer 1 has to fit before FD0000 too.
        if shape.is_opposite() && blocks_of(sectors0) < blocks_of(sectors1) {
            return Err(LayoutFault::LayerLonger { sectors: sectors1 });
        }
        if initial > MAX_INITIAL {
            return Err(LayoutFault::InitialTooLong { blocks: initial });
        }
        if tail > MAX_TAIL {
            return Err(LayoutFault::TailTooLong { blocks: tail });
        }
        let end0 = layer_end(sectors0, tail);
        if end0 > LAST_END {
            return Err(LayoutFault::LayerTooLong {
                layer: 0,
                end: end0,
            });
        }
        // It is counted from 030000 for every shape. On a disk of one layer `sectors1` is 0, and on the opposite path
        // layer 1 is no longer than layer 0: so only on the parallel path this rule can be broken.
        let end1 = layer_end(sectors1, tail);
        if end1 > LAST_END {
            return Err(LayoutFault::LayerTooLong {
                layer: 1,
                end: end1,
            });
        }
        Ok(Layout {
            shape,
            sectors0,
            sectors1,
            initial,
            tail,
        })
    }
}
