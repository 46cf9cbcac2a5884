//! What the arguments of a command line ask for. One struct serves all commands, so that what they share has one name.

use crate::table::Command;
use dvd_capture::Form;
use dvd_layout::{Layout, LayoutFault, Shape, Zones};

/// A command with its options. A field without an option in its command has its default, or 0.
#[derive(Clone, Copy, Debug, PartialEq, Eq)]
pub struct Settings {
    /// What is to be done.
    pub command: Command,
    /// The number of the first sector.
    pub first: u32,
    /// How many sectors there are, on layer 0 where there are two.
    pub sectors: u32,
    /// How many sectors layer 1 has.
    pub sectors1: u32,
    /// How many layers the disk has, and the track path where there are two.
    pub shape: Shape,
    /// Which zones of the disk a stream has.
    pub zones: Zones,
    /// How many blocks the Initial Zone has.
    pub initial: u32,
    /// How many blocks the zones after the data have.
    pub tail: u32,
    /// The six bytes CPR_MAI of the data frames in the Data Zone.
    pub cpr: [u8; 6],
    /// The form of captured blocks in a stream: plain, marked or listed.
    pub form: Form,
    /// How many threads work, from 1 to 16; of eight bits, as dvd_par takes it.
    pub workers: u8,
    /// The number that blocks are drawn from.
    pub seed: u32,
    /// How many blocks are drawn, at most 4,096.
    pub blocks: u32,
    /// The address of the first CD-ROM sector, below 450,000.
    pub address: u32,
    /// How many captures of a disk are joined, from 2 to 16.
    pub captures: u32,
    /// How many recording frames are put in order.
    pub frames: u32,
}

impl Settings {
    ghost use Rattle.std.specs.Prelude.{◌≡◌, None, Some, IsOk, IfErr, IfOk};
    ghost use Rattle.dvd_words.specs.Settings.{IsLayoutOf, broken_rule};

    /// The layout of these lengths, or the first rule that they break. Who reads the arguments doesn't try these rules:
    /// a broken one is found here, where the layout is asked for. `Layout::new` tries the rules in one order, so that
    /// the same lengths break the same first rule.
    pub fn layout(&self) -> Result<Layout, LayoutFault>
        ensures lengths { IfOk result (IsLayoutOf self.now) }
        ensures valid { IsOk result → broken_rule self.now ≡ None }
        ensures refused { IfErr result (λ fault. broken_rule self.now ≡ Some fault) }
    {
        Layout::new(
            self.shape,
            self.sectors,
            self.sectors1,
            self.initial,
            self.tail,
        )
    }
}
