//! How a loop ends, what kind a unit is, and what comes after the last one. A unit is what a command reads at a time: a
//! sector, a block or a recording frame. One answers if it is what the command looks for. `from_gives` is what a clause
//! knows of a `from`, so that it knows which end `?` makes of an error.
ghost use Rattle.std.specs.Prelude.{◌≡◌, ◌≢◌, true, false};
ghost use Rattle.dvd_loop.specs.declared.ends.LoopEnd.TheVariants.{ReadFault as read_fault, WriteFault as write_fault};
ghost use Rattle.dvd_loop.specs.declared.ends.UnitKind.TheVariants.{Last as last};
ghost use Rattle.dvd_loop.specs.Machine.{bad_of};

use dvd_ports::{Failed, WriteFault};

/// How the loop of a command ends.
#[derive(Clone, Copy, Debug, PartialEq, Eq)]
pub enum LoopEnd {
    /// The input was read as far as the command asks, to its end or to the unit that answers, and the output is whole.
    Done,
    /// A read failed.
    ReadFault,
    /// A write failed.
    WriteFault,
    /// A line of the report couldn't be written.
    ReportFault,
    /// The input ended in this unit, after this number of its bytes: 0 where none of it came.
    Short { unit: u32, bytes: u32 },
    /// One byte more came than was expected. How many more there are isn't known: none is read after it.
    Long,
    /// The input was whole, and this number of units is bad, whether they are blocks or sectors. It is at least 1, as
    /// with none the end is `Done`.
    Damaged { blocks: u32 },
    /// No unit answered. The name is that of the one command that looks for one: `info`, for control data.
    NoControl,
    /// The marks of this unit break a rule of the listed form, at this byte of it.
    BadMarks { block: u32, at: u32 },
    /// The input ended in the header before its first unit, after this number of its bytes.
    /// No loop ends in this way, or as `BadHeader`. Both are here because a run has one end, with its status and its
    /// line.
    ShortHeader { bytes: u32 },
    /// That header breaks a rule at this byte.
    BadHeader { at: u32 },
}

/// A failed call of the source ends the loop as `ReadFault`.
impl From<Failed> for LoopEnd {
    ghost from_gives = { λ _ end. end ≡ read_fault };

    fn from(_: Failed) -> Self {
        LoopEnd::ReadFault
    }
}

/// A failed write ends the loop as `WriteFault`. A fault of the report is named where it comes, since a `WriteFault` of
/// dvd_ports doesn't say which sink failed.
impl From<WriteFault> for LoopEnd {
    ghost from_gives = { λ _ end. end ≡ write_fault };

    fn from(_: WriteFault) -> Self {
        LoopEnd::WriteFault
    }
}

/// The kind of a unit that was read and processed.
#[derive(Clone, Copy, Debug, PartialEq, Eq)]
pub enum UnitKind {
    /// Nothing of it is damaged, and the loop goes on.
    Good,
    /// It counts among the damaged units.
    Bad,
    /// It answers, and the loop ends as `Done` after it.
    Last,
}

impl UnitKind {
    /// Whether the loop ends after this unit. It has a clause for each answer, as the loop has a branch for each.
    pub fn is_last(self) -> bool
        ensures yes { result ≡ true → self ≡ last }
        ensures no { result ≡ false → self ≢ last }
    {
        matches!(self, UnitKind::Last)
    }

    /// How many bad units it counts as: 1 or 0. So the loop adds it up without a case for each kind.
    pub fn bad(self) -> u32
        ensures { result ≡ bad_of self }
    {
        match self {
            UnitKind::Bad => 1,
            UnitKind::Good | UnitKind::Last => 0,
        }
    }
}

/// What comes after the last unit.
#[derive(Clone, Copy, Debug, PartialEq, Eq)]
pub enum AfterLast {
    /// The end of the input: one more byte is requested.
    EndOfInput,
    /// The end of the loop, which reads nothing more.
    Done,
    /// Likewise the end of the loop, where a unit was to answer and none did.
    NoControl,
}

/// What processing a unit answers: its kind, or how the loop ends within it. A `Result`, so that `?` ends a unit at the
/// first fault.
pub type Processed = Result<UnitKind, LoopEnd>;
