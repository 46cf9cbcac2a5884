//! How a run ends, as the number that a shell sees.
ghost use Rattle.std.specs.Prelude.{◌≡◌};

/// The exit statuses of the program, with the numbers that `dvdecc` has for them. 7 is missing, since no command here
/// refuses blocks. The numbers are documented, so a status keeps its own.
#[derive(Clone, Copy, Debug, PartialEq, Eq)]
pub enum Status {
    /// The command ran to its end.
    Done = 0,
    /// The arguments are invalid.
    Usage = 1,
    /// A line of the map, the report or the survey breaks a rule, or the layout does.
    BadInput = 2,
    /// A read failed.
    ReadFault = 3,
    /// A write failed.
    WriteFault = 4,
    /// The capture ended within a unit, or the survey before its line of totals.
    Short = 5,
    /// The capture has more units than 32 bits count. `interleave` ends at that number, and reads no further.
    Long = 6,
    /// There is no memory for the arguments or for the command.
    NoMemory = 8,
    /// A line of the report couldn't be written.
    ReportFault = 9,
}

impl Status {
    ghost use Rattle.cap_top.specs.Statuses.{status_number};

    /// The number that the program ends with. It is that of the variant above, so there is no second list of numbers.
    pub fn number(self) -> u8
        ensures { result ≡ status_number self }
    {
        self as u8
    }
}
