//! How a run ends, as the number that a shell sees. Look here for which end has which number.
ghost use Rattle.std.specs.Prelude.{◌≡◌};
ghost use Rattle.dvd_top.specs.Statuses.{status_of};

use dvd_loop::LoopEnd;

/// The exit statuses of the program. Scripts ask for the numbers, so each keeps its meaning.
#[derive(Clone, Copy, Debug, PartialEq, Eq)]
pub enum Status {
    /// The command ran to its end.
    Done = 0,
    /// The arguments are invalid.
    Usage = 1,
    /// The layout that the settings ask for breaks a rule.
    Setting = 2,
    /// A read failed.
    ReadFault = 3,
    /// A write failed.
    WriteFault = 4,
    /// The input ended within a unit, or within the header of a listed capture.
    Short = 5,
    /// One byte more came than was expected.
    Long = 6,
    /// The input was whole, and some of its units are bad.
    Damaged = 7,
    /// There is no memory for the arguments or for the buffers.
    NoMemory = 8,
    /// A line of the report couldn't be written.
    ReportFault = 9,
    /// No control block answered.
    NoControl = 10,
    /// The header of a listed capture breaks a rule.
    BadHeader = 11,
    /// A listed block breaks a rule of its form.
    BadMarks = 12,
}

impl Status {
    ghost use Rattle.dvd_top.specs.Statuses.{status_number};

    /// The number that the program ends with. It is that of the variant above, so there is no second list of numbers.
    pub fn number(self) -> u8
        ensures { result ≡ status_number self }
    {
        self as u8
    }
}

/// The exit status of a run with this end.
impl From<LoopEnd> for Status {
    ghost from_gives = { λ end status. status ≡ status_of end };

    fn from(end: LoopEnd) -> Self {
        match end {
            LoopEnd::Done => Status::Done,
            LoopEnd::ReadFault => Status::ReadFault,
            LoopEnd::WriteFault => Status::WriteFault,
            LoopEnd::ReportFault => Status::ReportFault,
            LoopEnd::Short { .. } => Status::Short,
            LoopEnd::Long => Status::Long,
            LoopEnd::Damaged { .. } => Status::Damaged,
            LoopEnd::NoControl => Status::NoControl,
            LoopEnd::BadMarks { .. } => Status::BadMarks,
            // A header is a part of the input like a unit, and the closing line says which it was.
            LoopEnd::ShortHeader { .. } => Status::Short,
            LoopEnd::BadHeader { .. } => Status::BadHeader,
        }
    }
}
