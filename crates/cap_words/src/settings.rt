//! What the arguments of a command line ask for. The commands share few options, so that each has its own struct. The
//! modules of the commands make them, and cap_top runs by them.

use arrayvec::ArrayVec;
use dvd_capture::Form;

/// The commands of the program. The first argument says which; by it a parser is chosen, before any option is read.
#[derive(Clone, Copy, Debug, PartialEq, Eq)]
pub enum Command {
    /// A plain capture gets the marks of a ddrescue map.
    Mark,
    /// Blocks of several captures in turn.
    Interleave,
    /// The bytes that a capture has lost, as a ddrescue map of the image.
    Lost,
    /// A survey as a picture of the disk.
    Draw,
}

/// A command with its options. Texts in them are borrowed from the arguments, and no memory is taken.
#[derive(Debug, Drop)]
pub enum Settings<'a> {
    /// `mark`, with a map and the statuses that are trusted.
    Mark(MarkSettings<'a>),
    /// `interleave`, with the captures.
    Interleave(InterleaveSettings<'a>),
    /// `lost`, with the layout of the disk.
    Lost(LostSettings),
    /// `draw`, with the width of the picture.
    Draw(DrawSettings),
}

/// The options of `mark`.
#[derive(Clone, Copy, Debug, PartialEq, Eq, Drop)]
pub struct MarkSettings<'a> {
    /// The name of the file with the map.
    pub map: &'a str,
    /// The statuses that are trusted, one byte each: some of `?*/-+`.
    pub good: &'a str,
}

/// The options of `interleave`, and its files.
#[derive(Debug, Drop)]
pub struct InterleaveSettings<'a> {
    /// The form of all captures, plain or marked.
    pub form: Form,
    /// Whether blocks that are marked whole replace those that a capture doesn't have. Only the marked form has such
    /// blocks.
    pub fill: bool,
    /// The names of the files with the captures, from 2 to 16.
    pub files: ArrayVec<&'a str, 16>,
}

/// The options of `lost`, as `dvdecc recover` has them: those of the layout are given, and the others have their
/// defaults. So the layout is that of the run whose report is read.
pub type LostSettings = dvd_words::Settings;

/// The options of `draw`.
#[derive(Clone, Copy, Debug, PartialEq, Eq, Drop)]
pub struct DrawSettings {
    /// The width of the picture, from 100 to 4,000.
    pub width: u32,
}
