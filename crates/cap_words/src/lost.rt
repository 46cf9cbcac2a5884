//! The values of `lost`. They are read as those of `dvdecc recover`, so that the same words mean one layout. In the
//! clause `rows_of` are the options that clap finds, with their values.
ghost use Rattle.std.specs.Prelude.{◌≡◌};
ghost use Rattle.clap.specs.Words.{found_of, rows_of};
ghost use Rattle.cap_words.specs.Lost.{lost_of};

use crate::settings::LostSettings;
use clap::ArgMatches;
use dvd_words::{Command, read_options};

/// Each option by its form. `None` is a value that isn't of its form: a usage error. Whether the numbers make a layout
/// is asked later, by `LostSettings::layout`, since that has a line and a status of its own.
pub fn lost_settings(matches: &ArgMatches<'_>) -> Option<LostSettings>
    ensures { result ≡ lost_of (rows_of (found_of matches.now)) }
{
    read_options(Command::Recover, matches)
}
