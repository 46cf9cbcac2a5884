//! The values of `draw`. In the clauses `rows_of` are the options that clap finds, with their values.
ghost use Rattle.std.specs.Prelude.{◌≡◌, ◌≤◌, IfSome};
ghost use Rattle.clap.specs.Words.{found_of, rows_of};
ghost use Rattle.cap_words.specs.Draw.{draw_of};

use crate::settings::DrawSettings;
use clap::ArgMatches;
use dvd_words::{given, read_within};

/// Each option by its form. A picture of 4,000 columns has at most 2,000,000 bytes, which is the memory that is taken
/// for one. Any least width above 0 would do. Without the option it has 1,000 columns, which are one unit of the
/// picture each. `None` is a value that isn't of its form: a usage error.
pub fn draw_settings(matches: &ArgMatches<'_>) -> Option<DrawSettings>
    ensures value { result ≡ draw_of (rows_of (found_of matches.now)) }
    ensures bounds { IfSome result (λ settings. (100 ≤ settings.width) × (settings.width ≤ 4000)) }
{
    let width = read_within(given(matches, "width"), 100, 4000, 1000)?;
    Some(DrawSettings { width })
}
