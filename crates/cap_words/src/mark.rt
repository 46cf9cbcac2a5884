//! The values of `mark`. A file is opened by `main`: here its name is a text. In the clauses `rows_of` are the options
//! that clap finds, with their values.
ghost use Rattle.std.specs.Prelude.{◌≡◌, option_map};
ghost use Rattle.std.specs.List.{list_all};
ghost use Rattle.clap.specs.Words.{found_of, rows_of};
ghost use Rattle.cap_words.specs.Mark.{good_in, is_good, is_good_status, mark_asked, mark_command_of};

use crate::settings::MarkSettings;
use clap::ArgMatches;
use dvd_words::given;

/// Each option by its form. clap has refused arguments without `--map`. `None` is a usage error.
pub fn mark_settings<'a>(matches: &ArgMatches<'a>) -> Option<MarkSettings<'a>>
    ensures { option_map mark_asked result ≡ mark_command_of (rows_of (found_of matches.now)) }
{
    let map = given(matches, "map")?;
    let good = good_in(given(matches, "good"))?;
    Some(MarkSettings { map, good })
}

// The statuses that are trusted: those that are given, each of which a block can have, or `+` alone. They are those of
// a map of ddrescue, in which `+` is a part that was read whole. A missing mark costs more than one too many, since an
// error costs a row twice what an erasure does.
fn good_in<'a>(text: Option<&'a str>) -> Option<&'a str>
    ensures { option_map (λ s. s.now) result ≡ good_in (option_map (λ s. s.now) text.entry) }
{
    match text {
        None => Some("+"),
        Some(text) if is_good(text.as_bytes()) => Some(text),
        Some(_) => None,
    }
}

// Some statuses, each that of a block. One that is given twice does no harm. An empty text would trust no byte at all,
// so it is refused.
fn is_good(text: &[u8]) -> bool
    ensures { result ≡ is_good text.now }
{
    !text.is_empty() && are_statuses(text)
}

// Whether each byte is the status of a block.
fn are_statuses(text: &[u8]) -> bool
    ensures { result ≡ list_all is_good_status text.now }
{
    text.iter().all(|status| is_good_status(*status))
}

// The five statuses that a block of a map has; `F` and `G` are of a whole run.
fn is_good_status(status: u8) -> bool
    ensures { result ≡ is_good_status status }
{
    status == b'?' || status == b'*' || status == b'/' || status == b'-' || status == b'+'
}
