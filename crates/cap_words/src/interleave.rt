//! The values of `interleave`. The files are only named here: they are opened by `main`. `None` is a usage error: a
//! value that isn't of its form, or values that don't go together. In the clauses `rows_of` are the options that clap
//! finds, with their values.
ghost use Rattle.std.specs.Prelude.{◌≡◌, codes, map, option_map, IfSome};
ghost use Rattle.clap.specs.Words.{all_of, found_of, rows_of};
ghost use Rattle.cap_words.specs.Interleave.{IsValid, few_files, files_in, form_in, interleave_asked, interleave_of, is_flag_given, may_fill};

use crate::settings::InterleaveSettings;
use arrayvec::ArrayVec;
use clap::ArgMatches;
use dvd_capture::Form;
use dvd_words::{given, read_form};

/// Each option by its form, and from 2 to 16 files.
pub fn interleave_settings<'a>(matches: &ArgMatches<'a>) -> Option<InterleaveSettings<'a>>
    ensures value { option_map interleave_asked result ≡ interleave_of (rows_of (found_of matches.now)) }
    ensures valid { IfSome result IsValid }
{
    let form = form_in(given(matches, "form"))?;
    let fill = is_flag_given(matches, "fill");
    let files = files_in(matches)?;
    if may_fill(form, fill) {
        Some(InterleaveSettings { form, fill, files })
    } else {
        None
    }
}

// The form that is named, whose blocks all have the same number of bytes. A listed capture begins with a header, and
// isn't cut into blocks of one size. clap requires `--form`, so the default of `read_form` doesn't come.
fn form_in(text: Option<&str>) -> Option<Form>
    ensures { result ≡ form_in (option_map (λ s. s.now) text.entry) }
{
    match read_form(text)? {
        Form::Listed => None,
        form => Some(form),
    }
}

// A plain capture has no marks, so a missing block can't be filled in it.
fn may_fill(form: Form, fill: bool) -> bool
    ensures { result ≡ may_fill form fill }
{
    form == Form::Marked || !fill
}

// clap gives each flag a value, which is a text like others: `true` where the flag is given. Its own `get_flag`
// promises nothing of other texts, and the clause here is of all matches.
fn is_flag_given(matches: &ArgMatches<'_>, name: &str) -> bool
    ensures { result ≡ is_flag_given name.now (rows_of (found_of matches.now)) }
{
    given(matches, name) == Some("true")
}

// From 2 to 16 files, in the order of the arguments. They are borrowed from these, so no memory is taken.
fn files_in<'a>(matches: &ArgMatches<'a>) -> Option<ArrayVec<&'a str, 16>>
    ensures { option_map (λ files. map (λ file. file.now) files.items) result ≡ files_in (rows_of (found_of matches.now)) }
{
    few_files(given_files(matches)?)
}

// The files, if one is given. The list is clap's; the texts in it borrow from the arguments, not from the matches.
fn given_files<'m, 'a>(matches: &'m ArgMatches<'a>) -> Option<&'m [&'a str]>
    ensures { option_map (λ files. map (λ file. file.now) files.now) result ≡ all_of (codes "file") (rows_of (found_of matches.now)) }
{
    matches.get_strs("file")
}

// From 2 to 16 names, copied into an array: `merge`, for which the blocks are put in turn, joins so many captures.
fn few_files<'a>(names: &[&'a str]) -> Option<ArrayVec<&'a str, 16>>
    ensures { option_map (λ files. map (λ file. file.now) files.items) result ≡ few_files (map (λ name. name.now) names.now) }
{
    if names.len() < 2 {
        return None;
    }
    let mut files = ArrayVec::new();
    // There is room for sixteen, so that more of them are refused here.
    files.try_extend_from_slice(names).ok()?;
    Some(files)
}
