//! The clap command of each command of the program. Values are texts to clap and are read by their forms in `values`,
//! so that each refusal of a value is one of ours. In the clauses `rows_of` are the options that clap finds, with their
//! values.

ghost use Rattle.std.specs.Prelude.{◌≡◌, true, None, Some, IfOk, map, string_bytes};
ghost use Rattle.clap.specs.Words.{app_of, found_of, is_simple_and_free, rows_of, with_rule};
ghost use Rattle.dvd_words.specs.Table.{app_for, option_rule};
ghost use Rattle.dvd_words.specs.Inner.Options.{with_options};
ghost use Rattle.dvd_words.specs.Inner.Rows.{rule};
ghost use Rattle.dvd_words.specs.Reading.{rows_by, rows_for};

use crate::fault::WordsFault;
use crate::table::{Command, OptionSpec, spec_of};
use clap::error::ErrorKind;
use clap::{Arg, ArgAction, ArgMatches};
use std::alloc::{AllocError, Global};

/// The options in the arguments of a command, with their values. Why clap refuses arguments isn't handed on: all of it
/// is a usage error. The first word is that of the command; clap passes over it.
pub fn parse<'a>(
    alloc: Global,
    command: Command,
    words: &'a [String],
) -> Result<ArgMatches<'a>, WordsFault>
    ensures taken { IfOk result (λ matches. rows_for command (map string_bytes words.now) ≡ Some (rows_of (found_of matches))) }
    ensures refused { result ≡ Err WordsFault.Usage → rows_for command (map string_bytes words.now) ≡ None }
{
    parse_by(parser_for(alloc, command)?, words)
}

/// What a parser makes of some arguments, the first of which names the command. `NoMemory` comes only where there is no
/// memory to read them with. No clause says so, since a contract doesn't see how much memory there is. `dvdcap` reads
/// its arguments by this too. `is_simple_and_free` says that the parser uses only what the definitions of clap cover,
/// and that no option has a rule on another: of such a parser it is proved what it finds.
pub fn parse_by<'a>(
    parser: clap::Command<'a>,
    words: &'a [String],
) -> Result<ArgMatches<'a>, WordsFault>
    requires { is_simple_and_free (app_of parser) ≡ true }
    ensures taken { IfOk result (λ matches. rows_by (app_of parser.entry) (map string_bytes words.now) ≡ Some (rows_of (found_of matches))) }
    ensures refused { result ≡ Err WordsFault.Usage → rows_by (app_of parser.entry) (map string_bytes words.now) ≡ None }
{
    match parser.try_get_matches_from(words) {
        Ok(matches) => Ok(matches),
        Err(error) if error.kind() == ErrorKind::OutOfMemory => Err(WordsFault::NoMemory),
        Err(_) => Err(WordsFault::Usage),
    }
}

// The command's name, its options and nothing else. It has no flag for help, since the output is never a page of text.
// It allocates, so it may fail. `free` is what `parse_by` requires.
fn parser_for<'a>(alloc: Global, command: Command) -> Result<clap::Command<'a>, AllocError>
    ensures app { IfOk result (λ parser. app_of parser ≡ app_for command) }
    ensures free { is_simple_and_free (app_for command) ≡ true }
{
    let spec = spec_of(command);
    let parser = clap::Command::new(alloc, spec.name).disable_help_flag(true);
    with_options(alloc, parser, spec.options)
}

// The command with these options added in order, each with one value.
fn with_options<'a>(
    alloc: Global,
    parser: clap::Command<'a>,
    options: &[OptionSpec<'a>],
) -> Result<clap::Command<'a>, AllocError>
    ensures { IfOk result (λ r. app_of r ≡ with_options (app_of parser.entry) (map rule options.now)) }
{
    // `arg` takes the parser and gives it back with one option more.
    let mut parser = parser;
    for option in options {
        parser = with_option(alloc, parser, option.name, option.is_required)?;
    }
    Ok(parser)
}

/// The command with one more option, which has one value. Its name is what is written after the two dashes, and what
/// its value is found by. `Set` refuses one that is given twice: a second value would have to win or lose. `dvdcap`
/// makes its options by this too.
pub fn with_option<'a>(
    alloc: Global,
    parser: clap::Command<'a>,
    name: &'a str,
    is_required: bool,
) -> Result<clap::Command<'a>, AllocError>
    ensures { IfOk result (λ r. app_of r ≡ with_rule (app_of parser.entry) (option_rule is_required name.now)) }
{
    let option = Arg::new(alloc, name)
        .long(name)
        .required(is_required)
        .action(ArgAction::Set);
    parser.arg(option)
}
