//! The clap command of each command. Values are texts to clap, and the module of their command reads them by their
//! forms. An app in the clauses is what a command of clap is by definition.
ghost use Rattle.std.specs.Prelude.{◌≡◌, true, IfOk, map};
ghost use Rattle.clap.specs.Words.{app_of, is_simple_and_free, with_rule};
ghost use Rattle.cap_words.specs.Apps.{app_for, bare_app, file_rule, flag_rule, with_options};

use crate::settings::Command;
use clap::{Arg, ArgAction};
use dvd_words::with_option;
use std::alloc::{AllocError, Global};

/// The clap command of a command. Each has its own, so that an option of another one is refused. `true` is an option
/// that has to be given; the modules of the commands have the defaults of others. Only memory can fail here. `free`
/// says that clap's rules for it are simple, which `parse_by` requires.
pub fn parser_for<'a>(alloc: Global, command: Command) -> Result<clap::Command<'a>, AllocError>
    ensures app { IfOk result (λ parser. app_of parser ≡ app_for command) }
    ensures free { is_simple_and_free (app_for command) ≡ true }
{
    match command {
        Command::Mark => {
            let parser = with_option(alloc, bare_parser(alloc, "mark"), "map", true)?;
            with_option(alloc, parser, "good", false)
        }
        Command::Interleave => {
            let parser = with_option(alloc, bare_parser(alloc, "interleave"), "form", true)?;
            with_files(alloc, with_flag(alloc, parser, "fill")?)
        }
        Command::Lost => {
            let parser = with_option(alloc, bare_parser(alloc, "lost"), "sectors", true)?;
            let others = &["sectors1", "shape", "zones", "initial", "tail"];
            with_options(alloc, parser, others)
        }
        Command::Draw => with_option(alloc, bare_parser(alloc, "draw"), "width", false),
    }
}

// A command without options, and without clap's flag for help: the program has no such option.
fn bare_parser<'a>(alloc: Global, name: &'a str) -> clap::Command<'a>
    ensures { app_of result ≡ bare_app name.now }
{
    clap::Command::new(alloc, name).disable_help_flag(true)
}

// The command with these options added, none of which is required.
fn with_options<'a>(
    alloc: Global,
    parser: clap::Command<'a>,
    names: &[&'a str],
) -> Result<clap::Command<'a>, AllocError>
    ensures { IfOk result (λ r. app_of r ≡ with_options (app_of parser.entry) (map (λ name. name.now) names.now)) }
{
    let mut parser = parser;
    for name in names {
        parser = with_option(alloc, parser, *name, false)?;
    }
    Ok(parser)
}

// The command with one more option, which has no value. clap refuses a flag that is given twice, or with a value. It is
// here, and not in dvd_words, since no command of `dvdecc` has a flag.
fn with_flag<'a>(
    alloc: Global,
    parser: clap::Command<'a>,
    name: &'a str,
) -> Result<clap::Command<'a>, AllocError>
    ensures { IfOk result (λ r. app_of r ≡ with_rule (app_of parser.entry) (flag_rule name.now)) }
{
    let flag = Arg::new(alloc, name).long(name).action(ArgAction::SetTrue);
    parser.arg(flag)
}

// The command with at least one file: each argument that is neither an option nor the value of one. `Append` keeps all
// of them, in order. How many may come is asked later, by the module of `interleave`.
fn with_files<'a>(alloc: Global, parser: clap::Command<'a>) -> Result<clap::Command<'a>, AllocError>
    ensures { IfOk result (λ r. app_of r ≡ with_rule (app_of parser.entry) file_rule) }
{
    let files = Arg::new(alloc, "file")
        .required(true)
        .action(ArgAction::Append);
    parser.arg(files)
}
