//! Reads the arguments of the command line: the word of the command, its options by clap, their values, and what these
//! need together. Whatever is wrong is one usage error, so `None` says enough. In the clauses `rows_of` are the options
//! that clap finds, with their values. `tactic` says to the prover which definitions a proof needs.

ghost use Rattle.std.specs.Prelude.{◌≡◌, ◌+◌, None, IfOk, IfSome, map, option_map, string_bytes};
ghost use Rattle.clap.specs.Words.{first_of, found_of, rows_of};
ghost use Rattle.dvd_words.specs.Reading.{IsValid, Reads, has_layout, is_given, is_within, states_layout, reading, settings_of};

use crate::fault::WordsFault;
use crate::parser::parse;
use crate::settings::Settings;
use crate::table::{Command, Limit, command_named, spec_of};
use crate::values::{
    read_cpr, read_form, read_number, read_sector_number, read_shape, read_within, read_workers,
    read_zones,
};
use clap::ArgMatches;
use dvd_capture::Form;
use std::alloc::Global;

/// The settings that the arguments ask for. `Usage` comes only where they ask for none.
#[tactic(auto, unfolding(crate::specs::Reading::reading))]
pub fn read(alloc: Global, words: &[String]) -> Result<Settings, WordsFault>
    ensures read { IfOk result (Reads (map string_bytes words.now)) }
    ensures usage { result ≡ Err WordsFault.Usage → reading (map string_bytes words.now) ≡ None }
    ensures valid { IfOk result IsValid }
{
    let Some(word) = words.first() else {
        return Err(WordsFault::Usage);
    };
    let Some(command) = command_named(word.as_str()) else {
        return Err(WordsFault::Usage);
    };
    // The word of the command is handed on too: clap passes over it, as over a program's name.
    let matches = parse(alloc, command, words)?;
    read_options(command, &matches).ok_or(WordsFault::Usage)
}

/// Each option by its form. All options are read whatever the command is: one that it doesn't have wasn't accepted by
/// clap, and so has its default. So a default may be out of the range of the option: 0 blocks or captures are those of
/// a command that has none. The default of 16 blocks of tail, and the most blocks and captures, are choices. Of frames
/// any number but 0 may come, up to the last of 32 bits. `IsValid` has the ranges of workers, blocks and
/// captures, and those that are of one command, as that its sectors have numbers or addresses; the runs of the commands
/// require it, so a limit that changes here changes there too. It is public for `dvdcap lost`, which is given the
/// layout's options of a run of `recover`.
#[tactic(auto, unfolding(crate::specs::Reading::settings_of))]
pub fn read_options(command: Command, matches: &ArgMatches<'_>) -> Option<Settings>
    ensures value { result ≡ settings_of command (rows_of (found_of matches.now)) }
    ensures valid { IfSome result IsValid }
{
    let settings = Settings {
        command,
        first: read_sector_number(given(matches, "first"))?,
        sectors: read_number(given(matches, "sectors"), 0)?,
        sectors1: read_number(given(matches, "sectors1"), 0)?,
        shape: read_shape(given(matches, "shape"))?,
        zones: read_zones(given(matches, "zones"))?,
        initial: read_number(given(matches, "initial"), 0)?,
        tail: read_number(given(matches, "tail"), 16)?,
        cpr: read_cpr(given(matches, "cpr"))?,
        form: read_form(given(matches, "form"))?,
        workers: read_workers(given(matches, "workers"))?,
        seed: read_number(given(matches, "seed"), 0)?,
        blocks: read_within(given(matches, "blocks"), 1, 4096, 0)?,
        address: read_number(given(matches, "address"), 0)?,
        captures: read_within(given(matches, "captures"), 2, 16, 0)?,
        frames: read_within(given(matches, "frames"), 1, 4_294_967_295, 0)?,
    };
    if has_layout(command, settings.form, matches) && is_within(spec_of(command).limit, &settings) {
        Some(settings)
    } else {
        None
    }
}

// The layout is stated once: a listed capture states its own, and then no option may; else the arguments state it.
// Where clap requires `sectors`, or a command has no such option, `sectors_or_listed` is false, and nothing is asked
// here.
fn has_layout(command: Command, form: Form, matches: &ArgMatches<'_>) -> bool
    ensures { result ≡ has_layout command form (rows_of (found_of matches.now)) }
{
    let spec = spec_of(command);
    match form {
        Form::Listed => spec.takes_listed && !states_layout(matches),
        Form::Plain | Form::Marked => !spec.sectors_or_listed || is_given(matches, "sectors"),
    }
}

// Whether an option states the layout or a part of it: these six are what the header of a listed capture states. A
// value that is also the default counts, as it was written.
fn states_layout(matches: &ArgMatches<'_>) -> bool
    ensures { result ≡ states_layout (rows_of (found_of matches.now)) }
{
    is_given(matches, "sectors")
        || is_given(matches, "sectors1")
        || is_given(matches, "shape")
        || is_given(matches, "zones")
        || is_given(matches, "initial")
        || is_given(matches, "tail")
}

// Whether the command's numbers are within its limit. Each was in its own range before: this asks what they make
// together.
fn is_within(limit: Limit, settings: &Settings) -> bool
    ensures { result ≡ is_within limit settings.now.first settings.now.sectors settings.now.sectors1
        settings.now.blocks settings.now.address }
{
    // Sums are of 64 bits, since two numbers of 32 bits may add up to more.
    let sectors = u64::from(settings.sectors);
    match limit {
        Limit::Any => true,
        Limit::Numbers => sectors >= 1 && u64::from(settings.first) + sectors <= 0x100_0000,
        Limit::Addresses => sectors >= 1 && u64::from(settings.address) + sectors <= 450_000,
        Limit::Blocks => settings.blocks >= 1,
        Limit::WholeDisk => sectors + u64::from(settings.sectors1) <= 16_384,
    }
}

// Whether an option is given, whatever its value is.
fn is_given(matches: &ArgMatches<'_>, name: &str) -> bool
    ensures { result ≡ is_given name.now (rows_of (found_of matches.now)) }
{
    given(matches, name).is_some()
}

/// The value of an option, if it is given. A flag always has a value, which says whether it is given. It is public for
/// `dvdcap`, which has flags; no command here has one.
pub fn given<'a>(matches: &ArgMatches<'a>, name: &str) -> Option<&'a str>
    ensures { option_map (λ s. s.now) result ≡ first_of name.now (rows_of (found_of matches.now)) }
{
    matches.get_str(name)
}
