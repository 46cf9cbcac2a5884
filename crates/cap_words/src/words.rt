//! Reads the arguments of the command line: the word of the command, its options by clap, and their values. Whatever is
//! wrong is one usage error, so `None` says enough. In the clauses `rows_of` are the options that clap finds, with
//! their values. `unfolding` is for the checker: it opens a definition that a clause names.
ghost use Rattle.std.specs.Prelude.{◌≡◌, None, IfOk, IfSome, map, option_map, string_bytes};
ghost use Rattle.clap.specs.Words.{found_of, rows_of};
ghost use Rattle.cap_words.specs.Reading.{Asks, AreValid, asked_by, command_of, reading, settings_of};

use crate::draw::draw_settings;
use crate::interleave::interleave_settings;
use crate::lost::lost_settings;
use crate::mark::mark_settings;
use crate::parser::parser_for;
use crate::settings::{Command, Settings};
use clap::ArgMatches;
use dvd_words::{WordsFault, parse_by};
use std::alloc::Global;

/// The settings that the arguments ask for. `NoMemory` comes only where there is no memory to read them with. The
/// settings borrow their texts from the arguments, so these have to live as long.
#[tactic(auto, unfolding(crate::specs::Reading::reading))]
pub fn read<'a>(alloc: Global, words: &'a [String]) -> Result<Settings<'a>, WordsFault>
    ensures read { IfOk result (Asks (map string_bytes words.now)) }
    ensures usage { result ≡ Err WordsFault.Usage → reading (map string_bytes words.now) ≡ None }
    ensures valid { IfOk result AreValid }
{
    let word = words.first().ok_or(WordsFault::Usage)?;
    let command = command_named(word.as_str()).ok_or(WordsFault::Usage)?;
    // The word of the command is handed on too: clap passes over it, as over a program's name.
    let matches = parse_by(parser_for(alloc, command)?, words)?;
    settings(command, &matches).ok_or(WordsFault::Usage)
}

// The command of a word, which is the first argument, byte by byte: no capitals, and no short form. It is read before
// clap is called, which reads its options alone.
fn command_named(word: &str) -> Option<Command>
    ensures { result ≡ command_of word.now }
{
    match word {
        "mark" => Some(Command::Mark),
        "interleave" => Some(Command::Interleave),
        "lost" => Some(Command::Lost),
        "draw" => Some(Command::Draw),
        _ => None,
    }
}

// Each option by its form, by the module of the command. `AreValid` is what the runs of the commands require of their
// settings: of `interleave` the number of files, and which forms may be filled; of `draw` the width; of the others
// nothing.
fn settings<'a>(command: Command, matches: &ArgMatches<'a>) -> Option<Settings<'a>>
    ensures value { option_map asked_by result ≡ settings_of command (rows_of (found_of matches.now)) }
    ensures valid { IfSome result AreValid }
{
    match command {
        Command::Mark => Some(Settings::Mark(mark_settings(matches)?)),
        Command::Interleave => Some(Settings::Interleave(interleave_settings(matches)?)),
        Command::Lost => Some(Settings::Lost(lost_settings(matches)?)),
        Command::Draw => Some(Settings::Draw(draw_settings(matches)?)),
    }
}
