//! The program dvdcap: it makes the real arguments, files and streams, and ends with the status of the run. All else is
//! in cap_words and cap_top, whose calls have contracts.
//!
//! The functions here only make streams and hand them on, and what a file or a terminal gives has no definition. So
//! they have no `ensures` but the one that a call needs, and their clauses `requires` are those of the calls of
//! cap_top. `StdSource` and `StdSink` count the failed calls of a stream, as those contracts ask. `reader` is standard
//! input, and `io::writer` makes a writer of standard output. All output goes to that, and all lines to standard error.
//!
//! `AreValid` and `IsValid` are what the reading of the arguments promises, as from 2 to 16 files, or a width within
//! its bounds.
#![tactic(auto)]

ghost use Rattle.std.specs.Prelude.{◌≡◌, ◌≤◌, length, vec_len, IfOk};
ghost use Rattle.cap_words.specs.Interleave.{IsValid};
ghost use Rattle.cap_words.specs.Reading.{AreValid};

use cap_top::{Status, refuse_words, run_draw, run_interleave, run_lost, run_mark};
use cap_words::{
    DrawSettings, InterleaveSettings, LostSettings, MarkSettings, Settings, WordsFault, read,
};
use dvd_ports::{NoMemory, Sink, StdSink, StdSource};
use std::env;
use std::fs::File;
use std::io::{self, Error, ErrorKind, Read};
use std::process::ExitCode;
use std::rt::Env;

fn main(rt: HostRuntime) -> ExitCode {
    // The report is first, since refused arguments have a line too.
    let mut report = StdSink::new(rt.stderr());
    let status = match words(&rt) {
        Ok(words) => match read(rt.alloc(), &words) {
            Ok(settings) => run(&rt, &settings, &mut report),
            Err(fault) => refuse_words(fault, &mut report),
        },
        Err(NoMemory) => refuse_words(WordsFault::NoMemory, &mut report),
    };
    ExitCode::from(status.number())
}

// Each command has streams of its own: `mark` a file and the input, `interleave` several files, the others the input.
// They are made here, after the arguments are read: only now it is known which are needed. The report is made before,
// and handed on.
fn run<E: Sink>(rt: &HostRuntime, settings: &Settings<'_>, report: &mut E) -> Status
    requires { AreValid settings.now }
{
    match settings {
        Settings::Mark(settings) => mark(rt, settings, report),
        Settings::Interleave(settings) => interleave(rt, settings, report),
        Settings::Lost(settings) => lost(rt, settings, report),
        Settings::Draw(settings) => draw(rt, settings, report),
    }
}

// The map is a file of its own, as the capture is the input.
fn mark<E: Sink>(rt: &HostRuntime, settings: &MarkSettings<'_>, report: &mut E) -> Status {
    let mut map = StdSource::new(Opened::new(rt, settings.map));
    let mut src = StdSource::new(rt.reader());
    let mut out = StdSink::new(io::writer(rt));
    run_mark(rt.alloc(), settings, &mut map, &mut src, &mut out, report)
}

// The captures are files, in the order of the arguments. Without memory to list them the run ends as without memory
// for the arguments, by the same line and status.
fn interleave<E: Sink>(
    rt: &HostRuntime,
    settings: &InterleaveSettings<'_>,
    report: &mut E,
) -> Status
    requires { IsValid settings.now }
{
    let Ok(mut captures) = open_all(rt, settings.files.as_slice()) else {
        return refuse_words(WordsFault::NoMemory, report);
    };
    let mut out = StdSink::new(io::writer(rt));
    run_interleave(rt.alloc(), settings, &mut captures, &mut out, report)
}

// Opens the files of these names, in order. All are opened before anything is written. The clause is what
// `run_interleave` needs: at most sixteen files, as valid settings have. A file that can't be opened is in the list
// too.
fn open_all(rt: &HostRuntime, names: &[&str]) -> Result<Vec<StdSource<Opened>>, NoMemory>
    ensures { IfOk result (λ files. vec_len files ≡ length names.now) }
{
    let mut files = Vec::new(rt.alloc());
    for name in names {
        let file = StdSource::new(Opened::new(rt, name));
        files.push(file).map_err(|_| NoMemory)?;
    }
    Ok(files)
}

// The input is the report that a run of `dvdecc recover` or `deep` wrote, whose lines name the blocks that it refused.
// The output is a map of the image that it wrote, in which the sectors of these are bad, for ddrescue to fill. The
// layout in the settings has to be that of the run: it says which image sectors a block has.
fn lost<E: Sink>(rt: &HostRuntime, settings: &LostSettings, report: &mut E) -> Status {
    let mut src = StdSource::new(rt.reader());
    let mut out = StdSink::new(io::writer(rt));
    run_lost(rt.alloc(), settings, &mut src, &mut out, report)
}

// The input is a survey that `dvdecc survey` wrote. The bounds of the width are those that valid settings have.
fn draw<E: Sink>(rt: &HostRuntime, settings: &DrawSettings, report: &mut E) -> Status
    requires least { 100 ≤ settings.now.width }
    requires most { settings.now.width ≤ 4000 }
{
    let mut src = StdSource::new(rt.reader());
    let mut out = StdSink::new(io::writer(rt));
    run_draw(rt.alloc(), settings, &mut src, &mut out, report)
}

// A file, or none where it couldn't be opened: each read of that fails. So a run names it as it names a read that
// fails, and needs no other way to end.
#[derive(Drop)]
struct Opened {
    file: Option<File>,
}

impl Opened {
    // A name that can't be opened isn't refused here: the first read of it fails. Why it can't be opened is dropped, as
    // `StdSource` drops the kind of each error. So a file that is missing, one that may not be read and a want of
    // memory all end the run as a failed read.
    fn new(rt: &HostRuntime, name: &str) -> Opened {
        Opened {
            file: File::open(rt, name).ok(),
        }
    }
}

impl Read for Opened {
    fn read(&mut self, buf: &mut [u8]) -> io::Result<usize> {
        match &mut self.file {
            Some(file) => file.read(buf),
            // Any kind would do: `StdSource` drops it.
            None => Err(Error::from(ErrorKind::NotFound)),
        }
    }
}

// The arguments after the program's own name; none where one of them isn't UTF-8, which makes a usage error, as no
// argument at all does. Only `OutOfMemory` is a want of memory, which has a status and a line of its own. Here the kind
// is looked at, since no stream is between. Of the runtime it asks for arguments and memory alone.
fn words<R: Env + AllocGlobal>(rt: &R) -> Result<Vec<String>, NoMemory> {
    match env::args(rt) {
        Ok(args) => args.skip(1).collect(rt.alloc()).map_err(|_| NoMemory),
        Err(error) if error.kind() == ErrorKind::OutOfMemory => Err(NoMemory),
        Err(_) => Ok(Vec::new(rt.alloc())),
    }
}
