//! The program dvdecc: it makes the real arguments and streams, and ends with the status of the run. All else is done
//! by `run`, whose contract says what it does. Nothing here has a contract, since of real streams and arguments nothing
//! is known: it is proved only that the program is safe and ends.
#![tactic(auto)]

use dvd_par::OpenGate;
use dvd_ports::{NoMemory, StdSink, StdSource};
use dvd_top::{Status, run};
use std::env;
use std::io::{self, ErrorKind};
use std::process::ExitCode;
use std::rt::Env;

// `OpenGate` lets every worker pass: a gate is for tests, and nothing that comes out depends on it.
fn main(rt: HostRuntime) -> ExitCode {
    let status = match words(&rt) {
        Ok(words) => {
            let mut src = StdSource::new(rt.reader());
            let mut out = StdSink::new(io::writer(&rt));
            let mut report = StdSink::new(rt.stderr());
            run(
                &rt,
                rt.alloc(),
                &words,
                &OpenGate,
                &mut src,
                &mut out,
                &mut report,
            )
        }
        // No run begins, and so no line is written.
        Err(NoMemory) => Status::NoMemory,
    };
    ExitCode::from(status.number())
}

// The arguments after the program's own name; none where one of them isn't UTF-8. No arguments are a usage error, so
// that `run` then writes the line `usage` and gives its status. The error's kind is asked for memory alone. Of the
// runtime it asks for arguments and memory alone.
fn words<R: Env + AllocGlobal>(rt: &R) -> Result<Vec<String>, NoMemory> {
    match env::args(rt) {
        Ok(args) => args.skip(1).collect(rt.alloc()).map_err(|_| NoMemory),
        Err(error) if error.kind() == ErrorKind::OutOfMemory => Err(NoMemory),
        Err(_) => Ok(Vec::new(rt.alloc())),
    }
}
