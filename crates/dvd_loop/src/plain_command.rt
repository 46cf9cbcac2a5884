//! A command whose units are independent: nothing opens or closes them, and the input has to end after the last. Most
//! commands are such. They give two calls here, where `UnitCommand` asks for five. `seen` is what a clause sees of a
//! stream: its bytes, how often it failed and ended, and whether its last call did either.
ghost use Rattle.std.specs.Prelude.{◌≡◌, ◌<◌};
ghost use Rattle.dvd_loop.specs.Machine.{IsOutcome, Units};
ghost use Rattle.dvd_loop.specs.Streams.{streams, HasEnded};
ghost use Rattle.dvd_loop.specs.UnitCommand.{ArePlain, ProcessesPlain};

use crate::{AfterLast, LoopEnd, Processed, UnitCommand, run_owned};
use dvd_ports::{Sink, Source};

/// A command whose units are independent: the processing of one is right whatever came before it.
pub trait PlainCommand<S: Source, K: Sink, E: Sink> {
    /// What its units depend on, and the ghost names of the references that it holds: what these refer to may change,
    /// and which they are stays. No unit changes it.
    ghost Key: { Type 0 };

    /// The key of this command.
    ghost key: { Self → Key };

    /// Its units.
    ghost units: { Key → Units };

    /// It can process a unit: its buffers are fit for it.
    ghost ready: { Self → Type 0 } = { λ _. Unit {0} };

    /// Nothing opens or closes its units, and the input has to end after the last. A proof of it, that each command
    /// gives: `run_plain` rests on it, since it does nothing there.
    ghost alone: { (key : Key) → ArePlain (units key) };

    /// How many units there are: the loop asks once.
    fn count(&self) -> u32
        ensures { result ≡ (units (key self.now)).count };

    /// Reads unit `k`, does its steps in order, which are the bytes that it writes and the lines that it reports, and
    /// answers the kind of the unit: Last ends the loop. Where the input ends or a call fails it answers how the loop
    /// ends, and does nothing more. `ProcessesPlain` says all this, whatever units came before.
    fn process(&mut self, k: u32, src: &mut S, out: &mut K, report: &mut E) -> Processed
        requires unit { k < (units (key self.old)).count }
        requires ready { ready self.old }
        ensures same { key self.new ≡ key self.old }
        ensures ready { ready self.new }
        ensures processed { ProcessesPlain (units (key self.old)) k
            (streams (S.seen src.old) (K.seen out.old) (E.seen report.old))
            (streams (S.seen src.new) (K.seen out.new) (E.seen report.new)) result };
}

// A plain command as the loop sees it: it opens and closes with nothing, and one more byte is requested after its last
// unit.
// A type of its own: where a trait has parameters, an impl for all plain commands could clash with another. It is
// `Drop`, since `run_owned` lets go of it.
#[derive(Drop)]
struct Plain<P> {
    command: P,
}

impl<S: Source, K: Sink, E: Sink, P: PlainCommand<S, K, E>> UnitCommand<S, K, E> for Plain<P> {
    ghost Key = { P.PlainCommand.Key };

    ghost key = { λ plain. P.PlainCommand.key plain.command };

    ghost units = { P.PlainCommand.units };

    ghost ready = { λ plain _. P.PlainCommand.ready plain.command };

    ghost left = { λ _ _. Unit {0} };

    fn count(&self) -> u32 {
        self.command.count()
    }

    fn after_last(&self) -> AfterLast {
        AfterLast::EndOfInput
    }

    fn open(&self, _out: &mut K, _report: &mut E) -> Result<(), LoopEnd> {
        Ok(())
    }

    fn process(&mut self, k: u32, src: &mut S, out: &mut K, report: &mut E) -> Processed {
        self.command.process(k, src, out, report)
    }

    fn close(&self, _out: &mut K, _report: &mut E) -> Result<(), LoopEnd> {
        Ok(())
    }
}

/// Goes over the units of a command, as `run_units` does, and checks that the input ends after the last. The command is
/// handed over, since nobody looks at what a plain one leaves.
pub fn run_plain<P: PlainCommand<S, K, E> + Drop, S: Source, K: Sink, E: Sink>(
    command: P,
    src: &mut S,
    out: &mut K,
    report: &mut E,
) -> LoopEnd
    requires { P.ready command }
    ensures { HasEnded (IsOutcome (P.units (P.key command)))
        (streams (S.seen src.old) (K.seen out.old) (E.seen report.old))
        (streams (S.seen src.new) (K.seen out.new) (E.seen report.new)) result }
{
    run_owned(Plain { command }, src, out, report)
}
