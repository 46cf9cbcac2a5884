//! A command, seen from the loop. Its units are a definition, and the clauses of its calls say that it does what that
//! allows. The calls have no bodies here: each command of the programs has its own.
//! What a clause sees of a stream is its `Seen`: bytes and counts of faults. Where a call isn't handed the source, a
//! clause is of any, which stays as it is. The clauses `causes` say that no call of a stream failed, or that the end is
//! that of the one that did, the last of its stream.
ghost use Rattle.std.specs.Prelude.{◌≡◌, ◌<◌, ℕ, List, length, Ok, IfErr};
ghost use Rattle.dvd_ports.specs.Seen.{Seen};
ghost use Rattle.dvd_loop.specs.Machine.{Units};
ghost use Rattle.dvd_loop.specs.Streams.{streams};
ghost use Rattle.dvd_loop.specs.UnitCommand.{AreSteps, HaveCausesFor, IsReadyFor, ClosesUnits, Processes};
ghost use Rattle.dvd_loop.specs.declared.ends.LoopEnd.{LoopEnd as HowItEnds};

use crate::{AfterLast, LoopEnd, Processed, UnitKind};
use dvd_ports::{Sink, Source};

/// A command that goes over its input unit by unit. The streams are parameters, since a run has one of each.
pub trait UnitCommand<S: Source, K: Sink, E: Sink> {
    /// What its units depend on, and the ghost names of the references that it holds: what these refer to may change,
    /// and which they are stays. No unit changes it. Units are too large a thing for a clause to compare before and
    /// after a call.
    ghost Key: { Type 0 };

    /// The key of this command.
    ghost key: { Self → Key };

    /// Its units.
    ghost units: { Key → Units };

    /// It is ready for the unit after these: what its buffers and counts are after units with these bytes.
    ghost ready: { Self → List (List ℕ) → Type 0 };

    /// What it leaves where the loop ends in this way, for a caller that looks at its buffers after the run. Most leave
    /// nothing that is said.
    ghost left: { Self → HowItEnds → Type 0 };

    /// How many units there are: the loop asks once, after `open`.
    fn count(&self) -> u32
        ensures { result ≡ (units (key self.now)).count };

    /// What comes after the last unit.
    fn after_last(&self) -> AfterLast
        ensures { result ≡ (units (key self.now)).after_last };

    /// Writes and reports what comes before the first unit. It has no default body: that would have to be proved for
    /// all units, though most commands open with nothing.
    fn open(&self, out: &mut K, report: &mut E) -> Result<(), LoopEnd>
        ensures opens { (source : Seen) → AreSteps (units (key self.now)).opens
            (streams source (K.seen out.old) (E.seen report.old)) (streams source (K.seen out.new) (E.seen report.new)) result }
        ensures causes { (source : Seen) → HaveCausesFor result
            (streams source (K.seen out.old) (E.seen report.old)) (streams source (K.seen out.new) (E.seen report.new)) }
        ensures left { IfErr result (left self.now) };

    /// Reads unit `k`, does its steps in order, each of which writes bytes or reports a line, and answers the kind of
    /// the unit. Where the input ends within the unit, or a call of a stream fails, the answer is the end of the loop
    /// that says so, and nothing is done after it: of the unit's steps only those before. So says `Processes`, of a
    /// command that is ready for the unit (`IsReadyFor`: the units before have been done), with the causes of its
    /// faults. It alone may change the command, whose buffers are used again, and it alone is handed the source.
    fn process(&mut self, k: u32, src: &mut S, out: &mut K, report: &mut E) -> Processed
        requires unit { k < (units (key self.old)).count }
        requires ready { IsReadyFor k (ready self.old) }
        ensures same { key self.new ≡ key self.old }
        ensures processed { Processes (units (key self.old)) k (ready self.old) (ready self.new)
            (streams (S.seen src.old) (K.seen out.old) (E.seen report.old))
            (streams (S.seen src.new) (K.seen out.new) (E.seen report.new)) result }
        ensures left { IfErr result (left self.new) }
        ensures last { result ≡ Ok UnitKind.Last → left self.new LoopEnd.Done };

    /// Writes and reports what comes after the last unit, before one more byte is requested. It isn't called after a
    /// unit that ended the loop. What it writes is promised only of a command that is ready after all units, which
    /// `closes` and `left` ask for themselves, so that the loop needn't show it before the call. In any other state the
    /// call has to be safe and to name the causes of its faults: `causes` is of any state. The last clause is of any
    /// end, since the loop's is known only after that byte.
    fn close(&self, out: &mut K, report: &mut E) -> Result<(), LoopEnd>
        ensures closes { (source : Seen) → ClosesUnits (units (key self.now)) (ready self.now)
            (streams source (K.seen out.old) (E.seen report.old)) (streams source (K.seen out.new) (E.seen report.new)) result }
        ensures causes { (source : Seen) → HaveCausesFor result
            (streams source (K.seen out.old) (E.seen report.old)) (streams source (K.seen out.new) (E.seen report.new)) }
        ensures left { (before : List (List ℕ)) → length before ≡ (units (key self.now)).count
            → ready self.now before → (end : HowItEnds) → left self.now end };
}
