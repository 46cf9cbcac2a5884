//! What holds of the runs of every command: each function's contract is one law, and its body is empty. Nobody calls
//! them. They are public because what they ensure is promised of the crate. The streams are type parameters, as a
//! command has them, and no law reads or writes one. `()` is all that a call gives: what counts is that the clause is
//! proved.
//!
//! A law is about the units of a command, for any key: what of a command its units depend on, as its layout. The units
//! say how many there are, how the bytes of each begin, and what steps may be done for it: writes and lines. An outcome
//! over some bytes is what was read of them, the output, the report without its closing line, and the end. It is one
//! that these units allow. A fault is a failed read, a failed write or a failed line, each of which ends the run.
ghost use Rattle.std.specs.Prelude.{◌≡◌};
ghost use Rattle.dvd_loop.specs.Laws.{OutcomesAgree, OutcomeExists, ReadFaultEndsInput, FaultsLeavePrefixes, EndsBySize};

use crate::UnitCommand;
use dvd_ports::{Sink, Source};

/// Two outcomes over the same bytes that no fault ended have the same output, report and end. So much is read as well,
/// but for a unit whose bytes break a rule: a command may stop in it early or late. Two conditions are within the
/// clause, and dvd_commands proves them for each command: one list of steps and one kind may come of each unit, and
/// bytes after a unit don't change where it ends or that it breaks a rule.
pub fn outcomes_agree<C: UnitCommand<S, K, E>, S: Source, K: Sink, E: Sink>()
    ensures { (key : C.Key) → OutcomesAgree (C.units key) }
{}

/// Any bytes have an outcome that no fault ended. Without it, the contract of a loop, which says that an outcome is one
/// that the units allow, could allow none, and `outcomes_agree` could speak of nothing. Its conditions are within the
/// clause, and dvd_commands proves them for each command: the bytes always begin with a whole unit, or a part of one,
/// or one that breaks a rule, and some steps may be done for each unit and after the last.
pub fn an_outcome_exists<C: UnitCommand<S, K, E>, S: Source, K: Sink, E: Sink>()
    ensures { (key : C.Key) → OutcomeExists (C.units key) }
{}

/// Where a read failed, the bytes that were read are an input that has an outcome with the same output and report, and
/// no fault. So a failed read leaves what the end of the input there would leave; the end of the run alone differs.
pub fn a_read_fault_ends_the_input<C: UnitCommand<S, K, E>, S: Source, K: Sink, E: Sink>()
    ensures { (key : C.Key) → ReadFaultEndsInput (C.units key) }
{}

/// For each outcome, also one that a fault ended, there is one of the same bytes that no fault ended, whose output and
/// report begin with those of the first. Its conditions are those of `an_outcome_exists`.
pub fn faults_leave_prefixes<C: UnitCommand<S, K, E>, S: Source, K: Sink, E: Sink>()
    ensures { (key : C.Key) → FaultsLeavePrefixes (C.units key) }
{}

/// Where all units have one size, none ends the run as the one that was looked for, and one more byte is requested
/// after the last, the end without a fault says how long the input is: it ended in unit k after so many bytes
/// (`Short`), or after the last unit (`Done` or `Damaged`), or it goes on there (`Long`). At most that one more byte is
/// read.
pub fn ends_by_size<C: UnitCommand<S, K, E>, S: Source, K: Sink, E: Sink>()
    ensures { (key : C.Key) → EndsBySize (C.units key) }
{}
