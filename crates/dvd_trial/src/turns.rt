//! Runs in which something fails in turn, or whose workers are counted. `kept` is the result that a line stated last,
//! with which `left`, that of the run at hand, is compared.
use crate::amounts::{amount, is, number};
use crate::gate::Counting;
use crate::runs::StreamCall::{self, Flush, FlushReport, Read, Report, Write};
use crate::runs::{Left, Plan, Runtime, SOUND};
use crate::trial::TrialState;
use dvd_par::OpenGate;
use dvd_top::Status;
use std::mem::swap;

impl TrialState {
    /// `reads: 700 bytes a call`, which `, call 2 fails` may follow: what the streams of the next run do.
    pub fn set_plan(&mut self, verb: &str, text: &str) -> Option<()> {
        let (step, count) = match text.split_once(" a call, call ") {
            Some((step, count)) => (step, number(count.strip_suffix(" fails")?)?),
            None => (text.strip_suffix(" a call")?, SOUND.count),
        };
        self.plan = plan_of(step, verb, count)?;
        Some(())
    }

    /// `9 reads of 5000 bytes, 16 writes of 700 bytes`. Last the call after these is to fail, which doesn't come: so
    /// all runs leave the same, and the number of calls is exact. Where one fails only the first arguments are run.
    pub fn fail_in_turn(&mut self, rt: &impl Runtime, text: &str) -> Option<()> {
        for part in text.split(", ") {
            let (calls, part) = part.split_once(' ')?;
            let (call, step) = part.split_once(" of ")?;
            let after_all = plan_of(step, call, number(calls)?)?;
            for count in 0..after_all.count {
                self.fail_once(rt, Plan { count, ..after_all })?;
            }
            self.stays(rt, 0, after_all)?;
        }
        Some(())
    }

    // After a failed read all is there that a run over only the bytes read leaves, which ends by its input's end.
    fn fail_once(&mut self, rt: &impl Runtime, plan: Plan) -> Option<()> {
        self.go(rt, &OpenGate, 0, plan)?;
        if plan.call != Read {
            return self.leaves_prefix(plan.call, &self.kept);
        }
        let end = self.left.watch.read.get();
        swap(&mut self.left, &mut self.other);
        self.go(rt, &OpenGate, 0, Plan { end, ..SOUND })?;
        swap(&mut self.left, &mut self.other);
        self.leaves_prefix(Read, &self.other)
    }

    // It left a prefix of what this whole run left, with the fault in place of the rest of the lines; where the report
    // has failed, no line says the fault. After a failed read all is there but the closing line, whichever it is, since
    // how the whole run closes doesn't count. After a failed write the lines are whole: one that was begun would be no
    // line of the report. Where only the closing line wasn't reported, all was written.
    fn leaves_prefix(&self, call: StreamCall, whole: &Left) -> Option<()> {
        let left = &self.left;
        let (status, fault) = match call {
            Read => (Status::ReadFault, "read fault\n"),
            Write => (Status::WriteFault, "write fault\n"),
            _ => (Status::ReportFault, ""),
        };
        let lines = left.report.strip_suffix(fault.as_bytes())?;
        let rest = whole.report.strip_prefix(lines)?;
        let is_all = left.output.len() == whole.output.len();
        let is_right = match call {
            Read => is_all && is_last_line(rest),
            Write => !rest.is_empty() && (lines.is_empty() || lines.ends_with(b"\n")),
            _ => is_all || !is_last_line(rest),
        };
        let is_end = left.status == status && whole.status != Status::NoMemory;
        is(is_right && is_end && whole.output.starts_with(&left.output))
    }

    /// `7 calls of 700 bytes`. That nothing is tried again is what `run_over` tests.
    pub fn stop_in_turn(&mut self, rt: &impl Runtime, text: &str) -> Option<()> {
        let (calls, step) = text.split_once(" calls of ")?;
        let plan = plan_of(step, "reads", number(calls)?)?;
        for end in [SOUND.end, self.case.len().saturating_sub(1)] {
            for k in 0..self.words.split(" or ").count() {
                for count in 0..plan.count {
                    for call in [Read, Write, Flush, Report, FlushReport] {
                        let plan = Plan { count, end, ..plan };
                        self.go(rt, &OpenGate, k, Plan { call, ..plan })?;
                        let has_stopped = self.left.watch.stopped.get().is_some();
                        is(has_stopped || self.left.status == Status::Done)?;
                    }
                }
            }
        }
        Some(())
    }

    /// `3 pieces, 2 times each`. Pieces that meet do so in one of five runs: a run in which a worker begins too late is
    /// tried again. Five is any.
    pub fn ask(&mut self, rt: &impl Runtime, text: &str, meets: bool) -> Option<()> {
        for k in 0..self.words.split(" or ").count() {
            let mut is_met = false;
            for _ in 0..if meets { 5 } else { 1 } {
                let gate = Counting::new(text, meets)?;
                self.go(rt, &gate, k, SOUND)?;
                is_met = is_met || self.left.status == Status::Done && gate.is_met();
            }
            is(is_met)?;
        }
        Some(())
    }
}

// The plan by which a call of this kind fails. Flushes have no name, as only `stop_in_turn` lets them fail.
fn plan_of(step: &str, call: &str, count: usize) -> Option<Plan> {
    let mut plan = Plan { count, ..SOUND };
    plan.step = amount(step)?;
    plan.call = match call.strip_suffix('s').unwrap_or(call) {
        "read" => Read,
        "write" => Write,
        "report" => Report,
        _ => return None,
    };
    Some(plan)
}

// Whether this is a line or the end of one, of which a write may have taken the beginning, with nothing after it.
fn is_last_line(text: &[u8]) -> bool {
    text.strip_suffix(b"\n")
        .is_some_and(|line| !line.contains(&b'\n'))
}
