//! The lines of a text: which bytes are made, which arguments are run, and what has to come. Bytes are swapped and not
//! copied where that does, since a copy needs memory and may fail. What runs nothing is kept apart from the runtime,
//! which is handed on and is no part of the state.
use crate::amounts::{add_cases, amount, cases_of, is, put_names};
use crate::made::{append_bytes, do_step};
use crate::runs::{Left, Plan, Runtime, SOUND, run_over};
use dvd_par::{Gate, OpenGate};
use dvd_top::Status;
use sha2::{Digest, Sha256};
use std::alloc::Global;
use std::mem::{replace, swap};

/// What a text works with.
#[derive(Drop)]
pub struct TrialState {
    pub alloc: Global,
    pub line: String, // the line that was tried last
    given: Vec<u8>, // the bytes that cases have in common
    pub case: Vec<u8>,
    pub output: Option<Vec<u8>>, // the whole output, where a text says it
    made: Vec<u8>, // the bytes that are being made
    /// The arguments of each run, with ` or ` between the runs, a word that is no argument, and which of them ran last.
    pub words: String,
    pub last: usize,
    pub plan: Plan, // what the streams of the next run do
    /// What the last run left, the last result that a line states, and what another run left, for a while.
    pub left: Left,
    pub kept: Left,
    pub other: Left,
}

/// The bytes that these steps make, from none. For tests that compare bytes themselves.
pub fn bytes_of(rt: &(impl Runtime + AllocGlobal), text: &str) -> Option<Vec<u8>> {
    let mut trial = TrialState::new(rt.alloc());
    trial.add_made(rt, text)?;
    Some(replace(&mut trial.made, Vec::new(rt.alloc())))
}

// The lines of a text, each group and each line with each of its values.
fn lines_of(alloc: Global, text: &str) -> Option<String> {
    let groups = cases_of(alloc, put_names(alloc, text)?.as_str(), "\n\n", ['[', ']'])?;
    let mut lines = String::new(alloc);
    for line in groups.lines() {
        let (line, _) = line.split_once('#').unwrap_or((line, ""));
        add_cases(line, ['{', '}'], &mut lines)?;
    }
    Some(lines)
}

impl TrialState {
    /// Nothing is made and no run is named: a text that asks for a result before its first `run` doesn't hold.
    pub fn new(alloc: Global) -> TrialState {
        TrialState {
            alloc,
            line: String::new(alloc),
            given: Vec::new(alloc),
            case: Vec::new(alloc),
            output: None,
            made: Vec::new(alloc),
            words: String::new(alloc),
            last: 0,
            plan: SOUND,
            left: Left::new(alloc, SOUND),
            kept: Left::new(alloc, SOUND),
            other: Left::new(alloc, SOUND),
        }
    }

    /// Whether what each line of a text says holds. What a group leaves stays for the next, and texts rest on it.
    pub fn holds(&mut self, rt: &impl Runtime, text: &str) -> Option<()> {
        let lines = lines_of(self.alloc, text)?;
        for line in lines.lines() {
            self.line = String::from_str(self.alloc, line).ok()?;
            self.line_holds(rt, line)?;
        }
        Some(())
    }

    // Does the part before an arrow, and then runs and compares; without an arrow there is the part alone. Any steps
    // would do: these are the least, two shorter than a sector, and one longer than a block. Arrows come first: what
    // must come has colons.
    fn line_holds(&mut self, rt: &impl Runtime, line: &str) -> Option<()> {
        let in_pieces = line.contains("=>");
        let Some((part, wanted)) = line.split_once(if in_pieces { "=>" } else { "->" }) else {
            return self.part_holds(rt, line.trim());
        };
        self.part_holds(rt, part.trim())?;
        self.comes(rt, wanted.trim())?;
        if in_pieces {
            for step in [1, 7, 2047, 40_000] {
                self.stays(rt, 0, Plan { step, ..SOUND })?;
            }
        }
        Some(())
    }

    // One verb and what it is done to. An empty part holds, as a line that only repeats the run has one, and so does a
    // name, which is in its places already. What is none of these verbs names streams, or can't be read.
    fn part_holds(&mut self, rt: &impl Runtime, part: &str) -> Option<()> {
        let (verb, rest) = part.split_once(": ").unwrap_or((part, ""));
        match verb {
            "" | "name" => Some(()),
            "given" | "also" | "output" | "case" => self.make(rt, verb, rest),
            "run" => {
                let (words, steps) = rest.split_once(" over ").unwrap_or((rest, ""));
                self.words = String::from_str(self.alloc, words).ok()?;
                self.make(rt, "given", steps)
            }
            "same result" => self.are_alike(rt, rest),
            "all fail in turn" => self.fail_in_turn(rt, rest),
            "each call stops it" => self.stop_in_turn(rt, rest),
            "pieces begin" => self.ask(rt, rest, false),
            "pieces begin together" => self.ask(rt, rest, true),
            _ => self.set_plan(verb, rest),
        }
    }

    // `also` and `case` begin with the bytes in common, `given` and `output` with none. The bytes in common are also
    // those of a case, until it gets its own. New ones make the output any, but `also` only changes them.
    fn make(&mut self, rt: &impl Runtime, verb: &str, text: &str) -> Option<()> {
        if text.is_empty() {
            return Some(());
        }
        self.made.clear();
        match verb {
            "given" => (self.given, self.output) = (Vec::new(self.alloc), None),
            "output" => {}
            _ => append_bytes(&mut self.made, &self.given)?,
        }
        self.add_made(rt, text)?;
        match verb {
            "output" => self.output = Some(replace(&mut self.made, Vec::new(self.alloc))),
            "case" => swap(&mut self.case, &mut self.made),
            _ => {
                swap(&mut self.given, &mut self.made);
                self.case = self.given.clone().ok()?;
            }
        }
        Some(())
    }

    // Does these steps to the bytes that are being made.
    fn add_made(&mut self, rt: &impl Runtime, text: &str) -> Option<()> {
        for step in text.split(" | ") {
            match step {
                "given" => append_bytes(&mut self.made, &self.given),
                "recorded" => self.record(rt),
                _ if step.contains(" makes ") => self.run_step(rt, step),
                _ => do_step(self.alloc, step, &mut self.made),
            }?;
        }
        Some(())
    }

    // A recording has a block of sixteen sectors, or of what is left after these.
    fn record(&mut self, rt: &impl Runtime) -> Option<()> {
        let sectors = self.made.len() / 2048;
        let blocks = sectors.div_ceil(16);
        let step = format!(in self.alloc; "master --sectors {sectors} makes {blocks} blocks").ok()?;
        self.run_step(rt, step.as_str())
    }

    // `left` is scratch here: what lines ask of a result is asked of `kept`, or at once after a run of their own. The
    // length is stated: so a run that leaves other bytes than its author meant fails here, and not where they are used.
    fn run_step(&mut self, rt: &impl Runtime, step: &str) -> Option<()> {
        let (words, length) = step.split_once(" makes ")?;
        run_over(rt, &OpenGate, words, &self.made, SOUND, &mut self.left)?;
        swap(&mut self.made, &mut self.left.output);
        is(self.left.status == Status::Done && amount(length) == Some(self.made.len()))
    }

    /// Runs the arguments of this number, if any, over the case. What it leaves is in `left`; `last` is to be printed.
    pub fn go(&mut self, rt: &impl Runtime, gate: &impl Gate, k: usize, plan: Plan) -> Option<()> {
        self.last = k;
        let words = self.words.split(" or ").nth(k)?;
        run_over(rt, gate, words, &self.case, plan, &mut self.left)
    }

    // The runs leave what is wanted, each the same. It is kept, as later lines ask for it: by a swap, which needs no
    // memory. The plan is for these runs alone, and the next ones are sound again.
    fn comes(&mut self, rt: &impl Runtime, wanted: &str) -> Option<()> {
        let plan = replace(&mut self.plan, SOUND);
        let (wanted, output) = wanted.split_once(" with ").unwrap_or((wanted, ""));
        self.make(rt, "output", output)?;
        self.go(rt, &OpenGate, 0, plan)?;
        self.has_all(wanted)?;
        swap(&mut self.left, &mut self.kept);
        self.stays(rt, 1, plan)
    }

    /// The runs from this one on leave what is kept: `comes` has done the first already. No worker waits at its gate.
    pub fn stays(&mut self, rt: &impl Runtime, first: usize, plan: Plan) -> Option<()> {
        for k in first..self.words.split(" or ").count() {
            self.go(rt, &OpenGate, k, plan)?;
            self.left.is_same(&self.kept)?;
        }
        Some(())
    }

    // Of `A = B over STEPS`, whether the arguments A leave over the case what B leave over what these steps make. A are
    // then what is run, and what B leave is what is kept.
    fn are_alike(&mut self, rt: &impl Runtime, text: &str) -> Option<()> {
        let (words, others) = text.split_once(" = ")?;
        let (others, steps) = others.split_once(" over ")?;
        self.made.clear();
        self.add_made(rt, steps)?;
        run_over(rt, &OpenGate, others, &self.made, SOUND, &mut self.kept)?;
        self.words = String::from_str(self.alloc, words).ok()?;
        self.stays(rt, 0, SOUND)
    }

    // Whether the last run left what is wanted, where the status goes by its name in the code. Wrong arguments or
    // settings must have been found before anything was read.
    fn has_all(&self, wanted: &str) -> Option<()> {
        let mut facts = wanted.split("; ");
        let ended = facts.next()?;
        for fact in facts {
            self.has(fact)?;
        }
        let (ended, report) = ended.split_once(": ").unwrap_or((ended, "done"));
        let (status, length) = match ended.split_once(", ") {
            Some((status, length)) => (status, amount(length)?),
            None => (ended, self.output.as_ref()?.len()),
        };
        let came = &self.left.output;
        let whole = self.output.as_ref().unwrap_or(came);
        let is_output = came.len() == length && whole.starts_with(came);
        let name = format!(in self.alloc; "{:?}", self.left.status).ok()?;
        let has_begun = !matches!(self.left.status, Status::Usage | Status::Setting);
        let is_end = name.as_str() == status && (has_begun || self.left.watch.read.get() == 0);
        // A report that is cut off ends in `..`, and not in a line.
        let lines = cases_of(self.alloc, report, "/", ['(', ')'])?;
        let lines = lines.strip_suffix("..\n").unwrap_or(lines.as_str());
        is(is_output && is_end && self.left.report.as_slice() == lines.as_bytes())
    }

    // Whether this fact, one of those after `; `, holds of what the last run left.
    fn has(&self, fact: &str) -> Option<()> {
        let (name, rest) = fact.split_once(": ")?;
        let output = &self.left.output;
        match name {
            "read" => is(amount(rest) == Some(self.left.watch.read.get())),
            "last line" => is(output.strip_suffix(b"\n")?.ends_with(rest.as_bytes())),
            "digest" => {
                let digest = hex::decode(self.alloc, rest).ok()?;
                is(digest.as_slice() == Sha256::digest(output).as_slice())
            }
            _ => {
                let came = output.get(amount(name.strip_prefix("at ")?)?..)?;
                is(came.starts_with(&hex::decode(self.alloc, rest).ok()?))
            }
        }
    }
}
