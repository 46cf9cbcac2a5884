//! What a test ends with, and what is printed where the result isn't the one expected.
use crate::amounts::{MARKED_ROW_BYTES, ROW_BYTES};
use crate::runs::Runtime;
use crate::trial::TrialState;

/// Everything holds, or what doesn't.
pub type Held = Result<(), &'static str>;

/// Whether what each line of the text says holds. Where one doesn't, prints it, what was run and what came. The error
/// says no more, since it is a fixed text. `rt` is the runtime of the test: memory, threads and the report.
pub fn hold<R: Runtime + AllocGlobal + Eprint>(rt: &R, text: &str) -> Held {
    let mut trial = TrialState::new(rt.alloc());
    if trial.holds(rt, text).is_none() {
        print(rt, &trial);
        return Err("a line of the text doesn't hold");
    }
    Ok(())
}

/// Whether a line of the text doesn't hold: for tests that what is wrong is refused. Nothing is printed, since that is
/// what such a test wants. A text that can't be read, and want of memory, are such lines too.
pub fn fails(rt: &(impl Runtime + AllocGlobal), text: &str) -> bool {
    TrialState::new(rt.alloc()).holds(rt, text).is_none()
}

// The arguments that ran last, their result, and where the output first differs from the wanted one, if that is said:
// as an image, and as a capture of both forms, since it isn't known here which it is. What can't be printed is let go.
fn print(rt: &impl Eprint, trial: &TrialState) {
    let words = trial.words.split(" or ").nth(trial.last).unwrap_or("");
    let (line, left) = (trial.line.as_str(), &trial.left);
    let (status, length) = (left.status, left.output.len());
    let report = str::from_utf8(&left.report).unwrap_or("bytes that are no text");
    let _ = eprintln!(rt; "{line}\n{words}\ncame: {status:?}, {length} bytes: {report}");
    let output = trial.output.as_ref().unwrap_or(&left.output);
    let mut pairs = output.iter().zip(&left.output).enumerate();
    if let Some((at, (wanted, came))) = pairs.find(|(_, (wanted, came))| **wanted != **came) {
        let (sector, byte) = (at / 2048, at % 2048);
        let _ = eprintln!(rt; "byte {at} is {came} for {wanted}: sector {sector}, byte {byte}");
        print_place(rt, "plain", at / ROW_BYTES, at % ROW_BYTES);
        print_place(rt, "marked", at / MARKED_ROW_BYTES, at % MARKED_ROW_BYTES);
    }
}

// `place` is a number of recorded rows. After twelve rows of data comes one of outer parity: a frame has thirteen.
fn print_place(rt: &impl Eprint, form: &str, place: usize, byte: usize) {
    let (block, f, row) = (place / 208, place % 208 / 13, place % 13);
    let row = if row < 12 { 12 * f + row } else { f + 192 };
    let _ = eprintln!(rt; "in the {form} form: block {block}, row {row}, byte {byte}");
}
