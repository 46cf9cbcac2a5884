//! Numbers, amounts of bytes and lists of numbers, and texts that have a value for each of several cases.
//! A text may have any number, so sums and products are checked or stop at the largest number: nothing overflows.
use std::alloc::Global;

/// The bytes of a row, of one with marks, a bit for each, and of a block of 208 plain rows: no crate below has them.
pub const ROW_BYTES: usize = 182;

pub const MARKED_ROW_BYTES: usize = 205;

pub const BLOCK_BYTES: usize = 37_856;

/// Whether this holds, as an answer for `?`: so a line ends in one way where a thing doesn't hold or can't be read.
pub fn is(holds: bool) -> Option<()> {
    holds.then_some(())
}

/// A number, of decimal digits without commas.
pub fn number(text: &str) -> Option<usize> {
    text.parse::<usize>().ok()
}

/// How many bytes, as `1 block` or `2 blocks and 5 bytes`.
pub fn amount(text: &str) -> Option<usize> {
    let mut bytes: usize = 0;
    for term in text.split(" and ") {
        let (count, unit) = term.split_once(' ')?;
        let size = match unit.strip_suffix('s').unwrap_or(unit) {
            "byte" => 1,
            "row" => ROW_BYTES,
            "sector" => 2048, // of a DVD
            "frame" => BLOCK_BYTES / 16,
            "block" => BLOCK_BYTES,
            "marked block" => 208 * MARKED_ROW_BYTES,
            _ => return None,
        };
        bytes = bytes.checked_add(number(count)?.checked_mul(size)?)?;
    }
    Some(bytes)
}

/// Numbers at equal distances: so many of them from the first on.
#[derive(Clone, Copy)]
pub struct Numbers {
    pub first: usize,
    pub step: usize,
    pub count: usize,
}

impl Numbers {
    /// As `3`, `0 to 15` or `0 to 206 step 2`. Both ends belong to them, as far as the steps meet the last. Refused are
    /// a last number below the first, and the step 0, by which nothing can be divided.
    pub fn new(text: &str) -> Option<Numbers> {
        let (range, step) = text.split_once(" step ").unwrap_or((text, "1"));
        let (first, last) = range.split_once(" to ").unwrap_or((range, range));
        let (first, step) = (number(first)?, number(step)?);
        let steps = number(last)?.checked_sub(first)?.checked_div(step)?;
        let count = steps.saturating_add(1);
        Some(Numbers { first, step, count })
    }

    /// Number `k` of them, from 0 on.
    pub fn get(&self, k: usize) -> usize {
        self.first.saturating_add(k.saturating_mul(self.step))
    }
}

/// The text with what its lines `name: NAME = TEXT` say in place of each `<NAME>`. Other names stay, to be refused.
pub fn put_names(alloc: Global, text: &str) -> Option<String> {
    let mut spelt = String::from_str(alloc, text).ok()?;
    for line in text.lines() {
        if let Some(definition) = line.strip_prefix("name: ") {
            let (name, value) = definition.split_once(" = ")?;
            let name = format!(in alloc; "<{name}>").ok()?;
            spelt = spelt.replace(alloc, name.as_str(), value).ok()?;
        }
    }
    Some(spelt)
}

/// The cases of the parts of a text, with this between two of them: groups, or the lines of a report with `/`, since a
/// text is read line by line, so that it can't have their ends itself. No line that is wanted has a `/`.
pub fn cases_of(alloc: Global, text: &str, between: &str, brackets: [char; 2]) -> Option<String> {
    let mut cases = String::new(alloc);
    for part in text.split(between) {
        add_cases(part, brackets, &mut cases)?;
    }
    Some(cases)
}

/// Adds the cases of a text, each with a line end: with the first value of each list in these brackets, the second, and
/// so on: as many as the longest list has, or one. A shorter list fails at its end, so that no case is passed over.
pub fn add_cases(text: &str, brackets: [char; 2], cases: &mut String) -> Option<()> {
    for k in 1..add_case(text, brackets, 0, cases)? {
        add_case(text, brackets, k, cases)?;
    }
    Some(())
}

// Adds case `k`, and answers how many cases there are.
fn add_case(text: &str, brackets: [char; 2], k: usize, cases: &mut String) -> Option<usize> {
    let mut parts = text.split(brackets[0]);
    cases.push_str(parts.next()?).ok()?;
    let mut count = 1;
    for part in parts {
        let (list, rest) = part.split_once(brackets[1])?;
        count = add_value(list, k, cases)?.max(count);
        cases.push_str(rest).ok()?;
    }
    cases.push('\n').ok()?;
    Some(count)
}

// Adds value `k` of a list, and answers how many it has. What has no comma is numbers: a single word is refused.
fn add_value(list: &str, k: usize, cases: &mut String) -> Option<usize> {
    if list.contains(", ") {
        cases.push_str(list.split(", ").nth(k)?).ok()?;
        return Some(list.split(", ").count());
    }
    let numbers = Numbers::new(list)?;
    is(k < numbers.count)?;
    write!(cases, "{}", numbers.get(k)).ok()?;
    Some(numbers.count)
}
