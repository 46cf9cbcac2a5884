//! Worked examples of whole runs, as tests: the values come from the standard and from other programs.
#![tactic(auto)]

#[cfg(test)]
mod tests;
