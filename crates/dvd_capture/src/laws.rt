//! What holds of every captured block: each function's contract is one law, and its body is empty. Nobody has to call
//! one: the crate is proved only if each law is. They are public because what they ensure is promised of the crate.
//! `using` names the lemma that a law is. In the first pass each received row is answered by the codeword near it, or
//! by none, where it is a failed row. A block has two-pass agreement with 208 received rows and their marks where each
//! of its rows and columns is a codeword, and each column costs at most 16: two for each row answer that differs there,
//! and one for each failed row. These are notions of `coding`, which has no proofs; their laws are here, since the
//! stages of `Work` rest on them.
ghost use Rattle.dvd_capture.specs.Laws.{HeadersDiffer, MarksHaveASpelling, MarksHaveOneSpelling, RecordingIsCaptured, TwoPassIsOnlyOne, WithinIsTwoPass};

/// At most one block has two-pass agreement with received rows and marks. So what is found at stage Fixed is the block
/// that two passes determine, whoever found it.
#[tactic(auto, using(crate::proofs::Columns::two_pass_once))]
pub fn two_pass_block_is_only_one()
    ensures { TwoPassIsOnlyOne }
{}

/// Within the bound on damage it is the block that was recorded. The damage is what differs from that block: a row is
/// good where twice its wrong bytes without a mark, plus its marks, are at most 10. Any other is lost where it has more
/// than 10 marks, else bad. The bound is that twice the bad rows plus the lost ones are at most 16.
#[tactic(auto, using(crate::proofs::Bound::within_agrees))]
pub fn recorded_block_is_found_within_the_bound()
    ensures { WithinIsTwoPass }
{}

/// The recording of a block, captured in the plain form, is that block: its 208 rows are written in the order of
/// recording, and put back into the order of the block. Whether they are codewords doesn't matter.
#[tactic(auto, using(crate::proofs::RecordedRows::recording_captured))]
pub fn recording_is_captured()
    ensures { RecordingIsCaptured }
{}

/// Rows and marks have at most one unit in the listed form: the bytes of the rows, and then runs of marked places that
/// break no rule of the form. Runs ascend and don't touch, so that the same marks can't be listed in two ways.
#[tactic(auto, using(crate::proofs::OneSpelling::one_spelling))]
pub fn marks_have_one_spelling()
    ensures { MarksHaveOneSpelling }
{}

/// And 208 rows of 182 bytes, with a mark or none at each place, have such a unit: there are never more runs than the
/// form allows. So whatever was captured can be written in the listed form.
#[tactic(auto, using(crate::proofs::ListedWritten::some_spelling))]
pub fn marks_have_a_spelling()
    ensures { MarksHaveASpelling }
{}

/// The bytes of a header are those of no other: two headers with the same 32 bytes state the same shape, zones and four
/// lengths. The lengths have 32 bits, as their type has.
#[tactic(auto, using(crate::proofs::Headers::headers_differ))]
pub fn headers_differ()
    ensures { HeadersDiffer }
{}
