//! What holds of every physical format. Each function's contract is a law of the definitions; the bodies are empty.
//! Nobody has to call one: the crate is proved only if each law is. They are public because what they ensure is
//! promised of the crate. `using` names the lemmas of a proof.
ghost use Rattle.dvd_control.specs.Laws.{FormatNamesTheLastSector, WrittenFormatsAreValid, WrittenFormatsAreReadBack};

/// A sector that `to_bytes` writes, of any physical format, breaks no rule: `from_bytes` doesn't refuse it. The rules,
/// those of `ControlFault`, hold by what `to_bytes` writes and by the ghost fields of the type, which bound its
/// numbers.
#[tactic(auto, using(crate::proofs::RoundTrip::written_laws))]
pub fn written_formats_are_valid()
    ensures { WrittenFormatsAreValid }
{}

/// What is written is read back: the sector of a physical format states the same eleven fields.
#[tactic(auto, using(crate::proofs::RoundTrip::written_laws))]
pub fn written_formats_are_read_back()
    ensures { WrittenFormatsAreReadBack }
{}

/// The last sector that a physical format names is that of the last frame of the plan's last data block, padding too.
/// It is of a layer that has a lead-in. The block is on that layer, or on the opposite track path on layer 1, where the
/// Data Zone ends. The format has the number by a formula, and the plan has blocks: this says that they agree.
pub fn format_names_the_last_sector()
    ensures { FormatNamesTheLastSector }
{}
