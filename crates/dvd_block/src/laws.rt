//! What holds of every block. Each function's contract is a law of the definitions; the bodies are empty. Nobody has to
//! call one: the crate is proved only if each law is. They are public because what they ensure is promised of the
//! crate. The block of sixteen frames has 208 rows of 182 bytes, each a codeword with ten parity bytes, and each of its
//! columns is one with sixteen. Its rows 12f to 12f+11 begin with frame f, 172 bytes in each. Nothing is said of how
//! parity is computed, so both laws are needed to know that there is exactly one such block.
ghost use Rattle.dvd_block.specs.Laws.{OneBlockAtMost, SomeBlock};

/// Sixteen frames have at most one block: the frames determine all parity.
pub fn frames_have_one_block_at_most()
    ensures { OneBlockAtMost }
{}

/// Sixteen frames of 2,064 bytes each have a block. It is needed that rows of outer parity are codewords too, which
/// nobody sets: they are, since the codes are linear.
pub fn frames_have_some_block()
    ensures { SomeBlock }
{}
