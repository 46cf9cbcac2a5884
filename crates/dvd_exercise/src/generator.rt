//! Pseudo-random numbers by shifts and exclusive or, and sectors of them.
ghost use Rattle.std.specs.Prelude.{◌≡◌, ◌+◌, ◌/◌, ◌^◌, length};
ghost use Rattle.dvd_block.specs.Buffers.{piece_bytes};
ghost use Rattle.dvd_exercise.specs.Generator.{bytes_from, state_after, state_of, step};

use dvd_block::Piece;

/// A generator with a state of 64 bits. It draws the same words for the same seed, and isn't fit for secrets. It is our
/// own and simple, so that its definition is short: every number that it draws is part of what is proved.
#[derive(Clone, Debug, PartialEq, Eq, Drop)]
pub struct Rand {
    state: u64,
}

impl Rand {
    /// A generator whose state is `seed` + 1. Without the 1 seed 0 would make state 0, from which only zeros are drawn.
    /// A seed has the 32 bits of the option `--seed`, so the sum fits.
    pub fn new(seed: u32) -> Rand
        ensures { state_of result ≡ seed + 1 }
    {
        Rand {
            state: u64::from(seed) + 1,
        }
    }

    /// Draws the next word, which is the new state. `tactic` lets the prover unfold the definition of a step.
    #[tactic(auto, unfolding(crate::specs::Generator::step))]
    pub fn word(&mut self) -> u64
        ensures word { result ≡ step (state_of self.old) }
        ensures state { state_of self.new ≡ step (state_of self.old) }
    {
        // The three shifts are one of the known triples by which a state comes again only after all states but 0. Their
        // numbers and their order are those of the definition, and bits that leave the 64 are dropped.
        self.state ^= self.state << 13;
        self.state ^= self.state >> 7;
        self.state ^= self.state << 17;
        self.state
    }

    /// Draws the next word, and returns its top eight bits. Any eight would do for a test.
    pub fn byte(&mut self) -> u8
        ensures byte { result ≡ step (state_of self.old) / 2 ^ 56 }
        ensures state { state_of self.new ≡ step (state_of self.old) }
    {
        (self.word() >> 56) as u8
    }
}

/// Draws the 32,768 bytes of a piece in order: the sixteen sectors of a block. Nothing of what it had is left.
pub fn fill_piece(rand: &mut Rand, piece: &mut Piece)
    ensures bytes { piece_bytes piece.new ≡ bytes_from (state_of rand.old) 32768 }
    ensures state { state_of rand.new ≡ state_after (state_of rand.old) 32768 }
{
    fill(rand, piece.bytes_mut());
}

// Draws all bytes of a buffer in order. A word is drawn for each, though it has eight bytes: so byte k depends on the
// state after k + 1 words, which is its definition. It is apart from `fill_piece`, as its clauses are of any length.
fn fill(rand: &mut Rand, bytes: &mut [u8])
    ensures bytes { bytes.new ≡ bytes_from (state_of rand.old) (length bytes.old) }
    ensures state { state_of rand.new ≡ state_after (state_of rand.old) (length bytes.old) }
{
    for byte in bytes.iter_mut() {
        *byte = rand.byte();
    }
}
