//! A buffer for the Main Data of the sixteen sectors of a block. The clause `writes_back` says that after a loan it has
//! what was written through the loan. The ghost field `size` takes no memory: it is a fact of each piece, which no loan
//! changes, as a slice can't grow.
ghost use Rattle.std.specs.Prelude.{◌≡◌, length, vec_len, IfOk, replicate};

use dvd_ports::NoMemory;
use std::alloc::Global;

/// 32,768 bytes, sixteen times 2,048, whose memory is taken once. Commands that make blocks have one for their input,
/// and `deep` has one for the sectors that its rounds find.
#[derive(Drop)]
pub struct Piece {
    bytes: Vec<u8>,
    pub ghost size: { vec_len bytes ≡ 32768 },
}

impl Piece {
    ghost use Rattle.dvd_block.specs.Buffers.{piece_bytes};
    ghost use Rattle.dvd_block.specs.Lends.{LendsPiece};
    ghost use Rattle.std.specs.Borrow.{sem};

    /// Zeros. `NoMemory` may come at any time, and nothing is taken then. It is the only way to fail, so that nothing
    /// of the failure is lost.
    pub fn new(alloc: Global) -> Result<Piece, NoMemory>
        ensures { IfOk result (λ piece. piece_bytes piece ≡ replicate 32768 0) }
    {
        let bytes = vec![in alloc; 0; 32768].map_err(|_| NoMemory)?;
        Ok(Piece { bytes })
    }

    /// The bytes.
    pub fn bytes(&self) -> &[u8]
        ensures bytes { result.now ≡ piece_bytes self.now }
        ensures size { length result.now ≡ 32768 }
    {
        &self.bytes
    }

    /// The bytes, lent for writing. Their number stays.
    pub fn bytes_mut(&mut self) -> &mut [u8]
        ensures* writes_back { sem 𝓛 (LendsPiece self.entry result) }
        ensures bytes { result.now ≡ piece_bytes self.old }
        ensures size { length result.now ≡ 32768 }
    {
        &mut self.bytes
    }
}
