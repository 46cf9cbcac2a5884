//! How a pass over rows or columns is cut into pieces, one for each worker at most. Each piece is done when the pass
//! ends, so that the next pass sees all of this one. Items are rows, columns or their cells. A closure is proved by its
//! own clauses, so these repeat what the function around it knows.
ghost use Rattle.std.specs.Prelude.{ℕ, ◌<◌, ◌≤◌, length};
ghost use Rattle.std.specs.Fork.{AcceptsAt, AcceptsChunksMut, ChangesAt};
ghost use Rattle.dvd_par.specs.Cutting.{IsDoneInPieces, IsPieceSize};

use crate::gate::Gate;
use std::thread::{Threads, for_each_chunk_mut};

/// How many of `total` rows or columns a piece has: the least number with which so many workers do them all. It is
/// rounded up, so that the last piece may be shorter and a worker may have none. It isn't rounded to the 32 of a
/// vector: 208 rows would then be seven pieces at most, and workers beyond seven would have none. Tests ask it too.
pub fn piece_size(total: usize, workers: u8) -> usize
    requires workers { 1 ≤ workers }
    requires some { 1 ≤ total }
    ensures { IsPieceSize total workers result }
{
    total.div_ceil(usize::from(workers))
}

/// Does `work` on each piece of the items, with the place where the piece begins. The last piece is done on this
/// thread, and each other in a thread of its own where one can be made, or else on this one. The gate is asked once for
/// each piece, by the thread that then does it. `work` has to accept pieces of any size, so that no caller needs to
/// know this one. It is shared, so it can change its piece and nothing else. `rt` is the runtime, which makes the
/// threads.
pub fn for_each_piece<R: Threads + Sync, G: Gate, T: Send, F: Fn(usize, &mut [T]) + Sync>(
    rt: &R,
    workers: u8,
    gate: &G,
    items: &mut [T],
    work: &F,
)
    requires workers { 1 ≤ workers }
    requires some { 1 ≤ length items.old }
    requires accepts { (size : ℕ) → AcceptsChunksMut F.Fn work.now size items.old }
    ensures { IsDoneInPieces F.Fn work.now workers items.old items.new }
{
    let size = piece_size(items.len(), workers);
    // The gate sees the number of a piece, and the work the place where it begins. All pieces but the last have the
    // same size, so the division gives the number. `size` isn't 0, as there are items.
    let asked = |start: usize, piece: &mut [T]|
        requires { (0 < size) × AcceptsAt F.Fn work.now start piece.now }
        ensures { ChangesAt F.Fn work.entry.now start piece.entry.now piece.exit.now }
    { ask_and_do(gate, start / size, start, piece, work) };
    for_each_chunk_mut(rt, items, size, &asked);
}

// Asks the gate for a piece, and then does the work on it: in this order, since a gate may let the worker wait. A
// worker that waits has done nothing of its piece yet. What becomes of the piece is the work's doing alone, as the
// clause says.
fn ask_and_do<G: Gate, T, F: Fn(usize, &mut [T])>(
    gate: &G,
    number: usize,
    start: usize,
    piece: &mut [T],
    work: &F,
)
    requires { AcceptsAt F.Fn work.now start piece.old }
    ensures { ChangesAt F.Fn work.now start piece.old piece.new }
{
    gate.pass(number);
    work(start, piece);
}
