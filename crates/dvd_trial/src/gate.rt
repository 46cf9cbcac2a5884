//! A gate that counts the calls of each piece, and may let two workers wait for each other. A pass over a block is
//! shared out in pieces, one for each worker, and asks the gate at the start of each. No contract says that two threads
//! run at the same time, so a test has to see it: two pieces that wait for each other both go on only where it is so.
use crate::amounts::number;
use dvd_par::Gate;
use std::sync::atomic::AtomicU64;
use std::sync::atomic::Ordering::SeqCst;

#[derive(Drop)]
pub struct Counting {
    // Whether pieces 0 and 1 wait until the other has been called as often. Two are enough to show it.
    meets: bool,
    // The calls of each piece, up to 15: a hexadecimal digit each, that of piece 0 the lowest, so sixteen fit 64 bits.
    // One number for all, since workers share it and it is compared at once. No test has more calls of a piece, or so
    // many pieces: the highest digit counts faults, which are the calls of piece 15 and any above, and waits that ran
    // out. After one nobody waits, since the run has failed then.
    digits: AtomicU64,
    due: u64, // what they must be after a run
}

impl Counting {
    /// By `3 pieces, 2 times each` the first three pieces must be called so often, and no other: digits all alike.
    pub fn new(text: &str, meets: bool) -> Option<Counting> {
        let (pieces, times) = text.split_once(" pieces, ")?;
        let times = number(times.strip_suffix(" times each")?)?;
        let mut due: u64 = 0;
        for _ in 0..number(pieces)?.min(15) {
            due = due << 4 | times as u64 & 0xF;
        }
        let digits = AtomicU64::new(0);
        Some(Counting { meets, digits, due })
    }

    /// Whether the pieces were called as they must be, and no wait ran out.
    pub fn is_met(&self) -> bool {
        self.digits.load(SeqCst) == self.due
    }

    // Counts a call of a piece. The order of all accesses here is the strictest one, since a test needn't be quick.
    fn count(&self, piece: usize) {
        self.digits.fetch_add(1 << (4 * piece.min(15)), SeqCst);
    }

    fn calls(&self, piece: usize) -> u64 {
        self.digits.load(SeqCst) >> (4 * piece.min(15)) & 0xF
    }
}

impl Gate for Counting {
    // Counts, and then waits until the other piece has been called as often, or a fault is counted. It counts first,
    // since the other waits for this count. That the looks at the other's count run out is a fault: so a wait always
    // ends, and the run is seen to have failed. Any number would do that takes longer than a worker needs to begin.
    fn pass(&self, piece: usize) {
        self.count(piece);
        if !self.meets || piece > 1 {
            return;
        }
        for _ in 0..50_000_000 {
            if self.calls(1 - piece) >= self.calls(piece) || self.calls(15) > 0 {
                return;
            }
        }
        self.count(15);
    }
}
