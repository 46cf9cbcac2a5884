//! Which pieces a gate is asked for, how often and when, with any number of workers.
use crate::cutting::{for_each_piece, piece_size};
use crate::tests::{frames, received};
use crate::{Gate, add_parity_par, two_pass_par};
use dvd_capture::Stage;
use std::sync::atomic::{AtomicU64, Ordering};
use std::test::Fail;

// A gate that counts and lets nobody wait. The counts are atomic, since several threads ask it at once. Sixteen digits
// of 64 bits are one for each piece, as at most sixteen workers are allowed.
#[derive(Drop)]
struct Counting {
    digits: AtomicU64, // how often each piece was asked for: a hexadecimal digit each, that of piece 0 the lowest
    others: AtomicU64, // how often a piece was asked for that can't be
}

impl Counting {
    fn new() -> Counting {
        Counting {
            digits: AtomicU64::new(0),
            others: AtomicU64::new(0),
        }
    }

    // Whether this piece was asked for.
    fn has_asked(&self, piece: usize) -> bool {
        piece < 16 && self.digits.load(Ordering::SeqCst) >> (4 * piece) & 15 > 0
    }

    // The digits of all pieces, where no other was asked for.
    fn digits(&self) -> Option<u64> {
        if self.others.load(Ordering::SeqCst) > 0 {
            return None;
        }
        Some(self.digits.load(Ordering::SeqCst))
    }
}

impl Gate for Counting {
    fn pass(&self, piece: usize) {
        if piece < 16 {
            self.digits.fetch_add(1 << (4 * piece), Ordering::SeqCst);
        } else {
            self.others.fetch_add(1, Ordering::SeqCst);
        }
    }
}

// Numbers of workers, and the digits of two passes. Of 182 columns fifteen workers have thirteen each, so that one has
// none.
const ASKED: [(u8, u64); 5] = [
    (1, 0x2),
    (3, 0x222),
    (5, 0x2_2222),
    (15, 0x122_2222_2222_2222),
    (16, 0x2222_2222_2222_2222),
];

#[test]
fn each_piece_of_both_passes_is_asked_for_once_a_pass(rt: HostRuntime) -> Result<(), Fail> {
    for (workers, digits) in ASKED {
        // Eight rows are bad, from row 3 on, thirteen apart, and none is lost. Any others would do, up to sixteen:
        // if more failed, there would be no second pass.
        let mut work = received(rt.alloc(), 3, 13, 8, 0)?;
        let gate = Counting::new();
        // The call requires this stage, which `received` leaves without a clause that says so. What it answers doesn't
        // count here: the gate is looked at.
        if work.stage() == Stage::Fetched {
            two_pass_par(&rt, workers, &gate, &mut work).is_ok();
        }
        assert_eq!(rt; gate.digits(), Some(digits));
    }
    Ok(())
}

// One worker answers a block by one call, whatever was received: it asks where a pass begins, and with more failed rows
// than the columns correct no second one does.
#[test]
fn one_worker_asks_where_a_pass_begins(rt: HostRuntime) -> Result<(), Fail> {
    for (bad, lost, digits) in [(0, 0, 0x2), (8, 0, 0x2), (0, 16, 0x2), (0, 17, 0x1)] {
        let mut work = received(rt.alloc(), 0, 12, bad, lost)?;
        let gate = Counting::new();
        if work.stage() == Stage::Fetched {
            two_pass_par(&rt, 1, &gate, &mut work).is_ok();
        }
        assert_eq!(rt; gate.digits(), Some(digits));
    }
    Ok(())
}

// Parity is added in two passes too: that of the rows, and then that of the columns.
#[test]
fn each_piece_of_the_parity_is_asked_for_once_a_pass(rt: HostRuntime) -> Result<(), Fail> {
    for (workers, digits) in ASKED {
        let mut block = frames(rt.alloc())?;
        let gate = Counting::new();
        add_parity_par(&rt, workers, &gate, &mut block);
        assert_eq!(rt; gate.digits(), Some(digits));
    }
    Ok(())
}

#[test]
fn a_piece_is_asked_for_before_its_first_item_is_done(rt: HostRuntime) -> Result<(), Fail> {
    for (workers, _) in ASKED {
        // Each item notes whether its piece hadn't been asked for when it was done. All begin as late, so that one that
        // nobody does is found too.
        let mut is_late = [true; 182];
        let gate = Counting::new();
        let size = piece_size(182, workers);
        let look = |start: usize, piece: &mut [bool]| {
            for late in piece {
                *late = size == 0 || !gate.has_asked(start / size);
            }
        };
        for_each_piece(&rt, workers, &gate, &mut is_late, &look);
        assert_eq!(rt; is_late, [false; 182]);
    }
    Ok(())
}
