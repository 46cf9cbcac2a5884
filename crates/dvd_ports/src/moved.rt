//! The bytes that the calls of an object have moved, for contracts alone: no byte of them is kept when a program runs.
//!
//! This module is private, and nothing but `note` adds bytes: so what an object is seen to have moved is what its own
//! code noted after a call that succeeded. `note` has nothing to do, and its body is empty; that it adds these bytes to
//! the ghost list is proved by hand, as is `new`. No other proof of the repository is of that kind.
ghost use Rattle.std.specs.Prelude.{◌≡◌, ◌++◌, List, [], ℕ};
ghost use Rattle.std.specs.Borrow.{ftrue};

use std::marker::{Model, PhantomData};

/// The bytes that were moved, in order.
#[derive(Drop)]
pub struct Moved {
    marker: PhantomData<u8>,
    pub ghost bytes: { List ℕ },
}

// Only a type that says what else it owns may have a ghost field: this one owns nothing else.
impl Model for Moved {
    ghost also_owns = { λ _. ftrue };
}

impl Moved {
    /// Nothing was moved yet.
    pub fn new() -> Moved
        ensures { result.bytes ≡ [] }
    {
        Moved {
            marker: PhantomData,
        }
    }

    /// These bytes were moved, after those before.
    pub fn note(&mut self, _piece: &[u8])
        ensures { self.new.bytes ≡ self.old.bytes ++ _piece.now }
    {}
}
