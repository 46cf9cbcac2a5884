//! What is known of a place of a block: by itself, and as the two bytes that a block keeps of each place.
ghost use Rattle.std.specs.Prelude.{◌≡◌};
ghost use Rattle.dvd_merge.specs.Join.{byte_of, join};
ghost use Rattle.dvd_merge.specs.Planes.{code_of, place_from};

/// What captures of a block know of one of its places.
#[derive(Clone, Copy, Debug, PartialEq, Eq)]
pub enum Place {
    /// No capture has a byte there.
    Unseen,
    /// All that have one have this byte.
    Value(u8),
    /// Two have different bytes. It stays so whatever others have, since a vote could be wrong.
    Conflict,
}

/// The codes of what is known of a place, where a byte of its own holds it beside the value. They are never written
/// out, so any three numbers would do. Vectors compare them, so they are bytes and no `enum`.
pub(crate) const UNSEEN: u8 = 0;

pub(crate) const SEEN: u8 = 1;

pub(crate) const CONFLICT: u8 = 2;

impl Place {
    // The place of these two bytes: its value, which counts where it is seen alone, and its code. Any code but the
    // first two is a conflict, so that each byte is a code.
    pub(crate) fn new(value: u8, code: u8) -> Place
        ensures { result ≡ place_from value code }
    {
        match code {
            UNSEEN => Place::Unseen,
            SEEN => Place::Value(value),
            _ => Place::Conflict,
        }
    }

    // What both know. Neither the order of the two nor their repetition counts. `lanes` does the same for 32 places.
    // Programs join by vectors; this one is for `Merge::see`. `tactic` lets the prover unfold the definition, which has
    // the same cases.
    #[tactic(auto, unfolding(crate::specs::Join::join))]
    pub(crate) fn join(self, other: Place) -> Place
        ensures { result ≡ join self other }
    {
        match (self, other) {
            (Place::Unseen, _) => other,
            (Place::Value(_), Place::Unseen) => self,
            (Place::Value(a), Place::Value(b)) if a == b => self,
            (Place::Value(_) | Place::Conflict, _) => Place::Conflict,
        }
    }

    // Its byte, 0 where none is known. Such a place is written as 0 and marked, so 0 isn't read as a byte.
    pub(crate) fn byte(self) -> u8
        ensures { result ≡ byte_of self }
    {
        match self {
            Place::Value(byte) => byte,
            Place::Unseen | Place::Conflict => 0,
        }
    }

    // The code of what is known of it: with `byte` it undoes `new`.
    pub(crate) fn code(self) -> u8
        ensures { result ≡ code_of self }
    {
        match self {
            Place::Unseen => UNSEEN,
            Place::Value(_) => SEEN,
            Place::Conflict => CONFLICT,
        }
    }
}
