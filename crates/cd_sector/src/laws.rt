//! What holds of every sector. Each function's contract is a law of the definitions; the bodies are empty. Nobody has
//! to call one: the crate is proved only if each law is. They are public because what they ensure is promised of the
//! crate. The sector of an address and user data has 2,352 bytes. It begins with sync, address, mode 1, user data, EDC
//! and eight zeros, 2,076 bytes, and its 86 P words and 52 Q words are codewords. Nothing is wrong with a sector at an
//! address where all words are codewords, its mode is 1, it has this address, and its EDC is right; the sync isn't
//! checked. A cause is the first of these that fails.
ghost use Rattle.cd_sector.specs.Laws.{CorrectableDamageIsRepaired, FaultlessHasNoCause, SectorIsOnlyOne, SectorsAreFaultless, SomeSector};

/// An address and user data have one sector at most: the first 2,076 bytes determine the P parity, and both the Q
/// parity.
pub fn sector_is_only_one()
    ensures { SectorIsOnlyOne }
{}

/// An address below 450,000, a hundred minutes, and 2,048 bytes of user data have a sector.
pub fn some_sector()
    ensures { SomeSector }
{}

/// A sector of an address and user data has nothing wrong at this address: what `make` writes, `check` accepts.
pub fn sectors_are_faultless()
    ensures { SectorsAreFaultless }
{}

/// A sector that has nothing wrong has no cause: the two answers of `check` exclude each other.
pub fn faultless_has_no_cause()
    ensures { FaultlessHasNoCause }
{}

/// A sector is repaired to what it was if each half of it, the low bytes and the high bytes, is damaged in one of two
/// ways. In the first, each P word has at most one wrong byte, and each Q word at most one among its last two. In the
/// second, one P word is wrong in any way and each other P word has at most one wrong byte; the last two bytes of each
/// Q word are right. These two are its parity; all others are in P words too. A wrong byte is one that differs from the
/// sector of some address and user data. The sync may be anything, since repair sets it.
pub fn correctable_damage_is_repaired()
    ensures { CorrectableDamageIsRepaired }
{}
