//! What holds of the damage: each function's contract is one law, or two, and its body is empty. Nobody calls them.
//! They are public because what they ensure is promised of the crate.
//!
//! A law is about any rows of a block and their marks, and any state of the generator: the damage that is drawn from
//! it, as `hurt` does, gives other rows and marks. A row is lost where more than ten of its bytes are marked. It is
//! good where twice its errors plus its marks is at most 10, and else bad. All is counted against the rows before the
//! damage.
ghost use Rattle.dvd_exercise.specs.Laws.{HurtIsOnlyOne, HurtIsTwoPass, HurtIsWithin, PlacesComeOnce, RowsComeOnce, SomethingIsHurt};

/// The damage to a block with no marks is within the bound of two-pass decoding: twice the bad rows plus the lost rows
/// is at most 16. With marks before it there could be more lost rows than were drawn.
pub fn hurt_block_is_within_the_bound()
    ensures { HurtIsWithin }
{}

/// So where the block had no marks, and all its rows and columns were codewords, two-pass decoding of the damaged one
/// finds it.
pub fn hurt_block_is_found()
    ensures { HurtIsTwoPass }
{}

/// The state of the generator determines what becomes of each byte and each mark: two results of one damage are equal.
/// So the same seed always makes the same test.
pub fn hurt_block_is_only_one()
    ensures { HurtIsOnlyOne }
{}

/// Each state of the generator damages every block in some way: there are rows and marks that the damage may leave. So
/// the laws above aren't about nothing. That they differ from those before isn't said.
pub fn something_is_hurt()
    ensures { SomethingIsHurt }
{}

/// No row comes twice among the bad and lost rows, and no place comes twice among the errors of a row. Else a second
/// change could undo the first, and fewer rows or bytes would be damaged than the numbers that were drawn.
pub fn rows_and_places_come_once()
    ensures rows { RowsComeOnce }
    ensures places { PlacesComeOnce }
{}
