//! What one line of a map says: the state of the run of ddrescue, or a block. Whether a block fits the one before it is
//! asked in `draft`.
//! A block has one of five statuses: `?` not tried yet, `*` failed and not trimmed, `/` failed and not scraped, `-`
//! bad, `+` rescued. In the line of the state these name what the run was doing, and two more do: `F` filling, `G`
//! generating a map.
ghost use Rattle.std.specs.Prelude.{◌≡◌, ◌<◌, ◌^◌, IfOk};
ghost use Rattle.cap_map.specs.Inner.{field_bytes};
ghost use Rattle.cap_map.specs.Lines.{map_block, is_among, is_number, is_one_of, is_state, sized_block};

use crate::fault::MapCause;
use crate::fields::FieldsOf;
use crate::number::written_number;

/// A block of a map: the bytes from a position to an end, and their status. A line has the size in place of the end;
/// the next block has to begin at the end.
#[derive(Clone, Copy, Debug, PartialEq, Eq, Drop)]
pub struct MapBlock {
    pub position: u64,
    pub end: u64,
    pub status: u8,
}

/// Whether these are the fields of the state: a position, a status and perhaps a pass, a number that a map may lack. A
/// run has two statuses more than a block. Nothing of it is used: it only shows that the text is a map.
pub fn is_state(fields: &FieldsOf<'_>) -> bool
    ensures { result ≡ is_state (field_bytes fields.now) }
{
    let has_pass = fields.third.is_empty() || is_number(fields.third);
    is_number(fields.first)
        && is_one_of(b"?*/-FG+", fields.second)
        && has_pass
        && fields.fourth.is_empty()
}

// Whether a field is a number, whatever its value below 2^63.
fn is_number(field: &[u8]) -> bool
    ensures { result ≡ is_number field.now }
{
    written_number(field).is_some()
}

/// The block that these fields say, or the first rule that they break. They are tried in the order in which `MapCause`
/// has them, so that the cause of a line that breaks several is always the same. `Fields` comes first, since a missing
/// field is empty and would be no number or status. Those that `draft` finds, `Gap` and `Overlap`, need the block
/// before.
pub fn map_block(fields: &FieldsOf<'_>) -> Result<MapBlock, MapCause>
    ensures { result ≡ map_block (field_bytes fields.now) }
{
    if fields.third.is_empty() || !fields.fourth.is_empty() {
        return Err(MapCause::Fields);
    }
    let (Some(position), Some(size)) = (written_number(fields.first), written_number(fields.second))
    else {
        return Err(MapCause::Number);
    };
    if !is_one_of(b"?*/-+", fields.third) {
        return Err(MapCause::Status);
    }
    // It has one byte, as was just tested.
    sized_block(position, size, fields.third[0])
}

// The block of these numbers, if it has a byte and ends where a file can: no file is longer than 2^63 - 1 bytes. The
// clauses `requires` are what `written_number` promises.
fn sized_block(position: u64, size: u64, status: u8) -> Result<MapBlock, MapCause>
    requires position { position < 2 ^ 63 }
    requires size { size < 2 ^ 63 }
    ensures { result ≡ sized_block position size status }
{
    if size == 0 {
        return Err(MapCause::Empty);
    }
    // Both are below 2^63, so that the sum fits 64 bits.
    let end = position + size;
    if end >= 1 << 63 {
        return Err(MapCause::TooLong);
    }
    Ok(MapBlock {
        position,
        end,
        status,
    })
}

// Whether a field is one of these bytes. A status is one character, so a field with two statuses is none.
fn is_one_of(bytes: &[u8], field: &[u8]) -> bool
    ensures { result ≡ is_one_of bytes.now field.now }
{
    field.len() == 1 && is_among(bytes, field[0])
}

/// Whether a byte is among these. `draft` asks it of the statuses that are trusted.
pub fn is_among(bytes: &[u8], byte: u8) -> bool
    ensures { result ≡ is_among bytes.now byte }
{
    bytes.iter().any(|other| *other == byte)
}
