//! Bytes of a capture that are lost, wrong or doubtful, at places of its blocks. Sums and products stop at the largest
//! number, since a text may have any: such a place isn't there, and is passed over.
use crate::amounts::{BLOCK_BYTES, MARKED_ROW_BYTES, Numbers, ROW_BYTES, is, number};

// What happens to bytes, and where.
#[derive(Drop)]
struct Damage {
    blocks: Numbers,
    rows: Numbers,
    bytes: Numbers,
    shift: usize, // how many bytes further the bytes are in each row than in the one before
    length: usize, // the bytes of a row, or of what is hit in place of rows
    // These bits of a byte are kept, and then those inverted. In the marked form it also gets a mark, or none.
    kept: u8,
    turned: u8,
    mark: Option<bool>,
}

/// Does `verb: rest`, as `wrong by 55: block 1, rows 3 to 7, bytes 0 to 9; row 9`, where all of it is spelt so.
pub fn damage_bytes(verb: &str, rest: &str, bytes: &mut [u8]) -> Option<()> {
    for places in rest.split("; ") {
        let mut damage = damage_of(verb)?;
        for part in places.split(", ") {
            read_place(part, &mut damage)?;
        }
        hit_places(&damage, bytes)?;
    }
    Some(())
}

// `by` names bits to invert and `as` a byte to put there, which is to keep no bit and invert these: so one form does
// for all. Without a value it is 00, so `zero` is `set as 00`. `lost` and `doubtful` also set the mark of the byte and
// `known` takes it away, so they need the marked form; the others need the plain one, or sectors. What isn't named is
// all: no test has 2,352 blocks, and no row or sector more bytes. Places that aren't there are passed over.
fn damage_of(verb: &str) -> Option<Damage> {
    let (kind, value) = verb.rsplit_once(' ').unwrap_or((verb, "00"));
    let (kept, mark) = match kind {
        "wrong by" => (0xFF, None),
        "zero" | "set as" => (0, None),
        "known as" => (0, Some(false)),
        "lost" => (0, Some(true)),
        "doubtful by" => (0xFF, Some(true)),
        _ => return None,
    };
    let all = Numbers::new("0 to 2351")?;
    Some(Damage {
        blocks: all,
        rows: Numbers { count: 208, ..all },
        bytes: all,
        shift: 0,
        length: ROW_BYTES,
        kept,
        turned: u8::from_str_radix(value, 16).ok()?,
        mark,
    })
}

// Sectors are kept as rows of another length, of one block, and `places` as bytes of a row that has all there are: so
// one loop does for all. `max` keeps the shift that one part names, where others name none.
fn read_place(text: &str, damage: &mut Damage) -> Option<()> {
    let (name, named) = text.split_once(' ')?;
    let (named, shift) = named.split_once(" shifted ").unwrap_or((named, "0"));
    let named = Numbers::new(named)?;
    damage.shift = number(shift)?.max(damage.shift);
    match name.strip_suffix('s').unwrap_or(name) {
        "block" => damage.blocks = named,
        "row" => damage.rows = named,
        "byte" => damage.bytes = named,
        "sector" => (damage.rows, damage.length) = (named, 2048),
        "cdsector" => (damage.rows, damage.length) = (named, 2352),
        "place" => (damage.bytes, damage.length) = (named, usize::MAX),
        _ => return None,
    }
    Some(())
}

// There are never more blocks than that, a marked one being longer; to go on to the last of all would only take time. A
// hit without a mark is of the plain form, or of a sector. Where bytes aren't whole rows of one form, rows are wrong.
// Row 192 + f is recorded as the last of the thirteen of recording frame f.
fn hit_places(damage: &Damage, bytes: &mut [u8]) -> Option<()> {
    let has_rows = damage.length == ROW_BYTES;
    let length = match damage.mark {
        Some(_) => MARKED_ROW_BYTES,
        None => damage.length.min(bytes.len()),
    };
    let blocks = if has_rows { damage.blocks.count } else { 1 };
    for block in 0..blocks.min(bytes.len() / BLOCK_BYTES + 1) {
        for i in 0..damage.rows.count {
            let row = match damage.rows.get(i) {
                row if !has_rows => row,
                row if row < 192 => row + row / 12,
                row => (row - 192).saturating_mul(13).saturating_add(12),
            };
            let first = damage.blocks.get(block).saturating_mul(208);
            let first = first.saturating_add(row).saturating_mul(length);
            if let Some(row) = bytes.get_mut(first..first.saturating_add(length)) {
                hit_row(damage, i, row);
            }
        }
    }
    is(!has_rows || bytes.len() % ROW_BYTES == 0 || bytes.len() % MARKED_ROW_BYTES == 0)
}

// Hits row `i` of those named: the first has no shift. Without one bytes stay as they are named, since a text may name
// the two spare bits of marks. It does so with `doubtful by 00` alone: there the byte itself would be one of marks, and
// has to stay. `max` only shows that nothing is divided by 0. The high bit of the first byte of marks is that of the
// row's first byte. Bytes that aren't there are passed over.
fn hit_row(damage: &Damage, i: usize, row: &mut [u8]) {
    let (length, shift) = (damage.length, i.saturating_mul(damage.shift));
    for k in 0..damage.bytes.count.min(length) {
        let at = damage.bytes.get(k).saturating_add(shift);
        let at = if shift > 0 { at % length.max(1) } else { at };
        if let Some(byte) = row.get_mut(at) {
            *byte = *byte & damage.kept ^ damage.turned;
        }
        let bit = 0x80 >> (at % 8);
        if let (Some(mark), Some(marks)) = (damage.mark, row.get_mut(ROW_BYTES + at / 8)) {
            *marks = if mark { *marks | bit } else { *marks & !bit };
        }
    }
}
