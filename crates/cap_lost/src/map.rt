//! The map of an image. A `+` is for sectors that were written and not lost, a `-` for those of refused blocks. The
//! sectors after the end of the run have a `?`: they weren't tried. cap_top writes the map, after the whole report was
//! read. The clause `cause` says by the counts of a sink whether a write failed.
ghost use Rattle.std.specs.Prelude.{◌≡◌, ◌+◌, ◌*◌, ◌≤◌, ◌<◌, ◌^◌, ◌++◌, [], ◌∷◌, length, true, IfOk, OnOk, OnErr};
ghost use Rattle.std.specs.Fmt.{digit_glyph};
ghost use Rattle.arrayvec.specs.ArrayVec.{array_vec_len};
ghost use Rattle.dvd_ports.specs.Bytes.{Appends};
ghost use Rattle.dvd_ports.specs.Causes.{HasCause};
ghost use Rattle.dvd_ports.specs.Whole.{AppendsPrefix, IsWritten};
ghost use Rattle.dvd_report.specs.Lines.{hexadecimal};
ghost use Rattle.cap_lost.specs.Map.{last_end, extent_lines, last_lines, map_text, number_text, sectors_line};

use crate::draft::Lost;
use crate::extent::Extent;
use arrayvec::ArrayVec;
use dvd_ports::{Sink, WriteFault, write_whole};

// How many extents are written together. So the memory is the same for any map, and a line isn't a write of its own.
// Any number would do; `Lines` has room for this one.
const TOGETHER: usize = 64;

// The lines of that many extents: two for each, of at most 28 bytes. A line has two numbers of at most 11 bytes, four
// spaces, a status and a line feed.
type Lines = ArrayVec<u8, 3584>;

// What comes before the blocks. Its state is that of a run of ddrescue that is done: `+` in its first pass, at position
// 0.
static HEAD: &[u8] =
    b"# Mapfile. Created by dvdcap\n# current_pos  current_status  current_pass\n0x00000000     +               1\n#      pos        size  status\n";

/// Writes the map of an image of `total` sectors, some thousand bytes at once. After a fault a prefix of it was
/// written. That the extents ascend, and end within `written`, and this within `total`, is what holds of the answer of
/// `read_report`, by `losses_are_in_order` of `laws`. It isn't required here: the map is as defined for any numbers.
/// `at` is the sector up to which there are lines. The extents are cut by hand, since the proof of the loop speaks of
/// those that are left.
pub fn write_map<K: Sink>(lost: &Lost, total: u32, out: &mut K) -> Result<(), WriteFault>
    ensures { IsWritten (map_text lost.now.extents.items lost.now.written total) (K.seen out.old) (K.seen out.new) result }
{
    write_whole(out, HEAD)?;
    let mut at = 0;
    let mut rest = lost.extents.as_slice();
    while !rest.is_empty() {
        let (extents, later) = rest.split_at(rest.len().min(TOGETHER));
        at = write_extents(at, extents, out)?;
        rest = later;
    }
    write_last(at, lost.written, total, out)
}

// Writes the lines of a few extents, which come after this sector, and answers the sector after them.
// `few` is what `Lines` has room for: 64 times two lines of 28 bytes. Three clauses say what
// `IsWritten` says of an answer without a value.
fn write_extents<K: Sink>(at: u32, extents: &[Extent], out: &mut K) -> Result<u32, WriteFault>
    requires few { length extents.now ≤ 64 }
    ensures written { OnOk result (Appends (K.seen out.old).bytes (K.seen out.new).bytes (extent_lines at extents.now)) }
    ensures begun { OnErr result (AppendsPrefix (K.seen out.old).bytes (K.seen out.new).bytes (extent_lines at extents.now)) }
    ensures cause { HasCause (K.seen out.old) (K.seen out.new) result }
    ensures end { IfOk result (λ end. end ≡ last_end at extents.now) }
{
    let mut lines = Lines::new();
    let end = put_extents(&mut lines, at, extents);
    write_whole(out, lines.as_slice())?;
    Ok(end)
}

// Writes the lines after the last extent: `+` up to what was written, and `?` to the end of the image. Either may be
// missing. There are always these two at most, so they go out together. `Lines` has room for many more: it is the type
// for which `put_line` is made.
fn write_last<K: Sink>(at: u32, written: u32, total: u32, out: &mut K) -> Result<(), WriteFault>
    ensures { IsWritten (last_lines at written total) (K.seen out.old) (K.seen out.new) result }
{
    let mut lines = Lines::new();
    put_line(&mut lines, at, written, b'+');
    put_line(&mut lines, written, total, b'?');
    write_whole(out, lines.as_slice())
}

// Puts the lines of extents, which come after this sector, and answers the sector after them. So the next call goes on
// from there, and each sector has a line.
fn put_extents(lines: &mut Lines, at: u32, extents: &[Extent]) -> u32
    requires empty { lines.old.items ≡ [] }
    requires few { length extents.now ≤ 64 }
    ensures lines { lines.new.items ≡ extent_lines at extents.now }
    ensures end { result ≡ last_end at extents.now }
{
    let mut end = at;
    for extent in extents {
        put_line(lines, end, extent.from, b'+');
        put_line(lines, extent.from, extent.to, b'-');
        end = extent.to;
    }
    end
}

// Puts the line of the sectors from one to the one before an end, which have this status: none where there are none, as
// before an extent that begins at sector 0. A block of a map has a byte at least.
fn put_line(lines: &mut Lines, from: u32, to: u32, status: u8)
    requires room { array_vec_len lines.old + 28 ≤ 3584 }
    ensures items { lines.new.items ≡ lines.old.items ++ sectors_line from to status }
    ensures len { array_vec_len lines.new ≤ array_vec_len lines.old + 28 }
{
    if from < to {
        put_number(lines, bytes_of(from));
        put(lines, b"  ");
        put_number(lines, bytes_of(to - from));
        put(lines, b"  ");
        put(lines, &[status, b'\n']);
    }
}

// A map counts bytes, and a sector of an image has 2,048.
fn bytes_of(sectors: u32) -> u64
    ensures { result ≡ 2048 * sectors }
{
    2048 * u64::from(sectors)
}

// Puts a number in hexadecimal, of eight digits or nine. An image has fewer than 2^36 bytes, since each of two layers
// has sector numbers of 24 bits. ddrescue writes eight at least.
fn put_number(lines: &mut Lines, number: u64)
    requires room { array_vec_len lines.old + 11 ≤ 3584 }
    ensures items { lines.new.items ≡ lines.old.items ++ number_text number }
    ensures len { array_vec_len lines.new ≤ array_vec_len lines.old + 11 }
{
    put(lines, b"0x");
    put_digits(lines, number, if number < 1 << 32 { 8 } else { 9 });
}

// Puts the last `width` hexadecimal digits of a number, the highest first, since the lines grow at their end alone. As
// `put_hexadecimal` of a `Line`, which has numbers of 32 bits alone.
fn put_digits(lines: &mut Lines, number: u64, width: u32)
    requires digits { width ≤ 9 }
    requires room { array_vec_len lines.old + width ≤ 3584 }
    ensures items { lines.new.items ≡ lines.old.items ++ hexadecimal width number }
    ensures len { array_vec_len lines.new ≡ array_vec_len lines.old + width }
{
    for place in (0..width).rev() {
        put(lines, &[hexadecimal_digit(number / 16u64.pow(place) % 16)]);
    }
}

// A table, since the digits from A on don't follow 9 in ASCII.
fn hexadecimal_digit(value: u64) -> u8
    requires { value < 16 }
    ensures { result ≡ digit_glyph true value }
{
    b"0123456789ABCDEF"[value as usize]
}

// Puts bytes at the end of the lines.
fn put(lines: &mut Lines, bytes: &[u8])
    requires room { array_vec_len lines.old + length bytes.now ≤ 3584 }
    ensures items { lines.new.items ≡ lines.old.items ++ bytes.now }
    ensures len { array_vec_len lines.new ≡ array_vec_len lines.old + length bytes.now }
{
    // It can't fail: the clause says that there is room.
    let _ = lines.try_extend_from_slice(bytes);
}
