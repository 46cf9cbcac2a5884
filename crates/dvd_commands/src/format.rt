//! The lines of a physical format: a name and its value each. They are put together in one `Line`, of at most 256
//! bytes, so that they can go out by one write; the clauses on lengths show that they fit. `unfolding` is for the
//! checker: it opens a definition that a clause names. A clause without a name before a body is the room that is needed
//! in a line, and `len` is for the room of the next call.
ghost use Rattle.std.specs.Prelude.{◌≡◌, ◌+◌, ◌<◌, ◌≤◌, ◌^◌, ◌++◌, codes, length, if◌then◌else◌};
ghost use Rattle.dvd_control.specs.Format.{fields_of};
ghost use Rattle.dvd_commands.specs.Info.{format_lines, number_line, sector_line};

use dvd_control::PhysicalFormat;
use dvd_report::Line;

/// The eleven lines of a physical format, in this order, on which readers of the output rest. What is yes or no in the
/// format is printed as a number or a word: a disk has 1 layer or 2, and `bca` is 1 where there is a burst cutting
/// area. Versions, rates and the like are printed as the codes that the disk has, not as what they mean. `pub` reaches
/// no further than the crate, since the module is private.
#[tactic(auto, unfolding(crate::specs::Info::format_lines))]
pub fn format_lines(format: &PhysicalFormat) -> Line
    ensures { result ≡ format_lines (fields_of format.now) }
{
    let mut lines = Line::new();
    put_number(&mut lines, b"version ", format.version);
    put_number(&mut lines, b"rate ", format.rate);
    put_number(
        &mut lines,
        b"layers ",
        if format.two_layers { 2 } else { 1 },
    );
    lines.put(path_line(format.opposite));
    put_number(&mut lines, b"kind ", format.kind);
    put_number(&mut lines, b"density ", format.density);
    put_number(&mut lines, b"pitch ", format.pitch);
    put_sector(&mut lines, b"first ", format.first);
    put_sector(&mut lines, b"last ", format.last);
    put_sector(&mut lines, b"layer0 ", format.layer0_last);
    put_number(&mut lines, b"bca ", if format.bca { 1 } else { 0 });
    lines
}

// The line of the track path, which has no number. Both texts have 14 bytes, so the room for it is known.
fn path_line(opposite: bool) -> &'static [u8]
    ensures line { result.now ≡ (if opposite then codes "path opposite\n" else codes "path parallel\n") }
    ensures len { length result.now ≡ 14 }
{
    if opposite {
        b"path opposite\n"
    } else {
        b"path parallel\n"
    }
}

// A line with a number in decimal: of eight bits, so at most 3 digits, and a line feed. `put_named` would do too, but
// promises no more than 20 digits.
fn put_number(lines: &mut Line, name: &[u8], number: u8)
    requires { length lines.old + length name.now + 4 ≤ 256 }
    ensures bytes { lines.new ≡ lines.old ++ number_line name.now number }
    ensures len { length lines.new ≤ length lines.old + length name.now + 4 }
{
    lines.put(name);
    lines.put_byte(number);
    lines.put(b"\n");
}

// A line with a sector number, as six hexadecimal digits: it has 24 bits. Other lines write it so too.
fn put_sector(lines: &mut Line, name: &[u8], number: u32)
    requires { length lines.old + length name.now + 7 ≤ 256 }
    ensures bytes { lines.new ≡ lines.old ++ sector_line name.now number }
    ensures len { length lines.new ≡ length lines.old + length name.now + 7 }
{
    lines.put(name);
    lines.put_hexadecimal(number, 6);
    lines.put(b"\n");
}
