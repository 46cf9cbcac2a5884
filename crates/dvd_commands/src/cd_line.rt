//! The line of a damaged CD-ROM sector. It is put together in a `Line`, of at most 256 bytes, so that it goes out by
//! one write and takes no memory. `unfolding` is for the checker: it opens a definition that a clause names.
ghost use Rattle.std.specs.Prelude.{◌≡◌, ◌+◌, ◌≤◌, ◌++◌, length};
ghost use Rattle.dvd_commands.specs.CdLines.{cd_cause_text, damaged_sector_line as line_of_sector};

use cd_sector::CdCause;
use dvd_report::Line;

/// The line that names sector `k` of the input and its first cause: `sector K: CAUSE` and a line feed. `k` counts from
/// 0, as its sector of user data does in the output. `pub` reaches no further than the crate, since the module is
/// private.
#[tactic(auto, unfolding(crate::specs::CdLines::damaged_sector_line))]
pub fn damaged_sector_line(k: u32, cause: CdCause) -> Line
    ensures { result ≡ line_of_sector k cause }
{
    let mut line = Line::new();
    line.put_named(b"sector ", u64::from(k));
    line.put(b": ");
    put_cause(&mut line, cause);
    line.put(b"\n");
    line
}

// The words of a cause. `len` is for the caller, which puts a line feed after them. The longest is that of a parity
// word: 7 bytes and a number. Words are numbered 0 to 137, but `put_named` promises no more of any number than that 20
// digits are enough. An address is printed as it was read: three bytes, of minute, second and frame. A header has two
// decimal digits in each, of four bits, so that hexadecimal digits show these.
#[tactic(auto, unfolding(crate::specs::CdLines::cd_cause_text))]
fn put_cause(line: &mut Line, cause: CdCause)
    requires room { length line.old + 27 ≤ 256 }
    ensures bytes { line.new ≡ line.old ++ cd_cause_text cause }
    ensures len { length line.new ≤ length line.old + 27 }
{
    match cause {
        CdCause::Parity { word } => line.put_named(b"parity ", u64::from(word)),
        CdCause::Mode { byte } => line.put_named(b"mode ", u64::from(byte)),
        CdCause::Address { found } => {
            line.put(b"address found ");
            line.put_hexadecimal(found, 6);
        }
        CdCause::Edc => line.put(b"edc"),
    }
}
