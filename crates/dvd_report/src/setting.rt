//! The line of a layout that breaks a rule. It is the last of a report, and only the first broken rule is named.
ghost use Rattle.std.specs.Prelude.{◌≡◌, ◌<◌, ◌++◌, length};
ghost use Rattle.dvd_report.specs.Setting.{fault_text, setting_line};

use crate::text::Line;
use dvd_layout::LayoutFault;

/// The line of a layout that breaks a rule: `setting: RULE` and a line feed. It is returned and not written, since each
/// program writes it as its closing line.
pub fn setting_line(fault: LayoutFault) -> Line
    ensures { result ≡ setting_line fault }
{
    let mut line = Line::new();
    line.put(b"setting: ");
    put_fault(&mut line, fault);
    line.put(b"\n");
    line
}

// Puts the rule that is broken, after `setting: `, with its number in decimal: a layer, 0 or 1, sectors, blocks of a
// zone, or the sector number after a layer. The words are those that the manual lists, which programs read. They aren't
// the texts that a `LayoutFault` has as an error, which are sentences for people. The end of a layer that is too long
// may pass 32 bits, as no other number here does.
fn put_fault(line: &mut Line, fault: LayoutFault)
    requires { length line.old ≡ 9 }
    ensures items { line.new ≡ line.old ++ fault_text fault }
    ensures room { length line.new < 256 }
{
    match fault {
        LayoutFault::EmptyLayer { layer } => {
            line.put(b"empty layer ");
            line.put_byte(layer);
        }
        LayoutFault::OddLayer { sectors } => line.put_named(b"odd layer ", u64::from(sectors)),
        LayoutFault::SecondLayer { sectors } => line.put_named(
            b"second layer ",
            u64::from(sectors),
        ),
        LayoutFault::LayerLonger { sectors } => line.put_named(
            b"layer longer ",
            u64::from(sectors),
        ),
        LayoutFault::InitialTooLong { blocks } => line.put_named(
            b"initial too long ",
            u64::from(blocks),
        ),
        LayoutFault::TailTooLong { blocks } => line.put_named(b"tail too long ", u64::from(blocks)),
        LayoutFault::LayerTooLong { layer, end } => {
            line.put(b"layer ");
            line.put_byte(layer);
            line.put_named(b" too long ", end);
        }
    }
}
