//! The line of a damaged ECC block: its number in the plan, its place on the disk, and the first rule that it breaks.
//! At last comes how many of its sixteen frames were salvaged. `dvdcap lost` reads these lines back.
//! `HasNumbers` says that a block's sector numbers have 24 bits, so that six digits have them whole, as in every plan.
//! `unfolding` is for the checker: it opens a definition that a clause names.
ghost use Rattle.std.specs.Prelude.{◌≡◌, ◌+◌, ◌≤◌, ◌++◌, length};
ghost use Rattle.dvd_layout.specs.Place.{HasNumbers};
ghost use Rattle.dvd_ports.specs.Whole.{IsWritten};
ghost use Rattle.dvd_report.specs.Lines.{block_text, cause_text, damage_line};

use crate::text::Line;
use dvd_layout::BlockPlan;
use dvd_ports::{Sink, WriteFault, write_whole};
use dvd_read::Cause;

/// Writes the line of block `k` of a plan: `block K sector H6 layer L: CAUSE saved S` and a line feed. `H6` is the
/// block's first sector number, and `saved` the number of its sixteen frames that were salvaged. After a fault a prefix
/// of the line was written. The line has room for any `saved`: `frames` only keeps callers to counts of sixteen.
pub fn write_cause<E: Sink>(
    k: u64,
    plan: &BlockPlan,
    cause: &Cause,
    saved: u8,
    report: &mut E,
) -> Result<(), WriteFault>
    requires numbers { HasNumbers plan.now }
    requires frames { saved ≤ 16 }
    ensures { IsWritten (damage_line k plan.now cause.now saved) (E.seen report.old) (E.seen report.new) result }
{
    write_whole(report, line_of(k, plan, cause, saved).as_slice())
}

// The whole line. That its parts fit 256 bytes follows from the bounds of `put_block` and `put_cause`.
#[tactic(auto, unfolding(crate::specs::Lines::damage_line))]
fn line_of(k: u64, plan: &BlockPlan, cause: &Cause, saved: u8) -> Line
    ensures { result ≡ damage_line k plan.now cause.now saved }
{
    let mut line = Line::new();
    put_block(&mut line, k, plan);
    line.put(b": ");
    put_cause(&mut line, cause);
    line.put_named(b" saved ", u64::from(saved));
    line.put(b"\n");
    line
}

/// Puts block `k` of a plan at the end of a line, with its first sector number and its layer. At most 50 bytes: a
/// number has up to 20 digits, and a layer 3. It is public, since `dvdcap lost` looks for a line that begins so.
#[tactic(auto, unfolding(crate::specs::Lines::block_text))]
pub fn put_block(line: &mut Line, k: u64, plan: &BlockPlan)
    requires room { length line.old + 50 ≤ 256 }
    ensures bytes { line.new ≡ line.old ++ block_text k plan.now }
    ensures len { length line.new ≤ length line.old + 50 }
{
    line.put(b"block ");
    line.put_number(k);
    line.put(b" sector ");
    line.put_hexadecimal(plan.first, 6);
    line.put(b" layer ");
    line.put_byte(plan.layer);
}

/// Puts a cause at the end of a line. At most 43 bytes: the longest is that of an address, with a number of up to 20
/// digits. The frame itself has one digit or two, but a bound for all numbers is proved once. What was found at an
/// address is a whole ID of 32 bits, so it has eight digits.
#[tactic(auto, unfolding(crate::specs::Lines::cause_text))]
pub(crate) fn put_cause(line: &mut Line, cause: &Cause)
    requires room { length line.old + 43 ≤ 256 }
    ensures bytes { line.new ≡ line.old ++ cause_text cause.now }
    ensures len { length line.new ≤ length line.old + 43 }
{
    match *cause {
        Cause::Rows { failed } => line.put_named(b"rows ", u64::from(failed)),
        Cause::Column { j } => line.put_named(b"column ", u64::from(j)),
        Cause::Row { i } => line.put_named(b"row ", u64::from(i)),
        Cause::Ied { f } => line.put_named(b"ied ", u64::from(f)),
        Cause::Address { f, found } => {
            line.put_named(b"address ", u64::from(f));
            line.put(b" found ");
            line.put_hexadecimal(found, 8);
        }
        Cause::Edc { f } => line.put_named(b"edc ", u64::from(f)),
    }
}
