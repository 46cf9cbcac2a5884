//! The loop of the commands that make something of each sector of user data: `frames` and `cdmake`.
//! They need no layout and no memory but the stack, so they can't be refused. `AreDone` says which steps, writes and
//! lines, are done for a unit; where a call fails, only a first part of them is. No report is written, so clauses are
//! of any (`report`, or `source` where the function isn't handed the source), which stays as it is.
ghost use Rattle.std.specs.Prelude.{◌+◌, ◌<◌, ◌≤◌, ◌^◌, ℕ, refl};
ghost use Rattle.dvd_loop.specs.Laws.{IsPlainEnd};
ghost use Rattle.dvd_loop.specs.Machine.{IsOutcome};
ghost use Rattle.dvd_loop.specs.Streams.{streams, HasEnded};
ghost use Rattle.dvd_loop.specs.UnitCommand.{AreDone};
ghost use Rattle.dvd_ports.specs.Seen.{Seen};
ghost use Rattle.dvd_commands.specs.Frames.{IsSectorFrame};
ghost use Rattle.dvd_commands.specs.Making.{IsMade, sectors_made};
ghost use Rattle.dvd_commands.specs.Inner.Making.{IsMadeAs, number_limit};

use crate::unit::unit_written;
use cd_sector::make;
use dvd_frame::{Area, Id, Rule, make_frame};
use dvd_loop::{LoopEnd, PlainCommand, Processed, UnitKind, read_unit, run_plain};
use dvd_ports::{NullSink, Sink, Source, write_whole};

/// What is made of a sector of 2,048 bytes: a variant for each command that makes one list of bytes of each sector.
#[derive(Clone, Copy, Drop)]
pub(crate) enum Made {
    /// Its scrambled data frame in the Data Zone of a disk with one layer, 2,064 bytes: ID, IED and CPR_MAI are 12
    /// before the Main Data, and the EDC is 4 after them.
    DataFrame,
    /// The CD-ROM sector of Mode 1 with these user data, 2,352 bytes: sync and header are 16 before these, and EDC,
    /// zeros and parity are 288 after them.
    CdSector,
}

/// The sectors that are read: what is made of each, the number or address of the first, and how many. `within` keeps
/// `first + k` in range: a sector number has 24 bits, and a CD-ROM has addresses below 450,000, which is minute 100 (of
/// 60 seconds of 75 sectors). `number_limit` is the one or the other.
#[derive(Drop)]
struct Making {
    made: Made,
    first: u32,
    sectors: u32,
    ghost within: { first + sectors ≤ number_limit made },
}

// The clauses of these methods are in the trait: for sector `k` they do what `sectors_made` says, and nothing opens or
// closes the units (`alone`). `key` is what the units depend on; no method changes it. A `PlainCommand` has units that
// don't depend on each other; `Processed` is the kind of one, or how the loop ends in it.
impl<S: Source, K: Sink, E: Sink> PlainCommand<S, K, E> for Making {
    ghost use Rattle.dvd_commands.specs.declared.making.Made.{Made};

    ghost Key = { Made × ℕ × ℕ };

    ghost key = { λ making. (making.made, making.first, making.sectors) };

    ghost units = { λ (made, first, sectors). sectors_made (IsMadeAs made) first sectors };

    ghost alone = { λ _. record { opens = refl; closes = λ _. refl; after_last = refl } };

    fn count(&self) -> u32 {
        self.sectors
    }

    // The sector is on the stack, since these commands take no memory; it is zeros first only since an array needs a
    // value. `within` keeps the number in range.
    fn process(&mut self, k: u32, src: &mut S, out: &mut K, _report: &mut E) -> Processed {
        let mut sector = [0; 2048];
        read_unit(src, k, &mut sector)?;
        write_made(self.made, self.first + k, &sector, out)
    }
}

/// Makes this of each sector. The first of them has that number or address. `ends` is for the loops that are public,
/// which promise it to their callers.
pub(crate) fn make_each<S: Source, K: Sink>(
    made: Made,
    first: u32,
    sectors: u32,
    src: &mut S,
    out: &mut K,
) -> LoopEnd
    requires { first + sectors ≤ number_limit made }
    ensures follows { (report : Seen) → HasEnded (IsOutcome (sectors_made (IsMadeAs made) first sectors))
        (streams (S.seen src.old) (K.seen out.old) report) (streams (S.seen src.new) (K.seen out.new) report) result }
    ensures ends { IsPlainEnd sectors result }
{
    let making = Making {
        made,
        first,
        sectors,
    };
    // The loop wants a report, but these commands write none.
    run_plain(making, src, out, &mut NullSink::new())
}

// Makes this of one sector and writes it, as one piece.
// The two things have two lengths, so each case has a buffer of its own. Every sector is Good, since any bytes are user
// data.
fn write_made<K: Sink>(made: Made, number: u32, sector: &[u8; 2048], out: &mut K) -> Processed
    requires { number < number_limit made }
    ensures { (source report : Seen) → AreDone (IsMade (IsMadeAs made number sector.now))
        (streams source (K.seen out.old) report) (streams source (K.seen out.new) report) result }
{
    match made {
        Made::DataFrame => {
            let mut frame = [0; 2064];
            write_frame(number, sector, &mut frame);
            unit_written(write_whole(out, &frame), UnitKind::Good)
        }
        Made::CdSector => {
            let mut whole = [0; 2352];
            make(number, sector, &mut whole);
            unit_written(write_whole(out, &whole), UnitKind::Good)
        }
    }
}

// There is no disk, so the ID says layer 0 of a disk with one layer (`false`: bit 29 is 0), and CPR_MAI is zeros. All
// of the Main Data is scrambled, as in the Data Zone. `make_frame` makes the sequence of the scrambler for each frame:
// this command keeps nothing from one sector to the next, while `master` makes sixteen frames with one.
fn write_frame(number: u32, sector: &[u8; 2048], frame: &mut [u8; 2064])
    requires { number < 2 ^ 24 }
    ensures { IsSectorFrame number sector.now frame.new }
{
    let id = Id::new(Area::DataZone, 0, false, number);
    make_frame(id, &[0; 6], Rule::Whole, sector, frame);
}
