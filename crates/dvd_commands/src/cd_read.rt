//! The command `cdread`: the user data of CD-ROM sectors of Mode 1.
//! Such a sector has 2,352 bytes: 12 of sync, 4 of header with address and mode, 2,048 of user data, and then EDC and
//! parity. The command has no layout and takes no memory, so it can't be refused. `AreDone` says which steps, writes
//! and lines, are done for a unit; where a call fails, only a first part of them is. The clause of a function that
//! isn't handed the source is of any (`source`), which stays as it is.
ghost use Rattle.std.specs.Prelude.{◌+◌, ◌<◌, ◌≤◌, ℕ, refl};
ghost use Rattle.dvd_loop.specs.Laws.{IsDamageEnd};
ghost use Rattle.dvd_loop.specs.Machine.{IsOutcome};
ghost use Rattle.dvd_loop.specs.Streams.{streams, HasEnded};
ghost use Rattle.dvd_loop.specs.UnitCommand.{AreDone};
ghost use Rattle.dvd_ports.specs.Seen.{Seen};
ghost use Rattle.dvd_commands.specs.CdMake.{HasAddresses};
ghost use Rattle.dvd_commands.specs.CdRead.{IsSectorRead, cdread_units};

use crate::cd_line::damaged_sector_line;
use crate::unit::{line_reported, unit_written};
use cd_sector::repair;
use dvd_loop::{LoopEnd, PlainCommand, Processed, UnitKind, read_unit, run_plain};
use dvd_ports::{Sink, Source, write_whole};
use dvd_words::Settings;

/// The sectors that are read: the address of the first, and how many. By `within` no address reaches 450,000, which is
/// minute 100 (of 60 seconds of 75 sectors): a header has two digits for it.
#[derive(Drop)]
struct CdRead {
    address: u32,
    sectors: u32,
    ghost within: { address + sectors ≤ 450000 },
}

// The clauses of these methods are in the trait: for sector `k` they do what `cdread_units` says, and nothing opens or
// closes the units (`alone`). `key` is what the units depend on; no method changes it. A `PlainCommand` has units that
// don't depend on each other; `Processed` is the kind of one, or how the loop ends in it.
impl<S: Source, K: Sink, E: Sink> PlainCommand<S, K, E> for CdRead {
    ghost Key = { ℕ × ℕ };

    ghost key = { λ r. (r.address, r.sectors) };

    ghost units = { λ key. cdread_units key.0 key.1 };

    ghost alone = { λ _. record { opens = refl; closes = λ _. refl; after_last = refl } };

    fn count(&self) -> u32 {
        self.sectors
    }

    // The sector is on the stack, since the command takes no memory; it is zeros first only since an array needs a
    // value. `within` keeps the address in range.
    fn process(&mut self, k: u32, src: &mut S, out: &mut K, report: &mut E) -> Processed {
        let mut sector = [0; 2352];
        read_unit(src, k, &mut sector)?;
        give_sector(self.address + k, k, &mut sector, out, report)
    }
}

/// Gives the user data of `settings.sectors` CD-ROM sectors with addresses from `settings.address` on, each repaired. A
/// line names each that stays wrong, and zeros are written in its place. It is public for callers without arguments;
/// dvd_top hands it on. `HasAddresses` is `within` of the settings. `ends` says which ends a caller has to expect.
pub fn cdread_loop<S: Source, K: Sink, E: Sink>(
    settings: &Settings,
    src: &mut S,
    out: &mut K,
    report: &mut E,
) -> LoopEnd
    requires { HasAddresses settings.now }
    ensures follows { HasEnded (IsOutcome (cdread_units settings.now.address settings.now.sectors))
        (streams (S.seen src.old) (K.seen out.old) (E.seen report.old))
        (streams (S.seen src.new) (K.seen out.new) (E.seen report.new)) result }
    ensures ends { IsDamageEnd settings.now.sectors result }
{
    let reading = CdRead {
        address: settings.address,
        sectors: settings.sectors,
    };
    run_plain(reading, src, out, report)
}

// Repairs a sector and writes its user data; or reports its first cause and writes zeros.
// The line goes first, so that whoever reads the report knows of the zeros. With them the sectors after this one keep
// their places in the output. `k` names the sector in that line; `address` is what its header has to have, so a sector
// from another place isn't given. The sector is repaired in place, and nobody needs it afterwards.
fn give_sector<K: Sink, E: Sink>(
    address: u32,
    k: u32,
    sector: &mut [u8; 2352],
    out: &mut K,
    report: &mut E,
) -> Processed
    requires { address < 450000 }
    ensures { (source : Seen) → AreDone (IsSectorRead address k sector.old)
        (streams source (K.seen out.old) (E.seen report.old)) (streams source (K.seen out.new) (E.seen report.new)) result }
{
    match repair(sector, address) {
        // How many bytes were repaired isn't reported: a sector that is given has no line. User data begin at byte 16,
        // after sync and header.
        Ok(_) => unit_written(write_whole(out, &sector[16..2064]), UnitKind::Good),
        Err(cause) => {
            line_reported(write_whole(report, damaged_sector_line(k, cause).as_slice()))?;
            unit_written(write_whole(out, &[0; 2048]), UnitKind::Bad)
        }
    }
}
