//! The command `cdmake`: a CD-ROM sector of Mode 1 for each sector of user data. Only what is made of a sector differs
//! from `frames`, so both go by `make_each`. It has no layout and takes no memory, so it can't be refused. It writes no
//! report, so its clause is of any (`report`), which stays as it is.
ghost use Rattle.dvd_loop.specs.Laws.{IsPlainEnd};
ghost use Rattle.dvd_loop.specs.Machine.{IsOutcome};
ghost use Rattle.dvd_loop.specs.Streams.{streams, HasEnded};
ghost use Rattle.dvd_ports.specs.Seen.{Seen};
ghost use Rattle.dvd_commands.specs.CdMake.{HasAddresses, cdmake_units};

use crate::making::{Made, make_each};
use dvd_loop::LoopEnd;
use dvd_ports::{Sink, Source};
use dvd_words::Settings;

/// Makes a CD-ROM sector for each of `settings.sectors` sectors of 2,048 bytes, with addresses from `settings.address`
/// on. It is public for callers without arguments; dvd_top hands it on. `HasAddresses`: no address reaches 450,000,
/// which is minute 100 (of 60 seconds of 75 sectors), as a header has two digits for minutes. `ends` says which ends a
/// caller has to expect: none is of damage, since any bytes are user data.
pub fn cdmake_loop<S: Source, K: Sink>(settings: &Settings, src: &mut S, out: &mut K) -> LoopEnd
    requires { HasAddresses settings.now }
    ensures follows { (report : Seen) → HasEnded (IsOutcome (cdmake_units settings.now.address settings.now.sectors))
        (streams (S.seen src.old) (K.seen out.old) report) (streams (S.seen src.new) (K.seen out.new) report) result }
    ensures ends { IsPlainEnd settings.now.sectors result }
{
    make_each(Made::CdSector, settings.address, settings.sectors, src, out)
}
