//! The command `frames`: a scrambled data frame for each sector. Only what is made of a sector differs from `cdmake`,
//! so both go by `make_each`. It has no layout and takes no memory, so it can't be refused. It writes no report, so its
//! clause is of any (`report`), which stays as it is.
ghost use Rattle.dvd_loop.specs.Laws.{IsPlainEnd};
ghost use Rattle.dvd_loop.specs.Machine.{IsOutcome};
ghost use Rattle.dvd_loop.specs.Streams.{streams, HasEnded};
ghost use Rattle.dvd_ports.specs.Seen.{Seen};
ghost use Rattle.dvd_commands.specs.Frames.{HasSectors, frames_units};

use crate::making::{Made, make_each};
use dvd_loop::LoopEnd;
use dvd_ports::{Sink, Source};
use dvd_words::Settings;

/// Makes a scrambled data frame for each of `settings.sectors` sectors of 2,048 bytes, numbered from `settings.first`
/// on. It is public for callers without arguments; dvd_top hands it on. `HasSectors`: there is a sector, and all of
/// their numbers have 24 bits. That there is a sector is a rule of the arguments, and nothing rests on it here. `ends`
/// says which ends a caller has to expect.
pub fn frames_loop<S: Source, K: Sink>(settings: &Settings, src: &mut S, out: &mut K) -> LoopEnd
    requires { HasSectors settings.now }
    ensures follows { (report : Seen) → HasEnded (IsOutcome (frames_units settings.now.first settings.now.sectors))
        (streams (S.seen src.old) (K.seen out.old) report) (streams (S.seen src.new) (K.seen out.new) report) result }
    ensures ends { IsPlainEnd settings.now.sectors result }
{
    make_each(Made::DataFrame, settings.first, settings.sectors, src, out)
}
