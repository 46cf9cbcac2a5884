//! A data frame (ECMA-267, 16), scrambled (17): 2,064 bytes.
ghost use Rattle.std.specs.Prelude.{◌≡◌};
ghost use Rattle.dvd_frame.specs.Frame.{data_frame};

use crate::checks::{edc_of_parts, ied};
use crate::id::Id;
use crate::parts::put;
use crate::scrambling::{Rule, Scrambler, scramble_slice};

/// Writes the frame of a sector: ID, IED, six bytes CPR_MAI, Main Data scrambled as the rule says, and the EDC
/// of all of these before scrambling. It makes the scrambling bytes anew each time, for callers that keep none: the C
/// library and the command `frames`.
pub fn make_frame(id: Id, cpr: &[u8; 6], rule: Rule, main: &[u8; 2048], out: &mut [u8; 2064])
    ensures { out.new ≡ data_frame id cpr.now rule main.now }
{
    make_frame_with(&mut Scrambler::new(), id, cpr, rule, main, out);
}

/// Writes a frame as `make_frame` does, with scrambling bytes that are kept from one frame to the next: for `master`,
/// where the sixteen frames of a block need the same. Those that are there make no difference to the frame.
pub fn make_frame_with(
    scrambler: &mut Scrambler,
    id: Id,
    cpr: &[u8; 6],
    rule: Rule,
    main: &[u8; 2048],
    out: &mut [u8; 2064],
)
    ensures { out.new ≡ data_frame id cpr.now rule main.now }
{
    // From the first byte on: `put` keeps what comes before a part, and its contract says nothing of what comes after.
    put(out, 0, &id.bytes());
    put(out, 4, &ied(id));
    put(out, 6, cpr);
    // The EDC is of the bytes before scrambling, so it comes first.
    let check = edc_of_parts(&out[..12], main);
    // `scramble_into` would write these bytes once, but it wants an array, and here they are a part of one.
    put(out, 12, main);
    put(out, 2060, &check);
    scramble_slice(scrambler, rule, id, &mut out[12..2060]);
}
