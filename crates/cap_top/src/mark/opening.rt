//! The map of a run, which is read whole before the capture is touched: a wrong map then costs no output.
ghost use Rattle.std.specs.Prelude.{◌≡◌, IfOk, IfErr};
ghost use Rattle.cap_top.specs.Mark.Opening.{IsMapRefused, IsTextFault, OpensMap, TextIs};

use cap_map::{MapFault, Span, read_map};
use dvd_ports::{Failed, Source};
use std::alloc::Global;

/// Why a run doesn't begin.
#[derive(Clone, Copy, Debug, PartialEq, Eq)]
pub enum MapRefusal {
    /// The file of the map couldn't be opened, or a read of it failed.
    ReadFault,
    /// The text of the map gives no spans, or there is no memory for it.
    Text(MapFault),
}

/// Reads a map in which these statuses are trusted, to its end. No span is used before the last line was read, since
/// one that breaks a rule ends the run. A `MapFault` is of a text, so it has no failed read: a `MapRefusal` has one.
pub fn open_map<M: Source>(alloc: Global, good: &[u8], map: &mut M) -> Result<Vec<Span>, MapRefusal>
    ensures opened { IfOk result (λ spans. OpensMap good.now (M.seen map.old) (M.seen map.new) spans.items) }
    ensures refused { IfErr result (IsMapRefused good.now (M.seen map.old) (M.seen map.new)) }
{
    let text = read_text(alloc, map)?;
    read_map(alloc, &text, good).map_err(|fault| MapRefusal::Text(fault))
}

// Reads the text of a map by pieces, up to a read that gives no byte: that is its end, after which none is asked for.
// Its length isn't known before, so the text grows, and `read_whole` isn't of use. A map without end comes to
// `NoMemory`. The length of a piece has no part in the result.
fn read_text<M: Source>(alloc: Global, map: &mut M) -> Result<Vec<u8>, MapRefusal>
    ensures read { IfOk result (λ text. TextIs (M.seen map.old) (M.seen map.new) text.items) }
    ensures refused { IfErr result (IsTextFault (M.seen map.old) (M.seen map.new)) }
{
    let mut text = Vec::new(alloc);
    let mut piece = [0; 4096];
    loop {
        match map.read(&mut piece) {
            Ok(0) => return Ok(text),
            Ok(count) => {
                if text.extend_from_slice(&piece[..count]).is_err() {
                    return Err(MapRefusal::Text(MapFault::NoMemory));
                }
            }
            Err(Failed) => return Err(MapRefusal::ReadFault),
        }
    }
}
