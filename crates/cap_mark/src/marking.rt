//! The loop over the recording frames of a capture. A recording is made of them, so a capture may end after any. One
//! that ends within a frame is cut.
//!
//! `PlainCommand` is the trait of a command whose units, here frames, are read and written one after the other, with
//! nothing before the first or after the last. The contracts of its functions are in the trait, by what `Marking` gives
//! it: `key` is what the units depend on, here the spans of the map; `units` says what is written of a frame, `ready`
//! what holds before each, and `alone` that nothing is written besides. `AgreeFrom` says that two lists of spans say
//! the same of each byte from one on. `Processed` is the kind of a frame, or how the loop ends in it. `AreDone` says
//! which steps are done for a frame; where a write fails, only a first part of them is.
ghost use Rattle.std.specs.Prelude.{◌≡◌, ◌<◌, ◌^◌, ◌-◌, ℕ, List, refl};
ghost use Rattle.cap_map.specs.declared.span.Span.{Span as MapSpan};
ghost use Rattle.cap_mark.specs.Frames.{IsMarked, mark_units};
ghost use Rattle.cap_mark.specs.Walk.{AgreeFrom};
ghost use Rattle.dvd_loop.specs.Laws.{IsPlainEnd};
ghost use Rattle.dvd_loop.specs.Machine.{IsOutcome};
ghost use Rattle.dvd_loop.specs.Streams.{streams, HasEnded};
ghost use Rattle.dvd_loop.specs.UnitCommand.{AreDone};
ghost use Rattle.dvd_ports.specs.Seen.{Seen};

use crate::marks::put_rows;
use crate::walk::spans_from;
use arrayvec::ArrayVec;
use cap_map::Span;
use dvd_loop::{LoopEnd, PlainCommand, Processed, UnitKind, read_unit, run_plain};
use dvd_ports::{NullSink, Sink, Source, write_whole};

/// The spans of a map, and those of them that end after byte `place`: where the loop is in the map. So the spans before
/// it aren't looked at again. They are borrowed, since nothing of a map changes.
#[derive(Drop)]
struct Marking<'a> {
    spans: &'a [Span],
    left: &'a [Span],
    place: u64,
}

impl<'a> Marking<'a> {
    // The spans to look in for this byte and those after it: those that are left, or all where the loop is past it. The
    // loop never goes back, but `process` is proved for any frame.
    fn passed(&self, start: u64) -> &'a [Span]
        requires { AgreeFrom self.now.place self.now.left.now self.now.spans.now }
        ensures { AgreeFrom start result.now self.now.spans.now }
    {
        if self.place <= start {
            self.left
        } else {
            self.spans
        }
    }
}

impl<'a, S: Source, K: Sink, E: Sink> PlainCommand<S, K, E> for Marking<'a> {
    ghost Key = { List MapSpan };

    ghost key = { λ m. m.spans.now };

    ghost units = { mark_units };

    ghost ready = { λ m. AgreeFrom m.place m.left.now m.spans.now };

    ghost alone = { λ _. record { opens = refl; closes = λ _. refl; after_last = refl } };

    // How many frames a capture has isn't known before: its end ends the loop, as an end within a frame of which no
    // byte may have come. This number is the greatest that the loop counts.
    fn count(&self) -> u32 {
        u32::MAX
    }

    // Reads frame `k` and writes it with its marks. Where it doesn't come whole, nothing of it is written. No frame has
    // a line in the report.
    fn process(&mut self, k: u32, src: &mut S, out: &mut K, _report: &mut E) -> Processed {
        // 13 rows of 182 bytes. All of them come before the first is written, so that a frame that is cut leaves no
        // part.
        let mut frame = [0; 2366];
        read_unit(src, k, &mut frame)?;
        // The place in the map moves only once the frame came whole.
        let start = 2366 * u64::from(k);
        self.left = spans_from(self.passed(start), start);
        self.place = start;
        write_frame(self.left, k, &frame, out)
    }
}

/// Writes the recording frames of a capture with the marks of their rows, one after the other. The loop wants a report,
/// but no frame has a line: so it gets a sink that keeps nothing, and `follows` holds of any report: the streams have
/// moved as the units say. `ends` says which ends there are: the report fails in none, no block is damaged, and a
/// `Short` names a frame below 2^32 - 1.
pub fn mark_loop<S: Source, K: Sink>(spans: &[Span], src: &mut S, out: &mut K) -> LoopEnd
    ensures follows { (report : Seen) → HasEnded (IsOutcome (mark_units spans.now))
        (streams (S.seen src.old) (K.seen out.old) report) (streams (S.seen src.new) (K.seen out.new) report) result }
    ensures ends { IsPlainEnd (2 ^ 32 - 1) result }
{
    let marking = Marking {
        spans,
        left: spans,
        place: 0,
    };
    run_plain(marking, src, out, &mut NullSink::new())
}

// Writes frame `k` with the marks of its rows. Of the spans only those after its first byte are needed. No frame is
// bad, whatever its marks: `Good` lets the loop go on. The clause speaks of `k`, so the number of the first byte is
// made of it here too.
fn write_frame<K: Sink>(spans: &[Span], k: u32, frame: &[u8; 2366], out: &mut K) -> Processed
    ensures { (source report : Seen) → AreDone (IsMarked spans.now k frame.now)
        (streams source (K.seen out.old) report) (streams source (K.seen out.new) report) result }
{
    // On the stack, so that a frame goes out as one piece and no memory is taken.
    let mut marked = ArrayVec::new();
    put_rows(spans, 2366 * u64::from(k), frame, &mut marked);
    write_whole(out, marked.as_slice())?;
    Ok(UnitKind::Good)
}
