//! Reads a survey, and writes its picture. Nothing is written before the last line was read, so that a survey that
//! breaks a rule leaves no picture. cap_top calls `draw`; the rest is private.
ghost use Rattle.std.specs.Prelude.{◌≡◌, ◌<◌, ◌≤◌, [], IfOk, IfErr};
ghost use Rattle.cap_draw.specs.Drawn.{HasDrawn, HasRead, HasWritten, IsSurveyStop};
ghost use Rattle.cap_survey.specs.Survey.{nothing_read};

use crate::page::Page;
use crate::picture::put_picture;
use cap_survey::{Fault, Reading};
use dvd_ports::{Failed, Sink, Source, WriteFault, write_whole};
use std::alloc::Global;

/// How a drawing ended.
#[derive(Clone, Copy, Debug, PartialEq, Eq)]
pub enum DrawEnd {
    /// The survey and its picture are whole.
    Done,
    /// The survey ended before its line of totals: within this line, counted from 1, after this number of its bytes,
    /// which may be 0. The picture is written, and says so.
    Short { line: u64, bytes: u64 },
    /// A read of the survey failed. Nothing was written.
    ReadFault,
    /// A write failed. A prefix of the picture was written.
    WriteFault,
    /// A line of the survey breaks a rule. Nothing was written.
    Rule(Fault),
    /// There is no memory for the survey or for the picture. Nothing was read, and nothing written.
    NoMemory,
}

/// Reads a survey to its end, and writes its picture in at most `most` columns, in one write. All memory, some 15 MB,
/// is allocated before the first byte is read: that for the most blocks that a survey has, and for the greatest
/// picture. `most` is from 100 on where arguments choose it; any number above 0 would do here. The equations in the
/// clause are handed to the definition, which states them where a stream isn't touched.
pub fn draw<S: Source, K: Sink>(alloc: Global, most: u16, src: &mut S, out: &mut K) -> DrawEnd
    requires some { 0 < most }
    requires most { most ≤ 4000 }
    ensures { HasDrawn most (S.seen src.old) (S.seen src.new) (K.seen out.old) (K.seen out.new) (src.new ≡ src.old) (out.new ≡ out.old) result }
{
    let (Ok(mut reading), Ok(mut page)) = (Reading::new(alloc), Page::new(alloc)) else {
        return DrawEnd::NoMemory;
    };
    match read_survey(&mut reading, src) {
        Ok(left) => write_picture(&reading, left, most, &mut page, out),
        Err(end) => end,
    }
}

// Reads a survey to its end: how many bytes of a last line that is cut there are. `Err` is the end of the drawing: a
// failed read, or the first line that breaks a rule, after which no more is read. Each fault is made an end here, so
// that `draw` hands it on as it is.
fn read_survey<S: Source>(reading: &mut Reading, src: &mut S) -> Result<usize, DrawEnd>
    requires { reading.old ≡ record { read = nothing_read; line = [] } }
    ensures read { IfOk result (λ left. HasRead (S.seen src.old) (S.seen src.new) (record { read = reading.new.read; left = left })) }
    ensures stop { IfErr result (IsSurveyStop (S.seen src.old) (S.seen src.new)) }
{
    // A piece may end within a line: `Reading` puts lines together. It refuses a survey of 2^30 bytes, so the loop ends
    // for any source. The length of a piece has no part in the result: any would do, and a longer one means fewer
    // reads.
    let mut piece = [0; 32768];
    loop {
        match src.read(&mut piece) {
            Ok(0) => {
                return match reading.end() {
                    Ok(left) => Ok(left),
                    Err(fault) => Err(DrawEnd::Rule(fault)),
                };
            }
            Ok(count) => match reading.take(&piece[..count]) {
                Ok(()) => {}
                Err(fault) => return Err(DrawEnd::Rule(fault)),
            },
            Err(Failed) => return Err(DrawEnd::ReadFault),
        }
    }
}

// Writes the picture of what was read. A survey that is cut is drawn too, so that its user sees how far it went. It is
// cut where the line of totals is missing, whatever `left` is: that is how many bytes came of its last line, for the
// closing line of the report.
fn write_picture<K: Sink>(
    reading: &Reading,
    left: usize,
    most: u16,
    page: &mut Page,
    out: &mut K,
) -> DrawEnd
    requires empty { page.old ≡ [] }
    requires some { 0 < most }
    requires most { most ≤ 4000 }
    ensures { HasWritten most (record { read = reading.now.read; left = left }) (K.seen out.old) (K.seen out.new) result }
{
    let survey = reading.survey();
    put_picture(page, survey.cells(), survey.is_closed(), most);
    match write_whole(out, page.as_slice()) {
        Ok(()) if survey.is_closed() => DrawEnd::Done,
        Ok(()) => DrawEnd::Short {
            line: survey.next_line(),
            bytes: left as u64,
        },
        Err(WriteFault) => DrawEnd::WriteFault,
    }
}
