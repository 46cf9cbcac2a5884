//! Why lines of the inputs aren't accepted, and the words that reports have for it.
ghost use Rattle.std.specs.Prelude.{◌≡◌, ◌≤◌, length};
ghost use Rattle.cap_top.specs.Causes.{input_name, cause_text};

use cap_draw::SurveyCause;
use cap_lost::ReportCause;
use cap_map::MapCause;

/// The rule that a line breaks, by the input that it is of.
#[derive(Clone, Copy)]
pub enum LineCause {
    /// Of the map of `mark`.
    Map(MapCause),
    /// Of the report that `lost` reads.
    Report(ReportCause),
    /// Of the survey that `draw` reads.
    Survey(SurveyCause),
}

/// What the input is called. `short` shows here and below that a `Line` has room for the text.
pub fn input_name(cause: LineCause) -> &'static [u8]
    ensures text { result.now ≡ input_name cause }
    ensures short { length result.now ≤ 20 }
{
    match cause {
        LineCause::Map(_) => b"map",
        LineCause::Report(_) => b"report",
        LineCause::Survey(_) => b"survey",
    }
}

/// The words of the rule. Those of a map and of a report are displayed by their causes too; here they are bytes. A
/// `SurveyCause` displays a longer text.
pub fn cause_text(cause: LineCause) -> &'static [u8]
    ensures text { result.now ≡ cause_text cause }
    ensures short { length result.now ≤ 20 }
{
    match cause {
        LineCause::Map(MapCause::State) => b"no state",
        LineCause::Map(MapCause::Fields) => b"fields",
        LineCause::Map(MapCause::Number) => b"number",
        LineCause::Map(MapCause::Status) => b"status",
        LineCause::Map(MapCause::Empty) => b"empty",
        LineCause::Map(MapCause::TooLong) => b"too long",
        LineCause::Map(MapCause::Gap) => b"gap",
        LineCause::Map(MapCause::Overlap) => b"overlap",
        LineCause::Report(ReportCause::Line) => b"not a report line",
        LineCause::Report(ReportCause::Block) => b"no such block",
        LineCause::Report(ReportCause::Place) => b"other place",
        LineCause::Report(ReportCause::NoImage) => b"no image sectors",
        LineCause::Report(ReportCause::Order) => b"out of order",
        LineCause::Report(ReportCause::Count) => b"wrong count",
        LineCause::Report(ReportCause::Fault) => b"ended by a fault",
        LineCause::Report(ReportCause::AfterEnd) => b"after the end",
        LineCause::Report(ReportCause::NoEnd) => b"no closing line",
        LineCause::Survey(SurveyCause::Form) => b"form",
        LineCause::Survey(SurveyCause::Order) => b"order",
        LineCause::Survey(SurveyCause::Range) => b"range",
        LineCause::Survey(SurveyCause::Sum8) => b"sum8",
        LineCause::Survey(SurveyCause::TooMany) => b"too many",
        LineCause::Survey(SurveyCause::Totals) => b"totals",
        LineCause::Survey(SurveyCause::After) => b"after",
    }
}
