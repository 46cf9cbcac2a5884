//! The lines of the report of `lost`, one of which closes each run.
ghost use Rattle.std.specs.Prelude.{◌≡◌};
ghost use Rattle.cap_top.specs.Lost.{line_by, refusal_status, status_by};
ghost use Rattle.cap_top.specs.Lost.Lines.{refusal_line};
ghost use Rattle.dvd_report.specs.Setting.{setting_line};

use crate::causes::LineCause;
use crate::closing::{RunEnd, fixed_end, rule_end};
use crate::status::Status;
use cap_lost::ReportFault;
use dvd_layout::LayoutFault;
use dvd_ports::WriteFault;
use dvd_report::setting_line;

/// The end of a run whose settings give no layout. Its line is the one that `dvdecc` writes for such a layout.
pub fn setting_end(fault: LayoutFault) -> RunEnd
    ensures status { result.status ≡ Status.BadInput }
    ensures line { result.line ≡ setting_line fault }
{
    RunEnd {
        status: Status::BadInput,
        line: setting_line(fault),
    }
}

/// The end of a run that has read the report, by whether the map was written. The map is whole also where the run of
/// `dvdecc` stopped, so that this run is done.
pub fn map_end(answer: Result<(), WriteFault>) -> RunEnd
    ensures status { result.status ≡ status_by answer }
    ensures line { result.line ≡ line_by answer }
{
    match answer {
        Ok(()) => fixed_end(Status::Done, b"done\n"),
        Err(WriteFault) => fixed_end(Status::WriteFault, b"write fault\n"),
    }
}

/// The end of a run whose report isn't read. Nothing was written.
pub fn refusal_end(fault: ReportFault) -> RunEnd
    ensures status { result.status ≡ refusal_status fault }
    ensures line { result.line ≡ refusal_line fault }
{
    match fault {
        ReportFault::NoMemory => fixed_end(Status::NoMemory, b"no memory\n"),
        ReportFault::ReadFault => fixed_end(Status::ReadFault, b"read fault\n"),
        ReportFault::Rule { line, cause } => rule_end(LineCause::Report(cause), line),
    }
}
