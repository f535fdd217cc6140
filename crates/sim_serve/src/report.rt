//! Answers with their texts, and how they are written.
ghost use Rattle.std.specs.Prelude.{◌≡◌};
ghost use Rattle.sim_serve.specs.Report.{IsOrNoMemory, IsWritten, no_memory as report_of_no_memory, stop_report};

use crate::status::{SimStatus, refusal_status};
use edge_io::{Sink, put_all};
use lts_base::Listed;
use std::alloc::Global;
use tool_base::{Refusal, Report, Stop, refusal_text, usage_text};
use torx_words::UsageKind;

/// The report that memory ran out.
pub(crate) fn no_memory(alloc: Global) -> Report<SimStatus>
    ensures { result ≡ report_of_no_memory }
{
    Report {
        outcome: SimStatus::Memory,
        text: Listed::new(alloc),
    }
}

/// The report where the work stopped.
pub(crate) fn stopped(alloc: Global, stop: Stop) -> Report<SimStatus>
    ensures { IsOrNoMemory (stop_report stop) result }
{
    match stop {
        Stop::Usage(kind) => refused_words(alloc, kind),
        Stop::Refused(refusal) => refused_file(alloc, refusal),
        Stop::Memory => no_memory(alloc),
    }
}

/// The report on words that are refused.
pub(crate) fn refused_words(alloc: Global, kind: UsageKind) -> Report<SimStatus>
    ensures { IsOrNoMemory (stop_report (Stop.Usage kind)) result }
{
    match usage_text(alloc, kind) {
        Ok(text) => Report {
            outcome: SimStatus::Usage { kind },
            text,
        },
        Err(_) => no_memory(alloc),
    }
}

fn refused_file(alloc: Global, refusal: Refusal) -> Report<SimStatus>
    ensures { IsOrNoMemory (stop_report (Stop.Refused refusal)) result }
{
    match refusal_text(alloc, &refusal) {
        Ok(text) => Report {
            outcome: refusal_status(refusal),
            text,
        },
        Err(_) => no_memory(alloc),
    }
}

/// Writes the text of a report; of want of memory there is none.
pub(crate) fn written<S: Sink>(out: &mut S, report: Report<SimStatus>) -> SimStatus
    ensures { IsWritten report (S.told out.old) (S.told out.new) result }
{
    let Report { outcome, text } = report;
    if let SimStatus::Memory = outcome {
        return SimStatus::Memory;
    }
    match put_all(out, text.as_slice()) {
        Ok(()) => outcome,
        Err(_) => SimStatus::OutFault,
    }
}
