//! What is answered and printed, from the words and the files.
ghost use Rattle.std.specs.Prelude.{◌≡◌, map, string_bytes};
ghost use Rattle.edge_io.specs.Outside.{KeepsFiles};
ghost use Rattle.cmd_drive.specs.Dialled.{dialled};
ghost use Rattle.torx_tool.specs.Served.{IsServed};
ghost use Rattle.torx_tool.specs.Run.{no_memory as report_of_no_memory, stop_report, IsReport, IsReportOn};

use crate::commands::{command_named, command_report};
use crate::status::{Status, refusal_status};
use edge_io::{Dialer, Files};
use lts_base::Listed;
use std::alloc::Global;
use tool_base::{Refusal, Report, Stop, refusal_text, usage_text};
use torx_words::UsageKind;

/// The report on the words.
pub fn answer<F: Files, D: Dialer>(
    alloc: Global,
    words: &[String],
    files: &mut F,
    dialer: &mut D,
) -> Report<Status>
    ensures report { IsReportOn (dialled D.Link.gives (D.told dialer.old) (D.told dialer.new)) (map string_bytes words.now) (F.told files.old) (F.told files.new) result }
    ensures served { IsServed (map string_bytes words.now) (D.told dialer.old) (D.told dialer.new) result.outcome }
    ensures keeps { KeepsFiles (F.told files.old) (F.told files.new) }
{
    let [first, others @ ..] = words else {
        return refused_words(alloc, UsageKind::NoCommand);
    };
    match command_named(first.as_str()) {
        Some(name) => command_report(alloc, name, others, files, dialer),
        None => refused_words(alloc, UsageKind::UnknownCommand),
    }
}

/// The report where the work stopped.
pub fn stopped(alloc: Global, stop: Stop) -> Report<Status>
    ensures { IsReport (stop_report stop) result }
{
    match stop {
        Stop::Usage(kind) => refused_words(alloc, kind),
        Stop::Refused(refusal) => refused_files(alloc, refusal),
        Stop::Memory => no_memory(alloc),
    }
}

/// The report on words that are refused.
pub fn refused_words(alloc: Global, kind: UsageKind) -> Report<Status>
    ensures { IsReport (stop_report (Stop.Usage kind)) result }
{
    match usage_text(alloc, kind) {
        Ok(text) => Report {
            outcome: Status::Usage { kind },
            text,
        },
        Err(_) => no_memory(alloc),
    }
}

fn refused_files(alloc: Global, refusal: Refusal) -> Report<Status>
    ensures { IsReport (stop_report (Stop.Refused refusal)) result }
{
    match refusal_text(alloc, &refusal) {
        Ok(text) => Report {
            outcome: refusal_status(refusal),
            text,
        },
        Err(_) => no_memory(alloc),
    }
}

/// The report that memory ran out.
pub fn no_memory(alloc: Global) -> Report<Status>
    ensures { result ≡ report_of_no_memory }
{
    Report {
        outcome: Status::Memory,
        text: Listed::new(alloc),
    }
}
