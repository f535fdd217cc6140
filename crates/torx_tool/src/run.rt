//! The top call: from words and files to what is printed.
ghost use Rattle.edge_io.specs.Outside.{KeepsFiles};
ghost use Rattle.cmd_drive.specs.Dialled.{dialled};
ghost use Rattle.torx_tool.specs.Run.{IsWritten, Runs, texts};
ghost use Rattle.torx_tool.specs.Exact.{IsAnswered};
ghost use Rattle.torx_tool.specs.Headline.{IsHeadline};
ghost use Rattle.torx_tool.specs.Audit.{IsAudited};
ghost use Rattle.torx_tool.specs.Served.{IsServed};

use crate::answer::answer;
use crate::status::Status;
use edge_io::{Dialer, Files, Sink, put_all};
use std::alloc::Global;
use tool_base::Report;

/// Does what the words ask for, with these files and with links of this dialer, and writes the
/// answer's text to `out`.
pub fn run<F: Files, S: Sink, D: Dialer>(
    alloc: Global,
    words: &[String],
    files: &mut F,
    out: &mut S,
    dialer: &mut D,
) -> Status
    ensures run { Runs D.Link.gives (D.told dialer.old) (D.told dialer.new) (texts words.now) (F.told files.old) (F.told files.new) (S.told out.old) (S.told out.new) result }
    ensures answered { IsAnswered (dialled D.Link.gives (D.told dialer.old) (D.told dialer.new)) (F.told files.old).content (texts words.now) result }
    ensures headline { IsHeadline (F.told files.old).content (texts words.now) (S.told out.old) (S.told out.new) result }
    ensures audited { IsAudited (F.told files.old).content (texts words.now) result }
    ensures served { IsServed (texts words.now) (D.told dialer.old) (D.told dialer.new) result }
    ensures keeps { KeepsFiles (F.told files.old) (F.told files.new) }
{
    let report = answer(alloc, words, files, dialer);
    written(out, report)
}

/// Writes the text of a report; of want of memory there is none.
pub fn written<S: Sink>(out: &mut S, report: Report<Status>) -> Status
    ensures { IsWritten report (S.told out.old) (S.told out.new) result }
{
    let Report { outcome, text } = report;
    if let Status::Memory = outcome {
        return Status::Memory;
    }
    match put_all(out, text.as_slice()) {
        Ok(()) => outcome,
        Err(_) => Status::OutFault,
    }
}
