//! `drive`, from its words to its report.
ghost use Rattle.std.specs.Prelude.{map, string_bytes};
ghost use Rattle.edge_io.specs.Outside.{KeepsFiles};
ghost use Rattle.tool_base.specs.Pages.{Answers, IsOnPage};
ghost use Rattle.cmd_drive.specs.Asked.{drive_from, IsInRange};
ghost use Rattle.cmd_drive.specs.Dialled.{dialled, Dials};
ghost use Rattle.cmd_drive.specs.Drive.{drive_command, drive_page};
ghost use Rattle.cmd_drive.specs.Given.{DialsFor};

use crate::files::load_setting;
use crate::outcome::DriveOutcome;
use crate::session::session_report;
use crate::words::{Drive, read_drive};
use edge_io::{Dialer, Files};
use std::alloc::Global;
use tool_base::{Report, Stop, words_stop};

/// Runs a session with the program at an address, and prints its log. `words` are those after the
/// command's name. Each link that was dialled is hung up before it answers.
pub fn drive<F: Files, D: Dialer>(
    alloc: Global,
    files: &mut F,
    dialer: &mut D,
    words: &[String],
) -> Result<Report<DriveOutcome>, Stop>
    ensures answers { Answers (drive_command (dialled D.Link.gives (D.told dialer.old) (D.told dialer.new))) (map string_bytes words.now) (F.told files.old) (F.told files.new) result }
    ensures dials { Dials (map string_bytes words.now) (D.told dialer.old) (D.told dialer.new) result }
    ensures keeps { KeepsFiles (F.told files.old) (F.told files.new) }
{
    match read_drive(alloc, words) {
        Ok(request) => on_files(alloc, files, dialer, &request),
        Err(error) => Err(words_stop(error)),
    }
}

/// The answer for the files that are asked for.
fn on_files<F: Files, D: Dialer>(
    alloc: Global,
    files: &mut F,
    dialer: &mut D,
    request: &Drive<'_>,
) -> Result<Report<DriveOutcome>, Stop>
    requires range { IsInRange (drive_from request.now) }
    ensures page { IsOnPage (drive_page (dialled D.Link.gives (D.told dialer.old) (D.told dialer.new)) (F.told files.old).content (drive_from request.now)) (F.told files.old) (F.told files.new) result }
    ensures dials { DialsFor (drive_from request.now) (D.told dialer.old) (D.told dialer.new) result }
    ensures keeps { KeepsFiles (F.told files.old) (F.told files.new) }
{
    let setting = load_setting(alloc, files, request)?;
    let report = session_report(alloc, dialer, request, setting)?;
    Ok(report)
}
