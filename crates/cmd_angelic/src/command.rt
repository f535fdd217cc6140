//! What `angelic` does.
ghost use Rattle.std.specs.Prelude.{◌≡◌, map, string_bytes, IfOk};
ghost use Rattle.edge_io.specs.Outside.{KeepsFiles};
ghost use Rattle.lts_base.specs.declared.limits.TheConstants.{MOST_MOVES};
ghost use Rattle.lts_base.specs.Alphabet.{IsOver};
ghost use Rattle.tool_base.specs.Pages.{Answers, IsOnPage};
ghost use Rattle.cmd_angelic.specs.Angelic.{angelic_command, angelic_page, IsCompletion};
ghost use Rattle.cmd_angelic.specs.Named.{request_from, IsPrintedReport, IsLimitReport};

use crate::outcome::AngelicOutcome;
use crate::words::{Request, read_request};
use edge_io::Files;
use lts_base::limits::MOST_MOVES;
use lts_base::{Labels, Lts, Memory};
use lts_shape::{ShapeError, angelic as completion_of};
use std::alloc::Global;
use tool_base::{Report, Stop, one_line, one_system, words_stop};

/// Prints the system of a file, completed by a loop for each state and each input that the state
/// can't take. `words` are those after the command's name.
pub fn angelic<F: Files>(
    alloc: Global,
    files: &mut F,
    words: &[String],
) -> Result<Report<AngelicOutcome>, Stop>
    ensures answers { Answers angelic_command (map string_bytes words.now) (F.told files.old) (F.told files.new) result }
    ensures keeps { KeepsFiles (F.told files.old) (F.told files.new) }
{
    match read_request(alloc, words) {
        Ok(request) => completed(alloc, files, &request),
        Err(error) => Err(words_stop(error)),
    }
}

/// The answer for what the words ask for.
fn completed<F: Files>(
    alloc: Global,
    files: &mut F,
    request: &Request<'_>,
) -> Result<Report<AngelicOutcome>, Stop>
    ensures page { IsOnPage (angelic_page (F.told files.old).content (request_from request.now)) (F.told files.old) (F.told files.new) result }
    ensures keeps { KeepsFiles (F.told files.old) (F.told files.new) }
{
    let one = one_system(
        alloc,
        files,
        request.file,
        request.sorting,
        request.divergence,
    )?;
    let report = report_of(alloc, &one.labels, &one.system)?;
    Ok(report)
}

/// The answer for a system over the labels.
fn report_of(alloc: Global, labels: &Labels, system: &Lts) -> Result<Report<AngelicOutcome>, Memory>
    requires { IsOver labels.now system.now }
    ensures { IfOk result (λ r. IsCompletion labels.now system.now r.outcome r.text) }
{
    match completion_of(alloc, system, labels) {
        Ok(whole) => printed(alloc, labels, &whole),
        Err(ShapeError::TooManyMoves) => too_many(alloc),
        Err(ShapeError::Memory) => Err(Memory),
    }
}

/// The report with the system's text.
fn printed(alloc: Global, labels: &Labels, system: &Lts) -> Result<Report<AngelicOutcome>, Memory>
    requires { IsOver labels.now system.now }
    ensures { IfOk result (IsPrintedReport labels.now system.now) }
{
    // the call tells that the moves are sorted
    let _ = system.states();
    let text = aut_text::print(alloc, system, labels)?;
    Ok(Report {
        outcome: AngelicOutcome::Printed,
        text,
    })
}

/// The report that there are too many moves.
fn too_many(alloc: Global) -> Result<Report<AngelicOutcome>, Memory>
    ensures { IfOk result IsLimitReport }
{
    let reached = MOST_MOVES as u64 + 1;
    let number = reached.to_string(alloc)?;
    let text = one_line(alloc, b"limit moves=", number.as_bytes())?;
    Ok(Report {
        outcome: AngelicOutcome::TooManyMoves { reached },
        text,
    })
}
