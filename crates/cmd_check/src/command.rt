//! `check`, from its words to its report.
ghost use Rattle.std.specs.Prelude.{◌<◌, ◌≤◌, map, IfOk, string_bytes};
ghost use Rattle.edge_io.specs.Outside.{KeepsFiles};
ghost use Rattle.lts_base.specs.declared.limits.TheConstants.{MOST_PAIRS, MOST_MEMBERS};
ghost use Rattle.tool_base.specs.Pages.{Answers, IsOnPage};
ghost use Rattle.tool_base.specs.Loaded.{AreTwoOver};
ghost use Rattle.cmd_check.specs.Asked.{check_from};
ghost use Rattle.cmd_check.specs.Check.{check_command, check_page};
ghost use Rattle.cmd_check.specs.Printable.{IsMissing, IsReportOn, IsUsualReportOn};

use crate::decision::{Found, decision};
use crate::outcome::CheckOutcome;
use crate::report::{lacking, usual, whole};
use crate::words::{Check, read_check};
use edge_io::Files;
use lts_base::limits::{USUAL_MEMBERS, USUAL_PAIRS};
use lts_base::{Divergence, Lts, Memory, Mode};
use lts_shape::missing_input;
use std::alloc::Global;
use tool_base::{Report, Stop, TwoSystems, two_systems, words_stop};
use torx_words::Sorting;

/// Does what the words after `check` ask for, with these files.
pub fn check<F: Files>(
    alloc: Global,
    files: &mut F,
    words: &[String],
) -> Result<Report<CheckOutcome>, Stop>
    ensures answers { Answers check_command (map string_bytes words.now) (F.told files.old) (F.told files.new) result }
    ensures keeps { KeepsFiles (F.told files.old) (F.told files.new) }
{
    match read_check(alloc, words) {
        Ok(asked) => on_files(alloc, files, &asked),
        Err(error) => Err(words_stop(error)),
    }
}

/// The answer for the files that are asked for.
fn on_files<F: Files>(
    alloc: Global,
    files: &mut F,
    asked: &Check<'_>,
) -> Result<Report<CheckOutcome>, Stop>
    requires some { 0 < asked.now.pairs }
    requires pairs { asked.now.pairs ≤ MOST_PAIRS }
    requires members { asked.now.members ≤ MOST_MEMBERS }
    ensures page { IsOnPage (check_page (F.told files.old).content (check_from asked.now)) (F.told files.old) (F.told files.new) result }
    ensures keeps { KeepsFiles (F.told files.old) (F.told files.new) }
{
    let both = two_systems(
        alloc,
        files,
        asked.spec,
        asked.imp,
        asked.sorting,
        asked.divergence,
    )?;
    let report = report(alloc, asked, &both)?;
    Ok(report)
}

/// The report on two systems over their alphabet, the specification first, where there are no
/// options: by ioco, within the usual limits, and without a certificate.
pub fn usual_report(alloc: Global, both: &TwoSystems) -> Result<Report<CheckOutcome>, Memory>
    requires over { AreTwoOver both.now }
    ensures { IfOk result (IsUsualReportOn both.now) }
{
    let asked = Check {
        sorting: Sorting::Prefix,
        divergence: Divergence::Refuse,
        mode: Mode::Ioco,
        enabled: false,
        cert: false,
        pairs: USUAL_PAIRS,
        members: USUAL_MEMBERS,
        spec: "",
        imp: "",
    };
    report(alloc, &asked, both)
}

/// The report on two systems over their alphabet, the specification first.
fn report(
    alloc: Global,
    asked: &Check<'_>,
    both: &TwoSystems,
) -> Result<Report<CheckOutcome>, Memory>
    requires some { 0 < asked.now.pairs }
    requires pairs { asked.now.pairs ≤ MOST_PAIRS }
    requires members { asked.now.members ≤ MOST_MEMBERS }
    requires over { AreTwoOver both.now }
    ensures { IfOk result (IsReportOn (check_from asked.now) both.now) }
{
    if let Some((state, label)) = missing(alloc, asked, &both.second)? {
        return lacking(alloc, asked, &both.labels, state, label);
    }
    match decision(alloc, asked, &both.first, &both.second)? {
        Found::Whole(answer) => whole(alloc, asked, &both.labels, answer),
        Found::Told(verdict) => usual(alloc, &both.labels, verdict),
    }
}

/// The first state and input that the implementation lacks, where it has to be input-enabled.
fn missing(alloc: Global, asked: &Check<'_>, imp: &Lts) -> Result<Option<(u32, u32)>, Memory>
    ensures { IfOk result (IsMissing (check_from asked.now) imp.now) }
{
    if !asked.enabled {
        return Ok(None);
    }
    missing_input(alloc, imp)
}
