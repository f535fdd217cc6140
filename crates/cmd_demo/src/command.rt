//! `demo`, from its words to its report.
ghost use Rattle.std.specs.Prelude.{◌≡◌, map, string_bytes, IfOk, None, option_map};
ghost use Rattle.edge_io.specs.Outside.{ToldFiles};
ghost use Rattle.tool_base.specs.Pages.{Answers, IsOnPage};
ghost use Rattle.cmd_demo.specs.Demo.{demo_command, demo_page, AnswersDemo, IsDemo};
ghost use Rattle.cmd_demo.specs.Named.{IsHeaded};

use crate::outcome::DemoOutcome;
use crate::size::Size;
use crate::systems::both_systems;
use crate::words::read_size;
use cmd_check::{CheckOutcome, usual_report};
use lts_base::{Listed, Memory};
use std::alloc::Global;
use tool_base::{Report, Stop, usage_text, words_stop};
use torx_words::UsageKind;
use trace_text::put_line;

/// Does what the words after `demo` ask for. It needs no files.
pub fn demo(alloc: Global, words: &[String]) -> Result<Report<DemoOutcome>, Stop>
    ensures { (old new : ToldFiles) → Answers demo_command (map string_bytes words.now) old new result }
{
    match read_size(alloc, words) {
        Ok(size) => answer(alloc, size),
        Err(error) => Err(words_stop(error)),
    }
}

/// The answer for the size that is asked for.
fn answer(alloc: Global, size: Option<Size>) -> Result<Report<DemoOutcome>, Stop>
    ensures { (old new : ToldFiles) → IsOnPage (demo_page old.content (option_map (λ (s : _). s.number) size)) old new result }
{
    let report = report_on(alloc, size)?;
    Ok(report)
}

fn report_on(alloc: Global, size: Option<Size>) -> Result<Report<DemoOutcome>, Memory>
    ensures { IfOk result (λ r. AnswersDemo (option_map (λ (s : _). s.number) size) r.outcome r.text) }
{
    match size {
        Some(size) => decided(alloc, size),
        None => no_size(alloc),
    }
}

/// The report that the word is no size.
fn no_size(alloc: Global) -> Result<Report<DemoOutcome>, Memory>
    ensures { IfOk result (λ r. AnswersDemo None r.outcome r.text) }
{
    let text = usage_text(alloc, UsageKind::Value)?;
    Ok(Report {
        outcome: DemoOutcome::NoSize,
        text,
    })
}

/// The report on the two systems of this size.
fn decided(alloc: Global, size: Size) -> Result<Report<DemoOutcome>, Memory>
    ensures { IfOk result (λ r. IsDemo size.number r.outcome r.text) }
{
    let both = both_systems(alloc, size)?;
    let report = usual_report(alloc, &both)?;
    headed(alloc, size.number, report)
}

/// The report, with a line before it that tells the size.
fn headed(
    alloc: Global,
    number: u32,
    report: Report<CheckOutcome>,
) -> Result<Report<DemoOutcome>, Memory>
    ensures { IfOk result (IsHeaded number report) }
{
    let digits = number.to_string(alloc)?;
    let mut text = Vec::new(alloc);
    put_line(&mut text, b"demo n=", digits.as_bytes())?;
    text.extend_from_slice(report.text.as_slice())?;
    Ok(Report {
        outcome: DemoOutcome::Decided(report.outcome),
        text: Listed::from_vec(text),
    })
}
