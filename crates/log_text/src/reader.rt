//! The reader of logs.
ghost use Rattle.std.specs.Prelude.{◌≡◌, ◌⊎◌, ◌-◌, ◌^◌, ◌<◌, ◌≤◌, length, IfOk, MatchResult};
ghost use Rattle.text_scan.specs.Lines.{lines_of};
ghost use Rattle.log_text.specs.declared.error.LogError.{LogError as TheError};
ghost use Rattle.log_text.specs.Logs.{AreLogsOf};
ghost use Rattle.log_text.specs.Faults.{RefusesLogs, IsRead, IsRefused};
ghost use Rattle.log_text.specs.Adding.{Finishes, settled};

use crate::error::LogError;
use crate::line::read_line;
use crate::log::Logs;
use crate::stage::{Stage, Step};
use lts_base::{Listed, Memory};
use std::alloc::Global;
use text_scan::next_line;

/// The logs that the content is the text of: one or more of either version, one after another.
/// There are fewer than 2^32 - 1 lines. A content is the text of one list of logs, or it has one
/// first fault.
pub fn read_logs(alloc: Global, bytes: &[u8]) -> Result<Logs, LogError>
    requires { length (lines_of bytes.now) < 2 ^ 32 - 1 }
    ensures read { MatchResult result (AreLogsOf bytes.now) (RefusesLogs bytes.now) }
    ensures only { (logs : _) → AreLogsOf bytes.now logs → IsRead logs result }
    ensures few { IfOk result (λ logs. length logs ≤ length bytes.now) }
    ensures fault { (e : TheError) → RefusesLogs bytes.now e → ¬ (e ≡ LogError.Memory) → IsRefused e result }
{
    read_lines(alloc, bytes)
}

fn read_lines(alloc: Global, bytes: &[u8]) -> Result<Logs, LogError>
    requires { length (lines_of bytes.now) < 2 ^ 32 - 1 }
    ensures { MatchResult result (AreLogsOf bytes.now) (RefusesLogs bytes.now) }
{
    let mut done = Listed::new(alloc);
    let mut stage = Stage::Opening;
    let mut rest = bytes;
    let mut number: u32 = 0;
    while let Some((line, after)) = next_line(rest) {
        number += 1;
        let step = read_line(alloc, stage, line, number)?;
        stage = settle(&mut done, step)?;
        rest = after;
    }
    finish(done, stage, rest)
}

/// Keeps the log where it is whole. How far the next one is.
fn settle(done: &mut Logs, step: Step) -> Result<Stage, Memory>
    ensures { IfOk result (λ stage. record { done = done.new; stage = stage } ≡ settled done.old step) }
{
    match step {
        Step::Goes(stage) => Ok(stage),
        Step::Ends(log) => {
            done.push(log)?;
            Ok(Stage::Opening)
        }
    }
}

/// The logs, where there is one, none is begun, and nothing follows.
fn finish(done: Logs, stage: Stage, rest: &[u8]) -> Result<Logs, LogError>
    ensures { Finishes done stage rest.now result }
{
    if !rest.is_empty() {
        return Err(LogError::Cut);
    }
    if done.as_slice().is_empty() {
        return Err(LogError::Cut);
    }
    match stage {
        Stage::Opening => Ok(done),
        _ => Err(LogError::Cut),
    }
}
