//! The table of commands: their names, and what each answers.
ghost use Rattle.std.specs.Prelude.{◌≡◌, map, string_bytes, Some};
ghost use Rattle.cmd_drive.specs.Dialled.{dialled};
ghost use Rattle.edge_io.specs.Outside.{KeepsFiles};
ghost use Rattle.torx_tool.specs.Commands.{named};
ghost use Rattle.torx_tool.specs.Run.{report_of, IsReport, ReportsBy};
ghost use Rattle.torx_tool.specs.Served.{IsServedBy};

use crate::answer::stopped;
use crate::status::{Outcome, Status};
use cmd_angelic::angelic;
use cmd_check::check;
use cmd_demo::demo;
use cmd_drive::{drive, rehearse};
use cmd_outs::outs;
use cmd_replay::{migrate, replay};
use cmd_verify::verify;
use edge_io::{Dialer, Files};
use std::alloc::Global;
use tool_base::{Report, Stop};

/// A command.
#[derive(Clone, Copy, PartialEq, Eq, Debug)]
pub enum Name {
    /// `check`.
    Check,
    /// `verify`.
    Verify,
    /// `outs`.
    Outs,
    /// `angelic`.
    Angelic,
    /// `replay`.
    Replay,
    /// `migrate`.
    Migrate,
    /// `demo`.
    Demo,
    /// `drive`.
    Drive,
    /// `rehearse`.
    Rehearse,
}

/// The command of this name.
pub fn command_named(word: &str) -> Option<Name>
    ensures { result ≡ named word.now }
{
    if word == "check" {
        Some(Name::Check)
    } else if word == "verify" {
        Some(Name::Verify)
    } else if word == "outs" {
        Some(Name::Outs)
    } else if word == "angelic" {
        Some(Name::Angelic)
    } else if word == "replay" {
        Some(Name::Replay)
    } else if word == "migrate" {
        Some(Name::Migrate)
    } else if word == "demo" {
        Some(Name::Demo)
    } else if word == "drive" {
        Some(Name::Drive)
    } else if word == "rehearse" {
        Some(Name::Rehearse)
    } else {
        None
    }
}

/// The report of a command on the words after its name.
#[tactic(auto, using(crate::proofs::ServedLaws::served_none))]
pub fn command_report<F: Files, D: Dialer>(
    alloc: Global,
    name: Name,
    words: &[String],
    files: &mut F,
    dialer: &mut D,
) -> Report<Status>
    ensures report { ReportsBy (dialled D.Link.gives (D.told dialer.old) (D.told dialer.new)) (Some name) (map string_bytes words.now) (F.told files.old) (F.told files.new) result }
    ensures served { IsServedBy (Some name) (map string_bytes words.now) (D.told dialer.old) (D.told dialer.new) result.outcome }
    ensures keeps { KeepsFiles (F.told files.old) (F.told files.new) }
{
    match name {
        Name::Check => reported(alloc, check(alloc, files, words)),
        Name::Verify => reported(alloc, verify(alloc, files, words)),
        Name::Outs => reported(alloc, outs(alloc, files, words)),
        Name::Angelic => reported(alloc, angelic(alloc, files, words)),
        Name::Replay => reported(alloc, replay(alloc, files, words)),
        Name::Migrate => reported(alloc, migrate(alloc, files, words)),
        Name::Demo => reported(alloc, demo(alloc, words)),
        Name::Drive => reported(alloc, drive(alloc, files, dialer, words)),
        Name::Rehearse => reported(alloc, rehearse(alloc, files, words)),
    }
}

/// The report of what a command answered.
fn reported<O: Outcome>(alloc: Global, answer: Result<Report<O>, Stop>) -> Report<Status>
    ensures { IsReport (report_of O.due answer) result }
{
    match answer {
        Ok(Report { outcome, text }) => Report {
            outcome: outcome.status(),
            text,
        },
        Err(stop) => stopped(alloc, stop),
    }
}
