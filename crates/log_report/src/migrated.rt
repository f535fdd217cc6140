//! The logs of a file in version 2.
ghost use Rattle.std.specs.Prelude.{◌≡◌, ◌↔◌, ◌+◌, ◌<◌, ◌^◌, length, map, All, IfOk, IsTrue, MatchOption, codes, decimal};
ghost use Rattle.std.specs.List.{flat_map};
ghost use Rattle.lts_base.specs.Alphabet.{IsOver};
ghost use Rattle.trace_text.specs.Lines.{line};
ghost use Rattle.log_text.specs.Logs.{IsNamed, IsDigest};
ghost use Rattle.log_text.specs.Printed.{printed};
ghost use Rattle.log_report.specs.Migrated.{IsMigrated, IsMigratable, IsFirstNotOf, IsOf, IsToldAgain, in_two, verdict_told};

use crate::verdicts::verdict_of;
use log_text::{Digest, Ending, Head, Named, print_as};
use lts_base::{Divergence, Labels, Listed, Lts, Memory, Text};
use std::alloc::{AllocError, Global};
use trace_log::LogVerdict;
use trace_text::put_line;

/// Whether the logs of a file are of the specification.
#[derive(Clone, Copy, PartialEq, Eq, Debug)]
pub enum MigrateOutcome {
    /// The logs are told in version 2.
    Printed,
    /// This log, counted from 1, is the first of version 1 that isn't of the specification.
    NotOf {
        /// Its number in the file.
        log: u32,
    },
}

/// The logs of a file in version 2, or why they can't be told so.
#[derive(Drop, Debug)]
pub struct Migration {
    /// Whether the logs are of the specification.
    pub outcome: MigrateOutcome,
    /// The logs, or the line that names the first one that isn't of it.
    pub text: Text,
}

/// The logs in version 2, which names the specification by its digest and says how divergence is
/// read; or the first log of version 1 that isn't of the specification. There are fewer than
/// 2^32 - 1 logs. What is told in version 2 is the text of the same logs with these heads.
pub fn migrate_logs(
    alloc: Global,
    labels: &Labels,
    system: &Lts,
    spec: &Digest,
    divergence: Divergence,
    logs: &[Named],
) -> Result<Migration, Memory>
    requires over { IsOver labels.now system.now }
    requires logs { All IsNamed logs.now }
    requires few { length logs.now + 1 < 2 ^ 32 }
    ensures answer { IfOk result (λ m. IsMigrated labels.now system.now spec.now divergence logs.now m.outcome m.text) }
    ensures again { IsDigest spec.now → 0 < length logs.now → IfOk result (IsToldAgain spec.now divergence logs.now) }
{
    let migration = migrated(alloc, labels, system, spec, divergence, logs)?;
    Ok(migration)
}

fn migrated(
    alloc: Global,
    labels: &Labels,
    system: &Lts,
    spec: &Digest,
    divergence: Divergence,
    logs: &[Named],
) -> Result<Migration, Memory>
    requires over { IsOver labels.now system.now }
    requires logs { All IsNamed logs.now }
    requires few { length logs.now + 1 < 2 ^ 32 }
    ensures { IfOk result (λ r. IsMigrated labels.now system.now spec.now divergence logs.now r.outcome r.text) }
{
    let not_of = first_not_of(alloc, labels, system, logs)?;
    match not_of {
        Some(log) => {
            let text = not_of_text(alloc, log)?;
            Ok(Migration {
                outcome: MigrateOutcome::NotOf { log },
                text,
            })
        }
        None => {
            let text = text_in_two(alloc, spec, divergence, logs)?;
            Ok(Migration {
                outcome: MigrateOutcome::Printed,
                text,
            })
        }
    }
}

/// The number of the first log of version 1, from 1, that isn't of the specification.
fn first_not_of(
    alloc: Global,
    labels: &Labels,
    system: &Lts,
    logs: &[Named],
) -> Result<Option<u32>, Memory>
    requires over { IsOver labels.now system.now }
    requires logs { All IsNamed logs.now }
    requires few { length logs.now + 1 < 2 ^ 32 }
    ensures { IfOk result (λ o. MatchOption o (All (IsMigratable labels.now system.now) logs.now) (IsFirstNotOf labels.now system.now logs.now)) }
{
    let mut number: u32 = 0;
    'logs: for named in logs {
        number += 1;
        let good = is_migratable(alloc, labels, system, named)?;
        if !good {
            return Ok(Some(number));
        }
    }
    Ok(None)
}

/// Whether the log is of version 2, or of the specification.
fn is_migratable(
    alloc: Global,
    labels: &Labels,
    system: &Lts,
    named: &Named,
) -> Result<bool, Memory>
    requires over { IsOver labels.now system.now }
    requires log { IsNamed named.now }
    ensures { IfOk result (λ b. IsTrue b ↔ IsMigratable labels.now system.now named.now) }
{
    match &named.head {
        Head::One => is_of(alloc, labels, system, named),
        Head::Two { .. } => Ok(true),
    }
}

/// Whether the log's verdict is the one that its ending tells.
fn is_of(alloc: Global, labels: &Labels, system: &Lts, named: &Named) -> Result<bool, Memory>
    requires over { IsOver labels.now system.now }
    requires log { IsNamed named.now }
    ensures { IfOk result (λ b. IsTrue b ↔ IsOf labels.now system.now named.now) }
{
    // the call tells what an alphabet is
    let _ = labels.inputs();
    let verdict = verdict_of(alloc, labels, system, named)?;
    let told = told_by(named.log.ending, named.log.entries.as_slice().len());
    Ok(is_same(verdict, told))
}

/// The verdict that the ending tells after so many entries.
fn told_by(ending: Ending, count: usize) -> LogVerdict
    requires { count < 2 ^ 32 }
    ensures { result ≡ verdict_told ending count }
{
    match ending {
        Ending::Fail => LogVerdict::Fail(count as u32),
        Ending::Pass => LogVerdict::Pass,
        Ending::Ended => LogVerdict::Pass,
        Ending::Stalled => LogVerdict::Pass,
        Ending::Long => LogVerdict::Pass,
        Ending::Full => LogVerdict::Pass,
        Ending::Broken => LogVerdict::Pass,
    }
}

fn is_same(one: LogVerdict, other: LogVerdict) -> bool
    ensures { IsTrue result ↔ one ≡ other }
{
    match one {
        LogVerdict::Pass => match other {
            LogVerdict::Pass => true,
            LogVerdict::Fail(_) => false,
            LogVerdict::Off(_) => false,
        },
        LogVerdict::Fail(place) => match other {
            LogVerdict::Pass => false,
            LogVerdict::Fail(number) => place == number,
            LogVerdict::Off(_) => false,
        },
        LogVerdict::Off(place) => match other {
            LogVerdict::Pass => false,
            LogVerdict::Fail(_) => false,
            LogVerdict::Off(number) => place == number,
        },
    }
}

fn not_of_text(alloc: Global, log: u32) -> Result<Text, AllocError>
    ensures { IfOk result (λ text. text ≡ line (codes "not-of ") (decimal log)) }
{
    let digits = log.to_string(alloc)?;
    let mut text = Vec::new(alloc);
    put_line(&mut text, b"not-of ", digits.as_bytes())?;
    Ok(Listed::from_vec(text))
}

/// The logs in version 2.
fn text_in_two(
    alloc: Global,
    spec: &Digest,
    divergence: Divergence,
    logs: &[Named],
) -> Result<Text, Memory>
    ensures { IfOk result (λ text. text ≡ flat_map printed (map (in_two spec.now divergence) logs.now)) }
{
    let head = Head::Two {
        divergence,
        spec: *spec,
    };
    let mut text = Vec::new(alloc);
    'logs: for named in logs {
        let one = print_as(alloc, &head, &named.log)?;
        text.extend_from_slice(one.as_slice())?;
    }
    Ok(Listed::from_vec(text))
}
