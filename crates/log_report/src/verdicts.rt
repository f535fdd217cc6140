//! The verdicts on the logs of a file.
ghost use Rattle.std.specs.Prelude.{◌≡◌, ◌<◌, ◌^◌, ◌++◌, length, All, IfOk, OnOk, decimal};
ghost use Rattle.trace_text.specs.Lines.{line};
ghost use Rattle.std.specs.List.{AllZip, count_by, flat_map};
ghost use Rattle.lts_base.specs.Alphabet.{IsOver};
ghost use Rattle.log_text.specs.Logs.{IsNamed};
ghost use Rattle.log_report.specs.Replayed.{IsLogVerdict, is_fail as fails_by, is_off as off_by, verdict_line};

use log_text::Named;
use lts_base::{Labels, Listed, Lts, Memory, Text};
use std::alloc::{AllocError, Global};
use trace_log::{LogVerdict, judge_log, resolve};
use trace_text::put_line;

/// The verdict on a log, in its own mode.
pub(crate) fn verdict_of(
    alloc: Global,
    labels: &Labels,
    system: &Lts,
    named: &Named,
) -> Result<LogVerdict, Memory>
    requires over { IsOver labels.now system.now }
    requires log { IsNamed named.now }
    ensures { IfOk result (IsLogVerdict labels.now system.now named.now) }
{
    let seen = resolve(alloc, &named.log, labels)?;
    let verdict = judge_log(alloc, system, named.log.mode, seen.as_slice())?;
    Ok(verdict)
}

/// The verdict on each log.
pub(crate) fn verdicts_of(
    alloc: Global,
    labels: &Labels,
    system: &Lts,
    logs: &[Named],
) -> Result<Vec<LogVerdict>, Memory>
    requires over { IsOver labels.now system.now }
    requires logs { All IsNamed logs.now }
    ensures { IfOk result (λ v. AllZip (IsLogVerdict labels.now system.now) logs.now v.items) }
{
    let mut verdicts = Vec::new(alloc);
    'logs: for named in logs {
        let verdict = verdict_of(alloc, labels, system, named)?;
        verdicts.push(verdict)?;
    }
    Ok(verdicts)
}

/// A line for each verdict.
pub(crate) fn verdicts_text(alloc: Global, verdicts: &[LogVerdict]) -> Result<Text, AllocError>
    ensures { IfOk result (λ text. text ≡ flat_map verdict_line verdicts.now) }
{
    let mut text = Vec::new(alloc);
    'verdicts: for verdict in verdicts {
        put_verdict(alloc, &mut text, *verdict)?;
    }
    Ok(Listed::from_vec(text))
}

fn put_verdict(alloc: Global, text: &mut Vec<u8>, verdict: LogVerdict) -> Result<(), AllocError>
    ensures { OnOk result (text.new.items ≡ text.old.items ++ verdict_line verdict) }
{
    match verdict {
        LogVerdict::Pass => put_line(text, b"pass", b""),
        LogVerdict::Fail(place) => put_place(alloc, text, b"fail ", place),
        LogVerdict::Off(place) => put_place(alloc, text, b"off ", place),
    }
}

fn put_place(alloc: Global, text: &mut Vec<u8>, word: &[u8], place: u32) -> Result<(), AllocError>
    ensures { OnOk result (text.new.items ≡ text.old.items ++ line word.now (decimal place)) }
{
    let digits = place.to_string(alloc)?;
    put_line(text, word, digits.as_bytes())
}

/// How many verdicts are failures.
pub(crate) fn count_fails(verdicts: &[LogVerdict]) -> u32
    requires { length verdicts.now < 2 ^ 32 }
    ensures { result ≡ count_by fails_by verdicts.now }
{
    verdicts.iter().filter(|v| is_fail(**v)).count() as u32
}

/// How many logs are off.
pub(crate) fn count_offs(verdicts: &[LogVerdict]) -> u32
    requires { length verdicts.now < 2 ^ 32 }
    ensures { result ≡ count_by off_by verdicts.now }
{
    verdicts.iter().filter(|v| is_off(**v)).count() as u32
}

fn is_fail(verdict: LogVerdict) -> bool
    ensures { result ≡ fails_by verdict }
{
    match verdict {
        LogVerdict::Pass => false,
        LogVerdict::Fail(_) => true,
        LogVerdict::Off(_) => false,
    }
}

fn is_off(verdict: LogVerdict) -> bool
    ensures { result ≡ off_by verdict }
{
    match verdict {
        LogVerdict::Pass => false,
        LogVerdict::Fail(_) => false,
        LogVerdict::Off(_) => true,
    }
}
