//! The reports of `check`: outcomes with their texts.
ghost use Rattle.std.specs.Prelude.{◌≡◌, length, IfOk};
ghost use Rattle.cert_text.specs.Certificate.{IsBody};
ghost use Rattle.cmd_check.specs.Asked.{check_from};
ghost use Rattle.cmd_check.specs.Check.{answer_text, cert_text, outcome_of};
ghost use Rattle.cmd_check.specs.Printable.{HasFewPairs, HasFewPairsIn, IsPrintableOutcome, IsReportOf, IsTellable, outcome_told, outcome_stated, Reports, cert_stated};
ghost use Rattle.cmd_check.specs.declared.outcome.CheckOutcome.TheVariants.{NotEnabled as Lacking};

use crate::outcome::CheckOutcome;
use crate::text::check_text;
use crate::words::Check;
use cert_text::{Cert, CertBody, PackedRelation, print_cert};
use conf_decide::{Answer, Verdict, verdict_of};
use lts_base::{Labels, Memory, Mode};
use std::alloc::Global;
use tool_base::{Report, loaded_name};

/// The report that the implementation lacks an input.
pub fn lacking(
    alloc: Global,
    asked: &Check<'_>,
    labels: &Labels,
    state: u32,
    label: u32,
) -> Result<Report<CheckOutcome>, Memory>
    requires { IsPrintableOutcome (length labels.now.texts) (Lacking asked.now.imp.now state label) }
    ensures { IfOk result (Reports labels.now.texts (Lacking asked.now.imp.now state label)) }
{
    let name = loaded_name(alloc, asked.imp)?;
    with_text(
        alloc,
        labels,
        CheckOutcome::NotEnabled { name, state, label },
    )
}

/// The report on the whole answer of a decision.
pub fn whole(
    alloc: Global,
    asked: &Check<'_>,
    labels: &Labels,
    answer: Answer,
) -> Result<Report<CheckOutcome>, Memory>
    requires { IsTellable labels.now answer }
    ensures { IfOk result (IsReportOf (outcome_of answer) (answer_text (check_from asked.now) labels.now.texts answer)) }
{
    if asked.cert {
        return certified(alloc, asked.mode, labels, answer);
    }
    usual(alloc, labels, verdict_of(answer))
}

/// The report on a decision, with its certificate.
fn certified(
    alloc: Global,
    mode: Mode,
    labels: &Labels,
    answer: Answer,
) -> Result<Report<CheckOutcome>, Memory>
    requires { IsTellable labels.now answer }
    ensures { IfOk result (IsReportOf (outcome_of answer) (cert_text mode labels.now.texts answer)) }
{
    match answer {
        Answer::Conforms(relation) => {
            let packed = PackedRelation::of(alloc, relation)?;
            stated(alloc, mode, labels, CertBody::Related(packed))
        }
        Answer::Violates { trace, shown } => {
            stated(alloc, mode, labels, CertBody::Shown { trace, shown })
        }
        Answer::Undecided {
            what,
            reached,
            depth,
        } => with_text(
            alloc,
            labels,
            CheckOutcome::Undecided {
                what,
                reached,
                depth,
            },
        ),
    }
}

/// The report on what a certificate states, with the certificate.
fn stated(
    alloc: Global,
    mode: Mode,
    labels: &Labels,
    body: CertBody,
) -> Result<Report<CheckOutcome>, Memory>
    requires few { HasFewPairsIn body }
    requires sound { IsBody labels.now body }
    ensures { IfOk result (IsReportOf (outcome_stated body) (cert_stated mode labels.now.texts body)) }
{
    let cert = Cert { mode, body };
    let text = print_cert(alloc, &cert, labels)?;
    Ok(Report {
        outcome: statement(cert.body),
        text,
    })
}

/// The outcome that a certificate states.
fn statement(body: CertBody) -> CheckOutcome
    requires { HasFewPairsIn body }
    ensures { result ≡ outcome_stated body }
{
    match body {
        CertBody::Related(relation) => CheckOutcome::Conforms {
            pairs: relation.pairs().len() as u32,
        },
        CertBody::Shown { trace, shown } => CheckOutcome::Violates { trace, shown },
    }
}

/// The report on a verdict, with its usual text.
pub fn usual(
    alloc: Global,
    labels: &Labels,
    verdict: Verdict,
) -> Result<Report<CheckOutcome>, Memory>
    requires few { HasFewPairs verdict }
    requires printable { IsPrintableOutcome (length labels.now.texts) (outcome_told verdict) }
    ensures { IfOk result (Reports labels.now.texts (outcome_told verdict)) }
{
    with_text(alloc, labels, told(verdict))
}

/// The report on an outcome, with its usual text.
fn with_text(
    alloc: Global,
    labels: &Labels,
    outcome: CheckOutcome,
) -> Result<Report<CheckOutcome>, Memory>
    requires { IsPrintableOutcome (length labels.now.texts) outcome }
    ensures { IfOk result (Reports labels.now.texts outcome) }
{
    let text = check_text(alloc, labels, &outcome)?;
    Ok(Report { outcome, text })
}

/// The verdict of a decision, as it is told.
fn told(verdict: Verdict) -> CheckOutcome
    requires { HasFewPairs verdict }
    ensures { result ≡ outcome_told verdict }
{
    match verdict {
        Verdict::Conforms { pairs } => CheckOutcome::Conforms {
            pairs: pairs as u32,
        },
        Verdict::Violates { trace, shown } => CheckOutcome::Violates { trace, shown },
        Verdict::Undecided {
            what,
            reached,
            depth,
        } => CheckOutcome::Undecided {
            what,
            reached,
            depth,
        },
    }
}
