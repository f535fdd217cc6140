//! What `verify` answers.
ghost use Rattle.std.specs.Prelude.{◌≡◌};
ghost use Rattle.cmd_verify.specs.Verify.{outcome_of as outcome_for};

use cert_check::Checked;

/// An answer of `verify`.
#[derive(Drop, Debug)]
pub enum VerifyOutcome {
    /// The systems are as the certificate states.
    Accepted,
    /// They aren't, or the certificate doesn't show it.
    Rejected {
        /// The first reason.
        why: Checked,
    },
}

/// What the check of a certificate answers, as it is told.
pub(crate) fn outcome_of(checked: Checked) -> VerifyOutcome
    ensures { result ≡ outcome_for checked }
{
    match checked {
        Checked::Accepted => VerifyOutcome::Accepted,
        Checked::Start => VerifyOutcome::Rejected { why: checked },
        Checked::Outputs(_) => VerifyOutcome::Rejected { why: checked },
        Checked::NotClosed(_, _) => VerifyOutcome::Rejected { why: checked },
        Checked::NotAllowed(_) => VerifyOutcome::Rejected { why: checked },
        Checked::NotShown => VerifyOutcome::Rejected { why: checked },
        Checked::Allowed => VerifyOutcome::Rejected { why: checked },
    }
}
