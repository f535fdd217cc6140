//! The texts of the answers of `verify`.
ghost use Rattle.std.specs.Prelude.{◌≡◌, ◌++◌, length, IfOk, codes, decimal};
ghost use Rattle.trace_text.specs.Items.{IsPrintable, item_text};
ghost use Rattle.trace_text.specs.Lines.{line};
ghost use Rattle.cmd_verify.specs.Printable.{IsPrintableReason, IsPrintableOutcome};
ghost use Rattle.cmd_verify.specs.Verify.{verify_text as text_of, reason_text};

use crate::outcome::VerifyOutcome;
use cert_check::Checked;
use lts_base::{Item, Labels, Listed, Text};
use std::alloc::{AllocError, Global};
use tool_base::{one_line, put_number};
use trace_text::{item_bytes, put_line};

/// The text of an answer.
pub(crate) fn verify_text(
    alloc: Global,
    labels: &Labels,
    outcome: &VerifyOutcome,
) -> Result<Text, AllocError>
    requires { IsPrintableOutcome (length labels.now.texts) outcome.now }
    ensures { IfOk result (λ text. text ≡ text_of labels.now.texts outcome.now) }
{
    match outcome {
        VerifyOutcome::Accepted => one_line(alloc, b"accepted", b""),
        VerifyOutcome::Rejected { why } => rejection(alloc, labels, *why),
    }
}

fn rejection(alloc: Global, labels: &Labels, why: Checked) -> Result<Text, AllocError>
    requires { IsPrintableReason (length labels.now.texts) why }
    ensures { IfOk result (λ text. text ≡ line (codes "rejected ") (reason_text labels.now.texts why)) }
{
    match why {
        Checked::Accepted => one_line(alloc, b"rejected ", b""),
        Checked::Start => one_line(alloc, b"rejected ", b"start"),
        Checked::Outputs(pair) => numbered(alloc, b"rejected outputs pair=", pair),
        Checked::NotClosed(pair, item) => open_at(alloc, labels, pair, item),
        Checked::NotAllowed(place) => numbered(alloc, b"rejected not-allowed place=", place),
        Checked::NotShown => one_line(alloc, b"rejected ", b"not-shown"),
        Checked::Allowed => one_line(alloc, b"rejected ", b"allowed"),
    }
}

fn numbered(alloc: Global, front: &[u8], number: u32) -> Result<Text, AllocError>
    ensures { IfOk result (λ text. text ≡ line front.now (decimal number)) }
{
    let digits = number.to_string(alloc)?;
    one_line(alloc, front, digits.as_bytes())
}

fn open_at(alloc: Global, labels: &Labels, pair: u32, item: Item) -> Result<Text, AllocError>
    requires { IsPrintable (length labels.now.texts) item }
    ensures { IfOk result (λ text. text ≡ line (codes "rejected not-closed pair=" ++ (decimal pair ++ codes " item=")) (item_text labels.now.texts item)) }
{
    let mut text = Vec::from_slice(alloc, b"rejected not-closed pair=")?;
    put_number(alloc, &mut text, pair as u64)?;
    put_line(&mut text, b" item=", item_bytes(labels, item))?;
    Ok(Listed::from_vec(text))
}
