//! The texts of the answers of `check`.
ghost use Rattle.std.specs.Prelude.{◌≡◌, ◌<◌, ◌++◌, length, All, IfOk, codes, decimal};
ghost use Rattle.trace_text.specs.Items.{IsPrintable};
ghost use Rattle.trace_text.specs.Lines.{line};
ghost use Rattle.cmd_check.specs.Check.{check_text as text_of, what_text};
ghost use Rattle.cmd_check.specs.Printable.{IsPrintableOutcome};
ghost use Rattle.cmd_check.specs.declared.outcome.CheckOutcome.TheVariants.{Violates as Violating, NotEnabled as Lacking};

use crate::outcome::CheckOutcome;
use conf_decide::What;
use lts_base::{Item, Labels, Listed, Text};
use std::alloc::{AllocError, Global};
use tool_base::{one_line, put_number};
use trace_text::{item_bytes, put_items, put_line};

/// The text of an answer.
pub fn check_text(
    alloc: Global,
    labels: &Labels,
    outcome: &CheckOutcome,
) -> Result<Text, AllocError>
    requires { IsPrintableOutcome (length labels.now.texts) outcome.now }
    ensures { IfOk result (λ text. text ≡ text_of labels.now.texts outcome.now) }
{
    match outcome {
        CheckOutcome::Conforms { pairs } => conformance(alloc, *pairs),
        CheckOutcome::Violates { trace, shown } => {
            violation(alloc, labels, trace.as_slice(), *shown)
        }
        CheckOutcome::Undecided {
            what,
            reached,
            depth,
        } => cut(alloc, *what, *reached, *depth),
        CheckOutcome::NotEnabled { name, state, label } => {
            lacking_text(alloc, labels, name.as_slice(), *state, *label)
        }
    }
}

fn conformance(alloc: Global, pairs: u32) -> Result<Text, AllocError>
    ensures { IfOk result (λ text. text ≡ line (codes "conforms pairs=") (decimal pairs)) }
{
    let number = pairs.to_string(alloc)?;
    one_line(alloc, b"conforms pairs=", number.as_bytes())
}

fn violation(
    alloc: Global,
    labels: &Labels,
    trace: &[Item],
    shown: Item,
) -> Result<Text, AllocError>
    requires trace { All (IsPrintable (length labels.now.texts)) trace.now }
    requires shown { IsPrintable (length labels.now.texts) shown }
    ensures { IfOk result (λ text. text ≡ text_of labels.now.texts (Violating trace.now shown)) }
{
    let mut text = Vec::new(alloc);
    put_line(&mut text, b"violates", b"")?;
    put_items(&mut text, b"after ", labels, trace)?;
    put_line(&mut text, b"shows ", item_bytes(labels, shown))?;
    Ok(Listed::from_vec(text))
}

fn cut(alloc: Global, what: What, reached: u64, depth: u32) -> Result<Text, AllocError>
    ensures { IfOk result (λ text. text ≡ what_text what ++ (decimal reached ++ line (codes " depth=") (decimal depth))) }
{
    let front: &[u8] = match what {
        What::Pairs => b"undecided pairs=",
        What::ImpMembers => b"undecided imp-members=",
        What::SpecMembers => b"undecided spec-members=",
    };
    numbered(alloc, front, reached, depth)
}

fn numbered(alloc: Global, front: &[u8], reached: u64, depth: u32) -> Result<Text, AllocError>
    ensures { IfOk result (λ text. text ≡ front.now ++ (decimal reached ++ line (codes " depth=") (decimal depth))) }
{
    let mut text = Vec::from_slice(alloc, front)?;
    put_number(alloc, &mut text, reached)?;
    let length = depth.to_string(alloc)?;
    put_line(&mut text, b" depth=", length.as_bytes())?;
    Ok(Listed::from_vec(text))
}

/// The text that tells that the implementation of this file lacks an input.
pub fn lacking_text(
    alloc: Global,
    labels: &Labels,
    name: &[u8],
    state: u32,
    label: u32,
) -> Result<Text, AllocError>
    requires { label < length labels.now.texts }
    ensures { IfOk result (λ text. text ≡ text_of labels.now.texts (Lacking name.now state label)) }
{
    let mut text = Vec::from_slice(alloc, b"not-enabled ")?;
    text.extend_from_slice(name)?;
    text.extend_from_slice(b" state=")?;
    put_number(alloc, &mut text, state as u64)?;
    put_line(&mut text, b" input=", labels.text(label))?;
    Ok(Listed::from_vec(text))
}
