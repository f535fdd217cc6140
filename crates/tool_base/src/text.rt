//! The texts of refusals, and the lines that texts are made of.
ghost use Rattle.std.specs.Prelude.{◌≡◌, ◌++◌, ◌∷◌, [], OnOk, IfOk, codes, decimal};
ghost use Rattle.trace_text.specs.Lines.{line};
ghost use Rattle.tool_base.specs.Texts.{usage_text as text_of_usage, error_text, labels_text, states_text, refusal_text as text_of_refusal};

use crate::error_text::file_error;
use crate::refusal::{FileError, Refusal};
use lts_base::{Listed, SplitError, Text};
use std::alloc::{AllocError, Global};
use torx_words::UsageKind;
use trace_text::put_line;

/// A text of one line, of two pieces.
pub fn one_line(alloc: Global, front: &[u8], rest: &[u8]) -> Result<Text, AllocError>
    ensures { IfOk result (λ text. text ≡ line front.now rest.now) }
{
    let mut text = Vec::new(alloc);
    put_line(&mut text, front, rest)?;
    Ok(Listed::from_vec(text))
}

/// Appends a number.
pub fn put_number(alloc: Global, text: &mut Vec<u8>, number: u64) -> Result<(), AllocError>
    ensures { OnOk result (text.new.items ≡ text.old.items ++ decimal number) }
{
    let digits = number.to_string(alloc)?;
    text.extend_from_slice(digits.as_bytes())
}

/// Appends states, each after a blank.
pub fn put_states(alloc: Global, text: &mut Vec<u8>, states: &[u32]) -> Result<(), AllocError>
    ensures { OnOk result (text.new.items ≡ text.old.items ++ states_text states.now) }
{
    'states: for state in states {
        text.extend_from_slice(b" ")?;
        put_number(alloc, text, *state as u64)?;
    }
    Ok(())
}

/// The text of words that are refused.
pub fn usage_text(alloc: Global, kind: UsageKind) -> Result<Text, AllocError>
    ensures { IfOk result (λ text. text ≡ text_of_usage kind) }
{
    match kind {
        UsageKind::NoCommand => one_line(alloc, b"usage ", b"no-command"),
        UsageKind::UnknownCommand => one_line(alloc, b"usage ", b"unknown-command"),
        UsageKind::Words => one_line(alloc, b"usage ", b"words"),
        UsageKind::Value => one_line(alloc, b"usage ", b"value"),
        UsageKind::Clash => one_line(alloc, b"usage ", b"clash"),
    }
}

/// The text of a refusal.
pub fn refusal_text(alloc: Global, refusal: &Refusal) -> Result<Text, AllocError>
    ensures { IfOk result (λ text. text ≡ text_of_refusal refusal.now) }
{
    match refusal {
        Refusal::TooLong { name } => one_line(alloc, b"too-long ", name.as_slice()),
        Refusal::BadFile { name, error } => bad_file(alloc, name.as_slice(), error),
        Refusal::BadLabels { error } => bad_labels(alloc, error),
        Refusal::Divergent { name, cycle } => divergent(alloc, name.as_slice(), cycle.as_slice()),
        Refusal::FileFault { name } => one_line(alloc, b"fault ", name.as_slice()),
    }
}

fn bad_labels(alloc: Global, error: &SplitError) -> Result<Text, AllocError>
    ensures { IfOk result (λ text. text ≡ labels_text error.now) }
{
    match error {
        SplitError::Unsorted(label) => one_line(alloc, b"labels unsorted ", label.as_slice()),
        SplitError::Reserved(label) => one_line(alloc, b"labels reserved ", label.as_slice()),
        SplitError::TooManyLabels => one_line(alloc, b"labels too-many", b""),
        SplitError::Memory => Ok(Listed::new(alloc)),
    }
}

fn divergent(alloc: Global, name: &[u8], cycle: &[u32]) -> Result<Text, AllocError>
    ensures { IfOk result (λ text. text ≡ codes "divergent " ++ (name.now ++ (states_text cycle.now ++ 10 ∷ []))) }
{
    let mut text = Vec::from_slice(alloc, b"divergent ")?;
    text.extend_from_slice(name)?;
    put_states(alloc, &mut text, cycle)?;
    text.extend_from_slice(b"\n")?;
    Ok(Listed::from_vec(text))
}

fn bad_file(alloc: Global, name: &[u8], error: &FileError) -> Result<Text, AllocError>
    ensures { IfOk result (λ text. text ≡ codes "bad " ++ (name.now ++ line (codes " ") (error_text error.now))) }
{
    let told = file_error(alloc, error)?;
    let mut text = Vec::from_slice(alloc, b"bad ")?;
    text.extend_from_slice(name)?;
    put_line(&mut text, b" ", told.as_bytes())?;
    Ok(Listed::from_vec(text))
}
