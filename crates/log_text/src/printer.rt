//! The text of a log.
ghost use Rattle.std.specs.Prelude.{◌≡◌, ◌∷◌, [], ◌++◌, length, map, IfOk, OnOk, codes, decimal};
ghost use Rattle.log_text.specs.declared.log.Head.TheVariants.{One};
ghost use Rattle.log_text.specs.Printed as text_of;
ghost use Rattle.log_text.specs.Logs.{IsLog, IsNamed, AreLogsOf};

use crate::digest::digits_of;
use crate::log::{Digest, Ending, Entry, Head, Log, Named};
use lts_base::{Divergence, Listed, Memory, Mode, Text};
use std::alloc::{AllocError, Global};
use trace_text::put_line;

/// The text of a log in version 1. Where the log is in its form, it is the text of this log alone.
pub fn print_log(alloc: Global, log: &Log) -> Result<Text, Memory>
    ensures text { IfOk result (λ text. text ≡ text_of.printed (record { head = One; log = log.now })) }
    ensures again { IsLog log.now → IfOk result (λ text. AreLogsOf text (record { head = One; log = log.now } ∷ [])) }
{
    let text = print_as(alloc, &Head::One, log)?;
    Ok(text)
}

/// The text of a log in the version of its head. Where the log is in its form, it is the text of
/// this log alone.
pub fn print_named(alloc: Global, named: &Named) -> Result<Text, Memory>
    ensures text { IfOk result (λ text. text ≡ text_of.printed named.now) }
    ensures again { IsNamed named.now → IfOk result (λ text. AreLogsOf text (named.now ∷ [])) }
{
    let text = print_as(alloc, &named.head, &named.log)?;
    Ok(text)
}

/// The text of a log in the version of this head.
pub fn print_as(alloc: Global, head: &Head, log: &Log) -> Result<Text, Memory>
    ensures { IfOk result (λ text. text ≡ text_of.printed (record { head = head.now; log = log.now })) }
{
    let mut text = Vec::new(alloc);
    put_head(alloc, &mut text, head, log.mode)?;
    put_number(alloc, &mut text, b"patience ", log.patience as usize)?;
    put_number(alloc, &mut text, b"steps ", log.steps as usize)?;
    put_body(alloc, &mut text, log)?;
    Ok(Listed::from_vec(text))
}

/// Appends the entries, the bytes that are left, and the end.
fn put_body(alloc: Global, text: &mut Vec<u8>, log: &Log) -> Result<(), AllocError>
    ensures { OnOk result (text.new.items ≡ text.old.items ++ text_of.with_ends (text_of.body_lines log.now)) }
{
    let entries = log.entries.as_slice();
    put_entries(text, entries)?;
    put_left(text, log.left.as_slice())?;
    put_end(alloc, text, entries.len(), log.ending)?;
    Ok(())
}

/// Appends the lines up to the mode, and in version 2 up to the digest.
fn put_head(alloc: Global, text: &mut Vec<u8>, head: &Head, mode: Mode) -> Result<(), AllocError>
    ensures { OnOk result (text.new.items ≡ text.old.items ++ text_of.with_ends (text_of.head_lines mode head.now)) }
{
    match head {
        Head::One => put_one(text, mode),
        Head::Two { divergence, spec } => put_two(alloc, text, mode, *divergence, spec),
    }
}

fn put_one(text: &mut Vec<u8>, mode: Mode) -> Result<(), AllocError>
    ensures { OnOk result (text.new.items ≡ text.old.items ++ text_of.with_ends (text_of.head_lines mode One)) }
{
    put_line(text, b"torx log 1", b"")?;
    put_line(text, mode_bytes(mode), b"")?;
    Ok(())
}

fn put_two(
    alloc: Global,
    text: &mut Vec<u8>,
    mode: Mode,
    divergence: Divergence,
    spec: &Digest,
) -> Result<(), AllocError>
    ensures { OnOk result (text.new.items ≡ text.old.items ++ text_of.with_ends (text_of.head_lines mode (Head.Two divergence spec.now))) }
{
    let digits = digits_of(alloc, spec)?;
    put_line(text, b"torx log 2", b"")?;
    put_line(text, mode_bytes(mode), b"")?;
    put_line(text, divergence_bytes(divergence), b"")?;
    put_line(text, b"spec ", digits.as_bytes())?;
    Ok(())
}

fn mode_bytes(mode: Mode) -> &'static [u8]
    ensures { result.now ≡ text_of.mode_line mode }
{
    match mode {
        Mode::Ioco => b"mode ioco",
        Mode::Uioco => b"mode uioco",
    }
}

fn divergence_bytes(divergence: Divergence) -> &'static [u8]
    ensures { result.now ≡ text_of.divergence_line divergence }
{
    match divergence {
        Divergence::Refuse => b"divergence refuse",
        Divergence::Quiet => b"divergence quiet",
    }
}

/// Appends a line with a word and a number.
fn put_number(
    alloc: Global,
    text: &mut Vec<u8>,
    word: &[u8],
    number: usize,
) -> Result<(), AllocError>
    ensures { OnOk result (text.new.items ≡ text.old.items ++ ((word.now ++ decimal number) ++ 10 ∷ [])) }
{
    let digits = format!(in alloc; "{number}")?;
    put_line(text, word, digits.as_bytes())
}

fn put_entries(text: &mut Vec<u8>, entries: &[Entry]) -> Result<(), AllocError>
    ensures { OnOk result (text.new.items ≡ text.old.items ++ text_of.with_ends (map text_of.entry_line entries.now)) }
{
    'entries: for entry in entries {
        put_entry(text, entry)?;
    }
    Ok(())
}

fn put_entry(text: &mut Vec<u8>, entry: &Entry) -> Result<(), AllocError>
    ensures { OnOk result (text.new.items ≡ text.old.items ++ (text_of.entry_line entry.now ++ 10 ∷ [])) }
{
    match entry {
        Entry::Sent(sent) => put_line(text, b"sent ", sent.as_slice()),
        Entry::Heard(heard) => put_line(text, b"heard ", heard.as_slice()),
        Entry::Quiet => put_line(text, b"delta", b""),
    }
}

/// Appends the line of the bytes that are left, where there are any.
fn put_left(text: &mut Vec<u8>, left: &[u8]) -> Result<(), AllocError>
    ensures { OnOk result (text.new.items ≡ text.old.items ++ text_of.with_ends (text_of.left_lines left.now)) }
{
    if left.is_empty() {
        return Ok(());
    }
    put_line(text, b"left ", left)
}

fn put_end(
    alloc: Global,
    text: &mut Vec<u8>,
    count: usize,
    ending: Ending,
) -> Result<(), AllocError>
    ensures { OnOk result (text.new.items ≡ text.old.items ++ (text_of.end_line count ending ++ 10 ∷ [])) }
{
    let digits = format!(in alloc; "end {count} ")?;
    put_line(text, digits.as_bytes(), ending_bytes(ending))
}

fn ending_bytes(ending: Ending) -> &'static [u8]
    ensures { result.now ≡ text_of.ending_word ending }
{
    match ending {
        Ending::Pass => b"pass",
        Ending::Fail => b"fail",
        Ending::Ended => b"ended",
        Ending::Stalled => b"stalled",
        Ending::Long => b"long",
        Ending::Full => b"full",
        Ending::Broken => b"broken",
    }
}
