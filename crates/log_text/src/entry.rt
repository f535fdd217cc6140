//! The entries of a log, and what follows them.
ghost use Rattle.std.specs.Prelude.{◌≡◌, ◌↔◌, ◌⊎◌, List, ℕ, ◌++◌, ◌<◌, ◌≤◌, ◌^◌, length, codes, IsTrue, IfOk, IfSome, MatchOption, MatchResult, None};
ghost use Rattle.text_scan.specs.Cut.{Lacks};
ghost use Rattle.log_text.specs.declared.log.Ending.{Ending as TheEnding};
ghost use Rattle.log_text.specs.declared.log.Entry.{Entry as TheEntry};
ghost use Rattle.log_text.specs.Printed.{ending_word, end_line, entry_line};
ghost use Rattle.log_text.specs.Logs.{IsEntry};
ghost use Rattle.log_text.specs.Adding.{Reads, AreEntries, TellsLeft, TellsNoLeft, log_of};

use crate::error::LogError;
use crate::limits::{MOST_LEFT_BYTES, MOST_TEXT_BYTES};
use crate::log::{Ending, Entries, Entry, Log, Named};
use crate::number::is_number;
use crate::piece::{after_word, is_text};
use crate::stage::{Setting, Stage, Step};
use lts_base::{Listed, Text};
use std::alloc::{AllocError, Global};
use text_scan::cut_at;

/// What line `number` adds to the entries so far.
pub fn read_listing(
    alloc: Global,
    setting: Setting,
    entries: Entries,
    line: &[u8],
    number: u32,
) -> Result<Step, LogError>
    requires sound { AreEntries setting entries }
    requires lacks { Lacks 10 line.now }
    ensures { Reads (Stage.Listing setting entries) line.now number result }
{
    let entry = entry_named(alloc, line)?;
    if let Some(entry) = entry {
        return add_entry(setting, entries, entry, number);
    }
    let left = left_named(alloc, line)?;
    if let Some(left) = left {
        return Ok(Step::Goes(Stage::Leaving(setting, entries, left)));
    }
    match ending_named(line, entries.as_slice().len()) {
        None => Err(LogError::Line(number)),
        Some(ending) => Ok(ended(setting, entries, Listed::new(alloc), ending)),
    }
}

/// The entry of the line.
fn entry_named(alloc: Global, line: &[u8]) -> Result<Option<Entry>, AllocError>
    requires { Lacks 10 line.now }
    ensures { IfOk result (λ o. MatchOption o ((e : TheEntry) → IsEntry e → ¬ (line.now ≡ entry_line e)) (λ e. IsEntry e × (line.now ≡ entry_line e))) }
{
    if is_text(line, b"delta") {
        return Ok(Some(Entry::Quiet));
    }
    if let Some(text) = after_word(line, b"sent ") {
        return sent_of(alloc, text);
    }
    if let Some(text) = after_word(line, b"heard ") {
        return heard_of(alloc, text);
    }
    Ok(None)
}

/// The entry of a text that was sent.
fn sent_of(alloc: Global, text: &[u8]) -> Result<Option<Entry>, AllocError>
    requires { Lacks 10 text.now }
    ensures { IfOk result (λ o. MatchOption o (¬ IsEntry (Entry.Sent text.now)) (λ e. IsEntry e × (e ≡ Entry.Sent text.now))) }
{
    if text.is_empty() {
        return Ok(None);
    }
    if text.len() > MOST_TEXT_BYTES {
        return Ok(None);
    }
    let copy = Listed::from_vec(Vec::from_slice(alloc, text)?);
    Ok(Some(Entry::Sent(copy)))
}

/// The entry of a text that was heard.
fn heard_of(alloc: Global, text: &[u8]) -> Result<Option<Entry>, AllocError>
    requires { Lacks 10 text.now }
    ensures { IfOk result (λ o. MatchOption o (¬ IsEntry (Entry.Heard text.now)) (λ e. IsEntry e × (e ≡ Entry.Heard text.now))) }
{
    if text.len() > MOST_TEXT_BYTES {
        return Ok(None);
    }
    let copy = Listed::from_vec(Vec::from_slice(alloc, text)?);
    Ok(Some(Entry::Heard(copy)))
}

/// The entries and one more, where there is room for it.
fn add_entry(
    setting: Setting,
    entries: Entries,
    entry: Entry,
    number: u32,
) -> Result<Step, LogError>
    requires entry { IsEntry entry }
    ensures { Reads (Stage.Listing setting entries) (entry_line entry) number result }
{
    let mut longer = entries;
    if longer.as_slice().len() >= setting.steps as usize {
        return Err(LogError::Line(number));
    }
    longer.push(entry)?;
    Ok(Step::Goes(Stage::Listing(setting, longer)))
}

/// The bytes that are left, by the line that tells them.
fn left_named(alloc: Global, line: &[u8]) -> Result<Option<Text>, AllocError>
    requires { Lacks 10 line.now }
    ensures { IfOk result (λ o. MatchOption o (TellsNoLeft line.now) (TellsLeft line.now)) }
{
    let Some(bytes) = after_word(line, b"left ") else {
        return Ok(None);
    };
    if bytes.is_empty() {
        return Ok(None);
    }
    if bytes.len() > MOST_LEFT_BYTES {
        return Ok(None);
    }
    let copy = Listed::from_vec(Vec::from_slice(alloc, bytes)?);
    Ok(Some(copy))
}

/// What follows the bytes that are left.
pub fn read_leaving(
    setting: Setting,
    entries: Entries,
    left: Text,
    line: &[u8],
    number: u32,
) -> Result<Step, LogError>
    requires sound { AreEntries setting entries }
    ensures { Reads (Stage.Leaving setting entries left) line.now number result }
{
    match ending_named(line, entries.as_slice().len()) {
        None => Err(LogError::Line(number)),
        Some(ending) => Ok(ended(setting, entries, left, ending)),
    }
}

/// The ending that the line names after so many entries.
fn ending_named(line: &[u8], count: usize) -> Option<Ending>
    requires { count < 2 ^ 32 }
    ensures { MatchOption result ((e : TheEnding) → ¬ (line.now ≡ end_line count e)) (λ e. line.now ≡ end_line count e) }
{
    let Some(text) = after_word(line, b"end ") else {
        return None;
    };
    let Some((digits, word)) = cut_at(text, b' ') else {
        return None;
    };
    if !is_number(digits, count) {
        return None;
    }
    ending_of(word)
}

/// The ending of the word.
fn ending_of(word: &[u8]) -> Option<Ending>
    ensures { MatchOption result ((e : TheEnding) → ¬ (word.now ≡ ending_word e)) (λ e. word.now ≡ ending_word e) }
{
    if is_text(word, b"pass") {
        return Some(Ending::Pass);
    }
    if is_text(word, b"fail") {
        return Some(Ending::Fail);
    }
    if is_text(word, b"full") {
        return Some(Ending::Full);
    }
    if is_text(word, b"broken") {
        return Some(Ending::Broken);
    }
    unfinished_of(word)
}

/// The ending of the word, where a text was not finished or the link ended.
fn unfinished_of(word: &[u8]) -> Option<Ending>
    ensures none { result ≡ None → (¬ (word.now ≡ codes "ended")) × (¬ (word.now ≡ codes "stalled")) × (¬ (word.now ≡ codes "long")) }
    ensures some { IfSome result (λ e. word.now ≡ ending_word e) }
{
    if is_text(word, b"ended") {
        return Some(Ending::Ended);
    }
    if is_text(word, b"stalled") {
        return Some(Ending::Stalled);
    }
    if is_text(word, b"long") {
        return Some(Ending::Long);
    }
    None
}

/// The log that is whole.
fn ended(setting: Setting, entries: Entries, left: Text, ending: Ending) -> Step
    ensures { result ≡ Step.Ends (log_of setting entries left ending) }
{
    Step::Ends(Named {
        head: setting.head,
        log: Log {
            mode: setting.mode,
            patience: setting.patience,
            steps: setting.steps,
            entries,
            left,
            ending,
        },
    })
}
