//! The entries of a log in the terms of an alphabet.
ghost use Rattle.std.specs.Prelude.{◌≡◌, List, length, All, IfOk};
ghost use Rattle.std.specs.List.{AllZip};
ghost use Rattle.lts_base.specs.Alphabet.{IsOver};
ghost use Rattle.lts_base.specs.System.{System};
ghost use Rattle.log_text.specs.declared.log.Entry.TheVariants.{Sent, Heard};
ghost use Rattle.trace_log.specs.Verdict.{IsSeenAs, IsSeenOf};
ghost use Rattle.trace_log.specs.declared.seen.Seen.{Seen as TheSeen};

use crate::seen::{Seen, SeenList};
use log_text::{Entry, Log};
use lts_base::{Item, Labels, Listed, Memory};
use std::alloc::Global;

/// What was seen, an entry for each entry of the log. A text that was sent and is no input is
/// strange, and so is a text that was heard and is no output.
pub fn resolve(alloc: Global, log: &Log, labels: &Labels) -> Result<SeenList, Memory>
    ensures seen { IfOk result (AllZip (IsSeenAs labels.now) log.now.entries) }
    ensures only { IfOk result (λ v. (w : List TheSeen) → AllZip (IsSeenAs labels.now) log.now.entries w → w ≡ v) }
    ensures items { (s : System) → IsOver labels.now s → IfOk result (All (IsSeenOf s)) }
    ensures long { IfOk result (λ v. length v ≡ length log.now.entries) }
{
    // the call tells what an alphabet is
    let _ = labels.inputs();
    let seen = each_seen(alloc, log, labels)?;
    Ok(seen)
}

fn each_seen(alloc: Global, log: &Log, labels: &Labels) -> Result<SeenList, Memory>
    ensures { IfOk result (AllZip (IsSeenAs labels.now) log.now.entries) }
{
    let mut seen = Listed::new(alloc);
    'entries: for entry in log.entries.as_slice() {
        seen.push(seen_as(labels, entry))?;
    }
    Ok(seen)
}

/// What was seen, by an entry.
fn seen_as(labels: &Labels, entry: &Entry) -> Seen
    ensures { IsSeenAs labels.now entry.now result }
{
    match entry {
        Entry::Sent(text) => sent_as(labels, text.as_slice()),
        Entry::Heard(text) => heard_as(labels, text.as_slice()),
        Entry::Quiet => Seen::Known(Item::Delta),
    }
}

/// What a text is that was sent.
fn sent_as(labels: &Labels, text: &[u8]) -> Seen
    ensures { IsSeenAs labels.now (Sent text.now) result }
{
    // the call tells what an alphabet is
    let _ = labels.inputs();
    match labels.find(text) {
        None => Seen::StrangeSent,
        Some(label) => {
            if label >= labels.inputs() {
                return Seen::StrangeSent;
            }
            Seen::Known(Item::Input(label))
        }
    }
}

/// What a text is that was heard.
fn heard_as(labels: &Labels, text: &[u8]) -> Seen
    ensures { IsSeenAs labels.now (Heard text.now) result }
{
    // the call tells what an alphabet is
    let _ = labels.inputs();
    match labels.find(text) {
        None => Seen::StrangeHeard,
        Some(label) => {
            if label < labels.inputs() {
                return Seen::StrangeHeard;
            }
            Seen::Known(Item::Output(label))
        }
    }
}
