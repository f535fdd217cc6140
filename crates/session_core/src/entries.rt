//! The entries of a session's log.
ghost use Rattle.std.specs.Prelude.{◌≡◌, map, take, IfOk};
ghost use Rattle.lts_base.specs.Alphabet.{text_at};
ghost use Rattle.session_core.specs.Logged.{entry_of, ending_of};

use crate::phase::Phase;
use crate::verdict::Verdict;
use log_text::{Ending, Entries, Entry};
use lts_base::{Item, Labels, Listed, Memory, Text};
use std::alloc::Global;

/// The text of a label; of a number that no label has, none.
pub(crate) fn text_of(labels: &Labels, label: u32) -> &[u8]
    ensures { result.now ≡ text_at labels.now.texts label }
{
    if label < labels.count() {
        labels.text(label)
    } else {
        &[]
    }
}

/// A copy of a text.
pub(crate) fn copied(alloc: Global, text: &[u8]) -> Result<Text, Memory>
    ensures { IfOk result (λ copy. copy ≡ text.now) }
{
    let mut copy = Vec::new(alloc);
    copy.extend_from_slice(text)?;
    Ok(Listed::from_vec(copy))
}

/// The entry of an item.
fn entry_of(alloc: Global, labels: &Labels, item: Item) -> Result<Entry, Memory>
    ensures { IfOk result (λ entry. entry ≡ entry_of labels.now.texts item) }
{
    match item {
        Item::Input(a) => {
            let text = copied(alloc, text_of(labels, a))?;
            Ok(Entry::Sent(text))
        }
        Item::Output(a) => {
            let text = copied(alloc, text_of(labels, a))?;
            Ok(Entry::Heard(text))
        }
        Item::Delta => Ok(Entry::Quiet),
    }
}

/// The entries of items, in order.
pub(crate) fn entries_of(alloc: Global, labels: &Labels, items: &[Item]) -> Result<Entries, Memory>
    ensures { IfOk result (λ entries. entries ≡ map (entry_of labels.now.texts) items.now) }
{
    let mut entries = Entries::new(alloc);
    let mut at = 0;
    while at < items.len() {
        let entry = entry_of(alloc, labels, items[at])?;
        entries.push(entry)?;
        at += 1;
    }
    Ok(entries)
}

/// The ending of a session in this phase.
pub(crate) fn ending_of(phase: Phase, otherwise: Ending) -> Ending
    ensures { result ≡ ending_of phase otherwise }
{
    match phase {
        Phase::Done(Verdict::Pass) => Ending::Pass,
        Phase::Done(Verdict::Fail(_)) => Ending::Fail,
        Phase::Done(Verdict::Ended) => Ending::Ended,
        Phase::Done(Verdict::Stalled) => Ending::Stalled,
        Phase::Done(Verdict::Long) => Ending::Long,
        _ => otherwise,
    }
}
