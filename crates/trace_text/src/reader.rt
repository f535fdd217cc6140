//! The reader of traces.
ghost use Rattle.std.specs.Prelude.{◌≡◌, ◌⊎◌, ℕ, ◌-◌, ◌^◌, ◌<◌, ◌≤◌, length, All, IfOk, MatchResult};
ghost use Rattle.text_scan.specs.Lines.{lines_of};
ghost use Rattle.trace_text.specs.Items.{IsItem};
ghost use Rattle.trace_text.specs.Traces.{IsTrace, RefusesTrace, IsFaultBy};
ghost use Rattle.trace_text.specs.Reading.{AddsItem, IsNoName};

use crate::error::TraceError;
use crate::item::item_named;
use lts_base::{Labels, Trace};
use std::alloc::Global;
use text_scan::{split_line, without_cr};

/// The trace of a content: an item on each line, empty lines are skipped. There are fewer than
/// 2^32 - 1 lines.
pub fn read_trace(alloc: Global, bytes: &[u8], labels: &Labels) -> Result<Trace, TraceError>
    requires { length (lines_of bytes.now) < 2 ^ 32 - 1 }
    ensures read { MatchResult result (IsTrace labels.now bytes.now) (IsFaultBy (RefusesTrace labels.now bytes.now)) }
    ensures only { (σ : _) → IsTrace labels.now bytes.now σ → MatchResult result (λ τ. τ ≡ σ) (λ e. e ≡ TraceError.Memory) }
    ensures fault { (n : ℕ) → RefusesTrace labels.now bytes.now n → MatchResult result (λ _. ⊥) (IsFaultBy (λ k. k ≡ n)) }
    ensures items { IfOk result (λ σ. All (IsItem labels.now) σ × (length σ ≤ length bytes.now)) }
{
    // the call tells what an alphabet is
    let _ = labels.inputs();
    read_lines(alloc, bytes, labels)
}

fn read_lines(alloc: Global, bytes: &[u8], labels: &Labels) -> Result<Trace, TraceError>
    requires { length (lines_of bytes.now) < 2 ^ 32 - 1 }
    ensures read { MatchResult result (IsTrace labels.now bytes.now) (IsFaultBy (RefusesTrace labels.now bytes.now)) }
    ensures items { IfOk result (λ σ. All (IsItem labels.now) σ × (length σ ≤ length bytes.now)) }
{
    let mut trace = Trace::new(alloc);
    let mut rest = bytes;
    let mut number: u32 = 0;
    while let Some((line, after)) = split_line(rest) {
        number += 1;
        add(&mut trace, labels, without_cr(line), number)?;
        rest = after;
    }
    Ok(trace)
}

/// Appends the item that a line names; an empty line names none.
fn add(trace: &mut Trace, labels: &Labels, text: &[u8], number: u32) -> Result<(), TraceError>
    ensures { MatchResult result (λ _. AddsItem labels.now trace.old text.now trace.new) (IsFaultBy (λ n. (n ≡ number) × IsNoName labels.now text.now)) }
{
    if text.is_empty() {
        return Ok(());
    }
    match item_named(labels, text) {
        Some(item) => Ok(trace.push(item)?),
        None => Err(TraceError::UnknownLabel(number)),
    }
}
