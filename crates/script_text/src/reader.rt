//! The reader of scripts.
ghost use Rattle.std.specs.Prelude.{◌≡◌, ℕ, ◌-◌, ◌^◌, ◌<◌, length, MatchResult};
ghost use Rattle.text_scan.specs.Lines.{lines_of};
ghost use Rattle.script_text.specs.Script.{IsScript, RefusesScript};
ghost use Rattle.script_text.specs.Reading.{AddsChoice, IsFaultOf};

use crate::choice::choice_named;
use crate::error::ScriptError;
use lts_base::{Labels, Listed};
use std::alloc::Global;
use text_scan::{split_line, without_cr};
use walk_core::Choice;

/// The script of a content: a choice on each line, empty lines are skipped. There are fewer than
/// 2^32 - 1 lines.
pub fn read_script(
    alloc: Global,
    bytes: &[u8],
    labels: &Labels,
) -> Result<Listed<Choice>, ScriptError>
    requires { length (lines_of bytes.now) < 2 ^ 32 - 1 }
    ensures read { MatchResult result (IsScript labels.now bytes.now) (RefusesScript labels.now bytes.now) }
    ensures only { (s : _) → IsScript labels.now bytes.now s → MatchResult result (λ t. t ≡ s) (λ e. e ≡ ScriptError.Memory) }
{
    // the call tells what an alphabet is
    let _ = labels.inputs();
    read_lines(alloc, bytes, labels)
}

fn read_lines(alloc: Global, bytes: &[u8], labels: &Labels) -> Result<Listed<Choice>, ScriptError>
    requires { length (lines_of bytes.now) < 2 ^ 32 - 1 }
    ensures { MatchResult result (IsScript labels.now bytes.now) (RefusesScript labels.now bytes.now) }
{
    let mut script = Listed::new(alloc);
    let mut rest = bytes;
    let mut number: u32 = 0;
    while let Some((line, after)) = split_line(rest) {
        number += 1;
        add(&mut script, labels, without_cr(line), number)?;
        rest = after;
    }
    Ok(script)
}

/// Appends the choice that a line asks for; an empty line asks for none.
fn add(
    script: &mut Listed<Choice>,
    labels: &Labels,
    text: &[u8],
    number: u32,
) -> Result<(), ScriptError>
    ensures { MatchResult result (λ _. AddsChoice labels.now script.old text.now script.new) (IsFaultOf labels.now text.now number) }
{
    if text.is_empty() {
        return Ok(());
    }
    let choice = choice_named(labels, text, number)?;
    script.push(choice)?;
    Ok(())
}
