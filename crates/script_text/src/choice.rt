//! Choices by their texts.
ghost use Rattle.std.specs.Prelude.{◌≡◌, ℕ, ◌<◌, MatchResult, MatchOption};
ghost use Rattle.lts_base.specs.Alphabet.{text_at};
ghost use Rattle.script_text.specs.Script.{IsChoice, IsNoChoice, IsNoInput};

use crate::error::ScriptError;
use lts_base::Labels;
use walk_core::Choice;

/// The choice that a line asks for; `number` is that of the line.
pub fn choice_named(labels: &Labels, line: &[u8], number: u32) -> Result<Choice, ScriptError>
    ensures { MatchResult result (IsChoice labels.now line.now) (IsNoChoice labels.now line.now number) }
{
    if line == b"observe".as_slice() {
        return Ok(Choice::Observe);
    }
    match line.strip_prefix(b"send ".as_slice()) {
        Some(text) => match input_named(labels, text) {
            Some(input) => Ok(Choice::Input(input)),
            None => Err(ScriptError::UnknownLabel(number)),
        },
        None => Err(ScriptError::Line(number)),
    }
}

/// The input of this text.
fn input_named(labels: &Labels, text: &[u8]) -> Option<u32>
    ensures { MatchOption result (IsNoInput labels.now text.now) (λ k. (k < labels.now.inputs) × (text.now ≡ text_at labels.now.texts k)) }
{
    let inputs = labels.inputs();
    match labels.find(text) {
        Some(label) => { if label < inputs { Some(label) } else { None } }
        None => None,
    }
}
