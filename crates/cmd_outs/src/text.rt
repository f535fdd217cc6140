//! The texts of the answers of `outs`.
ghost use Rattle.std.specs.Prelude.{◌≡◌, length, All, IfOk, codes, decimal};
ghost use Rattle.trace_text.specs.Items.{IsPrintable};
ghost use Rattle.trace_text.specs.Lines.{line};
ghost use Rattle.cmd_outs.specs.Outs.{offers_text as text_of};

use lts_base::{Item, Labels, Listed, Text};
use std::alloc::{AllocError, Global};
use tool_base::{one_line, put_states};
use trace_text::put_items;

/// The text of a set of states, of the items that it shows and of the inputs that it allows.
pub(crate) fn offers_text(
    alloc: Global,
    labels: &Labels,
    states: &[u32],
    shown: &[Item],
    inputs: &[Item],
) -> Result<Text, AllocError>
    requires shown { All (IsPrintable (length labels.now.texts)) shown.now }
    requires inputs { All (IsPrintable (length labels.now.texts)) inputs.now }
    ensures { IfOk result (λ text. text ≡ text_of labels.now.texts states.now shown.now inputs.now) }
{
    let mut text = Vec::from_slice(alloc, b"states")?;
    put_states(alloc, &mut text, states)?;
    text.extend_from_slice(b"\n")?;
    put_items(&mut text, b"shows ", labels, shown)?;
    put_items(&mut text, b"input ", labels, inputs)?;
    Ok(Listed::from_vec(text))
}

/// The text of the first place whose prefix isn't allowed.
pub(crate) fn absent(alloc: Global, place: u32) -> Result<Text, AllocError>
    ensures { IfOk result (λ text. text ≡ line (codes "absent ") (decimal place)) }
{
    let number = place.to_string(alloc)?;
    one_line(alloc, b"absent ", number.as_bytes())
}
