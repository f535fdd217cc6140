//! Items by their texts.
ghost use Rattle.std.specs.Prelude.{◌≡◌, length, codes, MatchOption};
ghost use Rattle.trace_text.specs.Items.{IsNamed, IsNamedShown, IsUnnamed, IsUnshown, IsPrintable, item_text};

use lts_base::{Item, Labels};

/// The item of this text.
pub fn item_named(labels: &Labels, text: &[u8]) -> Option<Item>
    ensures { MatchOption result (IsUnnamed labels.now text.now) (IsNamed labels.now text.now) }
{
    // the call tells that the inputs are among the labels
    let _ = labels.inputs();
    match labels.find(text) {
        Some(label) => Some(labels.item(label)),
        None => delta_named(text),
    }
}

/// The output of this text, or `delta`.
pub fn shown_named(labels: &Labels, text: &[u8]) -> Option<Item>
    ensures { MatchOption result (IsUnshown labels.now text.now) (IsNamedShown labels.now text.now) }
{
    match labels.find(text) {
        None => delta_named(text),
        Some(label) => {
            if label < labels.inputs() {
                return delta_named(text);
            }
            Some(Item::Output(label))
        }
    }
}

/// Quiescence, where the text is its word.
fn delta_named(text: &[u8]) -> Option<Item>
    ensures { MatchOption result (text.now ≡ codes "delta" → ⊥) (λ x. (x ≡ Item.Delta) × (text.now ≡ codes "delta")) }
{
    if text == b"delta".as_slice() {
        return Some(Item::Delta);
    }
    None
}

/// The text of an item.
pub fn item_bytes<'a>(labels: &'a Labels, item: Item) -> &'a [u8]
    requires { IsPrintable (length labels.now.texts) item }
    ensures { result.now ≡ item_text labels.now.texts item }
{
    match item {
        Item::Input(label) => labels.text(label),
        Item::Output(label) => labels.text(label),
        Item::Delta => b"delta",
    }
}
