//! Traces as they are printed.
ghost use Rattle.std.specs.Prelude.{◌≡◌, ◌++◌, [], length, All, IfOk, OnOk};
ghost use Rattle.trace_text.specs.Items.{IsItem, IsPrintable, item_text};
ghost use Rattle.trace_text.specs.Lines.{line, items_text};
ghost use Rattle.trace_text.specs.Traces.{IsTrace};

use crate::item::item_bytes;
use lts_base::{Item, Labels, Listed, Memory, Text};
use std::alloc::{AllocError, Global};

/// Appends a line of two pieces.
pub fn put_line(text: &mut Vec<u8>, front: &[u8], rest: &[u8]) -> Result<(), AllocError>
    ensures { OnOk result (text.new.items ≡ text.old.items ++ line front.now rest.now) }
{
    text.extend_from_slice(front)?;
    text.extend_from_slice(rest)?;
    text.extend_from_slice(b"\n")
}

/// Appends a line with the front and the text of an item.
pub fn put_item(
    text: &mut Vec<u8>,
    front: &[u8],
    labels: &Labels,
    item: Item,
) -> Result<(), AllocError>
    requires { IsPrintable (length labels.now.texts) item }
    ensures { OnOk result (text.new.items ≡ text.old.items ++ line front.now (item_text labels.now.texts item)) }
{
    put_line(text, front, item_bytes(labels, item))
}

/// Appends a line with the front for each item.
pub fn put_items(
    text: &mut Vec<u8>,
    front: &[u8],
    labels: &Labels,
    items: &[Item],
) -> Result<(), AllocError>
    requires { All (IsPrintable (length labels.now.texts)) items.now }
    ensures { OnOk result (text.new.items ≡ text.old.items ++ items_text front.now labels.now.texts items.now) }
{
    'items: for item in items {
        put_item(text, front, labels, *item)?;
    }
    Ok(())
}

/// The content of a file of the trace, an item on each line.
pub fn print_trace(alloc: Global, labels: &Labels, trace: &[Item]) -> Result<Text, Memory>
    requires { All (IsItem labels.now) trace.now }
    ensures text { IfOk result (λ text. text ≡ items_text [] labels.now.texts trace.now) }
    ensures again { IfOk result (λ text. IsTrace labels.now text trace.now) }
{
    // the call tells what an alphabet is
    let _ = labels.inputs();
    let mut text = Vec::new(alloc);
    put_items(&mut text, b"", labels, trace)?;
    Ok(Listed::from_vec(text))
}
