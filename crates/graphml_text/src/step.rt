//! What each tag and each text adds to what was read.
ghost use Rattle.std.specs.Prelude.{◌≡◌, ℕ, false, ◌-◌, ◌<◌, ◌≤◌, List, [], ◌∷◌, ◌++◌, nat_lt, length, map, slice_set, option_map, Some, None, IsTrue, IsFalse, OnOk, IfOk};
ghost use Rattle.std.specs.List.{list_any, find};
ghost use Rattle.std.specs.Str.{is_utf8};
ghost use Rattle.text_scan.specs.Listing.{has_bytes};
ghost use Rattle.aut_text.specs.Form as form;
ghost use Rattle.graphml_text.specs.Element as spec;
ghost use Rattle.graphml_scan.specs.Piece.{trimmed};
ghost use Rattle.graphml_scan.specs.Token.{Start, End};
ghost use Rattle.graphml_scan.specs.Values.{text_of};
ghost use Rattle.graphml_scan.specs.TagValues.{tag_of};
ghost use Rattle.graphml_text.specs.MachineValues.{reading_of, open_of, draft_of, edge_of, ids_of, MakesEdge, Closes, Adds, Steps};

use crate::edge::NamedEdge;
use crate::element::{has_text, is_label_key, is_named, is_start_key, value};
use crate::error::GraphError;
use crate::front::is_text;
use crate::machine::{Draft, Machine, Open, role_of, start_fault};
use crate::role::Role;
use graphml_scan::{
    Tag, Value, bytes_of, copied, is_same, is_white, longer, made_of, trim,
    trimmed as value_trimmed,
};
use lts_base::Memory;
use lts_base::limits::MOST_LABEL_BYTES;
use std::alloc::Global;
use text_scan::is_plain;

#[inline(always)]
fn needed<'a>(alloc: Global, name: &[u8], tag: &Tag<'a, '_>) -> Result<Value<'a>, Memory>
    ensures { IfOk result (λ v. text_of v ≡ spec.needed name.now (tag_of tag.now)) }
{
    for attribute in tag.attributes {
        if is_same(attribute.name, name) {
            return copied(alloc, &attribute.value);
        }
    }
    Ok(Value::Plain(&[]))
}

fn learned(machine: &mut Machine, tag: &Tag) -> Result<(), Memory>
    ensures { OnOk result (reading_of machine.new ≡ spec.entered (reading_of machine.old) (tag_of tag.now) Role.Key) }
{
    let Some(id) = value(b"id", tag) else {
        return Ok(());
    };
    if is_label_key(tag) {
        let key = Vec::from_slice(machine.alloc, id)?;
        machine.label_keys.insert(key)?;
    }
    if is_start_key(tag) {
        let key = Vec::from_slice(machine.alloc, id)?;
        machine.start_keys.insert(key)?;
    }
    Ok(())
}

fn add_node(machine: &mut Machine, tag: &Tag) -> Result<(), Memory>
    ensures { OnOk result (reading_of machine.new ≡ spec.entered (reading_of machine.old) (tag_of tag.now) Role.Node) }
{
    let value = needed(machine.alloc, b"id", tag)?;
    let id = Vec::from_slice(machine.alloc, bytes_of(&value))?;
    machine.graph.add_node(id)
}

fn begin_edge<'a>(machine: &mut Machine<'a>, tag: &Tag<'a, '_>) -> Result<(), Memory>
    ensures { OnOk result (reading_of machine.new ≡ spec.entered (reading_of machine.old) (tag_of tag.now) Role.Edge) }
{
    let source = needed(machine.alloc, b"source", tag)?;
    let target = needed(machine.alloc, b"target", tag)?;
    machine.draft = Some(Draft {
        source,
        target,
        labels: Vec::new(machine.alloc),
        told: Value::Plain(&[]),
    });
    Ok(())
}

fn begin_label(machine: &mut Machine) -> Result<(), Memory>
    ensures { OnOk result (reading_of machine.new ≡ record (reading_of machine.old) { draft = spec.with_label (option_map draft_of machine.old.draft) }) }
{
    if let Some(draft) = &mut machine.draft {
        draft.labels.push(Value::Plain(&[]))?;
    }
    Ok(())
}

fn entered<'a>(machine: &mut Machine<'a>, tag: &Tag<'a, '_>, role: Role) -> Result<(), Memory>
    ensures { OnOk result (reading_of machine.new ≡ spec.entered (reading_of machine.old) (tag_of tag.now) role) }
{
    match role {
        Role::Root => {
            machine.rooted = true;
            Ok(())
        }
        Role::Key => learned(machine, tag),
        Role::Graph => {
            machine.undirected = has_text(value(b"edgedefault", tag), b"undirected");
            Ok(())
        }
        Role::Node => add_node(machine, tag),
        Role::Edge => begin_edge(machine, tag),
        Role::Label(_) => begin_label(machine),
        _ => Ok(()),
    }
}

/// Opens the element of a start tag.
pub(crate) fn opened<'a>(
    at: u64,
    machine: &mut Machine<'a>,
    tag: &Tag<'a, '_>,
    role: Role,
) -> Result<(), Memory>
    ensures { OnOk result (reading_of machine.new ≡ spec.opened at (reading_of machine.old) (tag_of tag.now) role) }
{
    entered(machine, tag, role)?;
    if is_named(b"graph", tag) {
        machine.graphed = true;
    }
    machine.stack.push(Open {
        name: tag.name,
        at,
        role,
        text: Value::Plain(&[]),
    })?;
    Ok(())
}

fn first_text<'a, 'b>(texts: &'b [Value<'a>]) -> Option<&'b Value<'a>>
    ensures { option_map (λ v. text_of v.now) result ≡ find has_bytes (map text_of texts.now) }
{
    for text in texts {
        if !bytes_of(text).is_empty() {
            return Some(text);
        }
    }
    None
}

fn some_text<'a, 'b>(value: &'b Value<'a>) -> Option<&'b Value<'a>>
    ensures { option_map (λ v. text_of v.now) result ≡ spec.some_text (text_of value.now) }
{
    if bytes_of(value).is_empty() {
        return None;
    }
    Some(value)
}

fn label_of<'a, 'b>(draft: &'b Draft<'a>) -> Option<&'b Value<'a>>
    ensures { option_map (λ v. text_of v.now) result ≡ spec.label_of (draft_of draft.now) }
{
    match first_text(&draft.labels) {
        Some(text) => Some(text),
        None => some_text(&draft.told),
    }
}

fn spaced(byte: u8) -> u8
    ensures { result ≡ spec.spaced byte }
{
    if is_white(byte) { b' ' } else { byte }
}

fn has_control(text: &[u8]) -> bool
    ensures { result ≡ list_any (λ b. nat_lt b 32) (map spec.spaced text.now) }
{
    for byte in text {
        if spaced(*byte) < 32 {
            return true;
        }
    }
    false
}

fn spaced_text(alloc: Global, text: &[u8]) -> Result<Vec<u8>, Memory>
    ensures { IfOk result (λ v. v.items ≡ map spec.spaced text.now) }
{
    let label = text.iter().map(|byte| spaced(*byte)).collect(alloc)?;
    Ok(label)
}

/// Whether the text is a label as it stands: none of its bytes is below a space.
fn is_clean(text: &[u8]) -> bool
    ensures control { IsTrue result → list_any (λ b. nat_lt b 32) (map spec.spaced text.now) ≡ false }
    ensures same { IsTrue result → map spec.spaced text.now ≡ text.now }
{
    is_plain(text)
}

/// The label with spaces for white; None where it has other bytes below a space.
fn clean_label<'a>(alloc: Global, value: &Value<'a>) -> Result<Option<Value<'a>>, Memory>
    ensures { IfOk result (λ o. option_map text_of o ≡ spec.clean (text_of value.now)) }
{
    let text = bytes_of(value);
    if is_clean(text) {
        let label = copied(alloc, value)?;
        return Ok(Some(label));
    }
    if has_control(text) {
        return Ok(None);
    }
    let spaced = spaced_text(alloc, text)?;
    let label = made_of(alloc, spaced)?;
    Ok(Some(label))
}

fn visible<'a>(label: Value<'a>) -> Option<Value<'a>>
    ensures { option_map text_of result ≡ form.visible (text_of label.entry) }
{
    match bytes_of(&label) {
        b"i" => None,
        b"tau" => None,
        _ => Some(label),
    }
}

/// The edge, unless its label is at fault.
fn edge_from<'a>(alloc: Global, at: u64, draft: Draft<'a>) -> Result<NamedEdge<'a>, GraphError>
    ensures { MakesEdge result (spec.edge_from at (draft_of draft.entry) (spec.label_of (draft_of draft.entry))) }
{
    let Some(value) = label_of(&draft) else {
        return Err(GraphError::NoLabel(at));
    };
    let length = bytes_of(value).len();
    let Some(label) = clean_label(alloc, value)? else {
        return Err(GraphError::Malformed(at));
    };
    if !is_text(bytes_of(&label)) {
        return Err(GraphError::Malformed(at));
    }
    if length > MOST_LABEL_BYTES {
        return Err(GraphError::LabelLong(at));
    }
    Ok(NamedEdge {
        at,
        source: draft.source,
        target: draft.target,
        label: visible(label),
    })
}

fn edge_ended(machine: &mut Machine, at: u64) -> Result<(), GraphError>
    ensures { Steps (reading_of machine.new) result (spec.edge_ended (reading_of machine.old) at (option_map draft_of machine.old.draft)) }
{
    let Some(draft) = machine.draft.take() else {
        return Ok(());
    };
    let edge = edge_from(machine.alloc, at, draft)?;
    machine.graph.add_edge(edge)?;
    Ok(())
}

fn last_place(count: usize) -> Option<usize>
    ensures { result ≡ spec.last_place count }
{
    if count == 0 {
        return None;
    }
    Some(count - 1)
}

fn add_mark(machine: &mut Machine, text: &[u8])
    ensures { reading_of machine.new ≡ spec.marked_by (reading_of machine.old) (trimmed text.now) }
{
    if machine.marked.is_some() {
        return;
    }
    if trim(text) == b"true".as_slice() {
        machine.marked = last_place(machine.graph.node_count());
    }
}

fn add_data<'a>(machine: &mut Machine<'a>, text: &Value<'a>) -> Result<(), Memory>
    ensures { OnOk result (reading_of machine.new ≡ spec.told_by (reading_of machine.old) (trimmed (text_of text.now))) }
{
    let found = value_trimmed(machine.alloc, text)?;
    if let Some(draft) = &mut machine.draft {
        if bytes_of(&draft.told).is_empty() {
            draft.told = found;
        }
    }
    Ok(())
}

fn set_text<'a>(texts: &mut Vec<Value<'a>>, place: usize, text: Value<'a>)
    ensures { map text_of texts.new.items ≡ slice_set (map text_of texts.old.items) place (text_of text.entry) }
{
    if place < texts.len() {
        texts[place] = text;
    }
}

fn set_label<'a>(machine: &mut Machine<'a>, place: usize, text: &Value<'a>) -> Result<(), Memory>
    ensures { OnOk result (reading_of machine.new ≡ spec.labelled_by (reading_of machine.old) place (trimmed (text_of text.now))) }
{
    let found = value_trimmed(machine.alloc, text)?;
    if let Some(draft) = &mut machine.draft {
        set_text(&mut draft.labels, place, found);
    }
    Ok(())
}

/// What the end of the element adds.
fn left<'a>(machine: &mut Machine<'a>, element: Open<'a>) -> Result<(), GraphError>
    ensures { Steps (reading_of machine.new) result (spec.left (reading_of machine.old) (open_of element.entry) element.entry.role) }
{
    match element.role {
        Role::Mark => {
            add_mark(machine, bytes_of(&element.text));
            Ok(())
        }
        Role::Data => {
            add_data(machine, &element.text)?;
            Ok(())
        }
        Role::Label(place) => {
            set_label(machine, place, &element.text)?;
            Ok(())
        }
        Role::Edge => edge_ended(machine, element.at),
        _ => Ok(()),
    }
}

/// The innermost element ends.
fn closed(machine: &mut Machine) -> Result<(), GraphError>
    ensures { Closes machine.old (reading_of machine.new) result }
{
    let Some(element) = machine.stack.pop() else {
        return Ok(());
    };
    left(machine, element)
}

/// Reads a start tag.
#[inline(always)]
pub(crate) fn started<'a>(
    at: u64,
    machine: &mut Machine<'a>,
    tag: &Tag<'a, '_>,
) -> Result<(), GraphError>
    ensures { Steps (reading_of machine.new) result (spec.step at (reading_of machine.old) (Start (tag_of tag.now))) }
{
    let role = role_of(machine, tag);
    if let Some(fault) = start_fault(at, machine, tag, role) {
        return Err(fault);
    }
    opened(at, machine, tag, role)?;
    if tag.whole {
        return closed(machine);
    }
    Ok(())
}

/// Reads an end tag.
#[inline(always)]
pub(crate) fn ended(at: u64, machine: &mut Machine, name: &[u8]) -> Result<(), GraphError>
    ensures { Steps (reading_of machine.new) result (spec.step at (reading_of machine.old) (End name.now)) }
{
    let Some(open) = machine.stack.last() else {
        return Err(GraphError::Malformed(at));
    };
    if !is_same(open.name, name) {
        return Err(GraphError::Malformed(at));
    }
    closed(machine)
}

fn collects(role: Role) -> bool
    ensures { result ≡ spec.collects role }
{
    match role {
        Role::Mark => true,
        Role::Data => true,
        Role::Label(_) => true,
        _ => false,
    }
}

/// Adds to the direct text of the innermost element, where that counts.
pub(crate) fn texted(alloc: Global, stack: &mut Vec<Open>, more: &[u8]) -> Result<(), Memory>
    ensures { OnOk result (Adds stack.old.items stack.new.items more.now) }
{
    let Some(element) = stack.pop() else {
        return Ok(());
    };
    let next = with_text(alloc, element, more)?;
    stack.push(next)?;
    Ok(())
}

fn with_text<'a>(alloc: Global, element: Open<'a>, more: &[u8]) -> Result<Open<'a>, Memory>
    ensures { IfOk result (λ o. open_of o ≡ spec.with_text more.now (open_of element.entry)) }
{
    if !collects(element.role) {
        return Ok(element);
    }
    let text = longer(alloc, element.text, more)?;
    Ok(Open {
        name: element.name,
        at: element.at,
        role: element.role,
        text,
    })
}

/// Whether text counts in the innermost element.
fn collects_inside(stack: &[Open]) -> bool
    ensures { result ≡ false → (text : List ℕ) → Adds stack.now stack.now text }
{
    match stack.last() {
        None => true,
        Some(element) => collects(element.role),
    }
}

/// The same, where the text is a part of the content.
pub(crate) fn texted_by_part<'a>(
    alloc: Global,
    stack: &mut Vec<Open<'a>>,
    more: &'a [u8],
) -> Result<(), Memory>
    ensures { OnOk result (Adds stack.old.items stack.new.items more.now) }
{
    if !collects_inside(stack.as_slice()) {
        return Ok(());
    }
    if put_part(stack, more) {
        return Ok(());
    }
    texted(alloc, stack, more)
}

/// Makes the part the direct text of the innermost element, where that counts and has none yet.
fn put_part<'a>(stack: &mut Vec<Open<'a>>, more: &'a [u8]) -> bool
    ensures put { IsTrue result → Adds stack.old.items stack.new.items more.now }
    ensures not { IsFalse result → stack.new.items ≡ stack.old.items }
{
    let Some(element) = stack.last_mut() else {
        return false;
    };
    if !collects(element.role) {
        return false;
    }
    if !bytes_of(&element.text).is_empty() {
        return false;
    }
    element.text = Value::Plain(more);
    true
}
