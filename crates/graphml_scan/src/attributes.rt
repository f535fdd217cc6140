//! Attributes of tags.
ghost use Rattle.std.specs.Prelude.{◌≡◌, not, [], option_map, map, IfOk, IfSome};
ghost use Rattle.graphml_scan.specs.Many.{many};
ghost use Rattle.graphml_scan.specs.Names.{AddsName};
ghost use Rattle.graphml_scan.specs.Reference.{has_ampersand};
ghost use Rattle.graphml_scan.specs.Tag as spec;
ghost use Rattle.graphml_scan.specs.AttributeValues.{attribute_of, attributes_of};

use crate::keyed::{Digest, Keyed};
use crate::piece::{after_byte, is_same, is_white, name_at, without_white};
use crate::reference::{Value, resolved};
use indexmap::IndexSet;
use lts_base::Memory;
use std::alloc::Global;

/// The most attributes of a tag whose names are compared by pairs.
const MOST_COMPARED: usize = 16;

/// An attribute of a tag.
#[derive(Drop)]
pub struct Attribute<'a> {
    /// The name as it is written.
    pub name: &'a [u8],
    /// The value with its references resolved.
    pub value: Value<'a>,
}

fn white_at(bytes: &[u8]) -> Option<&[u8]>
    ensures { option_map (λ rest. rest.now) result ≡ spec.white_at bytes.now }
{
    let [first, rest @ ..] = bytes else {
        return None;
    };
    if !is_white(*first) {
        return None;
    }
    Some(without_white(rest))
}

/// What stands before the quote, if it has no `<`, the bytes after the quote, and whether no `&` stands before it.
fn value_at(quote: u8, bytes: &[u8]) -> Option<(&[u8], &[u8], bool)>
    ensures cut { option_map (λ cut. (cut.0.now, cut.1.now)) result ≡ spec.value_at quote bytes.now }
    ensures plain { IfSome result (λ cut. cut.2 ≡ not (has_ampersand cut.0.now)) }
{
    let mut count = 0;
    let mut plain = true;
    for byte in bytes {
        if *byte == quote {
            return Some((&bytes[..count], &bytes[count + 1..], plain));
        }
        if *byte == b'<' {
            return None;
        }
        plain &= *byte != b'&';
        count += 1;
    }
    None
}

fn quoted_at(bytes: &[u8]) -> Option<(&[u8], &[u8], bool)>
    ensures cut { option_map (λ cut. (cut.0.now, cut.1.now)) result ≡ spec.quoted_at bytes.now }
    ensures plain { IfSome result (λ cut. cut.2 ≡ not (has_ampersand cut.0.now)) }
{
    let [first, rest @ ..] = bytes else {
        return None;
    };
    if *first == b'"' {
        return value_at(b'"', rest);
    }
    if *first == b'\'' {
        return value_at(b'\'', rest);
    }
    None
}

/// The attribute at the front, after white, and the bytes after it.
#[tactic(auto, unfolding(crate::specs::Tag::attribute_at))]
fn attribute_at<'a>(
    alloc: Global,
    bytes: &'a [u8],
) -> Result<Option<(Attribute<'a>, &'a [u8])>, Memory>
    ensures { IfOk result (λ o. option_map (λ cut. (attribute_of cut.0, cut.1.now)) o ≡ spec.attribute_at bytes.now) }
{
    let Some(start) = white_at(bytes) else {
        return Ok(None);
    };
    let Some((name, after)) = name_at(start) else {
        return Ok(None);
    };
    let Some(equal) = after_byte(b'=', without_white(after)) else {
        return Ok(None);
    };
    let Some((text, rest, plain)) = quoted_at(without_white(equal)) else {
        return Ok(None);
    };
    let Some(value) = resolved(alloc, text, plain)? else {
        return Ok(None);
    };
    Ok(Some((Attribute { name, value }, rest)))
}

fn has_name(attributes: &[Attribute], name: &[u8]) -> bool
    ensures { result ≡ spec.has_name (attributes_of attributes.now) name.now }
{
    for attribute in attributes {
        if is_same(attribute.name, name) {
            return true;
        }
    }
    false
}

fn are_once_by_pairs(attributes: &[Attribute]) -> bool
    ensures { result ≡ spec.are_once [] (attributes_of attributes.now) }
{
    let mut index = 0;
    for attribute in attributes {
        if has_name(&attributes[..index], attribute.name) {
            return false;
        }
        index += 1;
    }
    true
}

fn add_name(names: &mut IndexSet<Vec<u8>, Keyed>, name: Vec<u8>) -> Result<bool, Memory>
    ensures { IfOk result (λ new. AddsName (map (λ v. v.items) names.old.keys) (map (λ v. v.items) names.new.keys) name.items new) }
{
    let (_, new) = names.insert_full(name)?;
    Ok(new)
}

/// A hash that depends on all names.
fn keyed_by(attributes: &[Attribute]) -> Keyed {
    let mut digest = Digest::new();
    for attribute in attributes {
        digest.add(attribute.name);
    }
    digest.keyed()
}

fn are_once_by_set(alloc: Global, attributes: &[Attribute]) -> Result<bool, Memory>
    ensures { IfOk result (λ once. once ≡ spec.are_once [] (attributes_of attributes.now)) }
{
    let mut names = IndexSet::with_hasher(alloc, keyed_by(attributes));
    for attribute in attributes {
        let name = Vec::from_slice(alloc, attribute.name)?;
        let new = add_name(&mut names, name)?;
        if !new {
            return Ok(false);
        }
    }
    Ok(true)
}

/// Whether no name stands twice: by pairs for a few attributes, else by a set of the names.
fn are_once(alloc: Global, attributes: &[Attribute]) -> Result<bool, Memory>
    ensures { IfOk result (λ once. once ≡ spec.are_once [] (attributes_of attributes.now)) }
{
    if attributes.len() > MOST_COMPARED {
        return are_once_by_set(alloc, attributes);
    }
    Ok(are_once_by_pairs(attributes))
}

/// Puts the attributes at the front into the room, and gives the bytes after them.
fn many_at<'a>(
    alloc: Global,
    room: &mut Vec<Attribute<'a>>,
    bytes: &'a [u8],
) -> Result<&'a [u8], Memory>
    ensures { IfOk result (λ rest. (attributes_of room.new.items, rest.now) ≡ many spec.attribute_at bytes.now) }
{
    room.clear();
    let mut rest = bytes;
    while let Some((attribute, after)) = attribute_at(alloc, rest)? {
        room.push(attribute)?;
        rest = after;
    }
    Ok(rest)
}

/// Puts the attributes at the front, no two of one name, into the room in place of what it held, and gives the bytes
/// after them. A room that is used for one tag after another takes memory once.
pub fn attributes_at<'a>(
    alloc: Global,
    room: &mut Vec<Attribute<'a>>,
    bytes: &'a [u8],
) -> Result<Option<&'a [u8]>, Memory>
    ensures { IfOk result (λ o. option_map (λ rest. (attributes_of room.new.items, rest.now)) o ≡ spec.attributes_at bytes.now) }
{
    let rest = many_at(alloc, room, bytes)?;
    let once = are_once(alloc, room.as_slice())?;
    if !once {
        return Ok(None);
    }
    Ok(Some(rest))
}
