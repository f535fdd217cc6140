//! Start tags and end tags, as they are read.
ghost use Rattle.std.specs.Prelude.{◌≡◌, option_map, IfOk};
ghost use Rattle.graphml_scan.specs.Tag as spec;
ghost use Rattle.graphml_scan.specs.TagValues.{tag_of};

use crate::attributes::{Attribute, attributes_at};
use crate::piece::{after_byte, local_name, name_at, without_white};
use crate::tag::Tag;
use lts_base::Memory;
use std::alloc::Global;

fn tag_end_at(bytes: &[u8]) -> Option<(bool, &[u8])>
    ensures { option_map (λ cut. (cut.0, cut.1.now)) result ≡ spec.tag_end_at bytes.now }
{
    let [first, rest @ ..] = bytes else {
        return None;
    };
    if *first == b'>' {
        return Some((false, rest));
    }
    if *first != b'/' {
        return None;
    }
    let Some(behind) = after_byte(b'>', rest) else {
        return None;
    };
    Some((true, behind))
}

/// The start tag whose `<` stands before the bytes, with its attributes in the room, and the bytes after it.
#[inline(always)]
#[tactic(auto, unfolding(crate::specs::Tag::start_tag_at))]
pub fn start_tag_at<'a, 'b>(
    alloc: Global,
    room: &'b mut Vec<Attribute<'a>>,
    bytes: &'a [u8],
) -> Result<Option<(Tag<'a, 'b>, &'a [u8])>, Memory>
    ensures { IfOk result (λ o. option_map (λ cut. (tag_of cut.0, cut.1.now)) o ≡ spec.start_tag_at bytes.now) }
{
    let Some((name, after)) = name_at(bytes) else {
        return Ok(None);
    };
    let Some(behind) = attributes_at(alloc, room, after)? else {
        return Ok(None);
    };
    let Some((whole, rest)) = tag_end_at(without_white(behind)) else {
        return Ok(None);
    };
    let tag = Tag {
        name,
        local: local_name(name),
        attributes: room.as_slice(),
        whole,
    };
    Ok(Some((tag, rest)))
}

/// The name in the end tag whose `</` stands before the bytes, and the bytes after it.
#[tactic(auto, unfolding(crate::specs::Tag::end_tag_at))]
pub fn end_tag_at(bytes: &[u8]) -> Option<(&[u8], &[u8])>
    ensures { option_map (λ cut. (cut.0.now, cut.1.now)) result ≡ spec.end_tag_at bytes.now }
{
    let Some((name, after)) = name_at(bytes) else {
        return None;
    };
    let Some(rest) = after_byte(b'>', without_white(after)) else {
        return None;
    };
    Some((name, rest))
}
