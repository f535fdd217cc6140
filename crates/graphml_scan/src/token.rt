//! The pieces of a document.
ghost use Rattle.std.specs.Prelude.{◌≡◌, ◌<◌, ◌≤◌, ◌++◌, ◌≢◌, slice_index, length, take, option_map, IfOk};
ghost use Rattle.graphml_scan.specs.Token as spec;
ghost use Rattle.graphml_scan.specs.MarkupValues.{token_of};

use crate::attributes::Attribute;
use crate::piece::{after_text, cut_text};
use crate::tag::Tag;
use crate::tags::{end_tag_at, start_tag_at};
use lts_base::Memory;
use memchr::memchr2;
use std::alloc::Global;

/// So many bytes are looked at one by one before a search that is fast on long texts.
const FEW: usize = 16;

/// What stands in a document beside text.
#[derive(Drop)]
pub enum Markup<'a, 'b> {
    /// A CDATA section, by what is in it.
    Section(&'a [u8]),
    /// A start tag.
    Start(Tag<'a, 'b>),
    /// An end tag, by its name.
    End(&'a [u8]),
    /// A comment or an instruction.
    Passed,
}

fn passed_at<'a, 'b>(mark: &[u8], bytes: &'a [u8]) -> Option<(Markup<'a, 'b>, &'a [u8])>
    requires { 0 < length mark.now }
    ensures { option_map (λ cut. (token_of cut.0, cut.1.now)) result ≡ spec.passed_at mark.now bytes.now }
{
    let Some((_, rest)) = cut_text(mark, bytes) else {
        return None;
    };
    Some((Markup::Passed, rest))
}

fn section_at<'a, 'b>(bytes: &'a [u8]) -> Option<(Markup<'a, 'b>, &'a [u8])>
    ensures { option_map (λ cut. (token_of cut.0, cut.1.now)) result ≡ spec.section_at bytes.now }
{
    let Some((text, rest)) = cut_text(b"]]>", bytes) else {
        return None;
    };
    Some((Markup::Section(text), rest))
}

#[tactic(auto, unfolding(crate::specs::Token::marked_at))]
fn marked_at<'a, 'b>(bytes: &'a [u8]) -> Option<(Markup<'a, 'b>, &'a [u8])>
    ensures { option_map (λ cut. (token_of cut.0, cut.1.now)) result ≡ spec.marked_at bytes.now }
{
    match after_text(b"--", bytes) {
        Some(comment) => passed_at(b"-->", comment),
        None => {
            let Some(section) = after_text(b"[CDATA[", bytes) else {
                return None;
            };
            section_at(section)
        }
    }
}

/// The markup whose `<` stands before the bytes, and the bytes after it. The attributes of a tag stand in the room.
#[tactic(auto, unfolding(crate::specs::Token::markup_at))]
pub fn markup_at<'a, 'b>(
    alloc: Global,
    room: &'b mut Vec<Attribute<'a>>,
    bytes: &'a [u8],
) -> Result<Option<(Markup<'a, 'b>, &'a [u8])>, Memory>
    ensures { IfOk result (λ o. option_map (λ cut. (token_of cut.0, cut.1.now)) o ≡ spec.markup_at bytes.now) }
{
    let [first, after @ ..] = bytes else {
        return Ok(None);
    };
    if *first == b'/' {
        let Some((name, rest)) = end_tag_at(after) else {
            return Ok(None);
        };
        return Ok(Some((Markup::End(name), rest)));
    }
    if *first == b'?' {
        return Ok(passed_at(b"?>", after));
    }
    if *first == b'!' {
        return Ok(marked_at(after));
    }
    let Some((tag, rest)) = start_tag_at(alloc, room, bytes)? else {
        return Ok(None);
    };
    Ok(Some((Markup::Start(tag), rest)))
}

/// How many bytes at the front are neither `<` nor `&`, but at most a few.
fn near_len(bytes: &[u8]) -> usize
    ensures within { result ≤ length bytes.now }
    ensures plain { spec.IsRun (take result bytes.now) }
    ensures some { 0 < length bytes.now → slice_index bytes.now 0 ≢ 60 → slice_index bytes.now 0 ≢ 38 → 0 < result }
{
    let mut count = 0;
    for byte in bytes {
        if *byte == b'<' {
            return count;
        }
        if *byte == b'&' {
            return count;
        }
        if count == FEW {
            return count;
        }
        count += 1;
    }
    count
}

/// The bytes up to the next `<` or `&`, and those from there on.
fn far_run(bytes: &[u8]) -> (&[u8], &[u8])
    ensures whole { bytes.now ≡ result.0.now ++ result.1.now }
    ensures plain { spec.IsRun result.0.now }
    ensures some { 0 < length bytes.now → slice_index bytes.now 0 ≢ 60 → slice_index bytes.now 0 ≢ 38 → 0 < length result.0.now }
{
    match memchr2(b'<', b'&', bytes) {
        None => (bytes, &[]),
        Some(place) => bytes.split_at(place),
    }
}

/// The bytes up to the next `<` or `&`, and those from there on.
pub fn run_at(bytes: &[u8]) -> (&[u8], &[u8])
    ensures whole { bytes.now ≡ result.0.now ++ result.1.now }
    ensures plain { spec.IsRun result.0.now }
    ensures some { 0 < length bytes.now → slice_index bytes.now 0 ≢ 60 → slice_index bytes.now 0 ≢ 38 → 0 < length result.0.now }
{
    let near = near_len(bytes);
    if near == FEW {
        return far_run(bytes);
    }
    bytes.split_at(near)
}
