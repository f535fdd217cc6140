//! The front of a content: UTF-8, a byte order mark, and the declaration.
ghost use Rattle.std.specs.Prelude.{◌≡◌, ◌<◌, ◌≤◌, ◌-◌, length, option_map, true, false, MatchResult, MatchOption, IfOk, Ok};
ghost use Rattle.std.specs.Str.{is_utf8};
ghost use Rattle.std.specs.Str.Lossy.{utf8_valid_len};
ghost use Rattle.graphml_text.specs.Document as spec;
ghost use Rattle.graphml_text.specs.MachineValues.{Refuses};

use crate::element::{is_same_word, value_in};
use crate::error::GraphError;
use graphml_scan::{after_text, attributes_at, cut_text, name_at, without_white};
use std::alloc::Global;

/// Whether the bytes are UTF-8.
pub(crate) fn is_text(bytes: &[u8]) -> bool
    ensures { result ≡ is_utf8 bytes.now }
{
    if bytes.is_ascii() {
        return true;
    }
    match simdutf8::compat::from_utf8(bytes) {
        Ok(_) => true,
        Err(_) => false,
    }
}

/// Where the bytes stop being UTF-8, if they do.
pub(crate) fn text_end(bytes: &[u8]) -> Option<usize>
    ensures { MatchOption result (is_utf8 bytes.now ≡ true) (λ end. (is_utf8 bytes.now ≡ false) × (end ≡ utf8_valid_len bytes.now)) }
{
    match simdutf8::compat::from_utf8(bytes) {
        Ok(_) => None,
        Err(fault) => Some(fault.valid_up_to()),
    }
}

/// The bytes without a byte order mark.
pub(crate) fn unmarked(content: &[u8]) -> &[u8]
    ensures bytes { result.now ≡ spec.unmarked content.now }
    ensures shorter { length result.now ≤ length content.now }
{
    match after_text(b"\xef\xbb\xbf", content) {
        Some(rest) => rest,
        None => content,
    }
}

#[tactic(auto, unfolding(crate::specs::Document::declaration_at))]
fn declaration_at(bytes: &[u8]) -> Option<(&[u8], &[u8])>
    ensures { option_map (λ cut. (cut.0.now, cut.1.now)) result ≡ spec.declaration_at bytes.now }
{
    let Some(start) = after_text(b"<?", bytes) else {
        return None;
    };
    let Some((inner, rest)) = cut_text(b"?>", start) else {
        return None;
    };
    let Some((name, attributes)) = name_at(inner) else {
        return None;
    };
    if name != b"xml".as_slice() {
        return None;
    }
    Some((attributes, rest))
}

fn is_utf8_named(found: Option<&[u8]>) -> bool
    ensures { result ≡ spec.is_utf8_named (option_map (λ text. text.now) found.entry) }
{
    match found {
        None => true,
        Some(text) => is_same_word(text, b"utf-8"),
    }
}

fn is_blank(bytes: &[u8]) -> bool
    ensures { result ≡ spec.is_blank bytes.now }
{
    without_white(bytes).is_empty()
}

fn declared<'a>(
    alloc: Global,
    at: u64,
    inner: &[u8],
    rest: &'a [u8],
) -> Result<&'a [u8], GraphError>
    ensures body { MatchResult result (λ body. spec.declared_by at rest.now inner.now ≡ Ok body.now) (λ e. Refuses e (spec.declared_by at rest.now inner.now)) }
    ensures same { IfOk result (λ body. body.now ≡ rest.now) }
{
    let mut room = Vec::new(alloc);
    let Some(left) = attributes_at(alloc, &mut room, inner)? else {
        return Err(GraphError::Malformed(at));
    };
    if !is_blank(left) {
        return Err(GraphError::Malformed(at));
    }
    if !is_utf8_named(value_in(b"encoding", room.as_slice())) {
        return Err(GraphError::Encoding);
    }
    Ok(rest)
}

/// What follows the declaration, if there is one; so many bytes are in the content.
pub(crate) fn body_of<'a>(
    alloc: Global,
    size: usize,
    bytes: &'a [u8],
) -> Result<&'a [u8], GraphError>
    requires { length bytes.now ≤ size }
    ensures body { MatchResult result (λ body. spec.body_of size bytes.now ≡ Ok body.now) (λ e. Refuses e (spec.body_of size bytes.now)) }
    ensures shorter { IfOk result (λ body. length body.now ≤ length bytes.now) }
{
    match declaration_at(bytes) {
        None => Ok(bytes),
        Some((inner, rest)) => {
            match declared(alloc, (size - bytes.len()) as u64, inner, rest) {
                Ok(body) => Ok(body),
                Err(fault) => Err(fault),
            }
        }
    }
}
