//! References, and the texts in which they stand.
ghost use Rattle.std.specs.Prelude.{◌≡◌, not, ◌<◌, ◌≤◌, ◌++◌, length, option_map, if◌then◌else◌, Some, None, IfOk, IfSome, MatchOption, OnOk};
ghost use Rattle.std.specs.Char.{encode_utf8, is_digit, digit_value};
ghost use Rattle.graphml_scan.specs.Piece as piece;
ghost use Rattle.graphml_scan.specs.Reference as reference;
ghost use Rattle.graphml_scan.specs.Values.{text_of};
ghost use Rattle.graphml_scan.specs.Pushed.{Pushes};

use crate::piece::{cut_at, trim};
use lts_base::Memory;
use std::alloc::Global;

/// A text whose references are resolved: a part of the content where there are none.
#[derive(Drop)]
pub enum Value<'a> {
    /// It stands so in the content.
    Plain(&'a [u8]),
    /// It was made of what stands in the content. (Few are, so that all others are kept small by the box.)
    Made(Box<Vec<u8>>),
}

/// A text that was made.
pub fn made_of<'a>(alloc: Global, text: Vec<u8>) -> Result<Value<'a>, Memory>
    ensures { IfOk result (λ v. text_of v ≡ text.items) }
{
    let own = Box::new(alloc, text)?;
    Ok(Value::Made(own))
}

/// A text that is made of these bytes. (It stands apart so that callers, who seldom need it, stay small.)
#[inline(never)]
fn made_from<'a>(alloc: Global, bytes: &[u8]) -> Result<Value<'a>, Memory>
    ensures { IfOk result (λ v. text_of v ≡ bytes.now) }
{
    let own = Vec::from_slice(alloc, bytes)?;
    let value = made_of(alloc, own)?;
    Ok(value)
}

fn as_character(number: u32) -> Option<char>
    ensures { result ≡ reference.as_character number }
{
    if number == 0 {
        return None;
    }
    if number < 0xD800 {
        return char::from_u32(number);
    }
    if number < 0xE000 {
        return None;
    }
    char::from_u32(number)
}

fn digit_of(byte: u8, base: u32) -> Option<u32>
    requires { base ≤ 16 }
    ensures { result ≡ (if is_digit byte base then Some (digit_value byte) else None) }
{
    let digit = match byte {
        b'0'..=b'9' => byte - b'0',
        b'a'..=b'f' => byte - b'a' + 10,
        b'A'..=b'F' => byte - b'A' + 10,
        _ => 16,
    };
    if u32::from(digit) < base {
        return Some(u32::from(digit));
    }
    None
}

/// The number that the digits write; None where it is none of a character, or where a byte is no digit.
fn number_in(base: u32, digits: &[u8]) -> Option<u32>
    requires some { 0 < base }
    requires most { base ≤ 16 }
    ensures { reference.if_character result ≡ reference.if_character (reference.number_from base 0 digits.now) }
{
    let mut number: u32 = 0;
    for byte in digits {
        let Some(digit) = digit_of(*byte, base) else {
            return None;
        };
        if number >= 0x11_0000 {
            return None;
        }
        number = number * base + digit;
    }
    Some(number)
}

fn character_of(base: u32, digits: &[u8]) -> Option<char>
    requires some { 0 < base }
    requires most { base ≤ 16 }
    ensures { result ≡ reference.character_of base digits.now }
{
    let [_, ..] = digits else {
        return None;
    };
    let Some(number) = number_in(base, digits) else {
        return None;
    };
    as_character(number)
}

fn numbered(digits: &[u8]) -> Option<char>
    ensures { result ≡ reference.numbered digits.now }
{
    let [first, others @ ..] = digits else {
        return None;
    };
    if *first == b'x' {
        return character_of(16, others);
    }
    character_of(10, digits)
}

fn named(name: &[u8]) -> Option<char>
    ensures { result ≡ reference.named name.now }
{
    match name {
        b"lt" => Some('<'),
        b"gt" => Some('>'),
        b"amp" => Some('&'),
        b"apos" => Some('\''),
        b"quot" => Some('"'),
        _ => None,
    }
}

fn referred(name: &[u8]) -> Option<char>
    ensures { result ≡ reference.referred name.now }
{
    let [first, digits @ ..] = name else {
        return None;
    };
    if *first == b'#' {
        return numbered(digits);
    }
    named(name)
}

/// The character of the reference whose `&` stands before the bytes, and the bytes after it.
#[tactic(auto, unfolding(crate::specs::Reference::reference_at))]
pub fn reference_at(bytes: &[u8]) -> Option<(char, &[u8])>
    ensures { option_map (λ cut. (encode_utf8 cut.0, cut.1.now)) result ≡ reference.reference_at bytes.now }
{
    let Some((name, rest)) = cut_at(b';', bytes) else {
        return None;
    };
    let Some(character) = referred(name) else {
        return None;
    };
    Some((character, rest))
}

/// The text with its references resolved; None where one isn't in the form. Plain text has none.
pub(crate) fn resolved<'a>(
    alloc: Global,
    bytes: &'a [u8],
    plain: bool,
) -> Result<Option<Value<'a>>, Memory>
    requires { plain ≡ not (reference.has_ampersand bytes.now) }
    ensures { IfOk result (λ o. option_map text_of o ≡ reference.resolved bytes.now) }
{
    if plain {
        return Ok(Some(Value::Plain(bytes)));
    }
    let Some(text) = made(alloc, bytes)? else {
        return Ok(None);
    };
    let value = made_of(alloc, text)?;
    Ok(Some(value))
}

fn made(alloc: Global, bytes: &[u8]) -> Result<Option<Vec<u8>>, Memory>
    ensures { IfOk result (λ o. option_map (λ v. v.items) o ≡ reference.resolved bytes.now) }
{
    let mut text = Vec::new(alloc);
    let mut rest = bytes;
    while !rest.is_empty() {
        let Some(after) = push_piece(&mut text, rest)? else {
            return Ok(None);
        };
        rest = after;
    }
    Ok(Some(text))
}

/// Adds what the front of the bytes stands for, and gives the bytes after it.
fn push_piece<'a>(text: &mut Vec<u8>, bytes: &'a [u8]) -> Result<Option<&'a [u8]>, Memory>
    ensures { IfOk result (λ o. Pushes text.old.items text.new.items bytes.now (option_map (λ rest. rest.now) o)) }
{
    let [first, after @ ..] = bytes else {
        return Ok(None);
    };
    if *first == b'&' {
        let Some((character, rest)) = reference_at(after) else {
            return Ok(None);
        };
        push_character(text, character)?;
        return Ok(Some(rest));
    }
    text.push(*first)?;
    Ok(Some(after))
}

fn push_character(text: &mut Vec<u8>, character: char) -> Result<(), Memory>
    ensures { OnOk result (text.new.items ≡ text.old.items ++ encode_utf8 character) }
{
    let mut buffer = [0; 4];
    let encoded = character.encode_utf8(&mut buffer);
    text.extend_from_slice(encoded.as_bytes())?;
    Ok(())
}

/// The bytes of the text.
pub fn bytes_of<'b>(value: &'b Value) -> &'b [u8]
    ensures { result.now ≡ text_of value.now }
{
    match value {
        Value::Plain(text) => text,
        Value::Made(text) => text.as_slice(),
    }
}

/// The same text.
#[inline(always)]
pub fn copied<'a>(alloc: Global, value: &Value<'a>) -> Result<Value<'a>, Memory>
    ensures { IfOk result (λ v. text_of v ≡ text_of value.now) }
{
    match value {
        Value::Plain(text) => Ok(Value::Plain(text)),
        Value::Made(text) => {
            let value = made_from(alloc, text.as_slice())?;
            Ok(value)
        }
    }
}

/// The text without the white at both ends.
#[inline(always)]
pub fn trimmed<'a>(alloc: Global, value: &Value<'a>) -> Result<Value<'a>, Memory>
    ensures { IfOk result (λ v. text_of v ≡ piece.trimmed (text_of value.now)) }
{
    match value {
        Value::Plain(text) => Ok(Value::Plain(trim(text))),
        Value::Made(text) => {
            let value = made_from(alloc, trim(text.as_slice()))?;
            Ok(value)
        }
    }
}

/// The text with more at its end.
pub fn longer<'a>(alloc: Global, value: Value<'a>, more: &[u8]) -> Result<Value<'a>, Memory>
    ensures { IfOk result (λ v. text_of v ≡ text_of value.entry ++ more.now) }
{
    match value {
        Value::Plain(text) => {
            let mut own = Vec::from_slice(alloc, text)?;
            own.extend_from_slice(more)?;
            let longer = made_of(alloc, own)?;
            Ok(longer)
        }
        Value::Made(text) => {
            let mut own = Box::into_inner(text);
            own.extend_from_slice(more)?;
            let longer = made_of(alloc, own)?;
            Ok(longer)
        }
    }
}
