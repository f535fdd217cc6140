//! White, names, and texts that end at a mark.
ghost use Rattle.std.specs.Prelude.{◌≡◌, ◌<◌, ◌≤◌, length, option_map};
ghost use Rattle.std.specs.List.{prefix_len};
ghost use Rattle.std.specs.Str.{bytes_eq};
ghost use Rattle.graphml_scan.specs.Piece as piece;

use memchr::memmem;

/// Whether the texts are the same. Most are short, and many differ in their lengths.
pub fn is_same(text: &[u8], other: &[u8]) -> bool
    ensures { result ≡ bytes_eq text.now other.now }
{
    if text.len() != other.len() {
        return false;
    }
    let mut index = 0;
    for byte in text {
        if *byte != other[index] {
            return false;
        }
        index += 1;
    }
    true
}

/// Whether the byte is a space, a tab, a CR or an LF.
pub fn is_white(byte: u8) -> bool
    ensures { result ≡ piece.is_white byte }
{
    byte == b' ' || byte == b'\t' || byte == b'\r' || byte == b'\n'
}

/// The bytes without the white at their front.
pub fn without_white(bytes: &[u8]) -> &[u8]
    ensures { result.now ≡ piece.without_white bytes.now }
{
    let mut rest = bytes;
    while let [first, after @ ..] = rest {
        if !is_white(*first) {
            return rest;
        }
        rest = after;
    }
    rest
}

fn begins_name(byte: u8) -> bool
    ensures { result ≡ piece.begins_name byte }
{
    byte.is_ascii_alphabetic() || byte == b'_' || byte == b':' || byte >= 128
}

fn is_in_name(byte: u8) -> bool
    ensures { result ≡ piece.is_in_name byte }
{
    // (most bytes of names are such letters)
    if byte.is_ascii_lowercase() {
        return true;
    }
    begins_name(byte) || byte.is_ascii_digit() || byte == b'-' || byte == b'.'
}

fn name_len(bytes: &[u8]) -> usize
    ensures len { result ≡ prefix_len piece.is_in_name bytes.now }
    ensures within { result ≤ length bytes.now }
{
    let mut count = 0;
    for byte in bytes {
        if !is_in_name(*byte) {
            return count;
        }
        count += 1;
    }
    count
}

/// The name at the front, and the bytes after it.
pub fn name_at(bytes: &[u8]) -> Option<(&[u8], &[u8])>
    ensures { option_map (λ cut. (cut.0.now, cut.1.now)) result ≡ piece.name_at bytes.now }
{
    let [first, ..] = bytes else {
        return None;
    };
    if !begins_name(*first) {
        return None;
    }
    let (name, rest) = bytes.split_at(name_len(bytes));
    Some((name, rest))
}

/// The bytes after this byte, if it is the first.
pub(crate) fn after_byte(mark: u8, bytes: &[u8]) -> Option<&[u8]>
    ensures { option_map (λ rest. rest.now) result ≡ piece.after_byte mark bytes.now }
{
    let [first, rest @ ..] = bytes else {
        return None;
    };
    if *first != mark {
        return None;
    }
    Some(rest)
}

/// The bytes after this text, if it stands at the front.
pub fn after_text<'a>(front: &[u8], bytes: &'a [u8]) -> Option<&'a [u8]>
    ensures { option_map (λ rest. rest.now) result ≡ piece.after_text front.now bytes.now }
{
    bytes.strip_prefix(front)
}

/// What stands before the first such byte, and what stands after it.
pub(crate) fn cut_at(mark: u8, bytes: &[u8]) -> Option<(&[u8], &[u8])>
    ensures { option_map (λ cut. (cut.0.now, cut.1.now)) result ≡ piece.cut_at mark bytes.now }
{
    match text_scan::cut_at(bytes, mark) {
        None => None,
        Some((front, back)) => Some((front, back)),
    }
}

/// What stands before the first place where this text stands, and what stands after the text.
pub fn cut_text<'a>(mark: &[u8], bytes: &'a [u8]) -> Option<(&'a [u8], &'a [u8])>
    requires { 0 < length mark.now }
    ensures { option_map (λ cut. (cut.0.now, cut.1.now)) result ≡ piece.cut_text mark.now bytes.now }
{
    match memmem::find(bytes, mark) {
        None => None,
        Some(place) => Some((&bytes[..place], &bytes[place + mark.len()..])),
    }
}

/// The bytes without the white at both ends.
pub fn trim(bytes: &[u8]) -> &[u8]
    ensures { result.now ≡ piece.trimmed bytes.now }
{
    without_white_back(without_white(bytes))
}

fn without_white_back(bytes: &[u8]) -> &[u8]
    ensures { result.now ≡ piece.without_back bytes.now }
{
    let mut rest = bytes;
    while let [before @ .., last] = rest {
        if !is_white(*last) {
            return rest;
        }
        rest = before;
    }
    rest
}

/// What follows the first colon of the name, or the whole.
pub(crate) fn local_name(name: &[u8]) -> &[u8]
    ensures { result.now ≡ piece.local_name name.now }
{
    let mut rest = name;
    while let [first, after @ ..] = rest {
        if *first == b':' {
            return after;
        }
        rest = after;
    }
    name
}
