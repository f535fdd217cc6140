//! Names of elements, and what their attributes say.
ghost use Rattle.std.specs.Prelude.{◌≡◌, option_map, map};
ghost use Rattle.graphml_text.specs.Element as spec;
ghost use Rattle.graphml_scan.specs.AttributeValues.{attributes_of};
ghost use Rattle.graphml_scan.specs.TagValues.{tag_of};

use graphml_scan::{Attribute, Tag, bytes_of, is_same};

/// Whether the tag is one of an element of this local name.
pub(crate) fn is_named(word: &[u8], tag: &Tag) -> bool
    ensures { result ≡ spec.is_named word.now (tag_of tag.now) }
{
    is_same(tag.local, word)
}

/// The value of the attribute of this name.
pub(crate) fn value_in<'b>(name: &[u8], attributes: &'b [Attribute]) -> Option<&'b [u8]>
    ensures { option_map (λ text. text.now) result ≡ spec.value_in name.now (attributes_of attributes.now) }
{
    for attribute in attributes {
        if is_same(attribute.name, name) {
            return Some(bytes_of(&attribute.value));
        }
    }
    None
}

/// The value of the tag's attribute of this name.
pub(crate) fn value<'b>(name: &[u8], tag: &'b Tag) -> Option<&'b [u8]>
    ensures { option_map (λ text. text.now) result ≡ spec.value name.now (tag_of tag.now) }
{
    value_in(name, tag.attributes)
}

/// Whether the text is there, and is this one.
pub(crate) fn has_text(found: Option<&[u8]>, text: &[u8]) -> bool
    ensures { result ≡ spec.is_text (option_map (λ text. text.now) found.entry) text.now }
{
    match found {
        None => false,
        Some(found) => is_same(found, text),
    }
}

fn is_for(word: &[u8], found: Option<&[u8]>) -> bool
    ensures { result ≡ spec.is_for word.now (option_map (λ text. text.now) found.entry) }
{
    match found {
        None => true,
        Some(text) => {
            if text == word {
                return true;
            }
            text == b"all".as_slice()
        }
    }
}

/// Whether the texts are the same but for the case of ASCII letters.
pub(crate) fn is_same_word(text: &[u8], word: &[u8]) -> bool
    ensures { result ≡ spec.is_same_word text.now word.now }
{
    text.eq_ignore_ascii_case(word)
}

fn is_called(word: &[u8], found: Option<&[u8]>) -> bool
    ensures { result ≡ spec.is_called word.now (option_map (λ text. text.now) found.entry) }
{
    match found {
        None => false,
        Some(text) => is_same_word(text, word),
    }
}

/// Whether the tag is that of a label key.
pub(crate) fn is_label_key(tag: &Tag) -> bool
    ensures { result ≡ spec.is_label_key (tag_of tag.now) }
{
    if !is_for(b"edge", value(b"for", tag)) {
        return false;
    }
    is_called(b"label", value(b"attr.name", tag))
}

/// Whether the tag is that of a start key.
pub(crate) fn is_start_key(tag: &Tag) -> bool
    ensures { result ≡ spec.is_start_key (tag_of tag.now) }
{
    if !is_for(b"node", value(b"for", tag)) {
        return false;
    }
    is_called(b"start", value(b"attr.name", tag))
}
