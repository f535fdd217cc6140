//! What may stand as the value of an option, and as a file.
ghost use Rattle.std.specs.Prelude.{◌≡◌, map};
ghost use Rattle.std.specs.List.{list_all};
ghost use Rattle.std.specs.Option.{option_map};
ghost use Rattle.torx_words.specs.Values.{decimal_of, is_name as can_name, is_value as can_stand, may_stand as may_stand_as, number_in as number_within};

use crate::form::ValueKind;
use text_scan::decimal;

/// Whether the option has no value, or one that can stand.
pub(crate) fn may_stand(kind: ValueKind, value: Option<&str>) -> bool
    ensures { result ≡ may_stand_as kind (option_map (λ (w : _). w.now) value.entry) }
{
    match value {
        Some(text) => is_value(kind, text),
        None => true,
    }
}

/// Whether the text can stand as a value of this kind.
fn is_value(kind: ValueKind, text: &str) -> bool
    ensures { result ≡ can_stand kind text.now }
{
    match kind {
        ValueKind::Flag => false,
        ValueKind::Marks => text == "prefix" || text == "suffix",
        ValueKind::Divergence => text == "refuse" || text == "quiet",
        ValueKind::Name => is_name(text),
        ValueKind::Number { least, most } => number_in(least, most, text).is_some(),
    }
}

/// The number of the text, where it is from `least` to `most`.
fn number_in(least: u64, most: u64, text: &str) -> Option<u64>
    ensures { result ≡ number_within least most text.now }
{
    let number = number_of(text)?;
    if least <= number && number <= most {
        Some(number)
    } else {
        None
    }
}

/// The number of the text.
pub(crate) fn number_of(text: &str) -> Option<u64>
    ensures { result ≡ decimal_of text.now }
{
    decimal(text.as_bytes())
}

/// Whether each text can name a file or an address.
pub(crate) fn are_names(files: &[&str]) -> bool
    ensures { result ≡ list_all can_name (map (λ (w : _). w.now) files.now) }
{
    for file in files {
        if !is_name(*file) {
            return false;
        }
    }
    true
}

/// Whether the text can name a file or an address.
fn is_name(text: &str) -> bool
    ensures { result ≡ can_name text.now }
{
    match text.as_bytes() {
        [] => false,
        [first, ..] => *first != b'-',
    }
}
