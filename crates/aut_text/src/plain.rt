//! Moves in the form in which most files write them, which is read faster than any other.
ghost use Rattle.std.specs.Prelude.{◌≡◌, ◌<◌, ◌∷◌, ◌++◌, [], false, IfSome};
ghost use Rattle.std.specs.Char.{digit_value};
ghost use Rattle.text_scan.specs.Blank.{is_blank, trimmed};
ghost use Rattle.aut_text.specs.Plain as plain;

use lts_base::limits::MOST_STATES;
use text_scan::{MOST_DIGITS, trim};

/// The decimal at the front, where it is below the states, and the bytes after it; it may be said
/// wrongly that there is none.
fn number(bytes: &[u8], states: u64) -> Option<(u64, &[u8])>
    ensures { IfSome result (λ n. plain.HasNumber states bytes.now n.0 n.1.now) }
{
    let mut value: u64 = 0;
    let mut rest = bytes;
    while let [first, after @ ..] = rest {
        let Some(digit) = digit_of(*first) else {
            break;
        };
        if value >= MOST_STATES as u64 {
            break;
        }
        value = value * 10 + digit;
        rest = after;
    }
    let count = bytes.len() - rest.len();
    if count == 0 || count > MOST_DIGITS || value >= states {
        return None;
    }
    Some((value, rest))
}

fn digit_of(byte: u8) -> Option<u64>
    ensures { IfSome result (λ digit. (digit_value byte ≡ digit) × (digit < 10)) }
{
    if byte < b'0' || byte > b'9' {
        return None;
    }
    Some((byte - b'0') as u64)
}

/// The bytes between these two, where they are the first and the last but for blanks.
fn between(bytes: &[u8], first: u8, last: u8) -> Option<&[u8]>
    requires first { is_blank first ≡ false }
    requires last { is_blank last ≡ false }
    ensures { IfSome result (λ inner. trimmed bytes.now ≡ first ∷ (inner.now ++ last ∷ [])) }
{
    match bytes {
        // most lines have no blanks
        [front, inner @ .., back] if *front == first && *back == last => Some(inner),
        _ => between_blanks(bytes, first, last),
    }
}

/// The same, where blanks may stand before and after.
fn between_blanks(bytes: &[u8], first: u8, last: u8) -> Option<&[u8]>
    ensures { IfSome result (λ inner. trimmed bytes.now ≡ first ∷ (inner.now ++ last ∷ [])) }
{
    match trim(bytes) {
        [front, inner @ .., back] if *front == first && *back == last => Some(inner),
        _ => None,
    }
}

/// The bytes before the digits at the back, and those digits.
fn cut_digits(bytes: &[u8]) -> (&[u8], &[u8])
    ensures { bytes.now ≡ result.0.now ++ result.1.now }
{
    let mut front = bytes;
    while let [others @ .., last] = front {
        if !last.is_ascii_digit() {
            break;
        }
        front = others;
    }
    bytes.split_at(front.len())
}

/// The decimal that these bytes are, where it is below the states; it may be said wrongly that they
/// are none.
fn whole_number(bytes: &[u8], states: u64) -> Option<u64>
    ensures { IfSome result (λ n. plain.HasNumber states bytes.now n []) }
{
    match number(bytes, states)? {
        (value, []) => Some(value),
        _ => None,
    }
}

/// The ends of the move and the bytes between its first and its last comma; it may be said wrongly
/// that there are none.
pub(crate) fn plain_parts(text: &[u8], states: u64) -> Option<(u64, &[u8], u64)>
    ensures { IfSome result (λ m. plain.IsPlainText states text.now m.0 m.1.now m.2) }
{
    let inner = between(text, b'(', b')')?;
    let (from, others) = number(trim(inner), states)?;
    let (front, digits) = cut_digits(others);
    let middle = between(front, b',', b',')?;
    let to = whole_number(digits, states)?;
    Some((from, middle, to))
}
