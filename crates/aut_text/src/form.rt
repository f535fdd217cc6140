//! The forms of a header and of a move, without any limit.
ghost use Rattle.std.specs.Prelude.{◌≡◌, ℕ, MatchOption, ◌↔◌, IsTrue};
ghost use Rattle.text_scan.specs.Blank.{trimmed};
ghost use Rattle.aut_text.specs.Form as form;

use crate::header::Header;
use text_scan::{cut_at, cut_at_last, decimal, is_plain, trim};

fn opening(bytes: &[u8]) -> Option<u64>
    ensures { MatchOption result ((n : ℕ) → form.IsOpening bytes.now n → ⊥) (form.IsOpening bytes.now) }
{
    let Some(digits) = trim(bytes).strip_prefix(b"(") else {
        return None;
    };
    decimal(trim(digits))
}

fn closing(bytes: &[u8]) -> Option<u64>
    ensures { MatchOption result ((n : ℕ) → form.IsClosing bytes.now n → ⊥) (form.IsClosing bytes.now) }
{
    let Some(digits) = trim(bytes).strip_suffix(b")") else {
        return None;
    };
    decimal(trim(digits))
}

fn beginning(bytes: &[u8]) -> Option<u64>
    ensures { MatchOption result ((n : ℕ) → form.IsBeginning bytes.now n → ⊥) (form.IsBeginning bytes.now) }
{
    let Some(rest) = trim(bytes).strip_prefix(b"des") else {
        return None;
    };
    opening(rest)
}

/// The numbers of a header.
pub(crate) fn header_of(text: &[u8]) -> Option<Header>
    ensures { MatchOption result ((h : _) → form.IsHeader text.now h → ⊥) (form.IsHeader text.now) }
{
    let Some((front, others)) = cut_at(text, b',') else {
        return None;
    };
    let Some((middle, back)) = cut_at(others, b',') else {
        return None;
    };
    let Some(start) = beginning(front) else {
        return None;
    };
    let Some(transitions) = decimal(trim(middle)) else {
        return None;
    };
    let Some(states) = closing(back) else {
        return None;
    };
    Some(Header {
        start,
        transitions,
        states,
    })
}

fn is_quoted(text: &[u8]) -> bool
    ensures { result ≡ form.is_quoted text.now }
{
    if text.len() < 2 {
        return false;
    }
    if text[0] != b'"' {
        return false;
    }
    text[text.len() - 1] == b'"'
}

/// The label between a move's commas.
pub(crate) fn label_in(middle: &[u8]) -> &[u8]
    ensures { result.now ≡ form.label_in middle.now }
{
    let text = trim(middle);
    if is_quoted(text) {
        return &text[1..text.len() - 1];
    }
    text
}

fn has_label(label: &[u8]) -> bool
    ensures { IsTrue result ↔ form.HasLabel label.now }
{
    if label.is_empty() {
        return false;
    }
    is_plain(label)
}

/// The numbers of a move's ends, and the label between them.
pub(crate) fn move_of(text: &[u8]) -> Option<(u64, &[u8], u64)>
    ensures { MatchOption result ((w : _) → form.IsMove text.now w → ⊥) (λ m. form.IsMove text.now (record { from = m.0; label = m.1.now; to = m.2 })) }
{
    let Some((front, others)) = cut_at(text, b',') else {
        return None;
    };
    let Some((middle, back)) = cut_at_last(others, b',') else {
        return None;
    };
    let Some(from) = opening(front) else {
        return None;
    };
    let label = label_in(middle);
    if !has_label(label) {
        return None;
    }
    let Some(to) = closing(back) else {
        return None;
    };
    Some((from, label, to))
}
