//! Numbers of any size, as texts.
ghost use Rattle.std.specs.Prelude.{◌≡◌, ◌↔◌, ℕ, ◌+◌, ◌^◌, ◌<◌, ◌≤◌, IsTrue, MatchOption, decimal};
ghost use Rattle.std.specs.Char.{is_ascii_digit};
ghost use Rattle.std.specs.List.{list_all};
ghost use Rattle.cert_text.specs.Numbers.{IsNumber, value_of};

use std::cmp::Ordering;
use text_scan::decimal;

/// Whether the text is a number: digits without a needless zero at the front.
pub fn is_number(text: &[u8]) -> bool
    ensures { IsTrue result ↔ IsNumber text.now }
{
    if text.is_empty() {
        return false;
    }
    if text.len() == 1 {
        return are_digits(text);
    }
    if text[0] == b'0' {
        return false;
    }
    are_digits(text)
}

fn are_digits(text: &[u8]) -> bool
    ensures { result ≡ list_all is_ascii_digit text.now }
{
    text.iter().all(|b| is_digit(*b))
}

fn is_digit(byte: u8) -> bool
    ensures { result ≡ is_ascii_digit byte }
{
    byte.is_ascii_digit()
}

/// Whether the first number is less than the second one.
pub fn is_less(first: &[u8], second: &[u8]) -> bool
    requires first { IsNumber first.now }
    requires second { IsNumber second.now }
    ensures { IsTrue result ↔ value_of first.now < value_of second.now }
{
    if first.len() < second.len() {
        return true;
    }
    if second.len() < first.len() {
        return false;
    }
    match first.cmp(second) {
        Ordering::Less => true,
        Ordering::Equal => false,
        Ordering::Greater => false,
    }
}

/// The value of a number, where it is below 2^64.
fn value(text: &[u8]) -> Option<u64>
    requires { IsNumber text.now }
    ensures { MatchOption result (2 ^ 64 ≤ value_of text.now) (λ n. (n ≡ value_of text.now) × (text.now ≡ decimal n)) }
{
    decimal(text)
}

/// The number, where it is below the bound.
pub fn below(text: &[u8], bound: u32) -> Option<u32>
    requires { IsNumber text.now }
    ensures { MatchOption result (bound ≤ value_of text.now) (λ q. (q < bound) × (text.now ≡ decimal q)) }
{
    match value(text) {
        None => None,
        Some(n) => {
            if n >= bound as u64 {
                return None;
            }
            Some(n as u32)
        }
    }
}

/// The place from 0 that the text names from 1, where it is one of so many.
pub fn place_in(text: &[u8], most: usize) -> Option<u32>
    requires { most < 2 ^ 32 }
    ensures { MatchOption result ((i : ℕ) → i < most → text.now ≡ decimal (i + 1) → ⊥) (λ i. (i < most) × (text.now ≡ decimal (i + 1))) }
{
    if !is_number(text) {
        return None;
    }
    match value(text) {
        None => None,
        Some(n) => {
            if n == 0 {
                return None;
            }
            let last = most as u64;
            if n > last {
                return None;
            }
            Some((n - 1) as u32)
        }
    }
}

/// Whether the text is this number.
pub fn is_count(text: &[u8], count: usize) -> bool
    ensures { IsTrue result ↔ text.now ≡ decimal count }
{
    if !is_number(text) {
        return false;
    }
    match value(text) {
        None => false,
        Some(n) => n == count as u64,
    }
}
