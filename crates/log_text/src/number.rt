//! Numbers without a needless zero at the front.
ghost use Rattle.std.specs.Prelude.{◌≡◌, ◌≢◌, ◌↔◌, ℕ, ◌^◌, ◌<◌, ◌≤◌, length, IsTrue, MatchOption, decimal, slice_index_or as get_or};
ghost use Rattle.log_text.specs.Logs.{IsOneTo};

use text_scan::decimal;

/// Whether the text begins with a zero and goes on.
fn has_needless_zero(text: &[u8]) -> bool
    ensures { IsTrue result ↔ ((get_or text.now 0 0 ≡ 48) × (length text.now ≢ 1)) }
{
    if text.is_empty() {
        return false;
    }
    if text[0] != b'0' {
        return false;
    }
    text.len() != 1
}

/// The number of the text, where it is at most this.
pub fn number_to(text: &[u8], most: u32) -> Option<u32>
    ensures { MatchOption result ((n : ℕ) → n ≤ most → ¬ (text.now ≡ decimal n)) (λ n. (n ≤ most) × (text.now ≡ decimal n)) }
{
    if has_needless_zero(text) {
        return None;
    }
    match decimal(text) {
        None => None,
        Some(n) => {
            if n > most as u64 {
                return None;
            }
            Some(n as u32)
        }
    }
}

/// The number of the text, where it is one from 1 to this.
pub fn number_from_one(text: &[u8], most: u32) -> Option<u32>
    ensures { MatchOption result ((n : ℕ) → IsOneTo most n → ¬ (text.now ≡ decimal n)) (λ n. IsOneTo most n × (text.now ≡ decimal n)) }
{
    match number_to(text, most) {
        None => None,
        Some(n) => {
            if n == 0 {
                return None;
            }
            Some(n)
        }
    }
}

/// Whether the text is this number.
pub fn is_number(text: &[u8], number: usize) -> bool
    requires { number < 2 ^ 32 }
    ensures { IsTrue result ↔ text.now ≡ decimal number }
{
    match number_to(text, number as u32) {
        None => false,
        Some(n) => n as usize == number,
    }
}
