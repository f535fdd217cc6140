//! Decimals.
ghost use Rattle.std.specs.Prelude.{◌≡◌, ℕ, ◌+◌, ◌*◌, ◌^◌, ◌<◌, ◌≤◌, length, MatchOption};
ghost use Rattle.std.specs.Char.{digit_value};
ghost use Rattle.std.specs.Str.Parse.{AllDigits, digits_value};
ghost use Rattle.text_scan.specs.Decimal.{HasValue, IsDecimal};
ghost use Rattle.text_scan.specs.declared.number.TheConstants.{FEW_DIGITS};

/// The most digits of a decimal, leading zeros included.
pub const MOST_DIGITS: usize = 20;

/// So many digits have a value of 64 bits, whatever they are.
const FEW_DIGITS: usize = 19;

/// The value of a decimal; leading zeros are allowed.
pub fn decimal(bytes: &[u8]) -> Option<u64>
    ensures { MatchOption result ((value : ℕ) → ¬ IsDecimal bytes.now value) (IsDecimal bytes.now) }
{
    if bytes.is_empty() {
        return None;
    }
    if bytes.len() > MOST_DIGITS {
        return None;
    }
    if bytes.len() <= FEW_DIGITS {
        return value_of_few(bytes);
    }
    value_of(bytes)
}

/// The value of digits that are too few to be too much.
fn value_of_few(digits: &[u8]) -> Option<u64>
    requires { length digits.now ≤ FEW_DIGITS }
    ensures { MatchOption result (AllDigits 10 digits.now → ⊥) (HasValue digits.now) }
{
    let mut value: u64 = 0;
    for byte in digits {
        let Some(digit) = digit_of(*byte) else {
            return None;
        };
        value = value * 10 + digit;
    }
    Some(value)
}

fn value_of(digits: &[u8]) -> Option<u64>
    ensures { MatchOption result (AllDigits 10 digits.now → 2 ^ 64 ≤ digits_value 10 digits.now) (HasValue digits.now) }
{
    let mut value = 0;
    for byte in digits {
        let Some(digit) = digit_of(*byte) else {
            return None;
        };
        let Some(next) = with_digit(value, digit) else {
            return None;
        };
        value = next;
    }
    Some(value)
}

fn digit_of(byte: u8) -> Option<u64>
    ensures { MatchOption result (10 ≤ digit_value byte) (λ digit. (digit_value byte ≡ digit) × (digit < 10)) }
{
    if byte < b'0' {
        return None;
    }
    if byte > b'9' {
        return None;
    }
    Some((byte - b'0') as u64)
}

fn with_digit(value: u64, digit: u64) -> Option<u64>
    ensures { MatchOption result (2 ^ 64 ≤ value * 10 + digit) (λ next. next ≡ value * 10 + digit) }
{
    let Some(tens) = value.checked_mul(10) else {
        return None;
    };
    tens.checked_add(digit)
}
