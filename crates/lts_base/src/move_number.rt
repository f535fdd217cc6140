//! A move as one number: the state that it leaves, what it carries, the state that it leads to.
ghost use Rattle.std.specs.Prelude.{◌≡◌, ◌<◌, IfSome};
ghost use Rattle.lts_base.specs.MoveNumber.{label_of, unpacked};

use crate::raw::RawMove;

/// The states of a move that has a number are below this.
const STATES: u64 = 1_048_576;

/// The codes of labels of a move that has a number are below this.
const CODES: u64 = 16_777_216;

/// The number that stands for the move, where there is one.
#[inline(always)]
pub(crate) fn pack(m: RawMove) -> Option<u64>
    ensures { IfSome result (λ n. unpacked n ≡ m) }
{
    let from = m.from as u64;
    let to = m.to as u64;
    let code = code_of(m.label);
    if from < STATES && code < CODES && to < STATES {
        return Some((from * CODES + code) * STATES + to);
    }
    None
}

/// The move that the number stands for.
#[inline(always)]
pub(crate) fn unpack(number: u64) -> RawMove
    ensures { result ≡ unpacked number }
{
    let rest = number / STATES;
    RawMove {
        from: (rest / CODES) as u32,
        label: label_of(rest % CODES),
        to: (number % STATES) as u32,
    }
}

#[inline(always)]
fn label_of(code: u64) -> Option<u32>
    requires { code < CODES }
    ensures { result ≡ label_of code }
{
    if code == 0 {
        return None;
    }
    Some((code - 1) as u32)
}

#[inline(always)]
fn code_of(label: Option<u32>) -> u64
    ensures { label_of result ≡ label }
{
    match label {
        None => 0,
        Some(label) => label as u64 + 1,
    }
}
