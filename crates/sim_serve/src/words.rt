//! The words of the simulated implementation.
ghost use Rattle.std.specs.Prelude.{◌≡◌, ℕ, map, MatchOption};
ghost use Rattle.std.specs.String.{string_bytes};
ghost use Rattle.sim_serve.specs.Asked.{Asked, AsksFor, IsNoRequest, IsRequest, IsSessions, request_from};

use crate::limits::MOST_SESSIONS;
use text_scan::decimal;

/// What the words ask for.
#[derive(Clone, Copy, Debug)]
pub(crate) struct Request<'a> {
    /// The file of the implementation.
    pub(crate) imp: &'a str,
    /// The address at which testers come in.
    pub(crate) address: &'a str,
    /// The number of the first session's generator.
    pub(crate) number: u64,
    /// How many sessions.
    pub(crate) sessions: u32,
}

/// What the words ask for; None where they are refused.
pub(crate) fn read_request<'a>(words: &'a [String]) -> Option<Request<'a>>
    ensures { MatchOption result (IsNoRequest (map string_bytes words.entry.now)) (λ q. AsksFor (map string_bytes words.entry.now) (request_from q)) }
{
    match words {
        [imp, address, number, sessions] => read_four(
            imp.as_str(),
            address.as_str(),
            number.as_bytes(),
            sessions.as_bytes(),
        ),
        _ => None,
    }
}

/// What four words ask for.
fn read_four<'a>(
    imp: &'a str,
    address: &'a str,
    number: &[u8],
    sessions: &[u8],
) -> Option<Request<'a>>
    ensures { MatchOption result ((asked : Asked) → ¬ IsRequest imp.entry.now address.entry.now number.now sessions.now asked)
        (λ q. IsRequest imp.entry.now address.entry.now number.now sessions.now (request_from q)) }
{
    if imp.is_empty() {
        return None;
    }
    if address.is_empty() {
        return None;
    }
    let Some(number) = decimal(number) else {
        return None;
    };
    let Some(sessions) = sessions_of(sessions) else {
        return None;
    };
    Some(Request {
        imp,
        address,
        number,
        sessions,
    })
}

/// The number of sessions that a word tells.
fn sessions_of(word: &[u8]) -> Option<u32>
    ensures { MatchOption result ((count : ℕ) → ¬ IsSessions word.now count) (IsSessions word.now) }
{
    let Some(number) = decimal(word) else {
        return None;
    };
    if number == 0 {
        return None;
    }
    if number > u64::from(MOST_SESSIONS) {
        return None;
    }
    Some(number as u32)
}
