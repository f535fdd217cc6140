//! Lists of states, as texts.
ghost use Rattle.std.specs.Prelude.{◌≡◌, ◌↔◌, ◌∷◌, ◌++◌, ◌<◌, List, ℕ, length, IsTrue, IfSome, MatchOption, MatchResult};
ghost use Rattle.cert_text.specs.Numbers.{IsNumber, IsNumberList, LacksNumber, HasLarge, AreNumbers, AreStatesOf, IsListOf, IsListFault, IsPiece};

use crate::error::CertError;
use crate::number::{below, is_less, is_number};
use crate::piece::next_piece;
use lts_base::{Listed, Memory, StateList};
use std::alloc::Global;

/// The list of states that the text of line `number` gives, each after a space.
pub fn list_of(alloc: Global, text: &[u8], bound: u32, number: u32) -> Result<StateList, CertError>
    ensures { MatchResult result (IsListOf bound text.now) (IsListFault bound text.now number) }
{
    if !is_list(text) {
        return Err(CertError::Line(number));
    }
    let found = states_in(alloc, text, bound)?;
    match found {
        Some(states) => Ok(states),
        None => Err(CertError::StateRange(number)),
    }
}

/// Whether the text is a list of numbers, each greater than the one before.
fn is_list(text: &[u8]) -> bool
    ensures { IsTrue result ↔ IsNumberList text.now }
{
    let Some((first, others)) = next_number(text) else {
        return false;
    };
    let mut last = first;
    let mut rest = others;
    'rest: while !rest.is_empty() {
        let Some((next, after)) = next_number(rest) else {
            return false;
        };
        if !is_less(last, next) {
            return false;
        }
        last = next;
        rest = after;
    }
    true
}

/// The number after the space at the front, and what follows it.
fn next_number(text: &[u8]) -> Option<(&[u8], &[u8])>
    ensures number { MatchOption result (LacksNumber text.now) (λ cut. IsPiece text.now cut.0.now cut.1.now × IsNumber cut.0.now) }
    ensures shorter { IfSome result (λ cut. length cut.1.now < length text.now) }
{
    let Some((piece, rest)) = next_piece(text) else {
        return None;
    };
    if !is_number(piece) {
        return None;
    }
    Some((piece, rest))
}

/// The states that the text lists; None where one of them isn't below the bound.
fn states_in(alloc: Global, text: &[u8], bound: u32) -> Result<Option<StateList>, Memory>
    requires { AreNumbers text.now }
    ensures { MatchResult result (λ found. MatchOption found (HasLarge bound text.now) (AreStatesOf bound text.now)) (λ _. Unit {0}) }
{
    let mut states = Listed::new(alloc);
    let mut rest = text;
    while let Some((piece, after)) = next_piece(rest) {
        let Some(state) = below(piece, bound) else {
            return Ok(None);
        };
        states.push(state)?;
        rest = after;
    }
    Ok(Some(states))
}
