//! Lines of a relation.
ghost use Rattle.std.specs.Prelude.{◌≡◌, ℕ, ◌∷◌, ◌++◌, ◌+◌, ◌^◌, ◌<◌, [], length, codes, decimal, IsTrue, ◌↔◌, MatchOption};
ghost use Rattle.lts_base.specs.Alphabet.{Alphabet};
ghost use Rattle.cert_text.specs.Numbers.{NamesNoPair, places_text};
ghost use Rattle.cert_text.specs.Printed.{spaced};
ghost use Rattle.cert_text.specs.Adding.{Reads};

use crate::cert::{Cert, CertBody};
use crate::error::CertError;
use crate::listing::list_of;
use crate::number::{is_count, place_in};
use crate::packed::PackedRelation;
use crate::piece::{after_word, next_piece};
use crate::stage::Stage;
use lts_base::Mode;
use std::alloc::Global;

/// What line `number` adds to a relation.
pub fn read_pairing(
    alloc: Global,
    mode: Mode,
    relation: PackedRelation,
    line: &[u8],
    imp_states: u32,
    spec_states: u32,
    number: u32,
) -> Result<Stage, CertError>
    requires left { length relation.left < 2 ^ 32 }
    requires right { length relation.right < 2 ^ 32 }
    ensures { (a : Alphabet) → Reads a imp_states spec_states (Stage.Pairing mode relation) line.now number result }
{
    if let Some(text) = after_word(line, b"left") {
        return add_left(alloc, mode, relation, text, imp_states, number);
    }
    if let Some(text) = after_word(line, b"right") {
        return add_right(alloc, mode, relation, text, spec_states, number);
    }
    if let Some(text) = after_word(line, b"pair") {
        return add_pair(mode, relation, text, number);
    }
    if let Some(text) = after_word(line, b"end") {
        return end_relation(mode, relation, text, number);
    }
    Err(CertError::Line(number))
}

fn add_left(
    alloc: Global,
    mode: Mode,
    relation: PackedRelation,
    text: &[u8],
    imp_states: u32,
    number: u32,
) -> Result<Stage, CertError>
    ensures { (a : Alphabet) (spec : ℕ) → Reads a imp_states spec (Stage.Pairing mode relation) (codes "left" ++ text.now) number result }
{
    if relation.right().len() != 0 {
        return Err(CertError::Line(number));
    }
    if !relation.pairs().is_empty() {
        return Err(CertError::Line(number));
    }
    let states = list_of(alloc, text, imp_states, number)?;
    let mut longer = relation;
    longer.push_left(states.as_slice())?;
    Ok(Stage::Pairing(mode, longer))
}

fn add_right(
    alloc: Global,
    mode: Mode,
    relation: PackedRelation,
    text: &[u8],
    spec_states: u32,
    number: u32,
) -> Result<Stage, CertError>
    ensures { (a : Alphabet) (imp : ℕ) → Reads a imp spec_states (Stage.Pairing mode relation) (codes "right" ++ text.now) number result }
{
    if !relation.pairs().is_empty() {
        return Err(CertError::Line(number));
    }
    let states = list_of(alloc, text, spec_states, number)?;
    let mut longer = relation;
    longer.push_right(states.as_slice())?;
    Ok(Stage::Pairing(mode, longer))
}

fn add_pair(
    mode: Mode,
    relation: PackedRelation,
    text: &[u8],
    number: u32,
) -> Result<Stage, CertError>
    requires left { length relation.left < 2 ^ 32 }
    requires right { length relation.right < 2 ^ 32 }
    ensures { (a : Alphabet) (imp spec : ℕ) → Reads a imp spec (Stage.Pairing mode relation) (codes "pair" ++ text.now) number result }
{
    let Some(pair) = pair_in(text, relation.left().len(), relation.right().len()) else {
        return Err(CertError::Line(number));
    };
    let mut longer = relation;
    longer.push_pair(pair)?;
    Ok(Stage::Pairing(mode, longer))
}

/// The pair of places from 0 that the text names from 1, among so many on the left and on the right.
fn pair_in(text: &[u8], lefts: usize, rights: usize) -> Option<(u32, u32)>
    requires left { lefts < 2 ^ 32 }
    requires right { rights < 2 ^ 32 }
    ensures { MatchOption result (NamesNoPair lefts rights text.now) (λ p. (p.0 < lefts) × (p.1 < rights) × (text.now ≡ places_text p.0 p.1)) }
{
    let Some((first, others)) = next_piece(text) else {
        return None;
    };
    let Some((second, rest)) = next_piece(others) else {
        return None;
    };
    if !rest.is_empty() {
        return None;
    }
    let Some(left) = place_in(first, lefts) else {
        return None;
    };
    let Some(right) = place_in(second, rights) else {
        return None;
    };
    Some((left, right))
}

fn end_relation(
    mode: Mode,
    relation: PackedRelation,
    text: &[u8],
    number: u32,
) -> Result<Stage, CertError>
    ensures { (a : Alphabet) (imp spec : ℕ) → Reads a imp spec (Stage.Pairing mode relation) (codes "end" ++ text.now) number result }
{
    if !is_end(text, relation.pairs().len()) {
        return Err(CertError::Line(number));
    }
    Ok(Stage::Ended(Cert {
        mode,
        body: CertBody::Related(relation),
    }))
}

/// Whether the text is this number after a space.
pub fn is_end(text: &[u8], count: usize) -> bool
    ensures { IsTrue result ↔ text.now ≡ spaced (decimal count ∷ []) }
{
    let Some((piece, rest)) = next_piece(text) else {
        return false;
    };
    if !rest.is_empty() {
        return false;
    }
    is_count(piece, count)
}
