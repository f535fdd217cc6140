//! The line of a move.
ghost use Rattle.lts_base.specs.declared.limits.TheConstants.{MOST_LABEL_BYTES, MOST_LINE_BYTES, MOST_STATES};
ghost use Rattle.std.specs.Prelude.{◌≡◌, ◌≤◌, ◌<◌, true, length, option_map, IsTrue, IsFalse, MatchResult, OnErr};
ghost use Rattle.lts_base.specs.Alphabet.{IsLabel};
ghost use Rattle.text_scan.specs.Lines as lines;
ghost use Rattle.aut_text.specs.Parts.{named_moves};
ghost use Rattle.aut_text.specs.Form as form;
ghost use Rattle.aut_text.specs.Grammar as grammar;
ghost use Rattle.aut_text.specs.Faults.{IsLineFault};
ghost use Rattle.aut_text.specs.Reading.{IsNextMove, AddsLine};

use crate::error::AutError;
use crate::form::{label_in, move_of};
use crate::parts::RawParts;
use crate::plain::plain_parts;
use lts_base::limits::{MOST_LABEL_BYTES, MOST_LINE_BYTES, MOST_MOVES};
use std::str;
use text_scan::{trim, without_cr};

/// Whether the line isn't one of blanks alone.
pub(crate) fn is_text(line: &[u8]) -> bool
    ensures { result ≡ grammar.is_text line.now }
{
    !trim(without_cr(line)).is_empty()
}

/// Adds the move of line `number`, unless the line is blank.
pub(crate) fn add_line(
    parts: &mut RawParts,
    line: &[u8],
    number: u32,
    states: u64,
) -> Result<(), AutError>
    requires { states ≤ MOST_STATES }
    ensures added { MatchResult result (λ _. AddsLine states line.now (named_moves parts.old) (named_moves parts.new)) (λ e. (grammar.is_text line.now ≡ true) × IsLineFault states (length parts.old.moves) line.now number e) }
    ensures kept { OnErr result (parts.new ≡ parts.old) }
{
    if add_plain(parts, line, states) {
        return Ok(());
    }
    add_text(parts, line, number, states)
}

/// Adds the move of a line in the plain form, whose label is that of a move before it or Tau; false
/// where the line is another.
fn add_plain(parts: &mut RawParts, line: &[u8], states: u64) -> bool
    requires { states ≤ MOST_STATES }
    ensures added { IsTrue result → AddsLine states line.now (named_moves parts.old) (named_moves parts.new) }
    ensures not { IsFalse result → parts.new ≡ parts.old }
{
    if line.len() > MOST_LINE_BYTES || parts.count() >= MOST_MOVES as usize {
        return false;
    }
    let Some((from, middle, to)) = plain_parts(without_cr(line), states) else {
        return false;
    };
    parts.push_known(from as u32, visible(label_in(middle)), to as u32)
}

/// Adds the move of line `number`, whatever its form, unless the line is blank.
fn add_text(parts: &mut RawParts, line: &[u8], number: u32, states: u64) -> Result<(), AutError>
    requires { states ≤ MOST_STATES }
    ensures added { MatchResult result (λ _. AddsLine states line.now (named_moves parts.old) (named_moves parts.new)) (λ e. (grammar.is_text line.now ≡ true) × IsLineFault states (length parts.old.moves) line.now number e) }
    ensures kept { OnErr result (parts.new ≡ parts.old) }
{
    if !is_text(line) {
        return Ok(());
    }
    let (from, label, to) = read_move(line, number, parts.count(), states)?;
    parts.push(from, visible(label), to)?;
    Ok(())
}

/// The move that line `number` writes; `count` moves stand before it.
pub(crate) fn read_move(
    line: &[u8],
    number: u32,
    count: usize,
    states: u64,
) -> Result<(u32, &[u8], u32), AutError>
    requires { states ≤ MOST_STATES }
    ensures { MatchResult result (λ m. IsNextMove states count line.now (record { from = m.0; label = m.1.now; to = m.2 })) (IsLineFault states count line.now number) }
{
    if line.len() > MOST_LINE_BYTES {
        return Err(AutError::Line(number));
    }
    let text = without_cr(line);
    if str::from_utf8(text).is_err() {
        return Err(AutError::NotUtf8(number));
    }
    let Some((from, label, to)) = move_of(text) else {
        return Err(AutError::Line(number));
    };
    if count >= MOST_MOVES as usize {
        return Err(AutError::TooManyMoves);
    }
    if from >= states {
        return Err(AutError::State(number));
    }
    if to >= states {
        return Err(AutError::State(number));
    }
    if label.len() > MOST_LABEL_BYTES {
        return Err(AutError::LabelLong(number));
    }
    Ok((from as u32, label, to as u32))
}

/// The label, unless it is that of the internal action.
fn visible(label: &[u8]) -> Option<&[u8]>
    ensures { option_map (λ text. text.now) result ≡ form.visible label.now }
{
    match label {
        b"i" => None,
        b"tau" => None,
        text => Some(text),
    }
}
