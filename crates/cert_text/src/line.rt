//! The lines of a certificate, one by one.
ghost use Rattle.std.specs.Prelude.{◌≡◌, ℕ, ◌^◌, ◌<◌, length, MatchOption};
ghost use Rattle.lts_base.specs.Alphabet.{Alphabet};
ghost use Rattle.cert_text.specs.Printed.{lines_at, mode_line};
ghost use Rattle.cert_text.specs.Adding.{Reads};

use crate::error::CertError;
use crate::packed::PackedRelation;
use crate::pairing::read_pairing;
use crate::piece::is_text;
use crate::stage::Stage;
use crate::tracing::{read_showing, read_tracing};
use lts_base::{Labels, Listed, Mode};
use std::alloc::Global;

/// What line `number` adds to what has been read.
pub fn read_line(
    alloc: Global,
    stage: Stage,
    line: &[u8],
    labels: &Labels,
    imp_states: u32,
    spec_states: u32,
    number: u32,
) -> Result<Stage, CertError>
    requires { length (lines_at labels.now.texts stage) < 2 ^ 32 }
    ensures { Reads labels.now imp_states spec_states stage line.now number result }
{
    match stage {
        Stage::Opening => read_opening(line, number),
        Stage::Titled => read_titled(line, number),
        Stage::Moded(mode) => read_moded(alloc, mode, line, number),
        Stage::Pairing(mode, relation) => read_pairing(
            alloc,
            mode,
            relation,
            line,
            imp_states,
            spec_states,
            number,
        ),
        Stage::Tracing(mode, trace) => read_tracing(mode, trace, line, labels, number),
        Stage::Showing(mode, trace, shown) => read_showing(mode, trace, shown, line, number),
        Stage::Ended(_) => Err(CertError::Line(number)),
    }
}

fn read_opening(line: &[u8], number: u32) -> Result<Stage, CertError>
    ensures { (a : Alphabet) (imp spec : ℕ) → Reads a imp spec Stage.Opening line.now number result }
{
    if !is_text(line, b"torx certificate 1") {
        return Err(CertError::Line(number));
    }
    Ok(Stage::Titled)
}

fn read_titled(line: &[u8], number: u32) -> Result<Stage, CertError>
    ensures { (a : Alphabet) (imp spec : ℕ) → Reads a imp spec Stage.Titled line.now number result }
{
    match mode_of(line) {
        Some(mode) => Ok(Stage::Moded(mode)),
        None => Err(CertError::Line(number)),
    }
}

/// The mode that the line names.
fn mode_of(line: &[u8]) -> Option<Mode>
    ensures { MatchOption result ((mode : Mode) → line.now ≡ mode_line mode → ⊥) (λ mode. line.now ≡ mode_line mode) }
{
    if is_text(line, b"mode ioco") {
        return Some(Mode::Ioco);
    }
    if is_text(line, b"mode uioco") {
        return Some(Mode::Uioco);
    }
    None
}

fn read_moded(alloc: Global, mode: Mode, line: &[u8], number: u32) -> Result<Stage, CertError>
    ensures { (a : Alphabet) (imp spec : ℕ) → Reads a imp spec (Stage.Moded mode) line.now number result }
{
    if is_text(line, b"kind relation") {
        return Ok(Stage::Pairing(mode, PackedRelation::new(alloc)));
    }
    if is_text(line, b"kind trace") {
        return Ok(Stage::Tracing(mode, Listed::new(alloc)));
    }
    Err(CertError::Line(number))
}
