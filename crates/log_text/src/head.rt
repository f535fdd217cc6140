//! The lines of a log before its entries.
ghost use Rattle.std.specs.Prelude.{◌≡◌, ◌⊎◌, ℕ, MatchOption, MatchResult};
ghost use Rattle.lts_base.specs.declared.item.Mode.{Mode as TheMode};
ghost use Rattle.lts_base.specs.declared.divergence.Divergence.{Divergence as TheDivergence};
ghost use Rattle.log_text.specs.Printed.{mode_line, divergence_line};
ghost use Rattle.log_text.specs.Adding.{Reads};

use crate::digest::digest_named;
use crate::error::LogError;
use crate::limits::{MOST_PATIENCE, MOST_STEPS};
use crate::log::Head;
use crate::number::number_from_one;
use crate::piece::{after_word, is_text};
use crate::stage::{Setting, Stage, Step};
use lts_base::{Divergence, Listed, Mode};
use std::alloc::Global;

/// What the first line of a log says. At the first line of all, a text that is no title is of no
/// version.
pub fn read_title(line: &[u8], number: u32) -> Result<Step, LogError>
    ensures { Reads Stage.Opening line.now number result }
{
    if is_text(line, b"torx log 1") {
        return Ok(Step::Goes(Stage::TitledOne));
    }
    if is_text(line, b"torx log 2") {
        return Ok(Step::Goes(Stage::TitledTwo));
    }
    if number == 1 {
        return Err(LogError::Version);
    }
    Err(LogError::Line(number))
}

/// The mode that the line names.
fn mode_of(line: &[u8]) -> Option<Mode>
    ensures { MatchOption result ((mode : TheMode) → ¬ (line.now ≡ mode_line mode)) (λ mode. line.now ≡ mode_line mode) }
{
    if is_text(line, b"mode ioco") {
        return Some(Mode::Ioco);
    }
    if is_text(line, b"mode uioco") {
        return Some(Mode::Uioco);
    }
    None
}

/// The mode of a log of version 1.
pub fn read_mode_one(line: &[u8], number: u32) -> Result<Step, LogError>
    ensures { Reads Stage.TitledOne line.now number result }
{
    match mode_of(line) {
        Some(mode) => Ok(Step::Goes(Stage::Headed(Head::One, mode))),
        None => Err(LogError::Line(number)),
    }
}

/// The mode of a log of version 2.
pub fn read_mode_two(line: &[u8], number: u32) -> Result<Step, LogError>
    ensures { Reads Stage.TitledTwo line.now number result }
{
    match mode_of(line) {
        Some(mode) => Ok(Step::Goes(Stage::Moded(mode))),
        None => Err(LogError::Line(number)),
    }
}

/// How divergence was read, by the line that tells it.
fn divergence_of(line: &[u8]) -> Option<Divergence>
    ensures { MatchOption result ((v : TheDivergence) → ¬ (line.now ≡ divergence_line v)) (λ v. line.now ≡ divergence_line v) }
{
    if is_text(line, b"divergence refuse") {
        return Some(Divergence::Refuse);
    }
    if is_text(line, b"divergence quiet") {
        return Some(Divergence::Quiet);
    }
    None
}

/// How divergence was read.
pub fn read_divergence(mode: Mode, line: &[u8], number: u32) -> Result<Step, LogError>
    ensures { Reads (Stage.Moded mode) line.now number result }
{
    match divergence_of(line) {
        Some(divergence) => Ok(Step::Goes(Stage::Divided(mode, divergence))),
        None => Err(LogError::Line(number)),
    }
}

/// The digest of the specification.
pub fn read_spec(
    alloc: Global,
    mode: Mode,
    divergence: Divergence,
    line: &[u8],
    number: u32,
) -> Result<Step, LogError>
    ensures { Reads (Stage.Divided mode divergence) line.now number result }
{
    let Some(text) = after_word(line, b"spec ") else {
        return Err(LogError::Line(number));
    };
    let named = digest_named(alloc, text)?;
    match named {
        None => Err(LogError::Line(number)),
        Some(spec) => Ok(Step::Goes(Stage::Headed(Head::Two { divergence, spec }, mode))),
    }
}

/// The patience.
pub fn read_patience(head: Head, mode: Mode, line: &[u8], number: u32) -> Result<Step, LogError>
    ensures { Reads (Stage.Headed head mode) line.now number result }
{
    let Some(text) = after_word(line, b"patience ") else {
        return Err(LogError::Line(number));
    };
    match number_from_one(text, MOST_PATIENCE) {
        None => Err(LogError::Line(number)),
        Some(patience) => Ok(Step::Goes(Stage::Patient(head, mode, patience))),
    }
}

/// The most steps.
pub fn read_steps(
    alloc: Global,
    head: Head,
    mode: Mode,
    patience: u32,
    line: &[u8],
    number: u32,
) -> Result<Step, LogError>
    ensures { Reads (Stage.Patient head mode patience) line.now number result }
{
    let Some(text) = after_word(line, b"steps ") else {
        return Err(LogError::Line(number));
    };
    match number_from_one(text, MOST_STEPS) {
        None => Err(LogError::Line(number)),
        Some(steps) => {
            let setting = Setting {
                head,
                mode,
                patience,
                steps,
            };
            Ok(Step::Goes(Stage::Listing(setting, Listed::new(alloc))))
        }
    }
}
