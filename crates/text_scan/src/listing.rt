//! Files with a label on each line.
ghost use Rattle.std.specs.Prelude.{◌≡◌, ◌↔◌, ◌-◌, ◌^◌, ◌<◌, length, IsTrue, MatchResult};
ghost use Rattle.lts_base.specs.Alphabet.{IsLabel};
ghost use Rattle.text_scan.specs.Lines.{lines_of};
ghost use Rattle.text_scan.specs.Listing.{IsPlain, IsListing, AddsText, AreThese, IsRefusedBy, IsTextFault, RefusesListing};

use crate::error::LinesError;
use crate::line::{split_line, without_cr};
use lts_base::PackedTexts;
use lts_base::limits::MOST_LABEL_BYTES;
use std::alloc::Global;
use std::str;

/// Whether no byte is below 32.
pub fn is_plain(text: &[u8]) -> bool
    ensures { IsTrue result ↔ IsPlain text.now }
{
    text.iter().all(|b| *b >= 32)
}

/// The labels of a list file: one on each line, empty lines are skipped. There are fewer than
/// 2^32 - 1 lines.
pub fn read_list(alloc: Global, bytes: &[u8]) -> Result<PackedTexts, LinesError>
    requires { length (lines_of bytes.now) < 2 ^ 32 - 1 }
    ensures read { MatchResult result (IsListing bytes.now) (RefusesListing bytes.now) }
    ensures only { (labels : _) → IsListing bytes.now labels → AreThese labels result }
    ensures fault { (e : _) → RefusesListing bytes.now e → ¬ (e ≡ LinesError.Memory) → IsRefusedBy e result }
{
    read_lines(alloc, bytes)
}

fn read_lines(alloc: Global, bytes: &[u8]) -> Result<PackedTexts, LinesError>
    requires { length (lines_of bytes.now) < 2 ^ 32 - 1 }
    ensures { MatchResult result (IsListing bytes.now) (RefusesListing bytes.now) }
{
    let mut texts = PackedTexts::new(alloc);
    let mut rest = bytes;
    let mut number: u32 = 0;
    while let Some((line, after)) = split_line(rest) {
        number += 1;
        let text = without_cr(line);
        add(&mut texts, text, number)?;
        rest = after;
    }
    Ok(texts)
}

fn add(texts: &mut PackedTexts, text: &[u8], number: u32) -> Result<(), LinesError>
    ensures { MatchResult result (λ _. AddsText texts.old text.now texts.new) (IsTextFault text.now number) }
{
    if text.is_empty() {
        return Ok(());
    }
    test_label(text, number)?;
    texts.push(text)?;
    Ok(())
}

fn test_label(text: &[u8], number: u32) -> Result<(), LinesError>
    requires { 0 < length text.now }
    ensures { MatchResult result (λ _. IsLabel text.now) (IsTextFault text.now number) }
{
    if str::from_utf8(text).is_err() {
        return Err(LinesError::NotUtf8(number));
    }
    if !is_plain(text) {
        return Err(LinesError::Line(number));
    }
    if text.len() > MOST_LABEL_BYTES {
        return Err(LinesError::LabelLong(number));
    }
    Ok(())
}
