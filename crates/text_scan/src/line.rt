//! The lines of a text.
ghost use Rattle.std.specs.Prelude.{◌≡◌, ◌∷◌, [], ◌<◌, length, MatchOption, IfSome};
ghost use Rattle.text_scan.specs.Lines as lines;

use crate::cut::next_line;

/// The first line, without its line end, and the bytes after it; None where there is nothing left.
pub fn split_line(bytes: &[u8]) -> Option<(&[u8], &[u8])>
    ensures split { MatchOption result (bytes.now ≡ []) (λ cut. lines.lines_of bytes.now ≡ cut.0.now ∷ lines.lines_of cut.1.now) }
    ensures shorter { IfSome result (λ cut. length cut.1.now < length bytes.now) }
{
    if bytes.is_empty() {
        return None;
    }
    if let Some((line, after)) = next_line(bytes) {
        return Some((line, after));
    }
    Some((bytes, &[]))
}

/// The line without one CR at its end.
pub fn without_cr(line: &[u8]) -> &[u8]
    ensures { result.now ≡ lines.without_cr line.now }
{
    match line.strip_suffix(b"\r") {
        Some(text) => text,
        None => line,
    }
}
